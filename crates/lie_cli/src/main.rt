//! The program: a session over standard input and output.
//!
//! `main` alone: it calls `lie_session::lie` with the words of the command line, tells a failure on
//! standard error, and ends with the status.
#![tactic(auto)]

ghost use Rattle.std.specs.Prelude.{◌≡◌, ◌⊎◌, IfErr};
ghost use Rattle.lie_cli.specs.Endings.{exit_status, complaint as complaint_text};

use lie_kit::{StdSink, StdSource};
use lie_session::{Status, lie};
use std::alloc::Global;
use std::env;
use std::io::ErrorKind;
use std::process::ExitCode;

/// The words of the command line without the program's name. Where one isn't UTF-8 they aren't
/// those of the program.
fn words(rt: &HostRuntime, alloc: Global) -> Result<Vec<String>, Status>
    ensures { IfErr result (λ status. (status ≡ Status.Usage) ⊎ (status ≡ Status.NoMemory)) }
{
    match env::args(rt) {
        Ok(args) => args.skip(1).collect(alloc).map_err(|_| Status::NoMemory),
        Err(error) if error.kind() == ErrorKind::OutOfMemory => Err(Status::NoMemory),
        Err(_) => Err(Status::Usage),
    }
}

/// The exit status.
fn code(status: Status) -> u8
    ensures { result ≡ exit_status status }
{
    match status {
        Status::Done => 0,
        Status::Refused => 1,
        Status::Usage => 2,
        Status::LoadRefused => 3,
        Status::ReadFault => 4,
        Status::WriteFault => 5,
        Status::NoMemory => 6,
        Status::TooLong => 7,
    }
}

/// What is said of a failure, and nothing of the other statuses.
fn complaint(status: Status) -> &'static str
    ensures { result.now ≡ complaint_text status }
{
    match status {
        Status::Done | Status::Refused | Status::LoadRefused => "",
        Status::Usage => "usage: lie run | lie check | lie demo <n>\n",
        Status::ReadFault => "lie: read fault\n",
        Status::WriteFault => "lie: write fault\n",
        Status::NoMemory => "lie: no memory\n",
        Status::TooLong => "lie: input too long\n",
    }
}

fn main(rt: HostRuntime) -> ExitCode {
    let status = match words(&rt, rt.alloc()) {
        Ok(words) => {
            let mut source = StdSource::new(rt.stdin());
            let mut sink = StdSink::new(rt.stdout());
            lie(rt.alloc(), &words, &mut source, &mut sink)
        }
        Err(status) => status,
    };
    let _ = eprint!(rt; "{}", complaint(status));
    ExitCode::from(code(status))
}
