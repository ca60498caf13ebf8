//! The demonstration: its lines are replied to, and the replies are summed up.
ghost use Rattle.std.specs.Prelude.{◌≡◌, ◌≢◌, ◌+◌, ◌<◌, ◌^◌, ◌++◌, false, [], ◌∷◌, length, OnOk, IfOk};
ghost use Rattle.lie_gen.specs.Demonstration.{demonstration};
ghost use Rattle.lie_session.specs.Lines.{lines_of};
ghost use Rattle.lie_session.specs.Output.{RepliesTo, AreReplies, status_of};
ghost use Rattle.lie_session.specs.State.{fresh};
ghost use Rattle.lie_session.specs.Steps.{RepliedLine, RepliedEnd, Demonstrated};
ghost use Rattle.lie_session.specs.Summary.{heard, refused, yes, entry, summary as summary_text, IsSummary};
ghost use Rattle.lie_session.specs.Tasks.{IsDemoNumber};

use crate::cutting::first_line;
use crate::ending::{status, stopped};
use crate::mode::Mode;
use crate::output::write_all;
use crate::reply::Reply;
use crate::session::Session;
use crate::status::Status;
use lie_gen::generate;
use lie_kit::Sink;
use lie_script::put_number;
use std::alloc::{AllocError, Global};

/// The replies to a script, and the number of its lines.
#[derive(Drop)]
struct Replies {
    lines: usize,
    list: Vec<Reply>,
    status: Status,
}

/// Replies to a line, where the session goes on.
fn reply_to_line(
    alloc: Global,
    session: &mut Session,
    number: usize,
    line: &[u8],
    replies: &mut Vec<Reply>,
) -> Result<(), AllocError>
    ensures { OnOk result (RepliedLine number line.now session.old session.new replies.old.items replies.new.items) }
{
    if Mode::Run.rests(session) {
        return Ok(());
    }
    let reply = session.line(alloc, number as u64, line)?;
    replies.push(reply)?;
    Ok(())
}

/// Replies to the lines of a script: how many there are.
fn reply_to_lines(
    alloc: Global,
    session: &mut Session,
    script: &[u8],
    replies: &mut Vec<Reply>,
) -> Result<usize, AllocError>
    requires fresh { session.old ≡ fresh }
    requires none { replies.old.items ≡ [] }
    ensures { IfOk result (λ lines. (lines ≡ length (lines_of script.now)) × RepliesTo Mode.Run fresh 0 (lines_of script.now) replies.new.items session.new) }
{
    let mut lines = 0;
    let mut rest = script;
    'lines: while !rest.is_empty() {
        let (line, behind) = first_line(rest);
        lines += 1;
        reply_to_line(alloc, session, lines, line, replies)?;
        rest = behind;
    }
    Ok(lines)
}

/// Replies to the end of a script, where the session goes on.
fn reply_to_end(
    alloc: Global,
    session: &mut Session,
    lines: usize,
    replies: &mut Vec<Reply>,
) -> Result<(), AllocError>
    ensures { OnOk result (RepliedEnd lines session.old session.new replies.old.items replies.new.items) }
{
    if Mode::Run.rests(session) {
        return Ok(());
    }
    let reply = session.end(alloc, lines as u64)?;
    replies.push(reply)?;
    Ok(())
}

/// Replies to a script, in a session in which nothing was heard.
fn replies_in(alloc: Global, session: &mut Session, script: &[u8]) -> Result<Replies, AllocError>
    requires { session.old ≡ fresh }
    ensures { IfOk result (λ replies. (replies.lines ≡ length (lines_of script.now)) × AreReplies Mode.Run script.now replies.list.items × (replies.status ≡ status_of replies.list.items)) }
{
    let mut list = Vec::new(alloc);
    let lines = reply_to_lines(alloc, session, script, &mut list)?;
    reply_to_end(alloc, session, lines, &mut list)?;
    Ok(Replies {
        lines,
        list,
        status: status(session),
    })
}

/// Replies to a script.
fn replies_to(alloc: Global, script: &[u8]) -> Result<Replies, AllocError>
    ensures { IfOk result (λ replies. (replies.lines ≡ length (lines_of script.now)) × AreReplies Mode.Run script.now replies.list.items × (replies.status ≡ status_of replies.list.items)) }
{
    let mut session = Session::new(alloc);
    replies_in(alloc, &mut session, script)
}

/// How many replies say something.
fn count_heard(replies: &[Reply]) -> usize
    ensures { result ≡ length (heard replies.now) }
{
    replies.iter().filter(|reply| reply.kind.is_heard()).count()
}

/// How many are refusals.
fn count_refused(replies: &[Reply]) -> usize
    ensures { result ≡ length (refused replies.now) }
{
    replies
        .iter()
        .filter(|reply| reply.kind.is_refusal())
        .count()
}

/// How many are `yes`.
fn count_yes(replies: &[Reply]) -> usize
    ensures { result ≡ length (yes replies.now) }
{
    replies
        .iter()
        .filter(|reply| reply.bytes.bytes() == b"yes\n".as_slice())
        .count()
}

/// Appends a name and a number.
fn put_entry(out: &mut Vec<u8>, name: &[u8], n: usize) -> Result<(), AllocError>
    ensures { OnOk result (out.new.items ≡ out.old.items ++ entry name.now n) }
{
    out.extend_from_slice(name)?;
    put_number(out, n as i128)
}

/// The summary of the replies.
fn summary(alloc: Global, n: u32, lines: usize, replies: &[Reply]) -> Result<Vec<u8>, AllocError>
    ensures { IfOk result (λ text. text.items ≡ summary_text n lines replies.now) }
{
    let mut out = Vec::new(alloc);
    put_entry(&mut out, b"demo ", n as usize)?;
    put_entry(&mut out, b" lines ", lines)?;
    put_entry(&mut out, b" replies ", count_heard(replies))?;
    put_entry(&mut out, b" refused ", count_refused(replies))?;
    put_entry(&mut out, b" yes ", count_yes(replies))?;
    out.extend_from_slice(b"\n")?;
    Ok(out)
}

/// The summary of the demonstration of a number, and its status.
fn summed_up(alloc: Global, n: u32) -> Result<(Vec<u8>, Status), AllocError>
    requires { IsDemoNumber n }
    ensures { IfOk result (λ told. IsSummary n told.0.items told.1) }
{
    let script = generate(alloc, n)?;
    let replies = replies_to(alloc, &script)?;
    let text = summary(alloc, n, replies.lines, &replies.list)?;
    Ok((text, replies.status))
}

/// Replies to the demonstration of a number, and writes the summary of the replies.
pub(crate) fn demonstrate<K: Sink>(alloc: Global, n: u32, sink: &mut K) -> Status
    requires { IsDemoNumber n }
    ensures { Demonstrated n (K.written sink.old) (K.written sink.new) (K.faults sink.old) (K.faults sink.new) result }
{
    match summed_up(alloc, n) {
        Ok((text, status)) => match write_all(sink, &text) {
            Ok(()) => status,
            Err(stop) => stopped(stop),
        },
        Err(_) => Status::NoMemory,
    }
}
