//! Replays the cases of a file of transcripts through `lie`, and prints the file as it came out.
//!
//! A case has the words of the command line, the lines of a script, the replies and the status; the head of
//! the file (`stdin`) explains how each is written. Replies and status are printed as the program gives them,
//! all else as it was read. So the output is the file itself where each case holds, and `stdout` is the same
//! file; a difference is seen as a difference of text. No theorem rests on this crate.
#![tactic(auto)]

mod case;
mod case_sink;
mod replay;
mod script;
mod spelling;
mod transcript;

use anyhow::Error;
use transcript::replayed;

fn main(rt: HostRuntime) -> Result<(), Error> {
    let mut scripts = Vec::new(rt.alloc());
    let mut paragraph = Vec::new(rt.alloc());
    for line in rt.lines(rt.alloc()) {
        let line = line?;
        if line.is_empty() {
            let text = replayed(rt.alloc(), &mut scripts, &paragraph)?;
            println!(rt; "{text}")?;
            paragraph.clear();
        } else {
            paragraph.push(line)?;
        }
    }
    let text = replayed(rt.alloc(), &mut scripts, &paragraph)?;
    print!(rt; "{text}")?;
    Ok(())
}
