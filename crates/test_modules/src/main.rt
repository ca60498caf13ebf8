//! Tables on modules: each row of standard input is a question, and the program writes its own value beside it.
//!
//! The stored output was written from what `bench/relations.py` works out from the definitions and from values that
//! were worked out by hand, never from this program; so a wrong value is a difference of text. Rows are those of
//! `test_rows`; rows `datum`, `field` and `signs` give what the rows below them are about. `spaces` has the rows on
//! lowered weights, modules, signs and braid values, `words` those on matrices of words, `matrices` those on matrices of
//! integers.
#![tactic(auto)]

mod matrices;
mod questions;
mod spaces;
mod words;

use crate::questions::answers;
use std::io;

fn main(rt: HostRuntime) -> io::Result<()> {
    let alloc = rt.alloc();
    let mut lines = Vec::new(alloc);
    for line in rt.lines(alloc) {
        lines.push(line?)?;
    }
    for line in &answers(alloc, &lines)? {
        println!(rt; "{line}")?;
    }
    Ok(())
}
