//! Matrices read back: each row of standard input is a matrix, and the program writes beside it what `pivots`, `peel` or
//! `reduce` answers.
//!
//! The stored output was found by multiplying the matrices of letters, and never by this program; so a wrong value is a
//! difference of text. Rows are those of `test_rows`, with the rows of a matrix between strokes. They are about the last rows
//! `field` and `datum`, and the module of the orbit of the last row `orbit`.
#![tactic(auto)]

mod forms;
mod groups;
mod matrices;
mod questions;
mod readings;

use crate::questions::answers;
use std::io;

fn main(rt: HostRuntime) -> io::Result<()> {
    let alloc = rt.alloc();
    let mut lines = Vec::new(alloc);
    for line in rt.lines(alloc) {
        lines.push(line?)?;
    }
    for line in &answers(alloc, &lines)? {
        println!(rt; "{line}")?;
    }
    Ok(())
}
