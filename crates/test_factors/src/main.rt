//! Triangular factors: each row of standard input is a matrix, and the program writes beside it the factors that `udl` answers.
//!
//! The stored output is that of `bench/factors.py`, which multiplies all triples of triangular matrices and takes no matrix
//! apart; so a wrong value is a difference of text. Rows are those of `test_rows`, with the rows of a matrix between
//! strokes; they are about the last row `field`.
#![tactic(auto)]

mod factors;
mod matrices;
mod questions;

use crate::questions::answers;
use std::io;

fn main(rt: HostRuntime) -> io::Result<()> {
    let alloc = rt.alloc();
    let mut lines = Vec::new(alloc);
    for line in rt.lines(alloc) {
        lines.push(line?)?;
    }
    for line in &answers(alloc, &lines)? {
        println!(rt; "{line}")?;
    }
    Ok(())
}
