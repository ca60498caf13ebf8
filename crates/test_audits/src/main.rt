//! Audits: each row of standard input is a module to audit, and the program writes beside it what `audit` answers.
//!
//! The stored output was worked out from the relations, by hand and by `bench/audits.py`, never by this program; so a wrong value is a
//! difference of text. Rows are those of `test_rows`. A module is made for the last row `made for`, with the signs of the last row
//! `made with`, and is audited for the last rows `datum` and `signs`; an adjoint module has the signs that are read off it. A table
//! of entries, each as i, k, row, column and value, stands for the module of the last row `weights`, made and audited for the last
//! rows `datum` and `signs`; a row `power` has a number before such a table, and stands for the tensor product of so many copies of
//! that module.
//! Behind a row `field` an answer says too whether the module is covering over it.
#![tactic(auto)]

mod audits;
mod questions;
mod tables;
mod texts;

use crate::questions::answers;
use std::io;

fn main(rt: HostRuntime) -> io::Result<()> {
    let alloc = rt.alloc();
    let mut lines = Vec::new(alloc);
    for line in rt.lines(alloc) {
        lines.push(line?)?;
    }
    for line in &answers(alloc, &lines)? {
        println!(rt; "{line}")?;
    }
    Ok(())
}
