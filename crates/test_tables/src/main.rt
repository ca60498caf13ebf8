//! Tables of values from outside: each row of standard input is a question, and the program writes its own value
//! beside it.
//!
//! The stored output was written from the values of GAP, of LiE and of the literature, and from what
//! `bench/tables.py` works out from the definitions, never from this program; so a wrong value is a difference of
//! text. A row is `QUESTION: LISTS`: lists of whole numbers with bars between them, `-` for the empty list. Lines
//! without a colon are headings. A row `datum` or `field` loads what the rows below it are about. `roots` has the
//! rows on root data, `constants` those on structure constants, `elements` those on the Weyl group, `products`
//! those on the unipotent radical, `vectors` those on the torus.
#![tactic(auto)]

mod constants;
mod elements;
mod products;
mod questions;
mod roots;
mod vectors;

use crate::questions::answers;
use std::io;

fn main(rt: HostRuntime) -> io::Result<()> {
    let alloc = rt.alloc();
    let mut lines = Vec::new(alloc);
    for line in rt.lines(alloc) {
        lines.push(line?)?;
    }
    for line in &answers(alloc, &lines)? {
        println!(rt; "{line}")?;
    }
    Ok(())
}
