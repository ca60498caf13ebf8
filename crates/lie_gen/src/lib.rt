//! The script of the demonstration.
//!
//! `generate` makes a valid script from a number: `specs/Demonstration.antt` says which one, over the texts that are drawn of
//! `specs/Draws.antt`. The crate stands on `itoa` alone.
#![tactic(auto)]

mod draws;
mod letters;
mod samples;
mod script;

pub use script::generate;
