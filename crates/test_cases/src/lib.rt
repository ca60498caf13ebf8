//! Tests of calls: fields, polynomials, small matrices and texts, the values worked out by hand or by GAP; each law
//! that is a public function is called once; a word is reversed and joined with another; and named data have frames.
//!
//! The programs `test_tables` and `test_modules` compare values with those of other programs; here stand the calls
//! that answer none, each in a function with no clause or a narrow one. No other crate stands on this one, and no
//! theorem.
#![tactic(auto)]

#[cfg(test)]
mod fields;
#[cfg(test)]
mod frames;
#[cfg(test)]
mod laws;
#[cfg(test)]
mod matrices;
#[cfg(test)]
mod polynomials;
#[cfg(test)]
mod texts;
#[cfg(test)]
mod words;
