//! A session by its calls: what they answer and print nowhere, so that no transcript can say it.
//!
//! All else that the program answers stands in the transcripts of `test_transcripts`. No other crate stands on
//! this one, and no theorem.
#![tactic(auto)]

#[cfg(test)]
mod tests;
