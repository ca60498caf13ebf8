//! Bruhat forms of words, of products and of inverses, in every lawful frame.
//!
//! A form u h n_w v (`lie_unip`, `specs/Forms.antt`) stands for every word that its own word is joined to by the
//! relations S0 to S7. `times_letter` multiplies a form by a letter, and `form` does so along a word; `mul` and `inv`
//! take forms apart as they stand. What they answer is `specs/Products.antt`. No module is needed for any of it, and
//! nothing is said of a second form of the same word.
//!
//! Laws are functions that do nothing and whose contracts are the statements of `specs/Rules.antt`: how `n_i` passes
//! the torus, its square, opposite root letters, the words of the `n_i` along shortest words of one Weyl element, and
//! words followed by their reversed words; and that each word has a form. `specs/WeylWords.antt` has the words of
//! letters `n_i` and what they do to roots, signs and torus vectors. The crate stands on `lie_unip`, `lie_letters` and
//! the crates below them.
#![tactic(auto)]

mod bruhat;
mod laws;
mod moving;
mod negative;
mod product;
mod turned;

pub use bruhat::{form, inv, mul, times_letter};
pub use laws::{
    every_word_has_form, inverse_weyl_letters, opposite_root_letters, reversed_cancels,
    shortest_words_joined, weyl_letters_pass_torus, weyl_letters_squared,
};
