//! Products of root elements over a ring: one element of the ring for each positive root, in order.
//!
//! A `Unip` stands for the product of its root elements, its full word. `push`, `mul` and `inv`
//! collect a word into such a list, and `split` collects it for the order in which the roots that a
//! Weyl element keeps positive come first, and cuts it between the two groups. Contracts cite the
//! collected list, `IsCollected` of `specs/Collection.antt`, and its parts, `IsSplit` of
//! `specs/Splitting.antt`; the laws of collected lists are public functions of `laws`. The ring is
//! roomy throughout, so that want of memory is the only refusal. A `Form` is a Bruhat form over a
//! field, `IsForm` of `specs/Forms.antt`, and `to_word` writes its word. The crate stands on
//! `lie_letters` for words and frames, on `lie_const` for the terms of commutators, on `lie_weyl` and
//! `lie_datum`, on `lie_field`, and on `lie_ring`.
#![tactic(auto)]

mod collector;
mod form;
mod laws;
mod lists;
mod orders;
mod rows;
mod terms;
mod unip;

pub use form::Form;
pub use laws::{carries_answers, collects_once, drops_zeros, joins_answers};
pub use unip::Unip;
