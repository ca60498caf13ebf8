//! Weights of a root datum: how they pair with the coroots, how they are lowered, and their orbits.
//!
//! `first_large_pairing` tests whether a weight is minuscule, that is whether it pairs with each coroot
//! to -1, 0 or 1: `specs/Weights.antt`.
//! `lower` takes roots away from a weight until it is minuscule: `specs/Lowering.antt`. `orbit` lists
//! the orbit of a minuscule weight in order: `specs/Orbits.antt`. The laws are public functions of
//! `laws`, with their statements in `specs/Laws.antt`. The crate stands on `lie_datum`, `lie_base`,
//! `indexmap` and `thiserror`.
#![tactic(auto)]

mod faults;
mod growth;
mod laws;
mod levels;
mod lowering;
mod minuscule;
mod orbits;
mod vectors;

pub use faults::OrbitFault;
pub use laws::{lowers_one_way, orbits_are_one_list, orbits_have_one_size, small_sums_vanish};
pub use lowering::{first_high, lower, lowered_by};
pub use minuscule::first_large_pairing;
pub use orbits::orbit;
pub use vectors::less_multiple;
