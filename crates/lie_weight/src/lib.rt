//! Modules of a root datum.
//!
//! A `Module` is a list of weights with the matrices of each root over the integers: `Module` of lie_const's
//! `specs/Modules.antt`. `Module::adjoint` makes the adjoint module of lie_const's `specs/Adjoint.antt`, and
//! `Module::orbit` that of the orbit of a minuscule weight: `specs/OrbitModules.antt` has the steps of the simple roots,
//! `specs/Conjugation.antt` the matrices of the other roots, and `specs/OrbitFaults.antt` when there is no module.
//! `Module::carrier` makes the direct sum of the adjoint module and of modules of orbits: `specs/Carriers.antt`.
//! `Module::table` makes a module from a table of weights and of matrices of the simple roots: `specs/Tables.antt`.
//! `Module::sum`, `Module::tensor` and `Module::dual` make modules of modules: `specs/Sums.antt`, `specs/Tensors.antt`,
//! `specs/Duals.antt`. `laws` has what follows from the definitions alone.
//! `specs/Kept.antt` is how a module is kept. The crate stands on `lie_const`, `lie_mat`, `lie_ring`, `lie_orbit`,
//! `lie_datum`, `lie_base` and `thiserror`.
#![tactic(auto)]

mod adjoint;
mod along;
mod carrier;
mod completion;
mod dual;
mod elements;
mod entry;
mod factors;
mod faults;
mod filled;
mod heavy;
mod laws;
mod listing;
mod modules;
mod orbit;
mod powers;
mod rules;
mod simple_factors;
mod sources;
mod steps;
mod sums;
mod table;
mod tensor;
mod tensor_powers;

pub use adjoint::place_in_basis;
pub use entry::Entry;
pub use faults::ModuleFault;
pub use laws::{
    adjoint_is_small, one_carrier_answer, one_dual, one_orbit_answer, one_sum_answer,
    one_table_answer, one_tensor_answer,
};
pub use modules::Module;
