//! Structure constants of a root datum, and the terms of commutators of root elements.
//!
//! `Constants::load` determines the constants of `specs/StructureConstants.antt` in the order given there, reads
//! the terms of `specs/CommutatorTerms.antt` from them, and answers the first that has no value. It is the only way to
//! make a `Constants`. Contracts see one as its values and terms by pairs of roots, `specs/ConstantTables.antt`, which
//! also says what `load` answers. After `load` every call is a look-up and takes no memory.
//!
//! `Signs` is the table of the signs of the Weyl representatives on root elements, `specs/Signs.antt`. The definitions
//! that these rest on stand here too: modules, `specs/Modules.antt`, and the adjoint module, `specs/Adjoint.antt`. The crate
//! stands on `lie_datum`, `lie_ring`, `lie_base` and `thiserror`.
#![tactic(auto)]

mod constants;
mod faults;
mod filling;
mod laws;
mod signs;
mod term;
mod term_lists;
mod terms;
mod values;

pub use constants::Constants;
pub use faults::ConstFault;
pub use laws::{one_answer, one_table};
pub use signs::Signs;
pub use term::Term;
