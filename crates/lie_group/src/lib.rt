//! The group of a field and a root datum: its frame, and its carrier.
//!
//! `make_frame` makes the frame of a field and a datum, or answers the first of the demands of `specs/Loading.antt` that
//! the datum does not meet; `one_frame` is the law that there is one answer. `Group::load` makes the group of a frame, or
//! answers the first fault that `specs/Groups.antt` names; `one_group` is the law that there is one answer. A `Group` keeps
//! its frame and its carrier, which is audited for the frame and covering over its field (`Group::lawful`). Its other calls
//! are those of `lie_bruhat` and `lie_audit` for this frame: forms of words, products and inverses of forms, the audit of
//! any module, the matrices of words on audited modules, and the forms of matrices on covering ones.
//!
//! The crate stands on `lie_reduce`, `lie_bruhat`, `lie_unip`, `lie_audit`, `lie_identities`, `lie_poly`, `lie_dense`, `lie_letters`,
//! `lie_weight`, `lie_orbit`, `lie_mat`, `lie_weyl`, `lie_const`, `lie_datum`, `lie_field`, `lie_ring` and `thiserror`.
#![tactic(auto)]

mod carriers;
mod faults;
mod group;
mod laws;
mod loading;

pub use faults::LoadFault;
pub use group::Group;
pub use laws::{one_frame, one_group};
pub use loading::make_frame;
