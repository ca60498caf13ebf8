//! The audit of a module: whether the relations between root elements hold on it, as identities over the Laurent
//! polynomials.
//!
//! `audit` tests a module for a datum, its constants and its signs, and answers it as an `Audited`, or what fails first. It
//! takes one basis vector at a time, as a sparse column. An `Audited` keeps what it is audited for, as clauses see it.
//!
//! `specs/AuditRelations.antt` has the relations S1, S2, S6 and S7 as equations between products of matrices, their
//! order and their sizes; `specs/Audit.antt` says what an audited module is, and which fault comes first where one is not;
//! `specs/Audited.antt` has what an `Audited` keeps. The faults exclude one another and success (`one_audit_answer`), and the
//! modules of `lie_weight` have weights that are small enough (`adjoint_is_light`, `orbit_is_light`, `carrier_is_light`).
//!
//! `Audited::covering` tells whether each root acts over a field and each axis is covered: by a weight (`specs/Covers.antt`),
//! or by a cover line (`specs/CoverLines.antt`), which `Audited::add_cover` keeps where the combination that it gives is the
//! unit vector of its axis. That weights of a carrier cover its axes is a law (`carriers_cover_axes`). The crate is the lower half of lie_audit. It stands on
//! `lie_weight`, `lie_orbit`, `lie_poly`, `lie_const`, `lie_field`, `lie_mat`, `lie_ring`, `lie_datum`, `lie_base` and
//! `thiserror`.
#![tactic(auto)]

mod actions;
mod additions;
mod audited;
mod auditing;
mod bounds;
mod columns;
mod compare;
mod cover_lines;
mod covering;
mod factors;
mod faults;
mod grading;
mod laws;
mod listing;
mod narrow;
mod relations;
mod sides;
mod sizes;
mod steps;

pub use audited::Audited;
pub use auditing::audit;
pub use cover_lines::CoverSum;
pub use covering::{CoverFault, less_axis};
pub use faults::AuditFault;
pub use laws::{
    adjoint_is_light, carrier_is_light, carriers_cover_axes, one_audit_answer, orbit_is_light,
};
pub use relations::Rel;
