//! Why a module is not audited.

ghost use Rattle.std.specs.Prelude.{◌≡◌};
ghost use Rattle.lie_identities.specs.declared.faults.AuditFault.TheVariants.{NoMemory};

use crate::relations::Rel;
use lie_datum::RootId;
use std::alloc::{AllocError, AllocFailed};
use thiserror::Error;

/// What fails first. `specs/Audit.antt` says when each one comes; rows and columns count from 1.
#[derive(Debug, PartialEq, Eq, Drop, Error)]
pub enum AuditFault {
    #[error("out of memory")]
    NoMemory,
    /// The root r, the power k, the row and the column of an entry that is not graded.
    #[error("row {} and column {} of the power {} of the root {} are not graded", .2, .3, .1, .0.number())]
    Graded(RootId, u32, usize, usize),
    #[error("the sizes of the relation {0:?} are too large")]
    Large(Rel),
    /// The coefficients of t^et u^eu on the two sides.
    #[error("the relation {rel:?} has {left} on the left and {right} on the right")]
    Relation {
        rel: Rel,
        row: usize,
        col: usize,
        et: i32,
        eu: i32,
        left: i128,
        right: i128,
    },
}

impl From<AllocError> for AuditFault {
    ghost from_gives = { λ _ e. e ≡ NoMemory };

    fn from(_e: AllocError) -> AuditFault {
        AuditFault::NoMemory
    }
}

impl<T: Drop> From<AllocFailed<T>> for AuditFault {
    ghost from_gives = { λ _ e. e ≡ NoMemory };

    fn from(_e: AllocFailed<T>) -> AuditFault {
        AuditFault::NoMemory
    }
}
