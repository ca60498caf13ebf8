//! Why signs or braid values are not as they should be.

ghost use Rattle.std.specs.Prelude.{◌≡◌};
ghost use Rattle.lie_audit.specs.declared.faults.SignFault.TheVariants.{NoMemory};

use lie_datum::RootId;
use std::alloc::{AllocError, AllocFailed};
use thiserror::Error;

/// The first of the signs that is not as it should be. `specs/SignAnswers.antt` says when each one comes.
#[derive(Debug, PartialEq, Eq, Drop, Error)]
pub enum SignFault {
    #[error("out of memory")]
    NoMemory,
    /// The simple index i, the root s and the sign.
    #[error("the sign of the simple index {} and the root {} is {}", .0, .1.number(), .2)]
    Sign(usize, RootId, i128),
}

/// The first pair i < j whose braid value is not 1.
#[derive(Debug, PartialEq, Eq, Drop, Error)]
#[error("the braid value of {i} and {j} is {value}")]
pub struct BraidFault {
    pub i: usize,
    pub j: usize,
    pub value: i128,
}

impl From<AllocError> for SignFault {
    ghost from_gives = { λ _ e. e ≡ NoMemory };

    fn from(_e: AllocError) -> SignFault {
        SignFault::NoMemory
    }
}

impl<T: Drop> From<AllocFailed<T>> for SignFault {
    ghost from_gives = { λ _ e. e ≡ NoMemory };

    fn from(_e: AllocFailed<T>) -> SignFault {
        SignFault::NoMemory
    }
}
