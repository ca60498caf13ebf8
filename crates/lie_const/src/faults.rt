//! Why the constants of a datum do not load.

ghost use Rattle.std.specs.Prelude.{◌≡◌};
ghost use Rattle.lie_const.specs.declared.faults.ConstFault.TheVariants.{NoMemory};

use lie_datum::RootId;
use std::alloc::{AllocError, AllocFailed};
use thiserror::Error;

/// The first of these faults, in this order. `specs/ConstantTables.antt` says when each one comes.
#[derive(Debug, PartialEq, Eq, Drop, Error)]
pub enum ConstFault {
    #[error("out of memory")]
    NoMemory,
    /// The first pair (r, s) whose forced value fails, with its equation N a = e.
    #[error("the equation of the constant of two roots has no solution")]
    Constant(RootId, RootId, i128, i128),
    /// The first term that isn't whole, at i r + j s.
    #[error("the coefficient of a term of two roots is not whole")]
    Fraction(RootId, RootId, u8, u8),
}

impl From<AllocError> for ConstFault {
    ghost from_gives = { λ _ e. e ≡ NoMemory };

    fn from(_e: AllocError) -> ConstFault {
        ConstFault::NoMemory
    }
}

impl<T: Drop> From<AllocFailed<T>> for ConstFault {
    ghost from_gives = { λ _ e. e ≡ NoMemory };

    fn from(_e: AllocFailed<T>) -> ConstFault {
        ConstFault::NoMemory
    }
}
