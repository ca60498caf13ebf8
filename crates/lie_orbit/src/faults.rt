//! Why an orbit is not listed.

ghost use Rattle.std.specs.Prelude.{◌≡◌};
ghost use Rattle.lie_orbit.specs.declared.faults.OrbitFault.TheVariants.{NoMemory};

use std::alloc::{AllocError, AllocFailed};
use thiserror::Error;

/// `IsOrbitFault` of `specs/Orbits.antt` says when each of these comes.
#[derive(Debug, PartialEq, Eq, Drop, Error)]
pub enum OrbitFault {
    #[error("out of memory")]
    NoMemory,
    /// The orbit has more than 1,024 weights.
    #[error("the orbit has more than 1024 weights")]
    TooMany,
}

impl From<AllocError> for OrbitFault {
    ghost from_gives = { λ _ e. e ≡ NoMemory };

    fn from(_e: AllocError) -> OrbitFault {
        OrbitFault::NoMemory
    }
}

impl<T: Drop> From<AllocFailed<T>> for OrbitFault {
    ghost from_gives = { λ _ e. e ≡ NoMemory };

    fn from(_e: AllocFailed<T>) -> OrbitFault {
        OrbitFault::NoMemory
    }
}
