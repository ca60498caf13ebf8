//! Why there is no module.

ghost use Rattle.std.specs.Prelude.{◌≡◌};
ghost use Rattle.lie_weight.specs.Along.{huge_place};
ghost use Rattle.lie_weight.specs.declared.faults.ModuleFault.TheVariants.{NoMemory};

use lie_datum::RootId;
use lie_orbit::OrbitFault;
use std::alloc::{AllocError, AllocFailed};
use thiserror::Error;

/// The first of these faults, in this order. `specs/OrbitFaults.antt` says when each one comes from an orbit, and
/// `specs/Tables.antt` when from a table.
#[derive(Debug, PartialEq, Eq, Drop, Error)]
pub enum ModuleFault {
    #[error("out of memory")]
    NoMemory,
    /// The first root that pairs with the weight to more than 1, or to less than -1.
    #[error("the weight pairs with the coroot {} to more than 1 or less than -1", .0.number())]
    NotMinuscule(RootId),
    /// The first entry of a table, counted from 1, that stands in the place of an earlier one or does not raise weights by its
    /// power times its root.
    #[error("entry {0} repeats an earlier one or does not fit its weights")]
    Table(usize),
    /// The dimension is above the limit; it is the number, or 1,025 where it is larger.
    #[error("there are {0} weights, or more where that is 1025")]
    Wide(u64),
    /// The first weight, counted from 1, with a coordinate above 1,000,000 in absolute value.
    #[error("weight {0} has a coordinate above 1000000 in absolute value")]
    Heavy(usize),
    /// The first root and power whose conjugation could reach 2^126.
    #[error("the matrix of root {} and power {} could reach 2^126", .0.number(), .1)]
    Huge(RootId, u32),
}

impl ModuleFault {
    /// The root and the power of `Huge`.
    pub(crate) fn huge(self) -> Option<(RootId, u32)>
        ensures { result ≡ huge_place self }
    {
        match self {
            ModuleFault::Huge(r, k) => Some((r, k)),
            _ => None,
        }
    }
}

impl From<AllocError> for ModuleFault {
    ghost from_gives = { λ _ e. e ≡ NoMemory };

    fn from(_e: AllocError) -> ModuleFault {
        ModuleFault::NoMemory
    }
}

impl<T: Drop> From<AllocFailed<T>> for ModuleFault {
    ghost from_gives = { λ _ e. e ≡ NoMemory };

    fn from(_e: AllocFailed<T>) -> ModuleFault {
        ModuleFault::NoMemory
    }
}

impl From<OrbitFault> for ModuleFault {
    ghost use Rattle.lie_weight.specs.OrbitFaults.{module_fault};

    ghost from_gives = { λ f e. e ≡ module_fault f };

    fn from(f: OrbitFault) -> ModuleFault {
        match f {
            OrbitFault::NoMemory => ModuleFault::NoMemory,
            OrbitFault::TooMany => ModuleFault::Wide(1025),
        }
    }
}
