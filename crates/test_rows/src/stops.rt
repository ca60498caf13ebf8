//! Why a row has no answer.

ghost use Rattle.std.specs.Prelude.{◌≡◌};
ghost use Rattle.test_rows.specs.declared.stops.Stop.TheVariants.{NoMemory, NoQuestion};

use std::alloc::{AllocError, AllocFailed};
use std::num::ParseIntError;
use thiserror::Error;

/// Why a row has no answer.
#[derive(Debug, Drop, Error)]
pub enum Stop {
    #[error("out of memory")]
    NoMemory,
    /// The question or its numbers are none that the program knows.
    #[error("not a question")]
    NoQuestion,
}

impl From<AllocError> for Stop {
    ghost from_gives = { λ _ e. e ≡ NoMemory };

    fn from(_e: AllocError) -> Stop {
        Stop::NoMemory
    }
}

impl<T: Drop> From<AllocFailed<T>> for Stop {
    ghost from_gives = { λ _ e. e ≡ NoMemory };

    fn from(_e: AllocFailed<T>) -> Stop {
        Stop::NoMemory
    }
}

impl From<ParseIntError> for Stop {
    ghost from_gives = { λ _ e. e ≡ NoQuestion };

    fn from(_e: ParseIntError) -> Stop {
        Stop::NoQuestion
    }
}
