//! Why a line is refused.
use crate::kept::Numbers;
use std::alloc::{AllocError, AllocFailed};
use thiserror::Error;

/// The names of the faults of lines.
#[derive(Clone, Copy, Debug, Drop, PartialEq, Eq)]
pub enum FaultName {
    /// The line has more than 65,536 bytes.
    Long,
    /// The byte at a column is no printable character and no tab.
    Byte,
    /// The first field is no word of the language.
    Command,
    /// The word is a command, and no group is loaded.
    Unloaded,
    /// The word is not the one that is awaited.
    Order,
    /// The number of fields behind the word.
    Fields,
    /// The field at a column spells no number.
    Number,
    /// The number at a column is not in its range.
    Range,
    /// The number at a column is no signed number of a root.
    Root,
    /// The number at a column is no index of a simple root, nor, in `entry`, the opposite of one.
    Simple,
    /// The number of letters, where there are too many.
    Letters,
    /// The field at a column spells no letter.
    Letter,
    /// The torus letter at a column has not d elements, or one that is 0.
    Torus,
    /// The number at a column, or one in the letter there, is that of no element.
    Value,
    /// The two roots are equal or opposite.
    Opposite,
    /// The field at a column spells no name of a module.
    Name,
    /// The field at a column is no kind of module.
    Kind,
    /// No module has the name at a column.
    Unknown,
    /// A module has the name at a column.
    Taken,
    /// As many modules are there as may be.
    Full,
    /// The sum of the weights, each times its number, isn't the unit vector: the first coordinate that differs, and its value.
    Sum,
    /// No word of the group has the matrix.
    Outside,
    /// The dimension is not in 1..=8, or there are more simple roots than that.
    Size,
    /// The input ended before it may.
    End,
}

/// The first failing check of a line: its name, and the column or count that it speaks of.
#[derive(Clone, Copy, Debug, Drop, PartialEq, Eq)]
pub enum Fault {
    Bare(FaultName),
    At(FaultName, usize),
}

/// A fault as callers see it. Columns count from 1.
#[derive(Drop)]
pub struct LineFault {
    pub name: FaultName,
    pub numbers: Numbers,
}

/// Why a reader that takes memory has no value.
#[derive(Debug, Drop, Error)]
pub(crate) enum Stop {
    #[error("out of memory")]
    NoMemory,
    #[error("a check of the line fails")]
    Faulty(Fault),
}

impl From<Fault> for Stop {
    ghost use Rattle.std.specs.Prelude.{◌≡◌};
    ghost use Rattle.lie_script.specs.declared.faults.Stop.TheVariants.{Faulty};

    ghost from_gives = { λ fault stop. stop ≡ Faulty fault };

    fn from(fault: Fault) -> Stop {
        Stop::Faulty(fault)
    }
}

impl From<AllocError> for Stop {
    ghost use Rattle.std.specs.Prelude.{◌≡◌};
    ghost use Rattle.lie_script.specs.declared.faults.Stop.TheVariants.{NoMemory};

    ghost from_gives = { λ _ stop. stop ≡ NoMemory };

    fn from(_error: AllocError) -> Stop {
        Stop::NoMemory
    }
}

impl<T: Drop> From<AllocFailed<T>> for Stop {
    ghost use Rattle.std.specs.Prelude.{◌≡◌};
    ghost use Rattle.lie_script.specs.declared.faults.Stop.TheVariants.{NoMemory};

    ghost from_gives = { λ _ stop. stop ≡ NoMemory };

    fn from(_failed: AllocFailed<T>) -> Stop {
        Stop::NoMemory
    }
}
