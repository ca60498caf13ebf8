//! An element of a field, by its number.

ghost use Rattle.std.specs.Prelude.{◌≡◌, ℕ};

use std::marker::Model;

/// An element of a field, by its number below q.
///
/// It does not know its field: `Field::elem` makes one, and the calls of the field take it.
#[derive(Clone, Copy, Debug, PartialEq, Eq)]
pub struct Fe {
    pub(crate) number: u32,
}

impl Model for Fe {
    ghost Value = { ℕ };

    ghost view = { λ a. a.number };

    ghost inverse = { λ n. record { number = n } };
}

impl Fe {
    /// The zero of every field.
    pub fn zero() -> Fe
        ensures { result ≡ 0 }
    {
        Fe { number: 0 }
    }

    /// The number whose digits in base p are the coefficients, the constant coefficient lowest.
    pub fn number(self) -> u32
        ensures { result ≡ self }
    {
        self.number
    }
}
