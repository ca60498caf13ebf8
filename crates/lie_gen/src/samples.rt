//! The data of demonstrations.

ghost use Rattle.std.specs.Prelude.{◌≡◌};
ghost use Rattle.lie_gen.specs.Demonstration.{sample};

use std::marker::Model;

/// A datum that has as many coordinates as simple roots.
#[derive(Drop)]
pub(crate) struct Sample {
    /// Its lines in a script.
    pub(crate) lines: &'static [u8],
    /// The number of simple roots.
    pub(crate) rank: u32,
    /// The number of positive roots.
    pub(crate) positive: u32,
}

impl Model for Sample {
    ghost use Rattle.lie_gen.specs.Demonstration.{Sample as DefinedSample, IsSample};

    ghost Value = { DefinedSample };

    ghost view = { λ s. record { lines = s.lines.now; rank = s.rank; positive = s.positive } };

    ghost invariant = { λ s. IsSample (record { lines = s.lines.now; rank = s.rank; positive = s.positive }) };
}

impl Sample {
    /// The datum for a number.
    pub(crate) fn of(n: u32) -> Sample
        ensures { result ≡ sample n }
    {
        match n % 3 {
            0 => Sample {
                lines: b"datum 3 3\nroot 2 -1 0\nroot -1 2 -1\nroot 0 -1 2\ncoroot 1 0 0\ncoroot 0 1 0\ncoroot 0 0 1\n",
                rank: 3,
                positive: 6,
            },
            1 => Sample {
                lines: b"datum 3 3\nroot 2 -1 0\nroot -1 2 -1\nroot 0 -2 2\ncoroot 1 0 0\ncoroot 0 1 0\ncoroot 0 0 1\n",
                rank: 3,
                positive: 9,
            },
            _ => Sample {
                lines: b"datum 2 2\nroot 2 -1\nroot -3 2\ncoroot 1 0\ncoroot 0 1\n",
                rank: 2,
                positive: 6,
            },
        }
    }
}
