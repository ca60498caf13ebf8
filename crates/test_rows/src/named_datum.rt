//! A named root datum: its simple roots and simple coroots.

ghost use Rattle.std.specs.Prelude.{◌≤◌};

use crate::classical::{
    A_1, A_2, A_3, A_4, A_5, A_6, A_7, A_8, B_2, B_3, B_4, B_5, B_6, C_3, C_4, C_5, C_6, D_4, D_5,
    D_6,
};
use crate::exceptional::{E_6, E_7, E_8, F_4, G_2};

/// Eight entries, those past the rank 0.
type Vector = [i128; 8];

/// The unit vectors.
const UNITS: [Vector; 8] = [
    [1, 0, 0, 0, 0, 0, 0, 0],
    [0, 1, 0, 0, 0, 0, 0, 0],
    [0, 0, 1, 0, 0, 0, 0, 0],
    [0, 0, 0, 1, 0, 0, 0, 0],
    [0, 0, 0, 0, 1, 0, 0, 0],
    [0, 0, 0, 0, 0, 1, 0, 0],
    [0, 0, 0, 0, 0, 0, 1, 0],
    [0, 0, 0, 0, 0, 0, 0, 1],
];

/// The root datum of a Cartan matrix, in as many dimensions as its rank.
#[derive(Drop)]
pub struct NamedDatum {
    rank: usize,
    rows: [Vector; 8],
    ghost small: { rank ≤ 8 },
}

impl NamedDatum {
    /// The datum of a Cartan matrix.
    pub fn of<const L: usize>(cartan: &[[i128; L]; L]) -> NamedDatum
        requires { L ≤ 8 }
    {
        let mut rows = [[0; 8]; 8];
        for i in 0..L {
            rows[i] = padded(&cartan[i]);
        }
        NamedDatum { rank: L, rows }
    }

    /// The datum of this name, as `A_3`, if there is one.
    pub fn named(name: &str) -> Option<NamedDatum> {
        let datum = match name {
            "A_1" => NamedDatum::of(&A_1),
            "A_2" => NamedDatum::of(&A_2),
            "A_3" => NamedDatum::of(&A_3),
            "A_4" => NamedDatum::of(&A_4),
            "A_5" => NamedDatum::of(&A_5),
            "A_6" => NamedDatum::of(&A_6),
            "A_7" => NamedDatum::of(&A_7),
            "A_8" => NamedDatum::of(&A_8),
            "B_2" => NamedDatum::of(&B_2),
            "B_3" => NamedDatum::of(&B_3),
            "B_4" => NamedDatum::of(&B_4),
            "B_5" => NamedDatum::of(&B_5),
            "B_6" => NamedDatum::of(&B_6),
            "C_3" => NamedDatum::of(&C_3),
            "C_4" => NamedDatum::of(&C_4),
            "C_5" => NamedDatum::of(&C_5),
            "C_6" => NamedDatum::of(&C_6),
            "D_4" => NamedDatum::of(&D_4),
            "D_5" => NamedDatum::of(&D_5),
            "D_6" => NamedDatum::of(&D_6),
            "E_6" => NamedDatum::of(&E_6),
            "E_7" => NamedDatum::of(&E_7),
            "E_8" => NamedDatum::of(&E_8),
            "F_4" => NamedDatum::of(&F_4),
            "G_2" => NamedDatum::of(&G_2),
            _ => return None,
        };
        Some(datum)
    }

    /// The number of simple roots, which is the dimension too.
    pub fn rank(&self) -> usize {
        self.rank
    }

    /// The simple roots: the rows of the Cartan matrix.
    pub fn simple_roots(&self) -> &[Vector] {
        &self.rows[..self.rank]
    }

    /// The simple coroots: the unit vectors.
    pub fn simple_coroots(&self) -> &[Vector] {
        &UNITS[..self.rank]
    }
}

/// The vector with zeros behind its end.
fn padded<const L: usize>(entries: &[i128; L]) -> Vector
    requires { L ≤ 8 }
{
    let mut vector = [0; 8];
    for i in 0..L {
        vector[i] = entries[i];
    }
    vector
}
