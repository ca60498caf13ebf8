//! What a line says.
use crate::kept::{Numbers, Text};
use lie_letters::Word;

/// A line that passed the checks of reading, with the values that its fields spell.
#[derive(Drop)]
pub enum Line {
    /// Only blanks, or a comment.
    Silent,
    /// The characteristic, the degree, the coefficients c_0 .. c_(k-1), and the number of a generator.
    Field {
        p: u32,
        k: u32,
        coeffs: Numbers,
        g: u32,
    },
    /// The number of coordinates, and that of simple roots.
    Datum {
        d: usize,
        l: usize,
    },
    Root(Numbers),
    Coroot(Numbers),
    /// A word, before the group is loaded.
    Collect(Word),
    Load,
    Form(Word),
    /// Two words, which are compared.
    Same {
        w: Word,
        v: Word,
    },
    /// Two words, of which the product is meant.
    Mul {
        w: Word,
        v: Word,
    },
    /// A word, of which the inverse is meant.
    Inv(Word),
    Roots,
    /// The signed numbers of two roots, neither equal nor opposite.
    Constant {
        r: i32,
        s: i32,
    },
    /// The indices of simple reflections, counted from 1; the last acts first.
    Weyl(Numbers),
    /// The name of the adjoint module.
    Adjoint {
        name: Text,
    },
    /// The name of an orbit's module, and a weight of the orbit.
    Orbit {
        name: Text,
        v: Numbers,
    },
    /// The name of a direct sum, and those of its two modules.
    Sum {
        name: Text,
        a: Text,
        b: Text,
    },
    /// The name of a tensor product, and those of its two modules.
    Tensor {
        name: Text,
        a: Text,
        b: Text,
    },
    /// The name of a dual, and that of its module.
    Dual {
        name: Text,
        a: Text,
    },
    /// The name of a module by tables, and how many weights and entries are read from the lines behind it.
    Table {
        name: Text,
        n: usize,
        e: usize,
    },
    /// The coordinates of a weight of a table.
    Weight(Numbers),
    /// An entry of the matrix of a divided power of `E_i`, or of `E_-i` where `simple` is `-i`. Rows and columns count from 1.
    Entry {
        simple: i32,
        power: u32,
        row: usize,
        col: usize,
        value: i128,
    },
    /// The name of a module, a coordinate counted from 1, and a number for each basis vector of the module.
    Cover {
        name: Text,
        axis: usize,
        c: Numbers,
    },
    /// The name of a module, and a word.
    Matrix {
        name: Text,
        w: Word,
    },
    /// The name of a module, of which a matrix is read from the `row` lines behind it.
    Reduce {
        name: Text,
    },
    /// The numbers of the elements of a row of a matrix, from left to right.
    Row(Numbers),
}
