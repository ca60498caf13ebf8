//! Square matrices over a finite field, each kept as one array.
//!
//! `Dense` stands for a square matrix of lie_ring's `specs/Matrices.antt` whose entries are the
//! numbers of field elements. It is kept as one array of elements, row after row. Rows and columns
//! count from 0, and the dimension is at most 1,024.
//!
//! The contracts cite lie_ring's `specs/Matrices.antt` and lie_field's `specs/FieldRing.antt`.
//! `specs/Flat.antt` is how a matrix is kept and its rows are multiplied, and `specs/Steps.antt` the
//! table of sums by which small fields do so. The crate stands on `lie_field`, `lie_mat` and
//! `lie_ring`.
#![tactic(auto)]

mod matrices;
mod rows;
mod steps;

pub use matrices::Dense;
