//! Commutative rings with one whose elements have sizes, and homomorphisms between them.
//!
//! `Ring` is the trait that every crate above computes over. An implementation names the ring that
//! it stands for, a `RingOn` of `specs/Rings.antt`, and proves that it is one (`IsRing`). `Ints` is
//! the ring of the integers, on `i128`; the finite fields and the Laurent polynomials stand in
//! crates of their own. A ring is roomy if none of its calls is ever `Wide`.
//!
//! Matrices over a ring are defined in `specs/Matrices.antt`; `specs/MatrixAlgebra.antt` states their
//! laws and what a homomorphism does to them, which `matrix_laws` and `matrix_images` publish.
//!
//! What follows from the laws stands in `specs/RingLemmas.antt`, `specs/SumLemmas.antt` and
//! `specs/HomLemmas.antt`, and of matrices in `specs/MatrixLaws.antt`, `specs/MatrixColumns.antt` and
//! `specs/MatrixImages.antt`. The crate stands on `thiserror` alone.
#![tactic(auto)]

mod from_integers;
mod homs;
mod integers;
mod laws;
mod rings;
mod roomy;

pub use from_integers::FromIntegers;
pub use homs::Hom;
pub use integers::Ints;
pub use laws::{matrix_images, matrix_laws};
pub use rings::{Ring, RingStop};
pub use roomy::{roomy_add, roomy_copy, roomy_mul, roomy_neg, roomy_of_int, roomy_one, roomy_zero};

#[cfg(test)]
mod tests;
