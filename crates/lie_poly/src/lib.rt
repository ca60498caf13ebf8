//! Laurent polynomials in t and u with integer coefficients: their ring, and their values in a field.
//!
//! `Poly` stands for a polynomial of `specs/Polynomials.antt`: the list of its terms `c t^i u^j` by
//! rising exponents, none with the coefficient 0, so a polynomial is determined by its coefficients.
//! `Laurent` is the ring of lie_ring's `Ring` that it is an element of; the size of a polynomial is
//! the sum of the absolute values of its coefficients, and its degree the greatest absolute
//! exponent. Sums merge the terms of both, and products add the multiples of halves.
//!
//! The contracts cite that file, with `specs/Terms.antt` for lists of terms,
//! `specs/Differences.antt` for the first difference of two polynomials and
//! `specs/Evaluation.antt` for the value at elements t and u of a finite field; a value at elements
//! that are not 0 is the image by `Evaluate`, a homomorphism. `specs/Laws.antt` has the laws that
//! `laws` publishes, and the other files of `specs` their proofs. The crate stands on `lie_field` and
//! `lie_ring`.
#![tactic(auto)]

mod differences;
mod evaluation;
mod laurent;
mod laws;
mod poly;
mod sizes;
mod sums;
mod term;

pub use evaluation::Evaluate;
pub use laurent::Laurent;
pub use laws::{
    evaluation_is_homomorphism, monomials_have_values, operations_are_coefficientwise,
    polynomials_are_coefficients,
};
pub use poly::Poly;
