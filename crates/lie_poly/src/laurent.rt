//! The ring of the Laurent polynomials in t and u.

ghost use Rattle.std.specs.Prelude.{refl};

use crate::poly::Poly;
use crate::sizes::{SIZE_LIMIT, is_wide_product, size_of};
use crate::sums::{negatives_of, product_of, sum_of};
use lie_ring::{Ring, RingStop};
use std::alloc::Global;

/// The ring of the Laurent polynomials in t and u with integer coefficients.
///
/// The size of a polynomial is the sum of the absolute values of its coefficients, and its degree
/// the greatest absolute exponent.
#[derive(Clone, Copy, Debug, PartialEq, Eq, Hash)]
pub struct Laurent;

impl Ring for Laurent {
    type Elem = Poly;

    ghost use Rattle.lie_poly.specs.Polynomials.{laurent};
    ghost use Rattle.lie_poly.specs.LaurentLaws.{laurent_ring};

    ghost ring = { λ _. laurent };

    ghost zero = { laurent.zero };

    ghost one_zero = { λ _. refl };

    ghost is_ring = { λ _. laurent_ring };

    fn zero(&self, alloc: Global) -> Result<Poly, RingStop> {
        Ok(Poly {
            terms: Vec::new(alloc),
        })
    }

    fn one(&self, alloc: Global) -> Result<Poly, RingStop> {
        Poly::term(alloc, 1, 0, 0)
    }

    fn of_int(&self, alloc: Global, n: i128) -> Result<Poly, RingStop> {
        Poly::term(alloc, n, 0, 0)
    }

    fn copy(&self, _alloc: Global, a: &Poly) -> Result<Poly, RingStop> {
        match a.terms.clone() {
            Ok(terms) => Ok(Poly { terms }),
            Err(_) => Err(RingStop::NoMemory),
        }
    }

    fn add(&self, alloc: Global, a: &Poly, b: &Poly) -> Result<Poly, RingStop> {
        if size_of(&a.terms) + size_of(&b.terms) >= SIZE_LIMIT {
            return Err(RingStop::Wide);
        }
        match sum_of(alloc, &a.terms, &b.terms) {
            Ok(terms) => Ok(Poly { terms }),
            Err(_) => Err(RingStop::NoMemory),
        }
    }

    fn neg(&self, alloc: Global, a: &Poly) -> Result<Poly, RingStop> {
        match negatives_of(alloc, &a.terms) {
            Ok(terms) => Ok(Poly { terms }),
            Err(_) => Err(RingStop::NoMemory),
        }
    }

    fn mul(&self, alloc: Global, a: &Poly, b: &Poly) -> Result<Poly, RingStop> {
        if is_wide_product(&a.terms, &b.terms) {
            return Err(RingStop::Wide);
        }
        match product_of(alloc, &a.terms, &b.terms) {
            Ok(terms) => Ok(Poly { terms }),
            Err(_) => Err(RingStop::NoMemory),
        }
    }

    fn same(&self, a: &Poly, b: &Poly) -> bool {
        a.terms == b.terms
    }
}
