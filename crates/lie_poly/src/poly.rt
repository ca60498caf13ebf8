//! Laurent polynomials in t and u: terms, coefficients, differences.

ghost use Rattle.std.specs.Prelude.{◌≡◌, ◌^◌, ◌<◌, ◌≤◌, T, nat_abs, IfOk, OnOk, MatchOption};
ghost use Rattle.lie_ring.specs.Rings.{Fits};
ghost use Rattle.lie_poly.specs.Terms.{is_canonical};
ghost use Rattle.lie_poly.specs.Polynomials.{coefficient, monomial, laurent};
ghost use Rattle.lie_poly.specs.Differences.{IsFirstDifference};

use crate::differences::{coefficient_of, first_difference_of};
use crate::sizes::SIZE_LIMIT;
use crate::sums::push_kept;
use crate::term::Term;
use lie_ring::RingStop;
use std::alloc::Global;
use std::marker::Model;

/// A Laurent polynomial in t and u with integer coefficients.
///
/// It keeps its terms by rising exponent of t, then of u, and none with the coefficient 0.
#[derive(Drop)]
pub struct Poly {
    pub(crate) terms: Vec<Term>,
    ghost canonical: { T (is_canonical terms.items) },
}

impl Model for Poly {
    ghost use Rattle.lie_poly.specs.Polynomials.{Polynomial, polynomial_code};

    ghost Value = { Polynomial };

    ghost coded = { polynomial_code };

    ghost view = { λ a. record { terms = a.terms.items; canonical = a.canonical } };
}

impl Poly {
    /// The polynomial `c t^et u^eu`.
    pub fn term(alloc: Global, c: i128, et: i32, eu: i32) -> Result<Poly, RingStop>
        requires t_small { nat_abs et < 2 ^ 30 }
        requires u_small { nat_abs eu < 2 ^ 30 }
        ensures fits { IfOk result (Fits laurent) }
        ensures value { IfOk result (λ p. p ≡ monomial c et eu) }
        ensures wide { result ≡ Err RingStop.Wide → 2 ^ 126 ≤ nat_abs c }
        ensures narrow { OnOk result (nat_abs c < 2 ^ 126) }
    {
        if c.unsigned_abs() >= SIZE_LIMIT {
            return Err(RingStop::Wide);
        }
        let term = Term {
            exponents: (et, eu),
            coefficient: c,
        };
        let mut terms = Vec::new(alloc);
        match push_kept(&mut terms, term) {
            Ok(()) => Ok(Poly { terms }),
            Err(_) => Err(RingStop::NoMemory),
        }
    }

    /// The coefficient of `t^et u^eu`, 0 where there is no such term.
    pub fn coeff(&self, et: i32, eu: i32) -> i128
        ensures { result ≡ coefficient self.now et eu }
    {
        coefficient_of(&self.terms, (et, eu))
    }

    /// The exponents of t and of u where two polynomials first differ, and the coefficients of
    /// both there: the least exponent of t, then of u.
    pub fn first_difference(&self, other: &Poly) -> Option<(i32, i32, i128, i128)>
        ensures { MatchOption result (self.now ≡ other.now)
            (λ d. IsFirstDifference (coefficient self.now) (coefficient other.now) d.0 d.1 d.2 d.3) }
    {
        first_difference_of(&self.terms, &other.terms)
    }
}
