//! The values of Laurent polynomials in a finite field, and evaluation as a homomorphism.

ghost use Rattle.std.specs.Prelude.{◌≡◌, ◌≢◌, ◌<◌, ◌⊎◌, ◌≤ℤ◌, pos, refl, All};
ghost use Rattle.lie_field.specs.Quotient.{order, mul, of_int};
ghost use Rattle.lie_field.specs.FieldRing.{field_ring};
ghost use Rattle.lie_poly.specs.Terms.{total_over};
ghost use Rattle.lie_field.specs.Units.{IsUnit};
ghost use Rattle.lie_poly.specs.Evaluation.{monomial_at, evaluation, IsDefinedInT, IsDefinedInU};

use crate::laurent::Laurent;
use crate::poly::Poly;
use crate::term::Term;
use lie_field::{Fe, Field};
use lie_ring::Hom;
use std::alloc::{AllocError, Global};

impl Poly {
    /// The value at elements t and u of a field; a negative exponent is a power of the inverse.
    pub fn at(&self, field: &Field, t: Fe, u: Fe) -> Fe
        requires t_below { t < order field.now.given }
        requires u_below { u < order field.now.given }
        requires t_defined { IsDefinedInT self.now t }
        requires u_defined { IsDefinedInU self.now u }
        ensures value { result ≡ evaluation field.now t u self.now }
        ensures below { result < order field.now.given }
    {
        value_of(&self.terms, field, t, u)
    }
}

/// The sum of the values of the terms.
fn value_of(terms: &[Term], field: &Field, t: Fe, u: Fe) -> Fe
    requires t_below { t < order field.now.given }
    requires u_below { u < order field.now.given }
    requires t_defined { (t ≢ 0) ⊎ All (λ x. pos 0 ≤ℤ x.exponents.0) terms.now }
    requires u_defined { (u ≢ 0) ⊎ All (λ x. pos 0 ≤ℤ x.exponents.1) terms.now }
    ensures value { result ≡ total_over (field_ring field.now) (monomial_at field.now t u) terms.now }
    ensures below { result < order field.now.given }
{
    let mut value = Fe::zero();
    for x in terms {
        let term = term_value(*x, field, t, u);
        value = field.add(value, term);
    }
    value
}

/// The value of `c t^i u^j`.
fn term_value(x: Term, field: &Field, t: Fe, u: Fe) -> Fe
    requires t_below { t < order field.now.given }
    requires u_below { u < order field.now.given }
    requires t_defined { (t ≢ 0) ⊎ (pos 0 ≤ℤ x.exponents.0) }
    requires u_defined { (u ≢ 0) ⊎ (pos 0 ≤ℤ x.exponents.1) }
    ensures value { let image = of_int field.now.given x.coefficient in
        result ≡ mul field.now.given image (monomial_at field.now t u x.exponents) }
    ensures below { result < order field.now.given }
{
    let power_t = field.pow(t, i128::from(x.exponents.0));
    let power_u = field.pow(u, i128::from(x.exponents.1));
    let monomial = field.mul(power_t, power_u);
    field.mul(field.integer(x.coefficient), monomial)
}

/// Evaluation at elements t and u of a field that are not 0.
#[derive(Drop)]
pub struct Evaluate<'a> {
    pub laurent: &'a Laurent,
    pub field: &'a Field,
    pub t: Fe,
    pub u: Fe,
    ghost t_unit: { IsUnit field.now t },
    ghost u_unit: { IsUnit field.now u },
}

impl<'a> Evaluate<'a> {
    pub fn new(laurent: &'a Laurent, field: &'a Field, t: Fe, u: Fe) -> Evaluate<'a>
        requires t { IsUnit field.now t }
        requires u { IsUnit field.now u }
        ensures laurent { result.laurent.now ≡ laurent.now }
        ensures field { result.field.now ≡ field.now }
        ensures t { result.t ≡ t }
        ensures u { result.u ≡ u }
    {
        Evaluate {
            laurent,
            field,
            t,
            u,
        }
    }
}

impl<'a> Hom for Evaluate<'a> {
    type Src = Laurent;

    type Dst = Field;

    ghost use Rattle.lie_poly.specs.EvaluationLaws.{evaluation_hom};

    ghost source = { λ h. h.laurent.now };

    ghost target = { λ h. h.field.now };

    ghost map = { λ h. evaluation h.field.now h.t h.u };

    ghost is_hom = { λ h. evaluation_hom h.field.now h.t h.u h.t_unit h.u_unit };

    ghost is_roomy = { λ _. refl };

    fn src(&self) -> &Laurent {
        self.laurent
    }

    fn dst(&self) -> &Field {
        self.field
    }

    fn image(&self, _alloc: Global, a: &Poly) -> Result<Fe, AllocError> {
        Ok(a.at(self.field, self.t, self.u))
    }
}
