//! The two sides of a relation, as lists of factors over the Laurent polynomials.

ghost use Rattle.std.specs.Prelude.{◌≡◌, ◌≤◌, ◌^◌, ◌<◌, ◌++◌, ◌∷◌, [], pos, neg_ℤ, nat_abs, map, IfOk, negsuc, ◌⊎◌, Ok};
ghost use Rattle.std.specs.List.{All};
ghost use Rattle.lie_const.specs.CommutatorTerms.{sign};
ghost use Rattle.lie_const.specs.ConstantTables.{LoadsConstants};
ghost use Rattle.lie_const.specs.Signs.{IsSignTable, eta_of};
ghost use Rattle.lie_poly.specs.Polynomials.{monomial, constant, plus, size, degree};
ghost use Rattle.lie_identities.specs.AuditRelations.{RootElement, CorootElement};
ghost use Rattle.lie_identities.specs.Audit.{left_factors, right_factors};
ghost use Rattle.lie_identities.specs.Sides.{factor_weight, factor_depth, IsRelationOf, IsSmallTerm, term_factor};

use crate::factors::Factor;
use crate::relations::Rel;
use lie_const::{Constants, Signs, Term};
use lie_datum::{Datum, RootId};
use lie_poly::{Laurent, Poly};
use lie_ring::{Ring, RingStop};
use std::alloc::{AllocError, Global};

/// A side of a relation: its factors, and the size of the polynomial of each, or 1 for a_i^(t).
#[derive(Drop)]
pub(crate) struct Side {
    pub factors: Vec<Factor<Poly>>,
    pub sizes: Vec<u128>,
    ghost sized: { sizes.items ≡ map factor_weight factors.items },
    ghost light: { All (λ x. factor_weight x ≤ 64) factors.items },
    ghost shallow: { All (λ x. factor_depth x ≤ 3) factors.items },
}

/// The polynomial c t^et u^eu.
fn monomial(alloc: Global, c: i128, et: i32, eu: i32) -> Result<Poly, AllocError>
    requires c { nat_abs c ≤ 64 }
    requires et { nat_abs et ≤ 3 }
    requires eu { nat_abs eu ≤ 3 }
    ensures { IfOk result (λ f. f ≡ monomial c et eu) }
{
    match Poly::term(alloc, c, et, eu) {
        Ok(f) => Ok(f),
        Err(RingStop::NoMemory) => Err(AllocError),
        Err(RingStop::Wide) => unreachable!(),
    }
}

/// The polynomial t + u.
fn t_and_u(alloc: Global) -> Result<Poly, AllocError>
    ensures { IfOk result (λ f. f ≡ plus (monomial (pos 1) (pos 1) (pos 0)) (monomial (pos 1) (pos 0) (pos 1))) }
{
    let t = monomial(alloc, 1, 1, 0)?;
    let u = monomial(alloc, 1, 0, 1)?;
    match Laurent.add(alloc, &t, &u) {
        Ok(f) => Ok(f),
        Err(RingStop::NoMemory) => Err(AllocError),
        Err(RingStop::Wide) => unreachable!(),
    }
}

/// (-1)^i
fn sign(i: u8) -> i128
    requires { i ≤ 3 }
    ensures value { result ≡ sign i }
    ensures unit { (result ≡ pos 1) ⊎ (result ≡ negsuc 0) }
{
    match i {
        0 | 2 => 1,
        1 | 3 => -1,
        _ => unreachable!(),
    }
}

impl Side {
    /// The side 1.
    fn one(alloc: Global) -> Side
        ensures { result.factors.items ≡ [] }
    {
        Side {
            factors: Vec::new(alloc),
            sizes: Vec::new(alloc),
        }
    }

    /// The side with X_r(f) behind it, for f of this size.
    fn times(self, r: RootId, f: Poly, weight: u128) -> Result<Side, AllocError>
        requires weight { weight ≡ size f }
        requires light { size f ≤ 64 }
        requires shallow { degree f ≤ 3 }
        ensures { IfOk result (λ s. s.factors.items ≡ self.factors.items ++ RootElement r f ∷ []) }
    {
        let Side {
            mut factors,
            mut sizes,
        } = self;
        factors.push(Factor::RootElement(r, f))?;
        sizes.push(weight)?;
        Ok(Side { factors, sizes })
    }

    /// The side with X_r(c t^et u^eu) behind it.
    fn times_root(
        self,
        alloc: Global,
        r: RootId,
        c: i128,
        et: i32,
        eu: i32,
    ) -> Result<Side, AllocError>
        requires c { nat_abs c ≤ 64 }
        requires et { nat_abs et ≤ 3 }
        requires eu { nat_abs eu ≤ 3 }
        ensures { IfOk result (λ s. s.factors.items ≡ self.factors.items ++ RootElement r (monomial c et eu) ∷ []) }
    {
        let f = monomial(alloc, c, et, eu)?;
        self.times(r, f, c.unsigned_abs())
    }

    /// The side with X_r(t + u) behind it.
    fn times_sum(self, alloc: Global, r: RootId) -> Result<Side, AllocError>
        ensures { IfOk result (λ s. s.factors.items ≡ self.factors.items ++ RootElement r (plus (monomial (pos 1) (pos 1) (pos 0)) (monomial (pos 1) (pos 0) (pos 1))) ∷ []) }
    {
        let f = t_and_u(alloc)?;
        self.times(r, f, 2)
    }

    /// The side with a_i^(t) behind it.
    fn times_coroot(self, i: usize) -> Result<Side, AllocError>
        ensures { IfOk result (λ s. s.factors.items ≡ self.factors.items ++ CorootElement i ∷ []) }
    {
        let Side {
            mut factors,
            mut sizes,
        } = self;
        factors.push(Factor::CorootElement(i))?;
        sizes.push(1)?;
        Ok(Side { factors, sizes })
    }

    /// The side with X_r(1) X_-r(-1) X_r(1) behind it.
    fn times_weyl(self, alloc: Global, r: RootId) -> Result<Side, AllocError>
        ensures { IfOk result (λ s. s.factors.items ≡ self.factors.items ++ RootElement r (constant (pos 1)) ∷ (RootElement (neg_ℤ r) (constant (negsuc 0)) ∷ (RootElement r (constant (pos 1)) ∷ []))) }
    {
        let first = self.times_root(alloc, r, 1, 0, 0)?;
        let second = first.times_root(alloc, r.opposite(), -1, 0, 0)?;
        second.times_root(alloc, r, 1, 0, 0)
    }

    /// The side with X_r(-1) X_-r(1) X_r(-1) behind it.
    fn times_weyl_inverse(self, alloc: Global, r: RootId) -> Result<Side, AllocError>
        ensures { IfOk result (λ s. s.factors.items ≡ self.factors.items ++ RootElement r (constant (negsuc 0)) ∷ (RootElement (neg_ℤ r) (constant (pos 1)) ∷ (RootElement r (constant (negsuc 0)) ∷ []))) }
    {
        let first = self.times_root(alloc, r, -1, 0, 0)?;
        let second = first.times_root(alloc, r.opposite(), 1, 0, 0)?;
        second.times_root(alloc, r, -1, 0, 0)
    }

    /// The side with X_r(C (-t)^i u^j) behind it, for a term.
    fn times_term(self, alloc: Global, term: Term) -> Result<Side, AllocError>
        requires { IsSmallTerm term }
        ensures { IfOk result (λ s. s.factors.items ≡ self.factors.items ++ term_factor term ∷ []) }
    {
        let c = term.value * sign(term.i);
        self.times_root(alloc, term.root, c, i32::from(term.i), i32::from(term.j))
    }

    /// The side with the factors of these terms behind it.
    fn times_terms(self, alloc: Global, terms: &[Term]) -> Result<Side, AllocError>
        requires { All IsSmallTerm terms.now }
        ensures { IfOk result (λ s. s.factors.items ≡ self.factors.items ++ map term_factor terms.now) }
    {
        let mut side = self;
        for term in terms {
            side = side.times_term(alloc, *term)?;
        }
        Ok(side)
    }
}

/// The factors of the left side of a relation.
pub(crate) fn left_side(alloc: Global, datum: &Datum, rel: Rel) -> Result<Side, AllocError>
    requires { IsRelationOf datum.now rel }
    ensures { IfOk result (λ s. s.factors.items ≡ left_factors rel) }
{
    let one = Side::one(alloc);
    match rel {
        Rel::S1(r) => one
            .times_root(alloc, r, 1, 1, 0)?
            .times_root(alloc, r, 1, 0, 1),
        Rel::S2(r, s) => one
            .times_root(alloc, s, 1, 0, 1)?
            .times_root(alloc, r, 1, 1, 0),
        Rel::S6(i) => left_of_s6(alloc, datum.simple(i)),
        Rel::S7(i, s) => one
            .times_weyl(alloc, datum.simple(i))?
            .times_root(alloc, s, 1, 1, 0),
    }
}

/// The factors of X_r(t) X_-r(-1/t) X_r(t) X_r(-1) X_-r(1) X_r(-1).
fn left_of_s6(alloc: Global, r: RootId) -> Result<Side, AllocError>
    ensures { IfOk result (λ s. s.factors.items ≡
        RootElement r (monomial (pos 1) (pos 1) (pos 0)) ∷ (RootElement (neg_ℤ r) (monomial (neg_ℤ (pos 1)) (neg_ℤ (pos 1)) (pos 0)) ∷ (RootElement r (monomial (pos 1) (pos 1) (pos 0))
        ∷ (RootElement r (constant (neg_ℤ (pos 1))) ∷ (RootElement (neg_ℤ r) (constant (pos 1)) ∷ (RootElement r (constant (neg_ℤ (pos 1))) ∷ [])))))) }
{
    let first = Side::one(alloc).times_root(alloc, r, 1, 1, 0)?;
    let second = first.times_root(alloc, r.opposite(), -1, -1, 0)?;
    let third = second.times_root(alloc, r, 1, 1, 0)?;
    third.times_weyl_inverse(alloc, r)
}

/// The factors of the right side of a relation.
pub(crate) fn right_side(
    alloc: Global,
    datum: &Datum,
    consts: &Constants,
    signs: &Signs,
    rel: Rel,
) -> Result<Side, AllocError>
    requires constants { LoadsConstants datum.now (Ok consts.now) }
    requires signs { IsSignTable datum.now signs.now }
    requires relation { IsRelationOf datum.now rel }
    ensures { IfOk result (λ s. s.factors.items ≡ right_factors datum.now consts.now (eta_of signs.now) rel) }
{
    datum.loaded();
    let one = Side::one(alloc);
    match rel {
        Rel::S1(r) => one.times_sum(alloc, r),
        Rel::S2(r, s) => {
            let side = one
                .times_root(alloc, r, 1, 1, 0)?
                .times_root(alloc, s, 1, 0, 1)?;
            side.times_terms(alloc, consts.c(r, s))
        }
        Rel::S6(i) => one.times_coroot(i),
        Rel::S7(i, s) => {
            let image = datum.reflect(i, s);
            let side = one.times_root(alloc, image, signs.eta(i, s), 1, 0)?;
            side.times_weyl(alloc, datum.simple(i))
        }
    }
}
