//! The letters that the terms of a commutator give.

ghost use Rattle.std.specs.Prelude.{◌≡◌, ◌++◌, map, reverse, IfOk, OnOk, IsTrue};
ghost use Rattle.lie_ring.specs.Rings.{RingOn, Fits};
ghost use Rattle.lie_letters.specs.RingLetters.{power, term_word, inverse_word};
ghost use Rattle.lie_letters.specs.PositiveTerms.{positive_term};

use lie_const::Term;
use lie_ring::{Ring, roomy_copy, roomy_mul, roomy_neg, roomy_of_int, roomy_one};
use std::alloc::{AllocError, Global};

/// The n-th power of an element.
fn power<R: Ring>(ring: &R, alloc: Global, a: &R::Elem, n: u8) -> Result<R::Elem, AllocError>
    requires roomy { IsTrue (R.ring ring.now).roomy }
    requires a { Fits (R.ring ring.now) a.now }
    ensures value { IfOk result (λ x. x ≡ power (R.ring ring.now) a.now n) }
    ensures fits { IfOk result (Fits (R.ring ring.now)) }
{
    if n == 0 {
        return roomy_one(ring, alloc);
    }
    let mut product = roomy_copy(ring, alloc, a)?;
    for _ in 1..n {
        product = roomy_mul(ring, alloc, &product, a)?;
    }
    Ok(product)
}

/// An integer times an element.
fn scaled<R: Ring>(ring: &R, alloc: Global, value: i128, a: R::Elem) -> Result<R::Elem, AllocError>
    requires roomy { IsTrue (R.ring ring.now).roomy }
    requires a { Fits (R.ring ring.now) a }
    ensures value { IfOk result (λ x. x ≡ (R.ring ring.now).mul ((R.ring ring.now).of_int value) a) }
    ensures fits { IfOk result (Fits (R.ring ring.now)) }
{
    if value == 1 {
        return Ok(a);
    }
    if value == -1 {
        return roomy_neg(ring, alloc, &a);
    }
    let factor = roomy_of_int(ring, alloc, value)?;
    roomy_mul(ring, alloc, &factor, &a)
}

/// The element of a term.
fn term_value<R: Ring>(
    ring: &R,
    alloc: Global,
    term: &Term,
    t: &R::Elem,
    u: &R::Elem,
) -> Result<R::Elem, AllocError>
    requires roomy { IsTrue (R.ring ring.now).roomy }
    requires t { Fits (R.ring ring.now) t.now }
    requires u { Fits (R.ring ring.now) u.now }
    ensures value { IfOk result (λ x. x ≡ (R.ring ring.now).mul ((R.ring ring.now).of_int term.now.value) ((R.ring ring.now).mul (power (R.ring ring.now) ((R.ring ring.now).neg t.now) term.now.i) (power (R.ring ring.now) u.now term.now.j))) }
    ensures fits { IfOk result (Fits (R.ring ring.now)) }
{
    let minus = roomy_neg(ring, alloc, t)?;
    let first = power(ring, alloc, &minus, term.i)?;
    let second = power(ring, alloc, u, term.j)?;
    let both = roomy_mul(ring, alloc, &first, &second)?;
    scaled(ring, alloc, term.value, both)
}

/// Puts the letters of the terms on a list of letters, of which the last one comes first.
pub(crate) fn put_terms<R: Ring>(
    ring: &R,
    alloc: Global,
    terms: &[Term],
    t: &R::Elem,
    u: &R::Elem,
    todo: &mut Vec<(usize, R::Elem)>,
) -> Result<(), AllocError>
    requires roomy { IsTrue (R.ring ring.now).roomy }
    requires t { Fits (R.ring ring.now) t.now }
    requires u { Fits (R.ring ring.now) u.now }
    ensures { OnOk result (reverse todo.new.items ≡ term_word (R.ring ring.now) (map positive_term terms.now) t.now u.now ++ reverse todo.old.items) }
{
    for k in (0..terms.len()).rev() {
        let term = &terms[k];
        let value = term_value(ring, alloc, term, t, u)?;
        todo.push((number(term), value))?;
    }
    Ok(())
}

/// Puts the inverse letters of the terms, in reverse order, on a list of letters, of which the last one comes first.
pub(crate) fn put_inverse_terms<R: Ring>(
    ring: &R,
    alloc: Global,
    terms: &[Term],
    t: &R::Elem,
    u: &R::Elem,
    todo: &mut Vec<(usize, R::Elem)>,
) -> Result<(), AllocError>
    requires roomy { IsTrue (R.ring ring.now).roomy }
    requires t { Fits (R.ring ring.now) t.now }
    requires u { Fits (R.ring ring.now) u.now }
    ensures { OnOk result (reverse todo.new.items ≡ inverse_word (R.ring ring.now) (term_word (R.ring ring.now) (map positive_term terms.now) t.now u.now) ++ reverse todo.old.items) }
{
    for k in 0..terms.len() {
        let term = &terms[k];
        let value = term_value(ring, alloc, term, t, u)?;
        let inverse = roomy_neg(ring, alloc, &value)?;
        todo.push((number(term), inverse))?;
    }
    Ok(())
}

/// The number of the root of a term at a positive root.
fn number(term: &Term) -> usize
    ensures { result ≡ (positive_term term.now).root }
{
    term.root.number().unsigned_abs() as usize
}
