//! The terms of commutators, read from the values.

ghost use Rattle.std.specs.Prelude.{◌≡◌, ℤ, ℕ, ◌≤◌, ◌*◌, ◌*ℤ◌, ◌<ℤ◌, ◌^◌, ⊤, pos, length, Err, [], unsigned_abs, slice_index_or, MatchOption, MatchResult};
ghost use Rattle.lie_datum.specs.RootList.{IsNumber};
ghost use Rattle.lie_const.specs.StructureConstants.{StandsFor, HasSigns, IsSum, coeffs_of};
ghost use Rattle.lie_const.specs.CommutatorTerms.{AreTerms, IsPair, string_product, coefficient, factorial, sign, term_vector};
ghost use Rattle.lie_const.specs.ConstantTables.{LoadsConstants, pair_place};
ghost use Rattle.lie_const.specs.Filling.{table_in};
ghost use Rattle.lie_const.specs.TermFilling.{IsPairFault, IsAdded, IsTermFault};

use crate::faults::ConstFault;
use crate::term::Term;
use crate::term_lists::TermLists;
use crate::values::Values;
use lie_datum::{Datum, RootId, Vector, combination};
use std::alloc::Global;

/// The (i, j) of the terms, by rising i + j, then rising i.
const EXPONENTS: [(u8, u8); 7] = [(1, 1), (1, 2), (2, 1), (1, 3), (3, 1), (2, 3), (3, 2)];

/// The terms of each two roots in the full order, row by row, or the first that isn't whole.
pub(crate) fn all_terms(
    alloc: Global,
    datum: &Datum,
    values: &Values,
) -> Result<TermLists, ConstFault>
    requires stands { StandsFor datum.now (table_in values.now) }
    requires count { values.now.positive ≡ length datum.now.positive }
    ensures count { MatchResult result (λ lists. length lists ≡ 2 * values.now.positive * (2 * values.now.positive)) (λ _. ⊤) }
    ensures terms { MatchResult result
        (λ lists. (r s : ℤ) → IsPair datum.now r s → AreTerms datum.now (table_in values.now) r s (slice_index_or lists (pair_place values.now.positive r s) []))
        (λ e. LoadsConstants datum.now (Err e)) }
{
    let m = datum.m();
    let mut lists = TermLists::new(alloc)?;
    for at in 0..2 * m * (2 * m) {
        let r = RootId::at(at / (2 * m), m);
        let s = RootId::at(at % (2 * m), m);
        let terms = terms_of(alloc, datum, values, r, s)?;
        lists = lists.pushed(&terms)?;
    }
    Ok(lists)
}

/// The terms of r and s, or the first that isn't whole.
fn terms_of(
    alloc: Global,
    datum: &Datum,
    values: &Values,
    r: RootId,
    s: RootId,
) -> Result<Vec<Term>, ConstFault>
    requires r { IsNumber datum.now r }
    requires s { IsNumber datum.now s }
    requires signs { HasSigns datum.now (table_in values.now) }
    requires count { values.now.positive ≡ length datum.now.positive }
    ensures { MatchResult result
        (λ terms. IsPair datum.now r s → AreTerms datum.now (table_in values.now) r s terms.items)
        (IsPairFault datum.now (table_in values.now) r s) }
{
    datum.loaded();
    let mut terms = Vec::new(alloc);
    let Some(sum) = datum.sum(r, s) else {
        return Ok(terms);
    };
    for (i, j) in EXPONENTS {
        add_term(datum, values, r, s, sum, i, j, &mut terms)?;
    }
    Ok(terms)
}

/// Adds the term of (i, j), if i r + j s is a root, or says that it isn't whole.
fn add_term(
    datum: &Datum,
    values: &Values,
    r: RootId,
    s: RootId,
    sum: RootId,
    i: u8,
    j: u8,
    terms: &mut Vec<Term>,
) -> Result<(), ConstFault>
    requires sum { IsSum datum.now r s sum }
    requires signs { HasSigns datum.now (table_in values.now) }
    requires count { values.now.positive ≡ length datum.now.positive }
    requires i { i ≤ 3 }
    requires j { j ≤ 3 }
    ensures { MatchResult result
        (λ _. IsAdded datum.now (table_in values.now) r s (i, j) terms.old.items terms.new.items)
        (IsTermFault datum.now (table_in values.now) r s (i, j)) }
{
    datum.loaded();
    let Some(root) = datum.named(&term_vector(datum, r, s, i, j)) else {
        return Ok(());
    };
    let (above, below) = coefficient(datum, values, r, s, sum, i, j);
    let Some(value) = whole(above, below) else {
        return Err(ConstFault::Fraction(r, s, i, j));
    };
    terms.push(Term { i, j, root, value })?;
    Ok(())
}

/// The coefficients of i r + j s.
fn term_vector(datum: &Datum, r: RootId, s: RootId, i: u8, j: u8) -> Vector
    requires r { IsNumber datum.now r }
    requires s { IsNumber datum.now s }
    requires i { i ≤ 3 }
    requires j { j ≤ 3 }
    ensures { result ≡ term_vector datum.now r s (i, j) }
{
    datum.loaded();
    let factors = [i128::from(i), i128::from(j), 0, 0, 0, 0, 0, 0];
    combination(&factors, &[*datum.coeffs(r), *datum.coeffs(s)])
}

/// C_ijrs as a fraction, where r + s is the root `sum`.
fn coefficient(
    datum: &Datum,
    values: &Values,
    r: RootId,
    s: RootId,
    sum: RootId,
    i: u8,
    j: u8,
) -> (i128, i128)
    requires sum { IsSum datum.now r s sum }
    requires signs { HasSigns datum.now (table_in values.now) }
    requires count { values.now.positive ≡ length datum.now.positive }
    requires i { i ≤ 3 }
    requires j { j ≤ 3 }
    ensures above { result.0 ≡ (coefficient datum.now (table_in values.now) (coeffs_of datum.now r) (coeffs_of datum.now s) i j).above }
    ensures below { result.1 ≡ pos (coefficient datum.now (table_in values.now) (coeffs_of datum.now r) (coeffs_of datum.now s) i j).below }
    ensures bound { (unsigned_abs result.0 ≤ 2 ^ 40) × (1 ≤ unsigned_abs result.1) × (unsigned_abs result.1 ≤ 6) }
{
    if j == 1 {
        (string_product(datum, values, r, s, i), factorial(i))
    } else if i == 1 {
        (
            sign(j) * string_product(datum, values, s, r, j),
            factorial(j),
        )
    } else if i == 3 && j == 2 {
        (string_product(datum, values, sum, r, 2), 6)
    } else if i == 2 && j == 3 {
        (-2 * string_product(datum, values, sum, s, 2), 6)
    } else {
        (0, 1)
    }
}

/// N_(r,s) N_(r,r+s) and on, with this many factors.
fn string_product(datum: &Datum, values: &Values, r: RootId, s: RootId, count: u8) -> i128
    requires r { IsNumber datum.now r }
    requires s { IsNumber datum.now s }
    requires signs { HasSigns datum.now (table_in values.now) }
    requires values { values.now.positive ≡ length datum.now.positive }
    requires count { count ≤ 3 }
    ensures value { result ≡ string_product datum.now (table_in values.now) (coeffs_of datum.now r) (coeffs_of datum.now s) count }
    ensures bound { unsigned_abs result ≤ 128 ^ 3 }
{
    datum.loaded();
    let mut product = 1;
    let mut last = s;
    for _ in 0..count {
        let Some(next) = datum.sum(r, last) else {
            return 0;
        };
        product *= values.n(r, last);
        last = next;
    }
    product
}

/// n!
fn factorial(n: u8) -> i128
    requires { n ≤ 3 }
    ensures value { result ≡ pos (factorial n) }
    ensures bound { (1 ≤ unsigned_abs result) × (unsigned_abs result ≤ 6) }
{
    match n {
        0 | 1 => 1,
        2 => 2,
        _ => 6,
    }
}

/// (-1)^n
fn sign(n: u8) -> i128
    requires { n ≤ 3 }
    ensures value { result ≡ sign n }
    ensures bound { unsigned_abs result ≤ 1 }
{
    match n {
        0 | 2 => 1,
        1 | 3 => -1,
        _ => unreachable!(),
    }
}

/// The quotient, if it is whole.
fn whole(above: i128, below: i128) -> Option<i128>
    requires above { unsigned_abs above ≤ 2 ^ 40 }
    requires below { pos 0 <ℤ below }
    ensures { MatchOption result ((c : ℤ) → ¬ (c *ℤ below ≡ above)) (λ c. (c *ℤ below) ≡ above) }
{
    if above % below == 0 {
        Some(above / below)
    } else {
        None
    }
}
