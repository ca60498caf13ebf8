//! Rows on structure constants and on the terms of commutators.

ghost use Rattle.std.specs.Prelude.{◌≤◌, unsigned_abs, IfOk};

use lie_const::Term;
use lie_datum::RootId;
use std::alloc::{AllocError, Global};
use test_rows::{Answer, Roots, Stop, numbered, pair, single};

/// Answers a question about constants; false where it is about something else.
pub(crate) fn about_constants(
    alloc: Global,
    roots: &Roots,
    question: &str,
    lists: &[Vec<i128>],
    answer: &mut Answer,
) -> Result<bool, Stop> {
    let [list] = lists else {
        return Ok(false);
    };
    match question {
        "constant" => constant(roots, list, answer)?,
        "constants" => constants(roots, list, answer)?,
        "terms" => terms(roots, list, answer)?,
        "jacobi" => jacobi(alloc, roots, answer)?,
        _ => return Ok(false),
    }
    Ok(true)
}

/// N_rs, and 0 at opposite roots.
fn value(roots: &Roots, r: RootId, s: RootId) -> Result<i128, Stop>
    ensures { IfOk result (λ n. unsigned_abs n ≤ 4) }
{
    if r == s.opposite() {
        return Ok(0);
    }
    let r = numbered(&roots.datum, i128::from(r.number()))?;
    let s = numbered(&roots.datum, i128::from(s.number()))?;
    let value = roots.consts.n(r, s);
    if value >= -4 && value <= 4 {
        Ok(value)
    } else {
        Err(Stop::NoQuestion)
    }
}

fn constant(roots: &Roots, list: &[i128], answer: &mut Answer) -> Result<(), Stop> {
    let (j, k) = pair(list)?;
    let r = numbered(&roots.datum, j)?;
    let s = numbered(&roots.datum, k)?;
    Ok(answer.number(value(roots, r, s)?)?)
}

/// N_rs for each s in the full order.
fn constants(roots: &Roots, list: &[i128], answer: &mut Answer) -> Result<(), Stop> {
    let r = numbered(&roots.datum, single(list)?)?;
    let m = roots.datum.m();
    for place in 0..2 * m {
        answer.number(value(roots, r, RootId::at(place, m))?)?;
    }
    Ok(())
}

fn terms(roots: &Roots, list: &[i128], answer: &mut Answer) -> Result<(), Stop> {
    let (j, k) = pair(list)?;
    let r = numbered(&roots.datum, j)?;
    let s = numbered(&roots.datum, k)?;
    Ok(terms_of(roots.consts.c(r, s), answer)?)
}

/// Writes each term: i, j, the root i r + j s and its coefficient.
fn terms_of(terms: &[Term], answer: &mut Answer) -> Result<(), AllocError> {
    if terms.is_empty() {
        return answer.word("-");
    }
    for (k, term) in terms.iter().enumerate() {
        if k > 0 {
            answer.word("|")?;
        }
        answer.number(i128::from(term.i))?;
        answer.number(i128::from(term.j))?;
        answer.number(i128::from(term.root.number()))?;
        answer.number(term.value)?;
    }
    Ok(())
}

/// Counts the triples of roots of which no two are opposite and whose sum isn't 0, and those of them at which the
/// Jacobi identity fails.
fn jacobi(alloc: Global, roots: &Roots, answer: &mut Answer) -> Result<(), Stop> {
    let all = in_order(alloc, roots)?;
    let mut triples: u32 = 0;
    let mut failures: u32 = 0;
    for r in &all {
        for s in &all {
            for t in &all {
                if is_general(roots, *r, *s, *t)? {
                    triples = triples.wrapping_add(1);
                    if cyclic_sum(roots, *r, *s, *t)? != 0 {
                        failures = failures.wrapping_add(1);
                    }
                }
            }
        }
    }
    answer.number(i128::from(triples))?;
    Ok(answer.next(&[i128::from(failures)])?)
}

/// The roots in the full order.
fn in_order(alloc: Global, roots: &Roots) -> Result<Vec<RootId>, Stop> {
    let m = roots.datum.m();
    let mut all = Vec::new(alloc);
    for place in 0..2 * m {
        all.push(RootId::at(place, m))?;
    }
    Ok(all)
}

/// r + s.
fn sum(roots: &Roots, r: RootId, s: RootId) -> Result<Option<RootId>, Stop> {
    let r = numbered(&roots.datum, i128::from(r.number()))?;
    let s = numbered(&roots.datum, i128::from(s.number()))?;
    Ok(roots.datum.sum(r, s))
}

/// Whether no two of the roots are opposite, and their sum isn't 0.
fn is_general(roots: &Roots, r: RootId, s: RootId, t: RootId) -> Result<bool, Stop> {
    let opposite = r == s.opposite() || s == t.opposite() || t == r.opposite();
    Ok(!opposite && sum(roots, r, s)? != Some(t.opposite()))
}

/// `N_(r,s) N_(r+s,t)`: the coefficient of the bracket of three root vectors, the first two bracketed first.
fn bracket(roots: &Roots, r: RootId, s: RootId, t: RootId) -> Result<i128, Stop>
    ensures { IfOk result (λ n. unsigned_abs n ≤ 16) }
{
    match sum(roots, r, s)? {
        Some(k) => Ok(value(roots, r, s)? * value(roots, k, t)?),
        None => Ok(0),
    }
}

/// The sum of the three brackets.
fn cyclic_sum(roots: &Roots, r: RootId, s: RootId, t: RootId) -> Result<i128, Stop> {
    Ok(bracket(roots, r, s, t)? + bracket(roots, s, t, r)? + bracket(roots, t, r, s)?)
}
