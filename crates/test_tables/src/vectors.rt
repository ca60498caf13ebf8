//! Rows on torus vectors over the field.

ghost use Rattle.std.specs.Prelude.{IfOk};
ghost use Rattle.lie_letters.specs.Entries.{AreUnits};

use lie_datum::Datum;
use lie_field::Field;
use lie_letters::Torus;
use std::alloc::Global;
use test_rows::{
    Answer, Stop, elements, entry, index, numbered, padded, pair, simple_index, single,
};

/// Answers a question about torus vectors; false where it is about something else.
pub(crate) fn about_vectors(
    alloc: Global,
    field: &Field,
    datum: &Datum,
    question: &str,
    lists: &[Vec<i128>],
    answer: &mut Answer,
) -> Result<bool, Stop> {
    match (question, lists) {
        ("torus vector", [t]) => match torus(alloc, field, t)? {
            Some(t) => entries(&t, answer)?,
            None => answer.word("none")?,
        },
        ("ones", [d]) => ones(field, single(d)?, answer)?,
        ("torus entry", [t, j]) => nth(&units(alloc, field, t)?, single(j)?, answer)?,
        ("torus product", [t, u]) => product(alloc, field, t, u, answer)?,
        ("torus inverse", [t]) => entries(&units(alloc, field, t)?.inv(field), answer)?,
        ("character", [t, v]) => {
            let value = units(alloc, field, t)?.char_of(field, &padded(v)?);
            answer.number(i128::from(value.number()))?;
        }
        ("coroot at", [letter]) => coroot(field, datum, pair(letter)?, answer)?,
        ("reflected torus", [i, t]) => reflected(alloc, field, datum, single(i)?, t, answer)?,
        _ => return Ok(false),
    }
    Ok(true)
}

/// The vector of these entries, if there is one.
fn torus(alloc: Global, field: &Field, list: &[i128]) -> Result<Option<Torus>, Stop> {
    let elements = elements(alloc, field, list)?;
    Ok(Torus::of(field, &elements))
}

/// The vector of these entries, which are one to eight units.
fn units(alloc: Global, field: &Field, list: &[i128]) -> Result<Torus, Stop>
    ensures { IfOk result (AreUnits field.now) }
{
    let elements = elements(alloc, field, list)?;
    match Torus::of(field, &elements) {
        Some(t) => Ok(t),
        None => Err(Stop::NoQuestion),
    }
}

/// Writes the numbers of the entries.
fn entries(t: &Torus, answer: &mut Answer) -> Result<(), Stop> {
    for a in t.entries() {
        answer.number(i128::from(a.number()))?;
    }
    Ok(())
}

fn ones(field: &Field, d: i128, answer: &mut Answer) -> Result<(), Stop> {
    let d = index(d)?;
    if d < 1 || d > 8 {
        return Err(Stop::NoQuestion);
    }
    entries(&Torus::one(field, d), answer)
}

fn nth(t: &Torus, j: i128, answer: &mut Answer) -> Result<(), Stop> {
    let j = index(j)?;
    if j < 1 || j > t.entries().len() {
        return Err(Stop::NoQuestion);
    }
    Ok(answer.number(i128::from(t.entry(j).number()))?)
}

fn product(
    alloc: Global,
    field: &Field,
    t: &[i128],
    u: &[i128],
    answer: &mut Answer,
) -> Result<(), Stop> {
    let (t, u) = (units(alloc, field, t)?, units(alloc, field, u)?);
    if t.entries().len() != u.entries().len() {
        return Err(Stop::NoQuestion);
    }
    entries(&t.mul(field, &u), answer)
}

/// The coroot of a root at an element that is not 0.
fn coroot(
    field: &Field,
    datum: &Datum,
    letter: (i128, i128),
    answer: &mut Answer,
) -> Result<(), Stop> {
    let r = numbered(datum, letter.0)?;
    let a = entry(field, letter.1)?;
    if a.number() == 0 {
        return Err(Stop::NoQuestion);
    }
    entries(&Torus::coroot(field, datum, r, a), answer)
}

/// The simple reflection of a torus vector.
fn reflected(
    alloc: Global,
    field: &Field,
    datum: &Datum,
    i: i128,
    t: &[i128],
    answer: &mut Answer,
) -> Result<(), Stop> {
    let i = simple_index(datum, i)?;
    let t = units(alloc, field, t)?;
    if t.entries().len() != datum.d() {
        return Err(Stop::NoQuestion);
    }
    entries(&t.reflect(field, datum, i), answer)
}
