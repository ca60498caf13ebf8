//! Rows on roots: coefficients, vectors, sums, strings, reflections and numbers.

ghost use Rattle.lie_datum.specs.RootList.{IsNumber};

use lie_datum::{Datum, RootId};
use std::alloc::AllocError;
use test_rows::{Answer, Stop, index, numbered, padded, pair, simple_index, single, start};

/// Answers a question about roots; false where it is about something else.
pub(crate) fn about_roots(
    datum: &Datum,
    question: &str,
    lists: &[Vec<i128>],
    answer: &mut Answer,
) -> Result<bool, Stop> {
    let [list] = lists else {
        return Ok(false);
    };
    match question {
        "root" => root(datum, list, answer)?,
        "root of coefficients" => answer.option(datum.named(&padded(list)?).map(RootId::number))?,
        "root of vector" => answer.option(datum.find(&padded(list)?).map(RootId::number))?,
        "opposite" => opposite(datum, list, answer)?,
        "place" => place(datum, list, answer)?,
        "root at place" => at_place(datum, list, answer)?,
        "sum" => sum(datum, list, answer)?,
        "string" => string(datum, list, answer)?,
        "reflection" => reflection(datum, list, answer)?,
        _ => return Ok(false),
    }
    Ok(true)
}

fn root(datum: &Datum, list: &[i128], answer: &mut Answer) -> Result<(), Stop> {
    match numbered(datum, single(list)?) {
        Ok(r) => Ok(columns(datum, r, answer)?),
        Err(_) => Ok(answer.word("none")?),
    }
}

/// The coefficients of a root and of its coroot, their vectors, the height and the norm.
fn columns(datum: &Datum, r: RootId, answer: &mut Answer) -> Result<(), AllocError>
    requires { IsNumber datum.now r }
{
    coefficients(datum, r, answer)?;
    vectors(datum, r, answer)?;
    answer.next(&[i128::from(datum.height(r))])?;
    answer.next(&[datum.length2(r)])
}

/// The coefficients of a root and of its coroot.
fn coefficients(datum: &Datum, r: RootId, answer: &mut Answer) -> Result<(), AllocError>
    requires { IsNumber datum.now r }
{
    let l = datum.l();
    answer.list(start(datum.coeffs(r), l))?;
    answer.next(start(datum.co_coeffs(r), l))
}

/// The vectors of a root and of its coroot.
fn vectors(datum: &Datum, r: RootId, answer: &mut Answer) -> Result<(), AllocError>
    requires { IsNumber datum.now r }
{
    let d = datum.d();
    answer.next(start(datum.root(r), d))?;
    answer.next(start(datum.coroot(r), d))
}

fn opposite(datum: &Datum, list: &[i128], answer: &mut Answer) -> Result<(), Stop> {
    let r = numbered(datum, single(list)?)?;
    let same = datum.id(r.opposite().number()) == Some(r.opposite());
    if !same {
        return Err(Stop::NoQuestion);
    }
    Ok(answer.number(i128::from(r.opposite().number()))?)
}

fn place(datum: &Datum, list: &[i128], answer: &mut Answer) -> Result<(), Stop> {
    let r = numbered(datum, single(list)?)?;
    Ok(answer.number(r.place(datum.m()) as i128)?)
}

fn at_place(datum: &Datum, list: &[i128], answer: &mut Answer) -> Result<(), Stop> {
    let place = index(single(list)?)?;
    if place >= datum.root_count() {
        return Err(Stop::NoQuestion);
    }
    Ok(answer.number(i128::from(datum.root_at(place).number()))?)
}

fn sum(datum: &Datum, list: &[i128], answer: &mut Answer) -> Result<(), Stop> {
    let (j, k) = pair(list)?;
    let sum = datum.sum(numbered(datum, j)?, numbered(datum, k)?);
    Ok(answer.option(sum.map(RootId::number))?)
}

fn string(datum: &Datum, list: &[i128], answer: &mut Answer) -> Result<(), Stop> {
    let (j, k) = pair(list)?;
    let (down, up) = datum.string(numbered(datum, j)?, numbered(datum, k)?);
    answer.number(i128::from(down))?;
    Ok(answer.next(&[i128::from(up)])?)
}

fn reflection(datum: &Datum, list: &[i128], answer: &mut Answer) -> Result<(), Stop> {
    let (i, k) = pair(list)?;
    let i = simple_index(datum, i)?;
    let image = datum.reflect(i, numbered(datum, k)?);
    Ok(answer.number(i128::from(image.number()))?)
}
