//! Rows on products of positive root elements over the field.

ghost use Rattle.std.specs.Prelude.{◌≡◌, ◌<◌, ◌<ℤ◌, pos, Ok, IfOk, length};
ghost use Rattle.lie_field.specs.FieldRing.{field_ring};
ghost use Rattle.lie_field.specs.Quotient.{order};
ghost use Rattle.lie_datum.specs.RootList.{IsNumber};
ghost use Rattle.lie_const.specs.ConstantTables.{LoadsConstants};
ghost use Rattle.lie_unip.specs.Collection.{AreEntries};
ghost use Rattle.lie_weyl.specs.WeylElement.{IsElement};

use crate::elements::element;
use lie_const::Constants;
use lie_datum::{Datum, RootId};
use lie_field::{Fe, Field};
use lie_unip::Unip;
use lie_weyl::Weyl;
use std::alloc::Global;
use test_rows::{Answer, Roots, Stop, constants, entry, numbered, pair};

/// Answers a question about products; false where it is about something else.
pub(crate) fn about_products(
    alloc: Global,
    field: &Field,
    roots: &Roots,
    question: &str,
    lists: &[Vec<i128>],
    answer: &mut Answer,
) -> Result<bool, Stop> {
    if !is_product(question) {
        return Ok(false);
    }
    let consts = constants(alloc, &roots.datum)?;
    about_collected(alloc, field, &roots.datum, &consts, question, lists, answer)
}

/// Answers a question about products with these constants.
fn about_collected(
    alloc: Global,
    field: &Field,
    datum: &Datum,
    consts: &Constants,
    question: &str,
    lists: &[Vec<i128>],
    answer: &mut Answer,
) -> Result<bool, Stop>
    requires { LoadsConstants datum.now (Ok consts.now) }
{
    match (question, lists) {
        ("product", [a, b]) => shown_product(alloc, field, datum, consts, a, b, answer)?,
        ("inverse", [a]) => shown_inverse(alloc, field, datum, consts, a, answer)?,
        ("letters", letters) => shown_letters(alloc, field, datum, consts, letters, answer)?,
        ("split", [a, w]) => shown_split(alloc, field, datum, consts, a, w, answer)?,
        _ => return Ok(false),
    }
    Ok(true)
}

/// Writes the product of the elements with these entries.
fn shown_product(
    alloc: Global,
    field: &Field,
    datum: &Datum,
    consts: &Constants,
    a: &[i128],
    b: &[i128],
    answer: &mut Answer,
) -> Result<(), Stop>
    requires { LoadsConstants datum.now (Ok consts.now) }
{
    let a = unipotent(alloc, field, datum, consts, a)?;
    shown_multiple(alloc, field, datum, consts, &a, b, answer)
}

/// Writes the product of an element and the element with these entries.
fn shown_multiple(
    alloc: Global,
    field: &Field,
    datum: &Datum,
    consts: &Constants,
    a: &Unip<Field>,
    b: &[i128],
    answer: &mut Answer,
) -> Result<(), Stop>
    requires loads { LoadsConstants datum.now (Ok consts.now) }
    requires a { AreEntries (field_ring field.now) (length datum.now.positive) a.now }
{
    let b = unipotent(alloc, field, datum, consts, b)?;
    shown_product_of(alloc, field, datum, consts, a, &b, answer)
}

/// Writes the product of two elements.
fn shown_product_of(
    alloc: Global,
    field: &Field,
    datum: &Datum,
    consts: &Constants,
    a: &Unip<Field>,
    b: &Unip<Field>,
    answer: &mut Answer,
) -> Result<(), Stop>
    requires loads { LoadsConstants datum.now (Ok consts.now) }
    requires a { AreEntries (field_ring field.now) (length datum.now.positive) a.now }
    requires b { AreEntries (field_ring field.now) (length datum.now.positive) b.now }
{
    let u = product(alloc, field, datum, consts, a, b)?;
    write_entries(datum, &u, answer)
}

/// Writes the inverse of the element with these entries.
fn shown_inverse(
    alloc: Global,
    field: &Field,
    datum: &Datum,
    consts: &Constants,
    a: &[i128],
    answer: &mut Answer,
) -> Result<(), Stop>
    requires { LoadsConstants datum.now (Ok consts.now) }
{
    let a = unipotent(alloc, field, datum, consts, a)?;
    shown_inverse_of(alloc, field, datum, consts, &a, answer)
}

/// Writes the inverse of an element.
fn shown_inverse_of(
    alloc: Global,
    field: &Field,
    datum: &Datum,
    consts: &Constants,
    a: &Unip<Field>,
    answer: &mut Answer,
) -> Result<(), Stop>
    requires loads { LoadsConstants datum.now (Ok consts.now) }
    requires a { AreEntries (field_ring field.now) (length datum.now.positive) a.now }
{
    let u = inverse(alloc, field, datum, consts, a)?;
    write_entries(datum, &u, answer)
}

/// Writes the product of letters.
fn shown_letters(
    alloc: Global,
    field: &Field,
    datum: &Datum,
    consts: &Constants,
    letters: &[Vec<i128>],
    answer: &mut Answer,
) -> Result<(), Stop>
    requires { LoadsConstants datum.now (Ok consts.now) }
{
    let u = collected(alloc, field, datum, consts, letters)?;
    write_entries(datum, &u, answer)
}

/// Writes the two parts of the element with these entries.
fn shown_split(
    alloc: Global,
    field: &Field,
    datum: &Datum,
    consts: &Constants,
    a: &[i128],
    word: &[i128],
    answer: &mut Answer,
) -> Result<(), Stop>
    requires { LoadsConstants datum.now (Ok consts.now) }
{
    let a = unipotent(alloc, field, datum, consts, a)?;
    shown_split_of(alloc, field, datum, consts, &a, word, answer)
}

/// Writes the two parts of an element.
fn shown_split_of(
    alloc: Global,
    field: &Field,
    datum: &Datum,
    consts: &Constants,
    a: &Unip<Field>,
    word: &[i128],
    answer: &mut Answer,
) -> Result<(), Stop>
    requires loads { LoadsConstants datum.now (Ok consts.now) }
    requires a { AreEntries (field_ring field.now) (length datum.now.positive) a.now }
{
    let w = element(alloc, datum, word)?;
    split(alloc, field, datum, consts, a, &w, answer)
}

/// Whether a question is about products.
fn is_product(question: &str) -> bool {
    match question {
        "product" | "inverse" | "letters" | "split" => true,
        _ => false,
    }
}

/// 1.
fn one(alloc: Global, field: &Field, datum: &Datum) -> Result<Unip<Field>, Stop>
    ensures { IfOk result (AreEntries (field_ring field.now) (length datum.now.positive)) }
{
    Ok(Unip::one(alloc, field, datum)?)
}

/// The product with one letter more.
fn pushed(
    alloc: Global,
    field: &Field,
    datum: &Datum,
    consts: &Constants,
    u: &Unip<Field>,
    r: RootId,
    a: Fe,
) -> Result<Unip<Field>, Stop>
    requires loads { LoadsConstants datum.now (Ok consts.now) }
    requires entries { AreEntries (field_ring field.now) (length datum.now.positive) u.now }
    requires number { IsNumber datum.now r }
    requires positive { pos 0 <ℤ r }
    requires element { a < order field.now.given }
    ensures { IfOk result (AreEntries (field_ring field.now) (length datum.now.positive)) }
{
    Ok(u.push(alloc, field, datum, consts, r, &a)?)
}

/// The product with one letter more, at the k-th positive root and with the n-th element.
fn with_letter(
    alloc: Global,
    field: &Field,
    datum: &Datum,
    consts: &Constants,
    u: &Unip<Field>,
    k: i128,
    n: i128,
) -> Result<Unip<Field>, Stop>
    requires loads { LoadsConstants datum.now (Ok consts.now) }
    requires entries { AreEntries (field_ring field.now) (length datum.now.positive) u.now }
    ensures { IfOk result (AreEntries (field_ring field.now) (length datum.now.positive)) }
{
    let r = numbered(datum, k)?;
    if r.number() <= 0 {
        return Err(Stop::NoQuestion);
    }
    pushed(alloc, field, datum, consts, u, r, entry(field, n)?)
}

/// The element with these entries, one for each positive root in order.
fn unipotent(
    alloc: Global,
    field: &Field,
    datum: &Datum,
    consts: &Constants,
    list: &[i128],
) -> Result<Unip<Field>, Stop>
    requires loads { LoadsConstants datum.now (Ok consts.now) }
    ensures { IfOk result (AreEntries (field_ring field.now) (length datum.now.positive)) }
{
    if list.len() != datum.m() {
        return Err(Stop::NoQuestion);
    }
    let mut u = one(alloc, field, datum)?;
    for k in 0..list.len() {
        u = with_letter(alloc, field, datum, consts, &u, k as i128 + 1, list[k])?;
    }
    Ok(u)
}

/// The product of letters, each a root and an element.
fn collected(
    alloc: Global,
    field: &Field,
    datum: &Datum,
    consts: &Constants,
    letters: &[Vec<i128>],
) -> Result<Unip<Field>, Stop>
    requires loads { LoadsConstants datum.now (Ok consts.now) }
    ensures { IfOk result (AreEntries (field_ring field.now) (length datum.now.positive)) }
{
    let mut u = one(alloc, field, datum)?;
    for letter in letters {
        let (k, n) = pair(letter)?;
        u = with_letter(alloc, field, datum, consts, &u, k, n)?;
    }
    Ok(u)
}

fn product(
    alloc: Global,
    field: &Field,
    datum: &Datum,
    consts: &Constants,
    a: &Unip<Field>,
    b: &Unip<Field>,
) -> Result<Unip<Field>, Stop>
    requires loads { LoadsConstants datum.now (Ok consts.now) }
    requires a { AreEntries (field_ring field.now) (length datum.now.positive) a.now }
    requires b { AreEntries (field_ring field.now) (length datum.now.positive) b.now }
    ensures { IfOk result (AreEntries (field_ring field.now) (length datum.now.positive)) }
{
    Ok(a.mul(alloc, field, datum, consts, b)?)
}

fn inverse(
    alloc: Global,
    field: &Field,
    datum: &Datum,
    consts: &Constants,
    a: &Unip<Field>,
) -> Result<Unip<Field>, Stop>
    requires loads { LoadsConstants datum.now (Ok consts.now) }
    requires entries { AreEntries (field_ring field.now) (length datum.now.positive) a.now }
    ensures { IfOk result (AreEntries (field_ring field.now) (length datum.now.positive)) }
{
    Ok(a.inv(alloc, field, datum, consts)?)
}

/// Writes the part of the roots that w keeps positive, and the other part.
fn split(
    alloc: Global,
    field: &Field,
    datum: &Datum,
    consts: &Constants,
    a: &Unip<Field>,
    w: &Weyl,
    answer: &mut Answer,
) -> Result<(), Stop>
    requires loads { LoadsConstants datum.now (Ok consts.now) }
    requires a { AreEntries (field_ring field.now) (length datum.now.positive) a.now }
    requires w { IsElement datum.now w.now }
{
    let (first, second) = a.split(alloc, field, datum, consts, w)?;
    write_entries(datum, &first, answer)?;
    answer.word("|")?;
    write_entries(datum, &second, answer)
}

/// Writes the numbers of the entries.
fn write_entries(datum: &Datum, u: &Unip<Field>, answer: &mut Answer) -> Result<(), Stop>
    requires { length u.now ≡ length datum.now.positive }
{
    for k in 0..datum.m() {
        answer.number(i128::from(u.coeff(k + 1).number()))?;
    }
    Ok(())
}
