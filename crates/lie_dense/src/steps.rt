//! A table of sums over a small field, so that a row of a product takes look-ups alone.

ghost use Rattle.std.specs.Prelude.{◌≡◌, ◌<◌, ◌≤◌, IfOk, length};
ghost use Rattle.lie_ring.specs.Matrices.{EachElem};
ghost use Rattle.lie_field.specs.Quotient.{order, add, mul};
ghost use Rattle.lie_field.specs.FieldRing.{field_ring};
ghost use Rattle.lie_dense.specs.Flat.{IsRowSum};
ghost use Rattle.lie_dense.specs.Steps.{AreSteps, HasSteps};

use lie_field::{Fe, Field};
use std::alloc::{AllocError, Global};

/// The most elements of a field that has a table, which then fits a processor's nearest memory.
const MOST: usize = 16;

/// The sums x + a y for all elements a, x and y, or none where the table costs more than it saves
/// in a product of dimension n.
pub(crate) fn steps_of(alloc: Global, field: &Field, n: usize) -> Result<Vec<Fe>, AllocError>
    ensures { IfOk result (λ steps. AreSteps field.now steps.items) }
{
    let q = field.q() as usize;
    if q > MOST || q > n / 2 {
        return Ok(Vec::new(alloc));
    }
    all_steps(alloc, field, q)
}

/// The sums x + a y for all elements a, x and y.
fn all_steps(alloc: Global, field: &Field, q: usize) -> Result<Vec<Fe>, AllocError>
    requires order { q ≡ order field.now.given }
    requires few { q ≤ 16 }
    ensures { IfOk result (λ steps. HasSteps field.now steps.items) }
{
    let mut steps = Vec::new(alloc);
    for place in 0..q * q * q {
        let a = element(field, place / q / q);
        let x = element(field, place / q % q);
        let y = element(field, place % q);
        steps.push(field.add(x, field.mul(a, y)))?;
    }
    Ok(steps)
}

/// The element with a number.
fn element(field: &Field, n: usize) -> Fe
    requires below { n < order field.now.given }
    requires few { n ≤ 16 }
    ensures { result ≡ n }
{
    match field.elem(n as u32) {
        Some(e) => e,
        None => unreachable!(),
    }
}

/// Adds a times another row to a row, by the table.
pub(crate) fn add_by_steps(field: &Field, steps: &[Fe], row: &mut [Fe], a: Fe, other: &[Fe])
    requires steps { HasSteps field.now steps.now }
    requires a_below { a < order field.now.given }
    requires row_elem { EachElem (field_ring field.now) row.old }
    requires other_elem { EachElem (field_ring field.now) other.now }
    requires lengths { length row.old ≡ length other.now }
    ensures sums { IsRowSum field.now.given row.new row.old a other.now }
    ensures row_elem { EachElem (field_ring field.now) row.new }
{
    for j in 0..row.len() {
        row[j] = step(field, steps, a, row[j], other[j]);
    }
}

/// The sum x + a y, from the table.
fn step(field: &Field, steps: &[Fe], a: Fe, x: Fe, y: Fe) -> Fe
    requires steps { HasSteps field.now steps.now }
    requires a_below { a < order field.now.given }
    requires x_below { x < order field.now.given }
    requires y_below { y < order field.now.given }
    ensures value { result ≡ add field.now.given x (mul field.now.given a y) }
    ensures below { result < order field.now.given }
{
    let q = field.q() as usize;
    steps[(a.number() as usize * q + x.number() as usize) * q + y.number() as usize]
}
