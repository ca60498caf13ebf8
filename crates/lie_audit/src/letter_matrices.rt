//! Matrices of letters on a module over a finite field.

ghost use Rattle.std.specs.Prelude.{◌≡◌, ◌<◌, ◌≤◌, pos, neg_ℤ, IfOk, OnOk, cond, eqb, unsigned_abs};
ghost use Rattle.lie_ring.specs.Matrices.{product};
ghost use Rattle.lie_mat.specs.Parts.{partial_table};
ghost use Rattle.lie_field.specs.Quotient.{order};
ghost use Rattle.lie_field.specs.FieldRing.{field_ring};
ghost use Rattle.lie_datum.specs.RootDatum.{IsSimpleIndex};
ghost use Rattle.lie_const.specs.Modules.{dimension, IsModule, root_element, root_element_entry, weyl_element, weyl_inverse};
ghost use Rattle.lie_letters.specs.Entries.{AreUnits};
ghost use Rattle.lie_audit.specs.WordMatrix.{IsLetterFor, torus_element, letter_matrix};

use crate::entries::power_entry;
use lie_datum::{Datum, RootId};
use lie_dense::Dense;
use lie_field::{Fe, Field};
use lie_letters::{Letter, Torus};
use lie_ring::{roomy_of_int, roomy_one};
use lie_weight::Module;
use std::alloc::{AllocError, Global};

/// The entry of the identity.
fn one_entry(alloc: Global, field: &Field, row: usize, col: usize) -> Result<Fe, AllocError>
    ensures value { IfOk result (λ e. e ≡ cond (eqb row col) 1 0) }
    ensures below { IfOk result (λ e. e < order field.now.given) }
{
    if row == col {
        roomy_one(field, alloc)
    } else {
        Ok(Fe::zero())
    }
}

/// The entry of X_r(a).
fn root_entry(
    alloc: Global,
    field: &Field,
    space: &Module,
    r: RootId,
    a: Fe,
    row: usize,
    col: usize,
) -> Result<Fe, AllocError>
    requires r { unsigned_abs r ≤ space.now.positive }
    requires a { a < order field.now.given }
    requires row { row < dimension space.now }
    requires col { col < dimension space.now }
    ensures { IfOk result (λ e. e ≡ root_element_entry (field_ring field.now) space.now r a row col) }
{
    let mut sum = one_entry(alloc, field, row, col)?;
    let mut power = a;
    for k in 0..space.top(r) {
        let factor = roomy_of_int(field, alloc, power_entry(space, r, k + 1, row, col))?;
        sum = field.add(sum, field.mul(power, factor));
        power = field.mul(power, a);
    }
    Ok(sum)
}

/// Fills a row of X_r(a), where zeros stand.
fn fill_row(
    alloc: Global,
    field: &Field,
    space: &Module,
    r: RootId,
    a: Fe,
    matrix: &mut Dense,
    row: usize,
) -> Result<(), AllocError>
    requires r { unsigned_abs r ≤ space.now.positive }
    requires a { a < order field.now.given }
    requires row { row < dimension space.now }
    requires partly { matrix.old ≡ partial_table 0 (dimension space.now) (dimension space.now) (root_element_entry (field_ring field.now) space.now r a) row 0 }
    ensures { OnOk result (matrix.new ≡ partial_table 0 (dimension space.now) (dimension space.now) (root_element_entry (field_ring field.now) space.now r a) row (dimension space.now)) }
{
    for col in 0..space.dim() {
        let e = root_entry(alloc, field, space, r, a, row, col)?;
        matrix.set(row, col, e);
    }
    Ok(())
}

/// The matrix of x_r(a).
fn root_matrix(
    alloc: Global,
    field: &Field,
    space: &Module,
    r: RootId,
    a: Fe,
) -> Result<Dense, AllocError>
    requires r { unsigned_abs r ≤ space.now.positive }
    requires a { a < order field.now.given }
    ensures { IfOk result (λ m. m ≡ root_element (field_ring field.now) space.now r a) }
{
    let n = space.dim();
    let mut matrix = Dense::zero(alloc, n)?;
    for row in 0..n {
        fill_row(alloc, field, space, r, a, &mut matrix, row)?;
    }
    Ok(matrix)
}

/// The matrix of h(t).
fn torus_matrix(
    alloc: Global,
    field: &Field,
    space: &Module,
    t: &Torus,
) -> Result<Dense, AllocError>
    requires { AreUnits field.now t.now }
    ensures { IfOk result (λ m. m ≡ torus_element field.now space.now t.now) }
{
    let n = space.dim();
    let mut matrix = Dense::zero(alloc, n)?;
    for i in 0..n {
        let value = t.char_of(field, space.weight(i));
        matrix.set(i, i, value);
    }
    Ok(matrix)
}

/// X_r(a) X_-r(b) X_r(a).
fn conjugated(
    alloc: Global,
    field: &Field,
    space: &Module,
    r: RootId,
    a: Fe,
    b: Fe,
) -> Result<Dense, AllocError>
    requires r { unsigned_abs r ≤ space.now.positive }
    requires a { a < order field.now.given }
    requires b { b < order field.now.given }
    ensures { IfOk result (λ m. m ≡ product (field_ring field.now) (root_element (field_ring field.now) space.now r a) (product (field_ring field.now) (root_element (field_ring field.now) space.now (neg_ℤ r) b) (root_element (field_ring field.now) space.now r a))) }
{
    let outer = root_matrix(alloc, field, space, r, a)?;
    let inner = root_matrix(alloc, field, space, r.opposite(), b)?;
    outer.mul(alloc, field, &inner.mul(alloc, field, &outer)?)
}

/// The matrix of n_i.
fn weyl_matrix(
    alloc: Global,
    field: &Field,
    datum: &Datum,
    space: &Module,
    i: usize,
) -> Result<Dense, AllocError>
    requires index { IsSimpleIndex datum.now.base i }
    requires space { IsModule datum.now space.now }
    ensures { IfOk result (λ m. m ≡ weyl_element (field_ring field.now) space.now i) }
{
    let _ = datum.m();
    let one = roomy_one(field, alloc)?;
    conjugated(alloc, field, space, datum.simple(i), one, field.neg(one))
}

/// The matrix of the inverse of n_i.
fn inverse_matrix(
    alloc: Global,
    field: &Field,
    datum: &Datum,
    space: &Module,
    i: usize,
) -> Result<Dense, AllocError>
    requires index { IsSimpleIndex datum.now.base i }
    requires space { IsModule datum.now space.now }
    ensures { IfOk result (λ m. m ≡ weyl_inverse (field_ring field.now) space.now i) }
{
    let _ = datum.m();
    let one = roomy_one(field, alloc)?;
    conjugated(alloc, field, space, datum.simple(i), field.neg(one), one)
}

/// The matrix of a letter.
pub(crate) fn letter_matrix(
    alloc: Global,
    field: &Field,
    datum: &Datum,
    space: &Module,
    letter: &Letter,
) -> Result<Dense, AllocError>
    requires space { IsModule datum.now space.now }
    requires letter { IsLetterFor field.now datum.now letter.now }
    ensures { IfOk result (λ m. m ≡ letter_matrix field.now space.now letter.now) }
{
    let _ = datum.m();
    match letter {
        Letter::X(r, a) => root_matrix(alloc, field, space, *r, *a),
        Letter::H(t) => torus_matrix(alloc, field, space, t),
        Letter::N(i) => weyl_matrix(alloc, field, datum, space, usize::from(*i)),
        Letter::Ninv(i) => inverse_matrix(alloc, field, datum, space, usize::from(*i)),
    }
}
