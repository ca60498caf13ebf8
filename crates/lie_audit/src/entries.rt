//! Entries of root elements and of Weyl representatives on the adjoint module.

ghost use Rattle.std.specs.Prelude.{◌≡◌, ◌+◌, ◌*◌, ◌≤◌, ◌<◌, ◌*ℤ◌, ◌+ℤ◌, ℕ, ℤ, pos, IfOk, length, unsigned_abs, slice_index_or};
ghost use Rattle.lie_ring.specs.Integers.{integers};
ghost use Rattle.lie_ring.specs.Matrices.{entry};
ghost use Rattle.lie_datum.specs.RootDatum.{IsSimpleIndex};
ghost use Rattle.lie_datum.specs.RootList.{IsNumber};
ghost use Rattle.lie_const.specs.Modules.{dimension, top, divided_power, root_element_entry, IsModule};
ghost use Rattle.lie_const.specs.Adjoint.{adjoint_dimension};
ghost use Rattle.lie_const.specs.Signs.{sign_entry};
ghost use Rattle.lie_weight.specs.Laws.{HasSmallMatrices};
ghost use Rattle.lie_audit.specs.SignParts.{unit, Lists, IsWithinList, row_value, entry_bound};

use lie_datum::{Datum, RootId};
use lie_weight::{Module, place_in_basis};
use std::alloc::{AllocError, Global};

/// The value, or its negative.
fn signed(minus: bool, value: i128) -> i128
    requires { unsigned_abs value ≤ 200 }
    ensures value { result ≡ unit minus *ℤ value }
    ensures bound { unsigned_abs result ≤ 200 }
{
    if minus { -value } else { value }
}

/// A product added to a sum.
fn add_product(sum: i128, factor: i128, value: i128) -> i128
    requires sum { unsigned_abs sum ≤ 20000000000000 }
    requires factor { unsigned_abs factor ≤ 601 }
    requires value { unsigned_abs value ≤ 100000000 }
    ensures value { result ≡ sum +ℤ factor *ℤ value }
    ensures bound { unsigned_abs result ≤ 20060100000000 }
{
    sum + factor * value
}

/// The entry of E_r^(k).
pub(crate) fn power_entry(adjoint: &Module, r: RootId, k: u32, row: usize, col: usize) -> i128
    requires r { unsigned_abs r ≤ adjoint.now.positive }
    requires first { 1 ≤ k }
    requires last { k ≤ top adjoint.now r }
    requires row { row < dimension adjoint.now }
    requires col { col < dimension adjoint.now }
    ensures { result ≡ entry (pos 0) (divided_power adjoint.now r k) row col }
{
    match adjoint.power(r, k).get(row, col) {
        Some(e) => *e,
        None => 0,
    }
}

/// The entry of X_r(-1), or of X_r(1).
fn element_entry(
    datum: &Datum,
    adjoint: &Module,
    r: RootId,
    minus: bool,
    row: usize,
    col: usize,
) -> i128
    requires number { IsNumber datum.now r }
    requires adjoint { IsModule datum.now adjoint.now }
    requires small { HasSmallMatrices datum.now adjoint.now }
    requires row { row < dimension adjoint.now }
    requires col { col < dimension adjoint.now }
    ensures value { result ≡ root_element_entry integers adjoint.now r (unit minus) row col }
    ensures bound { unsigned_abs result ≤ 601 }
{
    let _ = datum.m();
    let mut sum = if row == col { 1 } else { 0 };
    let mut negative = minus;
    for k in 0..adjoint.top(r) {
        sum += signed(negative, power_entry(adjoint, r, k + 1, row, col));
        negative = negative != minus;
    }
    sum
}

/// A column of X_r(-1), or of X_r(1).
fn element_column(
    alloc: Global,
    datum: &Datum,
    adjoint: &Module,
    r: RootId,
    minus: bool,
    col: usize,
) -> Result<Vec<i128>, AllocError>
    requires number { IsNumber datum.now r }
    requires adjoint { IsModule datum.now adjoint.now }
    requires small { HasSmallMatrices datum.now adjoint.now }
    requires col { col < dimension adjoint.now }
    ensures { IfOk result (λ v. Lists (dimension adjoint.now) (λ i. root_element_entry integers adjoint.now r (unit minus) i col) 601 v.items) }
{
    let mut column = Vec::new(alloc);
    for row in 0..adjoint.dim() {
        column.push(element_entry(datum, adjoint, r, minus, row, col))?;
    }
    Ok(column)
}

/// A row of X_r(-1), or of X_r(1), times a column.
fn row_product(
    datum: &Datum,
    adjoint: &Module,
    r: RootId,
    minus: bool,
    row: usize,
    column: &[i128],
) -> i128
    requires number { IsNumber datum.now r }
    requires adjoint { IsModule datum.now adjoint.now }
    requires small { HasSmallMatrices datum.now adjoint.now }
    requires row { row < dimension adjoint.now }
    requires count { length column.now ≡ dimension adjoint.now }
    requires within { IsWithinList 100000000 column.now }
    ensures value { result ≡ row_value adjoint.now r (unit minus) row column.now }
    ensures bound { IsWithinList 601 column.now → unsigned_abs result ≤ 100000000 }
    ensures size { unsigned_abs result ≤ entry_bound }
{
    let mut sum = 0;
    for j in 0..column.len() {
        if column[j] != 0 {
            let factor = element_entry(datum, adjoint, r, minus, row, j);
            sum = add_product(sum, factor, column[j]);
        }
    }
    sum
}

/// X_r(-1), or X_r(1), times a column.
fn applied(
    alloc: Global,
    datum: &Datum,
    adjoint: &Module,
    r: RootId,
    minus: bool,
    column: &[i128],
) -> Result<Vec<i128>, AllocError>
    requires number { IsNumber datum.now r }
    requires adjoint { IsModule datum.now adjoint.now }
    requires small { HasSmallMatrices datum.now adjoint.now }
    requires count { length column.now ≡ dimension adjoint.now }
    requires within { IsWithinList 601 column.now }
    ensures { IfOk result (λ v. Lists (dimension adjoint.now) (λ i. row_value adjoint.now r (unit minus) i column.now) 100000000 v.items) }
{
    let mut image = Vec::new(alloc);
    for row in 0..adjoint.dim() {
        image.push(row_product(datum, adjoint, r, minus, row, column))?;
    }
    Ok(image)
}

/// The entry of N_i in the row of e_(s_i s) and the column of e_s.
pub(crate) fn weyl_entry(
    alloc: Global,
    datum: &Datum,
    adjoint: &Module,
    i: usize,
    s: RootId,
) -> Result<i128, AllocError>
    requires index { IsSimpleIndex datum.now.base i }
    requires number { IsNumber datum.now s }
    requires adjoint { IsModule datum.now adjoint.now }
    requires small { HasSmallMatrices datum.now adjoint.now }
    requires dimension { dimension adjoint.now ≡ adjoint_dimension datum.now }
    ensures value { IfOk result (λ c. c ≡ sign_entry datum.now adjoint.now i s) }
    ensures size { IfOk result (λ c. unsigned_abs c ≤ entry_bound) }
{
    datum.loaded();
    let up = datum.simple(i);
    let row = place_in_basis(datum, datum.reflect(i, s));
    let first = element_column(alloc, datum, adjoint, up, false, place_in_basis(datum, s))?;
    let second = applied(alloc, datum, adjoint, up.opposite(), true, &first)?;
    Ok(row_product(datum, adjoint, up, false, row, &second))
}
