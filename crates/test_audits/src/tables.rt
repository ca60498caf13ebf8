//! Modules that tables give.

ghost use Rattle.std.specs.Prelude.{◌↔◌, ◌≡◌, ◌≢◌, ◌≤◌, pos, unsigned_abs, IsTrue, IfOk};
ghost use Rattle.std.specs.List.{All};
ghost use Rattle.lie_datum.specs.RootDatum.{IsWithin, IsSimpleIndex};
ghost use Rattle.lie_const.specs.Modules.{IsModule};
ghost use Rattle.lie_const.specs.Signs.{IsSignTable};
ghost use Rattle.lie_identities.specs.Audit.{HasLightWeights};
ghost use Rattle.lie_weight.specs.Tables.{IsEntry};

use crate::audits::{audited, signs};
use lie_const::Signs;
use lie_datum::{Datum, Vector};
use lie_identities::{AuditFault, Audited};
use lie_weight::{Entry, Module, ModuleFault};
use std::alloc::Global;
use test_rows::{Stop, constants, index, padded};

/// Whether all coordinates are within 1,000.
fn is_within(v: &Vector) -> bool
    ensures { IsTrue result ↔ IsWithin 1000 v.now }
{
    v.iter().all(|c| c.unsigned_abs() <= 1000)
}

/// Whether the weights may stand in a table.
fn are_weights(weights: &[Vector]) -> bool
    ensures { IsTrue result ↔ All (IsWithin 1000) weights.now }
{
    weights.iter().all(|v| is_within(v))
}

/// Whether the number is that of a simple root or of the negative of one.
fn is_simple(datum: &Datum, r: i32) -> bool
    ensures { IsTrue result ↔ IsSimpleIndex datum.now.base (unsigned_abs r) }
{
    let i = r.unsigned_abs() as usize;
    1 <= i && i <= datum.l()
}

/// Whether the power may stand in a table.
fn is_power(k: u32) -> bool
    ensures { IsTrue result ↔ (1 ≤ k) × (k ≤ 16) }
{
    1 <= k && k <= 16
}

/// Whether the row or column is one of so many.
fn is_place(count: usize, n: usize) -> bool
    ensures { IsTrue result ↔ (1 ≤ n) × (n ≤ count) }
{
    1 <= n && n <= count
}

/// Whether the row and the column are each one of so many.
fn are_places(count: usize, row: usize, col: usize) -> bool
    ensures { IsTrue result ↔ ((1 ≤ row) × (row ≤ count)) × ((1 ≤ col) × (col ≤ count)) }
{
    is_place(count, row) && is_place(count, col)
}

/// Whether the value may stand in a table.
fn is_value(x: i128) -> bool
    ensures { IsTrue result ↔ (x ≢ pos 0) × (unsigned_abs x ≤ 100) }
{
    x != 0 && x.unsigned_abs() <= 100
}

/// Whether an entry may stand in a table of so many weights.
fn is_entry(datum: &Datum, count: usize, e: &Entry) -> bool
    ensures { IsTrue result ↔ IsEntry datum.now count e.now }
{
    is_simple(datum, e.simple)
        && is_power(e.power)
        && are_places(count, e.row, e.col)
        && is_value(e.value)
}

/// Whether the entries may stand in a table of so many weights.
fn are_entries(datum: &Datum, count: usize, entries: &[Entry]) -> bool
    ensures { IsTrue result ↔ All (IsEntry datum.now count) entries.now }
{
    entries.iter().all(|e| is_entry(datum, count, e))
}

/// The weights of a row.
fn weights(alloc: Global, lists: &[Vec<i128>]) -> Result<Vec<Vector>, Stop> {
    let mut weights = Vec::new(alloc);
    for list in lists {
        weights.push(padded(list)?)?;
    }
    Ok(weights)
}

/// The entry of a list: i, k, row, column and value.
fn entry(list: &[i128]) -> Result<Entry, Stop> {
    let [simple, power, row, col, value] = list else {
        return Err(Stop::NoQuestion);
    };
    let Ok(simple) = i32::try_from(*simple) else {
        return Err(Stop::NoQuestion);
    };
    let Ok(power) = u32::try_from(*power) else {
        return Err(Stop::NoQuestion);
    };
    Ok(Entry {
        simple,
        power,
        row: index(*row)?,
        col: index(*col)?,
        value: *value,
    })
}

/// The entries of a row; an empty list is none.
fn entries(alloc: Global, lists: &[Vec<i128>]) -> Result<Vec<Entry>, Stop> {
    let mut entries = Vec::new(alloc);
    for list in lists {
        if !list.is_empty() {
            entries.push(entry(list)?)?;
        }
    }
    Ok(entries)
}

/// The module of a table.
fn tabled(
    alloc: Global,
    datum: &Datum,
    signs: &Signs,
    weights: &[Vector],
    entries: &[Entry],
) -> Result<Result<Module, ModuleFault>, Stop>
    requires signs { IsSignTable datum.now signs.now }
    ensures shape { IfOk result (λ made. IfOk made (IsModule datum.now)) }
    ensures light { IfOk result (λ made. IfOk made HasLightWeights) }
{
    let few = !weights.is_empty() && weights.len() <= 300 && entries.len() <= 20_000;
    if !few || !are_weights(weights) || !are_entries(datum, weights.len(), entries) {
        return Err(Stop::NoQuestion);
    }
    Ok(Module::table(alloc, datum, signs, weights, entries))
}

/// A tensor product.
fn product(alloc: Global, datum: &Datum, a: &Module, b: &Module) -> Result<Module, ModuleFault>
    requires a { IsModule datum.now a.now }
    requires b { IsModule datum.now b.now }
    ensures shape { IfOk result (IsModule datum.now) }
    ensures light { IfOk result HasLightWeights }
{
    Module::tensor(alloc, datum, a, b)
}

/// The tensor product of so many copies of a module, and of one at least.
fn power(alloc: Global, datum: &Datum, factor: Module, count: usize) -> Result<Module, ModuleFault>
    requires shape { IsModule datum.now factor }
    requires light { HasLightWeights factor }
    ensures shape { IfOk result (IsModule datum.now) }
    ensures light { IfOk result HasLightWeights }
{
    if count < 2 {
        return Ok(factor);
    }
    let mut space = product(alloc, datum, &factor, &factor)?;
    'factors: for _ in 2..count {
        space = product(alloc, datum, &space, &factor)?;
    }
    Ok(space)
}

/// A power of the module of a table.
fn tabled_power(
    alloc: Global,
    datum: &Datum,
    signs: &Signs,
    weights: &[Vector],
    entries: &[Entry],
    count: usize,
) -> Result<Result<Module, ModuleFault>, Stop>
    requires signs { IsSignTable datum.now signs.now }
    ensures shape { IfOk result (λ made. IfOk made (IsModule datum.now)) }
    ensures light { IfOk result (λ made. IfOk made HasLightWeights) }
{
    match tabled(alloc, datum, signs, weights, entries)? {
        Ok(factor) => Ok(power(alloc, datum, factor, count)),
        Err(fault) => Ok(Err(fault)),
    }
}

/// Audits a tensor power of the module of a table; or why there is none.
pub(crate) fn audited_table(
    alloc: Global,
    datum: &Datum,
    table: &[i8],
    weight_lists: &[Vec<i128>],
    entry_lists: &[Vec<i128>],
    count: usize,
) -> Result<Result<Result<Audited, AuditFault>, ModuleFault>, Stop>
    ensures { IfOk result (λ made. IfOk made (λ found. IfOk found (λ a. a.datum ≡ datum.now))) }
{
    let weights = weights(alloc, weight_lists)?;
    let entries = entries(alloc, entry_lists)?;
    let consts = constants(alloc, datum)?;
    let signs = signs(alloc, datum, table)?;
    match tabled_power(alloc, datum, &signs, &weights, &entries, count)? {
        Ok(space) => Ok(Ok(audited(alloc, datum, &consts, &signs, space))),
        Err(fault) => Ok(Err(fault)),
    }
}
