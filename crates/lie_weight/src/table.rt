//! The module that a table gives.

ghost use Rattle.std.specs.Prelude.{◌≡◌, ℕ, ◌≤◌, ◌<◌, IsTrue, ◌↔◌, IfSome, MatchOption, length};
ghost use Rattle.std.specs.List.{All, Any};
ghost use Rattle.lie_datum.specs.RootDatum.{IsWithin};
ghost use Rattle.lie_const.specs.Signs.{IsSignTable, eta_of};
ghost use Rattle.lie_weight.specs.Tables.{IsEntry, IsSamePlace, IsGraded, IsBadEntry, AreGoodEntries, LoadsTable};

use crate::along::made;
use crate::entry::Entry;
use crate::faults::ModuleFault;
use crate::modules::Module;
use crate::sources::Source;
use lie_const::Signs;
use lie_datum::{Datum, Vector};
use lie_orbit::less_multiple;
use std::alloc::Global;

/// Whether two entries stand in one place.
fn is_same_place(e: &Entry, f: &Entry) -> bool
    ensures { IsTrue result ↔ IsSamePlace e.now f.now }
{
    e.simple == f.simple && e.power == f.power && e.row == f.row && e.col == f.col
}

/// Whether an entry stands in the place of an earlier one.
fn is_repeated(entry: &Entry, earlier: &[Entry]) -> bool
    ensures { IsTrue result ↔ Any (IsSamePlace entry.now) earlier.now }
{
    earlier.iter().any(|e| is_same_place(entry, e))
}

/// Whether an entry raises weights by its power times its root.
fn is_graded(datum: &Datum, weights: &[Vector], entry: &Entry) -> bool
    requires entry { IsEntry datum.now (length weights.now) entry.now }
    requires small { All (IsWithin 1000) weights.now }
    ensures { IsTrue result ↔ IsGraded datum.now weights.now entry.now }
{
    datum.loaded();
    let Some(root) = datum.id(entry.simple) else {
        return false;
    };
    let raised = less_multiple(
        &weights[entry.col - 1],
        -i128::from(entry.power),
        datum.root(root),
    );
    weights[entry.row - 1] == raised
}

/// Whether the entry at a place, counted from 0, repeats an earlier one or does not fit its weights.
fn is_bad(datum: &Datum, weights: &[Vector], entries: &[Entry], n: usize) -> bool
    requires n { n < length entries.now }
    requires entries { All (IsEntry datum.now (length weights.now)) entries.now }
    requires small { All (IsWithin 1000) weights.now }
    ensures { IsTrue result ↔ IsBadEntry datum.now weights.now entries.now n }
{
    is_repeated(&entries[n], &entries[..n]) || !is_graded(datum, weights, &entries[n])
}

/// The place of the first bad entry, counted from 0.
fn first_bad(datum: &Datum, weights: &[Vector], entries: &[Entry]) -> Option<usize>
    requires entries { All (IsEntry datum.now (length weights.now)) entries.now }
    requires small { All (IsWithin 1000) weights.now }
    ensures here { MatchOption result (AreGoodEntries datum.now weights.now entries.now) (IsBadEntry datum.now weights.now entries.now) }
    ensures before { IfSome result (λ n. (m : ℕ) → m < n → ¬ IsBadEntry datum.now weights.now entries.now m) }
{
    for n in 0..entries.len() {
        if is_bad(datum, weights, entries, n) {
            return Some(n);
        }
    }
    None
}

impl Module {
    /// The module with these weights and entries.
    ///
    /// The entries give the matrices of the simple roots and of their negatives, and those of the other roots are conjugates of
    /// them. That the relations of the group hold on it is not tested here.
    pub fn table(
        alloc: Global,
        datum: &Datum,
        signs: &Signs,
        weights: &[Vector],
        entries: &[Entry],
    ) -> Result<Module, ModuleFault>
        requires some { 1 ≤ length weights.now }
        requires few { length weights.now ≤ 300 }
        requires weights { All (IsWithin 1000) weights.now }
        requires count { length entries.now ≤ 20000 }
        requires entries { All (IsEntry datum.now (length weights.now)) entries.now }
        requires signs { IsSignTable datum.now signs.now }
        ensures { LoadsTable datum.now (eta_of signs.now) weights.now entries.now result }
    {
        datum.loaded();
        if let Some(n) = first_bad(datum, weights, entries) {
            return Err(ModuleFault::Table(n + 1));
        }
        let copy = Vec::from_slice(alloc, weights)?;
        made(alloc, datum, signs, &Source::Entries(entries), copy)
    }
}
