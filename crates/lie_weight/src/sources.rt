//! Where the matrices of the simple roots and of their negatives come from.

ghost use Rattle.std.specs.Prelude.{◌≡◌, ℕ, suc, ◌-◌, ◌≤◌, ◌∷◌, List, IfOk, OnOk, length, unsigned_abs};
ghost use Rattle.std.specs.List.{All};
ghost use Rattle.lie_ring.specs.Integers.{integers};
ghost use Rattle.lie_ring.specs.Matrices.{AllFit};
ghost use Rattle.lie_datum.specs.RootDatum.{IsWithin};
ghost use Rattle.lie_datum.specs.RootList.{IsNumber};
ghost use Rattle.lie_weight.specs.declared.entry.Entry.{Entry as DefinedEntry};
ghost use Rattle.lie_weight.specs.Tables.{given_matrix, IsEntry};
ghost use Rattle.lie_weight.specs.Completion.{KeepsAll, step_powers, given_powers, source_powers, IsSource};

use crate::entry::Entry;
use crate::powers::kept;
use crate::steps::step_matrix;
use lie_datum::{Datum, RootId, Vector};
use lie_mat::Mat;
use lie_ring::Ints;
use std::alloc::{AllocError, Global};

/// The greatest power in a table.
const POWERS: u32 = 16;

/// The steps along the weights, or the entries of a table.
#[derive(Clone, Copy)]
pub(crate) enum Source<'a> {
    Steps,
    Entries(&'a [Entry]),
}

/// Writes an entry, if it is for this root and this power.
fn set_given(
    matrix: &mut Mat<Ints>,
    root: RootId,
    power: u32,
    entry: &Entry,
) -> Result<(), AllocError>
    requires row { (1 ≤ entry.now.row) × (entry.now.row ≤ matrix.old.height) }
    requires col { (1 ≤ entry.now.col) × (entry.now.col ≤ matrix.old.height) }
    requires small { unsigned_abs entry.now.value ≤ 100 }
    requires square { matrix.old.width ≡ matrix.old.height }
    requires fit { AllFit integers matrix.old }
    ensures given { OnOk result ((es : List DefinedEntry) → matrix.old ≡ given_matrix matrix.old.height es root power → matrix.new ≡ given_matrix matrix.old.height (entry.now ∷ es) root power) }
    ensures fit { OnOk result (AllFit integers matrix.new) }
{
    if entry.simple == root.number() && entry.power == power {
        matrix.set(&Ints, entry.row - 1, entry.col - 1, entry.value)
    } else {
        Ok(())
    }
}

/// The matrix that the entries give for a root and a power.
fn given_matrix(
    alloc: Global,
    entries: &[Entry],
    size: usize,
    root: RootId,
    power: u32,
) -> Result<Mat<Ints>, AllocError>
    requires size { size ≤ 1024 }
    requires rows { All (λ e. (1 ≤ e.row) × (e.row ≤ size)) entries.now }
    requires cols { All (λ e. (1 ≤ e.col) × (e.col ≤ size)) entries.now }
    requires small { All (λ e. unsigned_abs e.value ≤ 100) entries.now }
    ensures value { IfOk result (λ m. m ≡ given_matrix size entries.now root power) }
    ensures fit { IfOk result (AllFit integers) }
{
    let mut matrix = Mat::zero(alloc, size, size)?;
    let count = entries.len();
    for past in 0..count {
        set_given(&mut matrix, root, power, &entries[count - 1 - past])?;
    }
    Ok(matrix)
}

/// The matrices that the entries give for a root.
fn given_powers(
    alloc: Global,
    datum: &Datum,
    entries: &[Entry],
    size: usize,
    root: RootId,
) -> Result<Vec<Mat<Ints>>, AllocError>
    requires size { size ≤ 1024 }
    requires entries { All (IsEntry datum.now size) entries.now }
    ensures { IfOk result (λ list. KeepsAll size (given_powers size entries.now root) list.items) }
{
    datum.loaded();
    let mut list = Vec::new(alloc);
    for k in 0..POWERS {
        list.push(given_matrix(alloc, entries, size, root, k + 1)?)?;
    }
    kept(alloc, size, list)
}

/// The matrices of the steps by a root.
fn step_powers(
    alloc: Global,
    datum: &Datum,
    weights: &[Vector],
    root: RootId,
) -> Result<Vec<Mat<Ints>>, AllocError>
    requires number { IsNumber datum.now root }
    requires small { All (IsWithin 1000000) weights.now }
    requires few { length weights.now ≤ 1024 }
    ensures { IfOk result (λ list. KeepsAll (length weights.now) (step_powers datum.now weights.now root) list.items) }
{
    let mut list = Vec::new(alloc);
    list.push(step_matrix(alloc, datum, weights, root)?)?;
    kept(alloc, weights.len(), list)
}

/// The matrices of a root, simple or the negative of a simple root.
pub(crate) fn simple_powers(
    alloc: Global,
    datum: &Datum,
    source: &Source<'_>,
    weights: &[Vector],
    root: RootId,
) -> Result<Vec<Mat<Ints>>, AllocError>
    requires number { IsNumber datum.now root }
    requires small { All (IsWithin 1000000) weights.now }
    requires few { length weights.now ≤ 1024 }
    requires source { IsSource datum.now (length weights.now) source.now }
    ensures { IfOk result (λ list. KeepsAll (length weights.now) (source_powers datum.now weights.now source.now root) list.items) }
{
    match source {
        Source::Steps => step_powers(alloc, datum, weights, root),
        Source::Entries(entries) => given_powers(alloc, datum, entries, weights.len(), root),
    }
}
