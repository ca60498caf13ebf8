//! Matrices that are made entry by entry.

ghost use Rattle.std.specs.Prelude.{◌≡◌, ℕ, ◌+◌, ◌<◌, ◌≤◌, IfOk, OnOk, IfSome};
ghost use Rattle.std.specs.Option.{unwrap_or};
ghost use Rattle.lie_ring.specs.Rings.{Fits};
ghost use Rattle.lie_ring.specs.Matrices.{table, entry, AllFit};
ghost use Rattle.lie_mat.specs.Wide.{IsSomewhere};
ghost use Rattle.lie_mat.specs.Parts.{partial_table};

use crate::mats::Mat;
use lie_ring::{Ring, RingStop};
use std::alloc::Global;

/// A rule for the entries of a matrix over a ring.
pub trait Entries {
    type Ring: Ring;

    /// The ring.
    ghost over: { Self → Self.Ring };

    /// The number of rows.
    ghost height: { Self → ℕ };

    /// The number of columns.
    ghost width: { Self → ℕ };

    /// The entry in a row and a column.
    ghost value: { Self → ℕ → ℕ → Self.Ring.Elem };

    /// Where the entry in a row and a column may be too wide.
    ghost is_wide: { Self → ℕ → ℕ → Type 0 };

    fn ring(&self) -> &Self::Ring
        ensures { result.now ≡ over self.now };

    /// The entry in a row and a column, or none, which stands for zero.
    fn entry(
        &self,
        alloc: Global,
        row: usize,
        col: usize,
    ) -> Result<Option<<Self::Ring as Ring>::Elem>, RingStop>
        requires row { row < height self.now }
        requires col { col < width self.now }
        ensures fits { IfOk result (λ o. IfSome o (Fits (Self.Ring.ring (over self.now)))) }
        ensures value { IfOk result (λ o. unwrap_or o Self.Ring.zero ≡ value self.now row col) }
        ensures wide { result ≡ Err RingStop.Wide → is_wide self.now row col };
}

/// The matrix of the entries that a rule gives.
pub fn build<E: Entries>(
    alloc: Global,
    entries: &E,
    rows: usize,
    cols: usize,
) -> Result<Mat<E::Ring>, RingStop>
    requires height { E.height entries.now ≡ rows }
    requires width { E.width entries.now ≡ cols }
    requires rows { rows ≤ 1024 }
    requires cols { cols ≤ 1024 }
    ensures value { IfOk result (λ m. m ≡ table rows cols (E.value entries.now)) }
    ensures fit { IfOk result (AllFit (E.Ring.ring (E.over entries.now))) }
    ensures wide { result ≡ Err RingStop.Wide → IsSomewhere rows cols (E.is_wide entries.now) }
{
    let mut matrix = match Mat::zero(alloc, rows, cols) {
        Ok(matrix) => matrix,
        Err(_) => return Err(RingStop::NoMemory),
    };
    for row in 0..rows {
        match fill_row(alloc, entries, &mut matrix, row, rows, cols) {
            Ok(()) => {}
            Err(stop) => return Err(stop),
        }
    }
    Ok(matrix)
}

/// Fills a row.
fn fill_row<E: Entries>(
    alloc: Global,
    entries: &E,
    matrix: &mut Mat<E::Ring>,
    row: usize,
    rows: usize,
    cols: usize,
) -> Result<(), RingStop>
    requires row { row < rows }
    requires height { E.height entries.now ≡ rows }
    requires width { E.width entries.now ≡ cols }
    requires partly { matrix.old ≡ partial_table E.Ring.zero rows cols (E.value entries.now) row 0 }
    requires fit { AllFit (E.Ring.ring (E.over entries.now)) matrix.old }
    ensures partly { OnOk result (
        matrix.new ≡ partial_table E.Ring.zero rows cols (E.value entries.now) row cols) }
    ensures fit { OnOk result (AllFit (E.Ring.ring (E.over entries.now)) matrix.new) }
    ensures wide { result ≡ Err RingStop.Wide → IsSomewhere rows cols (E.is_wide entries.now) }
{
    for col in 0..cols {
        match fill_entry(alloc, entries, matrix, row, col, rows, cols) {
            Ok(()) => {}
            Err(stop) => return Err(stop),
        }
    }
    Ok(())
}

/// Fills a place.
fn fill_entry<E: Entries>(
    alloc: Global,
    entries: &E,
    matrix: &mut Mat<E::Ring>,
    row: usize,
    col: usize,
    rows: usize,
    cols: usize,
) -> Result<(), RingStop>
    requires row { row < rows }
    requires col { col < cols }
    requires height { E.height entries.now ≡ rows }
    requires width { E.width entries.now ≡ cols }
    requires partly { matrix.old ≡ partial_table E.Ring.zero rows cols (E.value entries.now) row col }
    requires fit { AllFit (E.Ring.ring (E.over entries.now)) matrix.old }
    ensures partly { OnOk result (
        matrix.new ≡ partial_table E.Ring.zero rows cols (E.value entries.now) row (col + 1)) }
    ensures fit { OnOk result (AllFit (E.Ring.ring (E.over entries.now)) matrix.new) }
    ensures wide { result ≡ Err RingStop.Wide → E.is_wide entries.now row col }
{
    match entries.entry(alloc, row, col) {
        Ok(None) => Ok(()),
        Ok(Some(e)) => match matrix.set(entries.ring(), row, col, e) {
            Ok(()) => Ok(()),
            Err(_) => Err(RingStop::NoMemory),
        },
        Err(stop) => Err(stop),
    }
}

/// A copy of an entry, or none where it is zero.
pub(crate) fn copy_entry<R: Ring>(
    matrix: &Mat<R>,
    alloc: Global,
    ring: &R,
    row: usize,
    col: usize,
) -> Result<Option<R::Elem>, RingStop>
    requires row { row < matrix.now.height }
    requires col { col < matrix.now.width }
    requires fit { AllFit (R.ring ring.now) matrix.now }
    ensures fits { IfOk result (λ o. IfSome o (Fits (R.ring ring.now))) }
    ensures value { IfOk result (λ o. unwrap_or o R.zero ≡ entry R.zero matrix.now row col) }
    ensures never_wide { ¬ (result ≡ Err RingStop.Wide) }
{
    match matrix.get(row, col) {
        None => Ok(None),
        Some(e) => match ring.copy(alloc, e) {
            Ok(copy) => Ok(Some(copy)),
            Err(stop) => Err(stop),
        },
    }
}
