//! Whether a module is graded.

ghost use Rattle.std.specs.Prelude.{◌≡◌, ◌≤◌, ◌<◌, ◌↔◌, pos, IsTrue, MatchOption};
ghost use Rattle.lie_datum.specs.Vectors.{plus, times};
ghost use Rattle.lie_datum.specs.RootDatum.{IsWithin};
ghost use Rattle.lie_datum.specs.RootList.{IsNumber};
ghost use Rattle.lie_const.specs.Modules.{dimension, top};
ghost use Rattle.lie_identities.specs.Audit.{IsGraded, IsFirstUngraded};
ghost use Rattle.lie_identities.specs.Grading.{IsGradedColumn, IsFirstInColumn, IsGradedPower, IsFirstInPower, IsGradedRoot, IsFirstAtRoot};

use crate::steps::Steps;
use lie_datum::{RootId, Vector};
use lie_orbit::less_multiple;

/// Whether the weight of a row is that of a column with k times a root.
fn is_raised(row: &Vector, col: &Vector, k: u32, root: &Vector) -> bool
    requires col { IsWithin 1000000 col.now }
    requires root { IsWithin 80000 root.now }
    ensures { IsTrue result ↔ (row.now ≡ plus col.now (times (pos k) root.now)) }
{
    *row == less_multiple(col, -i128::from(k), root)
}

/// The first row of a column of E_r^(k) in which the entry is not graded.
fn ungraded_row(steps: &Steps, r: RootId, k: u32, col: usize) -> Option<usize>
    requires r { IsNumber steps.now.datum.now r }
    requires first { 1 ≤ k }
    requires last { k ≤ top steps.now.module.now r }
    requires col { col < dimension steps.now.module.now }
    ensures { MatchOption result
        (IsGradedColumn steps.now.datum.now steps.now.module.now r k col)
        (IsFirstInColumn steps.now.datum.now steps.now.module.now r k col) }
{
    steps.datum.loaded();
    let matrix = steps.module.power(r, k);
    let root = steps.datum.root(r);
    let mut from = 0;
    while let Some((row, _)) = matrix.next_kept(from, col) {
        if !is_raised(steps.module.weight(row), steps.module.weight(col), k, root) {
            return Some(row);
        }
        from = row + 1;
    }
    None
}

/// The row and the column of the first entry of E_r^(k) that is not graded.
fn ungraded_entry(steps: &Steps, r: RootId, k: u32) -> Option<(usize, usize)>
    requires r { IsNumber steps.now.datum.now r }
    requires first { 1 ≤ k }
    requires last { k ≤ top steps.now.module.now r }
    ensures { MatchOption result
        (IsGradedPower steps.now.datum.now steps.now.module.now r k)
        (λ p. IsFirstInPower steps.now.datum.now steps.now.module.now r k p.0 p.1) }
{
    for col in 0..steps.module.dim() {
        if let Some(row) = ungraded_row(steps, r, k, col) {
            return Some((row, col));
        }
    }
    None
}

/// The power, the row and the column of the first entry of a root that is not graded.
fn ungraded_power(steps: &Steps, r: RootId) -> Option<(u32, usize, usize)>
    requires { IsNumber steps.now.datum.now r }
    ensures { MatchOption result
        (IsGradedRoot steps.now.datum.now steps.now.module.now r)
        (λ p. IsFirstAtRoot steps.now.datum.now steps.now.module.now r p.0 p.1 p.2) }
{
    for k in 0..steps.top(r) {
        if let Some((row, col)) = ungraded_entry(steps, r, k + 1) {
            return Some((k + 1, row, col));
        }
    }
    None
}

/// The root, the power, the row and the column of the first entry that is not graded. Rows and
/// columns count from 1.
pub(crate) fn first_ungraded(steps: &Steps) -> Option<(RootId, u32, usize, usize)>
    ensures { MatchOption result
        (IsGraded steps.now.datum.now steps.now.module.now)
        (λ p. IsFirstUngraded steps.now.datum.now steps.now.module.now p.0 p.1 p.2 p.3) }
{
    let _ = steps.module.dim();
    for place in 0..steps.datum.root_count() {
        let r = steps.datum.root_at(place);
        if let Some((k, row, col)) = ungraded_power(steps, r) {
            return Some((r, k, row + 1, col + 1));
        }
    }
    None
}
