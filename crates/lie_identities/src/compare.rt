//! The two sides of a relation, compared on one basis vector at a time.

ghost use Rattle.std.specs.Prelude.{◌≡◌, ℕ, ◌≤◌, ◌<◌, ◌↔◌, map, IfOk, IfSome, IsTrue, MatchOption, MatchResult};
ghost use Rattle.lie_ring.specs.Matrices.{entry};
ghost use Rattle.lie_mat.specs.Kept.{AreZeros};
ghost use Rattle.lie_const.specs.Modules.{dimension};
ghost use Rattle.lie_poly.specs.Polynomials.{laurent, coefficient};
ghost use Rattle.lie_poly.specs.Differences.{IsFirstDifference};
ghost use Rattle.lie_identities.specs.AuditRelations.{side_matrix};
ghost use Rattle.lie_identities.specs.Audit.{laurent_variables};
ghost use Rattle.lie_identities.specs.Columns.{side_column, IsColumn, IsNarrowSide};
ghost use Rattle.lie_identities.specs.Actions.{factor_of, AreActions};
ghost use Rattle.lie_identities.specs.Comparison.{IsFirstDifferentRow, IsNextRow, IsColumnDifference, IsDifference};

use crate::actions::{Action, actions};
use crate::columns::{side_column, side_moves};
use crate::factors::Factor;
use crate::faults::AuditFault;
use crate::narrow::copied;
use crate::relations::Rel;
use crate::steps::Steps;
use lie_mat::Mat;
use lie_poly::{Laurent, Poly};
use lie_ring::Ring;
use std::alloc::{AllocError, Global};

/// From a row on, the first in which one of two columns has an entry that is not 0, and whether both
/// have the same there.
fn next_row(left: &Mat<Laurent>, right: &Mat<Laurent>, from: usize) -> Option<(usize, bool)>
    requires left { IsColumn left.now.height left.now }
    requires right { IsColumn left.now.height right.now }
    ensures next { MatchOption result
        ((b : ℕ) → from ≤ b → b < left.now.height → entry laurent.zero left.now b 0 ≡ entry laurent.zero right.now b 0)
        (λ p. IsNextRow left.now right.now from p.0 × (IsTrue p.1 ↔ (entry laurent.zero left.now p.0 0 ≡ entry laurent.zero right.now p.0 0))) }
    ensures few { IfSome result (λ p. p.0 < 1024) }
{
    match (left.next_kept(from, 0), right.next_kept(from, 0)) {
        (None, None) => None,
        (Some((row, _)), None) => Some((row, false)),
        (None, Some((row, _))) => Some((row, false)),
        (Some((row, x)), Some((other, y))) => {
            if row < other {
                Some((row, false))
            } else if other < row {
                Some((other, false))
            } else {
                Some((row, Laurent.same(x, y)))
            }
        }
    }
}

/// The first row in which two columns differ.
fn first_different_row(left: &Mat<Laurent>, right: &Mat<Laurent>) -> Option<usize>
    requires left { IsColumn left.now.height left.now }
    requires right { IsColumn left.now.height right.now }
    ensures row { MatchOption result (left.now ≡ right.now) (IsFirstDifferentRow left.now right.now) }
    ensures few { IfSome result (λ a. a < 1024) }
{
    let mut from = 0;
    while let Some((row, same)) = next_row(left, right, from) {
        if !same {
            return Some(row);
        }
        from = row + 1;
    }
    None
}

/// The entry in a row of a column.
fn entry_in(alloc: Global, column: &Mat<Laurent>, row: usize) -> Result<Poly, AllocError>
    requires column { IsColumn column.now.height column.now }
    requires row { row < column.now.height }
    ensures { IfOk result (λ e. e ≡ entry laurent.zero column.now row 0) }
{
    match column.get(row, 0) {
        Some(e) => copied(alloc, e),
        None => match Laurent.zero(alloc) {
            Ok(zero) => Ok(zero),
            Err(_) => Err(AllocError),
        },
    }
}

/// Compares two columns, the sides of a relation on a basis vector.
fn compare_columns(
    alloc: Global,
    rel: &Rel,
    col: usize,
    left: &Mat<Laurent>,
    right: &Mat<Laurent>,
) -> Result<(), AuditFault>
    requires left { IsColumn left.now.height left.now }
    requires right { IsColumn left.now.height right.now }
    requires col { col < 1024 }
    ensures { MatchResult result (λ _. left.now ≡ right.now) (IsColumnDifference rel.now left.now right.now col) }
{
    let row = match first_different_row(left, right) {
        Some(row) => row,
        None => return Ok(()),
    };
    let x = entry_in(alloc, left, row)?;
    let y = entry_in(alloc, right, row)?;
    match x.first_difference(&y) {
        Some((et, eu, a, b)) => Err(AuditFault::Relation {
            rel: *rel,
            row: row + 1,
            col: col + 1,
            et,
            eu,
            left: a,
            right: b,
        }),
        None => unreachable!(),
    }
}

/// Compares both sides of a relation on a basis vector. One that no factor moves is not looked at.
fn compare_on(
    alloc: Global,
    steps: &Steps,
    rel: &Rel,
    left: &[Action],
    right: &[Action],
    col: usize,
) -> Result<(), AuditFault>
    requires left { AreActions steps.now.datum.now steps.now.module.now left.now }
    requires right { AreActions steps.now.datum.now steps.now.module.now right.now }
    requires col { col < dimension steps.now.module.now }
    ensures { MatchResult result
        (λ _. side_column laurent_variables steps.now.datum.now steps.now.module.now (map factor_of left.now) col
        ≡ side_column laurent_variables steps.now.datum.now steps.now.module.now (map factor_of right.now) col)
        (IsColumnDifference rel.now
        (side_column laurent_variables steps.now.datum.now steps.now.module.now (map factor_of left.now) col)
        (side_column laurent_variables steps.now.datum.now steps.now.module.now (map factor_of right.now) col) col) }
{
    if !side_moves(steps, left, col) && !side_moves(steps, right, col) {
        return Ok(());
    }
    let x = side_column(alloc, steps, left, col)?;
    let y = side_column(alloc, steps, right, col)?;
    compare_columns(alloc, rel, col, &x, &y)
}

/// Compares both sides of a relation, which are not large: their first difference by column, row,
/// exponent of t and exponent of u, with rows and columns counted from 1.
pub(crate) fn compare(
    alloc: Global,
    steps: &Steps,
    rel: &Rel,
    left: &[Factor<Poly>],
    right: &[Factor<Poly>],
) -> Result<(), AuditFault>
    requires left { IsNarrowSide steps.now.datum.now steps.now.module.now left.now }
    requires right { IsNarrowSide steps.now.datum.now steps.now.module.now right.now }
    ensures { MatchResult result
        (λ _. side_matrix laurent_variables steps.now.datum.now steps.now.module.now left.now
        ≡ side_matrix laurent_variables steps.now.datum.now steps.now.module.now right.now)
        (IsDifference rel.now
        (side_matrix laurent_variables steps.now.datum.now steps.now.module.now left.now)
        (side_matrix laurent_variables steps.now.datum.now steps.now.module.now right.now)) }
{
    let left = actions(alloc, steps, left)?;
    let right = actions(alloc, steps, right)?;
    for col in 0..steps.module.dim() {
        compare_on(alloc, steps, rel, &left, &right, col)?;
    }
    Ok(())
}
