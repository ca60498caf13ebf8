//! A side of a relation on one basis vector: a column that its factors act on, the last first.

ghost use Rattle.std.specs.Prelude.{◌≡◌, ◌+◌, ◌^◌, ◌≤◌, ◌<◌, map, IfOk, false};
ghost use Rattle.lie_ring.specs.Rings.{Fits};
ghost use Rattle.lie_ring.specs.Matrices.{entry, product};
ghost use Rattle.lie_datum.specs.RootDatum.{IsSimpleIndex};
ghost use Rattle.lie_datum.specs.RootList.{IsNumber};
ghost use Rattle.lie_const.specs.Modules.{dimension, top, root_element};
ghost use Rattle.lie_poly.specs.Polynomials.{laurent, degree};
ghost use Rattle.lie_identities.specs.AuditRelations.{Factor, CorootElement, coroot_power, factor_matrix};
ghost use Rattle.lie_identities.specs.Audit.{laurent_variables};
ghost use Rattle.lie_identities.specs.Columns.{unit_column, side_column, IsColumn, IsFactorOf};
ghost use Rattle.lie_identities.specs.Moves.{base_of, HasPowers, IsReadyForRoot, IsReadyForCoroot, IsReadyFor, IsRowMultiplied};
ghost use Rattle.lie_identities.specs.Actions.{factor_of, HasPowersFor, AreActions};

use crate::actions::Action;
use crate::additions::{add_all, additions};
use crate::factors::Factor;
use crate::narrow::{narrow_monomial, narrow_product};
use crate::steps::Steps;
use lie_datum::{RootId, pairing};
use lie_mat::Mat;
use lie_poly::{Laurent, Poly};
use lie_ring::Ring;
use std::alloc::{AllocError, Global};

/// The column of a basis vector.
fn unit_column(alloc: Global, dim: usize, col: usize) -> Result<Mat<Laurent>, AllocError>
    requires dim { dim ≤ 1024 }
    requires col { col < dim }
    ensures { IfOk result (λ m. m ≡ unit_column laurent dim col) }
{
    let mut column = Mat::zero(alloc, dim, 1)?;
    let one = narrow_monomial(alloc, 1, 0, 0)?;
    column.set(&Laurent, col, 0, one)?;
    Ok(column)
}

/// X_r(f) times a column. The powers are f, f^2, ..
fn apply_root(
    alloc: Global,
    steps: &Steps,
    r: RootId,
    powers: &[Poly],
    column: &mut Mat<Laurent>,
) -> Result<(), AllocError>
    requires r { IsNumber steps.now.datum.now r }
    requires powers { HasPowers (top steps.now.module.now r) powers.now }
    requires ready { IsReadyForRoot steps.now.module.now r (base_of powers.now) column.old }
    ensures { IfOk result (λ _. column.new ≡ product laurent (root_element laurent steps.now.module.now r (base_of powers.now)) column.old) }
{
    let additions = additions(alloc, steps, r, powers, column)?;
    add_all(alloc, column, &additions)?;
    Ok(())
}

/// t^<x, a_i^>, for the weight x of a basis vector.
fn coroot_power(alloc: Global, steps: &Steps, i: usize, row: usize) -> Result<Poly, AllocError>
    requires i { IsSimpleIndex steps.now.datum.now.base i }
    requires row { row < dimension steps.now.module.now }
    ensures value { IfOk result (λ p. p ≡ coroot_power laurent_variables steps.now.datum.now steps.now.module.now i row) }
    ensures fits { IfOk result (Fits laurent) }
{
    steps.datum.loaded();
    let coroot = steps.datum.coroot(steps.datum.simple(i));
    let exponent = pairing(steps.module.weight(row), coroot);
    narrow_monomial(alloc, 1, exponent as i32, 0)
}

/// Multiplies a row of a column by its power of t.
fn multiply_row(
    alloc: Global,
    steps: &Steps,
    i: usize,
    row: usize,
    column: &mut Mat<Laurent>,
) -> Result<(), AllocError>
    requires i { IsSimpleIndex steps.now.datum.now.base i }
    requires row { row < dimension steps.now.module.now }
    requires column { IsColumn (dimension steps.now.module.now) column.old }
    requires shallow { degree (coroot_power laurent_variables steps.now.datum.now steps.now.module.now i row) + degree (entry laurent.zero column.old row 0) < 2 ^ 30 }
    ensures { IfOk result (λ _. IsRowMultiplied steps.now.datum.now steps.now.module.now i row column.old column.new) }
{
    let Some(entry) = column.get(row, 0) else {
        return Ok(());
    };
    let power = coroot_power(alloc, steps, i, row)?;
    let product = narrow_product(alloc, &power, entry)?;
    column.set(&Laurent, row, 0, product)?;
    Ok(())
}

/// a_i^(t) times a column.
fn apply_coroot(
    alloc: Global,
    steps: &Steps,
    i: usize,
    column: &mut Mat<Laurent>,
) -> Result<(), AllocError>
    requires i { IsSimpleIndex steps.now.datum.now.base i }
    requires ready { IsReadyForCoroot steps.now.datum.now steps.now.module.now i column.old }
    ensures { IfOk result (λ _. column.new ≡ product laurent (factor_matrix laurent_variables steps.now.datum.now steps.now.module.now (CorootElement i)) column.old) }
{
    for row in 0..steps.module.dim() {
        multiply_row(alloc, steps, i, row, column)?;
    }
    Ok(())
}

/// A factor times a column.
fn apply(
    alloc: Global,
    steps: &Steps,
    action: &Action,
    column: &mut Mat<Laurent>,
) -> Result<(), AllocError>
    requires factor { IsFactorOf steps.now.datum.now (factor_of action.now) }
    requires powers { HasPowersFor steps.now.module.now action.now }
    requires ready { IsReadyFor steps.now.datum.now steps.now.module.now (factor_of action.now) column.old }
    ensures { IfOk result (λ _. column.new ≡ product laurent (factor_matrix laurent_variables steps.now.datum.now steps.now.module.now (factor_of action.now)) column.old) }
{
    match action {
        Factor::RootElement(r, powers) => apply_root(alloc, steps, *r, powers, column),
        Factor::CorootElement(i) => apply_coroot(alloc, steps, *i, column),
    }
}

/// A side on a basis vector.
pub(crate) fn side_column(
    alloc: Global,
    steps: &Steps,
    actions: &[Action],
    col: usize,
) -> Result<Mat<Laurent>, AllocError>
    requires actions { AreActions steps.now.datum.now steps.now.module.now actions.now }
    requires col { col < dimension steps.now.module.now }
    ensures { IfOk result (λ m. m ≡ side_column laurent_variables steps.now.datum.now steps.now.module.now (map factor_of actions.now) col) }
{
    let mut column = unit_column(alloc, steps.module.dim(), col)?;
    let mut left = actions.len();
    while left > 0 {
        left -= 1;
        apply(alloc, steps, &actions[left], &mut column)?;
    }
    Ok(column)
}

/// Whether a factor moves a basis vector.
fn moves(steps: &Steps, action: &Action, col: usize) -> bool
    requires factor { IsFactorOf steps.now.datum.now (factor_of action.now) }
    requires col { col < dimension steps.now.module.now }
    ensures { result ≡ false → product laurent (factor_matrix laurent_variables steps.now.datum.now steps.now.module.now (factor_of action.now)) (unit_column laurent (dimension steps.now.module.now) col) ≡ unit_column laurent (dimension steps.now.module.now) col }
{
    match action {
        Factor::RootElement(r, _) => !steps.column(*r, col).is_empty(),
        Factor::CorootElement(_) => true,
    }
}

/// Whether one of the factors moves a basis vector.
pub(crate) fn side_moves(steps: &Steps, actions: &[Action], col: usize) -> bool
    requires actions { AreActions steps.now.datum.now steps.now.module.now actions.now }
    requires col { col < dimension steps.now.module.now }
    ensures { result ≡ false → side_column laurent_variables steps.now.datum.now steps.now.module.now (map factor_of actions.now) col ≡ unit_column laurent (dimension steps.now.module.now) col }
{
    for action in actions {
        if moves(steps, action, col) {
            return true;
        }
    }
    false
}
