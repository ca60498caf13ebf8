//! A bound on the product of the sizes of the factors of a side: the product of the greatest sums of their columns.

ghost use Rattle.std.specs.Prelude.{◌≡◌, ◌≤◌, ◌<◌, ◌+◌, ◌*◌, ◌^◌, nat_abs, IsTrue, IfSome};
ghost use Rattle.std.specs.List.{All};
ghost use Rattle.lie_mat.specs.Wide.{IsHugeMatrix};
ghost use Rattle.lie_datum.specs.RootList.{IsNumber};
ghost use Rattle.lie_const.specs.Modules.{dimension};
ghost use Rattle.lie_poly.specs.Polynomials.{laurent};
ghost use Rattle.lie_identities.specs.AuditRelations.{factor_size, side_size, size_element};
ghost use Rattle.lie_identities.specs.Sides.{factor_weight, HasRoot};
ghost use Rattle.lie_identities.specs.Sizes.{steps_total, HasColumnsWithin};

use crate::factors::Factor;
use crate::sides::Side;
use crate::sizes::with_term;
use crate::steps::{Step, Steps};
use lie_datum::RootId;
use lie_poly::Poly;

/// 2^126.
const LIMIT: u128 = 1 << 126;

/// A sum with what a step adds to it, unless that reaches 2^126.
fn with_step(sum: u128, size: u128, step: Step) -> Option<u128>
    ensures { IfSome result (λ n. n ≡ sum + size ^ step.power * nat_abs step.value) }
{
    with_term(sum, size, step.power, step.value)
}

/// The larger of two numbers.
fn larger(a: u128, b: u128) -> u128
    ensures a { a ≤ result }
    ensures b { b ≤ result }
{
    if a < b { b } else { a }
}

/// The sum of a column of the size of X_r(f), for f of this size, unless it reaches 2^126.
fn column_sum(column: &[Step], size: u128) -> Option<u128>
    ensures { IfSome result (λ n. n ≡ 1 + steps_total size column.now) }
{
    let mut sum = 1;
    for step in column {
        sum = with_step(sum, size, *step)?;
    }
    Some(sum)
}

/// The greatest sum of a column of the size of X_r(f), for f of this size, unless one reaches 2^126.
fn root_bound(steps: &Steps, r: RootId, size: u128) -> Option<u128>
    requires { IsNumber steps.now.datum.now r }
    ensures { IfSome result (HasColumnsWithin (size_element steps.now.module.now r size)) }
{
    let mut greatest = 1;
    for col in 0..steps.module.dim() {
        let sum = column_sum(steps.column(r, col), size)?;
        greatest = larger(sum, greatest);
    }
    Some(greatest)
}

/// A bound on the sums of the columns of the size of a factor.
fn factor_bound(steps: &Steps, factor: &Factor<Poly>, weight: u128) -> Option<u128>
    requires factor { HasRoot steps.now.datum.now factor.now }
    requires weight { weight ≡ factor_weight factor.now }
    ensures { IfSome result (HasColumnsWithin (factor_size laurent steps.now.module.now factor.now)) }
{
    match factor {
        Factor::RootElement(r, _) => root_bound(steps, *r, weight),
        Factor::CorootElement(_) => Some(1),
    }
}

/// A bound on the sums of the columns of the product of the sizes of the factors.
fn side_bound(steps: &Steps, side: &Side) -> Option<u128>
    requires { All (HasRoot steps.now.datum.now) side.now.factors.items }
    ensures { IfSome result (HasColumnsWithin (side_size laurent steps.now.module.now side.now.factors.items)) }
{
    let mut bound: u128 = 1;
    let mut left = side.factors.len();
    while left > 0 {
        left -= 1;
        bound = factor_bound(steps, &side.factors[left], side.sizes[left])?.checked_mul(bound)?;
    }
    Some(bound)
}

/// Whether the bound shows that no entry of the product of the sizes reaches 2^126.
pub(crate) fn is_small(steps: &Steps, side: &Side) -> bool
    requires { All (HasRoot steps.now.datum.now) side.now.factors.items }
    ensures { IsTrue result → ¬ IsHugeMatrix (side_size laurent steps.now.module.now side.now.factors.items) }
{
    match side_bound(steps, side) {
        Some(bound) => bound < LIMIT,
        None => false,
    }
}
