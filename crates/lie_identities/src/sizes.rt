//! The product of the sizes of the factors of a side.

ghost use Rattle.std.specs.Prelude.{◌≡◌, ◌≤◌, ◌<◌, ◌+◌, ◌*◌, ◌^◌, pos, nat_abs, unsigned_abs, IfOk, OnOk, MatchOption};
ghost use Rattle.std.specs.List.{All};
ghost use Rattle.lie_ring.specs.Integers.{integers};
ghost use Rattle.lie_ring.specs.Matrices.{AllFit, entry, product};
ghost use Rattle.lie_mat.specs.Wide.{IsHugeMatrix};
ghost use Rattle.lie_datum.specs.RootList.{IsNumber};
ghost use Rattle.lie_const.specs.Modules.{dimension, top};
ghost use Rattle.lie_poly.specs.Polynomials.{laurent};
ghost use Rattle.lie_identities.specs.AuditRelations.{factor_size, side_size, size_element};
ghost use Rattle.lie_identities.specs.Sides.{factor_weight, HasRoot};
ghost use Rattle.lie_identities.specs.Sizes.{partial_size, IsSizes};

use crate::factors::Factor;
use crate::sides::Side;
use crate::steps::Steps;
use lie_datum::RootId;
use lie_mat::{Entries, Mat, build};
use lie_poly::Poly;
use lie_ring::{Ints, RingStop};
use std::alloc::Global;

/// 2^126.
const LIMIT: u128 = 1 << 126;

/// A sum with size^k |e| added, unless that reaches 2^126, as it may where a power does and e is 0.
pub(crate) fn with_term(sum: u128, size: u128, k: u32, e: i128) -> Option<u128>
    ensures { MatchOption result (1 ≤ nat_abs e → 2 ^ 126 ≤ sum + size ^ k * nat_abs e)
        (λ n. (n ≡ sum + size ^ k * nat_abs e) × (n < 2 ^ 126)) }
{
    let power = size.checked_pow(k)?;
    let term = power.checked_mul(e.unsigned_abs())?;
    let total = sum.checked_add(term)?;
    if total < LIMIT { Some(total) } else { None }
}

/// A sum with size^k |e| added, for an entry e of a matrix, unless that reaches 2^126.
fn with_entry(
    sum: u128,
    size: u128,
    k: u32,
    matrix: &Mat<Ints>,
    row: usize,
    col: usize,
) -> Option<u128>
    requires sum { sum < 2 ^ 126 }
    requires row { row < matrix.now.height }
    requires col { col < matrix.now.width }
    ensures { MatchOption result (2 ^ 126 ≤ sum + size ^ k * nat_abs (entry (pos 0) matrix.now row col))
        (λ n. (n ≡ sum + size ^ k * nat_abs (entry (pos 0) matrix.now row col)) × (n < 2 ^ 126)) }
{
    match matrix.get(row, col) {
        None => Some(sum),
        Some(e) => with_term(sum, size, k, *e),
    }
}

/// The size of X_r(f), for f of a size.
#[derive(Drop)]
struct RootSize<'a> {
    ints: &'a Ints,
    steps: &'a Steps<'a>,
    root: RootId,
    size: u128,
    ghost number: { IsNumber steps.now.datum.now root },
}

/// The entry of the size of X_r(f) in a row and a column, unless that reaches 2^126.
fn size_entry(steps: &Steps, r: RootId, size: u128, row: usize, col: usize) -> Option<u128>
    requires r { IsNumber steps.now.datum.now r }
    requires row { row < dimension steps.now.module.now }
    requires col { col < dimension steps.now.module.now }
    ensures { let v = steps.now.module.now in
        MatchOption result (2 ^ 126 ≤ partial_size v r size row col (top v r))
        (λ n. (n ≡ partial_size v r size row col (top v r)) × (n < 2 ^ 126)) }
{
    let mut sum = u128::from(row == col);
    for k in 0..steps.top(r) {
        sum = with_entry(sum, size, k + 1, steps.module.power(r, k + 1), row, col)?;
    }
    Some(sum)
}

impl<'a> Entries for RootSize<'a> {
    type Ring = Ints;

    ghost use Rattle.std.specs.Prelude.{◌≤◌, ◌^◌};
    ghost use Rattle.lie_const.specs.Modules.{dimension, top};
    ghost use Rattle.lie_identities.specs.AuditRelations.{size_entry};
    ghost use Rattle.lie_identities.specs.Sizes.{partial_size};

    ghost over = { λ s. s.ints.now };

    ghost height = { λ s. dimension s.steps.now.module.now };

    ghost width = { λ s. dimension s.steps.now.module.now };

    ghost value = { λ s. size_entry s.steps.now.module.now s.root s.size };

    ghost is_wide = { λ s a b. 2 ^ 126 ≤ partial_size s.steps.now.module.now s.root s.size a b (top s.steps.now.module.now s.root) };

    fn ring(&self) -> &Ints {
        self.ints
    }

    fn entry(&self, _alloc: Global, row: usize, col: usize) -> Result<Option<i128>, RingStop> {
        match size_entry(self.steps, self.root, self.size, row, col) {
            Some(n) => Ok(Some(n as i128)),
            None => Err(RingStop::Wide),
        }
    }
}

/// The size of X_r(f), for f of this size.
fn root_size(alloc: Global, steps: &Steps, r: RootId, size: u128) -> Result<Mat<Ints>, RingStop>
    requires { IsNumber steps.now.datum.now r }
    ensures value { IfOk result (λ m. m ≡ size_element steps.now.module.now r size) }
    ensures fit { IfOk result (AllFit integers) }
    ensures wide { result ≡ Err RingStop.Wide → IsHugeMatrix (size_element steps.now.module.now r size) }
{
    let rule = RootSize {
        ints: &Ints,
        steps,
        root: r,
        size,
    };
    build(alloc, &rule, steps.module.dim(), steps.module.dim())
}

/// The size of a factor times a product of sizes.
fn times_factor(
    alloc: Global,
    steps: &Steps,
    factor: &Factor<Poly>,
    weight: u128,
    last: Mat<Ints>,
) -> Result<Mat<Ints>, RingStop>
    requires factor { HasRoot steps.now.datum.now factor.now }
    requires weight { weight ≡ factor_weight factor.now }
    requires sizes { IsSizes (dimension steps.now.module.now) last }
    requires fit { AllFit integers last }
    ensures value { IfOk result (λ m. m ≡ product integers (factor_size laurent steps.now.module.now factor.now) last) }
    ensures fit { IfOk result (AllFit integers) }
    ensures wide { result ≡ Err RingStop.Wide →
        IsHugeMatrix (product integers (factor_size laurent steps.now.module.now factor.now) last) }
{
    let _ = last.rows();
    match factor {
        Factor::RootElement(r, _) => {
            let size = root_size(alloc, steps, *r, weight)?;
            size.mul(alloc, &Ints, &last)
        }
        Factor::CorootElement(_) => Ok(last),
    }
}

/// Multiplies the sizes of the factors of a side; `Wide` where an entry of the product reaches 2^126.
pub(crate) fn test_product(alloc: Global, steps: &Steps, side: &Side) -> Result<(), RingStop>
    requires { All (HasRoot steps.now.datum.now) side.now.factors.items }
    ensures small { OnOk result (¬ IsHugeMatrix (side_size laurent steps.now.module.now side.now.factors.items)) }
    ensures wide { result ≡ Err RingStop.Wide →
        IsHugeMatrix (side_size laurent steps.now.module.now side.now.factors.items) }
{
    let mut product = Mat::identity(alloc, &Ints, steps.module.dim())?;
    let mut left = side.factors.len();
    while left > 0 {
        left -= 1;
        product = times_factor(alloc, steps, &side.factors[left], side.sizes[left], product)?;
    }
    Ok(())
}
