//! Rules for the entries of integer matrices.

ghost use Rattle.std.specs.Prelude.{◌≡◌, ◌≤◌, ℕ, ◌<◌, ◌^◌, pos, ◌*ℤ◌, IfOk, nat_abs, unsigned_abs};
ghost use Rattle.lie_ring.specs.Integers.{integers};
ghost use Rattle.lie_ring.specs.Matrices.{AllFit, table, scaled};
ghost use Rattle.lie_weight.specs.Conjugation.{absolute};

use lie_mat::{Entries, Mat, build};
use lie_ring::{Ints, RingStop};
use std::alloc::{AllocError, Global};

/// The absolute values of the entries.
#[derive(Drop)]
struct Sizes<'a> {
    ints: &'a Ints,
    matrix: &'a Mat<Ints>,
    ghost fit: { AllFit integers matrix.now },
}

impl<'a> Entries for Sizes<'a> {
    type Ring = Ints;

    ghost use Rattle.std.specs.Prelude.{pos, nat_abs};
    ghost use Rattle.lie_ring.specs.Matrices.{entry};

    ghost over = { λ s. s.ints.now };

    ghost height = { λ s. s.matrix.now.height };

    ghost width = { λ s. s.matrix.now.width };

    ghost value = { λ s i j. pos (nat_abs (entry (pos 0) s.matrix.now i j)) };

    ghost is_wide = { λ _ _ _. ⊥ };

    fn ring(&self) -> &Ints {
        self.ints
    }

    fn entry(&self, _alloc: Global, row: usize, col: usize) -> Result<Option<i128>, RingStop> {
        match self.matrix.get(row, col) {
            None => Ok(None),
            Some(e) => Ok(Some(absolute_value(*e))),
        }
    }
}

/// The absolute value of an entry.
pub(crate) fn absolute_value(e: i128) -> i128
    requires { nat_abs e < 2 ^ 126 }
    ensures { result ≡ pos (nat_abs e) }
{
    if e < 0 { -e } else { e }
}

/// The matrix c M, where c is 1 or -1.
#[derive(Drop)]
struct Multiple<'a> {
    ints: &'a Ints,
    sign: i128,
    matrix: &'a Mat<Ints>,
    ghost unit: { unsigned_abs sign ≤ 1 },
    ghost fit: { AllFit integers matrix.now },
}

impl<'a> Entries for Multiple<'a> {
    type Ring = Ints;

    ghost use Rattle.std.specs.Prelude.{pos, ◌*ℤ◌};
    ghost use Rattle.lie_ring.specs.Matrices.{entry};

    ghost over = { λ s. s.ints.now };

    ghost height = { λ s. s.matrix.now.height };

    ghost width = { λ s. s.matrix.now.width };

    ghost value = { λ s i j. s.sign *ℤ entry (pos 0) s.matrix.now i j };

    ghost is_wide = { λ _ _ _. ⊥ };

    fn ring(&self) -> &Ints {
        self.ints
    }

    fn entry(&self, _alloc: Global, row: usize, col: usize) -> Result<Option<i128>, RingStop> {
        match self.matrix.get(row, col) {
            None => Ok(None),
            Some(e) => Ok(Some(signed(self.sign, *e))),
        }
    }
}

/// An entry times 1 or -1.
pub(crate) fn signed(sign: i128, e: i128) -> i128
    requires unit { unsigned_abs sign ≤ 1 }
    requires fit { nat_abs e < 2 ^ 126 }
    ensures value { result ≡ sign *ℤ e }
    ensures bound { unsigned_abs result ≤ nat_abs e }
{
    sign * e
}

/// The matrix of a rule that is never too wide.
pub(crate) fn built<E: Entries<Ring = Ints>>(
    alloc: Global,
    rule: &E,
    rows: usize,
    cols: usize,
) -> Result<Mat<Ints>, AllocError>
    requires height { E.height rule.now ≡ rows }
    requires width { E.width rule.now ≡ cols }
    requires rows { rows ≤ 1024 }
    requires cols { cols ≤ 1024 }
    requires narrow { (i j : ℕ) → ¬ E.is_wide rule.now i j }
    ensures value { IfOk result (λ m. m ≡ table rows cols (E.value rule.now)) }
    ensures fit { IfOk result (AllFit integers) }
{
    match build(alloc, rule, rows, cols) {
        Ok(matrix) => Ok(matrix),
        Err(RingStop::NoMemory) => Err(AllocError),
        Err(RingStop::Wide) => unreachable!(),
    }
}

/// The matrix of the absolute values of the entries.
pub(crate) fn absolute(alloc: Global, matrix: &Mat<Ints>) -> Result<Mat<Ints>, AllocError>
    requires { AllFit integers matrix.now }
    ensures value { IfOk result (λ m. m ≡ absolute matrix.now) }
    ensures fit { IfOk result (AllFit integers) }
{
    let rule = Sizes {
        ints: &Ints,
        matrix,
    };
    built(alloc, &rule, matrix.rows(), matrix.cols())
}

/// The matrix c M, where c is 1 or -1.
pub(crate) fn scaled(alloc: Global, sign: i128, matrix: &Mat<Ints>) -> Result<Mat<Ints>, AllocError>
    requires unit { unsigned_abs sign ≤ 1 }
    requires fit { AllFit integers matrix.now }
    ensures value { IfOk result (λ m. m ≡ scaled integers sign matrix.now) }
    ensures fit { IfOk result (AllFit integers) }
{
    let rule = Multiple {
        ints: &Ints,
        sign,
        matrix,
    };
    built(alloc, &rule, matrix.rows(), matrix.cols())
}
