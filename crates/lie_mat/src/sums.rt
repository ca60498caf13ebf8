//! The rules for the entries of sums and products.

ghost use Rattle.std.specs.Prelude.{◌≡◌, ℕ, ◌*◌, ◌<◌, IfOk};
ghost use Rattle.lie_ring.specs.Rings.{Fits, sum_below};
ghost use Rattle.lie_ring.specs.Matrices.{entry, AllFit, product_term, product_entry};
ghost use Rattle.lie_mat.specs.Wide.{IsWideProductAt, IsWideStep};

use crate::entries::Entries;
use crate::mats::Mat;
use lie_ring::{Ring, RingStop};
use std::alloc::Global;

/// The sum of two entries.
#[derive(Drop)]
pub(crate) struct Sum<'a, R: Ring> {
    pub ring: &'a R,
    pub first: &'a Mat<R>,
    pub second: &'a Mat<R>,
    ghost height: { first.now.height ≡ second.now.height },
    ghost width: { first.now.width ≡ second.now.width },
    ghost first_fit: { AllFit (R.ring ring.now) first.now },
    ghost second_fit: { AllFit (R.ring ring.now) second.now },
}

impl<'a, R: Ring> Entries for Sum<'a, R> {
    type Ring = R;

    ghost use Rattle.lie_ring.specs.Matrices.{sum_entry};
    ghost use Rattle.lie_mat.specs.Wide.{IsWideSumAt};

    ghost over = { λ s. s.ring.now };

    ghost height = { λ s. s.first.now.height };

    ghost width = { λ s. s.first.now.width };

    ghost value = { λ s. sum_entry (R.ring s.ring.now) s.first.now s.second.now };

    ghost is_wide = { λ s. IsWideSumAt (R.ring s.ring.now) s.first.now s.second.now };

    fn ring(&self) -> &R {
        self.ring
    }

    fn entry(&self, alloc: Global, row: usize, col: usize) -> Result<Option<R::Elem>, RingStop> {
        let sum = match (self.first.get(row, col), self.second.get(row, col)) {
            (None, None) => return Ok(None),
            (Some(x), None) => self.ring.copy(alloc, x),
            (None, Some(y)) => self.ring.copy(alloc, y),
            (Some(x), Some(y)) => self.ring.add(alloc, x, y),
        };
        match sum {
            Ok(sum) => Ok(Some(sum)),
            Err(stop) => Err(stop),
        }
    }
}

/// The product of the entries in the place of a block and in a place of the block.
#[derive(Drop)]
pub(crate) struct Kronecker<'a, R: Ring> {
    pub ring: &'a R,
    pub first: &'a Mat<R>,
    pub second: &'a Mat<R>,
    ghost first_fit: { AllFit (R.ring ring.now) first.now },
    ghost second_fit: { AllFit (R.ring ring.now) second.now },
}

impl<'a, R: Ring> Entries for Kronecker<'a, R> {
    type Ring = R;

    ghost use Rattle.lie_ring.specs.Matrices.{kronecker_entry};
    ghost use Rattle.lie_mat.specs.Wide.{IsWideKroneckerAt};

    ghost over = { λ s. s.ring.now };

    ghost height = { λ s. s.first.now.height * s.second.now.height };

    ghost width = { λ s. s.first.now.width * s.second.now.width };

    ghost value = { λ s. kronecker_entry (R.ring s.ring.now) s.first.now s.second.now };

    ghost is_wide = { λ s. IsWideKroneckerAt (R.ring s.ring.now) s.first.now s.second.now };

    fn ring(&self) -> &R {
        self.ring
    }

    fn entry(&self, alloc: Global, row: usize, col: usize) -> Result<Option<R::Elem>, RingStop> {
        let rows = self.second.rows();
        let cols = self.second.cols();
        let x = match self.first.get(row / rows, col / cols) {
            None => return Ok(None),
            Some(x) => x,
        };
        let y = match self.second.get(row % rows, col % cols) {
            None => return Ok(None),
            Some(y) => y,
        };
        match self.ring.mul(alloc, x, y) {
            Ok(product) => Ok(Some(product)),
            Err(stop) => Err(stop),
        }
    }
}

/// The sum of the products of the entries of a row and a column.
#[derive(Drop)]
pub(crate) struct Product<'a, R: Ring> {
    pub ring: &'a R,
    pub first: &'a Mat<R>,
    pub second: &'a Mat<R>,
    ghost shape: { first.now.width ≡ second.now.height },
    ghost first_fit: { AllFit (R.ring ring.now) first.now },
    ghost second_fit: { AllFit (R.ring ring.now) second.now },
}

impl<'a, R: Ring> Entries for Product<'a, R> {
    type Ring = R;

    ghost use Rattle.lie_ring.specs.Matrices.{product_entry};
    ghost use Rattle.lie_mat.specs.Wide.{IsWideProductAt};

    ghost over = { λ s. s.ring.now };

    ghost height = { λ s. s.first.now.height };

    ghost width = { λ s. s.second.now.width };

    ghost value = { λ s. product_entry (R.ring s.ring.now) s.first.now s.second.now };

    ghost is_wide = { λ s. IsWideProductAt (R.ring s.ring.now) s.first.now s.second.now };

    fn ring(&self) -> &R {
        self.ring
    }

    fn entry(&self, alloc: Global, row: usize, col: usize) -> Result<Option<R::Elem>, RingStop> {
        match sum_of_products(alloc, self.ring, self.first, self.second, row, col) {
            Ok(sum) => Ok(Some(sum)),
            Err(stop) => Err(stop),
        }
    }
}

/// The sum of the products of the entries of a row and a column.
pub(crate) fn sum_of_products<R: Ring>(
    alloc: Global,
    ring: &R,
    first: &Mat<R>,
    second: &Mat<R>,
    row: usize,
    col: usize,
) -> Result<R::Elem, RingStop>
    requires row { row < first.now.height }
    requires col { col < second.now.width }
    requires shape { first.now.width ≡ second.now.height }
    requires first_fit { AllFit (R.ring ring.now) first.now }
    requires second_fit { AllFit (R.ring ring.now) second.now }
    ensures value { IfOk result (λ r.
        r ≡ product_entry (R.ring ring.now) first.now second.now row col) }
    ensures fits { IfOk result (Fits (R.ring ring.now)) }
    ensures wide { result ≡ Err RingStop.Wide →
        IsWideProductAt (R.ring ring.now) first.now second.now row col }
{
    let mut sum = ring.zero(alloc)?;
    let mut from = 0;
    while let Some((mid, y)) = second.next_kept(from, col) {
        sum = add_product(alloc, ring, first, row, mid, y, sum)?;
        from = mid + 1;
    }
    Ok(sum)
}

/// A sum, and the product of an entry with an element added.
fn add_product<R: Ring>(
    alloc: Global,
    ring: &R,
    first: &Mat<R>,
    row: usize,
    mid: usize,
    y: &R::Elem,
    sum: R::Elem,
) -> Result<R::Elem, RingStop>
    requires row { row < first.now.height }
    requires mid { mid < first.now.width }
    requires first_fit { AllFit (R.ring ring.now) first.now }
    requires y { Fits (R.ring ring.now) y.now }
    requires sum { Fits (R.ring ring.now) sum }
    ensures value { let S = R.ring ring.now in
        IfOk result (λ r. r ≡ S.add sum (S.mul (entry S.zero first.now row mid) y.now)) }
    ensures fits { IfOk result (Fits (R.ring ring.now)) }
    ensures wide { let S = R.ring ring.now in
        result ≡ Err RingStop.Wide → IsWideStep S sum (entry S.zero first.now row mid) y.now }
{
    match first.get(row, mid) {
        None => Ok(sum),
        Some(x) => {
            let product = ring.mul(alloc, x, y)?;
            ring.add(alloc, &sum, &product)
        }
    }
}
