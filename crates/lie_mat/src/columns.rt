//! A list as a matrix of one column, and a matrix applied to it.

ghost use Rattle.std.specs.Prelude.{◌≡◌, ℕ, ◌<◌, ◌≤◌, IfOk, length};
ghost use Rattle.lie_ring.specs.Matrices.{AllFit, EachFits, applied, column};
ghost use Rattle.lie_mat.specs.Wide.{IsWideApplied};

use crate::entries::{Entries, build};
use crate::mats::Mat;
use crate::sums::sum_of_products;
use lie_ring::{Ring, RingStop};
use std::alloc::Global;

/// The entries of one column.
#[derive(Drop)]
struct Column<'a, R: Ring> {
    ring: &'a R,
    values: &'a [R::Elem],
    ghost fit: { EachFits (R.ring ring.now) values.now },
}

impl<'a, R: Ring> Entries for Column<'a, R> {
    type Ring = R;

    ghost use Rattle.std.specs.Prelude.{length, slice_index_or};

    ghost over = { λ s. s.ring.now };

    ghost height = { λ s. length s.values.now };

    ghost width = { λ _. 1 };

    ghost value = { λ s i _. slice_index_or s.values.now i (R.ring s.ring.now).zero };

    ghost is_wide = { λ _ _ _. ⊥ };

    fn ring(&self) -> &R {
        self.ring
    }

    fn entry(&self, alloc: Global, row: usize, _col: usize) -> Result<Option<R::Elem>, RingStop> {
        match self.ring.copy(alloc, &self.values[row]) {
            Ok(copy) => Ok(Some(copy)),
            Err(stop) => Err(stop),
        }
    }
}

impl<R: Ring> Mat<R> {
    /// The product with a column, which is given and answered as the list of its entries.
    pub fn apply(&self, alloc: Global, ring: &R, v: &[R::Elem]) -> Result<Vec<R::Elem>, RingStop>
        requires shape { length v.now ≡ self.now.width }
        requires fit { AllFit (R.ring ring.now) self.now }
        requires v_fit { EachFits (R.ring ring.now) v.now }
        ensures value { IfOk result (λ w. w.items ≡ applied (R.ring ring.now) self.now v.now) }
        ensures fits { IfOk result (λ w. EachFits (R.ring ring.now) w.items) }
        ensures wide { result ≡ Err RingStop.Wide → IsWideApplied (R.ring ring.now) self.now v.now }
    {
        let few = self.cols();
        let column = match build(alloc, &Column { ring, values: v }, few, 1) {
            Ok(column) => column,
            Err(stop) => return Err(stop),
        };
        let mut image = Vec::new(alloc);
        for row in 0..self.rows() {
            let sum = match sum_of_products(alloc, ring, self, &column, row, 0) {
                Ok(sum) => sum,
                Err(stop) => return Err(stop),
            };
            match image.push(sum) {
                Ok(()) => {}
                Err(_) => return Err(RingStop::NoMemory),
            }
        }
        Ok(image)
    }
}
