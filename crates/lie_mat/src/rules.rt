//! The rules for the entries of a matrix that is made of others with no sum or product.

ghost use Rattle.std.specs.Prelude.{◌≡◌, ℕ, ◌+◌, ◌<◌, ◌≤◌, eqb, cond};
ghost use Rattle.lie_ring.specs.Matrices.{AllFit};

use crate::entries::{Entries, copy_entry};
use crate::mats::Mat;
use lie_ring::{Hom, Ring, RingStop};
use std::alloc::Global;

/// Ones on the diagonal.
#[derive(Drop)]
pub(crate) struct Identity<'a, R: Ring> {
    pub ring: &'a R,
    pub size: usize,
}

impl<'a, R: Ring> Entries for Identity<'a, R> {
    type Ring = R;

    ghost over = { λ s. s.ring.now };

    ghost height = { λ s. s.size };

    ghost width = { λ s. s.size };

    ghost value = { λ s i j. cond (eqb i j) (R.ring s.ring.now).one (R.ring s.ring.now).zero };

    ghost is_wide = { λ _ _ _. ⊥ };

    fn ring(&self) -> &R {
        self.ring
    }

    fn entry(&self, alloc: Global, row: usize, col: usize) -> Result<Option<R::Elem>, RingStop> {
        if row != col {
            return Ok(None);
        }
        match self.ring.one(alloc) {
            Ok(one) => Ok(Some(one)),
            Err(stop) => Err(stop),
        }
    }
}

/// Rows for columns.
#[derive(Drop)]
pub(crate) struct Transposed<'a, R: Ring> {
    pub ring: &'a R,
    pub matrix: &'a Mat<R>,
    ghost fit: { AllFit (R.ring ring.now) matrix.now },
}

impl<'a, R: Ring> Entries for Transposed<'a, R> {
    type Ring = R;

    ghost use Rattle.lie_ring.specs.Matrices.{entry};

    ghost over = { λ s. s.ring.now };

    ghost height = { λ s. s.matrix.now.width };

    ghost width = { λ s. s.matrix.now.height };

    ghost value = { λ s i j. entry R.zero s.matrix.now j i };

    ghost is_wide = { λ _ _ _. ⊥ };

    fn ring(&self) -> &R {
        self.ring
    }

    fn entry(&self, alloc: Global, row: usize, col: usize) -> Result<Option<R::Elem>, RingStop> {
        copy_entry(self.matrix, alloc, self.ring, col, row)
    }
}

/// Two blocks on the diagonal.
#[derive(Drop)]
pub(crate) struct DirectSum<'a, R: Ring> {
    pub ring: &'a R,
    pub first: &'a Mat<R>,
    pub second: &'a Mat<R>,
    ghost first_fit: { AllFit (R.ring ring.now) first.now },
    ghost second_fit: { AllFit (R.ring ring.now) second.now },
}

impl<'a, R: Ring> Entries for DirectSum<'a, R> {
    type Ring = R;

    ghost use Rattle.lie_ring.specs.Matrices.{direct_sum_entry};

    ghost over = { λ s. s.ring.now };

    ghost height = { λ s. s.first.now.height + s.second.now.height };

    ghost width = { λ s. s.first.now.width + s.second.now.width };

    ghost value = { λ s. direct_sum_entry R.zero s.first.now s.second.now };

    ghost is_wide = { λ _ _ _. ⊥ };

    fn ring(&self) -> &R {
        self.ring
    }

    fn entry(&self, alloc: Global, row: usize, col: usize) -> Result<Option<R::Elem>, RingStop> {
        let rows = self.first.rows();
        let cols = self.first.cols();
        if row < rows {
            if col < cols {
                copy_entry(self.first, alloc, self.ring, row, col)
            } else {
                Ok(None)
            }
        } else if col < cols {
            Ok(None)
        } else {
            copy_entry(self.second, alloc, self.ring, row - rows, col - cols)
        }
    }
}

/// The image of each entry.
#[derive(Drop)]
pub(crate) struct Image<'a, H: Hom> {
    pub hom: &'a H,
    pub matrix: &'a Mat<H::Src>,
    ghost fit: { AllFit (H.Src.ring (H.source hom.now)) matrix.now },
}

impl<'a, H: Hom> Entries for Image<'a, H> {
    type Ring = H::Dst;

    ghost use Rattle.lie_ring.specs.Matrices.{entry};

    ghost over = { λ s. H.target s.hom.now };

    ghost height = { λ s. s.matrix.now.height };

    ghost width = { λ s. s.matrix.now.width };

    ghost value = { λ s i j. H.map s.hom.now (entry H.Src.zero s.matrix.now i j) };

    ghost is_wide = { λ _ _ _. ⊥ };

    fn ring(&self) -> &H::Dst {
        self.hom.dst()
    }

    fn entry(
        &self,
        alloc: Global,
        row: usize,
        col: usize,
    ) -> Result<Option<<H::Dst as Ring>::Elem>, RingStop> {
        match self.matrix.get(row, col) {
            None => Ok(None),
            Some(e) => match self.hom.image(alloc, e) {
                Ok(image) => Ok(Some(image)),
                Err(_) => Err(RingStop::NoMemory),
            },
        }
    }
}
