//! Whether two matrices are equal.

ghost use Rattle.std.specs.Prelude.{◌≡◌, ℕ, ◌<◌, ◌↔◌, IsTrue};
ghost use Rattle.lie_ring.specs.Matrices.{AllFit, entry};

use crate::mats::Mat;
use lie_ring::Ring;

impl<R: Ring> Mat<R> {
    /// Whether two matrices of the same shape are equal.
    pub fn same(&self, ring: &R, b: &Mat<R>) -> bool
        requires rows { self.now.height ≡ b.now.height }
        requires cols { self.now.width ≡ b.now.width }
        requires fit { AllFit (R.ring ring.now) self.now }
        requires b_fit { AllFit (R.ring ring.now) b.now }
        ensures { IsTrue result ↔ (self.now ≡ b.now) }
    {
        let _ = b.rows();
        for row in 0..self.rows() {
            if !same_row(ring, self, b, row) {
                return false;
            }
        }
        true
    }
}

/// Whether two rows are equal.
fn same_row<R: Ring>(ring: &R, a: &Mat<R>, b: &Mat<R>, row: usize) -> bool
    requires row { row < a.now.height }
    requires rows { a.now.height ≡ b.now.height }
    requires cols { a.now.width ≡ b.now.width }
    requires fit { AllFit (R.ring ring.now) a.now }
    requires b_fit { AllFit (R.ring ring.now) b.now }
    ensures { IsTrue result ↔ ((j : ℕ) → j < a.now.width →
        entry R.zero a.now row j ≡ entry R.zero b.now row j) }
{
    for col in 0..a.cols() {
        if !same_entry(ring, a, b, row, col) {
            return false;
        }
    }
    true
}

/// Whether two entries are equal.
fn same_entry<R: Ring>(ring: &R, a: &Mat<R>, b: &Mat<R>, row: usize, col: usize) -> bool
    requires row { row < a.now.height }
    requires col { col < a.now.width }
    requires rows { a.now.height ≡ b.now.height }
    requires cols { a.now.width ≡ b.now.width }
    requires fit { AllFit (R.ring ring.now) a.now }
    requires b_fit { AllFit (R.ring ring.now) b.now }
    ensures { IsTrue result ↔ (entry R.zero a.now row col ≡ entry R.zero b.now row col) }
{
    match (a.get(row, col), b.get(row, col)) {
        (None, None) => true,
        (Some(x), Some(y)) => ring.same(x, y),
        (Some(_), None) => false,
        (None, Some(_)) => false,
    }
}
