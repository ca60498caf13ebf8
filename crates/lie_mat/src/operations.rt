//! The operations on matrices.

ghost use Rattle.std.specs.Prelude.{◌≡◌, ℕ, ◌+◌, ◌*◌, ◌<◌, ◌≤◌, IfOk};
ghost use Rattle.lie_ring.specs.Matrices.{AllFit, identity, transposed, direct_sum, image, sum, product, kronecker};
ghost use Rattle.lie_mat.specs.Wide.{IsWideSum, IsWideProduct, IsWideKronecker};

use crate::entries::build;
use crate::mats::Mat;
use crate::rules::{DirectSum, Identity, Image, Transposed};
use crate::sums::{Kronecker, Product, Sum};
use lie_ring::{Hom, Ring, RingStop};
use std::alloc::{AllocError, Global};

impl<R: Ring> Mat<R> {
    /// The identity matrix of a size.
    pub fn identity(alloc: Global, ring: &R, n: usize) -> Result<Mat<R>, RingStop>
        requires { n ≤ 1024 }
        ensures value { IfOk result (λ m. m ≡ identity (R.ring ring.now) n) }
        ensures fit { IfOk result (AllFit (R.ring ring.now)) }
        ensures never_wide { ¬ (result ≡ Err RingStop.Wide) }
    {
        build(alloc, &Identity { ring, size: n }, n, n)
    }

    /// The matrix with rows for columns.
    pub fn transpose(&self, alloc: Global, ring: &R) -> Result<Mat<R>, RingStop>
        requires fit { AllFit (R.ring ring.now) self.now }
        ensures value { IfOk result (λ m. m ≡ transposed R.zero self.now) }
        ensures fit { IfOk result (AllFit (R.ring ring.now)) }
        ensures never_wide { ¬ (result ≡ Err RingStop.Wide) }
    {
        let rule = Transposed { ring, matrix: self };
        build(alloc, &rule, self.cols(), self.rows())
    }

    /// The matrix with this one and `b` as blocks on its diagonal, this one first.
    pub fn direct_sum(&self, alloc: Global, ring: &R, b: &Mat<R>) -> Result<Mat<R>, RingStop>
        requires rows { self.now.height + b.now.height ≤ 1024 }
        requires cols { self.now.width + b.now.width ≤ 1024 }
        requires fit { AllFit (R.ring ring.now) self.now }
        requires b_fit { AllFit (R.ring ring.now) b.now }
        ensures value { IfOk result (λ m. m ≡ direct_sum R.zero self.now b.now) }
        ensures fit { IfOk result (AllFit (R.ring ring.now)) }
        ensures never_wide { ¬ (result ≡ Err RingStop.Wide) }
    {
        let rule = DirectSum {
            ring,
            first: self,
            second: b,
        };
        build(alloc, &rule, self.rows() + b.rows(), self.cols() + b.cols())
    }

    /// The sum of two matrices of the same shape.
    pub fn add(&self, alloc: Global, ring: &R, b: &Mat<R>) -> Result<Mat<R>, RingStop>
        requires rows { self.now.height ≡ b.now.height }
        requires cols { self.now.width ≡ b.now.width }
        requires fit { AllFit (R.ring ring.now) self.now }
        requires b_fit { AllFit (R.ring ring.now) b.now }
        ensures value { IfOk result (λ m. m ≡ sum (R.ring ring.now) self.now b.now) }
        ensures fit { IfOk result (AllFit (R.ring ring.now)) }
        ensures wide { result ≡ Err RingStop.Wide → IsWideSum (R.ring ring.now) self.now b.now }
    {
        let rule = Sum {
            ring,
            first: self,
            second: b,
        };
        build(alloc, &rule, self.rows(), self.cols())
    }

    /// The product, with this matrix as the left factor.
    pub fn mul(&self, alloc: Global, ring: &R, b: &Mat<R>) -> Result<Mat<R>, RingStop>
        requires shape { self.now.width ≡ b.now.height }
        requires fit { AllFit (R.ring ring.now) self.now }
        requires b_fit { AllFit (R.ring ring.now) b.now }
        ensures value { IfOk result (λ m. m ≡ product (R.ring ring.now) self.now b.now) }
        ensures fit { IfOk result (AllFit (R.ring ring.now)) }
        ensures wide { result ≡ Err RingStop.Wide → IsWideProduct (R.ring ring.now) self.now b.now }
    {
        let rule = Product {
            ring,
            first: self,
            second: b,
        };
        build(alloc, &rule, self.rows(), b.cols())
    }

    /// The Kronecker product: the matrix with `b` times an entry of this one as the block in its
    /// place.
    pub fn kron(&self, alloc: Global, ring: &R, b: &Mat<R>) -> Result<Mat<R>, RingStop>
        requires rows { self.now.height * b.now.height ≤ 1024 }
        requires cols { self.now.width * b.now.width ≤ 1024 }
        requires fit { AllFit (R.ring ring.now) self.now }
        requires b_fit { AllFit (R.ring ring.now) b.now }
        ensures value { IfOk result (λ m. m ≡ kronecker (R.ring ring.now) self.now b.now) }
        ensures fit { IfOk result (AllFit (R.ring ring.now)) }
        ensures wide { result ≡ Err RingStop.Wide → IsWideKronecker (R.ring ring.now) self.now b.now }
    {
        let rule = Kronecker {
            ring,
            first: self,
            second: b,
        };
        build(alloc, &rule, self.rows() * b.rows(), self.cols() * b.cols())
    }

    /// The matrix of the images of the entries.
    pub fn map<H: Hom<Src = R>>(&self, alloc: Global, hom: &H) -> Result<Mat<H::Dst>, AllocError>
        requires { AllFit (R.ring (H.source hom.now)) self.now }
        ensures value { IfOk result (λ m. m ≡ image (H.map hom.now) self.now) }
        ensures fit { IfOk result (AllFit (H.Dst.ring (H.target hom.now))) }
    {
        let rule = Image { hom, matrix: self };
        match build(alloc, &rule, self.rows(), self.cols()) {
            Ok(image) => Ok(image),
            Err(RingStop::NoMemory) => Err(AllocError),
            Err(RingStop::Wide) => unreachable!(),
        }
    }
}
