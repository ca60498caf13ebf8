//! The matrices that conjugate root vectors.

ghost use Rattle.std.specs.Prelude.{◌≡◌, ◌≤◌, unsigned_abs, IfOk, OnOk};
ghost use Rattle.lie_ring.specs.Integers.{integers};
ghost use Rattle.lie_ring.specs.Matrices.{AllFit, product, scaled};
ghost use Rattle.lie_mat.specs.Wide.{IsWideProduct, IsHugeMatrix};
ghost use Rattle.lie_weight.specs.Factors.{AreFactors, sandwich, work_on};

use crate::rules::{absolute, scaled};
use lie_mat::Mat;
use lie_ring::{Ints, RingStop};
use std::alloc::{AllocError, Global};

/// N_i and N_i^-1 of a simple index, and the product F_i F_-i F_i of the absolute values.
#[derive(Drop)]
pub(crate) struct Factors {
    pub(crate) element: Mat<Ints>,
    pub(crate) inverse: Mat<Ints>,
    pub(crate) absolute: Mat<Ints>,
}

/// The product of two matrices, where it is not too wide.
fn narrow_product(alloc: Global, a: &Mat<Ints>, b: &Mat<Ints>) -> Result<Mat<Ints>, AllocError>
    requires shape { a.now.width ≡ b.now.height }
    requires a_fit { AllFit integers a.now }
    requires b_fit { AllFit integers b.now }
    requires narrow { ¬ IsWideProduct integers a.now b.now }
    ensures value { IfOk result (λ m. m ≡ product integers a.now b.now) }
    ensures fit { IfOk result (AllFit integers) }
{
    match a.mul(alloc, &Ints, b) {
        Ok(product) => Ok(product),
        Err(RingStop::NoMemory) => Err(AllocError),
        Err(RingStop::Wide) => unreachable!(),
    }
}

/// The product A (B A).
pub(crate) fn sandwich(alloc: Global, a: &Mat<Ints>, b: &Mat<Ints>) -> Result<Mat<Ints>, AllocError>
    requires shape { a.now.width ≡ b.now.height }
    requires inner_shape { b.now.width ≡ a.now.height }
    requires a_fit { AllFit integers a.now }
    requires b_fit { AllFit integers b.now }
    requires inner { ¬ IsWideProduct integers b.now a.now }
    requires outer { ¬ IsWideProduct integers a.now (product integers b.now a.now) }
    ensures value { IfOk result (λ m. m ≡ sandwich a.now b.now) }
    ensures fit { IfOk result (AllFit integers) }
{
    let inner = narrow_product(alloc, b, a)?;
    narrow_product(alloc, a, &inner)
}

/// Tests that the work on a matrix is not huge.
pub(crate) fn test_work(
    alloc: Global,
    factors: &Factors,
    matrix: &Mat<Ints>,
) -> Result<(), RingStop>
    requires factors { AreFactors matrix.now.height factors.now }
    requires square { matrix.now.width ≡ matrix.now.height }
    requires fit { AllFit integers matrix.now }
    ensures small { OnOk result (¬ IsHugeMatrix (work_on factors.now.absolute matrix.now)) }
    ensures wide { result ≡ Err RingStop.Wide → IsHugeMatrix (work_on factors.now.absolute matrix.now) }
{
    let absolute = match absolute(alloc, matrix) {
        Ok(absolute) => absolute,
        Err(_) => return Err(RingStop::NoMemory),
    };
    let half = match factors.absolute.mul(alloc, &Ints, &absolute) {
        Ok(half) => half,
        Err(stop) => return Err(stop),
    };
    match half.mul(alloc, &Ints, &factors.absolute) {
        Ok(_) => Ok(()),
        Err(stop) => Err(stop),
    }
}

/// The conjugate of a matrix, times 1 or -1.
pub(crate) fn conjugate(
    alloc: Global,
    factors: &Factors,
    sign: i128,
    matrix: &Mat<Ints>,
) -> Result<Mat<Ints>, AllocError>
    requires factors { AreFactors matrix.now.height factors.now }
    requires square { matrix.now.width ≡ matrix.now.height }
    requires fit { AllFit integers matrix.now }
    requires sign { unsigned_abs sign ≤ 1 }
    requires narrow { ¬ IsHugeMatrix (work_on factors.now.absolute matrix.now) }
    ensures value { IfOk result (λ m. m ≡ scaled integers sign (product integers (product integers factors.now.element matrix.now) factors.now.inverse)) }
    ensures fit { IfOk result (AllFit integers) }
{
    let left = narrow_product(alloc, &factors.element, matrix)?;
    let whole = narrow_product(alloc, &left, &factors.inverse)?;
    scaled(alloc, sign, &whole)
}
