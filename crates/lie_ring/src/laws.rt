//! Laws of matrices over rings: functions that publish a clause each, and do nothing.

ghost use Rattle.lie_ring.specs.MatrixAlgebra.{HasMatrixLaws, CarriesMatrices};

use crate::homs::Hom;
use crate::rings::Ring;

/// Products, identities, sums, transposed matrices, direct sums and Kronecker products over a ring.
pub fn matrix_laws<R: Ring>(ring: &R)
    ensures { HasMatrixLaws (R.ring ring.now) }
{}

/// What a homomorphism does to each.
pub fn matrix_images<H: Hom>(hom: &H)
    ensures { let source = H.Src.ring (H.source hom.now) in
        let target = H.Dst.ring (H.target hom.now) in
        CarriesMatrices source target (H.map hom.now) }
{}
