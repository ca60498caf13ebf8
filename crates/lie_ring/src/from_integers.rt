//! The homomorphism from the integers to a roomy ring.

ghost use Rattle.std.specs.Prelude.{◌≡◌, IsTrue};

use crate::homs::Hom;
use crate::integers::Ints;
use crate::rings::Ring;
use crate::roomy::roomy_of_int;
use std::alloc::{AllocError, Global};

/// The homomorphism from the integers to a roomy ring, which carries n to `of_int` of n.
#[derive(Drop)]
pub struct FromIntegers<'a, R: Ring> {
    pub ints: &'a Ints,
    pub ring: &'a R,
    ghost roomy: { IsTrue (R.ring ring.now).roomy },
}

impl<'a, R: Ring> FromIntegers<'a, R> {
    pub fn new(ints: &'a Ints, ring: &'a R) -> FromIntegers<'a, R>
        requires { IsTrue (R.ring ring.now).roomy }
        ensures ints { result.ints.now ≡ ints.now }
        ensures ring { result.ring.now ≡ ring.now }
    {
        FromIntegers { ints, ring }
    }
}

impl<'a, R: Ring> Hom for FromIntegers<'a, R> {
    type Src = Ints;

    type Dst = R;

    ghost use Rattle.lie_ring.specs.HomLemmas.{of_int_is_hom};

    ghost source = { λ h. h.ints.now };

    ghost target = { λ h. h.ring.now };

    ghost map = { λ h n. (R.ring h.ring.now).of_int n };

    ghost is_hom = { λ h. of_int_is_hom (R.ring h.ring.now) (R.is_ring h.ring.now) };

    ghost is_roomy = { λ h. h.roomy };

    fn src(&self) -> &Ints {
        self.ints
    }

    fn dst(&self) -> &R {
        self.ring
    }

    fn image(&self, alloc: Global, a: &i128) -> Result<R::Elem, AllocError> {
        roomy_of_int(self.ring, alloc, *a)
    }
}
