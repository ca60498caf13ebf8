//! The trait of homomorphisms.

ghost use Rattle.std.specs.Prelude.{◌≡◌, IsTrue, IfOk};
ghost use Rattle.lie_ring.specs.Rings.{Fits, IsHom};

use crate::rings::Ring;
use std::alloc::{AllocError, Global};

/// A homomorphism from one ring to a roomy ring.
pub trait Hom {
    type Src: Ring;

    type Dst: Ring;

    /// The ring that it is from.
    ghost source: { Self → Self.Src };

    /// The ring that it is to.
    ghost target: { Self → Self.Dst };

    /// What it carries an element to.
    ghost map: { Self → Self.Src.Elem → Self.Dst.Elem };

    fn src(&self) -> &Self::Src
        ensures { result.now ≡ source self.now };

    fn dst(&self) -> &Self::Dst
        ensures { result.now ≡ target self.now };

    fn image(
        &self,
        alloc: Global,
        a: &<Self::Src as Ring>::Elem,
    ) -> Result<<Self::Dst as Ring>::Elem, AllocError>
        requires { Fits (Self.Src.ring (source self.now)) a.now }
        ensures fits { IfOk result (Fits (Self.Dst.ring (target self.now))) }
        ensures value { IfOk result (λ r. r ≡ map self.now a.now) };

    /// The map respects zero, one, sums and products.
    ghost is_hom: { (h : Self) → IsHom (Self.Src.ring (source h)) (Self.Dst.ring (target h)) (map h) };

    ghost is_roomy: { (h : Self) → IsTrue (Self.Dst.ring (target h)).roomy };
}
