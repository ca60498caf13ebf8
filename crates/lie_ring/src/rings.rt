//! The trait of rings, and why a call of a ring stops.

ghost use Rattle.std.specs.Prelude.{◌≡◌, ℕ, ◌+◌, ◌*◌, ◌^◌, ◌<◌, ◌≤◌, ◌⊎◌, ◌↔◌, nat_abs, IsTrue, IfOk, OnOk};
ghost use Rattle.lie_ring.specs.Rings.{RingOn, Fits, IsRing};

use std::alloc::Global;
use thiserror::Error;

/// Why a call of a ring gave no element.
#[derive(Debug, PartialEq, Eq, Drop, Error)]
pub enum RingStop {
    #[error("out of memory")]
    NoMemory,
    /// The size of the answer could reach 2^126, or its degree 2^30.
    #[error("an element is too large")]
    Wide,
}

/// A commutative ring with one, on the elements among the values of a type.
///
/// Each element has a size and a degree, which bound those of sums and products by the laws of
/// `IsSized`. Each call is handed elements of a size below 2^126 and answers such an element.
pub trait Ring {
    type Elem: Drop;

    /// The ring that `self` stands for.
    ghost ring: { Self → RingOn Self.Elem };

    /// The zero, which all rings of this type share.
    ghost zero: { Self.Elem };

    fn zero(&self, alloc: Global) -> Result<Self::Elem, RingStop>
        ensures fits { IfOk result (Fits (ring self.now)) }
        ensures value { IfOk result (λ r. r ≡ (ring self.now).zero) }
        ensures never_wide { ¬ (result ≡ Err RingStop.Wide) };

    fn one(&self, alloc: Global) -> Result<Self::Elem, RingStop>
        ensures fits { IfOk result (Fits (ring self.now)) }
        ensures value { IfOk result (λ r. r ≡ (ring self.now).one) }
        ensures never_wide { ¬ (result ≡ Err RingStop.Wide) };

    /// The image of an integer.
    fn of_int(&self, alloc: Global, n: i128) -> Result<Self::Elem, RingStop>
        ensures fits { IfOk result (Fits (ring self.now)) }
        ensures value { IfOk result (λ r. r ≡ (ring self.now).of_int n) }
        ensures wide { result ≡ Err RingStop.Wide →
            ¬ (IsTrue (ring self.now).roomy) × (2 ^ 126 ≤ nat_abs n) }
        ensures narrow { OnOk result (IsTrue (ring self.now).roomy ⊎ (nat_abs n < 2 ^ 126)) };

    /// An equal element.
    fn copy(&self, alloc: Global, a: &Self::Elem) -> Result<Self::Elem, RingStop>
        requires { Fits (ring self.now) a.now }
        ensures fits { IfOk result (Fits (ring self.now)) }
        ensures value { IfOk result (λ r. r ≡ a.now) }
        ensures never_wide { ¬ (result ≡ Err RingStop.Wide) };

    fn add(&self, alloc: Global, a: &Self::Elem, b: &Self::Elem) -> Result<Self::Elem, RingStop>
        requires a { Fits (ring self.now) a.now }
        requires b { Fits (ring self.now) b.now }
        ensures fits { IfOk result (Fits (ring self.now)) }
        ensures value { IfOk result (λ r. r ≡ (ring self.now).add a.now b.now) }
        ensures wide { result ≡ Err RingStop.Wide →
            2 ^ 126 ≤ (ring self.now).size a.now + (ring self.now).size b.now }
        ensures narrow { OnOk result ((ring self.now).size a.now + (ring self.now).size b.now < 2 ^ 126) };

    fn neg(&self, alloc: Global, a: &Self::Elem) -> Result<Self::Elem, RingStop>
        requires { Fits (ring self.now) a.now }
        ensures fits { IfOk result (Fits (ring self.now)) }
        ensures value { IfOk result (λ r. r ≡ (ring self.now).neg a.now) }
        ensures never_wide { ¬ (result ≡ Err RingStop.Wide) };

    fn mul(&self, alloc: Global, a: &Self::Elem, b: &Self::Elem) -> Result<Self::Elem, RingStop>
        requires a { Fits (ring self.now) a.now }
        requires b { Fits (ring self.now) b.now }
        ensures fits { IfOk result (Fits (ring self.now)) }
        ensures value { IfOk result (λ r. r ≡ (ring self.now).mul a.now b.now) }
        ensures wide { result ≡ Err RingStop.Wide →
            (2 ^ 126 ≤ (ring self.now).size a.now * (ring self.now).size b.now)
            ⊎ (2 ^ 30 ≤ (ring self.now).degree a.now + (ring self.now).degree b.now) }
        ensures narrow { OnOk result (
            ((ring self.now).size a.now * (ring self.now).size b.now < 2 ^ 126)
            × ((ring self.now).degree a.now + (ring self.now).degree b.now < 2 ^ 30)) };

    /// Whether two elements are equal.
    fn same(&self, a: &Self::Elem, b: &Self::Elem) -> bool
        requires a { Fits (ring self.now) a.now }
        requires b { Fits (ring self.now) b.now }
        ensures { IsTrue result ↔ (a.now ≡ b.now) };

    /// The ring meets the laws.
    ghost is_ring: { (r : Self) → IsRing (ring r) };

    ghost one_zero: { (r : Self) → (ring r).zero ≡ zero };
}
