//! Operations on polynomials whose sizes and exponents are small.

ghost use Rattle.std.specs.Prelude.{◌≡◌, ◌+◌, ◌*◌, ◌<◌, ◌^◌, nat_abs, IfOk};
ghost use Rattle.lie_ring.specs.Rings.{Fits};
ghost use Rattle.lie_poly.specs.Polynomials.{laurent, plus, product, monomial, constant, size, degree};

use lie_poly::{Laurent, Poly};
use lie_ring::{Ring, RingStop};
use std::alloc::{AllocError, Global};

/// The sum of two polynomials whose sizes are small.
pub(crate) fn narrow_sum(alloc: Global, a: &Poly, b: &Poly) -> Result<Poly, AllocError>
    requires a { Fits laurent a.now }
    requires b { Fits laurent b.now }
    requires small { size a.now + size b.now < 2 ^ 126 }
    ensures value { IfOk result (λ p. p ≡ plus a.now b.now) }
    ensures fits { IfOk result (Fits laurent) }
{
    match Laurent.add(alloc, a, b) {
        Ok(sum) => Ok(sum),
        Err(RingStop::NoMemory) => Err(AllocError),
        Err(RingStop::Wide) => unreachable!(),
    }
}

/// The product of two polynomials whose sizes and exponents are small.
pub(crate) fn narrow_product(alloc: Global, a: &Poly, b: &Poly) -> Result<Poly, AllocError>
    requires a { Fits laurent a.now }
    requires b { Fits laurent b.now }
    requires small { size a.now * size b.now < 2 ^ 126 }
    requires shallow { degree a.now + degree b.now < 2 ^ 30 }
    ensures value { IfOk result (λ p. p ≡ product a.now b.now) }
    ensures fits { IfOk result (Fits laurent) }
{
    match Laurent.mul(alloc, a, b) {
        Ok(p) => Ok(p),
        Err(RingStop::NoMemory) => Err(AllocError),
        Err(RingStop::Wide) => unreachable!(),
    }
}

/// A polynomial that is equal.
pub(crate) fn copied(alloc: Global, a: &Poly) -> Result<Poly, AllocError>
    requires { Fits laurent a.now }
    ensures value { IfOk result (λ p. p ≡ a.now) }
    ensures fits { IfOk result (Fits laurent) }
{
    match Laurent.copy(alloc, a) {
        Ok(copy) => Ok(copy),
        Err(_) => Err(AllocError),
    }
}

/// The polynomial `c t^et u^eu`.
pub(crate) fn narrow_monomial(alloc: Global, c: i128, et: i32, eu: i32) -> Result<Poly, AllocError>
    requires c { nat_abs c < 2 ^ 126 }
    requires t_small { nat_abs et < 2 ^ 30 }
    requires u_small { nat_abs eu < 2 ^ 30 }
    ensures value { IfOk result (λ p. p ≡ monomial c et eu) }
    ensures fits { IfOk result (Fits laurent) }
{
    match Poly::term(alloc, c, et, eu) {
        Ok(p) => Ok(p),
        Err(RingStop::NoMemory) => Err(AllocError),
        Err(RingStop::Wide) => unreachable!(),
    }
}

/// An integer as a polynomial.
pub(crate) fn integer(alloc: Global, n: i128) -> Result<Poly, AllocError>
    requires { nat_abs n < 2 ^ 126 }
    ensures value { IfOk result (λ p. p ≡ constant n) }
    ensures fits { IfOk result (Fits laurent) }
{
    narrow_monomial(alloc, n, 0, 0)
}
