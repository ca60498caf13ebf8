//! The calls of a roomy ring, whose only refusal is want of memory.

ghost use Rattle.std.specs.Prelude.{◌≡◌, IsTrue, IfOk};
ghost use Rattle.lie_ring.specs.Rings.{Fits};

use crate::rings::{Ring, RingStop};
use std::alloc::{AllocError, Global};

/// The zero of a roomy ring.
pub fn roomy_zero<R: Ring>(ring: &R, alloc: Global) -> Result<R::Elem, AllocError>
    requires { IsTrue (R.ring ring.now).roomy }
    ensures fits { IfOk result (Fits (R.ring ring.now)) }
    ensures value { IfOk result (λ r. r ≡ (R.ring ring.now).zero) }
{
    match ring.zero(alloc) {
        Ok(element) => Ok(element),
        Err(RingStop::NoMemory) => Err(AllocError),
        Err(RingStop::Wide) => unreachable!(),
    }
}

/// The one of a roomy ring.
pub fn roomy_one<R: Ring>(ring: &R, alloc: Global) -> Result<R::Elem, AllocError>
    requires { IsTrue (R.ring ring.now).roomy }
    ensures fits { IfOk result (Fits (R.ring ring.now)) }
    ensures value { IfOk result (λ r. r ≡ (R.ring ring.now).one) }
{
    match ring.one(alloc) {
        Ok(element) => Ok(element),
        Err(RingStop::NoMemory) => Err(AllocError),
        Err(RingStop::Wide) => unreachable!(),
    }
}

/// The image of an integer in a roomy ring.
pub fn roomy_of_int<R: Ring>(ring: &R, alloc: Global, n: i128) -> Result<R::Elem, AllocError>
    requires { IsTrue (R.ring ring.now).roomy }
    ensures fits { IfOk result (Fits (R.ring ring.now)) }
    ensures value { IfOk result (λ r. r ≡ (R.ring ring.now).of_int n) }
{
    match ring.of_int(alloc, n) {
        Ok(element) => Ok(element),
        Err(RingStop::NoMemory) => Err(AllocError),
        Err(RingStop::Wide) => unreachable!(),
    }
}

/// An equal element of a roomy ring.
pub fn roomy_copy<R: Ring>(ring: &R, alloc: Global, a: &R::Elem) -> Result<R::Elem, AllocError>
    requires roomy { IsTrue (R.ring ring.now).roomy }
    requires a { Fits (R.ring ring.now) a.now }
    ensures fits { IfOk result (Fits (R.ring ring.now)) }
    ensures value { IfOk result (λ r. r ≡ a.now) }
{
    match ring.copy(alloc, a) {
        Ok(element) => Ok(element),
        Err(RingStop::NoMemory) => Err(AllocError),
        Err(RingStop::Wide) => unreachable!(),
    }
}

/// The sum in a roomy ring.
pub fn roomy_add<R: Ring>(
    ring: &R,
    alloc: Global,
    a: &R::Elem,
    b: &R::Elem,
) -> Result<R::Elem, AllocError>
    requires roomy { IsTrue (R.ring ring.now).roomy }
    requires a { Fits (R.ring ring.now) a.now }
    requires b { Fits (R.ring ring.now) b.now }
    ensures fits { IfOk result (Fits (R.ring ring.now)) }
    ensures value { IfOk result (λ r. r ≡ (R.ring ring.now).add a.now b.now) }
{
    match ring.add(alloc, a, b) {
        Ok(element) => Ok(element),
        Err(RingStop::NoMemory) => Err(AllocError),
        Err(RingStop::Wide) => unreachable!(),
    }
}

/// The negative in a roomy ring.
pub fn roomy_neg<R: Ring>(ring: &R, alloc: Global, a: &R::Elem) -> Result<R::Elem, AllocError>
    requires roomy { IsTrue (R.ring ring.now).roomy }
    requires a { Fits (R.ring ring.now) a.now }
    ensures fits { IfOk result (Fits (R.ring ring.now)) }
    ensures value { IfOk result (λ r. r ≡ (R.ring ring.now).neg a.now) }
{
    match ring.neg(alloc, a) {
        Ok(element) => Ok(element),
        Err(RingStop::NoMemory) => Err(AllocError),
        Err(RingStop::Wide) => unreachable!(),
    }
}

/// The product in a roomy ring.
pub fn roomy_mul<R: Ring>(
    ring: &R,
    alloc: Global,
    a: &R::Elem,
    b: &R::Elem,
) -> Result<R::Elem, AllocError>
    requires roomy { IsTrue (R.ring ring.now).roomy }
    requires a { Fits (R.ring ring.now) a.now }
    requires b { Fits (R.ring ring.now) b.now }
    ensures fits { IfOk result (Fits (R.ring ring.now)) }
    ensures value { IfOk result (λ r. r ≡ (R.ring ring.now).mul a.now b.now) }
{
    match ring.mul(alloc, a, b) {
        Ok(element) => Ok(element),
        Err(RingStop::NoMemory) => Err(AllocError),
        Err(RingStop::Wide) => unreachable!(),
    }
}
