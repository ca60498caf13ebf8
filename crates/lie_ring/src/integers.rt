//! The integers as a ring, on `i128`.

ghost use Rattle.std.specs.Prelude.{refl};

use crate::rings::{Ring, RingStop};
use std::alloc::Global;

/// The ring of the integers.
///
/// The size of an integer is its absolute value, and its degree is 0.
#[derive(Clone, Copy, Debug, PartialEq, Eq, Hash)]
pub struct Ints;

/// Sizes are below this.
const LIMIT: u128 = 1 << 126;

impl Ring for Ints {
    type Elem = i128;

    ghost use Rattle.lie_ring.specs.Integers.{integers};
    ghost use Rattle.lie_ring.specs.IntegerLaws.{integers_ring};

    ghost ring = { λ _. integers };

    ghost zero = { integers.zero };

    ghost one_zero = { λ _. refl };

    ghost is_ring = { λ _. integers_ring };

    fn zero(&self, _alloc: Global) -> Result<i128, RingStop> {
        Ok(0)
    }

    fn one(&self, _alloc: Global) -> Result<i128, RingStop> {
        Ok(1)
    }

    fn of_int(&self, _alloc: Global, n: i128) -> Result<i128, RingStop> {
        if n.unsigned_abs() < LIMIT {
            Ok(n)
        } else {
            Err(RingStop::Wide)
        }
    }

    fn copy(&self, _alloc: Global, a: &i128) -> Result<i128, RingStop> {
        Ok(*a)
    }

    fn add(&self, _alloc: Global, a: &i128, b: &i128) -> Result<i128, RingStop> {
        if a.unsigned_abs() + b.unsigned_abs() < LIMIT {
            Ok(*a + *b)
        } else {
            Err(RingStop::Wide)
        }
    }

    fn neg(&self, _alloc: Global, a: &i128) -> Result<i128, RingStop> {
        Ok(-*a)
    }

    fn mul(&self, _alloc: Global, a: &i128, b: &i128) -> Result<i128, RingStop> {
        match a.unsigned_abs().checked_mul(b.unsigned_abs()) {
            Some(n) if n < LIMIT => Ok(*a * *b),
            _ => Err(RingStop::Wide),
        }
    }

    fn same(&self, a: &i128, b: &i128) -> bool {
        *a == *b
    }
}
