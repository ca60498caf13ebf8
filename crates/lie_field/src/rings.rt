//! A field as a ring in which nothing is ever too large.

ghost use Rattle.std.specs.Prelude.{refl};

use crate::elements::Fe;
use crate::fields::Field;
use lie_ring::{Ring, RingStop};
use std::alloc::Global;

impl Ring for Field {
    type Elem = Fe;

    ghost use Rattle.lie_field.specs.FieldRing.{field_ring, field_is_ring};

    ghost ring = { field_ring };

    ghost zero = { 0 };

    ghost one_zero = { λ _. refl };

    ghost is_ring = { field_is_ring };

    fn zero(&self, _alloc: Global) -> Result<Fe, RingStop> {
        Ok(Fe { number: 0 })
    }

    fn one(&self, _alloc: Global) -> Result<Fe, RingStop> {
        Ok(Fe { number: 1 })
    }

    fn of_int(&self, _alloc: Global, n: i128) -> Result<Fe, RingStop> {
        Ok(self.integer(n))
    }

    fn copy(&self, _alloc: Global, a: &Fe) -> Result<Fe, RingStop> {
        Ok(*a)
    }

    fn add(&self, _alloc: Global, a: &Fe, b: &Fe) -> Result<Fe, RingStop> {
        Ok(Field::add(self, *a, *b))
    }

    fn neg(&self, _alloc: Global, a: &Fe) -> Result<Fe, RingStop> {
        Ok(Field::neg(self, *a))
    }

    fn mul(&self, _alloc: Global, a: &Fe, b: &Fe) -> Result<Fe, RingStop> {
        Ok(Field::mul(self, *a, *b))
    }

    fn same(&self, a: &Fe, b: &Fe) -> bool {
        *a == *b
    }
}
