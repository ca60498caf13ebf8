//! The members of an orbit in order.

ghost use Rattle.std.specs.Prelude.{◌≡◌, ◌≤◌, ◌*◌, ◌^◌, IfOk, length, map, unsigned_abs};
ghost use Rattle.std.specs.List.{All};
ghost use Rattle.lie_datum.specs.RootDatum.{IsWithin};
ghost use Rattle.lie_orbit.specs.Weights.{IsMinuscule};
ghost use Rattle.lie_orbit.specs.Orbits.{IsOrbit, IsNear};
ghost use Rattle.lie_orbit.specs.Growth.{IsGrowing, HasAllImages, first_weight};
ghost use Rattle.lie_orbit.specs.Levels.{level, leveled_weight, IsLeveled};

use lie_datum::{Datum, RootId, Vector, pairing};
use std::alloc::{AllocError, Global};
use std::cmp::Reverse;

/// A weight with its level. The order of these is the order of the members of an orbit.
#[derive(Clone, Copy, PartialEq, Eq, PartialOrd, Ord)]
pub(crate) struct Leveled {
    pub(crate) level: Reverse<i128>,
    pub(crate) weight: Reverse<Vector>,
}

/// The pairing of a weight with the sum of the positive coroots.
fn level(datum: &Datum, weight: &Vector) -> i128
    requires minuscule { IsMinuscule datum.now weight.now }
    requires small { IsWithin (25 * 10 ^ 31) weight.now }
    ensures value { result ≡ level datum.now weight.now }
    ensures bound { unsigned_abs result ≤ 120 }
{
    datum.loaded();
    let positive = datum.m();
    let mut sum = 0;
    for k in 0..positive {
        sum += pairing(weight, datum.coroot(RootId::at(k, positive)));
    }
    sum
}

/// The members with their levels.
fn with_levels(alloc: Global, datum: &Datum, orbit: &[Vector]) -> Result<Vec<Leveled>, AllocError>
    requires { IsGrowing datum.now orbit.now }
    ensures weights { IfOk result (λ list. map leveled_weight list.items ≡ orbit.now) }
    ensures levels { IfOk result (λ list. All (IsLeveled datum.now) list.items) }
{
    datum.loaded();
    let mut list = Vec::new(alloc);
    for weight in orbit {
        list.push(Leveled {
            level: Reverse(level(datum, weight)),
            weight: Reverse(*weight),
        })?;
    }
    Ok(list)
}

/// The weights alone, in the same order.
fn without_levels(alloc: Global, list: &[Leveled]) -> Result<Vec<Vector>, AllocError>
    ensures { IfOk result (λ weights. weights.items ≡ map leveled_weight list.now) }
{
    let mut weights = Vec::new(alloc);
    for p in list {
        weights.push(p.weight.0)?;
    }
    Ok(weights)
}

/// The members of an orbit in order.
pub(crate) fn in_order(
    alloc: Global,
    datum: &Datum,
    orbit: &[Vector],
) -> Result<Vec<Vector>, AllocError>
    requires growing { IsGrowing datum.now orbit.now }
    requires whole { HasAllImages datum.now orbit.now }
    ensures orbit { IfOk result (λ weights. IsOrbit datum.now (first_weight orbit.now) weights.items) }
    ensures count { IfOk result (λ weights. length weights.items ≡ length orbit.now) }
    ensures near { IfOk result (λ weights. All (IsNear (first_weight orbit.now) 102400) weights.items) }
{
    datum.loaded();
    let mut list = with_levels(alloc, datum, orbit)?;
    list.sort()?;
    without_levels(alloc, &list)
}
