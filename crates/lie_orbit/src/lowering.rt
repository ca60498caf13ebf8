//! Lowering of a weight.

ghost use Rattle.std.specs.Prelude.{◌≡◌, ℤ, pos, ◌*◌, ◌^◌, ◌≤ℤ◌, MatchOption};
ghost use Rattle.lie_datum.specs.RootDatum.{IsWithin};
ghost use Rattle.lie_datum.specs.RootList.{IsNumber};
ghost use Rattle.lie_orbit.specs.Weights.{coroot_pairing, IsMinuscule};
ghost use Rattle.lie_orbit.specs.Lowering.{IsHalf, IsHighRoot, IsLow, IsFirstHigh, less_root, Lowers};

use crate::vectors::less_multiple;
use lie_datum::{Datum, RootId, Vector, pairing};

/// The first root that pairs with a weight to 2 or more, if there is one.
pub fn first_high(datum: &Datum, weight: &Vector) -> Option<RootId>
    requires { IsWithin (25 * 10 ^ 31) weight.now }
    ensures { MatchOption result (IsLow datum.now weight.now) (IsFirstHigh datum.now weight.now) }
{
    datum.loaded();
    let positive = datum.m();
    for place in 0..2 * positive {
        let r = RootId::at(place, positive);
        if pairing(weight, datum.coroot(r)) >= 2 {
            return Some(r);
        }
    }
    None
}

/// The weight less a root, half as often as the root pairs with it.
pub fn lowered_by(datum: &Datum, weight: &Vector, r: RootId) -> Vector
    requires number { IsNumber datum.now r }
    requires high { IsHighRoot datum.now weight.now r }
    requires few { coroot_pairing datum.now weight.now r ≤ℤ pos (10 ^ 32) }
    requires small { IsWithin (25 * 10 ^ 31) weight.now }
    ensures { (c : ℤ) × IsHalf (coroot_pairing datum.now weight.now r) c × (result ≡ less_root datum.now weight.now c r) }
{
    datum.loaded();
    let half = pairing(weight, datum.coroot(r)) / 2;
    less_multiple(weight, half, datum.root(r))
}

/// The weight that `v` lowers to, which pairs with each coroot to -1, 0 or 1.
///
/// While a root pairs with the weight to 2 or more, the first such root in the full order is taken
/// away, half as often as it pairs, rounded down. Each step makes the sum of the squares of the
/// pairings with all coroots smaller.
pub fn lower(datum: &Datum, v: &Vector) -> Vector
    requires { IsWithin 8000001 v.now }
    ensures lowers { Lowers datum.now v.now result }
    ensures minuscule { IsMinuscule datum.now result }
    ensures near { IsWithin (2 * 10 ^ 32) result }
{
    datum.loaded();
    let mut weight = *v;
    while let Some(r) = first_high(datum, &weight) {
        weight = lowered_by(datum, &weight, r);
    }
    weight
}
