//! Whether a weight is minuscule.

ghost use Rattle.std.specs.Prelude.{◌*◌, ◌^◌, MatchOption};
ghost use Rattle.lie_datum.specs.RootDatum.{IsWithin};
ghost use Rattle.lie_orbit.specs.Weights.{IsMinuscule, IsFirstLargePairing};

use lie_datum::{Datum, RootId, Vector, pairing};

/// The first root, in the full order, that pairs with the weight to more than 1 or less than -1; there
/// is none where the weight is minuscule.
pub fn first_large_pairing(datum: &Datum, weight: &Vector) -> Option<RootId>
    requires { IsWithin (25 * 10 ^ 31) weight.now }
    ensures { MatchOption result (IsMinuscule datum.now weight.now) (IsFirstLargePairing datum.now weight.now) }
{
    datum.loaded();
    let positive = datum.m();
    for place in 0..2 * positive {
        let r = RootId::at(place, positive);
        if pairing(weight, datum.coroot(r)).unsigned_abs() > 1 {
            return Some(r);
        }
    }
    None
}
