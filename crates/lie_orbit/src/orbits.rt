//! The orbit of a minuscule weight.

ghost use Rattle.std.specs.Prelude.{◌≤◌, ◌*◌, ◌^◌, IfOk, IfErr, length};
ghost use Rattle.std.specs.List.{All};
ghost use Rattle.lie_datum.specs.RootDatum.{IsWithin};
ghost use Rattle.lie_orbit.specs.Weights.{IsMinuscule};
ghost use Rattle.lie_orbit.specs.Orbits.{IsOrbit, IsOrbitFault, IsNear};

use crate::faults::OrbitFault;
use crate::growth::{MOST, grown};
use crate::levels::in_order;
use lie_datum::{Datum, Vector};
use std::alloc::Global;

/// The orbit of a minuscule weight under the simple reflections, by falling pairing with the sum of
/// the positive coroots, then the greater vector first.
///
/// An orbit of more than 1,024 weights is not listed.
pub fn orbit(alloc: Global, datum: &Datum, weight: &Vector) -> Result<Vec<Vector>, OrbitFault>
    requires minuscule { IsMinuscule datum.now weight.now }
    requires small { IsWithin (2 * 10 ^ 32) weight.now }
    ensures orbit { IfOk result (λ weights. IsOrbit datum.now weight.now weights.items) }
    ensures few { IfOk result (λ weights. length weights.items ≤ 1024) }
    ensures near { IfOk result (λ weights. All (IsNear weight.now 102400) weights.items) }
    ensures cause { IfErr result (IsOrbitFault datum.now weight.now) }
{
    let members = grown(alloc, datum, weight)?;
    if members.len() >= MOST {
        return Err(OrbitFault::TooMany);
    }
    Ok(in_order(alloc, datum, members.as_slice())?)
}
