//! The orbits of the carrier.

ghost use Rattle.std.specs.Prelude.{◌≡◌, ℕ, ◌+◌, ◌*◌, ◌^◌, ◌<◌, ◌≤◌, IfOk, IfErr, IsTrue, ◌↔◌, MatchOption, IfSome, ◌++◌, length, map};
ghost use Rattle.std.specs.List.{Any, Contains};
ghost use Rattle.lie_datum.specs.Vectors.{unit};
ghost use Rattle.lie_datum.specs.RootDatum.{IsWithin};
ghost use Rattle.lie_const.specs.Modules.{dimension};
ghost use Rattle.lie_const.specs.Adjoint.{adjoint_dimension};
ghost use Rattle.lie_orbit.specs.Laws.{IsZero};
ghost use Rattle.lie_orbit.specs.Lowering.{Lowers};
ghost use Rattle.lie_orbit.specs.Weights.{IsMinuscule};
ghost use Rattle.lie_weight.specs.Carriers.{joined, IsPassedOver};
ghost use Rattle.lie_weight.specs.CarrierParts.{IsOldAxis, IsListing, IsListingFault};

use crate::faults::ModuleFault;
use crate::modules::Module;
use lie_datum::{Datum, Vector};
use lie_orbit::{lower, orbit};
use std::alloc::{AllocError, Global};

/// A carrier has no more basis vectors.
const LIMIT: usize = 1024;

/// The unit vector of an axis, which counts from 0.
fn unit(axis: usize) -> Vector
    requires { axis < 8 }
    ensures { result ≡ unit 8 (axis + 1) }
{
    let mut unit = [0; 8];
    unit[axis] = 1;
    unit
}

/// Whether a weight is 0.
fn is_zero(weight: &Vector) -> bool
    ensures { IsTrue result ↔ IsZero weight.now }
{
    *weight == [0; 8]
}

/// Whether a weight is in one of these orbits.
fn is_in(orbits: &[Vec<Vector>], weight: &Vector) -> bool
    ensures { IsTrue result ↔ Any (λ o. Contains o weight.now) (map (λ o. o.items) orbits.now) }
{
    for orbit in orbits {
        if orbit.contains(weight) {
            return true;
        }
    }
    false
}

/// The weight that the unit vector of an axis, counted from 0, lowers to, if it is not 0 and in none of these orbits.
fn new_weight(datum: &Datum, axis: usize, orbits: &[Vec<Vector>]) -> Option<Vector>
    requires { axis < datum.now.base.dim }
    ensures lowers { MatchOption result (IsOldAxis datum.now (axis + 1) (map (λ o. o.items) orbits.now)) (Lowers datum.now (unit 8 (axis + 1))) }
    ensures new { IfSome result (λ y. ¬ IsPassedOver (map (λ o. o.items) orbits.now) y) }
    ensures minuscule { IfSome result (IsMinuscule datum.now) }
    ensures near { IfSome result (IsWithin (2 * 10 ^ 32)) }
{
    datum.loaded();
    let weight = lower(datum, &unit(axis));
    if is_zero(&weight) || is_in(orbits, &weight) {
        return None;
    }
    Some(weight)
}

/// Adds the orbit of an axis, counted from 0, if it is new.
fn add_orbit(
    alloc: Global,
    datum: &Datum,
    axis: usize,
    count: usize,
    orbits: &mut Vec<Vec<Vector>>,
) -> Result<usize, ModuleFault>
    requires axis { axis < datum.now.base.dim }
    requires listing { IsListing datum.now axis (map (λ o. o.items) orbits.old.items) }
    requires count { count ≡ adjoint_dimension datum.now + length (joined (map (λ o. o.items) orbits.old.items)) }
    ensures listing { IfOk result (λ _. IsListing datum.now (axis + 1) (map (λ o. o.items) orbits.new.items)) }
    ensures count { IfOk result (λ n. n ≡ adjoint_dimension datum.now + length (joined (map (λ o. o.items) orbits.new.items))) }
    ensures fault { IfErr result (IsListingFault datum.now) }
{
    datum.loaded();
    let Some(weight) = new_weight(datum, axis, orbits) else {
        return Ok(count);
    };
    let members = orbit(alloc, datum, &weight)?;
    let more = count + members.len();
    if more > LIMIT {
        return Err(ModuleFault::Wide(1025));
    }
    orbits.push(members)?;
    Ok(more)
}

/// The orbits of the carrier of a datum, whose adjoint module has this dimension.
pub(crate) fn carrier_orbits(
    alloc: Global,
    datum: &Datum,
    dimension: usize,
) -> Result<Vec<Vec<Vector>>, ModuleFault>
    requires few { dimension ≤ 1024 }
    requires adjoint { dimension ≡ adjoint_dimension datum.now }
    ensures orbits { IfOk result (λ orbits. IsListing datum.now datum.now.base.dim (map (λ o. o.items) orbits.items)) }
    ensures fault { IfErr result (IsListingFault datum.now) }
{
    let mut orbits = Vec::new(alloc);
    let mut count = dimension;
    for axis in 0..datum.d() {
        count = add_orbit(alloc, datum, axis, count, &mut orbits)?;
    }
    Ok(orbits)
}

/// The weights of a module, then those of the orbits.
pub(crate) fn all_weights(
    alloc: Global,
    space: &Module,
    orbits: &[Vec<Vector>],
) -> Result<Vec<Vector>, AllocError>
    ensures { IfOk result (λ weights. weights.items ≡ space.now.weights ++ joined (map (λ o. o.items) orbits.now)) }
{
    let mut weights = Vec::from_slice(alloc, space.weights())?;
    for orbit in orbits {
        weights.extend_from_slice(orbit)?;
    }
    Ok(weights)
}
