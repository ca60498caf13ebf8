//! The carrier of a root datum.

ghost use Rattle.std.specs.Prelude.{ℕ, ◌+◌, ◌<◌, IfOk, IfErr, IfSome, IsTrue, ◌↔◌, length, map, take};
ghost use Rattle.std.specs.List.{All};
ghost use Rattle.lie_datum.specs.RootList.{IsNumber};
ghost use Rattle.lie_const.specs.Adjoint.{IsAdjointOf};
ghost use Rattle.lie_const.specs.Signs.{IsSignTable, eta_of};
ghost use Rattle.lie_weight.specs.Along.{AreSteppable};
ghost use Rattle.lie_weight.specs.Carriers.{LoadsCarrier};
ghost use Rattle.lie_weight.specs.CarrierParts.{AreMade, IsMadeOf, IsFirstOf, IsMakingFault};
ghost use Rattle.lie_weight.specs.Conjugation.{Precedes};

use crate::along::along;
use crate::faults::ModuleFault;
use crate::heavy::first_heavy;
use crate::listing::{all_weights, carrier_orbits};
use crate::modules::Module;
use crate::sums::direct_sum;
use lie_const::Signs;
use lie_datum::{Datum, RootId, Vector};
use std::alloc::{AllocError, Global};

/// Whether the root q and the power j come before the root r and the power k.
fn precedes(datum: &Datum, q: RootId, j: u32, r: RootId, k: u32) -> bool
    requires q { IsNumber datum.now q }
    requires r { IsNumber datum.now r }
    ensures { IsTrue result ↔ Precedes datum.now q j r k }
{
    datum.loaded();
    let positive = datum.m();
    let (low, high) = (
        datum.height(q).unsigned_abs(),
        datum.height(r).unsigned_abs(),
    );
    low < high || low == high && (q.place(positive) < r.place(positive) || q == r && j < k)
}

/// The first of two places, where the first one may be missing.
pub(crate) fn earlier(
    datum: &Datum,
    first: Option<(RootId, u32)>,
    other: (RootId, u32),
) -> (RootId, u32)
    requires first { IfSome first (λ p. IsNumber datum.now p.0) }
    requires other { IsNumber datum.now other.0 }
    ensures { IsFirstOf datum.now first other.0 other.1 result }
{
    match first {
        Some(place) => {
            if precedes(datum, place.0, place.1, other.0, other.1) {
                place
            } else {
                other
            }
        }
        None => other,
    }
}

/// Adds the module along one orbit more, the one at this place, or notes where the work is huge.
fn add_module(
    alloc: Global,
    datum: &Datum,
    signs: &Signs,
    orbits: &[Vec<Vector>],
    at: usize,
    modules: &mut Vec<Module>,
    first: &mut Option<(RootId, u32)>,
) -> Result<(), AllocError>
    requires signs { IsSignTable datum.now signs.now }
    requires at { at < length orbits.now }
    requires orbits { All AreSteppable (map (λ o. o.items) orbits.now) }
    requires made { IsMadeOf datum.now (eta_of signs.now) (take at (map (λ o. o.items) orbits.now)) modules.old.items first.old }
    ensures { IfOk result (λ _. IsMadeOf datum.now (eta_of signs.now) (take (at + 1) (map (λ o. o.items) orbits.now)) modules.new.items first.new) }
{
    datum.loaded();
    let weights = Vec::from_slice(alloc, &orbits[at])?;
    match along(alloc, datum, signs, weights) {
        Ok(space) => modules.push(space)?,
        Err(fault) => match fault.huge() {
            Some(place) => *first = Some(earlier(datum, *first, place)),
            None => return Err(AllocError),
        },
    }
    Ok(())
}

/// The modules along these orbits.
fn orbit_modules(
    alloc: Global,
    datum: &Datum,
    signs: &Signs,
    orbits: &[Vec<Vector>],
) -> Result<Vec<Module>, ModuleFault>
    requires signs { IsSignTable datum.now signs.now }
    requires orbits { All AreSteppable (map (λ o. o.items) orbits.now) }
    ensures made { IfOk result (λ modules. AreMade datum.now (eta_of signs.now) (map (λ o. o.items) orbits.now) modules.items) }
    ensures fault { IfErr result (IsMakingFault datum.now (eta_of signs.now) (map (λ o. o.items) orbits.now)) }
{
    let mut modules = Vec::new(alloc);
    let mut first = None;
    for at in 0..orbits.len() {
        add_module(alloc, datum, signs, orbits, at, &mut modules, &mut first)?;
    }
    match first {
        Some((r, k)) => Err(ModuleFault::Huge(r, k)),
        None => Ok(modules),
    }
}

impl Module {
    /// The carrier: the sum of the adjoint module and, for each axis in turn, the module of the orbit of the weight that
    /// the unit vector of the axis lowers to, if it is not 0 and its orbit has not come before.
    pub fn carrier(
        alloc: Global,
        datum: &Datum,
        signs: &Signs,
        adjoint: &Module,
    ) -> Result<Module, ModuleFault>
        requires adjoint { IsAdjointOf datum.now adjoint.now }
        requires signs { IsSignTable datum.now signs.now }
        ensures { LoadsCarrier datum.now (eta_of signs.now) adjoint.now result }
    {
        datum.loaded();
        let orbits = carrier_orbits(alloc, datum, adjoint.dim())?;
        let weights = all_weights(alloc, adjoint, &orbits)?;
        if let Some(a) = first_heavy(&weights) {
            return Err(ModuleFault::Heavy(a + 1));
        }
        let modules = orbit_modules(alloc, datum, signs, &orbits)?;
        Ok(direct_sum(alloc, datum, adjoint, &modules)?)
    }
}
