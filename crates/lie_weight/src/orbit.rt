//! The module of the orbit of a minuscule weight.

ghost use Rattle.lie_datum.specs.RootDatum.{IsWithin};
ghost use Rattle.lie_const.specs.Signs.{IsSignTable, eta_of};
ghost use Rattle.lie_orbit.specs.Weights.{IsMinuscule};
ghost use Rattle.lie_weight.specs.OrbitFaults.{LoadsOrbit};

use crate::along::along;
use crate::faults::ModuleFault;
use crate::modules::Module;
use lie_const::Signs;
use lie_datum::{Datum, Vector};
use lie_orbit::{first_large_pairing, orbit};
use std::alloc::Global;

/// An orbit of more weights makes no module.
const LIMIT: usize = 300;

impl Module {
    /// The module of the orbit of `v`, a weight that pairs with each root to -1, 0 or 1.
    ///
    /// A basis vector stands for each weight of the orbit, by falling pairing with the sum of the
    /// positive coroots, then the greater vector first.
    pub fn orbit(
        alloc: Global,
        datum: &Datum,
        signs: &Signs,
        v: &Vector,
    ) -> Result<Module, ModuleFault>
        requires v { IsWithin 100 v.now }
        requires signs { IsSignTable datum.now signs.now }
        ensures { LoadsOrbit datum.now (eta_of signs.now) v.now result }
    {
        if let Some(r) = first_large_pairing(datum, v) {
            return Err(ModuleFault::NotMinuscule(r));
        }
        Module::minuscule(alloc, datum, signs, v)
    }

    /// The module of the orbit of a minuscule weight.
    fn minuscule(
        alloc: Global,
        datum: &Datum,
        signs: &Signs,
        v: &Vector,
    ) -> Result<Module, ModuleFault>
        requires v { IsWithin 100 v.now }
        requires minuscule { IsMinuscule datum.now v.now }
        requires signs { IsSignTable datum.now signs.now }
        ensures { LoadsOrbit datum.now (eta_of signs.now) v.now result }
    {
        let weights = orbit(alloc, datum, v)?;
        let count = weights.len();
        if count > LIMIT {
            return Err(ModuleFault::Wide(count as u64));
        }
        along(alloc, datum, signs, weights)
    }
}
