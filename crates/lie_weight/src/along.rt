//! Modules by their weights and the matrices of the simple roots.

ghost use Rattle.std.specs.Prelude.{IfOk, IfErr, length};
ghost use Rattle.lie_const.specs.Signs.{IsSignTable, eta_of};
ghost use Rattle.lie_weight.specs.Along.{AreSteppable, IsMadeAlong, IsFaultAlong, IsMadeFrom, IsFaultFrom};
ghost use Rattle.lie_weight.specs.Completion.{source_powers, IsSource};

use crate::completion::complete;
use crate::faults::ModuleFault;
use crate::filled::filled;
use crate::modules::Module;
use crate::simple_factors::all_factors;
use crate::sources::Source;
use lie_const::Signs;
use lie_datum::{Datum, Vector};
use std::alloc::Global;

/// The module with these weights, the matrices of the simple roots, and the conjugate matrices of the other roots.
pub(crate) fn made(
    alloc: Global,
    datum: &Datum,
    signs: &Signs,
    source: &Source<'_>,
    weights: Vec<Vector>,
) -> Result<Module, ModuleFault>
    requires signs { IsSignTable datum.now signs.now }
    requires weights { AreSteppable weights.items }
    requires source { IsSource datum.now (length weights.items) source.now }
    ensures made { IfOk result (IsMadeFrom datum.now (eta_of signs.now) (source_powers datum.now weights.items source.now) weights.items) }
    ensures fault { IfErr result (IsFaultFrom datum.now (eta_of signs.now) (source_powers datum.now weights.items source.now) weights.items) }
{
    let mut space = filled(alloc, datum, source, weights)?;
    let factors = all_factors(alloc, datum, &space)?;
    match complete(alloc, datum, signs, &factors, &mut space) {
        Ok(()) => Ok(space),
        Err(fault) => Err(fault),
    }
}

/// The module with the steps along these weights by the simple roots, and the conjugate matrices of the other roots.
pub(crate) fn along(
    alloc: Global,
    datum: &Datum,
    signs: &Signs,
    weights: Vec<Vector>,
) -> Result<Module, ModuleFault>
    requires signs { IsSignTable datum.now signs.now }
    requires weights { AreSteppable weights.items }
    ensures made { IfOk result (IsMadeAlong datum.now (eta_of signs.now) weights.items) }
    ensures fault { IfErr result (IsFaultAlong datum.now (eta_of signs.now) weights.items) }
{
    made(alloc, datum, signs, &Source::Steps, weights)
}
