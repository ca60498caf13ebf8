//! The factors of the simple indices.

ghost use Rattle.std.specs.Prelude.{◌≤◌, ◌<◌, ◌+◌, pos, neg_ℤ, IfOk};
ghost use Rattle.lie_datum.specs.RootDatum.{rank};
ghost use Rattle.lie_weight.specs.Factors.{HasSmallPowers, AreElements, AreModuleFactors};
ghost use Rattle.lie_weight.specs.Completion.{IsSmallDraft, AreAllFactors};

use crate::elements::{Elements, elements_of};
use crate::factors::{Factors, sandwich};
use crate::modules::Module;
use lie_datum::Datum;
use std::alloc::{AllocError, Global};

/// The factors that the elements of a simple root and of its negative make.
fn factors_of(
    alloc: Global,
    space: &Module,
    index: usize,
    up: &Elements,
    down: &Elements,
) -> Result<Factors, AllocError>
    requires up_powers { HasSmallPowers space.now (pos index) }
    requires down_powers { HasSmallPowers space.now (neg_ℤ (pos index)) }
    requires up { AreElements space.now (pos index) up.now }
    requires down { AreElements space.now (neg_ℤ (pos index)) down.now }
    ensures { IfOk result (AreModuleFactors space.now index) }
{
    let _ = (space.dim(), index);
    let element = sandwich(alloc, &up.plus, &down.minus)?;
    let inverse = sandwich(alloc, &up.minus, &down.plus)?;
    let absolute = sandwich(alloc, &up.absolute, &down.absolute)?;
    Ok(Factors {
        element,
        inverse,
        absolute,
    })
}

/// The factors of the i-th simple index, with i counted from 0.
fn simple_factors(
    alloc: Global,
    datum: &Datum,
    space: &Module,
    i: usize,
) -> Result<Factors, AllocError>
    requires index { i < rank datum.now.base }
    requires draft { IsSmallDraft datum.now space.now }
    ensures { IfOk result (AreModuleFactors space.now (i + 1)) }
{
    datum.loaded();
    let simple = datum.simple(i + 1);
    let up = elements_of(alloc, space, simple)?;
    let down = elements_of(alloc, space, simple.opposite())?;
    factors_of(alloc, space, i + 1, &up, &down)
}

/// The factors of each simple index.
pub(crate) fn all_factors(
    alloc: Global,
    datum: &Datum,
    space: &Module,
) -> Result<Vec<Factors>, AllocError>
    requires { IsSmallDraft datum.now space.now }
    ensures { IfOk result (λ list. AreAllFactors datum.now space.now list.items) }
{
    let mut list = Vec::new(alloc);
    for i in 0..datum.l() {
        list.push(simple_factors(alloc, datum, space, i)?)?;
    }
    Ok(list)
}
