//! The places of a module, by falling level of their weights.

ghost use Rattle.std.specs.Prelude.{◌≡◌, ◌≤◌, ◌*◌, IfOk, length, map, unsigned_abs};
ghost use Rattle.lie_datum.specs.Laws.{positive_coroots};
ghost use Rattle.lie_datum.specs.RootDatum.{IsWithin};
ghost use Rattle.lie_datum.specs.Vectors.{pairing};
ghost use Rattle.lie_identities.specs.Audit.{HasLightWeights};
ghost use Rattle.lie_reduce.specs.Places.{ArePlaced, AreInOrder, placed_number};

use lie_datum::{Datum, Vector, pairing};
use lie_weight::Module;
use std::alloc::{AllocError, Global};
use std::cmp::Reverse;

/// A place with its weight and the level of the weight. The order of these is the order of the places.
#[derive(Clone, Copy, PartialEq, Eq, PartialOrd, Ord)]
pub(crate) struct Placed {
    pub(crate) level: Reverse<i128>,
    pub(crate) weight: Reverse<Vector>,
    pub(crate) place: usize,
}

/// The pairing of a weight with the sum of the positive coroots.
fn level(datum: &Datum, weight: &Vector) -> i128
    requires { IsWithin 1000000 weight.now }
    ensures value { result ≡ pairing weight.now (positive_coroots datum.now) }
    ensures long { length weight.now ≡ 8 }
{
    datum.loaded();
    let mut sum = 0;
    for k in 0..datum.m() {
        sum += pairing(weight, datum.coroot(datum.root_at(k)));
    }
    sum
}

/// The places with their weights and levels.
fn with_levels(alloc: Global, datum: &Datum, space: &Module) -> Result<Vec<Placed>, AllocError>
    requires { HasLightWeights space.now }
    ensures { IfOk result (λ list. ArePlaced datum.now space.now list.items) }
{
    let mut list = Vec::new(alloc);
    for place in 0..space.dim() {
        let weight = space.weight(place);
        list.push(Placed {
            level: Reverse(level(datum, weight)),
            weight: Reverse(*weight),
            place,
        })?;
    }
    Ok(list)
}

/// The places alone, in the same order.
fn without_levels(alloc: Global, list: &[Placed]) -> Result<Vec<usize>, AllocError>
    ensures { IfOk result (λ places. places.items ≡ map placed_number list.now) }
{
    let mut places = Vec::new(alloc);
    for p in list {
        places.push(p.place)?;
    }
    Ok(places)
}

/// The places by falling level of their weights; those of one weight stand together.
pub(crate) fn places_in_order(
    alloc: Global,
    datum: &Datum,
    space: &Module,
) -> Result<Vec<usize>, AllocError>
    requires { HasLightWeights space.now }
    ensures { IfOk result (λ places. AreInOrder datum.now space.now places.items) }
{
    let mut list = with_levels(alloc, datum, space)?;
    list.sort()?;
    without_levels(alloc, &list)
}
