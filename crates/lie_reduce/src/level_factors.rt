//! The factors of a matrix by the levels of the places.

ghost use Rattle.std.specs.Prelude.{◌≡◌, ◌<◌, ℕ, IfOk, MatchOption, length, slice_index_or};
ghost use Rattle.lie_ring.specs.Matrices.{AllElem, table};
ghost use Rattle.lie_field.specs.FieldRing.{field_ring};
ghost use Rattle.lie_const.specs.Modules.{dimension};
ghost use Rattle.lie_identities.specs.Audit.{HasLightWeights};
ghost use Rattle.lie_reduce.specs.FormReading.{AreRanks, HasNoLevelFactors, AreOnlyFactors};
ghost use Rattle.lie_reduce.specs.Pivots.{sorted_entry, ArePlaces};

use crate::factors::udl;
use crate::places::places_in_order;
use crate::reading::sorted;
use lie_datum::Datum;
use lie_dense::Dense;
use lie_field::Field;
use lie_weight::Module;
use std::alloc::{AllocError, Global};

/// The rank of a place.
fn rank(places: &[usize], a: usize) -> usize
    requires { (i : ℕ) × (i < length places.now) × (slice_index_or places.now i 0 ≡ a) }
    ensures within { result < length places.now }
    ensures value { slice_index_or places.now result 0 ≡ a }
{
    for i in 0..places.len() {
        if places[i] == a {
            return i;
        }
    }
    unreachable!()
}

/// The ranks of the places.
fn ranks(alloc: Global, places: &[usize]) -> Result<Vec<usize>, AllocError>
    requires { (a : ℕ) → a < length places.now → (i : ℕ) × (i < length places.now) × (slice_index_or places.now i 0 ≡ a) }
    ensures { IfOk result (λ ranks. AreRanks places.now ranks.items) }
{
    let mut ranks = Vec::new(alloc);
    for a in 0..places.len() {
        ranks.push(rank(places, a))?;
    }
    Ok(ranks)
}

/// Three matrices with their rows and columns in another order.
fn three_sorted(
    alloc: Global,
    u: &Dense,
    d: &Dense,
    l: &Dense,
    places: &[usize],
) -> Result<(Dense, Dense, Dense), AllocError>
    requires u { ArePlaces u.now.height places.now }
    requires d { ArePlaces d.now.height places.now }
    requires l { ArePlaces l.now.height places.now }
    ensures u { IfOk result (λ t. t.0 ≡ table u.now.height u.now.height (sorted_entry u.now places.now)) }
    ensures d { IfOk result (λ t. t.1 ≡ table d.now.height d.now.height (sorted_entry d.now places.now)) }
    ensures l { IfOk result (λ t. t.2 ≡ table l.now.height l.now.height (sorted_entry l.now places.now)) }
{
    let first = sorted(alloc, u, places)?;
    let second = sorted(alloc, d, places)?;
    let third = sorted(alloc, l, places)?;
    Ok((first, second, third))
}

/// The factors U, D and L of a matrix, in this order, where U raises levels, D is diagonal and
/// invertible, and L lowers levels; None where it is no product of such factors.
pub(crate) fn level_factors(
    alloc: Global,
    field: &Field,
    datum: &Datum,
    space: &Module,
    m: &Dense,
) -> Result<Option<(Dense, Dense, Dense)>, AllocError>
    requires light { HasLightWeights space.now }
    requires dimension { m.now.height ≡ dimension space.now }
    requires elem { AllElem (field_ring field.now) m.now }
    ensures { IfOk result (λ answer. MatchOption answer (HasNoLevelFactors field.now datum.now space.now m.now) (λ t. AreOnlyFactors field.now datum.now space.now m.now t.0 t.1 t.2)) }
{
    let _ = m.dim();
    let places = places_in_order(alloc, datum, space)?;
    let rows = sorted(alloc, m, &places)?;
    match udl(alloc, field, &rows)? {
        Some((u, d, l)) => {
            let ranks = ranks(alloc, &places)?;
            let factors = three_sorted(alloc, &u, &d, &l, &ranks)?;
            Ok(Some(factors))
        }
        None => Ok(None),
    }
}
