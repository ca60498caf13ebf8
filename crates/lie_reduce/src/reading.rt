//! The Weyl element of a matrix, from its pivots.

ghost use Rattle.std.specs.Prelude.{◌≡◌, ◌≢◌, ◌<◌, ◌≤◌, ◌-◌, ℕ, pos, IfOk, MatchOption, length, slice_index_or};
ghost use Rattle.std.specs.List.{All};
ghost use Rattle.lie_ring.specs.Matrices.{AllElem, entry, table};
ghost use Rattle.lie_mat.specs.Parts.{partial_table};
ghost use Rattle.lie_field.specs.FieldRing.{field_ring};
ghost use Rattle.lie_datum.specs.RootDatum.{IsSimpleIndex, IsWithin, rank};
ghost use Rattle.lie_datum.specs.RootList.{IsNumber};
ghost use Rattle.lie_const.specs.Modules.{IsModule, dimension};
ghost use Rattle.lie_identities.specs.Audit.{HasLightWeights};
ghost use Rattle.lie_identities.specs.Covers.{IsLiveAt};
ghost use Rattle.lie_reduce.specs.Pivots.{sorted_entry, IsRootBetween, HasNoRootBetween, IsImage, HasNoImage, AreImages, HasSomeNoImage, ArePlaces};
ghost use Rattle.lie_reduce.specs.Reduction.{CoversFrame, HasPivots};

use crate::coefficients::nonzero_place;
use crate::columns::pivots_of;
use crate::places::places_in_order;
use lie_datum::{Datum, RootId, Vector};
use lie_dense::Dense;
use lie_field::Field;
use lie_identities::Audited;
use lie_letters::Frame;
use lie_orbit::less_multiple;
use lie_weight::Module;
use lie_weyl::Weyl;
use std::alloc::{AllocError, Global};

/// Fills a row of a matrix whose rows and columns stand in another order, where zeros stand.
fn fill_row(m: &Dense, places: &[usize], next: &mut Dense, row: usize)
    requires places { ArePlaces m.now.height places.now }
    requires row { row < m.now.height }
    requires partly { next.old ≡ partial_table 0 m.now.height m.now.height (sorted_entry m.now places.now) row 0 }
    ensures partly { next.new ≡ partial_table 0 m.now.height m.now.height (sorted_entry m.now places.now) row m.now.height }
{
    for j in 0..m.dim() {
        next.set(row, j, m.get(places[row], places[j]));
    }
}

/// The matrix with its rows and columns in the order of the places.
pub(crate) fn sorted(alloc: Global, m: &Dense, places: &[usize]) -> Result<Dense, AllocError>
    requires { ArePlaces m.now.height places.now }
    ensures { IfOk result (λ x. x ≡ table m.now.height m.now.height (sorted_entry m.now places.now)) }
{
    let n = m.dim();
    let mut next = Dense::zero(alloc, n)?;
    for row in 0..n {
        fill_row(m, places, &mut next, row);
    }
    Ok(next)
}

/// The root that leads from the weight y to the weight x.
fn root_between(datum: &Datum, x: &Vector, y: &Vector) -> Option<RootId>
    requires { IsWithin 1000000 x.now }
    ensures { MatchOption result (HasNoRootBetween datum.now x.now y.now) (IsRootBetween datum.now x.now y.now) }
{
    datum.loaded();
    for place in 0..datum.root_count() {
        let r = datum.root_at(place);
        if less_multiple(x, 1, datum.root(r)) == *y {
            return Some(r);
        }
    }
    None
}

/// The root that leads from the weight at one pivot to that at another, at a place where the root
/// vector of r has an entry.
fn image_of(
    alloc: Global,
    field: &Field,
    datum: &Datum,
    space: &Module,
    places: &[usize],
    pivots: &[usize],
    r: RootId,
) -> Result<Option<RootId>, AllocError>
    requires space { IsModule datum.now space.now }
    requires light { HasLightWeights space.now }
    requires number { IsNumber datum.now r }
    requires live { IsLiveAt field.now space.now r }
    requires places { ArePlaces (dimension space.now) places.now }
    requires pivots { ArePlaces (dimension space.now) pivots.now }
    requires onto { (a : ℕ) → a < dimension space.now → (i : ℕ) × (i < dimension space.now) × (slice_index_or places.now i 0 ≡ a) }
    ensures { IfOk result (λ answer. MatchOption answer (HasNoImage field.now datum.now space.now places.now pivots.now r) (IsImage field.now datum.now space.now places.now pivots.now r)) }
{
    let _ = datum.m();
    let _ = space.dim();
    let vectors = Dense::of_ints(alloc, field, space.power(r, 1))?;
    match nonzero_place(&sorted(alloc, &vectors, places)?) {
        Some((row, col)) => {
            let x = space.weight(places[pivots[row]]);
            let y = space.weight(places[pivots[col]]);
            Ok(root_between(datum, x, y))
        }
        None => unreachable!(),
    }
}

/// The images of the simple roots, or None where a simple root has none.
fn images_of(
    alloc: Global,
    field: &Field,
    datum: &Datum,
    space: &Module,
    places: &[usize],
    pivots: &[usize],
) -> Result<Option<Vec<RootId>>, AllocError>
    requires space { IsModule datum.now space.now }
    requires light { HasLightWeights space.now }
    requires live { (i : ℕ) → IsSimpleIndex datum.now.base i → IsLiveAt field.now space.now (pos i) }
    requires places { ArePlaces (dimension space.now) places.now }
    requires pivots { ArePlaces (dimension space.now) pivots.now }
    requires onto { (a : ℕ) → a < dimension space.now → (i : ℕ) × (i < dimension space.now) × (slice_index_or places.now i 0 ≡ a) }
    ensures { IfOk result (λ answer. MatchOption answer (HasSomeNoImage field.now datum.now space.now places.now pivots.now) (λ images. AreImages field.now datum.now space.now places.now pivots.now (rank datum.now.base) images.items)) }
{
    let mut images = Vec::new(alloc);
    for k in 0..datum.l() {
        let r = datum.simple(k + 1);
        match image_of(alloc, field, datum, space, places, pivots, r)? {
            Some(image) => images.push(image)?,
            None => return Ok(None),
        }
    }
    Ok(Some(images))
}

/// The Weyl element of the form whose word has the matrix m; None only where no word has it.
pub fn pivots(
    alloc: Global,
    frame: &Frame,
    audited: &Audited,
    m: &Dense,
) -> Result<Option<Weyl>, AllocError>
    requires covers { CoversFrame frame.now audited.now }
    requires dimension { m.now.height ≡ dimension audited.now.module }
    requires elem { AllElem (field_ring frame.now.field) m.now }
    ensures { IfOk result (HasPivots frame.now audited.now.module m.now) }
{
    frame.lawful();
    let _ = m.dim();
    let space = audited.module();
    let places = places_in_order(alloc, &frame.datum, space)?;
    let rows = sorted(alloc, m, &places)?;
    let found = match pivots_of(alloc, &frame.field, &rows)? {
        Some(found) => found,
        None => return Ok(None),
    };
    match images_of(alloc, &frame.field, &frame.datum, space, &places, &found)? {
        Some(images) => Ok(Weyl::from_images(&frame.datum, &images)),
        None => Ok(None),
    }
}
