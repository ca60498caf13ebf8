//! Whether a module is covering.

ghost use Rattle.std.specs.Prelude.{◌≡◌, ℕ, ◌+◌, ◌<◌, ◌≤◌, pos, IsTrue, ◌↔◌, MatchOption, slice_index_or, []};
ghost use Rattle.lie_datum.specs.Vectors.{times};
ghost use Rattle.lie_datum.specs.RootDatum.{IsWithin};
ghost use Rattle.lie_datum.specs.RootList.{IsNumber};
ghost use Rattle.lie_const.specs.Modules.{IsModule, dimension};
ghost use Rattle.lie_identities.specs.Audit.{HasLightWeights};
ghost use Rattle.lie_identities.specs.Covers.{IsLiveAt, IsLive, less_axis, IsCovered, IsAxisCovered, IsFirstDead, IsFirstUncovered, Covers};
ghost use Rattle.lie_identities.specs.CoverParts.{IsLiveColumn, LowersToZero, IsCoveredTimes};

use crate::cover_lines::{CoverSet, unit};
use lie_datum::{Datum, RootId, Vector};
use lie_field::Field;
use lie_mat::Mat;
use lie_orbit::{less_multiple, lower};
use lie_ring::Ints;
use lie_weight::Module;
use thiserror::Error;

/// The weights are taken this often at most.
const MOST: u8 = 8;

/// What a covering module has and this one has not; `specs/Covers.antt` says when each one comes.
#[derive(Debug, PartialEq, Eq, Drop, Error)]
pub enum CoverFault {
    /// The first positive root whose matrix is 0 over the field.
    #[error("the matrix of root {} is 0 over the field", .0.number())]
    Dead(RootId),
    /// The first axis, counted from 1, that no weight covers and that has no cover line.
    #[error("axis {0} is not covered")]
    Uncovered(usize),
}

/// Whether a column has an entry that is not 0 in the field.
fn is_live_column(field: &Field, matrix: &Mat<Ints>, col: usize) -> bool
    requires { col < matrix.now.width }
    ensures { IsTrue result ↔ IsLiveColumn field.now matrix.now col }
{
    let mut from = 0;
    while let Some((row, entry)) = matrix.next_kept(from, col) {
        if field.integer(*entry).number() != 0 {
            return true;
        }
        from = row + 1;
    }
    false
}

/// Whether an entry of E_r^(1) is not 0 in the field.
fn is_live(field: &Field, datum: &Datum, space: &Module, r: RootId) -> bool
    requires space { IsModule datum.now space.now }
    requires number { IsNumber datum.now r }
    ensures { IsTrue result ↔ IsLiveAt field.now space.now r }
{
    if space.top(r) == 0 {
        return false;
    }
    let matrix = space.power(r, 1);
    for col in 0..space.dim() {
        if is_live_column(field, matrix, col) {
            return true;
        }
    }
    false
}

/// The first positive root whose matrix is 0 over the field.
fn first_dead(field: &Field, datum: &Datum, space: &Module) -> Option<RootId>
    requires { IsModule datum.now space.now }
    ensures { MatchOption result (IsLive field.now datum.now space.now) (IsFirstDead field.now datum.now space.now) }
{
    datum.loaded();
    let positive = datum.m();
    for place in 0..positive {
        let r = RootId::at(place, positive);
        if !is_live(field, datum, space, r) {
            return Some(r);
        }
    }
    None
}

/// A multiple of a weight.
fn multiple(by: u8, weight: &Vector) -> Vector
    requires weight { IsWithin 1000000 weight.now }
    requires by { by ≤ 8 }
    ensures { result ≡ times (pos by) weight.now }
{
    let mut multiple = *weight;
    for k in 0..8 {
        multiple[k] *= i128::from(by);
    }
    multiple
}

/// A multiple of a weight less the unit vector of an axis, which counts from 1.
pub fn less_axis(times: u8, weight: &Vector, axis: usize) -> Vector
    requires weight { IsWithin 1000000 weight.now }
    requires times { times ≤ 8 }
    requires axis { (1 ≤ axis) × (axis ≤ 8) }
    ensures value { result ≡ less_axis times weight.now axis }
    ensures bound { IsWithin 8000001 result }
{
    less_multiple(&multiple(times, weight), 1, &unit(axis))
}

/// Whether a weight, taken so often, covers an axis.
fn lowers_to_zero(datum: &Datum, times: u8, weight: &Vector, axis: usize) -> bool
    requires weight { IsWithin 1000000 weight.now }
    requires times { times ≤ 8 }
    requires axis { (1 ≤ axis) × (axis ≤ 8) }
    ensures { IsTrue result ↔ LowersToZero datum.now (less_axis times weight.now axis) }
{
    datum.loaded();
    lower(datum, &less_axis(times, weight, axis)) == [0; 8]
}

/// Whether a weight of the module, taken so often, covers an axis.
fn is_covered_times(datum: &Datum, space: &Module, times: u8, axis: usize) -> bool
    requires light { HasLightWeights space.now }
    requires times { times ≤ 8 }
    requires axis { (1 ≤ axis) × (axis ≤ 8) }
    ensures { IsTrue result ↔ IsCoveredTimes datum.now space.now times axis }
{
    for a in 0..space.dim() {
        if lowers_to_zero(datum, times, space.weight(a), axis) {
            return true;
        }
    }
    false
}

/// Whether a weight of the module covers an axis, which counts from 1.
fn is_covered(datum: &Datum, space: &Module, axis: usize) -> bool
    requires light { HasLightWeights space.now }
    requires axis { (1 ≤ axis) × (axis ≤ 8) }
    ensures { IsTrue result ↔ IsCovered datum.now space.now axis }
{
    for times in 0..MOST + 1 {
        if is_covered_times(datum, space, times, axis) {
            return true;
        }
    }
    false
}

/// Whether an axis has a cover line, or a weight of the module covers it.
fn is_axis_covered(datum: &Datum, space: &Module, lines: &CoverSet, axis: usize) -> bool
    requires light { HasLightWeights space.now }
    requires axis { (1 ≤ axis) × (axis ≤ 8) }
    ensures { IsTrue result ↔ IsAxisCovered datum.now space.now lines.now axis }
{
    match lines.get(axis) {
        Some(_) => true,
        None => is_covered(datum, space, axis),
    }
}

/// The first axis that is not covered.
fn first_uncovered(datum: &Datum, space: &Module, lines: &CoverSet) -> Option<usize>
    requires { HasLightWeights space.now }
    ensures { MatchOption result ((j : ℕ) → 1 ≤ j → j ≤ datum.now.base.dim → IsAxisCovered datum.now space.now lines.now j) (IsFirstUncovered datum.now space.now lines.now) }
{
    datum.loaded();
    for axis in 0..datum.d() {
        if !is_axis_covered(datum, space, lines, axis + 1) {
            return Some(axis + 1);
        }
    }
    None
}

/// Tests whether a module is covering, with these cover lines.
pub(crate) fn module_covers(
    field: &Field,
    datum: &Datum,
    space: &Module,
    lines: &CoverSet,
) -> Result<(), CoverFault>
    requires space { IsModule datum.now space.now }
    requires light { HasLightWeights space.now }
    ensures { Covers field.now datum.now space.now lines.now result }
{
    if let Some(r) = first_dead(field, datum, space) {
        return Err(CoverFault::Dead(r));
    }
    match first_uncovered(datum, space, lines) {
        Some(axis) => Err(CoverFault::Uncovered(axis)),
        None => Ok(()),
    }
}
