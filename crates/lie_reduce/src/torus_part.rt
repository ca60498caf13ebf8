//! The torus vector of a diagonal matrix.

ghost use Rattle.std.specs.Prelude.{◌≡◌, ◌+◌, ◌*◌, ◌^◌, ◌<◌, ◌≤◌, ◌≤ℤ◌, ℕ, ℤ, pos, [], IfOk, IsTrue, ◌↔◌, MatchOption, length, slice_index_or};
ghost use Rattle.lie_ring.specs.Matrices.{entry};
ghost use Rattle.lie_field.specs.FieldRing.{field_ring};
ghost use Rattle.lie_field.specs.Quotient.{power_int};
ghost use Rattle.lie_field.specs.Units.{IsUnit};
ghost use Rattle.lie_datum.specs.RootDatum.{IsWithin};
ghost use Rattle.lie_datum.specs.RootList.{IsNumber};
ghost use Rattle.lie_datum.specs.Numbers.{place};
ghost use Rattle.lie_datum.specs.Vectors.{combination, unit};
ghost use Rattle.lie_orbit.specs.Lowering.{IsHalf, IsHighRoot};
ghost use Rattle.lie_orbit.specs.Weights.{coroot_pairing};
ghost use Rattle.lie_const.specs.Modules.{IsModule, dimension};
ghost use Rattle.lie_identities.specs.Audit.{HasLightWeights, IsGraded};
ghost use Rattle.lie_identities.specs.CoverParts.{IsCoveredTimes, LowersToZero};
ghost use Rattle.lie_identities.specs.Covers.{IsAxisCovered, IsCovered, IsCovering, IsLive, IsLiveAt, less_axis};
ghost use Rattle.lie_reduce.specs.TorusReading.{IsRootValue, AreRootValues, IsValueAt, IsTorusOf};
ghost use Rattle.lie_reduce.specs.Triangular.{IsInvertibleDiagonal};

use crate::coefficients::nonzero_place;
use lie_datum::{Datum, RootId, Vector, pairing};
use lie_dense::Dense;
use lie_field::{Fe, Field};
use lie_identities::{Audited, less_axis};
use lie_letters::Torus;
use lie_orbit::{first_high, lower, lowered_by};
use lie_weight::Module;
use std::alloc::{AllocError, Global};

/// The weights are taken this often at most.
const MOST: u8 = 8;

/// The value of a positive root: the quotient of two entries whose weights stand apart by the root.
fn positive_value(
    alloc: Global,
    field: &Field,
    datum: &Datum,
    space: &Module,
    d: &Dense,
    r: RootId,
) -> Result<Fe, AllocError>
    requires space { IsModule datum.now space.now }
    requires graded { IsGraded datum.now space.now }
    requires number { IsNumber datum.now r }
    requires live { IsLiveAt field.now space.now r }
    requires diagonal { IsInvertibleDiagonal (field_ring field.now) (dimension space.now) d.now }
    ensures { IfOk result (IsRootValue field.now datum.now space.now d.now r) }
{
    let _ = datum.m();
    let vectors = Dense::of_ints(alloc, field, space.power(r, 1))?;
    let _ = d.dim();
    match nonzero_place(&vectors) {
        Some((row, col)) => Ok(field.mul(d.get(row, row), field.inv(d.get(col, col)))),
        None => unreachable!(),
    }
}

/// The values of the roots, in the full order.
fn root_values(
    alloc: Global,
    field: &Field,
    datum: &Datum,
    space: &Module,
    d: &Dense,
) -> Result<Vec<Fe>, AllocError>
    requires space { IsModule datum.now space.now }
    requires graded { IsGraded datum.now space.now }
    requires live { IsLive field.now datum.now space.now }
    requires diagonal { IsInvertibleDiagonal (field_ring field.now) (dimension space.now) d.now }
    ensures { IfOk result (λ values. AreRootValues field.now datum.now space.now d.now (2 * length datum.now.positive) values.items) }
{
    datum.loaded();
    let positive = datum.m();
    let mut values = Vec::new(alloc);
    for place in 0..positive {
        let r = datum.root_at(place);
        values.push(positive_value(alloc, field, datum, space, d, r)?)?;
    }
    for place in 0..positive {
        values.push(field.inv(values[place]))?;
    }
    Ok(values)
}

/// The one of the field.
fn one_of(field: &Field) -> Fe
    ensures { result ≡ 1 }
{
    match field.elem(1) {
        Some(one) => one,
        None => unreachable!(),
    }
}

/// Half of what a root pairs with a weight, rounded down.
fn half(datum: &Datum, weight: &Vector, r: RootId) -> i128
    requires number { IsNumber datum.now r }
    requires high { IsHighRoot datum.now weight.now r }
    requires few { coroot_pairing datum.now weight.now r ≤ℤ pos (10 ^ 32) }
    requires small { IsWithin (25 * 10 ^ 31) weight.now }
    ensures { IsHalf (coroot_pairing datum.now weight.now r) result }
{
    datum.loaded();
    pairing(weight, datum.coroot(r)) / 2
}

/// The value of a vector that lowers to 0, by the values of the roots that are taken away.
fn lowered_value(
    field: &Field,
    datum: &Datum,
    space: &Module,
    d: &Dense,
    values: &[Fe],
    x: &Vector,
) -> Fe
    requires small { IsWithin 8000001 x.now }
    requires lowers { LowersToZero datum.now x.now }
    requires values { AreRootValues field.now datum.now space.now d.now (2 * length datum.now.positive) values.now }
    ensures { IsValueAt field.now space.now d.now x.now result }
{
    // Only the clauses read the module and the matrix.
    let _ = space;
    let _ = d;
    datum.loaded();
    let mut weight = *x;
    let mut value = one_of(field);
    while let Some(r) = first_high(datum, &weight) {
        let times = half(datum, &weight, r);
        value = field.mul(value, field.pow(values[r.place(datum.m())], times));
        weight = lowered_by(datum, &weight, r);
    }
    value
}

/// Whether a weight, taken so often, covers an axis.
fn lowers_to_zero(datum: &Datum, times: u8, weight: &Vector, axis: usize) -> bool
    requires weight { IsWithin 1000000 weight.now }
    requires times { times ≤ 8 }
    requires axis { (1 ≤ axis) × (axis ≤ 8) }
    ensures { IsTrue result ↔ LowersToZero datum.now (less_axis times weight.now axis) }
{
    datum.loaded();
    lower(datum, &less_axis(times, weight, axis)) == [0; 8]
}

/// The first place whose weight, taken so often, covers an axis.
fn covering_place(datum: &Datum, space: &Module, times: u8, axis: usize) -> Option<usize>
    requires light { HasLightWeights space.now }
    requires times { times ≤ 8 }
    requires axis { (1 ≤ axis) × (axis ≤ 8) }
    ensures { MatchOption result (¬ IsCoveredTimes datum.now space.now times axis)
        (λ a. (a < dimension space.now) × LowersToZero datum.now (less_axis times (slice_index_or space.now.weights a []) axis)) }
{
    for a in 0..space.dim() {
        if lowers_to_zero(datum, times, space.weight(a), axis) {
            return Some(a);
        }
    }
    None
}

/// How often a weight is taken to cover an axis, and the first place of such a weight.
fn cover(datum: &Datum, space: &Module, axis: usize) -> Option<(u8, usize)>
    requires light { HasLightWeights space.now }
    requires axis { (1 ≤ axis) × (axis ≤ 8) }
    ensures { MatchOption result (¬ IsCovered datum.now space.now axis)
        (λ p. (p.0 ≤ 8) × (p.1 < dimension space.now) × LowersToZero datum.now (less_axis p.0 (slice_index_or space.now.weights p.1 []) axis)) }
{
    for times in 0..MOST + 1 {
        if let Some(a) = covering_place(datum, space, times, axis) {
            return Some((times, a));
        }
    }
    None
}

/// The entry of the torus vector at an axis, which counts from 1, where a weight covers the axis.
fn axis_value(
    field: &Field,
    datum: &Datum,
    space: &Module,
    d: &Dense,
    values: &[Fe],
    axis: usize,
) -> Fe
    requires light { HasLightWeights space.now }
    requires axis { (1 ≤ axis) × (axis ≤ 8) }
    requires covered { IsCovered datum.now space.now axis }
    requires diagonal { IsInvertibleDiagonal (field_ring field.now) (dimension space.now) d.now }
    requires values { AreRootValues field.now datum.now space.now d.now (2 * length datum.now.positive) values.now }
    ensures { IsValueAt field.now space.now d.now (unit 8 axis) result }
{
    let _ = d.dim();
    match cover(datum, space, axis) {
        Some((times, a)) => {
            let x = less_axis(times, space.weight(a), axis);
            let rest = lowered_value(field, datum, space, d, values, &x);
            let whole = field.pow(d.get(a, a), i128::from(times));
            field.mul(whole, field.inv(rest))
        }
        None => unreachable!(),
    }
}

/// The value of a combination of the weights: the product of powers of the entries of the matrix.
fn line_value(field: &Field, space: &Module, d: &Dense, c: &[i64]) -> Fe
    requires count { length c.now ≡ dimension space.now }
    requires small { IsWithin 1000000 c.now }
    requires diagonal { IsInvertibleDiagonal (field_ring field.now) (dimension space.now) d.now }
    ensures { IsValueAt field.now space.now d.now (combination c.now space.now.weights) result }
{
    let _ = d.dim();
    let mut value = one_of(field);
    for a in 0..space.dim() {
        value = field.mul(value, field.pow(d.get(a, a), i128::from(c[a])));
    }
    value
}

/// The entry of the torus vector at an axis, which counts from 1: by its cover line, if it has one.
fn covered_value(
    field: &Field,
    datum: &Datum,
    audited: &Audited,
    d: &Dense,
    values: &[Fe],
    axis: usize,
) -> Fe
    requires datum { datum.now ≡ audited.now.datum }
    requires axis { (1 ≤ axis) × (axis ≤ datum.now.base.dim) }
    requires covered { IsAxisCovered datum.now audited.now.module audited.now.lines axis }
    requires diagonal { IsInvertibleDiagonal (field_ring field.now) (dimension audited.now.module) d.now }
    requires values { AreRootValues field.now datum.now audited.now.module d.now (2 * length datum.now.positive) values.now }
    ensures { IsValueAt field.now audited.now.module d.now (unit 8 axis) result }
{
    datum.loaded();
    let space = audited.module();
    match audited.cover(axis) {
        Some(c) => line_value(field, space, d, c),
        None => axis_value(field, datum, space, d, values, axis),
    }
}

/// The entries of the torus vector at all axes.
fn axis_values(field: &Field, datum: &Datum, audited: &Audited, d: &Dense, values: &[Fe]) -> [Fe; 8]
    requires datum { datum.now ≡ audited.now.datum }
    requires covering { IsCovering field.now datum.now audited.now.module audited.now.lines }
    requires diagonal { IsInvertibleDiagonal (field_ring field.now) (dimension audited.now.module) d.now }
    requires values { AreRootValues field.now datum.now audited.now.module d.now (2 * length datum.now.positive) values.now }
    ensures long { length result ≡ 8 }
    ensures each { (j : ℕ) → j < datum.now.base.dim → IsValueAt field.now audited.now.module d.now (unit 8 (j + 1)) (slice_index_or result j 0) }
{
    datum.loaded();
    let mut entries = [Fe::zero(); 8];
    for j in 0..datum.d() {
        entries[j] = covered_value(field, datum, audited, d, values, j + 1);
    }
    entries
}

/// The torus vector t for which D is the matrix of h(t), if there is one.
pub(crate) fn torus_of(
    alloc: Global,
    field: &Field,
    datum: &Datum,
    audited: &Audited,
    d: &Dense,
) -> Result<Torus, AllocError>
    requires datum { datum.now ≡ audited.now.datum }
    requires covering { IsCovering field.now datum.now audited.now.module audited.now.lines }
    requires diagonal { IsInvertibleDiagonal (field_ring field.now) (dimension audited.now.module) d.now }
    ensures { IfOk result (IsTorusOf field.now datum.now audited.now.module d.now) }
{
    datum.loaded();
    let values = root_values(alloc, field, datum, audited.module(), d)?;
    let entries = axis_values(field, datum, audited, d, &values);
    match Torus::of(field, &entries[..datum.d()]) {
        Some(t) => Ok(t),
        None => unreachable!(),
    }
}
