//! The adjoint module.

ghost use Rattle.std.specs.Prelude.{◌≡◌, ◌≢◌, ◌+◌, ◌*◌, ◌≤◌, ◌<◌, neg_ℤ, IfOk, OnOk, Ok, MatchOption, length, map, unsigned_abs, slice_index_or};
ghost use Rattle.std.specs.List.{range_with_len};
ghost use Rattle.lie_datum.specs.Vectors.{pairing};
ghost use Rattle.lie_datum.specs.RootDatum.{IsSimpleIndex, simple_coroot, vector};
ghost use Rattle.lie_datum.specs.RootList.{IsNumber, root_of};
ghost use Rattle.lie_const.specs.CommutatorTerms.{IsPair};
ghost use Rattle.lie_const.specs.ConstantTables.{LoadsConstants, value_of};
ghost use Rattle.lie_const.specs.Adjoint.{IsAdjoint, adjoint_dimension, basis_vector, basis_place, basis_weight};
ghost use Rattle.lie_weight.specs.AdjointParts.{IsBasisAt, IsPartial, IsDividedMatrix, AreFirstDivided, AreDivided, AreAllDivided, coroot_place};
ghost use Rattle.lie_weight.specs.Terms.{IsTermHere, HasNoTerm};

use crate::modules::Module;
use lie_const::{Constants, Term};
use lie_datum::{Datum, RootId, Vector};
use lie_mat::Mat;
use lie_ring::Ints;
use std::alloc::{AllocError, Global};

/// A basis vector of the adjoint module: e_r, or h_i.
pub(crate) enum Basis {
    Root(RootId),
    Coroot(usize),
}

/// The number of basis vectors.
fn dimension(datum: &Datum) -> usize
    ensures value { result ≡ adjoint_dimension datum.now }
    ensures few { result ≤ 248 }
{
    datum.loaded();
    2 * datum.m() + datum.l()
}

/// The basis vector at a place.
fn basis_at(datum: &Datum, place: usize) -> Basis
    requires { place < adjoint_dimension datum.now }
    ensures { IsBasisAt datum.now place result }
{
    datum.loaded();
    let m = datum.m();
    let l = datum.l();
    if place < m {
        Basis::Root(RootId::at(m - place - 1, m))
    } else if place < m + l {
        Basis::Coroot(place - m + 1)
    } else {
        Basis::Root(RootId::at(place - l, m))
    }
}

/// The place of e_r in the basis of the adjoint module, counted from 0.
pub fn place_in_basis(datum: &Datum, r: RootId) -> usize
    requires { IsNumber datum.now r }
    ensures value { result ≡ basis_place datum.now r }
    ensures within { result < adjoint_dimension datum.now }
{
    datum.loaded();
    let m = datum.m();
    let place = r.place(m);
    if place < m {
        m - place - 1
    } else {
        place + datum.l()
    }
}

/// The weight of the basis vector at a place.
fn weight_at(datum: &Datum, place: usize) -> Vector
    requires { place < adjoint_dimension datum.now }
    ensures { result ≡ basis_weight datum.now (basis_vector datum.now place) }
{
    match basis_at(datum, place) {
        Basis::Root(r) => *datum.root(r),
        Basis::Coroot(_) => [0; 8],
    }
}

/// The weights of the basis vectors.
fn weights(alloc: Global, datum: &Datum) -> Result<Vec<Vector>, AllocError>
    ensures { IfOk result (λ v. v.items ≡ map (λ a. basis_weight datum.now (basis_vector datum.now a)) (range_with_len 0 (adjoint_dimension datum.now))) }
{
    let mut weights = Vec::new(alloc);
    for place in 0..dimension(datum) {
        weights.push(weight_at(datum, place))?;
    }
    Ok(weights)
}

/// -<r, a_i^>, which is what the reflection s_i adds to the i-th coefficient of r.
fn negated_pairing(datum: &Datum, r: RootId, i: usize) -> i128
    requires number { IsNumber datum.now r }
    requires index { IsSimpleIndex datum.now.base i }
    ensures value { result ≡ neg_ℤ (pairing (vector datum.now.base (root_of datum.now r)) (simple_coroot datum.now.base i)) }
    ensures bound { unsigned_abs result ≤ 200 }
{
    datum.loaded();
    let image = datum.reflect(i, r);
    datum.coeffs(image)[i - 1] - datum.coeffs(r)[i - 1]
}

/// The term k r + s, if there is one.
fn term(terms: &[Term], k: u8) -> Option<Term>
    ensures { MatchOption result (HasNoTerm terms.now k) (IsTermHere terms.now k) }
{
    for t in terms {
        if t.i == k && t.j == 1 {
            return Some(*t);
        }
    }
    None
}

/// Fills the column of e_s, where s is neither r nor -r.
fn fill_string(
    datum: &Datum,
    consts: &Constants,
    r: RootId,
    s: RootId,
    k: u8,
    matrix: &mut Mat<Ints>,
) -> Result<(), AllocError>
    requires consts { LoadsConstants datum.now (Ok consts.now) }
    requires pair { IsPair datum.now r s }
    requires first { 1 ≤ k }
    requires last { k ≤ 3 }
    requires partly { IsPartial datum.now (value_of consts.now) r k matrix.old (basis_place datum.now s) 0 }
    ensures { OnOk result (IsPartial datum.now (value_of consts.now) r k matrix.new (basis_place datum.now s + 1) 0) }
{
    datum.loaded();
    match term(consts.c(r, s), k) {
        Some(t) => matrix.set(
            &Ints,
            place_in_basis(datum, t.root),
            place_in_basis(datum, s),
            t.value,
        ),
        None => Ok(()),
    }
}

/// Fills the column of e_(-r): h_r, then -e_r.
fn fill_opposite(
    datum: &Datum,
    consts: &Constants,
    r: RootId,
    k: u8,
    matrix: &mut Mat<Ints>,
) -> Result<(), AllocError>
    requires number { IsNumber datum.now r }
    requires first { 1 ≤ k }
    requires partly { IsPartial datum.now (value_of consts.now) r k matrix.old (basis_place datum.now (neg_ℤ r)) 0 }
    ensures { OnOk result (IsPartial datum.now (value_of consts.now) r k matrix.new (basis_place datum.now (neg_ℤ r) + 1) 0) }
{
    datum.loaded();
    let col = place_in_basis(datum, r.opposite());
    if k == 1 {
        return fill_coroots(datum, consts, r, col, matrix);
    }
    if k == 2 {
        return matrix.set(&Ints, place_in_basis(datum, r), col, -1);
    }
    Ok(())
}

/// Writes the coefficients of the coroot of r at the places of the h_i.
fn fill_coroots(
    datum: &Datum,
    consts: &Constants,
    r: RootId,
    col: usize,
    matrix: &mut Mat<Ints>,
) -> Result<(), AllocError>
    requires number { IsNumber datum.now r }
    requires col { col ≡ basis_place datum.now (neg_ℤ r) }
    requires partly { IsPartial datum.now (value_of consts.now) r 1 matrix.old col 0 }
    ensures { OnOk result (IsPartial datum.now (value_of consts.now) r 1 matrix.new (col + 1) 0) }
{
    let _ = consts;
    datum.loaded();
    let m = datum.m();
    for i in 0..datum.l() {
        matrix.set(&Ints, m + i, col, datum.co_coeffs(r)[i])?;
    }
    Ok(())
}

/// Fills the column of h_i.
fn fill_coroot(
    datum: &Datum,
    consts: &Constants,
    r: RootId,
    i: usize,
    k: u8,
    matrix: &mut Mat<Ints>,
) -> Result<(), AllocError>
    requires number { IsNumber datum.now r }
    requires index { IsSimpleIndex datum.now.base i }
    requires first { 1 ≤ k }
    requires partly { IsPartial datum.now (value_of consts.now) r k matrix.old (coroot_place datum.now i) 0 }
    ensures { OnOk result (IsPartial datum.now (value_of consts.now) r k matrix.new (coroot_place datum.now i + 1) 0) }
{
    let _ = consts;
    datum.loaded();
    if k != 1 {
        return Ok(());
    }
    matrix.set(
        &Ints,
        place_in_basis(datum, r),
        datum.m() + i - 1,
        negated_pairing(datum, r, i),
    )
}

/// Fills a column.
fn fill_column(
    datum: &Datum,
    consts: &Constants,
    r: RootId,
    k: u8,
    col: usize,
    matrix: &mut Mat<Ints>,
) -> Result<(), AllocError>
    requires consts { LoadsConstants datum.now (Ok consts.now) }
    requires number { IsNumber datum.now r }
    requires first { 1 ≤ k }
    requires last { k ≤ 3 }
    requires col { col < adjoint_dimension datum.now }
    requires partly { IsPartial datum.now (value_of consts.now) r k matrix.old col 0 }
    ensures { OnOk result (IsPartial datum.now (value_of consts.now) r k matrix.new (col + 1) 0) }
{
    datum.loaded();
    match basis_at(datum, col) {
        Basis::Coroot(i) => fill_coroot(datum, consts, r, i, k, matrix),
        Basis::Root(s) => {
            if s == r {
                return Ok(());
            }
            if s == r.opposite() {
                return fill_opposite(datum, consts, r, k, matrix);
            }
            fill_string(datum, consts, r, s, k, matrix)
        }
    }
}

/// The matrix of e_r^k / k!, for k in 1..=3.
fn divided(
    alloc: Global,
    datum: &Datum,
    consts: &Constants,
    r: RootId,
    k: u8,
) -> Result<Mat<Ints>, AllocError>
    requires consts { LoadsConstants datum.now (Ok consts.now) }
    requires number { IsNumber datum.now r }
    requires first { 1 ≤ k }
    requires last { k ≤ 3 }
    ensures { IfOk result (IsDividedMatrix datum.now (value_of consts.now) r k) }
{
    let n = dimension(datum);
    let mut matrix = Mat::zero(alloc, n, n)?;
    for col in 0..n {
        fill_column(datum, consts, r, k, col, &mut matrix)?;
    }
    Ok(matrix)
}

/// The matrices of e_r and e_r^2 / 2.
fn first_powers(
    alloc: Global,
    datum: &Datum,
    consts: &Constants,
    r: RootId,
) -> Result<Vec<Mat<Ints>>, AllocError>
    requires consts { LoadsConstants datum.now (Ok consts.now) }
    requires number { IsNumber datum.now r }
    ensures { IfOk result (λ v. AreFirstDivided datum.now (value_of consts.now) r 2 v.items) }
{
    let mut powers = Vec::new(alloc);
    powers.push(divided(alloc, datum, consts, r, 1)?)?;
    powers.push(divided(alloc, datum, consts, r, 2)?)?;
    Ok(powers)
}

/// The matrices of e_r^k / k! up to the last that is not 0, which is the second or the third.
fn divided_powers(
    alloc: Global,
    datum: &Datum,
    consts: &Constants,
    r: RootId,
) -> Result<Vec<Mat<Ints>>, AllocError>
    requires consts { LoadsConstants datum.now (Ok consts.now) }
    requires number { IsNumber datum.now r }
    ensures { IfOk result (λ v. AreDivided datum.now (value_of consts.now) r v.items) }
{
    datum.loaded();
    let mut powers = first_powers(alloc, datum, consts, r)?;
    let third = divided(alloc, datum, consts, r, 3)?;
    let n = dimension(datum);
    let zero = Mat::zero(alloc, n, n)?;
    if third.same(&Ints, &zero) {
        return Ok(powers);
    }
    powers.push(third)?;
    Ok(powers)
}

/// The matrices of all roots in the full order.
fn all_powers(
    alloc: Global,
    datum: &Datum,
    consts: &Constants,
) -> Result<Vec<Vec<Mat<Ints>>>, AllocError>
    requires { LoadsConstants datum.now (Ok consts.now) }
    ensures { IfOk result (λ v. AreAllDivided datum.now (value_of consts.now) (2 * length datum.now.positive) (map (λ w. w.items) v.items)) }
{
    let m = datum.m();
    let mut powers = Vec::new(alloc);
    for place in 0..2 * m {
        powers.push(divided_powers(alloc, datum, consts, RootId::at(place, m))?)?;
    }
    Ok(powers)
}

impl Module {
    /// The adjoint module of a datum, with its constants.
    pub fn adjoint(alloc: Global, datum: &Datum, consts: &Constants) -> Result<Module, AllocError>
        requires { LoadsConstants datum.now (Ok consts.now) }
        ensures { IfOk result (IsAdjoint datum.now (value_of consts.now)) }
    {
        datum.loaded();
        let weights = weights(alloc, datum)?;
        let powers = all_powers(alloc, datum, consts)?;
        Ok(Module {
            positive: datum.m(),
            weights,
            powers,
        })
    }
}
