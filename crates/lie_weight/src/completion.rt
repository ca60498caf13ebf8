//! The completion of a module in which the simple roots have their matrices: the matrices of the other roots.

ghost use Rattle.std.specs.Prelude.{◌≡◌, ◌≤◌, ◌<◌, ◌+◌, ◌*◌, ℕ, ℤ, ◌^◌, ◌↔◌, MatchOption, IfOk, IfErr, OnOk, IsTrue, length, unsigned_abs};
ghost use Rattle.lie_datum.specs.Numbers.{place};
ghost use Rattle.lie_datum.specs.RootDatum.{rank};
ghost use Rattle.lie_datum.specs.RootList.{IsNumber};
ghost use Rattle.lie_const.specs.Modules.{dimension, top};
ghost use Rattle.lie_const.specs.Signs.{IsSignTable, eta_of};
ghost use Rattle.lie_weight.specs.Conjugation.{absolute_height, IsLowering, IsCompleted, IsHuge};
ghost use Rattle.lie_weight.specs.Factors.{AreFactors, HasSmallWork, IsFirstHugePower, conjugate_power};
ghost use Rattle.lie_weight.specs.Completion.{IsDraft, KeepsAll, Extends, IsPartly, AreAllFactors, IsConjugateFault};

use crate::factors::{Factors, conjugate, test_work};
use crate::faults::ModuleFault;
use crate::modules::Module;
use crate::powers::kept;
use lie_const::Signs;
use lie_datum::{Datum, RootId};
use lie_mat::Mat;
use lie_ring::{Ints, RingStop};
use std::alloc::{AllocError, Global};

/// A simple index, and the root that its reflection makes of another.
#[derive(Clone, Copy)]
struct Lowering {
    index: usize,
    root: RootId,
}

/// The least simple index that lowers a root which is neither simple nor the negative of a simple
/// root, and the root that it is lowered to.
fn lowered(datum: &Datum, r: RootId) -> Option<Lowering>
    requires number { IsNumber datum.now r }
    requires past { rank datum.now.base < unsigned_abs r }
    ensures { MatchOption result ((i : ℕ) (s : ℤ) → ¬ IsLowering datum.now i r s) (λ p. IsLowering datum.now p.index r p.root) }
{
    datum.loaded();
    let height = datum.height(r).unsigned_abs();
    for i in 0..datum.l() {
        let s = datum.reflect(i + 1, r);
        if datum.height(s).unsigned_abs() < height {
            return Some(Lowering {
                index: i + 1,
                root: s,
            });
        }
    }
    None
}

/// The first power of a root on which the work is huge.
fn first_huge_power(
    alloc: Global,
    factors: &Factors,
    space: &Module,
    s: RootId,
) -> Result<Option<u32>, AllocError>
    requires factors { AreFactors (dimension space.now) factors.now }
    requires number { unsigned_abs s ≤ space.now.positive }
    ensures { IfOk result (λ o. MatchOption o (HasSmallWork factors.now space.now s) (IsFirstHugePower factors.now space.now s)) }
{
    for k in 0..space.top(s) {
        match test_work(alloc, factors, space.power(s, k + 1)) {
            Ok(()) => {}
            Err(RingStop::Wide) => return Ok(Some(k + 1)),
            Err(RingStop::NoMemory) => return Err(AllocError),
        }
    }
    Ok(None)
}

/// The powers of a root that are conjugate to those of another root, with a sign.
fn conjugated_powers(
    alloc: Global,
    factors: &Factors,
    sign: i128,
    space: &Module,
    s: RootId,
) -> Result<Vec<Mat<Ints>>, AllocError>
    requires factors { AreFactors (dimension space.now) factors.now }
    requires sign { unsigned_abs sign ≤ 1 }
    requires number { unsigned_abs s ≤ space.now.positive }
    requires few { top space.now s ≤ 16 }
    requires small { HasSmallWork factors.now space.now s }
    ensures { IfOk result (λ list. KeepsAll (dimension space.now) (conjugate_power factors.now sign space.now s) list.items) }
{
    let mut list = Vec::new(alloc);
    let mut power = 1;
    for k in 0..space.top(s) {
        power *= sign;
        list.push(conjugate(alloc, factors, power, space.power(s, k + 1))?)?;
    }
    kept(alloc, space.dim(), list)
}

/// Completes the module at a root that is neither simple nor the negative of a simple root, where
/// it is completed before it.
fn complete_root(
    alloc: Global,
    datum: &Datum,
    signs: &Signs,
    factors: &[Factors],
    space: &mut Module,
    r: RootId,
) -> Result<(), ModuleFault>
    requires number { IsNumber datum.now r }
    requires past { rank datum.now.base < unsigned_abs r }
    requires signs { IsSignTable datum.now signs.now }
    requires factors { AreAllFactors datum.now space.old factors.now }
    requires some { 1 ≤ dimension space.old }
    requires partly { IsPartly datum.now (eta_of signs.now) (absolute_height datum.now r) (place (length datum.now.positive) r) space.old }
    ensures partly { OnOk result (IsPartly datum.now (eta_of signs.now) (absolute_height datum.now r) (place (length datum.now.positive) r + 1) space.new) }
    ensures factors { AreAllFactors datum.now space.new factors.now }
    ensures extends { Extends datum.now space.old space.new }
    ensures fault { IfErr result (IsConjugateFault datum.now (eta_of signs.now) space.new) }
{
    datum.loaded();
    let Some(lower) = lowered(datum, r) else {
        return Ok(());
    };
    let factors = &factors[lower.index - 1];
    match first_huge_power(alloc, factors, space, lower.root) {
        Ok(None) => {}
        Ok(Some(k)) => return Err(ModuleFault::Huge(r, k)),
        Err(_) => return Err(ModuleFault::NoMemory),
    }
    let sign = signs.eta(lower.index, lower.root);
    space.kept();
    match conjugated_powers(alloc, factors, sign, space, lower.root) {
        Ok(powers) => {
            space.set_powers(r, powers);
            Ok(())
        }
        Err(_) => Err(ModuleFault::NoMemory),
    }
}

/// Whether a root is neither simple nor the negative of a simple root.
fn is_past(datum: &Datum, r: RootId) -> bool
    requires { IsNumber datum.now r }
    ensures { IsTrue result ↔ (rank datum.now.base < unsigned_abs r) }
{
    r.number().unsigned_abs() as usize > datum.l()
}

/// Completes the module at the roots of an absolute height, where it is completed at those of less.
fn complete_height(
    alloc: Global,
    datum: &Datum,
    signs: &Signs,
    factors: &[Factors],
    space: &mut Module,
    height: u32,
) -> Result<(), ModuleFault>
    requires signs { IsSignTable datum.now signs.now }
    requires factors { AreAllFactors datum.now space.old factors.now }
    requires some { 1 ≤ dimension space.old }
    requires partly { IsPartly datum.now (eta_of signs.now) height 0 space.old }
    ensures partly { OnOk result (IsPartly datum.now (eta_of signs.now) (height + 1) 0 space.new) }
    ensures factors { AreAllFactors datum.now space.new factors.now }
    ensures extends { Extends datum.now space.old space.new }
    ensures fault { IfErr result (IsConjugateFault datum.now (eta_of signs.now) space.new) }
{
    datum.loaded();
    let positive = datum.m();
    for place in 0..2 * positive {
        let r = RootId::at(place, positive);
        if is_past(datum, r) && datum.height(r).unsigned_abs() == height {
            complete_root(alloc, datum, signs, factors, space, r)?;
        }
    }
    Ok(())
}

/// The greatest absolute height.
fn highest(datum: &Datum) -> u32
    ensures all { (r : ℤ) → IsNumber datum.now r → absolute_height datum.now r ≤ result }
    ensures bound { result ≤ 2 ^ 31 }
{
    datum.loaded();
    let positive = datum.m();
    let mut highest = 0;
    for place in 0..2 * positive {
        highest = datum
            .height(RootId::at(place, positive))
            .unsigned_abs()
            .max(highest);
    }
    highest
}

/// Completes the module at all roots.
pub(crate) fn complete(
    alloc: Global,
    datum: &Datum,
    signs: &Signs,
    factors: &[Factors],
    space: &mut Module,
) -> Result<(), ModuleFault>
    requires signs { IsSignTable datum.now signs.now }
    requires factors { AreAllFactors datum.now space.old factors.now }
    requires some { 1 ≤ dimension space.old }
    requires draft { IsDraft datum.now space.old }
    ensures completed { OnOk result (IsCompleted datum.now (eta_of signs.now) space.new) }
    ensures small { OnOk result ((r : ℤ) (k : ℕ) → ¬ IsHuge datum.now space.new r k) }
    ensures extends { Extends datum.now space.old space.new }
    ensures fault { IfErr result (IsConjugateFault datum.now (eta_of signs.now) space.new) }
{
    for height in 0..highest(datum) + 1 {
        complete_height(alloc, datum, signs, factors, space, height)?;
    }
    Ok(())
}
