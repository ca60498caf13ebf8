//! The test of the signs.

ghost use Rattle.std.specs.Prelude.{◌≡◌, ◌+◌, ◌*◌, ◌-◌, ◌<◌, ◌≤◌, ◌<ℤ◌, ◌↔◌, ◌⊎◌, IsTrue, pos, negsuc, neg_ℤ, IfOk, IfErr, OnOk, length, slice_index_or, unsigned_abs};
ghost use Rattle.lie_datum.specs.Numbers.{place};
ghost use Rattle.lie_datum.specs.RootDatum.{IsSimpleIndex};
ghost use Rattle.lie_datum.specs.RootList.{IsNumber};
ghost use Rattle.lie_const.specs.Modules.{dimension, IsModule};
ghost use Rattle.lie_const.specs.Adjoint.{adjoint_dimension, IsAdjointOf};
ghost use Rattle.lie_const.specs.Signs.{sign_entry, HasSignCount};
ghost use Rattle.lie_weight.specs.Laws.{HasSmallMatrices};
ghost use Rattle.lie_audit.specs.SignAnswers.{IsSignFault, AreTestedSigns};
ghost use Rattle.lie_audit.specs.SignParts.{AreTested, IsAsked, IsSign, entry_bound};

use crate::entries::weyl_entry;
use crate::faults::SignFault;
use lie_const::Signs;
use lie_datum::{Datum, RootId};
use lie_weight::{Module, adjoint_is_small};
use std::alloc::Global;

/// Whether a sign is 1 or -1.
fn is_unit(value: i128) -> bool
    ensures { IsTrue result ↔ IsSign value }
{
    value == 1 || value == -1
}

/// Whether s is a_i or its opposite.
fn is_own(i: usize, s: RootId) -> bool
    requires { i ≤ 8 }
    ensures { IsTrue result ↔ ((s ≡ pos i) ⊎ (s ≡ neg_ℤ (pos i))) }
{
    s.number() == i as i32 || s.number() == -(i as i32)
}

/// Whether a sign is -1 at a_i and at its opposite.
fn is_own_sign(i: usize, s: RootId, value: i128) -> bool
    requires { i ≤ 8 }
    ensures { IsTrue result ↔ ((s ≡ pos i) ⊎ (s ≡ neg_ℤ (pos i)) → value ≡ negsuc 0) }
{
    if is_own(i, s) { value == -1 } else { true }
}

/// Whether a sign at a negative root is the other one.
fn is_other_sign(s: RootId, value: i128, other: i128) -> bool
    ensures { IsTrue result ↔ (s <ℤ pos 0 → value ≡ other) }
{
    if s.number() < 0 { value == other } else { true }
}

/// Whether a sign is as it should be, where the opposite root has the other sign.
fn is_asked(i: usize, s: RootId, value: i128, other: i128) -> bool
    requires { i ≤ 8 }
    ensures { IsTrue result ↔ IsAsked i s value other }
{
    is_unit(value) && is_own_sign(i, s, value) && is_other_sign(s, value, other)
}

/// The sign of i and the opposite of a negative root, which stands in the table; for a positive root the sign itself.
fn other_sign(datum: &Datum, i: usize, s: RootId, value: i128, table: &[i8]) -> i128
    requires index { IsSimpleIndex datum.now.base i }
    requires number { IsNumber datum.now s }
    requires count { length table.now ≡ (i - 1) * (2 * length datum.now.positive) + place (length datum.now.positive) s }
    requires size { unsigned_abs value ≤ entry_bound }
    ensures size { unsigned_abs result ≤ entry_bound }
    ensures value { s <ℤ pos 0 → result ≡ slice_index_or table.now ((i - 1) * (2 * length datum.now.positive) + place (length datum.now.positive) (neg_ℤ s)) (pos 1) }
{
    datum.loaded();
    if s.number() > 0 {
        return value;
    }
    let m = datum.m();
    i128::from(table[(i - 1) * (2 * m) + s.opposite().place(m)])
}

/// Tests the sign of i and s, and writes it behind those before it.
fn add_sign(
    alloc: Global,
    datum: &Datum,
    adjoint: &Module,
    i: usize,
    s: RootId,
    table: &mut Vec<i8>,
) -> Result<(), SignFault>
    requires index { IsSimpleIndex datum.now.base i }
    requires number { IsNumber datum.now s }
    requires adjoint { IsModule datum.now adjoint.now }
    requires small { HasSmallMatrices datum.now adjoint.now }
    requires dimension { dimension adjoint.now ≡ adjoint_dimension datum.now }
    requires tested { AreTested datum.now adjoint.now table.old.items i (place (length datum.now.positive) s) }
    ensures ok { OnOk result (AreTested datum.now adjoint.now table.new.items i (place (length datum.now.positive) s + 1)) }
    ensures err { IfErr result (IsSignFault datum.now adjoint.now) }
{
    datum.loaded();
    let value = weyl_entry(alloc, datum, adjoint, i, s)?;
    let other = other_sign(datum, i, s, value, table);
    if !is_asked(i, s, value, other) {
        return Err(SignFault::Sign(i, s, value));
    }
    table.push(value as i8)?;
    Ok(())
}

/// Tests the signs of i, and writes them behind those before them.
fn add_signs(
    alloc: Global,
    datum: &Datum,
    adjoint: &Module,
    i: usize,
    table: &mut Vec<i8>,
) -> Result<(), SignFault>
    requires index { IsSimpleIndex datum.now.base i }
    requires adjoint { IsModule datum.now adjoint.now }
    requires small { HasSmallMatrices datum.now adjoint.now }
    requires dimension { dimension adjoint.now ≡ adjoint_dimension datum.now }
    requires tested { AreTested datum.now adjoint.now table.old.items i 0 }
    ensures ok { OnOk result (AreTested datum.now adjoint.now table.new.items (i + 1) 0) }
    ensures err { IfErr result (IsSignFault datum.now adjoint.now) }
{
    let m = datum.m();
    for place in 0..2 * m {
        add_sign(alloc, datum, adjoint, i, RootId::at(place, m), table)?;
    }
    Ok(())
}

/// The signs of the Weyl representatives, read off the adjoint module of the datum; or the first, for i rising and
/// the roots in the full order, that is not as it should be.
pub fn signs(alloc: Global, datum: &Datum, adjoint: &Module) -> Result<Signs, SignFault>
    requires { IsAdjointOf datum.now adjoint.now }
    ensures ok { IfOk result (AreTestedSigns datum.now adjoint.now) }
    ensures count { IfOk result HasSignCount }
    ensures err { IfErr result (IsSignFault datum.now adjoint.now) }
{
    datum.loaded();
    adjoint_is_small();
    let mut table = Vec::new(alloc);
    for i in 1..datum.l() + 1 {
        add_signs(alloc, datum, adjoint, i, &mut table)?;
    }
    Ok(Signs::of(datum, table))
}
