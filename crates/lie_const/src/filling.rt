//! The values in their order of determination.

ghost use Rattle.std.specs.Prelude.{◌≡◌, ◌≢◌, ℤ, pos, neg_ℤ, ◌+ℤ◌, ◌*ℤ◌, ◌<ℤ◌, ◌⊎◌, ◌≤◌, ◌^◌, length, Err, unsigned_abs, ⊤, MatchOption, MatchResult};
ghost use Rattle.lie_datum.specs.RootList.{IsNumber};
ghost use Rattle.lie_const.specs.StructureConstants.{Place, IsSpecial, IsExtraspecial, IsForced, StandsFor, at_part, gap};
ghost use Rattle.lie_const.specs.ConstantTables.{LoadsConstants};
ghost use Rattle.lie_const.specs.Filling.{table_in, IsUnitSolution, HasNoSolution, IsFilled, next};

use crate::faults::ConstFault;
use crate::values::Values;
use lie_datum::{Datum, RootId};
use std::alloc::Global;

/// The values of all pairs, or the first pair whose forced value fails.
pub(crate) fn determined(alloc: Global, datum: &Datum) -> Result<Values, ConstFault>
    ensures { MatchResult result
        (λ v. (v.positive ≡ length datum.now.positive) × StandsFor datum.now (table_in v))
        (λ e. LoadsConstants datum.now (Err e)) }
{
    datum.loaded();
    let mut values = Values::zero(alloc, datum.m())?;
    for k in 0..datum.m() {
        determine_sum(datum, &mut values, RootId::at(k, datum.m()))?;
    }
    Ok(values)
}

/// Determines the pairs that belong to the sum k.
fn determine_sum(datum: &Datum, values: &mut Values, k: RootId) -> Result<(), ConstFault>
    requires number { IsNumber datum.now k }
    requires positive { pos 0 <ℤ k }
    requires filled { IsFilled datum.now values.old (at_part k (pos 1) 0) }
    ensures { MatchResult result
        (λ _. IsFilled datum.now values.new (at_part (k +ℤ pos 1) (pos 1) 0))
        (λ e. LoadsConstants datum.now (Err e)) }
{
    datum.loaded();
    let Some((r0, s0)) = extraspecial(datum, k) else {
        return Ok(());
    };
    for at in 0..k.place(datum.m()) {
        determine_first(datum, values, RootId::at(at, datum.m()), k, r0, s0)?;
    }
    Ok(())
}

/// Determines the special pair of the sum k that begins with r, and its mixed pairs, if there is one.
fn determine_first(
    datum: &Datum,
    values: &mut Values,
    r: RootId,
    k: RootId,
    r0: RootId,
    s0: RootId,
) -> Result<(), ConstFault>
    requires r { IsNumber datum.now r }
    requires positive { pos 0 <ℤ r }
    requires k { IsNumber datum.now k }
    requires extraspecial { IsExtraspecial datum.now r0 s0 k }
    requires filled { IsFilled datum.now values.old (at_part k r 0) }
    ensures { MatchResult result (λ _. IsFilled datum.now values.new (at_part k (r +ℤ pos 1) 0))
        (λ e. LoadsConstants datum.now (Err e)) }
{
    datum.loaded();
    match partner(datum, r, k) {
        Some(s) => determine_pair(datum, values, r, s, k, r0, s0),
        None => Ok(()),
    }
}

/// The extraspecial pair of the sum k, if k is a sum of positive roots.
fn extraspecial(datum: &Datum, k: RootId) -> Option<(RootId, RootId)>
    requires number { IsNumber datum.now k }
    requires positive { pos 0 <ℤ k }
    ensures { MatchOption result ((r s : ℤ) → ¬ IsSpecial datum.now r s k) (λ x. IsExtraspecial datum.now x.0 x.1 k) }
{
    datum.loaded();
    for at in 0..k.place(datum.m()) {
        let r = RootId::at(at, datum.m());
        if let Some(s) = partner(datum, r, k) {
            return Some((r, s));
        }
    }
    None
}

/// The root s with which r is a special pair of the sum k.
fn partner(datum: &Datum, r: RootId, k: RootId) -> Option<RootId>
    requires r { IsNumber datum.now r }
    requires positive { pos 0 <ℤ r }
    requires k { IsNumber datum.now k }
    ensures { MatchOption result ((s : ℤ) → ¬ IsSpecial datum.now r s k) (λ s. IsSpecial datum.now r s k) }
{
    datum.loaded();
    let s = datum.sum(k, r.opposite())?;
    if r.number() < s.number() {
        Some(s)
    } else {
        None
    }
}

/// Determines the special pair (r, s) of the sum k, whose extraspecial pair is (r0, s0), and its mixed pairs.
fn determine_pair(
    datum: &Datum,
    values: &mut Values,
    r: RootId,
    s: RootId,
    k: RootId,
    r0: RootId,
    s0: RootId,
) -> Result<(), ConstFault>
    requires special { IsSpecial datum.now r s k }
    requires extraspecial { IsExtraspecial datum.now r0 s0 k }
    requires filled { IsFilled datum.now values.old (at_part k r 0) }
    ensures { MatchResult result (λ _. IsFilled datum.now values.new (at_part k r 3))
        (λ e. LoadsConstants datum.now (Err e)) }
{
    determine_own(datum, values, r, s, k, r0, s0)?;
    determine_right(datum, values, r, s, k)?;
    determine_left(datum, values, r, s, k)
}

/// Determines the value of the special pair (r, s).
fn determine_own(
    datum: &Datum,
    values: &mut Values,
    r: RootId,
    s: RootId,
    k: RootId,
    r0: RootId,
    s0: RootId,
) -> Result<(), ConstFault>
    requires special { IsSpecial datum.now r s k }
    requires extraspecial { IsExtraspecial datum.now r0 s0 k }
    requires filled { IsFilled datum.now values.old (at_part k r 0) }
    ensures { MatchResult result (λ _. IsFilled datum.now values.new (at_part k r 1))
        (λ e. LoadsConstants datum.now (Err e)) }
{
    let (a, e) = equation(datum, values, r, s, k, r0, s0);
    determine(datum, values, r, s, a, e)
}

/// Determines the value of (s, -k), where (r, s) is a special pair of the sum k.
fn determine_right(
    datum: &Datum,
    values: &mut Values,
    r: RootId,
    s: RootId,
    k: RootId,
) -> Result<(), ConstFault>
    requires special { IsSpecial datum.now r s k }
    requires filled { IsFilled datum.now values.old (at_part k r 1) }
    ensures { MatchResult result (λ _. IsFilled datum.now values.new (at_part k r 2))
        (λ e. LoadsConstants datum.now (Err e)) }
{
    datum.loaded();
    let e = values.n(r, s) * datum.length2(r);
    determine(datum, values, s, k.opposite(), datum.length2(k), e)
}

/// Determines the value of (-k, r), where (r, s) is a special pair of the sum k.
fn determine_left(
    datum: &Datum,
    values: &mut Values,
    r: RootId,
    s: RootId,
    k: RootId,
) -> Result<(), ConstFault>
    requires special { IsSpecial datum.now r s k }
    requires filled { IsFilled datum.now values.old (at_part k r 2) }
    ensures { MatchResult result (λ _. IsFilled datum.now values.new (at_part k r 3))
        (λ e. LoadsConstants datum.now (Err e)) }
{
    datum.loaded();
    let e = values.n(r, s) * datum.length2(s);
    determine(datum, values, k.opposite(), r, datum.length2(k), e)
}

/// The two numbers of the equation of a special pair.
fn equation(
    datum: &Datum,
    values: &Values,
    r: RootId,
    s: RootId,
    k: RootId,
    r0: RootId,
    s0: RootId,
) -> (i128, i128)
    requires special { IsSpecial datum.now r s k }
    requires extraspecial { IsExtraspecial datum.now r0 s0 k }
    requires count { values.now.positive ≡ length datum.now.positive }
    ensures forced { IsForced datum.now (table_in values.now) (at_part k r 0) r s result.0 result.1 }
    ensures factor { unsigned_abs result.0 ≤ 2 ^ 40 }
{
    datum.loaded();
    if r == r0 {
        (1, i128::from(datum.string(r, s).0) + 1)
    } else {
        other_equation(datum, values, r, s, k, r0, s0)
    }
}

/// The two numbers of the equation of a special pair beside the extraspecial pair (r0, s0).
fn other_equation(
    datum: &Datum,
    values: &Values,
    r: RootId,
    s: RootId,
    k: RootId,
    r0: RootId,
    s0: RootId,
) -> (i128, i128)
    requires special { IsSpecial datum.now r s k }
    requires extraspecial { IsExtraspecial datum.now r0 s0 k }
    requires other { r0 ≢ r }
    requires count { values.now.positive ≡ length datum.now.positive }
    ensures forced { IsForced datum.now (table_in values.now) (at_part k r 0) r s result.0 result.1 }
    ensures factor { unsigned_abs result.0 ≤ 2 ^ 40 }
{
    let from_s = gap(datum, s, r0);
    let from_r = gap(datum, r, r0);
    let through_r = product(
        values.n(s, r0.opposite()),
        values.n(r, s0.opposite()),
        from_r,
    );
    let through_s = product(
        values.n(r0.opposite(), r),
        values.n(s, s0.opposite()),
        from_s,
    );
    (
        product(values.n(r0, s0), from_s, from_r),
        datum.length2(k) * (through_r + through_s),
    )
}

/// `|s - r|^2` where s - r is a root, and 1 where it is none.
fn gap(datum: &Datum, s: RootId, r: RootId) -> i128
    requires s { IsNumber datum.now s }
    requires r { IsNumber datum.now r }
    ensures value { result ≡ gap datum.now s r }
    ensures bound { unsigned_abs result ≤ 2160 }
{
    datum.loaded();
    match datum.sum(s, r.opposite()) {
        Some(t) => datum.length2(t),
        None => 1,
    }
}

/// The product of three numbers that are values or norms.
fn product(x: i128, y: i128, z: i128) -> i128
    requires x { unsigned_abs x ≤ 2160 }
    requires y { unsigned_abs y ≤ 2160 }
    requires z { unsigned_abs z ≤ 2160 }
    ensures value { result ≡ x *ℤ y *ℤ z }
    ensures bound { unsigned_abs result ≤ 2 ^ 40 }
{
    x * y * z
}

/// Determines the value of the pair (r, s) by its equation N a = e.
fn determine(
    datum: &Datum,
    values: &mut Values,
    r: RootId,
    s: RootId,
    a: i128,
    e: i128,
) -> Result<(), ConstFault>
    requires r { IsNumber datum.now r }
    requires s { IsNumber datum.now s }
    requires count { values.old.positive ≡ length datum.now.positive }
    requires factor { unsigned_abs a ≤ 2 ^ 40 }
    ensures { (at : Place) → IsFilled datum.now values.old at → IsForced datum.now (table_in values.old) at r s a e →
        MatchResult result (λ _. IsFilled datum.now values.new (next at)) (λ f. LoadsConstants datum.now (Err f)) }
{
    datum.loaded();
    match unit_solution(datum, r, s, a, e) {
        Some(value) => {
            values.put(r, s, value);
            Ok(())
        }
        None => Err(ConstFault::Constant(r, s, a, e)),
    }
}

/// Which of p + 1 and its opposite solves the equation N a = e of the pair (r, s).
fn unit_solution(datum: &Datum, r: RootId, s: RootId, a: i128, e: i128) -> Option<i8>
    requires r { IsNumber datum.now r }
    requires s { IsNumber datum.now s }
    requires factor { unsigned_abs a ≤ 2 ^ 40 }
    ensures value { MatchOption result (HasNoSolution datum.now r s a e) (IsUnitSolution datum.now r s a e) }
    ensures bound { MatchOption result ⊤ (λ c. unsigned_abs c ≤ 4) }
{
    datum.loaded();
    signed_unit(datum.string(r, s).0 + 1, a, e)
}

/// Which of a number and its opposite solves N a = e.
fn signed_unit(unit: u32, a: i128, e: i128) -> Option<i8>
    requires unit { (1 ≤ unit) × (unit ≤ 4) }
    requires factor { unsigned_abs a ≤ 2 ^ 40 }
    ensures value { MatchOption result (¬ (e ≡ pos unit *ℤ a) × ¬ (e ≡ neg_ℤ (pos unit *ℤ a)))
        (λ c. (c *ℤ a ≡ e) × ((c ≡ pos unit) ⊎ (c ≡ neg_ℤ (pos unit)))) }
    ensures bound { MatchOption result ⊤ (λ c. unsigned_abs c ≤ 4) }
{
    let product = i128::from(unit) * a;
    if e == product {
        Some(unit as i8)
    } else if e == -product {
        Some(-(unit as i8))
    } else {
        None
    }
}
