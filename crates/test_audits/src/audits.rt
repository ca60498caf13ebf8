//! Modules, and what `audit` answers of them.

ghost use Rattle.std.specs.Prelude.{◌≡◌, ◌↔◌, IsTrue, Ok, IfOk};
ghost use Rattle.std.specs.List.{All};
ghost use Rattle.lie_datum.specs.RootDatum.{IsWithin};
ghost use Rattle.lie_const.specs.ConstantTables.{LoadsConstants};
ghost use Rattle.lie_const.specs.Adjoint.{IsAdjointOf};
ghost use Rattle.lie_const.specs.Modules.{IsModule};
ghost use Rattle.lie_const.specs.Signs.{IsSignTable};
ghost use Rattle.lie_audit.specs.SignParts.{IsSign};
ghost use Rattle.lie_identities.specs.Audit.{HasLightWeights};

use lie_audit::{SignFault, signs as read_signs};
use lie_const::{Constants, Signs};
use lie_datum::{Datum, Vector};
use lie_identities::{AuditFault, Audited, audit};
use lie_weight::{Module, ModuleFault};
use std::alloc::Global;
use test_rows::{Stop, constants, padded};

/// The adjoint module.
fn made_adjoint(alloc: Global, datum: &Datum) -> Result<Module, Stop>
    ensures { IfOk result (IsAdjointOf datum.now) }
{
    let consts = constants(alloc, datum)?;
    Ok(Module::adjoint(alloc, datum, &consts)?)
}

/// The adjoint module, and that it may be audited.
fn adjoint(alloc: Global, datum: &Datum) -> Result<Module, Stop>
    ensures adjoint { IfOk result (IsAdjointOf datum.now) }
    ensures shape { IfOk result (IsModule datum.now) }
    ensures light { IfOk result HasLightWeights }
{
    datum.loaded();
    made_adjoint(alloc, datum)
}

/// The signs that are read off the adjoint module.
fn signs_of(alloc: Global, datum: &Datum, space: &Module) -> Result<Signs, SignFault>
    requires { IsAdjointOf datum.now space.now }
    ensures { IfOk result (IsSignTable datum.now) }
{
    read_signs(alloc, datum, space)
}

/// Audits the adjoint module.
pub(crate) fn audited_adjoint(
    alloc: Global,
    datum: &Datum,
) -> Result<Result<Audited, AuditFault>, Stop>
    ensures { IfOk result (λ found. IfOk found (λ a. a.datum ≡ datum.now)) }
{
    let consts = constants(alloc, datum)?;
    let space = adjoint(alloc, datum)?;
    let Ok(signs) = signs_of(alloc, datum, &space) else {
        return Err(Stop::NoQuestion);
    };
    Ok(audited(alloc, datum, &consts, &signs, space))
}

/// `audit` with one clause of its answer.
pub(crate) fn audited(
    alloc: Global,
    datum: &Datum,
    consts: &Constants,
    signs: &Signs,
    space: Module,
) -> Result<Audited, AuditFault>
    requires constants { LoadsConstants datum.now (Ok consts.now) }
    requires signs { IsSignTable datum.now signs.now }
    requires shape { IsModule datum.now space }
    requires light { HasLightWeights space }
    ensures { IfOk result (λ a. a.datum ≡ datum.now) }
{
    audit(alloc, datum, consts, signs, space)
}

/// The signs of a list of them.
pub(crate) fn signs(alloc: Global, datum: &Datum, table: &[i8]) -> Result<Signs, Stop>
    ensures { IfOk result (IsSignTable datum.now) }
{
    let Some(count) = datum.l().checked_mul(2 * datum.m()) else {
        return Err(Stop::NoQuestion);
    };
    if table.len() != count || !are_signs(table) {
        return Err(Stop::NoQuestion);
    }
    Ok(Signs::of(datum, Vec::from_slice(alloc, table)?))
}

/// Whether each number is 1 or -1.
fn are_signs(table: &[i8]) -> bool
    ensures { IsTrue result ↔ All IsSign table.now }
{
    table.iter().all(|c| *c == 1 || *c == -1)
}

/// A weight with entries within 100.
fn weight(list: &[i128]) -> Result<Vector, Stop>
    ensures { IfOk result (IsWithin 100) }
{
    let v = padded(list)?;
    if is_within(&v) {
        Ok(v)
    } else {
        Err(Stop::NoQuestion)
    }
}

/// Whether all entries are within 100.
fn is_within(v: &Vector) -> bool
    ensures { IsTrue result ↔ IsWithin 100 v.now }
{
    v.iter().all(|c| c.unsigned_abs() <= 100)
}

/// The module of an orbit.
fn orbit(alloc: Global, datum: &Datum, signs: &Signs, v: &Vector) -> Result<Module, ModuleFault>
    requires signs { IsSignTable datum.now signs.now }
    requires v { IsWithin 100 v.now }
    ensures shape { IfOk result (IsModule datum.now) }
    ensures light { IfOk result HasLightWeights }
{
    Module::orbit(alloc, datum, signs, v)
}

/// The module of an orbit of a datum, as one of another datum with as many roots.
fn moved(
    alloc: Global,
    source: &Datum,
    signs: &Signs,
    target: &Datum,
    v: &Vector,
) -> Result<Module, Stop>
    requires signs { IsSignTable source.now signs.now }
    requires v { IsWithin 100 v.now }
    ensures shape { IfOk result (IsModule target.now) }
    ensures light { IfOk result HasLightWeights }
{
    if source.m() != target.m() {
        return Err(Stop::NoQuestion);
    }
    match orbit(alloc, source, signs, v) {
        Ok(space) => Ok(space),
        Err(_) => Err(Stop::NoQuestion),
    }
}

/// Audits the module of an orbit of a datum for another, with other signs.
pub(crate) fn audited_orbit(
    alloc: Global,
    source: &Datum,
    made_with: &[i8],
    target: &Datum,
    table: &[i8],
    v: &[i128],
) -> Result<Result<Audited, AuditFault>, Stop>
    ensures { IfOk result (λ found. IfOk found (λ a. a.datum ≡ target.now)) }
{
    let made_with = signs(alloc, source, made_with)?;
    let space = moved(alloc, source, &made_with, target, &weight(v)?)?;
    let consts = constants(alloc, target)?;
    let signs = signs(alloc, target, table)?;
    Ok(audited(alloc, target, &consts, &signs, space))
}
