//! The groups that rows are about, and the modules on which their matrices act.

ghost use Rattle.std.specs.Prelude.{◌↔◌, IsTrue, IfOk};
ghost use Rattle.lie_datum.specs.RootDatum.{IsWithin};
ghost use Rattle.lie_const.specs.Modules.{IsModule};
ghost use Rattle.lie_identities.specs.Audit.{HasLightWeights};
ghost use Rattle.lie_reduce.specs.Reduction.{CoversFrame};
ghost use Rattle.lie_group.specs.Groups.{IsAuditedFor};

use lie_audit::{AuditFault, Audited, audit};
use lie_datum::{Datum, Vector};
use lie_field::Field;
use lie_group::make_frame;
use lie_letters::Frame;
use lie_weight::{Module, ModuleFault};
use std::alloc::Global;
use test_rows::{Roots, Stop, field_of_row, padded, read_lists, roots_of_row};

/// The frame of the field and the datum of two rows.
pub(crate) fn frame_of(alloc: Global, field: &str, datum: &str) -> Result<Frame, Stop> {
    let Roots { datum, .. } = roots_of_row(alloc, datum)?;
    frame_over(alloc, field, datum)
}

/// The frame of the field of a row and a datum.
fn frame_over(alloc: Global, field: &str, datum: Datum) -> Result<Frame, Stop> {
    let field = field_of_row(alloc, field)?;
    frame(alloc, field, datum)
}

/// `make_frame` with no clause.
fn frame(alloc: Global, field: Field, datum: Datum) -> Result<Frame, Stop> {
    match make_frame(alloc, field, datum) {
        Ok(frame) => Ok(frame),
        Err(_) => Err(Stop::NoQuestion),
    }
}

/// The weight of a row, with entries within 100.
fn weight(alloc: Global, text: &str) -> Result<Vector, Stop>
    ensures { IfOk result (IsWithin 100) }
{
    let lists = read_lists(alloc, text, "|")?;
    let [list] = lists.as_slice() else {
        return Err(Stop::NoQuestion);
    };
    let v = padded(list)?;
    if is_within(&v) {
        Ok(v)
    } else {
        Err(Stop::NoQuestion)
    }
}

/// Whether all entries are within 100.
fn is_within(v: &Vector) -> bool
    ensures { IsTrue result ↔ IsWithin 100 v.now }
{
    v.iter().all(|c| c.unsigned_abs() <= 100)
}

/// The module of an orbit.
fn orbit(alloc: Global, frame: &Frame, v: &Vector) -> Result<Module, ModuleFault>
    requires { IsWithin 100 v.now }
    ensures shape { IfOk result (IsModule frame.now.datum) }
    ensures light { IfOk result HasLightWeights }
{
    frame.lawful();
    Module::orbit(alloc, &frame.datum, &frame.signs, v)
}

/// `audit` for a frame.
fn audited(alloc: Global, frame: &Frame, space: Module) -> Result<Audited, AuditFault>
    requires shape { IsModule frame.now.datum space }
    requires light { HasLightWeights space }
    ensures { IfOk result (IsAuditedFor frame.now) }
{
    frame.lawful();
    audit(alloc, &frame.datum, &frame.constants, &frame.signs, space)
}

/// The module of the orbit of a weight, audited for a frame.
fn audited_orbit(alloc: Global, frame: &Frame, v: &Vector) -> Result<Audited, Stop>
    requires { IsWithin 100 v.now }
    ensures { IfOk result (IsAuditedFor frame.now) }
{
    let Ok(space) = orbit(alloc, frame, v) else {
        return Err(Stop::NoQuestion);
    };
    match audited(alloc, frame, space) {
        Ok(found) => Ok(found),
        Err(_) => Err(Stop::NoQuestion),
    }
}

/// The module of the orbit of the weight of a row, where it covers.
pub(crate) fn covering_orbit(alloc: Global, frame: &Frame, text: &str) -> Result<Audited, Stop>
    ensures { IfOk result (CoversFrame frame.now) }
{
    let v = weight(alloc, text)?;
    let found = audited_orbit(alloc, frame, &v)?;
    match found.covering(&frame.field, &frame.datum) {
        Ok(()) => Ok(found),
        Err(_) => Err(Stop::NoQuestion),
    }
}
