//! The carrier of a frame, its audit, and whether it is covering.

ghost use Rattle.std.specs.Prelude.{Err, MatchResult};
ghost use Rattle.lie_identities.specs.Covers.{Covers, IsCovering};
ghost use Rattle.lie_group.specs.Groups.{HasCarrierAnswer, IsCarrierOf, IsAuditedCarrier, IsGroupFault};

use crate::faults::LoadFault;
use lie_audit::{Audited, audit};
use lie_identities::{CoverFault, carrier_is_light, carriers_cover_axes};
use lie_letters::Frame;
use lie_weight::{Module, ModuleFault};
use std::alloc::Global;

/// The fault of a frame that has this one of its carrier.
fn carrier_fault(frame: &Frame, why: ModuleFault) -> LoadFault
    requires { HasCarrierAnswer frame.now (Err why) }
    ensures { IsGroupFault frame.now result }
{
    match why {
        ModuleFault::NoMemory => LoadFault::NoMemory,
        ModuleFault::NotMinuscule(_) | ModuleFault::Table(_) => unreachable!(),
        ModuleFault::Wide(n) => LoadFault::CarrierWide(n),
        ModuleFault::Heavy(a) => LoadFault::Heavy(a),
        ModuleFault::Huge(r, k) => LoadFault::Huge(r, k),
    }
}

/// The carrier of a frame.
fn carrier(alloc: Global, frame: &Frame) -> Result<Module, LoadFault>
    ensures { MatchResult result (IsCarrierOf frame.now) (IsGroupFault frame.now) }
{
    frame.lawful();
    let adjoint = Module::adjoint(alloc, &frame.datum, &frame.constants)?;
    match Module::carrier(alloc, &frame.datum, &frame.signs, &adjoint) {
        Ok(carrier) => Ok(carrier),
        Err(why) => Err(carrier_fault(frame, why)),
    }
}

/// The carrier of a frame, audited for it.
pub(crate) fn audited_carrier(alloc: Global, frame: &Frame) -> Result<Audited, LoadFault>
    ensures { MatchResult result (IsAuditedCarrier frame.now) (IsGroupFault frame.now) }
{
    frame.lawful();
    carrier_is_light();
    let carrier = carrier(alloc, frame)?;
    let audited = audit(alloc, &frame.datum, &frame.constants, &frame.signs, carrier)?;
    audited.module();
    Ok(audited)
}

/// The fault of a frame that has this one of its audited carrier.
fn cover_fault(frame: &Frame, carrier: &Audited, why: CoverFault) -> LoadFault
    requires carrier { IsAuditedCarrier frame.now carrier.now }
    requires fault { Covers frame.now.field frame.now.datum carrier.now.module carrier.now.lines (Err why) }
    ensures { IsGroupFault frame.now result }
{
    frame.lawful();
    carriers_cover_axes();
    match why {
        CoverFault::Dead(r) => LoadFault::Dead(r),
        CoverFault::Uncovered(_) => unreachable!(),
    }
}

/// Tests whether the audited carrier of a frame is covering.
pub(crate) fn test_covering(frame: &Frame, carrier: &Audited) -> Result<(), LoadFault>
    requires { IsAuditedCarrier frame.now carrier.now }
    ensures { MatchResult result (λ _. IsCovering frame.now.field frame.now.datum carrier.now.module carrier.now.lines) (IsGroupFault frame.now) }
{
    match carrier.covering(&frame.field, &frame.datum) {
        Ok(()) => Ok(()),
        Err(why) => Err(cover_fault(frame, carrier, why)),
    }
}
