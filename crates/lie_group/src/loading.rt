//! The frame of a field and a root datum.

ghost use Rattle.lie_group.specs.Loading.{MakesFrame};

use crate::faults::LoadFault;
use lie_audit::{braid, signs};
use lie_const::Constants;
use lie_datum::Datum;
use lie_field::Field;
use lie_letters::Frame;
use lie_weight::Module;
use std::alloc::Global;

/// The frame of a field and a datum; or the first demand on a datum that this one does not meet.
pub fn make_frame(alloc: Global, field: Field, datum: Datum) -> Result<Frame, LoadFault>
    ensures { MakesFrame field datum result }
{
    datum.loaded();
    let constants = Constants::load(alloc, &datum)?;
    let adjoint = Module::adjoint(alloc, &datum, &constants)?;
    let signs = signs(alloc, &datum, &adjoint)?;
    braid(&datum, &signs)?;
    Ok(Frame::new(field, datum, constants, signs))
}
