//! What follows from the definitions alone.

ghost use Rattle.lie_identities.specs.Audit.{OneAuditAnswer};
ghost use Rattle.lie_identities.specs.LightModules.{AdjointIsLight, OrbitIsLight, CarrierIsLight};
ghost use Rattle.lie_identities.specs.Covers.{CarriersCoverAxes};

/// A module has one answer of `audit`, want of memory aside.
pub fn one_audit_answer()
    ensures { OneAuditAnswer }
{}

/// The weights of the adjoint module are small enough for `audit`.
pub fn adjoint_is_light()
    ensures { AdjointIsLight }
{}

/// So are those of the module of an orbit.
pub fn orbit_is_light()
    ensures { OrbitIsLight }
{}

/// And those of a carrier.
pub fn carrier_is_light()
    ensures { CarrierIsLight }
{}

/// A carrier covers each axis.
pub fn carriers_cover_axes()
    ensures { CarriersCoverAxes }
{}
