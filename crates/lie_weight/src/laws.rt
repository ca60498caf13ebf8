//! What follows from the definitions alone.

ghost use Rattle.lie_weight.specs.Laws.{AdjointIsSmall};
ghost use Rattle.lie_weight.specs.OrbitFaults.{LoadsOrbitOneWay};
ghost use Rattle.lie_weight.specs.Carriers.{LoadsCarrierOneWay};
ghost use Rattle.lie_weight.specs.Duals.{DualsAreOne};
ghost use Rattle.lie_weight.specs.Sums.{LoadsSumOneWay};
ghost use Rattle.lie_weight.specs.Tensors.{LoadsTensorOneWay};
ghost use Rattle.lie_weight.specs.Tables.{LoadsTableOneWay};

/// The adjoint module has matrices with small entries.
pub fn adjoint_is_small()
    ensures { AdjointIsSmall }
{}

/// `Module::orbit` has one answer for a datum, its signs and a weight, want of memory aside.
pub fn one_orbit_answer()
    ensures { LoadsOrbitOneWay }
{}

/// `Module::carrier` has one answer for a datum and its signs, want of memory aside.
pub fn one_carrier_answer()
    ensures { LoadsCarrierOneWay }
{}

/// `Module::sum` has one answer for two modules, want of memory aside.
pub fn one_sum_answer()
    ensures { LoadsSumOneWay }
{}

/// `Module::tensor` has one answer for two modules, want of memory aside.
pub fn one_tensor_answer()
    ensures { LoadsTensorOneWay }
{}

/// A module has one dual.
pub fn one_dual()
    ensures { DualsAreOne }
{}

/// `Module::table` has one answer for a datum, its signs, weights and entries, want of memory aside.
pub fn one_table_answer()
    ensures { LoadsTableOneWay }
{}
