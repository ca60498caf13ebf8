//! What follows from the definitions alone.

ghost use Rattle.lie_const.specs.StructureConstants.{IsUnique};
ghost use Rattle.lie_const.specs.ConstantTables.{LoadsOneWay};

use lie_datum::Datum;

/// Two tables of constants that stand for one datum are equal.
pub fn one_table(datum: &Datum)
    ensures { IsUnique datum.now }
{
    datum.loaded()
}

/// A loaded datum has one answer of `Constants::load`, want of memory aside.
pub fn one_answer()
    ensures { LoadsOneWay }
{}
