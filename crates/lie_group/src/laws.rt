//! What follows from the definitions alone.

ghost use Rattle.lie_group.specs.Groups.{LoadsOneGroup};
ghost use Rattle.lie_group.specs.Loading.{MakesOneFrame};

/// A field and a datum have one answer of `make_frame`, want of memory aside.
pub fn one_frame()
    ensures { MakesOneFrame }
{}

/// The frames of a field and a datum have one answer of `Group::load`, want of memory aside.
pub fn one_group()
    ensures { LoadsOneGroup }
{}
