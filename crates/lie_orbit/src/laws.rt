//! What follows from the definitions alone.

ghost use Rattle.lie_orbit.specs.Laws.{LowersOneWay, SmallSumsVanish, OrbitsAreOneList, OrbitsHaveOneSize};

/// A weight lowers to one weight.
pub fn lowers_one_way()
    ensures { LowersOneWay }
{}

/// A sum of roots that is minuscule is 0.
pub fn small_sums_vanish()
    ensures { SmallSumsVanish }
{}

/// The orbit of a weight, in order, is one list.
pub fn orbits_are_one_list()
    ensures { OrbitsAreOneList }
{}

/// An orbit that `orbit` lists is not one that it answers `TooMany` for.
pub fn orbits_have_one_size()
    ensures { OrbitsHaveOneSize }
{}
