//! The growth of the orbit of a minuscule weight.

ghost use Rattle.std.specs.Prelude.{◌≡◌, ◌<◌, ◌*◌, ◌^◌, IfOk, length};
ghost use Rattle.lie_datum.specs.RootDatum.{IsSimpleIndex, IsWithin};
ghost use Rattle.lie_orbit.specs.Weights.{IsMinuscule};
ghost use Rattle.lie_orbit.specs.Orbits.{reflected_weight};
ghost use Rattle.lie_orbit.specs.Growth.{IsGrowing, HasImage, HasImages, StartsWith, IsGrown, first_weight};

use crate::vectors::less_multiple;
use indexmap::IndexSet;
use lie_datum::{Datum, Vector, pairing};
use std::alloc::{AllocError, Global};

/// As many members of an orbit are kept at most.
pub(crate) const MOST: usize = 1025;

/// The simple reflection of a weight, with i counted from 1.
fn reflected(datum: &Datum, i: usize, weight: &Vector) -> Vector
    requires index { IsSimpleIndex datum.now.base i }
    requires minuscule { IsMinuscule datum.now weight.now }
    requires small { IsWithin (25 * 10 ^ 31) weight.now }
    ensures { result ≡ reflected_weight datum.now i weight.now }
{
    datum.loaded();
    let r = datum.simple(i);
    less_multiple(weight, pairing(weight, datum.coroot(r)), datum.root(r))
}

/// Adds the image under s_i of the weight at this place, if it is new and there is room.
fn add_image(
    datum: &Datum,
    orbit: &mut IndexSet<Vector>,
    at: usize,
    i: usize,
) -> Result<(), AllocError>
    requires growing { IsGrowing datum.now orbit.old.keys }
    requires at { at < length orbit.old.keys }
    requires index { IsSimpleIndex datum.now.base i }
    ensures growing { IfOk result (λ _. IsGrowing datum.now orbit.new.keys) }
    ensures kept { IfOk result (λ _. StartsWith orbit.new.keys orbit.old.keys) }
    ensures done { IfOk result (λ _. length orbit.new.keys < 1025 → HasImage datum.now orbit.new.keys at i) }
{
    datum.loaded();
    let image = reflected(datum, i, &orbit.as_slice()[at]);
    if orbit.len() < MOST && !orbit.contains(&image) {
        orbit.insert(image)?;
    }
    Ok(())
}

/// Adds the images of the weight at this place.
fn add_images(datum: &Datum, orbit: &mut IndexSet<Vector>, at: usize) -> Result<(), AllocError>
    requires growing { IsGrowing datum.now orbit.old.keys }
    requires at { at < length orbit.old.keys }
    ensures growing { IfOk result (λ _. IsGrowing datum.now orbit.new.keys) }
    ensures kept { IfOk result (λ _. StartsWith orbit.new.keys orbit.old.keys) }
    ensures done { IfOk result (λ _. length orbit.new.keys < 1025 → HasImages datum.now orbit.new.keys at) }
{
    for i in 0..datum.l() {
        add_image(datum, orbit, at, i + 1)?;
    }
    Ok(())
}

/// Adds the images of all members.
fn close(datum: &Datum, orbit: &mut IndexSet<Vector>) -> Result<(), AllocError>
    requires growing { IsGrowing datum.now orbit.old.keys }
    ensures growing { IfOk result (λ _. IsGrowing datum.now orbit.new.keys) }
    ensures kept { IfOk result (λ _. StartsWith orbit.new.keys orbit.old.keys) }
    ensures grown { IfOk result (λ _. IsGrown datum.now orbit.new.keys) }
{
    let mut at = 0;
    while at < orbit.len() {
        add_images(datum, orbit, at)?;
        at += 1;
    }
    Ok(())
}

/// The orbit of a minuscule weight, in the order in which its members were found; or 1,025 members,
/// where it has more than that.
pub(crate) fn grown(
    alloc: Global,
    datum: &Datum,
    weight: &Vector,
) -> Result<IndexSet<Vector>, AllocError>
    requires minuscule { IsMinuscule datum.now weight.now }
    requires small { IsWithin (2 * 10 ^ 32) weight.now }
    ensures growing { IfOk result (λ orbit. IsGrowing datum.now orbit.keys) }
    ensures first { IfOk result (λ orbit. first_weight orbit.keys ≡ weight.now) }
    ensures grown { IfOk result (λ orbit. IsGrown datum.now orbit.keys) }
{
    let mut orbit = IndexSet::new(alloc);
    orbit.insert(*weight)?;
    close(datum, &mut orbit)?;
    Ok(orbit)
}
