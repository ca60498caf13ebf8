//! The combinations of weights that cover an axis, as cover lines give them.

ghost use Rattle.std.specs.Prelude.{◌≡◌, ℕ, ◌<◌, ◌≤◌, MatchOption, length, option_copied};
ghost use Rattle.lie_datum.specs.Vectors.{entry, unit};
ghost use Rattle.lie_datum.specs.RootDatum.{IsWithin};
ghost use Rattle.lie_const.specs.Modules.{dimension};
ghost use Rattle.lie_identities.specs.Audit.{HasLightWeights};
ghost use Rattle.lie_identities.specs.CoverLines.{no_lines, line_of, with_line, combination_entry, IsFirstDifferentCoordinate};

use lie_datum::Vector;
use lie_weight::Module;
use std::marker::Model;
use thiserror::Error;

/// A combination of weights that is not the unit vector of its axis: the first coordinate, counted
/// from 1, at which it differs, and what it has there.
#[derive(Debug, PartialEq, Eq, Drop, Error)]
#[error("the combination has {value} at coordinate {axis}")]
pub struct CoverSum {
    pub axis: usize,
    pub value: i128,
}

/// A combination or none for each axis, which counts from 1.
#[derive(Drop)]
pub(crate) struct CoverSet {
    kept: [Option<Vec<i64>>; 8],
}

impl Model for CoverSet {
    ghost use Rattle.std.specs.Prelude.{◌≡◌, length};
    ghost use Rattle.lie_identities.specs.CoverLines.{CoverLines, lines_of};

    ghost Value = { CoverLines };

    ghost view = { λ s. lines_of s.kept };

    ghost invariant = { λ s. length s.kept ≡ 8 };
}

impl CoverSet {
    /// None for each axis.
    pub(crate) fn new() -> CoverSet
        ensures { result ≡ no_lines }
    {
        CoverSet {
            kept: [None, None, None, None, None, None, None, None],
        }
    }

    /// The combination of an axis.
    pub(crate) fn get(&self, axis: usize) -> Option<&[i64]>
        requires { (1 ≤ axis) × (axis ≤ 8) }
        ensures { option_copied result ≡ line_of self.now axis }
    {
        match &self.kept[axis - 1] {
            Some(c) => Some(c.as_slice()),
            None => None,
        }
    }

    /// Keeps a combination for an axis, in place of an earlier one.
    pub(crate) fn set(&mut self, axis: usize, c: Vec<i64>)
        requires { (1 ≤ axis) × (axis ≤ 8) }
        ensures { self.new ≡ with_line self.old axis c.items }
    {
        self.kept[axis - 1] = Some(c);
    }
}

/// The unit vector of an axis, which counts from 1.
pub(crate) fn unit(axis: usize) -> Vector
    requires { (1 ≤ axis) × (axis ≤ 8) }
    ensures { result ≡ unit 8 axis }
{
    let mut unit = [0; 8];
    unit[axis - 1] = 1;
    unit
}

/// The coordinate k, counted from 0, of the combination of the weights.
fn combination_entry(space: &Module, c: &[i64], k: usize) -> i128
    requires light { HasLightWeights space.now }
    requires count { length c.now ≡ dimension space.now }
    requires small { IsWithin 1000000 c.now }
    requires coordinate { k < 8 }
    ensures { result ≡ combination_entry space.now c.now k }
{
    let mut sum = 0;
    for a in 0..space.dim() {
        sum += i128::from(c[a]) * space.weight(a)[k];
    }
    sum
}

/// The first coordinate at which the combination of the weights is not the unit vector of the axis.
pub(crate) fn first_different(space: &Module, c: &[i64], axis: usize) -> Option<CoverSum>
    requires light { HasLightWeights space.now }
    requires count { length c.now ≡ dimension space.now }
    requires small { IsWithin 1000000 c.now }
    requires axis { (1 ≤ axis) × (axis ≤ 8) }
    ensures { MatchOption result ((k : ℕ) → k < 8 → combination_entry space.now c.now k ≡ entry (unit 8 axis) k)
        (λ e. IsFirstDifferentCoordinate space.now axis c.now e.axis e.value) }
{
    let unit = unit(axis);
    for k in 0..8 {
        let value = combination_entry(space, c, k);
        if value != unit[k] {
            return Some(CoverSum { axis: k + 1, value });
        }
    }
    None
}
