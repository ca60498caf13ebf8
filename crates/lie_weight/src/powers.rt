//! The matrices of one root in a module that is being made.

ghost use Rattle.std.specs.Prelude.{◌≡◌, ◌≤◌, ◌*◌, [], IfOk, length, replicate, unsigned_abs};
ghost use Rattle.std.specs.List.{All};
ghost use Rattle.lie_datum.specs.RootDatum.{IsWithin};
ghost use Rattle.lie_const.specs.Modules.{dimension};
ghost use Rattle.lie_weight.specs.Kept.{IsSquare, ArePowers};
ghost use Rattle.lie_weight.specs.Completion.{IsKeptCount, IsTrimmed, with_powers};

use crate::modules::Module;
use lie_datum::{RootId, Vector};
use lie_mat::Mat;
use lie_ring::Ints;
use std::alloc::{AllocError, Global};

impl Module {
    /// The module with these weights in which all powers are 0.
    pub(crate) fn bare(
        alloc: Global,
        positive: usize,
        weights: Vec<Vector>,
    ) -> Result<Module, AllocError>
        requires positive { positive ≤ 120 }
        requires few { length weights.items ≤ 1024 }
        requires light { All (IsWithin 1000000) weights.items }
        ensures { IfOk result (λ v. v ≡ record { positive = positive; weights = weights.items; powers = replicate (2 * positive) [] }) }
    {
        let mut powers = Vec::new(alloc);
        for _ in 0..2 * positive {
            powers.push(Vec::new(alloc))?;
        }
        Ok(Module {
            positive,
            weights,
            powers,
        })
    }

    /// The weights.
    pub(crate) fn weights(&self) -> &[Vector]
        ensures { result.now ≡ self.now.weights }
    {
        &self.weights
    }

    /// Writes the matrices of a root.
    pub(crate) fn set_powers(&mut self, r: RootId, powers: Vec<Mat<Ints>>)
        requires r { unsigned_abs r ≤ self.old.positive }
        requires powers { ArePowers (dimension self.old) powers.items }
        ensures { self.new ≡ with_powers self.old r powers.items }
    {
        let place = r.place(self.positive);
        self.powers[place] = powers;
    }
}

/// How many matrices there are up to the last that is not 0.
fn kept_count(alloc: Global, size: usize, list: &[Mat<Ints>]) -> Result<usize, AllocError>
    requires size { size ≤ 1024 }
    requires squares { All (IsSquare size) list.now }
    ensures { IfOk result (IsKeptCount size list.now) }
{
    let zero = Mat::zero(alloc, size, size)?;
    let mut count = 0;
    for k in 0..list.len() {
        if !list[k].same(&Ints, &zero) {
            count = k + 1;
        }
    }
    Ok(count)
}

/// The matrices up to the last that is not 0.
pub(crate) fn kept(
    alloc: Global,
    size: usize,
    list: Vec<Mat<Ints>>,
) -> Result<Vec<Mat<Ints>>, AllocError>
    requires size { size ≤ 1024 }
    requires squares { All (IsSquare size) list.items }
    ensures { IfOk result (λ v. IsTrimmed size list.items v.items) }
{
    let mut list = list;
    let count = kept_count(alloc, size, &list)?;
    list.truncate(count);
    Ok(list)
}
