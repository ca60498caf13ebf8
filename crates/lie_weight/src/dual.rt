//! The dual of a module.

ghost use Rattle.std.specs.Prelude.{◌≡◌, ◌*◌, ◌≤◌, negsuc, IfOk, map, unsigned_abs};
ghost use Rattle.std.specs.List.{All, range_with_len};
ghost use Rattle.lie_ring.specs.Integers.{integers};
ghost use Rattle.lie_ring.specs.Powers.{power};
ghost use Rattle.lie_datum.specs.Vectors.{minus};
ghost use Rattle.lie_datum.specs.Numbers.{number_at};
ghost use Rattle.lie_datum.specs.RootDatum.{IsWithin};
ghost use Rattle.lie_const.specs.Modules.{IsModule, dimension, top};
ghost use Rattle.lie_weight.specs.Kept.{IsSquare, ArePowers};
ghost use Rattle.lie_weight.specs.Duals.{IsDual, dual_power, dual_powers};

use crate::modules::Module;
use crate::rules::scaled;
use lie_datum::{Datum, RootId, Vector};
use lie_mat::Mat;
use lie_ring::{Ints, RingStop};
use std::alloc::{AllocError, Global};

/// The opposite of a weight.
fn opposite(weight: &Vector) -> Vector
    requires { IsWithin 1000000 weight.now }
    ensures { result ≡ minus weight.now }
{
    let mut opposite = *weight;
    for k in 0..8 {
        opposite[k] = -opposite[k];
    }
    opposite
}

/// The opposites of the weights.
fn opposites(alloc: Global, weights: &[Vector]) -> Result<Vec<Vector>, AllocError>
    requires { All (IsWithin 1000000) weights.now }
    ensures { IfOk result (λ v. v.items ≡ map minus weights.now) }
{
    let mut opposites = Vec::new(alloc);
    for weight in weights {
        opposites.push(opposite(weight))?;
    }
    Ok(opposites)
}

/// (-1)^k.
fn sign(k: u32) -> i128
    ensures value { result ≡ power integers (negsuc 0) k }
    ensures unit { unsigned_abs result ≤ 1 }
{
    if k % 2 == 0 { 1 } else { -1 }
}

/// E_r^(k) of the dual.
fn dual_power(alloc: Global, space: &Module, r: RootId, k: u32) -> Result<Mat<Ints>, AllocError>
    requires r { unsigned_abs r ≤ space.now.positive }
    requires positive { 1 ≤ k }
    requires within { k ≤ top space.now r }
    ensures value { IfOk result (λ m. m ≡ dual_power space.now r k) }
    ensures square { IfOk result (IsSquare (dimension space.now)) }
{
    match space.power(r, k).transpose(alloc, &Ints) {
        Ok(matrix) => scaled(alloc, sign(k), &matrix),
        Err(RingStop::NoMemory) => Err(AllocError),
        Err(RingStop::Wide) => unreachable!(),
    }
}

/// The matrices of a root in the dual.
fn root_powers(alloc: Global, space: &Module, r: RootId) -> Result<Vec<Mat<Ints>>, AllocError>
    requires { unsigned_abs r ≤ space.now.positive }
    ensures value { IfOk result (λ list. list.items ≡ dual_powers space.now r) }
    ensures kept { IfOk result (λ list. ArePowers (dimension space.now) list.items) }
{
    space.kept();
    let mut powers = Vec::new(alloc);
    for k in 0..space.top(r) {
        powers.push(dual_power(alloc, space, r, k + 1)?)?;
    }
    Ok(powers)
}

/// The matrices of all roots in the dual, in the full order.
fn all_powers(
    alloc: Global,
    positive: usize,
    space: &Module,
) -> Result<Vec<Vec<Mat<Ints>>>, AllocError>
    requires positive { positive ≡ space.now.positive }
    requires few { positive ≤ 120 }
    ensures value { IfOk result (λ v. map (λ w. w.items) v.items ≡ map (λ p. dual_powers space.now (number_at positive p)) (range_with_len 0 (2 * positive))) }
    ensures kept { IfOk result (λ v. All (ArePowers (dimension space.now)) (map (λ w. w.items) v.items)) }
{
    let mut powers = Vec::new(alloc);
    for place in 0..2 * positive {
        powers.push(root_powers(alloc, space, RootId::at(place, positive))?)?;
    }
    Ok(powers)
}

impl Module {
    /// The dual of a module, with the dual basis in the same order.
    pub fn dual(alloc: Global, datum: &Datum, a: &Module) -> Result<Module, AllocError>
        requires { IsModule datum.now a.now }
        ensures { IfOk result (IsDual datum.now a.now) }
    {
        datum.loaded();
        a.kept();
        let positive = datum.m();
        let weights = opposites(alloc, a.weights())?;
        let powers = all_powers(alloc, positive, a)?;
        Ok(Module {
            positive,
            weights,
            powers,
        })
    }
}
