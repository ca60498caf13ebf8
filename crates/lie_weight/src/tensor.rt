//! Tensor products of modules.

ghost use Rattle.std.specs.Prelude.{◌≡◌, ℕ, ℤ, ◌++◌, ◌*◌, ◌≤◌, map, IfOk, IfSome, MatchOption};
ghost use Rattle.std.specs.List.{All};
ghost use Rattle.lie_datum.specs.Vectors.{plus};
ghost use Rattle.lie_datum.specs.RootDatum.{IsWithin};
ghost use Rattle.lie_datum.specs.RootList.{IsNumber};
ghost use Rattle.lie_const.specs.Modules.{IsModule, dimension};
ghost use Rattle.lie_weight.specs.Tensors.{tensor_weights, IsTensor, IsHugeTensor, IsFirstHugeTensor, LoadsTensor};
ghost use Rattle.lie_weight.specs.TensorParts.{IsFoundWith};

use crate::carrier::earlier;
use crate::faults::ModuleFault;
use crate::heavy::first_heavy;
use crate::modules::Module;
use crate::tensor_powers::{first_huge_power, product_powers};
use lie_datum::{Datum, RootId, Vector};
use std::alloc::{AllocError, Global};

/// The greatest dimension.
const LIMIT: usize = 300;

/// The sum of two weights.
fn plus(x: &Vector, y: &Vector) -> Vector
    requires x { IsWithin 1000000 x.now }
    requires y { IsWithin 1000000 y.now }
    ensures { result ≡ plus x.now y.now }
{
    let mut sum = *x;
    for k in 0..8 {
        sum[k] += y[k];
    }
    sum
}

/// Adds a weight plus each of those of a module to the list.
fn add_weights(x: &Vector, second: &Module, weights: &mut Vec<Vector>) -> Result<(), AllocError>
    requires { IsWithin 1000000 x.now }
    ensures { IfOk result (λ _. weights.new.items ≡ weights.old.items ++ map (plus x.now) second.now.weights) }
{
    for b in 0..second.dim() {
        weights.push(plus(x, second.weight(b)))?;
    }
    Ok(())
}

/// The weights of the product.
fn product_weights(
    alloc: Global,
    first: &Module,
    second: &Module,
) -> Result<Vec<Vector>, AllocError>
    ensures { IfOk result (λ weights. weights.items ≡ tensor_weights first.now second.now) }
{
    let mut weights = Vec::new(alloc);
    for a in 0..first.dim() {
        add_weights(first.weight(a), second, &mut weights)?;
    }
    Ok(weights)
}

/// The first of the place that was found, if any, and of a power of a root, if any.
fn with_power(
    datum: &Datum,
    found: Option<(RootId, u32)>,
    root: RootId,
    power: Option<u32>,
) -> Option<(RootId, u32)>
    requires found { IfSome found (λ p. IsNumber datum.now p.0) }
    requires root { IsNumber datum.now root }
    ensures { IsFoundWith datum.now found root power result }
{
    match power {
        Some(power) => Some(earlier(datum, found, (root, power))),
        None => found,
    }
}

/// The first place at which the product is huge.
fn first_huge(
    alloc: Global,
    datum: &Datum,
    first: &Module,
    second: &Module,
) -> Result<Option<(RootId, u32)>, AllocError>
    requires first { IsModule datum.now first.now }
    requires second { IsModule datum.now second.now }
    requires few { dimension first.now * dimension second.now ≤ 300 }
    ensures { IfOk result (λ o. MatchOption o ((r : ℤ) (k : ℕ) → ¬ IsHugeTensor datum.now first.now second.now r k) (λ p. IsFirstHugeTensor datum.now first.now second.now p.0 p.1)) }
{
    datum.loaded();
    let positive = datum.m();
    let mut found = None;
    for place in 0..2 * positive {
        let root = RootId::at(place, positive);
        let power = first_huge_power(alloc, first, second, root)?;
        found = with_power(datum, found, root, power);
    }
    Ok(found)
}

/// The product of two modules, where it is not huge.
fn product(
    alloc: Global,
    datum: &Datum,
    first: &Module,
    second: &Module,
    weights: Vec<Vector>,
) -> Result<Module, AllocError>
    requires first { IsModule datum.now first.now }
    requires second { IsModule datum.now second.now }
    requires few { dimension first.now * dimension second.now ≤ 300 }
    requires weights { weights.items ≡ tensor_weights first.now second.now }
    requires light { All (IsWithin 1000000) weights.items }
    requires small { (r : ℤ) (k : ℕ) → ¬ IsHugeTensor datum.now first.now second.now r k }
    ensures { IfOk result (IsTensor datum.now first.now second.now) }
{
    datum.loaded();
    let positive = datum.m();
    let mut powers = Vec::new(alloc);
    for place in 0..2 * positive {
        let root = RootId::at(place, positive);
        powers.push(product_powers(alloc, first, second, root)?)?;
    }
    Ok(Module {
        positive,
        weights,
        powers,
    })
}

impl Module {
    /// The tensor product of two modules, with the basis vectors of `b` running first.
    pub fn tensor(
        alloc: Global,
        datum: &Datum,
        a: &Module,
        b: &Module,
    ) -> Result<Module, ModuleFault>
        requires a { IsModule datum.now a.now }
        requires b { IsModule datum.now b.now }
        ensures { LoadsTensor datum.now a.now b.now result }
    {
        let count = a.dim() * b.dim();
        if count > LIMIT {
            return Err(ModuleFault::Wide(count.min(1025) as u64));
        }
        let weights = product_weights(alloc, a, b)?;
        if let Some(at) = first_heavy(&weights) {
            return Err(ModuleFault::Heavy(at + 1));
        }
        match first_huge(alloc, datum, a, b)? {
            Some(place) => Err(ModuleFault::Huge(place.0, place.1)),
            None => Ok(product(alloc, datum, a, b, weights)?),
        }
    }
}
