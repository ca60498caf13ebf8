//! Direct sums of modules.

ghost use Rattle.std.specs.Prelude.{◌≡◌, ◌+◌, ◌≤◌, [], ◌∷◌, pos, IfOk, unsigned_abs};
ghost use Rattle.std.specs.List.{All};
ghost use Rattle.lie_ring.specs.Integers.{integers};
ghost use Rattle.lie_ring.specs.Matrices.{AllFit, direct_sum, zero_matrix};
ghost use Rattle.lie_datum.specs.RootList.{IsNumber};
ghost use Rattle.lie_const.specs.Modules.{IsModule, dimension, divided_power};
ghost use Rattle.lie_weight.specs.Kept.{IsSquare, ArePowers};
ghost use Rattle.lie_weight.specs.Sums.{IsSum, IsDirectSum, LoadsSum};
ghost use Rattle.lie_weight.specs.CarrierParts.{sum_powers, dimensions};

use crate::faults::ModuleFault;
use crate::modules::Module;
use lie_datum::{Datum, RootId};
use lie_mat::Mat;
use lie_ring::{Ints, RingStop};
use std::alloc::{AllocError, Global};

/// A sum of more weights makes no module.
const LIMIT: usize = 300;

/// E_r^(k), where the zero matrix stands for each power past the last.
fn power_or<'a>(space: &'a Module, r: RootId, k: u32, none: &'a Mat<Ints>) -> &'a Mat<Ints>
    requires r { unsigned_abs r ≤ space.now.positive }
    requires positive { 1 ≤ k }
    requires none { none.now ≡ zero_matrix (pos 0) (dimension space.now) (dimension space.now) }
    ensures value { result.now ≡ divided_power space.now r k }
    ensures square { IsSquare (dimension space.now) result.now }
{
    if k <= space.top(r) {
        space.power(r, k)
    } else {
        none
    }
}

/// The matrix with these two blocks on its diagonal.
fn blocks(alloc: Global, a: &Mat<Ints>, b: &Mat<Ints>) -> Result<Mat<Ints>, AllocError>
    requires few { a.now.height + b.now.height ≤ 1024 }
    requires a { IsSquare a.now.height a.now }
    requires b { IsSquare b.now.height b.now }
    ensures value { IfOk result (λ m. m ≡ direct_sum (pos 0) a.now b.now) }
    ensures fit { IfOk result (AllFit integers) }
{
    match a.direct_sum(alloc, &Ints, b) {
        Ok(sum) => Ok(sum),
        Err(RingStop::NoMemory) => Err(AllocError),
        Err(RingStop::Wide) => unreachable!(),
    }
}

/// The matrices of a root in the sum of two modules.
fn root_powers(
    alloc: Global,
    a: &Module,
    b: &Module,
    r: RootId,
) -> Result<Vec<Mat<Ints>>, AllocError>
    requires a { unsigned_abs r ≤ a.now.positive }
    requires b { unsigned_abs r ≤ b.now.positive }
    requires few { dimension a.now + dimension b.now ≤ 1024 }
    ensures value { IfOk result (λ list. list.items ≡ sum_powers a.now b.now r) }
    ensures kept { IfOk result (λ list. ArePowers (dimension a.now + dimension b.now) list.items) }
{
    a.kept();
    b.kept();
    let no_first = Mat::zero(alloc, a.dim(), a.dim())?;
    let no_second = Mat::zero(alloc, b.dim(), b.dim())?;
    let mut powers = Vec::new(alloc);
    for k in 0..a.top(r).max(b.top(r)) {
        let first = power_or(a, r, k + 1, &no_first);
        let second = power_or(b, r, k + 1, &no_second);
        let sum = blocks(alloc, first, second)?;
        powers.push(sum)?;
    }
    Ok(powers)
}

/// The sum of two modules, with the basis of the first before that of the second.
pub(crate) fn sum(
    alloc: Global,
    datum: &Datum,
    a: &Module,
    b: &Module,
) -> Result<Module, AllocError>
    requires a { IsModule datum.now a.now }
    requires b { IsModule datum.now b.now }
    requires few { dimension a.now + dimension b.now ≤ 1024 }
    ensures { IfOk result (IsSum datum.now a.now b.now) }
{
    datum.loaded();
    a.kept();
    b.kept();
    let positive = datum.m();
    let mut weights = Vec::from_slice(alloc, a.weights())?;
    weights.extend_from_slice(b.weights())?;
    let mut powers = Vec::new(alloc);
    for place in 0..2 * positive {
        let r = RootId::at(place, positive);
        powers.push(root_powers(alloc, a, b, r)?)?;
    }
    Ok(Module {
        positive,
        weights,
        powers,
    })
}

/// The sum of a module and of the modules of a list, in this order.
pub(crate) fn direct_sum(
    alloc: Global,
    datum: &Datum,
    first: &Module,
    others: &[Module],
) -> Result<Module, AllocError>
    requires modules { All (IsModule datum.now) (first.now ∷ others.now) }
    requires few { dimensions (first.now ∷ others.now) ≤ 1024 }
    ensures { IfOk result (IsDirectSum datum.now (first.now ∷ others.now)) }
{
    let rest = match others.split_first() {
        Some((second, more)) => direct_sum(alloc, datum, second, more)?,
        None => nothing(alloc, datum)?,
    };
    sum(alloc, datum, first, &rest)
}

/// The module with no basis vector.
fn nothing(alloc: Global, datum: &Datum) -> Result<Module, AllocError>
    ensures { IfOk result (IsDirectSum datum.now []) }
{
    datum.loaded();
    Module::bare(alloc, datum.m(), Vec::new(alloc))
}

impl Module {
    /// The direct sum of two modules, with the basis of `a` before that of `b`.
    ///
    /// Modules keep their weights within 1,000,000, so no weight of the sum is heavy.
    pub fn sum(alloc: Global, datum: &Datum, a: &Module, b: &Module) -> Result<Module, ModuleFault>
        requires a { IsModule datum.now a.now }
        requires b { IsModule datum.now b.now }
        ensures { LoadsSum datum.now a.now b.now result }
    {
        let count = a.dim() + b.dim();
        if count > LIMIT {
            return Err(ModuleFault::Wide(count.min(1025) as u64));
        }
        Ok(sum(alloc, datum, a, b)?)
    }
}
