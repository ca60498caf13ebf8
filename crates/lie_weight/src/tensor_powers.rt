//! The matrices of one root in a tensor product.

ghost use Rattle.std.specs.Prelude.{◌≡◌, ℕ, suc, ◌+◌, ◌*◌, ◌^◌, ◌<◌, ◌≤◌, ◌↔◌, pos, true, nat_abs, unsigned_abs, IsTrue, IfOk, MatchOption};
ghost use Rattle.lie_ring.specs.Integers.{integers};
ghost use Rattle.lie_ring.specs.Matrices.{AllFit, entry, table};
ghost use Rattle.lie_mat.specs.Wide.{IsHugeMatrix};
ghost use Rattle.lie_const.specs.Modules.{dimension, divided_power};
ghost use Rattle.lie_weight.specs.Kept.{IsSquare, IsKeptModule};
ghost use Rattle.lie_weight.specs.Tensors.{tensor_power, tensor_size};
ghost use Rattle.lie_weight.specs.TensorParts.{factor, tensor_term, tensor_entry, IsFirstHugeProduct, AreTensorPowers};

use crate::modules::Module;
use crate::powers::kept;
use crate::rules::absolute_value;
use lie_datum::RootId;
use lie_mat::{Entries, Mat, build};
use lie_ring::{Ints, Ring, RingStop};
use std::alloc::{AllocError, Global};

/// The entry of E_r^(k).
fn power_entry(space: &Module, root: RootId, k: u32, row: usize, col: usize) -> i128
    requires root { unsigned_abs root ≤ space.now.positive }
    requires row { row < dimension space.now }
    requires col { col < dimension space.now }
    ensures value { result ≡ entry (pos 0) (divided_power space.now root k) row col }
    ensures fit { nat_abs result < 2 ^ 126 }
{
    if k == 0 {
        return if row == col { 1 } else { 0 };
    }
    if k > space.top(root) {
        return 0;
    }
    match space.power(root, k).get(row, col) {
        Some(e) => *e,
        None => 0,
    }
}

/// The entry of E_r^(k), or its absolute value.
fn factor_entry(space: &Module, root: RootId, k: u32, sizes: bool, row: usize, col: usize) -> i128
    requires root { unsigned_abs root ≤ space.now.positive }
    requires kept { IsKeptModule space.now }
    requires row { row < dimension space.now }
    requires col { col < dimension space.now }
    ensures value { result ≡ entry (pos 0) (factor sizes space.now root k) row col }
    ensures fit { nat_abs result < 2 ^ 126 }
{
    let e = power_entry(space, root, k, row, col);
    if sizes { absolute_value(e) } else { e }
}

/// The rule of E_r^(k) of a tensor product, or of its size.
#[derive(Drop)]
struct ProductRule<'a> {
    ints: &'a Ints,
    first: &'a Module,
    second: &'a Module,
    root: RootId,
    power: u32,
    sizes: bool,
    ghost first_root: { unsigned_abs root ≤ first.now.positive },
    ghost second_root: { unsigned_abs root ≤ second.now.positive },
    ghost bound: { power ≤ 40000 },
    ghost first_kept: { IsKeptModule first.now },
    ghost second_kept: { IsKeptModule second.now },
}

impl<'a> ProductRule<'a> {
    /// What the powers i and k - i add to an entry.
    fn term(&self, alloc: Global, i: u32, row: usize, col: usize) -> Result<i128, RingStop>
        requires i { i ≤ self.now.power }
        requires row { row < dimension self.now.first.now * dimension self.now.second.now }
        requires col { col < dimension self.now.first.now * dimension self.now.second.now }
        ensures value { IfOk result (λ t. t ≡ tensor_term self.now.sizes self.now.first.now self.now.second.now self.now.root self.now.power row col i) }
        ensures fit { IfOk result (λ t. nat_abs t < 2 ^ 126) }
        ensures wide { result ≡ Err RingStop.Wide → 2 ^ 126 ≤ nat_abs (tensor_term true self.now.first.now self.now.second.now self.now.root self.now.power row col i) }
    {
        let n = self.second.dim();
        let x = factor_entry(self.first, self.root, i, self.sizes, row / n, col / n);
        if x == 0 {
            return Ok(0);
        }
        let y = factor_entry(
            self.second,
            self.root,
            self.power - i,
            self.sizes,
            row % n,
            col % n,
        );
        Ints.mul(alloc, &x, &y)
    }

    /// The entry.
    fn sum(&self, alloc: Global, row: usize, col: usize) -> Result<i128, RingStop>
        requires row { row < dimension self.now.first.now * dimension self.now.second.now }
        requires col { col < dimension self.now.first.now * dimension self.now.second.now }
        ensures value { IfOk result (λ e. e ≡ tensor_entry self.now.sizes self.now.first.now self.now.second.now self.now.root self.now.power row col) }
        ensures fit { IfOk result (λ e. nat_abs e < 2 ^ 126) }
        ensures wide { result ≡ Err RingStop.Wide → 2 ^ 126 ≤ nat_abs (tensor_entry true self.now.first.now self.now.second.now self.now.root self.now.power row col) }
    {
        let mut sum = 0;
        for i in 0..self.power + 1 {
            let term = self.term(alloc, i, row, col)?;
            sum = Ints.add(alloc, &sum, &term)?;
        }
        Ok(sum)
    }
}

impl<'a> Entries for ProductRule<'a> {
    type Ring = Ints;

    ghost use Rattle.std.specs.Prelude.{◌*◌, ◌^◌, ◌≤◌, true, nat_abs};
    ghost use Rattle.lie_const.specs.Modules.{dimension};
    ghost use Rattle.lie_weight.specs.TensorParts.{tensor_entry};

    ghost over = { λ s. s.ints.now };

    ghost height = { λ s. dimension s.first.now * dimension s.second.now };

    ghost width = { λ s. dimension s.first.now * dimension s.second.now };

    ghost value = { λ s. tensor_entry s.sizes s.first.now s.second.now s.root s.power };

    ghost is_wide = { λ s i j. 2 ^ 126 ≤ nat_abs (tensor_entry true s.first.now s.second.now s.root s.power i j) };

    fn ring(&self) -> &Ints {
        self.ints
    }

    fn entry(&self, alloc: Global, row: usize, col: usize) -> Result<Option<i128>, RingStop> {
        match self.sum(alloc, row, col) {
            Ok(sum) => Ok(Some(sum)),
            Err(stop) => Err(stop),
        }
    }
}

/// E_r^(k) of a tensor product, or its size.
fn made(
    alloc: Global,
    first: &Module,
    second: &Module,
    root: RootId,
    power: u32,
    sizes: bool,
) -> Result<Mat<Ints>, RingStop>
    requires first { unsigned_abs root ≤ first.now.positive }
    requires second { unsigned_abs root ≤ second.now.positive }
    requires few { dimension first.now * dimension second.now ≤ 300 }
    requires power { power ≤ 40000 }
    ensures value { IfOk result (λ m. m ≡ table (dimension first.now * dimension second.now) (dimension first.now * dimension second.now) (tensor_entry sizes first.now second.now root power)) }
    ensures fit { IfOk result (AllFit integers) }
    ensures wide { result ≡ Err RingStop.Wide → IsHugeMatrix (tensor_size first.now second.now root power) }
{
    first.kept();
    second.kept();
    let rule = ProductRule {
        ints: &Ints,
        first,
        second,
        root,
        power,
        sizes,
    };
    let size = first.dim() * second.dim();
    build(alloc, &rule, size, size)
}

/// Whether the product is huge.
fn is_huge(
    alloc: Global,
    first: &Module,
    second: &Module,
    root: RootId,
    power: u32,
) -> Result<bool, AllocError>
    requires first { unsigned_abs root ≤ first.now.positive }
    requires second { unsigned_abs root ≤ second.now.positive }
    requires few { dimension first.now * dimension second.now ≤ 300 }
    requires power { power ≤ 40000 }
    ensures { IfOk result (λ huge. IsTrue huge ↔ IsHugeMatrix (tensor_size first.now second.now root power)) }
{
    match made(alloc, first, second, root, power, true) {
        Ok(_) => Ok(false),
        Err(RingStop::Wide) => Ok(true),
        Err(RingStop::NoMemory) => Err(AllocError),
    }
}

/// E_r^(k) of the product, where it is not huge.
fn product_power(
    alloc: Global,
    first: &Module,
    second: &Module,
    root: RootId,
    power: u32,
) -> Result<Mat<Ints>, AllocError>
    requires first { unsigned_abs root ≤ first.now.positive }
    requires second { unsigned_abs root ≤ second.now.positive }
    requires few { dimension first.now * dimension second.now ≤ 300 }
    requires power { power ≤ 40000 }
    requires small { ¬ IsHugeMatrix (tensor_size first.now second.now root power) }
    ensures value { IfOk result (λ m. m ≡ tensor_power first.now second.now root power) }
    ensures square { IfOk result (IsSquare (dimension first.now * dimension second.now)) }
{
    match made(alloc, first, second, root, power, false) {
        Ok(matrix) => Ok(matrix),
        Err(RingStop::NoMemory) => Err(AllocError),
        Err(RingStop::Wide) => unreachable!(),
    }
}

/// The first power of a root at which the product is huge.
pub(crate) fn first_huge_power(
    alloc: Global,
    first: &Module,
    second: &Module,
    root: RootId,
) -> Result<Option<u32>, AllocError>
    requires first { unsigned_abs root ≤ first.now.positive }
    requires second { unsigned_abs root ≤ second.now.positive }
    requires few { dimension first.now * dimension second.now ≤ 300 }
    ensures { IfOk result (λ o. MatchOption o ((k : ℕ) → ¬ IsHugeMatrix (tensor_size first.now second.now root (suc k))) (IsFirstHugeProduct first.now second.now root)) }
{
    first.kept();
    second.kept();
    for k in 0..first.top(root) + second.top(root) {
        if is_huge(alloc, first, second, root, k + 1)? {
            return Ok(Some(k + 1));
        }
    }
    Ok(None)
}

/// The matrices of a root in the product, up to the last that is not 0.
pub(crate) fn product_powers(
    alloc: Global,
    first: &Module,
    second: &Module,
    root: RootId,
) -> Result<Vec<Mat<Ints>>, AllocError>
    requires first { unsigned_abs root ≤ first.now.positive }
    requires second { unsigned_abs root ≤ second.now.positive }
    requires few { dimension first.now * dimension second.now ≤ 300 }
    requires small { (k : ℕ) → ¬ IsHugeMatrix (tensor_size first.now second.now root (suc k)) }
    ensures { IfOk result (λ list. AreTensorPowers first.now second.now root list.items) }
{
    first.kept();
    second.kept();
    let mut list = Vec::new(alloc);
    for k in 0..first.top(root) + second.top(root) {
        list.push(product_power(alloc, first, second, root, k + 1)?)?;
    }
    kept(alloc, first.dim() * second.dim(), list)
}
