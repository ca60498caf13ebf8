//! The matrices of root elements at 1 and -1, and the bound of their absolute values.

ghost use Rattle.std.specs.Prelude.{◌≡◌, ◌≤◌, ◌<◌, suc, pos, ◌*ℤ◌, nat_abs, unsigned_abs, cond, eqb, IfOk};
ghost use Rattle.lie_ring.specs.Integers.{integers};
ghost use Rattle.lie_ring.specs.Matrices.{AllFit, entry};
ghost use Rattle.lie_const.specs.Modules.{dimension, top, divided_power, root_element, root_element_entry};
ghost use Rattle.lie_weight.specs.Conjugation.{absolute_element};
ghost use Rattle.lie_weight.specs.Factors.{HasSmallPowers, AreElements, absolute_entry};

use crate::modules::Module;
use crate::rules::{absolute_value, built, signed};
use lie_datum::RootId;
use lie_mat::{Entries, Mat};
use lie_ring::{Ints, RingStop};
use std::alloc::{AllocError, Global};

/// X_r(1) and X_r(-1) of a root, and the bound F_r of their absolute values.
#[derive(Drop)]
pub(crate) struct Elements {
    pub(crate) plus: Mat<Ints>,
    pub(crate) minus: Mat<Ints>,
    pub(crate) absolute: Mat<Ints>,
}

/// The entry of the identity.
fn unit_entry(row: usize, col: usize) -> i128
    ensures value { result ≡ cond (eqb row col) (pos 1) (pos 0) }
    ensures bound { unsigned_abs result ≤ 1 }
{
    if row == col { 1 } else { 0 }
}

/// The entry of a power of a root, times a number; the power counts from 0.
fn power_term(space: &Module, root: RootId, k: u32, factor: i128, row: usize, col: usize) -> i128
    requires powers { HasSmallPowers space.now root }
    requires k { k < top space.now root }
    requires unit { unsigned_abs factor ≤ 1 }
    requires row { row < dimension space.now }
    requires col { col < dimension space.now }
    ensures value { result ≡ factor *ℤ entry (pos 0) (divided_power space.now root (suc k)) row col }
    ensures bound { unsigned_abs result ≤ 100 }
{
    match space.power(root, k + 1).get(row, col) {
        Some(e) => signed(factor, *e),
        None => 0,
    }
}

/// The absolute value of that entry.
fn power_size(space: &Module, root: RootId, k: u32, row: usize, col: usize) -> i128
    requires powers { HasSmallPowers space.now root }
    requires k { k < top space.now root }
    requires row { row < dimension space.now }
    requires col { col < dimension space.now }
    ensures value { result ≡ pos (nat_abs (entry (pos 0) (divided_power space.now root (suc k)) row col)) }
    ensures bound { unsigned_abs result ≤ 100 }
{
    match space.power(root, k + 1).get(row, col) {
        Some(e) => absolute_value(*e),
        None => 0,
    }
}

/// The entry of X_r(c), where c is 1 or -1.
fn element_entry(space: &Module, root: RootId, factor: i128, row: usize, col: usize) -> i128
    requires powers { HasSmallPowers space.now root }
    requires unit { unsigned_abs factor ≤ 1 }
    requires row { row < dimension space.now }
    requires col { col < dimension space.now }
    ensures value { result ≡ root_element_entry integers space.now root factor row col }
    ensures bound { unsigned_abs result ≤ 1601 }
{
    let mut sum = unit_entry(row, col);
    let mut power = 1;
    for k in 0..space.top(root) {
        power = signed(power, factor);
        sum += power_term(space, root, k, power, row, col);
    }
    sum
}

/// The entry of F_r.
fn size_entry(space: &Module, root: RootId, row: usize, col: usize) -> i128
    requires powers { HasSmallPowers space.now root }
    requires row { row < dimension space.now }
    requires col { col < dimension space.now }
    ensures value { result ≡ absolute_entry space.now root row col }
    ensures bound { unsigned_abs result ≤ 1601 }
{
    let mut sum = unit_entry(row, col);
    for k in 0..space.top(root) {
        sum += power_size(space, root, k, row, col);
    }
    sum
}

/// The rule of X_r(c).
#[derive(Drop)]
struct ElementRule<'a> {
    ints: &'a Ints,
    space: &'a Module,
    root: RootId,
    factor: i128,
    ghost powers: { HasSmallPowers space.now root },
    ghost unit: { unsigned_abs factor ≤ 1 },
}

impl<'a> Entries for ElementRule<'a> {
    type Ring = Ints;

    ghost use Rattle.lie_ring.specs.Integers.{integers};
    ghost use Rattle.lie_const.specs.Modules.{dimension, root_element_entry};

    ghost over = { λ s. s.ints.now };

    ghost height = { λ s. dimension s.space.now };

    ghost width = { λ s. dimension s.space.now };

    ghost value = { λ s. root_element_entry integers s.space.now s.root s.factor };

    ghost is_wide = { λ _ _ _. ⊥ };

    fn ring(&self) -> &Ints {
        self.ints
    }

    fn entry(&self, _alloc: Global, row: usize, col: usize) -> Result<Option<i128>, RingStop> {
        Ok(Some(element_entry(self.space, self.root, self.factor, row, col)))
    }
}

/// The rule of F_r.
#[derive(Drop)]
struct ElementSize<'a> {
    ints: &'a Ints,
    space: &'a Module,
    root: RootId,
    ghost powers: { HasSmallPowers space.now root },
}

impl<'a> Entries for ElementSize<'a> {
    type Ring = Ints;

    ghost use Rattle.lie_const.specs.Modules.{dimension};
    ghost use Rattle.lie_weight.specs.Factors.{absolute_entry};

    ghost over = { λ s. s.ints.now };

    ghost height = { λ s. dimension s.space.now };

    ghost width = { λ s. dimension s.space.now };

    ghost value = { λ s. absolute_entry s.space.now s.root };

    ghost is_wide = { λ _ _ _. ⊥ };

    fn ring(&self) -> &Ints {
        self.ints
    }

    fn entry(&self, _alloc: Global, row: usize, col: usize) -> Result<Option<i128>, RingStop> {
        Ok(Some(size_entry(self.space, self.root, row, col)))
    }
}

/// X_r(c), where c is 1 or -1.
fn element(
    alloc: Global,
    space: &Module,
    root: RootId,
    factor: i128,
) -> Result<Mat<Ints>, AllocError>
    requires powers { HasSmallPowers space.now root }
    requires unit { unsigned_abs factor ≤ 1 }
    ensures value { IfOk result (λ m. m ≡ root_element integers space.now root factor) }
    ensures fit { IfOk result (AllFit integers) }
{
    let size = space.dim();
    let rule = ElementRule {
        ints: &Ints,
        space,
        root,
        factor,
    };
    built(alloc, &rule, size, size)
}

/// F_r.
fn absolute_element(alloc: Global, space: &Module, root: RootId) -> Result<Mat<Ints>, AllocError>
    requires powers { HasSmallPowers space.now root }
    ensures value { IfOk result (λ m. m ≡ absolute_element space.now root) }
    ensures fit { IfOk result (AllFit integers) }
{
    let size = space.dim();
    let rule = ElementSize {
        ints: &Ints,
        space,
        root,
    };
    built(alloc, &rule, size, size)
}

/// The elements of a root, and their bound.
pub(crate) fn elements_of(
    alloc: Global,
    space: &Module,
    root: RootId,
) -> Result<Elements, AllocError>
    requires { HasSmallPowers space.now root }
    ensures { IfOk result (AreElements space.now root) }
{
    let plus = element(alloc, space, root, 1)?;
    let minus = element(alloc, space, root, -1)?;
    let absolute = absolute_element(alloc, space, root)?;
    Ok(Elements {
        plus,
        minus,
        absolute,
    })
}
