//! The module in which the simple roots and their negatives have their matrices.

ghost use Rattle.std.specs.Prelude.{◌≡◌, ◌≤◌, ◌<◌, ◌+◌, IfOk, length};
ghost use Rattle.std.specs.List.{All};
ghost use Rattle.lie_datum.specs.RootDatum.{rank, IsWithin};
ghost use Rattle.lie_datum.specs.RootList.{IsNumber};
ghost use Rattle.lie_const.specs.Modules.{dimension};
ghost use Rattle.lie_weight.specs.Along.{AreSteppable};
ghost use Rattle.lie_weight.specs.Completion.{IsDraft, IsFilled, Writes, source_powers, IsSource};

use crate::modules::Module;
use crate::sources::{Source, simple_powers};
use lie_datum::{Datum, RootId, Vector};
use std::alloc::{AllocError, Global};

/// Writes the matrices of a root, simple or the negative of a simple root.
fn write_root(
    alloc: Global,
    datum: &Datum,
    source: &Source<'_>,
    space: &mut Module,
    root: RootId,
) -> Result<(), AllocError>
    requires number { IsNumber datum.now root }
    requires weights { AreSteppable space.old.weights }
    requires source { IsSource datum.now (dimension space.old) source.now }
    requires draft { IsDraft datum.now space.old }
    ensures { IfOk result (λ _. Writes (source_powers datum.now space.old.weights source.now) space.old root space.new) }
{
    datum.loaded();
    let powers = simple_powers(alloc, datum, source, space.weights(), root)?;
    space.set_powers(root, powers);
    Ok(())
}

/// Writes the matrices of the i-th simple root and of its negative, with i counted from 0.
fn write_simple(
    alloc: Global,
    datum: &Datum,
    source: &Source<'_>,
    space: &mut Module,
    i: usize,
) -> Result<(), AllocError>
    requires index { i < rank datum.now.base }
    requires weights { AreSteppable space.old.weights }
    requires source { IsSource datum.now (dimension space.old) source.now }
    requires filled { IsFilled datum.now (source_powers datum.now space.old.weights source.now) i space.old }
    ensures filled { IfOk result (λ _. IsFilled datum.now (source_powers datum.now space.old.weights source.now) (i + 1) space.new) }
    ensures weights { IfOk result (λ _. space.new.weights ≡ space.old.weights) }
{
    datum.loaded();
    let simple = datum.simple(i + 1);
    write_root(alloc, datum, source, space, simple)?;
    write_root(alloc, datum, source, space, simple.opposite())
}

/// The module with these weights and the matrices of the simple roots and of their negatives.
pub(crate) fn filled(
    alloc: Global,
    datum: &Datum,
    source: &Source<'_>,
    weights: Vec<Vector>,
) -> Result<Module, AllocError>
    requires weights { AreSteppable weights.items }
    requires source { IsSource datum.now (length weights.items) source.now }
    ensures filled { IfOk result (IsFilled datum.now (source_powers datum.now weights.items source.now) (rank datum.now.base)) }
    ensures weights { IfOk result (λ v. v.weights ≡ weights.items) }
{
    let mut space = Module::bare(alloc, datum.m(), weights)?;
    for i in 0..datum.l() {
        write_simple(alloc, datum, source, &mut space, i)?;
    }
    Ok(space)
}
