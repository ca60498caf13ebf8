//! What X_r(f) adds to a column: polynomials in rows, which are listed and then added.

ghost use Rattle.std.specs.Prelude.{◌≡◌, ◌<◌, ◌≤◌, ◌+◌, ◌*◌, ◌^◌, ◌++◌, ℕ, map, length, unsigned_abs, IfOk};
ghost use Rattle.lie_ring.specs.Rings.{Fits};
ghost use Rattle.lie_ring.specs.Matrices.{AllFit, entry, with_entry};
ghost use Rattle.lie_datum.specs.RootList.{IsNumber};
ghost use Rattle.lie_const.specs.Modules.{dimension, top};
ghost use Rattle.lie_poly.specs.Polynomials.{laurent, plus, size};
ghost use Rattle.lie_identities.specs.Columns.{IsColumn};
ghost use Rattle.lie_identities.specs.Additions.{added_in, size_in, AreAdditions};
ghost use Rattle.lie_identities.specs.Moves.{IsNarrowMove, moved, base_of, HasPowers, AreNarrowSteps, addition, IsReadyForRoot, AddsRows};

use crate::narrow::{copied, integer, narrow_product, narrow_sum};
use crate::steps::{Step, Steps};
use lie_datum::RootId;
use lie_mat::Mat;
use lie_poly::{Laurent, Poly};
use std::alloc::{AllocError, Global};

/// The entry in a row with a polynomial added.
fn raised(
    alloc: Global,
    column: &Mat<Laurent>,
    row: usize,
    value: &Poly,
) -> Result<Poly, AllocError>
    requires row { row < column.now.height }
    requires width { column.now.width ≡ 1 }
    requires fit { AllFit laurent column.now }
    requires value { Fits laurent value.now }
    requires small { size (entry laurent.zero column.now row 0) + size value.now < 2 ^ 126 }
    ensures value { IfOk result (λ p. p ≡ plus (entry laurent.zero column.now row 0) value.now) }
    ensures fits { IfOk result (Fits laurent) }
{
    match column.get(row, 0) {
        None => copied(alloc, value),
        Some(old) => narrow_sum(alloc, old, value),
    }
}

/// Adds a polynomial in a row.
fn add(alloc: Global, column: &mut Mat<Laurent>, row: usize, value: &Poly) -> Result<(), AllocError>
    requires row { row < column.old.height }
    requires width { column.old.width ≡ 1 }
    requires fit { AllFit laurent column.old }
    requires value { Fits laurent value.now }
    requires small { size (entry laurent.zero column.old row 0) + size value.now < 2 ^ 126 }
    ensures value { IfOk result (λ _. column.new ≡ with_entry laurent.zero column.old row 0 (plus (entry laurent.zero column.old row 0) value.now)) }
    ensures fit { IfOk result (λ _. AllFit laurent column.new) }
{
    let sum = raised(alloc, column, row, value)?;
    column.set(&Laurent, row, 0, sum)
}

/// Adds polynomials in rows.
pub(crate) fn add_all(
    alloc: Global,
    column: &mut Mat<Laurent>,
    additions: &[(usize, Poly)],
) -> Result<(), AllocError>
    requires column { IsColumn column.old.height column.old }
    requires additions { AreAdditions laurent column.old.height additions.now }
    requires small { (a : ℕ) → a < column.old.height → size (entry laurent.zero column.old a 0) + size_in laurent a additions.now < 2 ^ 126 }
    ensures column { IfOk result (λ _. IsColumn column.old.height column.new) }
    ensures value { IfOk result (λ _. (a : ℕ) → a < column.old.height → entry laurent.zero column.new a 0 ≡ plus (entry laurent.zero column.old a 0) (added_in laurent a additions.now)) }
{
    for addition in additions {
        add(alloc, column, addition.0, &addition.1)?;
    }
    Ok(())
}

/// A power of f, times an entry of a divided power, times an entry of a column.
fn move_entry(alloc: Global, power: &Poly, step: Step, entry: &Poly) -> Result<Poly, AllocError>
    requires power { Fits laurent power.now }
    requires entry { Fits laurent entry.now }
    requires narrow { IsNarrowMove power.now step.value entry.now }
    ensures value { IfOk result (λ p. p ≡ moved power.now step.value entry.now) }
    ensures fits { IfOk result (Fits laurent) }
{
    let number = integer(alloc, step.value)?;
    let factor = narrow_product(alloc, power, &number)?;
    narrow_product(alloc, &factor, entry)
}

/// Lists what one entry of a column adds. The powers are f, f^2, ..
fn push_additions(
    alloc: Global,
    steps: &[Step],
    powers: &[Poly],
    entry: &Poly,
    additions: &mut Vec<(usize, Poly)>,
) -> Result<(), AllocError>
    requires powers { HasPowers (length powers.now) powers.now }
    requires entry { Fits laurent entry.now }
    requires steps { AreNarrowSteps (base_of powers.now) (length powers.now) entry.now steps.now }
    ensures { IfOk result (λ _. additions.new.items ≡ additions.old.items ++ map (addition laurent (base_of powers.now) entry.now) steps.now) }
{
    for step in steps {
        let value = move_entry(alloc, &powers[step.power as usize - 1], *step, entry)?;
        additions.push((step.row, value))?;
    }
    Ok(())
}

/// Lists what X_r(f) adds to a column.
pub(crate) fn additions(
    alloc: Global,
    steps: &Steps,
    r: RootId,
    powers: &[Poly],
    column: &Mat<Laurent>,
) -> Result<Vec<(usize, Poly)>, AllocError>
    requires r { IsNumber steps.now.datum.now r }
    requires powers { HasPowers (top steps.now.module.now r) powers.now }
    requires ready { IsReadyForRoot steps.now.module.now r (base_of powers.now) column.now }
    ensures { IfOk result (λ xs. AddsRows steps.now.module.now r (base_of powers.now) column.now (dimension steps.now.module.now) xs.items) }
{
    let mut additions = Vec::new(alloc);
    let mut from = 0;
    while let Some((row, entry)) = column.next_kept(from, 0) {
        push_additions(alloc, steps.column(r, row), powers, entry, &mut additions)?;
        from = row + 1;
    }
    Ok(additions)
}
