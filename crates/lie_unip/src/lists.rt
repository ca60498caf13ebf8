//! Lists of elements, and the letters of full words.

ghost use Rattle.std.specs.Prelude.{◌≡◌, ◌∷◌, [], nat_abs, reverse, replicate, IfOk, IsTrue};
ghost use Rattle.std.specs.List.{All, AllByRecursion};
ghost use Rattle.lie_ring.specs.Rings.{RingOn, Fits};
ghost use Rattle.lie_letters.specs.RingLetters.{full_word, inverse_word};
ghost use Rattle.lie_unip.specs.PositiveLetters.{by_place};

use lie_datum::RootId;
use lie_ring::{Ring, roomy_copy, roomy_neg, roomy_zero};
use std::alloc::{AllocError, Global};

/// A copy of the elements.
pub(crate) fn copied<R: Ring>(
    ring: &R,
    alloc: Global,
    entries: &[R::Elem],
) -> Result<Vec<R::Elem>, AllocError>
    requires roomy { IsTrue (R.ring ring.now).roomy }
    requires fit { All (Fits (R.ring ring.now)) entries.now }
    ensures { IfOk result (λ v. v.items ≡ entries.now) }
{
    let mut copies = Vec::new(alloc);
    for a in entries {
        let copy = roomy_copy(ring, alloc, a)?;
        copies.push(copy)?;
    }
    Ok(copies)
}

/// Zeros alone.
pub(crate) fn zeros<R: Ring>(
    ring: &R,
    alloc: Global,
    count: usize,
) -> Result<Vec<R::Elem>, AllocError>
    requires roomy { IsTrue (R.ring ring.now).roomy }
    ensures { IfOk result (λ v. v.items ≡ replicate count (R.ring ring.now).zero) }
{
    let mut entries = Vec::new(alloc);
    for _ in 0..count {
        let zero = roomy_zero(ring, alloc)?;
        entries.push(zero)?;
    }
    Ok(entries)
}

/// The letters of the full word, the first one last.
pub(crate) fn letters<R: Ring>(
    ring: &R,
    alloc: Global,
    entries: &[R::Elem],
) -> Result<Vec<(usize, R::Elem)>, AllocError>
    requires roomy { IsTrue (R.ring ring.now).roomy }
    requires fit { All (Fits (R.ring ring.now)) entries.now }
    ensures { IfOk result (λ v. reverse v.items ≡ full_word entries.now) }
{
    let mut todo = Vec::new(alloc);
    for k in (0..entries.len()).rev() {
        let copy = roomy_copy(ring, alloc, &entries[k])?;
        todo.push((k + 1, copy))?;
    }
    Ok(todo)
}

/// The inverse letters of the full word, of which the last one comes first.
pub(crate) fn inverse_letters<R: Ring>(
    ring: &R,
    alloc: Global,
    entries: &[R::Elem],
) -> Result<Vec<(usize, R::Elem)>, AllocError>
    requires roomy { IsTrue (R.ring ring.now).roomy }
    requires fit { All (Fits (R.ring ring.now)) entries.now }
    ensures { IfOk result (λ v. reverse v.items ≡ inverse_word (R.ring ring.now) (full_word entries.now)) }
{
    let mut todo = Vec::new(alloc);
    for k in 0..entries.len() {
        let minus = roomy_neg(ring, alloc, &entries[k])?;
        todo.push((k + 1, minus))?;
    }
    Ok(todo)
}

/// A copy of a letter, at the place of its root.
fn placed<R: Ring>(
    ring: &R,
    alloc: Global,
    r: RootId,
    a: &R::Elem,
) -> Result<(usize, R::Elem), AllocError>
    requires roomy { IsTrue (R.ring ring.now).roomy }
    requires fits { Fits (R.ring ring.now) a.now }
    ensures { IfOk result (λ x. x ≡ (nat_abs r, a.now)) }
{
    let copy = roomy_copy(ring, alloc, a)?;
    Ok((r.number().unsigned_abs() as usize, copy))
}

/// One letter, at a positive root.
pub(crate) fn one_letter<R: Ring>(
    ring: &R,
    alloc: Global,
    r: RootId,
    a: &R::Elem,
) -> Result<Vec<(usize, R::Elem)>, AllocError>
    requires roomy { IsTrue (R.ring ring.now).roomy }
    requires fits { Fits (R.ring ring.now) a.now }
    ensures { IfOk result (λ v. v.items ≡ (nat_abs r, a.now) ∷ []) }
{
    let mut todo = Vec::new(alloc);
    let letter = placed(ring, alloc, r, a)?;
    todo.push(letter)?;
    Ok(todo)
}

/// The letters by the places of their roots, the first one last.
pub(crate) fn reversed_letters<R: Ring>(
    ring: &R,
    alloc: Global,
    letters: &[(RootId, R::Elem)],
) -> Result<Vec<(usize, R::Elem)>, AllocError>
    requires roomy { IsTrue (R.ring ring.now).roomy }
    requires fit { AllByRecursion (λ x. Fits (R.ring ring.now) x.1) letters.now }
    ensures { IfOk result (λ v. reverse v.items ≡ by_place letters.now) }
{
    let mut todo = Vec::new(alloc);
    for k in (0..letters.len()).rev() {
        let (r, a) = &letters[k];
        let letter = placed(ring, alloc, *r, a)?;
        todo.push(letter)?;
    }
    Ok(todo)
}
