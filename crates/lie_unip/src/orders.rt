//! The orders that words are brought to: that of the numbers, and that in which the roots that a
//! Weyl element keeps positive come first.

ghost use Rattle.std.specs.Prelude.{◌≡◌, ◌≢◌, ◌↔◌, pos, ◌<ℤ◌, cond, not, ℕ, ◌-◌, ◌+◌, ◌<◌, ◌≤◌, ◌++◌, Ok, reverse, nat_lt, Bool, true, false, List, length, slice_index_or, IfOk, OnOk, IsTrue, []};
ghost use Rattle.std.specs.List.{range_with_len};
ghost use Rattle.lie_ring.specs.Rings.{RingOn, Fits};
ghost use Rattle.lie_weyl.specs.WeylElement.{IsElement, Spells};
ghost use Rattle.lie_const.specs.ConstantTables.{LoadsConstants};
ghost use Rattle.lie_letters.specs.RingLetters.{full_word, IsRingWord};
ghost use Rattle.lie_letters.specs.PositiveTerms.{positive_terms};
ghost use Rattle.lie_unip.specs.Collection.{AreEntries, IsCollected, elements};
ghost use Rattle.lie_unip.specs.Splitting.{IsSplit, kept_at, kept_by, chosen};
ghost use Rattle.lie_unip.specs.Placing.{AreRoots, group_from, letters_at};

use crate::collector::Collector;
use crate::lists::{letters, zeros};
use lie_const::Constants;
use lie_datum::{Datum, RootId};
use lie_ring::{Ring, roomy_copy, roomy_zero};
use lie_weyl::Weyl;
use std::alloc::{AllocError, Global};

impl<'a, R: Ring> Collector<'a, R> {
    /// A collector for the order of the numbers.
    pub(crate) fn in_order(
        alloc: Global,
        ring: &'a R,
        datum: &Datum,
        consts: &'a Constants,
    ) -> Result<Collector<'a, R>, AllocError>
        requires roomy { IsTrue (R.ring ring.now).roomy }
        requires constants { LoadsConstants datum.now (Ok consts.now) }
        ensures ring { IfOk result (λ c. c.ring.now ≡ ring.now) }
        ensures consts { IfOk result (λ c. c.consts.now ≡ consts.now) }
        ensures kept { IfOk result (λ c. c.kept.items ≡ []) }
        ensures roots { IfOk result (λ c. c.roots.items ≡ range_with_len 1 (length datum.now.positive)) }
    {
        datum.loaded();
        let m = datum.m();
        let zero = roomy_zero(ring, alloc)?;
        let mut roots = Vec::new(alloc);
        let mut places = Vec::new(alloc);
        for k in 0..m {
            roots.push(k + 1)?;
            places.push(k)?;
        }
        Ok(Collector {
            ring,
            consts,
            alloc,
            zero,
            kept: Vec::new(alloc),
            roots,
            places,
        })
    }

    /// A collector for the order in which the roots that the element keeps positive come first.
    pub(crate) fn with_first(
        alloc: Global,
        ring: &'a R,
        datum: &Datum,
        consts: &'a Constants,
        w: &Weyl,
    ) -> Result<Collector<'a, R>, AllocError>
        requires roomy { IsTrue (R.ring ring.now).roomy }
        requires constants { LoadsConstants datum.now (Ok consts.now) }
        requires element { IsElement datum.now w.now }
        ensures ring { IfOk result (λ c. c.ring.now ≡ ring.now) }
        ensures consts { IfOk result (λ c. c.consts.now ≡ consts.now) }
        ensures count { IfOk result (λ c. length c.kept.items ≡ consts.now.positive) }
        ensures kept { IfOk result (λ c. (word : List ℕ) → Spells datum.now word w.now → c.kept.items ≡ kept_by datum.now word) }
    {
        datum.loaded();
        let m = datum.m();
        let zero = roomy_zero(ring, alloc)?;
        let kept = kept_roots(alloc, datum, w)?;
        let mut roots = Vec::new(alloc);
        push_group(&kept, true, &mut roots)?;
        push_group(&kept, false, &mut roots)?;
        let places = places_of(alloc, &roots, m)?;
        Ok(Collector {
            ring,
            consts,
            alloc,
            zero,
            kept,
            roots,
            places,
        })
    }

    /// The element of the k-th root, with k counted from 0, if it is of the first group, or of the
    /// other one, and else 0.
    fn chosen_entry(
        &self,
        entries: &[R::Elem],
        k: usize,
        first: bool,
    ) -> Result<R::Elem, AllocError>
        requires count { length self.now.kept.items ≡ self.now.consts.now.positive }
        requires entries { AreEntries (R.ring self.now.ring.now) (length self.now.roots.items) entries.now }
        requires k { k < self.now.consts.now.positive }
        ensures value { IfOk result (λ x. x ≡ cond (cond first (slice_index_or self.now.kept.items k false) (not (slice_index_or self.now.kept.items k false)))
            (slice_index_or entries.now (slice_index_or self.now.places.items k 0) (R.ring self.now.ring.now).zero) (R.ring self.now.ring.now).zero) }
        ensures fits { IfOk result (Fits (R.ring self.now.ring.now)) }
    {
        if self.kept[k] == first {
            let place = self.places[k];
            roomy_copy(self.ring, self.alloc, &entries[place])
        } else {
            roomy_copy(self.ring, self.alloc, &self.zero)
        }
    }

    /// The elements at the roots of the first group, or of the other one, and 0 elsewhere, in the
    /// order of the numbers.
    pub(crate) fn part(&self, entries: &[R::Elem], first: bool) -> Result<Vec<R::Elem>, AllocError>
        requires count { length self.now.kept.items ≡ self.now.consts.now.positive }
        requires entries { AreEntries (R.ring self.now.ring.now) (length self.now.roots.items) entries.now }
        ensures entries { IfOk result (λ v. AreEntries (R.ring self.now.ring.now) self.now.consts.now.positive v.items) }
        ensures chosen { IfOk result (λ v. v.items ≡ chosen (λ r. cond first (kept_at self.now.kept.items r) (not (kept_at self.now.kept.items r))) (R.ring self.now.ring.now).zero 1
            (elements (R.ring self.now.ring.now) self.now.consts.now.positive (letters_at self.now.roots.items entries.now))) }
    {
        let mut part = Vec::new(self.alloc);
        for k in 0..self.kept.len() {
            let element = self.chosen_entry(entries, k, first)?;
            part.push(element)?;
        }
        Ok(part)
    }

    /// The full word of the elements collected, and cut between the two groups.
    pub(crate) fn split(
        &self,
        entries: &[R::Elem],
    ) -> Result<(Vec<R::Elem>, Vec<R::Elem>), AllocError>
        requires count { length self.now.kept.items ≡ self.now.consts.now.positive }
        requires entries { AreEntries (R.ring self.now.ring.now) self.now.consts.now.positive entries.now }
        ensures first { IfOk result (λ p. AreEntries (R.ring self.now.ring.now) self.now.consts.now.positive p.0.items) }
        ensures second { IfOk result (λ p. AreEntries (R.ring self.now.ring.now) self.now.consts.now.positive p.1.items) }
        ensures split { IfOk result (λ p. IsSplit (R.ring self.now.ring.now) (positive_terms self.now.consts.now) self.now.consts.now.positive (kept_at self.now.kept.items) entries.now p.0.items p.1.items) }
    {
        let mut sorted = zeros(self.ring, self.alloc, self.roots.len())?;
        let todo = letters(self.ring, self.alloc, entries)?;
        self.collect(&mut sorted, todo)?;
        let first = self.part(&sorted, true)?;
        let second = self.part(&sorted, false)?;
        Ok((first, second))
    }
}

/// Whether the number of a root is positive.
fn is_positive(r: RootId) -> bool
    ensures { IsTrue result ↔ (pos 0 <ℤ r) }
{
    r.number() > 0
}

/// Whether the element keeps each positive root positive, in order.
fn kept_roots(alloc: Global, datum: &Datum, w: &Weyl) -> Result<Vec<bool>, AllocError>
    requires { IsElement datum.now w.now }
    ensures { IfOk result (λ v. (word : List ℕ) → Spells datum.now word w.now → v.items ≡ kept_by datum.now word) }
{
    datum.loaded();
    let m = datum.m();
    let mut kept = Vec::new(alloc);
    for k in 0..m {
        let image = w.image(datum, RootId::at(k, m));
        kept.push(is_positive(image))?;
    }
    Ok(kept)
}

/// Appends the roots of the first group, or those of the other one.
fn push_group(kept: &[bool], first: bool, roots: &mut Vec<usize>) -> Result<(), AllocError>
    ensures { OnOk result (roots.new.items ≡ roots.old.items ++ group_from first 1 kept.now) }
{
    for k in 0..kept.len() {
        if kept[k] == first {
            roots.push(k + 1)?;
        }
    }
    Ok(())
}

/// The place of the k-th root in the list, at place k - 1.
fn places_of(alloc: Global, roots: &[usize], m: usize) -> Result<Vec<usize>, AllocError>
    requires within { AreRoots m roots.now }
    requires different { (j i : ℕ) → j < i → i < length roots.now → slice_index_or roots.now j 0 ≢ slice_index_or roots.now i 0 }
    ensures count { IfOk result (λ v. length v.items ≡ m) }
    ensures placed { IfOk result (λ v. (p : ℕ) → p < length roots.now → slice_index_or v.items (slice_index_or roots.now p 0 - 1) 0 ≡ p) }
{
    let mut places = vec![in alloc; 0; m]?;
    for p in 0..roots.len() {
        places[roots[p] - 1] = p;
    }
    Ok(places)
}

/// The full word of the elements with the letters behind it, the last one first, collected in the
/// order of the numbers.
pub(crate) fn collect_in_order<R: Ring>(
    alloc: Global,
    ring: &R,
    datum: &Datum,
    consts: &Constants,
    entries: Vec<R::Elem>,
    todo: Vec<(usize, R::Elem)>,
) -> Result<Vec<R::Elem>, AllocError>
    requires roomy { IsTrue (R.ring ring.now).roomy }
    requires constants { LoadsConstants datum.now (Ok consts.now) }
    requires entries { AreEntries (R.ring ring.now) (length datum.now.positive) entries.items }
    requires todo { IsRingWord (R.ring ring.now) (length datum.now.positive) (reverse todo.items) }
    ensures entries { IfOk result (λ v. AreEntries (R.ring ring.now) (length datum.now.positive) v.items) }
    ensures collected { IfOk result (λ v. IsCollected (R.ring ring.now) (positive_terms consts.now) nat_lt (length datum.now.positive) (full_word entries.items ++ reverse todo.items) v.items) }
{
    datum.loaded();
    let collector = Collector::in_order(alloc, ring, datum, consts)?;
    let mut entries = entries;
    collector.collect(&mut entries, todo)?;
    Ok(entries)
}
