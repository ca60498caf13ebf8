//! One element for each positive root, in order.

ghost use Rattle.std.specs.Prelude.{◌≡◌, ℕ, ℤ, pos, ◌-◌, ◌≤◌, ◌<ℤ◌, ◌++◌, ◌∷◌, [], Ok, List, length, replicate, slice_index_or, nat_abs, nat_lt, IfOk, IsTrue};
ghost use Rattle.std.specs.List.{All};
ghost use Rattle.lie_ring.specs.Rings.{RingOn, Fits};
ghost use Rattle.lie_datum.specs.RootList.{IsNumber};
ghost use Rattle.lie_const.specs.ConstantTables.{LoadsConstants};
ghost use Rattle.lie_letters.specs.RingLetters.{full_word, inverse_word};
ghost use Rattle.lie_letters.specs.PositiveTerms.{positive_terms};
ghost use Rattle.lie_unip.specs.Collection.{AreEntries, IsCollected};
ghost use Rattle.lie_unip.specs.PositiveLetters.{ArePositiveLetters, by_place};
ghost use Rattle.lie_unip.specs.Splitting.{IsSplit, kept_at, kept_by};
ghost use Rattle.lie_weyl.specs.WeylElement.{IsElement, Spells};

use crate::collector::Collector;
use crate::lists::{copied, inverse_letters, letters, one_letter, reversed_letters, zeros};
use crate::orders::collect_in_order;
use lie_const::Constants;
use lie_datum::{Datum, RootId};
use lie_ring::Ring;
use lie_weyl::Weyl;
use std::alloc::{AllocError, Global};
use std::marker::Model;

/// One element of a ring for each positive root, in order; contracts see the list of them.
///
/// It stands for the product of its root elements, its full word.
#[derive(Drop)]
pub struct Unip<R: Ring> {
    entries: Vec<R::Elem>,
}

impl<R: Ring> Model for Unip<R> {
    ghost use Rattle.std.specs.Prelude.{List};

    ghost Value = { List R.Elem };

    ghost view = { λ u. u.entries.items };
}

impl<R: Ring> Unip<R> {
    /// The list of these elements.
    pub fn of(entries: Vec<R::Elem>) -> Unip<R>
        ensures { result ≡ entries.items }
    {
        Unip { entries }
    }

    /// Zeros alone.
    pub fn one(alloc: Global, ring: &R, datum: &Datum) -> Result<Unip<R>, AllocError>
        requires { IsTrue (R.ring ring.now).roomy }
        ensures entries { IfOk result (AreEntries (R.ring ring.now) (length datum.now.positive)) }
        ensures zeros { IfOk result (λ u. u ≡ replicate (length datum.now.positive) (R.ring ring.now).zero) }
    {
        let entries = zeros(ring, alloc, datum.m())?;
        Ok(Unip { entries })
    }

    /// The element of the k-th positive root; k counts from 1.
    pub fn coeff(&self, k: usize) -> &R::Elem
        requires above { 1 ≤ k }
        requires below { k ≤ length self.now }
        ensures { result.now ≡ slice_index_or self.now (k - 1) R.zero }
    {
        &self.entries[k - 1]
    }

    /// The elements, in the order of the roots.
    pub fn entries(&self) -> &[R::Elem]
        ensures { result.now ≡ self.now }
    {
        self.entries.as_slice()
    }

    /// The same elements once more.
    pub fn copied(&self, alloc: Global, ring: &R) -> Result<Unip<R>, AllocError>
        requires roomy { IsTrue (R.ring ring.now).roomy }
        requires fit { All (Fits (R.ring ring.now)) self.now }
        ensures { IfOk result (λ u. u ≡ self.now) }
    {
        let entries = copied(ring, alloc, &self.entries)?;
        Ok(Unip { entries })
    }

    /// The full word with `x_r(a)` appended, collected.
    pub fn push(
        &self,
        alloc: Global,
        ring: &R,
        datum: &Datum,
        consts: &Constants,
        r: RootId,
        a: &R::Elem,
    ) -> Result<Unip<R>, AllocError>
        requires roomy { IsTrue (R.ring ring.now).roomy }
        requires constants { LoadsConstants datum.now (Ok consts.now) }
        requires entries { AreEntries (R.ring ring.now) (length datum.now.positive) self.now }
        requires root { IsNumber datum.now r }
        requires positive { pos 0 <ℤ r }
        requires fits { Fits (R.ring ring.now) a.now }
        ensures entries { IfOk result (AreEntries (R.ring ring.now) (length datum.now.positive)) }
        ensures collected { IfOk result (IsCollected (R.ring ring.now) (positive_terms consts.now) nat_lt (length datum.now.positive) (full_word self.now ++ (nat_abs r, a.now) ∷ [])) }
    {
        let entries = copied(ring, alloc, &self.entries)?;
        let todo = one_letter(ring, alloc, r, a)?;
        let entries = collect_in_order(alloc, ring, datum, consts, entries, todo)?;
        Ok(Unip { entries })
    }

    /// The full word with these letters behind it, collected.
    pub fn append(
        &self,
        alloc: Global,
        ring: &R,
        datum: &Datum,
        consts: &Constants,
        letters: &[(RootId, R::Elem)],
    ) -> Result<Unip<R>, AllocError>
        requires roomy { IsTrue (R.ring ring.now).roomy }
        requires constants { LoadsConstants datum.now (Ok consts.now) }
        requires entries { AreEntries (R.ring ring.now) (length datum.now.positive) self.now }
        requires letters { ArePositiveLetters (R.ring ring.now) datum.now letters.now }
        ensures entries { IfOk result (AreEntries (R.ring ring.now) (length datum.now.positive)) }
        ensures collected { IfOk result (IsCollected (R.ring ring.now) (positive_terms consts.now) nat_lt (length datum.now.positive) (full_word self.now ++ by_place letters.now)) }
    {
        let entries = copied(ring, alloc, &self.entries)?;
        let todo = reversed_letters(ring, alloc, letters)?;
        let entries = collect_in_order(alloc, ring, datum, consts, entries, todo)?;
        Ok(Unip { entries })
    }

    /// The two full words joined, collected.
    pub fn mul(
        &self,
        alloc: Global,
        ring: &R,
        datum: &Datum,
        consts: &Constants,
        b: &Unip<R>,
    ) -> Result<Unip<R>, AllocError>
        requires roomy { IsTrue (R.ring ring.now).roomy }
        requires constants { LoadsConstants datum.now (Ok consts.now) }
        requires entries { AreEntries (R.ring ring.now) (length datum.now.positive) self.now }
        requires b { AreEntries (R.ring ring.now) (length datum.now.positive) b.now }
        ensures entries { IfOk result (AreEntries (R.ring ring.now) (length datum.now.positive)) }
        ensures collected { IfOk result (IsCollected (R.ring ring.now) (positive_terms consts.now) nat_lt (length datum.now.positive) (full_word self.now ++ full_word b.now)) }
    {
        let entries = copied(ring, alloc, &self.entries)?;
        let todo = letters(ring, alloc, &b.entries)?;
        let entries = collect_in_order(alloc, ring, datum, consts, entries, todo)?;
        Ok(Unip { entries })
    }

    /// The reversed word of the inverse letters, collected.
    pub fn inv(
        &self,
        alloc: Global,
        ring: &R,
        datum: &Datum,
        consts: &Constants,
    ) -> Result<Unip<R>, AllocError>
        requires roomy { IsTrue (R.ring ring.now).roomy }
        requires constants { LoadsConstants datum.now (Ok consts.now) }
        requires entries { AreEntries (R.ring ring.now) (length datum.now.positive) self.now }
        ensures entries { IfOk result (AreEntries (R.ring ring.now) (length datum.now.positive)) }
        ensures collected { IfOk result (IsCollected (R.ring ring.now) (positive_terms consts.now) nat_lt (length datum.now.positive) (inverse_word (R.ring ring.now) (full_word self.now))) }
    {
        datum.loaded();
        let entries = zeros(ring, alloc, datum.m())?;
        let todo = inverse_letters(ring, alloc, &self.entries)?;
        let entries = collect_in_order(alloc, ring, datum, consts, entries, todo)?;
        Ok(Unip { entries })
    }

    /// The word collected for the order in which the roots that `w` keeps positive come first, cut
    /// between the two groups.
    pub fn split(
        &self,
        alloc: Global,
        ring: &R,
        datum: &Datum,
        consts: &Constants,
        w: &Weyl,
    ) -> Result<(Unip<R>, Unip<R>), AllocError>
        requires roomy { IsTrue (R.ring ring.now).roomy }
        requires constants { LoadsConstants datum.now (Ok consts.now) }
        requires entries { AreEntries (R.ring ring.now) (length datum.now.positive) self.now }
        requires element { IsElement datum.now w.now }
        ensures first { IfOk result (λ p. AreEntries (R.ring ring.now) (length datum.now.positive) p.0) }
        ensures second { IfOk result (λ p. AreEntries (R.ring ring.now) (length datum.now.positive) p.1) }
        ensures split { IfOk result (λ p. (word : List ℕ) → Spells datum.now word w.now → IsSplit (R.ring ring.now) (positive_terms consts.now) (length datum.now.positive) (kept_at (kept_by datum.now word)) self.now p.0 p.1) }
    {
        let collector = Collector::with_first(alloc, ring, datum, consts, w)?;
        let parts = collector.split(&self.entries)?;
        Ok((Unip { entries: parts.0 }, Unip { entries: parts.1 }))
    }
}
