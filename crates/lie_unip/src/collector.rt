//! Collecting letters into a sorted word.

ghost use Rattle.std.specs.Prelude.{◌≡◌, ℕ, ◌+◌, ◌<◌, ◌≤◌, ◌++◌, ◌≢◌, Bool, true, List, length, map, reverse, pos, slice_index_or, OnOk, IfOk, IsTrue, ◌↔◌, [], ◌∷◌};
ghost use Rattle.lie_ring.specs.Rings.{RingOn, Fits};
ghost use Rattle.lie_const.specs.ConstantTables.{terms_of};
ghost use Rattle.lie_letters.specs.RingLetters.{IsRingWord};
ghost use Rattle.lie_unip.specs.Collection.{AreEntries, IsCollected, elements};
ghost use Rattle.lie_letters.specs.PositiveTerms.{positive_terms};
ghost use Rattle.lie_unip.specs.Splitting.{kept_at, kept_first};
ghost use Rattle.lie_unip.specs.OneProof.{IsCollector-prop};
ghost use Rattle.lie_unip.specs.Placing.{IsCollector, AreRoots, letters_at, crossing, terms_between, AreRows, IdleBetween, IsSortedWord, IsLifted, AreLifted, IsPlaced};

use crate::rows::Row;
use crate::terms::{put_inverse_terms, put_terms};
use lie_const::{Constants, Term};
use lie_datum::RootId;
use lie_ring::{Ring, roomy_add, roomy_copy};
use std::alloc::{AllocError, Global};
use std::mem;

/// What collecting reads: a ring with its zero, the terms, and the order in which a word is sorted.
///
/// A sorted word is kept as the list of its elements, zeros included, in the order of `roots`. The
/// letters still to be placed are a list of which the last one comes first.
#[derive(Drop)]
pub(crate) struct Collector<'a, R: Ring> {
    pub(crate) ring: &'a R,
    pub(crate) consts: &'a Constants,
    pub(crate) alloc: Global,
    pub(crate) zero: R::Elem,
    /// At place k - 1, whether the k-th root is of the first group; none is where the list is empty.
    pub(crate) kept: Vec<bool>,
    /// The roots in the order of the sorted word.
    pub(crate) roots: Vec<usize>,
    /// At place k - 1, the place of the k-th root in that order.
    pub(crate) places: Vec<usize>,
    ghost lawful: { IsCollector (R.ring ring.now) zero consts.now kept.items roots.items places.items } by { IsCollector-prop R.Elem.code (R.ring ring.now) zero consts.now kept.items roots.items places.items },
}

impl<'a, R: Ring> Collector<'a, R> {
    /// The terms of two positive roots, the one before the other.
    fn terms(&self, r: usize, s: usize) -> &[Term]
        requires first { 1 ≤ r }
        requires order { r < s }
        requires last { s ≤ self.now.consts.now.positive }
        ensures { result.now ≡ terms_of self.now.consts.now (pos r) (pos s) }
    {
        let m = self.places.len();
        self.consts.c(RootId::at(r - 1, m), RootId::at(s - 1, m))
    }

    /// Whether two roots, the one or the other first, have no terms.
    fn have_none(&self, r: usize, s: usize) -> bool
        requires roots { AreRoots self.now.consts.now.positive (r ∷ s ∷ []) }
        requires other { r ≢ s }
        ensures { IsTrue result ↔ (terms_between (positive_terms self.now.consts.now) r s ≡ []) }
    {
        let terms = if r < s {
            self.terms(r, s)
        } else {
            self.terms(s, r)
        };
        terms.is_empty()
    }

    /// Whether the roots of two places have no terms.
    pub(crate) fn commute(&self, at: usize, k: usize) -> bool
        requires order { at < k }
        requires within { k < length self.now.roots.items }
        ensures { IsTrue result ↔ (terms_between (positive_terms self.now.consts.now) (slice_index_or self.now.roots.items at 0) (slice_index_or self.now.roots.items k 0) ≡ []) }
    {
        let r = self.root(at);
        let s = self.root(k);
        self.have_none(r, s)
    }

    /// The root at a place of the sorted word.
    pub(crate) fn root(&self, at: usize) -> usize
        requires at { at < length self.now.roots.items }
        ensures value { result ≡ slice_index_or self.now.roots.items at 0 }
        ensures low { 1 ≤ result }
        ensures high { result ≤ self.now.consts.now.positive }
    {
        self.roots[at]
    }

    /// The first place from which on all elements are 0.
    fn end_of(&self, entries: &[R::Elem]) -> usize
        requires entries { AreEntries (R.ring self.now.ring.now) (length self.now.roots.items) entries.now }
        ensures { IsSortedWord (R.ring self.now.ring.now) (length self.now.roots.items) result entries.now }
    {
        for k in (0..entries.len()).rev() {
            if !self.ring.same(&entries[k], &self.zero) {
                return k + 1;
            }
        }
        0
    }

    /// The first place behind that of a root, up to `end`, whose element isn't 0 and whose root has
    /// terms with it.
    pub(crate) fn first_behind(&self, entries: &[R::Elem], at: usize, end: usize) -> usize
        requires word { IsSortedWord (R.ring self.now.ring.now) (length self.now.roots.items) end entries.now }
        requires at { at < end }
        ensures after { at < result }
        ensures within { result ≤ end }
        ensures bound { result ≤ length self.now.roots.items }
        ensures idle { IdleBetween (R.ring self.now.ring.now) (positive_terms self.now.consts.now) (slice_index_or self.now.roots.items at 0) self.now.roots.items (at + 1) result entries.now }
    {
        for k in at + 1..end {
            if !self.ring.same(&entries[k], &self.zero) && !self.commute(at, k) {
                return k;
            }
        }
        end
    }

    /// Puts the letters that arise where the letter at `root` and `a` passes that at `k` and `x` on
    /// the list.
    fn cross(
        &self,
        root: usize,
        a: &R::Elem,
        k: usize,
        x: &R::Elem,
        todo: &mut Vec<(usize, R::Elem)>,
    ) -> Result<(), AllocError>
        requires letters { IsRingWord (R.ring self.now.ring.now) self.now.consts.now.positive ((root, a.now) ∷ (k, x.now) ∷ []) }
        requires other { root ≢ k }
        ensures { OnOk result (reverse todo.new.items ≡ crossing (R.ring self.now.ring.now) (positive_terms self.now.consts.now) root a.now (k, x.now) ++ reverse todo.old.items) }
    {
        if root < k {
            let terms = self.terms(root, k);
            put_terms(self.ring, self.alloc, terms, a, x, todo)
        } else {
            let terms = self.terms(k, root);
            put_inverse_terms(self.ring, self.alloc, terms, x, a, todo)
        }
    }

    /// Lets the letter at the root of place `at`, with `a`, pass a place, the last one that isn't 0.
    fn lift_one(
        &self,
        entries: &mut Vec<R::Elem>,
        todo: &mut Vec<(usize, R::Elem)>,
        place: usize,
        at: usize,
        a: &R::Elem,
    ) -> Result<(), AllocError>
        requires word { IsSortedWord (R.ring self.now.ring.now) (length self.now.roots.items) (place + 1) entries.old.items }
        requires todo { IsRingWord (R.ring self.now.ring.now) self.now.consts.now.positive ((slice_index_or self.now.roots.items at 0, a.now) ∷ reverse todo.old.items) }
        requires later { at < place }
        ensures { OnOk result (IsLifted (R.ring self.now.ring.now) (positive_terms self.now.consts.now) self.now.consts.now.positive (kept_at self.now.kept.items) self.now.roots.items (slice_index_or self.now.roots.items at 0) a.now place entries.old.items entries.new.items todo.old.items todo.new.items) }
    {
        if self.ring.same(&entries[place], &self.zero) {
            return Ok(());
        }
        let empty = roomy_copy(self.ring, self.alloc, &self.zero)?;
        let x = mem::replace(&mut entries[place], empty);
        let root = self.root(at);
        let k = self.root(place);
        self.cross(root, a, k, &x, todo)?;
        todo.push((k, x))?;
        Ok(())
    }

    /// Lets the letter at the root of place `at`, with `a`, pass all places from `first` on, where
    /// those from `end` on have 0.
    fn lift(
        &self,
        entries: &mut Vec<R::Elem>,
        todo: &mut Vec<(usize, R::Elem)>,
        first: usize,
        end: usize,
        at: usize,
        a: &R::Elem,
    ) -> Result<(), AllocError>
        requires word { IsSortedWord (R.ring self.now.ring.now) (length self.now.roots.items) end entries.old.items }
        requires todo { IsRingWord (R.ring self.now.ring.now) self.now.consts.now.positive ((slice_index_or self.now.roots.items at 0, a.now) ∷ reverse todo.old.items) }
        requires later { (at < first) × (first ≤ end) }
        ensures { OnOk result (AreLifted (R.ring self.now.ring.now) (positive_terms self.now.consts.now) self.now.consts.now.positive (kept_at self.now.kept.items) self.now.roots.items (slice_index_or self.now.roots.items at 0) a.now first entries.old.items entries.new.items todo.old.items todo.new.items) }
    {
        for place in (first..end).rev() {
            self.lift_one(entries, todo, place, at, a)?;
        }
        Ok(())
    }

    /// Places the letter at `root` and `a`; what it meets joins the letters still to be placed. All
    /// elements from `end` on are 0, and afterwards those from the answer on.
    fn place(
        &self,
        entries: &mut Vec<R::Elem>,
        todo: &mut Vec<(usize, R::Elem)>,
        rows: &[Row],
        end: usize,
        root: usize,
        a: &R::Elem,
    ) -> Result<usize, AllocError>
        requires word { IsSortedWord (R.ring self.now.ring.now) (length self.now.roots.items) end entries.old.items }
        requires todo { IsRingWord (R.ring self.now.ring.now) self.now.consts.now.positive ((root, a.now) ∷ reverse todo.old.items) }
        requires rows { AreRows (positive_terms self.now.consts.now) self.now.roots.items rows.now }
        ensures word { IfOk result (λ n. IsSortedWord (R.ring self.now.ring.now) (length self.now.roots.items) n entries.new.items) }
        ensures placed { OnOk result (IsPlaced (R.ring self.now.ring.now) (positive_terms self.now.consts.now) self.now.consts.now.positive (kept_at self.now.kept.items) self.now.roots.items root a.now entries.old.items entries.new.items todo.old.items todo.new.items) }
    {
        if self.ring.same(a, &self.zero) {
            return Ok(end);
        }
        let at = self.places[root - 1];
        let last = end.max(at + 1);
        let first = self.first_met(rows, entries, at, last);
        self.lift(entries, todo, first, last, at, a)?;
        let sum = roomy_add(self.ring, self.alloc, &entries[at], a)?;
        entries[at] = sum;
        Ok(first)
    }

    /// Collects the word of the elements with the letters behind it.
    pub(crate) fn collect(
        &self,
        entries: &mut Vec<R::Elem>,
        todo: Vec<(usize, R::Elem)>,
    ) -> Result<(), AllocError>
        requires entries { AreEntries (R.ring self.now.ring.now) (length self.now.roots.items) entries.old.items }
        requires todo { IsRingWord (R.ring self.now.ring.now) self.now.consts.now.positive (reverse todo.items) }
        ensures entries { OnOk result (AreEntries (R.ring self.now.ring.now) (length self.now.roots.items) entries.new.items) }
        ensures collected { OnOk result (IsCollected (R.ring self.now.ring.now) (positive_terms self.now.consts.now) (kept_first (kept_at self.now.kept.items)) self.now.consts.now.positive (letters_at self.now.roots.items entries.old.items ++ reverse todo.items) (elements (R.ring self.now.ring.now) self.now.consts.now.positive (letters_at self.now.roots.items entries.new.items))) }
    {
        let mut todo = todo;
        let rows = self.rows(todo.len())?;
        let mut end = self.end_of(entries);
        while let Some((root, a)) = todo.pop() {
            end = self.place(entries, &mut todo, &rows, end, root, &a)?;
        }
        Ok(())
    }
}
