//! For each place of the sorted word, the later places whose roots have terms with the root there.

ghost use Rattle.std.specs.Prelude.{◌≡◌, ◌+◌, ◌<◌, ◌≤◌, List, length, slice_index_or, IfOk, OnOk};
ghost use Rattle.lie_ring.specs.Rings.{RingOn};
ghost use Rattle.lie_letters.specs.PositiveTerms.{positive_terms};
ghost use Rattle.lie_unip.specs.Placing.{IsRow, AreRows, IdleBetween, IsSortedWord};

use crate::collector::Collector;
use lie_ring::Ring;
use std::alloc::AllocError;
use std::marker::Model;

/// Shorter words are walked place by place, since their rows cost more than they spare.
const LONG: usize = 24;

/// Some places of a sorted word; contracts see the list of them.
#[derive(Drop)]
pub(crate) struct Row {
    places: Vec<usize>,
}

impl Model for Row {
    ghost use Rattle.std.specs.Prelude.{List, ℕ};

    ghost Value = { List ℕ };

    ghost view = { λ a. a.places.items };
}

impl Row {
    /// The places, in order.
    fn places(&self) -> &[usize]
        ensures { result.now ≡ self.now }
    {
        self.places.as_slice()
    }
}

impl<'a, R: Ring> Collector<'a, R> {
    /// Puts a place on the row of another, if their roots have terms.
    fn push_met(&self, places: &mut Vec<usize>, at: usize, k: usize) -> Result<(), AllocError>
        requires at { at < k }
        requires k { k < length self.now.roots.items }
        ensures { OnOk result (IsRow (positive_terms self.now.consts.now) (slice_index_or self.now.roots.items at 0) self.now.roots.items (at + 1) k places.old.items
            → IsRow (positive_terms self.now.consts.now) (slice_index_or self.now.roots.items at 0) self.now.roots.items (at + 1) (k + 1) places.new.items) }
    {
        if self.commute(at, k) {
            return Ok(());
        }
        places.push(k)?;
        Ok(())
    }

    /// The later places whose roots have terms with the root of a place.
    fn row(&self, at: usize) -> Result<Row, AllocError>
        requires at { at < length self.now.roots.items }
        ensures { IfOk result (IsRow (positive_terms self.now.consts.now) (slice_index_or self.now.roots.items at 0) self.now.roots.items (at + 1) (length self.now.roots.items)) }
    {
        let mut places = Vec::new(self.alloc);
        for k in at + 1..self.roots.len() {
            self.push_met(&mut places, at, k)?;
        }
        Ok(Row { places })
    }

    /// A row for each place, where many letters are to be placed in a long word, and else none.
    pub(crate) fn rows(&self, letters: usize) -> Result<Vec<Row>, AllocError>
        ensures { IfOk result (λ v. AreRows (positive_terms self.now.consts.now) self.now.roots.items v.items) }
    {
        let mut rows = Vec::new(self.alloc);
        if letters < LONG || self.roots.len() < LONG {
            return Ok(rows);
        }
        for at in 0..self.roots.len() {
            let row = self.row(at)?;
            rows.push(row)?;
        }
        Ok(rows)
    }

    /// The first place behind that of a root, up to `end`, whose element isn't 0 and whose root has
    /// terms with it, by the rows where there are any.
    pub(crate) fn first_met(
        &self,
        rows: &[Row],
        entries: &[R::Elem],
        at: usize,
        end: usize,
    ) -> usize
        requires rows { AreRows (positive_terms self.now.consts.now) self.now.roots.items rows.now }
        requires word { IsSortedWord (R.ring self.now.ring.now) (length self.now.roots.items) end entries.now }
        requires at { at < end }
        ensures after { at < result }
        ensures within { result ≤ end }
        ensures bound { result ≤ length self.now.roots.items }
        ensures idle { IdleBetween (R.ring self.now.ring.now) (positive_terms self.now.consts.now) (slice_index_or self.now.roots.items at 0) self.now.roots.items (at + 1) result entries.now }
    {
        if at < rows.len() {
            self.first_of_row(rows[at].places(), entries, at, end)
        } else {
            self.first_behind(entries, at, end)
        }
    }

    /// The first place of the row of a root, up to `end`, whose element isn't 0.
    fn first_of_row(&self, row: &[usize], entries: &[R::Elem], at: usize, end: usize) -> usize
        requires row { IsRow (positive_terms self.now.consts.now) (slice_index_or self.now.roots.items at 0) self.now.roots.items (at + 1) (length self.now.roots.items) row.now }
        requires word { IsSortedWord (R.ring self.now.ring.now) (length self.now.roots.items) end entries.now }
        requires at { at < end }
        ensures after { at < result }
        ensures within { result ≤ end }
        ensures bound { result ≤ length self.now.roots.items }
        ensures idle { IdleBetween (R.ring self.now.ring.now) (positive_terms self.now.consts.now) (slice_index_or self.now.roots.items at 0) self.now.roots.items (at + 1) result entries.now }
    {
        for i in 0..row.len() {
            let k = row[i];
            if k >= end {
                return end;
            }
            if !self.ring.same(&entries[k], &self.zero) {
                return k;
            }
        }
        end
    }
}
