//! The table of signs.

ghost use Rattle.std.specs.Prelude.{◌≡◌, ◌≤◌, ◌<◌, ◌+◌, ◌-◌, ◌*◌, ◌⊎◌, pos, negsuc, unsigned_abs, length};
ghost use Rattle.lie_datum.specs.RootDatum.{rank};
ghost use Rattle.lie_datum.specs.Numbers.{place};
ghost use Rattle.lie_const.specs.Signs.{HasSignCount, IsSignList, eta_of};

use lie_datum::{Datum, RootId};
use std::marker::Model;

/// The signs eta_is of the simple indices i and the roots s, each 1 or -1.
#[derive(Drop)]
pub struct Signs {
    rank: usize,
    positive: usize,
    signs: Vec<i8>,
}

impl Model for Signs {
    ghost use Rattle.std.specs.Prelude.{◌≤◌};
    ghost use Rattle.lie_datum.specs.Numbers.{place};
    ghost use Rattle.lie_const.specs.Signs.{SignTable, IsSignList};

    ghost Value = { SignTable };

    ghost view = { λ a. record { rank = a.rank; positive = a.positive; signs = a.signs.items } };

    ghost invariant = { λ a. IsSignList a.rank a.positive a.signs.items × (a.rank ≤ 8) × (a.positive ≤ 120) };
}

impl Signs {
    /// The signs in a list: for i rising, one for each root in the full order.
    pub fn of(datum: &Datum, table: Vec<i8>) -> Signs
        requires { IsSignList (rank datum.now.base) (length datum.now.positive) table.items }
        ensures { result ≡ record { rank = rank datum.now.base; positive = length datum.now.positive; signs = table.items } }
    {
        datum.loaded();
        Signs {
            rank: datum.l(),
            positive: datum.m(),
            signs: table,
        }
    }

    /// A table has one sign for each simple index and each root.
    pub fn counted(&self)
        ensures { HasSignCount self.now }
    {
        let _ = &self.rank;
    }

    /// The sign of i, which counts from 1, and s.
    pub fn eta(&self, i: usize, s: RootId) -> i128
        requires first { 1 ≤ i }
        requires index { i ≤ self.now.rank }
        requires s { unsigned_abs s ≤ self.now.positive }
        ensures value { result ≡ eta_of self.now i s }
        ensures unit { (result ≡ pos 1) ⊎ (result ≡ negsuc 0) }
    {
        i128::from(self.signs[self.place(i, s)])
    }

    /// The place of i and s in the list, counted from 0.
    fn place(&self, i: usize, s: RootId) -> usize
        requires first { 1 ≤ i }
        requires index { i ≤ self.now.rank }
        requires s { unsigned_abs s ≤ self.now.positive }
        ensures value { result ≡ (i - 1) * (2 * self.now.positive) + place self.now.positive s }
        ensures within { result < length self.now.signs }
    {
        (i - 1) * (2 * self.positive) + s.place(self.positive)
    }
}
