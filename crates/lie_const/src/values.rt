//! The values N_rs by pairs of roots.

ghost use Rattle.std.specs.Prelude.{◌≡◌, ◌≤◌, ◌<◌, ◌*◌, pos, IfOk, length, replicate, unsigned_abs};
ghost use Rattle.lie_const.specs.ConstantTables.{pair_place};
ghost use Rattle.lie_const.specs.Filling.{table_in, put_one, put};

use lie_datum::RootId;
use std::alloc::{AllocError, Global};
use std::marker::Model;

/// A value for each two roots in the full order, row by row.
#[derive(Drop)]
pub(crate) struct Values {
    positive: usize,
    values: Vec<i8>,
}

impl Model for Values {
    ghost use Rattle.std.specs.Prelude.{◌≡◌, ◌≤◌, ◌*◌, length};
    ghost use Rattle.lie_const.specs.Filling.{PairValues};

    ghost Value = { PairValues };

    ghost view = { λ a. record { positive = a.positive; values = a.values.items } };

    ghost invariant = { λ a. (a.positive ≤ 120) × (length a.values.items ≡ 2 * a.positive * (2 * a.positive)) };
}

impl Values {
    /// The values 0.
    pub(crate) fn zero(alloc: Global, positive: usize) -> Result<Values, AllocError>
        requires { positive ≤ 120 }
        ensures { IfOk result (λ v. v ≡ record { positive = positive; values = replicate (2 * positive * (2 * positive)) (pos 0) }) }
    {
        let values = vec![in alloc; 0; 2 * positive * (2 * positive)]?;
        Ok(Values { positive, values })
    }

    /// The place of a pair, counted from 0.
    pub(crate) fn place(&self, r: RootId, s: RootId) -> usize
        requires r { unsigned_abs r ≤ self.now.positive }
        requires s { unsigned_abs s ≤ self.now.positive }
        ensures value { result ≡ pair_place self.now.positive r s }
        ensures within { result < 2 * self.now.positive * (2 * self.now.positive) }
    {
        r.place(self.positive) * (2 * self.positive) + s.place(self.positive)
    }

    /// The value at r and s.
    pub(crate) fn n(&self, r: RootId, s: RootId) -> i128
        requires r { unsigned_abs r ≤ self.now.positive }
        requires s { unsigned_abs s ≤ self.now.positive }
        ensures value { result ≡ table_in self.now r s }
        ensures bound { unsigned_abs result ≤ 128 }
    {
        let at = self.place(r, s);
        i128::from(self.values[at])
    }

    /// Writes the value at r and s.
    fn put_one(&mut self, r: RootId, s: RootId, value: i8)
        requires r { unsigned_abs r ≤ self.old.positive }
        requires s { unsigned_abs s ≤ self.old.positive }
        ensures values { self.new ≡ put_one self.old r s value }
        ensures count { length self.old.values ≡ 2 * self.old.positive * (2 * self.old.positive) }
    {
        let at = self.place(r, s);
        self.values[at] = value;
    }

    /// Writes the value at r and s, and what the two sign rules give from it.
    pub(crate) fn put(&mut self, r: RootId, s: RootId, value: i8)
        requires r { unsigned_abs r ≤ self.old.positive }
        requires s { unsigned_abs s ≤ self.old.positive }
        requires value { unsigned_abs value ≤ 127 }
        ensures values { self.new ≡ put self.old r s value }
        ensures count { length self.old.values ≡ 2 * self.old.positive * (2 * self.old.positive) }
    {
        self.put_one(r, s, value);
        self.put_one(s, r, -value);
        self.put_one(r.opposite(), s.opposite(), -value);
        self.put_one(s.opposite(), r.opposite(), value);
    }
}
