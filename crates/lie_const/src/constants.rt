//! The table of constants and terms.

ghost use Rattle.std.specs.Prelude.{◌≡◌, ◌≤◌, unsigned_abs};
ghost use Rattle.lie_const.specs.ConstantTables.{value_of, terms_of, LoadsConstants};

use crate::faults::ConstFault;
use crate::filling::determined;
use crate::term::Term;
use crate::term_lists::TermLists;
use crate::terms::all_terms;
use crate::values::Values;
use lie_datum::{Datum, RootId};
use std::alloc::Global;
use std::marker::Model;

/// The constants N_rs, and the terms of each two roots.
#[derive(Drop)]
pub struct Constants {
    values: Values,
    terms: TermLists,
}

impl Model for Constants {
    ghost use Rattle.lie_const.specs.ConstantTables.{ConstantTable};

    ghost Value = { ConstantTable };

    ghost use Rattle.std.specs.Prelude.{◌≡◌, ◌*◌, length};

    ghost view = { λ a. record { positive = a.values.positive; values = a.values.values; terms = a.terms } };

    ghost invariant = { λ a. length a.terms ≡ 2 * a.values.positive * (2 * a.values.positive) };
}

impl Constants {
    /// The constants and terms of a datum, or the first pair whose forced value fails, or the first term that isn't
    /// whole. Takes memory for the tables that the other calls look up.
    pub fn load(alloc: Global, datum: &Datum) -> Result<Constants, ConstFault>
        ensures { LoadsConstants datum.now result }
    {
        let values = determined(alloc, datum)?;
        let terms = all_terms(alloc, datum, &values)?;
        Ok(Constants { values, terms })
    }

    /// N_rs, which is 0 where r + s is no root.
    pub fn n(&self, r: RootId, s: RootId) -> i128
        requires r { unsigned_abs r ≤ self.now.positive }
        requires s { unsigned_abs s ≤ self.now.positive }
        ensures { result ≡ value_of self.now r s }
    {
        self.values.n(r, s)
    }

    /// The terms of r and s, by rising i + j, then rising i. At equal and at opposite roots the answer stands for
    /// nothing.
    pub fn c(&self, r: RootId, s: RootId) -> &[Term]
        requires r { unsigned_abs r ≤ self.now.positive }
        requires s { unsigned_abs s ≤ self.now.positive }
        ensures { result.now ≡ terms_of self.now r s }
    {
        self.terms.list(self.values.place(r, s))
    }
}
