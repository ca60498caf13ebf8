//! A table that is read line by line.
ghost use Rattle.std.specs.Prelude.{◌≡◌, ◌≤◌, length, IfOk};
ghost use Rattle.lie_session.specs.Blocks.{opened_table, with_weight, with_entry, is_whole_table, table_wants};

use crate::datum::padded;
use lie_datum::Vector;
use lie_script::Wants;
use lie_weight::Entry;
use std::alloc::{AllocError, Global};
use std::marker::Model;

/// The lines of a table that were read so far.
#[derive(Drop)]
pub(crate) struct TableLines {
    name: Vec<u8>,
    n: usize,
    e: usize,
    weights: Vec<Vector>,
    entries: Vec<Entry>,
}

impl Model for TableLines {
    ghost use Rattle.lie_session.specs.Blocks.{TableLines};

    ghost Value = { TableLines };

    ghost view = { λ t. record { name = t.name.items; width = t.n; count = t.e; weights = t.weights.items; entries = t.entries.items } };
}

impl TableLines {
    /// The line `module name table n e` alone.
    pub(crate) fn opened(
        alloc: Global,
        name: &[u8],
        n: usize,
        e: usize,
    ) -> Result<TableLines, AllocError>
        ensures { IfOk result (λ t. t ≡ opened_table name.now n e) }
    {
        Ok(TableLines {
            name: Vec::from_slice(alloc, name)?,
            n,
            e,
            weights: Vec::new(alloc),
            entries: Vec::new(alloc),
        })
    }

    /// The name that the module gets.
    pub(crate) fn name(&self) -> &[u8]
        ensures { result.now ≡ self.now.name }
    {
        &self.name
    }

    /// How many weights there are, with those to come.
    pub(crate) fn width(&self) -> usize
        ensures { result ≡ self.now.width }
    {
        self.n
    }

    /// The weights.
    pub(crate) fn weights(&self) -> &[Vector]
        ensures { result.now ≡ self.now.weights }
    {
        &self.weights
    }

    /// The entries.
    pub(crate) fn entries(&self) -> &[Entry]
        ensures { result.now ≡ self.now.entries }
    {
        &self.entries
    }

    /// The lines with one weight more.
    pub(crate) fn with_weight(mut self, v: &[i128]) -> Result<TableLines, AllocError>
        requires { length v.now ≤ 8 }
        ensures { IfOk result (λ t. t ≡ with_weight self v.now) }
    {
        self.weights.push(padded(v))?;
        Ok(self)
    }

    /// The lines with one entry more.
    pub(crate) fn with_entry(mut self, entry: Entry) -> Result<TableLines, AllocError>
        ensures { IfOk result (λ t. t ≡ with_entry self entry) }
    {
        self.entries.push(entry)?;
        Ok(self)
    }

    /// Whether no line is missing.
    pub(crate) fn is_whole(&self) -> bool
        ensures { result ≡ is_whole_table self.now }
    {
        self.weights.len() == self.n && self.entries.len() == self.e
    }

    /// What is awaited, where a line is missing.
    pub(crate) fn wants(&self) -> Wants
        ensures { result ≡ table_wants self.now }
    {
        if self.weights.len() < self.n {
            Wants::Weight
        } else {
            Wants::Entry
        }
    }
}
