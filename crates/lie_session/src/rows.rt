//! A matrix that is read row by row.
ghost use Rattle.std.specs.Prelude.{◌≡◌, ◌≤◌, ◌<◌, [], true, length, map, nat_abs, slice_index_or, All, IfOk, OnOk, OnErr};
ghost use Rattle.std.specs.List.{AllByRecursion};
ghost use Rattle.lie_field.specs.Quotient.{order};
ghost use Rattle.lie_mat.specs.Parts.{partial_table};
ghost use Rattle.lie_ring.specs.Matrices.{entry};
ghost use Rattle.lie_script.specs.Numbers.{is_element};
ghost use Rattle.lie_session.specs.Blocks.{begun as begun_rows, with_row};
ghost use Rattle.lie_session.specs.Outcomes.{matrix_of};

use lie_dense::Dense;
use lie_field::{Fe, Field};
use lie_script::Numbers;
use std::alloc::{AllocError, Global};
use std::marker::Model;

/// The name of a module, and the rows that were read.
#[derive(Drop)]
pub(crate) struct Rows {
    name: Vec<u8>,
    rows: Vec<Vec<Fe>>,
}

impl Model for Rows {
    ghost use Rattle.std.specs.Prelude.{map};
    ghost use Rattle.lie_session.specs.Blocks.{Rows};

    ghost Value = { Rows };

    ghost view = { λ r. record { name = r.name.items; rows = map (λ row. row.items) r.rows.items } };
}

/// The element of a number.
fn element(field: &Field, n: i128) -> Fe
    requires { is_element (order field.now.given) n ≡ true }
    ensures { result ≡ nat_abs n }
{
    let _q = field.q();
    match field.elem(n.unsigned_abs() as u32) {
        Some(element) => element,
        None => unreachable!(),
    }
}

/// The elements of a row.
fn elements(alloc: Global, field: &Field, row: &Numbers) -> Result<Vec<Fe>, AllocError>
    requires { All (λ a. is_element (order field.now.given) a ≡ true) row.now }
    ensures { IfOk result (λ v. v.items ≡ map nat_abs row.now) }
{
    let mut list = Vec::new(alloc);
    'row: for n in row.list() {
        list.push(element(field, *n))?;
    }
    Ok(list)
}

impl Rows {
    /// No rows yet.
    pub(crate) fn begun(alloc: Global, name: &[u8]) -> Result<Rows, AllocError>
        ensures { IfOk result (λ r. r ≡ begun_rows name.now) }
    {
        Ok(Rows {
            name: Vec::from_slice(alloc, name)?,
            rows: Vec::new(alloc),
        })
    }

    /// The name of the module.
    pub(crate) fn name(&self) -> &[u8]
        ensures { result.now ≡ self.now.name }
    {
        &self.name
    }

    /// How many rows were read.
    pub(crate) fn count(&self) -> usize
        ensures { result ≡ length self.now.rows }
    {
        self.rows.len()
    }

    /// Reads one row more.
    pub(crate) fn push(
        &mut self,
        alloc: Global,
        field: &Field,
        row: &Numbers,
    ) -> Result<(), AllocError>
        requires { All (λ a. is_element (order field.now.given) a ≡ true) row.now }
        ensures pushed { OnOk result (self.new ≡ with_row self.old row.now) }
        ensures left { OnErr result (self.new ≡ self.old) }
    {
        let row = elements(alloc, field, row)?;
        self.rows.push(row)?;
        Ok(())
    }

    /// The entry in a row and a column.
    fn entry(&self, row: usize, col: usize) -> Fe
        requires row { row < length self.now.rows }
        requires col { col < length (slice_index_or self.now.rows row []) }
        ensures { result ≡ slice_index_or (slice_index_or self.now.rows row []) col 0 }
    {
        self.rows[row][col]
    }

    /// Fills a row of a matrix, where zeros stand.
    fn fill_row(&self, matrix: &mut Dense, row: usize)
        requires rows { AllByRecursion (λ r. length r ≡ length self.now.rows) self.now.rows }
        requires row { row < length self.now.rows }
        requires partly { let n = length self.now.rows in
            matrix.old ≡ partial_table 0 n n (entry 0 (matrix_of n self.now.rows)) row 0 }
        ensures partly { let n = length self.now.rows in
            matrix.new ≡ partial_table 0 n n (entry 0 (matrix_of n self.now.rows)) row n }
    {
        for col in 0..self.count() {
            matrix.set(row, col, self.entry(row, col));
        }
    }

    /// The matrix of the rows.
    pub(crate) fn matrix(&self, alloc: Global) -> Result<Dense, AllocError>
        requires few { length self.now.rows ≤ 1024 }
        requires rows { AllByRecursion (λ r. length r ≡ length self.now.rows) self.now.rows }
        ensures { IfOk result (λ m. m ≡ matrix_of (length self.now.rows) self.now.rows) }
    {
        let n = self.count();
        let mut matrix = Dense::zero(alloc, n)?;
        for row in 0..n {
            self.fill_row(&mut matrix, row);
        }
        Ok(matrix)
    }
}
