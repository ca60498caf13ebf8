//! A dense matrix: how it is kept, its entries, and products.

ghost use Rattle.std.specs.Prelude.{◌≡◌, ◌<◌, ◌≤◌, ◌↔◌, IfOk, OnOk, IsTrue};
ghost use Rattle.lie_ring.specs.Matrices.{AllElem, IsShaped, entry, identity, image, product, with_entry, zero_matrix};
ghost use Rattle.lie_mat.specs.Parts.{partial_table};
ghost use Rattle.lie_field.specs.Quotient.{of_int};
ghost use Rattle.lie_field.specs.FieldRing.{field_ring};
ghost use Rattle.lie_dense.specs.Flat.{image_entry};

use crate::rows::multiply_rows;
use crate::steps::steps_of;
use lie_field::{Fe, Field};
use lie_mat::Mat;
use lie_ring::{Ints, roomy_of_int, roomy_one};
use std::alloc::{AllocError, Global};
use std::marker::Model;

/// A square matrix, of which all entries are kept, row after row.
#[derive(Drop)]
pub struct Dense {
    dim: usize,
    entries: Vec<Fe>,
}

impl Model for Dense {
    ghost use Rattle.std.specs.Prelude.{◌≡◌, ℕ, ◌*◌, ◌≤◌, length};
    ghost use Rattle.lie_ring.specs.Matrices.{Matrix};
    ghost use Rattle.lie_dense.specs.Flat.{square_of};

    ghost Value = { Matrix ℕ };

    ghost view = { λ m. square_of m.dim m.entries.items };

    ghost invariant = { λ m. (length m.entries.items ≡ m.dim * m.dim) × (m.dim ≤ 1024) };
}

impl Dense {
    /// The matrix of zeros.
    pub fn zero(alloc: Global, n: usize) -> Result<Dense, AllocError>
        requires few { n ≤ 1024 }
        ensures value { IfOk result (λ m. m ≡ zero_matrix 0 n n) }
    {
        let entries = vec![in alloc; Fe::zero(); n * n]?;
        Ok(Dense { dim: n, entries })
    }

    /// The identity.
    pub fn identity(alloc: Global, field: &Field, n: usize) -> Result<Dense, AllocError>
        requires few { n ≤ 1024 }
        ensures value { IfOk result (λ m. m ≡ identity (field_ring field.now) n) }
        ensures elem { IfOk result (AllElem (field_ring field.now)) }
    {
        let mut matrix = Dense::zero(alloc, n)?;
        let one = roomy_one(field, alloc)?;
        for i in 0..n {
            matrix.set(i, i, one);
        }
        Ok(matrix)
    }

    /// The matrix of the images of the entries, which are whole numbers.
    pub fn of_ints(alloc: Global, field: &Field, m: &Mat<Ints>) -> Result<Dense, AllocError>
        requires square { m.now.height ≡ m.now.width }
        ensures value { IfOk result (λ d. d ≡ image (of_int field.now.given) m.now) }
        ensures elem { IfOk result (AllElem (field_ring field.now)) }
    {
        let n = m.rows();
        let mut matrix = Dense::zero(alloc, n)?;
        for row in 0..n {
            fill_row(alloc, field, m, &mut matrix, row)?;
        }
        Ok(matrix)
    }

    /// The number of rows, which is that of columns.
    pub fn dim(&self) -> usize
        ensures rows { result ≡ self.now.height }
        ensures cols { result ≡ self.now.width }
        ensures few { result ≤ 1024 }
        ensures entries { IsShaped 0 self.now }
    {
        self.dim
    }

    /// The entry in a row and a column.
    pub fn get(&self, row: usize, col: usize) -> Fe
        requires row { row < self.now.height }
        requires col { col < self.now.width }
        ensures { result ≡ entry 0 self.now row col }
    {
        self.entries[row * self.dim + col]
    }

    /// Writes an entry.
    pub fn set(&mut self, row: usize, col: usize, e: Fe)
        requires row { row < self.old.height }
        requires col { col < self.old.width }
        ensures { self.new ≡ with_entry 0 self.old row col e }
    {
        let place = row * self.dim + col;
        self.entries[place] = e;
    }

    /// The product.
    pub fn mul(&self, alloc: Global, field: &Field, b: &Dense) -> Result<Dense, AllocError>
        requires shape { self.now.width ≡ b.now.height }
        requires elem { AllElem (field_ring field.now) self.now }
        requires b_elem { AllElem (field_ring field.now) b.now }
        ensures value { IfOk result (λ m. m ≡ product (field_ring field.now) self.now b.now) }
        ensures elem { IfOk result (AllElem (field_ring field.now)) }
    {
        let n = self.dim;
        let mut entries = vec![in alloc; Fe::zero(); n * n]?;
        let steps = steps_of(alloc, field, n)?;
        multiply_rows(field, &steps, &mut entries, &self.entries, &b.entries, n);
        Ok(Dense { dim: n, entries })
    }

    /// Whether two matrices of the same dimension are equal.
    pub fn same(&self, b: &Dense) -> bool
        requires shape { self.now.height ≡ b.now.height }
        ensures { IsTrue result ↔ (self.now ≡ b.now) }
    {
        self.entries == b.entries
    }
}

/// Fills a row with the images of the entries, where zeros stand.
fn fill_row(
    alloc: Global,
    field: &Field,
    m: &Mat<Ints>,
    matrix: &mut Dense,
    row: usize,
) -> Result<(), AllocError>
    requires row { row < m.now.height }
    requires square { m.now.height ≡ m.now.width }
    requires partly { let f = field.now.given in
        matrix.old ≡ partial_table 0 m.now.height m.now.width (image_entry f m.now) row 0 }
    ensures partly { let f = field.now.given in
        let width = m.now.width in
        OnOk result (
        matrix.new ≡ partial_table 0 m.now.height width (image_entry f m.now) row width) }
{
    for col in 0..m.cols() {
        if let Some(n) = m.get(row, col) {
            matrix.set(row, col, image_of(alloc, field, n)?);
        }
    }
    Ok(())
}

/// The image of a whole number.
fn image_of(alloc: Global, field: &Field, n: &i128) -> Result<Fe, AllocError>
    ensures { IfOk result (λ e. e ≡ of_int field.now.given n.now) }
{
    roomy_of_int(field, alloc, *n)
}
