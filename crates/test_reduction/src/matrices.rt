//! Matrices over the field, by their rows.

ghost use Rattle.std.specs.Prelude.{◌≡◌, ◌<◌, IfOk, OnOk};
ghost use Rattle.lie_ring.specs.Matrices.{AllElem};
ghost use Rattle.lie_field.specs.FieldRing.{field_ring};

use lie_dense::Dense;
use lie_field::Field;
use lie_mat::Mat;
use lie_ring::Ints;
use std::alloc::Global;
use test_rows::Stop;

/// The matrix with these rows, each number taken modulo the characteristic.
pub(crate) fn matrix(alloc: Global, field: &Field, rows: &[Vec<i128>]) -> Result<Dense, Stop>
    ensures { IfOk result (AllElem (field_ring field.now)) }
{
    let integers = square(alloc, rows)?;
    Ok(Dense::of_ints(alloc, field, &integers)?)
}

/// The matrix of integers with these rows, of which there are as many as each has entries.
fn square(alloc: Global, rows: &[Vec<i128>]) -> Result<Mat<Ints>, Stop>
    ensures { IfOk result (λ m. m.height ≡ m.width) }
{
    let n = rows.len();
    if n > 8 {
        return Err(Stop::NoQuestion);
    }
    let mut matrix = Mat::zero(alloc, n, n)?;
    for row in 0..n {
        put_row(&mut matrix, n, row, &rows[row])?;
    }
    Ok(matrix)
}

/// Writes a row.
fn put_row(matrix: &mut Mat<Ints>, n: usize, row: usize, entries: &[i128]) -> Result<(), Stop>
    requires height { matrix.old.height ≡ n }
    requires width { matrix.old.width ≡ n }
    requires row { row < n }
    ensures height { OnOk result (matrix.new.height ≡ n) }
    ensures width { OnOk result (matrix.new.width ≡ n) }
{
    if entries.len() != n {
        return Err(Stop::NoQuestion);
    }
    for col in 0..n {
        let entry = i8::try_from(entries[col]).map_err(|_| Stop::NoQuestion)?;
        matrix.set(&Ints, row, col, i128::from(entry))?;
    }
    Ok(())
}
