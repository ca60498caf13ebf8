//! The triangular factors of a matrix.

ghost use Rattle.lie_ring.specs.Matrices.{AllElem};
ghost use Rattle.lie_field.specs.FieldRing.{field_ring};

use crate::matrices::{matrix, write};
use lie_dense::Dense;
use lie_field::Field;
use lie_reduce::udl;
use std::alloc::{AllocError, Global};
use test_rows::{Answer, Stop};

/// Writes the factors of the matrix with these rows.
pub(crate) fn about_factors(
    alloc: Global,
    field: &Field,
    rows: &[Vec<i128>],
    answer: &mut Answer,
) -> Result<(), Stop> {
    let matrix = matrix(alloc, field, rows)?;
    match factors_of(alloc, field, &matrix)? {
        Some(factors) => write_all(&factors, answer),
        None => Ok(answer.word("none")?),
    }
}

/// The factors, with no clause.
fn factors_of(
    alloc: Global,
    field: &Field,
    matrix: &Dense,
) -> Result<Option<(Dense, Dense, Dense)>, AllocError>
    requires { AllElem (field_ring field.now) matrix.now }
{
    udl(alloc, field, matrix)
}

/// Writes the three factors, with a bar between two.
fn write_all(factors: &(Dense, Dense, Dense), answer: &mut Answer) -> Result<(), Stop> {
    let (upper, diagonal, lower) = factors;
    write(upper, answer)?;
    answer.word("|")?;
    write(diagonal, answer)?;
    answer.word("|")?;
    write(lower, answer)
}
