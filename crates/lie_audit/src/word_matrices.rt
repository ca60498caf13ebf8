//! Matrices of words on a module over a finite field.

ghost use Rattle.std.specs.Prelude.{◌≡◌, IfOk};
ghost use Rattle.lie_ring.specs.Matrices.{AllElem};
ghost use Rattle.lie_field.specs.FieldRing.{field_ring};
ghost use Rattle.lie_const.specs.Modules.{IsModule};
ghost use Rattle.lie_audit.specs.WordMatrix.{IsWordFor, word_matrix};

use crate::letter_matrices::letter_matrix;
use lie_datum::Datum;
use lie_dense::Dense;
use lie_field::Field;
use lie_letters::Word;
use lie_weight::Module;
use std::alloc::{AllocError, Global};

/// The matrix of a word on a module of the datum, over the field.
pub fn word_matrix(
    alloc: Global,
    field: &Field,
    datum: &Datum,
    space: &Module,
    w: &Word,
) -> Result<Dense, AllocError>
    requires space { IsModule datum.now space.now }
    requires word { IsWordFor field.now datum.now w.now }
    ensures value { IfOk result (λ m. m ≡ word_matrix field.now space.now w.now) }
    ensures elem { IfOk result (AllElem (field_ring field.now)) }
{
    let letters = w.letters();
    let mut matrix = Dense::identity(alloc, field, space.dim())?;
    for letter in letters {
        let factor = letter_matrix(alloc, field, datum, space, letter)?;
        matrix = matrix.mul(alloc, field, &factor)?;
    }
    Ok(matrix)
}
