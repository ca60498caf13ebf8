//! The Bruhat form of a matrix.

ghost use Rattle.std.specs.Prelude.{◌≡◌, ℕ, IfOk, MatchOption};
ghost use Rattle.lie_ring.specs.Matrices.{AllElem};
ghost use Rattle.lie_field.specs.FieldRing.{field_ring};
ghost use Rattle.lie_weyl.specs.WeylElement.{IsElement};
ghost use Rattle.lie_const.specs.Modules.{dimension};
ghost use Rattle.lie_letters.specs.SignedFrames.{unsigned};
ghost use Rattle.lie_letters.specs.Spelled.{IsWordOver};
ghost use Rattle.lie_unip.specs.Forms.{FormData};
ghost use Rattle.lie_audit.specs.WordMatrix.{word_matrix};
ghost use Rattle.lie_reduce.specs.FormReading.{HasNoFormOf, IsWordRead};
ghost use Rattle.lie_reduce.specs.Reduction.{CoversFrame, HasFormMatrix, Reduces};

use crate::form_parts::{parts_along, weyl_word, word_of_parts};
use crate::reading::pivots;
use lie_audit::word_matrix;
use lie_bruhat::form;
use lie_dense::Dense;
use lie_identities::Audited;
use lie_letters::{Frame, Word};
use lie_unip::Form;
use lie_weyl::Weyl;
use std::alloc::{AllocError, Global};

/// A word that has the matrix m, if a form with this Weyl element has it.
fn word_read(
    alloc: Global,
    frame: &Frame,
    audited: &Audited,
    m: &Dense,
    w: &Weyl,
) -> Result<Option<Word>, AllocError>
    requires covers { CoversFrame frame.now audited.now }
    requires dimension { m.now.height ≡ dimension audited.now.module }
    requires elem { AllElem (field_ring frame.now.field) m.now }
    requires element { IsElement frame.now.datum w.now }
    ensures { IfOk result (λ answer. MatchOption answer (HasNoFormOf frame.now audited.now.module m.now w.now) (IsWordRead frame.now audited.now.module m.now w.now)) }
{
    frame.lawful();
    let _ = m.dim();
    let least = w.least_word(alloc, &frame.datum)?;
    let turn = weyl_word(alloc, &least)?;
    match parts_along(alloc, frame, audited.module(), m, &turn)? {
        Some((u, d, v)) => word_of_parts(alloc, frame, audited, &turn, &u, &d, &v),
        None => Ok(None),
    }
}

/// The form of a word that has the matrix m if a form has it.
fn form_read(
    alloc: Global,
    frame: &Frame,
    audited: &Audited,
    m: &Dense,
    word: &Word,
) -> Result<Option<Form>, AllocError>
    requires covers { CoversFrame frame.now audited.now }
    requires dimension { m.now.height ≡ dimension audited.now.module }
    requires word { IsWordOver (unsigned frame.now) word.now }
    requires read { (y : FormData) → HasFormMatrix frame.now audited.now.module y m.now → word_matrix frame.now.field audited.now.module word.now ≡ m.now }
    ensures { IfOk result (Reduces frame.now audited.now.module m.now) }
{
    frame.lawful();
    let matrix = word_matrix(alloc, &frame.field, &frame.datum, audited.module(), word)?;
    if matrix.same(m) {
        Ok(Some(form(alloc, frame, word)?))
    } else {
        Ok(None)
    }
}

/// The form whose word has the matrix m; None exactly where no word has it.
///
/// The pivots tell the Weyl element w. With n_w taken away on the right, m has three triangular
/// factors, which tell the two lists and the torus vector; and m is compared with the matrix of the
/// word that is read so.
pub fn reduce(
    alloc: Global,
    frame: &Frame,
    audited: &Audited,
    m: &Dense,
) -> Result<Option<Form>, AllocError>
    requires covers { CoversFrame frame.now audited.now }
    requires dimension { m.now.height ≡ dimension audited.now.module }
    requires elem { AllElem (field_ring frame.now.field) m.now }
    ensures { IfOk result (Reduces frame.now audited.now.module m.now) }
{
    frame.lawful();
    audited.module();
    match pivots(alloc, frame, audited, m)? {
        Some(w) => match word_read(alloc, frame, audited, m, &w)? {
            Some(word) => form_read(alloc, frame, audited, m, &word),
            None => Ok(None),
        },
        None => Ok(None),
    }
}
