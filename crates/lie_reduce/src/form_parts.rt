//! The parts of a form: the matrices of its two lists and of its torus vector, and a word of them.

ghost use Rattle.std.specs.Prelude.{◌≡◌, ◌++◌, [], ◌∷◌, ℕ, List, IfOk, MatchOption, length, map};
ghost use Rattle.lie_ring.specs.Matrices.{AllElem, product};
ghost use Rattle.lie_field.specs.FieldRing.{field_ring};
ghost use Rattle.lie_const.specs.Modules.{IsModule, dimension};
ghost use Rattle.lie_letters.specs.Entries.{AreUnits};
ghost use Rattle.lie_letters.specs.RingLetters.{full_word};
ghost use Rattle.lie_letters.specs.SignedFrames.{unsigned};
ghost use Rattle.lie_letters.specs.Spelled.{IsWordOver, reversed, root_letters};
ghost use Rattle.lie_letters.specs.declared.letter.Letter.TheVariants.{H, N};
ghost use Rattle.lie_identities.specs.Audit.{HasLightWeights};
ghost use Rattle.lie_audit.specs.WordMatrix.{word_matrix};
ghost use Rattle.lie_reduce.specs.FormReading.{HasNoForm, ArePartsAlong, IsWordWith, IsNoForms, IsWordOfParts};
ghost use Rattle.lie_reduce.specs.Reduction.{CoversFrame, IsNoPositiveMatrix};
ghost use Rattle.lie_reduce.specs.Triangular.{IsSquare, IsInvertibleDiagonal};
ghost use Rattle.lie_reduce.specs.UniqueForms.{IsCoveringFor};

use crate::coefficients::peel;
use crate::level_factors::level_factors;
use crate::torus_part::torus_of;
use lie_audit::word_matrix;
use lie_datum::Datum;
use lie_dense::Dense;
use lie_field::Field;
use lie_identities::Audited;
use lie_letters::{Frame, Letter, Torus, Word};
use lie_unip::Unip;
use lie_weight::Module;
use std::alloc::{AllocError, Global};

/// The word of the letters `n_i` with these indices.
pub(crate) fn weyl_word(alloc: Global, indices: &[u8]) -> Result<Word, AllocError>
    ensures { IfOk result (λ word. word ≡ map N indices.now) }
{
    let mut word = Word::new(alloc);
    for i in indices {
        word.push(Letter::N(*i))?;
    }
    Ok(word)
}

/// The matrix of the reversed word.
fn inverse_matrix(
    alloc: Global,
    frame: &Frame,
    space: &Module,
    turn: &Word,
) -> Result<Dense, AllocError>
    requires space { IsModule frame.now.datum space.now }
    requires turn { IsWordOver (unsigned frame.now) turn.now }
    ensures value { IfOk result (λ z. z ≡ word_matrix frame.now.field space.now (reversed frame.now.field turn.now)) }
    ensures elem { IfOk result (AllElem (field_ring frame.now.field)) }
{
    let Frame { field, datum, .. } = frame;
    frame.lawful();
    let back = turn.reversed(alloc, field)?;
    word_matrix(alloc, field, datum, space, &back)
}

/// A matrix between those of the reversed word and of the word.
fn turned_back(
    alloc: Global,
    frame: &Frame,
    space: &Module,
    inverse: &Dense,
    l: &Dense,
    turn: &Word,
) -> Result<Dense, AllocError>
    requires space { IsModule frame.now.datum space.now }
    requires turn { IsWordOver (unsigned frame.now) turn.now }
    requires inverse { IsSquare (field_ring frame.now.field) (dimension space.now) inverse.now }
    requires l { IsSquare (field_ring frame.now.field) (dimension space.now) l.now }
    ensures { IfOk result (λ v. v ≡ product (field_ring frame.now.field) inverse.now (product (field_ring frame.now.field) l.now (word_matrix frame.now.field space.now turn.now))) }
{
    let Frame { field, datum, .. } = frame;
    let front = word_matrix(alloc, field, datum, space, turn)?;
    let product = l.mul(alloc, field, &front)?;
    inverse.mul(alloc, field, &product)
}

/// The matrices of the first list, of the torus vector and of the second list of each form whose word
/// has the matrix m and goes along these letters `n_i`; None where there is no such form.
pub(crate) fn parts_along(
    alloc: Global,
    frame: &Frame,
    space: &Module,
    m: &Dense,
    turn: &Word,
) -> Result<Option<(Dense, Dense, Dense)>, AllocError>
    requires covering { IsCoveringFor frame.now space.now }
    requires space { IsModule frame.now.datum space.now }
    requires light { HasLightWeights space.now }
    requires square { IsSquare (field_ring frame.now.field) (dimension space.now) m.now }
    requires turn { IsWordOver (unsigned frame.now) turn.now }
    ensures { IfOk result (λ answer. MatchOption answer (HasNoForm frame.now space.now m.now turn.now) (λ t. ArePartsAlong frame.now space.now m.now turn.now t.0 t.1 t.2)) }
{
    let Frame { field, datum, .. } = frame;
    let inverse = inverse_matrix(alloc, frame, space, turn)?;
    let g = m.mul(alloc, field, &inverse)?;
    match level_factors(alloc, field, datum, space, &g)? {
        Some((u, d, l)) => {
            let v = turned_back(alloc, frame, space, &inverse, &l, turn)?;
            Ok(Some((u, d, v)))
        }
        None => Ok(None),
    }
}

/// The word of a root letter for each element of a list.
fn root_word(alloc: Global, datum: &Datum, list: &Unip<Field>) -> Result<Word, AllocError>
    requires { length list.now ≡ length datum.now.positive }
    ensures { IfOk result (λ word. word ≡ root_letters (full_word list.now)) }
{
    let mut word = Word::new(alloc);
    for k in 0..datum.m() {
        word.push(Letter::X(datum.root_at(k), *list.coeff(k + 1)))?;
    }
    Ok(word)
}

/// A word of root letters at positive roots that has this matrix.
fn positive_word(
    alloc: Global,
    frame: &Frame,
    audited: &Audited,
    u: &Dense,
) -> Result<Option<Word>, AllocError>
    requires covers { CoversFrame frame.now audited.now }
    requires dimension { u.now.height ≡ dimension audited.now.module }
    requires elem { AllElem (field_ring frame.now.field) u.now }
    ensures { IfOk result (λ answer. MatchOption answer (IsNoPositiveMatrix frame.now audited.now.module u.now) (IsWordWith frame.now audited.now.module u.now)) }
{
    match peel(alloc, frame, audited, u)? {
        Some(list) => Ok(Some(root_word(alloc, &frame.datum, &list)?)),
        None => Ok(None),
    }
}

/// The word of a first part, a torus letter, letters `n_i` and a last part.
fn joined_word(
    alloc: Global,
    first: &Word,
    h: Torus,
    turn: &Word,
    second: &Word,
) -> Result<Word, AllocError>
    ensures { IfOk result (λ word. word ≡ first.now ++ H h ∷ (turn.now ++ second.now)) }
{
    let mut torus = Word::new(alloc);
    torus.push(Letter::H(h))?;
    let front = first.joined(alloc, &torus)?;
    let back = turn.joined(alloc, second)?;
    front.joined(alloc, &back)
}

/// A word that has the matrix of a form's word, if these are the matrices of the parts of a form.
pub(crate) fn word_of_parts(
    alloc: Global,
    frame: &Frame,
    audited: &Audited,
    turn: &Word,
    u: &Dense,
    d: &Dense,
    v: &Dense,
) -> Result<Option<Word>, AllocError>
    requires covers { CoversFrame frame.now audited.now }
    requires turn { IsWordOver (unsigned frame.now) turn.now }
    requires first { IsSquare (field_ring frame.now.field) (dimension audited.now.module) u.now }
    requires torus { IsInvertibleDiagonal (field_ring frame.now.field) (dimension audited.now.module) d.now }
    requires second { IsSquare (field_ring frame.now.field) (dimension audited.now.module) v.now }
    ensures { IfOk result (λ answer. MatchOption answer (IsNoForms frame.now audited.now.module u.now d.now v.now)
        (IsWordOfParts frame.now audited.now.module turn.now u.now d.now v.now)) }
{
    frame.lawful();
    audited.module();
    match positive_word(alloc, frame, audited, u)? {
        Some(first) => match positive_word(alloc, frame, audited, v)? {
            Some(second) => {
                let h = torus_of(alloc, &frame.field, &frame.datum, audited, d)?;
                Ok(Some(joined_word(alloc, &first, h, turn, &second)?))
            }
            None => Ok(None),
        },
        None => Ok(None),
    }
}
