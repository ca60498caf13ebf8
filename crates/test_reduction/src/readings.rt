//! What is read off a matrix.

ghost use Rattle.std.specs.Prelude.{◌≡◌, IfOk, IfSome};
ghost use Rattle.lie_ring.specs.Matrices.{AllElem};
ghost use Rattle.lie_field.specs.FieldRing.{field_ring};
ghost use Rattle.lie_weyl.specs.WeylElement.{IsElement};
ghost use Rattle.lie_const.specs.Modules.{dimension};
ghost use Rattle.lie_unip.specs.Forms.{IsForm};
ghost use Rattle.lie_reduce.specs.Reduction.{CoversFrame};

use crate::forms::{write_form, write_letters, write_weyl};
use lie_audit::Audited;
use lie_dense::Dense;
use lie_field::Field;
use lie_letters::Frame;
use lie_reduce::{peel, pivots, reduce};
use lie_unip::{Form, Unip};
use lie_weyl::Weyl;
use std::alloc::{AllocError, Global};
use test_rows::{Answer, Stop};

/// Answers a question about a matrix, where it has the dimension of the module.
pub(crate) fn about_matrix(
    alloc: Global,
    frame: &Frame,
    audited: &Audited,
    question: &str,
    m: &Dense,
    answer: &mut Answer,
) -> Result<(), Stop>
    requires covers { CoversFrame frame.now audited.now }
    requires elem { AllElem (field_ring frame.now.field) m.now }
{
    if m.dim() != audited.module().dim() {
        return Err(Stop::NoQuestion);
    }
    match question {
        "pivots" => about_pivots(alloc, frame, audited, m, answer),
        "peel" => about_peel(alloc, frame, audited, m, answer),
        _ => about_form(alloc, frame, audited, m, answer),
    }
}

/// Writes the Weyl element of a matrix.
fn about_pivots(
    alloc: Global,
    frame: &Frame,
    audited: &Audited,
    m: &Dense,
    answer: &mut Answer,
) -> Result<(), Stop>
    requires covers { CoversFrame frame.now audited.now }
    requires dimension { m.now.height ≡ dimension audited.now.module }
    requires elem { AllElem (field_ring frame.now.field) m.now }
{
    match pivots_of(alloc, frame, audited, m)? {
        Some(w) => write_weyl(alloc, frame, &w, answer),
        None => Ok(answer.word("none")?),
    }
}

/// `pivots` with one clause.
fn pivots_of(
    alloc: Global,
    frame: &Frame,
    audited: &Audited,
    m: &Dense,
) -> Result<Option<Weyl>, AllocError>
    requires covers { CoversFrame frame.now audited.now }
    requires dimension { m.now.height ≡ dimension audited.now.module }
    requires elem { AllElem (field_ring frame.now.field) m.now }
    ensures { IfOk result (λ w. IfSome w (IsElement frame.now.datum)) }
{
    pivots(alloc, frame, audited, m)
}

/// Writes the root elements of a matrix.
fn about_peel(
    alloc: Global,
    frame: &Frame,
    audited: &Audited,
    m: &Dense,
    answer: &mut Answer,
) -> Result<(), Stop>
    requires covers { CoversFrame frame.now audited.now }
    requires dimension { m.now.height ≡ dimension audited.now.module }
    requires elem { AllElem (field_ring frame.now.field) m.now }
{
    match peel_of(alloc, frame, audited, m)? {
        Some(u) => write_letters(alloc, u.entries(), answer),
        None => Ok(answer.word("none")?),
    }
}

/// `peel` with no clause.
fn peel_of(
    alloc: Global,
    frame: &Frame,
    audited: &Audited,
    m: &Dense,
) -> Result<Option<Unip<Field>>, AllocError>
    requires covers { CoversFrame frame.now audited.now }
    requires dimension { m.now.height ≡ dimension audited.now.module }
    requires elem { AllElem (field_ring frame.now.field) m.now }
{
    peel(alloc, frame, audited, m)
}

/// Writes the form of a matrix.
fn about_form(
    alloc: Global,
    frame: &Frame,
    audited: &Audited,
    m: &Dense,
    answer: &mut Answer,
) -> Result<(), Stop>
    requires covers { CoversFrame frame.now audited.now }
    requires dimension { m.now.height ≡ dimension audited.now.module }
    requires elem { AllElem (field_ring frame.now.field) m.now }
{
    match form_of(alloc, frame, audited, m)? {
        Some(x) => write_form(alloc, frame, &x, answer),
        None => Ok(answer.word("none")?),
    }
}

/// `reduce` with one clause.
fn form_of(
    alloc: Global,
    frame: &Frame,
    audited: &Audited,
    m: &Dense,
) -> Result<Option<Form>, AllocError>
    requires covers { CoversFrame frame.now audited.now }
    requires dimension { m.now.height ≡ dimension audited.now.module }
    requires elem { AllElem (field_ring frame.now.field) m.now }
    ensures { IfOk result (λ x. IfSome x (IsForm frame.now)) }
{
    reduce(alloc, frame, audited, m)
}
