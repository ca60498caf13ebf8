//! Weyl elements, root elements and forms, written.

ghost use Rattle.lie_weyl.specs.WeylElement.{IsElement};
ghost use Rattle.lie_unip.specs.Forms.{IsForm};

use lie_field::Fe;
use lie_letters::{Frame, Torus};
use lie_unip::Form;
use lie_weyl::Weyl;
use std::alloc::{AllocError, Global};
use test_rows::{Answer, Stop};

/// Writes the least word of a Weyl element.
pub(crate) fn write_weyl(
    alloc: Global,
    frame: &Frame,
    w: &Weyl,
    answer: &mut Answer,
) -> Result<(), Stop>
    requires { IsElement frame.now.datum w.now }
{
    let word = least_word(alloc, frame, w)?;
    write_indices(&word, answer)
}

/// The least word, with no clause.
fn least_word(alloc: Global, frame: &Frame, w: &Weyl) -> Result<Vec<u8>, AllocError>
    requires { IsElement frame.now.datum w.now }
{
    w.least_word(alloc, &frame.datum)
}

/// Writes simple indices.
fn write_indices(word: &[u8], answer: &mut Answer) -> Result<(), Stop> {
    if word.is_empty() {
        answer.word("-")?;
    }
    for i in word {
        answer.number(i128::from(*i))?;
    }
    Ok(())
}

/// Writes the root elements of a list of elements, one for each positive root, without those that are 0.
pub(crate) fn write_letters(
    alloc: Global,
    entries: &[Fe],
    answer: &mut Answer,
) -> Result<(), Stop> {
    let mut is_empty = true;
    for k in 0..entries.len() {
        if entries[k].number() != 0 {
            is_empty = false;
            write_letter(alloc, k + 1, entries[k], answer)?;
        }
    }
    if is_empty {
        answer.word("-")?;
    }
    Ok(())
}

/// Writes a root element.
fn write_letter(alloc: Global, k: usize, a: Fe, answer: &mut Answer) -> Result<(), Stop> {
    let letter = format!(in alloc; "x{k}({})", a.number())?;
    Ok(answer.word(&letter)?)
}

/// Writes the entries of a torus vector.
fn write_torus(torus: &Torus, answer: &mut Answer) -> Result<(), Stop> {
    for a in torus.entries() {
        answer.number(i128::from(a.number()))?;
    }
    Ok(())
}

/// Writes a form: root elements, torus vector, Weyl element, root elements.
pub(crate) fn write_form(
    alloc: Global,
    frame: &Frame,
    x: &Form,
    answer: &mut Answer,
) -> Result<(), Stop>
    requires { IsForm frame.now x.now }
{
    write_letters(alloc, x.u().entries(), answer)?;
    answer.word("|")?;
    write_torus(x.h(), answer)?;
    answer.word("|")?;
    write_weyl(alloc, frame, x.w(), answer)?;
    answer.word("|")?;
    write_letters(alloc, x.v().entries(), answer)
}
