//! The texts of Bruhat forms.
ghost use Rattle.std.specs.Prelude.{◌≡◌, ◌++◌, ℕ, List, codes, IfOk, OnOk, OnErr};
ghost use Rattle.lie_script.specs.FormTexts.{root_letter_text, letters_text, indices_text, entries_text, form_text, behind};
ghost use Rattle.lie_unip.specs.Forms.{IsForm, nonzero_letters};
ghost use Rattle.lie_weyl.specs.WeylElement.{IsLeastWord};

use crate::texts::put_number;
use lie_field::Fe;
use lie_letters::{Frame, Torus};
use lie_unip::Form;
use std::alloc::{AllocError, Global};

/// Appends `x<k>(<a>)`.
fn put_letter(out: &mut Vec<u8>, k: usize, a: Fe) -> Result<(), AllocError>
    ensures { OnOk result (out.new.items ≡ out.old.items ++ root_letter_text (record { 0 = k; 1 = a })) }
{
    out.push(b'x')?;
    put_number(out, k as i128)?;
    out.push(b'(')?;
    put_number(out, a.number() as i128)?;
    out.push(b')')?;
    Ok(())
}

/// Appends `x<k>(<a>)`, behind a space unless it is the first.
fn put_next(out: &mut Vec<u8>, first: bool, k: usize, a: Fe) -> Result<(), AllocError>
    ensures { OnOk result (out.new.items ≡ out.old.items ++ behind first (root_letter_text (record { 0 = k; 1 = a }))) }
{
    if !first {
        out.push(b' ')?;
    }
    put_letter(out, k, a)
}

/// Appends the letters that aren't 0 with one space between, or `-`.
fn put_letters(out: &mut Vec<u8>, entries: &[Fe]) -> Result<(), AllocError>
    ensures { OnOk result (out.new.items ≡ out.old.items ++ letters_text (nonzero_letters entries.now)) }
{
    let mut first = true;
    'letters: for k in 0..entries.len() {
        let a = entries[k];
        if a.number() != 0 {
            put_next(out, first, k + 1, a)?;
            first = false;
        }
    }
    if first {
        out.push(b'-')?;
    }
    Ok(())
}

/// Appends the entries, each behind a space.
fn put_entries(out: &mut Vec<u8>, torus: &Torus) -> Result<(), AllocError>
    ensures { OnOk result (out.new.items ≡ out.old.items ++ codes " " ++ entries_text torus.now) }
{
    let entries = torus.entries();
    'entries: for e in entries {
        out.push(b' ')?;
        put_number(out, e.number() as i128)?;
    }
    Ok(())
}

/// Appends simple indices, each behind a space, or ` -`.
fn put_indices(out: &mut Vec<u8>, word: &[u8]) -> Result<(), AllocError>
    ensures { OnOk result (out.new.items ≡ out.old.items ++ codes " " ++ indices_text word.now) }
{
    if word.is_empty() {
        return out.extend_from_slice(b" -");
    }
    'indices: for i in word {
        out.push(b' ')?;
        put_number(out, *i as i128)?;
    }
    Ok(())
}

/// The text of a form along a word of its Weyl element.
fn text_along(alloc: Global, f: &Form, word: &[u8]) -> Result<Vec<u8>, AllocError>
    ensures { IfOk result (λ text. text.items ≡ form_text f.now word.now) }
{
    let mut text = Vec::new(alloc);
    put_letters(&mut text, f.u().entries())?;
    text.extend_from_slice(b" |")?;
    put_entries(&mut text, f.h())?;
    text.extend_from_slice(b" |")?;
    put_indices(&mut text, word)?;
    text.extend_from_slice(b" | ")?;
    put_letters(&mut text, f.v().entries())?;
    Ok(text)
}

/// Appends the text of a form, along the least word of its Weyl element. Where no memory is left
/// nothing is appended.
pub fn put_form(alloc: Global, out: &mut Vec<u8>, frame: &Frame, f: &Form) -> Result<(), AllocError>
    requires form { IsForm frame.now f.now }
    ensures text { OnOk result ((p : List ℕ) × IsLeastWord frame.now.datum p f.now.weyl × (out.new.items ≡ out.old.items ++ form_text f.now p)) }
    ensures left { OnErr result (out.new.items ≡ out.old.items) }
{
    let least = f.w().least_word(alloc, &frame.datum)?;
    let text = text_along(alloc, f, &least)?;
    out.extend_from_slice(&text)
}
