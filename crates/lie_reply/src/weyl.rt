//! The reply to `weyl`.
ghost use Rattle.std.specs.Prelude.{◌≡◌, ◌++◌, true, pos, nat_abs, map, All, OnOk, IfOk};
ghost use Rattle.lie_reply.specs.Commands.{AreIndices, TellsElement, WeylTextOf};
ghost use Rattle.lie_reply.specs.Texts.{listed_text, weyl_text as text_of_weyl};
ghost use Rattle.lie_script.specs.Numbers.{is_within};
ghost use Rattle.lie_weyl.specs.WeylElement.{IsElement};

use lie_datum::{Datum, RootId};
use lie_script::{Numbers, Text, put_number, put_spaced};
use lie_weyl::Weyl;
use std::alloc::{AllocError, Global};

/// The letters of indices of at most eight simple roots.
fn letters_of(alloc: Global, indices: &Numbers) -> Result<Vec<u8>, AllocError>
    requires { All (λ i. is_within (pos 1) (pos 8) i ≡ true) indices.now }
    ensures { IfOk result (λ v. v.items ≡ map nat_abs indices.now) }
{
    let mut list = Vec::new(alloc);
    'indices: for i in indices.list() {
        list.push(i.unsigned_abs() as u8)?;
    }
    Ok(list)
}

/// The letters of a word as numbers.
fn letter_numbers(alloc: Global, word: &[u8]) -> Result<Vec<i128>, AllocError>
    ensures { IfOk result (λ v. v.items ≡ map (λ i. pos i) word.now) }
{
    word.iter().map(|i| *i as i128).collect(alloc)
}

/// The numbers of roots.
fn root_numbers(alloc: Global, roots: &[RootId]) -> Result<Vec<i128>, AllocError>
    ensures { IfOk result (λ v. v.items ≡ roots.now) }
{
    let mut list = Vec::new(alloc);
    'roots: for r in roots {
        list.push(r.number() as i128)?;
    }
    Ok(list)
}

/// Appends numbers, each after a space, or ` -` where there is none.
fn put_listed(out: &mut Vec<u8>, numbers: &[i128]) -> Result<(), AllocError>
    ensures { OnOk result (out.new.items ≡ out.old.items ++ listed_text numbers.now) }
{
    if numbers.is_empty() {
        return out.extend_from_slice(b" -");
    }
    put_spaced(out, numbers)
}

/// The text of a length, a word and images.
fn parts_text(alloc: Global, n: usize, word: &[u8], images: &[RootId]) -> Result<Text, AllocError>
    ensures { IfOk result (λ text. text ≡ text_of_weyl n word.now images.now) }
{
    let mut out = Vec::new(alloc);
    put_number(&mut out, n as i128)?;
    out.extend_from_slice(b" |")?;
    put_listed(&mut out, &letter_numbers(alloc, word)?)?;
    out.extend_from_slice(b" |")?;
    put_listed(&mut out, &root_numbers(alloc, images)?)?;
    out.extend_from_slice(b"\n")?;
    Ok(Text::of(out))
}

/// The text of an element.
fn element_text(alloc: Global, datum: &Datum, w: &Weyl) -> Result<Text, AllocError>
    requires { IsElement datum.now w.now }
    ensures { IfOk result (λ text. TellsElement datum.now w.now text) }
{
    let word = w.least_word(alloc, datum)?;
    parts_text(alloc, w.length(datum), &word, w.images())
}

/// The text of the product of the simple reflections with these indices, the last of which acts
/// first.
#[tactic(auto, using(crate::proofs::WeylLemmas::small_indices, crate::proofs::WeylLemmas::letters_from))]
pub fn weyl_text(alloc: Global, datum: &Datum, indices: &Numbers) -> Result<Text, AllocError>
    requires { AreIndices datum.now indices.now }
    ensures { IfOk result (λ text. WeylTextOf datum.now indices.now text) }
{
    datum.loaded();
    let _l = datum.l();
    let letters = letters_of(alloc, indices)?;
    let w = Weyl::from_word(datum, &letters);
    element_text(alloc, datum, &w)
}
