//! Bruhat forms: u h n_w v.

ghost use Rattle.std.specs.Prelude.{◌≡◌, ◌++◌, ◌+◌, ◌<◌, [], ◌∷◌, ℕ, List, length, map, replicate, filter, IfOk, OnOk, IsTrue, ◌↔◌};
ghost use Rattle.lie_letters.specs.Entries.{ones};
ghost use Rattle.lie_letters.specs.Spelled.{root_letters};
ghost use Rattle.lie_letters.specs.declared.letter.Letter.TheVariants.{N};
ghost use Rattle.lie_unip.specs.Forms.{IsForm, form_word, is_nonzero, nonzero_letters};
ghost use Rattle.lie_weyl.specs.WeylElement.{Spells, IsLeastWord};

use crate::unip::Unip;
use lie_datum::{Datum, RootId};
use lie_field::{Fe, Field};
use lie_letters::{Frame, Letter, Torus, Word};
use lie_weyl::Weyl;
use std::alloc::{AllocError, Global};
use std::marker::Model;

/// A Bruhat form: two lists of elements, and between them a torus vector and a Weyl element.
///
/// It does not know its frame: calls that take both ask that it is a form of the frame, so that the
/// second list is 0 wherever the Weyl element keeps the root positive.
#[derive(Drop)]
pub struct Form {
    u: Unip<Field>,
    h: Torus,
    w: Weyl,
    v: Unip<Field>,
}

impl Model for Form {
    ghost use Rattle.lie_unip.specs.Forms.{FormData};

    ghost Value = { FormData };

    ghost view = { λ a. record { first = a.u; torus = a.h; weyl = a.w; second = a.v } };
}

impl Form {
    /// The form of the empty word.
    pub fn one(alloc: Global, frame: &Frame) -> Result<Form, AllocError>
        ensures form { IfOk result (IsForm frame.now) }
        ensures first { IfOk result (λ x. x.first ≡ replicate (length frame.now.datum.positive) 0) }
        ensures torus { IfOk result (λ x. x.torus ≡ ones frame.now.datum.base.dim) }
        ensures weyl { IfOk result (λ x. Spells frame.now.datum [] x.weyl) }
        ensures second { IfOk result (λ x. x.second ≡ replicate (length frame.now.datum.positive) 0) }
    {
        let Frame { field, datum, .. } = frame;
        datum.loaded();
        Ok(Form {
            u: Unip::one(alloc, field, datum)?,
            h: Torus::one(field, datum.d()),
            w: Weyl::identity(datum),
            v: Unip::one(alloc, field, datum)?,
        })
    }

    /// The form of these parts.
    pub fn new(frame: &Frame, u: Unip<Field>, h: Torus, w: Weyl, v: Unip<Field>) -> Form
        requires { IsForm frame.now (record { first = u; torus = h; weyl = w; second = v }) }
        ensures { result ≡ record { first = u; torus = h; weyl = w; second = v } }
    {
        // Only the condition reads the frame.
        let _ = frame;
        Form { u, h, w, v }
    }

    /// The elements in front of the torus vector.
    pub fn u(&self) -> &Unip<Field>
        ensures { result.now ≡ self.now.first }
    {
        &self.u
    }

    /// The torus vector.
    pub fn h(&self) -> &Torus
        ensures { result.now ≡ self.now.torus }
    {
        &self.h
    }

    /// The Weyl element.
    pub fn w(&self) -> &Weyl
        ensures { result.now ≡ self.now.weyl }
    {
        &self.w
    }

    /// The elements behind the Weyl element.
    pub fn v(&self) -> &Unip<Field>
        ensures { result.now ≡ self.now.second }
    {
        &self.v
    }

    /// The word of the form, along the least word of its Weyl element.
    pub fn to_word(&self, alloc: Global, frame: &Frame) -> Result<Word, AllocError>
        requires { IsForm frame.now self.now }
        ensures { IfOk result (λ word. (p : List ℕ) × IsLeastWord frame.now.datum p self.now.weyl × (word ≡ form_word self.now p)) }
    {
        let datum = &frame.datum;
        let least = self.w.least_word(alloc, datum)?;
        let mut word = Word::new(alloc);
        push_root_letters(&mut word, datum, self.u.entries())?;
        word.push(Letter::H(self.h.copied()))?;
        push_weyl_letters(&mut word, &least)?;
        push_root_letters(&mut word, datum, self.v.entries())?;
        Ok(word)
    }

    /// Whether the two forms are equal in all four parts.
    pub fn same(&self, b: &Form) -> bool
        ensures { IsTrue result ↔ (self.now ≡ b.now) }
    {
        let first = same_entries(self.u.entries(), b.u.entries());
        let torus = same_entries(self.h.entries(), b.h.entries());
        let weyl = self.w.same(&b.w);
        let second = same_entries(self.v.entries(), b.v.entries());
        first && torus && weyl && second
    }
}

/// Whether two lists of elements are equal.
fn same_entries(a: &[Fe], b: &[Fe]) -> bool
    ensures { IsTrue result ↔ (a.now ≡ b.now) }
{
    a == b
}

/// Writes the letter of the root at a place, counted from 0, behind a word; 0 gives none.
fn push_root_letter(word: &mut Word, datum: &Datum, k: usize, a: Fe) -> Result<(), AllocError>
    requires { k < length datum.now.positive }
    ensures { OnOk result (word.new ≡ word.old ++ root_letters (filter is_nonzero ((k + 1, a) ∷ []))) }
{
    datum.loaded();
    if a.number() == 0 {
        return Ok(());
    }
    word.push(Letter::X(RootId::at(k, datum.m()), a))
}

/// Writes the letters of a list of elements behind a word; those that are 0 give none.
fn push_root_letters(word: &mut Word, datum: &Datum, entries: &[Fe]) -> Result<(), AllocError>
    requires { length entries.now ≡ length datum.now.positive }
    ensures { OnOk result (word.new ≡ word.old ++ root_letters (nonzero_letters entries.now)) }
{
    for k in 0..entries.len() {
        push_root_letter(word, datum, k, entries[k])?;
    }
    Ok(())
}

/// Writes the letters `n_i` along a word of simple indices behind a word.
fn push_weyl_letters(word: &mut Word, indices: &[u8]) -> Result<(), AllocError>
    ensures { OnOk result (word.new ≡ word.old ++ map N indices.now) }
{
    for i in indices {
        word.push(Letter::N(*i))?;
    }
    Ok(())
}
