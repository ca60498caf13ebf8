//! The Bruhat product: forms of longer words, of products, of inverses and of words.

ghost use Rattle.std.specs.Prelude.{◌≡◌, ◌∷◌, [], ℕ, List, IfOk, length, map, reverse};
ghost use Rattle.lie_letters.specs.Entries.{AreUnits};
ghost use Rattle.lie_letters.specs.Frames.{dim};
ghost use Rattle.lie_letters.specs.GroupSpelled.{JoinedInGroup};
ghost use Rattle.lie_letters.specs.SignedFrames.{unsigned};
ghost use Rattle.lie_letters.specs.Spelled.{IsLetterOver, IsWordOver, reversed};
ghost use Rattle.lie_letters.specs.declared.letter.Letter.TheVariants.{H, N};
ghost use Rattle.lie_unip.specs.Forms.{IsForm, IsFormOf};
ghost use Rattle.lie_weyl.specs.WeylElement.{AreLetters, Spells};
ghost use Rattle.lie_bruhat.specs.Products.{IsTimes, IsProduct, IsInverse, IsWeylStep};

use crate::moving::RootLetter;
use crate::negative::times_root;
use crate::product::{settled, times_roots, times_torus};
use crate::turned::{square, times_inverse, times_simple};
use lie_letters::{Frame, Letter, Torus, Word};
use lie_unip::Form;
use std::alloc::{AllocError, Global};

/// The form times a letter. A letter at a negative root makes a product of a few forms; each other letter one or two.
pub fn times_letter(
    alloc: Global,
    frame: &Frame,
    f: &Form,
    letter: &Letter,
) -> Result<Form, AllocError>
    requires form { IsForm frame.now f.now }
    requires letter { IsLetterOver (unsigned frame.now) letter.now }
    ensures times { IfOk result (IsTimes frame.now f.now (letter.now ∷ [])) }
    ensures weyl { IfOk result (λ y. IsWeylStep frame.now.datum letter.now f.now.weyl y.weyl) }
{
    match letter {
        Letter::X(r, a) => times_root(alloc, frame, f, RootLetter { r: *r, a: *a }),
        Letter::H(t) => times_torus(alloc, frame, f, t),
        Letter::N(i) => times_simple(alloc, frame, f, *i),
        Letter::Ninv(i) => times_inverse(alloc, frame, f, *i),
    }
}

/// The form of a word, letter by letter.
pub fn form(alloc: Global, frame: &Frame, w: &Word) -> Result<Form, AllocError>
    requires { IsWordOver (unsigned frame.now) w.now }
    ensures { IfOk result (λ x. IsFormOf frame.now x w.now) }
{
    frame.lawful();
    let letters = w.letters();
    let mut form = Form::one(alloc, frame)?;
    for k in 0..letters.len() {
        form = times_letter(alloc, frame, &form, &letters[k])?;
    }
    Ok(form)
}

/// The product: the words of `a`, then those of `b`. It takes a collection for each list of `b` and some for each
/// simple reflection of its least word.
pub fn mul(alloc: Global, frame: &Frame, a: &Form, b: &Form) -> Result<Form, AllocError>
    requires a { IsForm frame.now a.now }
    requires b { IsForm frame.now b.now }
    ensures product { IfOk result (IsProduct frame.now a.now b.now) }
{
    frame.lawful();
    let word = b.w().least_word(alloc, &frame.datum)?;
    let first = times_roots(alloc, frame, a, b.u())?;
    let mut form = times_torus(alloc, frame, &first, b.h())?;
    for k in 0..word.len() {
        form = times_simple(alloc, frame, &form, word[k])?;
    }
    times_roots(alloc, frame, &form, b.v())
}

/// The inverse: the form of the reversed words of `a`, whose Weyl element is the inverse of that of `a`.
pub fn inv(alloc: Global, frame: &Frame, a: &Form) -> Result<Form, AllocError>
    requires form { IsForm frame.now a.now }
    ensures inverse { IfOk result (IsInverse frame.now a.now) }
    ensures weyl { IfOk result (λ x. (w : List ℕ) → Spells frame.now.datum w a.now.weyl → Spells frame.now.datum (reverse w) x.weyl) }
{
    frame.lawful();
    let Frame {
        field,
        datum,
        constants,
        ..
    } = frame;
    let word = a.w().least_word(alloc, datum)?;
    let u = a.v().inv(alloc, field, datum, constants)?;
    let v = a.u().inv(alloc, field, datum, constants)?;
    let t = inverse_torus(frame, a.h(), &word);
    let w = a.w().inverse(datum);
    settled(alloc, frame, &u, t, w, &v)
}

/// The torus vector that stands in front of the `n_i` along the reversed word, where the letters `n_i'` along it and
/// the letter of the inverse of h stood.
fn inverse_torus(frame: &Frame, h: &Torus, word: &[u8]) -> Torus
    requires units { AreUnits frame.now.field h.now }
    requires long { dim (unsigned frame.now) ≡ length h.now }
    requires letters { AreLetters frame.now.datum.base word.now }
    ensures units { AreUnits frame.now.field result }
    ensures long { dim (unsigned frame.now) ≡ length result }
    ensures joined { JoinedInGroup frame.now (reversed frame.now.field (H h.now ∷ map N word.now)) (H result ∷ map N (reverse word.now)) }
{
    frame.lawful();
    let Frame { field, datum, .. } = frame;
    let mut t = h.inv(field);
    for k in 0..word.len() {
        let i = word[k];
        let moved = t.reflect(field, datum, i as usize);
        t = square(frame, i).mul(field, &moved);
    }
    t
}
