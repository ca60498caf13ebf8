//! The product of a form with positive root letters and torus letters.

ghost use Rattle.std.specs.Prelude.{◌≡◌, ◌<◌, ◌++◌, ◌∷◌, [], ℕ, List, length, map, pos, ◌<ℤ◌, slice_index_or, IfOk};
ghost use Rattle.lie_datum.specs.RootList.{IsNumber};
ghost use Rattle.lie_field.specs.FieldRing.{field_ring};
ghost use Rattle.lie_field.specs.Quotient.{order};
ghost use Rattle.lie_letters.specs.Entries.{AreUnits};
ghost use Rattle.lie_letters.specs.Frames.{dim};
ghost use Rattle.lie_letters.specs.GroupSpelled.{JoinedInGroup};
ghost use Rattle.lie_letters.specs.SignedFrames.{unsigned};
ghost use Rattle.lie_letters.specs.Spelled.{root_letters};
ghost use Rattle.lie_letters.specs.declared.letter.Letter.{Letter};
ghost use Rattle.lie_letters.specs.declared.letter.Letter.TheVariants.{X, H, N};
ghost use Rattle.lie_unip.specs.Collection.{AreEntries};
ghost use Rattle.lie_unip.specs.Forms.{IsForm, IsFormOf, StandsFor, nonzero_letters};
ghost use Rattle.lie_unip.specs.PositiveLetters.{ArePositiveLetters, by_place};
ghost use Rattle.lie_unip.specs.Splitting.{kept_by};
ghost use Rattle.lie_weyl.specs.WeylElement.{AreLetters, IsElement};
ghost use Rattle.lie_bruhat.specs.Products.{IsTimes, ZeroElsewhere};

use crate::moving::{RootLetter, past_torus, past_word, torus_past_word};
use lie_datum::RootId;
use lie_field::{Fe, Field};
use lie_letters::{Frame, Torus};
use lie_unip::{Form, Unip};
use lie_weyl::Weyl;
use std::alloc::{AllocError, Global};

/// The letters that stand in front of a torus letter and the `n_i` along a word where those of a list
/// stood behind them, which is 0 wherever the word makes the root negative. The first one comes first.
pub(crate) fn moved_letters(
    alloc: Global,
    frame: &Frame,
    h: &Torus,
    word: &[u8],
    y: &Unip<Field>,
) -> Result<Vec<(RootId, Fe)>, AllocError>
    requires units { AreUnits frame.now.field h.now }
    requires long { dim (unsigned frame.now) ≡ length h.now }
    requires word { AreLetters frame.now.datum.base word.now }
    requires entries { AreEntries (field_ring frame.now.field) (length frame.now.datum.positive) y.now }
    requires zeros { ZeroElsewhere (kept_by frame.now.datum word.now) y.now }
    ensures positive { IfOk result (λ v. ArePositiveLetters (field_ring frame.now.field) frame.now.datum v.items) }
    ensures joined { IfOk result (λ v. JoinedInGroup frame.now (H h.now ∷ (map N word.now ++ root_letters (nonzero_letters y.now))) (root_letters (by_place v.items) ++ H h.now ∷ map N word.now)) }
{
    frame.lawful();
    let m = frame.datum.m();
    let entries = y.entries();
    let mut letters = Vec::new(alloc);
    for k in 0..entries.len() {
        if entries[k].number() != 0 {
            let x = RootLetter {
                r: RootId::at(k, m),
                a: entries[k],
            };
            let x = past_torus(frame, h, past_word(frame, word, x));
            letters.push((x.r, x.a))?;
        }
    }
    Ok(letters)
}

/// The form of u h n_w y, whatever the list y is: its letters at the roots that w keeps positive are
/// moved to the front.
pub(crate) fn settled(
    alloc: Global,
    frame: &Frame,
    u: &Unip<Field>,
    h: Torus,
    w: Weyl,
    y: &Unip<Field>,
) -> Result<Form, AllocError>
    requires first { AreEntries (field_ring frame.now.field) (length frame.now.datum.positive) u.now }
    requires units { AreUnits frame.now.field h }
    requires long { dim (unsigned frame.now) ≡ length h }
    requires element { IsElement frame.now.datum w }
    requires second { AreEntries (field_ring frame.now.field) (length frame.now.datum.positive) y.now }
    ensures form { IfOk result (IsForm frame.now) }
    ensures weyl { IfOk result (λ x. x.weyl ≡ w) }
    ensures joined { IfOk result (λ x. (z : List Letter) → StandsFor frame.now (record { first = u.now; torus = h; weyl = w; second = y.now }) z → IsFormOf frame.now x z) }
{
    frame.lawful();
    let Frame {
        field,
        datum,
        constants,
        ..
    } = frame;
    let (kept, v) = y.split(alloc, field, datum, constants, &w)?;
    let word = w.least_word(alloc, datum)?;
    let front = moved_letters(alloc, frame, &h, &word, &kept)?;
    let u = u.append(alloc, field, datum, constants, &front)?;
    Ok(Form::new(frame, u, h, w, v))
}

/// The form times the root letters of a list.
pub(crate) fn times_roots(
    alloc: Global,
    frame: &Frame,
    f: &Form,
    y: &Unip<Field>,
) -> Result<Form, AllocError>
    requires form { IsForm frame.now f.now }
    requires entries { AreEntries (field_ring frame.now.field) (length frame.now.datum.positive) y.now }
    ensures weyl { IfOk result (λ x. x.weyl ≡ f.now.weyl) }
    ensures times { IfOk result (IsTimes frame.now f.now (root_letters (nonzero_letters y.now))) }
{
    frame.lawful();
    let y = f
        .v()
        .mul(alloc, &frame.field, &frame.datum, &frame.constants, y)?;
    settled(alloc, frame, f.u(), f.h().copied(), *f.w(), &y)
}

/// The form times a root letter at a positive root.
pub(crate) fn times_positive(
    alloc: Global,
    frame: &Frame,
    f: &Form,
    x: RootLetter,
) -> Result<Form, AllocError>
    requires form { IsForm frame.now f.now }
    requires root { IsNumber frame.now.datum x.r }
    requires positive { pos 0 <ℤ x.r }
    requires below { x.a < order frame.now.field.given }
    ensures weyl { IfOk result (λ y. y.weyl ≡ f.now.weyl) }
    ensures times { IfOk result (IsTimes frame.now f.now (X x.r x.a ∷ [])) }
{
    frame.lawful();
    let Frame {
        field,
        datum,
        constants,
        ..
    } = frame;
    let y = f.v().push(alloc, field, datum, constants, x.r, &x.a)?;
    settled(alloc, frame, f.u(), f.h().copied(), *f.w(), &y)
}

/// The form times a torus letter.
pub(crate) fn times_torus(
    alloc: Global,
    frame: &Frame,
    f: &Form,
    t: &Torus,
) -> Result<Form, AllocError>
    requires form { IsForm frame.now f.now }
    requires units { AreUnits frame.now.field t.now }
    requires long { dim (unsigned frame.now) ≡ length t.now }
    ensures weyl { IfOk result (λ y. y.weyl ≡ f.now.weyl) }
    ensures times { IfOk result (IsTimes frame.now f.now (H t.now ∷ [])) }
{
    frame.lawful();
    let Frame { field, datum, .. } = frame;
    let word = f.w().least_word(alloc, datum)?;
    let h = f.h().mul(field, &torus_past_word(frame, &word, t));
    let v = scaled(alloc, frame, t, f.v())?;
    let u = f.u().copied(alloc, field)?;
    Ok(Form::new(frame, u, h, *f.w(), v))
}

/// The list that stands behind a torus letter where v stood in front of it: each element times the
/// inverse of its root at the torus vector.
fn scaled(
    alloc: Global,
    frame: &Frame,
    t: &Torus,
    v: &Unip<Field>,
) -> Result<Unip<Field>, AllocError>
    requires units { AreUnits frame.now.field t.now }
    requires long { dim (unsigned frame.now) ≡ length t.now }
    requires entries { AreEntries (field_ring frame.now.field) (length frame.now.datum.positive) v.now }
    ensures entries { IfOk result (AreEntries (field_ring frame.now.field) (length frame.now.datum.positive)) }
    ensures zeros { IfOk result (λ y. (k : ℕ) → slice_index_or v.now k 0 ≡ 0 → slice_index_or y k 0 ≡ 0) }
    ensures joined { IfOk result (λ y. JoinedInGroup frame.now (root_letters (nonzero_letters v.now) ++ H t.now ∷ []) (H t.now ∷ root_letters (nonzero_letters y))) }
{
    frame.lawful();
    let m = frame.datum.m();
    let back = t.inv(&frame.field);
    let entries = v.entries();
    let mut scaled = Vec::new(alloc);
    for k in 0..entries.len() {
        let x = RootLetter {
            r: RootId::at(k, m),
            a: entries[k],
        };
        scaled.push(past_torus(frame, &back, x).a)?;
    }
    Ok(Unip::of(scaled))
}
