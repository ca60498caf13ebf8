//! Root letters and torus vectors moved past `n_i`, past the `n_i` along a word, and past torus letters.

ghost use Rattle.std.specs.Prelude.{◌≡◌, ◌<◌, ◌++◌, ◌∷◌, [], length, map};
ghost use Rattle.lie_const.specs.Signs.{eta_of};
ghost use Rattle.lie_datum.specs.RootDatum.{IsSimpleIndex, reflected};
ghost use Rattle.lie_datum.specs.RootList.{IsNumber, root_of};
ghost use Rattle.lie_field.specs.Quotient.{order, mul, of_int};
ghost use Rattle.lie_letters.specs.Entries.{AreUnits};
ghost use Rattle.lie_letters.specs.Frames.{dim};
ghost use Rattle.lie_letters.specs.GroupSpelled.{JoinedInGroup};
ghost use Rattle.lie_letters.specs.SignedFrames.{unsigned};
ghost use Rattle.lie_letters.specs.declared.letter.Letter.TheVariants.{X, H, N};
ghost use Rattle.lie_weyl.specs.WeylElement.{AreLetters, moved};

use lie_datum::RootId;
use lie_field::Fe;
use lie_letters::{Frame, Torus};

/// A root letter `x_r(a)`.
#[derive(Clone, Copy)]
pub(crate) struct RootLetter {
    pub r: RootId,
    pub a: Fe,
}

/// The sign of i and s times a.
fn signed(frame: &Frame, i: usize, s: RootId, a: Fe) -> Fe
    requires index { IsSimpleIndex frame.now.datum.base i }
    requires root { IsNumber frame.now.datum s }
    requires below { a < order frame.now.field.given }
    ensures value { result ≡ mul frame.now.field.given (of_int frame.now.field.given (eta_of frame.now.signs i s)) a }
    ensures below { result < order frame.now.field.given }
{
    frame.lawful();
    if frame.signs.eta(i, s) < 0 {
        frame.field.neg(a)
    } else {
        a
    }
}

/// The root letter that stands in front of `n_i` where x stood behind it.
pub(crate) fn past_simple(frame: &Frame, i: usize, x: RootLetter) -> RootLetter
    requires index { IsSimpleIndex frame.now.datum.base i }
    requires root { IsNumber frame.now.datum x.r }
    requires below { x.a < order frame.now.field.given }
    ensures root { IsNumber frame.now.datum result.r }
    ensures below { result.a < order frame.now.field.given }
    ensures image { root_of frame.now.datum result.r ≡ reflected frame.now.datum.base i (root_of frame.now.datum x.r) }
    ensures joined { JoinedInGroup frame.now (N i ∷ X x.r x.a ∷ []) (X result.r result.a ∷ N i ∷ []) }
{
    frame.lawful();
    RootLetter {
        r: frame.datum.reflect(i, x.r),
        a: signed(frame, i, x.r, x.a),
    }
}

/// The root letter that stands behind `n_i` where x stood in front of it.
pub(crate) fn before_simple(frame: &Frame, i: usize, x: RootLetter) -> RootLetter
    requires index { IsSimpleIndex frame.now.datum.base i }
    requires root { IsNumber frame.now.datum x.r }
    requires below { x.a < order frame.now.field.given }
    ensures root { IsNumber frame.now.datum result.r }
    ensures below { result.a < order frame.now.field.given }
    ensures image { root_of frame.now.datum result.r ≡ reflected frame.now.datum.base i (root_of frame.now.datum x.r) }
    ensures joined { JoinedInGroup frame.now (X x.r x.a ∷ N i ∷ []) (N i ∷ X result.r result.a ∷ []) }
{
    frame.lawful();
    let r = frame.datum.reflect(i, x.r);
    RootLetter {
        r,
        a: signed(frame, i, r, x.a),
    }
}

/// The root letter that stands in front of the `n_i` along a word where x stood behind them.
pub(crate) fn past_word(frame: &Frame, word: &[u8], x: RootLetter) -> RootLetter
    requires letters { AreLetters frame.now.datum.base word.now }
    requires root { IsNumber frame.now.datum x.r }
    requires below { x.a < order frame.now.field.given }
    ensures root { IsNumber frame.now.datum result.r }
    ensures below { result.a < order frame.now.field.given }
    ensures image { root_of frame.now.datum result.r ≡ moved frame.now.datum.base word.now (root_of frame.now.datum x.r) }
    ensures joined { JoinedInGroup frame.now (map N word.now ++ X x.r x.a ∷ []) (X result.r result.a ∷ map N word.now) }
{
    frame.lawful();
    let mut moved = x;
    for k in 0..word.len() {
        let i = word[word.len() - 1 - k];
        moved = past_simple(frame, i as usize, moved);
    }
    moved
}

/// The root letter that stands in front of a torus letter where x stood behind it.
pub(crate) fn past_torus(frame: &Frame, t: &Torus, x: RootLetter) -> RootLetter
    requires units { AreUnits frame.now.field t.now }
    requires long { dim (unsigned frame.now) ≡ length t.now }
    requires root { IsNumber frame.now.datum x.r }
    requires below { x.a < order frame.now.field.given }
    ensures root { result.r ≡ x.r }
    ensures below { result.a < order frame.now.field.given }
    ensures zero { x.a ≡ 0 → result.a ≡ 0 }
    ensures joined { JoinedInGroup frame.now (H t.now ∷ X x.r x.a ∷ []) (X result.r result.a ∷ H t.now ∷ []) }
{
    frame.lawful();
    let field = &frame.field;
    let factor = t.char_of(field, frame.datum.root(x.r));
    RootLetter {
        r: x.r,
        a: field.mul(factor, x.a),
    }
}

/// The torus vector that stands in front of the `n_i` along a word where t stood behind them.
pub(crate) fn torus_past_word(frame: &Frame, word: &[u8], t: &Torus) -> Torus
    requires letters { AreLetters frame.now.datum.base word.now }
    requires units { AreUnits frame.now.field t.now }
    requires long { dim (unsigned frame.now) ≡ length t.now }
    ensures units { AreUnits frame.now.field result }
    ensures long { dim (unsigned frame.now) ≡ length result }
    ensures joined { JoinedInGroup frame.now (map N word.now ++ H t.now ∷ []) (H result ∷ map N word.now) }
{
    frame.lawful();
    let mut moved = t.copied();
    for k in 0..word.len() {
        let i = word[word.len() - 1 - k];
        moved = moved.reflect(&frame.field, &frame.datum, i as usize);
    }
    moved
}
