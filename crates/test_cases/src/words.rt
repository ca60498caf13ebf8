//! A word over the field of three, reversed and joined with another.

ghost use Rattle.std.specs.Prelude.{◌≡◌, ◌<◌, ◌∷◌, ◌++◌, []};
ghost use Rattle.lie_field.specs.Quotient.{order};
ghost use Rattle.lie_letters.specs.Entries.{AreUnits};
ghost use Rattle.lie_letters.specs.Spelled.{IsWordOverField};

use lie_datum::{Datum, RootId};
use lie_field::{Fe, Field};
use lie_letters::{Letter, Torus, Word};
use std::alloc::Global;
use std::process::Abort;
use test_rows::{A_2, NamedDatum};

/// The field of three elements.
fn field(rt: &impl Abort, alloc: Global) -> Field {
    Field::load(alloc, 3, 1, &[0], 2).expect(rt, "a field")
}

/// The root of a number in A_2.
fn root(rt: &impl Abort, alloc: Global, k: i32) -> RootId {
    let named = NamedDatum::of(&A_2);
    let datum = Datum::load(alloc, 2, named.simple_roots(), named.simple_coroots());
    datum.expect(rt, "loads").id(k).expect(rt, "a root")
}

/// The element with a number.
fn element(rt: &impl Abort, field: &Field, n: u32) -> Fe
    ensures { result < order field.now.given }
{
    field.elem(n).expect(rt, "an element")
}

/// h(2, 1) where the field has it.
fn vector(rt: &impl Abort, field: &Field) -> Torus
    ensures { AreUnits field.now result }
{
    let entries = [element(rt, field, 2), element(rt, field, 1)];
    Torus::of(field, &entries).expect(rt, "a vector")
}

/// Writes a letter behind a word.
fn add(rt: &impl Abort, word: &mut Word, letter: Letter)
    ensures { word.new ≡ word.old ++ letter ∷ [] }
{
    word.push(letter).expect(rt, "memory");
}

/// x_1(1) h(2, 1) n_1.
fn three_letters(rt: &impl Abort, alloc: Global, field: &Field) -> Word
    ensures { IsWordOverField field.now result }
{
    let mut word = Word::new(alloc);
    add(
        rt,
        &mut word,
        Letter::X(root(rt, alloc, 1), element(rt, field, 1)),
    );
    add(rt, &mut word, Letter::H(vector(rt, field)));
    add(rt, &mut word, Letter::N(1));
    word
}

/// The reversed word, with no clause.
fn reversed(rt: &impl Abort, alloc: Global, field: &Field, word: &Word) -> Word
    requires { IsWordOverField field.now word.now }
{
    word.reversed(alloc, field).expect(rt, "memory")
}

/// The number of letters of the word and one more, x_2(1), joined.
fn joined_length(rt: &impl Abort, alloc: Global, field: &Field, word: &Word) -> usize {
    let mut last = Word::new(alloc);
    add(
        rt,
        &mut last,
        Letter::X(root(rt, alloc, 2), element(rt, field, 1)),
    );
    word.joined(alloc, &last)
        .expect(rt, "memory")
        .letters()
        .len()
}

/// n_1' h(2, 1) x_1(2).
fn is_reversed_word(letters: &[Letter]) -> bool {
    match letters {
        [Letter::Ninv(1), Letter::H(t), Letter::X(r, a)] => {
            is(t, 2, 1) && r.number() == 1 && a.number() == 2
        }
        _ => false,
    }
}

/// Whether a torus vector has these two entries.
fn is(vector: &Torus, a: u32, b: u32) -> bool {
    match vector.entries() {
        [x, y] => x.number() == a && y.number() == b,
        _ => false,
    }
}

#[test]
fn words_over_three(rt: HostRuntime) {
    let alloc = rt.alloc();
    let field = field(&rt, alloc);
    let word = three_letters(&rt, alloc, &field);
    let reversed = reversed(&rt, alloc, &field, &word);
    assert!(rt; is_reversed_word(reversed.letters()));
    assert!(rt; joined_length(&rt, alloc, &field, &word) == 4);
}
