//! Rows on the matrices of words on the adjoint module over the field.

ghost use Rattle.std.specs.Prelude.{◌≡◌, ◌∷◌, ◌++◌, [], IfOk, OnOk};
ghost use Rattle.lie_const.specs.Modules.{IsModule};
ghost use Rattle.lie_audit.specs.WordMatrix.{IsWordFor};

use crate::spaces::adjoint;
use lie_audit::word_matrix;
use lie_dense::Dense;
use lie_field::Field;
use lie_letters::{Letter, Torus, Word};
use lie_weight::Module;
use std::alloc::{AllocError, Global};
use test_rows::{Answer, Roots, Stop, elements, entry, numbered, pair, simple_index, single};

/// Answers a question about matrices of words; false where it is about something else.
pub(crate) fn about_words(
    alloc: Global,
    field: &Field,
    roots: &Roots,
    question: &str,
    lists: &[Vec<i128>],
    answer: &mut Answer,
) -> Result<bool, Stop> {
    match (question, lists) {
        ("matrix of x", [letter]) => {
            let word = root_word(alloc, field, roots, pair(letter)?)?;
            shown(alloc, field, roots, &word, answer)?;
        }
        ("matrix of n and its inverse", [i]) => {
            let word = weyl_word(alloc, field, roots, single(i)?)?;
            shown(alloc, field, roots, &word, answer)?;
        }
        ("matrix of h", [t]) => {
            let word = torus_word(alloc, field, roots, t)?;
            shown(alloc, field, roots, &word, answer)?;
        }
        _ => return Ok(false),
    }
    Ok(true)
}

/// Writes the matrix of a word on the adjoint module.
fn shown(
    alloc: Global,
    field: &Field,
    roots: &Roots,
    word: &Word,
    answer: &mut Answer,
) -> Result<(), Stop>
    requires { IsWordFor field.now roots.now.datum word.now }
{
    let space = adjoint(alloc, &roots.datum)?;
    rows(&matrix(alloc, field, roots, &space, word)?, answer)
}

/// Writes a letter behind a word.
fn add(word: &mut Word, letter: Letter) -> Result<(), Stop>
    ensures { OnOk result (word.new ≡ word.old ++ letter ∷ []) }
{
    Ok(word.push(letter)?)
}

/// x_r(a).
fn root_word(
    alloc: Global,
    field: &Field,
    roots: &Roots,
    letter: (i128, i128),
) -> Result<Word, Stop>
    ensures { IfOk result (IsWordFor field.now roots.now.datum) }
{
    let r = numbered(&roots.datum, letter.0)?;
    let mut word = Word::new(alloc);
    add(&mut word, Letter::X(r, entry(field, letter.1)?))?;
    Ok(word)
}

/// n_i n_i'.
fn weyl_word(alloc: Global, field: &Field, roots: &Roots, i: i128) -> Result<Word, Stop>
    ensures { IfOk result (IsWordFor field.now roots.now.datum) }
{
    let _ = field.q();
    roots.datum.loaded();
    let i = simple_index(&roots.datum, i)?;
    let word = two_letters(alloc, i as u8)?;
    Ok(word)
}

/// The two letters n_i and n_i'.
fn two_letters(alloc: Global, i: u8) -> Result<Word, Stop>
    ensures { IfOk result (λ w. w ≡ Letter.N i ∷ Letter.Ninv i ∷ []) }
{
    let mut word = Word::new(alloc);
    add(&mut word, Letter::N(i))?;
    add(&mut word, Letter::Ninv(i))?;
    Ok(word)
}

/// h(t).
fn torus_word(alloc: Global, field: &Field, roots: &Roots, t: &[i128]) -> Result<Word, Stop>
    ensures { IfOk result (IsWordFor field.now roots.now.datum) }
{
    let Some(t) = Torus::of(field, &elements(alloc, field, t)?) else {
        return Err(Stop::NoQuestion);
    };
    if t.entries().len() != roots.datum.d() {
        return Err(Stop::NoQuestion);
    }
    let mut word = Word::new(alloc);
    add(&mut word, Letter::H(t))?;
    Ok(word)
}

/// The matrix of a word, with no clause.
fn matrix(
    alloc: Global,
    field: &Field,
    roots: &Roots,
    space: &Module,
    word: &Word,
) -> Result<Dense, AllocError>
    requires space { IsModule roots.now.datum space.now }
    requires word { IsWordFor field.now roots.now.datum word.now }
{
    word_matrix(alloc, field, &roots.datum, space, word)
}

/// Writes the rows of a matrix.
fn rows(matrix: &Dense, answer: &mut Answer) -> Result<(), Stop> {
    for row in 0..matrix.dim() {
        if row > 0 {
            answer.word("|")?;
        }
        for col in 0..matrix.dim() {
            answer.number(i128::from(matrix.get(row, col).number()))?;
        }
    }
    Ok(())
}
