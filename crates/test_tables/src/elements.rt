//! Rows on the Weyl group: least words, lengths and images.

ghost use Rattle.std.specs.Prelude.{◌↔◌, IsTrue, IfOk};
ghost use Rattle.std.specs.List.{All};
ghost use Rattle.lie_datum.specs.RootList.{IsNumber};
ghost use Rattle.lie_weyl.specs.WeylElement.{AreLetters, IsElement};

use lie_datum::{Datum, RootId};
use lie_weyl::Weyl;
use std::alloc::Global;
use test_rows::{Answer, Stop, numbered, simple_index, single};

/// Answers a question about elements of the Weyl group; false where it is about something else.
pub(crate) fn about_elements(
    alloc: Global,
    datum: &Datum,
    question: &str,
    lists: &[Vec<i128>],
    answer: &mut Answer,
) -> Result<bool, Stop> {
    match lists {
        [list] => about_one_list(alloc, datum, question, list, answer),
        [first, second] => about_two_lists(alloc, datum, question, first, second, answer),
        _ => Ok(false),
    }
}

/// Answers a question about one list.
fn about_one_list(
    alloc: Global,
    datum: &Datum,
    question: &str,
    list: &[i128],
    answer: &mut Answer,
) -> Result<bool, Stop> {
    match question {
        "element" => shown(alloc, datum, &element(alloc, datum, list)?, answer)?,
        "inverse element" => shown_inverse(alloc, datum, &element(alloc, datum, list)?, answer)?,
        "element of images" => from_images(alloc, datum, list, answer)?,
        _ => return Ok(false),
    }
    Ok(true)
}

/// Answers a question about two lists.
fn about_two_lists(
    alloc: Global,
    datum: &Datum,
    question: &str,
    word: &[i128],
    list: &[i128],
    answer: &mut Answer,
) -> Result<bool, Stop> {
    match question {
        "product of elements" | "equal elements" => {
            about_two_words(alloc, datum, question, word, list, answer)
        }
        "simple factor behind" | "simple factor before" => {
            about_word_and_index(alloc, datum, question, word, single(list)?, answer)
        }
        _ => Ok(false),
    }
}

/// Answers a question about the elements of two words.
fn about_two_words(
    alloc: Global,
    datum: &Datum,
    question: &str,
    first: &[i128],
    second: &[i128],
    answer: &mut Answer,
) -> Result<bool, Stop> {
    let w = element(alloc, datum, first)?;
    about_second(alloc, datum, question, &w, second, answer)
}

/// Answers a question about w and the element of a word.
fn about_second(
    alloc: Global,
    datum: &Datum,
    question: &str,
    w: &Weyl,
    word: &[i128],
    answer: &mut Answer,
) -> Result<bool, Stop>
    requires { IsElement datum.now w.now }
{
    let v = element(alloc, datum, word)?;
    about_both(alloc, datum, question, w, &v, answer)
}

/// Answers a question about w and v.
fn about_both(
    alloc: Global,
    datum: &Datum,
    question: &str,
    w: &Weyl,
    v: &Weyl,
    answer: &mut Answer,
) -> Result<bool, Stop>
    requires w { IsElement datum.now w.now }
    requires v { IsElement datum.now v.now }
{
    match question {
        "product of elements" => shown_product(alloc, datum, w, v, answer)?,
        "equal elements" => answer.word(if w.same(v) { "yes" } else { "no" })?,
        _ => return Ok(false),
    }
    Ok(true)
}

/// Answers a question about the element of a word and a simple reflection.
fn about_word_and_index(
    alloc: Global,
    datum: &Datum,
    question: &str,
    word: &[i128],
    i: i128,
    answer: &mut Answer,
) -> Result<bool, Stop> {
    let w = element(alloc, datum, word)?;
    match question {
        "simple factor behind" => shown_times_simple(alloc, datum, &w, i, answer)?,
        "simple factor before" => shown_simple_times(alloc, datum, &w, i, answer)?,
        _ => return Ok(false),
    }
    Ok(true)
}

/// Writes the inverse.
fn shown_inverse(alloc: Global, datum: &Datum, w: &Weyl, answer: &mut Answer) -> Result<(), Stop>
    requires { IsElement datum.now w.now }
{
    shown(alloc, datum, &inverse(datum, w), answer)
}

/// Writes w v.
fn shown_product(
    alloc: Global,
    datum: &Datum,
    w: &Weyl,
    v: &Weyl,
    answer: &mut Answer,
) -> Result<(), Stop>
    requires w { IsElement datum.now w.now }
    requires v { IsElement datum.now v.now }
{
    shown(alloc, datum, &w.mul(datum, v), answer)
}

/// Writes w s_i.
fn shown_times_simple(
    alloc: Global,
    datum: &Datum,
    w: &Weyl,
    i: i128,
    answer: &mut Answer,
) -> Result<(), Stop>
    requires { IsElement datum.now w.now }
{
    let i = simple_index(datum, i)?;
    shown(alloc, datum, &w.times_simple(datum, i), answer)
}

/// Writes s_i w.
fn shown_simple_times(
    alloc: Global,
    datum: &Datum,
    w: &Weyl,
    i: i128,
    answer: &mut Answer,
) -> Result<(), Stop>
    requires { IsElement datum.now w.now }
{
    let i = simple_index(datum, i)?;
    shown(alloc, datum, &w.simple_times(datum, i), answer)
}

/// The product of the simple reflections of a word.
pub(crate) fn element(alloc: Global, datum: &Datum, word: &[i128]) -> Result<Weyl, Stop>
    ensures { IfOk result (IsElement datum.now) }
{
    let mut letters = Vec::new(alloc);
    for i in word {
        letters.push(u8::try_from(*i).map_err(|_| Stop::NoQuestion)?)?;
    }
    if !is_word(datum, &letters) {
        return Err(Stop::NoQuestion);
    }
    if letters.is_empty() {
        return Ok(Weyl::identity(datum));
    }
    Ok(Weyl::from_word(datum, &letters))
}

/// Whether each letter is the number of a simple root.
fn is_word(datum: &Datum, word: &[u8]) -> bool
    ensures { IsTrue result ↔ AreLetters datum.now.base word.now }
{
    let l = datum.l();
    word.iter().all(|i| *i >= 1 && *i as usize <= l)
}

/// The inverse, with one clause.
fn inverse(datum: &Datum, w: &Weyl) -> Weyl
    requires { IsElement datum.now w.now }
    ensures { IsElement datum.now result }
{
    w.inverse(datum)
}

/// The least word, the length, and the images of the simple roots.
fn shown(alloc: Global, datum: &Datum, w: &Weyl, answer: &mut Answer) -> Result<(), Stop>
    requires { IsElement datum.now w.now }
{
    least_word(alloc, datum, w, answer)?;
    answer.next(&[w.length(datum) as i128])?;
    answer.word("|")?;
    images(datum, w, answer)
}

/// Writes the least word.
fn least_word(alloc: Global, datum: &Datum, w: &Weyl, answer: &mut Answer) -> Result<(), Stop>
    requires { IsElement datum.now w.now }
{
    let letters = w.least_word(alloc, datum)?;
    if letters.is_empty() {
        answer.word("-")?;
    }
    for i in &letters {
        answer.number(i128::from(*i))?;
    }
    Ok(())
}

/// Writes the images of the simple roots, which each root has in the same way.
fn images(datum: &Datum, w: &Weyl, answer: &mut Answer) -> Result<(), Stop>
    requires { IsElement datum.now w.now }
{
    for i in 0..datum.l() {
        let r = numbered(datum, i as i128 + 1)?;
        answer.number(i128::from(image(datum, w, r)))?;
    }
    Ok(())
}

/// The number of the image of a root.
fn image(datum: &Datum, w: &Weyl, r: RootId) -> i32
    requires w { IsElement datum.now w.now }
    requires r { IsNumber datum.now r }
{
    w.image(datum, r).number()
}

/// The roots with these numbers.
fn all_numbered(alloc: Global, datum: &Datum, numbers: &[i128]) -> Result<Vec<RootId>, Stop>
    ensures { IfOk result (λ roots. All (IsNumber datum.now) roots.items) }
{
    let mut roots = Vec::new(alloc);
    for k in numbers {
        roots.push(numbered(datum, *k)?)?;
    }
    Ok(roots)
}

/// Writes the element with these images of the simple roots, if there is one.
fn from_images(
    alloc: Global,
    datum: &Datum,
    numbers: &[i128],
    answer: &mut Answer,
) -> Result<(), Stop> {
    let images = all_numbered(alloc, datum, numbers)?;
    if images.len() != datum.l() {
        return Err(Stop::NoQuestion);
    }
    match Weyl::from_images(datum, &images) {
        Some(w) => shown(alloc, datum, &w, answer),
        None => Ok(answer.word("none")?),
    }
}
