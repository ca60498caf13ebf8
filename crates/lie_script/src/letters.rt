//! Letters and words.
ghost use Rattle.std.specs.Prelude.{◌≡◌, ◌<◌, ◌≤◌, ◌∷◌, [], if◌then◌else◌, nat_lt, length, Some, None, IfOk, IfSome, filter, Ok};
ghost use Rattle.std.specs.List.{slice_split, position_or_len};
ghost use Rattle.lie_field.specs.Quotient.{order};
ghost use Rattle.lie_letters.specs.Entries.{AreUnits};
ghost use Rattle.lie_script.specs.Checks.{Gives};
ghost use Rattle.lie_script.specs.Letters.{is_comma, spelled as spelled_read, element as element_read, unit as unit_read, root as root_read, root_element as root_element_read, root_letter as root_letter_read, simple as simple_read, weyl_letter as weyl_letter_read, spelled_list as spelled_list_read, units as units_read, torus_letter as torus_letter_read, letter as letter_read, is_letter as letter_field, few_letters as few_letters_read, letters as letters_read, word as word_read, is_semicolon as semicolon, two_sides as both_sides, two_words as two_words_read};
ghost use Rattle.lie_script.specs.LineFields.{span, spans, bytes_of, pieces_of, sides_of};
ghost use Rattle.lie_script.specs.Setting.{HasField, HasDatum};

use crate::faults::{Fault, FaultName, Stop};
use crate::fields::{LineField, before_last, behind_first, place_of};
use crate::numbers::{number_of, unsigned};
use crate::sizes::Sizes;
use lie_datum::{Datum, RootId};
use lie_field::{Fe, Field};
use lie_letters::{Letter, Torus, Word};
use std::alloc::Global;

/// The most letters of a word.
const MOST: usize = 4096;

fn misspelled(column: usize) -> Fault
    ensures { result ≡ Fault.At FaultName.Letter column }
{
    Fault::At(FaultName::Letter, column)
}

/// A number inside a letter.
#[tactic(auto, unfolding(crate::specs::Letters::spelled))]
fn spelled(column: usize, bytes: &[u8]) -> Result<u64, Fault>
    ensures { result ≡ spelled_read column bytes.now }
{
    number_of(bytes).ok_or(misspelled(column))
}

/// The bytes before the first comma, and those behind it.
fn first_piece(bytes: &[u8]) -> (&[u8], Option<&[u8]>)
    ensures pieces { slice_split is_comma bytes.now ≡ result.0.now ∷ pieces_of (bytes_of result.1) }
    ensures shorter { IfSome result.1 (λ rest. length rest.now < length bytes.now) }
{
    let at = place_of(b',', bytes);
    if at < bytes.len() {
        (&bytes[..at], Some(&bytes[at + 1..]))
    } else {
        (bytes, None)
    }
}

/// Numbers with commas between.
fn spelled_list(alloc: Global, column: usize, bytes: &[u8]) -> Result<Vec<u64>, Stop>
    ensures { Gives (λ v. v.items) result (spelled_list_read column bytes.now) }
{
    let mut list = Vec::new(alloc);
    let mut rest = Some(bytes);
    'pieces: while let Some(left) = rest {
        let (piece, after) = first_piece(left);
        list.push(spelled(column, piece)?)?;
        rest = after;
    }
    Ok(list)
}

/// The element of a number.
fn element_of(field: &Field, a: u64) -> Option<Fe>
    ensures { result ≡ (if nat_lt a (order field.now.given) then Some a else None) }
{
    if a >= field.q() as u64 {
        return None;
    }
    field.elem(a as u32)
}

/// The element of a number.
fn element(field: &Field, column: usize, a: u64) -> Result<Fe, Fault>
    ensures { result ≡ element_read (order field.now.given) column a }
{
    element_of(field, a).ok_or(Fault::At(FaultName::Value, column))
}

/// An element that isn't 0.
#[tactic(auto, unfolding(crate::specs::Letters::unit))]
fn unit(field: &Field, column: usize, a: u64) -> Result<Fe, Fault>
    ensures { result ≡ unit_read (order field.now.given) column a }
{
    let element = element(field, column, a)?;
    if a == 0 {
        return Err(Fault::At(FaultName::Torus, column));
    }
    Ok(element)
}

/// Elements that aren't 0, from left to right.
fn units(alloc: Global, field: &Field, column: usize, numbers: &[u64]) -> Result<Vec<Fe>, Stop>
    ensures read { Gives (λ v. v.items) result (units_read (order field.now.given) column numbers.now) }
    ensures count { IfOk result (λ v. length v.items ≡ length numbers.now) }
    ensures units { IfOk result (λ v. AreUnits field.now v.items) }
{
    let mut list = Vec::new(alloc);
    'units: for a in numbers {
        list.push(unit(field, column, *a)?)?;
    }
    Ok(list)
}

/// The torus vector of one to eight elements that aren't 0.
fn torus_of(field: &Field, entries: &[Fe]) -> Torus
    requires units { AreUnits field.now entries.now }
    requires one_or_more { 1 ≤ length entries.now }
    requires at_most_eight { length entries.now ≤ 8 }
    ensures { result ≡ entries.now }
{
    match Torus::of(field, entries) {
        Some(torus) => torus,
        None => unreachable!(),
    }
}

/// `h` was read: d elements in parentheses.
#[tactic(auto, unfolding(crate::specs::Letters::torus_letter))]
fn torus_letter(
    alloc: Global,
    sizes: &Sizes,
    field: &Field,
    datum: &Datum,
    column: usize,
    bytes: &[u8],
) -> Result<Letter, Stop>
    requires field { HasField sizes.now field.now }
    requires datum { HasDatum sizes.now datum.now }
    ensures { Gives (λ letter. letter) result (torus_letter_read sizes.now column bytes.now) }
{
    datum.loaded();
    let opened = behind_first(b'(', bytes).ok_or(misspelled(column))?;
    let inner = before_last(b')', opened).ok_or(misspelled(column))?;
    let numbers = spelled_list(alloc, column, inner)?;
    if numbers.len() != datum.d() {
        return Err(Stop::Faulty(Fault::At(FaultName::Torus, column)));
    }
    let entries = units(alloc, field, column, &numbers)?;
    Ok(Letter::H(torus_of(field, &entries)))
}

/// The root of the number k with the sign of these bytes.
fn root(sizes: &Sizes, datum: &Datum, column: usize, number: &[u8], k: u64) -> Result<RootId, Fault>
    requires { HasDatum sizes.now datum.now }
    ensures { result ≡ root_read sizes.now.m column number.now k }
{
    let m = datum.m();
    if k < 1 || k > m as u64 {
        return Err(Fault::At(FaultName::Root, column));
    }
    match datum.id(k as i32) {
        Some(root) if number.first() == Some(&b'-') => Ok(root.opposite()),
        Some(root) => Ok(root),
        None => unreachable!(),
    }
}

/// A root element by the bytes of its number and those between the parentheses.
fn root_element(
    sizes: &Sizes,
    field: &Field,
    datum: &Datum,
    column: usize,
    number: &[u8],
    inner: &[u8],
) -> Result<Letter, Fault>
    requires field { HasField sizes.now field.now }
    requires datum { HasDatum sizes.now datum.now }
    ensures { result ≡ root_element_read sizes.now column number.now inner.now }
{
    let k = spelled(column, unsigned(number))?;
    let a = spelled(column, inner)?;
    let root = root(sizes, datum, column, number, k)?;
    Ok(Letter::X(root, element(field, column, a)?))
}

/// `x` was read: a number, and an element in parentheses.
#[tactic(auto, unfolding(crate::specs::Letters::root_letter))]
fn root_letter(
    sizes: &Sizes,
    field: &Field,
    datum: &Datum,
    column: usize,
    bytes: &[u8],
) -> Result<Letter, Fault>
    requires field { HasField sizes.now field.now }
    requires datum { HasDatum sizes.now datum.now }
    ensures { result ≡ root_letter_read sizes.now column bytes.now }
{
    let at = place_of(b'(', bytes);
    if at >= bytes.len() {
        return Err(misspelled(column));
    }
    let inner = before_last(b')', &bytes[at + 1..]).ok_or(misspelled(column))?;
    root_element(sizes, field, datum, column, &bytes[..at], inner)
}

/// The index of a simple root.
fn simple(sizes: &Sizes, column: usize, digits: &[u8]) -> Result<u8, Fault>
    requires { sizes.now.l ≤ 8 }
    ensures { result ≡ simple_read sizes.now.l column digits.now }
{
    let i = spelled(column, digits)?;
    if i < 1 || i > sizes.l as u64 {
        return Err(Fault::At(FaultName::Simple, column));
    }
    Ok(i as u8)
}

/// `n` was read: an index, and `'` for the inverse.
#[tactic(auto, unfolding(crate::specs::Letters::weyl_letter))]
fn weyl_letter(sizes: &Sizes, column: usize, bytes: &[u8]) -> Result<Letter, Fault>
    requires { sizes.now.l ≤ 8 }
    ensures { result ≡ weyl_letter_read sizes.now column bytes.now }
{
    match before_last(b'\'', bytes) {
        Some(digits) => Ok(Letter::Ninv(simple(sizes, column, digits)?)),
        None => Ok(Letter::N(simple(sizes, column, bytes)?)),
    }
}

/// A letter, whose kind is told by its first byte.
#[tactic(auto, unfolding(crate::specs::Letters::letter))]
fn letter(
    alloc: Global,
    sizes: &Sizes,
    field: &Field,
    datum: &Datum,
    spelled: &LineField<'_>,
) -> Result<Letter, Stop>
    requires field { HasField sizes.now field.now }
    requires datum { HasDatum sizes.now datum.now }
    ensures { Gives (λ letter. letter) result (letter_read sizes.now (span spelled.now)) }
{
    datum.loaded();
    let _l = datum.l();
    let column = spelled.column;
    match spelled.bytes {
        [b'h', rest @ ..] => torus_letter(alloc, sizes, field, datum, column, rest),
        [b'x', rest @ ..] => Ok(root_letter(sizes, field, datum, column, rest)?),
        [b'n', rest @ ..] => Ok(weyl_letter(sizes, column, rest)?),
        _ => Err(Stop::Faulty(misspelled(column))),
    }
}

/// Whether a field isn't `1`.
fn is_letter(field: &LineField<'_>) -> bool
    ensures { result ≡ letter_field (span field.now) }
{
    field.bytes != b"1".as_slice()
}

/// How many fields are letters.
fn letter_count(fields: &[LineField<'_>]) -> usize
    ensures { result ≡ length (filter letter_field (spans fields.now)) }
{
    let mut count = 0;
    'count: for field in fields {
        if is_letter(field) {
            count += 1;
        }
    }
    count
}

/// Tests that there are at most 4,096 letters.
#[tactic(auto, unfolding(crate::specs::Letters::few_letters))]
fn few_letters(fields: &[LineField<'_>]) -> Result<(), Fault>
    ensures { result ≡ few_letters_read (spans fields.now) }
{
    let count = letter_count(fields);
    if count > MOST {
        return Err(Fault::At(FaultName::Letters, count));
    }
    Ok(())
}

/// Letters, from left to right.
fn letters(
    alloc: Global,
    sizes: &Sizes,
    field: &Field,
    datum: &Datum,
    fields: &[LineField<'_>],
) -> Result<Word, Stop>
    requires field { HasField sizes.now field.now }
    requires datum { HasDatum sizes.now datum.now }
    ensures { Gives (λ word. word) result (letters_read sizes.now (spans fields.now)) }
{
    let mut word = Word::new(alloc);
    'letters: for spelled in fields {
        if is_letter(spelled) {
            word.push(letter(alloc, sizes, field, datum, spelled)?)?;
        }
    }
    Ok(word)
}

/// A word, whose letters are counted first.
#[tactic(auto, unfolding(crate::specs::Letters::word))]
pub(crate) fn word(
    alloc: Global,
    sizes: &Sizes,
    field: &Field,
    datum: &Datum,
    fields: &[LineField<'_>],
) -> Result<Word, Stop>
    requires field { HasField sizes.now field.now }
    requires datum { HasDatum sizes.now datum.now }
    ensures { Gives (λ word. word) result (word_read sizes.now (spans fields.now)) }
{
    few_letters(fields)?;
    letters(alloc, sizes, field, datum, fields)
}

/// Whether a field is `;`.
fn is_semicolon(field: &LineField<'_>) -> bool
    ensures { result ≡ semicolon (span field.now) }
{
    field.bytes == b";".as_slice()
}

/// The place of the first `;`, or the end.
fn semicolon_at(fields: &[LineField<'_>]) -> usize
    ensures place { result ≡ position_or_len semicolon (spans fields.now) }
    ensures bound { result ≤ length fields.now }
{
    for (i, field) in fields.iter().enumerate() {
        if is_semicolon(field) {
            return i;
        }
    }
    fields.len()
}

/// The fields on both sides of the only `;`.
fn two_sides<'a, 'b>(
    fields: &'b [LineField<'a>],
) -> Option<(&'b [LineField<'a>], &'b [LineField<'a>])>
    ensures { sides_of result ≡ both_sides (slice_split semicolon (spans fields.now)) }
{
    let at = semicolon_at(fields);
    if at == 0 || at + 1 >= fields.len() {
        return None;
    }
    let second = &fields[at + 1..];
    if semicolon_at(second) < second.len() {
        return None;
    }
    Some((&fields[..at], second))
}

/// Two words with a `;` between, whose letters are counted first.
#[tactic(auto, unfolding(crate::specs::Letters::two_words))]
pub(crate) fn two_words(
    alloc: Global,
    sizes: &Sizes,
    field: &Field,
    datum: &Datum,
    fields: &[LineField<'_>],
) -> Result<(Word, Word), Stop>
    requires field { HasField sizes.now field.now }
    requires datum { HasDatum sizes.now datum.now }
    ensures { Gives (λ words. (words.0, words.1)) result (two_words_read sizes.now (spans fields.now)) }
{
    let (first, second) = two_sides(fields).ok_or(Fault::At(FaultName::Fields, fields.len()))?;
    few_letters(first)?;
    few_letters(second)?;
    let w = letters(alloc, sizes, field, datum, first)?;
    let v = letters(alloc, sizes, field, datum, second)?;
    Ok((w, v))
}
