//! The question of a row, by its words.

use crate::matrices::about_matrices;
use crate::spaces::about_spaces;
use crate::words::about_words;
use std::alloc::{AllocError, Global};
use test_rows::{
    Answer, Roots, Stop, field_of_row, load_datum, load_field, read_lists, roots_of_row, row,
};

/// The lines with their answers. Rows are about the last datum, field and list of signs before them, which are
/// read anew for each row.
pub(crate) fn answers(alloc: Global, lines: &[String]) -> Result<Vec<String>, AllocError> {
    let mut answers = Vec::new(alloc);
    let mut datum = "";
    let mut field = "";
    let mut signs = "";
    for line in lines {
        datum = newest(line, "datum", datum);
        field = newest(line, "field", field);
        signs = newest(line, "signs", signs);
        answers.push(with_answer(alloc, datum, field, signs, line)?)?;
    }
    Ok(answers)
}

/// The text of a row, where it is about this, and the text before it otherwise.
fn newest<'a>(line: &'a str, question: &str, before: &'a str) -> &'a str {
    match row(line) {
        Some((word, text)) => { if word == question { text } else { before } }
        None => before,
    }
}

/// A line with its answer, or with why it has none.
fn with_answer(
    alloc: Global,
    datum: &str,
    field: &str,
    signs: &str,
    line: &str,
) -> Result<String, AllocError> {
    match answered(alloc, datum, field, signs, line) {
        Ok(answer) => format!(in alloc; "{line}{answer}"),
        Err(stop) => format!(in alloc; "{line} = {stop}"),
    }
}

/// What stands behind a row: its answer, and nothing where the line is a heading.
fn answered(
    alloc: Global,
    datum: &str,
    field: &str,
    signs: &str,
    line: &str,
) -> Result<String, Stop> {
    let Some((question, text)) = row(line) else {
        return Ok(String::new(alloc));
    };
    let mut answer = Answer::new(alloc)?;
    match question {
        "datum" => write_datum(alloc, text, &mut answer)?,
        "field" => write_field(alloc, text, &mut answer)?,
        "signs" => write_signs(alloc, text, &mut answer)?,
        _ => about_row(alloc, datum, field, signs, question, text, &mut answer)?,
    }
    Ok(answer.text())
}

/// Writes what a row `datum` loads.
fn write_datum(alloc: Global, text: &str, answer: &mut Answer) -> Result<(), Stop> {
    load_datum(alloc, text, answer)?;
    Ok(())
}

/// Writes what a row `field` loads.
fn write_field(alloc: Global, text: &str, answer: &mut Answer) -> Result<(), Stop> {
    let lists = read_lists(alloc, text, "|")?;
    load_field(alloc, &lists, answer)?;
    Ok(())
}

/// Writes how many signs a row `signs` has.
fn write_signs(alloc: Global, text: &str, answer: &mut Answer) -> Result<(), Stop> {
    let signs = signs_of(alloc, text)?;
    answer.number(signs.len() as i128)?;
    Ok(())
}

/// Answers a question about the lists of a text.
fn about_row(
    alloc: Global,
    datum: &str,
    field: &str,
    signs: &str,
    question: &str,
    text: &str,
    answer: &mut Answer,
) -> Result<(), Stop> {
    let lists = read_lists(alloc, text, "|")?;
    about_lists(alloc, datum, field, signs, question, &lists, answer)
}

/// Answers a question about matrices, or about what the rows before have loaded.
fn about_lists(
    alloc: Global,
    datum: &str,
    field: &str,
    signs: &str,
    question: &str,
    lists: &[Vec<i128>],
    answer: &mut Answer,
) -> Result<(), Stop> {
    if about_matrices(alloc, question, lists, answer)? {
        return Ok(());
    }
    let signs = signs_of(alloc, signs)?;
    about_loaded(alloc, datum, field, &signs, question, lists, answer)
}

/// Answers a question about the datum and the signs, or about the datum and the field.
fn about_loaded(
    alloc: Global,
    datum: &str,
    field: &str,
    signs: &[i8],
    question: &str,
    lists: &[Vec<i128>],
    answer: &mut Answer,
) -> Result<(), Stop> {
    let roots = roots_of_row(alloc, datum)?;
    if about_spaces(alloc, &roots, signs, question, lists, answer)? {
        return Ok(());
    }
    about_field(alloc, field, &roots, question, lists, answer)
}

/// Answers a question about the datum and the field.
fn about_field(
    alloc: Global,
    field: &str,
    roots: &Roots,
    question: &str,
    lists: &[Vec<i128>],
    answer: &mut Answer,
) -> Result<(), Stop> {
    let field = field_of_row(alloc, field)?;
    if about_words(alloc, &field, roots, question, lists, answer)? {
        return Ok(());
    }
    Err(Stop::NoQuestion)
}

/// The signs of a row: 1 and -1.
fn signs_of(alloc: Global, text: &str) -> Result<Vec<i8>, Stop> {
    let mut signs = Vec::new(alloc);
    for list in &read_lists(alloc, text, "|")? {
        for n in list {
            signs.push(if *n < 0 { -1 } else { 1 })?;
        }
    }
    Ok(signs)
}
