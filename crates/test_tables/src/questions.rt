//! The question of a row, by its words.

use crate::constants::about_constants;
use crate::elements::about_elements;
use crate::products::about_products;
use crate::roots::about_roots;
use crate::vectors::about_vectors;
use lie_field::Field;
use std::alloc::{AllocError, Global};
use test_rows::{
    Answer, Roots, Stop, field_of_row, load_datum, load_field, read_lists, roots_of_row, row,
};

/// The lines with their answers. Rows are about the last datum and the last field before them, which are
/// loaded anew for each row.
pub(crate) fn answers(alloc: Global, lines: &[String]) -> Result<Vec<String>, AllocError> {
    let mut answers = Vec::new(alloc);
    let mut datum = "";
    let mut field = "";
    for line in lines {
        match row(line) {
            Some(("datum", text)) => datum = text,
            Some(("field", text)) => field = text,
            _ => {}
        }
        answers.push(with_answer(alloc, datum, field, line)?)?;
    }
    Ok(answers)
}

/// A line with its answer, or with why it has none.
fn with_answer(alloc: Global, datum: &str, field: &str, line: &str) -> Result<String, AllocError> {
    match answered(alloc, datum, field, line) {
        Ok(answer) => format!(in alloc; "{line}{answer}"),
        Err(stop) => format!(in alloc; "{line} = {stop}"),
    }
}

/// What stands behind a row: its answer, and nothing where the line is a heading.
fn answered(alloc: Global, datum: &str, field: &str, line: &str) -> Result<String, Stop> {
    let Some((question, text)) = row(line) else {
        return Ok(String::new(alloc));
    };
    let mut answer = Answer::new(alloc)?;
    match question {
        "datum" => write_datum(alloc, text, &mut answer)?,
        "field" => write_field(alloc, text, &mut answer)?,
        _ => about_row(alloc, datum, field, question, text, &mut answer)?,
    }
    Ok(answer.text())
}

/// Writes what a row `datum` loads.
fn write_datum(alloc: Global, text: &str, answer: &mut Answer) -> Result<(), Stop> {
    load_datum(alloc, text, answer)?;
    Ok(())
}

/// Writes what a row `field` loads.
fn write_field(alloc: Global, text: &str, answer: &mut Answer) -> Result<(), Stop> {
    let lists = read_lists(alloc, text, "|")?;
    load_field(alloc, &lists, answer)?;
    Ok(())
}

/// Answers a question about the lists of a text.
fn about_row(
    alloc: Global,
    datum: &str,
    field: &str,
    question: &str,
    text: &str,
    answer: &mut Answer,
) -> Result<(), Stop> {
    let lists = read_lists(alloc, text, "|")?;
    about_loaded(alloc, datum, field, question, &lists, answer)
}

/// Answers a question about the datum, or about the datum and the field.
fn about_loaded(
    alloc: Global,
    datum: &str,
    field: &str,
    question: &str,
    lists: &[Vec<i128>],
    answer: &mut Answer,
) -> Result<(), Stop> {
    let roots = roots_of_row(alloc, datum)?;
    if about_datum(alloc, &roots, question, lists, answer)? {
        return Ok(());
    }
    about_field(alloc, field, &roots, question, lists, answer)
}

/// Answers a question about the datum, and says whether it was one.
fn about_datum(
    alloc: Global,
    roots: &Roots,
    question: &str,
    lists: &[Vec<i128>],
    answer: &mut Answer,
) -> Result<bool, Stop> {
    if about_roots(&roots.datum, question, lists, answer)? {
        return Ok(true);
    }
    if about_constants(alloc, roots, question, lists, answer)? {
        return Ok(true);
    }
    about_elements(alloc, &roots.datum, question, lists, answer)
}

/// Answers a question about the datum and the field.
fn about_field(
    alloc: Global,
    field: &str,
    roots: &Roots,
    question: &str,
    lists: &[Vec<i128>],
    answer: &mut Answer,
) -> Result<(), Stop> {
    let field = field_of_row(alloc, field)?;
    if about_both(alloc, &field, roots, question, lists, answer)? {
        return Ok(());
    }
    Err(Stop::NoQuestion)
}

/// Answers a question about products or vectors, and says whether it was one.
fn about_both(
    alloc: Global,
    field: &Field,
    roots: &Roots,
    question: &str,
    lists: &[Vec<i128>],
    answer: &mut Answer,
) -> Result<bool, Stop> {
    if about_products(alloc, field, roots, question, lists, answer)? {
        return Ok(true);
    }
    about_vectors(alloc, field, &roots.datum, question, lists, answer)
}
