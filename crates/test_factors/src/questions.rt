//! The question of a row, by its words.

use crate::factors::about_factors;
use std::alloc::{AllocError, Global};
use test_rows::{Answer, Stop, field_of_row, load_field, read_lists, row};

/// The lines with their answers. Rows are about the last field before them, which is loaded anew for each row.
pub(crate) fn answers(alloc: Global, lines: &[String]) -> Result<Vec<String>, AllocError> {
    let mut answers = Vec::new(alloc);
    let mut field = "";
    for line in lines {
        field = newest(line, "field", field);
        answers.push(with_answer(alloc, field, line)?)?;
    }
    Ok(answers)
}

/// The text of a row, where it is about this, and the text before it otherwise.
fn newest<'a>(line: &'a str, question: &str, before: &'a str) -> &'a str {
    match row(line) {
        Some((word, text)) => { if word == question { text } else { before } }
        None => before,
    }
}

/// A line with its answer, or with why it has none.
fn with_answer(alloc: Global, field: &str, line: &str) -> Result<String, AllocError> {
    match answered(alloc, field, line) {
        Ok(answer) => format!(in alloc; "{line}{answer}"),
        Err(stop) => format!(in alloc; "{line} = {stop}"),
    }
}

/// What stands behind a row: its answer, and nothing where the line is a heading.
fn answered(alloc: Global, field: &str, line: &str) -> Result<String, Stop> {
    let Some((question, text)) = row(line) else {
        return Ok(String::new(alloc));
    };
    let mut answer = Answer::new(alloc)?;
    match question {
        "field" => write_field(alloc, text, &mut answer)?,
        "factors" => write_factors(alloc, field, text, &mut answer)?,
        _ => return Err(Stop::NoQuestion),
    }
    Ok(answer.text())
}

/// Writes what a row `field` loads.
fn write_field(alloc: Global, text: &str, answer: &mut Answer) -> Result<(), Stop> {
    let lists = read_lists(alloc, text, "|")?;
    load_field(alloc, &lists, answer)?;
    Ok(())
}

/// Writes the factors of the matrix of a row.
fn write_factors(alloc: Global, field: &str, text: &str, answer: &mut Answer) -> Result<(), Stop> {
    let field = field_of_row(alloc, field)?;
    about_factors(alloc, &field, &read_lists(alloc, text, "/")?, answer)
}
