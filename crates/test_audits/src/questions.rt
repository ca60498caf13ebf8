//! The question of a row, by its words.

use crate::audits::{audited_adjoint, audited_orbit};
use crate::tables::audited_table;
use crate::texts::{write, write_no_module};
use lie_datum::Datum;
use std::alloc::{AllocError, Global};
use test_rows::{Answer, Stop, index, read_lists, roots_of_row, row};

/// What the rows before have said.
#[derive(Clone, Copy, Drop)]
pub(crate) struct Said<'a> {
    made_for: &'a str,
    made_with: &'a str,
    datum: &'a str,
    signs: &'a str,
    weights: &'a str,
    field: &'a str,
}

/// The lines with their answers.
pub(crate) fn answers(alloc: Global, lines: &[String]) -> Result<Vec<String>, AllocError> {
    let mut answers = Vec::new(alloc);
    let mut said = Said {
        made_for: "",
        made_with: "",
        datum: "",
        signs: "",
        weights: "",
        field: "",
    };
    for line in lines {
        said = Said {
            made_for: newest(line, "made for", said.made_for),
            made_with: newest(line, "made with", said.made_with),
            datum: newest(line, "datum", said.datum),
            signs: newest(line, "signs", said.signs),
            weights: newest(line, "weights", said.weights),
            field: newest(line, "field", said.field),
        };
        answers.push(with_answer(alloc, said, line)?)?;
    }
    Ok(answers)
}

/// The text of a row, where it is about this, and the text before it otherwise.
fn newest<'a>(line: &'a str, question: &str, before: &'a str) -> &'a str {
    match row(line) {
        Some((word, text)) => { if word == question { text } else { before } }
        None => before,
    }
}

/// A line with its answer, or with why it has none.
fn with_answer(alloc: Global, said: Said, line: &str) -> Result<String, AllocError> {
    match answered(alloc, said, line) {
        Ok(answer) => format!(in alloc; "{line}{answer}"),
        Err(stop) => format!(in alloc; "{line} = {stop}"),
    }
}

/// What stands behind a row: its answer, and nothing where it asks nothing.
fn answered(alloc: Global, said: Said, line: &str) -> Result<String, Stop> {
    let Some((question, text)) = row(line) else {
        return Ok(String::new(alloc));
    };
    let mut answer = Answer::new(alloc)?;
    match question {
        "adjoint" => about_adjoint(
            alloc,
            &roots_of_row(alloc, text)?.datum,
            said.field,
            &mut answer,
        )?,
        "orbit" => about_orbit(alloc, said, text, &mut answer)?,
        "table" => about_table(alloc, said, text, 1, &mut answer)?,
        "power" => about_power(alloc, said, text, &mut answer)?,
        _ => return Ok(String::new(alloc)),
    }
    Ok(answer.text())
}

/// Audits the adjoint module of a datum.
fn about_adjoint(
    alloc: Global,
    datum: &Datum,
    field: &str,
    answer: &mut Answer,
) -> Result<(), Stop> {
    let found = audited_adjoint(alloc, datum)?;
    write(alloc, &found, datum, field, answer)
}

/// Audits the module of an orbit.
fn about_orbit(alloc: Global, said: Said, text: &str, answer: &mut Answer) -> Result<(), Stop> {
    let source = roots_of_row(alloc, said.made_for)?;
    made_for(alloc, &source.datum, said, text, answer)
}

/// Audits the module of an orbit of this datum.
fn made_for(
    alloc: Global,
    source: &Datum,
    said: Said,
    text: &str,
    answer: &mut Answer,
) -> Result<(), Stop> {
    let made_with = signs_of(alloc, said.made_with)?;
    made_with_signs(alloc, source, &made_with, said, text, answer)
}

/// Audits the module of an orbit of this datum with these signs.
fn made_with_signs(
    alloc: Global,
    source: &Datum,
    made_with: &[i8],
    said: Said,
    text: &str,
    answer: &mut Answer,
) -> Result<(), Stop> {
    let lists = read_lists(alloc, text, "|")?;
    match lists.as_slice() {
        [v] => audited_for(alloc, source, made_with, v, said, answer),
        _ => Err(Stop::NoQuestion),
    }
}

/// Audits the module of the orbit of v for the datum of the last row `datum`.
fn audited_for(
    alloc: Global,
    source: &Datum,
    made_with: &[i8],
    v: &[i128],
    said: Said,
    answer: &mut Answer,
) -> Result<(), Stop> {
    let target = roots_of_row(alloc, said.datum)?;
    audited_with(alloc, source, made_with, v, &target.datum, said, answer)
}

/// Audits the module of the orbit of v for this datum with the signs of a row.
fn audited_with(
    alloc: Global,
    source: &Datum,
    made_with: &[i8],
    v: &[i128],
    target: &Datum,
    said: Said,
    answer: &mut Answer,
) -> Result<(), Stop> {
    let signs = signs_of(alloc, said.signs)?;
    let found = audited_orbit(alloc, source, made_with, target, &signs, v)?;
    write(alloc, &found, target, said.field, answer)
}

/// Audits a power of the module of a table: before the entries stands the number of factors.
fn about_power(alloc: Global, said: Said, text: &str, answer: &mut Answer) -> Result<(), Stop> {
    let Some((count, entries)) = text.split_once('|') else {
        return Err(Stop::NoQuestion);
    };
    let count = index(count.trim().parse::<i128>()?)?;
    about_table(alloc, said, entries, count, answer)
}

/// Audits so many factors of the module of a table for the datum of the last row `datum`.
fn about_table(
    alloc: Global,
    said: Said,
    text: &str,
    count: usize,
    answer: &mut Answer,
) -> Result<(), Stop> {
    let target = roots_of_row(alloc, said.datum)?;
    table_for(alloc, &target.datum, said, text, count, answer)
}

/// Audits so many factors of the module of a table for this datum, with the weights and the signs of the last rows.
fn table_for(
    alloc: Global,
    target: &Datum,
    said: Said,
    text: &str,
    count: usize,
    answer: &mut Answer,
) -> Result<(), Stop> {
    let signs = signs_of(alloc, said.signs)?;
    let weights = read_lists(alloc, said.weights, "|")?;
    let entries = read_lists(alloc, text, "|")?;
    match audited_table(alloc, target, &signs, &weights, &entries, count)? {
        Ok(found) => write(alloc, &found, target, said.field, answer),
        Err(fault) => write_no_module(&fault, answer),
    }
}

/// The signs of a row: 1 and -1.
fn signs_of(alloc: Global, text: &str) -> Result<Vec<i8>, Stop> {
    let lists = read_lists(alloc, text, "|")?;
    let mut signs = Vec::new(alloc);
    for list in &lists {
        add_signs(&mut signs, list)?;
    }
    Ok(signs)
}

/// Adds the signs of a list: -1 for a negative number, and 1 for another.
fn add_signs(signs: &mut Vec<i8>, list: &[i128]) -> Result<(), Stop> {
    for n in list {
        signs.push(if *n < 0 { -1 } else { 1 })?;
    }
    Ok(())
}
