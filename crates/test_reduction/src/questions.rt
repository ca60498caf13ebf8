//! The question of a row, by its words.

ghost use Rattle.lie_reduce.specs.Reduction.{CoversFrame};

use crate::groups::{covering_orbit, frame_of};
use crate::matrices::matrix;
use crate::readings::about_matrix;
use lie_audit::Audited;
use lie_letters::Frame;
use std::alloc::{AllocError, Global};
use test_rows::{Answer, Stop, read_lists, row};

/// What the rows before have said.
#[derive(Clone, Copy, Drop)]
pub(crate) struct Said<'a> {
    field: &'a str,
    datum: &'a str,
    orbit: &'a str,
}

/// The lines with their answers. The group and the module are made anew for each row.
pub(crate) fn answers(alloc: Global, lines: &[String]) -> Result<Vec<String>, AllocError> {
    let mut answers = Vec::new(alloc);
    let mut said = Said {
        field: "",
        datum: "",
        orbit: "",
    };
    for line in lines {
        said = Said {
            field: newest(line, "field", said.field),
            datum: newest(line, "datum", said.datum),
            orbit: newest(line, "orbit", said.orbit),
        };
        answers.push(with_answer(alloc, said, line)?)?;
    }
    Ok(answers)
}

/// The text of a row, where it is about this, and the text before it otherwise.
fn newest<'a>(line: &'a str, question: &str, before: &'a str) -> &'a str {
    match row(line) {
        Some((word, text)) => { if word == question { text } else { before } }
        None => before,
    }
}

/// A line with its answer, or with why it has none.
fn with_answer(alloc: Global, said: Said, line: &str) -> Result<String, AllocError> {
    match answered(alloc, said, line) {
        Ok(answer) => format!(in alloc; "{line}{answer}"),
        Err(stop) => format!(in alloc; "{line} = {stop}"),
    }
}

/// What stands behind a row: its answer, and nothing where it asks nothing.
fn answered(alloc: Global, said: Said, line: &str) -> Result<String, Stop> {
    let Some((question, text)) = row(line) else {
        return Ok(String::new(alloc));
    };
    if question != "pivots" && question != "peel" && question != "reduce" {
        return Ok(String::new(alloc));
    }
    let mut answer = Answer::new(alloc)?;
    about_said(alloc, said, question, text, &mut answer)?;
    Ok(answer.text())
}

/// Answers a question about the group that the rows before have said.
fn about_said(
    alloc: Global,
    said: Said,
    question: &str,
    text: &str,
    answer: &mut Answer,
) -> Result<(), Stop> {
    let frame = frame_of(alloc, said.field, said.datum)?;
    about_frame(alloc, &frame, said.orbit, question, text, answer)
}

/// Answers a question about a group and the module of an orbit.
fn about_frame(
    alloc: Global,
    frame: &Frame,
    orbit: &str,
    question: &str,
    text: &str,
    answer: &mut Answer,
) -> Result<(), Stop> {
    let audited = covering_orbit(alloc, frame, orbit)?;
    about_module(alloc, frame, &audited, question, text, answer)
}

/// Answers a question about a group and a module of it.
fn about_module(
    alloc: Global,
    frame: &Frame,
    audited: &Audited,
    question: &str,
    text: &str,
    answer: &mut Answer,
) -> Result<(), Stop>
    requires { CoversFrame frame.now audited.now }
{
    let rows = read_lists(alloc, text, "/")?;
    about_rows(alloc, frame, audited, question, &rows, answer)
}

/// Answers a question about the matrix with these rows.
fn about_rows(
    alloc: Global,
    frame: &Frame,
    audited: &Audited,
    question: &str,
    rows: &[Vec<i128>],
    answer: &mut Answer,
) -> Result<(), Stop>
    requires { CoversFrame frame.now audited.now }
{
    let m = matrix(alloc, &frame.field, rows)?;
    about_matrix(alloc, frame, audited, question, &m, answer)
}
