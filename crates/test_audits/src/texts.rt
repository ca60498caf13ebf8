//! Answers as texts.

ghost use Rattle.std.specs.Prelude.{◌≡◌, IfOk};

use lie_datum::Datum;
use lie_field::Field;
use lie_identities::{AuditFault, Audited, CoverFault, Rel};
use lie_weight::ModuleFault;
use std::alloc::Global;
use test_rows::{Answer, Stop, field_of_row};

/// Writes an answer: the dimension, or the fault. Over a field, where one is said, it is written too whether the module is covering.
pub(crate) fn write(
    alloc: Global,
    found: &Result<Audited, AuditFault>,
    datum: &Datum,
    field: &str,
    answer: &mut Answer,
) -> Result<(), Stop>
    requires { IfOk found.now (λ a. a.datum ≡ datum.now) }
{
    match found {
        Ok(audited) => {
            write_dimension(audited, answer)?;
            if field.is_empty() {
                return Ok(());
            }
            write_covering(audited, datum, &field_of_row(alloc, field)?, answer)
        }
        Err(fault) => write_fault(fault, answer),
    }
}

/// The word of what is told of covering, with the number of a root or of an axis.
fn covering_words(found: &Result<(), CoverFault>) -> (&'static str, Option<i128>) {
    match found {
        Ok(()) => ("covering", None),
        Err(CoverFault::Dead(r)) => ("dead", Some(i128::from(r.number()))),
        Err(CoverFault::Uncovered(axis)) => ("uncovered", Some(*axis as i128)),
    }
}

/// Writes whether a module is covering over a field, or the first root or axis for which it is not.
fn write_covering(
    audited: &Audited,
    datum: &Datum,
    field: &Field,
    answer: &mut Answer,
) -> Result<(), Stop>
    requires { datum.now ≡ audited.now.datum }
{
    let found = audited.covering(field, datum);
    let (word, number) = covering_words(&found);
    answer.word(word)?;
    if let Some(n) = number {
        answer.number(n)?;
    }
    Ok(())
}

/// Writes the dimension of a module that is audited.
fn write_dimension(audited: &Audited, answer: &mut Answer) -> Result<(), Stop> {
    answer.word("audited, dimension")?;
    Ok(answer.number(audited.module().dim() as i128)?)
}

/// Writes a fault.
fn write_fault(fault: &AuditFault, answer: &mut Answer) -> Result<(), Stop> {
    match fault {
        AuditFault::NoMemory => Err(Stop::NoMemory),
        AuditFault::Graded(r, k, row, col) => {
            answer.word("not graded at")?;
            let places = [
                i128::from(r.number()),
                i128::from(*k),
                *row as i128,
                *col as i128,
            ];
            Ok(answer.list(&places)?)
        }
        AuditFault::Large(rel) => {
            answer.word("large")?;
            write_rel(rel, answer)
        }
        AuditFault::Relation {
            rel,
            row,
            col,
            et,
            eu,
            left,
            right,
        } => {
            write_rel(rel, answer)?;
            answer.next(&[*row as i128, *col as i128])?;
            answer.next(&[i128::from(*et), i128::from(*eu)])?;
            Ok(answer.next(&[*left, *right])?)
        }
    }
}

/// Writes why a table gives no module.
pub(crate) fn write_no_module(fault: &ModuleFault, answer: &mut Answer) -> Result<(), Stop> {
    match fault {
        ModuleFault::Table(n) => {
            answer.word("table")?;
            Ok(answer.number(*n as i128)?)
        }
        ModuleFault::Heavy(a) => {
            answer.word("heavy")?;
            Ok(answer.number(*a as i128)?)
        }
        ModuleFault::Huge(r, k) => {
            answer.word("huge")?;
            Ok(answer.list(&[i128::from(r.number()), i128::from(*k)])?)
        }
        ModuleFault::NoMemory => Err(Stop::NoMemory),
        _ => Err(Stop::NoQuestion),
    }
}

/// Writes a relation.
fn write_rel(rel: &Rel, answer: &mut Answer) -> Result<(), Stop> {
    match rel {
        Rel::S1(r) => named(answer, "S1", &[i128::from(r.number())]),
        Rel::S2(r, s) => named(
            answer,
            "S2",
            &[i128::from(r.number()), i128::from(s.number())],
        ),
        Rel::S6(i) => named(answer, "S6", &[*i as i128]),
        Rel::S7(i, s) => named(answer, "S7", &[*i as i128, i128::from(s.number())]),
    }
}

/// Writes the name of a relation, and what it is about.
fn named(answer: &mut Answer, name: &str, list: &[i128]) -> Result<(), Stop> {
    answer.word(name)?;
    Ok(answer.list(list)?)
}
