//! The field that rows are about, and its elements by number.

ghost use Rattle.std.specs.Prelude.{◌<◌, IfOk};
ghost use Rattle.std.specs.List.{AllByRecursion};
ghost use Rattle.lie_field.specs.Quotient.{order};

use crate::answers::{Answer, read_lists};
use crate::stops::Stop;
use lie_field::{Fe, Field};
use std::alloc::Global;

/// The field of a row: its characteristic, the coefficients below the leading term, and a generator.
pub fn load_field(alloc: Global, lists: &[Vec<i128>], answer: &mut Answer) -> Result<Field, Stop> {
    let [p, coefficients, g] = lists else {
        return Err(Stop::NoQuestion);
    };
    let coefficients = small(alloc, coefficients)?;
    let field = field_of(alloc, only(p)?, &coefficients, only(g)?)?;
    answer.number(i128::from(field.q()))?;
    Ok(field)
}

/// The number of a list of one.
fn only(list: &[i128]) -> Result<u32, Stop> {
    match list {
        [n] => u32::try_from(*n).map_err(|_| Stop::NoQuestion),
        _ => Err(Stop::NoQuestion),
    }
}

/// The numbers of a list below 2^32.
fn small(alloc: Global, list: &[i128]) -> Result<Vec<u32>, Stop> {
    let mut numbers = Vec::new(alloc);
    for n in list {
        let n = u32::try_from(*n).map_err(|_| Stop::NoQuestion)?;
        numbers.push(n)?;
    }
    Ok(numbers)
}

/// `Field::load` with no clause.
fn field_of(alloc: Global, p: u32, coefficients: &[u32], g: u32) -> Result<Field, Stop> {
    let Ok(k) = u32::try_from(coefficients.len()) else {
        return Err(Stop::NoQuestion);
    };
    Field::load(alloc, p, k, coefficients, g).map_err(|_| Stop::NoQuestion)
}

/// The field of a row.
pub fn field_of_row(alloc: Global, text: &str) -> Result<Field, Stop> {
    let lists = read_lists(alloc, text, "|")?;
    load_field(alloc, &lists, &mut Answer::new(alloc)?)
}

/// The element of the field with a number.
pub fn entry(field: &Field, n: i128) -> Result<Fe, Stop>
    ensures { IfOk result (λ a. a < order field.now.given) }
{
    let n = u32::try_from(n).map_err(|_| Stop::NoQuestion)?;
    match field.elem(n) {
        Some(a) => Ok(a),
        None => Err(Stop::NoQuestion),
    }
}

/// The elements with these numbers.
#[tactic(auto, using(crate::proofs::ElementLemmas::by_recursion))]
pub fn elements(alloc: Global, field: &Field, list: &[i128]) -> Result<Vec<Fe>, Stop>
    ensures { IfOk result (λ a. AllByRecursion (λ n. n < order field.now.given) a.items) }
{
    let mut elements = Vec::new(alloc);
    for n in list {
        elements.push(entry(field, *n)?)?;
    }
    Ok(elements)
}
