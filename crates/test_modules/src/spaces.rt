//! Rows on modules: weights, matrices of roots, signs and braid values, and lowered weights.

ghost use Rattle.std.specs.Prelude.{◌≡◌, ◌↔◌, IsTrue, IfOk, length};
ghost use Rattle.std.specs.List.{All};
ghost use Rattle.lie_datum.specs.RootDatum.{IsWithin};
ghost use Rattle.lie_const.specs.Adjoint.{IsAdjointOf};
ghost use Rattle.lie_const.specs.Modules.{IsModule};
ghost use Rattle.lie_const.specs.Signs.{IsSignTable};
ghost use Rattle.lie_audit.specs.SignParts.{IsSign};

use lie_audit::{BraidFault, SignFault, braid, signs as read_signs};
use lie_const::Signs;
use lie_datum::{Datum, RootId, Vector, pairing};
use lie_mat::Mat;
use lie_orbit::lower;
use lie_ring::Ints;
use lie_weight::{Module, ModuleFault};
use std::alloc::Global;
use test_rows::{Answer, Roots, Stop, constants, numbered, padded, pair, start};

/// Answers a question about modules; false where it is about something else.
pub(crate) fn about_spaces(
    alloc: Global,
    roots: &Roots,
    table: &[i8],
    question: &str,
    lists: &[Vec<i128>],
    answer: &mut Answer,
) -> Result<bool, Stop> {
    let datum = &roots.datum;
    match lists {
        [list] => about_one_list(alloc, datum, table, question, list, answer),
        [first, second] => about_two_lists(alloc, datum, table, question, first, second, answer),
        _ => Ok(false),
    }
}

/// Answers a question about one list.
fn about_one_list(
    alloc: Global,
    datum: &Datum,
    table: &[i8],
    question: &str,
    list: &[i128],
    answer: &mut Answer,
) -> Result<bool, Stop> {
    match question {
        "lowered weight" => lowered(datum, list, answer)?,
        "weights of the adjoint module" => adjoint_weights(alloc, datum, answer)?,
        "adjoint matrix" => adjoint_matrix(alloc, datum, list, answer)?,
        "orbit" => orbit(alloc, datum, table, list, answer)?,
        "carrier" => carrier(alloc, datum, answer)?,
        "carrier matrix" => carrier_matrix(alloc, datum, list, answer)?,
        "signs of the adjoint module" => found_signs(alloc, datum, answer)?,
        "braid values" => braids(alloc, datum, table, answer)?,
        _ => return Ok(false),
    }
    Ok(true)
}

/// Answers a question about two lists.
fn about_two_lists(
    alloc: Global,
    datum: &Datum,
    table: &[i8],
    question: &str,
    first: &[i128],
    second: &[i128],
    answer: &mut Answer,
) -> Result<bool, Stop> {
    match question {
        "pairing" => answer.number(paired(first, second)?)?,
        "orbit matrix" => orbit_matrix(alloc, datum, table, first, second, answer)?,
        _ => return Ok(false),
    }
    Ok(true)
}

/// A weight with entries within 100.
fn weight(list: &[i128]) -> Result<Vector, Stop>
    ensures { IfOk result (IsWithin 100) }
{
    let v = padded(list)?;
    if is_within(&v, 100) {
        Ok(v)
    } else {
        Err(Stop::NoQuestion)
    }
}

/// Whether all entries are within a bound.
fn is_within(v: &Vector, bound: u128) -> bool
    ensures { IsTrue result ↔ IsWithin bound v.now }
{
    v.iter().all(|c| c.unsigned_abs() <= bound)
}

/// The pairing of two vectors with small entries.
fn paired(x: &[i128], y: &[i128]) -> Result<i128, Stop> {
    let (x, y) = (padded(x)?, padded(y)?);
    if is_within(&x, 250_000_000_000_000_000_000_000_000_000_000) && is_within(&y, 80000) {
        Ok(pairing(&x, &y))
    } else {
        Err(Stop::NoQuestion)
    }
}

/// The weight that a small weight lowers to.
fn lowered(datum: &Datum, list: &[i128], answer: &mut Answer) -> Result<(), Stop> {
    let v = weight(list)?;
    Ok(answer.list(start(&lowered_of(datum, &v), datum.d()))?)
}

/// `lower` with no clause.
fn lowered_of(datum: &Datum, v: &Vector) -> Vector
    requires { IsWithin 100 v.now }
{
    lower(datum, v)
}

/// The adjoint module.
fn made_adjoint(alloc: Global, datum: &Datum) -> Result<Module, Stop>
    ensures { IfOk result (IsAdjointOf datum.now) }
{
    let consts = constants(alloc, datum)?;
    Ok(Module::adjoint(alloc, datum, &consts)?)
}

/// The adjoint module, and that it is a module.
pub(crate) fn adjoint(alloc: Global, datum: &Datum) -> Result<Module, Stop>
    ensures adjoint { IfOk result (IsAdjointOf datum.now) }
    ensures space { IfOk result (IsModule datum.now) }
    ensures positive { IfOk result (λ v. v.positive ≡ length datum.now.positive) }
{
    made_adjoint(alloc, datum)
}

/// Writes the weights of the adjoint module.
fn adjoint_weights(alloc: Global, datum: &Datum, answer: &mut Answer) -> Result<(), Stop> {
    weights(datum, &adjoint(alloc, datum)?, answer)
}

/// Writes a matrix of the adjoint module.
fn adjoint_matrix(
    alloc: Global,
    datum: &Datum,
    letter: &[i128],
    answer: &mut Answer,
) -> Result<(), Stop> {
    matrix(datum, &adjoint(alloc, datum)?, letter, answer)
}

/// Writes the weights of a module.
fn weights(datum: &Datum, space: &Module, answer: &mut Answer) -> Result<(), Stop> {
    for a in 0..space.dim() {
        if a > 0 {
            answer.word("|")?;
        }
        answer.list(start(space.weight(a), datum.d()))?;
    }
    Ok(())
}

/// Writes the entries of E_r^(power) that are not 0, by columns: the row, the column and the entry.
fn matrix(datum: &Datum, space: &Module, letter: &[i128], answer: &mut Answer) -> Result<(), Stop>
    requires { space.now.positive ≡ length datum.now.positive }
{
    let (k, power) = pair(letter)?;
    let r = numbered(datum, k)?;
    let power = u32::try_from(power).map_err(|_| Stop::NoQuestion)?;
    if power < 1 || power > space.top(r) {
        return Ok(answer.word("none")?);
    }
    entries(space.power(r, power), answer)
}

/// Writes the entries of a matrix that are not 0.
fn entries(matrix: &Mat<Ints>, answer: &mut Answer) -> Result<(), Stop> {
    let mut first = true;
    for col in 0..matrix.cols() {
        for row in 0..matrix.rows() {
            if let Some(n) = matrix.get(row, col) {
                if !first {
                    answer.word("|")?;
                }
                first = false;
                answer.list(&[row as i128 + 1, col as i128 + 1, *n])?;
            }
        }
    }
    Ok(())
}

/// The signs of the last list of them.
fn signs(alloc: Global, datum: &Datum, table: &[i8]) -> Result<Signs, Stop>
    ensures { IfOk result (IsSignTable datum.now) }
{
    let Some(count) = datum.l().checked_mul(2 * datum.m()) else {
        return Err(Stop::NoQuestion);
    };
    if table.len() != count || !are_signs(table) {
        return Err(Stop::NoQuestion);
    }
    Ok(Signs::of(datum, Vec::from_slice(alloc, table)?))
}

/// Whether each number is 1 or -1.
fn are_signs(table: &[i8]) -> bool
    ensures { IsTrue result ↔ All IsSign table.now }
{
    table.iter().all(|c| *c == 1 || *c == -1)
}

/// The module of an orbit, or its fault.
fn orbit_of(alloc: Global, datum: &Datum, signs: &Signs, v: &Vector) -> Result<Module, ModuleFault>
    requires signs { IsSignTable datum.now signs.now }
    requires v { IsWithin 100 v.now }
    ensures { IfOk result (λ space. space.positive ≡ length datum.now.positive) }
{
    Module::orbit(alloc, datum, signs, v)
}

/// The module of the orbit of a weight with the signs of the last list of them, or its fault.
fn found_orbit(
    alloc: Global,
    datum: &Datum,
    table: &[i8],
    v: &Vector,
) -> Result<Result<Module, ModuleFault>, Stop>
    requires { IsWithin 100 v.now }
    ensures { IfOk result (λ found. IfOk found (λ space. space.positive ≡ length datum.now.positive)) }
{
    let signs = signs(alloc, datum, table)?;
    Ok(orbit_of(alloc, datum, &signs, v))
}

/// Writes the weights of the module of an orbit, or its fault.
fn orbit(
    alloc: Global,
    datum: &Datum,
    table: &[i8],
    v: &[i128],
    answer: &mut Answer,
) -> Result<(), Stop> {
    match found_orbit(alloc, datum, table, &weight(v)?)? {
        Ok(space) => weights(datum, &space, answer),
        Err(fault) => write_fault(&fault, answer),
    }
}

/// Writes a matrix of the module of an orbit.
fn orbit_matrix(
    alloc: Global,
    datum: &Datum,
    table: &[i8],
    v: &[i128],
    letter: &[i128],
    answer: &mut Answer,
) -> Result<(), Stop> {
    match found_orbit(alloc, datum, table, &weight(v)?)? {
        Ok(space) => matrix(datum, &space, letter, answer),
        Err(_) => Err(Stop::NoQuestion),
    }
}

/// Writes the root at which a weight is not minuscule, how many weights there are, or which is too large.
fn write_fault(fault: &ModuleFault, answer: &mut Answer) -> Result<(), Stop> {
    match fault {
        ModuleFault::NotMinuscule(r) => {
            answer.word("not minuscule at")?;
            Ok(answer.number(i128::from(r.number()))?)
        }
        ModuleFault::Wide(n) => {
            answer.word("wide")?;
            Ok(answer.number(i128::from(*n))?)
        }
        ModuleFault::Heavy(a) => {
            answer.word("heavy")?;
            Ok(answer.number(*a as i128)?)
        }
        _ => Err(Stop::NoQuestion),
    }
}

/// The signs that are read off the adjoint module.
fn signs_of(alloc: Global, datum: &Datum, space: &Module) -> Result<Signs, SignFault>
    requires { IsAdjointOf datum.now space.now }
    ensures { IfOk result (IsSignTable datum.now) }
{
    read_signs(alloc, datum, space)
}

/// The carrier, or its fault.
fn carrier_of(
    alloc: Global,
    datum: &Datum,
    signs: &Signs,
    adjoint: &Module,
) -> Result<Module, ModuleFault>
    requires signs { IsSignTable datum.now signs.now }
    requires adjoint { IsAdjointOf datum.now adjoint.now }
    ensures { IfOk result (λ space. space.positive ≡ length datum.now.positive) }
{
    Module::carrier(alloc, datum, signs, adjoint)
}

/// The carrier for the signs that are read off the adjoint module, or its fault.
fn found_carrier(alloc: Global, datum: &Datum) -> Result<Result<Module, ModuleFault>, Stop>
    ensures { IfOk result (λ found. IfOk found (λ space. space.positive ≡ length datum.now.positive)) }
{
    let adjoint = adjoint(alloc, datum)?;
    carrier_over(alloc, datum, &adjoint)
}

/// The carrier for the signs that are read off this adjoint module, or its fault.
fn carrier_over(
    alloc: Global,
    datum: &Datum,
    adjoint: &Module,
) -> Result<Result<Module, ModuleFault>, Stop>
    requires { IsAdjointOf datum.now adjoint.now }
    ensures { IfOk result (λ found. IfOk found (λ space. space.positive ≡ length datum.now.positive)) }
{
    match signs_of(alloc, datum, adjoint) {
        Ok(signs) => Ok(carrier_of(alloc, datum, &signs, adjoint)),
        Err(_) => Err(Stop::NoQuestion),
    }
}

/// Writes the weights of the carrier, or its fault.
fn carrier(alloc: Global, datum: &Datum, answer: &mut Answer) -> Result<(), Stop> {
    match found_carrier(alloc, datum)? {
        Ok(space) => weights(datum, &space, answer),
        Err(fault) => write_fault(&fault, answer),
    }
}

/// Writes a matrix of the carrier.
fn carrier_matrix(
    alloc: Global,
    datum: &Datum,
    letter: &[i128],
    answer: &mut Answer,
) -> Result<(), Stop> {
    match found_carrier(alloc, datum)? {
        Ok(space) => matrix(datum, &space, letter, answer),
        Err(_) => Err(Stop::NoQuestion),
    }
}

/// Writes the signs that are read off the adjoint module.
fn found_signs(alloc: Global, datum: &Datum, answer: &mut Answer) -> Result<(), Stop> {
    let space = adjoint(alloc, datum)?;
    match signs_of(alloc, datum, &space) {
        Ok(signs) => write_signs(datum, &signs, answer),
        Err(_) => Err(Stop::NoQuestion),
    }
}

/// Writes the signs, for each simple root those at all roots in order.
fn write_signs(datum: &Datum, signs: &Signs, answer: &mut Answer) -> Result<(), Stop>
    requires { IsSignTable datum.now signs.now }
{
    for i in 0..datum.l() {
        for place in 0..2 * datum.m() {
            answer.number(signs.eta(i + 1, RootId::at(place, datum.m())))?;
        }
    }
    Ok(())
}

/// `braid` with no clause.
fn braid_of(datum: &Datum, signs: &Signs) -> Result<(), BraidFault>
    requires { IsSignTable datum.now signs.now }
{
    braid(datum, signs)
}

/// Writes that all braid values are 1, or the first that isn't.
fn braids(alloc: Global, datum: &Datum, table: &[i8], answer: &mut Answer) -> Result<(), Stop> {
    match braid_of(datum, &signs(alloc, datum, table)?) {
        Ok(()) => answer.word("all 1")?,
        Err(fault) => answer.list(&[fault.i as i128, fault.j as i128, fault.value])?,
    }
    Ok(())
}
