//! Rows on matrices of integers, which a row gives as their shape and their entries, row after row.

ghost use Rattle.std.specs.Prelude.{◌≡◌, IsTrue, IfOk, OnOk};
ghost use Rattle.lie_ring.specs.Integers.{integers};
ghost use Rattle.lie_ring.specs.Matrices.{AllFit};
ghost use Rattle.lie_ring.specs.Rings.{Fits};

use lie_mat::Mat;
use lie_ring::{Ints, Ring, RingStop};
use std::alloc::Global;
use test_rows::{Answer, Stop, index, pair, single};

/// A matrix of elements of the ring of the integers.
#[derive(Drop)]
struct Fitting {
    matrix: Mat<Ints>,
    ghost fit: { AllFit integers matrix },
}

/// Answers a question about matrices; false where it is about something else.
pub(crate) fn about_matrices(
    alloc: Global,
    question: &str,
    lists: &[Vec<i128>],
    answer: &mut Answer,
) -> Result<bool, Stop> {
    match lists {
        [m, a, n, b] => about_two(alloc, question, m, a, n, b, answer),
        [m, a, list] => about_one_and_list(alloc, question, m, a, list, answer),
        [m, a] if question == "transposed matrix" => {
            transposed(alloc, &fitting_of(alloc, m, a)?, answer)?;
            Ok(true)
        }
        [n] => about_identity(alloc, question, n, answer),
        _ => Ok(false),
    }
}

/// Answers a question about two matrices.
fn about_two(
    alloc: Global,
    question: &str,
    m: &[i128],
    a: &[i128],
    n: &[i128],
    b: &[i128],
    answer: &mut Answer,
) -> Result<bool, Stop> {
    let a = fitting_of(alloc, m, a)?;
    about_second(alloc, question, &a, n, b, answer)
}

/// Answers a question about this matrix and another.
fn about_second(
    alloc: Global,
    question: &str,
    a: &Fitting,
    n: &[i128],
    b: &[i128],
    answer: &mut Answer,
) -> Result<bool, Stop> {
    let b = fitting_of(alloc, n, b)?;
    about_both(alloc, question, a, &b, answer)
}

/// Answers a question about these two matrices.
fn about_both(
    alloc: Global,
    question: &str,
    a: &Fitting,
    b: &Fitting,
    answer: &mut Answer,
) -> Result<bool, Stop> {
    match question {
        "matrix product" => product(alloc, a, b, answer)?,
        "matrix sum" => sum(alloc, a, b, answer)?,
        "direct sum" => direct_sum(alloc, a, b, answer)?,
        "Kronecker product" => kronecker(alloc, a, b, answer)?,
        "equal matrices" => same(a, b, answer)?,
        _ => return Ok(false),
    }
    Ok(true)
}

/// Answers a question about a matrix and a list.
fn about_one_and_list(
    alloc: Global,
    question: &str,
    m: &[i128],
    a: &[i128],
    list: &[i128],
    answer: &mut Answer,
) -> Result<bool, Stop> {
    let a = fitting_of(alloc, m, a)?;
    match question {
        "image of vector" => apply(alloc, &a, list, answer)?,
        "next entry" => next(&a, pair(list)?, answer)?,
        _ => return Ok(false),
    }
    Ok(true)
}

/// Answers a question about an identity matrix.
fn about_identity(
    alloc: Global,
    question: &str,
    n: &[i128],
    answer: &mut Answer,
) -> Result<bool, Stop> {
    match question {
        "identity matrix" => shown(Ok(identity(alloc, single(n)?)?.matrix), answer)?,
        "symmetric identity" => is_symmetric(alloc, &identity(alloc, single(n)?)?, answer)?,
        _ => return Ok(false),
    }
    Ok(true)
}

/// A matrix by its shape and its entries, row after row.
fn fitting_of(alloc: Global, shape: &[i128], entries: &[i128]) -> Result<Fitting, Stop> {
    let matrix = matrix(alloc, shape, entries)?;
    Ok(Fitting { matrix })
}

/// The same, and that it is of elements of the ring.
fn matrix(alloc: Global, shape: &[i128], entries: &[i128]) -> Result<Mat<Ints>, Stop>
    ensures { IfOk result (AllFit integers) }
{
    let (rows, cols) = pair(shape)?;
    let mut matrix = zero(alloc, index(rows)?, index(cols)?)?;
    let mut entries = entries.iter();
    for row in 0..matrix.rows() {
        for col in 0..matrix.cols() {
            match entries.next() {
                Some(n) => set(alloc, &mut matrix, row, col, *n)?,
                None => return Err(Stop::NoQuestion),
            }
        }
    }
    Ok(matrix)
}

/// The matrix of zeros of this shape.
fn zero(alloc: Global, rows: usize, cols: usize) -> Result<Mat<Ints>, Stop>
    ensures { IfOk result (AllFit integers) }
{
    if rows > 1024 || cols > 1024 {
        return Err(Stop::NoQuestion);
    }
    Ok(Mat::zero(alloc, rows, cols)?)
}

/// A number as an element of the ring of the integers.
fn integer(alloc: Global, n: i128) -> Result<i128, Stop>
    ensures { IfOk result (Fits integers) }
{
    Ints.of_int(alloc, n).map_err(|_| Stop::NoQuestion)
}

/// Writes an entry.
fn set(alloc: Global, matrix: &mut Mat<Ints>, row: usize, col: usize, n: i128) -> Result<(), Stop>
    ensures { OnOk result (AllFit integers matrix.old → AllFit integers matrix.new) }
{
    if row >= matrix.rows() || col >= matrix.cols() {
        return Err(Stop::NoQuestion);
    }
    let n = integer(alloc, n)?;
    Ok(matrix.set(&Ints, row, col, n)?)
}

/// Writes a matrix: its shape, and the entries that are not 0, by columns: the row, the column and the entry.
fn shown(matrix: Result<Mat<Ints>, RingStop>, answer: &mut Answer) -> Result<(), Stop> {
    let matrix = match matrix {
        Ok(matrix) => matrix,
        Err(RingStop::NoMemory) => return Err(Stop::NoMemory),
        Err(RingStop::Wide) => return Ok(answer.word("wide")?),
    };
    answer.list(&[matrix.rows() as i128, matrix.cols() as i128])?;
    for col in 0..matrix.cols() {
        for row in 0..matrix.rows() {
            if let Some(n) = matrix.get(row, col) {
                answer.next(&[row as i128 + 1, col as i128 + 1, *n])?;
            }
        }
    }
    Ok(())
}

fn transposed(alloc: Global, a: &Fitting, answer: &mut Answer) -> Result<(), Stop> {
    shown(a.matrix.transpose(alloc, &Ints), answer)
}

fn product(alloc: Global, a: &Fitting, b: &Fitting, answer: &mut Answer) -> Result<(), Stop> {
    if a.matrix.cols() != b.matrix.rows() {
        return Err(Stop::NoQuestion);
    }
    shown(a.matrix.mul(alloc, &Ints, &b.matrix), answer)
}

fn sum(alloc: Global, a: &Fitting, b: &Fitting, answer: &mut Answer) -> Result<(), Stop> {
    if !is_of_shape(a, b) {
        return Err(Stop::NoQuestion);
    }
    shown(a.matrix.add(alloc, &Ints, &b.matrix), answer)
}

/// Whether two matrices have one shape.
fn is_of_shape(a: &Fitting, b: &Fitting) -> bool
    ensures { IsTrue result → (a.now.matrix.height ≡ b.now.matrix.height) × (a.now.matrix.width ≡ b.now.matrix.width) }
{
    a.matrix.rows() == b.matrix.rows() && a.matrix.cols() == b.matrix.cols()
}

fn direct_sum(alloc: Global, a: &Fitting, b: &Fitting, answer: &mut Answer) -> Result<(), Stop> {
    let (a, b) = (&a.matrix, &b.matrix);
    if a.rows() + b.rows() > 1024 || a.cols() + b.cols() > 1024 {
        return Err(Stop::NoQuestion);
    }
    shown(a.direct_sum(alloc, &Ints, b), answer)
}

fn kronecker(alloc: Global, a: &Fitting, b: &Fitting, answer: &mut Answer) -> Result<(), Stop> {
    let (a, b) = (&a.matrix, &b.matrix);
    let rows = a.rows().checked_mul(b.rows());
    let cols = a.cols().checked_mul(b.cols());
    match (rows, cols) {
        (Some(0..=1024), Some(0..=1024)) => shown(a.kron(alloc, &Ints, b), answer),
        _ => Err(Stop::NoQuestion),
    }
}

/// Writes whether two matrices of one shape are equal.
fn same(a: &Fitting, b: &Fitting, answer: &mut Answer) -> Result<(), Stop> {
    if !is_of_shape(a, b) {
        return Err(Stop::NoQuestion);
    }
    let is_same = a.matrix.same(&Ints, &b.matrix);
    Ok(answer.word(if is_same { "yes" } else { "no" })?)
}

/// Writes the image of a vector of two entries.
fn apply(alloc: Global, a: &Fitting, v: &[i128], answer: &mut Answer) -> Result<(), Stop> {
    let (x, y) = pair(v)?;
    let v = [integer(alloc, x)?, integer(alloc, y)?];
    if a.matrix.cols() != 2 {
        return Err(Stop::NoQuestion);
    }
    match a.matrix.apply(alloc, &Ints, &v) {
        Ok(image) => Ok(answer.list(&image)?),
        Err(_) => Err(Stop::NoQuestion),
    }
}

/// Writes the next entry that is not 0, from a row on: its row, and the entry.
fn next(a: &Fitting, start: (i128, i128), answer: &mut Answer) -> Result<(), Stop> {
    let (from, col) = (index(start.0)?, index(start.1)?);
    if col < 1 || col > a.matrix.cols() || from < 1 {
        return Err(Stop::NoQuestion);
    }
    match a.matrix.next_kept(from - 1, col - 1) {
        Some((row, n)) => Ok(answer.list(&[row as i128 + 1, *n])?),
        None => Ok(answer.word("none")?),
    }
}

/// The identity matrix of a size.
fn identity(alloc: Global, n: i128) -> Result<Fitting, Stop> {
    let n = index(n)?;
    if n > 1024 {
        return Err(Stop::NoQuestion);
    }
    match Mat::identity(alloc, &Ints, n) {
        Ok(matrix) => Ok(Fitting { matrix }),
        Err(_) => Err(Stop::NoMemory),
    }
}

/// Writes whether a square matrix is equal to its transpose.
fn is_symmetric(alloc: Global, a: &Fitting, answer: &mut Answer) -> Result<(), Stop> {
    match a.matrix.transpose(alloc, &Ints) {
        Ok(matrix) => same(a, &Fitting { matrix }, answer),
        Err(_) => Err(Stop::NoMemory),
    }
}
