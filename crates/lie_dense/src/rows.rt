//! Rows of a product, on the arrays in which matrices are kept.

ghost use Rattle.std.specs.Prelude.{◌≡◌, ℕ, ◌*◌, ◌<◌, ◌≤◌, length, slice_index_or};
ghost use Rattle.lie_ring.specs.Matrices.{EachElem};
ghost use Rattle.lie_field.specs.Quotient.{order};
ghost use Rattle.lie_field.specs.FieldRing.{field_ring};
ghost use Rattle.lie_dense.specs.Flat.{place, IsRowSum, row_product, matrix_product};
ghost use Rattle.lie_dense.specs.Steps.{AreSteps};

use crate::steps::add_by_steps;
use lie_field::{Fe, Field};

/// Adds a times another row to a row.
fn add_row_multiple(field: &Field, steps: &[Fe], row: &mut [Fe], a: Fe, other: &[Fe])
    requires steps { AreSteps field.now steps.now }
    requires a_below { a < order field.now.given }
    requires row_elem { EachElem (field_ring field.now) row.old }
    requires other_elem { EachElem (field_ring field.now) other.now }
    requires lengths { length row.old ≡ length other.now }
    ensures sums { IsRowSum field.now.given row.new row.old a other.now }
    ensures row_elem { EachElem (field_ring field.now) row.new }
{
    if a == Fe::zero() {
        return;
    }
    if steps.is_empty() {
        add_multiple(field, row, a, other);
    } else {
        add_by_steps(field, steps, row, a, other);
    }
}

/// Adds a times another row to a row, by the operations of the field.
fn add_multiple(field: &Field, row: &mut [Fe], a: Fe, other: &[Fe])
    requires a_below { a < order field.now.given }
    requires row_elem { EachElem (field_ring field.now) row.old }
    requires other_elem { EachElem (field_ring field.now) other.now }
    requires lengths { length row.old ≡ length other.now }
    ensures sums { IsRowSum field.now.given row.new row.old a other.now }
    ensures row_elem { EachElem (field_ring field.now) row.new }
{
    for j in 0..row.len() {
        row[j] = field.add(row[j], field.mul(a, other[j]));
    }
}

/// Multiplies a row with the matrix of dimension n that is kept as b, and writes the answer over
/// zeros.
fn multiply_row(field: &Field, steps: &[Fe], answer: &mut [Fe], row: &[Fe], b: &[Fe], n: usize)
    requires steps { AreSteps field.now steps.now }
    requires row_elem { EachElem (field_ring field.now) row.now }
    requires b_elem { EachElem (field_ring field.now) b.now }
    requires row_length { length row.now ≡ n }
    requires answer_length { length answer.old ≡ n }
    requires few { n ≤ 1024 }
    requires b_length { length b.now ≡ n * n }
    requires zeros { (j : ℕ) → j < n → slice_index_or answer.old j 0 ≡ 0 }
    ensures products { (j : ℕ) → j < n →
        slice_index_or answer.new j 0 ≡ row_product field.now n row.now b.now j }
    ensures answer_elem { EachElem (field_ring field.now) answer.new }
{
    for k in 0..n {
        let start = k * n;
        add_row_multiple(field, steps, answer, row[k], &b[start..start + n]);
    }
}

/// The product of the matrices of dimension n that are kept as a and b, written over zeros.
pub(crate) fn multiply_rows(
    field: &Field,
    steps: &[Fe],
    answer: &mut [Fe],
    a: &[Fe],
    b: &[Fe],
    n: usize,
)
    requires steps { AreSteps field.now steps.now }
    requires a_elem { EachElem (field_ring field.now) a.now }
    requires b_elem { EachElem (field_ring field.now) b.now }
    requires few { n ≤ 1024 }
    requires a_length { length a.now ≡ n * n }
    requires b_length { length b.now ≡ n * n }
    requires answer_length { length answer.old ≡ n * n }
    requires zeros { (x : ℕ) → x < n * n → slice_index_or answer.old x 0 ≡ 0 }
    ensures products { (i j : ℕ) → i < n → j < n →
        place n answer.new i j ≡ matrix_product field.now n a.now b.now i j }
    ensures answer_elem { EachElem (field_ring field.now) answer.new }
{
    for i in 0..n {
        let start = i * n;
        multiply_row(
            field,
            steps,
            &mut answer[start..start + n],
            &a[start..start + n],
            b,
            n,
        );
    }
}
