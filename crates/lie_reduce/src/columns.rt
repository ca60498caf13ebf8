//! The pivots of the columns of a matrix.

ghost use Rattle.std.specs.Prelude.{◌≡◌, ◌≢◌, ◌<◌, ◌≤◌, ℕ, IfOk, OnOk, MatchOption, length};
ghost use Rattle.lie_ring.specs.Matrices.{AllElem, entry};
ghost use Rattle.lie_mat.specs.Parts.{partial_table};
ghost use Rattle.lie_field.specs.FieldRing.{field_ring};
ghost use Rattle.lie_field.specs.Quotient.{order};
ghost use Rattle.lie_reduce.specs.Pivots.{without_column, HasZeroColumn, IsLastInColumn, IsWithoutColumn, ArePivots, HasNoInverse};

use lie_dense::Dense;
use lie_field::{Fe, Field};
use std::alloc::{AllocError, Global};

/// The last row whose entry in a column is not 0.
fn last_nonzero(m: &Dense, col: usize) -> Option<usize>
    requires { col < m.now.height }
    ensures { MatchOption result (HasZeroColumn m.now col) (IsLastInColumn m.now col) }
{
    let n = m.dim();
    for done in 0..n {
        let row = n - 1 - done;
        if m.get(row, col) != Fe::zero() {
            return Some(row);
        }
    }
    None
}

/// The entry in row i and column j of a matrix to whose later columns multiples of column `col` are
/// added, so that row p has 0 there.
fn reduced_entry(
    field: &Field,
    m: &Dense,
    inverse: Fe,
    p: usize,
    col: usize,
    i: usize,
    j: usize,
) -> Fe
    requires elem { AllElem (field_ring field.now) m.now }
    requires inverse { inverse < order field.now.given }
    requires p { p < m.now.height }
    requires col { col < m.now.height }
    requires i { i < m.now.height }
    requires j { j < m.now.height }
    ensures { result ≡ without_column field.now.given m.now inverse p col i j }
{
    let _ = m.dim();
    let kept = m.get(i, j);
    if col < j {
        let multiple = field.neg(field.mul(inverse, m.get(p, j)));
        field.add(kept, field.mul(m.get(i, col), multiple))
    } else {
        kept
    }
}

/// Fills a row of that matrix, where zeros stand.
fn fill_row(
    field: &Field,
    m: &Dense,
    inverse: Fe,
    p: usize,
    col: usize,
    next: &mut Dense,
    row: usize,
)
    requires elem { AllElem (field_ring field.now) m.now }
    requires inverse { inverse < order field.now.given }
    requires p { p < m.now.height }
    requires col { col < m.now.height }
    requires row { row < m.now.height }
    requires partly { next.old ≡ partial_table 0 m.now.height m.now.height (without_column field.now.given m.now inverse p col) row 0 }
    ensures partly { next.new ≡ partial_table 0 m.now.height m.now.height (without_column field.now.given m.now inverse p col) row m.now.height }
{
    for j in 0..m.dim() {
        next.set(row, j, reduced_entry(field, m, inverse, p, col, row, j));
    }
}

/// That matrix.
fn reduced(
    alloc: Global,
    field: &Field,
    m: &Dense,
    p: usize,
    col: usize,
) -> Result<Dense, AllocError>
    requires elem { AllElem (field_ring field.now) m.now }
    requires p { p < m.now.height }
    requires col { col < m.now.height }
    requires corner { entry 0 m.now p col ≢ 0 }
    ensures { IfOk result (IsWithoutColumn field.now m.now p col) }
{
    let n = m.dim();
    let inverse = field.inv(m.get(p, col));
    let mut next = Dense::zero(alloc, n)?;
    for row in 0..n {
        fill_row(field, m, inverse, p, col, &mut next, row);
    }
    Ok(next)
}

/// The pivots of the columns, or None where a column has none.
pub(crate) fn pivots_of(
    alloc: Global,
    field: &Field,
    m: &Dense,
) -> Result<Option<Vec<usize>>, AllocError>
    requires { AllElem (field_ring field.now) m.now }
    ensures { IfOk result (λ answer. MatchOption answer (HasNoInverse field.now m.now) (λ p. ArePivots field.now m.now p.items)) }
{
    let n = m.dim();
    let mut places = Vec::new(alloc);
    let mut rest = Dense::identity(alloc, field, n)?.mul(alloc, field, m)?;
    for col in 0..n {
        match last_nonzero(&rest, col) {
            Some(p) => {
                rest = reduced(alloc, field, &rest, p, col)?;
                places.push(p)?;
            }
            None => return Ok(None),
        }
    }
    Ok(Some(places))
}
