//! The factors of the two sides of a relation.

use lie_datum::RootId;

/// A factor of a side: X_r(f), or a_i^(t), where i counts from 1. Its matrix is `factor_matrix` of
/// `specs/AuditRelations.antt`.
#[derive(Drop)]
pub(crate) enum Factor<E> {
    RootElement(RootId, E),
    CorootElement(usize),
}
