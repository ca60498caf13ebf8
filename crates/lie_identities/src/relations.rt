//! The relations that a module is audited for.

use lie_datum::RootId;

/// A relation between root elements, named as in `specs/AuditRelations.antt`. Simple indices count from 1.
#[derive(Clone, Copy, Debug, PartialEq, Eq)]
pub enum Rel {
    S1(RootId),
    S2(RootId, RootId),
    S6(usize),
    S7(usize, RootId),
}
