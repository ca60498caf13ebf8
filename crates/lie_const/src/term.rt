//! A term of a commutator.

use lie_datum::RootId;

/// One factor of a commutator of root elements: the root i r + j s with the number C_ijrs.
#[derive(Clone, Copy, Debug, PartialEq, Eq)]
pub struct Term {
    pub i: u8,
    pub j: u8,
    pub root: RootId,
    pub value: i128,
}
