//! Why a field is not loaded.

use thiserror::Error;

/// The first of these causes, in this order. `specs/Faults.antt` says when each one holds.
#[derive(Debug, PartialEq, Eq, Drop, Error)]
pub enum FieldFault {
    #[error("out of memory")]
    NoMemory,
    /// `p < 2`, or `k = 0`, or `p^k` is above the limit of 256.
    #[error("size")]
    Size,
    /// Coefficient `i`, counted from 0 at the constant coefficient, is the first that is not below p.
    #[error("coefficient {0}")]
    Coefficient(usize),
    /// g is 0 or not below q.
    #[error("element")]
    Element,
    /// `e` is the least exponent from 1 on at which `g^e` is 0 or an earlier power of g; or it is
    /// q - 1, and `g^(q-1)` is not 1.
    #[error("generator {0}")]
    Generator(u32),
}
