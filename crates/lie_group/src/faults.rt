//! Why there is no frame of a datum, or no group of a frame.

ghost use Rattle.std.specs.Prelude.{◌≡◌};
ghost use Rattle.lie_group.specs.declared.faults.LoadFault.TheVariants.{NoMemory};

use lie_audit::{AuditFault, BraidFault, Rel, SignFault};
use lie_const::ConstFault;
use lie_datum::RootId;
use std::alloc::AllocError;
use thiserror::Error;

/// The first of these faults, in this order. `specs/Loading.antt` says when each one comes from `make_frame`, up to
/// `Braid`, and `specs/Groups.antt` when each of the others comes from `Group::load`. Rows, columns and weights count
/// from 1.
#[derive(Debug, PartialEq, Eq, Drop, Error)]
pub enum LoadFault {
    #[error("out of memory")]
    NoMemory,
    /// The first pair (r, s) whose forced value fails, with its equation N a = e.
    #[error("the equation of the constant of two roots has no solution")]
    Constant(RootId, RootId, i128, i128),
    /// The first term that isn't whole, at i r + j s.
    #[error("the coefficient of a term of two roots is not whole")]
    Fraction(RootId, RootId, u8, u8),
    /// The first simple index i and root s whose sign is not as it should be, and the sign.
    #[error("the sign of the simple index {} and the root {} is {}", .0, .1.number(), .2)]
    Sign(usize, RootId, i128),
    /// The first pair i < j whose braid value is not 1, and the value.
    #[error("the braid value of {0} and {1} is {2}")]
    Braid(usize, usize, i128),
    /// The carrier has more than 1,024 weights.
    #[error("the carrier has {0} weights, or more where that is 1025")]
    CarrierWide(u64),
    /// The first weight of the carrier with a coordinate above 1,000,000 in absolute value.
    #[error("weight {0} of the carrier has a coordinate above 1000000 in absolute value")]
    Heavy(usize),
    /// The first root and power whose matrix on an orbit of the carrier could reach 2^126.
    #[error("the matrix of root {} and power {} on the carrier could reach 2^126", .0.number(), .1)]
    Huge(RootId, u32),
    /// The root r, the power k, the row and the column of an entry of the carrier that is not graded.
    #[error("row {} and column {} of the power {} of the root {} are not graded on the carrier", .2, .3, .1, .0.number())]
    Graded(RootId, u32, usize, usize),
    /// The first relation whose sizes on the carrier are too large.
    #[error("the sizes of the relation {0:?} on the carrier are too large")]
    Large(Rel),
    /// The first relation that fails on the carrier, and the coefficients of t^et u^eu on its two sides.
    #[error("the relation {rel:?} has {left} on the left and {right} on the right, on the carrier")]
    Relation {
        rel: Rel,
        row: usize,
        col: usize,
        et: i32,
        eu: i32,
        left: i128,
        right: i128,
    },
    /// The first positive root whose matrix on the carrier is 0 over the field.
    #[error("the matrix of root {} on the carrier is 0 over the field", .0.number())]
    Dead(RootId),
}

impl From<AllocError> for LoadFault {
    ghost from_gives = { λ _ e. e ≡ NoMemory };

    fn from(_e: AllocError) -> LoadFault {
        LoadFault::NoMemory
    }
}

impl From<ConstFault> for LoadFault {
    ghost use Rattle.lie_group.specs.Loading.{constants_fault};

    ghost from_gives = { λ why e. e ≡ constants_fault why };

    fn from(why: ConstFault) -> LoadFault {
        match why {
            ConstFault::NoMemory => LoadFault::NoMemory,
            ConstFault::Constant(r, s, a, e) => LoadFault::Constant(r, s, a, e),
            ConstFault::Fraction(r, s, i, j) => LoadFault::Fraction(r, s, i, j),
        }
    }
}

impl From<SignFault> for LoadFault {
    ghost use Rattle.lie_group.specs.Loading.{signs_fault};

    ghost from_gives = { λ why e. e ≡ signs_fault why };

    fn from(why: SignFault) -> LoadFault {
        match why {
            SignFault::NoMemory => LoadFault::NoMemory,
            SignFault::Sign(i, s, value) => LoadFault::Sign(i, s, value),
        }
    }
}

impl From<BraidFault> for LoadFault {
    ghost use Rattle.lie_group.specs.Loading.{braid_fault};

    ghost from_gives = { λ why e. e ≡ braid_fault why };

    fn from(why: BraidFault) -> LoadFault {
        LoadFault::Braid(why.i, why.j, why.value)
    }
}

impl From<AuditFault> for LoadFault {
    ghost use Rattle.lie_group.specs.Groups.{audits_fault};

    ghost from_gives = { λ why e. e ≡ audits_fault why };

    fn from(why: AuditFault) -> LoadFault {
        match why {
            AuditFault::NoMemory => LoadFault::NoMemory,
            AuditFault::Graded(r, k, row, col) => LoadFault::Graded(r, k, row, col),
            AuditFault::Large(rel) => LoadFault::Large(rel),
            AuditFault::Relation {
                rel,
                row,
                col,
                et,
                eu,
                left,
                right,
            } => LoadFault::Relation {
                rel,
                row,
                col,
                et,
                eu,
                left,
                right,
            },
        }
    }
}
