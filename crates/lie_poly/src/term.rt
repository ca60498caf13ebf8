//! A term of a Laurent polynomial.

/// The term `c t^i u^j`.
#[derive(Clone, Copy, Debug, PartialEq, Eq)]
pub(crate) struct Term {
    /// The exponents of t and of u.
    pub(crate) exponents: (i32, i32),
    pub(crate) coefficient: i128,
}
