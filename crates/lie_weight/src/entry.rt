//! An entry of a module that a table gives.

/// An entry of a matrix E_r^(k), where r is a simple root or the negative of one.
#[derive(Clone, Copy, Debug, PartialEq, Eq)]
pub struct Entry {
    /// The signed number of r.
    pub simple: i32,
    /// The power k.
    pub power: u32,
    /// The row, counted from 1.
    pub row: usize,
    /// The column, counted from 1.
    pub col: usize,
    /// What stands there.
    pub value: i128,
}
