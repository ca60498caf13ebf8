//! Which numbers a field may spell.

/// The numbers that are allowed; each kind has its fault for the others.
#[derive(Clone, Copy, Debug, Drop, PartialEq, Eq)]
pub enum Allowed {
    /// From the first to the second; else `range`.
    Within(i128, i128),
    /// From the first to the second, but not 0; else `range`.
    NonzeroWithin(i128, i128),
    /// Indices of so many simple roots, counted from 1; else `simple`.
    SimpleOf(usize),
    /// Indices of so many simple roots, counted from 1, and their opposites; else `simple`.
    SignedSimpleOf(usize),
    /// Signed numbers of so many positive roots and their opposites, counted from 1; else `root`.
    RootOf(usize),
    /// Numbers of the elements of a field of so many elements; else `value`.
    ElementOf(u32),
}
