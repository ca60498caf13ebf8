//! What a session tells the reader.

/// The kind of line that is awaited.
#[derive(Clone, Copy, Debug, Drop, PartialEq, Eq)]
pub enum Wants {
    Field,
    Datum,
    Root,
    Coroot,
    /// `load`, or `collect` before it.
    Load,
    Command,
    /// A weight of a `module .. table` line.
    Weight,
    /// An entry of a `module .. table` line.
    Entry,
    /// A row of the matrix of a `reduce` line.
    Row,
}

/// The sizes of the field, the datum and the block that is read, each 0 where there is none.
#[derive(Clone, Copy, Debug, Drop, PartialEq, Eq)]
pub struct Sizes {
    /// The number of coordinates.
    pub d: usize,
    /// The number of simple roots.
    pub l: usize,
    /// The number of positive roots.
    pub m: usize,
    /// The number of elements of the field.
    pub q: u32,
    /// The dimension of the block that is read.
    pub dim: usize,
    /// Whether a group is loaded.
    pub loaded: bool,
}
