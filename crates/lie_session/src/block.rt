//! The block that is being read behind a command.
use crate::rows::Rows;
use crate::table::TableLines;

/// What was read of a block.
#[derive(Drop)]
pub(crate) enum Block {
    /// The rows behind `reduce`.
    Rows(Rows),
    /// The weights and entries behind `module .. table`.
    Table(TableLines),
}
