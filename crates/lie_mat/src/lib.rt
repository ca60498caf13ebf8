//! Sparse matrices over a ring.
//!
//! `Mat` stands for a matrix of lie_ring's `specs/Matrices.antt`: its shape and the list of its
//! rows. The entries that are not zero are kept, an ordered map for each column. `Mat::zero` makes a
//! matrix of zeros and `Mat::set` writes an entry; the operations make a matrix entry by entry, each
//! by a rule (`Entries`, and `build` for the crates above). `Mat::next_kept` walks a column. Rows and
//! columns count from 0, and a matrix has at most 1,024 of each.
//!
//! The contracts cite that file, and `specs/Wide.antt` for where an answer may be too large, and
//! `specs/Kept.antt` for how a column is walked.
//! `specs/Columns.antt` is how a matrix is kept, and `specs/Parts.antt` how it is filled. The laws of
//! the operations are those of lie_ring's `matrix_laws` and `matrix_images`. The crate stands on
//! `lie_ring` alone.
#![tactic(auto)]

mod columns;
mod comparisons;
mod entries;
mod mats;
mod operations;
mod rules;
mod sums;

pub use entries::{Entries, build};
pub use mats::Mat;
