//! A session over the lines of a script, and the run of the program.
//!
//! `Session::line` replies to one line, and `lie` to all lines of a source. Contracts cite these files of `specs/`:
//!
//! - `Lines.antt`, a script as lines; `DatumLines.antt` and `Blocks.antt`, the lines of a datum and of a block
//! - `Named.antt`, the named modules with their cover lines; `Held.antt`, a loaded group; `State.antt`, the stage of a
//!   session, and the line that it awaits
//! - `Outcomes.antt`, what a line leads to; `Asked.antt`, the words whose forms are asked for, and the answers to `same`;
//!   `Faults.antt`, the words of the faults of calls
//! - `Replies.antt`, the reply to a line; `Changes.antt`, what it changes; `Output.antt`, the replies to a script
//! - `Tasks.antt`, what the words of the command line ask for; `Summary.antt`, the summary of a demonstration;
//!   `Runs.antt`, the cause of each status
//! - what the replies are worth: `Loaded.antt`, the loaded group and `matrix`; `Printed.antt`, forms and `same`;
//!   `Reduced.antt`, `reduce` and its rows; `Covered.antt`, `cover`; `OneOutput.antt`, that a script has one output
//!
//! `Settings.antt`, `Ready.antt`, `Obeyed.antt` and `Steps.antt` serve proofs alone. What a line says is read by `lie_script`, frames
//! and groups are made by `lie_group`, forms by `lie_bruhat`, matrices are reduced by `lie_reduce`, and texts are made by `lie_reply`. The
//! crate stands on these, on the crates below them, on `lie_kit`, and on `indexmap` for the table of named modules.
#![tactic(auto)]

mod block;
mod cutting;
mod datum;
mod demo;
mod ending;
mod faults;
mod group;
mod input;
mod mode;
mod modules;
mod output;
mod program;
mod reply;
mod rows;
mod session;
mod stage;
mod status;
mod table;
mod talk;
mod task;

pub use mode::Mode;
pub use program::lie;
pub use reply::{Kind, Reply};
pub use session::Session;
pub use status::Status;
pub use task::Task;
