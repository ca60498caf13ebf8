//! How a run ends.

/// The statuses of a run, numbered from 0 in this order. `specs/Runs.antt` says when each one comes.
#[derive(Clone, Copy, Debug, Drop, PartialEq, Eq)]
pub enum Status {
    /// The input was read to its end, or the summary of a demonstration was written, and every line was accepted.
    Done,
    /// A line after `load` was refused.
    Refused,
    /// The words of the command line aren't those of the program.
    Usage,
    /// A line up to and with `load` was refused, or the input ended before it.
    LoadRefused,
    /// The source failed.
    ReadFault,
    /// The sink failed.
    WriteFault,
    /// No memory was left, here or in the sink.
    NoMemory,
    /// The input has more than 16,777,216 bytes.
    TooLong,
}
