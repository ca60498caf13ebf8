//! Writing to a sink.
ghost use Rattle.lie_session.specs.Steps.{PushOutcome};

use lie_kit::{Push, Sink};
use thiserror::Error;

/// Why writing stopped.
#[derive(Clone, Copy, Debug, Drop, Error)]
pub(crate) enum WriteStop {
    #[error("the sink failed")]
    Fault,
    #[error("no memory")]
    NoMemory,
}

/// Gives all bytes to the sink.
pub(crate) fn write_all<K: Sink>(sink: &mut K, bytes: &[u8]) -> Result<(), WriteStop>
    ensures { PushOutcome (K.written sink.old) (K.faults sink.old) bytes.now result (K.written sink.new) (K.faults sink.new) }
{
    let mut at = 0;
    while at < bytes.len() {
        match sink.push(&bytes[at..]) {
            Push::Gave(count) => at += count,
            Push::Failed => return Err(WriteStop::Fault),
            Push::NoMemory => return Err(WriteStop::NoMemory),
        }
    }
    Ok(())
}
