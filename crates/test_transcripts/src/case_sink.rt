//! A sink in memory that finds no memory at listed calls.
ghost use Rattle.std.specs.Prelude.{◌<◌, Some, length};
ghost use Rattle.lie_kit.specs.Streams.{PushesSome, PushMoves, PushCounts};

use lie_kit::{MemSink, Push, Sink};

/// What a case writes into: a sink in memory, which is not reached at the calls with a number in `wants`,
/// counted from 1.
#[derive(Drop)]
pub struct CaseSink {
    memory: MemSink,
    wants: Vec<u64>,
    calls: u64,
}

impl CaseSink {
    pub fn new(memory: MemSink, wants: Vec<u64>) -> CaseSink {
        CaseSink {
            memory,
            wants,
            calls: 0,
        }
    }

    /// The bytes written so far.
    pub fn bytes(&self) -> &[u8] {
        self.memory.bytes()
    }
}

impl Sink for CaseSink {
    ghost written = { λ sink. Some sink.memory.written };

    ghost faults = { λ sink. sink.memory.faults };

    fn push(&mut self, from: &[u8]) -> Push {
        self.calls = self.calls.saturating_add(1);
        if self.wants.contains(&self.calls) {
            return Push::NoMemory;
        }
        self.memory.push(from)
    }
}
