//! A session in talk: lines come in pieces, and each is replied to as soon as it is whole.
ghost use Rattle.std.specs.Prelude.{◌≡◌, ◌+◌, ◌<◌, ◌^◌, false, [], length, IfOk};
ghost use Rattle.lie_session.specs.Lines.{without_cr};
ghost use Rattle.lie_session.specs.State.{fresh};
ghost use Rattle.lie_session.specs.Steps.{Answered, Heard, HeardLast};

use crate::cutting::trimmed;
use crate::mode::Mode;
use crate::output::{WriteStop, write_all};
use crate::session::Session;
use lie_kit::Sink;
use lie_script::{Fed, Lines};
use std::alloc::{AllocError, Global};

/// A session, the line that waits for its LF, and how many lines were replied to.
#[derive(Drop)]
pub(crate) struct Talk {
    pub session: Session,
    pub lines: Lines,
    pub number: u64,
}

/// Replies to one line.
fn reply_to<K: Sink>(
    alloc: Global,
    session: &mut Session,
    number: u64,
    line: &[u8],
    sink: &mut K,
) -> Result<(), WriteStop>
    requires { session.old.ended ≡ false }
    ensures { Answered session.old number line.now session.new (K.written sink.old) (K.faults sink.old) result (K.written sink.new) (K.faults sink.new) }
{
    match session.line(alloc, number, line) {
        Ok(reply) => write_all(sink, reply.bytes.bytes()),
        Err(_) => Err(WriteStop::NoMemory),
    }
}

impl Talk {
    /// Nothing is heard yet.
    pub(crate) fn new(alloc: Global) -> Result<Talk, AllocError>
        ensures { IfOk result (λ talk. talk ≡ record { session = fresh; lines = []; number = 0 }) }
    {
        Ok(Talk {
            session: Session::new(alloc),
            lines: Lines::new(alloc)?,
            number: 0,
        })
    }

    /// Replies to the line that waits, and begins the next.
    fn reply<K: Sink>(&mut self, alloc: Global, sink: &mut K) -> Result<(), WriteStop>
        requires live { self.old.session.ended ≡ false }
        requires few { self.old.number + 1 < 2 ^ 64 }
        ensures answered { Answered self.old.session (self.old.number + 1) (without_cr self.old.lines) self.new.session (K.written sink.old) (K.faults sink.old) result (K.written sink.new) (K.faults sink.new) }
        ensures number { self.new.number ≡ self.old.number + 1 }
        ensures lines { self.new.lines ≡ [] }
    {
        self.number += 1;
        let result = reply_to(
            alloc,
            &mut self.session,
            self.number,
            trimmed(self.lines.front()),
            sink,
        );
        self.lines.next();
        result
    }

    /// Replies to the lines that are whole with this piece. What is behind them waits.
    pub(crate) fn hear<K: Sink>(
        &mut self,
        alloc: Global,
        mode: Mode,
        piece: &[u8],
        sink: &mut K,
    ) -> Result<(), WriteStop>
        requires few { self.old.number + length piece.now < 2 ^ 64 }
        ensures { Heard mode piece.now self.old self.new (K.written sink.old) (K.written sink.new) (K.faults sink.old) (K.faults sink.new) result }
    {
        let mut rest = piece;
        'lines: while !mode.rests(&self.session) {
            match self.lines.feed(rest) {
                Fed::Part => return Ok(()),
                Fed::Line(count) => {
                    if let Err(stop) = self.reply(alloc, sink) {
                        return Err(stop);
                    }
                    rest = &rest[count..];
                }
            }
        }
        Ok(())
    }

    /// Replies to the last line, where it has no LF.
    pub(crate) fn hear_last<K: Sink>(
        &mut self,
        alloc: Global,
        mode: Mode,
        sink: &mut K,
    ) -> Result<(), WriteStop>
        requires few { self.old.number + 1 < 2 ^ 64 }
        ensures { HeardLast mode self.old self.new (K.written sink.old) (K.written sink.new) (K.faults sink.old) (K.faults sink.new) result }
    {
        if self.lines.waiting() && !mode.rests(&self.session) {
            return self.reply(alloc, sink);
        }
        Ok(())
    }
}
