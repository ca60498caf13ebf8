//! A session over the lines of a script.
ghost use Rattle.std.specs.Prelude.{◌≡◌, true, false, [], Err, IfOk, OnErr};
ghost use Rattle.lie_script.specs.Reading.{reads};
ghost use Rattle.lie_script.specs.Texts.{refusal as refusal_text};
ghost use Rattle.lie_session.specs.Changes.{Changes};
ghost use Rattle.lie_session.specs.Named.{listed_of};
ghost use Rattle.lie_session.specs.Replies.{Replies, RepliesAtEnd, Refuses, Tells, Does, DoesRead};
ghost use Rattle.lie_session.specs.State.{State, fresh, is_loaded, modules_of, wants_of, sizes_of};
ghost use Rattle.lie_session.specs.Ready.{Ready};

use crate::faults::CallFault;
use crate::reply::{Kind, Reply};
use crate::stage::Stage;
use lie_script::{FaultName, Line, Text, refusal};
use std::alloc::{AllocError, Global};
use std::marker::Model;

/// The reply to an accepted line that says nothing.
fn silent(alloc: Global) -> Reply
    ensures { result ≡ record { kind = Kind.Silent; bytes = [] } }
{
    Reply {
        kind: Kind::Silent,
        bytes: Text::of(Vec::new(alloc)),
    }
}

/// The reply to an accepted line that is answered.
fn answer(bytes: Text) -> Reply
    ensures { result ≡ record { kind = Kind.Answer; bytes = bytes } }
{
    Reply {
        kind: Kind::Answer,
        bytes,
    }
}

/// A session over the lines of a script.
#[derive(Drop)]
pub struct Session {
    stage: Stage,
    refusals: u64,
    ended: bool,
}

impl Model for Session {
    ghost use Rattle.lie_session.specs.State.{State};

    ghost Value = { State };

    ghost view = { λ s. record { stage = s.stage; refusals = s.refusals; ended = s.ended } };
}

impl Session {
    /// A session that has read nothing. It takes no memory.
    pub fn new(alloc: Global) -> Session
        ensures { result ≡ fresh }
    {
        Session {
            stage: Stage::Field,
            refusals: 0,
            ended: false,
        }
    }

    /// Whether no line is replied to any more.
    pub fn ended(&self) -> bool
        ensures { result ≡ self.now.ended }
    {
        self.ended
    }

    /// Whether a group is loaded.
    pub fn loaded(&self) -> bool
        ensures { result ≡ is_loaded self.now.stage }
    {
        self.stage.is_loaded()
    }

    /// How many replies were of kind `Refused`, at most the last `u64`.
    pub fn refusals(&self) -> u64
        ensures { result ≡ self.now.refusals }
    {
        self.refusals
    }

    /// Refuses a line, or the end, with this text: the reply is fatal before `load`. After it the reply is
    /// counted, and the block that was being read is dropped.
    fn refuse(
        &mut self,
        alloc: Global,
        number: u64,
        name: &[u8],
        numbers: &[i128],
    ) -> Result<Reply, AllocError>
        ensures refuses { IfOk result (λ reply. Refuses self.old (refusal_text number name.now numbers.now) reply self.new) }
        ensures left { OnErr result (self.new ≡ self.old) }
    {
        let bytes = refusal(alloc, number, name, numbers)?;
        if self.stage.is_loaded() {
            self.stage.drop_block();
            self.refusals = self.refusals.saturating_add(1);
            return Ok(Reply {
                kind: Kind::Refused,
                bytes,
            });
        }
        self.stage = Stage::Field;
        self.ended = true;
        Ok(Reply {
            kind: Kind::Fatal,
            bytes,
        })
    }

    /// Refuses a line for the fault of a call.
    fn refuse_for(
        &mut self,
        alloc: Global,
        number: u64,
        fault: &CallFault,
    ) -> Result<Reply, AllocError>
        ensures { IfOk result (λ reply. Tells self.old number (Err fault.now) reply self.new) }
    {
        let (name, numbers) = fault.words(alloc)?;
        self.refuse(alloc, number, name, &numbers)
    }

    /// Does what a line says.
    fn obey(&mut self, alloc: Global, number: u64, line: Line) -> Result<Reply, AllocError>
        requires { Ready self.old.stage line }
        ensures { IfOk result (λ reply. Does self.old number line reply self.new) }
    {
        match self.stage.obey(alloc, line) {
            Ok(Some(text)) => Ok(answer(text)),
            Ok(None) => Ok(silent(alloc)),
            Err(fault) => self.refuse_for(alloc, number, &fault),
        }
    }

    /// Reads a line, and does what it says.
    fn read(&mut self, alloc: Global, number: u64, line: &[u8]) -> Result<Reply, AllocError>
        ensures { IfOk result (λ reply. DoesRead self.old number reply self.new (reads (wants_of self.old.stage) (sizes_of self.old.stage) (listed_of (modules_of self.old.stage)) line.now)) }
    {
        match self.stage.read(alloc, line)? {
            Ok(said) => self.obey(alloc, number, said),
            Err(fault) => self.refuse(alloc, number, fault.name.text(), fault.numbers.list()),
        }
    }

    /// Replies to a line. `number` is its number, counted from 1, and stands in refusals.
    pub fn line(&mut self, alloc: Global, number: u64, line: &[u8]) -> Result<Reply, AllocError>
        requires { self.old.ended ≡ false }
        ensures replies { IfOk result (λ reply. Replies self.old number line.now reply self.new) }

        // A refused line leaves a loaded group but for its block, and a fatal reply ends the session.
        ensures changes { IfOk result (λ reply. Changes self.old reply.kind self.new) }
        ensures ended { OnErr result (self.new.ended ≡ true) }
    {
        let result = self.read(alloc, number, line);
        if result.is_err() {
            self.ended = true;
        }
        result
    }

    /// Replies to the end of the input, after so many lines: before `load` and in a block it is refused.
    pub fn end(&mut self, alloc: Global, lines: u64) -> Result<Reply, AllocError>
        requires { self.old.ended ≡ false }
        ensures replies { IfOk result (λ reply. RepliesAtEnd self.old lines reply self.new) }
        ensures ended { self.new.ended ≡ true }
    {
        self.ended = true;
        if self.stage.may_end() {
            return Ok(silent(alloc));
        }
        self.refuse(alloc, lines, FaultName::End.text(), &[])
    }
}
