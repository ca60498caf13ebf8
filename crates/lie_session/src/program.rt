//! The run of the program.
ghost use Rattle.std.specs.Prelude.{◌≡◌, ◌≢◌, ◌+◌, ◌<◌, ◌≤◌, ◌^◌, ◌↔◌, false, [], map, Some, None};
ghost use Rattle.std.specs.String.{string_bytes};
ghost use Rattle.lie_session.specs.Output.{FieldsAreSized, DataAreLoaded};
ghost use Rattle.lie_session.specs.OneOutput.{OneOutputUpToCollect, OneOutput};
ghost use Rattle.lie_session.specs.Loaded.{GroupsAreLoaded, MatricesAreProducts, JoinedWordsHaveOneMatrix};
ghost use Rattle.lie_session.specs.Headline.{Headline};
ghost use Rattle.lie_session.specs.Covered.{CoverLinesAreKept};
ghost use Rattle.lie_session.specs.Runs.{input_limit, CauseOf, ReadCounts, WriteCounts, CompleteOf, ExceedsOf};
ghost use Rattle.lie_session.specs.Steps.{AnsweredAtEnd, Finished, Turned, Ran};
ghost use Rattle.lie_session.specs.State.{fresh};
ghost use Rattle.lie_session.specs.Tasks.{task_of};

use crate::demo::demonstrate;
use crate::ending::{status, stopped};
use crate::input::{LIMIT, PIECE, room};
use crate::mode::Mode;
use crate::output::{WriteStop, write_all};
use crate::session::Session;
use crate::status::Status;
use crate::talk::Talk;
use crate::task::{Task, asked};
use lie_kit::{Pull, Sink, Source};
use std::alloc::Global;

/// Replies to the end of the input.
fn reply_to_end<K: Sink>(
    alloc: Global,
    session: &mut Session,
    lines: u64,
    sink: &mut K,
) -> Result<(), WriteStop>
    requires { session.old.ended ≡ false }
    ensures { AnsweredAtEnd session.old lines session.new (K.written sink.old) (K.faults sink.old) result (K.written sink.new) (K.faults sink.new) }
{
    match session.end(alloc, lines) {
        Ok(reply) => write_all(sink, reply.bytes.bytes()),
        Err(_) => Err(WriteStop::NoMemory),
    }
}

/// Replies to what waits, and to the end of the input.
fn finish<K: Sink>(alloc: Global, mode: Mode, talk: &mut Talk, sink: &mut K) -> Status
    requires few { talk.old.number + 1 < 2 ^ 64 }
    ensures { Finished mode talk.old (K.written sink.old) (K.written sink.new) (K.faults sink.old) (K.faults sink.new) result }
{
    if let Err(stop) = talk.hear_last(alloc, mode, sink) {
        return stopped(stop);
    }
    if mode.rests(&talk.session) {
        return status(&talk.session);
    }
    if let Err(stop) = reply_to_end(alloc, &mut talk.session, talk.number, sink) {
        return stopped(stop);
    }
    status(&talk.session)
}

/// Asks for a piece, and replies to the lines that are whole with it: how many bytes came, or the status
/// where the run is over.
fn turn<S: Source, K: Sink>(
    alloc: Global,
    mode: Mode,
    talk: &mut Talk,
    taken: usize,
    source: &mut S,
    sink: &mut K,
) -> Result<usize, Status>
    requires few { talk.old.number ≤ taken }
    requires limit { taken ≤ input_limit }
    ensures { Turned mode taken talk.old talk.new (S.left source.old) (S.left source.new) (K.written sink.old) (K.written sink.new) (S.faults source.old) (S.faults source.new) (K.faults sink.old) (K.faults sink.new) result }
{
    let mut piece = [0u8; PIECE];
    match source.pull(&mut piece[..room(taken)]) {
        Pull::Took(count) => {
            if taken == LIMIT {
                return Err(Status::TooLong);
            }
            match talk.hear(alloc, mode, &piece[..count], sink) {
                Ok(()) => Ok(count),
                Err(stop) => Err(stopped(stop)),
            }
        }
        Pull::End => Err(finish(alloc, mode, talk, sink)),
        Pull::Failed => Err(Status::ReadFault),
    }
}

/// Replies to each line of the source, as the mode says, before it asks for more, in a talk in which nothing
/// was heard.
fn run_in<S: Source, K: Sink>(
    alloc: Global,
    mode: Mode,
    talk: &mut Talk,
    source: &mut S,
    sink: &mut K,
) -> Status
    requires fresh { talk.old ≡ record { session = fresh; lines = []; number = 0 } }
    ensures { Ran mode (S.left source.old) (S.left source.new) (K.written sink.old) (K.written sink.new) (S.faults source.old) (S.faults source.new) (K.faults sink.old) (K.faults sink.new) result }
{
    let mut taken = 0;
    for _turn in 0..LIMIT + 1 {
        match turn(alloc, mode, talk, taken, source, sink) {
            Ok(count) => taken += count,
            Err(status) => return status,
        }
    }
    unreachable!()
}

/// Replies to each line of the source.
fn run<S: Source, K: Sink>(alloc: Global, mode: Mode, source: &mut S, sink: &mut K) -> Status
    ensures { Ran mode (S.left source.old) (S.left source.new) (K.written sink.old) (K.written sink.new) (S.faults source.old) (S.faults source.new) (K.faults sink.old) (K.faults sink.new) result }
{
    match Talk::new(alloc) {
        Ok(mut talk) => run_in(alloc, mode, &mut talk, source, sink),
        Err(_) => Status::NoMemory,
    }
}

/// Does what the words of the command line ask for.
fn answer<S: Source, K: Sink>(
    alloc: Global,
    words: &[String],
    source: &mut S,
    sink: &mut K,
) -> Status
    ensures usage { (result ≡ Status.Usage) ↔ (task_of (map string_bytes words.now) ≡ None) }
    ensures cause { CauseOf (task_of (map string_bytes words.now)) (S.left source.old) (S.left source.new) (K.written sink.old) (K.written sink.new) result }
    ensures read { ReadCounts (S.faults source.old) (S.faults source.new) result }
    ensures written { WriteCounts (K.faults sink.old) (K.faults sink.new) result }
    ensures checked { task_of (map string_bytes words.now) ≡ Some (Task.Lines Mode.Check) → result ≢ Status.Refused }
{
    match asked(words) {
        Some(Task::Lines(mode)) => run(alloc, mode, source, sink),
        Some(Task::Demo(n)) => demonstrate(alloc, n, sink),
        None => Status::Usage,
    }
}

/// Runs the program: with the word `run`, the lines of the source are replied to in order, up to and
/// with the first fatal reply; with the word `check`, up to and with the reply to `load`, and later
/// lines are read to the end and not looked at. Each line is replied to as soon as it is whole. With the
/// words `demo n` the lines of a generated script are replied to, and one line sums the replies up. The
/// words are those of the command line without the program's name. Want of memory comes whenever the
/// allocator or the sink says so; no clause says when.
pub fn lie<S: Source, K: Sink>(
    alloc: Global,
    words: &[String],
    source: &mut S,
    sink: &mut K,
) -> Status
    ensures usage { (result ≡ Status.Usage) ↔ (task_of (map string_bytes words.now) ≡ None) }
    ensures cause { CauseOf (task_of (map string_bytes words.now)) (S.left source.old) (S.left source.new) (K.written sink.old) (K.written sink.new) result }
    ensures read { ReadCounts (S.faults source.old) (S.faults source.new) result }
    ensures written { WriteCounts (K.faults sink.old) (K.faults sink.new) result }
    ensures checked { task_of (map string_bytes words.now) ≡ Some (Task.Lines Mode.Check) → result ≢ Status.Refused }

    // Where nothing fails, the output is written whole, unless the input is too long.
    ensures complete { CompleteOf (task_of (map string_bytes words.now)) (S.left source.old) (K.written sink.old) (K.written sink.new) (S.faults source.old) (S.faults source.new) (K.faults sink.old) (K.faults sink.new) result }
    ensures exceeds { ExceedsOf (task_of (map string_bytes words.now)) (S.left source.old) (S.faults source.old) (S.faults source.new) result }

    // The headline: each word prints a form that is joined to it, and two words print the same bytes exactly if they are
    // joined; on a covering module a matrix is reduced to the form of each word that has it, or is refused where none has.
    ensures headline { Headline }

    // There is one output, but for the forms that `collect` prints.
    ensures one { OneOutput }
    ensures collected { OneOutputUpToCollect }

    // What the lines have brought: a field within its limits and a root datum that meets its demands; a loaded group is one,
    // with a carrier that is audited and covering; its named modules are built from it and audited; the reply to `matrix` has
    // the rows of the product of the matrices of the letters on such a module, and joined words have the same rows.
    ensures sized { FieldsAreSized }
    ensures sound { DataAreLoaded }
    ensures loaded { GroupsAreLoaded }
    ensures matrices { MatricesAreProducts }
    ensures joined_matrices { JoinedWordsHaveOneMatrix }

    // `cover` keeps a line for an axis exactly where its combination of the weights is the unit vector of the axis, and else names the first
    // coordinate that differs.
    ensures cover_lines { CoverLinesAreKept }
{
    answer(alloc, words, source, sink)
}
