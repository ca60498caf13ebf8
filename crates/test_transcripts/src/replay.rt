//! A case is run.

use crate::case::Case;
use crate::case_sink::CaseSink;
use lie_kit::{MemSink, MemSource};
use lie_session::{Status, lie};
use std::alloc::Global;

/// The status of a case, and the sink that has its output.
pub fn replay(alloc: Global, case: Case) -> (Status, CaseSink) {
    let mut source = MemSource::new(case.input, case.pull_piece, case.pulls);
    let memory = MemSink::pieces(alloc, case.push_piece, case.pushes);
    let mut sink = CaseSink::new(memory, case.wants);
    let status = run(alloc, &case.words, &mut source, &mut sink);
    (status, sink)
}

/// Calls the program. The clauses of `lie` are long, and in sight of each caller: so this has none.
fn run(alloc: Global, words: &[String], source: &mut MemSource, sink: &mut CaseSink) -> Status {
    lie(alloc, words, source, sink)
}
