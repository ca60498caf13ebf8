//! A paragraph of the file: a remark, a script with a name, or a case.

use crate::case::Case;
use crate::replay::replay;
use crate::script::Script;
use crate::spelling::push_output;
use anyhow::{Error, bail, ensure};
use std::alloc::{AllocError, Global};

/// The paragraph of these lines as it came out: what was given, then the replies and the status of a case, or
/// what is wrong with the paragraph.
pub fn replayed(
    alloc: Global,
    scripts: &mut Vec<Script>,
    lines: &[String],
) -> Result<String, AllocError> {
    let mut text = String::new(alloc);
    for line in lines {
        if !is_answer(line.as_str()) {
            writeln!(text, "{line}")?;
        }
    }
    match push_answer(alloc, scripts, lines, &mut text) {
        Ok(()) => Ok(text),
        Err(error) => {
            writeln!(text, "wrong: {error}")?;
            Ok(text)
        }
    }
}

/// Whether a line says what came of a case.
fn is_answer(line: &str) -> bool {
    line.starts_with("< ") || line.starts_with("status ")
}

/// Appends what comes of a paragraph, and keeps the script that it names.
fn push_answer(
    alloc: Global,
    scripts: &mut Vec<Script>,
    lines: &[String],
    text: &mut String,
) -> Result<(), Error> {
    let Some((first, rest)) = lines.split_first() else {
        return Ok(());
    };
    if first.starts_with('#') {
        ensure!(
            rest.iter().all(|line| line.starts_with('#')),
            "a remark has lines with # alone"
        );
        return Ok(());
    }
    let Some((kind, name)) = first.split_once(' ') else {
        bail!("a paragraph begins with #, script or case");
    };
    match kind {
        "script" => {
            let script = Script::read(alloc, scripts, name, rest)?;
            scripts.push(script)?;
        }
        "case" => push_outcome(alloc, scripts, rest, text)?,
        _ => bail!("a paragraph begins with #, script or case"),
    }
    Ok(())
}

/// Appends the replies and the status of a case.
fn push_outcome(
    alloc: Global,
    scripts: &[Script],
    lines: &[String],
    text: &mut String,
) -> Result<(), Error> {
    let mut given = Vec::new(alloc);
    for line in lines {
        if !is_answer(line.as_str()) {
            given.push(line.clone()?)?;
        }
    }
    let case = Case::read(alloc, scripts, &given)?;
    let (status, sink) = replay(alloc, case);
    push_output(text, sink.bytes())?;
    writeln!(text, "status {status:?}")?;
    Ok(())
}
