//! Scripts with a name, with which cases begin.

use crate::spelling::push_line;
use anyhow::{Context, Error, ensure};
use std::alloc::Global;

/// The bytes of a script, and its name.
#[derive(Drop)]
pub struct Script {
    name: String,
    bytes: Vec<u8>,
}

impl Script {
    /// The script of these lines, after those that the file has named before.
    pub fn read(
        alloc: Global,
        scripts: &[Script],
        name: &str,
        lines: &[String],
    ) -> Result<Script, Error> {
        let mut bytes = Vec::new(alloc);
        for line in lines {
            let taken = push_script_line(&mut bytes, scripts, line.as_str())?;
            ensure!(taken, "no line of a script begins so: {line}");
        }
        let name = String::from_str(alloc, name)?;
        Ok(Script { name, bytes })
    }
}

/// Appends what a line brings to a script, and says whether it is one of a script's lines: one line behind `>`, or
/// behind `from` the name of the script whose lines stand here.
pub fn push_script_line(
    bytes: &mut Vec<u8>,
    scripts: &[Script],
    line: &str,
) -> Result<bool, Error> {
    if let Some(name) = line.strip_prefix("from ") {
        let found = scripts.iter().find(|script| script.name.as_str() == name);
        let script = found.context("no script before has this name")?;
        bytes.extend_from_slice(script.bytes.as_slice())?;
        return Ok(true);
    }
    if line == ">" {
        push_line(bytes, "")?;
        return Ok(true);
    }
    let Some(spelled) = line.strip_prefix("> ") else {
        return Ok(false);
    };
    push_line(bytes, spelled)?;
    Ok(true)
}
