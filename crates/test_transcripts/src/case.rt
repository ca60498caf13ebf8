//! A case: what the program is run with.
ghost use Rattle.std.specs.Prelude.{◌≤◌, IfOk};

use crate::script::{Script, push_script_line};
use crate::spelling::push_spelled;
use anyhow::{Context, Error, bail, ensure};
use std::alloc::Global;

/// What a line of a case may set, beside the lines of its script.
#[derive(Clone, Copy, Debug, PartialEq, Eq, Drop)]
enum Setting {
    Words,
    PullPiece,
    PushPiece,
    Pulls,
    Pushes,
    Wants,
}

impl Setting {
    /// What the line of this key sets, where `rest` stands behind the key.
    fn read(key: &str, rest: &str) -> Option<Setting> {
        match key {
            "words" => Some(Setting::Words),
            "pieces" => Some(Setting::PullPiece),
            "pulls" => Some(Setting::Pulls),
            "pushes" if rest.starts_with("of") => Some(Setting::PushPiece),
            "pushes" if rest.ends_with(" fail") => Some(Setting::Pushes),
            "pushes" => Some(Setting::Wants),
            _ => None,
        }
    }
}

/// The words of the command line, the input with the most bytes that come at a pull, the most bytes that a push
/// takes, and the numbers, counted from 1, of the pulls that fail, of the pushes that fail, and of the pushes that
/// find no memory.
#[derive(Drop)]
pub struct Case {
    pub words: Vec<String>,
    pub input: Vec<u8>,
    pub pull_piece: usize,
    pub push_piece: usize,
    pub pulls: Vec<u64>,
    pub pushes: Vec<u64>,
    pub wants: Vec<u64>,
    said: Vec<Setting>,
    ghost pulled: { 1 ≤ pull_piece },
    ghost pushed: { 1 ≤ push_piece },
}

impl Case {
    /// The case of these lines. Where they say nothing else, the word is `run`, pieces are of 65,536 bytes, a push
    /// takes all that it is given, and no call fails.
    pub fn read(alloc: Global, scripts: &[Script], lines: &[String]) -> Result<Case, Error> {
        let mut case = Case {
            words: words(alloc, "run")?,
            input: Vec::new(alloc),
            pull_piece: 65_536,
            push_piece: usize::MAX,
            pulls: Vec::new(alloc),
            pushes: Vec::new(alloc),
            wants: Vec::new(alloc),
            said: Vec::new(alloc),
        };
        for line in lines {
            case.take_line(alloc, scripts, line.as_str())?;
        }
        Ok(case)
    }

    /// Takes what a line says.
    fn take_line(&mut self, alloc: Global, scripts: &[Script], line: &str) -> Result<(), Error> {
        if push_script_line(&mut self.input, scripts, line)? {
            return Ok(());
        }
        let (key, rest) = line.split_once(' ').unwrap_or((line, ""));
        let Some(setting) = Setting::read(key, rest) else {
            bail!("no line of a case begins so: {line}");
        };
        ensure!(
            !self.said.contains(&setting),
            "a line before says this: {line}"
        );
        self.said.push(setting)?;
        self.set(alloc, setting, rest)
    }

    /// Sets what the rest of a line says.
    fn set(&mut self, alloc: Global, setting: Setting, rest: &str) -> Result<(), Error> {
        match setting {
            Setting::Words => self.words = words(alloc, rest)?,
            Setting::PullPiece => self.pull_piece = piece(rest)?,
            Setting::PushPiece => self.push_piece = piece(rest)?,
            Setting::Pulls => self.pulls = calls(alloc, rest, " fail")?,
            Setting::Pushes => self.pushes = calls(alloc, rest, " fail")?,
            Setting::Wants => self.wants = calls(alloc, rest, " find no memory")?,
        }
        Ok(())
    }
}

/// The words of the command line.
fn words(alloc: Global, text: &str) -> Result<Vec<String>, Error> {
    let mut words = Vec::new(alloc);
    for spelled in text.split_whitespace() {
        let mut bytes = Vec::new(alloc);
        push_spelled(&mut bytes, spelled)?;
        words.push(String::from_utf8(bytes)?)?;
    }
    Ok(words)
}

/// The most bytes that come at a pull, or that a push takes.
fn piece(text: &str) -> Result<usize, Error>
    ensures { IfOk result (λ piece. 1 ≤ piece) }
{
    let text = text.strip_prefix("of ").context("of how many bytes")?;
    let piece = text.parse::<usize>().context("how many bytes a piece has")?;
    ensure!(piece >= 1, "a piece has bytes");
    Ok(piece)
}

/// The numbers of calls, before the words that say what becomes of them.
fn calls(alloc: Global, text: &str, end: &str) -> Result<Vec<u64>, Error> {
    let text = text.strip_suffix(end).context("what becomes of the calls")?;
    let mut calls = Vec::new(alloc);
    for number in text.split_whitespace() {
        calls.push(number.parse::<u64>().context("the number of a call")?)?;
    }
    Ok(calls)
}
