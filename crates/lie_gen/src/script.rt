//! The script.

ghost use Rattle.std.specs.Prelude.{◌≡◌, ◌≤◌, ◌++◌, [], OnOk, IfOk};
ghost use Rattle.lie_gen.specs.Draws.{Puts};
ghost use Rattle.lie_gen.specs.Demonstration.{next_letter, word, commands_on as text_of_commands, commands, demonstration};

use crate::draws::Draws;
use crate::letters::put_letter;
use crate::samples::Sample;
use std::alloc::{AllocError, Global};

/// The words that are drawn.
const WORDS: u32 = 400;

/// The letters of a word.
const LETTERS: u32 = 40;

/// Appends a space and a letter.
fn put_next_letter(out: &mut Vec<u8>, draws: &mut Draws, sample: &Sample) -> Result<(), AllocError>
    ensures { OnOk result (Puts (next_letter sample.now) out.old.items draws.old out.new.items draws.new) }
{
    out.extend_from_slice(b" ")?;
    put_letter(out, draws, sample)
}

/// A word.
fn drawn_word(alloc: Global, draws: &mut Draws, sample: &Sample) -> Result<Vec<u8>, AllocError>
    ensures { IfOk result (λ w. Puts (word sample.now) [] draws.old w.items draws.new) }
{
    let mut out = Vec::new(alloc);
    put_letter(&mut out, draws, sample)?;
    for _ in 1..LETTERS {
        put_next_letter(&mut out, draws, sample)?;
    }
    Ok(out)
}

/// The three commands on a word.
fn commands_on(alloc: Global, w: &[u8]) -> Result<Vec<u8>, AllocError>
    ensures { IfOk result (λ text. text.items ≡ text_of_commands w.now) }
{
    let mut text = Vec::from_slice(alloc, b"form ")?;
    text.extend_from_slice(w)?;
    text.extend_from_slice(b"\ninv ")?;
    text.extend_from_slice(w)?;
    text.extend_from_slice(b"\nsame ")?;
    text.extend_from_slice(w)?;
    text.extend_from_slice(b" n1 n1 ; ")?;
    text.extend_from_slice(w)?;
    text.extend_from_slice(b"\n")?;
    Ok(text)
}

/// Appends the commands on a word that is drawn.
fn put_commands(
    alloc: Global,
    out: &mut Vec<u8>,
    draws: &mut Draws,
    sample: &Sample,
) -> Result<(), AllocError>
    ensures { OnOk result (Puts (commands sample.now) out.old.items draws.old out.new.items draws.new) }
{
    let w = drawn_word(alloc, draws, sample)?;
    let text = commands_on(alloc, &w)?;
    out.extend_from_slice(&text)
}

/// The script of a number: a field, a datum, and 1,200 commands.
pub fn generate(alloc: Global, n: u32) -> Result<Vec<u8>, AllocError>
    requires first { 1 ≤ n }
    requires last { n ≤ 999999 }
    ensures { IfOk result (λ script. script.items ≡ demonstration n) }
{
    let sample = Sample::of(n);
    let mut draws = Draws::from(n);
    let mut out = Vec::from_slice(alloc, b"field 2 2 1 1 2\n")?;
    out.extend_from_slice(sample.lines)?;
    out.extend_from_slice(b"load\n")?;
    for _ in 0..WORDS {
        put_commands(alloc, &mut out, &mut draws, &sample)?;
    }
    Ok(out)
}
