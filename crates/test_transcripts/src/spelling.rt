//! Bytes spelled in printable characters.

use anyhow::{Context, Error, bail, ensure};
use std::alloc::AllocError;

/// The most copies of a part: one byte more than an input may have.
const MOST_COPIES: usize = 16_777_217;

/// Appends the bytes of a line of a script, and an LF unless the line ends with `\e`.
pub fn push_line(bytes: &mut Vec<u8>, line: &str) -> Result<(), Error> {
    match line.strip_suffix("\\e") {
        Some(open) => push_spelled(bytes, open),
        None => {
            push_spelled(bytes, line)?;
            bytes.push(b'\n')?;
            Ok(())
        }
    }
}

/// Appends the bytes that a text spells.
pub fn push_spelled(bytes: &mut Vec<u8>, text: &str) -> Result<(), Error> {
    let mut parts = text.split('\\');
    if let Some(plain) = parts.next() {
        bytes.extend_from_slice(plain.as_bytes())?;
    }
    for part in parts {
        push_escape(bytes, part)?;
    }
    Ok(())
}

/// Appends the bytes of an escape, given from behind its backslash up to the next one.
fn push_escape(bytes: &mut Vec<u8>, part: &str) -> Result<(), Error> {
    let plain = if let Some(rest) = part.strip_prefix('r') {
        bytes.push(b'\r')?;
        rest
    } else if let Some(rest) = part.strip_prefix('t') {
        bytes.push(b'\t')?;
        rest
    } else if let Some(rest) = part.strip_prefix('x') {
        let (digits, rest) = rest.split_at_checked(2).context("\\x has two digits")?;
        bytes.push(u8::from_str_radix(digits, 16)?)?;
        rest
    } else if let Some(rest) = part.strip_prefix('{') {
        let (repeated, rest) = rest.split_once('}').context("\\{ ends with a }")?;
        push_repeated(bytes, repeated)?;
        rest
    } else {
        bail!("no escape begins so: \\{part}");
    };
    bytes.extend_from_slice(plain.as_bytes())?;
    Ok(())
}

/// Appends the copies of `PART*COUNT`, where the part LF is a line feed.
fn push_repeated(bytes: &mut Vec<u8>, text: &str) -> Result<(), Error> {
    let (part, count) = text
        .split_once('*')
        .context("\\{ has a part, * and a count")?;
    let count = count.parse::<usize>().context("the count of copies")?;
    ensure!(count <= MOST_COPIES, "more than {MOST_COPIES} copies");
    let part = if part == "LF" { "\n" } else { part };
    if let &[byte] = part.as_bytes() {
        bytes.resize(bytes.len().saturating_add(count), byte)?;
        return Ok(());
    }
    for _copy in 0..count {
        bytes.extend_from_slice(part.as_bytes())?;
    }
    Ok(())
}

/// Appends an output: each line behind `< `, and `\e` where the last one has no LF.
pub fn push_output(text: &mut String, bytes: &[u8]) -> Result<(), AllocError> {
    let mut at_start = true;
    for &byte in bytes {
        if at_start {
            text.push_str("< ")?;
        }
        push_byte(text, byte)?;
        at_start = byte == b'\n';
    }
    if !at_start {
        text.push_str("\\e\n")?;
    }
    Ok(())
}

/// Appends a byte as the file spells it.
fn push_byte(text: &mut String, byte: u8) -> Result<(), AllocError> {
    match byte {
        b'\r' => text.push_str("\\r"),
        b'\t' => text.push_str("\\t"),
        b'\\' => text.push_str("\\x5C"),
        b'\n' | b' '..=b'~' => text.push(char::from(byte)),
        _ => write!(text, "\\x{byte:02X}"),
    }
}
