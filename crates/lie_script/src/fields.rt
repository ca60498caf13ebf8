//! Fields of a line, with their columns.
ghost use Rattle.std.specs.Prelude.{◌≡◌, ◌<◌, ◌≤◌, true, false, length, vec_len, ℕ, slice_index, IfOk};
ghost use Rattle.lie_script.specs.Fields.{is_blank as blank, fields_of, foreign_from, place_of, before_last as bytes_before_last, behind_first as bytes_behind_first};
ghost use Rattle.lie_script.specs.LineFields.{spans, bytes_of};

use std::alloc::{AllocError, Global};

/// A field, where it lies in its line.
#[derive(Clone, Copy, Drop)]
pub(crate) struct LineField<'a> {
    /// The place of its first byte, counted from 1.
    pub column: usize,
    pub bytes: &'a [u8],
}

fn is_blank(b: u8) -> bool
    ensures { result ≡ blank b }
{
    b == b' ' || b == b'\t'
}

/// Where the field that begins at `start` ends.
fn field_end(line: &[u8], start: usize) -> usize
    requires { start < length line.now }
    ensures bound { (start < result) × (result ≤ length line.now) }
    ensures full { (k : ℕ) → start < k → k < result → blank (slice_index line.now k) ≡ false }
    ensures ends { result < length line.now → blank (slice_index line.now result) ≡ true }
{
    let mut end = start + 1;
    'end: while end < line.len() && !is_blank(line[end]) {
        end += 1;
    }
    end
}

/// The fields of a line, from left to right.
pub(crate) fn fields(alloc: Global, line: &[u8]) -> Result<Vec<LineField<'_>>, AllocError>
    ensures fields { IfOk result (λ v. spans v.items ≡ fields_of line.now) }
    ensures count { IfOk result (λ v. vec_len v ≤ length line.now) }
{
    let mut fields = Vec::new(alloc);
    let mut at = 0;
    'fields: while at < line.len() {
        if is_blank(line[at]) {
            at += 1;
        } else {
            let end = field_end(line, at);
            fields.push(LineField {
                column: at + 1,
                bytes: &line[at..end],
            })?;
            at = end;
        }
    }
    Ok(fields)
}

/// The column of the first byte that may not stand in a line.
pub(crate) fn foreign_column(line: &[u8]) -> Option<usize>
    requires { length line.now ≤ 65536 }
    ensures { result ≡ foreign_from 1 line.now }
{
    for (i, b) in line.iter().enumerate() {
        let plain = (*b >= b' ' && *b <= b'~') || *b == b'\t';
        if !plain {
            return Some(i + 1);
        }
    }
    None
}

/// The bytes behind c, where c is the first.
pub(crate) fn behind_first(c: u8, bytes: &[u8]) -> Option<&[u8]>
    ensures { bytes_of result ≡ bytes_behind_first c bytes.now }
{
    match bytes {
        [b, rest @ ..] if *b == c => Some(rest),
        _ => None,
    }
}

/// The bytes before c, where c is the last.
pub(crate) fn before_last(c: u8, bytes: &[u8]) -> Option<&[u8]>
    ensures { bytes_of result ≡ bytes_before_last c bytes.now }
{
    let count = bytes.len();
    if count > 0 && bytes[count - 1] == c {
        Some(&bytes[..count - 1])
    } else {
        None
    }
}

/// The place of the first c, counted from 0, or the end.
pub(crate) fn place_of(c: u8, bytes: &[u8]) -> usize
    ensures place { result ≡ place_of c bytes.now }
    ensures bound { result ≤ length bytes.now }
{
    for (i, b) in bytes.iter().enumerate() {
        if *b == c {
            return i;
        }
    }
    bytes.len()
}
