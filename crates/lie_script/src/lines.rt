//! Lines of a script, cut from pieces of its bytes.
ghost use Rattle.std.specs.Prelude.{◌≡◌, ◌≢◌, ◌↔◌, ◌++◌, [], true, take, IfOk};
ghost use Rattle.lie_script.specs.Lines.{IsFed, kept_limit};

use crate::fields::place_of;
use std::alloc::{AllocError, Global};
use std::marker::Model;

/// What a piece brought.
#[derive(Clone, Copy, Debug, Drop, PartialEq, Eq)]
pub enum Fed {
    /// The line is whole: its LF is the byte of this number in the piece, counted from 1.
    Line(usize),
    /// The piece has no LF.
    Part,
}

/// The most bytes of a line that are kept. A longer line is too long, with a CR at its end or without.
const KEPT: usize = 65_538;

/// The line that waits for its LF, with the memory for as many of its bytes as are kept.
#[derive(Drop)]
pub struct Lines {
    buffer: Vec<u8>,
    count: usize,
}

impl Model for Lines {
    ghost use Rattle.std.specs.Prelude.{◌≡◌, ◌≤◌, List, ℕ, take, length, vec_len};

    ghost Value = { List ℕ };

    ghost view = { λ s. take s.count s.buffer.items };

    ghost invariant = { λ s. (s.count ≤ 65538) × (vec_len s.buffer ≡ 65538) };
}

impl Lines {
    /// No line is begun. It takes the memory for 65,538 bytes, and the other calls take none.
    pub fn new(alloc: Global) -> Result<Lines, AllocError>
        ensures { IfOk result (λ lines. lines ≡ []) }
    {
        Ok(Lines {
            buffer: vec![in alloc; 0u8; KEPT]?,
            count: 0,
        })
    }

    /// Takes the bytes of a piece up to its first LF, or all of them. The LF itself isn't taken.
    pub fn feed(&mut self, piece: &[u8]) -> Fed
        ensures { IsFed self.old piece.now result self.new }
    {
        let end = place_of(b'\n', piece);
        self.keep(&piece[..end]);
        if end < piece.len() {
            Fed::Line(end + 1)
        } else {
            Fed::Part
        }
    }

    /// Keeps the bytes for which there is room.
    fn keep(&mut self, bytes: &[u8])
        ensures { self.new ≡ take kept_limit (self.old ++ bytes.now) }
    {
        let count = (KEPT - self.count).min(bytes.len());
        let end = self.count + count;
        self.buffer[self.count..end].copy_from_slice(&bytes[..count]);
        self.count = end;
    }

    /// The first bytes of the line that waits, at most 65,538.
    pub fn front(&self) -> &[u8]
        ensures { result.now ≡ self.now }
    {
        &self.buffer[..self.count]
    }

    /// Whether a line has begun.
    pub fn waiting(&self) -> bool
        ensures { (result ≡ true) ↔ (self.now ≢ []) }
    {
        self.count > 0
    }

    /// Begins the next line.
    pub fn next(&mut self)
        ensures { self.new ≡ [] }
    {
        self.count = 0;
    }
}
