//! The words that lines begin with.
ghost use Rattle.std.specs.Prelude.{◌≡◌};
ghost use Rattle.lie_script.specs.Reading.{keyword_of as keyword_read, is_command as commands, begins as begins_line};

use crate::sizes::Wants;

/// The first word of a line.
#[derive(Clone, Copy, Debug, Drop, PartialEq, Eq)]
pub enum Keyword {
    Field,
    Datum,
    Root,
    Coroot,
    Collect,
    Load,
    Form,
    Same,
    Mul,
    Inv,
    Roots,
    Constant,
    Weyl,
    Module,
    Weight,
    Entry,
    Cover,
    Matrix,
    Reduce,
    Row,
}

impl Keyword {
    /// Whether it is a command of a loaded group.
    pub(crate) fn is_command(self) -> bool
        ensures { result ≡ commands self }
    {
        match self {
            Keyword::Field | Keyword::Datum | Keyword::Root | Keyword::Coroot => false,
            Keyword::Collect | Keyword::Load => false,
            Keyword::Weight | Keyword::Entry | Keyword::Row => false,
            _ => true,
        }
    }

    /// Whether it is awaited.
    pub(crate) fn begins(self, wants: Wants) -> bool
        ensures { result ≡ begins_line self wants }
    {
        match wants {
            Wants::Field => self == Keyword::Field,
            Wants::Datum => self == Keyword::Datum,
            Wants::Root => self == Keyword::Root,
            Wants::Coroot => self == Keyword::Coroot,
            Wants::Load => self == Keyword::Collect || self == Keyword::Load,
            Wants::Command => self.is_command(),
            Wants::Weight => self == Keyword::Weight,
            Wants::Entry => self == Keyword::Entry,
            Wants::Row => self == Keyword::Row,
        }
    }
}

/// The word that the bytes spell.
#[tactic(auto, unfolding(crate::specs::Reading::keyword_of))]
pub(crate) fn keyword_of(bytes: &[u8]) -> Option<Keyword>
    ensures { result ≡ keyword_read bytes.now }
{
    if bytes == b"field".as_slice() {
        Some(Keyword::Field)
    } else if bytes == b"datum".as_slice() {
        Some(Keyword::Datum)
    } else if bytes == b"root".as_slice() {
        Some(Keyword::Root)
    } else if bytes == b"coroot".as_slice() {
        Some(Keyword::Coroot)
    } else if bytes == b"collect".as_slice() {
        Some(Keyword::Collect)
    } else if bytes == b"load".as_slice() {
        Some(Keyword::Load)
    } else if bytes == b"form".as_slice() {
        Some(Keyword::Form)
    } else if bytes == b"same".as_slice() {
        Some(Keyword::Same)
    } else if bytes == b"mul".as_slice() {
        Some(Keyword::Mul)
    } else if bytes == b"inv".as_slice() {
        Some(Keyword::Inv)
    } else if bytes == b"roots".as_slice() {
        Some(Keyword::Roots)
    } else if bytes == b"constant".as_slice() {
        Some(Keyword::Constant)
    } else if bytes == b"weyl".as_slice() {
        Some(Keyword::Weyl)
    } else if bytes == b"module".as_slice() {
        Some(Keyword::Module)
    } else if bytes == b"weight".as_slice() {
        Some(Keyword::Weight)
    } else if bytes == b"entry".as_slice() {
        Some(Keyword::Entry)
    } else if bytes == b"cover".as_slice() {
        Some(Keyword::Cover)
    } else if bytes == b"matrix".as_slice() {
        Some(Keyword::Matrix)
    } else if bytes == b"reduce".as_slice() {
        Some(Keyword::Reduce)
    } else if bytes == b"row".as_slice() {
        Some(Keyword::Row)
    } else {
        None
    }
}
