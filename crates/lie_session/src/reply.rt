//! Replies.
ghost use Rattle.std.specs.Prelude.{◌≡◌};
ghost use Rattle.lie_session.specs.Summary.{is_heard as says_something, is_refusal as is_kind_of_refusal};

use lie_script::Text;

/// The kinds of replies.
#[derive(Clone, Copy, Debug, Drop, PartialEq, Eq)]
pub enum Kind {
    /// The line is accepted, and there is nothing to say.
    Silent,
    /// The line is accepted and answered.
    Answer,
    /// A line after `load`, or the end in a block, is refused; a line leaves the session open.
    Refused,
    /// A line up to and with `load`, or the end before it, is refused; the session is ended.
    Fatal,
}

impl Kind {
    /// Whether a reply of this kind says something.
    pub(crate) fn is_heard(self) -> bool
        ensures { result ≡ says_something self }
    {
        match self {
            Kind::Silent => false,
            Kind::Answer | Kind::Refused | Kind::Fatal => true,
        }
    }

    /// Whether it is a refusal.
    pub(crate) fn is_refusal(self) -> bool
        ensures { result ≡ is_kind_of_refusal self }
    {
        match self {
            Kind::Silent | Kind::Answer => false,
            Kind::Refused | Kind::Fatal => true,
        }
    }
}

/// The reply to a line: its kind and its bytes, which end with an LF unless there are none.
#[derive(Drop)]
pub struct Reply {
    pub kind: Kind,
    pub bytes: Text,
}
