//! How far the lines are replied to.
ghost use Rattle.std.specs.Prelude.{◌≡◌};
ghost use Rattle.lie_session.specs.Output.{rests};

use crate::session::Session;

/// How far the lines are replied to.
#[derive(Clone, Copy, Debug, Drop, PartialEq, Eq)]
pub enum Mode {
    /// To the end of the input.
    Run,
    /// Up to and with `load`.
    Check,
}

impl Mode {
    /// Whether the session replies to no more lines.
    pub(crate) fn rests(self, session: &Session) -> bool
        ensures { result ≡ rests self session.now }
    {
        match self {
            Mode::Run => session.ended(),
            Mode::Check => session.ended() || session.loaded(),
        }
    }
}
