//! The status at the end of a run.
ghost use Rattle.std.specs.Prelude.{◌≡◌};
ghost use Rattle.lie_session.specs.State.{ended_status};
ghost use Rattle.lie_session.specs.Steps.{stop_status};

use crate::output::WriteStop;
use crate::session::Session;
use crate::status::Status;

/// The status after writing stopped.
pub(crate) fn stopped(stop: WriteStop) -> Status
    ensures { result ≡ stop_status stop }
{
    match stop {
        WriteStop::Fault => Status::WriteFault,
        WriteStop::NoMemory => Status::NoMemory,
    }
}

/// The status after the last reply.
pub(crate) fn status(session: &Session) -> Status
    ensures { result ≡ ended_status session.now }
{
    if !session.loaded() {
        return Status::LoadRefused;
    }
    if session.refusals() == 0 {
        Status::Done
    } else {
        Status::Refused
    }
}
