//! The calls of a session: the kinds of its replies, and what it says of itself.
ghost use Rattle.std.specs.Prelude.{◌≡◌, false};

use lie_session::{Kind, Reply, Session};
use std::alloc::Global;
use std::process::Abort;
use std::test::Fail;

// The reply to a line; nothing is asked of it here, so that its contract stays out of the test's proof.
fn reply_to(alloc: Global, session: &mut Session, number: u64, line: &[u8]) -> Result<Reply, Fail>
    requires { session.old.ended ≡ false }
{
    Ok(session.line(alloc, number, line)?)
}

// A line that isn't awaited.
fn is_ended(rt: &impl Abort, alloc: Global, session: &mut Session) -> Result<(), Fail> {
    assert!(rt; !session.ended());
    let reply = reply_to(alloc, session, 1, b"form 1")?;
    assert_eq!(rt; reply.kind, Kind::Fatal);
    assert!(rt; session.ended());
    assert!(rt; !session.loaded());
    assert_eq!(rt; session.refusals(), 0);
    Ok(())
}

#[test]
fn a_fatal_reply_ends_a_session(rt: HostRuntime) -> Result<(), Fail> {
    let mut session = Session::new(rt.alloc());
    is_ended(&rt, rt.alloc(), &mut session)
}
