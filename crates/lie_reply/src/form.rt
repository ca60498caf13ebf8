//! The reply to `form`.
ghost use Rattle.std.specs.Prelude.{IfOk};
ghost use Rattle.lie_reply.specs.Commands.{TellsForm};
ghost use Rattle.lie_unip.specs.Forms.{IsForm};

use lie_letters::Frame;
use lie_script::{Text, put_form};
use lie_unip::Form;
use std::alloc::{AllocError, Global};

/// The text of a form.
pub fn form_text(alloc: Global, frame: &Frame, f: &Form) -> Result<Text, AllocError>
    requires form { IsForm frame.now f.now }
    ensures { IfOk result (TellsForm frame.now.datum f.now) }
{
    let mut out = Vec::new(alloc);
    put_form(alloc, &mut out, frame, f)?;
    out.push(b'\n')?;
    Ok(Text::of(out))
}
