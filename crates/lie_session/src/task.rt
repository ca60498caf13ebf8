//! What the command line asks for.
ghost use Rattle.std.specs.Prelude.{◌≡◌, map, IfSome};
ghost use Rattle.std.specs.String.{string_bytes};
ghost use Rattle.lie_session.specs.Tasks.{task_of, demo_number as number_of_demo, IsDemoNumber, IsAsked};

use crate::mode::Mode;
use lie_script::number_of;

/// What the program is to do.
#[derive(Clone, Copy, Debug, Drop, PartialEq, Eq)]
pub enum Task {
    /// To reply to the lines of the source.
    Lines(Mode),
    /// To reply to the lines of the demonstration of this number, and to write their summary.
    Demo(u32),
}

/// The number of a demonstration.
fn demo_number(word: &[u8]) -> Option<u32>
    ensures number { result ≡ number_of_demo word.now }
    ensures within { IfSome result IsDemoNumber }
{
    if word.first() == Some(&b'0') {
        return None;
    }
    match number_of(word) {
        Some(n) if 1 <= n && n <= 999_999 => Some(n as u32),
        _ => None,
    }
}

/// What the words of the command line ask for.
pub(crate) fn asked(words: &[String]) -> Option<Task>
    ensures task { result ≡ task_of (map string_bytes words.now) }
    ensures within { IfSome result IsAsked }
{
    match words {
        [word] if word.as_bytes() == b"run".as_slice() => Some(Task::Lines(Mode::Run)),
        [word] if word.as_bytes() == b"check".as_slice() => Some(Task::Lines(Mode::Check)),
        [word, n] if word.as_bytes() == b"demo".as_slice() => {
            Some(Task::Demo(demo_number(n.as_bytes())?))
        }
        _ => None,
    }
}
