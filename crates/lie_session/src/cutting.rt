//! Lines and their ends.
ghost use Rattle.std.specs.Prelude.{◌≡◌, ◌≢◌, ◌<◌, nat_eq, [], ◌∷◌, length, position};
ghost use Rattle.lie_session.specs.Lines.{without_cr, lines_of};

/// A piece without one CR at its end.
pub(crate) fn trimmed(piece: &[u8]) -> &[u8]
    ensures { result.now ≡ without_cr piece.now }
{
    let count = piece.len();
    if count > 0 && piece[count - 1] == b'\r' {
        &piece[..count - 1]
    } else {
        piece
    }
}

/// The place of the first LF.
fn line_feed(script: &[u8]) -> Option<usize>
    ensures { result ≡ position (λ b. nat_eq b 10) script.now }
{
    script.iter().position(|b| *b == b'\n')
}

/// The first line of a script, and the script behind it.
pub(crate) fn first_line(script: &[u8]) -> (&[u8], &[u8])
    requires { script.now ≢ [] }
    ensures lines { lines_of script.now ≡ result.0.now ∷ lines_of result.1.now }
    ensures shorter { length result.1.now < length script.now }
{
    match line_feed(script) {
        Some(end) => (trimmed(&script[..end]), &script[end + 1..]),
        None => (trimmed(script), &[]),
    }
}
