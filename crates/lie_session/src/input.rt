//! How much of the input is read.
ghost use Rattle.std.specs.Prelude.{◌≡◌, ◌≤◌, ◌<◌, ◌-◌, ◌+◌, min, max};
ghost use Rattle.lie_session.specs.Runs.{input_limit};

/// The most bytes of an input.
pub(crate) const LIMIT: usize = 16_777_216;

/// The most bytes that are asked for at once.
pub(crate) const PIECE: usize = 4096;

/// How many bytes to ask for next: no more than are left up to the limit, and at the limit one, which decides
/// whether the input ends there.
pub(crate) fn room(taken: usize) -> usize
    ensures some { 1 ≤ result }
    ensures piece { result ≤ 4096 }
    ensures limit { taken < input_limit → taken + result ≤ input_limit }
    ensures one { input_limit ≤ taken → result ≡ 1 }
{
    if taken < LIMIT {
        (LIMIT - taken).min(PIECE)
    } else {
        1
    }
}
