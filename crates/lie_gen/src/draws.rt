//! Numbers that are drawn.

ghost use Rattle.std.specs.Prelude.{◌≡◌, ◌≤◌, ◌<◌, ◌++◌, codes, OnOk};
ghost use Rattle.lie_gen.specs.Draws.{drawn, next, number, chosen, fixed, Puts};

use itoa::Buffer;
use std::alloc::AllocError;
use std::marker::Model;

/// What the states are taken modulo.
const MODULUS: u64 = 2_147_483_648;

/// The state of the generator of numbers.
#[derive(Drop)]
pub(crate) struct Draws {
    state: u64,
}

impl Model for Draws {
    ghost use Rattle.std.specs.Prelude.{ℕ, ◌<◌};

    ghost Value = { ℕ };

    ghost view = { λ d. d.state };

    ghost invariant = { λ d. d.state < 2147483648 };
}

impl Draws {
    /// The generator that starts at a number.
    pub(crate) fn from(n: u32) -> Draws
        requires { n < 2147483648 }
        ensures { result ≡ n }
    {
        Draws {
            state: u64::from(n),
        }
    }

    /// Draws a number below `m`.
    pub(crate) fn draw(&mut self, m: u32) -> u32
        requires { 1 ≤ m }
        ensures value { result ≡ drawn m self.old }
        ensures within { result < m }
        ensures state { self.new ≡ next self.old }
    {
        self.state = (1_103_515_245 * self.state + 12_345) % MODULUS;
        (self.state / 65_536 % u64::from(m)) as u32
    }
}

/// Appends a text for which nothing is drawn.
pub(crate) fn put_fixed(out: &mut Vec<u8>, draws: &mut Draws, text: &[u8]) -> Result<(), AllocError>
    ensures { OnOk result (Puts (fixed text.now) out.old.items draws.old out.new.items draws.new) }
{
    let _ = &*draws;
    out.extend_from_slice(text)
}

/// Appends a number from 1 to `m`.
pub(crate) fn put_number(out: &mut Vec<u8>, draws: &mut Draws, m: u32) -> Result<(), AllocError>
    requires first { 1 ≤ m }
    requires last { m ≤ 9 }
    ensures { OnOk result (Puts (number m) out.old.items draws.old out.new.items draws.new) }
{
    let n = 1 + draws.draw(m);
    let mut buffer = Buffer::new();
    out.extend_from_slice(buffer.format(n).as_bytes())
}

/// Appends the text, or nothing.
pub(crate) fn put_chosen(
    out: &mut Vec<u8>,
    draws: &mut Draws,
    text: &[u8],
) -> Result<(), AllocError>
    ensures { OnOk result (Puts (chosen text.now) out.old.items draws.old out.new.items draws.new) }
{
    if draws.draw(2) == 1 {
        return out.extend_from_slice(text);
    }
    Ok(())
}
