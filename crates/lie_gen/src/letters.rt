//! Letters that are drawn.

ghost use Rattle.std.specs.Prelude.{◌≡◌, ◌≤◌, OnOk};
ghost use Rattle.lie_gen.specs.Draws.{Puts};
ghost use Rattle.lie_gen.specs.Demonstration.{root_letter, weyl_letter, next_element, torus_letter, letter};

use crate::draws::{Draws, put_chosen, put_fixed, put_number};
use crate::samples::Sample;
use std::alloc::AllocError;

/// Appends a root element, of one of `m` positive roots or of its negative.
fn put_root_letter(out: &mut Vec<u8>, draws: &mut Draws, m: u32) -> Result<(), AllocError>
    requires first { 1 ≤ m }
    requires last { m ≤ 9 }
    ensures { OnOk result (Puts (root_letter m) out.old.items draws.old out.new.items draws.new) }
{
    out.extend_from_slice(b"x")?;
    put_chosen(out, draws, b"-")?;
    put_number(out, draws, m)?;
    out.extend_from_slice(b"(")?;
    put_number(out, draws, 3)?;
    put_fixed(out, draws, b")")
}

/// Appends a Weyl representative, one of `l`, or its inverse.
fn put_weyl_letter(out: &mut Vec<u8>, draws: &mut Draws, l: u32) -> Result<(), AllocError>
    requires first { 1 ≤ l }
    requires last { l ≤ 9 }
    ensures { OnOk result (Puts (weyl_letter l) out.old.items draws.old out.new.items draws.new) }
{
    out.extend_from_slice(b"n")?;
    put_number(out, draws, l)?;
    put_chosen(out, draws, b"'")
}

/// Appends a comma and an element that is not 0.
fn put_next_element(out: &mut Vec<u8>, draws: &mut Draws) -> Result<(), AllocError>
    ensures { OnOk result (Puts next_element out.old.items draws.old out.new.items draws.new) }
{
    out.extend_from_slice(b",")?;
    put_number(out, draws, 3)
}

/// Appends a torus element with `d` entries.
fn put_torus_letter(out: &mut Vec<u8>, draws: &mut Draws, d: u32) -> Result<(), AllocError>
    requires { 1 ≤ d }
    ensures { OnOk result (Puts (torus_letter d) out.old.items draws.old out.new.items draws.new) }
{
    out.extend_from_slice(b"h(")?;
    put_number(out, draws, 3)?;
    for _ in 1..d {
        put_next_element(out, draws)?;
    }
    put_fixed(out, draws, b")")
}

/// Appends a letter, of a kind that is drawn.
pub(crate) fn put_letter(
    out: &mut Vec<u8>,
    draws: &mut Draws,
    sample: &Sample,
) -> Result<(), AllocError>
    ensures { OnOk result (Puts (letter sample.now) out.old.items draws.old out.new.items draws.new) }
{
    match draws.draw(3) {
        0 => put_root_letter(out, draws, sample.positive),
        1 => put_weyl_letter(out, draws, sample.rank),
        _ => put_torus_letter(out, draws, sample.rank),
    }
}
