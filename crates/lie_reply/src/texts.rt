//! The texts of replies.
ghost use Rattle.std.specs.Prelude.{◌≡◌, ◌≤◌, ◌++◌, pos, length, OnOk, IfOk};
ghost use Rattle.lie_datum.specs.RootList.{root_of};
ghost use Rattle.lie_reply.specs.Texts.{same_text as text_of_same, loaded_text as text_of_load, root_text, roots_text as text_of_roots};

use lie_datum::Datum;
use lie_field::Field;
use lie_script::{Text, put_number, put_spaced};
use std::alloc::{AllocError, Global};

/// `yes` or `no`.
pub fn same_text(alloc: Global, joined: bool) -> Result<Text, AllocError>
    ensures { IfOk result (λ text. text ≡ text_of_same joined) }
{
    let answer = if joined { b"yes\n".as_slice() } else { b"no\n" };
    Ok(Text::of(Vec::from_slice(alloc, answer)?))
}

/// `loaded <elements of the field> <coordinates> <roots> <dimension of the carrier>`.
pub fn loaded_text(
    alloc: Global,
    field: &Field,
    datum: &Datum,
    dimension: usize,
) -> Result<Text, AllocError>
    ensures { IfOk result (λ text. text ≡ text_of_load field.now datum.now dimension) }
{
    let mut out = Vec::from_slice(alloc, b"loaded ")?;
    put_number(&mut out, field.q() as i128)?;
    out.extend_from_slice(b" ")?;
    put_number(&mut out, datum.d() as i128)?;
    out.extend_from_slice(b" ")?;
    put_number(&mut out, (2 * datum.m()) as i128)?;
    out.extend_from_slice(b" ")?;
    put_number(&mut out, dimension as i128)?;
    out.extend_from_slice(b"\n")?;
    Ok(Text::of(out))
}

/// Appends the line of a positive root, by its number.
fn put_root(out: &mut Vec<u8>, datum: &Datum, k: usize) -> Result<(), AllocError>
    requires first { 1 ≤ k }
    requires last { k ≤ length datum.now.positive }
    ensures { OnOk result (out.new.items ≡ out.old.items ++ root_text datum.now.base k (root_of datum.now (pos k))) }
{
    datum.loaded();
    let _m = datum.m();
    let Some(r) = datum.id(k as i32) else {
        unreachable!()
    };
    put_number(out, k as i128)?;
    put_spaced(out, &datum.coeffs(r)[..datum.l()])?;
    out.extend_from_slice(b" |")?;
    put_spaced(out, &datum.root(r)[..datum.d()])?;
    out.extend_from_slice(b" |")?;
    put_spaced(out, &datum.coroot(r)[..datum.d()])?;
    out.extend_from_slice(b"\n")
}

/// `roots <m>`, and a line for each positive root.
pub fn roots_text(alloc: Global, datum: &Datum) -> Result<Text, AllocError>
    ensures { IfOk result (λ text. text ≡ text_of_roots datum.now) }
{
    let mut out = Vec::from_slice(alloc, b"roots ")?;
    put_number(&mut out, datum.m() as i128)?;
    out.extend_from_slice(b"\n")?;
    let mut k = 0;
    'roots: while k < datum.m() {
        k += 1;
        put_root(&mut out, datum, k)?;
    }
    Ok(Text::of(out))
}
