//! The reply to `constant`.
ghost use Rattle.std.specs.Prelude.{◌≡◌, ◌++◌, Ok, OnOk, IfOk};
ghost use Rattle.lie_const.specs.CommutatorTerms.{IsPair};
ghost use Rattle.lie_const.specs.ConstantTables.{LoadsConstants};
ghost use Rattle.lie_datum.specs.RootList.{IsNumber};
ghost use Rattle.lie_reply.specs.Commands.{ConstantTextOf};
ghost use Rattle.lie_reply.specs.Texts.{term_text, constant_text as text_of_constant};

use lie_const::{Constants, Term};
use lie_datum::{Datum, RootId};
use lie_script::{Text, put_number, put_spaced};
use std::alloc::{AllocError, Global};

/// The root of a number.
fn root_of(datum: &Datum, k: i32) -> RootId
    requires { IsNumber datum.now k }
    ensures { result ≡ k }
{
    match datum.id(k) {
        Some(root) => root,
        None => unreachable!(),
    }
}

/// Appends a term.
fn put_term(out: &mut Vec<u8>, term: &Term) -> Result<(), AllocError>
    ensures { OnOk result (out.new.items ≡ out.old.items ++ term_text term.now) }
{
    out.extend_from_slice(b" |")?;
    let numbers = [
        term.i as i128,
        term.j as i128,
        term.root.number() as i128,
        term.value,
    ];
    put_spaced(out, &numbers)
}

/// The text of a constant and of terms.
fn terms_text(alloc: Global, n: i128, terms: &[Term]) -> Result<Text, AllocError>
    ensures { IfOk result (λ text. text ≡ text_of_constant n terms.now) }
{
    let mut out = Vec::new(alloc);
    put_number(&mut out, n)?;
    'terms: for term in terms {
        put_term(&mut out, term)?;
    }
    out.extend_from_slice(b"\n")?;
    Ok(Text::of(out))
}

/// The text of N_pq and of the terms of p and q.
#[tactic(auto, using(crate::proofs::ConstantLemmas::within_table))]
pub fn constant_text(
    alloc: Global,
    datum: &Datum,
    constants: &Constants,
    p: i32,
    q: i32,
) -> Result<Text, AllocError>
    requires loads { LoadsConstants datum.now (Ok constants.now) }
    requires pair { IsPair datum.now p q }
    ensures { IfOk result (λ text. ConstantTextOf datum.now p q text) }
{
    let (p, q) = (root_of(datum, p), root_of(datum, q));
    terms_text(alloc, constants.n(p, q), constants.c(p, q))
}
