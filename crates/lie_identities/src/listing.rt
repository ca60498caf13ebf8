//! The list of the relations that a module is audited for.

ghost use Rattle.std.specs.Prelude.{◌≡◌, ◌++◌, ◌∷◌, [], map, cond, IfOk, not, ◌&&◌, ltb, neg_ℤ, length};
ghost use Rattle.std.specs.List.{flat_map};
ghost use Rattle.std.specs.Ordering.{int_eq};
ghost use Rattle.lie_datum.specs.Numbers.{place};
ghost use Rattle.lie_datum.specs.RootList.{IsNumber};
ghost use Rattle.lie_identities.specs.declared.relations.Rel.TheVariants.{S1, S2, S6, S7};
ghost use Rattle.lie_identities.specs.AuditRelations.{root_numbers, partners, simple_indices, relations};

use crate::relations::Rel;
use lie_datum::{Datum, RootId};
use std::alloc::{AllocError, Global};

/// All relations, in order.
pub(crate) fn relations(alloc: Global, datum: &Datum) -> Result<Vec<Rel>, AllocError>
    ensures { IfOk result (λ l. l.items ≡ relations datum.now) }
{
    let mut list = Vec::new(alloc);
    push_s1(datum, &mut list)?;
    push_s2(datum, &mut list)?;
    push_s6(datum, &mut list)?;
    push_s7(datum, &mut list)?;
    Ok(list)
}

/// Adds S1 for each root.
fn push_s1(datum: &Datum, list: &mut Vec<Rel>) -> Result<(), AllocError>
    ensures { IfOk result (λ _. list.new.items ≡ list.old.items ++ map S1 (root_numbers datum.now)) }
{
    for place in 0..datum.root_count() {
        list.push(Rel::S1(datum.root_at(place)))?;
    }
    Ok(())
}

/// Adds S2 for each two roots that are not opposite, the first before the second.
fn push_s2(datum: &Datum, list: &mut Vec<Rel>) -> Result<(), AllocError>
    ensures { IfOk result (λ _. list.new.items
        ≡ list.old.items ++ flat_map (λ r. map (S2 r) (partners datum.now r)) (root_numbers datum.now)) }
{
    for place in 0..datum.root_count() {
        push_partners(datum, datum.root_at(place), list)?;
    }
    Ok(())
}

/// Adds S2 for a root and each later root that is not its opposite.
fn push_partners(datum: &Datum, r: RootId, list: &mut Vec<Rel>) -> Result<(), AllocError>
    requires { IsNumber datum.now r }
    ensures { IfOk result (λ _. list.new.items ≡ list.old.items ++ map (S2 r) (partners datum.now r)) }
{
    for place in 0..datum.root_count() {
        let s = datum.root_at(place);
        push_if(is_partner(datum, r, s), Rel::S2(r, s), list)?;
    }
    Ok(())
}

/// Whether s comes after r and is not its opposite.
fn is_partner(datum: &Datum, r: RootId, s: RootId) -> bool
    requires r { IsNumber datum.now r }
    requires s { IsNumber datum.now s }
    ensures { let m = length datum.now.positive in
        result ≡ (ltb (place m r) (place m s) && not (int_eq s (neg_ℤ r))) }
{
    datum.loaded();
    r.place(datum.m()) < s.place(datum.m()) && s != r.opposite()
}

/// Adds a relation if it is wanted.
fn push_if(wanted: bool, rel: Rel, list: &mut Vec<Rel>) -> Result<(), AllocError>
    ensures { IfOk result (λ _. list.new.items ≡ list.old.items ++ cond wanted (rel ∷ []) []) }
{
    if wanted {
        list.push(rel)?;
    }
    Ok(())
}

/// Adds S6 for each simple index.
fn push_s6(datum: &Datum, list: &mut Vec<Rel>) -> Result<(), AllocError>
    ensures { IfOk result (λ _. list.new.items ≡ list.old.items ++ map S6 (simple_indices datum.now)) }
{
    for i in 0..datum.l() {
        list.push(Rel::S6(i + 1))?;
    }
    Ok(())
}

/// Adds S7 for each simple index and each root.
fn push_s7(datum: &Datum, list: &mut Vec<Rel>) -> Result<(), AllocError>
    ensures { IfOk result (λ _. list.new.items
        ≡ list.old.items ++ flat_map (λ i. map (S7 i) (root_numbers datum.now)) (simple_indices datum.now)) }
{
    for i in 0..datum.l() {
        push_images(datum, i + 1, list)?;
    }
    Ok(())
}

/// Adds S7 for a simple index and each root.
fn push_images(datum: &Datum, i: usize, list: &mut Vec<Rel>) -> Result<(), AllocError>
    ensures { IfOk result (λ _. list.new.items ≡ list.old.items ++ map (S7 i) (root_numbers datum.now)) }
{
    for place in 0..datum.root_count() {
        list.push(Rel::S7(i, datum.root_at(place)))?;
    }
    Ok(())
}
