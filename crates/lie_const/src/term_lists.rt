//! Lists of terms, kept one after another.

ghost use Rattle.std.specs.Prelude.{◌≡◌, ◌<◌, ◌≤◌, ◌-◌, ◌++◌, [], ◌∷◌, IfOk, length, take, drop, slice_index_or};

use crate::term::Term;
use std::alloc::{AllocError, Global};
use std::marker::Model;

/// Lists of terms: all terms, and where those of each list begin. The last of these places is the number of terms.
#[derive(Drop)]
pub(crate) struct TermLists {
    terms: Vec<Term>,
    starts: Vec<usize>,
}

impl Model for TermLists {
    ghost use Rattle.std.specs.Prelude.{List};
    ghost use Rattle.lie_const.specs.declared.term.Term.{Term};

    ghost Value = { List (List Term) };

    ghost use Rattle.lie_const.specs.Layout.{parts, IsLayout};

    ghost view = { λ a. parts a.terms.items a.starts.items };

    ghost invariant = { λ a. IsLayout a.terms.items a.starts.items };
}

impl TermLists {
    /// No list.
    pub(crate) fn new(alloc: Global) -> Result<TermLists, AllocError>
        ensures { IfOk result (λ lists. lists ≡ []) }
    {
        Ok(TermLists {
            terms: Vec::new(alloc),
            starts: vec![in alloc; 0]?,
        })
    }

    /// The lists with one more at their end.
    pub(crate) fn pushed(self, list: &[Term]) -> Result<TermLists, AllocError>
        ensures { IfOk result (λ lists. lists ≡ self ++ list.now ∷ []) }
    {
        let TermLists {
            mut terms,
            mut starts,
        } = self;
        terms.extend_from_slice(list)?;
        starts.push(terms.len())?;
        Ok(TermLists { terms, starts })
    }

    /// The list at a place, counted from 0.
    pub(crate) fn list(&self, at: usize) -> &[Term]
        requires { at < length self.now }
        ensures { result.now ≡ slice_index_or self.now at [] }
    {
        between(&self.terms, self.starts[at], self.starts[at + 1])
    }
}

/// The part of a list from one place up to another.
fn between(terms: &[Term], start: usize, end: usize) -> &[Term]
    requires rising { start ≤ end }
    requires end { end ≤ length terms.now }
    ensures { result.now ≡ take (end - start) (drop start terms.now) }
{
    &terms[start..end]
}
