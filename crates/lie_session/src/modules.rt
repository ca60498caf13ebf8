//! The named modules of a loaded group.
ghost use Rattle.std.specs.Prelude.{◌≡◌, ◌≤◌, ◌∷◌, ◌++◌, [], None, OnOk, OnErr, bytes_eq, length};
ghost use Rattle.std.specs.Option.{IfSome, option_copied};
ghost use Rattle.std.specs.List.{IsDistinct-prop};
ghost use Rattle.std.specs.Map.{keys_of};
ghost use Rattle.lie_const.specs.Modules.{dimension};
ghost use Rattle.lie_datum.specs.RootDatum.{IsWithin};
ghost use Rattle.lie_session.specs.Named.{audits_of, named_of, module_of, audited_of, listed_of, HasDistinctNames};
ghost use Rattle.lie_session.specs.Obeyed.{AddsTo};

use indexmap::IndexMap;
use lie_audit::{Audited, CoverSum};
use lie_script::Names;
use std::alloc::{AllocError, Global};
use std::marker::Model;

/// Audited modules by their names, in the order of making.
#[derive(Drop)]
pub(crate) struct Modules {
    table: IndexMap<Vec<u8>, Audited>,
    ghost distinct: { HasDistinctNames (named_of (audits_of table.entries)) } by { IsDistinct-prop bytes_eq (keys_of (named_of (audits_of table.entries))) },
}

impl Model for Modules {
    ghost use Rattle.lie_session.specs.Named.{NamedModules, named_code, audits_of};

    ghost Value = { NamedModules };

    ghost coded = { named_code };

    ghost view = { λ m. record { entries = audits_of m.table.entries; distinct = m.distinct } };
}

impl Modules {
    /// No modules. It takes no memory.
    pub(crate) fn new(alloc: Global) -> Modules
        ensures { result.entries ≡ [] }
    {
        Modules {
            table: IndexMap::new(alloc),
        }
    }

    /// Gives a module a new name, behind the others.
    pub(crate) fn push(
        &mut self,
        alloc: Global,
        name: &[u8],
        audited: Audited,
    ) -> Result<(), AllocError>
        requires { module_of (named_of self.old.entries) name.now ≡ None }
        ensures pushed { OnOk result (self.new.entries ≡ self.old.entries ++ (name.now, audited) ∷ []) }
        ensures left { OnErr result (self.new ≡ self.old) }
    {
        let name = Vec::from_slice(alloc, name)?;
        self.table.insert(name, audited)?;
        Ok(())
    }

    /// The audited module of a name.
    #[tactic(auto, using(crate::proofs::NamedLemmas::audited_found))]
    pub(crate) fn find(&self, name: &[u8]) -> Option<&Audited>
        ensures { option_copied result ≡ audited_of self.now.entries name.now }
    {
        self.table.get(name)
    }

    /// Adds a cover line for an axis, which counts from 1, to the module of a name; None where no module has it.
    pub(crate) fn add_cover(
        &mut self,
        name: &[u8],
        axis: usize,
        c: Vec<i64>,
    ) -> Option<Result<(), CoverSum>>
        requires first { 1 ≤ axis }
        requires fits { IfSome (audited_of self.old.entries name.now) (λ a. (axis ≤ a.datum.base.dim) × (length c.items ≡ dimension a.module)) }
        requires small { IsWithin 1000000 c.items }
        ensures { AddsTo self.old.entries name.now axis c.items result self.new.entries }
    {
        match self.table.get_mut(name) {
            Some(audited) => Some(audited.add_cover(axis, c)),
            None => None,
        }
    }
}

impl Names for Modules {
    ghost use Rattle.lie_session.specs.Named.{named_of, listed_of, listed_distinct};

    ghost listed = { λ m. listed_of (named_of m.entries) };

    ghost distinct = { λ m. listed_distinct (named_of m.entries) m.distinct };

    fn dim_of(&self, name: &[u8]) -> Option<usize> {
        match self.find(name) {
            Some(audited) => Some(audited.module().dim()),
            None => None,
        }
    }

    fn count(&self) -> usize {
        self.table.len()
    }
}
