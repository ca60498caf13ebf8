//! A module that is audited, with its cover lines.

ghost use Rattle.std.specs.Prelude.{◌≡◌, ◌≤◌, length, option_copied};
ghost use Rattle.lie_datum.specs.RootDatum.{IsWithin};
ghost use Rattle.lie_const.specs.Modules.{IsModule, dimension};
ghost use Rattle.lie_const.specs.Signs.{eta_of};
ghost use Rattle.lie_identities.specs.Audit.{HasLightWeights, MeetsIdentities};
ghost use Rattle.lie_identities.specs.Audited.{IsAudited};
ghost use Rattle.lie_identities.specs.CoverLines.{AddsCover, line_of, no_lines};
ghost use Rattle.lie_identities.specs.Covers.{Covers};

use crate::cover_lines::{CoverSet, CoverSum, first_different};
use crate::covering::{CoverFault, module_covers};
use lie_const::{Constants, Signs};
use lie_datum::Datum;
use lie_field::Field;
use lie_weight::Module;
use std::marker::Model;
use std::snapshot::Snapshot;

/// A module that is audited for a datum, its constants and its signs, which it keeps for clauses
/// alone: they take no memory. It keeps the cover lines that it was given.
#[derive(Drop)]
pub struct Audited {
    space: Module,
    datum: Snapshot<Datum>,
    constants: Snapshot<Constants>,
    signs: Snapshot<Signs>,
    lines: CoverSet,
}

impl Model for Audited {
    ghost use Rattle.lie_identities.specs.Audited.{AuditedModule, IsAudited};

    ghost Value = { AuditedModule };

    ghost view = { λ a. record { «module» = a.space; datum = a.datum.value; constants = a.constants.value; signs = a.signs.value; lines = a.lines } };

    ghost invariant = { λ a. IsAudited (record { «module» = a.space; datum = a.datum.value; constants = a.constants.value; signs = a.signs.value; lines = a.lines }) };
}

impl Audited {
    /// A module that meets the identities, without cover lines.
    pub(crate) fn of(datum: &Datum, consts: &Constants, signs: &Signs, space: Module) -> Audited
        requires shape { IsModule datum.now space }
        requires light { HasLightWeights space }
        requires meets { MeetsIdentities datum.now consts.now (eta_of signs.now) space }
        ensures { result ≡ record { «module» = space; datum = datum.now; constants = consts.now; signs = signs.now; lines = no_lines } }
    {
        datum.loaded();
        Audited {
            space,
            datum: Snapshot::of(datum),
            constants: Snapshot::of(consts),
            signs: Snapshot::of(signs),
            lines: CoverSet::new(),
        }
    }

    /// The module. It takes no memory.
    pub fn module(&self) -> &Module
        ensures value { result.now ≡ self.now.module }
        ensures audited { IsAudited self.now }
    {
        &self.space
    }

    /// Keeps a cover line for an axis, which counts from 1: a whole number for each weight. It is kept, in
    /// place of an earlier one, exactly where the combination of the weights is the unit vector of the axis;
    /// else the first coordinate at which it is not is told. It takes no memory.
    pub fn add_cover(&mut self, axis: usize, c: Vec<i64>) -> Result<(), CoverSum>
        requires axis { (1 ≤ axis) × (axis ≤ self.old.datum.base.dim) }
        requires count { length c.items ≡ dimension self.old.module }
        requires small { IsWithin 1000000 c.items }
        ensures adds { AddsCover self.old.module self.old.lines axis c.items result self.new.lines }
        ensures space { self.new.module ≡ self.old.module }
        ensures datum { self.new.datum ≡ self.old.datum }
        ensures constants { self.new.constants ≡ self.old.constants }
        ensures signs { self.new.signs ≡ self.old.signs }
    {
        match first_different(&self.space, &c, axis) {
            Some(sum) => Err(sum),
            None => {
                self.lines.set(axis, c);
                Ok(())
            }
        }
    }

    /// The cover line that is kept for an axis, which counts from 1. It takes no memory.
    pub fn cover(&self, axis: usize) -> Option<&[i64]>
        requires { (1 ≤ axis) × (axis ≤ self.now.datum.base.dim) }
        ensures { option_copied result ≡ line_of self.now.lines axis }
    {
        self.lines.get(axis)
    }

    /// Whether each positive root acts on the module over the field, and each axis is covered by its weights
    /// or by a cover line; or the first root, else axis, for which this fails. It takes no memory.
    pub fn covering(&self, field: &Field, datum: &Datum) -> Result<(), CoverFault>
        requires { datum.now ≡ self.now.datum }
        ensures { Covers field.now self.now.datum self.now.module self.now.lines result }
    {
        module_covers(field, datum, &self.space, &self.lines)
    }
}
