//! A module with the entries of its divided powers, by root and by column.

ghost use Rattle.std.specs.Prelude.{◌≡◌, ℕ, pos, ◌+◌, ◌*◌, ◌^◌, ◌<◌, ◌≤◌, ◌++◌, map, length, IfOk, OnOk, nat_abs, unsigned_abs};
ghost use Rattle.lie_ring.specs.Matrices.{entry};
ghost use Rattle.lie_datum.specs.RootList.{IsNumber};
ghost use Rattle.lie_const.specs.Modules.{IsModule, dimension, top, divided_power};
ghost use Rattle.lie_identities.specs.Audit.{HasLightWeights};
ghost use Rattle.lie_identities.specs.Columns.{HasLightPairings};
ghost use Rattle.lie_identities.specs.StepLists.{steps_in, steps_of, root_steps, all_steps, HasSmallColumn, HasSmallColumns, HasSmallEntries, HasFewPowers};

use lie_datum::{Datum, RootId};
use lie_weight::Module;
use std::alloc::{AllocError, Global};

/// An entry of a divided power in a column: the power k, the row and the value, which is not 0.
#[derive(Clone, Copy, Debug, PartialEq, Eq)]
pub(crate) struct Step {
    pub power: u32,
    pub row: usize,
    pub value: i128,
}

/// A module of a datum, with the entries of its divided powers by root and by column.
#[derive(Drop)]
pub(crate) struct Steps<'a> {
    pub datum: &'a Datum,
    pub module: &'a Module,
    lists: Vec<Vec<Vec<Step>>>,
    ghost is_module: { IsModule datum.now module.now },
    ghost light: { HasLightWeights module.now },
    ghost pairings: { HasLightPairings datum.now module.now },
    ghost thin: { dimension module.now ≤ 1024 },
    ghost few: { HasFewPowers module.now },
    ghost small: { HasSmallEntries module.now },
    ghost indexed: { map (λ c. map (λ s. s.items) c.items) lists.items ≡ all_steps module.now },
}

impl<'a> Steps<'a> {
    pub(crate) fn of(
        alloc: Global,
        datum: &'a Datum,
        module: &'a Module,
    ) -> Result<Steps<'a>, AllocError>
        requires shape { IsModule datum.now «module».now }
        requires light { HasLightWeights «module».now }
        ensures same_datum { IfOk result (λ s. s.datum.now ≡ datum.now) }
        ensures same_module { IfOk result (λ s. s.module.now ≡ «module».now) }
    {
        datum.loaded();
        let dim = module.dim();
        let mut lists = Vec::new(alloc);
        for place in 0..2 * datum.m() {
            lists.push(steps_of_root(alloc, module, dim, datum.root_at(place))?)?;
        }
        Ok(Steps {
            datum,
            module,
            lists,
        })
    }

    /// The greatest k with E_r^(k) not 0, or 0 where there is none.
    pub(crate) fn top(&self, r: RootId) -> u32
        requires { IsNumber self.now.datum.now r }
        ensures { result ≡ top self.now.module.now r }
    {
        self.module.top(r)
    }

    /// The entries in a column of the divided powers of a root, by rising power, then row.
    pub(crate) fn column(&self, r: RootId, col: usize) -> &[Step]
        requires r { IsNumber self.now.datum.now r }
        requires col { col < dimension self.now.module.now }
        ensures { result.now ≡ steps_of self.now.module.now r col }
    {
        &self.lists[r.place(self.datum.m())][col]
    }
}

/// The entries of the divided powers of a root, by column.
fn steps_of_root(
    alloc: Global,
    module: &Module,
    dim: usize,
    r: RootId,
) -> Result<Vec<Vec<Step>>, AllocError>
    requires dim { dim ≡ dimension «module».now }
    requires few { dim ≤ 1024 }
    requires r { unsigned_abs r ≤ «module».now.positive }
    ensures value { IfOk result (λ c. map (λ s. s.items) c.items ≡ root_steps «module».now r) }
    ensures few { OnOk result (top «module».now r ≤ 16384) }
    ensures small { OnOk result (HasSmallColumns «module».now r (dimension «module».now)) }
{
    let count = module.top(r);
    let mut columns = Vec::new(alloc);
    for col in 0..dim {
        columns.push(steps_of_column(alloc, module, r, count, col)?)?;
    }
    Ok(columns)
}

/// The entries in a column of the divided powers of a root.
fn steps_of_column(
    alloc: Global,
    module: &Module,
    r: RootId,
    count: u32,
    col: usize,
) -> Result<Vec<Step>, AllocError>
    requires r { unsigned_abs r ≤ «module».now.positive }
    requires count { count ≡ top «module».now r }
    requires col { col < dimension «module».now }
    ensures value { IfOk result (λ s. s.items ≡ steps_of «module».now r col) }
    ensures small { OnOk result (HasSmallColumn «module».now r count col) }
{
    let mut steps = Vec::new(alloc);
    for k in 0..count {
        push_steps(module, r, k + 1, col, &mut steps)?;
    }
    Ok(steps)
}

/// Adds the entries in a column of one divided power.
fn push_steps(
    module: &Module,
    r: RootId,
    power: u32,
    col: usize,
    steps: &mut Vec<Step>,
) -> Result<(), AllocError>
    requires r { unsigned_abs r ≤ «module».now.positive }
    requires first { 1 ≤ power }
    requires last { power ≤ top «module».now r }
    requires col { col < dimension «module».now }
    ensures value { IfOk result (λ _. steps.new.items ≡ steps.old.items ++ steps_in «module».now r col power) }
    ensures small { OnOk result ((a : ℕ) → a < dimension «module».now → nat_abs (entry (pos 0) (divided_power «module».now r power) a col) < 2 ^ 126) }
{
    let matrix = module.power(r, power);
    let mut from = 0;
    while let Some((row, value)) = matrix.next_kept(from, col) {
        steps.push(Step {
            power,
            row,
            value: *value,
        })?;
        from = row + 1;
    }
    Ok(())
}
