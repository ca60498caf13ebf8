//! The audit of a module.

ghost use Rattle.std.specs.Prelude.{◌≡◌, ◌⊎◌, Ok, IfOk, MatchResult};
ghost use Rattle.std.specs.List.{All};
ghost use Rattle.lie_mat.specs.Wide.{IsHugeMatrix};
ghost use Rattle.lie_const.specs.ConstantTables.{LoadsConstants};
ghost use Rattle.lie_const.specs.Modules.{IsModule};
ghost use Rattle.lie_const.specs.Signs.{IsSignTable, eta_of};
ghost use Rattle.lie_poly.specs.Polynomials.{laurent};
ghost use Rattle.lie_identities.specs.declared.faults.AuditFault.TheVariants.{NoMemory, Large};
ghost use Rattle.lie_identities.specs.AuditRelations.{side_size};
ghost use Rattle.lie_identities.specs.Audit.{Audits, HasLightWeights, IsGraded, IsMet, MeetsIdentities, IsAuditFault};
ghost use Rattle.lie_identities.specs.Audited.{audited_module, IsRelationFault};
ghost use Rattle.lie_identities.specs.CoverLines.{no_lines};
ghost use Rattle.lie_identities.specs.Sides.{HasRoot, IsRelationOf};

use crate::audited::Audited;
use crate::bounds::is_small;
use crate::compare::compare;
use crate::faults::AuditFault;
use crate::grading::first_ungraded;
use crate::listing::relations;
use crate::relations::Rel;
use crate::sides::{Side, left_side, right_side};
use crate::sizes::test_product;
use crate::steps::Steps;
use lie_const::{Constants, Signs};
use lie_datum::Datum;
use lie_ring::RingStop;
use lie_weight::Module;
use std::alloc::Global;

/// The module, audited for a datum, its constants and its signs, without cover lines; or what fails first.
pub fn audit(
    alloc: Global,
    datum: &Datum,
    consts: &Constants,
    signs: &Signs,
    space: Module,
) -> Result<Audited, AuditFault>
    requires constants { LoadsConstants datum.now (Ok consts.now) }
    requires signs { IsSignTable datum.now signs.now }
    requires shape { IsModule datum.now space }
    requires light { HasLightWeights space }
    ensures audits { Audits datum.now consts.now (eta_of signs.now) space (audited_module result) }
    ensures kept { IfOk result (λ a. a ≡ record { «module» = space; datum = datum.now; constants = consts.now; signs = signs.now; lines = no_lines }) }
{
    test_module(alloc, datum, consts, signs, &space)?;
    Ok(Audited::of(datum, consts, signs, space))
}

/// Tests the grading of a module, then its relations.
fn test_module(
    alloc: Global,
    datum: &Datum,
    consts: &Constants,
    signs: &Signs,
    space: &Module,
) -> Result<(), AuditFault>
    requires constants { LoadsConstants datum.now (Ok consts.now) }
    requires signs { IsSignTable datum.now signs.now }
    requires shape { IsModule datum.now space.now }
    requires light { HasLightWeights space.now }
    ensures { MatchResult result
        (λ _. MeetsIdentities datum.now consts.now (eta_of signs.now) space.now)
        (IsAuditFault datum.now consts.now (eta_of signs.now) space.now) }
{
    let steps = Steps::of(alloc, datum, space)?;
    match first_ungraded(&steps) {
        Some((r, k, row, col)) => Err(AuditFault::Graded(r, k, row, col)),
        None => test_relations(alloc, consts, signs, &steps),
    }
}

/// Tests the relations of a module that is graded.
fn test_relations(
    alloc: Global,
    consts: &Constants,
    signs: &Signs,
    steps: &Steps,
) -> Result<(), AuditFault>
    requires constants { LoadsConstants steps.now.datum.now (Ok consts.now) }
    requires signs { IsSignTable steps.now.datum.now signs.now }
    requires graded { IsGraded steps.now.datum.now steps.now.module.now }
    ensures { MatchResult result
        (λ _. MeetsIdentities steps.now.datum.now consts.now (eta_of signs.now) steps.now.module.now)
        (IsAuditFault steps.now.datum.now consts.now (eta_of signs.now) steps.now.module.now) }
{
    let rels = relations(alloc, steps.datum)?;
    for rel in &rels {
        test_relation(alloc, consts, signs, steps, *rel)?;
    }
    Ok(())
}

/// Tests a relation.
fn test_relation(
    alloc: Global,
    consts: &Constants,
    signs: &Signs,
    steps: &Steps,
    rel: Rel,
) -> Result<(), AuditFault>
    requires constants { LoadsConstants steps.now.datum.now (Ok consts.now) }
    requires signs { IsSignTable steps.now.datum.now signs.now }
    requires relation { IsRelationOf steps.now.datum.now rel }
    ensures { MatchResult result
        (λ _. IsMet steps.now.datum.now consts.now (eta_of signs.now) steps.now.module.now rel)
        (IsRelationFault steps.now.datum.now consts.now (eta_of signs.now) steps.now.module.now rel) }
{
    steps.datum.loaded();
    let left = left_side(alloc, steps.datum, rel)?;
    let right = right_side(alloc, steps.datum, consts, signs, rel)?;
    test_sizes(alloc, steps, rel, &left)?;
    test_sizes(alloc, steps, rel, &right)?;
    compare(alloc, steps, &rel, &left.factors, &right.factors)
}

/// Tests that a side of a relation is not large: by a bound, and by its sizes where that fails.
fn test_sizes(alloc: Global, steps: &Steps, rel: Rel, side: &Side) -> Result<(), AuditFault>
    requires { All (HasRoot steps.now.datum.now) side.now.factors.items }
    ensures { MatchResult result
        (λ _. ¬ IsHugeMatrix (side_size laurent steps.now.module.now side.now.factors.items))
        (λ e. (e ≡ NoMemory) ⊎ ((e ≡ Large rel) × IsHugeMatrix (side_size laurent steps.now.module.now side.now.factors.items))) }
{
    if is_small(steps, side) {
        return Ok(());
    }
    match test_product(alloc, steps, side) {
        Ok(()) => Ok(()),
        Err(RingStop::NoMemory) => Err(AuditFault::NoMemory),
        Err(RingStop::Wide) => Err(AuditFault::Large(rel)),
    }
}
