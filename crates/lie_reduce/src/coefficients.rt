//! Root elements, peeled off a matrix one after the other.

ghost use Rattle.std.specs.Prelude.{◌≡◌, ◌<◌, [], ◌∷◌, IfOk, MatchOption, length};
ghost use Rattle.lie_ring.specs.Matrices.{AllElem, product};
ghost use Rattle.lie_field.specs.FieldRing.{field_ring};
ghost use Rattle.lie_field.specs.Quotient.{order, neg};
ghost use Rattle.lie_datum.specs.RootList.{IsNumber};
ghost use Rattle.lie_const.specs.Modules.{IsModule, dimension};
ghost use Rattle.lie_letters.specs.declared.letter.Letter.TheVariants.{X};
ghost use Rattle.lie_identities.specs.Covers.{IsLiveAt};
ghost use Rattle.lie_audit.specs.WordMatrix.{word_matrix};
ghost use Rattle.lie_reduce.specs.PeelSteps.{IsNonzeroPlace, HasZerosAlone, IsCoefficient, ArePeeled};
ghost use Rattle.lie_reduce.specs.Reduction.{CoversFrame, Peels};
ghost use Rattle.lie_reduce.specs.Triangular.{IsSquare};
ghost use Rattle.lie_reduce.specs.UniqueForms.{IsCoveringFor};

use lie_audit::word_matrix;
use lie_datum::{Datum, RootId};
use lie_dense::Dense;
use lie_field::{Fe, Field};
use lie_identities::Audited;
use lie_letters::{Frame, Letter, Word};
use lie_unip::Unip;
use lie_weight::Module;
use std::alloc::{AllocError, Global};

/// The first place, row after row, whose entry is not 0.
pub(crate) fn nonzero_place(m: &Dense) -> Option<(usize, usize)>
    ensures { MatchOption result (HasZerosAlone m.now) (IsNonzeroPlace m.now) }
{
    let n = m.dim();
    for place in 0..n * n {
        if m.get(place / n, place % n) != Fe::zero() {
            return Some((place / n, place % n));
        }
    }
    None
}

/// The multiple of the root vector of r that a matrix has at a place where that vector has an entry.
fn coefficient(
    alloc: Global,
    field: &Field,
    datum: &Datum,
    space: &Module,
    m: &Dense,
    r: RootId,
) -> Result<Fe, AllocError>
    requires space { IsModule datum.now space.now }
    requires number { IsNumber datum.now r }
    requires live { IsLiveAt field.now space.now r }
    requires dimension { m.now.height ≡ dimension space.now }
    requires elem { AllElem (field_ring field.now) m.now }
    ensures { IfOk result (IsCoefficient field.now space.now r m.now) }
{
    let _ = datum.m();
    let vectors = Dense::of_ints(alloc, field, space.power(r, 1))?;
    let _ = m.dim();
    match nonzero_place(&vectors) {
        Some((row, col)) => Ok(field.mul(m.get(row, col), field.inv(vectors.get(row, col)))),
        None => unreachable!(),
    }
}

/// X_r(-a) times a matrix.
fn taken_off(
    alloc: Global,
    frame: &Frame,
    space: &Module,
    m: &Dense,
    r: RootId,
    a: Fe,
) -> Result<Dense, AllocError>
    requires space { IsModule frame.now.datum space.now }
    requires number { IsNumber frame.now.datum r }
    requires below { a < order frame.now.field.given }
    requires dimension { m.now.height ≡ dimension space.now }
    requires elem { AllElem (field_ring frame.now.field) m.now }
    ensures { IfOk result (λ rest. rest ≡ product (field_ring frame.now.field) (word_matrix frame.now.field space.now (X r (neg frame.now.field.given a) ∷ [])) m.now) }
{
    let Frame { field, datum, .. } = frame;
    let mut letter = Word::new(alloc);
    letter.push(Letter::X(r, field.neg(a)))?;
    let front = word_matrix(alloc, field, datum, space, &letter)?;
    front.mul(alloc, field, m)
}

/// An element for each positive root, in order, and what is left when their root elements are peeled
/// off a matrix.
fn peeled(
    alloc: Global,
    frame: &Frame,
    space: &Module,
    m: &Dense,
) -> Result<(Vec<Fe>, Dense), AllocError>
    requires covering { IsCoveringFor frame.now space.now }
    requires space { IsModule frame.now.datum space.now }
    requires square { IsSquare (field_ring frame.now.field) (dimension space.now) m.now }
    ensures { IfOk result (λ p. ArePeeled frame.now space.now m.now (length frame.now.datum.positive) p.0.items p.1) }
{
    let Frame { field, datum, .. } = frame;
    let mut entries = Vec::new(alloc);
    let mut rest = Dense::identity(alloc, field, space.dim())?.mul(alloc, field, m)?;
    for k in 0..datum.m() {
        let r = datum.root_at(k);
        let a = coefficient(alloc, field, datum, space, &rest, r)?;
        rest = taken_off(alloc, frame, space, &rest, r, a)?;
        entries.push(a)?;
    }
    Ok((entries, rest))
}

/// The list of elements whose root elements, in the order of the positive roots, have the product m;
/// None exactly where m is no product of root elements at positive roots.
pub fn peel(
    alloc: Global,
    frame: &Frame,
    audited: &Audited,
    m: &Dense,
) -> Result<Option<Unip<Field>>, AllocError>
    requires covers { CoversFrame frame.now audited.now }
    requires dimension { m.now.height ≡ dimension audited.now.module }
    requires elem { AllElem (field_ring frame.now.field) m.now }
    ensures { IfOk result (Peels frame.now audited.now.module m.now) }
{
    frame.lawful();
    let _ = m.dim();
    let space = audited.module();
    let (entries, rest) = peeled(alloc, frame, space, m)?;
    let one = Dense::identity(alloc, &frame.field, space.dim())?;
    if rest.same(&one) {
        Ok(Some(Unip::of(entries)))
    } else {
        Ok(None)
    }
}
