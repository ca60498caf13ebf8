//! The factors of a side with the powers of their polynomials.

ghost use Rattle.std.specs.Prelude.{◌≡◌, ◌≤◌, map, IfOk};
ghost use Rattle.lie_const.specs.Modules.{top};
ghost use Rattle.lie_identities.specs.Columns.{IsNarrowSide};
ghost use Rattle.lie_identities.specs.Moves.{base_of, HasPowers};
ghost use Rattle.lie_identities.specs.Actions.{factor_of, HasPowersFor, HasNarrowPowers, IsNarrowFactor, AreActions};

use crate::factors::Factor;
use crate::narrow::{copied, narrow_product};
use crate::steps::Steps;
use lie_poly::Poly;
use std::alloc::{AllocError, Global};

/// A factor that has f, f^2, .. in the place of f.
pub(crate) type Action = Factor<Vec<Poly>>;

/// f, f^2, .. up to f^count, and f in any case.
fn powers(alloc: Global, f: &Poly, count: u32) -> Result<Vec<Poly>, AllocError>
    requires { HasNarrowPowers f.now count }
    ensures base { IfOk result (λ ps. base_of ps.items ≡ f.now) }
    ensures powers { IfOk result (λ ps. HasPowers count ps.items) }
{
    let mut powers = Vec::new(alloc);
    powers.push(copied(alloc, f)?)?;
    for k in 1..count {
        let next = narrow_product(alloc, &powers[k as usize - 1], f)?;
        powers.push(next)?;
    }
    Ok(powers)
}

/// A factor with its powers.
fn action(alloc: Global, steps: &Steps, factor: &Factor<Poly>) -> Result<Action, AllocError>
    requires { IsNarrowFactor steps.now.datum.now steps.now.module.now factor.now }
    ensures value { IfOk result (λ x. factor_of x ≡ factor.now) }
    ensures powers { IfOk result (HasPowersFor steps.now.module.now) }
{
    match factor {
        Factor::RootElement(r, f) => {
            let powers = powers(alloc, f, steps.top(*r))?;
            Ok(Factor::RootElement(*r, powers))
        }
        Factor::CorootElement(i) => Ok(Factor::CorootElement(*i)),
    }
}

/// The factors of a side with their powers.
pub(crate) fn actions(
    alloc: Global,
    steps: &Steps,
    factors: &[Factor<Poly>],
) -> Result<Vec<Action>, AllocError>
    requires { IsNarrowSide steps.now.datum.now steps.now.module.now factors.now }
    ensures same { IfOk result (λ xs. map factor_of xs.items ≡ factors.now) }
    ensures actions { IfOk result (λ xs. AreActions steps.now.datum.now steps.now.module.now xs.items) }
{
    let mut actions = Vec::new(alloc);
    for factor in factors {
        actions.push(action(alloc, steps, factor)?)?;
    }
    Ok(actions)
}
