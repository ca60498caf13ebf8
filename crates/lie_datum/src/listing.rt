//! From the closure to the list of the positive roots, and the roots in the full order.

ghost use Rattle.std.specs.Prelude.{◌≡◌, ◌≢◌, ℤ, pos, ◌≤◌, ◌<ℤ◌, IsTrue, ◌↔◌, IfOk, ◌++◌, map, length, MatchResult, ◌⊎◌};
ghost use Rattle.std.specs.List.{All, Any};
ghost use Rattle.std.specs.Ordering.{int_cmp};
ghost use Rattle.std.specs.Cmp.Lexicographic.{slice_cmp};
ghost use Rattle.std.specs.declared.cmp.Ordering.TheVariants.{Greater};
ghost use Rattle.lie_datum.specs.RootDatum.{IsMixed, IsPositive, IsUnmixed, IsCartan, IsSmall, opposite};
ghost use Rattle.lie_datum.specs.RootList.{IsPositiveList};
ghost use Rattle.lie_datum.specs.Closure.{ListsRoots};
ghost use Rattle.lie_datum.specs.Listing.{IsGreatestMixedOf, IsPicked, IsRanked, ranked_root, IsListed};
ghost use Rattle.lie_datum.specs.Load.{IsFault};

use crate::base::Base;
use crate::closing::closure;
use crate::faults::DatumFault;
use crate::root_pair::Root;
use crate::vectors::{Vector, entry_sum, minus};
use std::alloc::{AllocError, Global};
use std::cmp::{Ordering, Reverse};

/// A root with its height. The order of these is the order of the positive roots.
#[derive(Clone, Copy, PartialEq, Eq, PartialOrd, Ord)]
pub(crate) struct Ranked {
    pub(crate) height: i128,
    pub(crate) root: Reverse<Root>,
}

/// Whether no coefficient is below 0.
fn is_positive(r: &Root) -> bool
    ensures { IsTrue result ↔ IsPositive r.now }
{
    r.coeffs.iter().all(|c| *c >= 0)
}

/// Whether some entry is above 0.
fn rises(v: &Vector) -> bool
    ensures { IsTrue result ↔ Any (λ c. pos 0 <ℤ c) v.now }
{
    v.iter().any(|c| *c > 0)
}

/// Whether some entry is below 0.
fn falls(v: &Vector) -> bool
    ensures { IsTrue result ↔ Any (λ c. c <ℤ pos 0) v.now }
{
    v.iter().any(|c| *c < 0)
}

/// Whether there are coefficients of both signs.
fn is_mixed(r: &Root) -> bool
    ensures { IsTrue result ↔ IsMixed r.now }
{
    rises(&r.coeffs) && falls(&r.coeffs)
}

/// The greater of two vectors.
fn greater(v: Vector, w: &Vector) -> Vector
    ensures one { (result ≡ v) ⊎ (result ≡ w.now) }
    ensures first { slice_cmp int_cmp v result ≢ Greater }
    ensures second { slice_cmp int_cmp w.now result ≢ Greater }
{
    match v.cmp(w) {
        Ordering::Greater => v,
        _ => *w,
    }
}

/// The greatest coefficient vector with entries of both signs.
fn greatest_mixed(roots: &[Root]) -> Option<Vector>
    ensures { IsGreatestMixedOf roots.now result }
{
    let mut greatest = None;
    for r in roots {
        if is_mixed(r) {
            greatest = match greatest {
                None => Some(r.coeffs),
                Some(v) => Some(greater(v, &r.coeffs)),
            };
        }
    }
    greatest
}

/// The positive roots among these, each with its height.
fn pick_positive(alloc: Global, roots: &[Root]) -> Result<Vec<Ranked>, AllocError>
    requires { All IsSmall roots.now }
    ensures picked { IfOk result (λ list. IsPicked IsPositive roots.now (map ranked_root list.items)) }
    ensures ranks { IfOk result (λ list. All IsRanked list.items) }
{
    let mut list = Vec::new(alloc);
    for r in roots {
        if is_positive(r) {
            list.push(Ranked {
                height: entry_sum(&r.coeffs),
                root: Reverse(*r),
            })?;
        }
    }
    Ok(list)
}

/// The roots alone, in the same order.
fn without_heights(alloc: Global, list: &[Ranked]) -> Result<Vec<Root>, AllocError>
    ensures { IfOk result (λ roots. roots.items ≡ map ranked_root list.now) }
{
    let mut roots = Vec::new(alloc);
    for x in list {
        roots.push(x.root.0)?;
    }
    Ok(roots)
}

/// The positive roots in order.
fn positive_roots(alloc: Global, base: &Base, roots: &[Root]) -> Result<Vec<Root>, AllocError>
    requires cartan { IsCartan base.now }
    requires roots { ListsRoots base.now roots.now }
    requires unmixed { IsUnmixed base.now }
    ensures listed { IfOk result (λ list. IsPositiveList base.now list.items) }
    ensures bound { IfOk result (λ list. length list.items ≤ 120) }
{
    let mut list = pick_positive(alloc, roots)?;
    list.sort()?;
    without_heights(alloc, &list)
}

/// The positive roots of a base in order, if the fourth and the fifth axiom hold.
pub(crate) fn listed(alloc: Global, base: &Base) -> Result<Vec<Root>, DatumFault>
    requires { IsCartan base.now }
    ensures { MatchResult result (λ list. IsListed base.now list.items) (IsFault base.now) }
{
    let roots = closure(alloc, base)?;
    if let Some(v) = greatest_mixed(roots.as_slice()) {
        return Err(DatumFault::Mixed(v));
    }
    Ok(positive_roots(alloc, base, roots.as_slice())?)
}

/// The opposite root.
fn opposite(r: &Root) -> Root
    requires { IsSmall r.now }
    ensures { result ≡ opposite r.now }
{
    Root {
        coeffs: minus(&r.coeffs),
        co_coeffs: minus(&r.co_coeffs),
    }
}

/// The positive roots, and then their opposites.
pub(crate) fn full_order(alloc: Global, positive: &[Root]) -> Result<Vec<Root>, AllocError>
    requires { All IsSmall positive.now }
    ensures { IfOk result (λ all. all.items ≡ positive.now ++ map opposite positive.now) }
{
    let mut all = Vec::from_slice(alloc, positive)?;
    for r in positive {
        all.push(opposite(r))?;
    }
    Ok(all)
}
