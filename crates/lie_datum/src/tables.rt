//! The tables of a datum, filled from its roots in the full order.

ghost use Rattle.std.specs.Prelude.{◌≡◌, ℕ, ◌≤◌, ◌<◌, ◌*◌, IfOk, IsSome, map, length, MatchOption};
ghost use Rattle.std.specs.List.{All, range_with_len};
ghost use Rattle.std.specs.Ordering.{int_eq};
ghost use Rattle.indexmap.specs.IndexMap.{get};
ghost use lib.Pointwise.{pointwise};
ghost use Rattle.lie_datum.specs.Vectors.{Vector, pairing, plus};
ghost use Rattle.lie_datum.specs.RootDatum.{Root, rank, vector, covector, reflected, IsRoot, IsSmall, IsWithin};
ghost use Rattle.lie_datum.specs.RootList.{height};
ghost use Rattle.lie_datum.specs.Load.{IsFirstPair};
ghost use Rattle.lie_datum.specs.Entries.{as_root, square_sum, HasEntry};
ghost use Rattle.lie_datum.specs.Grids.{grid, IsSamePair, IsIndexed};

use crate::base::Base;
use crate::root_data::Entry;
use crate::root_id::RootId;
use crate::root_pair::Root;
use crate::vectors::{Vector, entry_sum, plus, small_pairing};
use indexmap::IndexMap;
use std::alloc::{AllocError, Global};

/// The coefficients of the roots over the simple roots.
fn coefficients(alloc: Global, roots: &[Root]) -> Result<Vec<Vector>, AllocError>
    ensures { IfOk result (λ list. list.items ≡ map (λ r. r.coeffs) roots.now) }
{
    let mut list = Vec::new(alloc);
    for r in roots {
        list.push(r.coeffs)?;
    }
    Ok(list)
}

/// The vectors of the roots in X.
pub(crate) fn vectors(alloc: Global, base: &Base, roots: &[Root]) -> Result<Vec<Vector>, AllocError>
    requires { All (λ r. IsRoot base.now r × IsSmall r) roots.now }
    ensures { IfOk result (λ list. list.items ≡ map (vector base.now) roots.now) }
{
    let mut list = Vec::new(alloc);
    for r in roots {
        list.push(base.vector(r))?;
    }
    Ok(list)
}

/// The vectors of their coroots in Y.
fn covectors(alloc: Global, base: &Base, roots: &[Root]) -> Result<Vec<Vector>, AllocError>
    requires { All (λ r. IsRoot base.now r × IsSmall r) roots.now }
    ensures items { IfOk result (λ list. list.items ≡ map (covector base.now) roots.now) }
    ensures bound { IfOk result (λ list. All (IsWithin 80000) list.items) }
{
    let mut list = Vec::new(alloc);
    for r in roots {
        list.push(base.covector(r))?;
    }
    Ok(list)
}

/// The first two places, counted from 0, with the same vector.
pub(crate) fn repeated(vectors: &[Vector]) -> Option<(usize, usize)>
    ensures { MatchOption result ((x y : ℕ) → ¬ IsSamePair vectors.now x y) (λ p. IsFirstPair (IsSamePair vectors.now) p.0 p.1) }
{
    for x in 0..vectors.len() {
        for y in x + 1..vectors.len() {
            if vectors[x] == vectors[y] {
                return Some((x, y));
            }
        }
    }
    None
}

/// The sum of the squares of the pairings with the covectors.
fn square_sum(covectors: &[Vector], x: &Vector) -> i128
    requires covectors { All (IsWithin 80000) covectors.now }
    requires count { length covectors.now ≤ 240 }
    requires vector { IsWithin 80000 x.now }
    ensures { result ≡ square_sum covectors.now x.now }
{
    let mut sum = 0;
    for y in covectors {
        let k = small_pairing(x, y);
        sum += k * k;
    }
    sum
}

/// What is kept of a root.
fn entry(base: &Base, covectors: &[Vector], r: &Root) -> Entry
    requires root { IsRoot base.now r.now }
    requires small { IsSmall r.now }
    requires covectors { All (IsWithin 80000) covectors.now }
    requires count { length covectors.now ≤ 240 }
    ensures root { result.root ≡ r.now }
    ensures data { HasEntry base.now covectors.now result }
{
    let vector = base.vector(r);
    Entry {
        root: *r,
        vector,
        covector: base.covector(r),
        height: entry_sum(&r.coeffs) as i32,
        norm: square_sum(covectors, &vector),
    }
}

/// The entries of all roots.
pub(crate) fn entries(alloc: Global, base: &Base, roots: &[Root]) -> Result<Vec<Entry>, AllocError>
    requires roots { All (λ r. IsRoot base.now r × IsSmall r) roots.now }
    requires count { length roots.now ≤ 240 }
    ensures roots { IfOk result (λ list. map as_root list.items ≡ roots.now) }
    ensures data { IfOk result (λ list. All (HasEntry base.now (map (covector base.now) roots.now)) list.items) }
{
    let covectors = covectors(alloc, base, roots)?;
    let mut list = Vec::new(alloc);
    for r in roots {
        list.push(entry(base, &covectors, r))?;
    }
    Ok(list)
}

/// The root at each vector's place, by the vector.
pub(crate) fn numbers(
    alloc: Global,
    positive: usize,
    vectors: &[Vector],
) -> Result<IndexMap<Vector, RootId>, AllocError>
    requires count { length vectors.now ≤ 2 * positive }
    requires bound { positive ≤ 120 }
    ensures { IfOk result (λ names. (v : Vector) → IsIndexed positive vectors.now v (get (pointwise int_eq) names v)) }
{
    let mut names = IndexMap::new(alloc);
    for k in 0..vectors.len() {
        names.insert(vectors[k], RootId::at(k, positive))?;
    }
    Ok(names)
}

/// The root at the place of each vector of coefficients, by these.
pub(crate) fn by_coefficients(
    alloc: Global,
    positive: usize,
    roots: &[Root],
) -> Result<IndexMap<Vector, RootId>, AllocError>
    requires count { length roots.now ≤ 2 * positive }
    requires bound { positive ≤ 120 }
    ensures { IfOk result (λ names. (v : Vector) → IsIndexed positive (map (λ r. r.coeffs) roots.now) v (get (pointwise int_eq) names v)) }
{
    numbers(alloc, positive, &coefficients(alloc, roots)?)
}

/// The names of the sums of each two roots, row by row.
fn sums(
    alloc: Global,
    roots: &[Root],
    names: &IndexMap<Vector, RootId>,
) -> Result<Vec<Option<RootId>>, AllocError>
    requires { All IsSmall roots.now }
    ensures { IfOk result (λ list. list.items ≡ grid (λ r s. get (pointwise int_eq) names.now (plus r.coeffs s.coeffs)) roots.now roots.now) }
{
    let mut list = Vec::new(alloc);
    for r in roots {
        for s in roots {
            list.push(names.get(&plus(&r.coeffs, &s.coeffs)).copied())?;
        }
    }
    Ok(list)
}

/// The names of the images of the roots under s_1, then under s_2, and so on.
fn images(
    alloc: Global,
    base: &Base,
    roots: &[Root],
    names: &IndexMap<Vector, RootId>,
) -> Result<Vec<RootId>, AllocError>
    requires roots { All (λ r. IsRoot base.now r × IsSmall r) roots.now }
    requires named { (r : Root) → IsRoot base.now r → IsSome (get (pointwise int_eq) names.now r.coeffs) }
    ensures { IfOk result (λ list. map Some list.items ≡ grid (λ i r. get (pointwise int_eq) names.now (reflected base.now i r).coeffs) (range_with_len 1 (rank base.now)) roots.now) }
{
    let mut list = Vec::new(alloc);
    for i in 0..base.rank() {
        for r in roots {
            let image = base.reflected(i + 1, r);
            match names.get(&image.coeffs) {
                Some(k) => list.push(*k)?,
                None => unreachable!(),
            }
        }
    }
    Ok(list)
}

/// The names of the sums and of the images of the roots.
pub(crate) fn sums_and_images(
    alloc: Global,
    base: &Base,
    roots: &[Root],
    names: &IndexMap<Vector, RootId>,
) -> Result<(Vec<Option<RootId>>, Vec<RootId>), AllocError>
    requires roots { All (λ r. IsRoot base.now r × IsSmall r) roots.now }
    requires named { (r : Root) → IsRoot base.now r → IsSome (get (pointwise int_eq) names.now r.coeffs) }
    ensures sums { IfOk result (λ lists. lists.0.items ≡ grid (λ r s. get (pointwise int_eq) names.now (plus r.coeffs s.coeffs)) roots.now roots.now) }
    ensures images { IfOk result (λ lists. map Some lists.1.items ≡ grid (λ i r. get (pointwise int_eq) names.now (reflected base.now i r).coeffs) (range_with_len 1 (rank base.now)) roots.now) }
{
    let sums = sums(alloc, roots, names)?;
    Ok((sums, images(alloc, base, roots, names)?))
}
