//! The matrices of the steps along an orbit.

ghost use Rattle.std.specs.Prelude.{◌≡◌, ◌≤◌, negsuc, ◌&&◌, IfOk, length};
ghost use Rattle.std.specs.Ordering.{int_eq};
ghost use Rattle.lie_datum.specs.Vectors.{plus};
ghost use Rattle.lie_const.specs.StructureConstants.{same_vector};
ghost use Rattle.lie_orbit.specs.Weights.{coroot_pairing};
ghost use Rattle.std.specs.List.{All};
ghost use Rattle.lie_ring.specs.Integers.{integers};
ghost use Rattle.lie_ring.specs.Matrices.{AllFit};
ghost use Rattle.lie_datum.specs.RootDatum.{IsWithin, vector};
ghost use Rattle.lie_datum.specs.RootList.{IsNumber, root_of};
ghost use Rattle.lie_weight.specs.OrbitModules.{step_matrix};

use crate::rules::built;
use lie_datum::{Datum, RootId, Vector, pairing};
use lie_mat::{Entries, Mat};
use lie_orbit::less_multiple;
use lie_ring::{Ints, RingStop};
use std::alloc::{AllocError, Global};

/// The steps by a root.
#[derive(Drop)]
struct Steps<'a> {
    ints: &'a Ints,
    datum: &'a Datum,
    weights: &'a [Vector],
    root: RootId,
    ghost number: { IsNumber datum.now root },
    ghost small: { All (IsWithin 1000000) weights.now },
}

impl<'a> Entries for Steps<'a> {
    type Ring = Ints;

    ghost use Rattle.std.specs.Prelude.{length};
    ghost use Rattle.lie_weight.specs.OrbitModules.{step_entry};

    ghost over = { λ s. s.ints.now };

    ghost height = { λ s. length s.weights.now };

    ghost width = { λ s. length s.weights.now };

    ghost value = { λ s. step_entry s.datum.now s.weights.now s.root };

    ghost is_wide = { λ _ _ _. ⊥ };

    fn ring(&self) -> &Ints {
        self.ints
    }

    fn entry(&self, _alloc: Global, row: usize, col: usize) -> Result<Option<i128>, RingStop> {
        if is_step(
            self.datum,
            self.root,
            &self.weights[col],
            &self.weights[row],
        ) {
            Ok(Some(1))
        } else {
            Ok(None)
        }
    }
}

/// Whether the root steps from one weight to another.
fn is_step(datum: &Datum, root: RootId, from: &Vector, to: &Vector) -> bool
    requires number { IsNumber datum.now root }
    requires small { IsWithin 1000000 from.now }
    ensures { result ≡ (int_eq (coroot_pairing datum.now from.now root) (negsuc 0) && same_vector to.now (plus from.now (vector datum.now.base (root_of datum.now root)))) }
{
    datum.loaded();
    pairing(from, datum.coroot(root)) == -1 && *to == less_multiple(from, -1, datum.root(root))
}

/// The matrix of the steps by a root, simple or the negative of a simple root.
pub(crate) fn step_matrix(
    alloc: Global,
    datum: &Datum,
    weights: &[Vector],
    root: RootId,
) -> Result<Mat<Ints>, AllocError>
    requires number { IsNumber datum.now root }
    requires small { All (IsWithin 1000000) weights.now }
    requires few { length weights.now ≤ 1024 }
    ensures value { IfOk result (λ m. m ≡ step_matrix datum.now weights.now root) }
    ensures fit { IfOk result (AllFit integers) }
{
    let rule = Steps {
        ints: &Ints,
        datum,
        weights,
        root,
    };
    built(alloc, &rule, weights.len(), weights.len())
}
