//! Operations on weights.

ghost use Rattle.std.specs.Prelude.{◌≡◌, ◌≤◌, ◌*◌, ◌^◌, neg_ℤ, unsigned_abs};
ghost use Rattle.lie_datum.specs.Vectors.{plus, times};
ghost use Rattle.lie_datum.specs.RootDatum.{IsWithin};

use lie_datum::Vector;

/// A weight less a multiple of a root.
pub fn less_multiple(weight: &Vector, by: i128, root: &Vector) -> Vector
    requires weight { IsWithin (25 * 10 ^ 31) weight.now }
    requires by { unsigned_abs by ≤ 10 ^ 32 }
    requires root { IsWithin 80000 root.now }
    ensures { result ≡ plus weight.now (times (neg_ℤ by) root.now) }
{
    let mut image = *weight;
    for k in 0..8 {
        image[k] -= by * root[k];
    }
    image
}
