//! Weights with large coordinates.

ghost use Rattle.std.specs.Prelude.{ℕ, ◌+◌, ◌<◌, IsTrue, ◌↔◌, IfSome, MatchOption};
ghost use Rattle.lie_weight.specs.OrbitFaults.{IsHeavyWeight, IsHeavyAt};

use lie_datum::Vector;

/// Whether a coordinate is above 1,000,000 in absolute value.
fn is_heavy(weight: &Vector) -> bool
    ensures { IsTrue result ↔ IsHeavyWeight weight.now }
{
    weight.iter().any(|c| c.unsigned_abs() > 1_000_000)
}

/// The place of the first weight, counted from 0, with a coordinate above 1,000,000 in absolute value.
pub(crate) fn first_heavy(weights: &[Vector]) -> Option<usize>
    ensures here { MatchOption result ((a : ℕ) → ¬ IsHeavyAt weights.now a) (λ a. IsHeavyAt weights.now (a + 1)) }
    ensures before { IfSome result (λ a. (b : ℕ) → b < a + 1 → ¬ IsHeavyAt weights.now b) }
{
    for (a, weight) in weights.iter().enumerate() {
        if is_heavy(weight) {
            return Some(a);
        }
    }
    None
}
