//! Coefficients of canonical lists of terms, and the first difference of two lists.

ghost use Rattle.std.specs.Prelude.{◌≡◌, ◌≢◌, ◌<◌, ◌≤◌, take, length, slice_index_or, MatchOption, T};
ghost use Rattle.lie_poly.specs.Terms.{Term, is_canonical, coefficient_in};
ghost use Rattle.lie_poly.specs.Differences.{IsFirstDifference, coefficients_of};

use crate::term::Term;
use std::cmp::Ordering;

/// The coefficient at a pair of exponents.
pub(crate) fn coefficient_of(terms: &[Term], exponents: (i32, i32)) -> i128
    requires { T (is_canonical terms.now) }
    ensures { result ≡ coefficient_in terms.now exponents }
{
    match terms.binary_search_by_key(&exponents, |x| x.exponents) {
        Ok(k) => terms[k].coefficient,
        Err(_) => 0,
    }
}

/// The exponents of t and of u where two canonical lists first differ, and both coefficients there.
pub(crate) fn first_difference_of(xs: &[Term], ys: &[Term]) -> Option<(i32, i32, i128, i128)>
    requires xs { T (is_canonical xs.now) }
    requires ys { T (is_canonical ys.now) }
    ensures { MatchOption result (xs.now ≡ ys.now)
        (λ d. IsFirstDifference (coefficients_of xs.now) (coefficients_of ys.now) d.0 d.1 d.2 d.3) }
{
    let front = common_front(xs, ys);
    match (xs.get(front), ys.get(front)) {
        (None, None) => None,
        (Some(x), None) => Some(difference_at(x.exponents, x.coefficient, 0)),
        (None, Some(y)) => Some(difference_at(y.exponents, 0, y.coefficient)),
        (Some(x), Some(y)) => match x.exponents.cmp(&y.exponents) {
            Ordering::Less => Some(difference_at(x.exponents, x.coefficient, 0)),
            Ordering::Equal => Some(difference_at(x.exponents, x.coefficient, y.coefficient)),
            Ordering::Greater => Some(difference_at(y.exponents, 0, y.coefficient)),
        },
    }
}

/// A difference, with its exponents of t and of u.
fn difference_at(exponents: (i32, i32), a: i128, b: i128) -> (i32, i32, i128, i128)
    ensures { result ≡ (exponents.0, exponents.1, a, b) }
{
    (exponents.0, exponents.1, a, b)
}

/// How many terms at the front of both lists are equal.
fn common_front(xs: &[Term], ys: &[Term]) -> usize
    ensures xs { result ≤ length xs.now }
    ensures ys { result ≤ length ys.now }
    ensures equal { take result xs.now ≡ take result ys.now }
    ensures last { result < length xs.now → result < length ys.now →
        (x : Term) → slice_index_or xs.now result x ≢ slice_index_or ys.now result x }
{
    let mut front = 0;
    'front: while front < xs.len() && front < ys.len() && xs[front] == ys[front] {
        front += 1;
    }
    front
}
