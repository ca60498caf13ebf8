//! Sizes and degrees of lists of terms.

ghost use Rattle.std.specs.Prelude.{◌≡◌, ◌+◌, ◌*◌, ◌^◌, ◌<◌, ◌≤◌, ◌⊎◌, ◌↔◌, IsTrue};
ghost use Rattle.lie_poly.specs.Terms.{size_of, degree_of};

use crate::term::Term;

/// Sizes are below this.
pub(crate) const SIZE_LIMIT: u128 = 1 << 126;

/// Degrees of products are below this.
const DEGREE_LIMIT: u64 = 1 << 30;

/// The sum of the absolute values of the coefficients.
pub(crate) fn size_of(terms: &[Term]) -> u128
    requires { size_of terms.now < 2 ^ 126 }
    ensures { result ≡ size_of terms.now }
{
    let mut size = 0;
    for x in terms {
        size += x.coefficient.unsigned_abs();
    }
    size
}

/// The greatest absolute exponent.
pub(crate) fn degree_of(terms: &[Term]) -> u32
    ensures value { result ≡ degree_of terms.now }
    ensures small { result ≤ 2 ^ 31 }
{
    let mut degree = 0;
    for x in terms {
        let (t, u) = x.exponents;
        degree = degree.max(t.unsigned_abs()).max(u.unsigned_abs());
    }
    degree
}

/// Whether the size of a product could reach 2^126, or its degree 2^30.
pub(crate) fn is_wide_product(xs: &[Term], ys: &[Term]) -> bool
    requires xs { size_of xs.now < 2 ^ 126 }
    requires ys { size_of ys.now < 2 ^ 126 }
    ensures { IsTrue result ↔
        (2 ^ 126 ≤ size_of xs.now * size_of ys.now)
        ⊎ (2 ^ 30 ≤ degree_of xs.now + degree_of ys.now) }
{
    if u64::from(degree_of(xs)) + u64::from(degree_of(ys)) >= DEGREE_LIMIT {
        return true;
    }
    match size_of(xs).checked_mul(size_of(ys)) {
        Some(size) => size >= SIZE_LIMIT,
        None => true,
    }
}
