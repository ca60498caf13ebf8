//! Sums and multiples of elements, digit by digit in base p.

ghost use Rattle.std.specs.Prelude.{◌≡◌, ◌^◌, ◌<◌, ◌≤◌};
ghost use Rattle.lie_field.specs.Polynomials.{plus, scale, residues, number, digits};

/// The sum of two elements, digit by digit.
pub(crate) fn sum_of(p: u32, k: u32, a: u32, b: u32) -> u32
    requires p_pos { 0 < p }
    requires small { p ^ k ≤ 65536 }
    ensures value { result ≡ number p (residues p (plus (digits p k a) (digits p k b))) }
    ensures below { result < p ^ k }
{
    if k == 0 {
        0
    } else {
        (a % p + b % p) % p + p * sum_of(p, k - 1, a / p, b / p)
    }
}

/// The multiple of an element by c, digit by digit.
pub(crate) fn multiple_of(p: u32, k: u32, c: u32, a: u32) -> u32
    requires p_pos { 0 < p }
    requires small { p ^ k ≤ 65536 }
    requires c_small { c < 65536 }
    ensures value { result ≡ number p (residues p (scale c (digits p k a))) }
    ensures below { result < p ^ k }
{
    if k == 0 {
        0
    } else {
        (c * (a % p)) % p + p * multiple_of(p, k - 1, c, a / p)
    }
}
