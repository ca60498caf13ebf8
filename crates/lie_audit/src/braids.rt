//! The test of the braid values.

ghost use Rattle.std.specs.Prelude.{◌≡◌, ◌≢◌, ◌*ℤ◌, ◌+◌, ◌<◌, ◌≤◌, pos, [], ◌∷◌, unsigned_abs, MatchResult};
ghost use Rattle.lie_datum.specs.RootDatum.{IsSimpleIndex, cartan};
ghost use Rattle.lie_datum.specs.RootList.{IsNumber};
ghost use Rattle.lie_weyl.specs.Orders.{IsOrder};
ghost use Rattle.lie_const.specs.Signs.{eta_of, IsSignTable};
ghost use Rattle.lie_letters.specs.Braids.{IsBraidValue, HasBraids, IsFirstBadBraid};
ghost use Rattle.lie_audit.specs.SignParts.{unit};
ghost use Rattle.lie_audit.specs.BraidParts.{HasBraidsFrom, IsFirstBadIn};

use crate::faults::BraidFault;
use lie_const::Signs;
use lie_datum::{Datum, RootId, pairing};
use lie_weyl::orders_of_products;

/// The Cartan integer c_ij, which is <a_i, a_j^>.
fn cartan_integer(datum: &Datum, i: usize, j: usize) -> i128
    requires left { IsSimpleIndex datum.now.base i }
    requires right { IsSimpleIndex datum.now.base j }
    ensures value { result ≡ cartan datum.now.base i j }
    ensures bound { unsigned_abs result ≤ 80000 }
{
    datum.loaded();
    pairing(datum.root(datum.simple(i)), datum.coroot(datum.simple(j)))
}

/// The product c_ij c_ji of two Cartan integers.
fn cartan_product(datum: &Datum, i: usize, j: usize) -> i128
    requires left { IsSimpleIndex datum.now.base i }
    requires right { IsSimpleIndex datum.now.base j }
    ensures { result ≡ cartan datum.now.base i j *ℤ cartan datum.now.base j i }
{
    cartan_integer(datum, i, j) * cartan_integer(datum, j, i)
}

/// The order of s_i s_j.
fn order(datum: &Datum, i: usize, j: usize) -> usize
    requires left { IsSimpleIndex datum.now.base i }
    requires right { IsSimpleIndex datum.now.base j }
    requires different { i ≢ j }
    ensures order { IsOrder datum.now (i ∷ j ∷ []) result }
    ensures bound { result ≤ 6 }
{
    datum.loaded();
    orders_of_products();
    match cartan_product(datum, i, j) {
        0 => 2,
        1 => 3,
        2 => 4,
        3 => 6,
        _ => 0,
    }
}

/// Whether the sign of i and s is -1.
fn is_minus(signs: &Signs, i: usize, s: RootId) -> bool
    requires first { 1 ≤ i }
    requires index { i ≤ signs.now.rank }
    requires s { unsigned_abs s ≤ signs.now.positive }
    ensures { unit result ≡ eta_of signs.now i s }
{
    signs.eta(i, s) == -1
}

/// The braid value of i and j.
fn braid_value(datum: &Datum, signs: &Signs, i: usize, j: usize) -> i128
    requires signs { IsSignTable datum.now signs.now }
    requires left { IsSimpleIndex datum.now.base i }
    requires right { IsSimpleIndex datum.now.base j }
    requires different { i ≢ j }
    ensures { IsBraidValue datum.now (eta_of signs.now) i j result }
{
    datum.loaded();
    let mut root = datum.simple(i);
    let mut letter = j;
    let mut other = i;
    let mut minus = false;
    for _step in 1..order(datum, i, j) {
        minus = minus != is_minus(signs, letter, root);
        root = datum.reflect(letter, root);
        let last = letter;
        letter = other;
        other = last;
    }
    if minus { -1 } else { 1 }
}

/// The first j after i whose braid value with i is not 1.
fn braid_row(datum: &Datum, signs: &Signs, i: usize) -> Result<(), BraidFault>
    requires signs { IsSignTable datum.now signs.now }
    requires index { IsSimpleIndex datum.now.base i }
    ensures { MatchResult result (λ _. HasBraidsFrom datum.now (eta_of signs.now) i) (IsFirstBadIn datum.now (eta_of signs.now) i) }
{
    datum.loaded();
    for j in i + 1..datum.l() + 1 {
        let value = braid_value(datum, signs, i, j);
        if value != 1 {
            return Err(BraidFault { i, j, value });
        }
    }
    Ok(())
}

/// Whether all braid values are 1, or the first pair i < j, by i and then by j, whose value is not.
pub fn braid(datum: &Datum, signs: &Signs) -> Result<(), BraidFault>
    requires { IsSignTable datum.now signs.now }
    ensures { MatchResult result (λ _. HasBraids datum.now (eta_of signs.now)) (λ f. IsFirstBadBraid datum.now (eta_of signs.now) f.i f.j f.value) }
{
    datum.loaded();
    for i in 1..datum.l() + 1 {
        braid_row(datum, signs, i)?;
    }
    Ok(())
}
