//! A finite field: the test that loads it, and its operations.

ghost use Rattle.std.specs.Prelude.{◌≡◌, ◌≢◌, ◌+◌, ◌-◌, ◌^◌, ◌<◌, ◌≤◌, ◌≤ℤ◌, pos, ◌⊎◌, All, IfSome, MatchOption, length, T};
ghost use Rattle.lie_field.specs.Quotient.{degree, order, add, mul, neg, inv, power, power_int, of_int, field_data};
ghost use Rattle.lie_field.specs.Faults.{Loads, IsFirstAbove, IsSize};
ghost use Rattle.lie_field.specs.FieldTables.{IsZech};
ghost use Rattle.lie_field.specs.FiniteField.{is_field};

use crate::elements::Fe;
use crate::faults::FieldFault;
use crate::tables::Tables;
use std::alloc::Global;
use std::marker::Model;

/// The greatest number of elements.
const ORDER_LIMIT: u32 = 256;

/// A finite field, with a generator of its units.
///
/// All calls but `load` are look-ups and take no memory.
#[derive(Drop)]
pub struct Field {
    p: u32,
    k: u32,
    q: u32,
    g: u32,
    coefficients: Vec<u32>,
    tables: Tables,
    ghost lawful: { T (is_field (field_data p coefficients.items g)) },
}

impl Model for Field {
    ghost use Rattle.lie_field.specs.FiniteField.{FiniteField, field_code};

    ghost Value = { FiniteField };

    ghost coded = { field_code };

    ghost use Rattle.lie_field.specs.Tables.{field_of, IsTables};

    ghost view = { field_of };

    ghost invariant = { IsTables };
}

impl Field {
    /// Tests that the data are those of a field, and makes its tables.
    ///
    /// `coeffs` are the coefficients of the polynomial below its leading term `x^k`, the constant
    /// coefficient first.
    pub fn load(alloc: Global, p: u32, k: u32, coeffs: &[u32], g: u32) -> Result<Field, FieldFault>
        requires { length coeffs.now ≡ k }
        ensures { Loads (field_data p coeffs.now g) result }
    {
        let Some(q) = size_of(p, k) else {
            return Err(FieldFault::Size);
        };
        if let Some(i) = first_above(p, coeffs) {
            return Err(FieldFault::Coefficient(i));
        }
        if g == 0 || g >= q {
            return Err(FieldFault::Element);
        }
        let tables = Tables::make(alloc, p, k, q, coeffs, g)?;
        let coefficients = coeffs.to_vec(alloc).map_err(|_| FieldFault::NoMemory)?;
        Ok(Field {
            p,
            k,
            q,
            g,
            coefficients,
            tables,
        })
    }

    /// The characteristic.
    pub fn p(&self) -> u32
        ensures value { result ≡ self.now.given.p }
    {
        self.p
    }

    /// The degree over the integers modulo p.
    pub fn k(&self) -> u32
        ensures { result ≡ degree self.now.given }
    {
        self.k
    }

    /// The number of elements.
    pub fn q(&self) -> u32
        ensures value { result ≡ order self.now.given }
    {
        self.q
    }

    /// The element with this number, if there is one.
    pub fn elem(&self, n: u32) -> Option<Fe>
        ensures { MatchOption result (order self.now.given ≤ n)
            (λ a. (a ≡ n) × (n < order self.now.given)) }
    {
        if n < self.q {
            Some(Fe { number: n })
        } else {
            None
        }
    }

    pub fn add(&self, a: Fe, b: Fe) -> Fe
        requires a_below { a < order self.now.given }
        requires b_below { b < order self.now.given }
        ensures value { result ≡ add self.now.given a b }
        ensures below { result < order self.now.given }
    {
        if a.number == 0 {
            return b;
        }
        if b.number == 0 {
            return a;
        }
        // a + b is a times 1 + b / a.
        let log = self.log(a);
        match self.zech(self.log(b) + (self.q - 1) - log) {
            Some(z) => self.exp(log + z),
            None => Fe { number: 0 },
        }
    }

    pub fn neg(&self, a: Fe) -> Fe
        requires a_below { a < order self.now.given }
        ensures value { result ≡ neg self.now.given a }
        ensures below { result < order self.now.given }
    {
        Fe {
            number: self.tables.negatives[a.number as usize],
        }
    }

    pub fn mul(&self, a: Fe, b: Fe) -> Fe
        requires a_below { a < order self.now.given }
        requires b_below { b < order self.now.given }
        ensures value { result ≡ mul self.now.given a b }
        ensures below { result < order self.now.given }
    {
        if a.number == 0 || b.number == 0 {
            return Fe { number: 0 };
        }
        self.exp(self.log(a) + self.log(b))
    }

    /// The inverse of an element that is not 0.
    pub fn inv(&self, a: Fe) -> Fe
        requires not_zero { a ≢ 0 }
        requires a_below { a < order self.now.given }
        ensures value { result ≡ inv self.now.given a }
        ensures inverts { mul self.now.given a result ≡ 1 }
        ensures below { result < order self.now.given }
    {
        self.exp(self.q - 1 - self.log(a))
    }

    /// The power `a^e`: where e is negative, of the inverse; `0^0` is 1.
    pub fn pow(&self, a: Fe, e: i128) -> Fe
        requires a_below { a < order self.now.given }
        requires defined { (a ≢ 0) ⊎ (pos 0 ≤ℤ e) }
        ensures value { result ≡ power_int self.now.given a e }
        ensures below { result < order self.now.given }
    {
        if a.number == 0 {
            return Fe {
                number: if e == 0 { 1 } else { 0 },
            };
        }
        let last = self.q - 1;
        let turns = e.rem_euclid(i128::from(last)) as u64;
        let log = u64::from(self.log(a));
        self.exp(((log * turns) % u64::from(last)) as u32)
    }

    /// The image of an integer.
    pub fn integer(&self, n: i128) -> Fe
        ensures value { result ≡ of_int self.now.given n }
        ensures below { result < order self.now.given }
    {
        let residue = Fe {
            number: (n.unsigned_abs() % u128::from(self.p)) as u32,
        };
        if n < 0 { self.neg(residue) } else { residue }
    }

    /// The exponent below q - 1 with which g gives a.
    fn log(&self, a: Fe) -> u32
        requires not_zero { a ≢ 0 }
        requires a_below { a < order self.now.given }
        ensures value { power self.now.given self.now.given.g result ≡ a }
        ensures below { result < order self.now.given - 1 }
        ensures small { result < 65536 }
    {
        self.tables.powers.logs[a.number as usize]
    }

    /// The exponent below q - 1 with which g gives `1 + g^e`, and none where that is 0.
    fn zech(&self, e: u32) -> Option<u32>
        requires { e < (order self.now.given - 1) + (order self.now.given - 1) }
        ensures value { IsZech self.now.given e result }
        ensures small { IfSome result (λ z. z < 65536) }
    {
        let last = self.q - 1;
        let wrapped = if e < last { e } else { e - last };
        self.tables.zech[wrapped as usize]
    }

    /// The power of g with this exponent.
    fn exp(&self, e: u32) -> Fe
        requires { e < (order self.now.given - 1) + (order self.now.given - 1) }
        ensures value { result ≡ power self.now.given self.now.given.g e }
        ensures below { result < order self.now.given }
    {
        let last = self.q - 1;
        let wrapped = if e < last { e } else { e - last };
        Fe {
            number: self.tables.powers.powers[wrapped as usize],
        }
    }
}

/// p^k, where p, k and it are within the limits.
fn size_of(p: u32, k: u32) -> Option<u32>
    ensures { MatchOption result (¬ IsSize p k) (λ q. (q ≡ p ^ k) × IsSize p k) }
{
    if p < 2 || k == 0 {
        return None;
    }
    let mut q = 1;
    for _i in 0..k {
        if q > ORDER_LIMIT / p {
            return None;
        }
        q *= p;
    }
    Some(q)
}

/// The place of the first coefficient that is not below p.
fn first_above(p: u32, coeffs: &[u32]) -> Option<usize>
    ensures { MatchOption result (All (λ c. c < p) coeffs.now) (IsFirstAbove p coeffs.now) }
{
    coeffs.iter().position(|&c| c >= p)
}
