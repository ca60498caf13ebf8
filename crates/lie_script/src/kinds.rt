//! The kinds of lines.
ghost use Rattle.std.specs.Prelude.{◌≡◌, ◌∷◌, [], pos, true, All, ◌≤◌};
ghost use Rattle.lie_datum.specs.RootDatum.{rank};
ghost use Rattle.lie_script.specs.Checks.{Gives};
ghost use Rattle.lie_script.specs.Kinds.{field_of as field_of_read, field_line as field_line_read, datum_line as datum_line_read, vector as vector_read, root_line as root_line_read, coroot_line as coroot_line_read, bare_line as bare_line_read, word_line as word_line_read, constant_line as constant_line_read, is_dash as lone_dash, weyl_line as weyl_line_read, weight_line as weight_line_read, entry_line as entry_line_read, row_line as row_line_read};
ghost use Rattle.lie_script.specs.LineFields.{span, spans};
ghost use Rattle.lie_script.specs.Numbers.{is_within, number as number_read};
ghost use Rattle.lie_script.specs.Setting.{HasField, HasDatum};

use crate::allowed::Allowed;
use crate::faults::{Fault, FaultName, Stop};
use crate::fields::LineField;
use crate::kept::Numbers;
use crate::letters::word;
use crate::line::Line;
use crate::numbers::{natural, number, numbers};
use crate::sizes::Sizes;
use lie_datum::Datum;
use lie_field::Field;
use lie_letters::Word;
use std::alloc::Global;

/// The fault of a line with another number of fields than its kind asks for.
pub(crate) fn miscounted(count: usize) -> Fault
    ensures { result ≡ Fault.At FaultName.Fields count }
{
    Fault::At(FaultName::Fields, count)
}

/// p and k, and as many coefficients as k says before g.
#[tactic(auto, unfolding(crate::specs::Kinds::field_of))]
fn field_of(alloc: Global, fields: &[LineField<'_>], all: &[i128]) -> Result<Line, Stop>
    requires { All (λ n. is_within (pos 0) (pos 1000000) n ≡ true) all.now }
    ensures { Gives (λ line. line) result (field_of_read (spans fields.now) all.now) }
{
    let [p, k, more @ ..] = all else {
        return Err(Stop::Faulty(miscounted(fields.len())));
    };
    let count = k.unsigned_abs() as usize;
    if more.len() != count + 1 {
        return Err(Stop::Faulty(miscounted(fields.len())));
    }
    let coeffs = Vec::from_slice(alloc, &more[..count])?;
    Ok(Line::Field {
        p: p.unsigned_abs() as u32,
        k: count as u32,
        coeffs: Numbers::of(coeffs),
        g: more[count].unsigned_abs() as u32,
    })
}

/// `field p k c_0 .. c_(k-1) g`: the numbers are read before they are counted.
#[tactic(auto, unfolding(crate::specs::Kinds::field_line))]
pub(crate) fn field_line(alloc: Global, fields: &[LineField<'_>]) -> Result<Line, Stop>
    ensures { Gives (λ line. line) result (field_line_read (spans fields.now)) }
{
    let all = numbers(alloc, Allowed::Within(0, 1_000_000), fields)?;
    field_of(alloc, fields, &all)
}

/// `datum d l`.
pub(crate) fn datum_line(fields: &[LineField<'_>]) -> Result<Line, Fault>
    ensures { result ≡ datum_line_read (spans fields.now) }
{
    match fields {
        [d, l] => datum_of(d, l),
        _ => Err(miscounted(fields.len())),
    }
}

/// The fields of `datum`.
fn datum_of(d: &LineField<'_>, l: &LineField<'_>) -> Result<Line, Fault>
    ensures { result ≡ datum_line_read (span d.now ∷ span l.now ∷ []) }
{
    let d = natural(0, 1_000_000, d)?;
    let l = natural(0, 1_000_000, l)?;
    if d < 1 || d > 8 || l > d {
        return Err(Fault::Bare(FaultName::Size));
    }
    Ok(Line::Datum { d, l })
}

/// As many numbers as the count says.
#[tactic(auto, unfolding(crate::specs::Kinds::vector))]
fn vector(
    alloc: Global,
    count: usize,
    allowed: Allowed,
    fields: &[LineField<'_>],
) -> Result<Numbers, Stop>
    ensures { Gives (λ list. list) result (vector_read count allowed (spans fields.now)) }
{
    if fields.len() != count {
        return Err(Stop::Faulty(miscounted(fields.len())));
    }
    Ok(Numbers::of(numbers(alloc, allowed, fields)?))
}

/// Every number of at most 18 digits.
const EIGHTEEN_DIGITS: Allowed = Allowed::Within(-999_999_999_999_999_999, 999_999_999_999_999_999);

/// `root v_1 .. v_d`.
#[tactic(auto, unfolding(crate::specs::Kinds::root_line))]
pub(crate) fn root_line(
    alloc: Global,
    sizes: &Sizes,
    fields: &[LineField<'_>],
) -> Result<Line, Stop>
    ensures { Gives (λ line. line) result (root_line_read sizes.now (spans fields.now)) }
{
    Ok(Line::Root(vector(alloc, sizes.d, EIGHTEEN_DIGITS, fields)?))
}

/// `coroot v_1 .. v_d`.
#[tactic(auto, unfolding(crate::specs::Kinds::coroot_line))]
pub(crate) fn coroot_line(
    alloc: Global,
    sizes: &Sizes,
    fields: &[LineField<'_>],
) -> Result<Line, Stop>
    ensures { Gives (λ line. line) result (coroot_line_read sizes.now (spans fields.now)) }
{
    Ok(Line::Coroot(vector(alloc, sizes.d, EIGHTEEN_DIGITS, fields)?))
}

/// A line without fields.
#[tactic(auto, unfolding(crate::specs::Kinds::bare_line))]
pub(crate) fn bare_line(said: Line, fields: &[LineField<'_>]) -> Result<Line, Fault>
    ensures { result ≡ bare_line_read said (spans fields.now) }
{
    if fields.is_empty() {
        Ok(said)
    } else {
        Err(miscounted(fields.len()))
    }
}

/// One or more fields, which are a word.
#[tactic(auto, unfolding(crate::specs::Kinds::word_line))]
pub(crate) fn word_line(
    alloc: Global,
    sizes: &Sizes,
    field: &Field,
    datum: &Datum,
    fields: &[LineField<'_>],
) -> Result<Word, Stop>
    requires field { HasField sizes.now field.now }
    requires datum { HasDatum sizes.now datum.now }
    ensures { Gives (λ word. word) result (word_line_read sizes.now (spans fields.now)) }
{
    if fields.is_empty() {
        return Err(Stop::Faulty(miscounted(0)));
    }
    word(alloc, sizes, field, datum, fields)
}

/// The signed number of one of m positive roots or their opposites.
fn root_number(m: usize, field: &LineField<'_>) -> Result<i32, Fault>
    requires { m ≤ 120 }
    ensures { result ≡ number_read (Allowed.RootOf m) (span field.now) }
{
    let n = number(Allowed::RootOf(m), field)?;
    Ok(n as i32)
}

/// The fields of `constant`.
fn constant_of(sizes: &Sizes, r: &LineField<'_>, s: &LineField<'_>) -> Result<Line, Fault>
    requires { sizes.now.m ≤ 120 }
    ensures { result ≡ constant_line_read sizes.now (span r.now ∷ span s.now ∷ []) }
{
    let r = root_number(sizes.m, r)?;
    let s = root_number(sizes.m, s)?;
    if r.unsigned_abs() == s.unsigned_abs() {
        return Err(Fault::Bare(FaultName::Opposite));
    }
    Ok(Line::Constant { r, s })
}

/// `constant r s`.
pub(crate) fn constant_line(
    sizes: &Sizes,
    datum: &Datum,
    fields: &[LineField<'_>],
) -> Result<Line, Fault>
    requires { HasDatum sizes.now datum.now }
    ensures { result ≡ constant_line_read sizes.now (spans fields.now) }
{
    let _m = datum.m();
    match fields {
        [r, s] => constant_of(sizes, r, s),
        _ => Err(miscounted(fields.len())),
    }
}

/// Whether the only field is `-`.
fn is_dash(fields: &[LineField<'_>]) -> bool
    ensures { result ≡ lone_dash (spans fields.now) }
{
    match fields {
        [field] => field.bytes == b"-".as_slice(),
        _ => false,
    }
}

/// `weyl i_1 .. i_n`, or `weyl -` without indices.
#[tactic(auto, unfolding(crate::specs::Kinds::weyl_line))]
pub(crate) fn weyl_line(
    alloc: Global,
    sizes: &Sizes,
    fields: &[LineField<'_>],
) -> Result<Line, Stop>
    ensures { Gives (λ line. line) result (weyl_line_read sizes.now (spans fields.now)) }
{
    if fields.is_empty() {
        return Err(Stop::Faulty(miscounted(0)));
    }
    if fields.len() > 4096 {
        return Err(Stop::Faulty(Fault::At(FaultName::Letters, fields.len())));
    }
    if is_dash(fields) {
        return Ok(Line::Weyl(Numbers::of(Vec::new(alloc))));
    }
    let indices = numbers(alloc, Allowed::SimpleOf(sizes.l), fields)?;
    Ok(Line::Weyl(Numbers::of(indices)))
}

/// `weight v_1 .. v_d`.
#[tactic(auto, unfolding(crate::specs::Kinds::weight_line))]
pub(crate) fn weight_line(
    alloc: Global,
    sizes: &Sizes,
    fields: &[LineField<'_>],
) -> Result<Line, Stop>
    ensures { Gives (λ line. line) result (weight_line_read sizes.now (spans fields.now)) }
{
    Ok(Line::Weight(vector(alloc, sizes.d, Allowed::Within(-1_000, 1_000), fields)?))
}

/// The number of simple roots of a datum.
fn simple_count(datum: &Datum) -> usize
    ensures count { result ≡ rank datum.now.base }
    ensures bound { result ≤ 8 }
{
    datum.loaded();
    datum.l()
}

/// The index of one of l simple roots, or its opposite.
fn simple_number(l: usize, field: &LineField<'_>) -> Result<i32, Fault>
    requires { l ≤ 8 }
    ensures { result ≡ number_read (Allowed.SignedSimpleOf l) (span field.now) }
{
    let n = number(Allowed::SignedSimpleOf(l), field)?;
    Ok(n as i32)
}

/// The fields of `entry`.
fn entry_of(
    sizes: &Sizes,
    i: &LineField<'_>,
    k: &LineField<'_>,
    row: &LineField<'_>,
    col: &LineField<'_>,
    value: &LineField<'_>,
) -> Result<Line, Fault>
    requires { sizes.now.l ≤ 8 }
    ensures { result ≡ entry_line_read sizes.now (span i.now ∷ span k.now ∷ span row.now ∷ span col.now ∷ span value.now ∷ []) }
{
    let simple = simple_number(sizes.l, i)?;
    let power = natural(1, 16, k)?;
    let row = natural(1, sizes.dim, row)?;
    let col = natural(1, sizes.dim, col)?;
    let value = number(Allowed::NonzeroWithin(-100, 100), value)?;
    Ok(Line::Entry {
        simple,
        power: power as u32,
        row,
        col,
        value,
    })
}

/// `entry i k row col value`.
pub(crate) fn entry_line(
    sizes: &Sizes,
    datum: &Datum,
    fields: &[LineField<'_>],
) -> Result<Line, Fault>
    requires { HasDatum sizes.now datum.now }
    ensures { result ≡ entry_line_read sizes.now (spans fields.now) }
{
    let _l = simple_count(datum);
    match fields {
        [i, k, row, col, value] => entry_of(sizes, i, k, row, col, value),
        _ => Err(miscounted(fields.len())),
    }
}

/// `row e_1 .. e_n`.
#[tactic(auto, unfolding(crate::specs::Kinds::row_line))]
pub(crate) fn row_line(alloc: Global, sizes: &Sizes, fields: &[LineField<'_>]) -> Result<Line, Stop>
    ensures { Gives (λ line. line) result (row_line_read sizes.now (spans fields.now)) }
{
    Ok(Line::Row(vector(alloc, sizes.dim, Allowed::ElementOf(sizes.q), fields)?))
}
