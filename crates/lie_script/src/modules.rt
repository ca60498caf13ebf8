//! The lines that name modules.
ghost use Rattle.std.specs.Prelude.{◌≡◌, ◌≤◌, ◌+◌, length, IfOk};
ghost use Rattle.std.specs.List.{list_all};
ghost use Rattle.lie_script.specs.Checks.{Gives};
ghost use Rattle.lie_script.specs.LineFields.{span, spans};
ghost use Rattle.lie_script.specs.Modules.{is_lower as lower_letter, is_name_byte as name_byte, is_name as name_spelled, kind_of as kind_read, known as known_read, two_modules as two_modules_read, new_name as new_name_read, kind_line as kind_line_read, module_line as module_line_read, cover_line as cover_line_read, matrix_line as matrix_line_read, reduce_line as reduce_line_read};
ghost use Rattle.lie_script.specs.Setting.{HasField, HasDatum};

use crate::allowed::Allowed;
use crate::faults::{Fault, FaultName, Stop};
use crate::fields::LineField;
use crate::kept::{Numbers, Text};
use crate::kinds::miscounted;
use crate::letters::word;
use crate::line::Line;
use crate::module_kind::ModuleKind;
use crate::names::Names;
use crate::numbers::{natural, numbers};
use crate::sizes::Sizes;
use lie_datum::Datum;
use lie_field::Field;
use std::alloc::{AllocError, Global};

/// The most modules that have names.
const MOST: usize = 16;

fn is_lower(b: u8) -> bool
    ensures { result ≡ lower_letter b }
{
    b >= b'a' && b <= b'z'
}

fn is_name_byte(b: u8) -> bool
    ensures { result ≡ name_byte b }
{
    is_lower(b) || b.is_ascii_digit() || b == b'_'
}

fn are_name_bytes(bytes: &[u8]) -> bool
    ensures { result ≡ list_all name_byte bytes.now }
{
    bytes.iter().all(|b| is_name_byte(*b))
}

/// Whether the bytes are a name of a module.
fn is_name(bytes: &[u8]) -> bool
    ensures { result ≡ name_spelled bytes.now }
{
    match bytes {
        [first, rest @ ..] => is_lower(*first) && are_name_bytes(rest) && rest.len() <= 15,
        [] => false,
    }
}

/// The kind that the bytes spell.
fn kind_of(bytes: &[u8]) -> Option<ModuleKind>
    ensures { result ≡ kind_read bytes.now }
{
    if bytes == b"adjoint".as_slice() {
        Some(ModuleKind::Adjoint)
    } else if bytes == b"orbit".as_slice() {
        Some(ModuleKind::Orbit)
    } else if bytes == b"sum".as_slice() {
        Some(ModuleKind::Sum)
    } else if bytes == b"tensor".as_slice() {
        Some(ModuleKind::Tensor)
    } else if bytes == b"dual".as_slice() {
        Some(ModuleKind::Dual)
    } else if bytes == b"table".as_slice() {
        Some(ModuleKind::Table)
    } else {
        None
    }
}

/// Tests that no module has the name, and that one more may be there.
#[tactic(auto, unfolding(crate::specs::Modules::new_name))]
fn new_name<N: Names>(names: &N, name: &LineField<'_>) -> Result<(), Fault>
    ensures { result ≡ new_name_read (N.listed names.now) (span name.now) }
{
    if names.dim_of(name.bytes).is_some() {
        return Err(Fault::At(FaultName::Taken, name.column));
    }
    if names.count() >= MOST {
        return Err(Fault::Bare(FaultName::Full));
    }
    Ok(())
}

/// Tests that a module has the name.
#[tactic(auto, unfolding(crate::specs::Modules::known))]
fn known<N: Names>(names: &N, name: &LineField<'_>) -> Result<(), Fault>
    ensures { result ≡ known_read (N.listed names.now) (span name.now) }
{
    if names.dim_of(name.bytes).is_none() {
        return Err(Fault::At(FaultName::Unknown, name.column));
    }
    Ok(())
}

/// The bytes of a name.
fn text_of(alloc: Global, bytes: &[u8]) -> Result<Text, AllocError>
    ensures { IfOk result (λ text. text ≡ bytes.now) }
{
    Ok(Text::of(Vec::from_slice(alloc, bytes)?))
}

/// `adjoint` and no more.
#[tactic(auto, unfolding(crate::specs::Modules::kind_line))]
fn adjoint_line<N: Names>(
    alloc: Global,
    sizes: &Sizes,
    names: &N,
    name: &LineField<'_>,
    fields: &[LineField<'_>],
) -> Result<Line, Stop>
    requires { length fields.now ≤ 65536 }
    ensures { Gives (λ line. line) result (kind_line_read sizes.now (N.listed names.now) (span name.now) ModuleKind.Adjoint (spans fields.now)) }
{
    if !fields.is_empty() {
        return Err(Stop::Faulty(miscounted(fields.len() + 2)));
    }
    new_name(names, name)?;
    Ok(Line::Adjoint {
        name: text_of(alloc, name.bytes)?,
    })
}

/// `orbit` and a weight.
#[tactic(auto, unfolding(crate::specs::Modules::kind_line))]
fn orbit_line<N: Names>(
    alloc: Global,
    sizes: &Sizes,
    names: &N,
    name: &LineField<'_>,
    fields: &[LineField<'_>],
) -> Result<Line, Stop>
    requires { length fields.now ≤ 65536 }
    ensures { Gives (λ line. line) result (kind_line_read sizes.now (N.listed names.now) (span name.now) ModuleKind.Orbit (spans fields.now)) }
{
    if fields.len() != sizes.d {
        return Err(Stop::Faulty(miscounted(fields.len() + 2)));
    }
    let v = numbers(alloc, Allowed::Within(-100, 100), fields)?;
    new_name(names, name)?;
    Ok(Line::Orbit {
        name: text_of(alloc, name.bytes)?,
        v: Numbers::of(v),
    })
}

/// The names of two modules.
#[tactic(auto, unfolding(crate::specs::Modules::two_modules))]
fn two_modules<N: Names>(
    alloc: Global,
    names: &N,
    fields: &[LineField<'_>],
) -> Result<(Text, Text), Stop>
    requires { length fields.now ≤ 65536 }
    ensures { Gives (λ pair. (pair.0, pair.1)) result (two_modules_read (N.listed names.now) (spans fields.now)) }
{
    let [a, b] = fields else {
        return Err(Stop::Faulty(miscounted(fields.len() + 2)));
    };
    known(names, a)?;
    known(names, b)?;
    Ok((text_of(alloc, a.bytes)?, text_of(alloc, b.bytes)?))
}

/// `sum` and two modules.
#[tactic(auto, unfolding(crate::specs::Modules::kind_line))]
fn sum_line<N: Names>(
    alloc: Global,
    sizes: &Sizes,
    names: &N,
    name: &LineField<'_>,
    fields: &[LineField<'_>],
) -> Result<Line, Stop>
    requires { length fields.now ≤ 65536 }
    ensures { Gives (λ line. line) result (kind_line_read sizes.now (N.listed names.now) (span name.now) ModuleKind.Sum (spans fields.now)) }
{
    let (a, b) = two_modules(alloc, names, fields)?;
    new_name(names, name)?;
    let name = text_of(alloc, name.bytes)?;
    Ok(Line::Sum { name, a, b })
}

/// `tensor` and two modules.
#[tactic(auto, unfolding(crate::specs::Modules::kind_line))]
fn tensor_line<N: Names>(
    alloc: Global,
    sizes: &Sizes,
    names: &N,
    name: &LineField<'_>,
    fields: &[LineField<'_>],
) -> Result<Line, Stop>
    requires { length fields.now ≤ 65536 }
    ensures { Gives (λ line. line) result (kind_line_read sizes.now (N.listed names.now) (span name.now) ModuleKind.Tensor (spans fields.now)) }
{
    let (a, b) = two_modules(alloc, names, fields)?;
    new_name(names, name)?;
    let name = text_of(alloc, name.bytes)?;
    Ok(Line::Tensor { name, a, b })
}

/// `dual` and a module.
#[tactic(auto, unfolding(crate::specs::Modules::kind_line))]
fn dual_line<N: Names>(
    alloc: Global,
    sizes: &Sizes,
    names: &N,
    name: &LineField<'_>,
    fields: &[LineField<'_>],
) -> Result<Line, Stop>
    requires { length fields.now ≤ 65536 }
    ensures { Gives (λ line. line) result (kind_line_read sizes.now (N.listed names.now) (span name.now) ModuleKind.Dual (spans fields.now)) }
{
    let [a] = fields else {
        return Err(Stop::Faulty(miscounted(fields.len() + 2)));
    };
    known(names, a)?;
    new_name(names, name)?;
    Ok(Line::Dual {
        name: text_of(alloc, name.bytes)?,
        a: text_of(alloc, a.bytes)?,
    })
}

/// `table` and two counts.
#[tactic(auto, unfolding(crate::specs::Modules::kind_line))]
fn table_line<N: Names>(
    alloc: Global,
    sizes: &Sizes,
    names: &N,
    name: &LineField<'_>,
    fields: &[LineField<'_>],
) -> Result<Line, Stop>
    requires { length fields.now ≤ 65536 }
    ensures { Gives (λ line. line) result (kind_line_read sizes.now (N.listed names.now) (span name.now) ModuleKind.Table (spans fields.now)) }
{
    let [n, e] = fields else {
        return Err(Stop::Faulty(miscounted(fields.len() + 2)));
    };
    let n = natural(1, 300, n)?;
    let e = natural(0, 20_000, e)?;
    new_name(names, name)?;
    let name = text_of(alloc, name.bytes)?;
    Ok(Line::Table { name, n, e })
}

/// The fields behind a name and a kind.
fn kind_line<N: Names>(
    alloc: Global,
    sizes: &Sizes,
    names: &N,
    name: &LineField<'_>,
    kind: ModuleKind,
    fields: &[LineField<'_>],
) -> Result<Line, Stop>
    requires { length fields.now ≤ 65536 }
    ensures { Gives (λ line. line) result (kind_line_read sizes.now (N.listed names.now) (span name.now) kind (spans fields.now)) }
{
    match kind {
        ModuleKind::Adjoint => adjoint_line(alloc, sizes, names, name, fields),
        ModuleKind::Orbit => orbit_line(alloc, sizes, names, name, fields),
        ModuleKind::Sum => sum_line(alloc, sizes, names, name, fields),
        ModuleKind::Tensor => tensor_line(alloc, sizes, names, name, fields),
        ModuleKind::Dual => dual_line(alloc, sizes, names, name, fields),
        ModuleKind::Table => table_line(alloc, sizes, names, name, fields),
    }
}

/// `module`: a name and a kind, then the fields of the kind.
#[tactic(auto, unfolding(crate::specs::Modules::module_line))]
pub(crate) fn module_line<N: Names>(
    alloc: Global,
    sizes: &Sizes,
    names: &N,
    fields: &[LineField<'_>],
) -> Result<Line, Stop>
    requires { length fields.now ≤ 65536 }
    ensures { Gives (λ line. line) result (module_line_read sizes.now (N.listed names.now) (spans fields.now)) }
{
    let [name, kind, more @ ..] = fields else {
        return Err(Stop::Faulty(miscounted(fields.len())));
    };
    if !is_name(name.bytes) {
        return Err(Stop::Faulty(Fault::At(FaultName::Name, name.column)));
    }
    let Some(kind) = kind_of(kind.bytes) else {
        return Err(Stop::Faulty(Fault::At(FaultName::Kind, kind.column)));
    };
    kind_line(alloc, sizes, names, name, kind, more)
}

/// `cover`: the name of a module, a coordinate, and a number for each weight.
#[tactic(auto, unfolding(crate::specs::Modules::cover_line))]
pub(crate) fn cover_line<N: Names>(
    alloc: Global,
    sizes: &Sizes,
    names: &N,
    fields: &[LineField<'_>],
) -> Result<Line, Stop>
    requires { length fields.now ≤ 65536 }
    ensures { Gives (λ line. line) result (cover_line_read sizes.now (N.listed names.now) (spans fields.now)) }
{
    let [name, axis, more @ ..] = fields else {
        return Err(Stop::Faulty(miscounted(fields.len())));
    };
    let Some(dimension) = names.dim_of(name.bytes) else {
        return Err(Stop::Faulty(Fault::At(FaultName::Unknown, name.column)));
    };
    let axis = natural(1, sizes.d, axis)?;
    if more.len() != dimension {
        return Err(Stop::Faulty(miscounted(more.len() + 2)));
    }
    let c = numbers(alloc, Allowed::Within(-1_000_000, 1_000_000), more)?;
    Ok(Line::Cover {
        name: text_of(alloc, name.bytes)?,
        axis,
        c: Numbers::of(c),
    })
}

/// `matrix`: the name of a module, then a word.
#[tactic(auto, unfolding(crate::specs::Modules::matrix_line))]
pub(crate) fn matrix_line<N: Names>(
    alloc: Global,
    sizes: &Sizes,
    names: &N,
    field: &Field,
    datum: &Datum,
    fields: &[LineField<'_>],
) -> Result<Line, Stop>
    requires field { HasField sizes.now field.now }
    requires datum { HasDatum sizes.now datum.now }
    ensures { Gives (λ line. line) result (matrix_line_read sizes.now (N.listed names.now) (spans fields.now)) }
{
    let [name, _first, ..] = fields else {
        return Err(Stop::Faulty(miscounted(fields.len())));
    };
    known(names, name)?;
    let w = word(alloc, sizes, field, datum, &fields[1..])?;
    Ok(Line::Matrix {
        name: text_of(alloc, name.bytes)?,
        w,
    })
}

/// `reduce`: the name of a module.
#[tactic(auto, unfolding(crate::specs::Modules::reduce_line))]
pub(crate) fn reduce_line<N: Names>(
    alloc: Global,
    names: &N,
    fields: &[LineField<'_>],
) -> Result<Line, Stop>
    ensures { Gives (λ line. line) result (reduce_line_read (N.listed names.now) (spans fields.now)) }
{
    let [name] = fields else {
        return Err(Stop::Faulty(miscounted(fields.len())));
    };
    known(names, name)?;
    Ok(Line::Reduce {
        name: text_of(alloc, name.bytes)?,
    })
}
