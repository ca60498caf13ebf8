//! Reading a line.
ghost use Rattle.std.specs.Prelude.{◌≡◌, ◌≤◌, length, IfOk, IfSome, IsSome, Some, true};
ghost use Rattle.std.specs.Option.{option_copied};
ghost use Rattle.lie_script.specs.Checks.{Gives};
ghost use Rattle.lie_script.specs.Reading.{own_line as own_line_read, spoken as spoken_read, reads, takes_both};
ghost use Rattle.lie_script.specs.LineFields.{span, spans};
ghost use Rattle.lie_script.specs.Setting.{HasField, HasDatum, IsSetting, answer_of};
ghost use Rattle.lie_script.specs.Texts.{line_fault as fault_seen};

use crate::faults::{Fault, FaultName, LineFault, Stop};
use crate::fields::{LineField, fields, foreign_column};
use crate::kept::Numbers;
use crate::keyword::{Keyword, keyword_of};
use crate::kinds::{
    bare_line, constant_line, coroot_line, datum_line, entry_line, field_line, root_line, row_line,
    weight_line, weyl_line, word_line,
};
use crate::letters::two_words;
use crate::line::Line;
use crate::modules::{cover_line, matrix_line, module_line, reduce_line};
use crate::names::Names;
use crate::sizes::{Sizes, Wants};
use lie_datum::Datum;
use lie_field::Field;
use std::alloc::{AllocError, Global};

/// The most bytes of a line.
const LONGEST: usize = 65_536;

/// The field and the datum, where both are handed in.
fn both<'a>(field: Option<&'a Field>, datum: Option<&'a Datum>) -> (&'a Field, &'a Datum)
    requires field { IsSome (option_copied field) }
    requires datum { IsSome (option_copied datum) }
    ensures field { option_copied field.entry ≡ Some result.0.now }
    ensures datum { option_copied datum.entry ≡ Some result.1.now }
{
    match (field, datum) {
        (Some(field), Some(datum)) => (field, datum),
        _ => unreachable!(),
    }
}

/// The checks of the line's own kind.
#[tactic(auto, unfolding(crate::specs::Reading::own_line))]
fn own_line<N: Names>(
    alloc: Global,
    sizes: &Sizes,
    names: &N,
    field: Option<&Field>,
    datum: Option<&Datum>,
    keyword: Keyword,
    spelled: &[LineField<'_>],
) -> Result<Line, Stop>
    requires field { IfSome (option_copied field) (HasField sizes.now) }
    requires datum { IfSome (option_copied datum) (HasDatum sizes.now) }
    requires short { length spelled.now ≤ 65536 }
    requires both { takes_both keyword ≡ true → IsSome (option_copied field) × IsSome (option_copied datum) }
    ensures { Gives (λ line. line) result (own_line_read sizes.now (N.listed names.now) keyword (spans spelled.now)) }
{
    match keyword {
        Keyword::Field => field_line(alloc, spelled),
        Keyword::Datum => Ok(datum_line(spelled)?),
        Keyword::Root => root_line(alloc, sizes, spelled),
        Keyword::Coroot => coroot_line(alloc, sizes, spelled),
        Keyword::Collect => {
            let (field, datum) = both(field, datum);
            Ok(Line::Collect(word_line(alloc, sizes, field, datum, spelled)?))
        }
        Keyword::Load => Ok(bare_line(Line::Load, spelled)?),
        Keyword::Form => {
            let (field, datum) = both(field, datum);
            Ok(Line::Form(word_line(alloc, sizes, field, datum, spelled)?))
        }
        Keyword::Same => {
            let (field, datum) = both(field, datum);
            let (w, v) = two_words(alloc, sizes, field, datum, spelled)?;
            Ok(Line::Same { w, v })
        }
        Keyword::Mul => {
            let (field, datum) = both(field, datum);
            let (w, v) = two_words(alloc, sizes, field, datum, spelled)?;
            Ok(Line::Mul { w, v })
        }
        Keyword::Inv => {
            let (field, datum) = both(field, datum);
            Ok(Line::Inv(word_line(alloc, sizes, field, datum, spelled)?))
        }
        Keyword::Roots => Ok(bare_line(Line::Roots, spelled)?),
        Keyword::Constant => {
            let (_field, datum) = both(field, datum);
            Ok(constant_line(sizes, datum, spelled)?)
        }
        Keyword::Weyl => weyl_line(alloc, sizes, spelled),
        Keyword::Module => module_line(alloc, sizes, names, spelled),
        Keyword::Weight => weight_line(alloc, sizes, spelled),
        Keyword::Entry => {
            let (_field, datum) = both(field, datum);
            Ok(entry_line(sizes, datum, spelled)?)
        }
        Keyword::Cover => cover_line(alloc, sizes, names, spelled),
        Keyword::Matrix => {
            let (field, datum) = both(field, datum);
            matrix_line(alloc, sizes, names, field, datum, spelled)
        }
        Keyword::Reduce => reduce_line(alloc, names, spelled),
        Keyword::Row => row_line(alloc, sizes, spelled),
    }
}

/// A line with a first field.
#[tactic(auto, unfolding(crate::specs::Reading::spoken))]
fn spoken<N: Names>(
    alloc: Global,
    wants: Wants,
    sizes: &Sizes,
    names: &N,
    field: Option<&Field>,
    datum: Option<&Datum>,
    line: &[u8],
    first: &LineField<'_>,
    spelled: &[LineField<'_>],
) -> Result<Line, Stop>
    requires setting { IsSetting wants sizes.now (option_copied field) (option_copied datum) }
    requires short { length line.now ≤ 65536 }
    requires few { length spelled.now ≤ 65536 }
    ensures { Gives (λ line. line) result (spoken_read wants sizes.now (N.listed names.now) line.now (span first.now) (spans spelled.now)) }
{
    if let Some(column) = foreign_column(line) {
        return Err(Stop::Faulty(Fault::At(FaultName::Byte, column)));
    }
    let Some(keyword) = keyword_of(first.bytes) else {
        return Err(Stop::Faulty(Fault::At(FaultName::Command, first.column)));
    };
    if keyword.is_command() && !sizes.loaded {
        return Err(Stop::Faulty(Fault::Bare(FaultName::Unloaded)));
    }
    if !keyword.begins(wants) {
        return Err(Stop::Faulty(Fault::Bare(FaultName::Order)));
    }
    own_line(alloc, sizes, names, field, datum, keyword, spelled)
}

/// What a line says, or its first failing check.
#[tactic(auto, unfolding(crate::specs::Reading::reads))]
fn read<N: Names>(
    alloc: Global,
    line: &[u8],
    wants: Wants,
    sizes: &Sizes,
    names: &N,
    field: Option<&Field>,
    datum: Option<&Datum>,
) -> Result<Line, Stop>
    requires { IsSetting wants sizes.now (option_copied field) (option_copied datum) }
    ensures { Gives (λ line. line) result (reads wants sizes.now (N.listed names.now) line.now) }
{
    if line.len() > LONGEST {
        return Err(Stop::Faulty(Fault::Bare(FaultName::Long)));
    }
    let fields = fields(alloc, line)?;
    if fields.is_empty() {
        return Ok(Line::Silent);
    }
    let first = &fields[0];
    if first.bytes.first() == Some(&b'#') {
        return Ok(Line::Silent);
    }
    spoken(
        alloc,
        wants,
        sizes,
        names,
        field,
        datum,
        line,
        first,
        &fields[1..],
    )
}

/// The fault as callers see it.
fn line_fault(alloc: Global, fault: Fault) -> Result<LineFault, AllocError>
    ensures { IfOk result (λ seen. seen ≡ fault_seen fault) }
{
    match fault {
        Fault::Bare(name) => Ok(LineFault {
            name,
            numbers: Numbers::of(Vec::new(alloc)),
        }),
        Fault::At(name, n) => {
            let mut list = Vec::new(alloc);
            list.push(n as i128)?;
            Ok(LineFault {
                name,
                numbers: Numbers::of(list),
            })
        }
    }
}

/// What a line says, or its first failing check.
///
/// The line comes without its end. The sizes are those of the field and the datum that are handed
/// in, and both are handed in where a group is loaded, or `load` or `entry` is awaited.
pub fn read_line<N: Names>(
    alloc: Global,
    line: &[u8],
    wants: Wants,
    sizes: &Sizes,
    names: &N,
    field: Option<&Field>,
    datum: Option<&Datum>,
) -> Result<Result<Line, LineFault>, AllocError>
    requires { IsSetting wants sizes.now (option_copied field) (option_copied datum) }
    ensures { IfOk result (λ answer. answer ≡ answer_of (reads wants sizes.now (N.listed names.now) line.now)) }
{
    match read(alloc, line, wants, sizes, names, field, datum) {
        Ok(said) => Ok(Ok(said)),
        Err(Stop::Faulty(fault)) => Ok(Err(line_fault(alloc, fault)?)),
        Err(Stop::NoMemory) => Err(AllocError),
    }
}
