//! How far a session is: what was accepted, and with it the line that is awaited.
ghost use Rattle.std.specs.Prelude.{◌≡◌, ◌≤◌, pos, true, false, length, map, nat_abs, All, IfOk};
ghost use Rattle.std.specs.Option.{option_copied};
ghost use Rattle.lie_audit.specs.WordMatrix.{IsWordFor};
ghost use Rattle.lie_datum.specs.RootList.{IsLoaded};
ghost use Rattle.lie_field.specs.Quotient.{field_data};
ghost use Rattle.lie_script.specs.Numbers.{is_within};
ghost use Rattle.lie_script.specs.Reading.{reads};
ghost use Rattle.lie_script.specs.Setting.{answer_of};
ghost use Rattle.lie_session.specs.Named.{listed_of};
ghost use Rattle.lie_session.specs.Obeyed.{IsLed};
ghost use Rattle.lie_session.specs.Outcomes.{KeepsField, KeepsDatum, ReadsDatum, Collects, Loads, Leads};
ghost use Rattle.lie_session.specs.Ready.{Ready};
ghost use Rattle.lie_session.specs.declared.stage.Stage.TheVariants as stage;

use crate::datum::DatumLines;
use crate::faults::CallFault;
use crate::group::{LoadedGroup, Setting, printed};
use lie_datum::Datum;
use lie_field::Field;
use lie_group::Group;
use lie_letters::Word;
use lie_reply::loaded_text;
use lie_script::{Line, LineFault, Names, NoNames, Numbers, Sizes, Text, Wants, read_line};
use std::alloc::{AllocError, Global};
use std::mem;

/// How far a session is.
#[derive(Drop)]
pub(crate) enum Stage {
    /// Nothing was accepted, and the field is awaited.
    Field,
    /// The line `datum` is awaited.
    Datum(Field),
    /// A simple root or coroot is awaited.
    Lines(Field, DatumLines),
    /// `load` is awaited.
    Load(Setting),
    /// Commands are awaited.
    Loaded(LoadedGroup),
}

/// A stage, with the text of an answer where there is one.
type Led = (Stage, Option<Text>);

/// The numbers of coefficients.
fn residues(alloc: Global, coeffs: &Numbers) -> Result<Vec<u32>, AllocError>
    requires { All (λ c. is_within (pos 0) (pos 1000000) c ≡ true) coeffs.now }
    ensures values { IfOk result (λ v. v.items ≡ map nat_abs coeffs.now) }
    ensures count { IfOk result (λ v. length v.items ≡ length coeffs.now) }
{
    let mut list = Vec::new(alloc);
    'coeffs: for c in coeffs.list() {
        list.push(c.unsigned_abs() as u32)?;
    }
    Ok(list)
}

/// Keeps the field of the numbers of a line.
fn keep_field(alloc: Global, p: u32, k: u32, coeffs: &Numbers, g: u32) -> Result<Led, CallFault>
    requires count { length coeffs.now ≡ k }
    requires range { All (λ c. is_within (pos 0) (pos 1000000) c ≡ true) coeffs.now }
    ensures { IsLed (KeepsField (field_data p (map nat_abs coeffs.now) g)) result }
{
    let coeffs = residues(alloc, coeffs)?;
    let field = Field::load(alloc, p, k, &coeffs, g)?;
    Ok((Stage::Datum(field), None))
}

/// Keeps the datum of whole lines.
fn keep_datum(alloc: Global, field: Field, lines: &DatumLines) -> Result<Led, CallFault>
    ensures { IsLed (KeepsDatum field lines.now) result }
{
    match lines.load(alloc) {
        Ok(datum) => Ok((Stage::Load(Setting::new(field, datum)), None)),
        Err(fault) => Err(CallFault::Datum(lines.rank(), fault)),
    }
}

/// Goes on with the lines of a datum, which a line has joined.
fn read_datum(alloc: Global, field: Field, lines: DatumLines) -> Result<Led, CallFault>
    ensures { IsLed (ReadsDatum field lines) result }
{
    if lines.is_whole() {
        return keep_datum(alloc, field, &lines);
    }
    Ok((Stage::Lines(field, lines), None))
}

/// Tells a form of a word, before the group is loaded.
fn collect(alloc: Global, setting: Setting, w: &Word) -> Result<Led, CallFault>
    requires { IsLoaded setting.datum → IsWordFor setting.field setting.datum w.now }
    ensures { IsLed (Collects setting w.now) result }
{
    let frame = setting.frame(alloc)?;
    let text = printed(alloc, &frame, w)?;
    Ok((Stage::Load(Setting::of_frame(frame)), Some(text)))
}

/// Loads the group of the field and the datum.
fn load_group(alloc: Global, setting: Setting) -> Result<Led, CallFault>
    ensures { IsLed (Loads setting) result }
{
    let frame = setting.frame(alloc)?;
    let group = Group::load(alloc, frame)?;
    let frame = group.frame();
    let dimension = group.carrier().module().dim();
    let text = loaded_text(alloc, &frame.field, &frame.datum, dimension)?;
    Ok((Stage::Loaded(LoadedGroup::new(alloc, group)), Some(text)))
}

/// A line where the field is awaited.
fn at_field(alloc: Global, line: Line) -> Result<Led, CallFault>
    requires { Ready stage.Field line }
    ensures { IsLed (Leads stage.Field line) result }
{
    match line {
        Line::Field { p, k, coeffs, g } => keep_field(alloc, p, k, &coeffs, g),
        _ => Ok((Stage::Field, None)),
    }
}

/// A line where the line `datum` is awaited.
fn at_datum(alloc: Global, field: Field, line: Line) -> Result<Led, CallFault>
    requires { Ready (stage.Datum field) line }
    ensures { IsLed (Leads (stage.Datum field) line) result }
{
    let Line::Datum { d, l } = line else {
        return Ok((Stage::Datum(field), None));
    };
    read_datum(alloc, field, DatumLines::opened(alloc, d, l))
}

/// A line where a simple root or coroot is awaited.
fn at_lines(alloc: Global, field: Field, lines: DatumLines, line: Line) -> Result<Led, CallFault>
    requires { Ready (stage.Lines field lines) line }
    ensures { IsLed (Leads (stage.Lines field lines) line) result }
{
    match line {
        Line::Root(v) => read_datum(alloc, field, lines.with_root(v.list())?),
        Line::Coroot(v) => read_datum(alloc, field, lines.with_coroot(v.list())?),
        _ => Ok((Stage::Lines(field, lines), None)),
    }
}

/// A line where `load` is awaited.
fn at_load(alloc: Global, setting: Setting, line: Line) -> Result<Led, CallFault>
    requires { Ready (stage.Load setting) line }
    ensures { IsLed (Leads (stage.Load setting) line) result }
{
    match line {
        Line::Collect(w) => collect(alloc, setting, &w),
        Line::Load => load_group(alloc, setting),
        _ => Ok((Stage::Load(setting), None)),
    }
}

impl Stage {
    ghost use Rattle.lie_session.specs.Obeyed.{IsLed, IsObeyed};
    ghost use Rattle.lie_session.specs.Outcomes.{Leads};
    ghost use Rattle.lie_session.specs.Ready.{Ready};
    ghost use Rattle.lie_session.specs.State.{field_of, datum_of, modules_of, is_loaded, wants_of, width_of, sizes_of, may_end, dropped};

    /// Drops the block that is being read, where one is.
    pub(crate) fn drop_block(&mut self)
        ensures { self.new ≡ dropped self.old }
    {
        if let Stage::Loaded(group) = self {
            group.drop_block();
        }
    }

    /// Whether the input may end: a group is loaded, and no block is being read.
    pub(crate) fn may_end(&self) -> bool
        ensures { result ≡ may_end self.now }
    {
        match self {
            Stage::Loaded(group) => !group.in_block(),
            _ => false,
        }
    }

    /// Whether a group is loaded.
    pub(crate) fn is_loaded(&self) -> bool
        ensures { result ≡ is_loaded self.now }
    {
        matches!(self, Stage::Loaded(_))
    }

    /// The kind of line that is awaited.
    fn wants(&self) -> Wants
        ensures { result ≡ wants_of self.now }
    {
        match self {
            Stage::Field => Wants::Field,
            Stage::Datum(_) => Wants::Datum,
            Stage::Lines(_, lines) => lines.wants(),
            Stage::Load(_) => Wants::Load,
            Stage::Loaded(group) => group.wants(),
        }
    }

    /// The field, once it was accepted.
    fn field(&self) -> Option<&Field>
        ensures { option_copied result ≡ field_of self.now }
    {
        match self {
            Stage::Field => None,
            Stage::Datum(field) => Some(field),
            Stage::Lines(field, _) => Some(field),
            Stage::Load(setting) => Some(setting.field()),
            Stage::Loaded(group) => Some(&group.frame().field),
        }
    }

    /// The datum, once all its lines were accepted.
    fn datum(&self) -> Option<&Datum>
        ensures { option_copied result ≡ datum_of self.now }
    {
        match self {
            Stage::Load(setting) => Some(setting.datum()),
            Stage::Loaded(group) => Some(&group.frame().datum),
            _ => None,
        }
    }

    /// How many elements a row has; 0 where none is awaited.
    fn width(&self) -> usize
        ensures { result ≡ width_of self.now }
    {
        match self {
            Stage::Loaded(group) => group.block_dim(),
            _ => 0,
        }
    }

    /// The sizes that a line is read with.
    fn sizes(&self) -> Sizes
        ensures { result ≡ sizes_of self.now }
    {
        let (d, l) = match self {
            Stage::Lines(_, lines) => (lines.dim(), lines.rank()),
            _ => match self.datum() {
                Some(datum) => (datum.d(), datum.l()),
                None => (0, 0),
            },
        };
        Sizes {
            d,
            l,
            m: self.datum().map_or(0, |datum| datum.m()),
            q: self.field().map_or(0, |field| field.q()),
            dim: self.width(),
            loaded: self.is_loaded(),
        }
    }

    /// What a line says where these names are known, or its first failing check.
    fn read_with<N: Names>(
        &self,
        alloc: Global,
        line: &[u8],
        names: &N,
    ) -> Result<Result<Line, LineFault>, AllocError>
        ensures { IfOk result (λ said. said ≡ answer_of (reads (wants_of self.now) (sizes_of self.now) (N.listed names.now) line.now)) }
    {
        let sizes = self.sizes();
        read_line(
            alloc,
            line,
            self.wants(),
            &sizes,
            names,
            self.field(),
            self.datum(),
        )
    }

    /// What a line says, or its first failing check.
    pub(crate) fn read(
        &self,
        alloc: Global,
        line: &[u8],
    ) -> Result<Result<Line, LineFault>, AllocError>
        ensures { IfOk result (λ said. said ≡ answer_of (reads (wants_of self.now) (sizes_of self.now) (listed_of (modules_of self.now)) line.now)) }
    {
        match self {
            Stage::Loaded(group) => self.read_with(alloc, line, group.modules()),
            _ => self.read_with(alloc, line, &NoNames),
        }
    }

    /// Goes on with a line up to `load`. A line that isn't awaited changes nothing.
    fn go_on(self, alloc: Global, line: Line) -> Result<Led, CallFault>
        requires early { is_loaded self ≡ false }
        requires ready { Ready self line }
        ensures { IsLed (Leads self line) result }
    {
        match self {
            Stage::Field => at_field(alloc, line),
            Stage::Datum(field) => at_datum(alloc, field, line),
            Stage::Lines(field, lines) => at_lines(alloc, field, lines, line),
            Stage::Load(setting) => at_load(alloc, setting, line),
            Stage::Loaded(group) => Ok((Stage::Loaded(group), None)),
        }
    }

    /// Does what a line says: the text of its answer, where it has one.
    pub(crate) fn obey(&mut self, alloc: Global, line: Line) -> Result<Option<Text>, CallFault>
        requires { Ready self.old line }
        ensures { IsObeyed (Leads self.old line) self.old result self.new }
    {
        if let Stage::Loaded(group) = self {
            return group.obey(alloc, line);
        }
        let (stage, text) = mem::replace(self, Stage::Field).go_on(alloc, line)?;
        *self = stage;
        Ok(text)
    }
}
