//! What is kept of records: the part of their features, or their first fault.

ghost use Rattle.std.specs.Prelude.{◌≡◌, ℕ, ◌+◌, ◌≤◌, ◌<◌, ◌^◌, List, [], ◌∷◌, length, take, Ok, IfOk, IfSome};
ghost use Rattle.at_text.specs.Separated.{Piece};
ghost use Rattle.at_text.specs.Spans.{span_of};
ghost use Rattle.at_text.specs.Texts.{is_space};
ghost use Rattle.at_lex.specs.Fronts.{IsFront};
ghost use Rattle.at_nest.specs.TextAnswers.{Answers};
ghost use Rattle.at_nest.specs.FragmentMeanings.{StandsFor};
ghost use Rattle.at_query.specs.Keeping.{Asked};
ghost use Rattle.at_geojson.specs.Atoms.{IsGeoAtom};
ghost use Rattle.at_geojson.specs.Wholes.{found_end};
ghost use Rattle.at_seq.specs.Records.{records_in};
ghost use Rattle.at_seq.specs.Gathering.{IsGathered, AddsRecords, HasRecordPart, IsEndFault, AddsFeature, AddsNext};

use crate::searches::{separator_behind, separator_place, spaces_len};
use crate::seq_files::SeqFile;
use at_geojson::{FeatureFront, GeoAlgebra, GeoAtom, feature_front, root_part};
use at_nest::{Algebra, Attempt, Fragment, NestEnd, finish_span, run_block};
use at_query::{Accumulator, Gathered, Part, join_into};
use at_text::{Fault, FaultKind, Memory, Refusal, Span};
use std::alloc::Global;

/// Puts a record behind those before it, by its part or its first fault.
#[inline(always)]
fn add_part(gathered: &mut Gathered, part: Result<Part, Fault>) -> Result<(), Memory>
    requires { (asked : Asked) × (before : List Piece) × (r : Piece) × IsGathered asked gathered.old before
        × HasRecordPart asked r part }
    ensures { IfOk result (λ _. (asked : Asked) (r : Piece) → HasRecordPart asked r part
        → AddsRecords asked gathered.old (r ∷ []) gathered.new) }
{
    match part {
        Ok(part) => join_into(gathered, Gathered::Kept(Accumulator::from_part(part))),
        Err(fault) => join_into(gathered, Gathered::Failed(fault)),
    }
}

/// The part of a text, or its first fault, from what it ends in.
fn part_of_root(end: Result<Part, Refusal>) -> Result<Result<Part, Fault>, Memory>
    ensures { IfOk result (λ part. end ≡ found_end part) }
{
    match end {
        Ok(part) => Ok(Ok(part)),
        Err(Refusal::Found(fault)) => Ok(Err(fault)),
        Err(Refusal::Memory) => Err(Memory),
    }
}

/// The fault of a record that is no JSON text and ends at the offset.
fn end_fault(end: NestEnd, to: u32) -> Result<Fault, Memory>
    ensures { IfOk result (IsEndFault to end) }
{
    match end {
        NestEnd::Syntax(at) => Ok(Fault {
            kind: FaultKind::Syntax,
            at,
        }),
        NestEnd::Ended => Ok(Fault {
            kind: FaultKind::Ended,
            at: to,
        }),
        NestEnd::Memory => Err(Memory),
    }
}

/// The part of a record that ends at the offset, or its first fault, from the answer of it as a whole JSON text.
fn record_part(
    alloc: Global,
    algebra: &GeoAlgebra,
    to: u32,
    answer: Result<GeoAtom, NestEnd>,
) -> Result<Result<Part, Fault>, Memory>
    requires { (at : ℕ) × (text : List ℕ) × Answers (IsGeoAtom algebra.now)
        at text answer }
    ensures { (at : ℕ) (text : List ℕ) → to ≡ at + length text
        → Answers (IsGeoAtom algebra.now) at text answer
        → IfOk result (HasRecordPart algebra.now (record { at = at; text = text })) }
{
    match answer {
        Ok(atom) => part_of_root(root_part(alloc, algebra, atom)),
        Err(end) => Ok(Err(end_fault(end, to)?)),
    }
}

/// So many records behind one that isn't read at once aren't tried.
const UNTRIED: u8 = 15;

/// Which records are tried to be read at once: where one isn't, few of those behind it are.
#[derive(Drop)]
pub struct Trials {
    untried: u8,
}

impl Trials {
    /// The next record is tried.
    pub fn new() -> Trials {
        Trials { untried: 0 }
    }

    /// Whether the next record is one of those that are tried.
    fn is_due(&self) -> bool {
        self.untried == 0
    }

    /// Whether the next record is tried.
    fn is_next(&mut self) -> bool {
        if self.untried == 0 {
            return true;
        }
        self.untried -= 1;
        false
    }

    /// A record that was tried isn't read at once.
    fn failed(&mut self) {
        self.untried = UNTRIED;
    }
}

/// The atom of a record that is read at once: so many bytes of white space, a whole value, and white space behind it.
/// The value is read from all that is ahead, which begins with the record, so that numbers at the record's end are looked
/// at as many bytes at once as all others. No clause says where it is: what is left out is read as any span of JSON.
fn atom_at_once(
    file: &SeqFile<'_>,
    text: &[u8],
    ahead: &[u8],
    at: u32,
    spaces: usize,
) -> Result<Option<GeoAtom>, Memory>
    requires fits { at + length ahead.now ≤ 2 ^ 28 }
    requires begins { text.now ≡ take (length text.now) ahead.now }
    requires within { length text.now ≤ length ahead.now }
    requires spaces { IsFront is_space text.now spaces }
    requires some { spaces < length text.now }
    ensures { IfOk result (λ found.
        IfSome found (λ atom. Answers (IsGeoAtom file.now.algebra.now) at text.now
        (Ok atom))) }
{
    match file
        .algebra
        .value(file.alloc, &ahead[spaces..], at + spaces as u32)?
    {
        Attempt::Whole { len, atom } => {
            let value = &text[spaces..];
            if len as usize > value.len() {
                return Ok(None);
            }
            let behind = &value[len as usize..];
            if spaces_len(behind) == behind.len() {
                Ok(Some(atom))
            } else {
                Ok(None)
            }
        }
        Attempt::Unsaid { .. } => Ok(None),
    }
}

/// The answer of a span of the file that is read as a whole JSON text and isn't white space alone.
fn span_answer(
    file: &SeqFile<'_>,
    span: Span,
    spaces: usize,
    trials: &mut Trials,
) -> Result<GeoAtom, NestEnd>
    requires order { span.from ≤ span.to }
    requires within { span.to ≤ length file.now.bytes.now }
    requires spaces { IsFront is_space (span_of file.now.bytes.now span.from span.to) spaces }
    requires some { spaces < length (span_of file.now.bytes.now span.from span.to) }
    ensures { Answers (IsGeoAtom file.now.algebra.now) span.from
        (span_of file.now.bytes.now span.from span.to) result }
{
    let text = &file.bytes[span.from as usize..span.to as usize];
    if trials.is_next() {
        let ahead = &file.bytes[span.from as usize..];
        if let Some(atom) = atom_at_once(file, text, ahead, span.from, spaces)? {
            return Ok(atom);
        }
        trials.failed();
    }
    let whole = run_block(file.alloc, file.algebra, text, span.from);
    finish_span(file.alloc, file.algebra, file.bytes, span, whole)
}

/// Puts the record between two places of the file behind those before it. White space alone is passed over.
fn add_record(
    file: &SeqFile<'_>,
    gathered: &mut Gathered,
    span: Span,
    trials: &mut Trials,
) -> Result<(), Memory>
    requires order { span.from ≤ span.to }
    requires within { span.to ≤ length file.now.bytes.now }
    requires own { (before : List Piece) × IsGathered file.now.algebra.now gathered.old before }
    ensures { IfOk result (λ _. AddsRecords file.now.algebra.now gathered.old
        (records_in (record { at = span.from; text = span_of file.now.bytes.now span.from span.to } ∷ [])) gathered.new) }
{
    let text = &file.bytes[span.from as usize..span.to as usize];
    let spaces = spaces_len(text);
    if spaces == text.len() {
        return Ok(());
    }
    let answer = span_answer(file, span, spaces, trials);
    let part = record_part(file.alloc, file.algebra, span.to, answer)?;
    add_part(gathered, part)
}

/// The same of a record whose fragment is there.
pub fn add_fragment(
    file: &SeqFile<'_>,
    gathered: &mut Gathered,
    span: Span,
    whole: Fragment<GeoAlgebra>,
) -> Result<(), Memory>
    requires order { span.from ≤ span.to }
    requires within { span.to ≤ length file.now.bytes.now }
    requires own { (before : List Piece) × IsGathered file.now.algebra.now gathered.old before }
    requires whole { StandsFor (IsGeoAtom file.now.algebra.now) span.from
        (span_of file.now.bytes.now span.from span.to) whole }
    ensures { IfOk result (λ _. AddsRecords file.now.algebra.now gathered.old
        (records_in (record { at = span.from; text = span_of file.now.bytes.now span.from span.to } ∷ [])) gathered.new) }
{
    let text = &file.bytes[span.from as usize..span.to as usize];
    if spaces_len(text) == text.len() {
        return Ok(());
    }
    let answer = finish_span(file.alloc, file.algebra, file.bytes, span, whole);
    let part = record_part(file.alloc, file.algebra, span.to, answer)?;
    add_part(gathered, part)
}

/// Puts the feature with which a span begins behind the records before it, where it is read at once and a separator
/// stands behind it: the offset of that separator.
#[inline(always)]
fn add_feature(
    file: &SeqFile<'_>,
    gathered: &mut Gathered,
    span: Span,
) -> Result<Option<u32>, Memory>
    requires order { span.from ≤ span.to }
    requires within { span.to ≤ length file.now.bytes.now }
    requires own { (before : List Piece) × IsGathered file.now.algebra.now gathered.old before }
    ensures { IfOk result (AddsFeature file.now.algebra.now file.now.bytes.now span gathered.old gathered.new) }
{
    let ahead = &file.bytes[span.from as usize..span.to as usize];
    let first = spaces_len(ahead);
    let Some(FeatureFront { len, part }) = feature_front(
        file.alloc,
        file.algebra,
        &ahead[first..],
        span.from + first as u32,
    )?
    else {
        return Ok(None);
    };
    let Some(end) = separator_behind(ahead, first + len as usize) else {
        return Ok(None);
    };
    add_part(gathered, part)?;
    Ok(Some(span.from + end as u32))
}

/// Puts the record up to the first separator of a span behind those before it: the offset of that separator, where there
/// is one.
fn add_first(
    file: &SeqFile<'_>,
    gathered: &mut Gathered,
    span: Span,
    trials: &mut Trials,
) -> Result<Option<u32>, Memory>
    requires order { span.from ≤ span.to }
    requires within { span.to ≤ length file.now.bytes.now }
    requires own { (before : List Piece) × IsGathered file.now.algebra.now gathered.old before }
    ensures { IfOk result (AddsNext file.now.algebra.now file.now.bytes.now span gathered.old gathered.new) }
{
    let end = span.from + separator_place(&file.bytes[span.from as usize..span.to as usize]) as u32;
    if end == span.to {
        return Ok(None);
    }
    let record = Span {
        from: span.from,
        to: end,
    };
    add_record(file, gathered, record, trials)?;
    Ok(Some(end))
}

/// The same as `add_first`, but where records are tried, one that is a feature is read before its end is looked for.
pub fn add_next(
    file: &SeqFile<'_>,
    gathered: &mut Gathered,
    span: Span,
    trials: &mut Trials,
) -> Result<Option<u32>, Memory>
    requires order { span.from ≤ span.to }
    requires within { span.to ≤ length file.now.bytes.now }
    requires own { (before : List Piece) × IsGathered file.now.algebra.now gathered.old before }
    ensures { IfOk result (AddsNext file.now.algebra.now file.now.bytes.now span gathered.old gathered.new) }
{
    if !trials.is_due() {
        return add_first(file, gathered, span, trials);
    }
    match add_feature(file, gathered, span)? {
        Some(end) => Ok(Some(end)),
        None => add_first(file, gathered, span, trials),
    }
}
