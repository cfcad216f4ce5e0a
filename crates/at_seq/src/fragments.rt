//! What is read of a span of a sequence, and what two neighbouring spans give.

ghost use Rattle.std.specs.Prelude.{◌≡◌, ℕ, ◌-◌, ◌≤◌, ◌<◌, length, IfOk};
ghost use Rattle.std.specs.List.{position_or_len};
ghost use Rattle.at_text.specs.Spans.{span_of};
ghost use Rattle.at_seq.specs.Records.{is_separator};
ghost use Rattle.at_seq.specs.Fragments.{AreBeside, IsOfBoth, HoldsInner, HoldsText, HoldsParted, HoldsSpan};
ghost use Rattle.at_seq.specs.Fragments.{HoldsFragment};

use crate::records::{Trials, add_fragment, add_next};
use crate::searches::separator_place;
use crate::seq_files::SeqFile;
use at_blocks::{joined_span, valid_span};
use at_geojson::GeoAlgebra;
use at_nest::{Fragment, merge, run_block};
use at_query::{Accumulator, Gathered, join_into};
use at_text::{Memory, Span};

/// A span with a separator. Offsets are of the file.
#[derive(Drop)]
pub struct PartedText {
    /// What is read of the bytes before the first separator.
    pub before: Fragment<GeoAlgebra>,
    /// The offset of the first separator.
    pub first: u32,
    /// What is kept of the records between the first separator and the last.
    pub kept: Gathered,
    /// The offset behind the last separator.
    pub last: u32,
    /// What is read of the bytes behind it.
    pub behind: Fragment<GeoAlgebra>,
}

/// What is read of the text of a span.
#[derive(Drop)]
pub enum SeqText {
    /// There is no separator.
    Lone(Fragment<GeoAlgebra>),
    /// There is one.
    Parted(PartedText),
}

/// What is read of a span.
#[derive(Drop)]
pub struct SeqRead {
    pub text: SeqText,
    /// Bytes of the span that are valid UTF-8, by their offsets in the file.
    pub valid: Span,
}

/// What a span of a sequence gives.
#[derive(Drop)]
pub enum SeqFragment {
    /// It stands for any span: what was to be kept of it found no memory.
    Lost,
    Read(SeqRead),
}

/// What is kept of the records up to the last separator of a span, and the offset behind that one.
#[derive(Drop)]
pub struct Inner {
    pub kept: Gathered,
    pub last: u32,
}

/// Reads the records of a span that begins behind a separator, up to its last separator.
fn read_records(file: &SeqFile<'_>, span: Span) -> Result<Inner, Memory>
    requires order { span.from ≤ span.to }
    requires within { span.to ≤ length file.now.bytes.now }
    ensures { IfOk result (HoldsInner file.now.algebra.now file.now.bytes.now span.from span.to) }
{
    let mut kept = Gathered::Kept(Accumulator::none(file.alloc, file.algebra.query()));
    let mut trials = Trials::new();
    let mut start = span.from;
    'records: loop {
        let rest = Span {
            from: start,
            to: span.to,
        };
        match add_next(file, &mut kept, rest, &mut trials)? {
            Some(end) => start = end + 1,
            None => return Ok(Inner { kept, last: start }),
        }
    }
}

/// Reads a span that has its first separator at the offset.
fn read_parted(file: &SeqFile<'_>, span: Span, first: u32) -> Result<PartedText, Memory>
    requires begins { span.from ≤ first }
    requires inside { first < span.to }
    requires within { span.to ≤ length file.now.bytes.now }
    requires first { first - span.from ≡ position_or_len is_separator (span_of file.now.bytes.now span.from span.to) }
    ensures { IfOk result (HoldsParted file.now.algebra.now file.now.bytes.now span.from span.to) }
{
    let records = Span {
        from: first + 1,
        to: span.to,
    };
    let Inner { kept, last } = read_records(file, records)?;
    let before = &file.bytes[span.from as usize..first as usize];
    let behind = &file.bytes[last as usize..span.to as usize];
    Ok(PartedText {
        before: run_block(file.alloc, file.algebra, before, span.from),
        first,
        kept,
        last,
        behind: run_block(file.alloc, file.algebra, behind, last),
    })
}

/// Reads the text of a span of the file.
fn read_text(file: &SeqFile<'_>, span: Span) -> Result<SeqText, Memory>
    requires order { span.from ≤ span.to }
    requires within { span.to ≤ length file.now.bytes.now }
    ensures { IfOk result (HoldsText file.now.algebra.now file.now.bytes.now span.from span.to) }
{
    let piece = &file.bytes[span.from as usize..span.to as usize];
    let first = span.from + separator_place(piece) as u32;
    if first == span.to {
        return Ok(SeqText::Lone(run_block(file.alloc, file.algebra, piece, span.from)));
    }
    let parted = read_parted(file, span, first)?;
    Ok(SeqText::Parted(parted))
}

/// What a span of the file gives. Where memory is wanted, the fragment is lost.
pub fn run_span(file: &SeqFile<'_>, span: Span) -> SeqFragment
    requires order { span.from ≤ span.to }
    requires within { span.to ≤ length file.now.bytes.now }
    ensures { HoldsFragment file.now.algebra.now file.now.bytes.now span.from span.to result }
{
    let piece = &file.bytes[span.from as usize..span.to as usize];
    match read_text(file, span) {
        Ok(text) => SeqFragment::Read(SeqRead {
            text,
            valid: valid_span(piece, span.from),
        }),
        Err(_) => SeqFragment::Lost,
    }
}

/// The text of two neighbouring spans with a separator each: the record that lies in both is whole, and is put between
/// the others.
fn merge_parted(
    file: &SeqFile<'_>,
    left: PartedText,
    right: PartedText,
) -> Result<PartedText, Memory>
    requires beside { (i : ℕ) × (j : ℕ) × (k : ℕ)
        × AreBeside (HoldsParted file.now.algebra.now file.now.bytes.now) file.now.bytes.now i j k left right }
    ensures { IfOk result (IsOfBoth (HoldsParted file.now.algebra.now file.now.bytes.now) file.now.bytes.now left right) }
{
    let mut kept = left.kept;
    let record = Span {
        from: left.last,
        to: right.first,
    };
    let whole = merge(
        file.alloc,
        file.algebra,
        file.bytes,
        left.behind,
        right.before,
    );
    add_fragment(file, &mut kept, record, whole)?;
    join_into(&mut kept, right.kept)?;
    Ok(PartedText {
        before: left.before,
        first: left.first,
        kept,
        last: right.last,
        behind: right.behind,
    })
}

/// The text of two neighbouring spans.
fn merge_texts(file: &SeqFile<'_>, left: SeqText, right: SeqText) -> Result<SeqText, Memory>
    requires beside { (i : ℕ) × (j : ℕ) × (k : ℕ)
        × AreBeside (HoldsText file.now.algebra.now file.now.bytes.now) file.now.bytes.now i j k left right }
    ensures { IfOk result (IsOfBoth (HoldsText file.now.algebra.now file.now.bytes.now) file.now.bytes.now left right) }
{
    match (left, right) {
        (SeqText::Lone(left), SeqText::Lone(right)) => {
            Ok(SeqText::Lone(merge(file.alloc, file.algebra, file.bytes, left, right)))
        }
        (SeqText::Lone(left), SeqText::Parted(right)) => Ok(SeqText::Parted(PartedText {
            before: merge(file.alloc, file.algebra, file.bytes, left, right.before),
            first: right.first,
            kept: right.kept,
            last: right.last,
            behind: right.behind,
        })),
        (SeqText::Parted(left), SeqText::Lone(right)) => Ok(SeqText::Parted(PartedText {
            before: left.before,
            first: left.first,
            kept: left.kept,
            last: left.last,
            behind: merge(file.alloc, file.algebra, file.bytes, left.behind, right),
        })),
        (SeqText::Parted(left), SeqText::Parted(right)) => Ok(SeqText::Parted(merge_parted(
            file, left, right,
        )?)),
    }
}

/// What two neighbouring spans of the file give. Where memory is wanted, the fragment is lost.
pub fn merge_spans(file: &SeqFile<'_>, left: SeqRead, right: SeqRead) -> SeqFragment
    requires beside { (i : ℕ) × (j : ℕ) × (k : ℕ)
        × AreBeside (HoldsSpan file.now.algebra.now file.now.bytes.now) file.now.bytes.now i j k left right }
    ensures { IsOfBoth (HoldsFragment file.now.algebra.now file.now.bytes.now) file.now.bytes.now (SeqFragment.Read left) (SeqFragment.Read right)
        result }
{
    let valid = joined_span(file.bytes, left.valid, right.valid);
    match merge_texts(file, left.text, right.text) {
        Ok(text) => SeqFragment::Read(SeqRead { text, valid }),
        Err(_) => SeqFragment::Lost,
    }
}
