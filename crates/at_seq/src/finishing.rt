//! What a whole sequence gives.

ghost use Rattle.std.specs.Prelude.{◌≡◌, ◌+◌, ◌≤◌, ◌^◌, length, MatchResult, IfOk, None, Some, drop};
ghost use Rattle.at_text.specs.Faults.{first_fault as first_one, first_of};
ghost use Rattle.at_text.specs.Texts.{utf8_fault as encoding_fault, base_of as text_begin};
ghost use Rattle.at_text.specs.Refusals.{IfFound};
ghost use Rattle.at_blocks.specs.Encodings.{IsValidIn};
ghost use Rattle.at_seq.specs.Records.{records_of};
ghost use Rattle.at_seq.specs.Sequences.{stray_faults, HasSeqFault};
ghost use Rattle.at_seq.specs.Answers.{IsSeqPart};
ghost use Rattle.at_seq.specs.Gathering.{IsGathered};
ghost use Rattle.at_seq.specs.Fragments.{HoldsText, HoldsParted, HoldsFragment};
ghost use Rattle.at_seq.specs.Ends.{BecomesPart, IsEndOf};

use crate::fragments::{PartedText, SeqFragment, SeqRead, SeqText};
use crate::records::add_fragment;
use crate::searches::spaces_len;
use crate::seq_files::SeqFile;
use at_blocks::is_valid_around;
use at_query::{Accumulator, Gathered, Part};
use at_text::{Fault, FaultKind, Memory, Refusal, Span, base_of, first_fault, utf8_fault};

/// Syntax at the first byte of a text that is no white space, where there is one.
fn stray_fault(text: &[u8], at: u32) -> Option<Fault>
    requires { at + length text.now ≤ 2 ^ 28 }
    ensures { result ≡ first_of (stray_faults at text.now) }
{
    let spaces = spaces_len(text);
    if spaces == text.len() {
        None
    } else {
        Some(Fault {
            kind: FaultKind::Syntax,
            at: at + spaces as u32,
        })
    }
}

/// The first of two faults, of which one is there.
fn first_with(head: Option<Fault>, fault: Fault) -> Fault
    ensures { Some result ≡ first_one head (Some fault) }
{
    first_fault(head, Some(fault)).unwrap_or(fault)
}

/// The part, or the first fault, from that of what stands before the first separator and from what is kept of the
/// records.
fn end_of(head: Option<Fault>, kept: Gathered) -> Result<Part, Refusal>
    ensures { IsEndOf kept head result }
{
    match kept {
        Gathered::Failed(fault) => Err(Refusal::Found(first_with(head, fault))),
        Gathered::Kept(kept) => match head {
            None => Ok(kept.into_part()?),
            Some(fault) => Err(Refusal::Found(fault)),
        },
    }
}

/// What is kept of all records of a file: of those between two separators, and of the last one.
fn all_records(file: &SeqFile<'_>, parted: PartedText) -> Result<Gathered, Memory>
    requires whole { HoldsParted file.now.algebra.now file.now.bytes.now (text_begin file.now.bytes.now) (length file.now.bytes.now) parted }
    ensures { IfOk result (λ kept. IsGathered file.now.algebra.now kept (records_of file.now.bytes.now)) }
{
    let mut kept = parted.kept;
    let last = Span {
        from: parted.last,
        to: file.bytes.len() as u32,
    };
    add_fragment(file, &mut kept, last, parted.behind)?;
    Ok(kept)
}

/// The end of a file whose encoding has no fault.
fn text_end(file: &SeqFile<'_>, text: SeqText) -> Result<Part, Refusal>
    requires valid { encoding_fault file.now.bytes.now ≡ None }
    requires whole { HoldsText file.now.algebra.now file.now.bytes.now (text_begin file.now.bytes.now) (length file.now.bytes.now) text }
    ensures { MatchResult result (IsSeqPart file.now.algebra.now.digits file.now.algebra.now.how file.now.algebra.now.query file.now.bytes.now)
        (λ end. IfFound end (λ fault. HasSeqFault file.now.algebra.now.digits file.now.algebra.now.how file.now.bytes.now (Some fault))) }
{
    let base = base_of(file.bytes);
    match text {
        SeqText::Lone(_) => {
            let head = stray_fault(&file.bytes[base as usize..], base);
            end_of(
                head,
                Gathered::Kept(Accumulator::none(file.alloc, file.algebra.query())),
            )
        }
        SeqText::Parted(parted) => {
            let head = stray_fault(&file.bytes[base as usize..parted.first as usize], base);
            let kept = all_records(file, parted)?;
            end_of(head, kept)
        }
    }
}

/// The fault of a file's encoding. The whole file is tested only where the span of it that is valid doesn't show it to
/// be.
fn fault_of_encoding(bytes: &[u8], valid: Span) -> Option<Fault>
    requires fits { length bytes.now ≤ 2 ^ 28 }
    requires valid { IsValidIn (text_begin bytes.now) (drop (text_begin bytes.now) bytes.now) valid }
    ensures { result ≡ encoding_fault bytes.now }
{
    if is_valid_around(bytes, valid) {
        None
    } else {
        utf8_fault(bytes)
    }
}

/// The part of a sequence's features, or its first fault, from what is read of all bytes from its text's first on.
///
/// # Errors
/// `Found` is the sequence's first fault, exactly where it has one. `Memory` comes where an allocation was refused.
pub fn finish_spans(file: &SeqFile<'_>, whole: SeqFragment) -> Result<Part, Refusal>
    requires whole { HoldsFragment file.now.algebra.now file.now.bytes.now (text_begin file.now.bytes.now) (length file.now.bytes.now) whole }
    ensures { MatchResult result (IsSeqPart file.now.algebra.now.digits file.now.algebra.now.how file.now.algebra.now.query file.now.bytes.now)
        (λ end. IfFound end (λ fault. HasSeqFault file.now.algebra.now.digits file.now.algebra.now.how file.now.bytes.now (Some fault))) }
{
    match whole {
        SeqFragment::Lost => Err(Refusal::Memory),
        SeqFragment::Read(SeqRead { text, valid }) => match fault_of_encoding(file.bytes, valid) {
            Some(fault) => Err(Refusal::Found(fault)),
            None => text_end(file, text),
        },
    }
}
