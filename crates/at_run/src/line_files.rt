//! The part of a file of lines, or its first fault.

ghost use Rattle.std.specs.Prelude.{◌≡◌, ◌≤◌, ◌^◌, List, length, drop, MatchResult, Some};
ghost use Rattle.at_text.specs.Texts.{base_of as text_begin};
ghost use Rattle.at_text.specs.Refusals.{IfFound};
ghost use Rattle.at_wkt.specs.Folding.{OwnFold, StandsFor};
ghost use Rattle.at_wkt.specs.Lines.{lines_of};
ghost use Rattle.at_query.specs.Parts.{IsPart};
ghost use Rattle.at_query.specs.Accumulators.{IsAccumulated};
ghost use Rattle.at_query.specs.declared.query.queries.Query.{Query};
ghost use Rattle.at_query.specs.declared.features.Feature.{Feature};
ghost use Rattle.at_run.specs.declared.forms.Form.TheVariants.{Wkt};
ghost use Rattle.at_run.specs.Gathering.{Asked, IsOwn, IsGathered};
ghost use Rattle.at_run.specs.Files.{HasFileFaultIn};
ghost use Rattle.at_run.specs.Answers.{IsFilePart};

use crate::line_queries::LineQuery;
use at_query::{Accumulator, Gathered, Part};
use at_text::{Refusal, utf8_fault};
use at_wkt::{LineFragment, finish_lines};
use std::alloc::Global;

/// The part of a file's lines, or the file's first fault.
///
/// The encoding of the whole file is looked at only where a line has a fault: without labels, what lines without one
/// spell is ASCII, and the encoding of a label is looked at with its line.
fn end_of(bytes: &[u8], gathered: Gathered) -> Result<Part, Refusal>
    requires fits { length bytes.now ≤ 2 ^ 28 }
    ensures { (asked : Asked) → IsGathered asked gathered (lines_of bytes.now)
        → MatchResult result (IsFilePart Wkt asked.digits asked.how asked.query bytes.now)
        (λ end. IfFound end (λ fault. HasFileFaultIn Wkt asked.digits asked.how bytes.now (Some fault))) }
{
    match gathered {
        Gathered::Kept(kept) => Ok(kept.into_part()?),
        Gathered::Failed(fault) => Err(Refusal::Found(utf8_fault(bytes).unwrap_or(fault))),
    }
}

/// The part of the features of a file of lines under the query, from the fragment of its text.
///
/// # Errors
/// `Found` is the file's first fault, exactly where it has one: that of its encoding, or else the first of its lines'.
/// `Memory` comes where an allocation was refused.
pub fn finish_line_file(
    alloc: Global,
    query: &LineQuery<'_>,
    bytes: &[u8],
    whole: LineFragment<Gathered>,
) -> Result<Part, Refusal>
    requires fits { length bytes.now ≤ 2 ^ 28 }
    requires whole { StandsFor (OwnFold (IsOwn query.now) (IsGathered query.now)) (text_begin bytes.now)
        (drop (text_begin bytes.now) bytes.now) whole }
    ensures { MatchResult result (IsFilePart Wkt query.now.digits query.now.how query.now.query bytes.now)
        (λ end. IfFound end (λ fault. HasFileFaultIn Wkt query.now.digits query.now.how bytes.now (Some fault))) }
{
    let gathered = finish_lines(alloc, query, bytes, whole)?;
    end_of(bytes, gathered)
}
