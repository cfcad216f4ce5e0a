//! What a sequence ends in, as a file of any form does.

ghost use Rattle.std.specs.Prelude.{◌≤◌, ◌^◌, length, MatchResult, Some};
ghost use Rattle.at_text.specs.Refusals.{IfFound};
ghost use Rattle.at_run.specs.declared.forms.Form.TheVariants.{Seq};
ghost use Rattle.at_run.specs.Files.{HasFileFaultIn};
ghost use Rattle.at_run.specs.Answers.{IsFilePart};

use at_geojson::GeoAlgebra;
use at_query::Part;
use at_seq::part_of_whole;
use at_text::Refusal;
use std::alloc::Global;

/// The part of a sequence's features under the algebra's query, where all its bytes are there.
///
/// # Errors
/// `Found` is the sequence's first fault, exactly where it has one. `Memory` comes where an allocation was refused.
pub fn finish_sequence(alloc: Global, algebra: &GeoAlgebra, bytes: &[u8]) -> Result<Part, Refusal>
    requires { length bytes.now ≤ 2 ^ 28 }
    ensures { MatchResult result (IsFilePart Seq algebra.now.digits algebra.now.how algebra.now.query bytes.now)
        (λ end. IfFound end (λ fault. HasFileFaultIn Seq algebra.now.digits algebra.now.how bytes.now (Some fault))) }
{
    part_of_whole(alloc, algebra, bytes)
}
