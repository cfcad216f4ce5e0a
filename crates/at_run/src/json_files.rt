//! The part of a file of GeoJSON, or its first fault.

ghost use Rattle.std.specs.Prelude.{◌≡◌, ◌≤◌, ◌^◌, length, drop, MatchResult, Some};
ghost use Rattle.at_text.specs.Texts.{base_of as text_begin};
ghost use Rattle.at_text.specs.Refusals.{IfFound};
ghost use Rattle.at_nest.specs.FragmentMeanings.{StandsFor};
ghost use Rattle.at_geojson.specs.Atoms.{IsGeoAtom};
ghost use Rattle.at_run.specs.declared.forms.Form.TheVariants.{GeoJson};
ghost use Rattle.at_run.specs.Files.{HasFileFaultIn};
ghost use Rattle.at_run.specs.Answers.{IsFilePart};
ghost use Rattle.at_run.specs.JsonFiles.{EndsJson, text_end};
ghost use Rattle.at_run.specs.JsonFragments.{StandsForText};

use crate::json_fragments::JsonFragment;
use at_blocks::is_valid_around;
use at_geojson::{GeoAlgebra, root_part};
use at_nest::{Fragment, NestEnd, finish};
use at_query::Part;
use at_text::{Fault, FaultKind, Refusal, utf8_fault};
use std::alloc::Global;

/// The fault of a file of so many bytes that is no JSON text.
fn end_of_text(end: NestEnd, len: u32) -> Refusal
    ensures { result ≡ text_end len end }
{
    match end {
        NestEnd::Syntax(at) => Refusal::Found(Fault {
            kind: FaultKind::Syntax,
            at,
        }),
        NestEnd::Ended => Refusal::Found(Fault {
            kind: FaultKind::Ended,
            at: len,
        }),
        NestEnd::Memory => Refusal::Memory,
    }
}

/// The part of a file whose encoding has no fault, or the first of all its other faults.
fn tree_part(
    alloc: Global,
    algebra: &GeoAlgebra,
    bytes: &[u8],
    whole: Fragment<GeoAlgebra>,
) -> Result<Part, Refusal>
    requires fits { length bytes.now ≤ 2 ^ 28 }
    requires whole { StandsFor (IsGeoAtom algebra.now)
        (text_begin bytes.now) (drop (text_begin bytes.now) bytes.now) whole }
    ensures { EndsJson algebra.now.digits algebra.now.how algebra.now.query bytes.now result }
{
    match finish(alloc, algebra, bytes, whole) {
        Ok(atom) => root_part(alloc, algebra, atom),
        Err(end) => Err(end_of_text(end, bytes.len() as u32)),
    }
}

/// The part of the features of a file of GeoJSON under the algebra's query, from the fragment of its text. The encoding
/// of the whole file is tested.
///
/// # Errors
/// `Found` is the file's first fault, exactly where it has one: that of its encoding, of its syntax, or else the first
/// of equal names and of what the roles find wrong. `Memory` comes where an allocation was refused.
pub fn finish_json(
    alloc: Global,
    algebra: &GeoAlgebra,
    bytes: &[u8],
    whole: Fragment<GeoAlgebra>,
) -> Result<Part, Refusal>
    requires fits { length bytes.now ≤ 2 ^ 28 }
    requires whole { StandsFor (IsGeoAtom algebra.now)
        (text_begin bytes.now) (drop (text_begin bytes.now) bytes.now) whole }
    ensures { MatchResult result (IsFilePart GeoJson algebra.now.digits algebra.now.how algebra.now.query bytes.now)
        (λ end. IfFound end (λ fault. HasFileFaultIn GeoJson algebra.now.digits algebra.now.how bytes.now
        (Some fault))) }
{
    if let Some(fault) = utf8_fault(bytes) {
        return Err(Refusal::Found(fault));
    }
    tree_part(alloc, algebra, bytes, whole)
}

/// The part of the features of a file of GeoJSON under the algebra's query, from what its pieces gave. The encoding of
/// the whole file is tested only where that of its pieces doesn't show it to be valid.
///
/// # Errors
/// As of [`finish_json`].
pub fn finish_json_file(
    alloc: Global,
    algebra: &GeoAlgebra,
    bytes: &[u8],
    whole: JsonFragment,
) -> Result<Part, Refusal>
    requires fits { length bytes.now ≤ 2 ^ 28 }
    requires whole { StandsForText algebra.now (text_begin bytes.now) (drop (text_begin bytes.now) bytes.now) whole }
    ensures { MatchResult result (IsFilePart GeoJson algebra.now.digits algebra.now.how algebra.now.query bytes.now)
        (λ end. IfFound end (λ fault. HasFileFaultIn GeoJson algebra.now.digits algebra.now.how bytes.now
        (Some fault))) }
{
    if is_valid_around(bytes, whole.valid) {
        tree_part(alloc, algebra, bytes, whole.text)
    } else {
        finish_json(alloc, algebra, bytes, whole.text)
    }
}
