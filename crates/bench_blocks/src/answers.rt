//! The answer to a query over a file whose blocks `rayon` runs.

ghost use Rattle.std.specs.Prelude.{◌≡◌, ◌≢◌, ◌≤◌, ◌^◌, length, MatchResult, Some};
ghost use Rattle.at_text.specs.Refusals.{IfFound};
ghost use Rattle.at_query.specs.Ranges.{IsQueryInRange};
ghost use Rattle.at_run.specs.Files.{HasFileFaultIn};
ghost use Rattle.at_run.specs.Answers.{IsFileAnswer};

use crate::blocks::run_by_rayon;
use at_blocks::Cuts;
use at_fixed::Coords;
use at_query::{Answer, Query, Verb, answer_of};
use at_run::{Form, Reader, RunFault};
use at_text::base_of;
use std::alloc::Global;
use std::thread::Threads;

/// The decimal digits of a coordinate: a unit is 10^-7.
pub const DIGITS: u8 = 7;

/// The answer to a query over a file's features, or the file's first fault, from even blocks that `rayon` runs.
///
/// # Errors
/// `Found` is the file's first fault, exactly where it has one. `Memory` comes where an allocation was refused.
pub fn answer<R: Threads + Sync>(
    rt: &R,
    alloc: Global,
    bytes: &[u8],
    form: Form,
    query: Query,
    blocks: u32,
) -> Result<Answer, RunFault>
    requires short { length bytes.now ≤ 2 ^ 28 }
    requires blocks { (1 ≤ blocks) × (blocks ≤ 4096) }
    requires no_join { query.verb ≢ Verb.Join }
    requires in_range { IsQueryInRange query }
    ensures { MatchResult result (IsFileAnswer form DIGITS Coords.Round query bytes.now)
        (λ end. IfFound end (λ fault. HasFileFaultIn form DIGITS Coords.Round bytes.now (Some fault))) }
{
    let cuts = Cuts::even(alloc, base_of(bytes), bytes.len() as u32, blocks)?;
    let reader = Reader::new(form, query, DIGITS, Coords::Round);
    let whole = run_by_rayon(rt, alloc, &reader, bytes, cuts.as_slice())?;
    let part = reader.finish_pieces(alloc, bytes, whole)?;
    Ok(answer_of(part))
}
