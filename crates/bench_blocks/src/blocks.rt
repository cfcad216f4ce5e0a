//! A file read in blocks by `rayon`, for any reader of pieces.

ghost use Rattle.std.specs.Prelude.{◌≡◌, ◌+◌, ◌-◌, ◌<◌, ◌≤◌, ◌^◌, IfOk, length, slice_index};
ghost use Rattle.std.specs.List.Sorted.{IsNonDecreasing};
ghost use Rattle.at_text.specs.Spans.{StandsAt};
ghost use Rattle.at_blocks.specs.Places.{first_place, last_place};
ghost use Rattle.bench_blocks.specs.Fragments.{AreFragments};

use at_text::{Memory, Pieces};
use rayon::prelude::*;
use std::alloc::{AllocError, Global};
use std::thread::Threads;

/// The fragments of all blocks, in order. The blocks are shared out as `rayon` halves a list: among two threads for
/// each processor, at most 64, rounded down to a power of two.
fn fragments<P: Pieces, R: Threads + Sync>(
    rt: &R,
    alloc: Global,
    reader: &P,
    bytes: &[u8],
    places: &[u32],
) -> Result<Vec<P::Fragment>, AllocError>
    requires short { length bytes.now ≤ 2 ^ 28 }
    requires order { IsNonDecreasing places.now }
    requires within { last_place places.now ≤ length bytes.now }
    requires some { 1 < length places.now }
    ensures { IfOk result (λ v. AreFragments (P.stands reader.now) bytes.now places.now v.items) }
{
    let count = places.len() - 1;
    (0..count)
        .into_par_iter()
        .with_min_len(1)
        .map(
            |index: usize| -> P::Fragment
                requires { (index + 1 < length places.now) × IsNonDecreasing places.now
                    × (last_place places.now ≤ length bytes.now) × (length bytes.now ≤ 2 ^ 28) }
                ensures { StandsAt (P.stands reader.entry.now) bytes.entry.now (slice_index places.entry.now index)
                    (slice_index places.entry.now (index + 1)) result }
            {
                let from = places[index];
                let to = places[index + 1];
                reader.run_piece(alloc, &bytes[from as usize..to as usize], from)
            },
        )
        .collect(rt, alloc)
}

/// The fragment of all bytes from the first place to the last: the fragments of the blocks are merged from left to
/// right, behind that of no bytes.
fn merge_all<P: Pieces>(
    alloc: Global,
    reader: &P,
    bytes: &[u8],
    places: &[u32],
    fragments: Vec<P::Fragment>,
) -> P::Fragment
    requires short { length bytes.now ≤ 2 ^ 28 }
    requires order { IsNonDecreasing places.now }
    requires within { last_place places.now ≤ length bytes.now }
    requires some { 1 < length places.now }
    requires blocks { AreFragments (P.stands reader.now) bytes.now places.now fragments.items }
    ensures { StandsAt (P.stands reader.now) bytes.now (first_place places.now) (last_place places.now) result }
{
    let first = places[0];
    let mut whole = reader.run_piece(alloc, &bytes[first as usize..first as usize], first);
    for fragment in fragments {
        whole = reader.merge_pieces(alloc, bytes, whole, fragment);
    }
    whole
}

/// The fragment of all bytes from the first place to the last: the blocks are run by `rayon`, each by itself, and
/// merged from left to right.
///
/// # Errors
/// Where an allocation was refused.
pub fn run_by_rayon<P: Pieces, R: Threads + Sync>(
    rt: &R,
    alloc: Global,
    reader: &P,
    bytes: &[u8],
    places: &[u32],
) -> Result<P::Fragment, Memory>
    requires short { length bytes.now ≤ 2 ^ 28 }
    requires order { IsNonDecreasing places.now }
    requires within { last_place places.now ≤ length bytes.now }
    requires some { 1 < length places.now }
    ensures { IfOk result (StandsAt (P.stands reader.now) bytes.now (first_place places.now) (last_place places.now)) }
{
    let fragments = fragments(rt, alloc, reader, bytes, places)?;
    Ok(merge_all(alloc, reader, bytes, places, fragments))
}
