//! A file read in its blocks one after the other, without threads.

ghost use Rattle.std.specs.Prelude.{◌+◌, ◌≤◌, ◌<◌, ◌^◌, length, slice_index};
ghost use Rattle.std.specs.List.Sorted.{IsNonDecreasing};
ghost use Rattle.at_text.specs.Spans.{StandsAt};
ghost use Rattle.at_blocks.specs.Places.{first_place, last_place};

use at_text::Pieces;
use std::alloc::Global;

/// The fragment of one block, between place `index` and the next.
fn run_block<P: Pieces>(
    alloc: Global,
    reader: &P,
    bytes: &[u8],
    places: &[u32],
    index: usize,
) -> P::Fragment
    requires short { length bytes.now ≤ 2 ^ 28 }
    requires order { IsNonDecreasing places.now }
    requires within { last_place places.now ≤ length bytes.now }
    requires inside { index + 1 < length places.now }
    ensures { StandsAt (P.stands reader.now) bytes.now (slice_index places.now index)
        (slice_index places.now (index + 1)) result }
{
    let from = places[index];
    let to = places[index + 1];
    reader.run_piece(alloc, &bytes[from as usize..to as usize], from)
}

/// The fragment of all bytes from the first place to the last, without threads: in the code the blocks are run in
/// order, and merged from left to right.
pub fn run_blocks<P: Pieces>(alloc: Global, reader: &P, bytes: &[u8], places: &[u32]) -> P::Fragment
    requires short { length bytes.now ≤ 2 ^ 28 }
    requires order { IsNonDecreasing places.now }
    requires within { last_place places.now ≤ length bytes.now }
    requires some { 1 < length places.now }
    ensures { StandsAt (P.stands reader.now) bytes.now (first_place places.now) (last_place places.now) result }
{
    let mut whole = run_block(alloc, reader, bytes, places, 0);
    for index in 1..places.len() - 1 {
        let block = run_block(alloc, reader, bytes, places, index);
        whole = reader.merge_pieces(alloc, bytes, whole, block);
    }
    whole
}
