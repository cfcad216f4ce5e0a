//! The places at which a file is cut into blocks.

ghost use Rattle.std.specs.Prelude.{◌≡◌, ◌+◌, ◌-◌, ◌*◌, ◌/◌, ◌^◌, ◌<◌, ◌≤◌, ◌↔◌, IsTrue, IsSome, IfSome, IfOk, List, ℕ};
ghost use Rattle.std.specs.Prelude.{length, slice_index};
ghost use Rattle.std.specs.List.Sorted.{IsNonDecreasing};
ghost use Rattle.at_crew.specs.Nodes.{IsBlockCount};
ghost use Rattle.at_blocks.specs.Places.{IsLeastCount, AreCuts, AreEven, first_place, last_place};
ghost use Rattle.at_blocks.specs.Places.{even_place};

use crate::feature_cuts::Searches;
use at_text::{MOST_BLOCKS, Memory};
use std::alloc::Global;
use std::marker::Model;

/// Places that never fall, at which a file is cut into blocks: one place more than there are blocks, of which there
/// are a power of two from 1 to 4,096. Blocks may be empty.
#[derive(Drop)]
pub struct Cuts {
    places: Vec<u32>,
}

impl Model for Cuts {
    ghost Value = { List ℕ };

    ghost view = { λ c. c.places.items };

    ghost invariant = { λ c. AreCuts c.places.items };
}

/// How many blocks there are where so many are wanted: the least power of two that is no less.
fn block_count(blocks: u32) -> u32
    requires some { 1 ≤ blocks }
    requires few { blocks ≤ 4096 }
    ensures { IsLeastCount blocks result }
{
    blocks.next_power_of_two()
}

/// One of the places that cut the bytes from `base` to `len` evenly.
fn place_at(base: u32, len: u32, count: u32, index: u32) -> u32
    requires order { base ≤ len }
    requires short { len ≤ 2 ^ 28 }
    requires counted { IsBlockCount count }
    requires within { index ≤ count }
    ensures { result ≡ even_place base len count index }
{
    base + (u64::from(index) * u64::from(len - base) / u64::from(count)) as u32
}

/// All places that cut the bytes from `base` to `len` evenly into so many blocks.
fn even_places(alloc: Global, base: u32, len: u32, count: u32) -> Result<Vec<u32>, Memory>
    requires order { base ≤ len }
    requires short { len ≤ 2 ^ 28 }
    requires counted { IsBlockCount count }
    ensures counted { IfOk result (λ places. length places.items ≡ count + 1) }
    ensures each { IfOk result (λ places. (i : ℕ) → i ≤ count
        → slice_index places.items i ≡ even_place base len count i) }
{
    let mut places = Vec::with_capacity(alloc, count as usize + 1)?;
    for index in 0..count + 1 {
        places.push(place_at(base, len, count, index))?;
    }
    Ok(places)
}

/// Whether a file can be cut into so many blocks.
fn is_block_count(blocks: usize) -> bool
    ensures { IsTrue result ↔ IsBlockCount blocks }
{
    blocks.is_power_of_two() && blocks <= MOST_BLOCKS
}

/// Whether no place is less than the one before it.
fn never_fall(places: &[u32]) -> bool
    ensures { IsTrue result ↔ IsNonDecreasing places.now }
{
    places.is_sorted()
}

/// Whether a list can be the places of cuts.
fn are_cuts(places: &[u32]) -> bool
    ensures { IsTrue result ↔ AreCuts places.now }
{
    !places.is_empty() && is_block_count(places.len() - 1) && never_fall(places)
}

impl Cuts {
    /// Cuts the bytes from `base` up to `len` into blocks as even as they can be. There are as many blocks as the
    /// least power of two that is at least `blocks`.
    pub fn even(alloc: Global, base: u32, len: u32, blocks: u32) -> Result<Cuts, Memory>
        requires order { base ≤ len }
        requires short { len ≤ 2 ^ 28 }
        requires some { 1 ≤ blocks }
        requires few { blocks ≤ 4096 }
        ensures even { IfOk result (AreEven base len blocks) }
        ensures first { IfOk result (λ cuts. first_place cuts ≡ base) }
        ensures last { IfOk result (λ cuts. last_place cuts ≡ len) }
    {
        let places = even_places(alloc, base, len, block_count(blocks))?;
        Ok(Cuts { places })
    }

    /// These cuts of a file of GeoJSON, each but the first and the last moved to the next place, before the cut behind
    /// it, at which a feature seems to begin; one stays where none seems to, as inside of a long coastline, where not
    /// each cut is looked at. Blocks of whole features are read fastest.
    pub fn near_features(self, bytes: &[u8]) -> Cuts
        requires { last_place self ≤ length bytes.now }
        ensures first { first_place result ≡ first_place self }
        ensures last { last_place result ≡ last_place self }
        ensures count { length result ≡ length self }
    {
        let mut places = self.places;
        let last = places.len() - 1;
        let mut searches = Searches::new();
        for index in 1..last {
            let from = places[index] as usize;
            let to = places[index + 1] as usize;
            places[index] = searches.cut_between(bytes, from, to) as u32;
        }
        Cuts { places }
    }

    /// The cuts at these places; None exactly where they fall somewhere, or where the count of blocks between them is
    /// no power of two from 1 to 4,096. It takes no memory.
    pub fn from_places(places: Vec<u32>) -> Option<Cuts>
        ensures accepted { IsSome result ↔ AreCuts places.items }
        ensures kept { IfSome result (λ cuts. cuts ≡ places.items) }
    {
        if are_cuts(places.as_slice()) {
            Some(Cuts { places })
        } else {
            None
        }
    }

    /// The places as a slice.
    pub fn as_slice(&self) -> &[u32]
        ensures places { result.now ≡ self.now }
        ensures are_cuts { AreCuts self.now }
    {
        self.places.as_slice()
    }

    /// Where the first block begins.
    pub fn first(&self) -> u32
        ensures { result ≡ first_place self.now }
    {
        self.places[0]
    }

    /// Where the last block ends.
    pub fn last(&self) -> u32
        ensures { result ≡ last_place self.now }
    {
        self.places[self.places.len() - 1]
    }
}
