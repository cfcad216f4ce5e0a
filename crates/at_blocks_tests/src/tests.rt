//! The places at which files are cut, a reader whose pieces are run one by one and by passes, and the encoding of pieces.

ghost use Rattle.std.specs.Prelude.{◌≤◌, ◌^◌};

use at_blocks::{Cuts, run_blocks, run_file, valid_span};
use at_crew::Free;
use at_text::Pieces;
use std::alloc::{AllocError, Global};
use std::process::Abort;
use std::test::Fail;

/// Whether so many blocks have these borders.
fn is_even(
    alloc: Global,
    first: u32,
    last: u32,
    blocks: u32,
    expected: &[u32],
) -> Result<bool, Fail>
    requires order { first ≤ last }
    requires end { last ≤ 2 ^ 28 }
    requires some { 1 ≤ blocks }
    requires few { blocks ≤ 4096 }
{
    let even = Cuts::even(alloc, first, last, blocks)?;
    Ok(even.as_slice() == expected)
}

#[test]
fn places(rt: HostRuntime) -> Result<(), Fail> {
    assert!(rt; is_even(rt.alloc(), 0, 3, 3, &[0, 0, 1, 2, 3])?);
    assert!(rt; is_even(rt.alloc(), 3, 31, 2, &[3, 17, 31])?);
    assert!(rt; is_even(rt.alloc(), 5, 5, 1, &[5, 5])?);
    let most = Cuts::even(rt.alloc(), 0, 268_435_456, 4096)?;
    assert!(rt; most.as_slice().len() == 4097);
    Ok(())
}

fn is_accepted(alloc: Global, places: &[u32]) -> Result<bool, AllocError> {
    Ok(Cuts::from_places(Vec::from_slice(alloc, places)?).is_some())
}

fn compare_lists<R: Abort + AllocGlobal>(
    rt: &R,
    lists: &[&'static [u32]],
    expected: bool,
) -> Result<(), Fail> {
    for (row, places) in lists.iter().enumerate() {
        let accepted = is_accepted(rt.alloc(), places)?;
        assert!(rt; accepted == expected, "list {row}");
    }
    Ok(())
}

/// Whether a list of so many zeros is accepted.
fn are_zeros_accepted(alloc: Global, count: usize) -> Result<bool, AllocError> {
    Ok(Cuts::from_places(vec![in alloc; 0; count]?).is_some())
}

#[test]
fn lists_of_places(rt: HostRuntime) -> Result<(), Fail> {
    let refused: [&'static [u32]; 4] = [&[0, 5, 3], &[0, 1, 2, 3], &[0], &[]];
    let accepted: [&'static [u32]; 2] = [&[7, 7], &[0, 5, 5]];
    compare_lists(&rt, &refused, false)?;
    compare_lists(&rt, &accepted, true)?;
    assert!(rt; are_zeros_accepted(rt.alloc(), 4097)?);
    assert!(rt; !are_zeros_accepted(rt.alloc(), 8193)?);
    Ok(())
}

/// A feature by its type, an object that is none, and three that begin as features do, one of them on a line of its own.
const OBJECTS: &[u8] =
    b"[{\"type\":\"Feature\"},{\"a\":1},{\"id\":2} ,\n {\"bbox\":[]},{\"properties\":0}]";

/// Whether these cuts of the objects, moved to where features seem to begin, are those.
fn are_moved(alloc: Global, places: &[u32], expected: &[u32]) -> Result<bool, AllocError> {
    let Some(cuts) = Cuts::from_places(Vec::from_slice(alloc, places)?) else {
        return Ok(false);
    };
    if cuts.last() as usize > OBJECTS.len() {
        return Ok(false);
    }
    Ok(cuts.near_features(OBJECTS).as_slice() == expected)
}

#[test]
fn cuts_near_features(rt: HostRuntime) -> Result<(), Fail> {
    let alloc = rt.alloc();
    assert!(rt; are_moved(alloc, &[0, 5, 30, 45, 69], &[0, 27, 37, 51, 69])?);
    assert!(rt; are_moved(alloc, &[0, 27, 38, 41, 69], &[0, 27, 38, 51, 69])?);
    assert!(rt; are_moved(alloc, &[0, 69], &[0, 69])?);
    assert!(rt; are_moved(alloc, &[0, 0, 0, 69, 69], &[0, 0, 27, 69, 69])?);
    Ok(())
}

/// A reader that counts bytes.
#[derive(Drop)]
struct Counting {
    each: u32,
}

impl Pieces for Counting {
    type Fragment = u32;

    ghost stands = { λ _ at bytes fragment. Unit {0} };

    fn run_piece(&self, _alloc: Global, piece: &[u8], _base: u32) -> u32 {
        self.each.wrapping_mul(piece.len() as u32)
    }

    fn merge_pieces(&self, _alloc: Global, _bytes: &[u8], left: u32, right: u32) -> u32 {
        left.wrapping_add(right)
    }
}

#[test]
fn blocks_of_a_reader(rt: HostRuntime) -> Result<(), Fail> {
    let alloc = rt.alloc();
    let counting = Counting { each: 3 };
    let cuts = Cuts::even(alloc, 1, 10, 4)?;
    let bytes = b"0123456789";
    assert!(rt; run_blocks(alloc, &counting, bytes, cuts.as_slice()) == 27);
    assert!(rt; run_file(&rt, alloc, &counting, bytes, &cuts, 2, &Free)? == 27);
    Ok(())
}

/// The character of three bytes is cut in two before its last byte, and behind its first.
#[test]
fn spans_of_pieces(rt: HostRuntime) -> Result<(), Fail> {
    let whole = valid_span(b"a\xE2\x82\xACb", 7);
    assert!(rt; whole.from == 7 && whole.to == 12);
    let right = valid_span(b"\xACb", 10);
    assert!(rt; right.from == 11 && right.to == 12);
    let left = valid_span(b"a\xE2", 7);
    assert!(rt; left.from == 7 && left.to == 8);
    Ok(())
}

/// What the page of `at_blocks` shows.
#[test]
fn the_example_of_the_crate(rt: HostRuntime) -> Result<(), Fail> {
    let alloc = rt.alloc();
    let cuts = Cuts::even(alloc, 0, 10, 4)?;
    assert!(rt; cuts.as_slice() == [0, 2, 5, 7, 10].as_slice());
    Ok(())
}
