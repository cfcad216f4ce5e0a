//! Fragments of neighbouring spans, of which those of one rank are merged.

ghost use Rattle.std.specs.Prelude.{◌≡◌, ◌++◌, ◌∷◌, [], ◌≤◌, ◌^◌, length, reverse, MatchOption, OnOk};
ghost use Rattle.at_text.specs.Spans.{StandsAt};
ghost use Rattle.at_text.specs.Texts.{base_of as text_begin};
ghost use Rattle.at_task.specs.Ranking.{AreBeside, ReadUpTo};

use at_text::{Memory, Pieces, base_of};
use std::alloc::Global;

/// The fragment of a span that begins at an offset. A piece has rank 0, and what two neighbours of one rank give
/// together has the rank above it.
#[derive(Drop)]
pub struct Ranked<F> {
    pub fragment: F,
    pub from: usize,
    pub rank: u32,
}

/// The fragment of the bytes behind those that were read.
pub fn read_rest<P: Pieces>(
    alloc: Global,
    reader: &P,
    bytes: &[u8],
    read: usize,
) -> Ranked<P::Fragment>
    requires short { length bytes.now ≤ 2 ^ 28 }
    requires within { read ≤ length bytes.now }
    ensures order { result.from ≤ length bytes.now }
    ensures stands { StandsAt (P.stands reader.now) bytes.now result.from (length bytes.now) result.fragment }
    ensures beside { (ranks : _) → ReadUpTo (P.stands reader.now) bytes.now read ranks
        → AreBeside (P.stands reader.now) bytes.now (text_begin bytes.now) result.from (reverse ranks) }
{
    let from = if read == 0 {
        base_of(bytes) as usize
    } else {
        read
    };
    Ranked {
        fragment: reader.run_piece(alloc, &bytes[from..], from as u32),
        from,
        rank: 0,
    }
}

/// Takes the last fragment, if its rank is this one.
fn pop_equal<F: Drop>(ranks: &mut Vec<Ranked<F>>, rank: u32) -> Option<Ranked<F>>
    ensures { MatchOption result (ranks.new.items ≡ ranks.old.items)
        (λ last. ranks.old.items ≡ ranks.new.items ++ last ∷ []) }
{
    match ranks.last() {
        Some(last) if last.rank == rank => ranks.pop(),
        _ => None,
    }
}

/// The fragment of two neighbouring spans, of which the first begins at an offset.
fn merged<P: Pieces>(
    alloc: Global,
    reader: &P,
    bytes: &[u8],
    left: Ranked<P::Fragment>,
    right: Ranked<P::Fragment>,
    to: usize,
) -> Ranked<P::Fragment>
    requires short { length bytes.now ≤ 2 ^ 28 }
    requires within { to ≤ length bytes.now }
    requires first { left.from ≤ right.from }
    requires second { right.from ≤ to }
    requires left { StandsAt (P.stands reader.now) bytes.now left.from right.from left.fragment }
    requires right { StandsAt (P.stands reader.now) bytes.now right.from to right.fragment }
    ensures from { result.from ≡ left.from }
    ensures stands { StandsAt (P.stands reader.now) bytes.now left.from to result.fragment }
{
    Ranked {
        fragment: reader.merge_pieces(alloc, bytes, left.fragment, right.fragment),
        from: left.from,
        rank: right.rank.saturating_add(1),
    }
}

/// Puts the fragment of the bytes up to an end behind those before it. Two of one rank are merged, from the last on.
pub fn settle<P: Pieces>(
    alloc: Global,
    reader: &P,
    bytes: &[u8],
    ranks: &mut Vec<Ranked<P::Fragment>>,
    piece: Ranked<P::Fragment>,
    to: usize,
) -> Result<(), Memory>
    requires short { length bytes.now ≤ 2 ^ 28 }
    requires within { to ≤ length bytes.now }
    requires order { piece.from ≤ to }
    requires piece { StandsAt (P.stands reader.now) bytes.now piece.from to piece.fragment }
    requires beside { AreBeside (P.stands reader.now) bytes.now (text_begin bytes.now) piece.from
        (reverse ranks.old.items) }
    ensures { OnOk result (AreBeside (P.stands reader.now) bytes.now (text_begin bytes.now) to
        (reverse ranks.new.items)) }
{
    let mut piece = piece;
    while let Some(last) = pop_equal(ranks, piece.rank) {
        piece = merged(alloc, reader, bytes, last, piece, to);
    }
    ranks.push(piece)?;
    Ok(())
}

/// The fragment of all bytes: those before the last piece and that piece are merged, from the last on.
pub fn join_all<P: Pieces>(
    alloc: Global,
    reader: &P,
    bytes: &[u8],
    ranks: Vec<Ranked<P::Fragment>>,
    last: Ranked<P::Fragment>,
) -> P::Fragment
    requires short { length bytes.now ≤ 2 ^ 28 }
    requires order { last.from ≤ length bytes.now }
    requires last { StandsAt (P.stands reader.now) bytes.now last.from (length bytes.now) last.fragment }
    requires beside { AreBeside (P.stands reader.now) bytes.now (text_begin bytes.now) last.from
        (reverse ranks.items) }
    ensures { StandsAt (P.stands reader.now) bytes.now (text_begin bytes.now) (length bytes.now) result }
{
    let mut ranks = ranks;
    let mut whole = last;
    while let Some(before) = ranks.pop() {
        whole = merged(alloc, reader, bytes, before, whole, bytes.len());
    }
    whole.fragment
}
