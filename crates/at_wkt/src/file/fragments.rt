//! Fragments: what a span of a file is that is read line by line, whatever stands before it.

ghost use Rattle.std.specs.Prelude.{◌≡◌, ℕ, ◌+◌, ◌≤◌, ◌^◌, ◌<◌, ◌⊎◌, false, IsErr, [], ◌∷◌, length, drop, IfOk};
ghost use Rattle.std.specs.List.{list_any, position_or_len};
ghost use Rattle.at_text.specs.Texts.{base_of as base_in};
ghost use Rattle.at_text.specs.Spans.{AreNeighbours, IsMerged, span_of};
ghost use Rattle.at_wkt.specs.Lines.{lines_of, lines_in, is_line_feed};
ghost use Rattle.at_wkt.specs.FoldParts.{IsPartOf};
ghost use Rattle.at_wkt.specs.Folding.{AddsLines, HoldsInner, HoldsLines, IsLost, IsPiece, StandsFor};
ghost use Rattle.at_wkt.specs.Folding.{fragment_of};

use crate::file::folding::{Fold, fold_piece};
use crate::file::searches::first_place;
use crate::line::rooms::Room;
use at_text::{Memory, Span, base_of};
use std::alloc::Global;

/// A span with a line feed: what stands before its first one and behind its last one, and the part of the lines
/// between them that aren't blank.
#[derive(Drop)]
pub struct WholeLines<P> {
    pub before: Span,
    pub part: P,
    pub behind: Span,
}

/// What a span of a file is, by the fold of its whole lines. Offsets are of the file.
#[derive(Drop)]
pub enum LineFragment<P> {
    /// It stands for any span: what was to be kept of it found no memory.
    Lost,
    /// A span without a line feed.
    Piece(Span),
    /// A span with one.
    Lines(WholeLines<P>),
}

/// The part of the lines up to the last line feed, and the place behind that one.
#[derive(Drop)]
struct Inner<P> {
    part: P,
    end: usize,
}

/// The lines of bytes, the first of which has the offset, up to their last line feed.
fn read_inner<F: Fold>(
    alloc: Global,
    fold: &F,
    bytes: &[u8],
    at: u32,
) -> Result<Inner<F::Part>, Memory>
    requires { at + length bytes.now ≤ 2 ^ 28 }
    ensures { IfOk result (HoldsInner (IsPartOf F.Fold fold.now) at bytes.now) }
{
    let mut part = fold.none(alloc);
    let mut room = Room::new(alloc);
    let mut start = 0;
    'lines: loop {
        let end = start + first_place(b'\n', &bytes[start..]);
        if end == bytes.len() {
            return Ok(Inner { part, end: start });
        }
        fold_piece(
            alloc,
            fold,
            &mut room,
            &mut part,
            &bytes[start..],
            end - start,
            at + start as u32,
        )?;
        start = end + 1;
    }
}

/// The lines of a piece of a file that has its first line feed at the place.
fn read_whole<F: Fold>(
    alloc: Global,
    fold: &F,
    piece: &[u8],
    base: u32,
    first: usize,
) -> Result<WholeLines<F::Part>, Memory>
    requires short { base + length piece.now ≤ 2 ^ 28 }
    requires first { first ≡ position_or_len is_line_feed piece.now }
    requires inside { first < length piece.now }
    ensures { IfOk result (HoldsLines (IsPartOf F.Fold fold.now) base piece.now) }
{
    let before = Span {
        from: base,
        to: base + first as u32,
    };
    let next = before.to + 1;
    let Inner { part, end } = read_inner(alloc, fold, &piece[first + 1..], next)?;
    let behind = Span {
        from: next + end as u32,
        to: base + piece.len() as u32,
    };
    Ok(WholeLines {
        before,
        part,
        behind,
    })
}

/// The fragment of lines, or the lost one where memory is wanted.
fn lines_or_lost<P: Drop>(lines: Result<WholeLines<P>, Memory>) -> LineFragment<P>
    ensures { result ≡ fragment_of lines }
{
    match lines {
        Ok(whole) => LineFragment::Lines(whole),
        Err(_) => LineFragment::Lost,
    }
}

/// The fragment of a piece of a file, whose first byte stands at the offset `base`. It sees the piece alone. Where
/// memory is wanted, the fragment is lost.
pub fn run_lines<F: Fold>(alloc: Global, fold: &F, piece: &[u8], base: u32) -> LineFragment<F::Part>
    requires { base + length piece.now ≤ 2 ^ 28 }
    ensures { StandsFor (IsPartOf F.Fold fold.now) base piece.now result }
{
    let first = first_place(b'\n', piece);
    if first == piece.len() {
        return LineFragment::Piece(Span {
            from: base,
            to: base + first as u32,
        });
    }
    lines_or_lost(read_whole(alloc, fold, piece, base, first))
}

/// The one span and the other behind it.
fn joined(left: Span, right: Span) -> Span
    ensures { result ≡ record { from = left.from; to = right.to } }
{
    Span {
        from: left.from,
        to: right.to,
    }
}

/// The part, and behind it the bytes of a span between two line feeds.
fn fold_span<F: Fold>(
    alloc: Global,
    fold: &F,
    part: F::Part,
    bytes: &[u8],
    span: Span,
) -> Result<F::Part, Memory>
    requires fits { length bytes.now ≤ 2 ^ 28 }
    requires order { span.from ≤ span.to }
    requires within { span.to ≤ length bytes.now }
    requires one { list_any is_line_feed (span_of bytes.now span.from span.to) ≡ false }
    requires own { F.is_own fold.now part }
    ensures own { IfOk result (F.is_own fold.now) }
    ensures fold { IfOk result
        (AddsLines (F.is_fold fold.now) part
        (lines_in (record { at = span.from; text = span_of bytes.now span.from span.to } ∷ []))) }
{
    let piece = &bytes[span.from as usize..span.to as usize];
    let mut room = Room::new(alloc);
    let mut both = part;
    fold_piece(
        alloc,
        fold,
        &mut room,
        &mut both,
        piece,
        piece.len(),
        span.from,
    )?;
    Ok(both)
}

/// The lines of two neighbouring spans: the line that lies in both is read, and nothing else.
fn merge_whole<F: Fold>(
    alloc: Global,
    fold: &F,
    bytes: &[u8],
    left: WholeLines<F::Part>,
    right: WholeLines<F::Part>,
) -> Result<WholeLines<F::Part>, Memory>
    requires fits { length bytes.now ≤ 2 ^ 28 }
    requires neighbours { (i : ℕ) × (j : ℕ) × (k : ℕ)
        × AreNeighbours (StandsFor (IsPartOf F.Fold fold.now)) bytes.now i j k
        (LineFragment.Lines left) (LineFragment.Lines right) }
    ensures { IfOk result (λ both. IsMerged (StandsFor (IsPartOf F.Fold fold.now)) bytes.now
        (LineFragment.Lines left) (LineFragment.Lines right) (LineFragment.Lines both)) }
{
    let broken = joined(left.behind, right.before);
    let added = fold_span(alloc, fold, left.part, bytes, broken)?;
    let part = fold.join(alloc, added, right.part)?;
    Ok(WholeLines {
        before: left.before,
        part,
        behind: right.behind,
    })
}

/// The fragment of two neighbouring spans of the bytes. Of the bytes it touches those of the one line that lies in both
/// spans. A merge with a lost fragment is lost, and so is one that finds no memory. Where one of the two has no line
/// feed, no memory is asked for.
pub fn merge_lines<F: Fold>(
    alloc: Global,
    fold: &F,
    bytes: &[u8],
    left: LineFragment<F::Part>,
    right: LineFragment<F::Part>,
) -> LineFragment<F::Part>
    requires fits { length bytes.now ≤ 2 ^ 28 }
    requires neighbours { (i : ℕ) × (j : ℕ) × (k : ℕ)
        × AreNeighbours (StandsFor (IsPartOf F.Fold fold.now)) bytes.now i j k left right }
    ensures merged { IsMerged (StandsFor (IsPartOf F.Fold fold.now)) bytes.now left right result }
    ensures left_lost { IsLost left → IsLost result }
    ensures right_lost { IsLost right → IsLost result }

    // where one of the two has no line feed it takes no memory, so it is lost only with one of them
    ensures kept { IsPiece left ⊎ IsPiece right → IsLost result → IsLost left ⊎ IsLost right }
{
    match (left, right) {
        (LineFragment::Piece(left), LineFragment::Piece(right)) => {
            LineFragment::Piece(joined(left, right))
        }
        (LineFragment::Piece(left), LineFragment::Lines(right)) => {
            LineFragment::Lines(WholeLines {
                before: joined(left, right.before),
                part: right.part,
                behind: right.behind,
            })
        }
        (LineFragment::Lines(left), LineFragment::Piece(right)) => {
            LineFragment::Lines(WholeLines {
                before: left.before,
                part: left.part,
                behind: joined(left.behind, right),
            })
        }
        (LineFragment::Lines(left), LineFragment::Lines(right)) => {
            lines_or_lost(merge_whole(alloc, fold, bytes, left, right))
        }
        _ => LineFragment::Lost,
    }
}

/// The fold of all lines of a file that aren't blank, the last one without an end included, from the fragment of all
/// its bytes behind a byte order mark.
///
/// # Errors
/// `Memory` where the fragment is lost, or where memory is wanted.
pub fn finish_lines<F: Fold>(
    alloc: Global,
    fold: &F,
    bytes: &[u8],
    whole: LineFragment<F::Part>,
) -> Result<F::Part, Memory>
    requires fits { length bytes.now ≤ 2 ^ 28 }
    requires whole { StandsFor (IsPartOf F.Fold fold.now) (base_in bytes.now)
        (drop (base_in bytes.now) bytes.now) whole }
    ensures own { IfOk result (F.is_own fold.now) }
    ensures fold { IfOk result (λ part. F.is_fold fold.now part (lines_of bytes.now)) }
    ensures lost { IsLost whole → IsErr result }
{
    match whole {
        LineFragment::Lost => Err(Memory),
        LineFragment::Piece(span) => {
            let none = fold.none(alloc);
            fold_span(alloc, fold, none, bytes, span)
        }
        LineFragment::Lines(whole) => {
            let none = fold.none(alloc);
            let first = fold_span(alloc, fold, none, bytes, whole.before)?;
            let part = fold.join(alloc, first, whole.part)?;
            fold_span(alloc, fold, part, bytes, whole.behind)
        }
    }
}
