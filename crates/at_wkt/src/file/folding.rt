//! What is made of the lines of a file, one behind another.

ghost use Rattle.std.specs.Prelude.{◌≡◌, ◌+◌, ◌≤◌, ◌^◌, false, List, [], ◌∷◌, ◌++◌, length, take, IfOk};
ghost use Rattle.std.specs.List.{list_any};
ghost use Rattle.at_wkt.specs.Lines.{FileLine, is_line_feed, is_blank_text, lines_in};
ghost use Rattle.at_wkt.specs.Folding.{AddsLines};

use crate::file::files::{is_blank_line, line_len};
use crate::line::rooms::Room;
use at_text::Memory;
use std::alloc::Global;
use std::mem;

/// A way to make something of the lines of a file: a part of any list of them.
///
/// `is_fold` says of which lines, each with its offset and its text, a part is a fold. The parts of no line, of one
/// line and of joined lists are all that a fold of a file is made from, so wherever the file is cut, what comes out is
/// a fold of the same lines. Offsets are of the file.
pub trait Fold: Sync {
    type Part: Send + Drop;

    /// The part is one that this fold made.
    ghost is_own: { Self → Self.Part → Type 0 };

    /// The part is the fold of the lines.
    ghost is_fold: { Self → Self.Part → List FileLine → Type 0 };

    /// The part of no line. It takes no memory.
    fn none(&self, alloc: Global) -> Self::Part
        ensures own { is_own self.now result }
        ensures fold { is_fold self.now result [] };

    /// The part of one line, without its end, which begins at the offset and has more than blanks. The one refusal is
    /// want of memory.
    fn line(&self, alloc: Global, text: &[u8], at: u32) -> Result<Self::Part, Memory>
        requires short { at + length text.now ≤ 2 ^ 28 }
        requires one { list_any is_line_feed text.now ≡ false }
        requires some { is_blank_text text.now ≡ false }
        ensures own { IfOk result (is_own self.now) }
        ensures fold { IfOk result (λ part. is_fold self.now part (record { at = at; text = text.now } ∷ [])) };

    /// The part of the lines of the one, and behind them those of the other. The one refusal is want of memory.
    fn join(&self, alloc: Global, left: Self::Part, right: Self::Part) -> Result<Self::Part, Memory>
        requires left { is_own self.now left }
        requires right { is_own self.now right }
        ensures own { IfOk result (is_own self.now) }
        ensures fold { IfOk result (λ part. (before behind : List FileLine) → is_fold self.now left before
            → is_fold self.now right behind → is_fold self.now part (before ++ behind)) };

    /// Puts one line behind those of the part, as `line` and `join` would: a fold that can do it in less has its own
    /// body. The line is the first `len` of the bytes ahead; those behind it may be looked at, and change nothing. The
    /// room serves one line after another. The one refusal is want of memory.
    fn add(
        &self,
        alloc: Global,
        _room: &mut Room,
        part: &mut Self::Part,
        ahead: &[u8],
        len: usize,
        at: u32,
    ) -> Result<(), Memory>
        requires own { is_own self.now part.old }
        requires inside { len ≤ length ahead.now }
        requires short { at + length ahead.now ≤ 2 ^ 28 }
        requires one { list_any is_line_feed (take len ahead.now) ≡ false }
        requires some { is_blank_text (take len ahead.now) ≡ false }
        ensures own { IfOk result (λ _. is_own self.now part.new) }
        ensures fold { IfOk result
            (λ _. AddsLines (is_fold self.now) part.old (record { at = at; text = take len ahead.now } ∷ []) part.new) }
    {
        let one = self.line(alloc, &ahead[..len], at)?;
        let before = mem::replace(part, self.none(alloc));
        *part = self.join(alloc, before, one)?;
        Ok(())
    }
}

/// Puts a piece between two line feeds behind the lines of the part: the first `len` of the bytes ahead. It is passed
/// over where it has nothing but blanks.
pub fn fold_piece<F: Fold>(
    alloc: Global,
    fold: &F,
    room: &mut Room,
    part: &mut F::Part,
    ahead: &[u8],
    len: usize,
    at: u32,
) -> Result<(), Memory>
    requires inside { len ≤ length ahead.now }
    requires short { at + length ahead.now ≤ 2 ^ 28 }
    requires one { list_any is_line_feed (take len ahead.now) ≡ false }
    requires own { F.is_own fold.now part.old }
    ensures own { IfOk result (λ _. F.is_own fold.now part.new) }
    ensures fold { IfOk result (λ _. AddsLines (F.is_fold fold.now) part.old
        (lines_in (record { at = at; text = take len ahead.now } ∷ [])) part.new) }
{
    let line = line_len(&ahead[..len]);
    if is_blank_line(&ahead[..line]) {
        return Ok(());
    }
    fold.add(alloc, room, part, ahead, line, at)
}
