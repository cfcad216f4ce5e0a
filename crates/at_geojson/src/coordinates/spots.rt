//! How the positions of a list are read one by one: by their values, or by where they stand.

ghost use Rattle.std.specs.Prelude.{◌≡◌, ℕ, ◌≤◌, List, length, IfSome};
ghost use Rattle.std.specs.Bool.{⊤};
ghost use Rattle.at_geom.specs.declared.positions.Pos.{Pos};
ghost use Rattle.at_query.specs.Keeping.{Asked};
ghost use Rattle.at_geojson.specs.Passing.{same_values};
ghost use Rattle.at_geojson.specs.Makings.{ReadsSpot, IsValue, IsAnywhere, IsPassedOver};

use crate::coordinates::pairs::{Margins, pass_pair, read_spaced};
use crate::text::Text;
use at_geom::Pos;

/// A position that was read, with white space round it: the place of its bracket and of its first number, the one behind
/// it, and its mark.
#[derive(Clone, Copy)]
pub struct Spot<M> {
    pub bracket: usize,
    pub number: usize,
    pub end: usize,
    pub mark: M,
}

/// A stretch of a text, from one place up to another.
#[derive(Clone, Copy)]
pub struct Stretch {
    pub from: usize,
    pub to: usize,
}

/// A way to read positions. Of each it has a mark: its value, or nothing where no values are asked for.
pub trait Reads {
    /// What is known of a position that was read.
    type Mark: Copy;

    /// This value has this mark.
    ghost marks: { Pos → Self.Mark → Type 0 };

    /// A position of this value stands in the text from one place up to another.
    ghost stands: { Asked → List ℕ → ℕ → ℕ → Pos → Type 0 };

    /// White space, a position and white space, where margins are as wide as these as a rule.
    fn read(text: &Text<'_>, at: usize, margins: Margins) -> Option<Spot<Self::Mark>>
        requires inside { at ≤ length text.now.bytes.now }
        ensures { IfSome result (ReadsSpot marks (stands text.now.algebra.now text.now.bytes.now at) text.now.algebra.now text.now.base text.now.bytes.now at) };

    /// Whether two positions are the same, which stand in these stretches, and have these marks.
    fn closes(
        text: &Text<'_>,
        first: Stretch,
        mark: Self::Mark,
        last: Stretch,
        last_mark: Self::Mark,
    ) -> Option<bool>
        requires first { first.from ≤ first.to }
        requires order { first.from ≤ last.from }
        requires last { last.from ≤ last.to }
        requires inside { first.to ≤ length text.now.bytes.now }
        requires within { last.to ≤ length text.now.bytes.now }
        ensures { IfSome result (λ closes. (p q : Pos) → marks p mark
            → stands text.now.algebra.now text.now.bytes.now first.from first.to p → marks q last_mark
            → stands text.now.algebra.now text.now.bytes.now last.from last.to q → closes ≡ same_values p q) };
}

/// Positions are read by their values.
pub struct ByValue;

/// Positions are passed over: nothing but where they stand is known of them.
pub struct ByPlace;

/// Whether two values are the same.
#[inline(always)]
fn same_pos(p: Pos, q: Pos) -> bool
    ensures { result ≡ same_values p q }
{
    p.x == q.x && p.y == q.y
}

impl Reads for ByValue {
    type Mark = Pos;

    ghost marks = { IsValue };

    ghost stands = { IsAnywhere };

    #[inline(always)]
    fn read(text: &Text<'_>, at: usize, margins: Margins) -> Option<Spot<Pos>> {
        let read = read_spaced(text, at, margins)?;
        Some(Spot {
            bracket: (read.pair.at - text.base) as usize,
            number: read.pair.least.saturating_sub(text.base) as usize,
            end: read.end,
            mark: read.pair.pos,
        })
    }

    #[inline(always)]
    fn closes(
        _text: &Text<'_>,
        _first: Stretch,
        mark: Pos,
        _last: Stretch,
        last_mark: Pos,
    ) -> Option<bool> {
        Some(same_pos(mark, last_mark))
    }
}

impl Reads for ByPlace {
    type Mark = ();

    ghost marks = { λ p mark. ⊤ };

    ghost stands = { IsPassedOver };

    #[inline(always)]
    fn read(text: &Text<'_>, at: usize, margins: Margins) -> Option<Spot<()>> {
        let place = pass_pair(text, at, margins)?;
        Some(Spot {
            bracket: place.bracket,
            number: place.x.first,
            end: place.end,
            mark: (),
        })
    }

    /// Where their bytes are the same no value is computed.
    #[inline(never)]
    fn closes(
        text: &Text<'_>,
        first: Stretch,
        _mark: (),
        last: Stretch,
        _last_mark: (),
    ) -> Option<bool> {
        if text.bytes[first.from..first.to] == text.bytes[last.from..last.to] {
            return Some(true);
        }
        let one = read_spaced(text, first.from, Margins::UNKNOWN)?;
        let other = read_spaced(text, last.from, Margins::UNKNOWN)?;
        if one.end != first.to {
            return None;
        }
        if other.end != last.to {
            return None;
        }
        Some(same_pos(one.pair.pos, other.pair.pos))
    }
}
