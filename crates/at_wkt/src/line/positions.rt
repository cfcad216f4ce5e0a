//! Positions and the delimiter behind each, plain ones first and all others out of line.

ghost use Rattle.std.specs.Prelude.{◌≡◌, ℕ, ◌+◌, ◌<◌, ◌≤◌, ◌⊎◌, true, false, IfSome, length, None, MatchResult};
ghost use Rattle.at_wkt.specs.Geometry.{SpellsPosition};
ghost use Rattle.at_wkt.specs.Readers.{next, allows, Spelt, Stuck, HasCount, Reaches, Item, FurtherNumbers, delimiter};
ghost use Rattle.at_text.specs.Halts.{IfStopped};
ghost use Rattle.at_wkt.specs.Readers.{is_delimiter, DelimiterStands, DelimiterBreaks, PositionStands};
ghost use Rattle.at_wkt.specs.Readers.{IsPassed};
ghost use Rattle.at_wkt.specs.declared.line.dimension.Dimension.TheVariants.{Fixed};

use crate::line::bytes::{skip_blanks, stands};
use crate::line::dimension::Dimension;
use crate::line::numbers::{
    Coordinate, pass_plain_number, read_number, read_plain_number, skip_number,
};
use crate::line::sources::{Place, Source};
use at_geom::Pos;
use at_text::{Fault, Halt, first_fault};

/// What stands behind an item in brackets: whether it was the last, and the place behind the comma or the bracket.
#[derive(Clone, Copy)]
pub struct DelimiterRead {
    pub is_last: bool,
    pub end: usize,
}

/// Reads blanks, and a comma or a closing bracket.
pub fn read_delimiter(text: &[u8], at: usize) -> Result<DelimiterRead, Halt>
    requires { at ≤ length text.now }
    ensures { MatchResult result (DelimiterStands text.now at) (λ halt. IfStopped halt (DelimiterBreaks text.now at)) }
{
    let end = skip_blanks(text, at);
    if stands(text, end, b',') {
        Ok(DelimiterRead {
            is_last: false,
            end: end + 1,
        })
    } else if stands(text, end, b')') {
        Ok(DelimiterRead {
            is_last: true,
            end: end + 1,
        })
    } else {
        Err(Halt::At(end))
    }
}

/// The end of a position: whether it was the last, and the place behind its delimiter.
#[derive(Clone, Copy)]
pub struct NumbersRead {
    pub is_last: bool,
    pub behind: Place,
}

/// Whether a comma or a closing bracket stands at a place of the text.
#[inline(always)]
fn delimiter_stands(text: &[u8], at: usize) -> bool
    ensures { result ≡ is_delimiter (next text.now at) }
{
    stands(text, at, b',') || stands(text, at, b')')
}

/// Ends a position of so many numbers at its delimiter.
#[inline(always)]
fn end_position(text: &[u8], from: Place, count: u8) -> Result<NumbersRead, Halt>
    requires inside { from.at < length text.now }
    requires delimiter { is_delimiter (next text.now from.at) ≡ true }
    ensures { MatchResult result (λ read. (allows from.dimension count ≡ true) × (read.behind.at ≡ from.at + 1)
        × (read.behind.dimension ≡ Fixed count) × (next text.now from.at ≡ delimiter read.is_last))
        (λ halt. IfStopped halt (λ n. (n ≡ from.at) × (allows from.dimension count ≡ false))) }
{
    if from.dimension.allows(count) {
        Ok(NumbersRead {
            is_last: stands(text, from.at, b')'),
            behind: Place {
                at: from.at + 1,
                dimension: Dimension::Fixed(count),
            },
        })
    } else {
        Err(Halt::At(from.at))
    }
}

/// Reads the numbers behind the first `count` of a position, and its delimiter.
fn read_further(source: &Source, from: Place, count: u8) -> Result<NumbersRead, Halt>
    requires inside { from.at ≤ length source.now.text.now }
    requires two { 2 ≤ count }
    requires reaches { Reaches from.dimension count }
    ensures { MatchResult result (λ read. (base : ℕ)
        → Spelt (FurtherNumbers count) base source.now.text.now from.at from.dimension read.behind.at
        read.behind.dimension read.is_last)
        (λ halt. IfStopped halt (λ n. (base : ℕ)
        → Stuck (FurtherNumbers count) base source.now.text.now from.at from.dimension n)) }
{
    let dimension = from.dimension;
    let next = skip_blanks(source.text, from.at);
    if delimiter_stands(source.text, next) {
        let delimiter = Place {
            at: next,
            dimension,
        };
        return end_position(source.text, delimiter, count);
    }
    if next == from.at {
        return Err(Halt::At(next));
    }
    if !dimension.allows_more(count) {
        return Err(Halt::At(next));
    }
    let end = skip_number(source, next)?;
    read_further(source, Place { at: end, dimension }, count + 1)
}

/// The position of two coordinates.
#[inline(always)]
fn pos_at(x: Coordinate, y: Coordinate) -> Pos
    ensures { result ≡ record { x = x.value; y = y.value } }
{
    Pos {
        x: x.value,
        y: y.value,
    }
}

/// A position that was read, whether it was the last, and the place behind its delimiter.
#[derive(Clone, Copy)]
pub struct PositionRead {
    pub pos: Pos,
    pub fault: Option<Fault>,
    pub is_last: bool,
    pub behind: Place,
}

/// The place behind a byte of the text. Out of line, so that what leads to it stays a branch.
#[inline(never)]
fn behind_byte(text: &[u8], at: usize) -> usize
    requires { at < length text.now }
    ensures { result ≡ at + 1 }
{
    at + 1
}

/// The place behind the space that may stand at a place. All over a file it mostly stands or mostly doesn't, and a
/// place that is computed from the byte would make the next number wait for it.
#[inline(always)]
fn skip_space(text: &[u8], at: usize) -> usize
    ensures { ((result ≡ at + 1) × (next text.now at ≡ 0x20)) ⊎ (result ≡ at) }
{
    if stands(text, at, b' ') {
        behind_byte(text, at)
    } else {
        at
    }
}

/// Reads what stands behind the second number of a position.
#[inline(always)]
fn read_behind(source: &Source, from: Place) -> Result<NumbersRead, Halt>
    requires inside { from.at ≤ length source.now.text.now }
    requires reaches { Reaches from.dimension 2 }
    ensures { MatchResult result (λ read. (base : ℕ)
        → Spelt (FurtherNumbers 2) base source.now.text.now from.at from.dimension read.behind.at read.behind.dimension
        read.is_last)
        (λ halt. IfStopped halt (λ n. (base : ℕ)
        → Stuck (FurtherNumbers 2) base source.now.text.now from.at from.dimension n)) }
{
    if delimiter_stands(source.text, from.at) {
        end_position(source.text, from, 2)
    } else {
        read_further(source, from, 2)
    }
}

/// Reads a position and its delimiter where its numbers have values and one space stands between them.
#[inline(always)]
pub fn plain_position<const SITE: usize>(source: &Source, from: Place) -> Option<PositionRead>
    requires inside { from.at ≤ length source.now.text.now }
    requires count { HasCount from.dimension }
    ensures stands { IfSome result (PositionStands source.now.rules source.now.text.now from.at from.dimension) }
    ensures faultless { IfSome result (λ read. read.fault ≡ None) }
{
    let start = skip_space(source.text, from.at);
    let x = read_plain_number(source, start)?;
    if !stands(source.text, x.end, b' ') {
        return None;
    }
    let y = read_plain_number(source, x.end + 1)?;
    let last = Place {
        at: y.end,
        dimension: from.dimension,
    };
    match read_behind(source, last) {
        Ok(numbers) => Some(PositionRead {
            pos: pos_at(x, y),
            fault: None,
            is_last: numbers.is_last,
            behind: numbers.behind,
        }),
        Err(_) => None,
    }
}

/// Passes over a position and its delimiter where its numbers have values and one space stands between them.
#[inline(always)]
pub fn pass_position<const SITE: usize>(source: &Source, from: Place) -> Option<NumbersRead>
    requires inside { from.at ≤ length source.now.text.now }
    requires count { HasCount from.dimension }
    ensures { IfSome result (IsPassed source.now.rules source.now.text.now from.at from.dimension) }
{
    let start = skip_space(source.text, from.at);
    let x = pass_plain_number(source, start)?;
    if !stands(source.text, x, b' ') {
        return None;
    }
    let y = pass_plain_number(source, x + 1)?;
    let last = Place {
        at: y,
        dimension: from.dimension,
    };
    match read_behind(source, last) {
        Ok(numbers) => Some(numbers),
        Err(_) => None,
    }
}

/// Reads blanks, a position and its delimiter, whatever its numbers are and how they are set apart.
#[inline(never)]
fn any_position(source: &Source, from: Place) -> Result<PositionRead, Halt>
    requires inside { from.at ≤ length source.now.text.now }
    requires count { HasCount from.dimension }
    ensures { MatchResult result (PositionStands source.now.rules source.now.text.now from.at from.dimension)
        (λ halt. IfStopped halt (Stuck (Item SpellsPosition) source.now.rules.base source.now.text.now from.at
        from.dimension)) }
{
    let start = skip_blanks(source.text, from.at);
    let x = read_number(source, start)?;
    let gap = skip_blanks(source.text, x.end);
    if gap == x.end {
        return Err(Halt::At(gap));
    }
    let y = read_number(source, gap)?;
    let last = Place {
        at: y.end,
        dimension: from.dimension,
    };
    let numbers = read_further(source, last, 2)?;
    Ok(PositionRead {
        pos: pos_at(x, y),
        fault: first_fault(x.fault, y.fault),
        is_last: numbers.is_last,
        behind: numbers.behind,
    })
}

/// Reads blanks, a position and its delimiter. Each call has its own SITE, one of `sites`.
#[inline(always)]
pub fn read_position<const SITE: usize>(source: &Source, from: Place) -> Result<PositionRead, Halt>
    requires inside { from.at ≤ length source.now.text.now }
    requires count { HasCount from.dimension }
    ensures { MatchResult result (PositionStands source.now.rules source.now.text.now from.at from.dimension)
        (λ halt. IfStopped halt (Stuck (Item SpellsPosition) source.now.rules.base source.now.text.now from.at
        from.dimension)) }
{
    match plain_position::<SITE>(source, from) {
        Some(read) => Ok(read),
        None => any_position(source, from),
    }
}
