//! The words of the seven kinds, and the letters Z and M behind them.

ghost use Rattle.std.specs.Prelude.{◌≡◌, ◌≤◌, ◌+◌, ◌⊎◌, length, IfSome, MatchResult};
ghost use Rattle.at_wkt.specs.Readers.{next, word_of, KeywordStands, KindBreaks, LetterStands, HeadStands, SkipsBlanks};
ghost use Rattle.at_text.specs.Halts.{IfStopped};

use crate::line::bytes::{letter_stands, skip_blanks, stands};
use crate::line::dimension::Dimension;
use crate::line::sources::Place;
use crate::line::words::{matching, plain_word};
use at_text::Halt;

/// The kinds of geometry (OGC 06-103r4 section 7.2.2).
#[derive(Clone, Copy, Debug, PartialEq, Eq)]
pub enum Kind {
    Point,
    LineString,
    Polygon,
    MultiPoint,
    MultiLineString,
    MultiPolygon,
    GeometryCollection,
}

/// All kinds.
const KINDS: [Kind; 7] = [
    Kind::Point,
    Kind::LineString,
    Kind::Polygon,
    Kind::MultiPoint,
    Kind::MultiLineString,
    Kind::MultiPolygon,
    Kind::GeometryCollection,
];

impl Kind {
    /// The word that tells the kind, in capitals.
    #[inline(always)]
    fn word(self) -> &'static [u8]
        ensures { result.now ≡ word_of self }
    {
        match self {
            Kind::Point => b"POINT",
            Kind::LineString => b"LINESTRING",
            Kind::Polygon => b"POLYGON",
            Kind::MultiPoint => b"MULTIPOINT",
            Kind::MultiLineString => b"MULTILINESTRING",
            Kind::MultiPolygon => b"MULTIPOLYGON",
            Kind::GeometryCollection => b"GEOMETRYCOLLECTION",
        }
    }
}

/// A kind word, and the place behind it.
#[derive(Clone, Copy)]
pub struct KindRead {
    pub kind: Kind,
    pub end: usize,
}

/// The larger of two numbers.
fn larger(a: usize, b: usize) -> usize
    ensures first { a ≤ result }
    ensures second { b ≤ result }
    ensures either { (result ≡ a) ⊎ (result ≡ b) }
{
    if a < b { b } else { a }
}

/// Reads the word of a kind.
fn read_kind(text: &[u8], at: usize) -> Result<KindRead, Halt>
    requires { at ≤ length text.now }
    ensures { MatchResult result (λ read. KeywordStands text.now at read.end (word_of read.kind))
        (λ halt. IfStopped halt (KindBreaks text.now at)) }
{
    let mut longest = 0;
    for kind in KINDS {
        let word = kind.word();
        let count = matching(text, at, word);
        if count == word.len() {
            return Ok(KindRead {
                kind,
                end: at + count,
            });
        }
        longest = larger(longest, count);
    }
    Err(Halt::At(at + longest))
}

/// Reads Z, M, ZM or nothing, and tells how many numbers that gives to positions.
fn read_letter(text: &[u8], at: usize) -> Place
    requires { at ≤ length text.now }
    ensures stands { LetterStands text.now at result.at result.dimension }
    ensures within { result.at ≤ length text.now }
{
    if letter_stands(text, at, b'M') {
        Place {
            at: at + 1,
            dimension: Dimension::Fixed(3),
        }
    } else if !letter_stands(text, at, b'Z') {
        Place {
            at: at,
            dimension: Dimension::Open,
        }
    } else if letter_stands(text, at + 1, b'M') {
        Place {
            at: at + 2,
            dimension: Dimension::Fixed(4),
        }
    } else {
        Place {
            at: at + 1,
            dimension: Dimension::Fixed(3),
        }
    }
}

/// What stands before a geometry's positions: its kind, and the place behind.
#[derive(Clone, Copy)]
pub struct Head {
    pub kind: Kind,
    pub behind: Place,
}

/// The place of an opening bracket, or of one behind a space.
#[inline(always)]
fn bracket_at(text: &[u8], at: usize) -> Option<usize>
    requires { at ≤ length text.now }
    ensures blanks { IfSome result (SkipsBlanks text.now at) }
    ensures bracket { IfSome result (λ place. next text.now place ≡ 0x28) }
{
    if stands(text, at, b'(') {
        return Some(at);
    }
    if stands(text, at, b' ') && stands(text, at + 1, b'(') {
        return Some(at + 1);
    }
    None
}

/// The head of a geometry of the kind, where its word stands in capitals, with a bracket behind it.
#[inline(always)]
fn plain_kind(text: &[u8], at: usize, kind: Kind) -> Option<Head>
    requires { at ≤ length text.now }
    ensures { IfSome result (HeadStands text.now at) }
{
    let end = plain_word(text, at, kind.word())?;
    let place = bracket_at(text, end)?;
    Some(Head {
        kind,
        behind: Place {
            at: place,
            dimension: Dimension::Open,
        },
    })
}

/// The head of a geometry as programs write it: a word in capitals, and a bracket.
#[inline(always)]
fn plain_head(text: &[u8], at: usize) -> Option<Head>
    requires { at ≤ length text.now }
    ensures { IfSome result (HeadStands text.now at) }
{
    if let Some(head) = plain_kind(text, at, Kind::Point) {
        return Some(head);
    }
    if let Some(head) = plain_kind(text, at, Kind::Polygon) {
        return Some(head);
    }
    plain_kind(text, at, Kind::LineString)
}

/// Reads the head of a geometry: the word of a kind, its letter, and the blanks behind them.
pub fn read_head(text: &[u8], at: usize) -> Result<Head, Halt>
    requires { at ≤ length text.now }
    ensures { MatchResult result (HeadStands text.now at) (λ halt. IfStopped halt (KindBreaks text.now at)) }
{
    match plain_head(text, at) {
        Some(head) => Ok(head),
        None => any_head(text, at),
    }
}

/// Reads the word of a kind, its letter, and the blanks behind them, however they are written.
fn any_head(text: &[u8], at: usize) -> Result<Head, Halt>
    requires { at ≤ length text.now }
    ensures { MatchResult result (HeadStands text.now at) (λ halt. IfStopped halt (KindBreaks text.now at)) }
{
    let word = read_kind(text, at)?;
    let letter = read_letter(text, skip_blanks(text, word.end));
    Ok(Head {
        kind: word.kind,
        behind: Place {
            at: skip_blanks(text, letter.at),
            dimension: letter.dimension,
        },
    })
}
