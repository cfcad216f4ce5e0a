//! The two readers of one text: a line of a file, and the geometry that begins a text.

ghost use Rattle.std.specs.Prelude.{◌≡◌, [], None, ◌+◌, ◌^◌, ◌≤◌, IsTrue, length, take, MatchResult};
ghost use Rattle.at_wkt.specs.Readers.{refusal as refusal_at, gathered_shape, kept_shape as shape_kept};
ghost use Rattle.at_text.specs.Halts.{IfStopped};
ghost use Rattle.at_wkt.specs.Readers.{line_answer as answer_of, IsGatheredLine, LineStands, LineStops};
ghost use Rattle.at_text.specs.Refusals.{IfFound};
ghost use Rattle.at_wkt.specs.Answers.{HasLineShape, HasFirstLineFault, IsPrefixOf, IsPrefixFault};

use crate::answers::{LineFault, Prefix};
use crate::line::bytes::skip_blanks;
use crate::line::geometries::{Gathered, clear, read_whole};
use crate::line::paths::no_paths;
use crate::line::sources::{Rules, Source};
use at_fixed::Coords;
use at_geom::{Path, Paths, Polygons, Shape};
use at_text::{Fault, FaultKind, Halt, Refusal, stop_at};
use std::alloc::Global;

/// Nothing, before anything is read.
pub fn nothing_gathered(alloc: Global) -> Gathered
    ensures points { result.points.items ≡ [] }
    ensures lines { result.lines.items ≡ [] }
    ensures polygons { result.polygons.items ≡ [] }
    ensures fault { result.fault ≡ None }
{
    Gathered {
        points: Vec::new(alloc),
        lines: Vec::new(alloc),
        polygons: Vec::new(alloc),
        fault: None,
        maker: no_paths(alloc),
    }
}

/// The shape of what was gathered.
fn shape_of(gathered: Gathered) -> Shape
    ensures { result ≡ gathered_shape gathered }
{
    Shape {
        points: Path::from_vec(gathered.points),
        lines: Paths::from_vec(gathered.lines),
        polygons: Polygons::from_vec(gathered.polygons),
    }
}

/// The shape of what was gathered, and the empty one where it has a fault.
fn kept_shape(alloc: Global, gathered: Gathered) -> Shape
    ensures { result ≡ shape_kept gathered }
{
    match gathered.fault {
        None => shape_of(gathered),
        Some(_) => shape_of(nothing_gathered(alloc)),
    }
}

/// The shape of a line, or its first fault.
fn line_answer(gathered: Gathered) -> Result<Shape, Refusal>
    ensures { result ≡ answer_of gathered }
{
    match gathered.fault {
        None => Ok(shape_of(gathered)),
        Some(fault) => Err(Refusal::Found(fault)),
    }
}

/// The refusal of a text where reading it stopped.
pub fn refusal_of(text: &[u8], base: u32, halt: Halt) -> Refusal
    requires inside { IfStopped halt (λ n. n ≤ length text.now) }
    requires short { base + length text.now ≤ 2 ^ 28 }
    ensures { result ≡ refusal_at base text.now halt }
{
    match halt {
        Halt::At(at) => Refusal::Found(stop_at(text, base, at)),
        Halt::Memory => Refusal::Memory,
    }
}

/// Reads the geometry that begins a text, whose first byte has the offset `base` in its file.
///
/// `Found` is the fault of syntax at the end of the longest prefix that some geometry begins with, exactly where
/// no geometry begins the text: Syntax before a byte, Ended at the text's end. Faults of the geometry itself are
/// told in `Prefix`. Nothing recurses on the depth of collections.
pub fn read_geometry(
    alloc: Global,
    text: &[u8],
    base: u32,
    digits: u8,
    how: Coords,
) -> Result<Prefix, LineFault>
    requires { base + length text.now ≤ 2 ^ 28 }
    ensures { MatchResult result (IsPrefixOf digits how base text.now)
        (λ refusal. IfFound refusal (IsPrefixFault base text.now)) }
{
    let mut gathered = nothing_gathered(alloc);
    let rules = Rules { base, digits, how };
    match read_whole(&mut gathered, &Source { text, rules }, 0) {
        Ok(end) => {
            let fault = gathered.fault;
            Ok(Prefix {
                shape: kept_shape(alloc, gathered),
                taken: end as u32,
                fault,
            })
        }
        Err(halt) => Err(refusal_of(text, base, halt)),
    }
}

/// Reads blanks, a geometry and blanks, up to the text's end.
pub fn read_between(gathered: &mut Gathered, source: &Source) -> Result<(), Halt>
    ensures { MatchResult result (λ _. LineStands source.now.rules.digits source.now.rules.how source.now.rules.base
        source.now.text.now gathered.old gathered.new)
        (λ halt. IfStopped halt (LineStops source.now.rules.base source.now.text.now)) }
{
    let start = skip_blanks(source.text, 0);
    let end = read_whole(gathered, source, start)?;
    let last = skip_blanks(source.text, end);
    if last < source.text.len() {
        Err(Halt::At(last))
    } else {
        Ok(())
    }
}

/// Reads blanks, a geometry and blanks, and tells whether they are the line that has the first `len` of the bytes
/// ahead. What stands behind the line is looked at together with its last bytes.
fn read_ahead(gathered: &mut Gathered, ahead: &Source, len: usize) -> bool
    requires { len ≤ length ahead.now.text.now }
    ensures { IsTrue result → LineStands ahead.now.rules.digits ahead.now.rules.how ahead.now.rules.base
        (take len ahead.now.text.now) gathered.old gathered.new }
{
    let start = skip_blanks(ahead.text, 0);
    match read_whole(gathered, ahead, start) {
        Ok(end) => skip_blanks(ahead.text, end) == len,
        Err(_) => false,
    }
}

/// Reads a line by itself, whatever was gathered of it before.
#[inline(never)]
fn read_again(gathered: &mut Gathered, alloc: Global, line: &Source) -> Result<(), Halt>
    ensures { MatchResult result (λ _. IsGatheredLine line.now.rules line.now.text.now gathered.new)
        (λ halt. IfStopped halt (LineStops line.now.rules.base line.now.text.now)) }
{
    clear(gathered, alloc);
    read_between(gathered, line)
}

/// Reads the line that has the first `len` of the bytes ahead: blanks, a geometry and blanks. What was gathered before
/// is let go.
pub fn read_front(
    gathered: &mut Gathered,
    alloc: Global,
    ahead: &Source,
    len: usize,
) -> Result<(), Halt>
    requires { len ≤ length ahead.now.text.now }
    ensures { MatchResult result (λ _. IsGatheredLine ahead.now.rules (take len ahead.now.text.now) gathered.new)
        (λ halt. IfStopped halt (LineStops ahead.now.rules.base (take len ahead.now.text.now))) }
{
    clear(gathered, alloc);
    if read_ahead(gathered, ahead, len) {
        return Ok(());
    }
    let line = Source {
        text: &ahead.text[..len],
        rules: ahead.rules,
    };
    read_again(gathered, alloc, &line)
}

/// Reads a line without its end, whose first byte has the offset `base` in its file: blanks, a geometry, blanks.
///
/// `Found` is the line's first fault, exactly where it has one: that of its syntax, or else the first of the
/// geometry's Short, Ring, Scale and Range faults by offset, then by number. Nothing recurses on the depth of
/// collections.
pub fn read_line(
    alloc: Global,
    text: &[u8],
    base: u32,
    digits: u8,
    how: Coords,
) -> Result<Shape, LineFault>
    requires { base + length text.now ≤ 2 ^ 28 }
    ensures { MatchResult result (HasLineShape digits how base text.now)
        (λ refusal. IfFound refusal (HasFirstLineFault digits how base text.now)) }
{
    let mut gathered = nothing_gathered(alloc);
    let rules = Rules { base, digits, how };
    match read_between(&mut gathered, &Source { text, rules }) {
        Err(halt) => Err(refusal_of(text, base, halt)),
        Ok(()) => line_answer(gathered),
    }
}
