//! A geometry from its word to its end, collections of any depth among them, and what it adds to what was gathered.

ghost use Rattle.std.specs.Prelude.{◌≡◌, ℕ, ◌+◌, ◌≤◌, false, zero, None, [], length, MatchResult};
ghost use Rattle.at_fixed.specs.declared.rounding.Coords.{Coords};
ghost use Rattle.at_wkt.specs.declared.line.dimension.Dimension.TheVariants.{Open};
ghost use Rattle.at_wkt.specs.Readers.{Stuck, HasCount, Body, After, Expected, Advances, BodyStands, StepStands};
ghost use Rattle.at_text.specs.Halts.{IfStopped};
ghost use Rattle.at_wkt.specs.Readers.{WholeStands, HeadStands, no_meaning, opens_at};

use crate::line::bytes::{skip_blanks, stands};
use crate::line::kinds::{Head, Kind, read_head};
use crate::line::parts::{
    AreaList, LineList, PointList, Read, read_line_string, read_list, read_nothing, read_point,
    read_polygon,
};
use crate::line::paths::{Maker, add_fault, clear_paths};
use crate::line::positions::read_delimiter;
use crate::line::sources::Source;
use at_geom::{Path, Polygon, Pos};
use at_text::{Fault, Halt};
use std::alloc::Global;

/// What the geometries that were read cover, and their first fault.
#[derive(Drop)]
pub struct Gathered {
    pub points: Vec<Pos>,
    pub lines: Vec<Path>,
    pub polygons: Vec<Polygon>,
    pub fault: Option<Fault>,
    pub maker: Maker,
}

/// Lets polygons go, and keeps the room of the last one's rings and of its last ring.
fn clear_polygons(polygons: &mut Vec<Polygon>, maker: &mut Maker)
    ensures { polygons.new.items ≡ [] }
{
    if let Some(polygon) = polygons.pop() {
        let mut rings = polygon.rings.into_vec();
        clear_paths(&mut rings, maker);
        maker.rings = rings;
    }
    polygons.clear();
}

/// Forgets what was gathered, and keeps its room. More of it is taken from the allocator.
pub fn clear(gathered: &mut Gathered, alloc: Global)
    ensures points { gathered.new.points.items ≡ [] }
    ensures lines { gathered.new.lines.items ≡ [] }
    ensures polygons { gathered.new.polygons.items ≡ [] }
    ensures fault { gathered.new.fault ≡ None }
{
    gathered.points.clear();
    clear_paths(&mut gathered.lines, &mut gathered.maker);
    clear_polygons(&mut gathered.polygons, &mut gathered.maker);
    gathered.fault = None;
    gathered.maker.alloc = alloc;
}

/// How far reading has come: the place, how many collections are open there, and whether the outermost geometry
/// has ended.
#[derive(Clone, Copy)]
pub struct Progress {
    pub at: usize,
    pub depth: usize,
    pub is_over: bool,
}

/// Reads what stands behind the head of a geometry that is no collection with members.
fn read_body(gathered: &mut Gathered, source: &Source, head: Head) -> Result<Read, Halt>
    requires inside { head.behind.at ≤ length source.now.text.now }
    requires count { HasCount head.behind.dimension }
    requires simple { opens_at source.now.text.now head ≡ false }
    ensures { MatchResult result (BodyStands source.now.rules.digits source.now.rules.how source.now.rules.base
        source.now.text.now head gathered.old gathered.new)
        (λ halt. IfStopped halt (Stuck (Body head.kind) source.now.rules.base source.now.text.now head.behind.at
        head.behind.dimension)) }
{
    let from = head.behind;
    match head.kind {
        Kind::Point => read_point(&mut gathered.points, source, from),
        Kind::LineString => {
            read_line_string(&mut gathered.lines, &mut gathered.maker, source, from)
        }
        Kind::Polygon => read_polygon(&mut gathered.polygons, &mut gathered.maker, source, from),
        Kind::MultiPoint => {
            read_list::<PointList>(&mut gathered.points, &mut gathered.maker, source, from)
        }
        Kind::MultiLineString => {
            read_list::<LineList>(&mut gathered.lines, &mut gathered.maker, source, from)
        }
        Kind::MultiPolygon => {
            read_list::<AreaList>(&mut gathered.polygons, &mut gathered.maker, source, from)
        }
        Kind::GeometryCollection => read_nothing(source.text, from),
    }
}

/// Reads what stands behind a geometry within so many open collections, up to the next geometry or the end of all.
fn read_closings(text: &[u8], from: usize, opened: usize) -> Result<Progress, Halt>
    requires inside { from ≤ length text.now }
    requires deep { opened ≤ from }
    ensures { MatchResult result (λ progress. (progress.depth ≤ progress.at) × ((base digits : ℕ) (how : Coords)
        → Advances digits how (λ d. After digits how opened) base text.now from progress no_meaning))
        (λ halt. IfStopped halt (λ n. (base digits : ℕ) (how : Coords)
        → Stuck (λ d. After digits how opened) base text.now from Open n)) }
{
    let mut at = from;
    let mut depth = opened;
    while depth > 0 {
        let delimiter = read_delimiter(text, at)?;
        if !delimiter.is_last {
            let next = skip_blanks(text, delimiter.end);
            return Ok(Progress {
                at: next,
                depth,
                is_over: false,
            });
        }
        at = delimiter.end;
        depth -= 1;
    }
    Ok(Progress {
        at,
        depth,
        is_over: true,
    })
}

/// Reads a geometry without members behind its head, and what stands behind it.
fn read_simple(
    gathered: &mut Gathered,
    source: &Source,
    from: Progress,
    head: Head,
) -> Result<Progress, Halt>
    requires stands { HeadStands source.now.text.now from.at head }
    requires count { HasCount head.behind.dimension }
    requires simple { opens_at source.now.text.now head ≡ false }
    requires deep { from.depth ≤ from.at }
    ensures { MatchResult result (StepStands source.now.rules.digits source.now.rules.how
        (λ d. Expected source.now.rules.digits source.now.rules.how from.depth)
        source.now.rules.base source.now.text.now from.at gathered.old gathered.new)
        (λ halt. IfStopped halt (Stuck (λ d. Expected source.now.rules.digits source.now.rules.how from.depth)
        source.now.rules.base source.now.text.now from.at Open)) }
{
    let read = read_body(gathered, source, head)?;
    gathered.fault = add_fault(gathered.fault, read.fault);
    read_closings(source.text, read.behind.at, from.depth)
}

/// Whether a head is that of a collection, and its bracket opens behind it.
fn opens_collection(text: &[u8], head: Head) -> bool
    ensures { result ≡ opens_at text.now head }
{
    match head.kind {
        Kind::GeometryCollection => stands(text, head.behind.at, b'('),
        _ => false,
    }
}

/// Reads the head of a geometry, and with it either the bracket that opens a collection or the whole geometry.
fn read_next(gathered: &mut Gathered, source: &Source, from: Progress) -> Result<Progress, Halt>
    requires inside { from.at ≤ length source.now.text.now }
    requires deep { from.depth ≤ from.at }
    ensures { MatchResult result (StepStands source.now.rules.digits source.now.rules.how
        (λ d. Expected source.now.rules.digits source.now.rules.how from.depth)
        source.now.rules.base source.now.text.now from.at gathered.old gathered.new)
        (λ halt. IfStopped halt (Stuck (λ d. Expected source.now.rules.digits source.now.rules.how from.depth)
        source.now.rules.base source.now.text.now from.at Open)) }
{
    let head = read_head(source.text, from.at)?;
    if opens_collection(source.text, head) {
        let next = skip_blanks(source.text, head.behind.at + 1);
        Ok(Progress {
            at: next,
            depth: from.depth + 1,
            is_over: false,
        })
    } else {
        read_simple(gathered, source, from, head)
    }
}

/// Reads the geometry that begins at a place of the text, and tells the place behind it.
pub fn read_whole(gathered: &mut Gathered, source: &Source, at: usize) -> Result<usize, Halt>
    requires inside { at ≤ length source.now.text.now }
    ensures { MatchResult result (WholeStands source.now.rules.digits source.now.rules.how source.now.rules.base
        source.now.text.now at gathered.old gathered.new)
        (λ halt. IfStopped halt (Stuck (λ d. Expected source.now.rules.digits source.now.rules.how zero)
        source.now.rules.base source.now.text.now at Open)) }
{
    let mut progress = Progress {
        at,
        depth: 0,
        is_over: false,
    };
    'geometries: while !progress.is_over {
        progress = read_next(gathered, source, progress)?;
    }
    Ok(progress.at)
}
