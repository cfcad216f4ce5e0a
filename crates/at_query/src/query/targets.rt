//! What a test asks a shape to meet: a box, or a geometry in Well-Known Text.

ghost use Rattle.std.specs.Prelude.{◌≡◌, ◌^◌, ◌≤◌, length, option_map, IfOk, MatchResult};
ghost use Rattle.at_text.specs.declared.faults.Fault.{Fault};
ghost use Rattle.at_query.specs.declared.query.queries.Test.TheVariants.{MeetsShape};
ghost use Rattle.at_text.specs.declared.halts.Halt.TheVariants as halts;
ghost use Rattle.at_query.specs.Queries.{ring_of as ring_from, box_shape as shape_of_box};
ghost use Rattle.at_text.specs.Halts.{IfStopped};
ghost use Rattle.at_query.specs.Readers.{Ends, Stops, Target, GeometryTarget, BoxTarget, test_in};

use crate::query::boxes::read_box;
use crate::query::bytes::stands;
use crate::query::filters::TestRead;
use crate::query::precision::Precision;
use crate::query::queries::Test;
use at_band::Bands;
use at_geom::{Extent, Path, Paths, Polygon, Polygons, Pos, Shape};
use at_text::{Fault, Halt};
use at_wkt::{LineFault, read_geometry};
use std::alloc::{AllocError, Global};

/// The ring of a box, from its low corner.
fn ring_of(alloc: Global, extent: Extent) -> Result<Path, AllocError>
    ensures { IfOk result (λ path. path ≡ ring_from extent) }
{
    let a = extent.low;
    let c = extent.high;
    let ring = vec![in alloc; a, Pos { x: c.x, y: a.y }, c, Pos { x: a.x, y: c.y }, a]?;
    Ok(Path::from_vec(ring))
}

/// The polygon of that ring.
fn box_shape(alloc: Global, extent: Extent) -> Result<Shape, AllocError>
    ensures { IfOk result (λ shape. shape ≡ shape_of_box extent) }
{
    let rings = vec![in alloc; ring_of(alloc, extent)?]?;
    let polygons = vec![in alloc;
        Polygon {
            rings: Paths::from_vec(rings)
        },
    ]?;
    Ok(Shape {
        points: Path::from_vec(Vec::new(alloc)),
        lines: Paths::from_vec(Vec::new(alloc)),
        polygons: Polygons::from_vec(polygons),
    })
}

/// Reads a box that a shape is to meet.
fn read_met_box(alloc: Global, text: &[u8], at: usize, rules: Precision) -> Result<TestRead, Halt>
    requires inside { at ≤ length text.now }
    requires short { length text.now ≤ 2 ^ 28 }
    ensures { MatchResult result
        (λ read. Ends (BoxTarget rules.digits rules.how) text.now at read.end (test_in read))
        (λ halt. IfStopped halt (Stops (BoxTarget rules.digits rules.how) text.now at)) }
{
    let found = read_box(text, at, rules)?;
    let shape = box_shape(alloc, found.extent)?;
    let bands = Bands::new(alloc, &shape)?;
    Ok(TestRead {
        end: found.end,
        test: Test::MeetsShape(bands),
        fault: found.fault,
    })
}

/// The offset of a fault, where there is one.
fn offset_of(fault: Option<Fault>) -> Option<u32>
    ensures { result ≡ option_map (λ (f : Fault). f.at) fault }
{
    match fault {
        None => None,
        Some(found) => Some(found.at),
    }
}

/// The test that shapes meet this one, read up to `end`.
fn met_read(alloc: Global, end: usize, shape: &Shape, fault: Option<u32>) -> Result<TestRead, Halt>
    ensures { MatchResult result
        (λ read. read ≡ record { end = end; test = MeetsShape shape.now; fault = fault })
        (λ halt. halt ≡ halts.Memory) }
{
    let bands = Bands::new(alloc, shape)?;
    Ok(TestRead {
        end,
        test: Test::MeetsShape(bands),
        fault,
    })
}

/// Reads a geometry that a shape is to meet.
fn read_met_geometry(
    alloc: Global,
    text: &[u8],
    at: usize,
    rules: Precision,
) -> Result<TestRead, Halt>
    requires inside { at ≤ length text.now }
    requires short { length text.now ≤ 2 ^ 28 }
    ensures { MatchResult result
        (λ read. Ends (GeometryTarget rules.digits rules.how) text.now at read.end (test_in read))
        (λ halt. IfStopped halt (Stops (GeometryTarget rules.digits rules.how) text.now at)) }
{
    match read_geometry(alloc, &text[at..], at as u32, rules.digits, rules.how) {
        Ok(prefix) => {
            let end = at + prefix.taken as usize;
            met_read(alloc, end, &prefix.shape, offset_of(prefix.fault))
        }
        Err(LineFault::Found(fault)) => Err(Halt::At(fault.at as usize)),
        Err(LineFault::Memory) => Err(Halt::Memory),
    }
}

/// Reads a box or a geometry that a shape is to meet.
pub fn read_target(
    alloc: Global,
    text: &[u8],
    at: usize,
    rules: Precision,
) -> Result<TestRead, Halt>
    requires inside { at ≤ length text.now }
    requires short { length text.now ≤ 2 ^ 28 }
    ensures { MatchResult result
        (λ read. Ends (Target rules.digits rules.how) text.now at read.end (test_in read))
        (λ halt. IfStopped halt (Stops (Target rules.digits rules.how) text.now at)) }
{
    if stands(text, at, b'b') {
        read_met_box(alloc, text, at, rules)
    } else {
        read_met_geometry(alloc, text, at, rules)
    }
}
