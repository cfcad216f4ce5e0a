//! How many shapes meet a kept ring.

ghost use Rattle.std.specs.Prelude.{IfOk, All};
ghost use Rattle.at_geom.specs.Shapes.{IsShapeInRange};

use crate::rings::{of_line, of_point, of_ring, position_of, ring};
use at_band::Bands;
use at_geom::Shape;
use at_text::Memory;
use bench_shared::Random;
use std::alloc::Global;

/// How many shapes there are, each of which is asked of again and again.
const SHAPES: u64 = 16_384;

fn points(alloc: Global, random: &mut Random) -> Result<Vec<Shape>, Memory>
    ensures { IfOk result (λ v. All IsShapeInRange v.items) }
{
    let mut shapes = Vec::new(alloc);
    for _ in 0..SHAPES {
        let p = random.position();
        shapes.push(of_point(alloc, p)?)?;
    }
    Ok(shapes)
}

fn lines(alloc: Global, random: &mut Random, length: u64) -> Result<Vec<Shape>, Memory>
    ensures { IfOk result (λ v. All IsShapeInRange v.items) }
{
    let mut shapes = Vec::new(alloc);
    for _ in 0..SHAPES {
        let x = random.number();
        let y = random.number();
        let to_x = x.wrapping_add(length);
        let to_y = y.wrapping_add(length);
        shapes.push(of_line(alloc, position_of(x, y), position_of(to_x, to_y))?)?;
    }
    Ok(shapes)
}

fn met(bands: &Bands, shapes: &[Shape]) -> u64
    requires kept_in_range { IsShapeInRange bands.now }
    requires shapes_in_range { All IsShapeInRange shapes.now }
{
    let mut found: u64 = 0;
    for shape in shapes {
        if bands.meets(shape) {
            found = found.wrapping_add(1);
        }
    }
    found
}

fn met_again(bands: &Bands, shapes: &[Shape], count: u64) -> u64
    requires kept_in_range { IsShapeInRange bands.now }
    requires shapes_in_range { All IsShapeInRange shapes.now }
{
    let mut found: u64 = 0;
    for _ in 0..count / SHAPES {
        found = found.wrapping_add(met(bands, shapes));
    }
    found
}

/// How many of `count` positions meet a ring of `edges` edges.
pub fn points_meeting(alloc: Global, count: u64, edges: u64) -> Result<u64, Memory> {
    let mut random = Random::new();
    let kept = of_ring(alloc, ring(alloc, &mut random, edges)?)?;
    let shapes = points(alloc, &mut random)?;
    let bands = Bands::new(alloc, &kept)?;
    Ok(met_again(&bands, shapes.as_slice(), count))
}

/// How many of `count` lines of a length meet a ring of `edges` edges.
pub fn lines_meeting(alloc: Global, count: u64, edges: u64, length: u64) -> Result<u64, Memory> {
    let mut random = Random::new();
    let kept = of_ring(alloc, ring(alloc, &mut random, edges)?)?;
    let shapes = lines(alloc, &mut random, length)?;
    let bands = Bands::new(alloc, &kept)?;
    Ok(met_again(&bands, shapes.as_slice(), count))
}
