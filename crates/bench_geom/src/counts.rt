//! How many random segments meet, and how many random positions are in a ring.

ghost use Rattle.std.specs.Prelude.{IfOk, All};
ghost use Rattle.at_geom.specs.Segments.{IsInRange};
ghost use Rattle.at_geom.specs.Shapes.{ArePathsInRange};

use at_geom::{Path, Paths, Polygon, Pos, in_polygon, segments_meet};
use at_text::Memory;
use bench_shared::Random;
use std::alloc::Global;

/// How many of `count` random pairs of segments meet.
pub fn meeting(count: u64) -> u64 {
    let mut random = Random::new();
    let mut found: u64 = 0;
    for _ in 0..count {
        let a = random.position();
        let b = random.position();
        let c = random.position();
        let d = random.position();
        if segments_meet(a, b, c, d) {
            found = found.wrapping_add(1);
        }
    }
    found
}

/// How many of `count` random positions are in a closed ring of `edges` random edges.
pub fn inside(alloc: Global, count: u64, edges: u64) -> Result<u64, Memory> {
    let mut random = Random::new();
    let polygon = one_ring(alloc, ring(alloc, &mut random, edges)?)?;
    let mut found: u64 = 0;
    for _ in 0..count {
        let p = random.position();
        if in_polygon(p, &polygon) {
            found = found.wrapping_add(1);
        }
    }
    Ok(found)
}

fn ring(alloc: Global, random: &mut Random, edges: u64) -> Result<Path, Memory>
    ensures { IfOk result (λ p. All IsInRange p) }
{
    let first = random.position();
    let mut items: Vec<Pos> = Vec::new(alloc);
    items.push(first)?;
    for _ in 1..edges {
        items.push(random.position())?;
    }
    items.push(first)?;
    Ok(Path::from_vec(items))
}

fn one_ring(alloc: Global, exterior: Path) -> Result<Polygon, Memory>
    requires { All IsInRange exterior }
    ensures { IfOk result (λ p. ArePathsInRange p.rings) }
{
    let mut rings = Vec::new(alloc);
    rings.push(exterior)?;
    Ok(Polygon {
        rings: Paths::from_vec(rings),
    })
}
