//! The hull of random positions.

ghost use Rattle.std.specs.Prelude.{IfOk, All};
ghost use Rattle.at_geom.specs.Segments.{IsInRange};

use at_geom::{Path, Pos};
use at_hull::hull;
use at_text::Memory;
use bench_shared::Random;
use std::alloc::Global;

/// So many random positions.
fn random_positions(alloc: Global, count: u64) -> Result<Path, Memory>
    ensures { IfOk result (λ p. All IsInRange p) }
{
    let mut random = Random::new();
    let mut items: Vec<Pos> = Vec::new(alloc);
    for _ in 0..count {
        items.push(random.position())?;
    }
    Ok(Path::from_vec(items))
}

/// How many positions are made, where so many are wanted.
pub fn positions(alloc: Global, count: u64) -> Result<u64, Memory> {
    let made = random_positions(alloc, count)?;
    Ok(made.as_slice().len() as u64)
}

/// How many corners the hull of so many random positions has.
pub fn corners(alloc: Global, count: u64) -> Result<u64, Memory> {
    let made = random_positions(alloc, count)?;
    let found = hull(alloc, &made)?;
    Ok(found.as_slice().len() as u64)
}
