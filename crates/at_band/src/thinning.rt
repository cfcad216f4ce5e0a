//! What of a shape is kept for a band of heights.

ghost use Rattle.std.specs.Prelude.{◌≡◌, ◌∷◌, ◌++◌, IfOk};
ghost use Rattle.at_band.specs.Thinned.{spans as spans_of, edge_ends, thinned, thinned_points, thinned_paths};
ghost use Rattle.at_band.specs.Thinned.{thinned_rings, thinned_polygons, thinned_shape};

use at_geom::{Path, Paths, Polygon, Polygons, Pos, Shape};
use at_text::Memory;
use std::alloc::Global;

/// Heights from the lowest to the highest.
#[derive(Clone, Copy)]
pub(crate) struct Heights {
    pub low: i64,
    pub high: i64,
}

/// Whether the segment `ab` has a point at one of the heights.
pub(crate) fn spans(heights: Heights, a: Pos, b: Pos) -> bool
    ensures { result ≡ spans_of heights.low heights.high (a, b) }
{
    a.y.min(b.y) <= heights.high && heights.low <= a.y.max(b.y)
}

/// Adds the edge `ab`, if it is kept, to a path that ends with `a` where the edge before it was kept.
fn add_edge(kept: &mut Vec<Pos>, is_kept: bool, joins: bool, a: Pos, b: Pos) -> Result<(), Memory>
    ensures { IfOk result (λ _. kept.new.items ≡ kept.old.items ++ edge_ends is_kept joins a b) }
{
    if !is_kept {
        return Ok(());
    }
    if !joins {
        kept.push(a)?;
    }
    kept.push(b)?;
    Ok(())
}

fn thinned_path(alloc: Global, path: &[Pos], heights: Heights) -> Result<Path, Memory>
    ensures { IfOk result (λ p. p ≡ thinned heights.low heights.high path.now) }
{
    let mut kept = Vec::new(alloc);
    let Some((first, rest)) = path.split_first() else {
        return Ok(Path::from_vec(kept));
    };
    let mut from = *first;
    let mut joins = false;
    for to in rest {
        let is_kept = spans(heights, from, *to);
        add_edge(&mut kept, is_kept, joins, from, *to)?;
        joins = is_kept;
        from = *to;
    }
    Ok(Path::from_vec(kept))
}

fn points_within(alloc: Global, points: &[Pos], heights: Heights) -> Result<Path, Memory>
    ensures { IfOk result (λ p. p ≡ thinned_points heights.low heights.high points.now) }
{
    let mut kept = Vec::new(alloc);
    for p in points {
        if spans(heights, *p, *p) {
            kept.push(*p)?;
        }
    }
    Ok(Path::from_vec(kept))
}

fn paths_within(alloc: Global, paths: &[Path], heights: Heights) -> Result<Paths, Memory>
    ensures { IfOk result (λ p. p ≡ thinned_paths heights.low heights.high paths.now) }
{
    let mut kept = Vec::new(alloc);
    for path in paths {
        let part = thinned_path(alloc, path.as_slice(), heights)?;
        if !part.as_slice().is_empty() {
            kept.push(part)?;
        }
    }
    Ok(Paths::from_vec(kept))
}

/// Adds what of a polygon is kept.
fn add_rings(
    alloc: Global,
    kept: &mut Vec<Polygon>,
    rings: &[Path],
    heights: Heights,
) -> Result<(), Memory>
    ensures { IfOk result (λ _. kept.new.items ≡ kept.old.items ++ thinned_rings heights.low heights.high rings.now) }
{
    let Some((exterior, holes)) = rings.split_first() else {
        return Ok(());
    };
    let around = thinned_path(alloc, exterior.as_slice(), heights)?;
    let inner = paths_within(alloc, holes, heights)?;
    if around.as_slice().is_empty() && inner.as_slice().is_empty() {
        return Ok(());
    }
    kept.push(joined_rings(alloc, around, inner)?)?;
    Ok(())
}

fn joined_rings(alloc: Global, exterior: Path, holes: Paths) -> Result<Polygon, Memory>
    ensures { IfOk result (λ p. p.rings ≡ exterior ∷ holes) }
{
    let mut rest = holes.into_vec();
    let mut rings = Vec::with_capacity(alloc, rest.len() + 1)?;
    rings.push(exterior)?;
    rings.append(&mut rest)?;
    Ok(Polygon {
        rings: Paths::from_vec(rings),
    })
}

fn polygons_within(
    alloc: Global,
    polygons: &[Polygon],
    heights: Heights,
) -> Result<Polygons, Memory>
    ensures { IfOk result (λ p. p ≡ thinned_polygons heights.low heights.high polygons.now) }
{
    let mut kept = Vec::new(alloc);
    for polygon in polygons {
        add_rings(alloc, &mut kept, polygon.rings.as_slice(), heights)?;
    }
    Ok(Polygons::from_vec(kept))
}

pub(crate) fn shape_within(alloc: Global, shape: &Shape, heights: Heights) -> Result<Shape, Memory>
    ensures { IfOk result (λ s. s ≡ thinned_shape heights.low heights.high shape.now) }
{
    Ok(Shape {
        points: points_within(alloc, shape.points.as_slice(), heights)?,
        lines: paths_within(alloc, shape.lines.as_slice(), heights)?,
        polygons: polygons_within(alloc, shape.polygons.as_slice(), heights)?,
    })
}
