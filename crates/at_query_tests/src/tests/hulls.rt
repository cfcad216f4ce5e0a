//! Hulls of one feature with points, lines and polygons, of few positions and of many.

ghost use Rattle.std.specs.Prelude.{IfOk, All};
ghost use Rattle.at_geom.specs.Segments.{IsInRange};
ghost use Rattle.at_geom.specs.Shapes.{ArePathsInRange, ArePolygonsInRange, IsShapeInRange};

use super::*;

/// Two points, a line and a ring so many times, each time one further to the right and one higher, and their hull.
struct Flight {
    times: i32,
    hull: &'static str,
}

/// Two corners of the hull are of the line, one is of the ring, and one is a point.
const POINTS: [(i32, i32); 2] = [(3, 3), (0, 6)];

const LINE: [(i32, i32); 2] = [(4, 4), (10, 0)];

const RING: [(i32, i32); 4] = [(5, -2), (3, 0), (2, -4), (5, -2)];

/// Of 8, 4,096, 4,104 and 4,800 positions.
static FLIGHTS: [Flight; 4] = [
    Flight {
        times: 1,
        hull: "0.2 -0.4\n1.0 0.0\n0.4 0.4\n0.0 0.6\n",
    },
    Flight {
        times: 512,
        hull: "0.2 -0.4\n1.0 0.0\n52.1 51.1\n51.5 51.5\n51.1 51.7\n0.0 0.6\n",
    },
    Flight {
        times: 513,
        hull: "0.2 -0.4\n1.0 0.0\n52.2 51.2\n51.6 51.6\n51.2 51.8\n0.0 0.6\n",
    },
    Flight {
        times: 600,
        hull: "0.2 -0.4\n1.0 0.0\n60.9 59.9\n60.3 60.3\n59.9 60.5\n0.0 0.6\n",
    },
];

/// Puts the places behind others, all so far to the right and up.
fn push_places(items: &mut Vec<Pos>, places: &[(i32, i32)], shift: i32) -> Result<(), AllocError>
    requires { All IsInRange items.old.items }
    ensures { IfOk result (λ _. All IsInRange items.new.items) }
{
    for at in places {
        items.push(place(at.0.wrapping_add(shift), at.1.wrapping_add(shift)))?;
    }
    Ok(())
}

fn shifted_path(alloc: Global, places: &[(i32, i32)], shift: i32) -> Result<Path, AllocError>
    ensures { IfOk result (λ p. All IsInRange p) }
{
    let mut items = Vec::new(alloc);
    push_places(&mut items, places, shift)?;
    Ok(Path::from_vec(items))
}

fn many_points(alloc: Global, times: i32) -> Result<Path, AllocError>
    ensures { IfOk result (λ p. All IsInRange p) }
{
    let mut items = Vec::new(alloc);
    for shift in 0..times {
        push_places(&mut items, &POINTS, shift)?;
    }
    Ok(Path::from_vec(items))
}

fn many_lines(alloc: Global, times: i32) -> Result<Paths, AllocError>
    ensures { IfOk result ArePathsInRange }
{
    let mut items = Vec::new(alloc);
    for shift in 0..times {
        items.push(shifted_path(alloc, &LINE, shift)?)?;
    }
    Ok(Paths::from_vec(items))
}

fn shifted_polygon(alloc: Global, shift: i32) -> Result<Polygon, AllocError>
    ensures { IfOk result (λ polygon. ArePathsInRange polygon.rings) }
{
    let mut rings = Vec::new(alloc);
    rings.push(shifted_path(alloc, &RING, shift)?)?;
    Ok(Polygon {
        rings: Paths::from_vec(rings),
    })
}

fn many_polygons(alloc: Global, times: i32) -> Result<Polygons, AllocError>
    ensures { IfOk result ArePolygonsInRange }
{
    let mut items = Vec::new(alloc);
    for shift in 0..times {
        items.push(shifted_polygon(alloc, shift)?)?;
    }
    Ok(Polygons::from_vec(items))
}

fn many_shapes(alloc: Global, times: i32) -> Result<Shape, AllocError>
    ensures { IfOk result IsShapeInRange }
{
    Ok(Shape {
        points: many_points(alloc, times)?,
        lines: many_lines(alloc, times)?,
        polygons: many_polygons(alloc, times)?,
    })
}

/// The printed hull of the one feature.
fn printed_hull(alloc: Global, times: i32) -> Result<String, Fail> {
    let asked = query(alloc, Verb::Hull, None)?;
    let alone = Feature {
        at: 0,
        shape: many_shapes(alloc, times)?,
        texts: TextPairs::from_vec(Vec::new(alloc)),
    };
    let answer = answered(part_of(alloc, &asked, alone)?)?;
    Ok(answer_text(alloc, &answer, 1)?)
}

/// How many of the rows have their hull, up to the first that hasn't.
fn hulls_told(alloc: Global, rows: &[Flight]) -> Result<usize, Fail> {
    let mut told = 0;
    for row in rows {
        if printed_hull(alloc, row.times)?.as_str() != row.hull {
            return Ok(told);
        }
        told += 1;
    }
    Ok(told)
}

#[test]
fn hulls_of_one_feature(rt: HostRuntime) -> Result<(), Fail> {
    assert_eq!(rt; hulls_told(rt.alloc(), &FLIGHTS)?, 4);
    Ok(())
}
