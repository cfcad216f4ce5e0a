//! A value as the coordinates of each kind of geometry (RFC 7946 section 3.1).

ghost use Rattle.std.specs.Prelude.{◌≡◌, ◌∷◌, [], IfOk};
ghost use Rattle.at_geom.specs.Shapes.{of_points as points_are, of_lines as lines_are, of_polygons as polygons_are};
ghost use Rattle.at_query.specs.Keeping.{kept};
ghost use Rattle.at_geojson.specs.Objects.{unless as shape_unless, point_shape, points_shape, line_shape, lines_shape};
ghost use Rattle.at_geojson.specs.Objects.{polygon_shape, polygons_shape};

use crate::atoms::atom::{Areas, GeoAtom, Lists, Points};
use crate::atoms::geometries::Geometry;
use crate::atoms::lists::form_at;
use crate::atoms::shapes::{
    empty_shape, of_lines, of_points, of_polygons, one_line, one_point, one_polygon,
};
use crate::atoms::sorts::at_of;
use at_geom::Pos;
use at_text::{Fault, Memory};
use std::alloc::Global;

/// The shape, or the fault where there is one.
#[inline(always)]
fn unless(fault: Option<Fault>, shape: Geometry) -> Result<Geometry, Fault>
    ensures { result ≡ shape_unless fault shape }
{
    match fault {
        Some(fault) => Err(fault),
        None => Ok(shape),
    }
}

/// The geometry of a point.
#[inline(always)]
fn point_of(alloc: Global, needs: bool, pos: Pos) -> Result<Geometry, Memory>
    ensures { IfOk result (λ g. g ≡ points_are (kept needs (pos ∷ []))) }
{
    Ok(of_points(alloc, one_point(alloc, needs, pos)?))
}

/// The geometry of points, or their first fault.
fn points_of(alloc: Global, points: Points) -> Result<Geometry, Fault>
    ensures { result ≡ shape_unless points.as_points (points_are points.path.items) }
{
    unless(points.as_points, of_points(alloc, points.path))
}

/// The geometry of a line, or its first fault.
#[inline(always)]
fn line_of(alloc: Global, needs: bool, points: Points) -> Result<Result<Geometry, Fault>, Memory>
    ensures { IfOk result (λ r. r ≡ shape_unless points.as_line (lines_are (kept needs (points.path.items ∷ [])))) }
{
    let lines = one_line(alloc, needs, points.path)?;
    Ok(unless(points.as_line, of_lines(alloc, lines)))
}

/// The geometry of lines, or their first fault.
fn lines_of(alloc: Global, lists: Lists) -> Result<Geometry, Fault>
    ensures { result ≡ shape_unless lists.as_lines (lines_are lists.paths.items) }
{
    unless(lists.as_lines, of_lines(alloc, lists.paths))
}

/// The geometry of a polygon, or its first fault.
#[inline(always)]
fn polygon_of(alloc: Global, needs: bool, lists: Lists) -> Result<Result<Geometry, Fault>, Memory>
    ensures { IfOk result (λ r. r ≡ shape_unless lists.as_rings
        (polygons_are (kept needs (record { rings = lists.paths.items } ∷ [])))) }
{
    let polygons = one_polygon(alloc, needs, lists.paths)?;
    Ok(unless(lists.as_rings, of_polygons(alloc, polygons)))
}

/// The geometry of polygons, or their first fault.
fn polygons_of(alloc: Global, areas: Areas) -> Result<Geometry, Fault>
    ensures { result ≡ shape_unless areas.fault (polygons_are areas.polygons.items) }
{
    unless(areas.fault, of_polygons(alloc, areas.polygons))
}

/// A value as the coordinates of a point.
pub fn as_point(
    alloc: Global,
    needs: bool,
    atom: GeoAtom,
) -> Result<Result<Geometry, Fault>, Memory>
    ensures { IfOk result (λ r. r ≡ point_shape needs atom) }
{
    match atom {
        GeoAtom::Empty(_) => Ok(Ok(empty_shape(alloc))),
        GeoAtom::Position(position) => Ok(Ok(point_of(alloc, needs, position.pos)?)),
        GeoAtom::BadPosition(position) => Ok(Err(position.fault)),
        other => Ok(Err(form_at(at_of(&other)))),
    }
}

/// A value as the coordinates of points.
pub fn as_points(alloc: Global, atom: GeoAtom) -> Result<Geometry, Fault>
    ensures { result ≡ points_shape atom }
{
    match atom {
        GeoAtom::Empty(_) => Ok(empty_shape(alloc)),
        GeoAtom::Points(list) => points_of(alloc, Box::into_inner(list.points)),
        other => Err(form_at(at_of(&other))),
    }
}

/// A value as the coordinates of a line.
pub fn as_line(alloc: Global, needs: bool, atom: GeoAtom) -> Result<Result<Geometry, Fault>, Memory>
    ensures { IfOk result (λ r. r ≡ line_shape needs atom) }
{
    match atom {
        GeoAtom::Empty(_) => Ok(Ok(empty_shape(alloc))),
        GeoAtom::Points(list) => line_of(alloc, needs, Box::into_inner(list.points)),
        other => Ok(Err(form_at(at_of(&other)))),
    }
}

/// A value as the coordinates of lines.
pub fn as_lines(alloc: Global, atom: GeoAtom) -> Result<Geometry, Fault>
    ensures { result ≡ lines_shape atom }
{
    match atom {
        GeoAtom::Empty(_) => Ok(empty_shape(alloc)),
        GeoAtom::Lists(list) => lines_of(alloc, Box::into_inner(list.lists)),
        other => Err(form_at(at_of(&other))),
    }
}

/// A value as the coordinates of a polygon.
pub fn as_polygon(
    alloc: Global,
    needs: bool,
    atom: GeoAtom,
) -> Result<Result<Geometry, Fault>, Memory>
    ensures { IfOk result (λ r. r ≡ polygon_shape needs atom) }
{
    match atom {
        GeoAtom::Empty(_) => Ok(Ok(empty_shape(alloc))),
        GeoAtom::Lists(list) => polygon_of(alloc, needs, Box::into_inner(list.lists)),
        other => Ok(Err(form_at(at_of(&other)))),
    }
}

/// A value as the coordinates of polygons.
pub fn as_polygons(alloc: Global, atom: GeoAtom) -> Result<Geometry, Fault>
    ensures { result ≡ polygons_shape atom }
{
    match atom {
        GeoAtom::Empty(_) => Ok(empty_shape(alloc)),
        GeoAtom::Areas(list) => polygons_of(alloc, Box::into_inner(list.areas)),
        other => Err(form_at(at_of(&other))),
    }
}
