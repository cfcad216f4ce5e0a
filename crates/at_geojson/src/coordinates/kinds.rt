//! Coordinates: positions of numbers, faults of lists of positions, and arrays of areas (RFC 7946 section 3.1.1).

ghost use Rattle.std.specs.Prelude.{◌≡◌, map, IfOk};
ghost use Rattle.at_query.specs.Keeping.{kept};
ghost use Rattle.at_geojson.specs.Atoms.{to_four};
ghost use Rattle.at_geojson.specs.Gathering.{firsts, number_value as the_number_value};
ghost use Rattle.at_geojson.specs.Gathering.{number_fault as the_number_fault, position_value as the_position_value};
ghost use Rattle.at_geojson.specs.Gathering.{position_fault as the_position_fault, position_atom as the_position_atom};
ghost use Rattle.at_geojson.specs.Gathering.{pair_atom as the_pair, fault_as_line as the_fault_as_line};
ghost use Rattle.at_geojson.specs.Gathering.{fault_as_ring as the_fault_as_ring, area_fault as the_area_fault};
ghost use Rattle.at_geojson.specs.Gathering.{polygon_in, MakesAreas};

use crate::atoms::atom::{Areas, AreasAtom, FaultyAtom, GeoAtom, PositionAtom};
use at_geom::{Paths, Polygon, Pos, line_fault, ring_fault};
use at_text::{Fault, Memory, first_fault};
use std::alloc::Global;

/// A number's value, or 0 where it has none.
fn number_value(atom: &GeoAtom) -> i64
    ensures { result ≡ the_number_value atom.now }
{
    match atom {
        GeoAtom::Number(number) => number.value,
        _ => 0,
    }
}

/// Why a number has no value.
fn number_fault(atom: &GeoAtom) -> Option<Fault>
    ensures { result ≡ the_number_fault atom.now }
{
    match atom {
        GeoAtom::BadNumber(fault) => Some(*fault),
        _ => None,
    }
}

/// The position of two numbers.
fn position_atom(at: u32, least: u32, x: &GeoAtom, y: &GeoAtom) -> GeoAtom
    ensures { result ≡ the_position_atom at least x.now y.now }
{
    match first_fault(number_fault(x), number_fault(y)) {
        Some(fault) => GeoAtom::BadPosition(FaultyAtom { at, least, fault }),
        None => GeoAtom::Position(PositionAtom {
            at,
            least,
            pos: Pos {
                x: number_value(x),
                y: number_value(y),
            },
        }),
    }
}

/// The position of the first two numbers, where there are two.
pub fn pair_atom(at: u32, least: u32, atoms: &[GeoAtom]) -> Option<GeoAtom>
    ensures { result ≡ the_pair at least atoms.now }
{
    match (atoms.first(), atoms.get(1)) {
        (Some(x), Some(y)) => Some(position_atom(at, least, x, y)),
        _ => None,
    }
}

/// A position's values, or nought where it has a fault.
pub fn position_value(atom: &GeoAtom) -> Pos
    ensures { result ≡ the_position_value atom.now }
{
    match atom {
        GeoAtom::Position(position) => position.pos,
        _ => Pos { x: 0, y: 0 },
    }
}

/// The first fault of a position.
pub fn position_fault(atom: &GeoAtom) -> Option<Fault>
    ensures { result ≡ the_position_fault atom.now }
{
    match atom {
        GeoAtom::BadPosition(position) => Some(position.fault),
        _ => None,
    }
}

/// The count, up to four.
pub fn count_to_four(count: usize) -> u32
    ensures { result ≡ to_four count }
{
    if count < 4 { count as u32 } else { 4 }
}

/// The first fault of a list of positions as a line.
pub fn fault_as_line(atom: &GeoAtom) -> Option<Fault>
    ensures { result ≡ the_fault_as_line atom.now }
{
    match atom {
        GeoAtom::Points(list) => list.points.as_line,
        GeoAtom::Empty(at) => line_fault(0, *at),
        _ => None,
    }
}

/// The first fault of a list of positions as a ring.
pub fn fault_as_ring(atom: &GeoAtom) -> Option<Fault>
    ensures { result ≡ the_fault_as_ring atom.now }
{
    match atom {
        GeoAtom::Points(list) => list.points.as_ring,
        GeoAtom::Empty(at) => ring_fault(0, true, *at),
        _ => None,
    }
}

/// The first fault of an area.
fn area_fault(atom: &GeoAtom) -> Option<Fault>
    ensures { result ≡ the_area_fault atom.now }
{
    match atom {
        GeoAtom::Lists(area) => area.lists.as_rings,
        _ => None,
    }
}

/// The first fault of areas.
fn areas_fault(atoms: &[GeoAtom]) -> Option<Fault>
    ensures { result ≡ firsts the_area_fault atoms.now }
{
    let mut first = None;
    for atom in atoms {
        first = first_fault(first, area_fault(atom));
    }
    first
}

/// The polygon of an area.
fn into_polygon(alloc: Global, atom: GeoAtom) -> Polygon
    ensures { result ≡ polygon_in atom }
{
    match atom {
        GeoAtom::Lists(area) => Polygon {
            rings: Paths::from_vec(Box::into_inner(area.lists).paths),
        },
        _ => Polygon {
            rings: Paths::from_vec(Vec::new(alloc)),
        },
    }
}

/// The polygons of areas.
fn into_polygons(alloc: Global, atoms: Vec<GeoAtom>) -> Result<Vec<Polygon>, Memory>
    ensures { IfOk result (λ polygons. polygons.items ≡ map polygon_in atoms.items) }
{
    let mut polygons = Vec::with_capacity(alloc, atoms.len())?;
    for atom in atoms {
        polygons.push(into_polygon(alloc, atom))?;
    }
    Ok(polygons)
}

/// The polygons of areas, where shapes are kept.
fn kept_polygons(alloc: Global, needs: bool, atoms: Vec<GeoAtom>) -> Result<Vec<Polygon>, Memory>
    ensures { IfOk result (λ polygons. polygons.items ≡ kept needs (map polygon_in atoms.items)) }
{
    if needs {
        into_polygons(alloc, atoms)
    } else {
        Ok(Vec::new(alloc))
    }
}

/// An array of areas.
pub fn areas_atom(
    alloc: Global,
    needs: bool,
    at: u32,
    least: u32,
    atoms: Vec<GeoAtom>,
) -> Result<GeoAtom, Memory>
    ensures { IfOk result (MakesAreas needs at least atoms.items) }
{
    let fault = areas_fault(atoms.as_slice());
    let polygons = kept_polygons(alloc, needs, atoms)?;
    let areas = Areas { polygons, fault };
    Ok(GeoAtom::Areas(AreasAtom {
        at,
        least,
        areas: Box::new(alloc, areas)?,
    }))
}
