//! Geometries, features and collections of their members (RFC 7946 section 3).

ghost use Rattle.std.specs.Prelude.{◌≡◌, ◌∷◌, [], true, IfOk};
ghost use Rattle.at_geom.specs.Shapes.{IsShapeInRange};
ghost use Rattle.at_query.specs.Parts.{IsPart};
ghost use Rattle.at_geojson.specs.Atoms.{IfOwnShape};
ghost use Rattle.at_geojson.specs.Objects.{kind_shape, coordinates_shape, geometries_shape};
ghost use Rattle.at_geojson.specs.Objects.{feature_shape as the_feature_shape, FeaturesSeen, JoinsFeature};

use crate::asked::GeoAlgebra;
use crate::atoms::atom::GeoAtom;
use crate::atoms::geometries::Geometry;
use crate::atoms::lists::{first_of_forms, form_at, into_geometry};
use crate::atoms::readings::{as_line, as_lines, as_point, as_points, as_polygon, as_polygons};
use crate::atoms::shapes::empty_shape;
use crate::atoms::sorts::at_of;
use at_query::{Feature, Part, Query, TextPairs, Verb, part_none, part_of};
use at_scan::Kind;
use at_text::{Fault, Memory, first_of_two};
use std::alloc::Global;

/// A value as the coordinates of a geometry of the kind.
fn as_coordinates(
    alloc: Global,
    needs: bool,
    kind: Kind,
    atom: GeoAtom,
) -> Result<Result<Geometry, Fault>, Memory>
    ensures { IfOk result (λ r. r ≡ kind_shape needs kind atom) }
{
    match kind {
        Kind::Point => as_point(alloc, needs, atom),
        Kind::MultiPoint => Ok(as_points(alloc, atom)),
        Kind::LineString => as_line(alloc, needs, atom),
        Kind::MultiLineString => Ok(as_lines(alloc, atom)),
        Kind::Polygon => as_polygon(alloc, needs, atom),
        Kind::MultiPolygon => Ok(as_polygons(alloc, atom)),
        _ => Ok(Err(form_at(at_of(&atom)))),
    }
}

/// A geometry of the kind at the offset, of its member `coordinates`.
pub fn of_coordinates(
    alloc: Global,
    needs: bool,
    at: u32,
    kind: Kind,
    coordinates: Option<GeoAtom>,
) -> Result<Result<Geometry, Fault>, Memory>
    ensures { IfOk result (λ r. r ≡ coordinates_shape needs at kind coordinates) }
{
    match coordinates {
        Some(atom) => as_coordinates(alloc, needs, kind, atom),
        None => Ok(Err(form_at(at))),
    }
}

/// A geometry collection at the offset, of its member `geometries`.
pub fn of_geometries(alloc: Global, at: u32, geometries: Option<GeoAtom>) -> Result<Geometry, Fault>
    ensures { result ≡ geometries_shape at geometries }
{
    match geometries {
        None => Err(form_at(at)),
        Some(GeoAtom::Empty(_)) => Ok(empty_shape(alloc)),
        Some(GeoAtom::Items(list)) => Box::into_inner(list.items).geometries,
        Some(other) => Err(first_of_forms(at, &other)),
    }
}

/// A collection of features at the offset, of its member `features`.
pub fn of_features(
    alloc: Global,
    query: &Query,
    at: u32,
    features: Option<GeoAtom>,
) -> Result<Part, Fault>
    ensures { FeaturesSeen query.now at features result }
{
    match features {
        None => Err(form_at(at)),
        Some(GeoAtom::Empty(_)) => Ok(part_none(alloc, query)),
        Some(GeoAtom::Items(list)) => Box::into_inner(list.items).features,
        Some(other) => Err(first_of_forms(at, &other)),
    }
}

/// A feature's shape, of its member `geometry`.
pub fn feature_shape(alloc: Global, geometry: Option<GeoAtom>) -> Result<Geometry, Fault>
    ensures { result ≡ the_feature_shape geometry }
{
    match geometry {
        None => Ok(empty_shape(alloc)),
        Some(GeoAtom::Null(_)) => Ok(empty_shape(alloc)),
        Some(atom) => into_geometry(atom),
    }
}

/// Whether the query asks for nothing but the count of all features.
#[inline(always)]
fn counts_all(query: &Query) -> bool
    ensures verb { result ≡ true → query.now.verb ≡ Verb.Count }
    ensures tests { result ≡ true → query.now.tests ≡ [] }
{
    match query.verb {
        Verb::Count => query.tests.as_slice().is_empty(),
        _ => false,
    }
}

/// The part of the one feature at the offset.
#[inline(always)]
pub fn feature_part(
    alloc: Global,
    algebra: &GeoAlgebra,
    at: u32,
    geometry: Geometry,
    texts: TextPairs,
) -> Result<Part, Memory>
    requires { IsShapeInRange geometry }
    ensures { IfOk result (IsPart algebra.now.query (record { at = at; shape = geometry; texts = texts } ∷ [])) }
{
    if counts_all(algebra.query()) {
        return Ok(Part::Count(1));
    }
    let shape = geometry.into_shape()?;
    let feature = Feature { at, shape, texts };
    part_of(alloc, algebra.query(), feature)
}

/// The feature at the offset, of its shape and its texts.
#[inline(always)]
pub fn of_feature(
    alloc: Global,
    algebra: &GeoAlgebra,
    at: u32,
    shape: Result<Geometry, Fault>,
    texts: Result<TextPairs, Fault>,
) -> Result<Result<Part, Fault>, Memory>
    requires { IfOwnShape algebra.now shape }
    ensures { IfOk result (JoinsFeature algebra.now.query at shape texts) }
{
    match shape {
        Ok(shape) => match texts {
            Ok(texts) => Ok(Ok(feature_part(alloc, algebra, at, shape, texts)?)),
            Err(fault) => Ok(Err(fault)),
        },
        Err(fault) => match texts {
            Ok(_) => Ok(Err(fault)),
            Err(other) => Ok(Err(first_of_two(fault, other))),
        },
    }
}
