//! What is kept of an object, by its kind.

ghost use Rattle.std.specs.Prelude.{◌≡◌, All, IfOk, Some};
ghost use Rattle.at_nest.specs.Tree.{Members, object as object_tree};
ghost use Rattle.at_nest.specs.Folds.{AreMemberFolds};
ghost use Rattle.at_query.specs.Keeping.{needs_shapes as needs_of};
ghost use Rattle.at_geojson.specs.Atoms.{role_geometry as geometry_of_role, IsOwn, IsOwnRole, IsFold};
ghost use Rattle.at_geojson.specs.Objects.{coordinates_shape, feature_shape as shape_of_feature, MakesObject};
ghost use Rattle.at_geojson.specs.Fields.{AreOwnFields, IfOwnValue, IsFeatureOf, IsRoleIn, MakesFields};

use crate::asked::GeoAlgebra;
use crate::atoms::atom::{GeoAtom, ObjectAtom, Role, Roles};
use crate::atoms::lists::role_geometry;
use crate::objects::fields::{Fields, fields_of, says_kind};
use crate::objects::members::{
    feature_shape, of_coordinates, of_feature, of_features, of_geometries,
};
use crate::objects::texts::{feature_texts, kept_texts};
use crate::objects::twins::first_twin_of_members;
use at_nest::Member;
use at_query::TextPairs;
use at_scan::Kind;
use at_text::{Fault, Memory};
use std::alloc::Global;
use std::mem::replace;

/// A role beside the texts for which the query asks.
#[inline(always)]
pub fn new_roles(alloc: Global, role: Role, texts: TextPairs) -> Result<Box<Roles>, Memory>
    ensures role { IfOk result (λ roles. roles.value.role ≡ role) }
    ensures texts { IfOk result (λ roles. roles.value.texts ≡ texts) }
{
    Ok(Box::new(alloc, Roles { role, texts })?)
}

/// Roles whose texts are still to be put in.
#[inline(always)]
fn without_texts(alloc: Global, role: Role) -> Roles
    ensures { result.role ≡ role }
{
    Roles {
        role,
        texts: TextPairs::from_vec(Vec::new(alloc)),
    }
}

/// The same in memory of their own.
#[inline(always)]
fn roles_without_texts(alloc: Global, role: Role) -> Result<Box<Roles>, Memory>
    ensures { IfOk result (λ roles. roles.value.role ≡ role) }
{
    Ok(Box::new(alloc, without_texts(alloc, role))?)
}

/// A feature at the offset, of its geometry and the texts of its properties, without those kept. The geometry's memory
/// serves on.
fn feature_in_place(
    alloc: Global,
    algebra: &GeoAlgebra,
    at: u32,
    geometry: ObjectAtom,
    found: Result<TextPairs, Fault>,
) -> Result<Box<Roles>, Memory>
    requires { IsOwnRole algebra.now geometry.roles.value.role }
    ensures role { IfOk result
        (λ roles. IsFeatureOf algebra.now.query at (geometry_of_role geometry.at geometry.roles.value.role) found
        roles.value.role) }
{
    let mut roles = geometry.roles;
    let taken = replace(&mut *roles, without_texts(alloc, Role::Nothing));
    let shape = role_geometry(geometry.at, taken.role);
    let part = of_feature(alloc, algebra, at, shape, found)?;
    *roles = without_texts(alloc, Role::Feature(part));
    Ok(roles)
}

/// A feature at the offset without a geometry that is an object.
fn bare_feature(
    alloc: Global,
    algebra: &GeoAlgebra,
    at: u32,
    geometry: Option<GeoAtom>,
    found: Result<TextPairs, Fault>,
) -> Result<Box<Roles>, Memory>
    requires { IfOwnValue algebra.now geometry }
    ensures role { IfOk result (λ roles. IsFeatureOf algebra.now.query at (shape_of_feature geometry) found
        roles.value.role) }
{
    let shape = feature_shape(alloc, geometry);
    let part = of_feature(alloc, algebra, at, shape, found)?;
    roles_without_texts(alloc, Role::Feature(part))
}

/// A feature at the offset, of its geometry and the texts of its properties.
fn feature_of(
    alloc: Global,
    algebra: &GeoAlgebra,
    at: u32,
    geometry: Option<GeoAtom>,
    found: Result<TextPairs, Fault>,
) -> Result<Box<Roles>, Memory>
    requires { IfOwnValue algebra.now geometry }
    ensures role { IfOk result (λ roles. IsFeatureOf algebra.now.query at (shape_of_feature geometry) found
        roles.value.role) }
{
    match geometry {
        Some(GeoAtom::Object(object)) => feature_in_place(alloc, algebra, at, object, found),
        other => bare_feature(alloc, algebra, at, other, found),
    }
}

/// A feature at the offset.
fn feature_roles(
    alloc: Global,
    algebra: &GeoAlgebra,
    at: u32,
    fields: &mut Fields,
) -> Result<Box<Roles>, Memory>
    requires { AreOwnFields algebra.now fields.old }
    ensures role { IfOk result (λ roles. IsRoleIn algebra.now.query at (Some Kind.Feature) fields.old
        roles.value.role) }
{
    let found = feature_texts(alloc, &fields.properties)?;
    let geometry = fields.geometry.take();
    feature_of(alloc, algebra, at, geometry, found)
}

/// A geometry of a kind with coordinates at the offset.
fn coordinates_roles(
    alloc: Global,
    algebra: &GeoAlgebra,
    at: u32,
    kind: Kind,
    fields: &mut Fields,
) -> Result<Box<Roles>, Memory>
    requires { AreOwnFields algebra.now fields.old }
    ensures role { IfOk result (λ roles. roles.value.role
        ≡ Role.Geometry (coordinates_shape (needs_of algebra.now.query) at kind fields.old.coordinates)) }
{
    let needs = algebra.needs_shapes();
    let coordinates = fields.coordinates.take();
    let geometry = of_coordinates(alloc, needs, at, kind, coordinates)?;
    roles_without_texts(alloc, Role::Geometry(geometry))
}

/// What an object at the offset is by its kind.
fn roles_of(
    alloc: Global,
    algebra: &GeoAlgebra,
    at: u32,
    kind: Option<Kind>,
    fields: &mut Fields,
) -> Result<Box<Roles>, Memory>
    requires { AreOwnFields algebra.now fields.old }
    ensures role { IfOk result (λ roles. IsRoleIn algebra.now.query at kind fields.old roles.value.role) }
{
    match kind {
        None => roles_without_texts(alloc, Role::Nothing),
        Some(Kind::FeatureCollection) => {
            let features = fields.features.take();
            let found = of_features(alloc, algebra.query(), at, features);
            roles_without_texts(alloc, Role::Collection(found))
        }
        Some(Kind::Feature) => feature_roles(alloc, algebra, at, fields),
        Some(Kind::GeometryCollection) => {
            let geometries = fields.geometries.take();
            let found = of_geometries(alloc, at, geometries);
            roles_without_texts(alloc, Role::Geometry(found))
        }
        Some(Kind::Point) => coordinates_roles(alloc, algebra, at, Kind::Point, fields),
        Some(Kind::MultiPoint) => coordinates_roles(alloc, algebra, at, Kind::MultiPoint, fields),
        Some(Kind::LineString) => coordinates_roles(alloc, algebra, at, Kind::LineString, fields),
        Some(Kind::MultiLineString) => coordinates_roles(
            alloc,
            algebra,
            at,
            Kind::MultiLineString,
            fields,
        ),
        Some(Kind::Polygon) => coordinates_roles(alloc, algebra, at, Kind::Polygon, fields),
        Some(Kind::MultiPolygon) => coordinates_roles(
            alloc,
            algebra,
            at,
            Kind::MultiPolygon,
            fields,
        ),
    }
}

/// An object at the offset in which no name stands twice, with the texts for which the query asks.
pub fn fields_atom(
    alloc: Global,
    algebra: &GeoAlgebra,
    at: u32,
    fields: &mut Fields,
    texts: TextPairs,
) -> Result<GeoAtom, Memory>
    requires { AreOwnFields algebra.now fields.old }
    ensures own { IfOk result (IsOwn algebra.now) }
    ensures made { IfOk result (MakesFields algebra.now.query at fields.old texts) }
{
    let kind = fields.kind();
    if kind.is_none() && texts.as_slice().is_empty() {
        return Ok(GeoAtom::Void(at));
    }
    let mut roles = roles_of(alloc, algebra, at, kind, fields)?;
    roles.texts = texts;
    Ok(GeoAtom::Object(ObjectAtom { at, roles }))
}

/// An object at the offset in which no name stands twice.
fn members_atom(
    alloc: Global,
    algebra: &GeoAlgebra,
    at: u32,
    members: Vec<Member<GeoAtom>>,
) -> Result<GeoAtom, Memory>
    requires { All (λ m. IsOwn algebra.now m.value) members.items }
    ensures own { IfOk result (IsOwn algebra.now) }
    ensures made { IfOk result (MakesObject algebra.now.query at members.items) }
{
    let texts = kept_texts(alloc, algebra.query().tests.as_slice(), members.as_slice())?;
    if texts.as_slice().is_empty() && !says_kind(members.as_slice()) {
        return Ok(GeoAtom::Void(at));
    }
    let mut fields = fields_of(members);
    fields_atom(alloc, algebra, at, &mut fields, texts)
}

/// An object that begins at the offset.
pub fn object_atom(
    alloc: Global,
    algebra: &GeoAlgebra,
    at: u32,
    members: Vec<Member<GeoAtom>>,
) -> Result<GeoAtom, Memory>
    requires { All (λ m. IsOwn algebra.now m.value) members.items }
    ensures own { IfOk result (IsOwn algebra.now) }
    ensures fold { IfOk result (λ atom. (ms : Members) → AreMemberFolds (IsFold algebra.now) members.items ms
        → IsFold algebra.now atom (object_tree at ms)) }
{
    match first_twin_of_members(alloc, members.as_slice())? {
        Some(fault) => Ok(GeoAtom::Twin(fault)),
        None => members_atom(alloc, algebra, at, members),
    }
}
