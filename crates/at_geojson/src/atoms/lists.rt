//! Arrays item by item: what their items are together, as coordinates, geometries and features.

ghost use Rattle.std.specs.Prelude.{◌≡◌, ◌≢◌, [], ◌∷◌, All, IfOk, Some, None, Ok, Err, false};
ghost use Rattle.std.specs.List.{list_any};
ghost use Rattle.at_text.specs.Faults.{fault_at};
ghost use Rattle.at_geom.specs.Shapes.{empty_shape as nothing};
ghost use Rattle.at_query.specs.Parts.{IsPart};
ghost use Rattle.at_geojson.specs.Atoms.{is_empty as is_empty_atom, as_geometries as geometries_in};
ghost use Rattle.at_geojson.specs.Atoms.{as_features as features_in, at_of as offset_in, twin_of as twin_in};
ghost use Rattle.at_geojson.specs.Atoms.{role_of as role_in, role_geometry as geometry_of_role};
ghost use Rattle.at_geojson.specs.Atoms.{role_item as item_of_role, IsOwn, AreOwnItems};
ghost use Rattle.at_geojson.specs.Gathering.{seen, items_kept, firsts, is_object as object_is, is_any_object as any_object_is};
ghost use Rattle.at_geojson.specs.Gathering.{item_geometries, item_features, JoinsShapes, JoinsFound, AreJoinable};
ghost use Rattle.at_geojson.specs.Arrays.{JoinsItems, MakesItems, MakesNumbers, ClosesItems};

use crate::asked::GeoAlgebra;
use crate::atoms::atom::{GeoAtom, Items, ItemsAtom, OtherAtom, Role};
use crate::atoms::geometries::Geometry;
use crate::atoms::shapes::{empty_shape, joined_shapes};
use crate::atoms::sorts::{Sort, at_of, least_of, sort_of_all};
use crate::coordinates::kinds::{areas_atom, pair_atom};
use crate::joined::series::series_array;
use crate::joined::tracks::track_array;
use crate::objects::twins::first_twin;
use at_query::{Part, Query, part_merge, part_none};
use at_text::{Fault, FaultKind, Memory, first_of_two};
use std::alloc::Global;

/// Form at the offset.
pub fn form_at(at: u32) -> Fault
    ensures { result ≡ fault_at FaultKind.Form at }
{
    Fault {
        kind: FaultKind::Form,
        at,
    }
}

/// Parts one behind another: both, where neither has a fault, and else the first fault.
pub fn joined_parts(
    left: Result<Part, Fault>,
    right: Result<Part, Fault>,
) -> Result<Result<Part, Fault>, Memory>
    requires { AreJoinable left right }
    ensures { IfOk result (JoinsFound left right) }
{
    match (left, right) {
        (Ok(before), Ok(behind)) => Ok(Ok(part_merge(before, behind)?)),
        (Ok(_), Err(fault)) => Ok(Err(fault)),
        (Err(fault), Ok(_)) => Ok(Err(fault)),
        (Err(fault), Err(other)) => Ok(Err(first_of_two(fault, other))),
    }
}

/// What a role is as a geometry of the value at the offset.
pub fn role_geometry(at: u32, role: Role) -> Result<Geometry, Fault>
    ensures { result ≡ geometry_of_role at role }
{
    match role {
        Role::Geometry(geometry) => geometry,
        _ => Err(form_at(at)),
    }
}

/// What a value is as a geometry.
pub fn into_geometry(atom: GeoAtom) -> Result<Geometry, Fault>
    ensures { result ≡ geometry_of_role (offset_in atom) (role_in atom) }
{
    match atom {
        GeoAtom::Object(object) => role_geometry(object.at, Box::into_inner(object.roles).role),
        other => Err(form_at(at_of(&other))),
    }
}

/// A role as a geometry and as an item of a collection of features.
fn role_items(at: u32, role: Role) -> Items
    ensures geometries { result.geometries ≡ geometry_of_role at role }
    ensures features { result.features ≡ item_of_role at role }
{
    match role {
        Role::Geometry(geometries) => Items {
            geometries,
            features: Err(form_at(at)),
        },
        Role::Feature(features) => Items {
            geometries: Err(form_at(at)),
            features,
        },
        _ => Items {
            geometries: Err(form_at(at)),
            features: Err(form_at(at)),
        },
    }
}

/// What a value, or several, are as geometries and as items of a collection of features.
pub fn into_items(atom: GeoAtom) -> Items
    ensures geometries { result.geometries ≡ item_geometries atom }
    ensures features { result.features ≡ item_features atom }
{
    match atom {
        GeoAtom::Object(object) => role_items(object.at, Box::into_inner(object.roles).role),
        GeoAtom::Run(items) => Box::into_inner(items),
        other => role_items(at_of(&other), Role::Nothing),
    }
}

/// Items one behind another.
fn joined_items(alloc: Global, left: Items, right: Items) -> Result<Items, Memory>
    requires { AreJoinable left.features right.features }
    ensures geometries { IfOk result (λ items. JoinsShapes left.geometries right.geometries items.geometries) }
    ensures features { IfOk result (λ items. JoinsFound left.features right.features items.features) }
{
    Ok(Items {
        geometries: joined_shapes(alloc, left.geometries, right.geometries)?,
        features: joined_parts(left.features, right.features)?,
    })
}

/// No items.
fn no_items(alloc: Global, query: &Query) -> Items
    ensures geometries { result.geometries ≡ Ok nothing }
    ensures features { (part : Part) × (result.features ≡ Ok part) × IsPart query.now [] part }
{
    Items {
        geometries: Ok(empty_shape(alloc)),
        features: Ok(part_none(alloc, query)),
    }
}

/// What values one behind another are as geometries and as items of a collection of features.
fn all_items(alloc: Global, algebra: &GeoAlgebra, atoms: Vec<GeoAtom>) -> Result<Items, Memory>
    requires { All (IsOwn algebra.now) atoms.items }
    ensures own { IfOk result (AreOwnItems algebra.now) }
    ensures joins { IfOk result (JoinsItems algebra.now atoms.items) }
{
    let mut items = no_items(alloc, algebra.query());
    for atom in atoms {
        items = joined_items(alloc, items, into_items(atom))?;
    }
    Ok(items)
}

/// Form at the first item of an array that has no objects, and at the offset for any other value.
pub fn first_of_forms(at: u32, atom: &GeoAtom) -> Fault
    ensures geometries { is_empty_atom atom.now ≡ false → items_kept atom.now ≡ false
        → Err result ≡ seen (Err (fault_at FaultKind.Form at)) (λ r. r) (geometries_in atom.now) }
    ensures features { is_empty_atom atom.now ≡ false → items_kept atom.now ≡ false
        → Err result ≡ seen (Err (fault_at FaultKind.Form at)) (λ r. r) (features_in atom.now) }
{
    match atom {
        GeoAtom::Position(position) => form_at(position.least),
        GeoAtom::BadPosition(position) => form_at(position.least),
        GeoAtom::Points(points) => form_at(points.least),
        GeoAtom::Lists(lists) => form_at(lists.least),
        GeoAtom::Areas(areas) => form_at(areas.least),
        GeoAtom::Other(other) => form_at(other.least),
        _ => form_at(at),
    }
}

/// Whether a value is an object that has a kind or texts, or several of which one is an object.
pub fn is_object(atom: &GeoAtom) -> bool
    ensures { result ≡ object_is atom.now }
{
    match atom {
        GeoAtom::Object(_) | GeoAtom::Run(_) => true,
        _ => false,
    }
}

/// Whether a value is an object, or several of which one is an object.
#[inline(always)]
pub fn is_any_object(atom: &GeoAtom) -> bool
    ensures { result ≡ any_object_is atom.now }
{
    match atom {
        GeoAtom::Object(_) | GeoAtom::Run(_) | GeoAtom::Void(_) => true,
        _ => false,
    }
}

/// Whether some value is an object that has a kind or texts, or several of which one is an object.
fn has_objects(atoms: &[GeoAtom]) -> bool
    ensures { result ≡ list_any object_is atoms.now }
{
    for atom in atoms {
        if is_object(atom) {
            return true;
        }
    }
    false
}

/// An array whose items are not all of one sort of coordinates, or are one number.
fn list_atom(
    alloc: Global,
    algebra: &GeoAlgebra,
    at: u32,
    items: Vec<GeoAtom>,
) -> Result<GeoAtom, Memory>
    requires { All (IsOwn algebra.now) items.items }
    ensures own { IfOk result (IsOwn algebra.now) }
    ensures made { IfOk result (MakesItems algebra.now at items.items) }
{
    let least = least_of(items.as_slice());
    if !has_objects(items.as_slice()) {
        return Ok(GeoAtom::Other(OtherAtom { at, least }));
    }
    let items = all_items(alloc, algebra, items)?;
    Ok(GeoAtom::Items(ItemsAtom {
        at,
        items: Box::new(alloc, items)?,
    }))
}

/// An array of numbers.
fn numbers_atom(
    alloc: Global,
    algebra: &GeoAlgebra,
    at: u32,
    items: Vec<GeoAtom>,
) -> Result<GeoAtom, Memory>
    requires { All (IsOwn algebra.now) items.items }
    ensures own { IfOk result (IsOwn algebra.now) }
    ensures made { IfOk result (MakesNumbers algebra.now at items.items) }
{
    match pair_atom(at, least_of(items.as_slice()), items.as_slice()) {
        Some(atom) => Ok(atom),
        None => list_atom(alloc, algebra, at, items),
    }
}

/// An array of at least one item, in which no object has equal names.
fn items_atom(
    alloc: Global,
    algebra: &GeoAlgebra,
    at: u32,
    items: Vec<GeoAtom>,
) -> Result<GeoAtom, Memory>
    requires own { All (IsOwn algebra.now) items.items }
    requires twins { firsts twin_in items.items ≡ None }
    requires some { items.items ≢ [] }
    ensures own { IfOk result (IsOwn algebra.now) }
    ensures fold { IfOk result (ClosesItems algebra.now at items.items) }
{
    match sort_of_all(items.as_slice()) {
        Sort::Number => numbers_atom(alloc, algebra, at, items),
        Sort::Position => track_array(alloc, algebra, at, items),
        Sort::Points => series_array(alloc, algebra, at, items),
        Sort::Lists => {
            let least = least_of(items.as_slice());
            areas_atom(alloc, algebra.needs_shapes(), at, least, items)
        }
        Sort::Other => list_atom(alloc, algebra, at, items),
    }
}

/// An array that begins at the offset, with items that stand for several values or without.
pub fn array_atom(
    alloc: Global,
    algebra: &GeoAlgebra,
    at: u32,
    items: Vec<GeoAtom>,
) -> Result<GeoAtom, Memory>
    requires { All (IsOwn algebra.now) items.items }
    ensures own { IfOk result (IsOwn algebra.now) }
    ensures fold { IfOk result (ClosesItems algebra.now at items.items) }
{
    if items.as_slice().is_empty() {
        return Ok(GeoAtom::Empty(at));
    }
    match first_twin(items.as_slice()) {
        Some(fault) => Ok(GeoAtom::Twin(fault)),
        None => items_atom(alloc, algebra, at, items),
    }
}

/// An array of one item that begins at the offset.
pub fn one_item_atom(
    alloc: Global,
    algebra: &GeoAlgebra,
    at: u32,
    item: GeoAtom,
) -> Result<GeoAtom, Memory>
    requires { IsOwn algebra.now item }
    ensures own { IfOk result (IsOwn algebra.now) }
    ensures fold { IfOk result (ClosesItems algebra.now at (item ∷ [])) }
{
    if let GeoAtom::Other(other) = &item {
        return Ok(GeoAtom::Other(OtherAtom {
            at,
            least: other.at,
        }));
    }
    let mut items = Vec::with_capacity(alloc, 1)?;
    items.push(item)?;
    array_atom(alloc, algebra, at, items)
}
