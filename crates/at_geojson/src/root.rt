//! What a whole text means: the part of its features, or its first fault beyond its syntax.

ghost use Rattle.std.specs.Prelude.{◌≡◌, ◌+◌, ◌≤◌, ◌^◌, [], length, IfOk, IfSome};
ghost use Rattle.at_geom.specs.Shapes.{IsShapeInRange};
ghost use Rattle.at_nest.specs.Tree.{Tree};
ghost use Rattle.at_geojson.specs.Atoms.{IsOwn, IsOwnRole, IfOwnShape, IsFold};
ghost use Rattle.at_geojson.specs.Wholes.{IsAnswer, IsFeatureFront, found_end};
ghost use Rattle.at_geojson.specs.Ends.{EndsLone, EndsGeometry, EndsRole, EndsAtom};

use crate::asked::GeoAlgebra;
use crate::at_once::features::{FeatureRead, read_feature};
use crate::atoms::atom::{GeoAtom, Role};
use crate::atoms::geometries::Geometry;
use crate::atoms::lists::form_at;
use crate::atoms::sorts::at_of;
use crate::objects::members::feature_part;
use crate::text::Text;
use at_query::{Part, TextPairs};
use at_scan::{TableNames, stands};
use at_text::{Fault, Halt, Memory, Refusal};
use std::alloc::Global;

/// Why a text has no part: its first fault, or want of memory.
pub type RootEnd = Refusal;

/// A feature with which a text begins: how many bytes it takes, and the part of a query that it gives where it is the
/// whole text, or its first fault.
#[derive(Drop)]
pub struct FeatureFront {
    pub len: u32,
    pub part: Result<Part, Fault>,
}

/// The part of a geometry that is a feature without texts.
fn lone_part(alloc: Global, algebra: &GeoAlgebra, at: u32, shape: Geometry) -> Result<Part, Refusal>
    requires { IsShapeInRange shape }
    ensures { EndsLone algebra.now.query (record { at = at; shape = shape; texts = [] }) result }
{
    let texts = TextPairs::from_vec(Vec::new(alloc));
    Ok(feature_part(alloc, algebra, at, shape, texts)?)
}

/// The part of a geometry that is the whole text.
fn geometry_part(
    alloc: Global,
    algebra: &GeoAlgebra,
    at: u32,
    geometry: Result<Geometry, Fault>,
) -> Result<Part, Refusal>
    requires { IfOwnShape algebra.now geometry }
    ensures { EndsGeometry algebra.now.query at geometry result }
{
    lone_part(alloc, algebra, at, geometry?)
}

/// The part of an object at the offset, by its role.
fn role_part(alloc: Global, algebra: &GeoAlgebra, at: u32, role: Role) -> Result<Part, Refusal>
    requires { IsOwnRole algebra.now role }
    ensures { EndsRole algebra.now.query at role result }
{
    match role {
        Role::Nothing => Err(Refusal::Found(form_at(at))),
        Role::Geometry(geometry) => geometry_part(alloc, algebra, at, geometry),
        Role::Feature(found) => Ok(found?),
        Role::Collection(found) => Ok(found?),
    }
}

/// What the atom ends in as a whole text.
fn atom_part(alloc: Global, algebra: &GeoAlgebra, atom: GeoAtom) -> Result<Part, Refusal>
    requires { IsOwn algebra.now atom }
    ensures { EndsAtom algebra.now.query atom result }
{
    match atom {
        GeoAtom::Twin(fault) => Err(Refusal::Found(fault)),
        GeoAtom::Object(object) => role_part(
            alloc,
            algebra,
            object.at,
            Box::into_inner(object.roles).role,
        ),
        other => Err(Refusal::Found(form_at(at_of(&other)))),
    }
}

/// The part of a query that the features of a text give, or the text's first fault beyond its syntax.
pub fn root_part(alloc: Global, algebra: &GeoAlgebra, atom: GeoAtom) -> Result<Part, RootEnd>
    requires { IsOwn algebra.now atom }
    ensures { (t : Tree) → IsFold algebra.now atom t → IsAnswer algebra.now t result }
{
    atom_part(alloc, algebra, atom)
}

/// The feature with which a text begins, whose first byte stands at the offset, where it can be read at once. Nothing is
/// said of the text where it can't.
///
/// # Errors
/// The one refusal is want of memory.
pub fn feature_front(
    alloc: Global,
    algebra: &GeoAlgebra,
    text: &[u8],
    base: u32,
) -> Result<Option<FeatureFront>, Memory>
    requires { base + length text.now ≤ 2 ^ 28 }
    ensures { IfOk result (λ found. IfSome found (IsFeatureFront algebra.now base text.now)) }
{
    if !stands(text, 0, b'{') {
        return Ok(None);
    }
    let text = Text {
        algebra,
        alloc,
        bytes: text,
        base,
    };
    let mut names = TableNames::none(alloc);
    match read_feature(&text, 0, &mut names) {
        Ok(FeatureRead { end, part }) => Ok(Some(FeatureFront {
            len: end as u32,
            part,
        })),
        Err(Halt::Memory) => Err(Memory),
        Err(Halt::At(_)) => Ok(None),
    }
}
