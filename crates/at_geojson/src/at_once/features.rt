//! Features of a text, read at once: no atom is made of their members.

ghost use Rattle.std.specs.Prelude.{◌≡◌, ◌+◌, ◌<◌, ◌≤◌, true, false, [], None, Some, length, slice_index, Ok};
ghost use Rattle.std.specs.Prelude.{◌∷◌, IfOk, IfSome};
ghost use Rattle.std.specs.List.{list_any};
ghost use Rattle.at_scan.specs.Members.{IsPlainName, ArePlainOthers};
ghost use Rattle.at_geom.specs.Shapes.{IsShapeInRange};
ghost use Rattle.at_query.specs.Keeping.{looks_at_texts, selects};
ghost use Rattle.at_query.specs.TextTests.{texts_hold};
ghost use Rattle.at_geojson.specs.Objects.{texts_in};
ghost use Rattle.at_geojson.specs.Values.{IsWhole};
ghost use Rattle.at_geojson.specs.PlainGeometries.{Sees};
ghost use Rattle.at_geojson.specs.Features.{IsShapeRead, IsTested, ReadsProperties, ReadsField, ReadsMember};
ghost use Rattle.at_geojson.specs.Features.{IsPartOfSeen, IsPartHeld, IsPartIn, IsOwnSeen, IfOwnGeometry};
ghost use Rattle.at_geojson.specs.Features.{EndsFeature, IsFeatureRead};

use crate::asked::GeoAlgebra;
use crate::at_once::plain_geometries::{
    Seen, SeenRead, ShapeRead, read_geometry, read_kind, seen_shape,
};
use crate::at_once::plain_objects::{VoidRead, is_read_again, pass_early, pass_object, pass_other};
use crate::at_once::values::{DEEPEST, read_item};
use crate::atoms::atom::{GeoAtom, ObjectAtom, Role};
use crate::atoms::geometries::Geometry;
use crate::atoms::shapes::empty_shape;
use crate::coordinates::pairs::Whole;
use crate::objects::members::{feature_part, feature_shape};
use crate::objects::object_atoms::new_roles;
use crate::objects::texts::{all_hold, asked_pairs};
use crate::objects::twins::is_twin;
use crate::text::Text;
use at_query::{Offsets, Part, TextPairs, Verb, needs_texts, part_none};
use at_scan::{
    Field, FieldName, Kind, KindRead, OTHER_KIND, OtherNames, TableNames, add_other, expect_comma,
    field_name, seems_cut, skip_spaces, stands,
};
use at_text::{Fault, Halt, Memory};
use std::alloc::Global;

/// So many members for which no kind asks may stand before the first of a feature's own.
const EARLY: usize = 6;

/// A feature that was read: the place behind it, and its part or its first fault.
#[derive(Drop)]
pub struct FeatureRead {
    pub end: usize,
    pub part: Result<Part, Fault>,
}

/// What those members of a feature say that were read.
#[derive(Drop)]
pub struct FeatureMembers {
    /// The member `type` names it a feature.
    pub is_feature: bool,
    /// What is seen of the shape by the member `geometry`, where there is one.
    pub geometry: Option<Result<Seen, Fault>>,
    /// There is a member `properties`, in which nothing is wrong.
    pub has_properties: bool,
    /// All tests on texts hold of the feature's, by the member `properties`.
    pub hold: bool,
}

/// Properties that were read: the place behind them, and whether all tests on texts hold of theirs.
#[derive(Clone, Copy)]
pub struct PropertiesRead {
    pub end: usize,
    pub hold: bool,
}

/// White space, any value as a geometry, and white space.
fn other_geometry(text: &Text<'_>, at: usize) -> Result<SeenRead, Halt>
    requires inside { at ≤ length text.now.bytes.now }
    ensures { IfOk result (Sees text.now.algebra.now (IsShapeRead text.now.algebra.now text.now.base text.now.bytes.now at)) }
{
    let Whole { end, atom } = read_item(text, at, DEEPEST)?;
    if is_twin(&atom) {
        return Err(Halt::At(end));
    }
    let shape = feature_shape(text.alloc, Some(atom));
    Ok(seen_shape(ShapeRead { end, shape }))
}

/// White space, a value as a geometry, and white space.
fn geometry_item(text: &Text<'_>, at: usize) -> Result<SeenRead, Halt>
    requires inside { at ≤ length text.now.bytes.now }
    ensures { IfOk result (Sees text.now.algebra.now (IsShapeRead text.now.algebra.now text.now.base text.now.bytes.now at)) }
{
    let first = skip_spaces(text.bytes, at);
    if !stands(text.bytes, first, b'{') {
        return other_geometry(text, at);
    }
    match read_geometry(text, first) {
        Ok(SeenRead { end, seen }) => Ok(SeenRead {
            end: skip_spaces(text.bytes, end),
            seen,
        }),
        Err(Halt::Memory) => Err(Halt::Memory),
        Err(Halt::At(place)) => if seems_cut(text.bytes, first, place) {
            Err(Halt::At(place))
        } else {
            other_geometry(text, at)
        },
    }
}

/// Whether all tests on texts hold of those of a value as properties; nothing where it is neither null nor an object.
fn texts_tested(algebra: &GeoAlgebra, atom: &GeoAtom) -> Option<bool>
    ensures { IfSome result (IsTested algebra.now.query.tests (texts_in atom.now)) }
{
    let tests = algebra.query().tests.as_slice();
    match atom {
        GeoAtom::Null(_) | GeoAtom::Void(_) => Some(all_hold(tests, &[])),
        GeoAtom::Object(object) => Some(all_hold(tests, object.roles.texts.as_slice())),
        _ => None,
    }
}

/// White space, any value as properties in which nothing is wrong, and white space.
fn other_properties(text: &Text<'_>, at: usize) -> Result<PropertiesRead, Halt>
    requires inside { at ≤ length text.now.bytes.now }
    ensures { IfOk result (ReadsProperties text.now.algebra.now text.now.base text.now.bytes.now at) }
{
    let Whole { end, atom } = read_item(text, at, DEEPEST)?;
    if is_twin(&atom) {
        return Err(Halt::At(end));
    }
    match texts_tested(text.algebra, &atom) {
        Some(hold) => Ok(PropertiesRead { end, hold }),
        None => Err(Halt::At(OTHER_KIND)),
    }
}

/// White space, a value as properties in which nothing is wrong, and white space.
fn read_properties(
    text: &Text<'_>,
    at: usize,
    others: &mut OtherNames,
) -> Result<PropertiesRead, Halt>
    requires inside { at ≤ length text.now.bytes.now }
    requires names { ArePlainOthers text.now.bytes.now others.old }
    ensures reads { IfOk result (ReadsProperties text.now.algebra.now text.now.base text.now.bytes.now at) }
    ensures names { IfOk result (λ _. ArePlainOthers text.now.bytes.now others.new) }
{
    let first = skip_spaces(text.bytes, at);
    if !stands(text.bytes, first, b'{') {
        return other_properties(text, at);
    }
    match pass_object(text, first, DEEPEST + 1, others) {
        Ok(VoidRead { end, met }) => Ok(PropertiesRead {
            end: skip_spaces(text.bytes, end),
            hold: text.algebra.all_met(met),
        }),
        Err(Halt::Memory) => Err(Halt::Memory),
        Err(Halt::At(place)) => if is_read_again(text, first, place) {
            *others = OtherNames::none(text.alloc);
            other_properties(text, at)
        } else {
            Err(Halt::At(place))
        },
    }
}

impl FeatureMembers {
    /// No members.
    fn none(algebra: &GeoAlgebra) -> FeatureMembers
        ensures kind { result.is_feature ≡ false }
        ensures geometry { result.geometry ≡ None }
        ensures properties { result.has_properties ≡ false }
        ensures hold { result.hold ≡ texts_hold algebra.now.query.tests [] }
    {
        FeatureMembers {
            is_feature: false,
            geometry: None,
            has_properties: false,
            hold: algebra.all_met(0),
        }
    }

    /// Whether one of a feature's own members was read.
    #[inline(always)]
    fn has_begun(&self) -> bool {
        self.is_feature || self.geometry.is_some() || self.has_properties
    }
}

/// Whether the kind is that of features.
fn is_feature(kind: Kind) -> bool
    ensures { result ≡ true → kind ≡ Kind.Feature }
{
    match kind {
        Kind::Feature => true,
        _ => false,
    }
}

/// Where an object that names another kind is given up, behind its name. A collection of features isn't read as a value
/// either: it is large, and its features are read one behind another.
fn given_up(kind: Kind, end: usize) -> usize {
    match kind {
        Kind::FeatureCollection => end,
        _ => OTHER_KIND,
    }
}

/// The value of the member `type`, with white space round it: it names a feature.
#[inline(always)]
fn kind_member(text: &Text<'_>, at: usize, members: &mut FeatureMembers) -> Result<usize, Halt>
    requires inside { at ≤ length text.now.bytes.now }
    ensures { IfOk result (ReadsField text.now.algebra.now text.now.base text.now.bytes.now at Field.Kind members.old members.new) }
{
    let KindRead { end, kind } = read_kind(text, at)?;
    if members.is_feature {
        return Err(Halt::At(end));
    }
    if !is_feature(kind) {
        return Err(Halt::At(given_up(kind, end)));
    }
    members.is_feature = true;
    Ok(end)
}

/// The value of the member `geometry`, with white space round it.
#[inline(always)]
fn geometry_member(text: &Text<'_>, at: usize, members: &mut FeatureMembers) -> Result<usize, Halt>
    requires inside { at ≤ length text.now.bytes.now }
    ensures { IfOk result (ReadsField text.now.algebra.now text.now.base text.now.bytes.now at Field.Geometry members.old members.new) }
{
    let SeenRead { end, seen } = geometry_item(text, at)?;
    if members.geometry.is_some() {
        return Err(Halt::At(end));
    }
    members.geometry = Some(seen);
    Ok(end)
}

/// The value of the member `properties`, with white space round it.
#[inline(always)]
fn properties_member(
    text: &Text<'_>,
    at: usize,
    members: &mut FeatureMembers,
    others: &mut OtherNames,
) -> Result<usize, Halt>
    requires inside { at ≤ length text.now.bytes.now }
    requires names { ArePlainOthers text.now.bytes.now others.old }
    ensures reads { IfOk result (ReadsField text.now.algebra.now text.now.base text.now.bytes.now at Field.Properties members.old members.new) }
    ensures names { IfOk result (λ _. ArePlainOthers text.now.bytes.now others.new) }
{
    let PropertiesRead { end, hold } = read_properties(text, at, others)?;
    if members.has_properties {
        return Err(Halt::At(end));
    }
    members.has_properties = true;
    members.hold = hold;
    Ok(end)
}

/// A member of a feature, behind its name. Of those of one name the first alone is read. Before the first of a feature's
/// own members few others are passed over, and none in which arrays and objects stand in one another: an object that is
/// no feature is soon given up.
#[inline(always)]
fn read_member(
    text: &Text<'_>,
    name: FieldName,
    members: &mut FeatureMembers,
    names: &mut TableNames,
) -> Result<usize, Halt>
    requires inside { name.place.colon < length text.now.bytes.now }
    requires plain { IsPlainName text.now.bytes.now name.place }
    requires own { ArePlainOthers text.now.bytes.now names.old.own }
    requires properties { ArePlainOthers text.now.bytes.now names.old.properties }
    ensures reads { IfOk result (ReadsMember text.now.algebra.now text.now.base text.now.bytes.now name members.old members.new names.old.own
        names.new.own) }
    ensures properties { IfOk result (λ _. ArePlainOthers text.now.bytes.now names.new.properties) }
{
    let at = name.place.colon + 1;
    match name.field {
        Field::Kind => kind_member(text, at, members),
        Field::Geometry => geometry_member(text, at, members),
        Field::Properties => properties_member(text, at, members, &mut names.properties),
        Field::Other => {
            let begun = members.has_begun();
            if !begun && names.own.count >= EARLY {
                return Err(Halt::At(OTHER_KIND));
            }
            add_other(text.bytes, &mut names.own, name.place)?;
            if begun {
                pass_other(text, at, DEEPEST)
            } else {
                pass_early(text, at)
            }
        }
        _ => Err(Halt::At(OTHER_KIND)),
    }
}

/// The offset, as a list.
fn one_offset(alloc: Global, at: u32) -> Result<Offsets, Memory>
    ensures { IfOk result (λ offsets. offsets ≡ at ∷ []) }
{
    let mut items = Vec::with_capacity(alloc, 1)?;
    items.push(at)?;
    Ok(Offsets::from_vec(items))
}

/// Whether a verb asks for the offsets of features.
fn asks_offsets(verb: Verb) -> bool
    ensures { result ≡ selects verb }
{
    match verb {
        Verb::Select => true,
        _ => false,
    }
}

/// The part of the feature at the offset of which the measure tells this part, where all tests on texts hold of its.
#[inline(always)]
fn measured_part(algebra: &GeoAlgebra, alloc: Global, at: u32, part: Part) -> Result<Part, Memory>
    ensures { IfOk result (IsPartOfSeen algebra.now at (Seen.Measured part)) }
{
    if asks_offsets(algebra.query().verb) {
        Ok(Part::Offsets(one_offset(alloc, at)?))
    } else {
        Ok(part)
    }
}

/// The part of the feature at the offset that has the shape, where all tests on texts hold of its.
fn shape_part(algebra: &GeoAlgebra, alloc: Global, at: u32, shape: Geometry) -> Result<Part, Memory>
    requires { IsShapeInRange shape }
    ensures { IfOk result (IsPartOfSeen algebra.now at (Seen.Shape shape)) }
{
    let texts = asked_pairs(alloc, algebra.query().tests.as_slice())?;
    feature_part(alloc, algebra, at, shape, texts)
}

/// The part of the feature at the offset of whose shape this is seen, where all tests on texts hold of its.
#[inline(always)]
fn seen_part(algebra: &GeoAlgebra, alloc: Global, at: u32, seen: Seen) -> Result<Part, Memory>
    requires { IsOwnSeen seen }
    ensures { IfOk result (IsPartOfSeen algebra.now at seen) }
{
    match seen {
        Seen::Measured(part) => measured_part(algebra, alloc, at, part),
        Seen::Shape(shape) => shape_part(algebra, alloc, at, shape),
    }
}

/// The part of the feature at the offset of whose shape this is seen, and whether all tests on texts hold of its.
#[inline(always)]
fn held_part(
    algebra: &GeoAlgebra,
    alloc: Global,
    at: u32,
    seen: Seen,
    hold: bool,
) -> Result<Part, Memory>
    requires { IsOwnSeen seen }
    ensures { IfOk result (IsPartHeld algebra.now at seen hold) }
{
    if hold {
        seen_part(algebra, alloc, at, seen)
    } else {
        Ok(part_none(alloc, algebra.query()))
    }
}

/// The same by what is seen of the member `geometry`, where there is one.
#[inline(always)]
fn part_in(
    algebra: &GeoAlgebra,
    alloc: Global,
    at: u32,
    geometry: Option<Result<Seen, Fault>>,
    hold: bool,
) -> Result<Result<Part, Fault>, Memory>
    requires { IfOwnGeometry geometry }
    ensures { IfOk result (IsPartIn algebra.now at geometry hold) }
{
    match geometry {
        None => {
            let seen = Seen::Shape(empty_shape(alloc));
            Ok(Ok(held_part(algebra, alloc, at, seen, hold)?))
        }
        Some(found) => match found {
            Ok(seen) => Ok(Ok(held_part(algebra, alloc, at, seen, hold)?)),
            Err(fault) => Ok(Err(fault)),
        },
    }
}

/// A feature of its members, whose closing bracket stands before the place.
#[inline(always)]
fn ended_feature(
    algebra: &GeoAlgebra,
    alloc: Global,
    at: u32,
    end: usize,
    members: FeatureMembers,
) -> Result<FeatureRead, Halt>
    requires { IfOwnGeometry members.geometry }
    ensures { IfOk result (EndsFeature algebra.now at end members) }
{
    if !members.is_feature {
        return Err(Halt::At(OTHER_KIND));
    }
    let part = part_in(algebra, alloc, at, members.geometry, members.hold)?;
    Ok(FeatureRead { end, part })
}

/// A feature from its opening bracket on, which stands at the place.
pub fn read_feature(text: &Text<'_>, at: usize, names: &mut TableNames) -> Result<FeatureRead, Halt>
    requires inside { at < length text.now.bytes.now }
    requires opens { slice_index text.now.bytes.now at ≡ 0x7B }
    requires own { ArePlainOthers text.now.bytes.now names.old.own }
    requires properties { ArePlainOthers text.now.bytes.now names.old.properties }
    ensures reads { IfOk result (IsFeatureRead text.now.algebra.now text.now.base text.now.bytes.now at) }
    ensures own { IfOk result (λ _. ArePlainOthers text.now.bytes.now names.new.own) }
    ensures properties { IfOk result (λ _. ArePlainOthers text.now.bytes.now names.new.properties) }
{
    let feature = text.base + at as u32;
    let mut members = FeatureMembers::none(text.algebra);
    names.own.begin();
    let mut place = at + 1;
    'members: loop {
        let name = field_name(text.bytes, place)?;
        let end = read_member(text, name, &mut members, names)?;
        if stands(text.bytes, end, b'}') {
            return ended_feature(text.algebra, text.alloc, feature, end + 1, members);
        }
        expect_comma(text.bytes, end)?;
        place = end + 1;
    }
}

/// A feature as a value, where no test looks at texts.
pub fn feature_value(text: &Text<'_>, at: usize) -> Result<Whole, Halt>
    requires inside { at < length text.now.bytes.now }
    requires opens { slice_index text.now.bytes.now at ≡ 0x7B }
    requires unasked { list_any looks_at_texts text.now.algebra.now.query.tests ≡ false }
    ensures { IfOk result (IsWhole text.now.algebra.now text.now.base text.now.bytes.now at) }
{
    let mut names = TableNames::none(text.alloc);
    let FeatureRead { end, part } = read_feature(text, at, &mut names)?;
    let texts = TextPairs::from_vec(Vec::new(text.alloc));
    let roles = new_roles(text.alloc, Role::Feature(part), texts)?;
    let atom = GeoAtom::Object(ObjectAtom {
        at: text.base + at as u32,
        roles,
    });
    Ok(Whole { end, atom })
}
