//! The members of an object for which some kind of object asks, by their names (RFC 7946 section 3).

ghost use Rattle.std.specs.Prelude.{◌≡◌, ◌≤◌, ◌^◌, [], false, None, is_some, length, IfOk};
ghost use Rattle.at_scan.specs.Fields.{field_of, is_kind as names_kind, is_coordinates as names_coordinates};
ghost use Rattle.at_scan.specs.Fields.{is_geometry, is_geometries, is_properties, is_features};
ghost use Rattle.at_scan.specs.Places.{IsNameAt};
ghost use Rattle.at_scan.specs.Members.{name_in, IsPlainName, ArePlainOthers};
ghost use Rattle.at_geojson.specs.Atoms.{as_kind};
ghost use Rattle.at_geojson.specs.Fields.{put_if, put_first as first_put, value_in, AreFields, kind_in_fields};
ghost use Rattle.at_geojson.specs.Members.{IsNewName};
ghost use Rattle.at_geojson.specs.Objects.{kind_in};

use crate::atoms::atom::GeoAtom;
use at_nest::Member;
use at_scan::{Field, FieldName, Kind, OtherNames, field_named, is_other, next_name};
use at_text::Halt;

/// Of an object's members, the value of the first of each name for which some kind asks.
#[derive(Drop)]
pub struct Fields {
    pub kind: Option<GeoAtom>,
    pub coordinates: Option<GeoAtom>,
    pub geometry: Option<GeoAtom>,
    pub properties: Option<GeoAtom>,
    pub features: Option<GeoAtom>,
    pub geometries: Option<GeoAtom>,
}

/// Puts a value in its place, unless one is there.
#[inline(always)]
fn put_first(place: &mut Option<GeoAtom>, value: GeoAtom)
    ensures { place.new ≡ first_put place.old value }
{
    if place.is_none() {
        *place = Some(value);
    }
}

/// The kind that a value names.
pub fn kind_named(atom: &GeoAtom) -> Option<Kind>
    ensures { result ≡ as_kind atom.now }
{
    match atom {
        GeoAtom::Text(text) => text.kind,
        _ => None,
    }
}

impl Fields {
    /// No members.
    pub fn none() -> Fields
        ensures { AreFields result [] }
    {
        Fields {
            kind: None,
            coordinates: None,
            geometry: None,
            properties: None,
            features: None,
            geometries: None,
        }
    }

    /// One more member.
    #[inline(always)]
    pub fn put(&mut self, field: Field, value: GeoAtom)
        ensures kind { self.new.kind ≡ put_if (names_kind field) self.old.kind value }
        ensures coordinates { self.new.coordinates ≡ put_if (names_coordinates field) self.old.coordinates value }
        ensures geometry { self.new.geometry ≡ put_if (is_geometry field) self.old.geometry value }
        ensures properties { self.new.properties ≡ put_if (is_properties field) self.old.properties value }
        ensures features { self.new.features ≡ put_if (is_features field) self.old.features value }
        ensures geometries { self.new.geometries ≡ put_if (is_geometries field) self.old.geometries value }
    {
        match field {
            Field::Kind => put_first(&mut self.kind, value),
            Field::Coordinates => put_first(&mut self.coordinates, value),
            Field::Geometry => put_first(&mut self.geometry, value),
            Field::Properties => put_first(&mut self.properties, value),
            Field::Features => put_first(&mut self.features, value),
            Field::Geometries => put_first(&mut self.geometries, value),
            Field::Other => {}
        }
    }

    /// Whether the value of a member for which some kind asks is there.
    #[inline(always)]
    pub fn has(&self, field: Field) -> bool
        ensures { result ≡ is_some (value_in field self.now) }
    {
        match field {
            Field::Kind => self.kind.is_some(),
            Field::Coordinates => self.coordinates.is_some(),
            Field::Geometry => self.geometry.is_some(),
            Field::Properties => self.properties.is_some(),
            Field::Features => self.features.is_some(),
            Field::Geometries => self.geometries.is_some(),
            Field::Other => false,
        }
    }

    /// The kind that the object says it is.
    pub fn kind(&self) -> Option<Kind>
        ensures { result ≡ kind_in_fields self.now }
    {
        match &self.kind {
            Some(atom) => kind_named(atom),
            None => None,
        }
    }
}

/// Whether a member says the kind. An object without one has none.
pub fn says_kind(members: &[Member<GeoAtom>]) -> bool
    ensures { result ≡ false → kind_in members.now ≡ None }
{
    for member in members {
        if let Field::Kind = field_named(member.name.as_slice()) {
            return true;
        }
    }
    false
}

/// The members for which some kind asks.
pub fn fields_of(members: Vec<Member<GeoAtom>>) -> Fields
    ensures { AreFields result members.items }
{
    let mut fields = Fields::none();
    for member in members {
        fields.put(field_named(member.name.as_slice()), member.value);
    }
    fields
}

/// A name like that of a member that is none of the fields either.
#[inline(always)]
pub fn new_name(
    text: &[u8],
    fields: &Fields,
    others: &mut OtherNames,
    at: usize,
) -> Result<FieldName, Halt>
    requires inside { at ≤ length text.now }
    requires short { length text.now ≤ 2 ^ 28 }
    requires names { ArePlainOthers text.now others.old }
    ensures place { IfOk result (λ name. IsNameAt text.now at name.place) }
    ensures plain { IfOk result (λ name. IsPlainName text.now name.place) }
    ensures field { IfOk result (λ name. name.field ≡ field_of (name_in text.now name.place)) }
    ensures new { IfOk result (IsNewName text.now fields.now others.old others.new) }
{
    let name = next_name(text, others, at)?;
    if !is_other(name.field) && fields.has(name.field) {
        return Err(Halt::At(name.place.end));
    }
    Ok(name)
}
