//! What is kept of each value of a JSON text.

use crate::atoms::geometries::Geometry;
use at_geom::{Path, Polygon, Pos};
use at_lex::Units;
use at_query::{Part, TextPairs};
use at_scan::Kind;
use at_text::Fault;

/// A string: the kind of which it is the name, and its units where a test of the query asks for them.
#[derive(Drop)]
pub struct TextAtom {
    pub at: u32,
    pub kind: Option<Kind>,
    pub units: Option<Box<Units>>,
}

/// A number that has a value.
#[derive(Clone, Copy)]
pub struct NumberAtom {
    pub at: u32,
    pub value: i64,
}

/// A position whose x and y have values, with the least offset of its items.
#[derive(Clone, Copy)]
pub struct PositionAtom {
    pub at: u32,
    pub least: u32,
    pub pos: Pos,
}

/// A position of which the x or the y has none, with the first fault of the two.
#[derive(Clone, Copy)]
pub struct FaultyAtom {
    pub at: u32,
    pub least: u32,
    pub fault: Fault,
}

/// Positions: their values where shapes are kept, and the first fault in them, as points, as a line, and as a ring.
#[derive(Drop)]
pub struct Points {
    pub path: Vec<Pos>,
    pub as_points: Option<Fault>,
    pub as_line: Option<Fault>,
    pub as_ring: Option<Fault>,
}

/// An array of positions.
#[derive(Drop)]
pub struct PointsAtom {
    pub at: u32,
    pub least: u32,
    pub points: Box<Points>,
}

/// Lists of positions: their values where shapes are kept, and the first fault in them, as lines and as rings.
#[derive(Drop)]
pub struct Lists {
    pub paths: Vec<Path>,
    pub as_lines: Option<Fault>,
    pub as_rings: Option<Fault>,
}

/// An array of lists of positions.
#[derive(Drop)]
pub struct ListsAtom {
    pub at: u32,
    pub least: u32,
    pub lists: Box<Lists>,
}

/// Lists of positions one behind another in an array, at least one, with the offset of the first. Their values are kept
/// only while the lists have no fault as lines, or none as rings.
#[derive(Drop)]
pub struct SeriesAtom {
    pub at: u32,
    pub lists: Box<Lists>,
}

/// Positions one behind another: the first and the last where they have no fault, how many they are up to four, the
/// first fault in them, and their values where shapes are kept.
#[derive(Drop)]
pub struct Track {
    pub first: Option<Pos>,
    pub last: Option<Pos>,
    pub count: u32,
    pub fault: Option<Fault>,
    pub path: Vec<Pos>,
}

/// Positions one behind another in an array, at least one, with the offset of the first.
#[derive(Drop)]
pub struct TrackAtom {
    pub at: u32,
    pub track: Box<Track>,
}

/// Areas: their polygons where shapes are kept, and the first fault in them.
#[derive(Drop)]
pub struct Areas {
    pub polygons: Vec<Polygon>,
    pub fault: Option<Fault>,
}

/// An array of areas.
#[derive(Drop)]
pub struct AreasAtom {
    pub at: u32,
    pub least: u32,
    pub areas: Box<Areas>,
}

/// An array that holds something else than coordinates, and no object with a role.
#[derive(Clone, Copy)]
pub struct OtherAtom {
    pub at: u32,
    pub least: u32,
}

/// What values one behind another are as geometries, and what they are as items of a collection of features.
#[derive(Drop)]
pub struct Items {
    pub geometries: Result<Geometry, Fault>,
    pub features: Result<Part, Fault>,
}

/// An array in which some object has a role.
#[derive(Drop)]
pub struct ItemsAtom {
    pub at: u32,
    pub items: Box<Items>,
}

/// What an object is by its kind.
#[derive(Drop)]
pub enum Role {
    Nothing,
    Geometry(Result<Geometry, Fault>),
    Feature(Result<Part, Fault>),
    Collection(Result<Part, Fault>),
}

/// What an object is by its kind, and the texts for which the query asks, where it has the role of properties.
#[derive(Drop)]
pub struct Roles {
    pub role: Role,
    pub texts: TextPairs,
}

/// An object that has a kind, or texts for which the query asks.
#[derive(Drop)]
pub struct ObjectAtom {
    pub at: u32,
    pub roles: Box<Roles>,
}

/// What is kept of a value of a JSON text: what it is in each role in which its parent may place it.
#[derive(Drop)]
pub enum GeoAtom {
    /// A value in which an object has a name for the second time, with the first such fault. Nothing else of it is ever
    /// told.
    Twin(Fault),
    /// `null`.
    Null(u32),
    /// `true` or `false`.
    Plain(u32),
    Text(TextAtom),
    Number(NumberAtom),
    /// A number that has no value.
    BadNumber(Fault),
    /// An array of nothing.
    Empty(u32),
    Position(PositionAtom),
    BadPosition(FaultyAtom),
    Points(PointsAtom),
    Lists(ListsAtom),
    Areas(AreasAtom),
    Other(OtherAtom),
    Items(ItemsAtom),
    /// An object without a kind and without texts for which the query asks.
    Void(u32),
    Object(ObjectAtom),
    /// Values one behind another in an array, of which at least one is an object and none a twin: no value of its own.
    Run(Box<Items>),
    /// Lists of positions one behind another in an array: no value of their own.
    Series(SeriesAtom),
    /// Positions one behind another in an array: no value of their own.
    Track(TrackAtom),
}
