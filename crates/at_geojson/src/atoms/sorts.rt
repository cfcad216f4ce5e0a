//! What values can be as items of coordinates, and where they begin.

ghost use Rattle.std.specs.Prelude.{◌≡◌, ◌==◌};
ghost use Rattle.at_geojson.specs.Atoms.{at_of as offset_in};
ghost use Rattle.at_geojson.specs.Gathering.{rank as rank_of, sort_of as the_sort, are_all as all_are};
ghost use Rattle.at_geojson.specs.Gathering.{sort_of_all as the_sort_of_all, first_sort as the_first_sort};
ghost use Rattle.at_geojson.specs.Gathering.{first_at as first_offset, least_of as least_offset};

use crate::atoms::atom::GeoAtom;

/// What a value can be as an item of coordinates.
#[derive(Clone, Copy, Debug, PartialEq, Eq)]
pub enum Sort {
    Other = 0,
    /// A number of a position.
    Number = 1,
    /// A position of a list, or several.
    Position = 2,
    /// A list of positions, or several.
    Points = 3,
    /// An area: at least one list of positions.
    Lists = 4,
}

impl Sort {
    fn rank(self) -> u8
        ensures { result ≡ rank_of self }
    {
        self as u8
    }
}

/// What a value can be as an item of coordinates.
fn sort_of(atom: &GeoAtom) -> Sort
    ensures { result ≡ the_sort atom.now }
{
    match atom {
        GeoAtom::Number(_) | GeoAtom::BadNumber(_) => Sort::Number,
        GeoAtom::Position(_) | GeoAtom::BadPosition(_) | GeoAtom::Track(_) => Sort::Position,
        GeoAtom::Points(_) | GeoAtom::Empty(_) | GeoAtom::Series(_) => Sort::Points,
        GeoAtom::Lists(_) => Sort::Lists,
        _ => Sort::Other,
    }
}

/// Whether a value is of the sort.
pub fn is_of(atom: &GeoAtom, sort: Sort) -> bool
    ensures { result ≡ (rank_of (the_sort atom.now) == rank_of sort) }
{
    sort_of(atom).rank() == sort.rank()
}

/// Whether all values are of the sort.
fn are_all(atoms: &[GeoAtom], sort: Sort) -> bool
    ensures { result ≡ all_are (rank_of sort) atoms.now }
{
    for atom in atoms {
        if !is_of(atom, sort) {
            return false;
        }
    }
    true
}

/// The sort of the first of the values.
fn first_sort(atoms: &[GeoAtom]) -> Sort
    ensures { result ≡ the_first_sort atoms.now }
{
    match atoms.first() {
        Some(atom) => sort_of(atom),
        None => Sort::Other,
    }
}

/// The sort of all of the values, where they have one.
pub fn sort_of_all(atoms: &[GeoAtom]) -> Sort
    ensures { result ≡ the_sort_of_all atoms.now }
{
    let sort = first_sort(atoms);
    if are_all(atoms, sort) {
        sort
    } else {
        Sort::Other
    }
}

/// The offset of a value's first byte.
pub fn at_of(atom: &GeoAtom) -> u32
    ensures { result ≡ offset_in atom.now }
{
    match atom {
        GeoAtom::Twin(fault) | GeoAtom::BadNumber(fault) => fault.at,
        GeoAtom::Null(at) | GeoAtom::Plain(at) | GeoAtom::Empty(at) | GeoAtom::Void(at) => *at,
        GeoAtom::Text(text) => text.at,
        GeoAtom::Number(number) => number.at,
        GeoAtom::Position(position) => position.at,
        GeoAtom::BadPosition(position) => position.at,
        GeoAtom::Points(points) => points.at,
        GeoAtom::Lists(lists) => lists.at,
        GeoAtom::Areas(areas) => areas.at,
        GeoAtom::Other(other) => other.at,
        GeoAtom::Items(items) => items.at,
        GeoAtom::Object(object) => object.at,
        GeoAtom::Run(_) => 0,
        GeoAtom::Series(series) => series.at,
        GeoAtom::Track(track) => track.at,
    }
}

/// The offset of the first of the values.
fn first_at(atoms: &[GeoAtom]) -> u32
    ensures { result ≡ first_offset atoms.now }
{
    match atoms.first() {
        Some(atom) => at_of(atom),
        None => 0,
    }
}

/// The least offset of values.
pub fn least_of(atoms: &[GeoAtom]) -> u32
    ensures { result ≡ least_offset atoms.now }
{
    let mut least = first_at(atoms);
    for atom in atoms {
        least = least.min(at_of(atom));
    }
    least
}
