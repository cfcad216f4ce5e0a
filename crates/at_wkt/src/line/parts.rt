//! What stands behind the head of a geometry: a point, a line, a polygon, or several of them in brackets.

ghost use Rattle.std.specs.Prelude.{◌≡◌, ℕ, false, ◌<◌, ◌≤◌, List, Option, None, codes, flat_map, length, MatchResult};
ghost use Rattle.at_fixed.specs.declared.rounding.Coords.{Coords};
ghost use Rattle.at_text.specs.Faults.{first_fault as the_first};
ghost use Rattle.at_text.specs.Halts.{IfStopped};
ghost use Rattle.at_text.specs.declared.faults.Fault.{Fault};
ghost use Rattle.at_wkt.specs.Positions.{Position, Positions, position_faults, faults_of_ring};
ghost use Rattle.at_wkt.specs.Geometry.{SpellsPosition, SpellsRing, SpellsList, SpellsPoint, SpellsPointMember};
ghost use Rattle.at_wkt.specs.Geometry.{SpellsArea, EmptyOrParted};
ghost use Rattle.at_wkt.specs.Meaning.{faults_of_area, polygons_of};
ghost use Rattle.at_wkt.specs.Readers.{next, opens, HasCount, Item, ItemStands, Grows, Stuck, Items, EnclosedPosition};
ghost use Rattle.at_wkt.specs.Readers.{faults_of_path};
ghost use Rattle.at_wkt.specs.Readers.{added_point, point_faults, added_line, line_faults, added_path, added_position};
ghost use Rattle.at_wkt.specs.Readers.{ReadsPart, ReadsItem, DelimiterStands, DelimiterBreaks};
ghost use Rattle.at_wkt.specs.Readers.{KeywordStands, KeywordBreaks};

use crate::line::bytes::{letter_stands, skip_blanks, stands};
use crate::line::paths::{
    Maker, Role, add_fault, empty_path, empty_rings, path_fault, read_positions,
};
use crate::line::positions::{read_delimiter, read_position};
use crate::line::sites::{BARE_POINT, POINT};
use crate::line::sources::{Place, Source};
use crate::line::words::read_empty;
use at_geom::{Path, Paths, Polygon, Pos};
use at_text::{Fault, Halt, first_fault};

/// A part of a geometry that was read: its first fault, and the place behind it.
#[derive(Clone, Copy)]
pub struct Read {
    pub fault: Option<Fault>,
    pub behind: Place,
}

/// An item that was read: its first fault, whether it was the last, and the place behind its delimiter.
#[derive(Clone, Copy)]
pub struct ItemRead {
    pub fault: Option<Fault>,
    pub is_last: bool,
    pub behind: Place,
}

/// What stands in a list in brackets: how one member is read, and what is kept of it.
pub trait Listed {
    /// Of what a list is kept.
    type Kept;

    /// What a member is.
    ghost Value: { Type 0 };

    /// The bytes from an offset on spell a member.
    ghost spells: { ℕ → Value → ℕ → List ℕ → Type 0 };

    /// All faults of a member.
    ghost faults: { ℕ → Coords → Value → List Fault };

    /// What a member adds to what is kept.
    ghost added: { ℕ → Coords → Value → List Self.Kept };

    /// Reads a member and its delimiter.
    fn read(
        kept: &mut Vec<Self::Kept>,
        maker: &mut Maker,
        source: &Source,
        from: Place,
    ) -> Result<ItemRead, Halt>
        requires inside { from.at ≤ length source.now.text.now }
        requires count { HasCount from.dimension }
        ensures { ReadsItem spells faults added source.now.rules source.now.text.now from kept.old.items kept.new.items
            result };
}

/// Rings of a polygon.
pub struct RingList;

/// Points of a MULTIPOINT.
pub struct PointList;

/// Lines of a MULTILINESTRING.
pub struct LineList;

/// Polygons of a MULTIPOLYGON.
pub struct AreaList;

/// Reads the word EMPTY, which adds nothing.
pub fn read_nothing(text: &[u8], from: Place) -> Result<Read, Halt>
    requires { from.at ≤ length text.now }
    ensures { MatchResult result (λ read. KeywordStands text.now from.at read.behind.at (codes "EMPTY")
        × (read.fault ≡ None)
        × (read.behind.dimension ≡ from.dimension))
        (λ halt. IfStopped halt (λ n. KeywordBreaks text.now from.at n (codes "EMPTY"))) }
{
    let end = read_empty(text, from.at)?;
    Ok(Read {
        fault: None,
        behind: Place { at: end, ..from },
    })
}

/// Reads a position in brackets, the opening one of which stands at the place, and adds it to the points.
fn read_enclosed(points: &mut Vec<Pos>, source: &Source, from: Place) -> Result<Read, Halt>
    requires inside { from.at < length source.now.text.now }
    requires opener { next source.now.text.now from.at ≡ 0x28 }
    requires count { HasCount from.dimension }
    ensures { ReadsPart EnclosedPosition position_faults added_position source.now.rules source.now.text.now from
        points.old.items points.new.items result }
{
    let inside = Place {
        at: from.at + 1,
        ..from
    };
    let read = read_position::<POINT>(source, inside)?;
    if !read.is_last {
        return Err(Halt::At(read.behind.at - 1));
    }
    points.push(read.pos)?;
    Ok(Read {
        fault: read.fault,
        behind: read.behind,
    })
}

/// Reads EMPTY or a position in brackets.
pub fn read_point(points: &mut Vec<Pos>, source: &Source, from: Place) -> Result<Read, Halt>
    requires inside { from.at ≤ length source.now.text.now }
    requires count { HasCount from.dimension }
    ensures { ReadsPart SpellsPoint point_faults added_point source.now.rules source.now.text.now from points.old.items
        points.new.items result }
{
    if stands(source.text, from.at, b'(') {
        read_enclosed(points, source, from)
    } else {
        read_nothing(source.text, from)
    }
}

/// Reads a line or a ring from its opening bracket, which stands at the place, to its closing one, and adds it.
fn read_path(
    paths: &mut Vec<Path>,
    maker: &mut Maker,
    source: &Source,
    from: Place,
    role: Role,
) -> Result<Read, Halt>
    requires inside { from.at < length source.now.text.now }
    requires opener { next source.now.text.now from.at ≡ 0x28 }
    requires count { HasCount from.dimension }
    ensures { ReadsPart SpellsRing (λ digits how. faults_of_path digits how role) added_path source.now.rules
        source.now.text.now from paths.old.items paths.new.items result }
{
    let mut path = empty_path(maker)?;
    let inside = Place {
        at: from.at + 1,
        ..from
    };
    let read = read_positions(&mut path, source, inside)?;
    let count = path.as_slice().len();
    maker.expected = count;
    let at = source.rules.base + from.at as u32;
    let own = path_fault(role, count as u32, read.closes, at);
    paths.push(Path::from_vec(path))?;
    Ok(Read {
        fault: first_fault(own, read.fault),
        behind: read.behind,
    })
}

/// Reads EMPTY or a line.
pub fn read_line_string(
    lines: &mut Vec<Path>,
    maker: &mut Maker,
    source: &Source,
    from: Place,
) -> Result<Read, Halt>
    requires inside { from.at ≤ length source.now.text.now }
    requires count { HasCount from.dimension }
    ensures { ReadsPart SpellsList line_faults added_line source.now.rules source.now.text.now from lines.old.items
        lines.new.items result }
{
    if stands(source.text, from.at, b'(') {
        read_path(lines, maker, source, from, Role::Line)
    } else {
        read_nothing(source.text, from)
    }
}

/// The item that a part is with the delimiter behind it.
pub fn end_item(text: &[u8], read: Read) -> Result<ItemRead, Halt>
    requires { read.behind.at ≤ length text.now }
    ensures { MatchResult result (λ item. (item.fault ≡ read.fault) × (item.behind.dimension ≡ read.behind.dimension)
        × DelimiterStands text.now read.behind.at (record { is_last = item.is_last; end = item.behind.at }))
        (λ halt. IfStopped halt (DelimiterBreaks text.now read.behind.at)) }
{
    let delimiter = read_delimiter(text, read.behind.at)?;
    Ok(ItemRead {
        fault: read.fault,
        is_last: delimiter.is_last,
        behind: Place {
            at: delimiter.end,
            ..read.behind
        },
    })
}

/// Where items begin: none was read yet.
pub fn first_item(from: Place) -> ItemRead
    ensures { result ≡ record { fault = None; is_last = false; behind = from } }
{
    ItemRead {
        fault: None,
        is_last: false,
        behind: from,
    }
}

/// The items so far and one more.
pub fn next_item(last: ItemRead, item: ItemRead) -> ItemRead
    ensures { result ≡ record {
      fault = the_first last.fault item.fault;
      is_last = item.is_last;
      behind = item.behind;
    } }
{
    ItemRead {
        fault: add_fault(last.fault, item.fault),
        is_last: item.is_last,
        behind: item.behind,
    }
}

/// The part that all items are.
pub fn items_read(last: ItemRead) -> Read
    ensures { result ≡ record { fault = last.fault; behind = last.behind } }
{
    Read {
        fault: last.fault,
        behind: last.behind,
    }
}

/// Reads the members of a list behind its opening bracket.
fn read_members<M: Listed>(
    kept: &mut Vec<M::Kept>,
    maker: &mut Maker,
    source: &Source,
    from: Place,
) -> Result<Read, Halt>
    requires inside { from.at ≤ length source.now.text.now }
    requires count { HasCount from.dimension }
    ensures { ReadsPart (Items M.spells) (λ digits how. flat_map (M.faults digits how))
        (λ digits how. flat_map (M.added digits how)) source.now.rules source.now.text.now from kept.old.items
        kept.new.items result }
{
    let mut last = first_item(from);
    'members: while !last.is_last {
        let member = M::read(kept, maker, source, last.behind)?;
        last = next_item(last, member);
    }
    Ok(items_read(last))
}

/// Reads EMPTY or a list of members in brackets.
pub fn read_list<M: Listed>(
    kept: &mut Vec<M::Kept>,
    maker: &mut Maker,
    source: &Source,
    from: Place,
) -> Result<Read, Halt>
    requires inside { from.at ≤ length source.now.text.now }
    requires count { HasCount from.dimension }
    ensures { ReadsPart (λ d xs. EmptyOrParted (M.spells d) xs) (λ digits how. flat_map (M.faults digits how))
        (λ digits how. flat_map (M.added digits how)) source.now.rules source.now.text.now from kept.old.items
        kept.new.items result }
{
    if stands(source.text, from.at, b'(') {
        let inside = Place {
            at: from.at + 1,
            ..from
        };
        read_members::<M>(kept, maker, source, inside)
    } else {
        read_nothing(source.text, from)
    }
}

impl Listed for RingList {
    type Kept = Path;

    ghost Value = { Positions };

    ghost spells = { SpellsRing };

    ghost faults = { faults_of_ring };

    ghost added = { added_path };

    fn read(
        rings: &mut Vec<Path>,
        maker: &mut Maker,
        source: &Source,
        from: Place,
    ) -> Result<ItemRead, Halt> {
        let at = skip_blanks(source.text, from.at);
        if !stands(source.text, at, b'(') {
            return Err(Halt::At(at));
        }
        let ring = read_path(rings, maker, source, Place { at, ..from }, Role::Ring)?;
        end_item(source.text, ring)
    }
}

/// Reads EMPTY or a polygon.
pub fn read_polygon(
    polygons: &mut Vec<Polygon>,
    maker: &mut Maker,
    source: &Source,
    from: Place,
) -> Result<Read, Halt>
    requires inside { from.at ≤ length source.now.text.now }
    requires count { HasCount from.dimension }
    ensures { ReadsPart SpellsArea faults_of_area polygons_of source.now.rules source.now.text.now from
        polygons.old.items polygons.new.items result }
{
    let mut rings = empty_rings(maker);
    let read = read_list::<RingList>(&mut rings, maker, source, from)?;
    if rings.as_slice().is_empty() {
        maker.rings = rings;
    } else {
        polygons.push(Polygon {
            rings: Paths::from_vec(rings),
        })?;
    }
    Ok(read)
}

/// Reads a position without brackets and its delimiter.
fn read_bare(points: &mut Vec<Pos>, source: &Source, from: Place) -> Result<ItemRead, Halt>
    requires inside { from.at ≤ length source.now.text.now }
    requires count { HasCount from.dimension }
    ensures { MatchResult result
        (ItemStands SpellsPosition (position_faults source.now.rules.digits source.now.rules.how)
        (Grows (added_position source.now.rules.digits source.now.rules.how) points.old.items points.new.items)
        source.now.rules.base source.now.text.now from.at from.dimension)
        (λ halt. IfStopped halt (Stuck (Item SpellsPosition) source.now.rules.base source.now.text.now from.at
        from.dimension)) }
{
    let read = read_position::<BARE_POINT>(source, from)?;
    points.push(read.pos)?;
    Ok(ItemRead {
        fault: read.fault,
        is_last: read.is_last,
        behind: read.behind,
    })
}

/// Whether an opening bracket or the first letter of EMPTY stands at a place of the text.
fn opener_stands(text: &[u8], at: usize) -> bool
    ensures { result ≡ opens (next text.now at) }
{
    stands(text, at, b'(') || letter_stands(text, at, b'E')
}

impl Listed for PointList {
    type Kept = Pos;

    ghost Value = { Option Position };

    ghost spells = { SpellsPointMember };

    ghost faults = { point_faults };

    ghost added = { added_point };

    fn read(
        points: &mut Vec<Pos>,
        _maker: &mut Maker,
        source: &Source,
        from: Place,
    ) -> Result<ItemRead, Halt> {
        let at = skip_blanks(source.text, from.at);
        if opener_stands(source.text, at) {
            let point = read_point(points, source, Place { at, ..from })?;
            end_item(source.text, point)
        } else {
            read_bare(points, source, from)
        }
    }
}

impl Listed for LineList {
    type Kept = Path;

    ghost Value = { Option Positions };

    ghost spells = { SpellsList };

    ghost faults = { line_faults };

    ghost added = { added_line };

    fn read(
        lines: &mut Vec<Path>,
        maker: &mut Maker,
        source: &Source,
        from: Place,
    ) -> Result<ItemRead, Halt> {
        let at = skip_blanks(source.text, from.at);
        let line = read_line_string(lines, maker, source, Place { at, ..from })?;
        end_item(source.text, line)
    }
}

impl Listed for AreaList {
    type Kept = Polygon;

    ghost Value = { List Positions };

    ghost spells = { SpellsArea };

    ghost faults = { faults_of_area };

    ghost added = { polygons_of };

    fn read(
        polygons: &mut Vec<Polygon>,
        maker: &mut Maker,
        source: &Source,
        from: Place,
    ) -> Result<ItemRead, Halt> {
        let at = skip_blanks(source.text, from.at);
        let polygon = read_polygon(polygons, maker, source, Place { at, ..from })?;
        end_item(source.text, polygon)
    }
}
