//! What is made of the positions of a list as they are read one by one.

ghost use Rattle.std.specs.Prelude.{◌≡◌, true, false, List, [], ◌∷◌, ◌++◌, IfOk};
ghost use Rattle.std.specs.Prelude.{Option, Some, None};
ghost use Rattle.std.specs.Bool.{⊤};
ghost use Rattle.at_geom.specs.declared.positions.Pos.{Pos};
ghost use Rattle.at_geom.specs.declared.rectangles.Extent.{Extent};
ghost use Rattle.at_geom.specs.declared.shapes.Polygon.{Polygon};
ghost use Rattle.at_geom.specs.declared.shapes.Shape.{Shape};
ghost use Rattle.at_geom.specs.Segments.{IsInRange};
ghost use Rattle.at_geom.specs.Shapes.{of_points as points_are, of_lines as lines_are, of_polygons as polygons_are};
ghost use Rattle.at_query.specs.declared.query.queries.Query.{Query};
ghost use Rattle.at_query.specs.declared.query.looks.Measure.{Measure};
ghost use Rattle.at_query.specs.declared.query.looks.Measure.TheVariants as measures;
ghost use Rattle.at_query.specs.declared.answer.tallies.Tally.{Tally};
ghost use Rattle.at_query.specs.Keeping.{kept, needs_shapes, measure_of};
ghost use Rattle.at_query.specs.Tallies.{SumsUp, TalliesLists, TalliesAreas, TalliesShape};
ghost use Rattle.at_geojson.specs.Makings.{polygon};
ghost use Rattle.at_geojson.specs.PlainGeometries.{IsSeenOf};

use crate::at_once::plain_geometries::Seen;
use crate::atoms::shapes::{of_lines, of_points, of_polygons, one_line, one_point, one_polygon};
use crate::coordinates::pairs::ROOM;
use crate::coordinates::spots::{ByPlace, ByValue, Reads};
use at_geom::{Extent, Path, Paths, Polygon, Pos};
use at_query::{Measure, Part, Tally};
use at_text::Memory;
use std::alloc::Global;

/// A way to make something of positions as they are read.
///
/// `tells` says what is made of the positions of a list, behind what was made before it. In the end it tells what is seen
/// of the shape of the positions.
pub trait Maker {
    /// How the positions are read.
    type Reader: Reads;

    /// What was made before a list.
    type Before: Copy;

    /// What is made of a list.
    type Line: Drop;

    /// What is made of lists.
    type Lines: Drop;

    /// What is made of areas.
    type Areas: Drop;

    /// This is made of the positions, behind what was made before them.
    ghost tells: { Self.Before → List Pos → Self.Line → Type 0 };

    /// This is made of lists of positions, behind what was made before them.
    ghost tells_lines: { Self.Before → List (List Pos) → Self.Lines → Type 0 };

    /// What was made before a list that stands behind these.
    ghost around: { Self.Lines → Self.Before };

    /// This is made of areas, behind what was made before them.
    ghost tells_areas: { Self.Before → List Polygon → Self.Areas → Type 0 };

    /// What was made before an area that stands behind these.
    ghost around_all: { Self.Areas → Self.Before };

    /// What was made before the first list: nothing.
    ghost empty: { Self.Before };

    /// What is made serves this query.
    ghost serves: { Query → Type 0 };

    /// What was made before the first list.
    fn nothing() -> Self::Before
        ensures { result ≡ empty };

    /// What is made of one position alone.
    fn alone(alloc: Global, mark: <Self::Reader as Reads>::Mark) -> Result<Self::Line, Memory>
        ensures { IfOk result (λ line. (p : Pos) → Self.Reader.marks p mark → tells empty (p ∷ []) line) };

    /// What is made of the first position of a list.
    fn first(
        alloc: Global,
        before: Self::Before,
        mark: <Self::Reader as Reads>::Mark,
    ) -> Result<Self::Line, Memory>
        ensures { IfOk result (λ line. (p : Pos) → Self.Reader.marks p mark → tells before (p ∷ []) line) };

    /// What is made of a list with one more position behind the last.
    fn next(
        line: &mut Self::Line,
        last: <Self::Reader as Reads>::Mark,
        mark: <Self::Reader as Reads>::Mark,
    ) -> Result<(), Memory>
        requires last { (p : Pos) × IsInRange p × Self.Reader.marks p last }
        requires next { (p : Pos) × IsInRange p × Self.Reader.marks p mark }
        ensures { IfOk result (λ u. (before : Self.Before) (front : List Pos) (p q : Pos) → Self.Reader.marks p last
            → Self.Reader.marks q mark → tells before (front ++ p ∷ []) line.old
            → tells before ((front ++ p ∷ []) ++ q ∷ []) line.new) };

    /// What is made of the first of lists.
    fn first_line(alloc: Global, line: Self::Line) -> Result<Self::Lines, Memory>
        ensures { IfOk result (λ lines. (before : Self.Before) (path : List Pos) → tells before path line
            → tells_lines before (path ∷ []) lines) };

    /// What was made before the next list.
    fn around_lines(lines: &Self::Lines) -> Self::Before
        ensures { result ≡ around lines.now };

    /// What is made of lists with one more list behind them.
    fn add_line(lines: &mut Self::Lines, line: Self::Line) -> Result<(), Memory>
        ensures { IfOk result (λ u. (before : Self.Before) (paths : List (List Pos)) (path : List Pos)
            → tells_lines before paths lines.old → tells (around lines.old) path line
            → tells_lines before (paths ++ path ∷ []) lines.new) };

    /// What is made of the first of areas.
    fn first_area(alloc: Global, area: Self::Lines) -> Result<Self::Areas, Memory>
        ensures { IfOk result (λ areas. (before : Self.Before) (rings : List (List Pos)) → tells_lines before rings area
            → tells_areas before (polygon rings ∷ []) areas) };

    /// What was made before the next area.
    fn around_areas(areas: &Self::Areas) -> Self::Before
        ensures { result ≡ around_all areas.now };

    /// What is made of areas with one more area behind them.
    fn add_area(areas: &mut Self::Areas, area: Self::Lines) -> Result<(), Memory>
        ensures { IfOk result (λ u. (before : Self.Before) (polygons : List Polygon) (rings : List (List Pos))
            → tells_areas before polygons areas.old → tells_lines (around_all areas.old) rings area
            → tells_areas before (polygons ++ polygon rings ∷ []) areas.new) };

    /// What is seen of the shape of points.
    fn see_points(alloc: Global, line: Self::Line) -> Seen
        ensures { (query : Query) (path : List Pos) → serves query → tells empty path line
            → IsSeenOf query (points_are (kept (needs_shapes query) path)) result };

    /// What is seen of the shape of lines.
    fn see_lines(alloc: Global, lines: Self::Lines) -> Seen
        ensures { (query : Query) (paths : List (List Pos)) → serves query → tells_lines empty paths lines
            → IsSeenOf query (lines_are (kept (needs_shapes query) paths)) result };

    /// What is seen of the shape of areas.
    fn see_areas(alloc: Global, areas: Self::Areas) -> Seen
        ensures { (query : Query) (polygons : List Polygon) → serves query → tells_areas empty polygons areas
            → IsSeenOf query (polygons_are (kept (needs_shapes query) polygons)) result };
}

/// A way to make something that keeps lists, where the queries that it serves need them.
pub trait Lister: Maker {
    /// The list of positions of which this is made.
    fn path(alloc: Global, line: Self::Line) -> Vec<Pos>
        ensures { (query : Query) (path : List Pos) → Self.serves query → Self.tells Self.empty path line
            → result.items ≡ kept (needs_shapes query) path };

    /// The lists of positions of which this is made.
    fn paths(alloc: Global, lines: Self::Lines) -> Vec<Path>
        ensures { (query : Query) (paths : List (List Pos)) → Self.serves query → Self.tells_lines Self.empty paths lines
            → result.items ≡ kept (needs_shapes query) paths };

    /// The areas of which this is made.
    fn polygons(alloc: Global, areas: Self::Areas) -> Vec<Polygon>
        ensures { (query : Query) (polygons : List Polygon) → Self.serves query
            → Self.tells_areas Self.empty polygons areas → result.items ≡ kept (needs_shapes query) polygons };
}

/// What is asked of positions, as a type.
pub trait Asks {
    /// What is asked.
    ghost asked: { Measure };

    /// What is asked.
    fn measure() -> Measure
        ensures { result ≡ asked };
}

/// The least extent round positions is asked for.
pub struct Spreads;

impl Asks for Spreads {
    ghost asked = { measures.Extent };

    #[inline(always)]
    fn measure() -> Measure {
        Measure::Extent
    }
}

/// Twice the area that positions bound is asked for.
pub struct Sizes;

impl Asks for Sizes {
    ghost asked = { measures.Area };

    #[inline(always)]
    fn measure() -> Measure {
        Measure::Area
    }
}

/// Positions are kept.
pub struct Keeps;

/// What `M` asks of positions is made.
pub struct Tallies<M> {
    asks: M,
}

/// Nothing is made of positions.
pub struct Passes;

impl Maker for Keeps {
    type Reader = ByValue;

    type Before = ();

    type Line = Vec<Pos>;

    type Lines = Vec<Path>;

    type Areas = Vec<Polygon>;

    ghost tells = { λ before path line. line.items ≡ path };

    ghost tells_lines = { λ before paths lines. lines.items ≡ paths };

    ghost around = { λ lines. tt };

    ghost tells_areas = { λ before polygons areas. areas.items ≡ polygons };

    ghost around_all = { λ areas. tt };

    ghost empty = { tt };

    ghost serves = { λ query. needs_shapes query ≡ true };

    #[inline(always)]
    fn nothing() {}

    #[inline(always)]
    fn alone(alloc: Global, mark: Pos) -> Result<Vec<Pos>, Memory> {
        one_point(alloc, true, mark)
    }

    #[inline(always)]
    fn first(alloc: Global, _before: (), mark: Pos) -> Result<Vec<Pos>, Memory> {
        let mut path = Vec::with_capacity(alloc, ROOM)?;
        path.push(mark)?;
        Ok(path)
    }

    #[inline(always)]
    fn next(line: &mut Vec<Pos>, _last: Pos, mark: Pos) -> Result<(), Memory> {
        line.push(mark)?;
        Ok(())
    }

    #[inline(always)]
    fn first_line(alloc: Global, line: Vec<Pos>) -> Result<Vec<Path>, Memory> {
        one_line(alloc, true, line)
    }

    #[inline(always)]
    fn around_lines(_lines: &Vec<Path>) {}

    #[inline(always)]
    fn add_line(lines: &mut Vec<Path>, line: Vec<Pos>) -> Result<(), Memory> {
        lines.push(Path::from_vec(line))?;
        Ok(())
    }

    #[inline(always)]
    fn first_area(alloc: Global, area: Vec<Path>) -> Result<Vec<Polygon>, Memory> {
        one_polygon(alloc, true, area)
    }

    #[inline(always)]
    fn around_areas(_areas: &Vec<Polygon>) {}

    #[inline(always)]
    fn add_area(areas: &mut Vec<Polygon>, area: Vec<Path>) -> Result<(), Memory> {
        areas.push(Polygon {
            rings: Paths::from_vec(area),
        })?;
        Ok(())
    }

    #[inline(always)]
    fn see_points(alloc: Global, line: Vec<Pos>) -> Seen {
        Seen::Shape(of_points(alloc, line))
    }

    #[inline(always)]
    fn see_lines(alloc: Global, lines: Vec<Path>) -> Seen {
        Seen::Shape(of_lines(alloc, lines))
    }

    #[inline(always)]
    fn see_areas(alloc: Global, areas: Vec<Polygon>) -> Seen {
        Seen::Shape(of_polygons(alloc, areas))
    }
}

impl Lister for Keeps {
    #[inline(always)]
    fn path(_alloc: Global, line: Vec<Pos>) -> Vec<Pos> {
        line
    }

    #[inline(always)]
    fn paths(_alloc: Global, lines: Vec<Path>) -> Vec<Path> {
        lines
    }

    #[inline(always)]
    fn polygons(_alloc: Global, areas: Vec<Polygon>) -> Vec<Polygon> {
        areas
    }
}

/// The part of a feature of whose positions this is told.
#[inline(always)]
fn seen_part(measure: Measure, tally: Tally) -> Seen
    ensures { (query : Query) (shape : Shape) → measure_of query ≡ Some measure → TalliesShape measure shape tally
        → IsSeenOf query shape result }
{
    match measure {
        Measure::Count => Seen::Measured(Part::Count(1)),
        Measure::Extent => Seen::Measured(Part::Spread(tally.extent)),
        Measure::Area => Seen::Measured(Part::Area(tally.area)),
    }
}

impl<M: Asks> Maker for Tallies<M> {
    type Reader = ByValue;

    type Before = Option<Extent>;

    type Line = Tally;

    type Lines = Tally;

    type Areas = Tally;

    ghost tells = { SumsUp M.asked };

    ghost tells_lines = { TalliesLists M.asked };

    ghost around = { λ lines. lines.extent };

    ghost tells_areas = { TalliesAreas M.asked };

    ghost around_all = { λ areas. areas.extent };

    ghost empty = { None };

    ghost serves = { λ query. measure_of query ≡ Some M.asked };

    #[inline(always)]
    fn nothing() -> Option<Extent> {
        None
    }

    #[inline(always)]
    fn alone(_alloc: Global, mark: Pos) -> Result<Tally, Memory> {
        Ok(Tally::of_first(M::measure(), None, mark))
    }

    #[inline(always)]
    fn first(_alloc: Global, before: Option<Extent>, mark: Pos) -> Result<Tally, Memory> {
        Ok(Tally::of_first(M::measure(), before, mark))
    }

    #[inline(always)]
    fn next(line: &mut Tally, last: Pos, mark: Pos) -> Result<(), Memory> {
        *line = line.with(M::measure(), last, mark);
        Ok(())
    }

    #[inline(always)]
    fn first_line(_alloc: Global, line: Tally) -> Result<Tally, Memory> {
        Ok(line.of_ring())
    }

    #[inline(always)]
    fn around_lines(lines: &Tally) -> Option<Extent> {
        lines.extent
    }

    #[inline(always)]
    fn add_line(lines: &mut Tally, line: Tally) -> Result<(), Memory> {
        *lines = lines.with_hole(line.of_ring());
        Ok(())
    }

    #[inline(always)]
    fn first_area(_alloc: Global, area: Tally) -> Result<Tally, Memory> {
        Ok(area)
    }

    #[inline(always)]
    fn around_areas(areas: &Tally) -> Option<Extent> {
        areas.extent
    }

    #[inline(always)]
    fn add_area(areas: &mut Tally, area: Tally) -> Result<(), Memory> {
        *areas = areas.with_polygon(area);
        Ok(())
    }

    #[inline(always)]
    fn see_points(_alloc: Global, line: Tally) -> Seen {
        seen_part(M::measure(), line.flat())
    }

    #[inline(always)]
    fn see_lines(_alloc: Global, lines: Tally) -> Seen {
        seen_part(M::measure(), lines.flat())
    }

    #[inline(always)]
    fn see_areas(_alloc: Global, areas: Tally) -> Seen {
        seen_part(M::measure(), areas)
    }
}

impl Maker for Passes {
    type Reader = ByPlace;

    type Before = ();

    type Line = ();

    type Lines = ();

    type Areas = ();

    ghost tells = { λ before path line. ⊤ };

    ghost tells_lines = { λ before paths lines. ⊤ };

    ghost around = { λ lines. tt };

    ghost tells_areas = { λ before polygons areas. ⊤ };

    ghost around_all = { λ areas. tt };

    ghost empty = { tt };

    ghost serves = { λ query. needs_shapes query ≡ false };

    #[inline(always)]
    fn nothing() {}

    #[inline(always)]
    fn alone(_alloc: Global, _mark: ()) -> Result<(), Memory> {
        Ok(())
    }

    #[inline(always)]
    fn first(_alloc: Global, _before: (), _mark: ()) -> Result<(), Memory> {
        Ok(())
    }

    #[inline(always)]
    fn next(line: &mut (), _last: (), mark: ()) -> Result<(), Memory> {
        *line = mark;
        Ok(())
    }

    #[inline(always)]
    fn first_line(_alloc: Global, _line: ()) -> Result<(), Memory> {
        Ok(())
    }

    #[inline(always)]
    fn around_lines(_lines: &()) {}

    #[inline(always)]
    fn add_line(lines: &mut (), line: ()) -> Result<(), Memory> {
        *lines = line;
        Ok(())
    }

    #[inline(always)]
    fn first_area(_alloc: Global, _area: ()) -> Result<(), Memory> {
        Ok(())
    }

    #[inline(always)]
    fn around_areas(_areas: &()) {}

    #[inline(always)]
    fn add_area(areas: &mut (), area: ()) -> Result<(), Memory> {
        *areas = area;
        Ok(())
    }

    #[inline(always)]
    fn see_points(_alloc: Global, _line: ()) -> Seen {
        Seen::Measured(Part::Count(1))
    }

    #[inline(always)]
    fn see_lines(_alloc: Global, _lines: ()) -> Seen {
        Seen::Measured(Part::Count(1))
    }

    #[inline(always)]
    fn see_areas(_alloc: Global, _areas: ()) -> Seen {
        Seen::Measured(Part::Count(1))
    }
}

impl Lister for Passes {
    #[inline(always)]
    fn path(alloc: Global, _line: ()) -> Vec<Pos> {
        Vec::new(alloc)
    }

    #[inline(always)]
    fn paths(alloc: Global, _lines: ()) -> Vec<Path> {
        Vec::new(alloc)
    }

    #[inline(always)]
    fn polygons(alloc: Global, _areas: ()) -> Vec<Polygon> {
        Vec::new(alloc)
    }
}
