//! What is told of positions in place of their lists: their extent, or the area of the polygons that they bound.

ghost use Rattle.std.specs.Prelude.{◌≡◌, [], ◌∷◌, Option};
ghost use Rattle.at_geom.specs.declared.positions.Pos.{Pos};
ghost use Rattle.at_geom.specs.declared.rectangles.Extent.{Extent};
ghost use Rattle.at_geom.specs.Shapes.{widened as widened_of};
ghost use Rattle.at_query.specs.Tallies.{SumsUp};

use crate::query::looks::Measure;
use at_geom::{Extent, Pos, shoelace_term};

/// What is told of positions: the least extent round them and those before them, or twice the area of what they bound,
/// by wrapping in 128 bits. Which of the two the measure asks for; nothing is told of the other.
#[derive(Clone, Copy)]
pub struct Tally {
    pub extent: Option<Extent>,
    pub area: i128,
}

/// The least extent round a position and those before it.
#[inline(always)]
fn widened(before: Option<Extent>, p: Pos) -> Extent
    ensures { result ≡ widened_of p before }
{
    match before {
        None => Extent { low: p, high: p },
        Some(extent) => extent.widened(p),
    }
}

impl Tally {
    ghost use Rattle.std.specs.Prelude.{◌≡◌, List, [], ◌∷◌, ◌++◌, Option, pos};
    ghost use Rattle.at_geom.specs.declared.positions.Pos.{Pos};
    ghost use Rattle.at_geom.specs.declared.rectangles.Extent.{Extent};
    ghost use Rattle.at_geom.specs.declared.shapes.Polygon.{Polygon};
    ghost use Rattle.at_geom.specs.Segments.{IsInRange};
    ghost use Rattle.at_query.specs.declared.query.looks.Measure.{Measure};
    ghost use Rattle.at_query.specs.Tallies.{SumsUp, TalliesPath, TalliesLists, TalliesAreas};

    /// The tally of the first position of a list.
    #[inline(always)]
    pub fn of_first(measure: Measure, before: Option<Extent>, first: Pos) -> Tally
        ensures { SumsUp measure before (first ∷ []) result }
    {
        match measure {
            Measure::Count | Measure::Area => Tally {
                extent: None,
                area: 0,
            },
            Measure::Extent => Tally {
                extent: Some(widened(before, first)),
                area: 0,
            },
        }
    }

    /// The tally with one more position of the list, behind the last.
    #[inline(always)]
    pub fn with(self, measure: Measure, last: Pos, next: Pos) -> Tally
        requires last_in_range { IsInRange last }
        requires next_in_range { IsInRange next }
        ensures { (before : Option Extent) (front : List Pos) → SumsUp measure before (front ++ last ∷ []) self
            → SumsUp measure before ((front ++ last ∷ []) ++ next ∷ []) result }
    {
        match measure {
            Measure::Count => self,
            Measure::Extent => Tally {
                extent: Some(widened(self.extent, next)),
                area: 0,
            },
            Measure::Area => Tally {
                extent: None,
                area: self.area.wrapping_add(shoelace_term(last, next)),
            },
        }
    }

    /// The tally of a whole list: the area is that of the ring, whichever way it goes round.
    #[inline(always)]
    pub fn of_ring(self) -> Tally
        ensures { (measure : Measure) (before : Option Extent) (path : List Pos) → SumsUp measure before path self
            → TalliesPath measure before path result }
    {
        Tally {
            extent: self.extent,
            area: self.area.wrapping_abs(),
        }
    }

    /// The tally of points and lines, which bound no area.
    #[inline(always)]
    pub fn flat(self) -> Tally
        ensures { result ≡ record { extent = self.extent; area = pos 0 } }
    {
        Tally {
            extent: self.extent,
            area: 0,
        }
    }

    /// The tally of lists, with one more list behind them: as a ring it is a hole.
    #[inline(always)]
    pub fn with_hole(self, hole: Tally) -> Tally
        ensures { (measure : Measure) (before : Option Extent) (paths : List (List Pos)) (path : List Pos)
            → TalliesLists measure before paths self → TalliesPath measure self.extent path hole
            → TalliesLists measure before (paths ++ path ∷ []) result }
    {
        Tally {
            extent: hole.extent,
            area: self.area.wrapping_sub(hole.area),
        }
    }

    /// The tally of polygons, with one more polygon behind them.
    #[inline(always)]
    pub fn with_polygon(self, polygon: Tally) -> Tally
        ensures { (measure : Measure) (before : Option Extent) (polygons : List Polygon) (more : Polygon)
            → TalliesAreas measure before polygons self → TalliesLists measure self.extent more.rings polygon
            → TalliesAreas measure before (polygons ++ more ∷ []) result }
    {
        Tally {
            extent: polygon.extent,
            area: self.area.wrapping_add(polygon.area),
        }
    }
}
