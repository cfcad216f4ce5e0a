//! Exact geometry in the plane: positions on a grid of whole units, the shapes that are made of them, and
//! predicates that answer without rounding.
//!
//! A coordinate is a count of units of 10^-7 (or of another power of ten that the caller keeps to), and is at
//! most 300,000,000,000,000 in size where a call asks for it. Differences then fit 64 bits and products of two
//! differences fit 128 bits, so every answer is exact. No call takes memory.
//!
//! Three positions turn counterclockwise, and twice the area of their triangle is 3 squares:
//! ```
//! let low = Pos { x: 0, y: 0 };
//! let right = Pos { x: 3, y: 0 };
//! let high = Pos { x: 3, y: 1 };
//! assert!(rt; orient(low, right, high) == 1);
//! let ring = Path::from_vec(vec![in alloc; low, right, high, low]?);
//! let triangle = Polygon {
//!     rings: Paths::from_vec(vec![in alloc; ring]?),
//! };
//! assert!(rt; doubled_area(&triangle) == 3);
//! ```
#![tactic(auto)]

mod areas;
mod extents;
mod integers;
mod meetings;
mod orientation;
mod positions;
mod reaches;
mod rectangles;
mod regions;
mod rules;
mod segments;
mod shapes;
mod walks;

pub use areas::{doubled_area, shoelace_term};
pub use extents::{all_in, extent};
pub use meetings::shapes_meet;
pub use orientation::orient;
pub use positions::{Path, Paths, Pos};
pub use reaches::{are_closed, is_in_any, reach, shape_reaches};
pub use rectangles::Extent;
pub use regions::{RingPlace, in_polygon, is_in_no_hole, place_in_ring};
pub use rules::{line_fault, ring_fault};
pub use segments::segments_meet;
pub use shapes::{Polygon, Polygons, Shape};
pub use walks::{some_position, some_segment};
