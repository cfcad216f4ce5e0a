//! The convex hull of a list of positions: the extreme positions, counterclockwise from the lowest.
//!
//! [`hull`] walks the sorted positions once up and once down; [`hull_join`] makes the hull of two
//! lists from their hulls, and [`covers_all`] sees without memory where it is the one of them. A
//! [`HullBuilder`] is given positions bit by bit. Each list has one hull and no more, whatever the
//! order of its positions.
//! Coordinates are in range as at_geom has it, so every turn is exact.
//!
//! Of three positions on one line, the hull has the two ends:
//! ```
//! let low = Pos { x: 0, y: 0 };
//! let middle = Pos { x: 2, y: 1 };
//! let high = Pos { x: 4, y: 2 };
//! let points = Path::from_vec(vec![in alloc; high, middle, low]?);
//! let ends = hull(alloc, &points)?;
//! assert!(rt; ends.as_slice() == [low, high].as_slice());
//! ```
#![tactic(auto)]

mod builder;
mod chains;
mod extents;
mod hulls;
mod inside;

pub use builder::HullBuilder;
pub use hulls::{hull, hull_join};
pub use inside::covers_all;
