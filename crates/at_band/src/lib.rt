//! Shapes that are kept for many questions whether others meet them: what of a shape lies at certain heights is
//! found without a look at the rest of it.
//!
//! [`Bands`] cuts the heights of its shape into zones and these into bands, and keeps for each band the edges that
//! reach into it. A position is looked for in the one band of its height, a segment in those that it reaches into.
//! The answers are those of `shapes_meet`.
//!
//! A line from (0, 0) to (4, 4) is kept, and `town`, a shape with the point (2, 2), meets it:
//! ```
//! let line = Path::from_vec(vec![in alloc; Pos { x: 0, y: 0 }, Pos { x: 4, y: 4 }]?);
//! let road = Shape {
//!     points: Path::from_vec(Vec::new(alloc)),
//!     lines: Paths::from_vec(vec![in alloc; line]?),
//!     polygons: Polygons::from_vec(Vec::new(alloc)),
//! };
//! let bands = Bands::new(alloc, &road)?;
//! assert!(rt; bands.meets(&town));
//! ```
#![tactic(auto)]

mod bands;
mod copies;
mod counts;
mod cuts;
mod found;
mod thinning;
mod touches;
mod zones;

pub use bands::Bands;
