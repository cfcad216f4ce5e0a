//! GeoJSON (RFC 7946): the part of a query that the features of a JSON text give, or the text's first fault beyond its
//! syntax.
//!
//! A text of one feature is read as one block, and its part of a count is 1:
//! ```
//! let text: &[u8] = br#"{"type":"Point","coordinates":[1,2]}"#;
//! let query = read_query(alloc, b"count", 7, Coords::Exact)?;
//! let algebra = GeoAlgebra::new(query, 7, Coords::Exact);
//! let whole = run_block(alloc, &algebra, text, 0);
//! let atom = finish(alloc, &algebra, text, whole)?;
//! let part = root_part(alloc, &algebra, atom)?;
//! assert!(rt; matches!(part, Part::Count(1)));
//! ```
#![tactic(auto)]

mod algebra;
mod asked;
mod at_once;
mod atoms;
mod coordinates;
mod joined;
mod objects;
mod root;
mod text;

pub use asked::GeoAlgebra;
pub use atoms::atom::GeoAtom;
pub use root::{FeatureFront, RootEnd, feature_front, root_part};
