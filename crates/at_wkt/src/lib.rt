//! Well-Known Text: geometries, and files of them read line by line (OGC 06-103r4 section 7).
//!
//! - `read_line` and `read_geometry` make a shape of a text, or tell its first fault.
//! - `Room::check_line` tells the first fault alone, and keeps no shape.
//! - A `Fold` makes something of the lines of a file. `run_lines` folds the lines of a piece of it, `merge_lines` joins
//!   the fragments of two neighbouring pieces, and `finish_lines` gives the fold of the whole.
//!
//! A line is read with seven decimal digits, and one that stops too early is refused:
//! ```
//! let bonn = Pos {
//!     x: 71_000_000,
//!     y: 507_000_000,
//! };
//! let shape = read_line(alloc, b"POINT (7.1 50.7)", 0, 7, Coords::Exact)?;
//! assert!(rt; shape.points.as_slice() == [bonn].as_slice());
//! assert!(rt; read_line(alloc, b"POINT (7.1", 0, 7, Coords::Exact).is_err());
//! ```
#![tactic(auto)]

// One line of text.
mod line;

// The lines of a file.
mod file;

// What is answered of both.
mod answers;

pub use answers::{LineFault, Prefix};
pub use file::folding::Fold;
pub use file::fragments::{LineFragment, WholeLines, finish_lines, merge_lines, run_lines};
pub use line::bytes::is_blank;
pub use line::numbers::number_fault;
pub use line::reading::{read_geometry, read_line};
pub use line::rooms::Room;
