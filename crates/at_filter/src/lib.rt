//! What is done to the bytes of files as they are read: lines become the records of a text sequence, and the items of an
//! array can't leave it unseen.
//!
//! A `Filter` says what becomes of each byte, and a `FilteredShelf` has the files of another shelf behind one:
//! ```
//! let name = String::from_str(alloc, "feeds")?;
//! let mut shelf = FilteredShelf::new(RepeatShelf::new(name, b'\n', 3), Filter::Lines);
//! let bytes = read_whole(alloc, &mut shelf, "feeds")?;
//! assert!(rt; bytes.as_slice() == b"\x1E\x1E\x1E".as_slice());
//! ```
#![tactic(auto)]

mod filter;
mod shelf;

pub use filter::Filter;
pub use shelf::FilteredShelf;
