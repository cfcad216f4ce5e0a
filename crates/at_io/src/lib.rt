//! Where bytes come from and where they go: shelves of files and sinks, each with its content where it tells
//! that, and with a count of its own faults, so that a call that answers `Failed` has a cause that it can't make up.
//!
//! `MemShelf` and `MemSink` tell all that they hold and fail where they are told to. `RepeatShelf` tells one file of
//! equal bytes, of any length, and stores none of them. `DiskShelf` and `StdSink` stand over the real files and
//! streams, of which nothing can be proved but the counts.
//!
//! A file that a shelf holds is read whole, and what is put into a sink can be looked at:
//! ```
//! let name = String::from_str(alloc, "blanks.wkt")?;
//! let mut shelf = RepeatShelf::new(name, b' ', 3);
//! let bytes = read_whole(alloc, &mut shelf, "blanks.wkt")?;
//! let mut sink = MemSink::new(alloc, 5, Vec::new(alloc))?;
//! sink.put(bytes.as_slice())?;
//! assert!(rt; sink.written() == b"   ".as_slice());
//! ```
#![tactic(auto)]

mod counts;
mod disk;
mod mem_shelf;
mod mem_sink;
mod repeat_shelf;
mod shelf;
mod sink;
mod streams;
mod whole;

pub use disk::DiskShelf;
pub use mem_shelf::{MemShelf, NamedFile};
pub use mem_sink::{MemSink, PutFail};
pub use repeat_shelf::RepeatShelf;
pub use shelf::{Failed, Shelf};
pub use sink::Sink;
pub use streams::StdSink;
pub use whole::{ReadError, read_whole};
