//! What every other crate stands on: bytes and texts, the kinds of fault and their order, the encoding of a
//! file, the classes of bytes, and the one meaning of "longest viable prefix" that all grammars share.
//!
//! A fault of the encoding is told rather than one of the syntax, whichever stands first:
//! ```
//! let bytes: &[u8] = b"{}x\xFF";
//! let syntax = stop_at(bytes, 0, 2);
//! let encoding = Fault {
//!     kind: FaultKind::NotUtf8,
//!     at: 3,
//! };
//! assert!(rt; utf8_fault(bytes) == Some(encoding));
//! assert!(rt; first_fault(Some(syntax), Some(encoding)) == Some(encoding));
//! ```
#![tactic(auto)]

mod classes;
mod encoding;
mod faults;
mod halts;
mod limits;
mod memory;
mod pieces;
mod prefixes;
mod refusals;
mod texts;

pub use classes::{is_digit, is_run, is_space};
pub use encoding::{base_of, utf8_fault};
pub use faults::{Fault, FaultKind, first_fault, first_of_two, stop_at};
pub use halts::Halt;
pub use limits::{MOST_BLOCKS, MOST_BYTES};
pub use memory::Memory;
pub use pieces::Pieces;
pub use prefixes::Taken;
pub use refusals::Refusal;
pub use texts::{Bytes, Span, Word};
