//! Fragments of JSON texts (RFC 8259), and how they are merged.
//!
//! A file may be cut at any byte. [`run_block`] reads one piece of it without knowing what stands before: from outside
//! text, and from inside a string. [`merge`] joins what two neighbouring pieces gave; where the left one ends behind a
//! backslash, it may have to read the right one once more. [`finish`] answers what an [`Algebra`] makes of the file's
//! tree, or the first place at which no JSON text goes on.
//!
//! `Tally` is an [`Algebra`] that counts the values of a text: an object, an array and two numbers, for example. A
//! text that only begins has no answer:
//! ```
//! let text: &[u8] = b"{\"a\":[1,2]}";
//! let whole = run_block(alloc, &Tally, text, 0);
//! assert_eq!(rt; finish(alloc, &Tally, text, whole)?, 4);
//! let front = run_block(alloc, &Tally, b"[1,", 0);
//! assert!(rt; finish(alloc, &Tally, b"[1,", front) == Err(NestEnd::Ended));
//! ```
#![tactic(auto)]

mod algebra;
mod bodies;
mod brackets;
mod finishing;
mod fragments;
mod levels;
mod member_rows;
mod open_levels;
mod pieces;
mod sources;
mod tokens;
mod tries;
mod variants;

pub use algebra::{Algebra, Attempt, Member};
pub use finishing::{NestEnd, finish, finish_span};
pub use fragments::{Fragment, lost, merge, run_block};
