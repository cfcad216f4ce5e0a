//! Exact numbers: the numbers that begin a text in JSON or in Well-Known Text, their values in whole units of
//! 10^-digits, and the texts of such values.
//!
//! 7.25 lies halfway between 72 and 73 tenths. `Round` takes the even one, and `Exact` neither:
//! ```
//! let nearest = leading_number(b"7.25,1", Notation::Json, 1, Coords::Round);
//! assert!(rt; nearest.len == 4 && nearest.value == Some(Ok(72)));
//! let exact = leading_number(b"7.25,1", Notation::Json, 1, Coords::Exact);
//! assert!(rt; exact.value == Some(Err(FixedFault::Scale)));
//! let text = write_fixed(alloc, 72, 1)?;
//! assert!(rt; text.as_str() == "7.2");
//! ```
#![tactic(auto)]

mod digits;
mod eights;
mod ends;
mod gaps;
mod notation;
mod number_ends;
mod numbers;
mod plain_numbers;
mod plain_scanning;
mod powers;
mod rounding;
mod scanning;
mod short_numbers;
mod units;
mod writing;

pub use notation::Notation;
pub use numbers::{LeadingNumber, json_number, leading_number, read_fixed, wkt_number};
pub use plain_numbers::{PlainNumber, plain_len, plain_number};
pub use rounding::{Coords, FixedFault};
pub use writing::write_fixed;
