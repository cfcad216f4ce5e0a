//! Scanning the bytes of JSON: places, short texts, names, members and numbers of a text that lies in memory.
//!
//! A caller walks over a text from place to place, and each call says what stands from one place to another: white
//! space ([`skip_spaces`]), a byte ([`stands`]), a string ([`text_end`], [`simple_item`]), a name with its colon
//! ([`name_place`], [`field_name`]), a number that has a value ([`valued_number`]). Names are compared where they stand:
//! [`next_name`] says that a member's name is none of those before it in its object. Nothing is kept of a text but places.
//!
//! The members of this object are one for which GeoJSON has no name, and its kind:
//! ```
//! let text: &[u8] = b"{\"id\":7,\"type\":\"Point\"}";
//! let mut others = OtherNames::none(alloc);
//! let first = next_name(text, &mut others, 1)?;
//! assert!(rt; first.field == Field::Other && name_bytes(text, first.place).is_word(b"id"));
//! let second = field_name(text, 8)?;
//! assert!(rt; second.field == Field::Kind && stands(text, 15, b'"'));
//! assert!(rt; text_end(text, 15) == Ok(22));
//! ```
#![tactic(auto)]

mod fields;
mod hashes;
mod kinds;
mod known_names;
mod members;
mod numbers;
mod places;
mod short_texts;
mod spellings;

pub use fields::{Field, field_named, is_coordinates, is_kind, is_other};
pub use hashes::{has_hash_among, hash_of, repeated};
pub use kinds::{Kind, kind_of};
pub use known_names::{KindRead, begins_collection, known_kind, names_collection};
pub use members::{
    FieldName, OtherName, OtherNames, TableNames, add_other, field_name, name_bytes, next_name,
};
pub use numbers::{may_begin, position_end, valued_len, valued_number};
pub use places::{
    NamePlace, OTHER_KIND, brackets_ahead, byte_place, expect_comma, name_place, opening,
    seems_cut, skip_alike, skip_spaces, stands, text_end,
};
pub use short_texts::{SimpleItem, is_simple, short_text_end, simple_item, simple_item_to_end};
pub use spellings::Spelling;
