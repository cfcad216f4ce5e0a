//! The places of the code that read positions or pass over them, by name.
//!
//! Each is the `SITE` of its own call. So each gets its own copy of the quick way in place, with the values in
//! registers; a shared copy would hand each position on through memory.

/// The first position of a line or a ring that is kept.
pub const FIRST: usize = 0;
/// A further position of a line or a ring that is kept.
pub const FURTHER: usize = 1;
/// A point in brackets that is kept.
pub const POINT: usize = 2;
/// A point of a MULTIPOINT without brackets.
pub const BARE_POINT: usize = 3;
/// The first position of a ring that is passed over.
pub const RING_FIRST: usize = 4;
/// A further position of a ring that is passed over.
pub const RING_FURTHER: usize = 5;
/// The last position of a ring that is passed over, which is read.
pub const RING_LAST: usize = 6;
/// The first position of a line that is passed over.
pub const LINE_FIRST: usize = 7;
/// A further position of a line that is passed over.
pub const LINE_FURTHER: usize = 8;
/// A point that is passed over.
pub const PASSED_POINT: usize = 9;
