//! How large a file may be, and into how many blocks it may be cut.

/// The most bytes that a file, a line of words or a query may have: 2^28.
pub const MOST_BYTES: usize = 1 << 28;

/// The most blocks into which a file is cut: 2^12.
pub const MOST_BLOCKS: usize = 1 << 12;
