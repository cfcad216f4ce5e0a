//! How a value is taken as a whole number of units, and why it may have none.

/// How the value of a number is taken as a whole number of units.
#[derive(Clone, Copy, Debug, PartialEq, Eq)]
pub enum Coords {
    /// The value must be a whole number of units.
    Exact,
    /// The nearest whole number of units counts, and the even one of two that are as near.
    Round,
}

/// Why a number has no value in units.
#[derive(Clone, Copy, Debug, PartialEq, Eq)]
pub enum FixedFault {
    /// The number is no whole number of units.
    Scale = 1,
    /// The number is larger than the largest coordinate, 3 * 10^14 units.
    Range = 2,
}
