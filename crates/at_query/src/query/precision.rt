//! How the numbers of a query are read.

use at_fixed::Coords;

/// How many decimals a unit has, and whether a number may be rounded to it.
#[derive(Clone, Copy)]
pub struct Precision {
    pub digits: u8,
    pub how: Coords,
}
