//! A text with the rules by which it is read, and a place in it.

ghost use Rattle.std.specs.Prelude.{◌+◌, ◌≤◌, ◌^◌, length};

use crate::line::dimension::Dimension;
use at_fixed::Coords;

/// Where a text stands in its file, and how its numbers are read.
#[derive(Clone, Copy)]
pub struct Rules {
    /// The offset of the text's first byte.
    pub base: u32,
    /// Coordinates are counted in units of 10^-digits.
    pub digits: u8,
    /// What becomes of a coordinate that is no whole number of units.
    pub how: Coords,
}

/// A text that is read by rules. Its offsets fit.
#[derive(Clone, Copy)]
pub struct Source<'a> {
    pub text: &'a [u8],
    pub rules: Rules,
    ghost short: { rules.base + length text.now ≤ 2 ^ 28 },
}

/// How far reading a geometry has come: a place of the text, and how many numbers positions have there.
#[derive(Clone, Copy)]
pub struct Place {
    pub at: usize,
    pub dimension: Dimension,
}
