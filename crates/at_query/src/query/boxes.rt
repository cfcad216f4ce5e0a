//! A box in a query line: its four numbers, and what is wrong with them.

ghost use Rattle.std.specs.Prelude.{◌≡◌, ◌^◌, ◌≤◌, length, MatchResult};
ghost use Rattle.at_query.specs.Queries.{lesser, is_reversed as reversed_test};
ghost use Rattle.at_text.specs.Halts.{IfStopped};
ghost use Rattle.at_query.specs.Readers.{Ends, Stops, FourNumbers, Box, four_in, box_in, extent_in};
ghost use Rattle.at_query.specs.Readers.{four_fault, fault_with};

use crate::query::bytes::skip_word;
use crate::query::coordinates::{NumberRead, read_number};
use crate::query::precision::Precision;
use at_geom::{Extent, Pos};
use at_text::Halt;

/// A box.
#[derive(Clone, Copy)]
pub struct BoxRead {
    /// The place behind it.
    pub end: usize,
    pub extent: Extent,
    /// The least offset of what is wrong with it.
    pub fault: Option<u32>,
}

/// The four numbers of a box.
#[derive(Clone, Copy)]
struct Corners {
    low_x: NumberRead,
    low_y: NumberRead,
    high_x: NumberRead,
    high_y: NumberRead,
}

/// The lesser of two offsets, where there are any.
pub fn least(a: Option<u32>, b: Option<u32>) -> Option<u32>
    ensures { result ≡ lesser a b }
{
    match (a, b) {
        (Some(one), Some(other)) => Some(one.min(other)),
        (None, _) => b,
        (_, None) => a,
    }
}

/// Whether the low corner is greater than the high one on some axis.
fn is_reversed(extent: Extent) -> bool
    ensures { result ≡ reversed_test extent }
{
    extent.high.x < extent.low.x || extent.high.y < extent.low.y
}

/// The least offset of what is wrong with a box of these numbers, whose word stands at the offset.
fn fault_of_box(corners: Corners, extent: Extent, at: u32) -> Option<u32>
    ensures { result ≡ fault_with (four_fault corners) extent at }
{
    let high = least(corners.high_x.fault, corners.high_y.fault);
    let numbers = least(corners.low_x.fault, least(corners.low_y.fault, high));
    match numbers {
        Some(_) => numbers,
        None => if is_reversed(extent) { Some(at) } else { None },
    }
}

/// The extent of a box of these numbers.
fn extent_of(corners: Corners) -> Extent
    ensures { result ≡ extent_in corners }
{
    Extent {
        low: Pos {
            x: corners.low_x.value,
            y: corners.low_y.value,
        },
        high: Pos {
            x: corners.high_x.value,
            y: corners.high_y.value,
        },
    }
}

/// Reads the four numbers of a box, each with the byte behind it.
fn read_corners(text: &[u8], at: usize, rules: Precision) -> Result<Corners, Halt>
    requires inside { at ≤ length text.now }
    requires short { length text.now ≤ 2 ^ 28 }
    ensures { MatchResult result
        (λ read. Ends (FourNumbers rules.digits rules.how) text.now at read.high_y.end (four_in read))
        (λ halt. IfStopped halt (Stops (FourNumbers rules.digits rules.how) text.now at)) }
{
    let low_x = read_number(text, at, b' ', rules)?;
    let low_y = read_number(text, low_x.end, b',', rules)?;
    let high_x = read_number(text, low_y.end, b' ', rules)?;
    let high_y = read_number(text, high_x.end, b')', rules)?;
    Ok(Corners {
        low_x,
        low_y,
        high_x,
        high_y,
    })
}

/// Reads a box.
pub fn read_box(text: &[u8], at: usize, rules: Precision) -> Result<BoxRead, Halt>
    requires inside { at ≤ length text.now }
    requires short { length text.now ≤ 2 ^ 28 }
    ensures { MatchResult result
        (λ read. Ends (Box rules.digits rules.how) text.now at read.end (box_in read))
        (λ halt. IfStopped halt (Stops (Box rules.digits rules.how) text.now at)) }
{
    let from = skip_word(text, at, b"box(")?;
    let corners = read_corners(text, from, rules)?;
    let extent = extent_of(corners);
    Ok(BoxRead {
        end: corners.high_y.end,
        extent,
        fault: fault_of_box(corners, extent, at as u32),
    })
}
