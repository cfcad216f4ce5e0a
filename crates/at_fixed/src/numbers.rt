//! The number that begins a text, however it is written, and the value of a text that is a number.

ghost use Rattle.std.specs.Prelude.{◌≡◌, ◌⊎◌, ◌^◌, ◌<◌, ◌≤◌, length, take, is_some, IfSome};
ghost use Rattle.at_text.specs.Prefix.{TakesLongest};
ghost use Rattle.at_fixed.specs.Numerals.{Numeral, SpellsNumeral, JsonNumber, WktNumber, NumberOf};
ghost use Rattle.at_fixed.specs.Fixed.{IsFixedOf};
ghost use Rattle.at_fixed.specs.Products.{IsValue};

use crate::notation::Notation;
use crate::plain_numbers::plain_number;
use crate::rounding::{Coords, FixedFault};
use crate::scanning::{Scanned, scan};
use crate::units::value_of;
use at_text::Taken;

/// The number that begins a text.
#[derive(Clone, Copy, Debug, PartialEq, Eq)]
pub struct LeadingNumber {
    /// The length in bytes of the longest prefix of the text that is the beginning of a number.
    pub len: u32,
    /// The value of the number, or None where that prefix isn't a number yet.
    pub value: Option<Result<i64, FixedFault>>,
}

/// The end of a number, and whether it is one.
fn taken_of(scanned: Scanned) -> Taken
    requires { scanned.len < 2 ^ 32 }
    ensures { result ≡ record { len = scanned.len; whole = scanned.is_number } }
{
    Taken {
        len: scanned.len as u32,
        whole: scanned.is_number,
    }
}

/// The length of the longest prefix of the text that is the beginning of some JSON number (RFC 8259 section 6),
/// and whether that prefix is itself a number. It takes no memory.
pub fn json_number(text: &[u8]) -> Taken
    requires { length text.now ≤ 2 ^ 28 }
    ensures { TakesLongest JsonNumber text.now result }
{
    taken_of(scan(text, Notation::Json))
}

/// The length of the longest prefix of the text that is the beginning of some number of Well-Known Text
/// (OGC 06-103r4 section 7.2.1), and whether that prefix is itself a number. It takes no memory.
pub fn wkt_number(text: &[u8]) -> Taken
    requires { length text.now ≤ 2 ^ 28 }
    ensures { TakesLongest WktNumber text.now result }
{
    taken_of(scan(text, Notation::Wkt))
}

/// The number that begins a text, however it is written.
#[inline(never)]
fn any_number(text: &[u8], notation: Notation, digits: u8, how: Coords) -> LeadingNumber
    requires { length text.now ≤ 2 ^ 28 }
    ensures taken { TakesLongest (NumberOf notation) text.now (record {
      len = result.len;
      whole = is_some result.value;
    }) }
    ensures value { IfSome result.value (λ value. IsFixedOf (take result.len text.now) digits how value) }
{
    let scanned = scan(text, notation);
    let len = scanned.len as u32;
    if scanned.is_number {
        LeadingNumber {
            len,
            value: Some(value_of(scanned.decimal, digits, how)),
        }
    } else {
        LeadingNumber { len, value: None }
    }
}

/// The longest prefix of the text that is the beginning of some number, and the number's value in units of
/// 10^-digits where that prefix is a number: what `json_number` or `wkt_number`, and then `read_fixed` of the
/// prefix, tell in two passes. It takes no memory.
#[inline(always)]
pub fn leading_number(text: &[u8], notation: Notation, digits: u8, how: Coords) -> LeadingNumber
    requires { length text.now ≤ 2 ^ 28 }
    ensures taken { TakesLongest (NumberOf notation) text.now (record {
      len = result.len;
      whole = is_some result.value;
    }) }
    ensures value { IfSome result.value (λ value. IsFixedOf (take result.len text.now) digits how value) }
{
    match plain_number(text, notation, digits, how) {
        Some(plain) => LeadingNumber {
            len: plain.len,
            value: Some(Ok(plain.value)),
        },
        None => any_number(text, notation, digits, how),
    }
}

/// The value of a number in units of 10^-digits, at most 3 * 10^14 units in size.
///
/// In `Exact` it is Range exactly where the value is larger, else Scale exactly where it isn't a whole number.
/// In `Round` it is the nearest whole number, and the even one of two; Range exactly where that is larger. A
/// number whose digits are all 0 is 0 whatever its exponent. It takes no memory.
pub fn read_fixed(text: &[u8], digits: u8, how: Coords) -> Result<i64, FixedFault>
    requires short { length text.now ≤ 2 ^ 28 }
    requires number { JsonNumber text.now ⊎ WktNumber text.now }
    ensures value { IsFixedOf text.now digits how result }
    ensures products { (n : Numeral) → SpellsNumeral text.now n → IsValue n digits how result }
{
    value_of(scan(text, Notation::Wkt).decimal, digits, how)
}
