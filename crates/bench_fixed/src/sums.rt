//! The sum of a text's numbers, in one pass and in two.

ghost use Rattle.std.specs.Prelude.{◌≤◌, ◌^◌, length};

use at_fixed::{Coords, Notation, json_number, leading_number, read_fixed};

/// The sum of the numbers, the type's range wrapped round. A line that is no number counts 0.
pub fn sum_in_one_pass(text: &[u8]) -> i64
    requires { length text.now ≤ 2 ^ 28 }
{
    let mut sum: i64 = 0;
    let mut at = 0;
    while at < text.len() {
        let number = leading_number(&text[at..], Notation::Json, 7, Coords::Round);
        if let Some(Ok(units)) = number.value {
            sum = sum.wrapping_add(units);
        }
        at += number.len as usize + 1;
    }
    sum
}

/// The value of the number that begins a text and how long it is, by one call for each.
fn next_number(rest: &[u8]) -> (i64, usize)
    requires { length rest.now ≤ 2 ^ 28 }
    ensures { result.1 ≤ length rest.now }
{
    let taken = json_number(rest);
    let len = taken.len as usize;
    if taken.whole {
        match read_fixed(&rest[..len], 7, Coords::Round) {
            Ok(units) => (units, len),
            Err(_) => (0, len),
        }
    } else {
        (0, len)
    }
}

/// The same sum, each number read twice.
pub fn sum_in_two_passes(text: &[u8]) -> i64
    requires { length text.now ≤ 2 ^ 28 }
{
    let mut sum: i64 = 0;
    let mut at = 0;
    while at < text.len() {
        let (units, len) = next_number(&text[at..]);
        sum = sum.wrapping_add(units);
        at += len + 1;
    }
    sum
}
