//! The text of a value.

ghost use Rattle.std.specs.Prelude.{◌≡◌, ◌+◌, ◌/◌, ◌%◌, ◌^◌, [], ◌∷◌, ◌++◌, true, false, IfOk, OnOk, string_bytes};
ghost use Rattle.std.specs.Prelude.{decimal};
ghost use Rattle.at_fixed.specs.Fixed.{last_digits, written};

use crate::powers::power_of_ten;
use at_text::Memory;
use std::alloc::{AllocError, Global};

/// A number without its last digits.
fn shifted(n: u64, places: u8) -> u64
    ensures { result ≡ n / 10 ^ places }
{
    if places < 20 {
        n / power_of_ten(places as u64)
    } else {
        0
    }
}

/// The digit of a number at a place from its end, as a byte.
fn digit_at(n: u64, place: u8) -> u8
    ensures { result ≡ 0x30 + (n / 10 ^ place) % 10 }
{
    b'0' + (shifted(n, place) % 10) as u8
}

/// A sign or none, a whole part and a point.
fn front_text(alloc: Global, is_negative: bool, whole: u64) -> Result<String, AllocError>
    ensures minus { is_negative ≡ true → IfOk result (λ text. string_bytes text ≡ 0x2D ∷ decimal whole ++ 0x2E ∷ []) }
    ensures plain { is_negative ≡ false → IfOk result (λ text. string_bytes text ≡ decimal whole ++ 0x2E ∷ []) }
{
    if is_negative {
        format!(in alloc; "-{whole}.")
    } else {
        format!(in alloc; "{whole}.")
    }
}

/// Appends the last digits of a number.
fn push_digits(text: &mut String, n: u64, digits: u8) -> Result<(), AllocError>
    ensures { OnOk result (string_bytes text.new ≡ string_bytes text.old ++ last_digits digits n) }
{
    let mut left = digits;
    while left > 0 {
        left -= 1;
        text.push(char::from(digit_at(n, left)))?;
    }
    Ok(())
}

/// The text of a value in units of 10^-digits: a minus where it is below 0, the whole part without leading
/// zeros, a point and exactly `digits` digits.
pub fn write_fixed(alloc: Global, value: i64, digits: u8) -> Result<String, Memory>
    ensures { IfOk result (λ text. string_bytes text ≡ written value digits) }
{
    let size = value.unsigned_abs();
    let mut text = front_text(alloc, value < 0, shifted(size, digits))?;
    push_digits(&mut text, size, digits)?;
    Ok(text)
}
