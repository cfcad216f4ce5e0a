//! The value in whole units of what was read of a number.

ghost use Rattle.std.specs.Prelude.{◌≡◌, ℕ, ◌+◌, ◌*◌, ◌/◌, ◌%◌, ◌^◌, ◌<◌, ◌≤◌, ◌==◌, ◌&&◌, ◌||◌, nat_lt, if◌then◌else◌};
ghost use Rattle.std.specs.Prelude.{pos, neg_ℤ, length, IfOk};
ghost use Rattle.at_fixed.specs.Numerals.{Numeral};
ghost use Rattle.at_fixed.specs.Fixed.{largest, quotient, size_of as the_size, fixed_of, mantissa, fraction_digits};
ghost use Rattle.at_fixed.specs.Fixed.{exponent_above, exponent_below};
ghost use Rattle.at_fixed.specs.Decimals.{IsDecimalOf};

use crate::powers::power_of_ten;
use crate::rounding::{Coords, FixedFault};
use crate::scanning::Decimal;

/// The largest size of a coordinate, in units.
const LARGEST: u64 = 300_000_000_000_000;

/// `kept * 10^shift`, where that is at most the largest size.
#[inline(always)]
fn enlarged(kept: u64, shift: u64) -> Result<u64, FixedFault>
    requires { 0 < kept }
    ensures value { result ≡ (if nat_lt largest (kept * 10 ^ shift) then Err FixedFault.Range
        else Ok (kept * 10 ^ shift)) }
    ensures bound { IfOk result (λ size. size ≤ largest) }
{
    if shift > 14 {
        return Err(FixedFault::Range);
    }
    let largest_kept = 3 * power_of_ten(14 - shift);
    if kept > largest_kept {
        Err(FixedFault::Range)
    } else {
        Ok(kept * power_of_ten(shift))
    }
}

/// A whole number of units, behind which `is_cut` says that there is more.
#[inline(always)]
fn exact(whole: u64, is_cut: bool) -> Result<u64, FixedFault>
    ensures value { result ≡ (if nat_lt largest whole || ((whole == largest) && is_cut) then Err FixedFault.Range
        else (if is_cut then Err FixedFault.Scale else Ok whole)) }
    ensures bound { IfOk result (λ size. size ≤ largest) }
{
    if whole > LARGEST || (whole == LARGEST && is_cut) {
        Err(FixedFault::Range)
    } else if is_cut {
        Err(FixedFault::Scale)
    } else {
        Ok(whole)
    }
}

/// Whether a whole number of units is rounded up: its rest is above the half, or it is the half and there is
/// more behind it or the number is odd.
#[inline(always)]
fn is_up(whole: u64, rest: u64, half: u64, is_cut: bool) -> bool
    requires { rest < 10 ^ 19 }
    ensures { result ≡ (nat_lt half rest || ((rest == half) && (is_cut || (whole % 2 == 1)))) }
{
    let tie_breaker = u64::from(is_cut || whole % 2 == 1);
    rest + tie_breaker > half
}

/// The whole number of units nearest to one with a rest, and the even one of two.
#[inline(always)]
fn rounded(whole: u64, rest: u64, half: u64, is_cut: bool) -> Result<u64, FixedFault>
    requires whole_fits { whole < 10 ^ 19 }
    requires rest_fits { rest < 10 ^ 19 }
    ensures value { let near = if nat_lt half rest || ((rest == half) && (is_cut || (whole % 2 == 1))) then whole + 1
        else whole in
        result ≡ (if nat_lt largest near then Err FixedFault.Range else Ok near) }
    ensures bound { IfOk result (λ size. size ≤ largest) }
{
    let nearest = if is_up(whole, rest, half, is_cut) {
        whole + 1
    } else {
        whole
    };
    if nearest > LARGEST {
        Err(FixedFault::Range)
    } else {
        Ok(nearest)
    }
}

/// What a number too small to be half a unit is.
#[inline(always)]
fn vanishing(how: Coords) -> Result<u64, FixedFault>
    ensures value { (p q : ℕ) → 0 < p → 2 * p < q → result ≡ quotient how p q }
    ensures bound { IfOk result (λ size. size ≤ largest) }
{
    match how {
        Coords::Exact => Err(FixedFault::Scale),
        Coords::Round => Ok(0),
    }
}

/// Whether something is left of a number behind its whole part.
#[inline(always)]
fn is_partial(rest: u64, is_cut: bool) -> bool
    ensures { result ≡ (is_cut || nat_lt 0 rest) }
{
    is_cut || rest > 0
}

/// A number over a power of ten as its whole part and its rest: each divisor is known where it is compiled.
#[inline(always)]
fn parted(kept: u64, shift: u64) -> (u64, u64)
    requires some { 0 < shift }
    requires few { shift < 20 }
    ensures whole { result.0 ≡ kept / 10 ^ shift }
    ensures rest { result.1 ≡ kept % 10 ^ shift }
{
    match shift {
        1 => (kept / 10, kept % 10),
        2 => (kept / 100, kept % 100),
        3 => (kept / 1_000, kept % 1_000),
        4 => (kept / 10_000, kept % 10_000),
        5 => (kept / 100_000, kept % 100_000),
        6 => (kept / 1_000_000, kept % 1_000_000),
        7 => (kept / 10_000_000, kept % 10_000_000),
        8 => (kept / 100_000_000, kept % 100_000_000),
        9 => (kept / 1_000_000_000, kept % 1_000_000_000),
        10 => (kept / 10_000_000_000, kept % 10_000_000_000),
        11 => (kept / 100_000_000_000, kept % 100_000_000_000),
        12 => (kept / 1_000_000_000_000, kept % 1_000_000_000_000),
        13 => (kept / 10_000_000_000_000, kept % 10_000_000_000_000),
        14 => (kept / 100_000_000_000_000, kept % 100_000_000_000_000),
        15 => (kept / 1_000_000_000_000_000, kept % 1_000_000_000_000_000),
        16 => (kept / 10_000_000_000_000_000, kept % 10_000_000_000_000_000),
        17 => (
            kept / 100_000_000_000_000_000,
            kept % 100_000_000_000_000_000,
        ),
        18 => (
            kept / 1_000_000_000_000_000_000,
            kept % 1_000_000_000_000_000_000,
        ),
        _ => (
            kept / 10_000_000_000_000_000_000,
            kept % 10_000_000_000_000_000_000,
        ),
    }
}

/// `kept / 10^shift` as a whole number of units, where `is_cut` says that further digits follow those of `kept`.
#[inline(always)]
fn reduced(kept: u64, is_cut: bool, shift: u64, how: Coords) -> Result<u64, FixedFault>
    requires fits { kept < 10 ^ 19 }
    requires some { 0 < shift }
    ensures near { shift < 20 → (unit rest : ℕ) → rest < unit → is_cut ≡ nat_lt 0 rest
        → result ≡ quotient how (kept * unit + rest) (10 ^ shift * unit) }
    ensures far { 20 ≤ shift → (p q : ℕ) → 0 < p → 2 * p < q → result ≡ quotient how p q }
    ensures bound { IfOk result (λ size. size ≤ largest) }
{
    if shift >= 20 {
        return vanishing(how);
    }
    let (whole, rest) = parted(kept, shift);
    match how {
        Coords::Exact => exact(whole, is_partial(rest, is_cut)),
        Coords::Round => rounded(whole, rest, power_of_ten(shift) / 2, is_cut),
    }
}

/// The size of a number in units of 10^-digits.
#[inline(always)]
fn size_of(decimal: Decimal, digits: u8, how: Coords) -> Result<u64, FixedFault>
    requires fits { decimal.kept < 10 ^ 19 }
    requires small { decimal.up < 2 ^ 50 }
    ensures value { (n : Numeral) → IsDecimalOf decimal n → result ≡ the_size how (mantissa n)
        (digits + exponent_above n.exponent) (length (fraction_digits n) + exponent_below n.exponent) }
    ensures bound { IfOk result (λ size. size ≤ largest) }
{
    let up = decimal.up + digits as u64;
    if decimal.kept == 0 {
        Ok(0)
    } else if decimal.down <= up {
        enlarged(decimal.kept, up - decimal.down)
    } else {
        reduced(decimal.kept, decimal.is_cut, decimal.down - up, how)
    }
}

/// A size with its sign.
#[inline(always)]
pub fn with_sign(size: u64, is_minus: bool) -> i64
    requires { size ≤ largest }
    ensures { result ≡ (if is_minus then neg_ℤ (pos size) else pos size) }
{
    let value = size as i64;
    if is_minus { -value } else { value }
}

/// The value of a number in units of 10^-digits.
#[inline(always)]
pub fn value_of(decimal: Decimal, digits: u8, how: Coords) -> Result<i64, FixedFault>
    requires fits { decimal.kept < 10 ^ 19 }
    requires small { decimal.up < 2 ^ 50 }
    ensures { (n : Numeral) → IsDecimalOf decimal n → result ≡ fixed_of n digits how }
{
    match size_of(decimal, digits, how) {
        Ok(size) => Ok(with_sign(size, decimal.is_minus)),
        Err(fault) => Err(fault),
    }
}
