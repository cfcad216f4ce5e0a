//! Numbers that are hard to read, with their values in units of 10^-7, exact and rounded. The values are of
//! exact fractions in Python's integers: the digits and the exponent give a fraction, which is compared with
//! the largest size and rounded half to even.

use at_fixed::FixedFault;

/// A value, or why there is none.
pub type Answer = Result<i64, FixedFault>;

/// A text, its exact value and its rounded value.
pub type Case = (&'static [u8], Answer, Answer);

/// The same of a text with a byte that is repeated between its front and its back.
pub type LongCase = (&'static [u8], u8, u32, &'static [u8], Answer, Answer);

const SCALE: Answer = Err(FixedFault::Scale);

const RANGE: Answer = Err(FixedFault::Range);

/// Ties, near ties, the largest size and the ends of 64 bits.
pub const SMALL_CASES: [Case; 26] = [
    (b"0.00000005", SCALE, Ok(0)),
    (b"0.00000015", SCALE, Ok(2)),
    (b"0.00000025", SCALE, Ok(2)),
    (b"-0.00000005", SCALE, Ok(0)),
    (b"-0.00000015", SCALE, Ok(-2)),
    (
        b"0.0000000500000000000000000000000000000000000000001",
        SCALE,
        Ok(1),
    ),
    (
        b"0.0000000499999999999999999999999999999999999999999",
        SCALE,
        Ok(0),
    ),
    (b"9.987654321012345", SCALE, Ok(99876543)),
    (b"50.733333333333334", SCALE, Ok(507333333)),
    (b"29999999.99999995", SCALE, Ok(300000000000000)),
    (b"29999999.99999994999", SCALE, Ok(299999999999999)),
    (b"30000000.000000050000000000001", RANGE, RANGE),
    (b"-30000000.00000005", RANGE, Ok(-300000000000000)),
    (b"-30000000.0000001", RANGE, RANGE),
    (b"3E+7", Ok(300000000000000), Ok(300000000000000)),
    (b"300e5", Ok(300000000000000), Ok(300000000000000)),
    (
        b"0.00000000000000003e24",
        Ok(300000000000000),
        Ok(300000000000000),
    ),
    (b"5e-8", SCALE, Ok(0)),
    (b"-5e-8", SCALE, Ok(0)),
    (b"1e-8", SCALE, Ok(0)),
    (b"18446744073709551615e-13", SCALE, Ok(18446744073710)),
    (b"18446744073709551616e-13", SCALE, Ok(18446744073710)),
    (b"999999999999999999e-11", SCALE, Ok(100000000000000)),
    (
        b"1000000000000000000e-11",
        Ok(100000000000000),
        Ok(100000000000000),
    ),
    (b"1000000000000000001e-11", SCALE, Ok(100000000000000)),
    (
        b"10000000000000000000e-12",
        Ok(100000000000000),
        Ok(100000000000000),
    ),
];

/// Digits beyond 64 bits, signs and spellings.
pub const OTHER_CASES: [Case; 26] = [
    (b"99999999999999999999e-12", RANGE, RANGE),
    (b"3.0000000000000000000000001e7", RANGE, Ok(300000000000000)),
    (b"1e14", RANGE, RANGE),
    (b"1e15", RANGE, RANGE),
    (b"9999999999999999999e-27", SCALE, Ok(0)),
    (b"99999999999999999999e-27", SCALE, Ok(1)),
    (b"5000000000000000000e-26", SCALE, Ok(0)),
    (b"5000000000000000001e-26", SCALE, Ok(1)),
    (b"50000000000000000000e-27", SCALE, Ok(0)),
    (b"50000000000000000001e-27", SCALE, Ok(1)),
    (b"49999999999999999999e-27", SCALE, Ok(0)),
    (b"15000000000000000000e-27", SCALE, Ok(0)),
    (b"15000000000000000000e-26", SCALE, Ok(2)),
    (b"1e-19", SCALE, Ok(0)),
    (b"-0.0", Ok(0), Ok(0)),
    (b"-0e5", Ok(0), Ok(0)),
    (b"+0", Ok(0), Ok(0)),
    (b"+1.5", Ok(15000000), Ok(15000000)),
    (b"5.", Ok(50000000), Ok(50000000)),
    (b".5", Ok(5000000), Ok(5000000)),
    (b"+.5e-0", Ok(5000000), Ok(5000000)),
    (b"5.e3", Ok(50000000000), Ok(50000000000)),
    (b"00012.500", Ok(125000000), Ok(125000000)),
    (b"-179.99999995", SCALE, Ok(-1800000000)),
    (b"179.99999985", SCALE, Ok(1799999998)),
    (b"123456789012345678901234567890e-30", SCALE, Ok(1234568)),
];

/// A million digits, and exponents of ten thousand digits.
pub const LONG_CASES: [LongCase; 16] = [
    (
        b"1",
        b'0',
        1000000,
        b"e-1000000",
        Ok(10000000),
        Ok(10000000),
    ),
    (
        b"0.",
        b'0',
        1000000,
        b"1e1000001",
        Ok(10000000),
        Ok(10000000),
    ),
    (b"", b'0', 1000000, b"7", Ok(70000000), Ok(70000000)),
    (b"1", b'0', 1000000, b"", RANGE, RANGE),
    (b"0.", b'0', 1000000, b"", Ok(0), Ok(0)),
    (b"-0.", b'3', 1000000, b"", SCALE, Ok(-3333333)),
    (b"0.00000005", b'0', 1000000, b"1", SCALE, Ok(1)),
    (b"0.00000005", b'0', 1000000, b"", SCALE, Ok(0)),
    (b"0.00000015", b'0', 1000000, b"", SCALE, Ok(2)),
    (b"0.00000004", b'9', 1000000, b"", SCALE, Ok(0)),
    (b"1e", b'9', 10000, b"", RANGE, RANGE),
    (b"0e", b'9', 10000, b"", Ok(0), Ok(0)),
    (b"-1e-", b'9', 10000, b"", SCALE, Ok(0)),
    (b"1e", b'0', 10000, b"1", Ok(100000000), Ok(100000000)),
    (b"5e-", b'0', 10000, b"8", SCALE, Ok(0)),
    (b"15e-", b'0', 10000, b"8", SCALE, Ok(2)),
];
