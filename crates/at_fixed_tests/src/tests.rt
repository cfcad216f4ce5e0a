//! Tables for the ends, the values and the texts of numbers.

mod cases;

use at_fixed::{
    Coords, FixedFault, Notation, json_number, leading_number, plain_len, plain_number, read_fixed,
    wkt_number, write_fixed,
};
use at_text::Memory;
use cases::{Answer, Case, LONG_CASES, LongCase, OTHER_CASES, SMALL_CASES};
use std::alloc::{AllocError, Global};
use std::process::Abort;
use std::test::Fail;

const SCALE: Answer = Err(FixedFault::Scale);

const RANGE: Answer = Err(FixedFault::Range);

/// The value of a text that is a number of Well-Known Text, else None.
fn value_of(text: &[u8], digits: u8, how: Coords) -> Option<Answer> {
    if text.len() > 1 << 28 {
        return None;
    }
    let taken = wkt_number(text);
    let len = taken.len as usize;
    if taken.whole && len == text.len() {
        Some(read_fixed(&text[..len], digits, how))
    } else {
        None
    }
}

/// The same by one call.
fn leading_value(text: &[u8], digits: u8, how: Coords) -> Option<Answer> {
    if text.len() > 1 << 28 {
        return None;
    }
    leading_number(text, Notation::Wkt, digits, how).value
}

/// A text, the length of its longest viable prefix, and whether that is a number.
type Prefix = (&'static [u8], u32, bool);

/// The longest viable prefixes of JSON's numbers.
const JSON_PREFIXES: [Prefix; 14] = [
    (b"01", 1, true),
    (b"-", 1, false),
    (b"1.", 2, false),
    (b"1.e5", 2, false),
    (b"1e+", 3, false),
    (b"1.5e3", 5, true),
    (b"+1", 0, false),
    (b"", 0, false),
    (b".5", 0, false),
    (b"-01", 2, true),
    (b"0.0e-00]", 7, true),
    (b"10,20", 2, true),
    (b"1e5e", 3, true),
    (b"--1", 1, false),
];

/// The longest viable prefixes of the numbers of Well-Known Text.
const WKT_PREFIXES: [Prefix; 12] = [
    (b"5.", 2, true),
    (b".5", 2, true),
    (b".", 1, false),
    (b"1e)", 2, false),
    (b"1-2", 1, true),
    (b"+", 1, false),
    (b"-.e", 2, false),
    (b"007.", 4, true),
    (b"5.e", 3, false),
    (b"5.e-3 ", 5, true),
    (b"1.2.3", 3, true),
    (b"+-1", 1, false),
];

/// Whether the longest viable prefix of a text is as told.
fn is_prefix(text: &[u8], notation: Notation, len: u32, whole: bool) -> bool {
    if text.len() > 1 << 28 {
        return false;
    }
    let taken = match notation {
        Notation::Json => json_number(text),
        Notation::Wkt => wkt_number(text),
    };
    taken.len == len && taken.whole == whole
}

fn check_prefixes(rt: &impl Abort, notation: Notation, rows: &[Prefix]) {
    for (text, len, whole) in rows {
        let found = is_prefix(text, notation, *len, *whole);
        assert!(rt; found, "{text:?}");
    }
}

#[test]
fn json_prefixes(rt: HostRuntime) {
    check_prefixes(&rt, Notation::Json, &JSON_PREFIXES);
}

#[test]
fn wkt_prefixes(rt: HostRuntime) {
    check_prefixes(&rt, Notation::Wkt, &WKT_PREFIXES);
}

/// Whether a text has this value, by two calls and by one.
fn has_value(text: &[u8], digits: u8, how: Coords, expected: Answer) -> bool {
    value_of(text, digits, how) == Some(expected)
        && leading_value(text, digits, how) == Some(expected)
}

fn check_cases(rt: &impl Abort, digits: u8, cases: &[Case]) {
    for (text, exact, rounded) in cases {
        let is_exact = has_value(text, digits, Coords::Exact, *exact);
        assert!(rt; is_exact, "exactly {text:?}");
        let is_rounded = has_value(text, digits, Coords::Round, *rounded);
        assert!(rt; is_rounded, "rounded {text:?}");
    }
}

/// Values with seven digits.
const CASES: [Case; 12] = [
    (b"1.5", Ok(15000000), Ok(15000000)),
    (b"-0", Ok(0), Ok(0)),
    (b"1e-7", Ok(1), Ok(1)),
    (b"15e-8", SCALE, Ok(2)),
    (b"25e-8", SCALE, Ok(2)),
    (b"-25e-8", SCALE, Ok(-2)),
    (b"1e-99", SCALE, Ok(0)),
    (b"0e999999999999", Ok(0), Ok(0)),
    (b"3e7", Ok(300000000000000), Ok(300000000000000)),
    (b"30000000.00000005", RANGE, Ok(300000000000000)),
    (b"30000000.00000015", RANGE, RANGE),
    (b"1e99", RANGE, RANGE),
];

#[test]
fn values(rt: HostRuntime) {
    check_cases(&rt, 7, &CASES);
    check_cases(&rt, 7, &SMALL_CASES);
    check_cases(&rt, 7, &OTHER_CASES);
}

/// A number with further bytes behind it: a length and a value, and whether the number is plain.
type Leading = (&'static [u8], Notation, u32, Answer, bool);

const LEADING: [Leading; 16] = [
    (
        b"-180.1234567 -90.5000000",
        Notation::Wkt,
        12,
        Ok(-1801234567),
        true,
    ),
    (b"+1.5,4.5,5.5,6.5", Notation::Wkt, 4, Ok(15000000), true),
    (
        b"98.7654321098765 12.3456789",
        Notation::Wkt,
        16,
        Ok(987654321),
        true,
    ),
    (b"0.00000005 00000000", Notation::Wkt, 10, Ok(0), true),
    (b"0.00000015 00000000", Notation::Wkt, 10, Ok(2), true),
    (
        b"-0.000000149999999 0000000",
        Notation::Wkt,
        18,
        Ok(-1),
        true,
    ),
    (
        b"1234567.1234567,0",
        Notation::Wkt,
        15,
        Ok(12345671234567),
        true,
    ),
    (
        b"9999999.5 0000000",
        Notation::Wkt,
        9,
        Ok(99999995000000),
        true,
    ),
    (b"1.5e1,0000000000", Notation::Wkt, 5, Ok(150000000), false),
    (
        b"1.e5 00000000000",
        Notation::Wkt,
        4,
        Ok(1000000000000),
        false,
    ),
    (b"007.25 000000000", Notation::Wkt, 6, Ok(72500000), true),
    (
        b"1.1234567890123456789 00000000",
        Notation::Wkt,
        21,
        Ok(11234568),
        false,
    ),
    (b"30000000.5 000000", Notation::Wkt, 10, RANGE, false),
    (b"01.5,0000000000", Notation::Json, 1, Ok(0), false),
    (b"0.5,00000000000", Notation::Json, 3, Ok(5000000), true),
    (
        b"-10.25]0000000000",
        Notation::Json,
        6,
        Ok(-102500000),
        true,
    ),
];

/// Whether the number that begins a text has this length and value.
fn leads(text: &[u8], notation: Notation, len: u32, value: Answer) -> bool {
    if text.len() > 1 << 28 {
        return false;
    }
    let number = leading_number(text, notation, 7, Coords::Round);
    number.len == len && number.value == Some(value)
}

/// Whether the number that begins a text is plain where it is told so, with this length and value.
fn is_plain_as_told(
    text: &[u8],
    notation: Notation,
    len: u32,
    value: Answer,
    is_plain: bool,
) -> bool {
    if text.len() > 1 << 28 {
        return false;
    }
    match plain_number(text, notation, 7, Coords::Round) {
        Some(plain) => is_plain && plain.len == len && Ok(plain.value) == value,
        None => !is_plain,
    }
}

fn check_leading(rt: &impl Abort, rows: &[Leading]) {
    for (text, notation, len, value, is_plain) in rows {
        let found = leads(text, *notation, *len, *value);
        assert!(rt; found, "{text:?}");
        let plain = is_plain_as_told(text, *notation, *len, *value, *is_plain);
        assert!(rt; plain, "plain {text:?}");
    }
}

/// Numbers with further bytes behind them, in each notation.
#[test]
fn numbers_before_bytes(rt: HostRuntime) {
    check_leading(&rt, &LEADING);
}

/// Numbers with more decimals than are kept, and enough bytes behind them to be looked at together.
const ROUNDED: [Leading; 20] = [
    (
        b"0.12345671,and twenty-four more bytes",
        Notation::Json,
        10,
        Ok(1234567),
        true,
    ),
    (
        b"0.12345678,and twenty-four more bytes",
        Notation::Json,
        10,
        Ok(1234568),
        true,
    ),
    (
        b"0.00000005,and twenty-four more bytes",
        Notation::Json,
        10,
        Ok(0),
        true,
    ),
    (
        b"0.00000015,and twenty-four more bytes",
        Notation::Json,
        10,
        Ok(2),
        true,
    ),
    (
        b"1.12345665000 and twenty-four more bytes",
        Notation::Wkt,
        13,
        Ok(11234566),
        true,
    ),
    (
        b"1.12345675000 and twenty-four more bytes",
        Notation::Wkt,
        13,
        Ok(11234568),
        true,
    ),
    (
        b"-1.12345665001 and twenty-four more bytes",
        Notation::Wkt,
        14,
        Ok(-11234567),
        true,
    ),
    (
        b"0.99999996,and twenty-four more bytes",
        Notation::Json,
        10,
        Ok(10000000),
        true,
    ),
    (
        b"-9.99999995001 and twenty-four more bytes",
        Notation::Wkt,
        14,
        Ok(-100000000),
        true,
    ),
    (
        b"-151.7251797613,and twenty-four more bytes",
        Notation::Json,
        15,
        Ok(-1517251798),
        true,
    ),
    (
        b"1234567.99999999,and twenty-four more bytes",
        Notation::Json,
        16,
        Ok(12345680000000),
        true,
    ),
    (
        b"12345678.12345678 and twenty-four more bytes",
        Notation::Wkt,
        17,
        Ok(123456781234568),
        true,
    ),
    (
        b"160.18699291234567 and twenty-four more bytes",
        Notation::Wkt,
        18,
        Ok(1601869929),
        true,
    ),
    (
        b"-125.29242860538805,and twenty-four more bytes",
        Notation::Json,
        19,
        Ok(-1252924286),
        true,
    ),
    (
        b"-70.96300405374321,and twenty-four more bytes",
        Notation::Json,
        18,
        Ok(-709630041),
        true,
    ),
    (
        b"10.1234567500000000 and twenty-four more bytes",
        Notation::Wkt,
        19,
        Ok(101234568),
        true,
    ),
    (
        b"10.1234566500000000 and twenty-four more bytes",
        Notation::Wkt,
        19,
        Ok(101234566),
        true,
    ),
    (
        b"99.99999996999999 and twenty-four more bytes",
        Notation::Wkt,
        17,
        Ok(1000000000),
        true,
    ),
    (
        b"0.12345678e1,and twenty-four more bytes",
        Notation::Json,
        12,
        Ok(12345678),
        false,
    ),
    (
        b"160.18699291234567E1 and twenty-four more bytes",
        Notation::Wkt,
        20,
        Ok(16018699291),
        false,
    ),
];

/// Numbers rounded by the first digit that isn't kept, or by those behind it.
#[test]
fn rounded_numbers_before_bytes(rt: HostRuntime) {
    check_leading(&rt, &ROUNDED);
}

/// A text of at least 32 bytes, how it is read, and the length of the plain number that begins it.
type PlainText = (&'static [u8], Notation, u8, Coords, Option<u32>);

const PLAIN_TEXTS: [PlainText; 10] = [
    (LONG, Notation::Wkt, 7, Coords::Round, Some(16)),
    (LONG, Notation::Wkt, 7, Coords::Exact, None),
    (SIGNED, Notation::Wkt, 7, Coords::Exact, Some(12)),
    (SIGNED, Notation::Wkt, 11, Coords::Round, None),
    (WHOLE, Notation::Wkt, 7, Coords::Exact, Some(7)),
    (WHOLE, Notation::Json, 7, Coords::Exact, None),
    (POWER, Notation::Wkt, 7, Coords::Exact, None),
    (ZEROS, Notation::Wkt, 7, Coords::Exact, Some(5)),
    (ZEROS, Notation::Json, 7, Coords::Exact, None),
    (ENDLESS, Notation::Wkt, 7, Coords::Round, None),
];

const LONG: &[u8] = b"98.7654321098765 12.3456789 12.5";

const SIGNED: &[u8] = b"-180.1234567 -90.5) and more bytes";

const WHOLE: &[u8] = b"+922337,and twenty-four more bytes";

const POWER: &[u8] = b"1.5e3,2.5,and twenty more bytes or so";

const ZEROS: &[u8] = b"007.5,and some twenty-six more bytes";

const ENDLESS: &[u8] = b"1.23456789012345678901234567890123";

/// Whether the plain number that begins a text has this length.
fn is_length(text: &[u8], notation: Notation, digits: u8, how: Coords, len: Option<u32>) -> bool {
    text.len() <= 1 << 28 && plain_len(text, notation, digits, how) == len
}

fn check_lengths(rt: &impl Abort, rows: &[PlainText]) {
    for row in 0..rows.len() {
        let (text, notation, digits, how, len) = rows[row];
        assert!(rt; is_length(text, notation, digits, how, len), "row {row}");
    }
}

/// Lengths of numbers whose values aren't computed.
#[test]
fn lengths_of_plain_numbers(rt: HostRuntime) {
    check_lengths(&rt, &PLAIN_TEXTS);
}

/// Values with nine digits.
const NINE_DIGITS: [Case; 6] = [
    (b"1.000000001", Ok(1000000001), Ok(1000000001)),
    (b"300000", Ok(300000000000000), Ok(300000000000000)),
    (b"300000.000000001", RANGE, RANGE),
    (b"0.0000000005", SCALE, Ok(0)),
    (b"-9.987654321012345", SCALE, Ok(-9987654321)),
    (b"1e-9", Ok(1), Ok(1)),
];

#[test]
fn values_with_nine_digits(rt: HostRuntime) {
    check_cases(&rt, 9, &NINE_DIGITS);
}

fn long_text(
    alloc: Global,
    front: &[u8],
    byte: u8,
    count: u32,
    back: &[u8],
) -> Result<Vec<u8>, AllocError> {
    let mut text = Vec::from_slice(alloc, front)?;
    for _ in 0..count {
        text.push(byte)?;
    }
    text.extend_from_slice(back)?;
    Ok(text)
}

/// The number of the first case whose values aren't as it says.
fn first_wrong_long(alloc: Global, cases: &[LongCase]) -> Result<Option<usize>, AllocError> {
    for row in 0..cases.len() {
        let (front, byte, count, back, exact, rounded) = cases[row];
        let text = long_text(alloc, front, byte, count, back)?;
        if value_of(text.as_slice(), 7, Coords::Exact) != Some(exact)
            || leading_value(text.as_slice(), 7, Coords::Round) != Some(rounded)
        {
            return Ok(Some(row));
        }
    }
    Ok(None)
}

/// Values of very long texts.
#[test]
fn values_of_long_texts(rt: HostRuntime) -> Result<(), Fail> {
    if let Some(row) = first_wrong_long(rt.alloc(), &LONG_CASES)? {
        panic!(rt; "row {row}");
    }
    Ok(())
}

/// A value, its digits and its text.
type Written = (i64, u8, &'static str);

const WRITTEN: [Written; 9] = [
    (-5000000, 7, "-0.5000000"),
    (0, 7, "0.0000000"),
    (300000000000000, 7, "30000000.0000000"),
    (-1, 7, "-0.0000001"),
    (1000000001, 9, "1.000000001"),
    (5, 0, "5."),
    (i64::MIN, 7, "-922337203685.4775808"),
    (i64::MAX, 19, "0.9223372036854775807"),
    (i64::MAX, 20, "0.09223372036854775807"),
];

/// Whether this is the text of a value.
fn is_written(alloc: Global, value: i64, digits: u8, text: &str) -> Result<bool, Memory> {
    let written = write_fixed(alloc, value, digits)?;
    Ok(is_text(written.as_str(), text))
}

fn is_text(written: &str, text: &str) -> bool {
    written == text
}

/// The number of the first row whose text is another one.
fn first_wrong_text(alloc: Global, rows: &[Written]) -> Result<Option<usize>, Memory> {
    for row in 0..rows.len() {
        let (value, digits, text) = rows[row];
        if !is_written(alloc, value, digits, text)? {
            return Ok(Some(row));
        }
    }
    Ok(None)
}

/// Texts of values.
#[test]
fn texts(rt: HostRuntime) -> Result<(), Fail> {
    if let Some(row) = first_wrong_text(rt.alloc(), &WRITTEN)? {
        panic!(rt; "row {row}");
    }
    Ok(())
}

/// What the page of `at_fixed` shows.
#[test]
fn the_example_of_the_crate(rt: HostRuntime) -> Result<(), Fail> {
    let alloc = rt.alloc();
    let nearest = leading_number(b"7.25,1", Notation::Json, 1, Coords::Round);
    assert!(rt; nearest.len == 4 && nearest.value == Some(Ok(72)));
    let exact = leading_number(b"7.25,1", Notation::Json, 1, Coords::Exact);
    assert!(rt; exact.value == Some(Err(FixedFault::Scale)));
    let text = write_fixed(alloc, 72, 1)?;
    assert!(rt; text.as_str() == "7.2");
    Ok(())
}
