//! Tables for the faults, the encoding and the classes of bytes.

use at_text::{
    Bytes, Fault, FaultKind, Halt, Taken, Word, base_of, first_fault, is_digit, is_run, is_space,
    stop_at, utf8_fault,
};
use std::process::Abort;
use std::test::Fail;

fn fault(kind: FaultKind, at: u32) -> Option<Fault> {
    Some(Fault { kind, at })
}

/// Whether the first of these two faults is found whichever way round they are given, and beside no other.
fn comes_first(first: Option<Fault>, other: Option<Fault>) -> bool {
    first_fault(first, other) == first
        && first_fault(other, first) == first
        && first_fault(None, first) == first
        && first_fault(first, None) == first
}

/// Two faults, of which the first comes first.
type Pair = (FaultKind, u32, FaultKind, u32);

const PAIRS: [Pair; 8] = [
    (FaultKind::Syntax, 50, FaultKind::Scale, 3),
    (FaultKind::Twin, 7, FaultKind::Form, 0),
    (FaultKind::Ring, 9, FaultKind::Scale, 10),
    (FaultKind::Short, 9, FaultKind::Ring, 9),
    (FaultKind::NotUtf8, 9, FaultKind::Syntax, 0),
    (FaultKind::Ended, 3, FaultKind::Syntax, 4),
    (FaultKind::Syntax, 4, FaultKind::Ended, 4),
    (FaultKind::Scale, 4, FaultKind::Range, 4),
];

fn check_pairs(rt: &impl Abort, pairs: &[Pair]) {
    for (kind, at, other_kind, other_at) in pairs {
        let found = comes_first(fault(*kind, *at), fault(*other_kind, *other_at));
        assert!(rt; found, "kind {} at {at}", kind.number());
    }
}

/// The first fault is found, whichever way round they are given.
#[test]
fn the_first_of_two_faults(rt: HostRuntime) {
    check_pairs(&rt, &PAIRS);
    assert!(rt; first_fault(None, None).is_none(), "no fault");
}

/// Where the encoding breaks, and where the text begins.
#[test]
fn encodings(rt: HostRuntime) {
    let rows: [(&[u8], Option<u32>, u32); 8] = [
        (b"", None, 0),
        (b"{}x       \xFF", Some(10), 0),
        (b"\xEF\xBB\xBF{}x       \xFF", Some(13), 3),
        (b"\xEF\xBB\xBF", None, 3),
        (b"\xEF\xBB", Some(0), 0),
        (b"a\xF0\x9F\x98\x80", None, 0),
        (b"a\xF0\x9F\x98", Some(1), 0),
        (b"\xED\xA0\x80", Some(0), 0),
    ];
    for (bytes, at, base) in rows {
        let expected = match at {
            Some(at) => fault(FaultKind::NotUtf8, at),
            None => None,
        };
        assert!(rt; utf8_fault(bytes) == expected, "the encoding of {bytes:?}");
        assert!(rt; base_of(bytes) == base, "the base of {bytes:?}");
    }
}

/// Whether the byte is one of the members.
fn is_of(byte: u8, members: &[u8]) -> bool {
    for member in members {
        if *member == byte {
            return true;
        }
    }
    false
}

/// The members of each class, written out.
#[test]
fn classes_of_bytes(rt: HostRuntime) {
    for b in 0..=255u8 {
        assert!(rt; is_space(b) == is_of(b, b" \t\n\r"), "white space {b}");
        assert!(rt; is_digit(b) == is_of(b, b"0123456789"), "a digit {b}");
        assert!(rt; is_run(b) != is_of(b, b" \t\n\r{}[],:\""), "a run {b}");
    }
}

/// Whether the list gives back what it was made of.
fn keeps_bytes(bytes: Vec<u8>, expected: &[u8]) -> bool {
    let bytes = Bytes::from_vec(bytes);
    bytes.as_slice() == expected && bytes.into_vec().as_slice() == expected
}

fn keeps_text(text: String, expected: &str) -> bool {
    Word::from_string(text).as_str() == expected
}

/// The lists give back what they were made of, and a refusal of memory becomes `Memory`.
#[test]
fn lists_and_texts(rt: HostRuntime) -> Result<(), Fail> {
    assert!(rt; keeps_bytes(Vec::from_slice(rt.alloc(), b"ab")?, b"ab"));
    assert!(rt; keeps_text(String::from_str(rt.alloc(), "p.wkt")?, "p.wkt"));
    assert!(rt; FaultKind::Range.number() == 9);
    assert!(rt; FaultKind::Ended.tier() == 2);
    Ok(())
}

/// Where a word ends that was taken from a place on, and where reading stops if it is none.
#[test]
fn ends_of_words(rt: HostRuntime) {
    for (at, len, whole, end) in [
        (0, 0, true, Ok(0)),
        (3, 2, true, Ok(5)),
        (3, 2, false, Err(Halt::At(5))),
        (7, 0, false, Err(Halt::At(7))),
    ] {
        assert!(rt; Taken { len, whole }.end_from(at) == end, "{at} {len}");
    }
}

/// What the page of `at_text` shows.
#[test]
fn the_example_of_the_crate(rt: HostRuntime) {
    let bytes: &[u8] = b"{}x\xFF";
    let syntax = stop_at(bytes, 0, 2);
    let encoding = Fault {
        kind: FaultKind::NotUtf8,
        at: 3,
    };
    assert!(rt; utf8_fault(bytes) == Some(encoding));
    assert!(rt; first_fault(Some(syntax), Some(encoding)) == Some(encoding));
}
