//! Tables of texts, each cut at every place, under algebras that count.

ghost use Rattle.std.specs.Prelude.{◌≤◌, ◌<◌, ◌^◌, length};
ghost use Rattle.at_text.specs.Spans.{span_of};
ghost use Rattle.at_nest.specs.KeptItems.{IsAtomOf};
ghost use Rattle.at_nest.specs.FragmentMeanings.{StandsFor};

mod leaping;
mod slow;
mod tally;

use at_nest::{Algebra, Fragment, NestEnd, finish, finish_span, lost, merge, run_block};
use at_text::{Span, base_of};
use leaping::Leaping;
use slow::slow_nest;
use std::alloc::{AllocError, Global};
use std::process::Abort;
use std::test::Fail;
use tally::{Counted, Tally};

fn piece<A: Algebra>(alloc: Global, algebra: &A, bytes: &[u8], from: u32, to: u32) -> Fragment<A>
    requires fits { length bytes.now ≤ 2 ^ 28 }
    requires order { from ≤ to }
    requires end { to ≤ length bytes.now }
    ensures { StandsFor (IsAtomOf A.Algebra algebra.now) from (span_of bytes.now from to) result }
{
    run_block(alloc, algebra, &bytes[from as usize..to as usize], from)
}

/// The fragment of the span, from those of its two parts.
fn joined<A: Algebra>(
    alloc: Global,
    algebra: &A,
    bytes: &[u8],
    span: Span,
    at: u32,
    left: Fragment<A>,
    right: Fragment<A>,
) -> Fragment<A>
    requires fits { length bytes.now ≤ 2 ^ 28 }
    requires before { span.from ≤ at }
    requires order { at ≤ span.to }
    requires end { span.to ≤ length bytes.now }
    requires left { StandsFor (IsAtomOf A.Algebra algebra.now) span.from (span_of bytes.now span.from at) left }
    requires right { StandsFor (IsAtomOf A.Algebra algebra.now) at (span_of bytes.now at span.to) right }
    ensures { StandsFor (IsAtomOf A.Algebra algebra.now) span.from (span_of bytes.now span.from span.to) result }
{
    merge(alloc, algebra, bytes, left, right)
}

/// The fragment of the span, of which that up to `at` is read already.
fn with_piece<A: Algebra>(
    alloc: Global,
    algebra: &A,
    bytes: &[u8],
    span: Span,
    at: u32,
    whole: Fragment<A>,
) -> Fragment<A>
    requires fits { length bytes.now ≤ 2 ^ 28 }
    requires before { span.from ≤ at }
    requires order { at ≤ span.to }
    requires end { span.to ≤ length bytes.now }
    requires whole { StandsFor (IsAtomOf A.Algebra algebra.now) span.from (span_of bytes.now span.from at) whole }
    ensures { StandsFor (IsAtomOf A.Algebra algebra.now) span.from (span_of bytes.now span.from span.to) result }
{
    let next = piece(alloc, algebra, bytes, at, span.to);
    joined(alloc, algebra, bytes, span, at, whole, next)
}

/// The fragment of the span, cut at those of the places that lie in it, in their order.
fn cut_at<A: Algebra>(
    alloc: Global,
    algebra: &A,
    bytes: &[u8],
    span: Span,
    places: &[u32],
) -> Fragment<A>
    requires fits { length bytes.now ≤ 2 ^ 28 }
    requires order { span.from ≤ span.to }
    requires end { span.to ≤ length bytes.now }
    ensures { StandsFor (IsAtomOf A.Algebra algebra.now) span.from (span_of bytes.now span.from span.to) result }
{
    let mut at = span.from;
    let mut whole = piece(alloc, algebra, bytes, at, at);
    for place in places {
        if at <= *place && *place <= span.to {
            let front = Span {
                from: span.from,
                to: *place,
            };
            whole = with_piece(alloc, algebra, bytes, front, at, whole);
            at = *place;
        }
    }
    with_piece(alloc, algebra, bytes, span, at, whole)
}

/// The answer of a span that is cut at the places.
fn span_answer(
    alloc: Global,
    bytes: &[u8],
    from: u32,
    to: u32,
    places: &[u32],
) -> Result<u64, NestEnd>
    requires fits { length bytes.now ≤ 2 ^ 28 }
    requires order { from ≤ to }
    requires end { to ≤ length bytes.now }
{
    let span = Span { from, to };
    let whole = cut_at(alloc, &Tally, bytes, span, places);
    finish_span(alloc, &Tally, bytes, span, whole)
}

/// The answer of a file that is cut at the places.
fn answer(alloc: Global, bytes: &[u8], places: &[u32]) -> Result<u64, NestEnd>
    requires { length bytes.now ≤ 2 ^ 28 }
{
    let span = Span {
        from: base_of(bytes),
        to: bytes.len() as u32,
    };
    let whole = cut_at(alloc, &Tally, bytes, span, places);
    finish(alloc, &Tally, bytes, whole)
}

/// The same by an algebra that reads empty arrays at once, and in an array two of them.
fn leaping_answer(alloc: Global, bytes: &[u8], places: &[u32]) -> Result<u64, NestEnd>
    requires { length bytes.now ≤ 2 ^ 28 }
{
    let span = Span {
        from: base_of(bytes),
        to: bytes.len() as u32,
    };
    let whole = cut_at(alloc, &Leaping, bytes, span, places);
    finish(alloc, &Leaping, bytes, whole)
}

/// A text and its answer.
type Told = (&'static [u8], Result<u64, NestEnd>);

/// A text, where it is cut, and its answer.
type Row = (&'static [u8], &'static [u32], Result<u64, NestEnd>);

/// The answer of a text that is read in this way, with these places, is the expected one.
fn check<R: Abort>(
    rt: &R,
    how: &str,
    text: &[u8],
    places: &[u32],
    found: Result<u64, NestEnd>,
    expected: Result<u64, NestEnd>,
) {
    assert_eq!(rt; found, expected, "{text:?} {how} {places:?}");
}

fn compare_rows<R: Abort + AllocGlobal>(rt: &R, rows: &[Row]) {
    for (text, places, expected) in rows {
        assert!(rt; text.len() < 100);
        let found = answer(rt.alloc(), text, places);
        check(rt, "at", text, places, found, *expected);
    }
}

/// Texts with the number of their nodes, or why they have none.
#[test]
fn answers(rt: HostRuntime) {
    let rows: [Row; 16] = [
        (b"{\"a\":[1,2]}", &[], Ok(4)),
        (b"{1 tru", &[0, 1, 6], Err(NestEnd::Syntax(1))),
        (
            b"{\"type\":\"Feature\",\"properties\":{\"k\":\"a\\\"b}]{\"},\"geometry\":null}",
            &[0, 38, 39, 40, 63],
            Ok(5),
        ),
        (b"", &[], Err(NestEnd::Ended)),
        (b" \t\r\n", &[2], Err(NestEnd::Ended)),
        (b"\xEF\xBB\xBF[]", &[4], Ok(1)),
        (b"\xEF\xBB\xBF]", &[3], Err(NestEnd::Syntax(3))),
        (b" \xEF\xBB\xBF[]", &[1, 2, 3], Err(NestEnd::Syntax(1))),
        (b"tru", &[1], Err(NestEnd::Ended)),
        (b"nulx", &[3], Err(NestEnd::Syntax(3))),
        (b"-1.5e3", &[1, 2, 3, 4, 5], Ok(1)),
        (b"-1.5e", &[3], Err(NestEnd::Ended)),
        (b"[1 2]", &[2], Err(NestEnd::Syntax(3))),
        (b"{\"a\":1,}", &[4], Err(NestEnd::Syntax(7))),
        (b"\"a\\u00", &[3], Err(NestEnd::Ended)),
        (b"[1}", &[1], Err(NestEnd::Syntax(2))),
    ];
    compare_rows(&rt, rows.as_slice());
}

fn compare_cuts<R: Abort + AllocGlobal>(rt: &R, text: &[u8], expected: Result<u64, NestEnd>) {
    assert!(rt; text.len() < 100);
    let end = text.len() as u32;
    for first in 0..=end {
        for second in first..=end {
            let places = [first, second];
            let found = answer(rt.alloc(), text, &places);
            check(rt, "at", text, &places, found, expected);
        }
    }
}

fn cuts_of_rows<R: Abort + AllocGlobal>(rt: &R, rows: &[Told]) {
    for (text, expected) in rows {
        compare_cuts(rt, text, *expected);
    }
}

/// The answer of a text that is cut at the two places, of which the two pieces behind are joined first.
fn answer_from_right(alloc: Global, bytes: &[u8], first: u32, second: u32) -> Result<u64, NestEnd>
    requires fits { length bytes.now ≤ 2 ^ 28 }
    requires order { first ≤ second }
    requires end { second ≤ length bytes.now }
{
    let end = bytes.len() as u32;
    let left = piece(alloc, &Tally, bytes, 0, first);
    let middle = piece(alloc, &Tally, bytes, first, second);
    let right = piece(alloc, &Tally, bytes, second, end);
    let span = Span {
        from: first,
        to: end,
    };
    let behind = joined(alloc, &Tally, bytes, span, second, middle, right);
    let span = Span { from: 0, to: end };
    let whole = joined(alloc, &Tally, bytes, span, first, left, behind);
    finish_span(alloc, &Tally, bytes, span, whole)
}

fn compare_from_right<R: Abort + AllocGlobal>(rt: &R, text: &[u8], expected: Result<u64, NestEnd>) {
    assert!(rt; text.len() < 100);
    let end = text.len() as u32;
    for first in 0..=end {
        for second in first..=end {
            let found = answer_from_right(rt.alloc(), text, first, second);
            let places = [first, second];
            check(rt, "from the right at", text, &places, found, expected);
        }
    }
}

fn rights_of_rows<R: Abort + AllocGlobal>(rt: &R, rows: &[Told]) {
    for (text, expected) in rows {
        compare_from_right(rt, text, *expected);
    }
}

/// Strings that are cut in their escapes: a piece behind a backslash may begin with a quote or a backslash, or be
/// nothing else, whichever pieces are joined first.
#[test]
fn cut_escapes(rt: HostRuntime) {
    let rows: [Told; 12] = [
        (b"\"a\\\"b\"", Ok(1)),
        (b"\"a\\\\\"", Ok(1)),
        (b"\"\\\\\\\"\"", Ok(1)),
        (b"[\"\\\\\",\"\\\"]\"]", Ok(3)),
        (b"{\"\\\"\":1,\"\\\\\":[]}", Ok(3)),
        (b"\"a\\\"", Err(NestEnd::Ended)),
        (b"\"a\\", Err(NestEnd::Ended)),
        (b"\"\\\\\\\"", Err(NestEnd::Ended)),
        (b"\"a\\\\b\\c\"", Err(NestEnd::Syntax(6))),
        (b"[\"a\\\\\"\"b\"]", Err(NestEnd::Syntax(6))),
        (b"[1,\\\"\\\"]", Err(NestEnd::Syntax(3))),
        (b"\\\\\"", Err(NestEnd::Syntax(0))),
    ];
    cuts_of_rows(&rt, rows.as_slice());
    rights_of_rows(&rt, rows.as_slice());
    ends_of_rows(&rt, rows.as_slice());
}

/// Closing brackets one right behind another meet their openings wherever the text is cut and whichever pieces are
/// joined first; a bracket of the wrong kind among them is the fault.
#[test]
fn closing_rows(rt: HostRuntime) {
    let rows: [Told; 12] = [
        (b"{\"a\":[{\"a\":[1]}]}", Ok(5)),
        (b"[[{\"a\":[{\"a\":1}]}]]", Ok(6)),
        (b"{\"a\":{\"a\":[[1]]}}", Ok(5)),
        (b"{\"a\":[{\"a\":[1] }]}", Ok(5)),
        (b"{\"a\":[{\"a\":[1]}]", Err(NestEnd::Ended)),
        (b"{\"a\":[{\"a\":[1}]}", Err(NestEnd::Syntax(13))),
        (b"{\"a\":[{\"a\":[1]]}}", Err(NestEnd::Syntax(14))),
        (b"[{\"a\":[{\"a\":1}}]}]", Err(NestEnd::Syntax(14))),
        (b"{\"a\":{\"a\":[[1]}]}", Err(NestEnd::Syntax(14))),
        (b"{\"a\":{\"a\":[[1]]]}", Err(NestEnd::Syntax(15))),
        (b"{\"a\":[{\"a\":[1]}]]", Err(NestEnd::Syntax(16))),
        (b"{\"a\":[{\"a\":[1]}]}]}", Err(NestEnd::Syntax(17))),
    ];
    cuts_of_rows(&rt, rows.as_slice());
    rights_of_rows(&rt, rows.as_slice());
}

/// The answer of a text that is cut at the three places: the two parts before the second one are joined, and those
/// behind it, and then both.
fn answer_in_pairs(
    alloc: Global,
    bytes: &[u8],
    first: u32,
    second: u32,
    third: u32,
) -> Result<u64, NestEnd>
    requires fits { length bytes.now ≤ 2 ^ 28 }
    requires end { second ≤ length bytes.now }
{
    let end = bytes.len() as u32;
    let front = Span {
        from: 0,
        to: second,
    };
    let back = Span {
        from: second,
        to: end,
    };
    let left = cut_at(alloc, &Tally, bytes, front, &[first]);
    let right = cut_at(alloc, &Tally, bytes, back, &[third]);
    let span = Span { from: 0, to: end };
    let whole = joined(alloc, &Tally, bytes, span, second, left, right);
    finish_span(alloc, &Tally, bytes, span, whole)
}

fn compare_pairs<R: Abort + AllocGlobal>(rt: &R, text: &[u8], expected: Result<u64, NestEnd>) {
    assert!(rt; text.len() < 100);
    let end = text.len() as u32;
    for second in 0..=end {
        for first in 0..=second {
            for third in second..=end {
                let found = answer_in_pairs(rt.alloc(), text, first, second, third);
                let places = [first, second, third];
                check(rt, "in pairs at", text, &places, found, expected);
            }
        }
    }
}

fn pairs_of_rows<R: Abort + AllocGlobal>(rt: &R, rows: &[Told]) {
    for (text, expected) in rows {
        compare_pairs(rt, text, *expected);
    }
}

/// Levels that each of four parts leaves open are closed, and stop the text, as those of one part do.
#[test]
fn levels_of_four_parts(rt: HostRuntime) {
    let rows: [Told; 5] = [
        (b"[{\"\":[{\"\":[2]}]}]", Ok(6)),
        (b"[1,[2,[3,[4,[5]]]]]", Ok(10)),
        (b"[[[{\"\":[[{", Err(NestEnd::Ended)),
        (b"[[1[{\"\":[[", Err(NestEnd::Syntax(3))),
        (b"[1,[2,[3,[4]]]}", Err(NestEnd::Syntax(14))),
    ];
    pairs_of_rows(&rt, rows.as_slice());
}

fn compare_each<R: Abort + AllocGlobal>(rt: &R, texts: &[&'static [u8]]) {
    for text in texts {
        assert!(rt; text.len() < 100);
        let whole = answer(rt.alloc(), text, &[]);
        compare_cuts(rt, text, whole);
    }
}

/// Every cut and every pair of cuts of a text has the answer of one piece.
#[test]
fn every_cut(rt: HostRuntime) {
    let texts: [&'static [u8]; 26] = [
        b"{\"a\":[1,2]}",
        b"{1 tru",
        b"{\"type\":\"Feature\",\"properties\":{\"k\":\"a\\\"b}]{\"},\"geometry\":null}",
        b"",
        b"  ",
        b"\xEF\xBB\xBF{\"\":null}",
        b"[\"\\\\\",\"\\\"\",\"\\u00e9\\n\",\"\\\\\\\"]\"]",
        b"[-0.5e+10,1e5,12345678901,0]",
        b"[true,false,null,nul]",
        b" [ 1 , { } , [ ] ] ",
        b"[[[[[[[[1]]]]]]]]",
        b"{\"a\":{\"b\":{\"c\":{\"d\":[{}]}}}}",
        b"[[1,2],[3,4]}",
        b"{\"a\":[1,2}]",
        b"[1,,2]",
        b"[1 \"a\"]",
        b"{\"a\" 1}",
        b"{\"a\"::1}",
        b"{\"a\":1,\"b\"}",
        b"[1]2",
        b"1e5x",
        b"[\"a\nb\"]",
        b"[\"\\x\"]",
        b"{\"a\":\"b\",\"c\":\"d\"",
        b"[01]",
        b"\"a string, {not} [a] \\\"text\\\": \\\\",
    ];
    compare_each(&rt, texts.as_slice());
}

/// The fragment of the span, put together of that of its first byte and that of the others.
fn by_first_byte<A: Algebra>(alloc: Global, algebra: &A, bytes: &[u8], span: Span) -> Fragment<A>
    requires fits { length bytes.now ≤ 2 ^ 28 }
    requires order { span.from < span.to }
    requires end { span.to ≤ length bytes.now }
    ensures { StandsFor (IsAtomOf A.Algebra algebra.now) span.from (span_of bytes.now span.from span.to) result }
{
    let at = span.from + 1;
    let left = piece(alloc, algebra, bytes, span.from, at);
    let right = piece(alloc, algebra, bytes, at, span.to);
    joined(alloc, algebra, bytes, span, at, left, right)
}

/// The answer of a text that is put together from its end on. Where the span begins with a quote, its other bytes are
/// read again, since they stand in a string both behind the quote and behind an escaped one.
fn answer_from_end(alloc: Global, bytes: &[u8], span: Span) -> Result<u64, NestEnd>
    requires fits { length bytes.now ≤ 2 ^ 28 }
    requires order { span.from < span.to }
    requires end { span.to ≤ length bytes.now }
{
    let end = bytes.len() as u32;
    let behind = Span {
        from: span.from,
        to: end,
    };
    let middle = by_first_byte(alloc, &Tally, bytes, span);
    let last = piece(alloc, &Tally, bytes, span.to, end);
    let last = joined(alloc, &Tally, bytes, behind, span.to, middle, last);
    let first = piece(alloc, &Tally, bytes, 0, span.from);
    let whole = Span { from: 0, to: end };
    let fragment = joined(alloc, &Tally, bytes, whole, span.from, first, last);
    finish_span(alloc, &Tally, bytes, whole, fragment)
}

fn compare_from_ends<R: Abort + AllocGlobal>(rt: &R, text: &[u8], expected: Result<u64, NestEnd>) {
    assert!(rt; text.len() < 100);
    let end = text.len() as u32;
    for to in 1..=end {
        for from in 0..to {
            let found = answer_from_end(rt.alloc(), text, Span { from, to });
            check(rt, "from its end, by", text, &[from, to], found, expected);
        }
    }
}

fn ends_of_rows<R: Abort + AllocGlobal>(rt: &R, rows: &[Told]) {
    for (text, expected) in rows {
        compare_from_ends(rt, text, *expected);
    }
}

/// Objects that are cut, and put together from the end on, where they are open: behind the bracket, a name, a colon, a member and a comma,
/// each with what may stand there and with what may not.
#[test]
fn open_objects(rt: HostRuntime) {
    let rows: [Told; 14] = [
        (b"{\"a\":{\"b\":{\"c\":1}}}", Ok(4)),
        (b"{\"a\":{\"a name\":{\"a longer name\":[]}}}", Ok(4)),
        (b"[{\"a\":1,\"b\":{\"c\":[{}],\"d\":2}}]", Ok(7)),
        (b"{\"a\":[{},{\"b\":1}],\"c\":{}}", Ok(6)),
        (b"{\"a\":{\"b\":{", Err(NestEnd::Ended)),
        (b"{\"a\":{\"b\":", Err(NestEnd::Ended)),
        (b"{\"a\":{\"b\"}}", Err(NestEnd::Syntax(9))),
        (b"{\"a\":{\"b\" 1}}", Err(NestEnd::Syntax(10))),
        (b"{\"a\":{\"b\":,1}}", Err(NestEnd::Syntax(10))),
        (b"{\"a\":{\"b\":}}", Err(NestEnd::Syntax(10))),
        (b"{\"a\":{,}}", Err(NestEnd::Syntax(6))),
        (b"{\"a\":{[]:1}}", Err(NestEnd::Syntax(6))),
        (b"{\"a\":[{\"b\":1,\"c\"::2}]}", Err(NestEnd::Syntax(17))),
        (b"{\"a\":{\"b\":{\"c\":1,}}}", Err(NestEnd::Syntax(17))),
    ];
    cuts_of_rows(&rt, rows.as_slice());
    ends_of_rows(&rt, rows.as_slice());
}

fn compare_leaps<R: Abort + AllocGlobal>(rt: &R, texts: &[&'static [u8]]) {
    for text in texts {
        assert!(rt; text.len() < 100);
        let whole = answer(rt.alloc(), text, &[]);
        for cut in 0..=text.len() as u32 {
            let found = leaping_answer(rt.alloc(), text, &[cut]);
            check(rt, "by leaps at", text, &[cut], found, whole);
        }
    }
}

/// Values that are read at once change no answer: they stand where values may, where none may, and over a cut.
#[test]
fn values_at_once(rt: HostRuntime) {
    let texts: [&'static [u8]; 20] = [
        b"[]",
        b" [] ",
        b"[[],[ ],[[]]]",
        b"[[],[]",
        b"{\"a\":[],\"b\":[[]]}",
        b"{\"a\":[]]",
        b"{[]:1}",
        b"{\"a\"[]}",
        b"[[][]]",
        b"[1[]]",
        b"[][]",
        b"[],",
        b"[]1",
        b"[\"[]\",\"\\\"[]\"]",
        b"[[]",
        b"[[]}",
        b"[[],[],[[],[],[]],1,[],[]]",
        b"[],[]",
        b"{\"a\":[],[]}",
        b"[{}[],[]]",
    ];
    compare_leaps(&rt, texts.as_slice());
}

const ALPHABET: [u8; 8] = [b'[', b']', b'{', b'}', b',', b':', b'"', b'1'];

/// How many texts of each length there are over the alphabet.
const COUNTS: [usize; 6] = [1, 8, 64, 512, 4096, 32768];

fn compare_slow<R: Abort + AllocGlobal>(rt: &R, text: &[u8]) -> Result<(), Fail>
    requires { length text.now < 9 }
{
    let slow = slow_nest(rt.alloc(), text)?;
    let found = answer(rt.alloc(), text, &[1, 3]);
    check(rt, "at", text, &[1, 3], found, slow);
    Ok(())
}

/// The first bytes of the text with this number, of so many bytes; the others are 0.
fn short_text(number: usize, len: usize) -> [u8; 8] {
    let mut rest = number;
    let mut text = [0; 8];
    for b in text.iter_mut().take(len) {
        *b = ALPHABET[rest % 8];
        rest /= 8;
    }
    text
}

fn compare_texts<R: Abort + AllocGlobal>(rt: &R, len: usize, count: usize) -> Result<(), Fail> {
    for number in 0..count {
        let text = short_text(number, len);
        compare_slow(rt, text.get(..len).unwrap_or(b""))?;
    }
    Ok(())
}

/// All texts of up to five bytes over a small alphabet, in pieces of one, two and two bytes.
#[test]
fn all_short_texts(rt: HostRuntime) -> Result<(), Fail> {
    for len in 0..6usize {
        compare_texts(&rt, len, COUNTS[len])?;
    }
    Ok(())
}

fn opening_brackets(alloc: Global, count: usize) -> Result<Vec<u8>, AllocError> {
    let mut text = Vec::new(alloc);
    for _ in 0..count {
        text.push(b'[')?;
    }
    Ok(text)
}

/// The borders of 64 blocks of a million bytes.
fn borders(alloc: Global) -> Result<Vec<u32>, AllocError> {
    let mut places = Vec::new(alloc);
    for block in 1..64u32 {
        places.push(block * 15_625)?;
    }
    Ok(places)
}

/// A million opening brackets in 64 blocks.
#[test]
fn a_million_brackets(rt: HostRuntime) -> Result<(), Fail> {
    let text = opening_brackets(rt.alloc(), 1_000_000)?;
    let places = borders(rt.alloc())?;
    assert!(rt; text.len() == 1_000_000);
    let found = answer(rt.alloc(), text.as_slice(), places.as_slice());
    assert!(rt; found == Err(NestEnd::Ended));
    Ok(())
}

fn compare_calls<R: Abort + AllocGlobal>(rt: &R, text: &[u8], cut: u32, nodes: u64) {
    assert!(rt; text.len() < 100);
    let algebra = Counted::new();
    let span = Span {
        from: base_of(text),
        to: text.len() as u32,
    };
    let whole = cut_at(rt.alloc(), &algebra, text, span, &[cut]);
    let before = algebra.calls();
    let found = finish(rt.alloc(), &algebra, text, whole);
    check(rt, "at", text, &[cut], found, Ok(nodes));
    assert!(rt; algebra.calls() == before, "cut at {cut}");
}

/// Where nothing is pending at a text's end, its answer takes no call of the algebra.
#[test]
fn no_call_at_the_end(rt: HostRuntime) {
    for cut in 0..12 {
        compare_calls(&rt, b"{\"a\":[1,2]}", cut, 4);
    }
}

/// A thousand arrays of one item in an array.
fn thousand_arrays(alloc: Global) -> Result<Vec<u8>, AllocError> {
    let mut text = Vec::new(alloc);
    text.push(b'[')?;
    for item in 0..1_000 {
        if item > 0 {
            text.push(b',')?;
        }
        text.extend_from_slice(b"[1]")?;
    }
    text.push(b']')?;
    Ok(text)
}

fn compare_merge<R: Abort + AllocGlobal>(rt: &R, bytes: &[u8], at: u32) {
    assert!(rt; bytes.len() == 4_001);
    assert!(rt; at < 4_001);
    let algebra = Counted::new();
    let left = piece(rt.alloc(), &algebra, bytes, 0, at);
    let right = piece(rt.alloc(), &algebra, bytes, at, 4_001);
    let before = algebra.calls();
    let span = Span { from: 0, to: 4_001 };
    let whole = joined(rt.alloc(), &algebra, bytes, span, at, left, right);
    assert!(rt; algebra.calls() <= before.wrapping_add(4));
    let found = finish_span(rt.alloc(), &algebra, bytes, span, whole);
    assert!(rt; found == Ok(2_001));
}

/// A merge makes the atoms of what closes over the cut, and no others.
#[test]
fn calls_of_a_merge(rt: HostRuntime) -> Result<(), Fail> {
    let text = thousand_arrays(rt.alloc())?;
    compare_merge(&rt, text.as_slice(), 2_001);
    Ok(())
}

fn compare_span<R: Abort + AllocGlobal>(
    rt: &R,
    from: u32,
    to: u32,
    places: &[u32],
    expected: Result<u64, NestEnd>,
) {
    let bytes: &[u8] = b"x{}x";
    assert!(rt; from <= to && to <= 4);
    let found = span_answer(rt.alloc(), bytes, from, to, places);
    check(rt, "from and to", bytes, &[from, to], found, expected);
}

/// Spans of a file, as texts of their own.
#[test]
fn spans(rt: HostRuntime) {
    compare_span(&rt, 1, 3, &[], Ok(1));
    compare_span(&rt, 1, 4, &[2], Err(NestEnd::Syntax(3)));
    compare_span(&rt, 1, 2, &[], Err(NestEnd::Ended));
    compare_span(&rt, 4, 4, &[], Err(NestEnd::Ended));
}

/// A lost fragment has no answer, and makes lost what it is merged with.
#[test]
fn lost_fragments(rt: HostRuntime) {
    let bytes: &[u8] = b"[1]";
    let span = Span { from: 0, to: 3 };
    let found = finish_span(rt.alloc(), &Tally, bytes, span, lost());
    assert!(rt; found == Err(NestEnd::Memory));
    let whole = with_piece(rt.alloc(), &Tally, bytes, span, 1, lost());
    let found = finish_span(rt.alloc(), &Tally, bytes, span, whole);
    assert!(rt; found == Err(NestEnd::Memory));
}

/// What the page of `at_nest` shows.
#[test]
fn the_example_of_the_crate(rt: HostRuntime) -> Result<(), Fail> {
    let alloc = rt.alloc();
    let text: &[u8] = b"{\"a\":[1,2]}";
    let whole = run_block(alloc, &Tally, text, 0);
    assert_eq!(rt; finish(alloc, &Tally, text, whole)?, 4);
    let front = run_block(alloc, &Tally, b"[1,", 0);
    assert!(rt; finish(alloc, &Tally, b"[1,", front) == Err(NestEnd::Ended));
    Ok(())
}
