//! Files that are cut at every place, under a fold that lists lines and counts its calls.

ghost use Rattle.std.specs.Prelude.{◌≡◌, ℕ, ◌+◌, ◌≤◌, ◌^◌, ◌∷◌, map, length, IfOk};
ghost use Rattle.std.specs.List.{flat_map};
ghost use Rattle.at_text.specs.Texts.{base_of as base_in};
ghost use Rattle.at_wkt.specs.Lines.{FileLine, lines_of};
ghost use Rattle.at_text.specs.Spans.{AreNeighbours, span_of};
ghost use Rattle.at_wkt.specs.FoldParts.{IsPartOf};
ghost use Rattle.at_wkt.specs.Folding.{StandsFor};

use crate::tests::bytes_of;
use at_text::{Memory, Span, base_of};
use at_wkt::{Fold, LineFragment, finish_lines, merge_lines, run_lines};
use std::alloc::{AllocError, Global};
use std::process::Abort;
use std::sync::atomic::{AtomicU32, Ordering};
use std::test::Fail;

/// It lists lines, and counts how often `line` is called.
#[derive(Drop)]
struct Listing {
    calls: AtomicU32,
}

/// The offsets of lines, and their texts, each behind a bar.
#[derive(Drop)]
struct Listed {
    offsets: Vec<u32>,
    texts: Vec<u8>,
}

impl Fold for Listing {
    type Part = Listed;

    ghost is_own = { λ _ _. Unit {0} };

    ghost is_fold = { λ _ part lines. (part.offsets.items ≡ map (λ (l : FileLine). l.at) lines)
        × (part.texts.items ≡ flat_map (λ (l : FileLine). 0x7C ∷ l.text) lines) };

    fn none(&self, alloc: Global) -> Listed {
        Listed {
            offsets: Vec::new(alloc),
            texts: Vec::new(alloc),
        }
    }

    fn line(&self, alloc: Global, text: &[u8], at: u32) -> Result<Listed, Memory> {
        self.calls.fetch_add(1, Ordering::SeqCst);
        let mut offsets = Vec::new(alloc);
        offsets.push(at)?;
        let mut texts = Vec::new(alloc);
        texts.push(b'|')?;
        texts.extend_from_slice(text)?;
        Ok(Listed { offsets, texts })
    }

    fn join(&self, _alloc: Global, left: Listed, right: Listed) -> Result<Listed, Memory> {
        let Listed {
            mut offsets,
            mut texts,
        } = left;
        offsets.extend_from_slice(right.offsets.as_slice())?;
        texts.extend_from_slice(right.texts.as_slice())?;
        Ok(Listed { offsets, texts })
    }
}

/// The fragment of a span of a file.
fn run_span<F: Fold>(
    alloc: Global,
    fold: &F,
    bytes: &[u8],
    from: u32,
    to: u32,
) -> LineFragment<F::Part>
    requires order { from ≤ to }
    requires within { to ≤ length bytes.now }
    requires fits { length bytes.now ≤ 2 ^ 28 }
    ensures { StandsFor (IsPartOf F.Fold fold.now) from (span_of bytes.now from to) result }
{
    run_lines(alloc, fold, &bytes[from as usize..to as usize], from)
}

/// A part, and how many calls of `line` the last merge and the finish made.
#[derive(Drop)]
struct Steps<P> {
    part: P,
    in_merge: u32,
    in_finish: u32,
}

/// The fold of a file by two fragments, which are merged.
fn finish_pair<F: Fold>(
    alloc: Global,
    fold: &F,
    bytes: &[u8],
    left: LineFragment<F::Part>,
    right: LineFragment<F::Part>,
    calls: &AtomicU32,
) -> Result<Steps<F::Part>, Memory>
    requires fits { length bytes.now ≤ 2 ^ 28 }
    requires neighbours { (i : ℕ)
        × AreNeighbours (StandsFor (IsPartOf F.Fold fold.now)) bytes.now (base_in bytes.now) i (length bytes.now) left right }
    ensures { IfOk result (λ steps. F.is_fold fold.now steps.part (lines_of bytes.now)) }
{
    let before = calls.load(Ordering::SeqCst);
    let whole = merge_lines(alloc, fold, bytes, left, right);
    let merged = calls.load(Ordering::SeqCst);
    let part = finish_lines(alloc, fold, bytes, whole)?;
    let finished = calls.load(Ordering::SeqCst);
    Ok(Steps {
        part,
        in_merge: merged.wrapping_sub(before),
        in_finish: finished.wrapping_sub(merged),
    })
}

/// The fold of a file that is cut at two places and merged from the left to the right.
fn fold_from_left<F: Fold>(
    alloc: Global,
    fold: &F,
    bytes: &[u8],
    cuts: Span,
    calls: &AtomicU32,
) -> Result<Steps<F::Part>, Memory>
    requires begin { base_in bytes.now ≤ cuts.from }
    requires order { cuts.from ≤ cuts.to }
    requires within { cuts.to ≤ length bytes.now }
    requires fits { length bytes.now ≤ 2 ^ 28 }
    ensures { IfOk result (λ steps. F.is_fold fold.now steps.part (lines_of bytes.now)) }
{
    let first = run_span(alloc, fold, bytes, base_of(bytes), cuts.from);
    let second = run_span(alloc, fold, bytes, cuts.from, cuts.to);
    let third = run_span(alloc, fold, bytes, cuts.to, bytes.len() as u32);
    let front = merge_lines(alloc, fold, bytes, first, second);
    finish_pair(alloc, fold, bytes, front, third, calls)
}

/// The same, merged from the right to the left.
fn fold_from_right<F: Fold>(
    alloc: Global,
    fold: &F,
    bytes: &[u8],
    cuts: Span,
    calls: &AtomicU32,
) -> Result<Steps<F::Part>, Memory>
    requires begin { base_in bytes.now ≤ cuts.from }
    requires order { cuts.from ≤ cuts.to }
    requires within { cuts.to ≤ length bytes.now }
    requires fits { length bytes.now ≤ 2 ^ 28 }
    ensures { IfOk result (λ steps. F.is_fold fold.now steps.part (lines_of bytes.now)) }
{
    let first = run_span(alloc, fold, bytes, base_of(bytes), cuts.from);
    let second = run_span(alloc, fold, bytes, cuts.from, cuts.to);
    let third = run_span(alloc, fold, bytes, cuts.to, bytes.len() as u32);
    let back = merge_lines(alloc, fold, bytes, second, third);
    finish_pair(alloc, fold, bytes, first, back, calls)
}

/// The offsets that are listed, and behind them the texts, with `^` for a carriage return.
fn told_of(alloc: Global, listed: &Listed) -> Result<String, Fail> {
    let mut told = String::new(alloc);
    for at in &listed.offsets {
        told.push_str(format!(in alloc; "{at} ")?.as_str())?;
    }
    for byte in &listed.texts {
        told.push(match *byte {
            b'\r' => '^',
            other => other as char,
        })?;
    }
    Ok(told)
}

/// The list that is wanted of a file, however it is merged from three parts, each with at most two calls of `line`.
fn assert_listed(
    rt: &impl Abort,
    alloc: Global,
    bytes: &[u8],
    cuts: Span,
    expected: &str,
) -> Result<(), Fail>
    requires begin { base_in bytes.now ≤ cuts.from }
    requires order { cuts.from ≤ cuts.to }
    requires within { cuts.to ≤ length bytes.now }
    requires fits { length bytes.now ≤ 2 ^ 28 }
{
    let fold = Listing {
        calls: AtomicU32::new(0),
    };
    let left = fold_from_left(alloc, &fold, bytes, cuts, &fold.calls)?;
    assert_eq!(rt; told_of(alloc, &left.part)?.as_str(), expected);
    assert!(rt; left.in_merge <= 2 && left.in_finish <= 2);
    let right = fold_from_right(alloc, &fold, bytes, cuts, &fold.calls)?;
    assert_eq!(rt; told_of(alloc, &right.part)?.as_str(), expected);
    assert!(rt; right.in_merge <= 2 && right.in_finish <= 2);
    Ok(())
}

/// Every pair of cuts of a file behind its byte order mark.
fn assert_cuts(rt: &impl Abort, alloc: Global, bytes: &[u8], expected: &str) -> Result<(), Fail>
    requires { length bytes.now ≤ 2 ^ 27 }
{
    let end = bytes.len() as u32;
    for from in base_of(bytes)..end + 1 {
        for to in from..end + 1 {
            assert_listed(rt, alloc, bytes, Span { from, to }, expected)?;
        }
    }
    Ok(())
}

/// The offsets of lines that aren't blank, and behind them their texts; an equals sign; and the file, where `~` stands
/// for a line feed and `^` for a carriage return.
const CUT: &str = "=
=~
=^~
= ~\t^~^~ 
0 |x=x
0 |x=x^
0 |x=x^~
0 |x^=x^^~
0 2 |x|y=x~y
0 3 |x|y=x^~y^~
1 6 | x|y^ z =~ x^~~y^ z ^~~
0 16 |POINT (1 2)|POINT (3 4)=POINT (1 2)^~ \t~POINT (3 4)^
3 5 |x|y=\u{FEFF}x~y
4 |x=\u{FEFF}~x~
=\u{FEFF}";

#[test]
fn every_pair_of_cuts(rt: HostRuntime) -> Result<(), Fail> {
    let mut count = 0u32;
    for row in CUT.lines() {
        let (expected, file) = row.split_once('=').ok_or("an equals sign")?;
        let bytes = bytes_of(rt.alloc(), file)?;
        let bytes = bytes.as_slice();
        assert!(rt; bytes.len() < 100);
        assert_cuts(&rt, rt.alloc(), bytes, expected)?;
        count = count.wrapping_add(1);
    }
    assert_eq!(rt; count, 15);
    Ok(())
}

/// Of ten lines, a cut in the middle leaves one to the merge and one to the end.
#[test]
fn calls_of_line(rt: HostRuntime) -> Result<(), Fail> {
    let mut bytes = Vec::new(rt.alloc());
    for _ in 0..10u32 {
        bytes.extend_from_slice(b"POINT (1 2)\n")?;
    }
    let bytes = bytes.as_slice();
    assert!(rt; bytes.len() == 120);
    let fold = Listing {
        calls: AtomicU32::new(0),
    };
    let cuts = Span { from: 60, to: 60 };
    let steps = fold_from_left(rt.alloc(), &fold, bytes, cuts, &fold.calls)?;
    assert_eq!(rt; steps.part.offsets.len(), 10);
    assert_eq!(rt; steps.in_merge, 1);
    assert_eq!(rt; steps.in_finish, 1);
    assert_eq!(rt; fold.calls.load(Ordering::SeqCst), 10);
    Ok(())
}
