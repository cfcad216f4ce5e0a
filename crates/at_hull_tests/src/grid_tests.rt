//! All lists of up to five positions of a grid of three by three, and all sets of its positions: their
//! hulls against the definition, by a slow check with an arithmetic of its own.
ghost use Rattle.std.specs.Prelude.{IfOk, All};
ghost use Rattle.at_geom.specs.Segments.{IsInRange};

use crate::tests::{add, at, hull_in_range};
use at_geom::{Path, Pos};
use at_hull::hull_join;
use std::alloc::{AllocError, Global};
use std::test::Fail;

/// Twice the area of the triangle, positive where it is taken round to the left.
fn doubled(a: Pos, b: Pos, c: Pos) -> i64 {
    let left = b.x.wrapping_sub(a.x).wrapping_mul(c.y.wrapping_sub(a.y));
    let right = b.y.wrapping_sub(a.y).wrapping_mul(c.x.wrapping_sub(a.x));
    left.wrapping_sub(right)
}

/// Whether `a` is lower than `b`, or is `b`.
fn is_at_most(a: Pos, b: Pos) -> bool {
    if a.y == b.y {
        return a.x <= b.x;
    }
    a.y < b.y
}

/// Whether each of the one list is in the other.
fn are_of(h: &[Pos], ps: &[Pos]) -> bool {
    for v in h {
        if !ps.contains(v) {
            return false;
        }
    }
    true
}

/// Whether no position stands twice in the list.
fn are_different(h: &[Pos]) -> bool {
    for i in 0..h.len() {
        if h[..i].contains(&h[i]) {
            return false;
        }
    }
    true
}

fn is_lowest(a: Pos, ps: &[Pos]) -> bool {
    for p in ps {
        if !is_at_most(a, *p) {
            return false;
        }
    }
    true
}

/// Whether all lie on the line through `a` and `b`, and none above `b`.
fn lie_between(a: Pos, b: Pos, ps: &[Pos]) -> bool {
    for p in ps {
        if doubled(a, b, *p) != 0 {
            return false;
        }
        if !is_at_most(*p, b) {
            return false;
        }
    }
    true
}

fn none_is_right(a: Pos, b: Pos, ps: &[Pos]) -> bool {
    for p in ps {
        if doubled(a, b, *p) < 0 {
            return false;
        }
    }
    true
}

/// Whether every three neighbours turn left and no position is to the right of an edge. The first
/// edge is from `a` to `b`, the last two of the list.
pub(crate) fn goes_round(a: Pos, b: Pos, h: &[Pos], ps: &[Pos]) -> bool {
    let mut from = a;
    let mut to = b;
    for next in h {
        if doubled(from, to, *next) <= 0 {
            return false;
        }
        if !none_is_right(from, to, ps) {
            return false;
        }
        from = to;
        to = *next;
    }
    true
}

/// Whether `h`, whose positions are different ones of `ps`, is a hull by the number of its positions.
fn encloses(h: &[Pos], ps: &[Pos]) -> bool {
    let Some((last, front)) = h.split_last() else {
        return ps.is_empty();
    };
    let Some((before, others)) = front.split_last() else {
        return is_lowest(*last, ps) && lie_between(*last, *last, ps);
    };
    if others.is_empty() {
        return is_lowest(*before, ps) && lie_between(*before, *last, ps);
    }
    is_lowest(h[0], ps) && goes_round(*before, *last, h, ps)
}

/// Whether `h` is the hull of `ps`.
pub(crate) fn is_hull(ps: &[Pos], h: &[Pos]) -> bool {
    are_of(h, ps) && are_different(h) && encloses(h, ps)
}

/// A position of the grid, by its number.
pub(crate) fn cell(number: u32) -> Pos
    ensures { IsInRange result }
{
    at(i64::from(number % 3), i64::from(number / 3 % 3) - 1)
}

/// The positions whose numbers are the last digits of the code to the base nine, the last one first.
fn listed(alloc: Global, count: u32, code: u32) -> Result<Path, AllocError>
    ensures { IfOk result (λ p. All IsInRange p) }
{
    let mut items = Vec::new(alloc);
    let mut left = code;
    for _ in 0..count {
        add(&mut items, cell(left % 9))?;
        left /= 9;
    }
    Ok(Path::from_vec(items))
}

/// The positions whose numbers are bits of the code.
pub(crate) fn chosen(alloc: Global, code: u32) -> Result<Path, AllocError>
    ensures { IfOk result (λ p. All IsInRange p) }
{
    let mut items = Vec::new(alloc);
    let mut left = code;
    for number in 0..9 {
        if left % 2 == 1 {
            add(&mut items, cell(number))?;
        }
        left /= 2;
    }
    Ok(Path::from_vec(items))
}

/// Whether the positions have their hull.
fn has_hull(alloc: Global, ps: &Path) -> Result<bool, Fail>
    requires { All IsInRange ps.now }
{
    let found = hull_in_range(alloc, ps)?;
    Ok(is_hull(ps.as_slice(), found.as_slice()))
}

/// How many of the lists of so many positions have their hull, up to the first that hasn't.
fn lists_told(alloc: Global, count: u32, codes: u32) -> Result<u32, Fail> {
    for code in 0..codes {
        if !has_hull(alloc, &listed(alloc, count, code)?)? {
            return Ok(code);
        }
    }
    Ok(codes)
}

/// How many of the sets have their hull, up to the first that hasn't.
fn sets_told(alloc: Global, codes: u32) -> Result<u32, Fail> {
    for code in 0..codes {
        if !has_hull(alloc, &chosen(alloc, code)?)? {
            return Ok(code);
        }
    }
    Ok(codes)
}

/// How many of the lists of five positions have the hull that is made of that of their first three
/// and that of their last two, up to the first that hasn't.
fn joins_told(alloc: Global, codes: u32) -> Result<u32, Fail> {
    for code in 0..codes {
        let ps = listed(alloc, 5, code)?;
        let first = hull_in_range(alloc, &listed(alloc, 3, code)?)?;
        let second = hull_in_range(alloc, &listed(alloc, 2, code / 729)?)?;
        let found = hull_join(alloc, &first, &second)?;
        if !is_hull(ps.as_slice(), found.as_slice()) {
            return Ok(code);
        }
    }
    Ok(codes)
}

#[test]
fn lists_of_the_grid(rt: HostRuntime) -> Result<(), Fail> {
    assert_eq!(rt; lists_told(rt.alloc(), 0, 1)?, 1);
    assert_eq!(rt; lists_told(rt.alloc(), 1, 9)?, 9);
    assert_eq!(rt; lists_told(rt.alloc(), 2, 81)?, 81);
    assert_eq!(rt; lists_told(rt.alloc(), 3, 729)?, 729);
    assert_eq!(rt; lists_told(rt.alloc(), 4, 6561)?, 6561);
    assert_eq!(rt; lists_told(rt.alloc(), 5, 59049)?, 59049);
    Ok(())
}

#[test]
fn sets_of_the_grid(rt: HostRuntime) -> Result<(), Fail> {
    assert_eq!(rt; sets_told(rt.alloc(), 512)?, 512);
    Ok(())
}

#[test]
fn joins_of_the_grid(rt: HostRuntime) -> Result<(), Fail> {
    assert_eq!(rt; joins_told(rt.alloc(), 59049)?, 59049);
    Ok(())
}
