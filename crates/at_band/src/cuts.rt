//! Heights that are cut into parts of one size.

ghost use Rattle.std.specs.Prelude.{◌≡◌, ◌≤◌, ◌≤ℤ◌, IfOk, All};
ghost use Rattle.at_band.specs.Banded.{IsOrdered, IsWithin, AreCovering};

use crate::thinning::Heights;
use at_text::Memory;
use std::alloc::Global;

/// The height at which a part begins, of so many.
fn cut(whole: Heights, index: u64, count: u64) -> i64
    requires { 1 ≤ count }
{
    let height = whole.high.abs_diff(whole.low).saturating_add(1);
    whole
        .low
        .saturating_add_unsigned(height.saturating_mul(index) / count)
}

/// The lowest of the heights.
fn lowest(whole: Heights) -> Heights
    ensures begins { result.low ≡ whole.low }
    ensures ends { result.high ≡ whole.low }
{
    Heights {
        low: whole.low,
        high: whole.low,
    }
}

/// The heights behind others, up to the next cut.
fn next_heights(before: Heights, whole: Heights, index: u64, count: u64) -> Heights
    requires counted { 1 ≤ count }
    requires within { before.high ≤ℤ whole.high }
    ensures begins { result.low ≡ before.high }
    ensures ordered { IsOrdered result }
    ensures below { result.high ≤ℤ whole.high }
{
    let low = before.high;
    let high = cut(whole, index, count).max(low).min(whole.high);
    Heights { low, high }
}

/// The heights behind others, up to the highest.
fn last_heights(before: Heights, whole: Heights) -> Heights
    ensures begins { result.low ≡ before.high }
    ensures ends { result.high ≡ whole.high }
{
    Heights {
        low: before.high,
        high: whole.high,
    }
}

/// The heights cut into so many parts, from the lowest. Neighbours have the height between them in common.
pub(crate) fn cut_heights(alloc: Global, whole: Heights, count: u64) -> Result<Vec<Heights>, Memory>
    requires ordered { IsOrdered whole }
    requires counted { 1 ≤ count }
    ensures ordered { IfOk result (λ parts. All IsOrdered parts.items) }
    ensures within { IfOk result (λ parts. All (IsWithin whole) parts.items) }
    ensures covering { IfOk result (λ parts. AreCovering whole.low whole.high parts.items) }
{
    let mut parts = Vec::new(alloc);
    let mut heights = lowest(whole);
    for index in 1..count {
        heights = next_heights(heights, whole, index, count);
        parts.push(heights)?;
    }
    parts.push(last_heights(heights, whole))?;
    Ok(parts)
}
