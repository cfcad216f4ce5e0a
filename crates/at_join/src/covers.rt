//! The least extents round each so many outlines.

ghost use Rattle.std.specs.Prelude.{◌≡◌, ℕ, ◌*◌, ◌<◌, ◌≤◌, IfOk, IsTrue, false, true, length, slice_index_or};
ghost use Rattle.at_geom.specs.declared.rectangles.Extent.{Extent};
ghost use Rattle.at_geom.specs.Shapes.{encloses};
ghost use Rattle.at_join.specs.declared.outlines.Outline.{Outline};
ghost use Rattle.at_join.specs.Boxes.{touch_of};
ghost use Rattle.at_join.specs.Sides.{Cover};

use crate::boxes::touch;
use crate::outlines::Outline;
use at_geom::Extent;
use at_query::joined_extent;
use at_text::Memory;
use std::alloc::Global;

/// The least extents round each so many outlines, in order; the last may be round fewer.
pub(crate) fn covers_of(
    alloc: Global,
    outlines: &[Outline],
    size: usize,
) -> Result<Vec<Extent>, Memory>
    requires { (0 < size) × (size ≤ 4096) }
    ensures { IfOk result (λ covers. Cover size covers.items outlines.now) }
{
    let mut covers = Vec::new(alloc);
    let mut from = 0;
    while from < outlines.len() {
        let to = outlines.len().min(from + size);
        covers.push(cover_of(&outlines[from..to]))?;
        from = to;
    }
    Ok(covers)
}

/// An extent round some outlines.
fn cover_of(outlines: &[Outline]) -> Extent
    requires { 0 < length outlines.now }
    ensures { (k : ℕ) (e : Outline) → k < length outlines.now → encloses result (slice_index_or outlines.now k e).extent
        ≡ true }
{
    let mut cover = outlines[0].extent;
    for outline in outlines {
        cover = joined_extent(cover, outline.extent);
    }
    cover
}

/// Whether a stretch of so many outlines begins at this one, and the extent round them and another have no common
/// point.
pub(crate) fn is_clear(covers: &[Extent], size: usize, at: usize, window: Extent) -> bool
    requires { 0 < size }
    ensures { IsTrue result → (c : ℕ) × (at ≡ c * size)
        × ((d : Extent) → touch_of (slice_index_or covers.now c d) window ≡ false) }
{
    if at % size != 0 {
        return false;
    }
    let number = at / size;
    if number >= covers.len() {
        return false;
    }
    !touch(covers[number], window)
}
