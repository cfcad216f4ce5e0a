//! The outlines of a side that are near a stretch of the other.

ghost use Rattle.std.specs.Prelude.{OnOk, [], ◌∷◌};
ghost use Rattle.at_join.specs.Meetings.{Finds};
ghost use Rattle.at_join.specs.Sides.{IsSide, IsInWindow, itself};

use crate::boxes::touch;
use crate::outlines::Outline;
use crate::sides::Side;
use at_geom::Extent;
use at_text::Memory;

/// Puts the outlines of a side that have a common point with the window behind the list, in order.
pub(crate) fn push_near(side: &Side, window: Extent, near: &mut Vec<Outline>) -> Result<(), Memory>
    requires side { IsSide side.now }
    ensures { OnOk result (Finds (IsInWindow window) itself side.now.outlines.items near.old.items near.new.items) }
{
    let mut at = 0;
    while at < side.outlines.len() {
        let next = side.ahead(at, window);
        if next > at {
            at = next;
        } else {
            push_outline(side.outlines[at], window, near)?;
            at += 1;
        }
    }
    Ok(())
}

/// Puts the outline behind the list, where it has a common point with the window.
fn push_outline(outline: Outline, window: Extent, near: &mut Vec<Outline>) -> Result<(), Memory>
    ensures { OnOk result (Finds (IsInWindow window) itself (outline ∷ []) near.old.items near.new.items) }
{
    if touch(outline.extent, window) {
        near.push(outline)?;
    }
    Ok(())
}
