//! Entries without their shapes, in the order in which they are looked at.

ghost use Rattle.std.specs.Prelude.{◌≡◌, ◌++◌, IfOk, OnOk};
ghost use Rattle.at_join.specs.Sides.{outlined, outline_of};

use at_geom::Extent;
use at_query::Entry;
use at_text::Memory;
use std::alloc::Global;

/// An entry that has an extent, without its shape: the extent, the entry's offset and its place in the list of entries.
#[derive(Clone, Copy, Debug)]
pub(crate) struct Outline {
    pub(crate) extent: Extent,
    pub(crate) at: u32,
    pub(crate) index: u32,
}

/// The outlines of all entries that have an extent, in order.
pub(crate) fn outlines_of(alloc: Global, entries: &[Entry]) -> Result<Vec<Outline>, Memory>
    ensures { IfOk result (λ outlines. outlines.items ≡ outlined 0 entries.now) }
{
    let mut outlines = Vec::with_capacity(alloc, entries.len())?;
    let mut index = 0u32;
    for entry in entries {
        push_outline(&mut outlines, index, entry)?;
        let Some(next) = index.checked_add(1) else {
            return Err(Memory);
        };
        index = next;
    }
    Ok(outlines)
}

/// Puts the outline of an entry behind the list, where it has an extent.
fn push_outline(outlines: &mut Vec<Outline>, index: u32, entry: &Entry) -> Result<(), Memory>
    ensures { OnOk result (outlines.new.items ≡ outlines.old.items ++ outline_of index entry.now.at entry.now.extent) }
{
    if let Some(extent) = entry.extent {
        outlines.push(Outline {
            extent,
            at: entry.at,
            index,
        })?;
    }
    Ok(())
}
