//! The pairs of two lists by testing every pair.

ghost use Rattle.std.specs.Prelude.{IfOk, OnOk, [], ◌∷◌};
ghost use Rattle.at_geom.specs.Shapes.{IsShapeInRange};
ghost use Rattle.at_join.specs.Meetings.{AreInRange, IsAllPairs, Finds, Meeting, at_entries};
ghost use Rattle.at_query.specs.Results.{pairs_of};

use at_geom::shapes_meet;
use at_query::{Entries, Entry, Pair, Pairs};
use at_text::Memory;
use std::alloc::Global;

/// All pairs of entries of which the shapes meet, in order of the first list, then the second. It tests every pair.
pub fn pairs_plain(alloc: Global, a: &Entries, b: &Entries) -> Result<Pairs, Memory>
    requires first { AreInRange a.now }
    requires second { AreInRange b.now }
    ensures { IfOk result (IsAllPairs a.now b.now) }
{
    let mut pairs = Vec::new(alloc);
    for entry in a.as_slice() {
        push_meeting(&mut pairs, entry, b.as_slice())?;
    }
    Ok(Pairs::from_vec(pairs))
}

/// Puts the pairs of one entry of the first list behind the list.
fn push_meeting(pairs: &mut Vec<Pair>, entry: &Entry, others: &[Entry]) -> Result<(), Memory>
    requires entry { IsShapeInRange entry.now.shape }
    requires others { AreInRange others.now }
    ensures { OnOk result (Finds Meeting at_entries (pairs_of (entry.now ∷ []) others.now) pairs.old.items pairs.new.items) }
{
    for other in others {
        push_one(pairs, entry, other)?;
    }
    Ok(())
}

/// Puts a pair behind the list, where its shapes meet.
fn push_one(pairs: &mut Vec<Pair>, entry: &Entry, other: &Entry) -> Result<(), Memory>
    requires entry { IsShapeInRange entry.now.shape }
    requires other { IsShapeInRange other.now.shape }
    ensures { OnOk result (Finds Meeting at_entries ((entry.now, other.now) ∷ []) pairs.old.items pairs.new.items) }
{
    if !shapes_meet(&entry.shape, &other.shape) {
        return Ok(());
    }
    pairs.push(Pair {
        first: entry.at,
        second: other.at,
    })?;
    Ok(())
}
