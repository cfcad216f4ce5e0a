//! Lists of positions in brackets: lines and rings.

ghost use Rattle.std.specs.Prelude.{◌≡◌, ◌≤◌, ◌&&◌, ◌||◌, [], not, is_none, length, MatchResult};
ghost use Rattle.std.specs.Ordering.{int_eq};
ghost use Rattle.at_text.specs.Faults.{first_fault as the_first};
ghost use Rattle.at_text.specs.declared.halts.Halt.TheVariants.{Memory};
ghost use Rattle.at_wkt.specs.Geometry.{SpellsPosition};
ghost use Rattle.at_wkt.specs.Readers.{Stuck, HasCount, Items, PositionsStand};
ghost use Rattle.at_text.specs.Halts.{IfStopped};
ghost use Rattle.at_wkt.specs.Readers.{fault_of_path};

use crate::line::positions::{PositionRead, read_position};
use crate::line::sites::{FIRST, FURTHER};
use crate::line::sources::{Place, Source};
use at_geom::{Path, Pos, line_fault, ring_fault};
use at_text::{Fault, Halt, first_fault};
use std::alloc::Global;
use std::mem;

/// What a list of positions is.
#[derive(Clone, Copy, Debug, PartialEq, Eq)]
pub enum Role {
    /// A line, of two positions at least.
    Line,
    /// A ring of a polygon, of four positions at least, the last of which is the first.
    Ring,
}

/// How a list of positions was read: its first fault, whether it closes, and the place behind it.
#[derive(Clone, Copy)]
pub struct ListRead {
    pub fault: Option<Fault>,
    pub closes: bool,
    pub behind: Place,
}

/// What paths are made with: where their room is taken, how many positions the one before had, and the room of a path
/// and of a list of rings that were let go. The next path is expected to have as many positions as the one before.
#[derive(Drop)]
pub struct Maker {
    pub alloc: Global,
    pub expected: usize,
    pub path: Vec<Pos>,
    pub rings: Vec<Path>,
}

/// No path was made yet. It takes no memory.
pub fn no_paths(alloc: Global) -> Maker {
    Maker {
        alloc,
        expected: 0,
        path: Vec::new(alloc),
        rings: Vec::new(alloc),
    }
}

/// A path without positions, in the room of one that was let go, or else with room for as many as are expected.
pub fn empty_path(maker: &mut Maker) -> Result<Vec<Pos>, Halt>
    ensures { MatchResult result (λ path. path.items ≡ []) (λ halt. halt ≡ Memory) }
{
    if maker.path.capacity() == 0 {
        return Ok(Vec::with_capacity(maker.alloc, maker.expected)?);
    }
    let mut path = mem::replace(&mut maker.path, Vec::new(maker.alloc));
    path.clear();
    Ok(path)
}

/// A list without rings, in the room of one that was let go.
pub fn empty_rings(maker: &mut Maker) -> Vec<Path>
    ensures { result.items ≡ [] }
{
    let mut rings = mem::replace(&mut maker.rings, Vec::new(maker.alloc));
    rings.clear();
    rings
}

/// Lets paths go, and keeps the room of the last.
pub fn clear_paths(paths: &mut Vec<Path>, maker: &mut Maker)
    ensures { paths.new.items ≡ [] }
{
    if let Some(path) = paths.pop() {
        maker.path = path.into_vec();
    }
    paths.clear();
}

/// Whether two positions are the same, or one of them has a fault, so that this isn't tested.
pub fn closes_with(first: PositionRead, last: PositionRead) -> bool
    ensures { result ≡ (not (is_none first.fault && is_none last.fault)
        || (int_eq first.pos.x last.pos.x && int_eq first.pos.y last.pos.y)) }
{
    !(first.fault.is_none() && last.fault.is_none())
        || (first.pos.x == last.pos.x && first.pos.y == last.pos.y)
}

/// The first of a fault and the one of what was read behind it, which has mostly none.
#[inline(always)]
pub fn add_fault(before: Option<Fault>, fault: Option<Fault>) -> Option<Fault>
    ensures { result ≡ the_first before fault }
{
    if fault.is_none() {
        before
    } else {
        first_fault(before, fault)
    }
}

/// Reads positions up to the closing bracket into a path that has none.
pub fn read_positions(path: &mut Vec<Pos>, source: &Source, from: Place) -> Result<ListRead, Halt>
    requires none { path.old.items ≡ [] }
    requires inside { from.at ≤ length source.now.text.now }
    requires count { HasCount from.dimension }
    ensures { MatchResult result (PositionsStand source.now.rules source.now.text.now from.at from.dimension
        path.new.items)
        (λ halt. IfStopped halt (Stuck (Items SpellsPosition) source.now.rules.base source.now.text.now from.at
        from.dimension)) }
{
    let first = read_position::<FIRST>(source, from)?;
    path.push(first.pos)?;
    let mut last = first;
    let mut fault = first.fault;
    'positions: while !last.is_last {
        last = read_position::<FURTHER>(source, last.behind)?;
        path.push(last.pos)?;
        fault = add_fault(fault, last.fault);
    }
    Ok(ListRead {
        fault,
        closes: closes_with(first, last),
        behind: last.behind,
    })
}

/// What is wrong with a line or a ring as a whole.
pub fn path_fault(role: Role, count: u32, closes: bool, at: u32) -> Option<Fault>
    ensures { result ≡ fault_of_path role count closes at }
{
    match role {
        Role::Line => line_fault(count, at),
        Role::Ring => ring_fault(count, closes, at),
    }
}
