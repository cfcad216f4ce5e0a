//! Lines read or checked one after another in one room.

ghost use Rattle.std.specs.Prelude.{◌≡◌, [], ℕ, ◌+◌, ◌≤◌, ◌^◌, length, take, IfOk, MatchResult};
ghost use Rattle.at_fixed.specs.declared.rounding.Coords.{Coords};
ghost use Rattle.at_text.specs.Refusals.{IfFound};
ghost use Rattle.at_wkt.specs.Answers.{HasFaultOrShape, HasLineShape, HasFirstLineFault};
ghost use Rattle.at_text.specs.Halts.{IfStopped};
ghost use Rattle.at_wkt.specs.Readers.{LineStops};

use crate::answers::LineFault;
use crate::line::checks::is_plain_line;
use crate::line::geometries::{Gathered, clear};
use crate::line::reading::{nothing_gathered, read_between, read_front, refusal_of};
use crate::line::sources::{Rules, Source};
use at_fixed::Coords;
use at_geom::{Path, Paths, Polygon, Polygons, Shape};
use at_text::{Fault, Halt, Memory, Refusal, stop_at};
use std::alloc::Global;
use std::mem;

/// Room in which lines are read or checked one after another: what one of them took serves the next.
#[derive(Drop)]
pub struct Room {
    gathered: Gathered,
    /// The shape that is lent. While a line is read it has nothing.
    shape: Shape,
}

/// Moves paths to where they are seen, where there are some.
#[inline(always)]
fn show_paths(shown: &mut Paths, paths: &mut Vec<Path>, alloc: Global)
    requires { shown.old ≡ [] }
    ensures { shown.new ≡ paths.old.items }
{
    if paths.as_slice().is_empty() {
        return;
    }
    *shown = Paths::from_vec(mem::replace(paths, Vec::new(alloc)));
}

/// Moves paths back, where there are some.
#[inline(always)]
fn take_paths(shown: &mut Paths, paths: &mut Vec<Path>, alloc: Global)
    ensures { shown.new ≡ [] }
{
    if shown.as_slice().is_empty() {
        return;
    }
    let taken = mem::replace(shown, Paths::from_vec(Vec::new(alloc)));
    *paths = taken.into_vec();
}

/// Moves polygons to where they are seen, where there are some.
#[inline(always)]
fn show_polygons(shown: &mut Polygons, polygons: &mut Vec<Polygon>, alloc: Global)
    requires { shown.old ≡ [] }
    ensures { shown.new ≡ polygons.old.items }
{
    if polygons.as_slice().is_empty() {
        return;
    }
    *shown = Polygons::from_vec(mem::replace(polygons, Vec::new(alloc)));
}

/// Moves polygons back, where there are some.
#[inline(always)]
fn take_polygons(shown: &mut Polygons, polygons: &mut Vec<Polygon>, alloc: Global)
    ensures { shown.new ≡ [] }
{
    if shown.as_slice().is_empty() {
        return;
    }
    let taken = mem::replace(shown, Polygons::from_vec(Vec::new(alloc)));
    *polygons = taken.into_vec();
}

/// The first fault of a line where reading it stopped.
fn stopped_line(text: &[u8], base: u32, halt: Halt) -> Result<Option<Fault>, Memory>
    requires stops { IfStopped halt (LineStops base text.now) }
    requires short { base + length text.now ≤ 2 ^ 28 }
    ensures { (digits : ℕ) (how : Coords) → IfOk result (HasFaultOrShape digits how base text.now) }
{
    match halt {
        Halt::At(at) => Ok(Some(stop_at(text, base, at))),
        Halt::Memory => Err(Memory),
    }
}

impl Room {
    /// No room yet. It takes no memory.
    pub fn new(alloc: Global) -> Room {
        Room {
            gathered: nothing_gathered(alloc),
            shape: Shape {
                points: Path::from_vec(Vec::new(alloc)),
                lines: Paths::from_vec(Vec::new(alloc)),
                polygons: Polygons::from_vec(Vec::new(alloc)),
            },
        }
    }

    /// Takes back what was lent.
    #[inline(always)]
    fn take(&mut self, alloc: Global)
        ensures lines { self.new.shape.lines ≡ [] }
        ensures polygons { self.new.shape.polygons ≡ [] }
    {
        let points = mem::replace(&mut self.shape.points, Path::from_vec(Vec::new(alloc)));
        self.gathered.points = points.into_vec();
        take_paths(&mut self.shape.lines, &mut self.gathered.lines, alloc);
        take_polygons(&mut self.shape.polygons, &mut self.gathered.polygons, alloc);
    }

    /// Moves what was gathered to where it is lent.
    #[inline(always)]
    fn show(&mut self, alloc: Global)
        requires lines { self.old.shape.lines ≡ [] }
        requires polygons { self.old.shape.polygons ≡ [] }
        ensures fault { self.new.gathered.fault ≡ self.old.gathered.fault }
        ensures points { self.new.shape.points ≡ self.old.gathered.points.items }
        ensures lines { self.new.shape.lines ≡ self.old.gathered.lines.items }
        ensures polygons { self.new.shape.polygons ≡ self.old.gathered.polygons.items }
    {
        let points = mem::replace(&mut self.gathered.points, Vec::new(alloc));
        self.shape.points = Path::from_vec(points);
        show_paths(&mut self.shape.lines, &mut self.gathered.lines, alloc);
        show_polygons(&mut self.shape.polygons, &mut self.gathered.polygons, alloc);
    }

    /// Reads a line: its shape, which the room lends up to the next line, or its first fault. They are those that
    /// `read_line` tells. The line is the first `len` of the bytes ahead; those behind it may be looked at, and change
    /// nothing.
    ///
    /// The lists of the shape grow in the room of those of the lines before it, and so does one line or ring.
    pub fn read_line(
        &mut self,
        alloc: Global,
        ahead: &[u8],
        len: usize,
        at: u32,
        digits: u8,
        how: Coords,
    ) -> Result<&Shape, LineFault>
        requires inside { len ≤ length ahead.now }
        requires short { at + length ahead.now ≤ 2 ^ 28 }
        ensures { MatchResult result (λ shape. HasLineShape digits how at (take len ahead.now) shape.now)
            (λ refusal. IfFound refusal (HasFirstLineFault digits how at (take len ahead.now))) }
    {
        let rules = Rules {
            base: at,
            digits,
            how,
        };
        self.take(alloc);
        let read = read_front(
            &mut self.gathered,
            alloc,
            &Source { text: ahead, rules },
            len,
        );
        self.show(alloc);
        match read {
            Err(halt) => Err(refusal_of(&ahead[..len], at, halt)),
            Ok(()) => match self.gathered.fault {
                None => Ok(&self.shape),
                Some(fault) => Err(Refusal::Found(fault)),
            },
        }
    }

    /// The first fault of a line, where it has one: the fault that `read_line` tells. The line is the first `len` of
    /// the bytes ahead; those behind it may be looked at, and change nothing. A plain line is passed over, and the
    /// shape of another is let go. The one refusal is want of memory.
    pub fn check_line(
        &mut self,
        alloc: Global,
        ahead: &[u8],
        len: usize,
        at: u32,
        digits: u8,
        how: Coords,
    ) -> Result<Option<Fault>, Memory>
        requires inside { len ≤ length ahead.now }
        requires short { at + length ahead.now ≤ 2 ^ 28 }
        ensures { IfOk result (HasFaultOrShape digits how at (take len ahead.now)) }
    {
        let rules = Rules {
            base: at,
            digits,
            how,
        };
        if is_plain_line(&Source { text: ahead, rules }, len) {
            return Ok(None);
        }
        let line = &ahead[..len];
        clear(&mut self.gathered, alloc);
        match read_between(&mut self.gathered, &Source { text: line, rules }) {
            Ok(()) => Ok(self.gathered.fault),
            Err(halt) => stopped_line(line, at, halt),
        }
    }
}
