//! Positions one behind another in an array, read at once: they are one track. So a list that goes on beyond what is
//! seen of it is read in few steps.

ghost use Rattle.std.specs.Prelude.{◌≡◌, ◌+◌, ◌<◌, true, false, IfOk, IfSome};
ghost use Rattle.at_query.specs.Keeping.{needs_shapes as needs_of};
ghost use Rattle.at_geojson.specs.Values.{IsSpacedPair};
ghost use Rattle.at_geojson.specs.FeatureRuns.{AreItemsWhole};
ghost use Rattle.at_geojson.specs.PositionRuns.{IsNextPair, PassesNext, IsTrackRead};

use crate::atoms::atom::{GeoAtom, Track, TrackAtom};
use crate::coordinates::pairs::{
    Margins, PairRead, ROOM, Whole, margins_of, one_more, pass_pair, pass_spaced, read_spaced,
};
use crate::text::Text;
use at_geom::Pos;
use at_scan::{OTHER_KIND, stands};
use at_text::Halt;
use std::alloc::Global;

/// The margins of the position behind the comma at the place, where one stands there.
fn margins_behind(text: &Text<'_>, at: usize) -> Margins {
    if !stands(text.bytes, at, b',') {
        return Margins::UNKNOWN;
    }
    match pass_pair(text, at + 1, Margins::UNKNOWN) {
        Some(place) => margins_of(at, place.bracket, place.x.first),
        None => Margins::UNKNOWN,
    }
}

/// A comma, which stands at the place, and a position with white space round it.
#[inline(always)]
fn next_pair(text: &Text<'_>, at: usize, margins: Margins) -> Option<PairRead>
    ensures { IfSome result (IsNextPair text.now.algebra.now text.now.base text.now.bytes.now at) }
{
    if stands(text.bytes, at, b',') {
        read_spaced(text, at + 1, margins)
    } else {
        None
    }
}

/// The same, passed over.
#[inline(always)]
fn pass_next(text: &Text<'_>, at: usize, margins: Margins) -> Option<usize>
    ensures { IfSome result (PassesNext text.now.algebra.now text.now.bytes.now at) }
{
    if stands(text.bytes, at, b',') {
        pass_spaced(text, at + 1, margins)
    } else {
        None
    }
}

/// A track of so many positions, up to four, and of these values, where values are kept.
fn track_read(
    alloc: Global,
    first: PairRead,
    count: u32,
    last: PairRead,
    path: Vec<Pos>,
) -> Result<Whole, Halt>
    ensures { IfOk result (IsTrackRead first count last path.items) }
{
    let track = Track {
        first: Some(first.pair.pos),
        last: Some(last.pair.pos),
        count,
        fault: None,
        path,
    };
    Ok(Whole {
        end: last.end,
        atom: GeoAtom::Track(TrackAtom {
            at: first.pair.at,
            track: Box::new(alloc, track)?,
        }),
    })
}

/// Positions of which the first was read, where shapes are kept.
fn keep_positions(text: &Text<'_>, first: PairRead) -> Result<Whole, Halt>
    requires first { IsSpacedPair text.now.algebra.now text.now.base text.now.bytes.now 0 first }
    requires needed { needs_of text.now.algebra.now.query ≡ true }
    ensures { IfOk result (AreItemsWhole text.now.algebra.now text.now.base text.now.bytes.now 0) }
{
    let mut path = Vec::with_capacity(text.alloc, ROOM)?;
    path.push(first.pair.pos)?;
    let margins = margins_behind(text, first.end);
    let near = *text;
    let mut last = first;
    let mut count = 1;
    'positions: while let Some(next) = next_pair(&near, last.end, margins) {
        path.push(next.pair.pos)?;
        count = one_more(count);
        last = next;
    }
    track_read(text.alloc, first, count, last, path)
}

/// Positions of which the first was read, where no shapes are kept: but the last, which is read, the others are passed
/// over.
fn pass_positions(text: &Text<'_>, first: PairRead) -> Result<Whole, Halt>
    requires first { IsSpacedPair text.now.algebra.now text.now.base text.now.bytes.now 0 first }
    requires unneeded { needs_of text.now.algebra.now.query ≡ false }
    ensures { IfOk result (AreItemsWhole text.now.algebra.now text.now.base text.now.bytes.now 0) }
{
    let margins = margins_behind(text, first.end);
    let Some(mut ahead) = pass_next(text, first.end, margins) else {
        return Ok(Whole {
            end: first.end,
            atom: GeoAtom::Position(first.pair),
        });
    };
    let near = *text;
    let mut end = first.end;
    let mut count = 1;
    'positions: while let Some(next) = pass_next(&near, ahead, margins) {
        count = one_more(count);
        end = ahead;
        ahead = next;
    }
    match next_pair(text, end, margins) {
        Some(last) => track_read(
            text.alloc,
            first,
            one_more(count),
            last,
            Vec::new(text.alloc),
        ),
        None => Err(Halt::At(OTHER_KIND)),
    }
}

/// Positions one behind another in an array that begin the text.
pub fn read_positions(text: &Text<'_>) -> Result<Whole, Halt>
    ensures { IfOk result (AreItemsWhole text.now.algebra.now text.now.base text.now.bytes.now 0) }
{
    let Some(first) = read_spaced(text, 0, Margins::UNKNOWN) else {
        return Err(Halt::At(OTHER_KIND));
    };
    if text.algebra.needs_shapes() {
        keep_positions(text, first)
    } else {
        pass_positions(text, first)
    }
}
