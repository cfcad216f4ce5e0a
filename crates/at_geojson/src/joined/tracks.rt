//! Positions one behind another in an array, joined as they come: of each nothing is kept but its values.

ghost use Rattle.std.specs.Prelude.{◌≡◌, ◌++◌, ◌∷◌, [], All, IfOk, None, true};
ghost use Rattle.std.specs.List.{list_all};
ghost use Rattle.at_query.specs.Keeping.{kept};
ghost use Rattle.at_geojson.specs.Atoms.{IsOwn};
ghost use Rattle.at_geojson.specs.Arrays.{Adds, ClosesItems};
ghost use Rattle.at_geojson.specs.Gathering.{position_value as value_in};
ghost use Rattle.at_geojson.specs.Tracks.{is_position as position_is, as_track, place_in, last_in, count_in, fault_in};
ghost use Rattle.at_geojson.specs.Tracks.{path_in, places_close, Lengthens, Begins, Joins, JoinsIf, IfOwnTrack};
ghost use Rattle.at_geojson.specs.Tracks.{JoinsPositions, ClosesTrack, ClosesTrackAtom};

use crate::asked::GeoAlgebra;
use crate::atoms::atom::{GeoAtom, Points, PointsAtom, Track, TrackAtom};
use crate::atoms::sorts::at_of;
use crate::coordinates::kinds::{count_to_four, position_fault, position_value};
use crate::coordinates::pairs::ROOM;
use crate::joined::series::exact_path;
use at_geom::{Pos, line_fault, ring_fault};
use at_text::{Fault, Memory, first_fault};
use std::alloc::Global;

/// A path of at most so many positions is copied to where it has no room left, so that many small ones take no more
/// memory than they need. A longer one stays: the copy would stand beside it for a while.
const SHORT: usize = 4096;

/// Where a position is, if it has no fault.
fn place_of(atom: &GeoAtom) -> Option<Pos>
    ensures { result ≡ place_in atom.now }
{
    match atom {
        GeoAtom::Position(position) => Some(position.pos),
        _ => None,
    }
}

/// Where the last of an atom's positions is, if it has no fault.
fn last_of(atom: &GeoAtom) -> Option<Pos>
    ensures { result ≡ last_in atom.now }
{
    match atom {
        GeoAtom::Track(more) => more.track.last,
        _ => place_of(atom),
    }
}

/// How many positions an atom stands for, up to four.
fn count_of(atom: &GeoAtom) -> u32
    ensures { result ≡ count_in atom.now }
{
    match atom {
        GeoAtom::Track(more) => more.track.count,
        _ => 1,
    }
}

/// The first fault of an atom's positions.
fn fault_of(atom: &GeoAtom) -> Option<Fault>
    ensures { result ≡ fault_in atom.now }
{
    match atom {
        GeoAtom::Track(more) => more.track.fault,
        _ => position_fault(atom),
    }
}

/// Puts the values of one position behind a path, where shapes are kept.
fn push_value(needs: bool, path: &mut Vec<Pos>, atom: &GeoAtom) -> Result<(), Memory>
    ensures { IfOk result (λ u. path.new.items ≡ path.old.items ++ kept needs (value_in atom.now ∷ [])) }
{
    if !needs {
        return Ok(());
    }
    path.push(position_value(atom))?;
    Ok(())
}

/// Puts a path behind another.
fn push_path(path: &mut Vec<Pos>, more: Vec<Pos>) -> Result<(), Memory>
    ensures { IfOk result (λ u. path.new.items ≡ path.old.items ++ more.items) }
{
    let mut more = more;
    path.append(&mut more)?;
    Ok(())
}

/// Puts the values of an atom's positions behind a path, where shapes are kept.
fn push_values(needs: bool, path: &mut Vec<Pos>, atom: GeoAtom) -> Result<(), Memory>
    ensures { IfOk result (λ u. path.new.items ≡ path.old.items ++ path_in needs atom) }
{
    match atom {
        GeoAtom::Track(more) => push_path(path, Box::into_inner(more.track).path),
        other => push_value(needs, path, &other),
    }
}

/// Puts the positions of an atom behind those of a track.
fn lengthen(needs: bool, track: &mut Track, atom: GeoAtom) -> Result<(), Memory>
    ensures { IfOk result (λ u. Lengthens needs track.old atom track.new) }
{
    track.last = last_of(&atom);
    track.count = count_to_four(track.count as usize + count_of(&atom) as usize);
    track.fault = first_fault(track.fault, fault_of(&atom));
    push_values(needs, &mut track.path, atom)
}

/// The values of one position, where shapes are kept, with room for more.
fn new_path(alloc: Global, needs: bool, atom: &GeoAtom) -> Result<Vec<Pos>, Memory>
    ensures { IfOk result (λ path. path.items ≡ kept needs (value_in atom.now ∷ [])) }
{
    if !needs {
        return Ok(Vec::new(alloc));
    }
    let mut path = Vec::with_capacity(alloc, ROOM)?;
    path.push(position_value(atom))?;
    Ok(path)
}

/// A track of one position.
fn one_position(alloc: Global, needs: bool, atom: &GeoAtom) -> Result<TrackAtom, Memory>
    requires { as_track atom.now ≡ None }
    ensures { IfOk result (Begins needs atom.now) }
{
    let track = Track {
        first: place_of(atom),
        last: place_of(atom),
        count: 1,
        fault: position_fault(atom),
        path: new_path(alloc, needs, atom)?,
    };
    Ok(TrackAtom {
        at: at_of(atom),
        track: Box::new(alloc, track)?,
    })
}

/// A track of one position, or the track itself.
fn new_track(alloc: Global, needs: bool, atom: GeoAtom) -> Result<TrackAtom, Memory>
    ensures { IfOk result (Begins needs atom) }
{
    match atom {
        GeoAtom::Track(track) => Ok(track),
        other => one_position(alloc, needs, &other),
    }
}

/// A track, and the positions of an atom behind it.
fn joined_track(needs: bool, before: TrackAtom, atom: GeoAtom) -> Result<TrackAtom, Memory>
    ensures { IfOk result (Joins needs before atom) }
{
    let at = before.at.min(at_of(&atom));
    let mut track = before.track;
    lengthen(needs, &mut *track, atom)?;
    Ok(TrackAtom { at, track })
}

/// The positions of two atoms one behind the other, put behind those of an array's items.
pub fn join_positions(
    alloc: Global,
    algebra: &GeoAlgebra,
    items: &mut Vec<GeoAtom>,
    last: GeoAtom,
    atom: GeoAtom,
) -> Result<(), Memory>
    requires items { All (IsOwn algebra.now) items.old.items }
    requires last { IsOwn algebra.now last }
    requires atom { IsOwn algebra.now atom }
    requires positions { position_is last ≡ true }
    requires position { position_is atom ≡ true }
    ensures own { IfOk result (λ u. All (IsOwn algebra.now) items.new.items) }
    ensures fold { IfOk result (λ u. Adds algebra.now (items.old.items ++ last ∷ []) atom items.new.items) }
{
    let needs = algebra.needs_shapes();
    let before = new_track(alloc, needs, last)?;
    let joined = joined_track(needs, before, atom)?;
    items.push(GeoAtom::Track(joined))?;
    Ok(())
}

/// A track behind which the positions of an atom come, or those alone.
fn track_behind(
    alloc: Global,
    needs: bool,
    before: Option<TrackAtom>,
    atom: GeoAtom,
) -> Result<TrackAtom, Memory>
    ensures { IfOk result (JoinsIf needs before atom) }
{
    match before {
        Some(track) => joined_track(needs, track, atom),
        None => new_track(alloc, needs, atom),
    }
}

/// All positions as one track, where there are some.
fn one_track(
    alloc: Global,
    algebra: &GeoAlgebra,
    atoms: Vec<GeoAtom>,
) -> Result<Option<TrackAtom>, Memory>
    requires { All (IsOwn algebra.now) atoms.items }
    ensures own { IfOk result (IfOwnTrack algebra.now) }
    ensures joins { IfOk result (JoinsPositions algebra.now atoms.items) }
{
    let needs = algebra.needs_shapes();
    let mut joined = None;
    for atom in atoms {
        joined = Some(track_behind(alloc, needs, joined, atom)?);
    }
    Ok(joined)
}

/// Whether the last position is the first, or one of the two has a fault, so that this isn't tested.
fn close(first: Option<Pos>, last: Option<Pos>) -> bool
    ensures { result ≡ places_close first last }
{
    match (first, last) {
        (Some(first), Some(last)) => first.x == last.x && first.y == last.y,
        _ => true,
    }
}

/// A path that is kept: a short one with no more room than it needs.
fn settled_path(alloc: Global, path: Vec<Pos>) -> Result<Vec<Pos>, Memory>
    ensures { IfOk result (λ settled. settled.items ≡ path.items) }
{
    if path.len() <= SHORT {
        exact_path(alloc, path)
    } else {
        Ok(path)
    }
}

/// What is kept of the list of a track's positions, which begins at the offset.
fn track_points(alloc: Global, at: u32, track: Track) -> Result<Points, Memory>
    ensures { IfOk result (ClosesTrack at track) }
{
    let closes = close(track.first, track.last);
    Ok(Points {
        as_points: track.fault,
        as_line: first_fault(line_fault(track.count, at), track.fault),
        as_ring: first_fault(ring_fault(track.count, closes, at), track.fault),
        path: settled_path(alloc, track.path)?,
    })
}

/// An array of the positions of a track.
fn points_array(alloc: Global, at: u32, track: TrackAtom) -> Result<PointsAtom, Memory>
    ensures { IfOk result (ClosesTrackAtom at track) }
{
    let points = track_points(alloc, at, Box::into_inner(track.track))?;
    Ok(PointsAtom {
        at,
        least: track.at,
        points: Box::new(alloc, points)?,
    })
}

/// An array of positions, of which some are a track.
pub fn track_array(
    alloc: Global,
    algebra: &GeoAlgebra,
    at: u32,
    items: Vec<GeoAtom>,
) -> Result<GeoAtom, Memory>
    requires own { All (IsOwn algebra.now) items.items }
    requires positions { list_all position_is items.items ≡ true }
    ensures own { IfOk result (IsOwn algebra.now) }
    ensures fold { IfOk result (ClosesItems algebra.now at items.items) }
{
    match one_track(alloc, algebra, items)? {
        Some(track) => Ok(GeoAtom::Points(points_array(alloc, at, track)?)),
        None => Ok(GeoAtom::Empty(at)),
    }
}
