//! The bands of a shape, and what meets the shape.
//!
//! A shape's heights are cut into zones, and each zone's into bands, at most 64 at a time, so there are at most 4,096
//! bands. Each keeps the edges that reach into it, and a position is tested against these alone.
//!
//! Let a shape have n segments, of which m lie at a height on the average. There are no more bands than positions for
//! four to each, and at each cut no more than together hold some three times as many segments as are cut. So a band has
//! about m + n / 4,096 segments, or m + 4 where that is more, and some 2 m at most where segments are so long that many
//! bands would hold each. To make the bands takes at most 64 passes over the shape, and 64 over what the zones hold.
//! The bands hold about n segments where m is small, and some nine times n at worst. In a comb, whose teeth have all
//! heights, m is n: it stays whole, in one band, and a position costs a pass over it.

ghost use Rattle.std.specs.Prelude.{◌≡◌, IsTrue, ◌↔◌, IfOk, IfSome, All, Some, None};
ghost use Rattle.at_text.specs.Lists.{SomeOf};
ghost use Rattle.at_geom.specs.declared.positions.Pos.{Pos};
ghost use Rattle.at_geom.specs.Segments.{IsInRange};
ghost use Rattle.at_geom.specs.Shapes.{IsShapeInRange, IsInSome, SomeIsIn, MeetsSome, SomeMeet, Meet, segments};
ghost use Rattle.at_geom.specs.Shapes.{positions, extent_of};
ghost use Rattle.at_band.specs.Banded.{IsAt, IsBandOf, IsZoneOf, IsFrameOf, AreZonesOf, IsOfPoints, MeetsSomeWithin};
ghost use Rattle.at_band.specs.Banded.{IsMetIn, IsMetInZone};
ghost use Rattle.at_band.specs.Touched.{IsOnShape, SomeIsOn};

use crate::copies::copied_shape;
use crate::found::part_is_met;
use crate::thinning::{Heights, spans};
use crate::touches::shape_is_touched;
use crate::zones::{Band, Zone, heights_of, zones_of};
use at_geom::{
    Extent, Pos, Shape, are_closed, extent, is_in_any, reach, shape_reaches, some_position,
    some_segment,
};
use at_text::Memory;
use std::alloc::Global;
use std::marker::Model;

/// Where a shape lies.
#[derive(Clone, Copy)]
pub(crate) struct Frame {
    /// Its extent.
    pub around: Extent,
    /// Where the positions in its polygons lie, if it can be told.
    pub reach: Option<Extent>,
    /// Whether the exterior of each of its polygons is known to be closed.
    pub is_closed: bool,
}

/// A shape, with what of it reaches into each band of its heights.
#[derive(Drop)]
pub struct Bands {
    shape: Shape,
    frame: Option<Frame>,
    zones: Vec<Zone>,
}

impl Model for Bands {
    ghost use Rattle.at_geom.specs.declared.shapes.Shape.{Shape};
    ghost use Rattle.at_band.specs.Banded.{AreKept};

    ghost Value = { Shape };

    ghost view = { λ b. b.shape };

    ghost invariant = { λ b. AreKept b.shape b.frame b.zones.items };
}

impl Bands {
    ghost use Rattle.std.specs.Prelude.{◌≡◌, IsTrue, ◌↔◌, IfOk};
    ghost use Rattle.at_geom.specs.Shapes.{IsShapeInRange, Meet};

    /// The bands of a shape, of which they keep a copy.
    pub fn new(alloc: Global, shape: &Shape) -> Result<Bands, Memory>
        ensures { IfOk result (λ b. b ≡ shape.now) }
    {
        let kept = copied_shape(alloc, shape)?;
        let Some(around) = extent(shape) else {
            return Ok(Bands {
                shape: kept,
                frame: None,
                zones: Vec::new(alloc),
            });
        };
        let zones = zones_of(alloc, shape, around)?;
        let frame = Frame {
            around,
            reach: reach(shape, around),
            is_closed: are_closed(shape.polygons.as_slice()),
        };
        Ok(Bands {
            shape: kept,
            frame: Some(frame),
            zones,
        })
    }

    /// Bands of an equal shape.
    pub fn copy(&self, alloc: Global) -> Result<Bands, Memory>
        ensures { IfOk result (λ b. b ≡ self.now) }
    {
        Bands::new(alloc, &self.shape)
    }

    /// Whether the kept shape and the other have something in common, as `shapes_meet` tells it.
    pub fn meets(&self, other: &Shape) -> bool
        requires kept_in_range { IsShapeInRange self.now }
        requires other_in_range { IsShapeInRange other.now }
        ensures { IsTrue result ↔ Meet other.now self.now }
    {
        let Some(frame) = self.frame else {
            return false;
        };
        meets_kept(other, &self.shape, frame, self.zones.as_slice())
    }
}

fn meets_kept(other: &Shape, shape: &Shape, frame: Frame, zones: &[Zone]) -> bool
    requires other_in_range { IsShapeInRange other.now }
    requires shape_in_range { IsShapeInRange shape.now }
    requires kept { AreZonesOf shape.now frame zones.now }
    ensures { IsTrue result ↔ Meet other.now shape.now }
{
    let Some(around) = extent(other) else {
        return false;
    };
    if are_clear(other, around, shape, frame) {
        return false;
    }
    if is_of_points(other) {
        return points_are_on(other.points.as_slice(), shape, frame, zones);
    }
    if positions_are_in(other, shape, frame, zones) {
        return true;
    }
    if segments_meet_kept(other, shape, frame, zones) {
        return true;
    }
    shape_is_reached(shape, other, around)
}

/// Whether some position of the other shape is in one of the kept shape's polygons.
fn positions_are_in(other: &Shape, shape: &Shape, frame: Frame, zones: &[Zone]) -> bool
    requires other_in_range { IsShapeInRange other.now }
    requires shape_in_range { IsShapeInRange shape.now }
    requires kept { AreZonesOf shape.now frame zones.now }
    ensures { IsTrue result ↔ SomeIsIn (positions other.now) shape.now.polygons }
{
    some_position(other, &move |p| position_is_in(p, shape, frame, zones))
}

/// Whether some segments of the other shape and of the kept one have a common point.
fn segments_meet_kept(other: &Shape, shape: &Shape, frame: Frame, zones: &[Zone]) -> bool
    requires other_in_range { IsShapeInRange other.now }
    requires shape_in_range { IsShapeInRange shape.now }
    requires kept { AreZonesOf shape.now frame zones.now }
    ensures { IsTrue result ↔ SomeMeet (segments other.now) (segments shape.now) }
{
    some_segment(
        other,
        &move |a, b| segment_meets_kept(a, b, shape, frame, zones),
    )
}

/// Whether one of the shape's positions is in a polygon of the other shape.
fn shape_is_reached(shape: &Shape, other: &Shape, around: Extent) -> bool
    requires shape_in_range { IsShapeInRange shape.now }
    requires other_in_range { IsShapeInRange other.now }
    requires covered { extent_of (positions other.now) ≡ Some around }
    ensures { IsTrue result ↔ SomeIsIn (positions shape.now) other.now.polygons }
{
    let polygons = other.polygons.as_slice();
    if polygons.is_empty() {
        return false;
    }
    shape_reaches(shape, polygons, reach(other, around))
}

/// Whether a shape has neither lines nor polygons.
fn is_of_points(shape: &Shape) -> bool
    ensures { IsTrue result → IsOfPoints shape.now }
{
    shape.lines.as_slice().is_empty() && shape.polygons.as_slice().is_empty()
}

/// Whether one of the positions lies on the shape.
fn points_are_on(points: &[Pos], shape: &Shape, frame: Frame, zones: &[Zone]) -> bool
    requires points_in_range { All IsInRange points.now }
    requires shape_in_range { IsShapeInRange shape.now }
    requires kept { AreZonesOf shape.now frame zones.now }
    ensures { IsTrue result ↔ SomeIsOn points.now shape.now }
{
    for p in points {
        if is_on(*p, shape, frame, zones) {
            return true;
        }
    }
    false
}

/// Whether a position lies on one of the shape's segments or in one of its polygons.
fn is_on(p: Pos, shape: &Shape, frame: Frame, zones: &[Zone]) -> bool
    requires p_in_range { IsInRange p }
    requires shape_in_range { IsShapeInRange shape.now }
    requires kept { AreZonesOf shape.now frame zones.now }
    ensures { IsTrue result ↔ IsOnShape p shape.now }
{
    if !frame.around.touches_box(p, p) {
        return position_is_in(p, shape, frame, zones);
    }
    let Some(band) = band_at(p, shape, frame.around, zones) else {
        return shape_is_touched(p, shape);
    };
    shape_is_touched(p, &band.part)
}

/// Which of so many parts of the heights has a position, counted from the lowest.
fn part_at(p: Pos, heights: Heights, count: usize) -> usize {
    if count == 1 {
        return 0;
    }
    let height = heights.high.abs_diff(heights.low).saturating_add(1);
    let above = p.y.abs_diff(heights.low);
    (above.saturating_mul(count as u64) / height) as usize
}

/// The zone in which a position is looked for, where there is one.
fn zone_at<'a>(p: Pos, shape: &Shape, around: Extent, zones: &'a [Zone]) -> Option<&'a Zone>
    requires { All (IsZoneOf shape.now) zones.now }
    ensures { IfSome result (λ zone. IsZoneOf shape.now zone.now) }
{
    zones.get(part_at(p, heights_of(around), zones.len()))
}

/// A band of the zone that has the height of a position, where one is found.
fn band_in<'a>(p: Pos, shape: &Shape, zone: &'a Zone) -> Option<&'a Band>
    requires { IsZoneOf shape.now zone.now }
    ensures { IfSome result (λ band. IsAt p.y band.now.heights × IsBandOf shape.now band.now) }
{
    let bands = zone.bands.as_slice();
    let Some(band) = bands.get(part_at(p, zone.heights, bands.len())) else {
        return None;
    };
    if has_height(band.heights, p) {
        Some(band)
    } else {
        None
    }
}

/// A band that has the height of a position, where one is found.
fn band_at<'a>(p: Pos, shape: &Shape, around: Extent, zones: &'a [Zone]) -> Option<&'a Band>
    requires { All (IsZoneOf shape.now) zones.now }
    ensures { IfSome result (λ band. IsAt p.y band.now.heights × IsBandOf shape.now band.now) }
{
    let Some(zone) = zone_at(p, shape, around, zones) else {
        return None;
    };
    band_in(p, shape, zone)
}

/// Whether the height of a position is one of the heights.
fn has_height(heights: Heights, p: Pos) -> bool
    ensures { IsTrue result ↔ IsAt p.y heights }
{
    heights.low <= p.y && p.y <= heights.high
}

/// Whether a position is in one of the shape's polygons.
fn position_is_in(p: Pos, shape: &Shape, frame: Frame, zones: &[Zone]) -> bool
    requires p_in_range { IsInRange p }
    requires shape_in_range { IsShapeInRange shape.now }
    requires kept { AreZonesOf shape.now frame zones.now }
    ensures { IsTrue result ↔ IsInSome p shape.now.polygons }
{
    match frame.reach {
        None => is_in_bands(p, shape, frame, zones),
        Some(around) => around.contains(p) && is_in_bands(p, shape, frame, zones),
    }
}

fn is_in_bands(p: Pos, shape: &Shape, frame: Frame, zones: &[Zone]) -> bool
    requires p_in_range { IsInRange p }
    requires shape_in_range { IsShapeInRange shape.now }
    requires kept { AreZonesOf shape.now frame zones.now }
    ensures { IsTrue result ↔ IsInSome p shape.now.polygons }
{
    match band_at(p, shape, frame.around, zones) {
        Some(band) => is_in_any(p, band.part.polygons.as_slice()),
        None => is_in_any(p, shape.polygons.as_slice()),
    }
}

/// Whether the segment `ab` meets one of the shape's.
fn segment_meets_kept(a: Pos, b: Pos, shape: &Shape, frame: Frame, zones: &[Zone]) -> bool
    requires a_in_range { IsInRange a }
    requires b_in_range { IsInRange b }
    requires shape_in_range { IsShapeInRange shape.now }
    requires kept { AreZonesOf shape.now frame zones.now }
    ensures { IsTrue result ↔ MeetsSome a b (segments shape.now) }
{
    if !frame.around.touches_box(a, b) {
        return false;
    }
    let Some(zone) = zone_at(a, shape, frame.around, zones) else {
        return segment_meets_zones(a, b, shape, frame, zones);
    };
    if has_height(zone.heights, a) && has_height(zone.heights, b) {
        return segment_meets_zone(a, b, shape, zone);
    }
    segment_meets_zones(a, b, shape, frame, zones)
}

/// Whether the segment `ab`, whose ends are at heights of the zone, meets one of the shape's.
fn segment_meets_zone(a: Pos, b: Pos, shape: &Shape, zone: &Zone) -> bool
    requires a_in_range { IsInRange a }
    requires b_in_range { IsInRange b }
    requires shape_in_range { IsShapeInRange shape.now }
    requires kept { IsZoneOf shape.now zone.now }
    requires a_within { IsAt a.y zone.now.heights }
    requires b_within { IsAt b.y zone.now.heights }
    ensures { IsTrue result ↔ MeetsSome a b (segments shape.now) }
{
    let Some(band) = band_in(a, shape, zone) else {
        return bands_are_met(a, b, shape, zone.bands.as_slice());
    };
    if !has_height(band.heights, b) {
        return bands_are_met(a, b, shape, zone.bands.as_slice());
    }
    segment_meets_band(a, b, shape, band)
}

fn segment_meets_band(a: Pos, b: Pos, shape: &Shape, band: &Band) -> bool
    requires a_in_range { IsInRange a }
    requires b_in_range { IsInRange b }
    requires shape_in_range { IsShapeInRange shape.now }
    requires kept { IsBandOf shape.now band.now }
    ensures { IsTrue result ↔ MeetsSomeWithin band.now.heights.low band.now.heights.high a b (segments shape.now) }
{
    part_is_met(a, b, &band.part, band.heights)
}

fn segment_meets_zones(a: Pos, b: Pos, shape: &Shape, frame: Frame, zones: &[Zone]) -> bool
    requires a_in_range { IsInRange a }
    requires b_in_range { IsInRange b }
    requires shape_in_range { IsShapeInRange shape.now }
    requires kept { AreZonesOf shape.now frame zones.now }
    ensures { IsTrue result ↔ MeetsSome a b (segments shape.now) }
{
    for zone in zones {
        if is_met_in_zone(a, b, shape, zone) {
            return true;
        }
    }
    false
}

/// Whether the segment `ab` reaches into the zone's heights, and meets one of the shape's segments in its bands.
fn is_met_in_zone(a: Pos, b: Pos, shape: &Shape, zone: &Zone) -> bool
    requires a_in_range { IsInRange a }
    requires b_in_range { IsInRange b }
    requires shape_in_range { IsShapeInRange shape.now }
    requires kept { IsZoneOf shape.now zone.now }
    ensures { IsTrue result ↔ IsMetInZone a b shape.now zone.now }
{
    if !spans(zone.heights, a, b) {
        return false;
    }
    bands_are_met(a, b, shape, zone.bands.as_slice())
}

fn bands_are_met(a: Pos, b: Pos, shape: &Shape, bands: &[Band]) -> bool
    requires a_in_range { IsInRange a }
    requires b_in_range { IsInRange b }
    requires shape_in_range { IsShapeInRange shape.now }
    requires kept { All (IsBandOf shape.now) bands.now }
    ensures { IsTrue result ↔ SomeOf (IsMetIn a b shape.now) bands.now }
{
    for band in bands {
        if is_met_in(a, b, shape, band) {
            return true;
        }
    }
    false
}

/// Whether the segment `ab` reaches into the band's heights, and meets one of the shape's segments that do.
fn is_met_in(a: Pos, b: Pos, shape: &Shape, band: &Band) -> bool
    requires a_in_range { IsInRange a }
    requires b_in_range { IsInRange b }
    requires shape_in_range { IsShapeInRange shape.now }
    requires kept { IsBandOf shape.now band.now }
    ensures { IsTrue result ↔ IsMetIn a b shape.now band.now }
{
    if !spans(band.heights, a, b) {
        return false;
    }
    segment_meets_band(a, b, shape, band)
}

/// Whether the extents of two shapes show that they don't meet: where the extents are apart, and no exterior is
/// open.
fn are_clear(a: &Shape, around: Extent, b: &Shape, frame: Frame) -> bool
    requires covered { extent_of (positions a.now) ≡ Some around }
    requires framed { IsFrameOf b.now frame }
    ensures { IsTrue result → ¬ Meet a.now b.now }
{
    if around.touches_box(frame.around.low, frame.around.high) {
        return false;
    }
    frame.is_closed && are_closed(a.polygons.as_slice())
}
