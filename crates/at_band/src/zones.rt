//! A shape's heights in zones, and each zone's in bands.

ghost use Rattle.std.specs.Prelude.{◌≡◌, ◌≤ℤ◌, IfOk, All, map};
ghost use Rattle.at_band.specs.Banded.{IsOrdered, IsBandOf, IsZoneOf, AreCovering, heights_of_band, heights_of_zone};

use crate::counts::count_of;
use crate::cuts::cut_heights;
use crate::thinning::{Heights, shape_within};
use at_geom::{Extent, Shape};
use at_text::Memory;
use std::alloc::Global;

/// What of a shape reaches into some heights.
#[derive(Drop)]
pub(crate) struct Band {
    pub heights: Heights,
    pub part: Shape,
}

/// Some heights, and the bands that they are cut into.
#[derive(Drop)]
pub(crate) struct Zone {
    pub heights: Heights,
    pub bands: Vec<Band>,
}

fn band_of(alloc: Global, shape: &Shape, heights: Heights) -> Result<Band, Memory>
    requires ordered { IsOrdered heights }
    ensures kept { IfOk result (λ band. IsBandOf shape.now band) }
    ensures same { IfOk result (λ band. band.heights ≡ heights) }
{
    let part = shape_within(alloc, shape, heights)?;
    Ok(Band { heights, part })
}

/// The bands of a shape at some heights.
fn bands_at(alloc: Global, shape: &Shape, cuts: &[Heights]) -> Result<Vec<Band>, Memory>
    requires ordered { All IsOrdered cuts.now }
    ensures kept { IfOk result (λ bands. All (IsBandOf shape.now) bands.items) }
    ensures same { IfOk result (λ bands. map heights_of_band bands.items ≡ cuts.now) }
{
    let mut bands = Vec::with_capacity(alloc, cuts.len())?;
    for heights in cuts {
        bands.push(band_of(alloc, shape, *heights)?)?;
    }
    Ok(bands)
}

/// The zone of some heights of a shape. Its bands are taken from what of the shape reaches into the zone.
fn zone_of(alloc: Global, shape: &Shape, heights: Heights) -> Result<Zone, Memory>
    requires ordered { IsOrdered heights }
    ensures kept { IfOk result (λ zone. IsZoneOf shape.now zone) }
    ensures same { IfOk result (λ zone. zone.heights ≡ heights) }
{
    let part = shape_within(alloc, shape, heights)?;
    let cuts = cut_heights(alloc, heights, count_of(&part, heights))?;
    let bands = bands_at(alloc, &part, cuts.as_slice())?;
    Ok(Zone { heights, bands })
}

/// The zones of a shape at some heights.
fn zones_at(alloc: Global, shape: &Shape, cuts: &[Heights]) -> Result<Vec<Zone>, Memory>
    requires ordered { All IsOrdered cuts.now }
    ensures kept { IfOk result (λ zones. All (IsZoneOf shape.now) zones.items) }
    ensures same { IfOk result (λ zones. map heights_of_zone zones.items ≡ cuts.now) }
{
    let mut zones = Vec::with_capacity(alloc, cuts.len())?;
    for heights in cuts {
        zones.push(zone_of(alloc, shape, *heights)?)?;
    }
    Ok(zones)
}

/// The heights of an extent.
pub(crate) fn heights_of(around: Extent) -> Heights
    ensures begins { result.low ≡ around.low.y }
    ensures ordered { IsOrdered result }
    ensures ends { around.high.y ≤ℤ result.high }
{
    let low = around.low.y;
    let high = around.high.y.max(low);
    Heights { low, high }
}

/// The zones of a shape with this extent.
pub(crate) fn zones_of(alloc: Global, shape: &Shape, around: Extent) -> Result<Vec<Zone>, Memory>
    ensures kept { IfOk result (λ zones. All (IsZoneOf shape.now) zones.items) }
    ensures covering { IfOk result (λ zones. AreCovering around.low.y around.high.y (map heights_of_zone zones.items)) }
{
    let whole = heights_of(around);
    let cuts = cut_heights(alloc, whole, count_of(shape, whole))?;
    zones_at(alloc, shape, cuts.as_slice())
}
