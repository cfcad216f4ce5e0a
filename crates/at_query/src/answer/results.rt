//! The part of no feature and of one, and the answer that a part gives.

ghost use Rattle.std.specs.Prelude.{◌≡◌, List, [], ◌∷◌, IfOk};
ghost use Rattle.at_geom.specs.Shapes.{ArePolygonsInRange};
ghost use Rattle.at_query.specs.Ranges.{IsQueryInRange, IsFeatureInRange, AreFeaturesInRange};
ghost use Rattle.at_query.specs.Results.{IsResult};
ghost use Rattle.at_query.specs.Parts.{wrapped_sum, IsKeptOf, entry_of as the_entry};
ghost use Rattle.at_query.specs.Parts.{IsPart, IsProper, IsAnswerable, IsSaid, AreFew};
ghost use Rattle.at_query.specs.declared.query.queries.Query.{Query};
ghost use Rattle.at_query.specs.declared.features.Feature.{Feature};

use crate::answer::answers::{Answer, Offsets};
use crate::answer::holding::holds;
use crate::answer::parts::{Entries, Entry, Part};
use crate::answer::shape_hulls::hull_of;
use crate::features::Feature;
use crate::query::queries::{Query, Verb};
use at_geom::{Path, Polygon, doubled_area, extent};
use at_text::Memory;
use std::alloc::Global;

/// The part of no feature. It takes no memory.
pub fn part_none(alloc: Global, query: &Query) -> Part
    ensures part { IsPart query.now [] result }
    ensures proper { IsProper result }
{
    nothing_kept(alloc, query.verb)
}

/// What a verb keeps where no feature is left.
fn nothing_kept(alloc: Global, verb: Verb) -> Part
    ensures { IsKeptOf verb [] result }
{
    match verb {
        Verb::Select => Part::Offsets(Offsets::from_vec(Vec::new(alloc))),
        Verb::Count => Part::Count(0),
        Verb::Area => Part::Area(0),
        Verb::Extent => Part::Spread(None),
        Verb::Hull => Part::Hull(Path::from_vec(Vec::new(alloc))),
        Verb::Join => Part::Entries(Entries::from_vec(Vec::new(alloc))),
    }
}

/// The sum of the doubled areas of polygons, by wrapping.
pub(crate) fn area_of(polygons: &[Polygon]) -> i128
    requires { ArePolygonsInRange polygons.now }
    ensures { result ≡ wrapped_sum polygons.now }
{
    let mut sum = 0i128;
    for polygon in polygons {
        sum = sum.wrapping_add(doubled_area(polygon));
    }
    sum
}

/// The offset of a feature, as a list.
fn offset_of(alloc: Global, feature: Feature) -> Result<Offsets, Memory>
    ensures { IfOk result (λ offsets. offsets ≡ feature.at ∷ []) }
{
    let mut items = Vec::with_capacity(alloc, 1)?;
    items.push(feature.at)?;
    Ok(Offsets::from_vec(items))
}

/// The entry of a feature.
pub(crate) fn entry_of(feature: Feature) -> Entry
    ensures { result ≡ the_entry feature }
{
    Entry {
        at: feature.at,
        extent: extent(&feature.shape),
        shape: feature.shape,
    }
}

/// The entry of a feature, as a list.
fn entry_alone(alloc: Global, feature: Feature) -> Result<Entries, Memory>
    ensures { IfOk result (λ entries. entries ≡ the_entry feature ∷ []) }
{
    let mut items = Vec::with_capacity(alloc, 1)?;
    items.push(entry_of(feature))?;
    Ok(Entries::from_vec(items))
}

/// What a verb keeps of one feature.
fn one_kept(alloc: Global, verb: Verb, feature: Feature) -> Result<Part, Memory>
    requires { IsFeatureInRange feature }
    ensures { IfOk result (IsKeptOf verb (feature ∷ [])) }
{
    match verb {
        Verb::Select => Ok(Part::Offsets(offset_of(alloc, feature)?)),
        Verb::Count => Ok(Part::Count(1)),
        Verb::Area => Ok(Part::Area(area_of(feature.shape.polygons.as_slice()))),
        Verb::Extent => Ok(Part::Spread(extent(&feature.shape))),
        Verb::Hull => Ok(Part::Hull(hull_of(alloc, feature.shape)?)),
        Verb::Join => Ok(Part::Entries(entry_alone(alloc, feature)?)),
    }
}

/// The part of the list of one feature.
pub fn part_of(alloc: Global, query: &Query, feature: Feature) -> Result<Part, Memory>
    requires query_in_range { IsQueryInRange query.now }
    requires feature_in_range { IsFeatureInRange feature }
    ensures part { IfOk result (IsPart query.now (feature ∷ [])) }
    ensures proper { IfOk result IsProper }
{
    if holds(query, &feature) {
        one_kept(alloc, query.verb, feature)
    } else {
        Ok(part_none(alloc, query))
    }
}

/// The answer that the part of a whole list of features gives. With fewer than 2^64 features and fewer than 2^26
/// positions in all no count and no area wraps, so it is exact. The part of a join has no answer of its own. It
/// takes no memory.
pub fn answer_of(part: Part) -> Answer
    requires { IsAnswerable part }
    ensures said { IsSaid part result }
    ensures exact { (query : Query) (fs : List Feature) → IsPart query fs part → AreFeaturesInRange fs → AreFew fs
        → IsResult query fs result }
{
    match part {
        Part::Offsets(offsets) => Answer::Offsets(offsets),
        Part::Count(count) => Answer::Number(i128::from(count)),
        Part::Area(area) => Answer::Number(area),
        Part::Spread(spread) => Answer::Spread(spread),
        Part::Entries(_) => unreachable!(),
        Part::Hull(hull) => Answer::Hull(hull),
    }
}
