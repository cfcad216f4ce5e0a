//! A feature that is added to what is kept of those before it.

ghost use Rattle.std.specs.Prelude.{◌≡◌, true, ◌++◌, IfOk, IsOk};
ghost use Rattle.at_geom.specs.Shapes.{ArePathsInRange, ArePolygonsInRange, IsShapeInRange, positions, joined};
ghost use Rattle.at_geom.specs.Shapes.{positions_of_polygons};
ghost use Rattle.at_hull.specs.Growth.{HaveOneHull, held};
ghost use Rattle.at_query.specs.Ranges.{IsFeatureInRange};
ghost use Rattle.at_query.specs.Parts.{IsOfOneSize, JoinsParts};
ghost use Rattle.at_query.specs.Accumulators.{IsNoHull, KeepsNoShape, added_by, is_entries, is_hull};
ghost use Rattle.at_query.specs.Holding.{lent_feature};

use crate::answer::merging::joined_spread;
use crate::answer::parts::Part;
use crate::answer::results::{area_of, entry_of};
use crate::features::{Feature, LentFeature};
use crate::query::queries::Verb;
use at_geom::{Path, Polygon, Shape, extent};
use at_hull::HullBuilder;
use at_text::Memory;

/// Whether a verb asks for the hull.
pub(crate) fn asks_hull(verb: Verb) -> bool
    ensures { result ≡ is_hull verb }
{
    match verb {
        Verb::Hull => true,
        Verb::Select => false,
        Verb::Count => false,
        Verb::Area => false,
        Verb::Extent => false,
        Verb::Join => false,
    }
}

/// Whether a part keeps the shapes of features.
fn keeps_shapes(part: &Part) -> bool
    ensures { result ≡ is_entries part.now }
{
    match part {
        Part::Entries(_) => true,
        Part::Offsets(_) => false,
        Part::Count(_) => false,
        Part::Area(_) => false,
        Part::Spread(_) => false,
        Part::Hull(_) => false,
    }
}

/// Adds a feature to a part that keeps no shape and is no hull.
pub(crate) fn add_lent_to_part(part: &mut Part, feature: &LentFeature) -> Result<(), Memory>
    requires kind { KeepsNoShape part.old }
    requires in_range { IsFeatureInRange (lent_feature feature.now) }
    ensures joined { IfOk result (λ _. JoinsParts part.old (added_by (lent_feature feature.now) part.old) part.new) }
    ensures sized { IsOfOneSize part.old → IsOk result }
{
    match part {
        Part::Offsets(offsets) => offsets.push(feature.at),
        Part::Count(count) => {
            *count = count.wrapping_add(1);
            Ok(())
        }
        Part::Area(area) => {
            *area = area.wrapping_add(area_of(feature.shape.polygons.as_slice()));
            Ok(())
        }
        Part::Spread(spread) => {
            *spread = joined_spread(*spread, extent(feature.shape));
            Ok(())
        }
        Part::Entries(_) => unreachable!(),
        Part::Hull(_) => unreachable!(),
    }
}

/// Adds the entry of a feature to a part that keeps shapes.
fn add_entry(part: &mut Part, feature: Feature) -> Result<(), Memory>
    requires kind { is_entries part.old ≡ true }
    ensures { IfOk result (λ _. JoinsParts part.old (added_by feature part.old) part.new) }
{
    match part {
        Part::Entries(entries) => entries.push(entry_of(feature)),
        _ => unreachable!(),
    }
}

/// Adds a feature to a part that is no hull.
pub(crate) fn add_to_part(part: &mut Part, feature: Feature) -> Result<(), Memory>
    requires kind { IsNoHull part.old }
    requires in_range { IsFeatureInRange feature }
    ensures joined { IfOk result (λ _. JoinsParts part.old (added_by feature part.old) part.new) }
    ensures sized { IsOfOneSize part.old → IsOk result }
{
    if keeps_shapes(part) {
        return add_entry(part, feature);
    }
    add_lent_to_part(part, &feature.lent())
}

/// Adds the positions of paths to those of a hull.
fn add_paths(hull: &mut HullBuilder, paths: &[Path]) -> Result<(), Memory>
    requires { ArePathsInRange paths.now }
    ensures { IfOk result (λ _. HaveOneHull (held hull.old ++ joined paths.now) (held hull.new)) }
{
    for path in paths {
        hull.add(path.as_slice())?;
    }
    Ok(())
}

/// Adds the positions of polygons to those of a hull.
fn add_polygons(hull: &mut HullBuilder, polygons: &[Polygon]) -> Result<(), Memory>
    requires { ArePolygonsInRange polygons.now }
    ensures { IfOk result (λ _. HaveOneHull (held hull.old ++ positions_of_polygons polygons.now) (held hull.new)) }
{
    for polygon in polygons {
        add_paths(hull, polygon.rings.as_slice())?;
    }
    Ok(())
}

/// Adds all positions of a shape to those of a hull.
fn add_positions(hull: &mut HullBuilder, shape: &Shape) -> Result<(), Memory>
    requires { IsShapeInRange shape.now }
    ensures { IfOk result (λ _. HaveOneHull (held hull.old ++ positions shape.now) (held hull.new)) }
{
    hull.add(shape.points.as_slice())?;
    add_paths(hull, shape.lines.as_slice())?;
    add_polygons(hull, shape.polygons.as_slice())
}

/// Adds a shape to a hull. Where its extent is seen to lie within the hull, its positions are not looked at one by one.
pub(crate) fn add_shape(hull: &mut HullBuilder, shape: &Shape) -> Result<(), Memory>
    requires { IsShapeInRange shape.now }
    ensures { IfOk result (λ _. HaveOneHull (held hull.old ++ positions shape.now) (held hull.new)) }
{
    let Some(around) = extent(shape) else {
        return Ok(());
    };
    if hull.covers(around) {
        return Ok(());
    }
    add_positions(hull, shape)
}
