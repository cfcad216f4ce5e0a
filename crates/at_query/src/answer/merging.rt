//! The part of two neighbouring lists of features, from the parts of both.

ghost use Rattle.std.specs.Prelude.{◌≡◌, ◌++◌, IfOk, IsOk};
ghost use Rattle.at_query.specs.Parts.{AreAlike, IsOfOneSize, IsProper, IsHullInRange, JoinsParts};
ghost use Rattle.at_query.specs.Joined.{around_both, JoinsHulls};

use crate::answer::answers::Offsets;
use crate::answer::extents::joined_extent;
use crate::answer::parts::{Entries, Part};
use at_geom::{Extent, Path};
use at_hull::{covers_all, hull_join};
use at_text::Memory;

/// The offsets of both lists; the left one's memory serves on.
fn joined_offsets(left: Offsets, right: Offsets) -> Result<Offsets, Memory>
    ensures { IfOk result (λ offsets. offsets ≡ left ++ right) }
{
    let mut items = left.into_vec();
    let mut others = right.into_vec();
    items.append(&mut others)?;
    Ok(Offsets::from_vec(items))
}

/// The entries of both lists; the left one's memory serves on.
fn joined_entries(left: Entries, right: Entries) -> Result<Entries, Memory>
    ensures { IfOk result (λ entries. entries ≡ left ++ right) }
{
    let mut items = left.into_vec();
    let mut others = right.into_vec();
    items.append(&mut others)?;
    Ok(Entries::from_vec(items))
}

/// The least extent round two, where there are any.
pub(crate) fn joined_spread(left: Option<Extent>, right: Option<Extent>) -> Option<Extent>
    ensures { result ≡ around_both left right }
{
    match (left, right) {
        (Some(one), Some(other)) => Some(joined_extent(one, other)),
        (None, _) => right,
        (_, None) => left,
    }
}

/// The hull of both lists. Where the right one's positions lie within the left hull, that is the hull, and no memory is
/// taken.
fn joined_hulls(left: Path, right: Path) -> Result<Path, Memory>
    requires left { IsHullInRange left left }
    requires right { IsHullInRange right right }
    ensures joins { IfOk result (JoinsHulls left right) }
    ensures own { IfOk result (λ h. IsHullInRange h h) }
{
    if covers_all(&left, &right) {
        return Ok(left);
    }
    let items = right.into_vec();
    let alloc = *items.allocator();
    hull_join(alloc, &left, &Path::from_vec(items))
}

/// The part of two neighbouring lists of features, joined. What the parts hold is moved: the right one's items are
/// put behind the left one's, in steps that grow with the right one's count alone; of two hulls the left one is sorted
/// again only where the right one has positions outside it. Both parts are of one query. Counts, areas and extents are
/// joined without memory.
pub fn part_merge(left: Part, right: Part) -> Result<Part, Memory>
    requires { AreAlike left right }
    ensures joined { IfOk result (JoinsParts left right) }
    ensures proper { IfOk result IsProper }
    ensures kept { IsOfOneSize left → IsOk result }
{
    match (left, right) {
        (Part::Offsets(a), Part::Offsets(b)) => Ok(Part::Offsets(joined_offsets(a, b)?)),
        (Part::Count(a), Part::Count(b)) => Ok(Part::Count(a.wrapping_add(b))),
        (Part::Area(a), Part::Area(b)) => Ok(Part::Area(a.wrapping_add(b))),
        (Part::Spread(a), Part::Spread(b)) => Ok(Part::Spread(joined_spread(a, b))),
        (Part::Entries(a), Part::Entries(b)) => Ok(Part::Entries(joined_entries(a, b)?)),
        (Part::Hull(a), Part::Hull(b)) => Ok(Part::Hull(joined_hulls(a, b)?)),
        _ => unreachable!(),
    }
}
