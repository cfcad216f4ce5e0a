//! Arrays whose items are joined as they come: of an object nothing is kept.
//!
//! Runs whose features have a hull of many corners are joined as in a binary counter, since a join takes a time that
//! grows with the corners of both.

ghost use Rattle.std.specs.Prelude.{◌≡◌, ◌++◌, ◌∷◌, [], All, IfOk, IfSome, Ok, true};
ghost use Rattle.at_query.specs.Parts.{JoinsParts};
ghost use Rattle.at_geojson.specs.Atoms.{IsOwn, AreOwnItems};
ghost use Rattle.at_geojson.specs.Gathering.{is_any_object as any_object_is, item_geometries, item_features, JoinsShapes};
ghost use Rattle.at_geojson.specs.Gathering.{JoinsFound, AreJoinable};
ghost use Rattle.at_geojson.specs.Arrays.{Adds, TakesRun, Settles};

use crate::asked::GeoAlgebra;
use crate::atoms::atom::{GeoAtom, Items};
use crate::atoms::geometries::Geometry;
use crate::atoms::lists::{form_at, into_items, is_any_object, joined_parts};
use crate::atoms::shapes::joined_shapes;
use crate::atoms::sorts::{Sort, is_of};
use crate::joined::series::join_lists;
use crate::joined::tracks::join_positions;
use at_query::{Part, part_merge};
use at_text::{Fault, Memory, first_of_two};
use std::alloc::Global;
use std::mem::replace;

/// Further items are joined into a run one by one while the hull of its features has at most so many corners.
const LIGHT: usize = 64;

/// How many corners a part has, where the query asks for a hull.
fn corners(part: &Part) -> usize {
    match part {
        Part::Hull(path) => path.as_slice().len(),
        _ => 0,
    }
}

/// How many corners the hull of the items' features has. The more, the longer it takes to join it with another.
fn weight(items: &Items) -> usize {
    match &items.features {
        Ok(part) => corners(part),
        Err(_) => 0,
    }
}

/// Whether a further feature is joined with the items' at no great cost.
#[inline(always)]
pub fn is_light(items: &Items) -> bool {
    weight(items) <= LIGHT
}

/// Puts geometries behind those of a run.
fn join_geometries(
    alloc: Global,
    run: &mut Items,
    more: Result<Geometry, Fault>,
) -> Result<(), Memory>
    ensures geometries { IfOk result (λ u. JoinsShapes run.old.geometries more run.new.geometries) }
    ensures features { run.new.features ≡ run.old.features }
{
    if let Err(first) = &run.geometries
        && let Err(second) = &more
    {
        run.geometries = Err(first_of_two(*first, *second));
        return Ok(());
    }
    let before = replace(&mut run.geometries, Err(form_at(0)));
    run.geometries = joined_shapes(alloc, before, more)?;
    Ok(())
}

/// Two counts, or two areas, together.
#[inline(always)]
fn joined_numbers(left: &Part, right: &Part) -> Option<Part>
    ensures { IfSome result (JoinsParts left.now right.now) }
{
    match (left, right) {
        (Part::Count(a), Part::Count(b)) => Some(Part::Count(a.wrapping_add(*b))),
        (Part::Area(a), Part::Area(b)) => Some(Part::Area(a.wrapping_add(*b))),
        _ => None,
    }
}

/// A part without lists, once more.
#[inline(always)]
fn small_part(part: &Result<Part, Fault>) -> Option<Part>
    ensures { IfSome result (λ small. part.now ≡ Ok small) }
{
    match part {
        Ok(Part::Count(count)) => Some(Part::Count(*count)),
        Ok(Part::Area(area)) => Some(Part::Area(*area)),
        Ok(Part::Spread(extent)) => Some(Part::Spread(*extent)),
        _ => None,
    }
}

/// Whether the right part has no offset that it could put behind those of the left one.
#[inline(always)]
fn adds_nothing(left: &Part, right: &Part) -> bool
    ensures { result ≡ true → JoinsParts left.now right.now left.now }
{
    match (left, right) {
        (Part::Offsets(_), Part::Offsets(more)) => more.as_slice().is_empty(),
        _ => false,
    }
}

/// Puts the part of features behind that of a run.
#[inline(always)]
pub fn join_features(run: &mut Items, more: Result<Part, Fault>) -> Result<(), Memory>
    requires { AreJoinable run.old.features more }
    ensures geometries { run.new.geometries ≡ run.old.geometries }
    ensures features { IfOk result (λ u. JoinsFound run.old.features more run.new.features) }
{
    if let Ok(first) = &run.features
        && let Ok(second) = &more
        && let Some(part) = joined_numbers(first, second)
    {
        run.features = Ok(part);
        return Ok(());
    }
    if let Ok(first) = &run.features
        && let Ok(second) = &more
        && adds_nothing(first, second)
    {
        return Ok(());
    }
    if let Some(first) = small_part(&run.features)
        && let Some(second) = small_part(&more)
    {
        run.features = Ok(part_merge(first, second)?);
        return Ok(());
    }
    let before = replace(&mut run.features, Err(form_at(0)));
    run.features = joined_parts(before, more)?;
    Ok(())
}

/// The items of a run, and further ones behind them.
pub fn joined_run(alloc: Global, run: Box<Items>, more: Items) -> Result<Box<Items>, Memory>
    requires { AreJoinable run.value.features more.features }
    ensures geometries { IfOk result (λ b. JoinsShapes run.value.geometries more.geometries b.value.geometries) }
    ensures features { IfOk result (λ b. JoinsFound run.value.features more.features b.value.features) }
{
    let mut run = run;
    join_geometries(alloc, &mut *run, more.geometries)?;
    join_features(&mut *run, more.features)?;
    Ok(run)
}

/// A run of one item, or the run itself.
fn new_run(alloc: Global, atom: GeoAtom) -> Result<Box<Items>, Memory>
    ensures geometries { IfOk result (λ b. b.value.geometries ≡ item_geometries atom) }
    ensures features { IfOk result (λ b. b.value.features ≡ item_features atom) }
{
    match atom {
        GeoAtom::Run(run) => Ok(run),
        other => Ok(Box::new(alloc, into_items(other))?),
    }
}

/// Puts an atom behind those of an array's items as it is.
fn push_item(algebra: &GeoAlgebra, items: &mut Vec<GeoAtom>, atom: GeoAtom) -> Result<(), Memory>
    requires items { All (IsOwn algebra.now) items.old.items }
    requires atom { IsOwn algebra.now atom }
    ensures own { IfOk result (λ u. All (IsOwn algebra.now) items.new.items) }
    ensures fold { IfOk result (λ u. Adds algebra.now items.old.items atom items.new.items) }
{
    items.push(atom)?;
    Ok(())
}

/// Puts two atoms behind those of an array's items as they are.
fn push_both(
    algebra: &GeoAlgebra,
    items: &mut Vec<GeoAtom>,
    last: GeoAtom,
    atom: GeoAtom,
) -> Result<(), Memory>
    requires items { All (IsOwn algebra.now) items.old.items }
    requires last { IsOwn algebra.now last }
    requires atom { IsOwn algebra.now atom }
    ensures own { IfOk result (λ u. All (IsOwn algebra.now) items.new.items) }
    ensures fold { IfOk result (λ u. Adds algebra.now (items.old.items ++ last ∷ []) atom items.new.items) }
{
    items.push(last)?;
    push_item(algebra, items, atom)
}

/// Puts a run of one atom behind those of an array's items.
fn start_run(
    alloc: Global,
    algebra: &GeoAlgebra,
    items: &mut Vec<GeoAtom>,
    atom: GeoAtom,
) -> Result<(), Memory>
    requires items { All (IsOwn algebra.now) items.old.items }
    requires atom { IsOwn algebra.now atom }
    requires object { any_object_is atom ≡ true }
    ensures own { IfOk result (λ u. All (IsOwn algebra.now) items.new.items) }
    ensures fold { IfOk result (λ u. Adds algebra.now items.old.items atom items.new.items) }
{
    let started = new_run(alloc, atom)?;
    items.push(GeoAtom::Run(started))?;
    Ok(())
}

/// Puts a run back behind the items before it, with one more atom in it.
fn join_run(
    alloc: Global,
    algebra: &GeoAlgebra,
    items: &mut Vec<GeoAtom>,
    before: Box<Items>,
    atom: GeoAtom,
) -> Result<(), Memory>
    requires items { All (IsOwn algebra.now) items.old.items }
    requires before { AreOwnItems algebra.now before.value }
    requires atom { IsOwn algebra.now atom }
    requires object { any_object_is atom ≡ true }
    ensures own { IfOk result (λ u. All (IsOwn algebra.now) items.new.items) }
    ensures fold { IfOk result (λ u. Adds algebra.now (items.old.items ++ GeoAtom.Run before ∷ []) atom
        items.new.items) }
{
    let more = into_items(atom);
    let joined = joined_run(alloc, before, more)?;
    items.push(GeoAtom::Run(joined))?;
    Ok(())
}

/// Keeps a run aside where it has at most about twice the weight, and else puts it back.
fn take_light(
    items: &mut Vec<GeoAtom>,
    beside: usize,
    run: Box<Items>,
) -> Result<Option<Box<Items>>, Memory>
    ensures { IfOk result (TakesRun (items.old.items ++ GeoAtom.Run run ∷ []) items.new.items) }
{
    if weight(&run) / 2 <= beside {
        Ok(Some(run))
    } else {
        items.push(GeoAtom::Run(run))?;
        Ok(None)
    }
}

/// Keeps the last item aside, which was taken off, where it is such a run, and else puts it back.
fn take_last(
    items: &mut Vec<GeoAtom>,
    beside: usize,
    last: GeoAtom,
) -> Result<Option<Box<Items>>, Memory>
    ensures { IfOk result (TakesRun (items.old.items ++ last ∷ []) items.new.items) }
{
    match last {
        GeoAtom::Run(run) => take_light(items, beside, run),
        other => {
            items.push(other)?;
            Ok(None)
        }
    }
}

/// Takes off the last item where it is a run of at most about twice the weight.
fn take_run(items: &mut Vec<GeoAtom>, beside: usize) -> Result<Option<Box<Items>>, Memory>
    ensures { IfOk result (TakesRun items.old.items items.new.items) }
{
    match items.pop() {
        Some(last) => take_last(items, beside, last),
        None => Ok(None),
    }
}

/// Joins a run with those before it, which are taken off, while the last of these isn't much heavier.
fn settled_run(
    alloc: Global,
    algebra: &GeoAlgebra,
    items: &mut Vec<GeoAtom>,
    run: Box<Items>,
) -> Result<Box<Items>, Memory>
    requires items { All (IsOwn algebra.now) items.old.items }
    requires run { AreOwnItems algebra.now run.value }
    ensures items { IfOk result (λ b. All (IsOwn algebra.now) items.new.items) }
    ensures run { IfOk result (λ b. AreOwnItems algebra.now b.value) }
    ensures fold { IfOk result (λ b. Settles algebra.now (items.old.items ++ GeoAtom.Run run ∷ []) (items.new.items
        ++ GeoAtom.Run b ∷ [])) }
{
    let mut settled = run;
    while let Some(before) = take_run(items, weight(&settled))? {
        settled = joined_run(alloc, before, Box::into_inner(settled))?;
    }
    Ok(settled)
}

/// Puts an atom behind a heavy run, which was taken off: it begins a run of its own.
fn add_behind_heavy(
    alloc: Global,
    algebra: &GeoAlgebra,
    items: &mut Vec<GeoAtom>,
    before: Box<Items>,
    atom: GeoAtom,
) -> Result<(), Memory>
    requires items { All (IsOwn algebra.now) items.old.items }
    requires before { AreOwnItems algebra.now before.value }
    requires atom { IsOwn algebra.now atom }
    requires object { any_object_is atom ≡ true }
    ensures own { IfOk result (λ u. All (IsOwn algebra.now) items.new.items) }
    ensures fold { IfOk result (λ u. Adds algebra.now (items.old.items ++ GeoAtom.Run before ∷ []) atom
        items.new.items) }
{
    let settled = settled_run(alloc, algebra, items, before)?;
    items.push(GeoAtom::Run(settled))?;
    start_run(alloc, algebra, items, atom)
}

/// Puts an atom behind a run, which was taken off.
fn add_behind_run(
    alloc: Global,
    algebra: &GeoAlgebra,
    items: &mut Vec<GeoAtom>,
    before: Box<Items>,
    atom: GeoAtom,
) -> Result<(), Memory>
    requires items { All (IsOwn algebra.now) items.old.items }
    requires before { AreOwnItems algebra.now before.value }
    requires atom { IsOwn algebra.now atom }
    requires object { any_object_is atom ≡ true }
    ensures own { IfOk result (λ u. All (IsOwn algebra.now) items.new.items) }
    ensures fold { IfOk result (λ u. Adds algebra.now (items.old.items ++ GeoAtom.Run before ∷ []) atom
        items.new.items) }
{
    if is_light(&before) {
        join_run(alloc, algebra, items, before, atom)
    } else {
        add_behind_heavy(alloc, algebra, items, before, atom)
    }
}

/// Puts an object, or several, behind one, which was taken off: they begin a run.
fn begin_run(
    alloc: Global,
    algebra: &GeoAlgebra,
    items: &mut Vec<GeoAtom>,
    last: GeoAtom,
    atom: GeoAtom,
) -> Result<(), Memory>
    requires items { All (IsOwn algebra.now) items.old.items }
    requires last { IsOwn algebra.now last }
    requires atom { IsOwn algebra.now atom }
    requires first { any_object_is last ≡ true }
    requires object { any_object_is atom ≡ true }
    ensures own { IfOk result (λ u. All (IsOwn algebra.now) items.new.items) }
    ensures fold { IfOk result (λ u. Adds algebra.now (items.old.items ++ last ∷ []) atom items.new.items) }
{
    let before = new_run(alloc, last)?;
    add_behind_run(alloc, algebra, items, before, atom)
}

/// Puts an object, or several, behind the last of an array's items, which was taken off.
fn add_object(
    alloc: Global,
    algebra: &GeoAlgebra,
    items: &mut Vec<GeoAtom>,
    last: GeoAtom,
    atom: GeoAtom,
) -> Result<(), Memory>
    requires items { All (IsOwn algebra.now) items.old.items }
    requires last { IsOwn algebra.now last }
    requires atom { IsOwn algebra.now atom }
    requires object { any_object_is atom ≡ true }
    ensures own { IfOk result (λ u. All (IsOwn algebra.now) items.new.items) }
    ensures fold { IfOk result (λ u. Adds algebra.now (items.old.items ++ last ∷ []) atom items.new.items) }
{
    if is_any_object(&last) {
        begin_run(alloc, algebra, items, last, atom)
    } else {
        push_both(algebra, items, last, atom)
    }
}

/// Puts an atom behind the last of an array's items, which was taken off.
fn add_behind(
    alloc: Global,
    algebra: &GeoAlgebra,
    items: &mut Vec<GeoAtom>,
    last: GeoAtom,
    atom: GeoAtom,
) -> Result<(), Memory>
    requires items { All (IsOwn algebra.now) items.old.items }
    requires last { IsOwn algebra.now last }
    requires atom { IsOwn algebra.now atom }
    ensures own { IfOk result (λ u. All (IsOwn algebra.now) items.new.items) }
    ensures fold { IfOk result (λ u. Adds algebra.now (items.old.items ++ last ∷ []) atom items.new.items) }
{
    if is_any_object(&atom) {
        return add_object(alloc, algebra, items, last, atom);
    }
    if is_of(&atom, Sort::Points) && is_of(&last, Sort::Points) {
        return join_lists(alloc, algebra, items, last, atom);
    }
    if is_of(&atom, Sort::Position) && is_of(&last, Sort::Position) {
        return join_positions(alloc, algebra, items, last, atom);
    }
    push_both(algebra, items, last, atom)
}

/// Puts an atom behind those of an array's items. Objects one behind another become one run, where nothing stands
/// before them, and several runs where their hull has many corners. The hulls of several have at most half as many
/// corners each as that before it, so that a corner takes part in few joins. Lists of positions one behind another
/// become one series, and positions one track.
pub fn add_item(
    alloc: Global,
    algebra: &GeoAlgebra,
    items: &mut Vec<GeoAtom>,
    atom: GeoAtom,
) -> Result<(), Memory>
    requires items { All (IsOwn algebra.now) items.old.items }
    requires atom { IsOwn algebra.now atom }
    ensures own { IfOk result (λ u. All (IsOwn algebra.now) items.new.items) }
    ensures fold { IfOk result (λ u. Adds algebra.now items.old.items atom items.new.items) }
{
    match items.pop() {
        Some(last) => add_behind(alloc, algebra, items, last, atom),
        None if is_any_object(&atom) => start_run(alloc, algebra, items, atom),
        None => push_item(algebra, items, atom),
    }
}
