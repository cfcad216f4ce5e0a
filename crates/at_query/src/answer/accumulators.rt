//! What is kept of features that are added one by one.

ghost use Rattle.std.specs.Prelude.{◌≢◌, List, [], ◌∷◌, ◌++◌, IfOk, IsOk};
ghost use Rattle.at_query.specs.Ranges.{IsQueryInRange, IsFeatureInRange};
ghost use Rattle.at_query.specs.Parts.{IsPart, IsProper, IsOfOneSize};
ghost use Rattle.at_query.specs.Accumulators.{IsAccumulated, AreOfOneVerb, JoinsAccumulators, HasOneSize, IsSettled};
ghost use Rattle.at_query.specs.Holding.{lent_feature};
ghost use Rattle.at_query.specs.declared.query.queries.Query.{Query};
ghost use Rattle.at_query.specs.declared.query.queries.Verb.{Verb};
ghost use Rattle.at_query.specs.declared.features.Feature.{Feature};
ghost use Rattle.at_query.specs.declared.answer.parts.Part.{Part};
ghost use Rattle.at_query.specs.declared.answer.accumulators.Accumulator.{Accumulator};

use crate::answer::adding::{add_lent_to_part, add_shape, add_to_part, asks_hull};
use crate::answer::holding::{holds, lent_holds};
use crate::answer::merging::part_merge;
use crate::answer::parts::Part;
use crate::answer::results::part_none;
use crate::features::{Feature, LentFeature};
use crate::query::queries::Query;
use at_hull::HullBuilder;
use at_text::Memory;
use std::alloc::Global;
use std::mem;

/// What is kept of a list of features, to which further ones are added in place. In the end it becomes their part.
///
/// After an `Err`, which is want of memory, what is kept is that of no list: it is to be let go.
#[derive(Drop)]
pub enum Accumulator {
    /// For every verb but `hull`: the part of the features.
    Part(Part),
    /// For `hull`: positions that have one hull with all those of the features.
    Hull(HullBuilder),
}

/// Puts what is kept of further features behind a part.
fn join_to_part(part: &mut Part, other: Accumulator) -> Result<(), Memory>
    requires { AreOfOneVerb (Accumulator.Part part.old) other }
    ensures joined { IfOk result
        (λ _. JoinsAccumulators (Accumulator.Part part.old) other (Accumulator.Part part.new)) }
    ensures sized { IsOfOneSize part.old → IsOk result }
{
    match other {
        Accumulator::Part(more) => {
            let before = mem::replace(part, Part::Count(0));
            *part = part_merge(before, more)?;
            Ok(())
        }
        Accumulator::Hull(_) => unreachable!(),
    }
}

/// Puts what is kept of further features behind the positions of a hull.
fn join_to_hull(hull: &mut HullBuilder, other: Accumulator) -> Result<(), Memory>
    requires { AreOfOneVerb (Accumulator.Hull hull.old) other }
    ensures { IfOk result (λ _. JoinsAccumulators (Accumulator.Hull hull.old) other (Accumulator.Hull hull.new)) }
{
    match other {
        Accumulator::Hull(more) => hull.join(more),
        Accumulator::Part(_) => unreachable!(),
    }
}

impl Accumulator {
    /// What is kept of no feature. It takes no memory.
    pub fn none(alloc: Global, query: &Query) -> Accumulator
        ensures { IsAccumulated query.now [] result }
    {
        if asks_hull(query.verb) {
            return Accumulator::Hull(HullBuilder::new(alloc));
        }
        Accumulator::Part(part_none(alloc, query))
    }

    /// What is kept of the features of which this is the part. It takes no memory.
    pub fn from_part(part: Part) -> Accumulator
        requires { IsProper part }
        ensures { (query : Query) (fs : List Feature) → IsPart query fs part → IsAccumulated query fs result }
    {
        match part {
            Part::Hull(hull) => Accumulator::Hull(HullBuilder::from_hull(hull)),
            Part::Offsets(offsets) => Accumulator::Part(Part::Offsets(offsets)),
            Part::Count(count) => Accumulator::Part(Part::Count(count)),
            Part::Area(area) => Accumulator::Part(Part::Area(area)),
            Part::Spread(spread) => Accumulator::Part(Part::Spread(spread)),
            Part::Entries(entries) => Accumulator::Part(Part::Entries(entries)),
        }
    }

    /// Adds a feature, where the query holds of it.
    ///
    /// A count, an area and an extent take no memory. A list of offsets or entries grows as a `Vec` does. For `hull`, a
    /// shape whose extent is seen to lie within the hull adds nothing, and the positions of all others are handed on to
    /// the builder.
    pub fn add(&mut self, query: &Query, feature: Feature) -> Result<(), Memory>
        requires query_in_range { IsQueryInRange query.now }
        requires feature_in_range { IsFeatureInRange feature }
        requires own { (fs : List Feature) × IsAccumulated query.now fs self.old }
        ensures added { IfOk result (λ _. (fs : List Feature) → IsAccumulated query.now fs self.old
            → IsAccumulated query.now (fs ++ feature ∷ []) self.new) }
        ensures sized { HasOneSize self.old → IsOk result }
    {
        if !holds(query, &feature) {
            return Ok(());
        }
        match self {
            Accumulator::Part(part) => add_to_part(part, feature),
            Accumulator::Hull(hull) => add_shape(hull, &feature.shape),
        }
    }

    /// Adds a feature whose parts are lent, where the query holds of it: for every verb but `join`, which keeps shapes.
    /// What `add` says of memory holds of it.
    #[inline(always)]
    pub fn add_lent(&mut self, query: &Query, feature: &LentFeature) -> Result<(), Memory>
        requires no_join { query.now.verb ≢ Verb.Join }
        requires query_in_range { IsQueryInRange query.now }
        requires feature_in_range { IsFeatureInRange (lent_feature feature.now) }
        requires own { (fs : List Feature) × IsAccumulated query.now fs self.old }
        ensures added { IfOk result (λ _. (fs : List Feature) → IsAccumulated query.now fs self.old
            → IsAccumulated query.now (fs ++ lent_feature feature.now ∷ []) self.new) }
        ensures sized { HasOneSize self.old → IsOk result }
    {
        if !lent_holds(query, feature) {
            return Ok(());
        }
        match self {
            Accumulator::Part(part) => add_lent_to_part(part, feature),
            Accumulator::Hull(hull) => add_shape(hull, feature.shape),
        }
    }

    /// Puts what is kept of further features behind this. Both are of one query.
    pub fn join(&mut self, other: Accumulator) -> Result<(), Memory>
        requires { AreOfOneVerb self.old other }
        ensures joined { IfOk result (λ _. JoinsAccumulators self.old other self.new) }
        ensures sized { HasOneSize self.old → IsOk result }
    {
        match self {
            Accumulator::Part(part) => join_to_part(part, other),
            Accumulator::Hull(hull) => join_to_hull(hull, other),
        }
    }

    /// The part of the features. It takes no memory but for a hull that isn't made yet.
    pub fn into_part(self) -> Result<Part, Memory>
        ensures part { IfOk result (λ part. (query : Query) (fs : List Feature) → IsAccumulated query fs self
            → IsPart query fs part) }
        ensures settled { IsSettled self → IsOk result }
    {
        match self {
            Accumulator::Part(part) => Ok(part),
            Accumulator::Hull(hull) => Ok(Part::Hull(hull.into_hull()?)),
        }
    }
}
