//! What is kept of lines or records as they are read: what a query keeps of their features, or the first fault.

ghost use Rattle.std.specs.Prelude.{◌≢◌, IfOk};
ghost use Rattle.at_query.specs.Ranges.{IsQueryInRange, IsFeatureInRange};
ghost use Rattle.at_query.specs.Holding.{lent_feature};
ghost use Rattle.at_query.specs.Parts.{AreAlike, JoinsParts};
ghost use Rattle.at_query.specs.Accumulators.{AreOfOneVerb, JoinsAccumulators};
ghost use Rattle.at_query.specs.GatheredParts.{counted_of, IsOwnOf, AddsFeature, AreJoinable, IsJoinOf};

use crate::answer::accumulators::Accumulator;
use crate::answer::parts::Part;
use crate::features::{Feature, LentFeature};
use crate::query::queries::{Query, Verb};
use at_text::{Fault, Memory, first_fault, first_of_two};

/// What is kept of lines, or of records: what a query keeps of their features, or their first fault.
#[derive(Drop)]
pub enum Gathered {
    Kept(Accumulator),
    Failed(Fault),
}

/// Puts what is kept of further features behind what is kept. A fault stays as it is.
fn join_kept(gathered: &mut Gathered, behind: Accumulator) -> Result<(), Memory>
    requires { AreJoinable gathered.old (Gathered.Kept behind) }
    ensures { IfOk result (λ _. IsJoinOf gathered.old (Gathered.Kept behind) gathered.new) }
{
    match gathered {
        Gathered::Kept(kept) => kept.join(behind),
        Gathered::Failed(_) => Ok(()),
    }
}

/// Puts what is kept of further lines, or records, behind what is kept of those before them. What is kept beside a fault
/// is let go. The one refusal is want of memory.
pub fn join_into(gathered: &mut Gathered, behind: Gathered) -> Result<(), Memory>
    requires { AreJoinable gathered.old behind }
    ensures { IfOk result (λ _. IsJoinOf gathered.old behind gathered.new) }
{
    match behind {
        Gathered::Kept(behind) => join_kept(gathered, behind),
        Gathered::Failed(fault) => {
            add_fault(gathered, fault);
            Ok(())
        }
    }
}

/// What is kept of the lines of the one and, behind them, of the other. The one refusal is want of memory.
pub fn joined(left: Gathered, right: Gathered) -> Result<Gathered, Memory>
    requires { AreJoinable left right }
    ensures { IfOk result (IsJoinOf left right) }
{
    let mut both = left;
    join_into(&mut both, right)?;
    Ok(both)
}

/// Counts one more feature.
fn count_in(part: &mut Part)
    requires { AreAlike part.old (Part.Count 1) }
    ensures { JoinsParts part.old (Part.Count 1) part.new }
{
    match part {
        Part::Count(count) => *count = count.wrapping_add(1),
        _ => unreachable!(),
    }
}

/// Counts one more feature in what is kept.
fn count_one(kept: &mut Accumulator)
    requires { AreOfOneVerb kept.old (Accumulator.Part (Part.Count 1)) }
    ensures { JoinsAccumulators kept.old (Accumulator.Part (Part.Count 1)) kept.new }
{
    match kept {
        Accumulator::Part(part) => count_in(part),
        Accumulator::Hull(_) => unreachable!(),
    }
}

/// Counts one more line without a fault.
fn count_shape(gathered: &mut Gathered)
    requires { AreJoinable gathered.old (Gathered.Kept (Accumulator.Part (Part.Count 1))) }
    ensures { IsJoinOf gathered.old (Gathered.Kept (Accumulator.Part (Part.Count 1))) gathered.new }
{
    match gathered {
        Gathered::Kept(kept) => count_one(kept),
        Gathered::Failed(_) => {}
    }
}

/// Keeps the first of the fault of one more line and of what was kept before.
pub fn add_fault(gathered: &mut Gathered, fault: Fault)
    ensures { IsJoinOf gathered.old (Gathered.Failed fault) gathered.new }
{
    let first = match gathered {
        Gathered::Kept(_) => fault,
        Gathered::Failed(before) => first_of_two(*before, fault),
    };
    *gathered = Gathered::Failed(first);
}

/// Counts one more line, which has this first fault or none, where nothing but the count of all features is asked for.
pub fn count_line(gathered: &mut Gathered, fault: Option<Fault>)
    requires { AreJoinable gathered.old (counted_of fault) }
    ensures { IsJoinOf gathered.old (counted_of fault) gathered.new }
{
    match fault {
        None => count_shape(gathered),
        Some(fault) => add_fault(gathered, fault),
    }
}

/// Puts a feature behind those of the lines before its own.
pub fn add_feature(gathered: &mut Gathered, query: &Query, feature: Feature) -> Result<(), Memory>
    requires query_in_range { IsQueryInRange query.now }
    requires feature_in_range { IsFeatureInRange feature }
    requires own { IsOwnOf query.now gathered.old }
    ensures { IfOk result (λ _. AddsFeature query.now feature gathered.old gathered.new) }
{
    match gathered {
        Gathered::Kept(kept) => kept.add(query, feature),
        Gathered::Failed(_) => Ok(()),
    }
}

/// Puts a feature whose parts are lent behind those of the lines before its own: for every verb but `join`.
#[inline(always)]
pub fn add_lent(gathered: &mut Gathered, query: &Query, feature: &LentFeature) -> Result<(), Memory>
    requires no_join { query.now.verb ≢ Verb.Join }
    requires query_in_range { IsQueryInRange query.now }
    requires feature_in_range { IsFeatureInRange (lent_feature feature.now) }
    requires own { IsOwnOf query.now gathered.old }
    ensures { IfOk result (λ _. AddsFeature query.now (lent_feature feature.now) gathered.old gathered.new) }
{
    match gathered {
        Gathered::Kept(kept) => kept.add_lent(query, feature),
        Gathered::Failed(_) => Ok(()),
    }
}
