//! A query that is asked of lines of Well-Known Text, each of which is a feature.

ghost use Rattle.std.specs.Prelude.{◌≡◌, ◌≢◌, false, ◌+◌, ◌≤◌, ◌^◌, length, take, ◌∷◌, [], IsTrue, IfOk, MatchResult};
ghost use Rattle.at_text.specs.Refusals.{IfFound};
ghost use Rattle.at_wkt.specs.Folding.{AddsLines};
ghost use Rattle.at_query.specs.Ranges.{IsQueryInRange};
ghost use Rattle.at_query.specs.GatheredParts.{IsJoinOf};
ghost use Rattle.at_query.specs.declared.query.queries.Verb.{Verb};
ghost use Rattle.at_run.specs.Gathering.{Asked, CountsAll, IsOwn, IsGathered, IsChecked, IsLineRead};

use crate::labels::{behind_label, front_texts};
use at_fixed::Coords;
use at_query::{
    Accumulator, Feature, Gathered, LentFeature, Query, Verb, add_fault, add_feature, add_lent,
    count_line, joined,
};
use at_text::{Fault, Memory, Refusal};
use at_wkt::{Fold, Room, read_line};
use std::alloc::Global;
use std::marker::Model;

/// Puts a line that has no shape behind those before it.
fn add_end(gathered: &mut Gathered, end: Refusal) -> Result<(), Memory>
    ensures { IfOk result (λ _. (fault : Fault) × (end ≡ Refusal.Found fault)
        × IsJoinOf gathered.old (Gathered.Failed fault) gathered.new) }
{
    match end {
        Refusal::Found(fault) => {
            add_fault(gathered, fault);
            Ok(())
        }
        Refusal::Memory => Err(Memory),
    }
}

/// A query that is asked of lines, each of which is a feature at its offset, with its label as its one text.
#[derive(Drop)]
pub struct LineQuery<'a> {
    query: &'a Query,
    digits: u8,
    how: Coords,
}

impl<'a> Model for LineQuery<'a> {
    ghost Value = { Asked };

    ghost view = { λ q. record { query = q.query.now; digits = q.digits; how = q.how } };

    ghost invariant = { λ q. IsQueryInRange q.query.now };
}

impl<'a> LineQuery<'a> {
    /// The query, and how the numbers of the lines are read.
    pub fn new(query: &'a Query, digits: u8, how: Coords) -> LineQuery<'a>
        requires { IsQueryInRange query.now }
        ensures { result ≡ record { query = query.now; digits = digits; how = how } }
    {
        LineQuery { query, digits, how }
    }

    /// What is read of a line, which begins at the offset. Its label is kept only where a test asks for labels.
    fn feature(&self, alloc: Global, text: &[u8], at: u32) -> Result<Feature, Refusal>
        requires { at + length text.now ≤ 2 ^ 28 }
        ensures { MatchResult result (IsLineRead self.now (record { at = at; text = text.now }))
            (λ end. IfFound end (λ fault. IsGathered self.now (Gathered.Failed fault)
            (record { at = at; text = text.now } ∷ []))) }
    {
        let line = match behind_label(text, text.len(), at) {
            Ok(line) => line,
            Err(fault) => return Err(Refusal::Found(fault)),
        };
        let texts = front_texts(alloc, line.label, self.query.tests.as_slice())?;
        let shape = read_line(
            alloc,
            &line.ahead[..line.len],
            line.at,
            self.digits,
            self.how,
        )?;
        Ok(Feature { at, shape, texts })
    }

    /// Puts a line behind those before it.
    fn add_line(
        &self,
        alloc: Global,
        gathered: &mut Gathered,
        text: &[u8],
        at: u32,
    ) -> Result<(), Memory>
        requires own { IsOwn self.now gathered.old }
        requires short { at + length text.now ≤ 2 ^ 28 }
        ensures own { IfOk result (λ _. IsOwn self.now gathered.new) }
        ensures fold { IfOk result (λ _. AddsLines (IsGathered self.now) gathered.old
            (record { at = at; text = text.now } ∷ []) gathered.new) }
    {
        match self.feature(alloc, text, at) {
            Ok(feature) => add_feature(gathered, self.query, feature),
            Err(end) => add_end(gathered, end),
        }
    }

    /// Whether what is asked for keeps the shapes of features.
    fn keeps_shapes(&self) -> bool
        ensures { (result ≡ false) → self.now.query.verb ≢ Verb.Join }
    {
        matches!(self.query.verb, Verb::Join)
    }

    /// Puts a line, whose shape the room lends, behind those before it. Out of line, so that lines that are only
    /// counted are not held up by what this one keeps in registers.
    #[inline(never)]
    fn add_lent_line(
        &self,
        alloc: Global,
        room: &mut Room,
        gathered: &mut Gathered,
        ahead: &[u8],
        len: usize,
        at: u32,
    ) -> Result<(), Memory>
        requires no_join { self.now.query.verb ≢ Verb.Join }
        requires own { IsOwn self.now gathered.old }
        requires inside { len ≤ length ahead.now }
        requires short { at + length ahead.now ≤ 2 ^ 28 }
        ensures own { IfOk result (λ _. IsOwn self.now gathered.new) }
        ensures fold { IfOk result (λ _. AddsLines (IsGathered self.now) gathered.old
            (record { at = at; text = take len ahead.now } ∷ []) gathered.new) }
    {
        let line = match behind_label(ahead, len, at) {
            Ok(line) => line,
            Err(fault) => {
                add_fault(gathered, fault);
                return Ok(());
            }
        };
        let texts = front_texts(alloc, line.label, self.query.tests.as_slice())?;
        match room.read_line(alloc, line.ahead, line.len, line.at, self.digits, self.how) {
            Ok(shape) => {
                let texts = &texts;
                add_lent(gathered, self.query, &LentFeature { at, shape, texts })
            }
            Err(end) => add_end(gathered, end),
        }
    }

    /// Whether nothing but the count of all features is asked for.
    fn counts_all(&self) -> bool
        ensures { IsTrue result → CountsAll self.now.query }
    {
        matches!(self.query.verb, Verb::Count) && self.query.tests.as_slice().is_empty()
    }

    /// The first fault of a line, where it has one.
    #[inline(always)]
    fn check(
        &self,
        alloc: Global,
        room: &mut Room,
        ahead: &[u8],
        len: usize,
        at: u32,
    ) -> Result<Option<Fault>, Memory>
        requires inside { len ≤ length ahead.now }
        requires short { at + length ahead.now ≤ 2 ^ 28 }
        ensures { IfOk result (IsChecked self.now (record { at = at; text = take len ahead.now })) }
    {
        match behind_label(ahead, len, at) {
            Ok(line) => room.check_line(
                alloc,
                line.ahead,
                line.len,
                line.at,
                self.digits,
                self.how,
            ),
            Err(fault) => Ok(Some(fault)),
        }
    }
}

impl<'a> Fold for LineQuery<'a> {
    type Part = Gathered;

    ghost is_own = { λ asked gathered. IsOwn asked gathered };

    ghost is_fold = { λ asked gathered lines. IsGathered asked gathered lines };

    fn none(&self, alloc: Global) -> Gathered {
        Gathered::Kept(Accumulator::none(alloc, self.query))
    }

    fn line(&self, alloc: Global, text: &[u8], at: u32) -> Result<Gathered, Memory> {
        let mut one = self.none(alloc);
        self.add_line(alloc, &mut one, text, at)?;
        Ok(one)
    }

    fn join(&self, _alloc: Global, left: Gathered, right: Gathered) -> Result<Gathered, Memory> {
        joined(left, right)
    }

    fn add(
        &self,
        alloc: Global,
        room: &mut Room,
        part: &mut Gathered,
        ahead: &[u8],
        len: usize,
        at: u32,
    ) -> Result<(), Memory> {
        if self.counts_all() {
            let fault = self.check(alloc, room, ahead, len, at)?;
            count_line(part, fault);
            Ok(())
        } else if self.keeps_shapes() {
            self.add_line(alloc, part, &ahead[..len], at)
        } else {
            self.add_lent_line(alloc, room, part, ahead, len, at)
        }
    }
}
