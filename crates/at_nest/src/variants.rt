//! What a span is from one start state.

ghost use Rattle.std.specs.Prelude.{◌≡◌, ℕ, ◌+◌, ◌-◌, ◌≤◌, ◌^◌, ◌++◌, List, [], length, take, drop, IfOk};
ghost use Rattle.at_lex.specs.declared.tokens.Start.{Start};
ghost use Rattle.at_nest.specs.Shown.{shown};
ghost use Rattle.at_nest.specs.KeptItems.{IsAtomOf};
ghost use Rattle.at_nest.specs.Reading.{HasBytes, pend_from};
ghost use Rattle.at_nest.specs.Slots.{end_in};
ghost use Rattle.at_nest.specs.VariantMeanings.{HoldsVariant, HoldsBehind, CanMeet, Meets, Neighbours, HaveUnion};

use crate::algebra::Algebra;
use crate::bodies::{Body, join};
use crate::brackets::{is_bracket, read_bracket};
use crate::pieces::{SpanStop, first_byte};
use crate::sources::JsonSource;
use crate::tokens::{cut_token, read_token};
use crate::tries::Tries;
use at_lex::{Item, Lead, Lexer, Pend, Start};
use at_text::Memory;
use std::alloc::Global;

/// A span from one start state. Offsets are of the file.
#[derive(Drop)]
pub enum Variant<T> {
    /// All of it belongs to a token that began before it, if there is one.
    AllLead {
        end: Start,
    },
    /// What belongs to a token that began before it ends before `lead`; what may go on behind it begins at `pend`,
    /// which is the span's end where nothing may.
    Whole {
        lead: u32,
        body: Body<T>,
        pend: u32,
        end: Start,
    },
    /// Nothing that stands before the span makes the place of the halt viable.
    Broken {
        lead: u32,
        body: Body<T>,
        halt: SpanStop,
    },
}

/// The bytes of the token, which a piece with this base has.
#[inline(always)]
fn part<'a>(piece: &'a [u8], base: u32, from: u32, to: u32) -> &'a [u8]
    requires base { base ≤ from }
    requires from { from ≤ to }
    requires to { to ≤ base + length piece.now }
    ensures { result.now ≡ take (to - from) (drop (from - base) piece.now) }
{
    &piece[(from - base) as usize..(to - base) as usize]
}

/// The bytes from the offset on, which a piece with this base has.
#[inline(always)]
fn from_place<'a>(piece: &'a [u8], base: u32, from: u32) -> &'a [u8]
    requires base { base ≤ from }
    requires from { from ≤ base + length piece.now }
    ensures { result.now ≡ drop (from - base) piece.now }
{
    &piece[(from - base) as usize..]
}

/// Where what may go on begins.
fn pend_of(pend: Pend, end: u32) -> u32
    ensures { result ≡ pend_from pend end }
{
    match pend {
        Pend::Nothing => end,
        Pend::Run(from) => from,
        Pend::Text(from) => from,
    }
}

/// Reads what stands behind the lead.
fn read_items<A: Algebra>(
    source: &JsonSource<'_, A>,
    base: u32,
    lead: u32,
    mut lexer: Lexer<'_>,
) -> Result<Variant<A::Atom>, Memory>
    requires fits { base + length source.now.bytes.now ≤ 2 ^ 28 }
    requires behind { HasBytes base source.now.bytes.now lexer.at lexer.rest }
    requires out { lexer.state ≡ Start.Out }
    ensures { IfOk result (HoldsBehind (IsAtomOf A.Algebra source.now.algebra.now) base
        source.now.bytes.now
        lexer.entry.at lexer.entry.rest lead) }
{
    let mut body = Body::new(source.alloc);
    let mut tries = Tries::new(base, source.bytes.len());
    loop {
        match lexer.next_item() {
            Item::Whole(token) => {
                if body.refuses(token.kind) {
                    let halt = first_byte(token.from);
                    return Ok(Variant::Broken { lead, body, halt });
                }
                if is_bracket(token.kind) {
                    let ahead = JsonSource {
                        alloc: source.alloc,
                        algebra: source.algebra,
                        bytes: from_place(source.bytes, base, token.from),
                    };
                    let read = read_bracket(&mut body, &ahead, &mut tries, token)?;
                    match read.halt {
                        None => lexer.skip_to(read.to),
                        Some(halt) => return Ok(Variant::Broken { lead, body, halt }),
                    }
                    continue;
                }
                let text = part(source.bytes, base, token.from, token.to);
                match read_token(&mut body, source.alloc, source.algebra, text, token)? {
                    None => {}
                    Some(halt) => return Ok(Variant::Broken { lead, body, halt }),
                }
            }
            Item::End { pend, end } => {
                return Ok(Variant::Whole {
                    lead,
                    body,
                    pend: pend_of(pend, base + source.bytes.len() as u32),
                    end,
                });
            }
        }
    }
}

/// The state behind a piece that is all lead.
fn end_of(mut lexer: Lexer<'_>) -> Start
    requires { lexer.rest ≡ [] }
    ensures { result ≡ lexer.entry.state }
{
    match lexer.next_item() {
        Item::End { end, .. } => end,
        Item::Whole(_) => Start::Out,
    }
}

/// A piece from one start state.
pub fn read_variant<A: Algebra>(
    source: &JsonSource<'_, A>,
    base: u32,
    start: Start,
) -> Result<Variant<A::Atom>, Memory>
    requires { base + length source.now.bytes.now ≤ 2 ^ 28 }
    ensures { IfOk result (HoldsVariant (IsAtomOf A.Algebra source.now.algebra.now) start base source.now.bytes.now) }
{
    let (lead, lexer) = Lexer::new(source.bytes, base, start);
    match lead {
        Lead::AllRun | Lead::AllText => Ok(Variant::AllLead { end: end_of(lexer) }),
        Lead::Nothing => if source.bytes.is_empty() {
            Ok(Variant::AllLead { end: Start::Out })
        } else {
            read_items(source, base, base, lexer)
        },
        Lead::RunEnds(at) => read_items(source, base, at, lexer),
        Lead::TextEnds(at) => read_items(source, base, at, lexer),
    }
}

impl<T: Drop> Variant<T> {
    /// The state in which what stands behind the span begins; none where the span stops.
    pub fn end(&self) -> Option<Start>
        ensures { result ≡ end_in self.now }
    {
        match self {
            Variant::AllLead { end } => Some(*end),
            Variant::Whole { end, .. } => Some(*end),
            Variant::Broken { .. } => None,
        }
    }
}

/// Behind the items of the left span: the token from `from` up to `to`, which the two spans give together, and the
/// items of the right one.
pub fn join_items<A: Algebra>(
    body: &mut Body<A::Atom>,
    source: &JsonSource<'_, A>,
    from: u32,
    to: u32,
    behind: Body<A::Atom>,
) -> Result<Option<SpanStop>, Memory>
    requires order { from ≤ to }
    requires end { to ≤ length source.now.bytes.now }
    requires held { CanMeet (IsAtomOf A.Algebra source.now.algebra.now) source.now.bytes.now
        (shown body.old) (shown behind)
        from (take (to - from) (drop from source.now.bytes.now)) }
    ensures { IfOk result (λ r. Meets (IsAtomOf A.Algebra source.now.algebra.now)
        source.now.bytes.now
        (shown body.old) (shown behind) (shown body.new) r from (take (to - from) (drop from source.now.bytes.now))) }
{
    let text = &source.bytes[from as usize..to as usize];
    match cut_token(body, source.alloc, source.algebra, text, from)? {
        None => join(body, source, behind),
        Some(halt) => Ok(Some(halt)),
    }
}

/// Two spans that stand one behind the other. The right one is read from the state in which the left one ends.
pub fn join_variants<A: Algebra>(
    source: &JsonSource<'_, A>,
    left: Variant<A::Atom>,
    right: Variant<A::Atom>,
) -> Result<Variant<A::Atom>, Memory>
    requires held { (s : Start) × (at : ℕ) × (w : List ℕ) × (x : List ℕ)
        × HaveUnion (IsAtomOf A.Algebra source.now.algebra.now) source.now.bytes.now s at w x left
        right }
    ensures { IfOk result (λ v. (s : Start) (at : ℕ) (w x : List ℕ)
        → HaveUnion (IsAtomOf A.Algebra source.now.algebra.now) source.now.bytes.now s at w x left
        right
        → HoldsVariant (IsAtomOf A.Algebra source.now.algebra.now) s at (w ++ x) v) }
{
    match left {
        Variant::AllLead { .. } => Ok(right),
        Variant::Broken { .. } => Ok(left),
        Variant::Whole {
            lead,
            body,
            pend,
            ..
        } => join_behind(source, lead, body, pend, right),
    }
}

fn join_behind<A: Algebra>(
    source: &JsonSource<'_, A>,
    lead: u32,
    mut body: Body<A::Atom>,
    from: u32,
    right: Variant<A::Atom>,
) -> Result<Variant<A::Atom>, Memory>
    requires held { (s : Start) × (at : ℕ) × (w : List ℕ) × (x : List ℕ)
        × Neighbours (IsAtomOf A.Algebra source.now.algebra.now) source.now.bytes.now s at w x
        lead (shown body) from right }
    ensures { IfOk result (λ v. (s : Start) (at : ℕ) (w x : List ℕ)
        → Neighbours (IsAtomOf A.Algebra source.now.algebra.now) source.now.bytes.now s at w x
        lead (shown body) from right
        → HoldsVariant (IsAtomOf A.Algebra source.now.algebra.now) s at (w ++ x) v) }
{
    match right {
        Variant::AllLead { end } => Ok(Variant::Whole {
            lead,
            body,
            pend: from,
            end,
        }),
        Variant::Whole {
            lead: to,
            body: behind,
            pend,
            end,
        } => match join_items(&mut body, source, from, to, behind)? {
            None => Ok(Variant::Whole {
                lead,
                body,
                pend,
                end,
            }),
            Some(halt) => Ok(Variant::Broken { lead, body, halt }),
        },
        Variant::Broken {
            lead: to,
            body: behind,
            halt: last,
        } => match join_items(&mut body, source, from, to, behind)? {
            None => Ok(Variant::Broken {
                lead,
                body,
                halt: last,
            }),
            Some(earlier) => Ok(Variant::Broken {
                lead,
                body,
                halt: earlier,
            }),
        },
    }
}
