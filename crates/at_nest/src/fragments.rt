//! Fragments: what a span of JSON is from each start state.

ghost use Rattle.std.specs.Prelude.{◌≡◌, ℕ, ◌+◌, ◌≤◌, ◌^◌, ◌++◌, true, List, length, IfOk};
ghost use Rattle.at_text.specs.Spans.{AreNeighbours, IsMerged};
ghost use Rattle.at_lex.specs.declared.tokens.Start.{Start};
ghost use Rattle.at_nest.specs.KeptItems.{IsAtomOf};
ghost use Rattle.at_nest.specs.VariantMeanings.{HoldsVariant};
ghost use Rattle.at_nest.specs.Slots.{GoesOn, AreBeside, CanTake, Takes, Stays, slot_in};
ghost use Rattle.at_nest.specs.Slots.{slot_behind as behind_slot, bytes_in, no_items};
ghost use Rattle.at_nest.specs.FragmentMeanings.{HoldsEscape, HoldsParts, StandsFor, parts_of};

use crate::algebra::Algebra;
use crate::sources::JsonSource;
use crate::variants::{Variant, join_variants, read_variant};
use at_lex::Start;
use at_text::Memory;
use std::alloc::Global;
use std::mem;

/// What a span is where its first byte is escaped.
#[derive(Clone, Copy)]
pub enum Escape {
    /// As in a string, since the first byte is no quote and no backslash.
    AsString,
    /// Not known: it is read where a span before it ends behind a backslash. That is seldom, and what is read may be as
    /// large as the other variants.
    Unread,
}

/// A span from outside text and from inside a string, and what is known of it from behind a backslash.
#[derive(Drop)]
pub struct Parts<T> {
    pub from: u32,
    pub to: u32,
    pub out: Variant<T>,
    pub string: Variant<T>,
    pub escape: Escape,
}

/// What a span of JSON is, whatever stands before it.
#[derive(Drop)]
pub struct Fragment<A: Algebra> {
    parts: Option<Box<Parts<A::Atom>>>,
}

/// The fragment that stands for any span: what was to be kept of it found no memory.
pub fn lost<A: Algebra>() -> Fragment<A>
    ensures { parts_of result ≡ None }
{
    Fragment { parts: None }
}

impl<A: Algebra> Fragment<A> {
    /// What is kept of the span, if it is not lost.
    pub fn into_parts(self) -> Option<Parts<A::Atom>>
        ensures { result ≡ parts_of self }
    {
        match self.parts {
            None => None,
            Some(parts) => Some(Box::into_inner(parts)),
        }
    }
}

/// The fragment of what is kept, or the lost one where memory is wanted.
fn fragment_of<A: Algebra>(
    alloc: Global,
    algebra: &A,
    parts: Result<Parts<A::Atom>, Memory>,
) -> Fragment<A>
    ensures { (at : ℕ) (w : List ℕ)
        → IfOk parts (HoldsParts (IsAtomOf A.Algebra algebra.now) at w)
        → StandsFor (IsAtomOf A.Algebra algebra.now) at w result }
{
    let _ = algebra;
    match parts {
        Err(_) => lost(),
        Ok(parts) => match Box::new(alloc, parts) {
            Err(_) => lost(),
            Ok(parts) => Fragment { parts: Some(parts) },
        },
    }
}

/// What the piece is where its first byte is escaped.
fn escape_of(piece: &[u8]) -> Escape
    ensures { HoldsEscape piece.now result }
{
    if !piece.is_empty() && piece[0] != b'"' && piece[0] != b'\\' {
        return Escape::AsString;
    }
    Escape::Unread
}

fn read_parts<A: Algebra>(source: &JsonSource<'_, A>, base: u32) -> Result<Parts<A::Atom>, Memory>
    requires { base + length source.now.bytes.now ≤ 2 ^ 28 }
    ensures { IfOk result (HoldsParts (IsAtomOf A.Algebra source.now.algebra.now) base source.now.bytes.now) }
{
    let out = read_variant(source, base, Start::Out)?;
    let string = read_variant(source, base, Start::InString)?;
    Ok(Parts {
        from: base,
        to: base + source.bytes.len() as u32,
        out,
        string,
        escape: escape_of(source.bytes),
    })
}

/// The fragment of a piece of a file, whose first byte stands at the offset `base`. It sees the piece alone. Where
/// memory is wanted, the fragment is lost.
pub fn run_block<A: Algebra>(alloc: Global, algebra: &A, piece: &[u8], base: u32) -> Fragment<A>
    requires { base + length piece.now ≤ 2 ^ 28 }
    ensures { StandsFor (IsAtomOf A.Algebra algebra.now) base piece.now result }
{
    let source = JsonSource {
        alloc,
        algebra,
        bytes: piece,
    };
    let parts = read_parts(&source, base);
    fragment_of(alloc, algebra, parts)
}

/// Where a variant is taken from.
#[derive(Clone, Copy)]
enum Slot {
    Out,
    String,
    /// From the bytes, which are read from this state: no variant of it is kept, or the one that is kept is taken.
    Bytes(Start),
}

impl<T: Drop> Parts<T> {
    /// The variant from the state; none where what stands before stops.
    fn slot_from(&self, state: Option<Start>) -> Option<Slot>
        ensures { result ≡ slot_in self.now.escape state }
    {
        match state {
            None => None,
            Some(Start::Out) => Some(Slot::Out),
            Some(Start::InString) => Some(Slot::String),
            Some(Start::InEscape) => match self.escape {
                Escape::AsString => Some(Slot::String),
                Escape::Unread => Some(Slot::Bytes(Start::InEscape)),
            },
        }
    }

    /// The variant from the state, where another one may be taken before: of one that both want, the bytes are read
    /// again.
    fn slot_behind(&self, taken: Option<Slot>, state: Option<Start>) -> Option<Slot>
        ensures { result ≡ behind_slot self.now.escape taken state }
    {
        let slot = self.slot_from(state);
        match (taken, slot) {
            (Some(Slot::Out), Some(Slot::Out)) => bytes_from(state),
            (Some(Slot::String), Some(Slot::String)) => bytes_from(state),
            _ => slot,
        }
    }
}

/// The bytes, which are read from the state.
fn bytes_from(state: Option<Start>) -> Option<Slot>
    ensures { result ≡ bytes_in state }
{
    match state {
        None => None,
        Some(state) => Some(Slot::Bytes(state)),
    }
}

/// A variant that holds nothing, left where one was taken.
fn nothing<T>() -> Variant<T>
    ensures { result ≡ no_items }
{
    Variant::AllLead { end: Start::Out }
}

/// The variant: moved out, or read from the bytes.
///
/// A merge reads its right span at most once for each of the left span's two variants.
fn taken<A: Algebra>(
    source: &JsonSource<'_, A>,
    parts: &mut Parts<A::Atom>,
    slot: Slot,
) -> Result<Variant<A::Atom>, Memory>
    requires held { CanTake (IsAtomOf A.Algebra source.now.algebra.now)
        source.now.bytes.now parts.old slot }
    ensures same { IfOk result (Takes (IsAtomOf A.Algebra source.now.algebra.now)
        source.now.bytes.now parts.old slot) }
    ensures stays { Stays (Some slot) parts.old parts.new }
{
    match slot {
        Slot::Out => Ok(mem::replace(&mut parts.out, nothing())),
        Slot::String => Ok(mem::replace(&mut parts.string, nothing())),
        Slot::Bytes(state) => {
            let piece = JsonSource {
                alloc: source.alloc,
                algebra: source.algebra,
                bytes: &source.bytes[parts.from as usize..parts.to as usize],
            };
            read_variant(&piece, parts.from, state)
        }
    }
}

/// The left variant with the right one that goes on behind it.
fn joined<A: Algebra>(
    source: &JsonSource<'_, A>,
    left: Variant<A::Atom>,
    right: &mut Parts<A::Atom>,
    wanted: Option<Slot>,
) -> Result<Variant<A::Atom>, Memory>
    requires held { (s : Start) × (at : ℕ) × (w : List ℕ) × (x : List ℕ)
        × GoesOn (IsAtomOf A.Algebra source.now.algebra.now) source.now.bytes.now s at w x left
        right.old wanted }
    ensures union { IfOk result (λ v. (s : Start) (at : ℕ) (w x : List ℕ)
        → GoesOn (IsAtomOf A.Algebra source.now.algebra.now) source.now.bytes.now s at w x left
        right.old wanted
        → HoldsVariant (IsAtomOf A.Algebra source.now.algebra.now) s at (w ++ x) v) }
    ensures stays { Stays wanted right.old right.new }
{
    match wanted {
        None => Ok(left),
        Some(slot) => {
            let behind = taken(source, right, slot)?;
            join_variants(source, left, behind)
        }
    }
}

/// What is kept of two neighbouring spans, put together.
fn merge_parts<A: Algebra>(
    source: &JsonSource<'_, A>,
    left: Parts<A::Atom>,
    mut right: Parts<A::Atom>,
) -> Result<Parts<A::Atom>, Memory>
    requires beside { (at : ℕ) × (w : List ℕ) × (x : List ℕ)
        × AreBeside (IsAtomOf A.Algebra source.now.algebra.now) source.now.bytes.now at w x left
        right }
    ensures { IfOk result (λ p. (at : ℕ) (w x : List ℕ)
        → AreBeside (IsAtomOf A.Algebra source.now.algebra.now) source.now.bytes.now at w x left
        right
        → HoldsParts (IsAtomOf A.Algebra source.now.algebra.now) at (w ++ x) p) }
{
    let Parts {
        from,
        out,
        string,
        escape,
        ..
    } = left;
    let to = right.to;
    let for_out = right.slot_from(out.end());
    let for_string = right.slot_behind(for_out, string.end());
    let out = joined(source, out, &mut right, for_out)?;
    let string = joined(source, string, &mut right, for_string)?;
    Ok(Parts {
        from,
        to,
        out,
        string,
        escape,
    })
}

/// The fragment of two neighbouring spans of the bytes. A merge with a lost fragment is lost, and so is one that finds
/// no memory.
pub fn merge<A: Algebra>(
    alloc: Global,
    algebra: &A,
    bytes: &[u8],
    left: Fragment<A>,
    right: Fragment<A>,
) -> Fragment<A>
    requires fits { length bytes.now ≤ 2 ^ 28 }
    requires neighbours { (i : ℕ) × (j : ℕ) × (k : ℕ)
        × AreNeighbours (StandsFor (IsAtomOf A.Algebra algebra.now)) bytes.now i j k left right }
    ensures union { IsMerged (StandsFor (IsAtomOf A.Algebra algebra.now)) bytes.now left right result }
    ensures left_lost { parts_of left ≡ None → parts_of result ≡ None }
    ensures right_lost { parts_of right ≡ None → parts_of result ≡ None }
{
    match (left.into_parts(), right.into_parts()) {
        (Some(left), Some(right)) => {
            let source = JsonSource {
                alloc,
                algebra,
                bytes,
            };
            let parts = merge_parts(&source, left, right);
            fragment_of(alloc, algebra, parts)
        }
        _ => lost(),
    }
}
