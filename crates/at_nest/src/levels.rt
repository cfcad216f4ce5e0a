//! An open array or object: what stands in it so far, and what may stand next (RFC 8259 sections 4 and 5).

ghost use Rattle.std.specs.Prelude.{◌≡◌, [], ◌∷◌, Some, All, IfOk, MatchOption};
ghost use Rattle.at_nest.specs.Tree.{Tree};
ghost use Rattle.at_nest.specs.Levels.{Level as ModelLevel, built};
ghost use Rattle.at_nest.specs.Shown.{held_of, helds_of, top_of, opened_as, from_of, comma_next, colon_next};
ghost use Rattle.at_nest.specs.Shown.{value_next, name_next, takes_name, takes_value, closes_with, IsStep, AreOwn};
ghost use Rattle.at_nest.specs.Refusals.{not_in_level, is_array as is_array_level};
ghost use Rattle.at_nest.specs.Nests.{nest_in};
ghost use Rattle.at_nest.specs.KeptItems.{IsHeld, AddsTo, GainsAll, free, IsAtomOf};

use crate::algebra::{Algebra, Member};
use at_lex::{Bracket, TokenKind, Units};
use at_text::Memory;
use std::alloc::Global;
use std::mem;

/// What an open array ends in.
#[derive(Clone, Copy)]
pub enum ArrayState {
    /// Its bracket: a value or the closing bracket comes next.
    Empty,
    /// A comma: a value comes next.
    Comma,
    /// A value: a comma or the closing bracket comes next.
    Value,
}

/// A member's name, with the offset of its opening quote.
#[derive(Drop)]
pub struct MemberName {
    pub units: Units,
    pub at: u32,
}

/// What an open object ends in.
#[derive(Drop)]
pub enum ObjectState {
    /// Its bracket: a name or the closing bracket comes next.
    Empty,
    /// A comma: a name comes next.
    Comma,
    /// A name: a colon comes next.
    Named(MemberName),
    /// A colon: a value comes next.
    Colon(MemberName),
    /// A value: a comma or the closing bracket comes next.
    Value,
}

/// An array whose closing bracket is still to come, with the offset of its opening one.
#[derive(Drop)]
pub struct ArrayLevel<T> {
    pub from: u32,
    pub state: ArrayState,
    pub items: Vec<T>,
}

/// An object whose closing bracket is still to come, with the offset of its opening one.
#[derive(Drop)]
pub struct ObjectLevel<T> {
    pub from: u32,
    pub state: ObjectState,
    pub members: Vec<Member<T>>,
}

/// What is open, taken out of the others. An object without members takes no memory of its own.
#[derive(Drop)]
pub enum Level<T> {
    Array(ArrayLevel<T>),
    /// An object behind its bracket, which stands at the offset.
    Opened(u32),
    /// An object behind its first name.
    Named { from: u32, name: MemberName },
    /// An object behind its first name and the colon.
    Awaiting { from: u32, name: MemberName },
    Object(Box<ObjectLevel<T>>),
}

/// Arrays with nothing in them, each right in the next.
#[derive(Clone, Copy)]
pub struct Nest {
    /// The offset of the innermost one's bracket.
    pub last: u32,
    /// How many there are besides.
    pub more: u32,
}

/// What is open, in its place among the others: a level in one of its forms, or arrays that take no room of their own.
///
/// A file may open a million levels, so none takes more room here than an array with the vector of its items.
#[derive(Drop)]
pub enum Open<T> {
    Array(ArrayLevel<T>),
    Opened(u32),
    Named { from: u32, name: MemberName },
    Awaiting { from: u32, name: MemberName },
    Object(Box<ObjectLevel<T>>),
    Nested(Nest),
}

/// A level, and whether what came next may stand there. Where it may not, the level is as before.
#[derive(Drop)]
pub enum Step<T> {
    On(Level<T>),
    Refused(Level<T>),
}

/// An array that goes on.
#[inline(always)]
pub fn array<T>(from: u32, state: ArrayState, items: Vec<T>) -> Level<T>
    ensures { result ≡ Level.Array (record { from = from; state = state; items = items }) }
{
    Level::Array(ArrayLevel { from, state, items })
}

impl<T: Drop> ArrayLevel<T> {
    #[inline(always)]
    fn comma(self) -> Step<T>
        ensures { IsStep (held_of (Level.Array self)) (comma_next (held_of (Level.Array self))) result }
    {
        let ArrayLevel { from, state, items } = self;
        match state {
            ArrayState::Value => Step::On(array(from, ArrayState::Comma, items)),
            state => Step::Refused(array(from, state, items)),
        }
    }
}

/// An object behind a comma.
#[inline(always)]
fn object_comma<T: Drop>(mut level: Box<ObjectLevel<T>>) -> Step<T>
    ensures { IsStep (held_of (Level.Object level)) (comma_next (held_of (Level.Object level))) result }
{
    match level.state {
        ObjectState::Value => {
            level.state = ObjectState::Comma;
            Step::On(Level::Object(level))
        }
        _ => Step::Refused(Level::Object(level)),
    }
}

/// An object behind a colon.
#[inline(always)]
fn object_colon<T: Drop>(mut level: Box<ObjectLevel<T>>) -> Step<T>
    ensures { IsStep (held_of (Level.Object level)) (colon_next (held_of (Level.Object level))) result }
{
    match mem::replace(&mut level.state, ObjectState::Empty) {
        ObjectState::Named(name) => {
            level.state = ObjectState::Colon(name);
            Step::On(Level::Object(level))
        }
        state => {
            level.state = state;
            Step::Refused(Level::Object(level))
        }
    }
}

/// An object behind a name.
#[inline(always)]
fn object_name<T: Drop>(mut level: Box<ObjectLevel<T>>, name: MemberName) -> Step<T>
    ensures { IsStep (held_of (Level.Object level)) (name_next (held_of (Level.Object level)) name) result }
{
    match level.state {
        ObjectState::Empty | ObjectState::Comma => {
            level.state = ObjectState::Named(name);
            Step::On(Level::Object(level))
        }
        _ => Step::Refused(Level::Object(level)),
    }
}

/// An object behind a value, which has become the atom.
#[inline(always)]
fn object_value<T: Drop>(mut level: Box<ObjectLevel<T>>, atom: T) -> Result<Step<T>, Memory>
    ensures { IfOk result (λ step. IsStep (held_of (Level.Object level))
        (value_next (held_of (Level.Object level)) atom []) step) }
{
    match mem::replace(&mut level.state, ObjectState::Value) {
        ObjectState::Colon(name) => {
            level.members.push(member(name, atom))?;
            Ok(Step::On(Level::Object(level)))
        }
        state => {
            level.state = state;
            Ok(Step::Refused(Level::Object(level)))
        }
    }
}

/// A member of the name and the value.
#[inline(always)]
fn member<T>(name: MemberName, value: T) -> Member<T>
    ensures { result ≡ record { name = name.units; name_at = name.at; value = value } }
{
    let MemberName { units, at } = name;
    Member {
        name: units,
        name_at: at,
        value,
    }
}

/// An object behind its first member.
fn first_member<T: Drop>(
    alloc: Global,
    from: u32,
    name: MemberName,
    atom: T,
) -> Result<Level<T>, Memory>
    ensures { IfOk result (λ l. Some (held_of l) ≡ value_next (held_of (Level.Awaiting from name)) atom []) }
{
    let mut members = Vec::with_capacity(alloc, 1)?;
    members.push(member(name, atom))?;
    let level = Box::new(
        alloc,
        ObjectLevel {
            from,
            state: ObjectState::Value,
            members,
        },
    )?;
    Ok(Level::Object(level))
}

impl<T: Drop> Level<T> {
    /// A level with nothing in it.
    #[inline(always)]
    pub fn opened(alloc: Global, bracket: Bracket, from: u32) -> Self
        ensures { held_of result ≡ opened_as bracket from }
    {
        match bracket {
            Bracket::Square => array(from, ArrayState::Empty, Vec::new(alloc)),
            Bracket::Brace => Level::Opened(from),
        }
    }

    /// The offset of the opening bracket.
    #[inline(always)]
    pub fn first(&self) -> u32
        ensures { result ≡ from_of (held_of self.now) }
    {
        match self {
            Level::Array(level) => level.from,
            Level::Opened(from) => *from,
            Level::Named { from, .. } => *from,
            Level::Awaiting { from, .. } => *from,
            Level::Object(level) => level.from,
        }
    }

    /// Behind a comma.
    #[inline(always)]
    pub fn comma(self) -> Step<T>
        ensures { IsStep (held_of self) (comma_next (held_of self)) result }
    {
        match self {
            Level::Array(level) => level.comma(),
            Level::Object(level) => object_comma(level),
            level => Step::Refused(level),
        }
    }

    /// Behind a colon.
    #[inline(always)]
    pub fn colon(self) -> Step<T>
        ensures { IsStep (held_of self) (colon_next (held_of self)) result }
    {
        match self {
            Level::Named { from, name } => Step::On(Level::Awaiting { from, name }),
            Level::Object(level) => object_colon(level),
            level => Step::Refused(level),
        }
    }

    /// Behind a name.
    #[inline(always)]
    pub fn name(self, name: MemberName) -> Step<T>
        ensures { IsStep (held_of self) (name_next (held_of self) name) result }
    {
        match self {
            Level::Opened(from) => Step::On(Level::Named { from, name }),
            Level::Object(level) => object_name(level, name),
            level => Step::Refused(level),
        }
    }

    /// Whether a name may come next.
    #[inline(always)]
    pub fn wants_name(&self) -> bool
        ensures { result ≡ takes_name (held_of self.now) }
    {
        match self {
            Level::Opened(_) => true,
            Level::Object(level) => matches!(level.state, ObjectState::Empty | ObjectState::Comma),
            _ => false,
        }
    }

    /// Whether the closing bracket may come next.
    #[inline(always)]
    pub fn can_close(&self, bracket: Bracket) -> bool
        ensures { result ≡ closes_with (held_of self.now) bracket }
    {
        match (self, bracket) {
            (Level::Array(level), Bracket::Square) => match level.state {
                ArrayState::Comma => false,
                _ => true,
            },
            (Level::Opened(_), Bracket::Brace) => true,
            (Level::Object(level), Bracket::Brace) => match level.state {
                ObjectState::Empty | ObjectState::Value => true,
                _ => false,
            },
            _ => false,
        }
    }
}

impl<T: Drop> Open<T> {
    /// The level in its place among the others.
    #[inline(always)]
    pub fn of(level: Level<T>) -> Self
        ensures { helds_of result ≡ held_of level ∷ [] }
    {
        match level {
            Level::Array(level) => Open::Array(level),
            Level::Opened(from) => Open::Opened(from),
            Level::Named { from, name } => Open::Named { from, name },
            Level::Awaiting { from, name } => Open::Awaiting { from, name },
            Level::Object(level) => Open::Object(level),
        }
    }

    /// The level, where it is no nest.
    #[inline(always)]
    pub fn level(self) -> Option<Level<T>>
        ensures { MatchOption result ((n : Nest) × (self ≡ Open.Nested n)) (λ l. helds_of self ≡ held_of l ∷ []) }
    {
        match self {
            Open::Array(level) => Some(Level::Array(level)),
            Open::Opened(from) => Some(Level::Opened(from)),
            Open::Named { from, name } => Some(Level::Named { from, name }),
            Open::Awaiting { from, name } => Some(Level::Awaiting { from, name }),
            Open::Object(level) => Some(Level::Object(level)),
            Open::Nested(_nest) => None,
        }
    }

    /// The nest, if it is one.
    #[inline(always)]
    pub fn nest(&self) -> Option<Nest>
        ensures { result ≡ nest_in (Some self.now) }
    {
        match self {
            Open::Nested(nest) => Some(*nest),
            _ => None,
        }
    }

    /// The offset of the innermost opening bracket.
    pub fn first(&self) -> u32
        ensures { result ≡ from_of (top_of self.now) }
    {
        match self {
            Open::Array(level) => level.from,
            Open::Opened(from) => *from,
            Open::Named { from, .. } => *from,
            Open::Awaiting { from, .. } => *from,
            Open::Object(level) => level.from,
            Open::Nested(nest) => nest.last,
        }
    }

    /// Whether a name may come next.
    pub fn wants_name(&self) -> bool
        ensures { result ≡ takes_name (top_of self.now) }
    {
        match self {
            Open::Opened(_) => true,
            Open::Object(level) => matches!(level.state, ObjectState::Empty | ObjectState::Comma),
            _ => false,
        }
    }

    /// Whether a value may come next.
    #[inline(always)]
    pub fn wants_value(&self) -> bool
        ensures { result ≡ takes_value (top_of self.now) }
    {
        match self {
            Open::Array(level) => match level.state {
                ArrayState::Value => false,
                _ => true,
            },
            Open::Awaiting { .. } => true,
            Open::Object(level) => match level.state {
                ObjectState::Colon(_) => true,
                _ => false,
            },
            Open::Nested(_) => true,
            _ => false,
        }
    }

    /// Whether the innermost level is an array.
    #[inline(always)]
    pub fn is_array(&self) -> bool
        ensures { result ≡ is_array_level (top_of self.now) }
    {
        match self {
            Open::Array(_) => true,
            Open::Nested(_) => true,
            _ => false,
        }
    }

    /// Whether no token of the kind may come next: an opening bracket, where no value may.
    #[inline(always)]
    pub fn refuses(&self, kind: TokenKind) -> bool
        ensures { result ≡ not_in_level (top_of self.now) kind }
    {
        match kind {
            TokenKind::Opens(_) => !self.wants_value(),
            _ => false,
        }
    }
}

/// An array behind a value, which has become the atom, or behind several, for which the atom stands.
#[inline(always)]
pub fn array_value<A: Algebra>(
    alloc: Global,
    algebra: &A,
    level: ArrayLevel<A::Atom>,
    atom: A::Atom,
) -> Result<Step<A::Atom>, Memory>
    requires level { AreOwn (A.is_own algebra.now) (held_of (Level.Array level)) }
    requires atom { A.is_own algebra.now atom }
    ensures { IfOk result (AddsTo (IsAtomOf A.Algebra algebra.now)
        (held_of (Level.Array level)) atom) }
{
    let ArrayLevel {
        from,
        state,
        mut items,
    } = level;
    match state {
        ArrayState::Value => Ok(Step::Refused(array(from, state, items))),
        _ => {
            algebra.add(alloc, &mut items, atom)?;
            Ok(Step::On(array(from, ArrayState::Value, items)))
        }
    }
}

/// A level behind a value, which has become the atom.
#[inline(always)]
pub fn with_value<A: Algebra>(
    alloc: Global,
    algebra: &A,
    level: Level<A::Atom>,
    atom: A::Atom,
) -> Result<Step<A::Atom>, Memory>
    requires level { AreOwn (A.is_own algebra.now) (held_of level) }
    requires atom { A.is_own algebra.now atom }
    ensures { IfOk result (AddsTo (IsAtomOf A.Algebra algebra.now)
        (held_of level) atom) }
{
    match level {
        Level::Array(level) => array_value(alloc, algebra, level, atom),
        Level::Awaiting { from, name } => Ok(Step::On(first_member(alloc, from, name, atom)?)),
        Level::Object(level) => object_value(level, atom),
        level => Ok(Step::Refused(level)),
    }
}

/// An array's atoms, and further ones behind them.
pub fn with_items<A: Algebra>(
    alloc: Global,
    algebra: &A,
    mut items: Vec<A::Atom>,
    more: Vec<A::Atom>,
) -> Result<Vec<A::Atom>, Memory>
    requires items { All (A.is_own algebra.now) items.items }
    requires more { All (A.is_own algebra.now) more.items }
    ensures { IfOk result (λ all. GainsAll (IsAtomOf A.Algebra algebra.now)
        items.items more.items all.items) }
{
    for atom in more {
        algebra.add(alloc, &mut items, atom)?;
    }
    Ok(items)
}

/// The atom of a level that is closed.
pub fn closed<A: Algebra>(
    alloc: Global,
    algebra: &A,
    level: Level<A::Atom>,
) -> Result<A::Atom, Memory>
    requires own { AreOwn (A.is_own algebra.now) (held_of level) }
    ensures own { IfOk result (A.is_own algebra.now) }
    ensures fold { IfOk result (λ atom. (l : ModelLevel Tree)
        → IsHeld (IsAtomOf A.Algebra algebra.now) (held_of level) l
        → A.is_fold algebra.now atom (built free l.bracket l.from l.inside)) }
{
    match level {
        Level::Array(ArrayLevel { from, items, .. }) => algebra.array(alloc, from, items),
        Level::Opened(from) => algebra.object(alloc, from, Vec::new(alloc)),
        Level::Named { from, .. } => algebra.object(alloc, from, Vec::new(alloc)),
        Level::Awaiting { from, .. } => algebra.object(alloc, from, Vec::new(alloc)),
        Level::Object(level) => {
            let ObjectLevel { from, members, .. } = Box::into_inner(level);
            algebra.object(alloc, from, members)
        }
    }
}
