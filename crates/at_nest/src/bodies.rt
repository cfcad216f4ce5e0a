//! The whole items of a span behind its lead: those before its first open level, and the open levels.

ghost use Rattle.std.specs.Prelude.{◌≡◌, ◌+◌, ◌-◌, ◌<◌, ◌≤◌, ◌^◌, suc, true, List, [], ◌∷◌, length, Option, Some, None};
ghost use Rattle.std.specs.Prelude.{All, IfOk, IfSome, MatchOption, slice_set};
ghost use Rattle.at_lex.specs.declared.tokens.Bracket.TheVariants.{Square};
ghost use Rattle.at_lex.specs.Strings.{JsonString, Character, AreCharacters, string_text};
ghost use Rattle.at_nest.specs.Forms.{closes as closing_piece};
ghost use Rattle.at_nest.specs.Shown.{Held, array_level, held_of, AreOwn, opens_of, shown, opened_as, show_as};
ghost use Rattle.at_nest.specs.Shown.{kept_outside, put_back, comma_added, colon_added, IsStep};
ghost use Rattle.at_nest.specs.Refusals.{is_refused, last_of, is_comma_last, takes_items};
ghost use Rattle.at_nest.specs.Closers.{IsLonger};
ghost use Rattle.at_nest.specs.declared.pieces.Closers.{Closers};
ghost use Rattle.at_nest.specs.declared.pieces.Piece.{Piece};
ghost use Rattle.at_nest.specs.declared.pieces.Piece.TheVariants.{Closers as ClosersPiece};
ghost use Rattle.at_nest.specs.Nests.{nest_in, PutsLast};
ghost use Rattle.at_nest.specs.declared.levels.ArrayState.TheVariants.{Empty};
ghost use Rattle.at_nest.specs.declared.levels.Nest.{Nest};
ghost use Rattle.at_nest.specs.declared.levels.Open.TheVariants.{Nested};
ghost use Rattle.at_nest.specs.KeptItems.{IsAtomOf};
ghost use Rattle.at_nest.specs.KeptItems.{IsOfItems, Pushes, PushesClosers, PushesText, PushesValue, PushesItems};
ghost use Rattle.at_nest.specs.KeptItems.{PushesBehind};
ghost use Rattle.at_nest.specs.KeptItems.{PushesRow, Lengthens, PutsRow, PushesKeptText, CanAdd, Adds, CanJoin, Joins};

use crate::algebra::Algebra;
use crate::levels::{
    ArrayLevel, ArrayState, Level, MemberName, Nest, Open, Step, array, array_value, closed,
    with_items, with_value,
};
use crate::member_rows::{add_members, keep_awaited};
use crate::open_levels::Levels;
use crate::pieces::{Closers, Piece, Row, RowValue, SpanStop, awaited_member, first_byte};
use crate::sources::JsonSource;
use at_lex::{Bracket, TokenKind, units};
use at_text::{Memory, Span};
use std::alloc::Global;

/// The whole items of a span. What is closed in it has become an atom.
#[derive(Drop)]
pub struct Body<T> {
    /// What stands before the first open level: no opening bracket is among it.
    pub outer: Vec<Piece<T>>,
    /// The open levels, the innermost last.
    pub levels: Levels<T>,
}

impl<T: Drop> Body<T> {
    /// No items.
    pub fn new(alloc: Global) -> Self
        ensures { shown result ≡ show_as [] [] }
    {
        Body {
            outer: Vec::new(alloc),
            levels: Levels::new(alloc),
        }
    }

    /// The nest, where it is innermost.
    #[inline(always)]
    fn nest(&self) -> Option<Nest>
        ensures { result ≡ nest_in (last_of (opens_of self.now.levels)) }
    {
        match self.levels.innermost() {
            Some(open) => open.nest(),
            None => None,
        }
    }

    /// Puts the nest where the innermost levels were.
    fn put_nest(&mut self, nest: Nest)
        ensures outer { (shown self.new).outer ≡ (shown self.old).outer }
        ensures levels { PutsLast (opens_of self.old.levels) (opens_of self.new.levels) (Nested nest) }
    {
        self.levels.put_innermost(Open::Nested(nest));
    }

    /// Leaves the innermost array of the nest out.
    fn leave_nested(&mut self, nest: Nest)
        requires { last_of (opens_of self.old.levels) ≡ Some (Nested nest) }
        ensures outer { (shown self.new).outer ≡ (shown self.old).outer }
        ensures levels { (shown self.old).levels ≡ array_level nest.last Empty [] ∷ (shown self.new).levels }
    {
        if nest.more == 0 {
            self.levels.pop();
            return;
        }
        self.put_nest(Nest {
            last: nest.last.saturating_sub(1),
            more: nest.more - 1,
        });
    }

    /// Takes the innermost array of the nest out.
    fn take_nested(&mut self, alloc: Global, nest: Nest) -> Level<T>
        requires { last_of (opens_of self.old.levels) ≡ Some (Nested nest) }
        ensures outer { (shown self.new).outer ≡ (shown self.old).outer }
        ensures levels { (shown self.old).levels ≡ held_of result ∷ (shown self.new).levels }
    {
        self.leave_nested(nest);
        array(nest.last, ArrayState::Empty, Vec::new(alloc))
    }

    /// Takes the innermost level out, which is in no nest.
    #[inline(always)]
    fn pop(&mut self) -> Option<Level<T>>
        requires { nest_in (last_of (opens_of self.old.levels)) ≡ None }
        ensures outer { (shown self.new).outer ≡ (shown self.old).outer }
        ensures levels { MatchOption result
            (((shown self.old).levels ≡ []) × ((shown self.new).levels ≡ []))
            (λ l. (shown self.old).levels ≡ held_of l ∷ (shown self.new).levels) }
    {
        match self.levels.pop() {
            Some(open) => open.level(),
            None => None,
        }
    }

    /// Whether no level is open.
    #[inline(always)]
    pub fn is_outside(&self) -> bool
        ensures { result ≡ true → (shown self.now).levels ≡ [] }
    {
        self.levels.is_empty()
    }

    /// Takes the innermost open level out.
    #[inline(always)]
    pub fn innermost(&mut self, alloc: Global) -> Option<Level<T>>
        ensures outer { (shown self.new).outer ≡ (shown self.old).outer }
        ensures levels { MatchOption result
            (((shown self.old).levels ≡ []) × ((shown self.new).levels ≡ []))
            (λ l. (shown self.old).levels ≡ held_of l ∷ (shown self.new).levels) }
    {
        match self.nest() {
            Some(nest) => Some(self.take_nested(alloc, nest)),
            None => self.pop(),
        }
    }

    /// Whether no token of the kind may come next, whatever stands before the span.
    #[inline(always)]
    pub fn refuses(&self, kind: TokenKind) -> bool
        ensures { result ≡ is_refused (shown self.now) kind }
    {
        match self.levels.innermost() {
            Some(open) => open.refuses(kind),
            None => match self.outer.as_slice().last() {
                Some(piece) => piece.refuses(kind),
                None => false,
            },
        }
    }

    /// Whether an array or object that comes next can be nothing but an array's item, so that several may be read at
    /// once: the innermost level is an array, or a comma is the last of what stands outside all levels.
    #[inline(always)]
    pub fn wants_items(&self) -> bool
        ensures { result ≡ takes_items (shown self.now) }
    {
        match self.levels.innermost() {
            Some(open) => open.is_array(),
            None => match self.outer.as_slice().last() {
                Some(piece) => piece.is_comma(),
                None => false,
            },
        }
    }

    /// Puts a level back.
    #[inline(always)]
    fn push(&mut self, level: Level<T>) -> Result<(), Memory>
        ensures { IfOk result (λ u. shown self.new ≡ show_as (shown self.old).outer (held_of level
            ∷ (shown self.old).levels)) }
    {
        self.levels.push(Open::of(level))?;
        Ok(())
    }

    /// The nest with an array more, whose bracket stands at the offset: right behind the innermost one.
    #[inline(always)]
    fn longer(&self, at: u32) -> Option<Nest>
        ensures { IfSome result (λ n. (n.last ≡ at) × (m : Nest)
            × (last_of (opens_of self.now.levels) ≡ Some (Nested m)) × (m.last ≡ at - 1) × (n.more ≡ suc m.more)) }
    {
        match self.nest() {
            None => None,
            Some(nest) => if nest.last == at.saturating_sub(1) && nest.more < u32::MAX {
                Some(Nest {
                    last: at,
                    more: nest.more + 1,
                })
            } else {
                None
            },
        }
    }

    /// An array more.
    #[inline(always)]
    fn open_square(&mut self, at: u32) -> Result<(), Memory>
        ensures { IfOk result (λ u. shown self.new
            ≡ show_as (shown self.old).outer (opened_as Square at ∷ (shown self.old).levels)) }
    {
        match self.longer(at) {
            Some(nest) => {
                self.put_nest(nest);
                Ok(())
            }
            None => {
                self.levels.push(Open::Nested(Nest { last: at, more: 0 }))?;
                Ok(())
            }
        }
    }

    /// Puts a level back behind what came next at the offset; where that is refused, the span stops there.
    #[inline(always)]
    pub fn put(&mut self, step: Step<T>, at: u32) -> Result<Option<SpanStop>, Memory>
        ensures { IfOk result (λ r. (old : Held T) (o : Option (Held T)) → IsStep old o step
            → (shown self.new, r) ≡ put_back (shown self.old).outer (shown self.old).levels at old o) }
    {
        match step {
            Step::On(level) => {
                self.push(level)?;
                Ok(None)
            }
            Step::Refused(level) => {
                self.push(level)?;
                Ok(Some(first_byte(at)))
            }
        }
    }

    /// Puts an item behind those of the outermost level.
    #[inline(always)]
    pub fn keep(&mut self, piece: Piece<T>) -> Result<Option<SpanStop>, Memory>
        requires { (shown self.old).levels ≡ [] }
        ensures { IfOk result (λ r. (shown self.new, r) ≡ kept_outside (shown self.old).outer piece) }
    {
        self.outer.push(piece)?;
        Ok(None)
    }

    /// The last items with the closing brackets, where they are closing brackets with which those go on.
    fn closers_with(&self, behind: Closers) -> Option<Closers>
        ensures { IfSome result (λ r. (c : Closers) × (last_of self.now.outer.items ≡ Some (ClosersPiece c))
            × IsLonger c behind r) }
    {
        match self.outer.as_slice().last() {
            Some(piece) => piece.longer(behind),
            None => None,
        }
    }

    /// Puts the closing brackets in the place of the last item before the first open level.
    fn put_closers(&mut self, closers: Closers)
        requires some { 0 < length self.old.outer.items }
        ensures { shown self.new
            ≡ show_as (slice_set self.old.outer.items (length self.old.outer.items - 1) (ClosersPiece closers))
            (shown self.old).levels }
    {
        let place = self.outer.len() - 1;
        self.outer[place] = Piece::Closers(closers);
    }

    /// Puts an opening bracket behind the items.
    #[inline(always)]
    pub fn open(&mut self, alloc: Global, bracket: Bracket, at: u32) -> Result<(), Memory>
        ensures { IfOk result (λ u. shown self.new
            ≡ show_as (shown self.old).outer (opened_as bracket at ∷ (shown self.old).levels)) }
    {
        match bracket {
            Bracket::Square => self.open_square(at),
            Bracket::Brace => self.push(Level::opened(alloc, bracket, at)),
        }
    }

    /// Puts a comma behind the items, or tells where they stop because of it.
    #[inline(always)]
    pub fn comma(&mut self, alloc: Global, at: u32) -> Result<Option<SpanStop>, Memory>
        ensures { IfOk result (λ r. (shown self.new, r) ≡ comma_added at (shown self.old).outer
            (shown self.old).levels) }
    {
        match self.innermost(alloc) {
            None => self.keep(Piece::Comma(at)),
            Some(level) => self.put(level.comma(), at),
        }
    }

    /// Puts a colon behind the items, or tells where they stop because of it.
    #[inline(always)]
    pub fn colon(&mut self, alloc: Global, at: u32) -> Result<Option<SpanStop>, Memory>
        ensures { IfOk result (λ r. (shown self.new, r) ≡ colon_added at (shown self.old).outer
            (shown self.old).levels) }
    {
        match self.innermost(alloc) {
            None => self.keep(Piece::Colon(at)),
            Some(level) => self.put(level.colon(), at),
        }
    }
}

/// The first value of a row, or the first ones, for which the atom stands.
fn begin_row<A: Algebra>(
    body: &mut Body<A::Atom>,
    alloc: Global,
    algebra: &A,
    value: RowValue<A::Atom>,
) -> Result<Option<SpanStop>, Memory>
    requires outside { (shown body.old).levels ≡ [] }
    requires own { A.is_own algebra.now value.atom }
    ensures { IfOk result (λ r.
        PushesBehind (IsAtomOf A.Algebra algebra.now)
        (shown body.old) (shown body.new) r value.comma value.from value.atom) }
{
    let RowValue { comma, from, atom } = value;
    let mut items = Vec::new(alloc);
    algebra.add(alloc, &mut items, atom)?;
    body.keep(Piece::Row(Row {
        comma,
        first: from,
        items,
    }))
}

/// One value more behind a row, or several, for which the atom stands.
fn lengthen_row<A: Algebra>(
    body: &mut Body<A::Atom>,
    alloc: Global,
    algebra: &A,
    row: Row<A::Atom>,
    atom: A::Atom,
) -> Result<Option<SpanStop>, Memory>
    requires outside { (shown body.old).levels ≡ [] }
    requires items { All (A.is_own algebra.now) row.items.items }
    requires own { A.is_own algebra.now atom }
    ensures { IfOk result (λ r. Lengthens (IsAtomOf A.Algebra algebra.now)
        (shown body.old) (shown body.new, r) row atom) }
{
    let Row {
        comma,
        first,
        mut items,
    } = row;
    algebra.add(alloc, &mut items, atom)?;
    body.keep(Piece::Row(Row {
        comma,
        first,
        items,
    }))
}

/// A value behind a comma, or several, for which the atom stands: they lengthen the row before them, or begin one.
fn keep_behind<A: Algebra>(
    body: &mut Body<A::Atom>,
    alloc: Global,
    algebra: &A,
    value: RowValue<A::Atom>,
) -> Result<Option<SpanStop>, Memory>
    requires outside { (shown body.old).levels ≡ [] }
    requires held { IsOfItems (IsAtomOf A.Algebra algebra.now) (shown body.old) }
    requires own { A.is_own algebra.now value.atom }
    ensures { IfOk result (λ r.
        PushesBehind (IsAtomOf A.Algebra algebra.now)
        (shown body.old) (shown body.new) r value.comma value.from value.atom) }
{
    match body.outer.pop() {
        Some(Piece::Row(row)) => lengthen_row(body, alloc, algebra, row, value.atom),
        Some(piece) => {
            body.outer.push(piece)?;
            begin_row(body, alloc, algebra, value)
        }
        None => begin_row(body, alloc, algebra, value),
    }
}

/// A value that is no string, before the first open level, where it is not the value of a member behind a comma.
#[inline(always)]
fn keep_other<A: Algebra>(
    body: &mut Body<A::Atom>,
    alloc: Global,
    algebra: &A,
    from: u32,
    atom: A::Atom,
) -> Result<Option<SpanStop>, Memory>
    requires outside { (shown body.old).levels ≡ [] }
    requires held { IsOfItems (IsAtomOf A.Algebra algebra.now) (shown body.old) }
    requires own { A.is_own algebra.now atom }
    ensures { IfOk result (λ r. PushesValue (IsAtomOf A.Algebra algebra.now)
        (shown body.old) (shown body.new) r from atom) }
{
    match body.outer.pop() {
        Some(Piece::Comma(comma)) => {
            keep_behind(body, alloc, algebra, RowValue { comma, from, atom })
        }
        Some(piece) => {
            body.outer.push(piece)?;
            body.keep(Piece::Value { from, atom })
        }
        None => body.keep(Piece::Value { from, atom }),
    }
}

/// A value that is no string, before the first open level.
#[inline(always)]
fn keep_value<A: Algebra>(
    body: &mut Body<A::Atom>,
    alloc: Global,
    algebra: &A,
    from: u32,
    atom: A::Atom,
) -> Result<Option<SpanStop>, Memory>
    requires outside { (shown body.old).levels ≡ [] }
    requires held { IsOfItems (IsAtomOf A.Algebra algebra.now) (shown body.old) }
    requires own { A.is_own algebra.now atom }
    ensures { IfOk result (λ r. PushesValue (IsAtomOf A.Algebra algebra.now)
        (shown body.old) (shown body.new) r from atom) }
{
    match awaited_member(body.outer.as_slice()) {
        Some(member) => keep_awaited(body, alloc, algebra, member, atom),
        None => keep_other(body, alloc, algebra, from, atom),
    }
}

/// A value that is no string.
#[inline(always)]
pub fn read_value<A: Algebra>(
    body: &mut Body<A::Atom>,
    alloc: Global,
    algebra: &A,
    from: u32,
    atom: A::Atom,
) -> Result<Option<SpanStop>, Memory>
    requires held { IsOfItems (IsAtomOf A.Algebra algebra.now) (shown body.old) }
    requires own { A.is_own algebra.now atom }
    ensures { IfOk result (λ r. PushesValue (IsAtomOf A.Algebra algebra.now)
        (shown body.old) (shown body.new) r from atom) }
{
    match body.innermost(alloc) {
        None => keep_value(body, alloc, algebra, from, atom),
        Some(level) => body.put(with_value(alloc, algebra, level, atom)?, from),
    }
}

/// Items of an array, of which no bracket was opened in the span, where a comma stands before them.
#[inline(always)]
fn keep_items<A: Algebra>(
    body: &mut Body<A::Atom>,
    alloc: Global,
    algebra: &A,
    from: u32,
    atom: A::Atom,
) -> Result<Option<SpanStop>, Memory>
    requires outside { (shown body.old).levels ≡ [] }
    requires held { IsOfItems (IsAtomOf A.Algebra algebra.now) (shown body.old) }
    requires own { A.is_own algebra.now atom }
    requires takes { is_comma_last (last_of (shown body.old).outer) ≡ true }
    ensures { IfOk result (λ r. PushesItems (IsAtomOf A.Algebra algebra.now)
        (shown body.old) (shown body.new) r from atom) }
{
    match body.outer.pop() {
        Some(piece) => match piece {
            Piece::Comma(comma) => {
                keep_behind(body, alloc, algebra, RowValue { comma, from, atom })
            }
            piece => body.keep(piece),
        },
        None => Ok(None),
    }
}

/// Arrays and objects one behind another in an array, with their commas: the one atom stands for all of them.
#[inline(always)]
pub fn put_items<A: Algebra>(
    body: &mut Body<A::Atom>,
    alloc: Global,
    algebra: &A,
    from: u32,
    atom: A::Atom,
) -> Result<Option<SpanStop>, Memory>
    requires held { IsOfItems (IsAtomOf A.Algebra algebra.now) (shown body.old) }
    requires own { A.is_own algebra.now atom }
    requires takes { takes_items (shown body.old) ≡ true }
    ensures { IfOk result (λ r. PushesItems (IsAtomOf A.Algebra algebra.now)
        (shown body.old) (shown body.new) r from atom) }
{
    match body.innermost(alloc) {
        None => keep_items(body, alloc, algebra, from, atom),
        Some(Level::Array(level)) => body.put(array_value(alloc, algebra, level, atom)?, from),
        Some(level) => body.put(Step::Refused(level), from),
    }
}

/// A string before the first open level.
#[inline(always)]
fn keep_text<A: Algebra>(
    body: &mut Body<A::Atom>,
    alloc: Global,
    algebra: &A,
    span: Span,
    atom: A::Atom,
) -> Result<Option<SpanStop>, Memory>
    requires { (shown body.old).levels ≡ [] }
    ensures { IfOk result (λ r. PushesKeptText (IsAtomOf A.Algebra algebra.now)
        (shown body.old) (shown body.new) r span atom) }
{
    match awaited_member(body.outer.as_slice()) {
        Some(member) => keep_awaited(body, alloc, algebra, member, atom),
        None => body.keep(Piece::Text { span, atom }),
    }
}

/// A string that was just read: a name where the innermost level wants one, else a value.
#[inline(always)]
pub fn read_text<A: Algebra>(
    body: &mut Body<A::Atom>,
    alloc: Global,
    algebra: &A,
    text: &[u8],
    at: u32,
) -> Result<Option<SpanStop>, Memory>
    requires whole { JsonString text.now }
    requires fits { at + length text.now ≤ 2 ^ 28 }
    requires held { IsOfItems (IsAtomOf A.Algebra algebra.now) (shown body.old) }
    ensures { IfOk result (λ r. (cs : List Character) → AreCharacters cs → text.now ≡ string_text cs
        → PushesText (IsAtomOf A.Algebra algebra.now) (shown body.old)
        (shown body.new) r
        (record { from = at; to = at + length text.now }) cs) }
{
    match body.innermost(alloc) {
        None => {
            let atom = algebra.scalar(alloc, text, at)?;
            let span = Span {
                from: at,
                to: at + text.len() as u32,
            };
            keep_text(body, alloc, algebra, span, atom)
        }
        Some(level) => if level.wants_name() {
            let name = MemberName {
                units: units(alloc, text)?,
                at,
            };
            body.put(level.name(name), at)
        } else {
            let atom = algebra.scalar(alloc, text, at)?;
            body.put(with_value(alloc, algebra, level, atom)?, at)
        },
    }
}

/// Closing brackets before the first open level: they lengthen those right before them, or stand alone.
pub fn keep_closers<A: Algebra>(
    body: &mut Body<A::Atom>,
    algebra: &A,
    closers: Closers,
) -> Result<Option<SpanStop>, Memory>
    requires outside { (shown body.old).levels ≡ [] }
    ensures { IfOk result (λ r. PushesClosers (IsAtomOf A.Algebra algebra.now)
        (shown body.old) (shown body.new) r closers) }
{
    let _ = algebra;
    match body.closers_with(closers) {
        Some(all) => {
            body.put_closers(all);
            Ok(None)
        }
        None => body.keep(Piece::Closers(closers)),
    }
}

/// A closing bracket: where its level was opened in the span, the level becomes an atom.
#[inline(always)]
pub fn close<A: Algebra>(
    body: &mut Body<A::Atom>,
    alloc: Global,
    algebra: &A,
    bracket: Bracket,
    at: u32,
) -> Result<Option<SpanStop>, Memory>
    requires { IsOfItems (IsAtomOf A.Algebra algebra.now) (shown body.old) }
    ensures { IfOk result (λ r. Pushes (IsAtomOf A.Algebra algebra.now)
        (shown body.old) (shown body.new) r (closing_piece bracket at)) }
{
    if body.is_outside() {
        return keep_closers(body, algebra, Closers::of_kind(bracket, at, at));
    }
    match body.innermost(alloc) {
        None => keep_closers(body, algebra, Closers::of_kind(bracket, at, at)),
        Some(level) => if level.can_close(bracket) {
            let from = level.first();
            let atom = closed(alloc, algebra, level)?;
            read_value(body, alloc, algebra, from, atom)
        } else {
            body.put(Step::Refused(level), at)
        },
    }
}

/// Puts a level back behind a row of values whose first comma it has behind it.
fn put_row<A: Algebra>(
    body: &mut Body<A::Atom>,
    alloc: Global,
    algebra: &A,
    level: Level<A::Atom>,
    row: Row<A::Atom>,
) -> Result<Option<SpanStop>, Memory>
    requires level { AreOwn (A.is_own algebra.now) (held_of level) }
    requires row { All (A.is_own algebra.now) row.items.items }
    ensures { IfOk result (λ r. PutsRow (IsAtomOf A.Algebra algebra.now)
        (shown body.old) (shown body.new, r) (held_of level) row) }
{
    match level {
        Level::Array(ArrayLevel { from, items, .. }) => {
            let items = with_items(alloc, algebra, items, row.items)?;
            body.put(Step::On(array(from, ArrayState::Value, items)), row.first)
        }
        level => body.put(Step::Refused(level), row.first),
    }
}

/// A row of values of the span behind.
fn add_row<A: Algebra>(
    body: &mut Body<A::Atom>,
    alloc: Global,
    algebra: &A,
    row: Row<A::Atom>,
) -> Result<Option<SpanStop>, Memory>
    requires held { IsOfItems (IsAtomOf A.Algebra algebra.now) (shown body.old) }
    requires row { All (A.is_own algebra.now) row.items.items }
    ensures { IfOk result (λ r. PushesRow (IsAtomOf A.Algebra algebra.now) (shown body.old) (shown body.new) r row) }
{
    match body.innermost(alloc) {
        None => body.keep(Piece::Row(row)),
        Some(level) => match level.comma() {
            Step::Refused(level) => body.put(Step::Refused(level), row.comma),
            Step::On(level) => put_row(body, alloc, algebra, level, row),
        },
    }
}

/// Closing brackets of the span behind.
fn close_all<A: Algebra>(
    body: &mut Body<A::Atom>,
    alloc: Global,
    algebra: &A,
    closers: Closers,
) -> Result<Option<SpanStop>, Memory>
    requires held { IsOfItems (IsAtomOf A.Algebra algebra.now) (shown body.old) }
    ensures { IfOk result (λ r. PushesClosers (IsAtomOf A.Algebra algebra.now)
        (shown body.old) (shown body.new) r closers) }
{
    for at in closers.from..=closers.last {
        if body.is_outside() {
            return keep_closers(body, algebra, closers.rest(at));
        }
        let halt = close(body, alloc, algebra, closers.kind_at(at), at)?;
        if halt.is_some() {
            return Ok(halt);
        }
    }
    Ok(None)
}

/// An item of the span behind.
fn add<A: Algebra>(
    body: &mut Body<A::Atom>,
    source: &JsonSource<'_, A>,
    piece: Piece<A::Atom>,
) -> Result<Option<SpanStop>, Memory>
    requires held { CanAdd (IsAtomOf A.Algebra source.now.algebra.now) source.now.bytes.now (shown body.old) piece }
    ensures { IfOk result (λ r. Adds (IsAtomOf A.Algebra source.now.algebra.now)
        source.now.bytes.now
        (shown body.old) piece (shown body.new) r) }
{
    match piece {
        Piece::Comma(at) => body.comma(source.alloc, at),
        Piece::Colon(at) => body.colon(source.alloc, at),
        Piece::Text { span, atom } => add_text(body, source, span, atom),
        Piece::Value { from, atom } => read_value(body, source.alloc, source.algebra, from, atom),
        Piece::Row(row) => add_row(body, source.alloc, source.algebra, row),
        Piece::Members(row) => add_members(body, source, row),
        Piece::Closers(closers) => close_all(body, source.alloc, source.algebra, closers),
    }
}

/// A string of the span behind, with its atom.
fn add_text<A: Algebra>(
    body: &mut Body<A::Atom>,
    source: &JsonSource<'_, A>,
    span: Span,
    atom: A::Atom,
) -> Result<Option<SpanStop>, Memory>
    requires held { CanAdd (IsAtomOf A.Algebra source.now.algebra.now) source.now.bytes.now (shown body.old) (Piece.Text span atom) }
    ensures { IfOk result (λ r. Adds (IsAtomOf A.Algebra source.now.algebra.now)
        source.now.bytes.now
        (shown body.old) (Piece.Text span atom) (shown body.new) r) }
{
    match body.innermost(source.alloc) {
        None => keep_text(body, source.alloc, source.algebra, span, atom),
        Some(level) => if level.wants_name() {
            let name = MemberName {
                units: units(
                    source.alloc,
                    &source.bytes[span.from as usize..span.to as usize],
                )?,
                at: span.from,
            };
            body.put(level.name(name), span.from)
        } else {
            body.put(
                with_value(source.alloc, source.algebra, level, atom)?,
                span.from,
            )
        },
    }
}

/// Puts the items of the span behind: those before its open levels one by one, and then the levels as they are.
pub fn join<A: Algebra>(
    body: &mut Body<A::Atom>,
    source: &JsonSource<'_, A>,
    behind: Body<A::Atom>,
) -> Result<Option<SpanStop>, Memory>
    requires held { CanJoin (IsAtomOf A.Algebra source.now.algebra.now) source.now.bytes.now (shown body.old) (shown behind) }
    ensures { IfOk result (λ r. Joins (IsAtomOf A.Algebra source.now.algebra.now)
        source.now.bytes.now
        (shown body.old) (shown behind) (shown body.new) r) }
{
    let Body { outer, levels } = behind;
    for piece in outer {
        let halt = add(body, source, piece)?;
        if halt.is_some() {
            return Ok(halt);
        }
    }
    body.levels.append(levels)?;
    Ok(None)
}
