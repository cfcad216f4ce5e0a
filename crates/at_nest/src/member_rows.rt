//! Members in a span in which the opening bracket of their object doesn't stand.

ghost use Rattle.std.specs.Prelude.{◌≡◌, ◌≤◌, ◌^◌, [], length, All, IfOk};
ghost use Rattle.at_nest.specs.Shown.{held_of, AreOwn, shown};
ghost use Rattle.at_nest.specs.MemberMarks.{Awaits};
ghost use Rattle.at_nest.specs.KeptItems.{IsAtomOf};
ghost use Rattle.at_nest.specs.KeptItems.{IsOfItems, HasName, HasMembers, IsBehindComma, NamesMember, GainsMembers};
ghost use Rattle.at_nest.specs.KeptItems.{BeginsMembers, LengthensMembers, PushesMember, PushesAwaited, PushesMembers};
ghost use Rattle.at_nest.specs.KeptItems.{PutsMembers};

use crate::algebra::{Algebra, Member};
use crate::bodies::Body;
use crate::levels::{ArrayLevel, Level, ObjectLevel, ObjectState, Step, with_value};
use crate::pieces::{Awaited, MemberRow, NamedValue, Piece, SpanStop};
use crate::sources::JsonSource;
use at_lex::units;
use at_text::Memory;
use std::alloc::Global;

/// A member before the first open level, where no member stands before it.
fn begin_members<T: Drop>(
    body: &mut Body<T>,
    alloc: Global,
    member: Awaited,
    value: T,
) -> Result<Option<SpanStop>, Memory>
    requires { (shown body.old).levels ≡ [] }
    ensures { IfOk result (λ r. BeginsMembers (shown body.old) (shown body.new, r) member value) }
{
    let mut items = Vec::new(alloc);
    items.push(NamedValue {
        name: member.name,
        value,
    })?;
    body.keep(Piece::Members(MemberRow {
        comma: member.comma,
        colon: member.colon,
        items,
    }))
}

/// One member more behind others.
fn lengthen_members<T: Drop>(
    body: &mut Body<T>,
    row: MemberRow<T>,
    member: NamedValue<T>,
) -> Result<Option<SpanStop>, Memory>
    requires { (shown body.old).levels ≡ [] }
    ensures { IfOk result (λ r. LengthensMembers (shown body.old) (shown body.new, r) row member) }
{
    let MemberRow {
        comma,
        colon,
        mut items,
    } = row;
    items.push(member)?;
    body.keep(Piece::Members(MemberRow {
        comma,
        colon,
        items,
    }))
}

/// A member before the first open level: it lengthens those before it, or begins some.
fn keep_member<A: Algebra>(
    body: &mut Body<A::Atom>,
    alloc: Global,
    algebra: &A,
    member: Awaited,
    value: A::Atom,
) -> Result<Option<SpanStop>, Memory>
    requires { (shown body.old).levels ≡ [] }
    ensures { IfOk result (λ r.
        PushesMember (IsAtomOf A.Algebra algebra.now)
        (shown body.old) (shown body.new) r member value) }
{
    let _ = algebra;
    match body.outer.pop() {
        Some(Piece::Members(row)) => {
            let name = member.name;
            lengthen_members(body, row, NamedValue { name, value })
        }
        Some(piece) => {
            body.outer.push(piece)?;
            begin_members(body, alloc, member, value)
        }
        None => begin_members(body, alloc, member, value),
    }
}

/// The value of a member before the first open level.
pub fn keep_awaited<A: Algebra>(
    body: &mut Body<A::Atom>,
    alloc: Global,
    algebra: &A,
    member: Awaited,
    value: A::Atom,
) -> Result<Option<SpanStop>, Memory>
    requires outside { (shown body.old).levels ≡ [] }
    requires awaits { Awaits (shown body.old).outer member }
    ensures { IfOk result (λ r. PushesAwaited (IsAtomOf A.Algebra algebra.now)
        (shown body.old) (shown body.new) r value) }
{
    body.outer.truncate(body.outer.len().saturating_sub(3));
    keep_member(body, alloc, algebra, member, value)
}

/// A member, whose name stands in the bytes.
fn named_member<T: Drop>(
    alloc: Global,
    bytes: &[u8],
    member: NamedValue<T>,
) -> Result<Member<T>, Memory>
    requires fits { length bytes.now ≤ 2 ^ 28 }
    requires name { HasName bytes.now member }
    ensures { IfOk result (NamesMember bytes.now member) }
{
    let NamedValue { name, value } = member;
    Ok(Member {
        name: units(alloc, &bytes[name.from as usize..name.to as usize])?,
        name_at: name.from,
        value,
    })
}

/// An object's members, and further ones behind them.
fn with_members<A: Algebra>(
    source: &JsonSource<'_, A>,
    mut members: Vec<Member<A::Atom>>,
    more: Vec<NamedValue<A::Atom>>,
) -> Result<Vec<Member<A::Atom>>, Memory>
    requires names { All (HasName source.now.bytes.now) more.items }
    ensures { IfOk result (λ all.
        GainsMembers (IsAtomOf A.Algebra source.now.algebra.now)
        source.now.bytes.now members.items more.items all.items) }
{
    for member in more {
        members.push(named_member(source.alloc, source.bytes, member)?)?;
    }
    Ok(members)
}

/// Puts an array that has a comma behind it back behind members: it takes the first name as a value, and no colon.
fn refuse_members<A: Algebra>(
    body: &mut Body<A::Atom>,
    source: &JsonSource<'_, A>,
    level: ArrayLevel<A::Atom>,
    row: MemberRow<A::Atom>,
) -> Result<Option<SpanStop>, Memory>
    requires level { AreOwn (A.is_own source.now.algebra.now) (held_of (Level.Array level)) }
    requires comma { IsBehindComma (held_of (Level.Array level)) }
    requires row { HasMembers (IsAtomOf A.Algebra source.now.algebra.now) source.now.bytes.now row }
    ensures { IfOk result (λ r. PutsMembers (IsAtomOf A.Algebra source.now.algebra.now)
        source.now.bytes.now (shown body.old) (shown body.new) r (held_of (Level.Array level)) row) }
{
    let name = row.items[0].name;
    let text = &source.bytes[name.from as usize..name.to as usize];
    let atom = source.algebra.scalar(source.alloc, text, name.from)?;
    match with_value(source.alloc, source.algebra, Level::Array(level), atom)? {
        Step::On(level) => body.put(Step::Refused(level), row.colon),
        Step::Refused(level) => body.put(Step::Refused(level), name.from),
    }
}

/// Puts a level that has a comma behind it back behind members.
fn put_members<A: Algebra>(
    body: &mut Body<A::Atom>,
    source: &JsonSource<'_, A>,
    level: Level<A::Atom>,
    row: MemberRow<A::Atom>,
) -> Result<Option<SpanStop>, Memory>
    requires level { AreOwn (A.is_own source.now.algebra.now) (held_of level) }
    requires comma { IsBehindComma (held_of level) }
    requires row { HasMembers (IsAtomOf A.Algebra source.now.algebra.now) source.now.bytes.now row }
    ensures { IfOk result (λ r. PutsMembers (IsAtomOf A.Algebra source.now.algebra.now)
        source.now.bytes.now (shown body.old) (shown body.new) r (held_of level) row) }
{
    match level {
        Level::Array(level) => refuse_members(body, source, level, row),
        Level::Object(level) => {
            let ObjectLevel { from, members, .. } = Box::into_inner(level);
            let members = with_members(source, members, row.items)?;
            let state = ObjectState::Value;
            let level = ObjectLevel {
                from,
                state,
                members,
            };
            body.put(
                Step::On(Level::Object(Box::new(source.alloc, level)?)),
                row.comma,
            )
        }
        level => body.put(Step::Refused(level), row.comma),
    }
}

/// Members of the span behind.
pub fn add_members<A: Algebra>(
    body: &mut Body<A::Atom>,
    source: &JsonSource<'_, A>,
    row: MemberRow<A::Atom>,
) -> Result<Option<SpanStop>, Memory>
    requires held { IsOfItems (IsAtomOf A.Algebra source.now.algebra.now) (shown body.old) }
    requires row { HasMembers (IsAtomOf A.Algebra source.now.algebra.now) source.now.bytes.now row }
    ensures { IfOk result (λ r. PushesMembers (IsAtomOf A.Algebra source.now.algebra.now)
        source.now.bytes.now (shown body.old) (shown body.new) r row) }
{
    match body.innermost(source.alloc) {
        None => body.keep(Piece::Members(row)),
        Some(level) => match level.comma() {
            Step::Refused(level) => body.put(Step::Refused(level), row.comma),
            Step::On(level) => put_members(body, source, level, row),
        },
    }
}
