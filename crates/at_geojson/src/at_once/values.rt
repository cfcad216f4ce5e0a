//! Whole values of a text, read at once by descent: the same atoms as of the same values read item by item.

ghost use Rattle.std.specs.Prelude.{◌≡◌, ℕ, ◌+◌, ◌<◌, ◌≤◌, length, slice_index, All, [], false, None, IfOk, IfSome};
ghost use Rattle.std.specs.List.{list_any};
ghost use Rattle.at_scan.specs.Places.{IsSimpleTextAt};
ghost use Rattle.at_query.specs.Keeping.{looks_at_texts};
ghost use Rattle.at_geojson.specs.Atoms.{twin_of, IsOwn};
ghost use Rattle.at_geojson.specs.Fields.{AreOwnFields};
ghost use Rattle.at_geojson.specs.Members.{EndsFields, IsFieldRead};
ghost use Rattle.at_geojson.specs.Values.{IsWhole, IsItem, EndsArray, EndsObject};

use crate::asked::GeoAlgebra;
use crate::at_once::passing::pass_item;
use crate::atoms::atom::{GeoAtom, NumberAtom};
use crate::atoms::lists::{array_atom, one_item_atom};
use crate::atoms::scalars::{plain_text_atom, scalar_atom, simple_atom};
use crate::coordinates::pairs::{PairRead, Whole, read_pair};
use crate::coordinates::rings::read_coordinates;
use crate::objects::fields::{Fields, new_name};
use crate::objects::object_atoms::{fields_atom, object_atom};
use crate::objects::twins::is_twin;
use crate::text::Text;
use at_fixed::{Notation, plain_number};
use at_lex::{take_run, units};
use at_nest::Member;
use at_query::{TextPairs, needs_texts};
use at_scan::{
    Field, OtherNames, expect_comma, is_kind, is_other, name_place, seems_cut, short_text_end,
    skip_spaces, stands, text_end,
};
use at_text::Halt;
use std::alloc::Global;

/// Brackets stand at most so deep in a value that is read at once.
pub const DEEPEST: u8 = 12;

/// Room that a list of items or members is given at first.
const ROOM: usize = 8;

/// A number that is written plainly, or another one, or a literal.
fn read_number(text: &Text<'_>, at: usize) -> Result<Whole, Halt>
    requires inside { at ≤ length text.now.bytes.now }
    ensures { IfOk result (IsWhole text.now.algebra.now text.now.base text.now.bytes.now at) }
{
    match plain_number(
        &text.bytes[at..],
        Notation::Json,
        text.algebra.digits(),
        text.algebra.how(),
    ) {
        Some(number) => Ok(Whole {
            end: at + number.len as usize,
            atom: GeoAtom::Number(NumberAtom {
                at: text.base + at as u32,
                value: number.value,
            }),
        }),
        None => read_run(text, at),
    }
}

/// A literal, or a number however it is written.
fn read_run(text: &Text<'_>, at: usize) -> Result<Whole, Halt>
    requires inside { at ≤ length text.now.bytes.now }
    ensures { IfOk result (IsWhole text.now.algebra.now text.now.base text.now.bytes.now at) }
{
    let taken = take_run(&text.bytes[at..]);
    let end = at + taken.len as usize;
    if !taken.whole {
        return Err(Halt::At(end));
    }
    let atom = scalar_atom(
        text.algebra,
        text.alloc,
        &text.bytes[at..end],
        text.base + at as u32,
    )?;
    Ok(Whole { end, atom })
}

/// A string of ASCII without escapes up to the place.
#[inline(always)]
fn short_string(text: &Text<'_>, at: usize, end: usize) -> Result<Whole, Halt>
    requires string { IsSimpleTextAt text.now.bytes.now at end }
    ensures { IfOk result (IsWhole text.now.algebra.now text.now.base text.now.bytes.now at) }
{
    let atom = plain_text_atom(
        text.algebra,
        text.alloc,
        &text.bytes[at..end],
        text.base + at as u32,
    )?;
    Ok(Whole { end, atom })
}

/// A string, whose bytes are looked at together where it is short.
#[inline(always)]
fn read_string(text: &Text<'_>, at: usize) -> Result<Whole, Halt>
    requires inside { at ≤ length text.now.bytes.now }
    ensures { IfOk result (IsWhole text.now.algebra.now text.now.base text.now.bytes.now at) }
{
    match short_text_end(text.bytes, at) {
        Some(end) => short_string(text, at, end),
        None => long_string(text, at),
    }
}

/// Any string.
#[inline(never)]
fn long_string(text: &Text<'_>, at: usize) -> Result<Whole, Halt>
    requires inside { at ≤ length text.now.bytes.now }
    ensures { IfOk result (IsWhole text.now.algebra.now text.now.base text.now.bytes.now at) }
{
    let end = text_end(text.bytes, at)?;
    let atom = scalar_atom(
        text.algebra,
        text.alloc,
        &text.bytes[at..end],
        text.base + at as u32,
    )?;
    Ok(Whole { end, atom })
}

/// A value in which brackets stand at most so deep.
#[cycle(values)]
fn read_value(text: &Text<'_>, at: usize, depth: u8) -> Result<Whole, Halt>
    requires inside { at ≤ length text.now.bytes.now }
    ensures { IfOk result (IsWhole text.now.algebra.now text.now.base text.now.bytes.now at) }
{
    if at == text.bytes.len() {
        return Err(Halt::At(at));
    }
    match text.bytes[at] {
        b'[' => read_list(text, at, depth),
        b'{' => read_object(text, at, depth),
        b'"' => read_string(text, at),
        b't' | b'f' | b'n' => read_run(text, at),
        _ => read_number(text, at),
    }
}

/// A position of two numbers that are written plainly, or a value in which brackets stand at most so deep.
#[cycle(values)]
#[inline(always)]
fn read_any(text: &Text<'_>, at: usize, depth: u8) -> Result<Whole, Halt>
    requires inside { at ≤ length text.now.bytes.now }
    ensures { IfOk result (IsWhole text.now.algebra.now text.now.base text.now.bytes.now at) }
{
    match read_pair(text, at) {
        Some(PairRead { end, pair }) => Ok(Whole {
            end,
            atom: GeoAtom::Position(pair),
        }),
        None => read_value(text, at, depth),
    }
}

/// White space, a value and white space.
#[cycle(values)]
#[inline(always)]
pub fn read_item(text: &Text<'_>, at: usize, depth: u8) -> Result<Whole, Halt>
    requires inside { at ≤ length text.now.bytes.now }
    ensures { IfOk result (IsItem text.now.algebra.now text.now.base text.now.bytes.now at) }
{
    let first = skip_spaces(text.bytes, at);
    let Whole { end, atom } = read_any(text, first, depth)?;
    let end = skip_spaces(text.bytes, end);
    Ok(Whole { end, atom })
}

/// An array, of its items, whose closing bracket stands before the place.
fn ended_array(
    algebra: &GeoAlgebra,
    alloc: Global,
    at: u32,
    end: usize,
    items: Vec<GeoAtom>,
) -> Result<Whole, Halt>
    requires { All (IsOwn algebra.now) items.items }
    ensures { IfOk result (EndsArray algebra.now at end items.items) }
{
    let atom = array_atom(alloc, algebra, at, items)?;
    Ok(Whole { end, atom })
}

/// An array from its opening bracket on, which stands at the place, with items in which brackets stand at most so deep.
#[cycle(values)]
fn read_items(text: &Text<'_>, at: usize, depth: u8) -> Result<Whole, Halt>
    requires inside { at < length text.now.bytes.now }
    requires opens { slice_index text.now.bytes.now at ≡ 0x5B }
    ensures { IfOk result (IsWhole text.now.algebra.now text.now.base text.now.bytes.now at) }
{
    let first = skip_spaces(text.bytes, at + 1);
    if stands(text.bytes, first, b']') {
        return Ok(Whole {
            end: first + 1,
            atom: GeoAtom::Empty(text.base + at as u32),
        });
    }
    let mut items = Vec::with_capacity(text.alloc, ROOM)?;
    let mut place = at + 1;
    'items: loop {
        let Whole { end, atom } = read_item(text, place, depth)?;
        items.push(atom)?;
        if stands(text.bytes, end, b']') {
            return ended_array(
                text.algebra,
                text.alloc,
                text.base + at as u32,
                end + 1,
                items,
            );
        }
        expect_comma(text.bytes, end)?;
        place = end + 1;
    }
}

/// The place of the last of the opening brackets that stand one behind another from the place on.
fn last_bracket(text: &[u8], at: usize) -> usize
    requires inside { at < length text.now }
    requires opens { slice_index text.now at ≡ 0x5B }
    ensures order { at ≤ result }
    ensures inside { result < length text.now }
    ensures brackets { (k : ℕ) → at ≤ k → k ≤ result → slice_index text.now k ≡ 0x5B }
{
    let mut last = at;
    'brackets: while stands(text, last + 1, b'[') {
        last += 1;
    }
    last
}

/// The array whose bracket stands at the place, right before its one item, which was read.
fn array_round(text: &Text<'_>, at: usize, item: Whole) -> Result<Whole, Halt>
    requires opens { slice_index text.now.bytes.now at ≡ 0x5B }
    requires item { IsWhole text.now.algebra.now text.now.base text.now.bytes.now (at + 1) item }
    ensures { IfOk result (IsWhole text.now.algebra.now text.now.base text.now.bytes.now at) }
{
    let close = skip_spaces(text.bytes, item.end);
    if !stands(text.bytes, close, b']') {
        return Err(Halt::At(close));
    }
    let atom = one_item_atom(text.alloc, text.algebra, text.base + at as u32, item.atom)?;
    let end = close + 1;
    Ok(Whole { end, atom })
}

/// Arrays in one another, however many: each but the innermost has one item, which is the next one. The brackets of all
/// of them stand one behind another from the place on.
#[cycle(values)]
fn read_nest(text: &Text<'_>, at: usize) -> Result<Whole, Halt>
    requires inside { at < length text.now.bytes.now }
    requires opens { slice_index text.now.bytes.now at ≡ 0x5B }
    ensures { IfOk result (IsWhole text.now.algebra.now text.now.base text.now.bytes.now at) }
{
    let mut first = last_bracket(text.bytes, at);
    let mut whole = read_items(text, first, 0)?;
    'nest: while first > at {
        whole = array_round(text, first - 1, whole)?;
        first -= 1;
    }
    Ok(whole)
}

/// An array from its opening bracket on, which stands at the place.
#[cycle(values)]
fn read_array(text: &Text<'_>, at: usize, depth: u8) -> Result<Whole, Halt>
    requires inside { at < length text.now.bytes.now }
    requires opens { slice_index text.now.bytes.now at ≡ 0x5B }
    ensures { IfOk result (IsWhole text.now.algebra.now text.now.base text.now.bytes.now at) }
{
    if depth == 0 {
        return Err(Halt::At(at));
    }
    if depth == 1 && stands(text.bytes, at + 1, b'[') {
        return read_nest(text, at);
    }
    read_items(text, at, depth - 1)
}

/// Coordinates of positions of two numbers that are written plainly, or another array, which stands at the place.
#[cycle(values)]
pub fn read_list(text: &Text<'_>, at: usize, depth: u8) -> Result<Whole, Halt>
    requires inside { at < length text.now.bytes.now }
    requires opens { slice_index text.now.bytes.now at ≡ 0x5B }
    ensures { IfOk result (IsWhole text.now.algebra.now text.now.base text.now.bytes.now at) }
{
    match read_coordinates(text, at) {
        Ok(whole) => Ok(whole),
        Err(Halt::Memory) => Err(Halt::Memory),
        Err(Halt::At(place)) => if seems_cut(text.bytes, at, place) {
            Err(Halt::At(place))
        } else {
            read_array(text, at, depth)
        },
    }
}

/// An object, of its members, whose closing bracket stands before the place.
fn ended_object(
    algebra: &GeoAlgebra,
    alloc: Global,
    at: u32,
    end: usize,
    members: Vec<Member<GeoAtom>>,
) -> Result<Whole, Halt>
    requires { All (λ m. IsOwn algebra.now m.value) members.items }
    ensures { IfOk result (EndsObject algebra.now at end members.items) }
{
    let atom = object_atom(alloc, algebra, at, members)?;
    Ok(Whole { end, atom })
}

/// An object from its opening bracket on, which stands at the place.
#[cycle(values)]
pub fn read_object(text: &Text<'_>, at: usize, depth: u8) -> Result<Whole, Halt>
    requires inside { at < length text.now.bytes.now }
    requires opens { slice_index text.now.bytes.now at ≡ 0x7B }
    ensures { IfOk result (IsWhole text.now.algebra.now text.now.base text.now.bytes.now at) }
{
    if needs_texts(text.algebra.query().tests.as_slice()) {
        read_members(text, at, depth)
    } else {
        read_fields(text, at, depth)
    }
}

/// An object without the texts of its members, of its fields, whose closing bracket stands before the place.
fn ended_fields(
    algebra: &GeoAlgebra,
    alloc: Global,
    at: u32,
    end: usize,
    fields: &mut Fields,
) -> Result<Whole, Halt>
    requires { AreOwnFields algebra.now fields.old }
    ensures { IfOk result (EndsFields algebra.now at end fields.old []) }
{
    let texts = TextPairs::from_vec(Vec::new(alloc));
    let atom = fields_atom(alloc, algebra, at, fields, texts)?;
    Ok(Whole { end, atom })
}

/// White space, a member's value and white space. The value is put in its place.
#[cycle(values)]
fn put_field(
    text: &Text<'_>,
    at: usize,
    depth: u8,
    field: Field,
    fields: &mut Fields,
) -> Result<usize, Halt>
    requires inside { at ≤ length text.now.bytes.now }
    ensures { IfOk result (IsFieldRead text.now.algebra.now text.now.base text.now.bytes.now at field fields.old fields.new) }
{
    let Whole { end, atom } = read_item(text, at, depth)?;
    if is_twin(&atom) {
        return Err(Halt::At(end));
    }
    fields.put(field, atom);
    Ok(end)
}

/// The same of a member for which no kind asks, where no test looks at texts: a string, literal or number is passed
/// over.
#[cycle(values)]
#[inline(always)]
fn other_field(
    text: &Text<'_>,
    at: usize,
    depth: u8,
    field: Field,
    fields: &mut Fields,
) -> Result<usize, Halt>
    requires inside { at ≤ length text.now.bytes.now }
    requires unasked { list_any looks_at_texts text.now.algebra.now.query.tests ≡ false }
    requires other { field ≡ Field.Other }
    ensures { IfOk result (IsFieldRead text.now.algebra.now text.now.base text.now.bytes.now at field fields.old fields.new) }
{
    match pass_item(text, at) {
        Some(end) => Ok(end),
        None => put_field(text, at, depth, field, fields),
    }
}

/// A string of ASCII without escapes up to the place, where no test looks at texts.
#[inline(always)]
fn simple_string(text: &Text<'_>, at: usize, end: usize) -> Whole
    requires string { IsSimpleTextAt text.now.bytes.now at end }
    requires unasked { list_any looks_at_texts text.now.algebra.now.query.tests ≡ false }
    ensures whole { IsWhole text.now.algebra.now text.now.base text.now.bytes.now at result }
    ensures no_twin { twin_of result.atom ≡ None }
{
    let atom = simple_atom(text.algebra, &text.bytes[at..end], text.base + at as u32);
    Whole { end, atom }
}

/// A short string of ASCII without escapes, where no test looks at texts, with white space round it.
#[inline(always)]
pub fn read_simple(text: &Text<'_>, at: usize) -> Option<Whole>
    requires inside { at ≤ length text.now.bytes.now }
    requires unasked { list_any looks_at_texts text.now.algebra.now.query.tests ≡ false }
    ensures item { IfSome result (IsItem text.now.algebra.now text.now.base text.now.bytes.now at) }
    ensures no_twin { IfSome result (λ whole. twin_of whole.atom ≡ None) }
{
    let first = skip_spaces(text.bytes, at);
    let end = short_text_end(text.bytes, first)?;
    let Whole { end, atom } = simple_string(text, first, end);
    let end = skip_spaces(text.bytes, end);
    Some(Whole { end, atom })
}

/// The same of a member whose value is a short string as a rule, where no test looks at texts.
#[cycle(values)]
#[inline(always)]
fn text_field(
    text: &Text<'_>,
    at: usize,
    depth: u8,
    field: Field,
    fields: &mut Fields,
) -> Result<usize, Halt>
    requires inside { at ≤ length text.now.bytes.now }
    requires unasked { list_any looks_at_texts text.now.algebra.now.query.tests ≡ false }
    ensures { IfOk result (IsFieldRead text.now.algebra.now text.now.base text.now.bytes.now at field fields.old fields.new) }
{
    match read_simple(text, at) {
        Some(Whole { end, atom }) => {
            fields.put(field, atom);
            Ok(end)
        }
        None => put_field(text, at, depth, field, fields),
    }
}

/// The same of any member, where no test looks at texts.
#[cycle(values)]
#[inline(always)]
fn read_field(
    text: &Text<'_>,
    at: usize,
    depth: u8,
    field: Field,
    fields: &mut Fields,
) -> Result<usize, Halt>
    requires inside { at ≤ length text.now.bytes.now }
    requires unasked { list_any looks_at_texts text.now.algebra.now.query.tests ≡ false }
    ensures { IfOk result (IsFieldRead text.now.algebra.now text.now.base text.now.bytes.now at field fields.old fields.new) }
{
    if is_other(field) {
        other_field(text, at, depth, field, fields)
    } else if is_kind(field) {
        text_field(text, at, depth, field, fields)
    } else {
        put_field(text, at, depth, field, fields)
    }
}

/// An object where no test looks at texts, from its opening bracket on, which stands at the place.
#[cycle(values)]
fn read_fields(text: &Text<'_>, at: usize, depth: u8) -> Result<Whole, Halt>
    requires inside { at < length text.now.bytes.now }
    requires opens { slice_index text.now.bytes.now at ≡ 0x7B }
    requires unasked { list_any looks_at_texts text.now.algebra.now.query.tests ≡ false }
    ensures { IfOk result (IsWhole text.now.algebra.now text.now.base text.now.bytes.now at) }
{
    if depth == 0 {
        return Err(Halt::At(at));
    }
    let first = skip_spaces(text.bytes, at + 1);
    let mut fields = Fields::none();
    if stands(text.bytes, first, b'}') {
        return ended_fields(
            text.algebra,
            text.alloc,
            text.base + at as u32,
            first + 1,
            &mut fields,
        );
    }
    let mut others = OtherNames::none(text.alloc);
    let mut place = at + 1;
    'fields: loop {
        let name = new_name(text.bytes, &fields, &mut others, place)?;
        let end = read_field(
            text,
            name.place.colon + 1,
            depth - 1,
            name.field,
            &mut fields,
        )?;
        if stands(text.bytes, end, b'}') {
            return ended_fields(
                text.algebra,
                text.alloc,
                text.base + at as u32,
                end + 1,
                &mut fields,
            );
        }
        expect_comma(text.bytes, end)?;
        place = end + 1;
    }
}

/// An object with the texts of its members, from its opening bracket on, which stands at the place.
#[cycle(values)]
fn read_members(text: &Text<'_>, at: usize, depth: u8) -> Result<Whole, Halt>
    requires inside { at < length text.now.bytes.now }
    requires opens { slice_index text.now.bytes.now at ≡ 0x7B }
    ensures { IfOk result (IsWhole text.now.algebra.now text.now.base text.now.bytes.now at) }
{
    if depth == 0 {
        return Err(Halt::At(at));
    }
    let first = skip_spaces(text.bytes, at + 1);
    let mut members = Vec::with_capacity(text.alloc, ROOM)?;
    if stands(text.bytes, first, b'}') {
        return ended_object(
            text.algebra,
            text.alloc,
            text.base + at as u32,
            first + 1,
            members,
        );
    }
    let mut place = at + 1;
    'members: loop {
        let name = name_place(text.bytes, place)?;
        let units = units(text.alloc, &text.bytes[name.first..name.end])?;
        let Whole { end, atom } = read_item(text, name.colon + 1, depth - 1)?;
        members.push(Member {
            name: units,
            name_at: text.base + name.first as u32,
            value: atom,
        })?;
        if stands(text.bytes, end, b'}') {
            return ended_object(
                text.algebra,
                text.alloc,
                text.base + at as u32,
                end + 1,
                members,
            );
        }
        expect_comma(text.bytes, end)?;
        place = end + 1;
    }
}
