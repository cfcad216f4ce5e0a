//! Values of which no atom is made: of a value that is passed over no more is told than the place behind it, and of an
//! object that names no kind how many tests on texts its members meet.

ghost use Rattle.std.specs.Prelude.{◌≡◌, ◌+◌, ◌<◌, ◌≤◌, length, slice_index, IfOk};
ghost use Rattle.at_scan.specs.Members.{IsPlainName, ArePlainOthers};
ghost use Rattle.at_geojson.specs.Features.{PassesPart, PassesWhole, PassesArray, PassesOther, MeetsTexts, NamesNoKind};
ghost use Rattle.at_geojson.specs.Features.{PassesMember, IsTexted};

use crate::at_once::passing::pass_item;
use crate::at_once::values::{DEEPEST, read_item};
use crate::coordinates::pairs::Whole;
use crate::objects::texts::{asks_name, met_by, met_by_atom};
use crate::objects::twins::is_twin;
use crate::text::Text;
use at_query::needs_texts;
use at_scan::{
    Field, FieldName, NamePlace, OTHER_KIND, OtherNames, SimpleItem, expect_comma, kind_of,
    name_bytes, next_name, seems_cut, simple_item, skip_spaces, stands,
};
use at_text::Halt;

/// So deep stand brackets in an array of numbers, as `bbox` is.
const FLAT: u8 = 1;

/// The members of an object that were passed over: whether one of them is `type`, and how many tests on texts they meet.
#[derive(Clone, Copy)]
pub struct VoidMembers {
    pub named: bool,
    pub met: usize,
}

/// An object that was passed over: the place behind it, and how many tests on texts its members meet.
#[derive(Clone, Copy)]
pub struct VoidRead {
    pub end: usize,
    pub met: usize,
}

/// Whether a value that was given up at a place is read in another way: one of another kind, and where texts are asked
/// for, each that doesn't seem to be cut.
pub fn is_read_again(text: &Text<'_>, first: usize, place: usize) -> bool {
    place == OTHER_KIND
        || (needs_texts(text.algebra.query().tests.as_slice())
            && !seems_cut(text.bytes, first, place))
}

/// An object that names no kind, and in which no name stands twice, from its opening bracket on, which stands at the
/// place. Brackets stand at most so deep in it.
#[cycle(passing)]
fn pass_inner(text: &Text<'_>, at: usize, depth: u8) -> Result<usize, Halt>
    requires inside { at < length text.now.bytes.now }
    requires opens { slice_index text.now.bytes.now at ≡ 0x7B }
    ensures { IfOk result (PassesWhole text.now.algebra.now text.now.base text.now.bytes.now at) }
{
    let mut others = OtherNames::none(text.alloc);
    let VoidRead { end, met: _ } = pass_object(text, at, depth, &mut others)?;
    Ok(end)
}

/// An item of an array with white space round it: a string, literal or number, or an object that names no kind.
#[cycle(passing)]
fn pass_part(text: &Text<'_>, at: usize, depth: u8) -> Result<usize, Halt>
    requires inside { at ≤ length text.now.bytes.now }
    ensures { IfOk result (PassesPart text.now.algebra.now text.now.base text.now.bytes.now at) }
{
    if let Some(end) = pass_item(text, at) {
        return Ok(end);
    }
    let first = skip_spaces(text.bytes, at);
    if stands(text.bytes, first, b'[') {
        return Err(Halt::At(OTHER_KIND));
    }
    if !stands(text.bytes, first, b'{') {
        return Err(Halt::At(first));
    }
    let end = pass_inner(text, first, depth)?;
    Ok(skip_spaces(text.bytes, end))
}

/// An array of strings, literals, numbers and objects that name no kind, from its opening bracket on, which stands at the
/// place. Brackets stand at most so deep in it.
#[cycle(passing)]
fn pass_array(text: &Text<'_>, at: usize, depth: u8) -> Result<usize, Halt>
    requires inside { at < length text.now.bytes.now }
    requires opens { slice_index text.now.bytes.now at ≡ 0x5B }
    ensures { IfOk result (PassesArray text.now.algebra.now text.now.base text.now.bytes.now at) }
{
    if depth == 0 {
        return Err(Halt::At(at));
    }
    let first = skip_spaces(text.bytes, at + 1);
    if stands(text.bytes, first, b']') {
        return Ok(first + 1);
    }
    let mut place = at + 1;
    'items: loop {
        let end = pass_part(text, place, depth - 1)?;
        if stands(text.bytes, end, b']') {
            return Ok(end + 1);
        }
        expect_comma(text.bytes, end)?;
        place = end + 1;
    }
}

/// White space, an array or object that is passed over, and white space.
#[cycle(passing)]
fn pass_nested(text: &Text<'_>, at: usize, depth: u8) -> Result<usize, Halt>
    requires inside { at ≤ length text.now.bytes.now }
    ensures { IfOk result (PassesOther text.now.algebra.now text.now.base text.now.bytes.now at) }
{
    let first = skip_spaces(text.bytes, at);
    if stands(text.bytes, first, b'[') {
        let end = pass_array(text, first, depth)?;
        return Ok(skip_spaces(text.bytes, end));
    }
    if stands(text.bytes, first, b'{') {
        let end = pass_inner(text, first, depth)?;
        return Ok(skip_spaces(text.bytes, end));
    }
    Err(Halt::At(OTHER_KIND))
}

/// White space, any value, of which an atom is made, and white space.
fn read_other(text: &Text<'_>, at: usize, depth: u8) -> Result<usize, Halt>
    requires inside { at ≤ length text.now.bytes.now }
    ensures { IfOk result (PassesOther text.now.algebra.now text.now.base text.now.bytes.now at) }
{
    let Whole { end, atom } = read_item(text, at, depth)?;
    if is_twin(&atom) {
        return Err(Halt::At(end));
    }
    Ok(end)
}

/// White space, a value that is no string, literal or number as a rule, and white space.
#[cycle(passing)]
#[inline(never)]
fn pass_or_read(text: &Text<'_>, at: usize, depth: u8) -> Result<usize, Halt>
    requires inside { at ≤ length text.now.bytes.now }
    ensures { IfOk result (PassesOther text.now.algebra.now text.now.base text.now.bytes.now at) }
{
    match pass_nested(text, at, depth) {
        Ok(end) => Ok(end),
        Err(Halt::Memory) => Err(Halt::Memory),
        Err(Halt::At(place)) => if is_read_again(text, at, place) {
            read_other(text, at, depth)
        } else {
            Err(Halt::At(place))
        },
    }
}

/// White space, a value in which brackets stand at most so deep, and white space.
#[cycle(passing)]
#[inline(always)]
pub fn pass_other(text: &Text<'_>, at: usize, depth: u8) -> Result<usize, Halt>
    requires inside { at ≤ length text.now.bytes.now }
    ensures { IfOk result (PassesOther text.now.algebra.now text.now.base text.now.bytes.now at) }
{
    if let Some(end) = pass_item(text, at) {
        return Ok(end);
    }
    pass_or_read(text, at, depth)
}

/// White space, a string, literal or number, or an array or object of these, and white space, before it is known what the
/// object is.
pub fn pass_early(text: &Text<'_>, at: usize) -> Result<usize, Halt>
    requires inside { at ≤ length text.now.bytes.now }
    ensures { IfOk result (PassesOther text.now.algebra.now text.now.base text.now.bytes.now at) }
{
    match pass_other(text, at, FLAT) {
        Ok(end) => Ok(end),
        Err(Halt::Memory) => Err(Halt::Memory),
        Err(Halt::At(_)) => Err(Halt::At(OTHER_KIND)),
    }
}

/// The value of a member of the name, with white space round it, of which an atom is made.
#[inline(never)]
fn any_text(text: &Text<'_>, name: NamePlace, members: &mut VoidMembers) -> Result<usize, Halt>
    requires inside { name.colon < length text.now.bytes.now }
    requires plain { IsPlainName text.now.bytes.now name }
    requires few { members.old.met ≤ length text.now.algebra.now.query.tests }
    ensures { IfOk result (MeetsTexts text.now.algebra.now text.now.base text.now.bytes.now name members.old members.new) }
{
    let Whole { end, atom } = read_item(text, name.colon + 1, DEEPEST)?;
    if is_twin(&atom) {
        return Err(Halt::At(end));
    }
    let tests = text.algebra.query().tests.as_slice();
    members.met += met_by_atom(tests, name_bytes(text.bytes, name), &atom);
    Ok(end)
}

/// The value of a member for whose name some test asks, with white space round it.
fn asked_text(text: &Text<'_>, name: NamePlace, members: &mut VoidMembers) -> Result<usize, Halt>
    requires inside { name.colon < length text.now.bytes.now }
    requires plain { IsPlainName text.now.bytes.now name }
    requires few { members.old.met ≤ length text.now.algebra.now.query.tests }
    ensures { IfOk result (MeetsTexts text.now.algebra.now text.now.base text.now.bytes.now name members.old members.new) }
{
    let Some(SimpleItem { first, last, end }) = simple_item(text.bytes, name.colon + 1) else {
        return any_text(text, name, members);
    };
    let tests = text.algebra.query().tests.as_slice();
    members.met += met_by(
        tests,
        name_bytes(text.bytes, name),
        &text.bytes[first + 1..last - 1],
    );
    Ok(end)
}

/// The value of a member for which no kind asks, with white space round it. Brackets stand at most so deep in it.
#[cycle(passing)]
#[inline(always)]
fn pass_text(
    text: &Text<'_>,
    name: NamePlace,
    depth: u8,
    members: &mut VoidMembers,
) -> Result<usize, Halt>
    requires inside { name.colon < length text.now.bytes.now }
    requires plain { IsPlainName text.now.bytes.now name }
    requires few { members.old.met ≤ length text.now.algebra.now.query.tests }
    ensures { IfOk result (MeetsTexts text.now.algebra.now text.now.base text.now.bytes.now name members.old members.new) }
{
    if asks_name(
        text.algebra.query().tests.as_slice(),
        name_bytes(text.bytes, name),
    ) {
        return asked_text(text, name, members);
    }
    pass_other(text, name.colon + 1, depth)
}

/// The value of the member `type`, which is a short text that names no kind, with white space round it.
fn pass_kind(text: &Text<'_>, name: NamePlace, members: &mut VoidMembers) -> Result<usize, Halt>
    requires inside { name.colon < length text.now.bytes.now }
    requires plain { IsPlainName text.now.bytes.now name }
    requires few { members.old.met ≤ length text.now.algebra.now.query.tests }
    ensures { IfOk result (NamesNoKind text.now.algebra.now text.now.base text.now.bytes.now name members.old members.new) }
{
    let Some(SimpleItem { first, last, end }) = simple_item(text.bytes, name.colon + 1) else {
        return Err(Halt::At(OTHER_KIND));
    };
    let value = &text.bytes[first + 1..last - 1];
    if kind_of(value).is_some() {
        return Err(Halt::At(OTHER_KIND));
    }
    if members.named {
        return Err(Halt::At(end));
    }
    members.named = true;
    let tests = text.algebra.query().tests.as_slice();
    members.met += met_by(tests, name_bytes(text.bytes, name), value);
    Ok(end)
}

/// A member behind its name. Brackets stand at most so deep in its value.
#[cycle(passing)]
#[inline(always)]
fn pass_member(
    text: &Text<'_>,
    name: FieldName,
    depth: u8,
    members: &mut VoidMembers,
) -> Result<usize, Halt>
    requires inside { name.place.colon < length text.now.bytes.now }
    requires plain { IsPlainName text.now.bytes.now name.place }
    requires few { members.old.met ≤ length text.now.algebra.now.query.tests }
    ensures { IfOk result (PassesMember text.now.algebra.now text.now.base text.now.bytes.now name members.old
        members.new) }
{
    match name.field {
        Field::Other => pass_text(text, name.place, depth, members),
        Field::Kind => pass_kind(text, name.place, members),
        _ => Err(Halt::At(OTHER_KIND)),
    }
}

/// The place behind an object that names no kind, and in which no name stands twice, from its opening bracket on, which
/// stands at the place, and how many tests on texts its members meet. Brackets stand at most so deep in it.
#[cycle(passing)]
pub fn pass_object(
    text: &Text<'_>,
    at: usize,
    depth: u8,
    others: &mut OtherNames,
) -> Result<VoidRead, Halt>
    requires inside { at < length text.now.bytes.now }
    requires opens { slice_index text.now.bytes.now at ≡ 0x7B }
    requires names { ArePlainOthers text.now.bytes.now others.old }
    ensures reads { IfOk result (IsTexted text.now.algebra.now text.now.base text.now.bytes.now at) }
    ensures names { IfOk result (λ _. ArePlainOthers text.now.bytes.now others.new) }
{
    if depth == 0 {
        return Err(Halt::At(at));
    }
    let first = skip_spaces(text.bytes, at + 1);
    if stands(text.bytes, first, b'}') {
        return Ok(VoidRead {
            end: first + 1,
            met: 0,
        });
    }
    others.begin();
    let mut members = VoidMembers {
        named: false,
        met: 0,
    };
    let mut place = at + 1;
    'members: loop {
        let name = next_name(text.bytes, others, place)?;
        let end = pass_member(text, name, depth - 1, &mut members)?;
        if stands(text.bytes, end, b'}') {
            return Ok(VoidRead {
                end: end + 1,
                met: members.met,
            });
        }
        expect_comma(text.bytes, end)?;
        place = end + 1;
    }
}
