//! The members of an object whose names are plain, read without a copy of a name.

ghost use Rattle.std.specs.Prelude.{◌≡◌, ◌↔◌, ℕ, List, ◌-◌, ◌<◌, ◌≤◌, ◌^◌, All, bytes_eq, true, false, length};
ghost use Rattle.std.specs.Prelude.{IfOk, IfSome, IsTrue};
ghost use Rattle.at_fixed.specs.NumberSoFar.{between};
ghost use Rattle.at_lex.specs.Spans.{AreSpaces};
ghost use Rattle.at_scan.specs.Places.{IsNameAt, IsSimpleTextAt};
ghost use Rattle.at_scan.specs.Fields.{field_of, is_no_field};
ghost use Rattle.at_scan.specs.Members.{name_in, name_mark, IsMarked, IsPlainName, is_named_among, is_among_others, ArePlainOthers};
ghost use Rattle.at_scan.specs.Members.{known_in, ArePlaced, ArePlainNames, IsExpected, IsNextName, AreShortened};
ghost use Rattle.at_scan.specs.Members.{AreCut, KeepsName};
ghost use Rattle.at_scan.specs.Members.{AddsName, from_name, IsAgain, IsNextField, IsOtherName, AddsOther};
ghost use Rattle.at_scan.specs.KnownNames.{StandsWord, IsFieldName};

use crate::fields::{Field, field_of_bytes, is_other};
use crate::hashes::hash_of_tail;
use crate::known_names::{known_name, stands_word};
use crate::places::{NamePlace, ended_name, name_place, skip_spaces};
use crate::short_texts::{LANES, is_simple, short_text_end};
use at_text::Halt;
use std::alloc::Global;

/// So many names of members for which no kind asks are kept in place.
const NEAR: usize = 8;

/// So many more of them are kept at the most. Room for all is taken with the first.
const MOST: usize = 248;

/// So many words of bits mark the names that are known.
const MARKS: usize = 64;

/// The name of a member, with the hash of its last bytes, and which member it is.
#[derive(Clone, Copy)]
pub struct OtherName {
    pub place: NamePlace,
    pub hash: u64,
    pub field: Field,
}

/// The names of an object's members for which no kind asks: the first of those that are known. Those behind them are
/// names of the object before it, which are expected in the same order. The first few known names stand in place, and
/// the others in memory. A name without a mark is none of them.
#[derive(Drop)]
pub struct OtherNames {
    /// So many of the known names are the object's.
    pub count: usize,
    /// So many of the known names stand in place.
    pub placed: usize,
    pub near: [OtherName; NEAR],
    pub far: Vec<OtherName>,
    pub marks: [u64; MARKS],
}

/// The names of members for which no kind asks, of a feature and of its properties. Tables repeat them.
#[derive(Drop)]
pub struct TableNames {
    pub own: OtherNames,
    pub properties: OtherNames,
}

/// The name of a member, and which member it is.
#[derive(Clone, Copy)]
pub struct FieldName {
    pub place: NamePlace,
    pub field: Field,
}

/// The bytes of a plain name, which are its units.
#[inline(always)]
pub fn name_bytes(text: &[u8], name: NamePlace) -> &[u8]
    requires { IsPlainName text.now name }
    ensures { result.now ≡ name_in text.now name }
{
    &text[name.first + 1..name.end - 1]
}

/// Whether two names are the same.
#[inline(always)]
fn is_same(text: &[u8], a: NamePlace, b: NamePlace) -> bool
    requires a { IsPlainName text.now a }
    requires b { IsPlainName text.now b }
    ensures { result ≡ bytes_eq (name_in text.now a) (name_in text.now b) }
{
    text[a.first + 1..a.end - 1] == text[b.first + 1..b.end - 1]
}

/// Whether two names with their hashes are the same: those with unlike hashes are not.
#[inline(always)]
fn is_name(text: &[u8], a: OtherName, b: OtherName) -> bool
    requires a { IsOtherName text.now a }
    requires b { IsOtherName text.now b }
    ensures { result ≡ bytes_eq (name_in text.now a.place) (name_in text.now b.place) }
{
    if a.hash != b.hash {
        return false;
    }
    is_same(text, a.place, b.place)
}

/// Whether a name is among others.
#[inline(always)]
fn is_among(text: &[u8], names: &[OtherName], name: OtherName) -> bool
    requires names { All (IsOtherName text.now) names.now }
    requires name { IsOtherName text.now name }
    ensures { result ≡ is_named_among text.now names.now (name_in text.now name.place) }
{
    for other in names {
        if is_name(text, name, *other) {
            return true;
        }
    }
    false
}

/// The bit that marks a name: the highest bits of its hash.
#[inline(always)]
fn mark_of(name: OtherName) -> usize
    ensures mark { result ≡ name_mark name }
    ensures below { result < 4096 }
{
    (name.hash >> 52) as usize
}

/// Whether a name is marked.
#[inline(always)]
fn is_marked(marks: &[u64], name: OtherName) -> bool
    requires { length marks.now ≡ 64 }
    ensures { IsTrue result ↔ IsMarked marks.now name }
{
    let mark = mark_of(name);
    (marks[mark / 64] >> (mark % 64)) & 1 == 1
}

/// Marks a name.
#[inline(always)]
fn mark(marks: &mut [u64], name: OtherName)
    requires { length marks.old ≡ 64 }
    ensures len { length marks.new ≡ 64 }
    ensures name { IsMarked marks.new name }
    ensures keeps { (n : OtherName) → IsMarked marks.old n → IsMarked marks.new n }
{
    let mark = mark_of(name);
    marks[mark / 64] |= 1 << (mark % 64);
}

/// Marks names.
fn mark_all(marks: &mut [u64], names: &[OtherName])
    requires { length marks.old ≡ 64 }
    ensures names { All (IsMarked marks.new) names.now }
    ensures keeps { (n : OtherName) → IsMarked marks.old n → IsMarked marks.new n }
{
    for name in names {
        mark(marks, *name);
    }
}

/// White space, a name in which each byte stands for the unit of its own number, white space and a colon.
#[inline(never)]
fn long_name(text: &[u8], at: usize) -> Result<NamePlace, Halt>
    requires inside { at ≤ length text.now }
    requires short { length text.now ≤ 2 ^ 28 }
    ensures place { IfOk result (IsNameAt text.now at) }
    ensures plain { IfOk result (IsPlainName text.now) }
{
    let name = name_place(text, at)?;
    if !is_simple(&text[name.first..name.end]) {
        return Err(Halt::At(name.end));
    }
    Ok(name)
}

/// White space and a colon behind a name of ASCII without escapes.
#[inline(always)]
fn short_name(text: &[u8], at: usize, first: usize, end: usize) -> Result<NamePlace, Halt>
    requires order { at ≤ first }
    requires spaces { AreSpaces (between text.now at first) }
    requires text { IsSimpleTextAt text.now first end }
    ensures place { IfOk result (IsNameAt text.now at) }
    ensures plain { IfOk result (IsPlainName text.now) }
    ensures first { IfOk result (λ name. name.first ≡ first) }
    ensures end { IfOk result (λ name. name.end ≡ end) }
{
    let name = ended_name(text, at, first, end)?;
    Ok(name)
}

/// A name as of `long_name` behind white space, whose bytes are looked at together where it is short.
#[inline(always)]
fn plain_name(text: &[u8], at: usize, first: usize) -> Result<NamePlace, Halt>
    requires order { at ≤ first }
    requires within { first ≤ length text.now }
    requires spaces { AreSpaces (between text.now at first) }
    requires short { length text.now ≤ 2 ^ 28 }
    ensures place { IfOk result (IsNameAt text.now at) }
    ensures plain { IfOk result (IsPlainName text.now) }
{
    match short_text_end(text, first) {
        Some(end) => short_name(text, at, first, end),
        None => long_name(text, at),
    }
}

impl OtherNames {
    /// No names.
    #[inline(always)]
    pub fn none(alloc: Global) -> OtherNames
        ensures plain { (w : List ℕ) → ArePlainOthers w result }
        ensures none { (w name : List ℕ) → is_among_others w result name ≡ false }
    {
        let nowhere = NamePlace {
            first: 0,
            end: 0,
            colon: 0,
        };
        OtherNames {
            count: 0,
            placed: 0,
            near: [OtherName {
                place: nowhere,
                hash: 0,
                field: Field::Other,
            }; NEAR],
            far: Vec::new(alloc),
            marks: [0; MARKS],
        }
    }

    /// No names of the next object: those of the object before it are expected.
    #[inline(always)]
    pub fn begin(&mut self)
        ensures plain { (w : List ℕ) → ArePlainOthers w self.old → ArePlainOthers w self.new }
        ensures none { (w name : List ℕ) → is_among_others w self.new name ≡ false }
    {
        self.count = 0;
    }

    /// The name that is expected next.
    #[inline(always)]
    fn expected(&self) -> Option<OtherName>
        requires { ArePlaced self.now }
        ensures { IfSome result (IsExpected self.now) }
    {
        if self.count < self.placed {
            return Some(self.near[self.count]);
        }
        match self.far.as_slice().get(self.count - self.placed) {
            Some(name) => Some(*name),
            None => None,
        }
    }

    /// How many names are known.
    #[inline(always)]
    fn known(&self) -> usize
        requires { ArePlaced self.now }
        ensures { result ≡ length (known_in self.now) }
    {
        self.placed + self.far.len()
    }

    /// Takes the names away that are expected.
    fn shorten(&mut self)
        requires { ArePlaced self.old }
        ensures { AreShortened self.old self.new }
    {
        if self.count < self.placed {
            self.placed = self.count;
            self.far.truncate(0);
        } else {
            self.far.truncate(self.count - self.placed);
        }
    }

    /// Marks the known names, and no others.
    fn mark_known(&mut self)
        requires { self.old.placed ≤ 8 }
        ensures count { self.new.count ≡ self.old.count }
        ensures placed { self.new.placed ≡ self.old.placed }
        ensures known { known_in self.new ≡ known_in self.old }
        ensures far { self.new.far ≡ self.old.far }
        ensures marked { All (IsMarked self.new.marks) (known_in self.new) }
    {
        self.marks = [0; MARKS];
        mark_all(&mut self.marks, &self.near[..self.placed]);
        mark_all(&mut self.marks, self.far.as_slice());
    }

    /// Forgets the names that are expected.
    fn forget(&mut self)
        requires { ArePlaced self.old }
        ensures { AreCut self.old self.new }
    {
        self.shorten();
        self.mark_known();
    }

    /// Forgets the names that are expected, where there are some.
    #[inline(always)]
    fn cut(&mut self)
        requires placed { ArePlaced self.old }
        requires known { self.old.count ≤ length (known_in self.old) }
        ensures { AreCut self.old self.new }
    {
        if self.count < self.known() {
            self.forget();
        }
    }

    /// Whether a name is among the known ones.
    #[inline(always)]
    fn knows(&self, text: &[u8], name: OtherName) -> bool
        requires placed { ArePlaced self.now }
        requires names { All (IsOtherName text.now) (known_in self.now) }
        requires name { IsOtherName text.now name }
        ensures { result ≡ is_named_among text.now (known_in self.now) (name_in text.now name.place) }
    {
        is_marked(&self.marks, name)
            && (is_among(text, &self.near[..self.placed], name)
                || is_among(text, self.far.as_slice(), name))
    }

    /// One more name in its place or in memory, unless they are too many.
    #[inline(always)]
    fn keep(&mut self, name: OtherName) -> Result<(), Halt>
        requires { ArePlaced self.old }
        ensures { IfOk result (λ _. KeepsName name self.old self.new) }
    {
        if self.placed < NEAR {
            self.near[self.placed] = name;
            self.placed += 1;
            return Ok(());
        }
        if self.far.len() >= MOST {
            return Err(Halt::At(name.place.end));
        }
        if self.far.is_empty() {
            self.far.reserve(MOST)?;
        }
        self.far.push(name)?;
        Ok(())
    }

    /// One more name, which is marked, unless they are too many.
    #[inline(always)]
    fn push(&mut self, name: OtherName) -> Result<(), Halt>
        requires placed { ArePlaced self.old }
        requires known { self.old.count ≤ length (known_in self.old) }
        ensures { IfOk result (λ _. AddsOther name self.old self.new) }
    {
        self.keep(name)?;
        mark(&mut self.marks, name);
        self.count += 1;
        Ok(())
    }
}

impl TableNames {
    /// No names.
    pub fn none(alloc: Global) -> TableNames
        ensures { (w : List ℕ) → ArePlainNames w result }
    {
        TableNames {
            own: OtherNames::none(alloc),
            properties: OtherNames::none(alloc),
        }
    }
}

/// A name with its hash.
#[inline(always)]
fn other_name(text: &[u8], name: FieldName) -> OtherName
    requires plain { IsPlainName text.now name.place }
    requires field { name.field ≡ field_of (name_in text.now name.place) }
    ensures name { IsOtherName text.now result }
    ensures place { result.place ≡ name.place }
{
    OtherName {
        place: name.place,
        hash: hash_of_tail(name_bytes(text, name.place)),
        field: name.field,
    }
}

/// Puts a name to others, unless it is among them. The names that were expected are forgotten.
#[inline(always)]
fn add_name(text: &[u8], others: &mut OtherNames, name: FieldName) -> Result<(), Halt>
    requires names { ArePlainOthers text.now others.old }
    requires plain { IsPlainName text.now name.place }
    requires field { name.field ≡ field_of (name_in text.now name.place) }
    ensures new { IfOk result (λ _. is_among_others text.now others.old (name_in text.now name.place) ≡ false) }
    ensures adds { IfOk result (λ _. AddsName text.now name.place others.old others.new) }
{
    others.cut();
    let other = other_name(text, name);
    if others.knows(text, other) {
        return Err(Halt::At(name.place.end));
    }
    others.push(other)?;
    Ok(())
}

/// Puts a name to those of members for which no kind asks, unless it is among them. The names that were expected are
/// forgotten.
pub fn add_other(text: &[u8], others: &mut OtherNames, name: NamePlace) -> Result<(), Halt>
    requires names { ArePlainOthers text.now others.old }
    requires name { IsPlainName text.now name }
    ensures new { IfOk result (λ _. is_among_others text.now others.old (name_in text.now name) ≡ false) }
    ensures adds { IfOk result (λ _. AddsName text.now name others.old others.new) }
{
    let field = field_of_bytes(name_bytes(text, name));
    add_name(text, others, FieldName { place: name, field })
}

/// The name of a member that isn't looked at as a whole word.
#[inline(always)]
fn any_name(text: &[u8], at: usize, first: usize) -> Result<FieldName, Halt>
    requires order { at ≤ first }
    requires within { first ≤ length text.now }
    requires spaces { AreSpaces (between text.now at first) }
    requires short { length text.now ≤ 2 ^ 28 }
    ensures { IfOk result (IsFieldName text.now at) }
{
    let place = plain_name(text, at, first)?;
    let field = field_of_bytes(&text[place.first + 1..place.end - 1]);
    Ok(FieldName { place, field })
}

/// The name of a member behind white space, as of `field_name`.
#[inline(always)]
fn name_behind(text: &[u8], at: usize, first: usize) -> Result<FieldName, Halt>
    requires order { at ≤ first }
    requires within { first ≤ length text.now }
    requires spaces { AreSpaces (between text.now at first) }
    requires short { length text.now ≤ 2 ^ 28 }
    ensures { IfOk result (IsFieldName text.now at) }
{
    match known_name(text, at, first) {
        Some(name) => Ok(name),
        None => any_name(text, at, first),
    }
}

/// The name of a member, which is plain.
#[inline(always)]
pub fn field_name(text: &[u8], at: usize) -> Result<FieldName, Halt>
    requires inside { at ≤ length text.now }
    requires short { length text.now ≤ 2 ^ 28 }
    ensures place { IfOk result (λ name. IsNameAt text.now at name.place) }
    ensures plain { IfOk result (λ name. IsPlainName text.now name.place) }
    ensures field { IfOk result (λ name. name.field ≡ field_of (name_in text.now name.place)) }
{
    let first = skip_spaces(text, at);
    name_behind(text, at, first)
}

/// Whether the bytes of a name stand at another place, one by one.
fn has_bytes(text: &[u8], name: NamePlace, first: usize) -> bool
    requires name { IsPlainName text.now name }
    requires within { first ≤ length text.now }
    ensures { result ≡ true → StandsWord text.now first (from_name text.now name) (name.end - name.first) }
{
    let len = name.end - name.first;
    if text.len() - first < len {
        return false;
    }
    if text[first..first + len] == text[name.first..name.end] {
        return true;
    }
    false
}

/// Whether the bytes of a name stand at another place: those of a short one are looked at together.
#[inline(always)]
fn stands_again(text: &[u8], name: NamePlace, first: usize) -> bool
    requires name { IsPlainName text.now name }
    requires within { first ≤ length text.now }
    ensures { result ≡ true → StandsWord text.now first (from_name text.now name) (name.end - name.first) }
{
    let word = &text[name.first..];
    let len = name.end - name.first;
    if len > LANES || word.len() < LANES {
        return has_bytes(text, name, first);
    }
    stands_word(text, first, word, len)
}

/// The place behind a name that stands at another place again.
#[inline(always)]
fn behind_again(text: &[u8], name: NamePlace, first: usize) -> Option<usize>
    requires name { IsPlainName text.now name }
    requires within { first ≤ length text.now }
    ensures { IfSome result (IsAgain text.now name first) }
{
    if stands_again(text, name, first) {
        Some(first + (name.end - name.first))
    } else {
        None
    }
}

/// The name that is expected next behind white space, where it stands there and no kind asks for such a member.
#[inline(always)]
fn name_again(text: &[u8], others: &OtherNames, at: usize, first: usize) -> Option<FieldName>
    requires order { at ≤ first }
    requires within { first ≤ length text.now }
    requires spaces { AreSpaces (between text.now at first) }
    requires names { ArePlainOthers text.now others.now }
    ensures name { IfSome result (IsFieldName text.now at) }
    ensures other { IfSome result (λ name. is_no_field name.field ≡ true) }
    ensures next { IfSome result (λ name. IsNextName text.now others.now name.place) }
{
    let known = others.expected()?;
    if !is_other(known.field) {
        return None;
    }
    let end = behind_again(text, known.place, first)?;
    let Ok(place) = short_name(text, at, first, end) else {
        return None;
    };
    Some(FieldName {
        place,
        field: known.field,
    })
}

/// The name of a member, like `field_name`. It is none of the others, and is put to them if no kind asks for the member.
#[inline(always)]
pub fn next_name(text: &[u8], others: &mut OtherNames, at: usize) -> Result<FieldName, Halt>
    requires inside { at ≤ length text.now }
    requires short { length text.now ≤ 2 ^ 28 }
    requires names { ArePlainOthers text.now others.old }
    ensures place { IfOk result (λ name. IsNameAt text.now at name.place) }
    ensures plain { IfOk result (λ name. IsPlainName text.now name.place) }
    ensures field { IfOk result (λ name. name.field ≡ field_of (name_in text.now name.place)) }
    ensures next { IfOk result (IsNextField text.now others.old others.new) }
{
    let first = skip_spaces(text, at);
    if let Some(name) = name_again(text, others, at, first) {
        others.count += 1;
        return Ok(name);
    }
    let name = name_behind(text, at, first)?;
    if is_other(name.field) {
        add_name(text, others, name)?;
    }
    Ok(name)
}
