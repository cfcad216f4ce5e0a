//! What a string stands for: the UTF-16 code units of its characters (RFC 8259 sections 7 and 8).

ghost use Rattle.std.specs.Prelude.{◌≡◌, ◌≢◌, ◌++◌, ◌<◌, ◌≤◌, ◌^◌, List, length, take, flat_map, slice_index, true};
ghost use Rattle.std.specs.Prelude.{IfOk, OnOk};
ghost use Rattle.std.specs.Char.{digit_value, is_ascii_hexdigit};
ghost use Rattle.std.specs.Char.Escape.{encode_utf16};
ghost use Rattle.std.specs.Str.{chars};
ghost use Rattle.std.specs.Option.{option_copied};
ghost use Rattle.at_lex.specs.Strings.{JsonString, Character, AreUnitsOf, escape_unit as unit_of_letter};
ghost use Rattle.at_lex.specs.Strings.{hex_unit as unit_of_digits};
ghost use Rattle.at_lex.specs.UnitSteps.{Content, HasDigits, PushesUnits, IsTextOf, IsFirstChar};

use crate::code_units::Units;
use crate::fronts::plain_len;
use at_text::Memory;
use std::alloc::Global;

/// The unit that a backslash and the letter stand for.
fn escape_unit(letter: u8) -> u16
    ensures { result ≡ unit_of_letter letter }
{
    match letter {
        b'"' => 0x22,
        b'\\' => 0x5C,
        b'/' => 0x2F,
        b'b' => 0x08,
        b'f' => 0x0C,
        b'n' => 0x0A,
        b'r' => 0x0D,
        b't' => 0x09,
        _ => 0,
    }
}

/// The value of a hexadecimal digit.
fn digit(b: u8) -> u16
    requires { is_ascii_hexdigit b ≡ true }
    ensures value { result ≡ digit_value b }
    ensures small { result < 16 }
{
    match b {
        b'0'..=b'9' => u16::from(b - b'0'),
        b'a'..=b'f' => u16::from(b - b'a') + 10,
        b'A'..=b'F' => u16::from(b - b'A') + 10,
        _ => 0,
    }
}

/// The unit that four hexadecimal digits spell.
fn hex_unit(a: u8, b: u8, c: u8, d: u8) -> u16
    requires a { is_ascii_hexdigit a ≡ true }
    requires b { is_ascii_hexdigit b ≡ true }
    requires c { is_ascii_hexdigit c ≡ true }
    requires d { is_ascii_hexdigit d ≡ true }
    ensures { result ≡ unit_of_digits a b c d }
{
    ((digit(a) * 16 + digit(b)) * 16 + digit(c)) * 16 + digit(d)
}

/// The first n bytes as a text, where they are UTF-8.
fn text_of(bytes: &[u8], n: usize) -> Option<&str>
    ensures { IsTextOf bytes.now n (option_copied result) }
{
    match std::str::from_utf8(&bytes[..n.min(bytes.len())]) {
        Ok(text) => Some(text),
        Err(_) => None,
    }
}

/// The character in UTF-8 that begins the bytes, where one does.
fn first_char(bytes: &[u8]) -> Option<&str>
    ensures { IsFirstChar bytes.now (option_copied result) }
{
    for n in 1..5 {
        if let Some(text) = text_of(bytes, n) {
            return Some(text);
        }
    }
    None
}

/// The first bytes, as many as a character in UTF-8 may have: what is ahead of a long string isn't looked at again for
/// each of its characters.
fn first_four(text: &[u8]) -> &[u8]
    ensures { result.now ≡ take 4 text.now }
{
    &text[..text.len().min(4)]
}

/// Puts the units of the text's characters behind the others.
fn push_chars(items: &mut Units, alloc: Global, text: &str) -> Result<(), Memory>
    ensures { OnOk result (items.new ≡ items.old ++ flat_map encode_utf16 (chars text.now)) }
{
    for c in text.chars() {
        let code = u32::from(c);
        if code < 0x1_0000 {
            items.push(alloc, code as u16)?;
        } else {
            items.push(alloc, (0xD800 + (code - 0x1_0000) / 0x400) as u16)?;
            items.push(alloc, (0xDC00 + (code - 0x1_0000) % 0x400) as u16)?;
        }
    }
    Ok(())
}

/// Puts the unit of the escape `\u` that begins the text behind the others; its length.
fn push_hex(items: &mut Units, alloc: Global, text: &[u8]) -> Result<usize, Memory>
    requires content { (characters : List Character) × Content characters text.now }
    requires escape { slice_index text.now 0 ≡ 0x5C }
    requires u { slice_index text.now 1 ≡ 0x75 }
    requires digits { HasDigits text.now }
    ensures { IfOk result (λ n. PushesUnits text.now n items.old items.new) }
{
    items.push(alloc, hex_unit(text[2], text[3], text[4], text[5]))?;
    Ok(6)
}

/// Puts the unit of the escape that begins the text behind the others; its length.
fn push_escape(items: &mut Units, alloc: Global, text: &[u8]) -> Result<usize, Memory>
    requires content { (characters : List Character) × Content characters text.now }
    requires escape { slice_index text.now 0 ≡ 0x5C }
    requires some { 1 < length text.now }
    ensures { IfOk result (λ n. PushesUnits text.now n items.old items.new) }
{
    if text[1] == b'u' {
        return push_hex(items, alloc, text);
    }
    items.push(alloc, escape_unit(text[1]))?;
    Ok(2)
}

/// Puts the units of the character in UTF-8 that begins the text behind the others, or FFFD where none does;
/// its length.
fn push_wide(items: &mut Units, alloc: Global, text: &[u8]) -> Result<usize, Memory>
    requires content { (characters : List Character) × Content characters text.now }
    requires some { 1 < length text.now }
    requires plain { slice_index text.now 0 ≢ 0x5C }
    ensures { IfOk result (λ n. PushesUnits text.now n items.old items.new) }
{
    let near = first_four(text);
    let Some(character) = first_char(&near[..plain_len(near)]) else {
        items.push(alloc, 0xFFFD)?;
        return Ok(1);
    };
    push_chars(items, alloc, character)?;
    Ok(character.len())
}

/// Puts the units of the first character of the rest of a string behind the others; its length.
fn push_units(items: &mut Units, alloc: Global, text: &[u8]) -> Result<usize, Memory>
    requires content { (characters : List Character) × Content characters text.now }
    requires some { 1 < length text.now }
    ensures { IfOk result (λ n. PushesUnits text.now n items.old items.new) }
{
    let first = text[0];
    if first == b'\\' {
        return push_escape(items, alloc, text);
    }
    if first >= 0x80 {
        return push_wide(items, alloc, text);
    }
    items.push(alloc, u16::from(first))?;
    Ok(1)
}

/// The UTF-16 code units of a JSON string after unescaping (RFC 8259 sections 7 and 8.2). An escape `\u` gives
/// its one unit, also where it is a lone surrogate. Read from the left, a byte at which no valid UTF-8 character
/// begins gives one unit FFFD and is passed alone. The one refusal is want of memory.
pub fn units(alloc: Global, text: &[u8]) -> Result<Units, Memory>
    requires whole { JsonString text.now }
    requires fits { length text.now ≤ 2 ^ 28 }
    ensures { IfOk result (AreUnitsOf text.now) }
{
    let mut items = Units::with_capacity(alloc, text.len() - 2)?;
    let mut at: usize = 1;
    while at + 1 < text.len() {
        at += push_units(&mut items, alloc, &text[at..])?;
    }
    Ok(items)
}
