//! A reader of JSON texts that goes byte by byte, and refuses the first byte that the grammar has no place for. Of
//! numbers it knows those of the digit 1, of strings those without a backslash, of white space none.

ghost use Rattle.std.specs.Prelude.{◌<◌, length};

use at_lex::Bracket;
use at_nest::NestEnd;
use std::alloc::{AllocError, Global};

#[derive(Clone, Copy, PartialEq, Eq)]
enum Place {
    Value,
    FirstItem,
    FirstName,
    Name,
    Colon,
    After,
    Text,
    NameText,
    Digits,
}

#[derive(Drop)]
struct Reader {
    place: Place,
    open: Vec<Bracket>,
    nodes: u64,
}

fn value_next(reader: &mut Reader, b: u8) -> Result<bool, AllocError> {
    let place = match b {
        b'[' => {
            reader.open.push(Bracket::Square)?;
            Place::FirstItem
        }
        b'{' => {
            reader.open.push(Bracket::Brace)?;
            Place::FirstName
        }
        b'"' => Place::Text,
        b'1' => Place::Digits,
        _ => return Ok(false),
    };
    reader.nodes = reader.nodes.wrapping_add(1);
    reader.place = place;
    Ok(true)
}

fn closer_next(reader: &mut Reader, bracket: Bracket) -> bool {
    let is_right = reader.open.last() == Some(&bracket);
    if is_right {
        let _ = reader.open.pop();
        reader.place = Place::After;
    }
    is_right
}

fn behind_value(reader: &mut Reader, b: u8) -> bool {
    match b {
        b']' => closer_next(reader, Bracket::Square),
        b'}' => closer_next(reader, Bracket::Brace),
        b',' => match reader.open.last() {
            None => false,
            Some(Bracket::Square) => {
                reader.place = Place::Value;
                true
            }
            Some(Bracket::Brace) => {
                reader.place = Place::Name;
                true
            }
        },
        _ => false,
    }
}

/// The byte goes there; else nothing was changed.
fn goes_to(reader: &mut Reader, goes: bool, place: Place) -> bool {
    if goes {
        reader.place = place;
    }
    goes
}

/// Whether the byte may stand between tokens, or begin one.
fn between(reader: &mut Reader, b: u8) -> Result<bool, AllocError> {
    match reader.place {
        Place::FirstItem => if b == b']' {
            Ok(closer_next(reader, Bracket::Square))
        } else {
            value_next(reader, b)
        },
        Place::FirstName => if b == b'}' {
            Ok(closer_next(reader, Bracket::Brace))
        } else {
            Ok(goes_to(reader, b == b'"', Place::NameText))
        },
        Place::Name => Ok(goes_to(reader, b == b'"', Place::NameText)),
        Place::Colon => Ok(goes_to(reader, b == b':', Place::Value)),
        Place::After => Ok(behind_value(reader, b)),
        _ => value_next(reader, b),
    }
}

/// Whether the byte may stand next.
fn next(reader: &mut Reader, b: u8) -> Result<bool, AllocError> {
    match reader.place {
        Place::Text => {
            let _ = goes_to(reader, b == b'"', Place::After);
            Ok(true)
        }
        Place::NameText => {
            let _ = goes_to(reader, b == b'"', Place::Colon);
            Ok(true)
        }
        Place::Digits => if b == b'1' {
            Ok(true)
        } else {
            reader.place = Place::After;
            between(reader, b)
        },
        _ => between(reader, b),
    }
}

/// The number of nodes, or why there is none.
pub fn slow_nest(alloc: Global, text: &[u8]) -> Result<Result<u64, NestEnd>, AllocError>
    requires { length text.now < 100 }
{
    let mut reader = Reader {
        place: Place::Value,
        open: Vec::new(alloc),
        nodes: 0,
    };
    for (at, b) in text.iter().enumerate() {
        if !next(&mut reader, *b)? {
            return Ok(Err(NestEnd::Syntax(at as u32)));
        }
    }
    let is_whole = reader.place == Place::After || reader.place == Place::Digits;
    if is_whole && reader.open.is_empty() {
        Ok(Ok(reader.nodes))
    } else {
        Ok(Err(NestEnd::Ended))
    }
}
