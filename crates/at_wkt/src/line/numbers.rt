//! Numbers of a text, as coordinates or passed over.

ghost use Rattle.std.specs.Prelude.{◌≡◌, ◌≤◌, ◌+◌, Some, None, IfSome, length, MatchResult};
ghost use Rattle.at_fixed.specs.Numerals.{Numeral};
ghost use Rattle.at_text.specs.Faults.{first_of};
ghost use Rattle.at_wkt.specs.declared.line.numbers.Coordinate.{Coordinate as CoordinateRead};
ghost use Rattle.at_wkt.specs.Positions.{fault_of as the_fault, value_in, faults_in};
ghost use Rattle.at_text.specs.Halts.{IfStopped};
ghost use Rattle.at_wkt.specs.Readers.{NumberStands, NumberSkips, NumberBreaks, IsCoordinate};

use crate::line::sources::Source;
use at_fixed::{FixedFault, Notation, leading_number, plain_len, plain_number, wkt_number};
use at_text::{Fault, FaultKind, Halt};

/// A coordinate: its value, 0 where it has a fault, and the place behind it.
#[derive(Clone, Copy)]
pub struct Coordinate {
    pub value: i64,
    pub fault: Option<Fault>,
    pub end: usize,
}

/// The fault at an offset of a number that has no value.
pub fn number_fault(fault: FixedFault, at: u32) -> Fault
    ensures { result ≡ the_fault fault at }
{
    match fault {
        FixedFault::Scale => Fault {
            kind: FaultKind::Scale,
            at,
        },
        FixedFault::Range => Fault {
            kind: FaultKind::Range,
            at,
        },
    }
}

/// The coordinate that a number of this value is, which begins at the offset.
#[inline(always)]
fn coordinate_of(number: Result<i64, FixedFault>, at: u32, end: usize) -> Coordinate
    ensures value { result.value ≡ value_in number }
    ensures fault { result.fault ≡ first_of (faults_in number at) }
    ensures end { result.end ≡ end }
{
    match number {
        Ok(value) => Coordinate {
            value,
            fault: None,
            end,
        },
        Err(fault) => Coordinate {
            value: 0,
            fault: Some(number_fault(fault, at)),
            end,
        },
    }
}

/// Reads a number whose value is used, where one stands that is written plainly and has a value.
#[inline(always)]
pub fn read_plain_number(source: &Source, at: usize) -> Option<Coordinate>
    requires inside { at ≤ length source.now.text.now }
    ensures { IfSome result (λ read. (read.fault ≡ None)
        × ((n : Numeral) × NumberStands source.now.text.now at read.end n
        × IsCoordinate source.now.rules.digits source.now.rules.how n (source.now.rules.base + at) read)) }
{
    let rules = source.rules;
    let number = plain_number(&source.text[at..], Notation::Wkt, rules.digits, rules.how)?;
    Some(Coordinate {
        value: number.value,
        fault: None,
        end: at + number.len as usize,
    })
}

/// Passes over a number whose value is used, where one stands that is written plainly and has a value, by reading it.
#[inline(never)]
fn pass_read_number(source: &Source, at: usize) -> Option<usize>
    requires inside { at ≤ length source.now.text.now }
    ensures { IfSome result (λ end. (read : CoordinateRead) × (read.fault ≡ None)
        × ((n : Numeral) × NumberStands source.now.text.now at end n
        × IsCoordinate source.now.rules.digits source.now.rules.how n (source.now.rules.base + at) read)) }
{
    let read = read_plain_number(source, at)?;
    Some(read.end)
}

/// Passes over a number whose value is used, where one stands that is written plainly and has a value; mostly without
/// computing it.
#[inline(always)]
pub fn pass_plain_number(source: &Source, at: usize) -> Option<usize>
    requires inside { at ≤ length source.now.text.now }
    ensures { IfSome result (λ end. (read : CoordinateRead) × (read.fault ≡ None)
        × ((n : Numeral) × NumberStands source.now.text.now at end n
        × IsCoordinate source.now.rules.digits source.now.rules.how n (source.now.rules.base + at) read)) }
{
    let rules = source.rules;
    match plain_len(&source.text[at..], Notation::Wkt, rules.digits, rules.how) {
        Some(len) => Some(at + len as usize),
        None => pass_read_number(source, at),
    }
}

/// Reads a number whose value is used.
#[inline(never)]
pub fn read_number(source: &Source, at: usize) -> Result<Coordinate, Halt>
    requires inside { at ≤ length source.now.text.now }
    ensures { MatchResult result (λ read. (n : Numeral) × NumberStands source.now.text.now at read.end n
        × IsCoordinate source.now.rules.digits source.now.rules.how n (source.now.rules.base + at) read)
        (λ halt. IfStopped halt (NumberBreaks source.now.text.now at)) }
{
    let rules = source.rules;
    let number = leading_number(&source.text[at..], Notation::Wkt, rules.digits, rules.how);
    let end = at + number.len as usize;
    match number.value {
        None => Err(Halt::At(end)),
        Some(value) => Ok(coordinate_of(value, source.rules.base + at as u32, end)),
    }
}

/// The place behind a number whose value isn't used.
pub fn skip_number(source: &Source, at: usize) -> Result<usize, Halt>
    requires inside { at ≤ length source.now.text.now }
    ensures { MatchResult result (NumberSkips source.now.text.now at)
        (λ halt. IfStopped halt (NumberBreaks source.now.text.now at)) }
{
    wkt_number(&source.text[at..]).end_from(at)
}
