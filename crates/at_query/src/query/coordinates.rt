//! A number of a box and the byte behind it.

ghost use Rattle.std.specs.Prelude.{◌≡◌, ◌^◌, ◌≤◌, length, IsTrue, MatchResult};
ghost use Rattle.at_wkt.specs.Positions.{value_in, faults_in};
ghost use Rattle.at_query.specs.Queries.{ats_of, least_of};
ghost use Rattle.at_text.specs.Halts.{IfStopped};
ghost use Rattle.at_query.specs.Readers.{Ends, Stops, ends_number, Number, number_in};

use crate::query::bytes::skip_word;
use crate::query::precision::Precision;
use at_fixed::{FixedFault, Notation, leading_number};
use at_text::Halt;

/// A number and the byte behind it.
#[derive(Clone, Copy)]
pub struct NumberRead {
    /// The place behind both.
    pub end: usize,
    /// In units; 0 where the number has a fault.
    pub value: i64,
    /// The number's offset, where it has a fault.
    pub fault: Option<u32>,
}

/// What a number of this value is that stands at the offset.
fn number_of(value: Result<i64, FixedFault>, at: u32, end: usize) -> NumberRead
    ensures value { result.value ≡ value_in value }
    ensures fault { result.fault ≡ least_of (ats_of (faults_in value at)) }
    ensures end { result.end ≡ end }
{
    match value {
        Ok(value) => NumberRead {
            end,
            value,
            fault: None,
        },
        Err(_) => NumberRead {
            end,
            value: 0,
            fault: Some(at),
        },
    }
}

/// Reads a number and the byte behind it.
pub fn read_number(
    text: &[u8],
    at: usize,
    delimiter: u8,
    rules: Precision,
) -> Result<NumberRead, Halt>
    requires inside { at ≤ length text.now }
    requires short { length text.now ≤ 2 ^ 28 }
    requires delimits { IsTrue (ends_number delimiter) }
    ensures { MatchResult result
        (λ read. Ends (Number rules.digits rules.how delimiter) text.now at read.end (number_in read))
        (λ halt. IfStopped halt (Stops (Number rules.digits rules.how delimiter) text.now at)) }
{
    let number = leading_number(&text[at..], Notation::Wkt, rules.digits, rules.how);
    let end = at + number.len as usize;
    let Some(value) = number.value else {
        return Err(Halt::At(end));
    };
    let behind = skip_word(text, end, &[delimiter])?;
    Ok(number_of(value, at as u32, behind))
}
