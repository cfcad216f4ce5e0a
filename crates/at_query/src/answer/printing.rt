//! The printed text of an answer.

ghost use Rattle.std.specs.Prelude.{◌≡◌, ◌∷◌, ◌++◌, OnOk, IfOk, string_bytes, decimal};
ghost use Rattle.at_query.specs.Printing.{ended, whole_text, pos_text, spread_text, printed, offsets_text};
ghost use Rattle.at_query.specs.Printing.{pairs_text, positions_text, hull_text};

use crate::answer::answers::{Answer, Pair};
use at_fixed::write_fixed;
use at_geom::{Extent, Pos};
use at_text::Memory;
use itoa::Buffer;
use std::alloc::Global;

/// Puts the offsets behind a text, one a line.
fn push_offsets(text: &mut String, offsets: &[u32]) -> Result<(), Memory>
    ensures { OnOk result (string_bytes text.new ≡ string_bytes text.old ++ offsets_text offsets.now) }
{
    for at in offsets {
        push_offset(text, *at)?;
    }
    Ok(())
}

/// Puts an offset and a line's end behind a text.
fn push_offset(text: &mut String, at: u32) -> Result<(), Memory>
    ensures { OnOk result (string_bytes text.new ≡ string_bytes text.old ++ ended (decimal at)) }
{
    let mut digits = Buffer::new();
    text.push_str(digits.format(at))?;
    text.push_str("\n")?;
    Ok(())
}

/// Puts the pairs behind a text, one a line.
fn push_pairs(text: &mut String, pairs: &[Pair]) -> Result<(), Memory>
    ensures { OnOk result (string_bytes text.new ≡ string_bytes text.old ++ pairs_text pairs.now) }
{
    for pair in pairs {
        push_pair(text, pair.first, pair.second)?;
    }
    Ok(())
}

/// Puts a pair and a line's end behind a text.
fn push_pair(text: &mut String, first: u32, second: u32) -> Result<(), Memory>
    ensures { OnOk result
        (string_bytes text.new ≡ string_bytes text.old ++ ended (decimal first ++ (0x20 ∷ decimal second))) }
{
    let mut digits = Buffer::new();
    text.push_str(digits.format(first))?;
    text.push_str(" ")?;
    text.push_str(digits.format(second))?;
    text.push_str("\n")?;
    Ok(())
}

/// Puts a whole number and a line's end behind a text.
fn push_number(text: &mut String, number: i128) -> Result<(), Memory>
    ensures { OnOk result (string_bytes text.new ≡ string_bytes text.old ++ ended (whole_text number)) }
{
    writeln!(text, "{number}")?;
    Ok(())
}

/// Puts the x and the y of a position behind a text.
fn push_position(alloc: Global, text: &mut String, position: Pos, digits: u8) -> Result<(), Memory>
    ensures { OnOk result (string_bytes text.new ≡ string_bytes text.old ++ pos_text digits position) }
{
    let x = write_fixed(alloc, position.x, digits)?;
    text.push_str(x.as_str())?;
    text.push_str(" ")?;
    let y = write_fixed(alloc, position.y, digits)?;
    text.push_str(y.as_str())?;
    Ok(())
}

/// Puts the corners of an extent behind a text, or `empty`.
fn push_spread(
    alloc: Global,
    text: &mut String,
    spread: Option<Extent>,
    digits: u8,
) -> Result<(), Memory>
    ensures { OnOk result (string_bytes text.new ≡ string_bytes text.old ++ ended (spread_text digits spread)) }
{
    match spread {
        None => {
            text.push_str("empty\n")?;
        }
        Some(extent) => {
            push_position(alloc, text, extent.low, digits)?;
            text.push_str(" ")?;
            push_position(alloc, text, extent.high, digits)?;
            text.push_str("\n")?;
        }
    }
    Ok(())
}

/// Puts positions behind a text, one a line.
fn push_positions(
    alloc: Global,
    text: &mut String,
    positions: &[Pos],
    digits: u8,
) -> Result<(), Memory>
    ensures { OnOk result (string_bytes text.new ≡ string_bytes text.old ++ positions_text digits positions.now) }
{
    for position in positions {
        push_position(alloc, text, *position, digits)?;
        text.push_str("\n")?;
    }
    Ok(())
}

/// Puts extreme positions behind a text, one a line, or `empty`.
fn push_hull(alloc: Global, text: &mut String, hull: &[Pos], digits: u8) -> Result<(), Memory>
    ensures { OnOk result (string_bytes text.new ≡ string_bytes text.old ++ hull_text digits hull.now) }
{
    if hull.is_empty() {
        text.push_str("empty\n")?;
        return Ok(());
    }
    push_positions(alloc, text, hull, digits)
}

/// The printed text of an answer, with coordinates in units of 10^-digits. One text grows; no line takes memory of
/// its own.
pub fn answer_text(alloc: Global, answer: &Answer, digits: u8) -> Result<String, Memory>
    ensures { IfOk result (λ text. string_bytes text ≡ printed digits answer.now) }
{
    let mut text = String::new(alloc);
    match answer {
        Answer::Offsets(offsets) => push_offsets(&mut text, offsets.as_slice())?,
        Answer::Number(number) => push_number(&mut text, *number)?,
        Answer::Spread(spread) => push_spread(alloc, &mut text, *spread, digits)?,
        Answer::Pairs(pairs) => push_pairs(&mut text, pairs.as_slice())?,
        Answer::Hull(hull) => push_hull(alloc, &mut text, hull.as_slice(), digits)?,
    }
    Ok(text)
}
