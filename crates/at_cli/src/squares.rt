//! How the corners of a made file's squares are written: what the squares of one row share is written once for the row.

ghost use Rattle.std.specs.Prelude.{◌≡◌, ◌++◌, ◌∷◌, [], ◌+◌, ◌<◌, decimal, OnOk, IfOk};
ghost use Rattle.std.specs.Prelude.{map};
ghost use Rattle.std.specs.List.{flat_map, range_with_len};
ghost use Rattle.at_cli.specs.Made.{texts};
ghost use Rattle.at_cli.specs.Squares.{AreRowTexts};

use at_text::Bytes;
use itoa::Buffer;
use std::alloc::{AllocError, Global};

/// The numbers of a row's lower and upper edge, each between the texts that stand round it.
#[derive(Drop)]
pub struct RowTexts {
    pub row: u32,
    pub low: Vec<u8>,
    pub high: Vec<u8>,
    pub last: Vec<u8>,
}

/// Puts texts behind the text.
pub fn push_all(text: &mut Vec<u8>, parts: &[&[u8]]) -> Result<(), AllocError>
    ensures { OnOk result (text.new.items ≡ text.old.items ++ flat_map (λ (part : _). part.now) parts.now) }
{
    for part in parts {
        text.extend_from_slice(*part)?;
    }
    Ok(())
}

/// A number between two texts.
fn marked(alloc: Global, before: &str, number: u32, behind: &str) -> Result<Vec<u8>, AllocError>
    ensures { IfOk result (λ text. text.items ≡ texts (before.now ∷ decimal number ∷ behind.now ∷ [])) }
{
    let mut digits = Buffer::new();
    let mut text = Vec::new(alloc);
    push_all(
        &mut text,
        &[
            before.as_bytes(),
            digits.format(number).as_bytes(),
            behind.as_bytes(),
        ],
    )?;
    Ok(text)
}

/// The texts of the first numbers, so many, from 0 on.
pub fn number_texts(alloc: Global, count: u32) -> Result<Vec<Bytes>, AllocError>
    requires { count < 1000000 }
    ensures { IfOk result (λ (made : _). made.items ≡ map decimal (range_with_len 0 count)) }
{
    let mut numbers = Vec::with_capacity(alloc, count as usize)?;
    for number in 0..count {
        numbers.push(Bytes::from_vec(marked(alloc, "", number, "")?))?;
    }
    Ok(numbers)
}

impl RowTexts {
    /// The texts of a row: what stands before its number, behind it, and behind that of the last corner.
    pub fn new(
        alloc: Global,
        row: u32,
        before: &str,
        behind: &str,
        end: &str,
    ) -> Result<RowTexts, AllocError>
        requires { row < 1000000 }
        ensures row { IfOk result (λ made. made.row ≡ row) }
        ensures texts { IfOk result (AreRowTexts before.now behind.now end.now) }
    {
        Ok(RowTexts {
            row,
            low: marked(alloc, before, row, behind)?,
            high: marked(alloc, before, row + 1, behind)?,
            last: marked(alloc, before, row, end)?,
        })
    }
}
