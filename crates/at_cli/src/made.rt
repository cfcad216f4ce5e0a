//! The texts of made files.

ghost use Rattle.std.specs.Prelude.{◌≡◌, ◌++◌, ◌≤◌, ◌<◌, ◌+◌, ◌^◌, ℕ, false, true, length, OnOk, IfOk, IfSome};
ghost use Rattle.std.specs.Prelude.{MatchOption, decimal};
ghost use Rattle.std.specs.List.{flat_map, range_with_len};
ghost use Rattle.at_cli.specs.Made.{row as row_of, line_by, wkt_line, feature_by, before_feature as text_before};
ghost use Rattle.at_cli.specs.Made.{feature_line, wkt_text as text_of_wkt, geojson_text as text_of_geojson, is_made};
ghost use Rattle.at_cli.specs.Made.{IsMadeText};
ghost use Rattle.at_cli.specs.Squares.{AreLineTexts, AreFeatureTexts, corners, column_texts};
ghost use Rattle.at_cli.specs.Values.{IsWhole, IsFileName};

use crate::squares::{RowTexts, number_texts, push_all};
use crate::words::flags::text_behind;
use crate::words::values::{MOST_MADE, number_within};
use at_text::{Bytes, Memory};
use itoa::Buffer;
use std::alloc::{AllocError, Global};

/// The columns of squares.
const COLUMNS: u32 = 360;

/// The most bytes of a line, and of a feature.
const LINE: usize = 57;

const FEATURE: usize = 165;

/// Turns the texts of a row of lines into those of another, which may be the same.
fn renew_line_row(alloc: Global, texts: &mut RowTexts, row: u32) -> Result<(), AllocError>
    requires row { row < 1000000 }
    requires texts { AreLineTexts texts.old }
    ensures row { OnOk result (texts.new.row ≡ row) }
    ensures texts { OnOk result (AreLineTexts texts.new) }
{
    if texts.row != row {
        *texts = line_row(alloc, row)?;
    }
    Ok(())
}

/// The texts of a row of lines.
fn line_row(alloc: Global, row: u32) -> Result<RowTexts, AllocError>
    requires { row < 1000000 }
    ensures row { IfOk result (λ made. made.row ≡ row) }
    ensures texts { IfOk result AreLineTexts }
{
    RowTexts::new(alloc, row, " ", ",", "))\n")
}

/// Turns the texts of a row of features into those of another, which may be the same.
fn renew_feature_row(alloc: Global, texts: &mut RowTexts, row: u32) -> Result<(), AllocError>
    requires row { row < 1000000 }
    requires texts { AreFeatureTexts texts.old }
    ensures row { OnOk result (texts.new.row ≡ row) }
    ensures texts { OnOk result (AreFeatureTexts texts.new) }
{
    if texts.row != row {
        *texts = feature_row(alloc, row)?;
    }
    Ok(())
}

/// The texts of a row of features.
fn feature_row(alloc: Global, row: u32) -> Result<RowTexts, AllocError>
    requires { row < 1000000 }
    ensures row { IfOk result (λ made. made.row ≡ row) }
    ensures texts { IfOk result AreFeatureTexts }
{
    RowTexts::new(alloc, row, ".5,", "],[", "]]]}}")
}

/// Puts the corners of a square between two columns behind the text.
fn push_corners(
    text: &mut Vec<u8>,
    left: &[u8],
    right: &[u8],
    row: &RowTexts,
) -> Result<(), AllocError>
    ensures { OnOk result (text.new.items ≡ text.old.items ++ corners left.now right.now row.now) }
{
    let low = row.low.as_slice();
    let high = row.high.as_slice();
    let last = row.last.as_slice();
    push_all(
        text,
        &[left, low, right, low, right, high, left, high, left, last],
    )
}

/// Puts the line of a square with these digits behind the text.
fn push_line(
    text: &mut Vec<u8>,
    left: &[u8],
    right: &[u8],
    row: &RowTexts,
) -> Result<(), AllocError>
    requires { AreLineTexts row.now }
    ensures { OnOk result (text.new.items ≡ text.old.items
        ++ line_by left.now right.now (decimal row.now.row) (decimal (row.now.row + 1))) }
{
    text.extend_from_slice(b"POLYGON ((")?;
    push_corners(text, left, right, row)
}

/// Puts the feature of a square with these digits behind the text.
fn push_feature(
    text: &mut Vec<u8>,
    before: &str,
    number: &str,
    left: &[u8],
    right: &[u8],
    row: &RowTexts,
) -> Result<(), AllocError>
    requires { AreFeatureTexts row.now }
    ensures { OnOk result (text.new.items ≡ text.old.items ++ (before.now
        ++ feature_by number.now left.now right.now (decimal row.now.row) (decimal (row.now.row + 1)))) }
{
    push_all(
        text,
        &[
            before.as_bytes(),
            b"{\"type\":\"Feature\",\"properties\":{\"name\":\"g".as_slice(),
            number.as_bytes(),
            b"\"},\"geometry\":{\"type\":\"Polygon\",\"coordinates\":[[[".as_slice(),
        ],
    )?;
    push_corners(text, left, right, row)
}

/// Puts the line of square `index` behind the text.
fn push_square(
    text: &mut Vec<u8>,
    index: u32,
    row: &RowTexts,
    columns: &[Bytes],
) -> Result<(), AllocError>
    requires index { index < 1000000 }
    requires columns { columns.now ≡ column_texts }
    requires row { row.now.row ≡ row_of index }
    requires texts { AreLineTexts row.now }
    ensures { OnOk result (text.new.items ≡ text.old.items ++ wkt_line index) }
{
    let column = (index % COLUMNS) as usize;
    push_line(
        text,
        columns[column].as_slice(),
        columns[column + 1].as_slice(),
        row,
    )
}

/// What stands before feature `index`.
fn before_feature(index: u32) -> &'static str
    ensures { result.now ≡ text_before index }
{
    if index == 0 { "\n" } else { ",\n" }
}

/// Puts feature `index` behind the text.
fn push_numbered(
    text: &mut Vec<u8>,
    index: u32,
    row: &RowTexts,
    columns: &[Bytes],
) -> Result<(), AllocError>
    requires index { index < 1000000 }
    requires columns { columns.now ≡ column_texts }
    requires row { row.now.row ≡ row_of index }
    requires texts { AreFeatureTexts row.now }
    ensures { OnOk result (text.new.items ≡ text.old.items ++ feature_line index) }
{
    let mut number = Buffer::new();
    let column = (index % COLUMNS) as usize;
    push_feature(
        text,
        before_feature(index),
        number.format(index),
        columns[column].as_slice(),
        columns[column + 1].as_slice(),
        row,
    )
}

/// Puts the lines of so many squares behind the text.
fn push_squares(alloc: Global, text: &mut Vec<u8>, count: u32) -> Result<(), AllocError>
    requires { count ≤ 1000000 }
    ensures { OnOk result (text.new.items ≡ text.old.items ++ flat_map wkt_line (range_with_len 0 count)) }
{
    let columns = number_texts(alloc, COLUMNS + 1)?;
    let mut row = line_row(alloc, 0)?;
    for index in 0..count {
        renew_line_row(alloc, &mut row, index / COLUMNS)?;
        push_square(text, index, &row, columns.as_slice())?;
    }
    Ok(())
}

/// Puts so many features behind the text.
fn push_features(alloc: Global, text: &mut Vec<u8>, count: u32) -> Result<(), AllocError>
    requires { count ≤ 1000000 }
    ensures { OnOk result (text.new.items ≡ text.old.items ++ flat_map feature_line (range_with_len 0 count)) }
{
    let columns = number_texts(alloc, COLUMNS + 1)?;
    let mut row = feature_row(alloc, 0)?;
    for index in 0..count {
        renew_feature_row(alloc, &mut row, index / COLUMNS)?;
        push_numbered(text, index, &row, columns.as_slice())?;
    }
    Ok(())
}

/// So many squares in Well-Known Text.
fn wkt_text(alloc: Global, count: u32) -> Result<Vec<u8>, AllocError>
    requires { count ≤ 1000000 }
    ensures { IfOk result (λ text. text.items ≡ text_of_wkt count) }
{
    let mut text = Vec::with_capacity(alloc, count as usize * LINE)?;
    push_squares(alloc, &mut text, count)?;
    Ok(text)
}

/// So many squares in GeoJSON.
fn geojson_text(alloc: Global, count: u32) -> Result<Vec<u8>, AllocError>
    requires { count ≤ 1000000 }
    ensures { IfOk result (λ text. text.items ≡ text_of_geojson count) }
{
    let mut text = Vec::with_capacity(alloc, count as usize * FEATURE + 45)?;
    text.extend_from_slice(b"{\"type\":\"FeatureCollection\",\"features\":[")?;
    push_features(alloc, &mut text, count)?;
    text.extend_from_slice(b"\n]}\n")?;
    Ok(text)
}

/// The count that a made file's name goes on with.
fn made_count(text: &str) -> u32
    requires { (count : ℕ) × IsWhole 0 1000000 text.now count }
    ensures { IsWhole 0 1000000 text.now result }
{
    match number_within(text, 0, MOST_MADE) {
        Some(count) => count,
        None => unreachable!(),
    }
}

/// The text of the made file of that name, which has at most 2^28 bytes: squares of one unit in rows of 360. None
/// exactly where the name begins with neither `@g:` nor `@w:`.
pub fn made_file(alloc: Global, name: &str) -> Result<Option<Vec<u8>>, Memory>
    requires { IsFileName name.now }
    ensures made { IfOk result (λ (made : _). MatchOption made (is_made name.now ≡ false)
        (λ (text : _). (is_made name.now ≡ true) × IsMadeText name.now text.items)) }
    ensures short { IfOk result (λ (made : _). IfSome made (λ (text : _). length text.items ≤ 2 ^ 28)) }
{
    let squares = text_behind(name, "@w:");
    match text_behind(name, "@g:") {
        Some(count) => Ok(Some(geojson_text(alloc, made_count(count))?)),
        None => match squares {
            Some(count) => Ok(Some(wkt_text(alloc, made_count(count))?)),
            None => Ok(None),
        },
    }
}
