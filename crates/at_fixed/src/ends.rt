//! Where the parts of a number end that begins a text, by which of the text's first bytes are no digits.

ghost use Rattle.std.specs.Prelude.{◌≡◌, ◌<◌, ◌≤◌, IfSome, length};
ghost use Rattle.at_fixed.specs.Gaps.{AreFirstTwo, MarksGaps, MarksGapsFrom};
ghost use Rattle.at_fixed.specs.Scans.{AreEnds, ReadsSign};

use crate::gaps::{first_gaps, first_two, sixteen_gaps};
use crate::notation::Notation;
use crate::scanning::{Sign, read_sign};

/// The most bytes of a number with a point, all digits of which are kept.
const LONGEST: usize = 20;

/// The sign of a number, and the first two places behind it where no digit stands.
#[derive(Clone, Copy)]
pub struct Ends {
    pub sign: Sign,
    pub first: usize,
    pub second: usize,
}

/// The marks behind the sign that a number may have. A sign is marked itself, by the lowest bit, since it is no digit.
#[inline(always)]
fn behind_sign(gaps: u64, text: &[u8], count: usize, sign: Sign, notation: Notation) -> u64
    requires some { 0 < count }
    requires gaps { MarksGaps text.now 0 count gaps }
    requires sign { ReadsSign notation text.now 0 sign }
    ensures { MarksGapsFrom text.now count sign.end result }
{
    gaps - sign.end as u64
}

/// Where the parts of the number end, by the marks of the first bytes.
#[inline(always)]
fn ends_of(text: &[u8], gaps: u64, count: usize, notation: Notation) -> Option<Ends>
    requires some { 0 < count }
    requires gaps { MarksGaps text.now 0 count gaps }
    requires inside { count ≤ length text.now }
    ensures { IfSome result (λ ends. AreEnds notation text.now ends × (ends.second < count)) }
{
    let sign = read_sign(text, 0, notation);
    let (first, second) = first_two(behind_sign(gaps, text, count, sign, notation))?;
    Some(Ends {
        sign,
        first,
        second,
    })
}

/// Where the parts of the number end, where they end within sixteen bytes.
#[inline(always)]
pub fn near_ends(text: &[u8], notation: Notation) -> Option<Ends>
    requires { 16 ≤ length text.now }
    ensures { IfSome result (λ ends. AreEnds notation text.now ends × (ends.second < 16)) }
{
    ends_of(text, sixteen_gaps(text, 0), 16, notation)
}

/// Where the parts of the number end, where all of its digits are kept.
#[inline(always)]
pub fn far_ends(text: &[u8], notation: Notation) -> Option<Ends>
    requires { 32 ≤ length text.now }
    ensures { IfSome result (λ ends. AreEnds notation text.now ends × (ends.second ≤ 20)) }
{
    let ends = ends_of(text, first_gaps(text), 32, notation)?;
    if ends.second > LONGEST {
        None
    } else {
        Some(ends)
    }
}
