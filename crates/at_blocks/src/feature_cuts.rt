//! Where a file of GeoJSON is best cut: before a comma behind which a feature seems to begin, so that a block begins and
//! ends with whole features. Nothing rests on the guess: any cuts give the same answer.

ghost use Rattle.std.specs.Prelude.{◌+◌, ◌<◌, ◌≤◌, length, IfSome};

use at_scan::{skip_spaces, stands};
use at_text::is_space;
use memchr::memchr;

/// The names with which a feature begins, in their quotes, where it isn't its type.
const FIRST_NAMES: [&[u8]; 4] = [b"\"properties\"", b"\"geometry\"", b"\"id\"", b"\"bbox\""];

const TYPE: &[u8] = b"\"type\"";

const FEATURE: &[u8] = b"\"Feature\"";

/// A search over fewer bytes in vain says nothing of the next one.
const FEW: usize = 4096;

/// After so many searches in vain one behind another most cuts are left where they are.
const MOST_MISSES: u32 = 4;

/// The place of the white space that ends at the place, or the place itself where none does.
fn before_spaces(bytes: &[u8], at: usize) -> usize
    requires { at ≤ length bytes.now }
    ensures { result ≤ at }
{
    let mut place = at;
    'spaces: while place > 0 && is_space(bytes[place - 1]) {
        place -= 1;
    }
    place
}

/// Whether one of the texts stands at the place.
fn has_one_of(bytes: &[u8], at: usize, texts: &[&[u8]]) -> bool
    requires { at ≤ length bytes.now }
{
    texts.iter().any(|text| bytes[at..].starts_with(text))
}

/// Whether a member stands at the place, behind white space, with which features begin and other objects seldom do.
fn begins_feature(bytes: &[u8], at: usize) -> bool
    requires { at ≤ length bytes.now }
{
    let name = skip_spaces(bytes, at);
    if !stands(bytes, name, b'"') {
        return false;
    }
    if !bytes[name..].starts_with(TYPE) {
        return has_one_of(bytes, name, &FIRST_NAMES);
    }
    let colon = skip_spaces(bytes, name + TYPE.len());
    stands(bytes, colon, b':') && bytes[skip_spaces(bytes, colon + 1)..].starts_with(FEATURE)
}

/// The place of the comma between two objects of which the second, whose bracket stands at the place, seems to be a
/// feature.
fn comma_before(bytes: &[u8], from: usize, at: usize) -> Option<usize>
    requires order { from ≤ at }
    requires inside { at < length bytes.now }
    ensures { IfSome result (λ comma. (from ≤ comma) × (comma < at)) }
{
    let behind = before_spaces(bytes, at);
    if behind <= from + 1 || bytes[behind - 1] != b',' {
        return None;
    }
    let end = before_spaces(bytes, behind - 1);
    if end == 0 || bytes[end - 1] != b'}' || !begins_feature(bytes, at + 1) {
        return None;
    }
    Some(behind - 1)
}

/// The first place from one place on and before another at which a comma stands, and a feature seems to begin behind it;
/// the first of the two, where none is found.
fn cut_between(bytes: &[u8], from: usize, to: usize) -> usize
    requires order { from ≤ to }
    requires within { to ≤ length bytes.now }
    ensures order { from ≤ result }
    ensures within { result ≤ to }
{
    let mut place = from;
    'objects: while let Some(more) = memchr(b'{', &bytes[place..to]) {
        let at = place + more;
        if let Some(comma) = comma_before(bytes, from, at) {
            return comma;
        }
        place = at + 1;
    }
    from
}

/// Searches for features behind cuts, one behind another.
#[derive(Clone, Copy)]
pub struct Searches {
    /// So many in vain one behind another.
    misses: u32,
    /// So many cuts are left where they are before the next search.
    left: u32,
}

impl Searches {
    /// None yet.
    pub fn new() -> Searches {
        Searches { misses: 0, left: 0 }
    }

    /// Whether a feature is searched for behind the next cut.
    fn are_worth_it(&mut self) -> bool {
        if self.left == 0 {
            return true;
        }
        self.left -= 1;
        false
    }

    /// One more search over so many bytes, which was in vain or not. After the second in vain one cut is left, after the
    /// third three, and then seven.
    fn note(&mut self, in_vain: bool, bytes: usize) {
        if !in_vain {
            self.misses = 0;
        } else if bytes >= FEW {
            self.misses = self.misses.saturating_add(1);
        }
        let steps = 1u32 << self.misses.min(MOST_MISSES);
        self.left = (steps / 2).saturating_sub(1);
    }

    /// The place to which the next cut is moved, from one place on and before another: as of `cut_between`, or where it is
    /// if no feature is searched for.
    pub fn cut_between(&mut self, bytes: &[u8], from: usize, to: usize) -> usize
        requires order { from ≤ to }
        requires within { to ≤ length bytes.now }
        ensures order { from ≤ result }
        ensures within { result ≤ to }
    {
        if !self.are_worth_it() {
            return from;
        }
        let place = cut_between(bytes, from, to);
        self.note(place == from, to - from);
        place
    }
}
