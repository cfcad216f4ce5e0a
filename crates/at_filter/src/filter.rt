//! What becomes of bytes behind a filter.

ghost use Rattle.std.specs.Prelude.{◌≡◌, ◌==◌, ◌≤◌, ◌++◌, take, drop, length, map};
ghost use Rattle.std.specs.List.{position_or_len};
ghost use Rattle.at_filter.specs.Filters.{filtered, seen_behind, byte_of_lines, byte_of_items, next_seen as seen_next};

use at_text::is_space;
use memchr::memchr;

/// What is done to the bytes of each file, one for one.
#[derive(Clone, Copy, Debug, PartialEq, Eq)]
pub enum Filter {
    /// Each line feed becomes an RS, with which a record of a text sequence begins (RFC 7464 section 2). An RS, which no
    /// JSON text may have, becomes the byte 01, which none may have either.
    Lines,
    /// A quote becomes the byte 01 where `}`, `]` and `,` stand before it, with nothing but white space between: where the
    /// bytes are items of an array of objects, a member behind that array would begin there.
    Items,
}

/// How much of `}`, `]` and `,` the bytes so far end in, white space aside.
#[derive(Clone, Copy, Debug, PartialEq, Eq)]
pub enum Seen {
    /// Nothing of it.
    Nothing,
    /// A bracket that closes an object.
    Object,
    /// One that closes an array behind it.
    Array,
    /// A comma behind that.
    Comma,
}

/// What becomes of a byte of lines.
fn passed_of_lines(byte: u8) -> u8
    ensures { result ≡ byte_of_lines byte }
{
    match byte {
        b'\n' => 0x1E,
        0x1E => 0x01,
        _ => byte,
    }
}

/// What becomes of a byte of items.
fn passed_of_items(seen: Seen, byte: u8) -> u8
    ensures { result ≡ byte_of_items seen byte }
{
    if seen == Seen::Comma && byte == b'"' {
        return 0x01;
    }
    byte
}

/// What is seen with one more byte.
fn next_seen(seen: Seen, byte: u8) -> Seen
    ensures { result ≡ seen_next seen byte }
{
    if is_space(byte) {
        return seen;
    }
    match (byte, seen) {
        (b'}', _) => Seen::Object,
        (b']', Seen::Object) => Seen::Array,
        (b',', Seen::Array) => Seen::Comma,
        _ => Seen::Nothing,
    }
}

/// How many bytes there are before the first bracket that closes an object.
fn plain_length(bytes: &[u8]) -> usize
    ensures first { result ≡ position_or_len (λ b. b == 0x7D) bytes.now }
    ensures within { result ≤ length bytes.now }
{
    memchr(b'}', bytes).unwrap_or(bytes.len())
}

/// Passes lines.
fn pass_lines(bytes: &mut [u8])
    ensures { bytes.new ≡ map byte_of_lines bytes.old }
{
    for at in 0..bytes.len() {
        bytes[at] = passed_of_lines(bytes[at]);
    }
}

/// How many bytes stay as they are, and are behind what was seen before them as if they weren't there.
fn skipped(seen: Seen, bytes: &[u8]) -> usize
    ensures bytes { filtered Filter.Items seen bytes.now
        ≡ take result bytes.now ++ filtered Filter.Items seen (drop result bytes.now) }
    ensures seen { seen_behind Filter.Items seen bytes.now ≡ seen_behind Filter.Items seen (drop result bytes.now) }
    ensures within { result ≤ length bytes.now }
{
    match seen {
        Seen::Nothing => plain_length(bytes),
        Seen::Object => 0,
        Seen::Array => 0,
        Seen::Comma => 0,
    }
}

/// Passes items behind what was seen before, and answers what is seen now.
fn pass_items(before: Seen, bytes: &mut [u8]) -> Seen
    ensures bytes { bytes.new ≡ filtered Filter.Items before bytes.old }
    ensures seen { result ≡ seen_behind Filter.Items before bytes.old }
{
    let mut seen = before;
    let mut at = 0;
    while at < bytes.len() {
        let byte = bytes[at];
        bytes[at] = passed_of_items(seen, byte);
        seen = next_seen(seen, byte);
        at += 1;
        at += skipped(seen, &bytes[at..]);
    }
    seen
}

/// Passes bytes that stand behind those of which so much was seen, and answers what is seen now.
pub fn pass(filter: Filter, seen: Seen, bytes: &mut [u8]) -> Seen
    ensures bytes { bytes.new ≡ filtered filter seen bytes.old }
    ensures seen { result ≡ seen_behind filter seen bytes.old }
{
    match filter {
        Filter::Lines => {
            pass_lines(bytes);
            seen
        }
        Filter::Items => pass_items(seen, bytes),
    }
}

/// Passes the first bytes of a room, so many of them, as `pass` does.
pub fn pass_front(filter: Filter, seen: Seen, room: &mut [u8], given: usize) -> Seen
    requires { given ≤ length room.now }
    ensures bytes { take given room.new ≡ filtered filter seen (take given room.old) }
    ensures length { length room.new ≡ length room.old }
    ensures seen { result ≡ seen_behind filter seen (take given room.old) }
{
    pass(filter, seen, &mut room[..given])
}
