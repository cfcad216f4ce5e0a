//! The search for a byte.

ghost use Rattle.std.specs.Prelude.{◌≡◌, ◌==◌, ◌≤◌, length};
ghost use Rattle.std.specs.List.{position_or_len};

use memchr::memchr;

/// The place of the first such byte, or the length where there is none.
pub fn first_place(byte: u8, bytes: &[u8]) -> usize
    ensures first { result ≡ position_or_len (λ b. b == byte) bytes.now }
    ensures within { result ≤ length bytes.now }
{
    memchr(byte, bytes).unwrap_or(bytes.len())
}
