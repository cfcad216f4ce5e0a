//! Where the encoding of a file breaks, and where its text begins.

ghost use Rattle.std.specs.Prelude.{◌≡◌, ◌≤◌, ◌^◌, length};
ghost use Rattle.at_text.specs.Texts.{utf8_fault as encoding_fault, base_of as text_begin};

use crate::faults::{Fault, FaultKind};

/// The bytes of a byte order mark (RFC 8259 section 8.1).
const BYTE_ORDER_MARK: [u8; 3] = [0xEF, 0xBB, 0xBF];

/// NotUtf8 at the length of the longest prefix that is valid UTF-8 (RFC 3629), exactly where the bytes
/// aren't valid UTF-8.
pub fn utf8_fault(bytes: &[u8]) -> Option<Fault>
    requires { length bytes.now ≤ 2 ^ 28 }
    ensures { result ≡ encoding_fault bytes.now }
{
    match simdutf8::compat::from_utf8(bytes) {
        Ok(_) => None,
        Err(error) => Some(Fault {
            kind: FaultKind::NotUtf8,
            at: error.valid_up_to() as u32,
        }),
    }
}

/// The offset at which the text begins: 3 exactly where the bytes begin with a byte order mark, else 0.
pub fn base_of(bytes: &[u8]) -> u32
    ensures { result ≡ text_begin bytes.now }
{
    if bytes.starts_with(&BYTE_ORDER_MARK) {
        3
    } else {
        0
    }
}
