//! Single bytes of a text: blanks, and what stands at a place.

ghost use Rattle.std.specs.Prelude.{◌≡◌, ◌≤◌, ◌<◌, ◌==◌, length};
ghost use Rattle.std.specs.Char.{to_ascii_uppercase};
ghost use Rattle.at_wkt.specs.Geometry.{is_blank as blank_test};
ghost use Rattle.at_wkt.specs.Readers.{next, SkipsBlanks};

/// Whether a byte is a space or a tab.
#[inline(always)]
pub fn is_blank(byte: u8) -> bool
    ensures { result ≡ blank_test byte }
{
    byte == b' ' || byte == b'\t'
}

/// Whether a blank stands at a place of the text.
#[inline(always)]
fn blank_stands(text: &[u8], at: usize) -> bool
    ensures { result ≡ blank_test (next text.now at) }
{
    at < text.len() && is_blank(text[at])
}

/// The first place from `at` on where no blank stands.
#[inline(always)]
pub fn skip_blanks(text: &[u8], at: usize) -> usize
    requires { at ≤ length text.now }
    ensures { SkipsBlanks text.now at result }
{
    let mut end = at;
    while blank_stands(text, end) {
        end += 1;
    }
    end
}

/// Whether the byte stands at a place of the text.
#[inline(always)]
pub fn stands(text: &[u8], at: usize, byte: u8) -> bool
    ensures { result ≡ (next text.now at == byte) }
{
    at < text.len() && text[at] == byte
}

/// Whether the letter, a capital, stands at a place of the text in either case.
#[inline(always)]
pub fn letter_stands(text: &[u8], at: usize, letter: u8) -> bool
    ensures { result ≡ (to_ascii_uppercase (next text.now at) == letter) }
{
    at < text.len() && text[at].to_ascii_uppercase() == letter
}
