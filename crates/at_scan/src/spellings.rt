//! Texts by bytes of ASCII and by code units, which are compared alike.

ghost use Rattle.std.specs.Prelude.{◌≡◌, ℕ, List, bytes_eq};

/// Whether the bytes are the units.
fn are_units(units: &[u16], bytes: &[u8]) -> bool
    ensures { result ≡ bytes_eq units.now bytes.now }
{
    if units.len() != bytes.len() {
        return false;
    }
    for place in 0..bytes.len() {
        if units[place] != u16::from(bytes[place]) {
            return false;
        }
    }
    true
}

/// A text by its bytes, which are ASCII, or by its units.
pub trait Spelling: Copy {
    /// Its units.
    ghost spelled: { Self → List ℕ };

    /// Whether it is the word.
    fn is_word(self, word: &[u8]) -> bool
        ensures { result ≡ bytes_eq (spelled self) word.now };

    /// Whether these are its units.
    fn has_units(self, units: &[u16]) -> bool
        ensures { result ≡ bytes_eq units.now (spelled self) };
}

impl Spelling for &[u8] {
    ghost spelled = { λ s. s.now };

    #[inline(always)]
    fn is_word(self, word: &[u8]) -> bool {
        self == word
    }

    fn has_units(self, units: &[u16]) -> bool {
        are_units(units, self)
    }
}

impl Spelling for &[u16] {
    ghost spelled = { λ s. s.now };

    fn is_word(self, word: &[u8]) -> bool {
        are_units(self, word)
    }

    fn has_units(self, units: &[u16]) -> bool {
        units == self
    }
}
