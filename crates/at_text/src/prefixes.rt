//! How much of a text can still become a word of a language.

ghost use Rattle.std.specs.Prelude.{◌≡◌, ◌+◌, ◌<◌, ◌^◌, true, false, Ok, Err};
ghost use Rattle.at_text.specs.declared.halts.Halt.TheVariants as halts;

use crate::halts::Halt;

/// The length of the longest prefix of a text that can still become a word of some language, and whether
/// that prefix is itself a word of it.
#[derive(Clone, Copy, Debug, PartialEq, Eq)]
pub struct Taken {
    /// The length of the prefix in bytes.
    pub len: u32,
    /// Whether the prefix is complete.
    pub whole: bool,
}

impl Taken {
    /// The place behind the word of the language that was taken from the place on, or the place up to which the text was
    /// read where that is no word.
    #[inline(always)]
    pub fn end_from(self, at: usize) -> Result<usize, Halt>
        requires { at + self.len < 2 ^ 64 }
        ensures word { self.whole ≡ true → result ≡ Ok (at + self.len) }
        ensures stop { self.whole ≡ false → result ≡ Err (halts.At (at + self.len)) }
    {
        let end = at + self.len as usize;
        if self.whole {
            Ok(end)
        } else {
            Err(Halt::At(end))
        }
    }
}
