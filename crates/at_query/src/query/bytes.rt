//! Single bytes and fixed words of a query line.

ghost use Rattle.std.specs.Prelude.{◌≡◌, ◌==◌, ◌≤◌, length, MatchResult};
ghost use Rattle.at_wkt.specs.Readers.{next};
ghost use Rattle.at_text.specs.Halts.{IfStopped};
ghost use Rattle.at_query.specs.Readers.{WordStands, WordBreaks};

use at_text::Halt;

/// Whether the byte stands at a place of the text.
pub fn stands(text: &[u8], at: usize, byte: u8) -> bool
    ensures { result ≡ (next text.now at == byte) }
{
    at < text.len() && text[at] == byte
}

/// Reads these bytes and no others; the place behind them.
pub fn skip_word(text: &[u8], at: usize, word: &[u8]) -> Result<usize, Halt>
    requires { at ≤ length text.now }
    ensures { MatchResult result (λ end. WordStands text.now at end word.now)
        (λ halt. IfStopped halt (λ n. WordBreaks text.now at n word.now)) }
{
    let mut count = 0;
    while count < word.len() {
        let end = at + count;
        if !stands(text, end, word[count]) {
            return Err(Halt::At(end));
        }
        count += 1;
    }
    Ok(at + count)
}
