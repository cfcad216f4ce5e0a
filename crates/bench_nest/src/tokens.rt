//! The values of a text, counted by its tokens alone.

ghost use Rattle.std.specs.Prelude.{◌≡◌, ◌≤◌, ◌^◌, length};
ghost use Rattle.at_lex.specs.Spans.{HasItems};
ghost use Rattle.at_lex.specs.declared.tokens.Lexed.{Lexed};
ghost use Rattle.bench_nest.specs.Values.{counted_behind, values_in};

use at_lex::{Item, Lexer, Start, TokenKind};

/// The count of values behind one token more: a value begins with an opening bracket, a string or a run; but of the
/// strings, those with a colon behind them are names.
#[inline(always)]
fn counted(count: u64, kind: TokenKind) -> u64
    ensures { result ≡ counted_behind count kind }
{
    match kind {
        TokenKind::Opens(_) | TokenKind::Text | TokenKind::Run => count.wrapping_add(1),
        TokenKind::Colon => count.wrapping_add(u64::MAX),
        TokenKind::Closes(_) | TokenKind::Comma | TokenKind::Broken(_) => count,
    }
}

/// As many values as a JSON text with the tokens of these bytes has, the type's range wrapped round.
pub fn count_tokens(bytes: &[u8]) -> u64
    requires { length bytes.now ≤ 2 ^ 28 }
    ensures { (lexed : Lexed) × HasItems Start.Out 0 bytes.now lexed × (result ≡ values_in 0 lexed.tokens) }
{
    let mut count = 0u64;
    let (_lead, mut lexer) = Lexer::new(bytes, 0, Start::Out);
    loop {
        match lexer.next_item() {
            Item::Whole(token) => count = counted(count, token.kind),
            Item::End { .. } => return count,
        }
    }
}
