//! The items of a piece as a list.

ghost use Rattle.std.specs.Prelude.{◌+◌, ◌≤◌, ◌^◌, length, IfOk};
ghost use Rattle.at_lex.specs.Spans.{HasItems, IsOnlyLexed};

use crate::stream::Lexer;
use crate::tokens::{Item, Lexed, Start, Tokens};
use at_text::Memory;
use std::alloc::Global;

/// The items of a piece of a file from a start state, up to the first broken one. `base` is the file offset of
/// the piece's first byte. The one refusal is want of memory.
pub fn lex(alloc: Global, piece: &[u8], base: u32, start: Start) -> Result<Lexed, Memory>
    requires { base + length piece.now ≤ 2 ^ 28 }
    ensures items { IfOk result (HasItems start base piece.now) }
    ensures only { IfOk result (IsOnlyLexed start base piece.now) }
{
    let (lead, mut lexer) = Lexer::new(piece, base, start);
    let mut tokens = Vec::new(alloc);
    loop {
        match lexer.next_item() {
            Item::Whole(token) => tokens.push(token)?,
            Item::End { pend, end } => return Ok(Lexed {
                lead,
                tokens: Tokens::from_vec(tokens),
                pend,
                end,
            }),
        }
    }
}
