//! How many tokens there are of each kind.

ghost use Rattle.std.specs.Prelude.{◌≤◌, ◌^◌, length};

use at_lex::{Item, Lexer, Start, TokenKind};

/// How many tokens there are of each kind, the type's range wrapped round.
#[derive(Clone, Copy)]
pub struct Counts {
    pub marks: u64,
    pub texts: u64,
    pub runs: u64,
    pub broken: u64,
}

impl Counts {
    fn add(&mut self, kind: TokenKind) {
        let count = match kind {
            TokenKind::Text => &mut self.texts,
            TokenKind::Run => &mut self.runs,
            TokenKind::Broken(_) => &mut self.broken,
            _ => &mut self.marks,
        };
        *count = count.wrapping_add(1);
    }

    fn add_tokens(&mut self, piece: &[u8])
        requires { length piece.now ≤ 2 ^ 28 }
    {
        let (_lead, mut lexer) = Lexer::new(piece, 0, Start::Out);
        while let Item::Whole(token) = lexer.next_item() {
            self.add(token.kind);
        }
    }
}

/// The tokens of so many rounds.
pub fn count_rounds(piece: &[u8], rounds: u8) -> Counts
    requires { length piece.now ≤ 2 ^ 28 }
{
    let mut counts = Counts {
        marks: 0,
        texts: 0,
        runs: 0,
        broken: 0,
    };
    for _ in 0..rounds {
        counts.add_tokens(piece);
    }
    counts
}
