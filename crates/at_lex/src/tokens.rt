//! The states before a byte, the tokens, and what stands at both ends of a piece.

ghost use Rattle.std.specs.Prelude.{◌≡◌};

use std::marker::Model;

/// The lexical state before a byte of JSON.
#[derive(Clone, Copy, Debug, PartialEq, Eq)]
pub enum Start {
    /// Outside strings.
    Out,
    /// In a string, before a byte that no backslash escapes.
    InString,
    /// In a string, right behind a backslash that escapes the next byte.
    InEscape,
}

/// The kind of a bracket.
#[derive(Clone, Copy, Debug, PartialEq, Eq)]
pub enum Bracket {
    /// `{` or `}`.
    Brace,
    /// `[` or `]`.
    Square,
}

/// What a token is.
#[derive(Clone, Copy, Debug, PartialEq, Eq)]
pub enum TokenKind {
    Opens(Bracket),
    Closes(Bracket),
    Comma,
    Colon,
    /// A whole string, with its quotes.
    Text,
    /// A whole literal or number: a run of bytes as long as it can be.
    Run,
    /// A whole string or run that spells nothing, with the file offset of the first byte that no spelling goes
    /// on with. It is the token's end exactly where the token is the beginning of a literal or a number; a
    /// string is refused at one of its bytes, its closing quote at the latest.
    Broken(u32),
}

/// A token that lies whole in a piece: the bytes of the file from `from` up to, not including, `to`.
#[derive(Clone, Copy, Debug, PartialEq, Eq)]
pub struct Token {
    pub kind: TokenKind,
    pub from: u32,
    pub to: u32,
}

/// A list of tokens.
#[derive(Drop)]
pub struct Tokens {
    items: Vec<Token>,
}

impl Model for Tokens {
    ghost use Rattle.std.specs.Prelude.{List};
    ghost use Rattle.at_lex.specs.declared.tokens.Token.{Token};

    ghost Value = { List Token };

    ghost view = { λ t. t.items.items };
}

impl Tokens {
    /// The list that a `Vec` holds. It takes no memory.
    pub fn from_vec(items: Vec<Token>) -> Self
        ensures { result ≡ items.items }
    {
        Tokens { items }
    }

    /// The list as a slice.
    pub fn as_slice(&self) -> &[Token]
        ensures { result.now ≡ self.now }
    {
        self.items.as_slice()
    }
}

/// What begins a piece and belongs to a token that may have begun before it. Offsets are of the file.
#[derive(Clone, Copy, Debug, PartialEq, Eq)]
pub enum Lead {
    /// From outside text: the piece begins with no byte of a run.
    Nothing,
    /// From outside text: the piece begins with a run of bytes, which ends before this offset.
    RunEnds(u32),
    /// From a string: the string's closing quote stands right before this offset.
    TextEnds(u32),
    /// From outside text: the piece has at least one byte, and each is of a run.
    AllRun,
    /// From a string: no quote of the piece closes it.
    AllText,
}

/// The token that a piece ends in, which may go on behind it, with the file offset of its first byte.
#[derive(Clone, Copy, Debug, PartialEq, Eq)]
pub enum Pend {
    Nothing,
    /// A run of bytes that reaches the piece's end.
    Run(u32),
    /// A string without its closing quote.
    Text(u32),
}

/// What a [`Lexer`](crate::Lexer) gives next.
#[derive(Clone, Copy, Debug, PartialEq, Eq)]
pub enum Item {
    /// A whole token, which may be broken.
    Whole(Token),
    /// No further token is whole: what may go on behind the piece, and the lexical state behind the last byte.
    End { pend: Pend, end: Start },
}

/// The items of a piece.
#[derive(Drop)]
pub struct Lexed {
    pub lead: Lead,
    /// The whole tokens behind the lead, up to the first one that is broken.
    pub tokens: Tokens,
    pub pend: Pend,
    /// The lexical state behind the last byte; `Out` where the last token is broken.
    pub end: Start,
}
