//! Tokens of a piece of JSON from each lexical state, and what strings, literals and numbers spell (RFC 8259).
//!
//! A file may be cut at any byte, so a piece may begin outside text, in a string, or behind a backslash in a
//! string. [`Lexer`] reads a piece from its start state and gives one token at a time, without memory; [`lex`]
//! collects what it gives. [`take_text`] and [`check_run`] read one string, literal or number, and [`units`]
//! says what a string stands for.
//!
//! This piece begins in a string. Behind the string's end are a comma and a number that may go on:
//! ```
//! let found = lex(alloc, b"b\",4", 0, Start::InString)?;
//! assert!(rt; found.lead == Lead::TextEnds(2));
//! let comma = Token {
//!     kind: TokenKind::Comma,
//!     from: 2,
//!     to: 3,
//! };
//! assert!(rt; found.tokens.as_slice() == [comma].as_slice());
//! assert!(rt; found.pend == Pend::Run(3) && found.end == Start::Out);
//! ```
#![tactic(auto)]

mod code_units;
mod decoding;
mod fronts;
mod numbers;
mod pieces;
mod runs;
mod stream;
mod strings;
mod tokens;

pub use code_units::Units;
pub use decoding::units;
pub use pieces::lex;
pub use runs::{RunEnd, check_run, take_run};
pub use stream::Lexer;
pub use strings::take_text;
pub use tokens::{Bracket, Item, Lead, Lexed, Pend, Start, Token, TokenKind, Tokens};
