//! Brackets of a piece. From an opening one the value behind it, or several items of an array, are read at once, where
//! the algebra can; from a closing one those behind it as well, where no level is open.

ghost use Rattle.std.specs.Prelude.{◌≡◌, ℕ, ◌+◌, ◌≤◌, ◌^◌, ◌∷◌, ◌++◌, true, List, length, take, replicate, IfOk};
ghost use Rattle.std.specs.Prelude.{None};
ghost use Rattle.at_lex.specs.Spans.{IsToken as IsLexed};
ghost use Rattle.at_nest.specs.Shown.{opened_as, show_as, shown};
ghost use Rattle.at_nest.specs.KeptItems.{IsAtomOf, IsOfItems};
ghost use Rattle.at_nest.specs.Reading.{is_bracket as is_bracket_kind, ReadsAhead};

use crate::algebra::{Algebra, Attempt};
use crate::bodies::{Body, close, keep_closers, put_items, read_value};
use crate::pieces::{Closers, SpanStop};
use crate::sources::JsonSource;
use crate::tries::Tries;
use at_lex::{Bracket, Token, TokenKind};
use at_text::Memory;
use std::alloc::Global;

/// How far a piece was read from a bracket on, and where it stops, if it does.
#[derive(Clone, Copy)]
pub struct Read {
    pub to: u32,
    pub halt: Option<SpanStop>,
}

/// Whether a token of the kind is a bracket.
#[inline(always)]
pub fn is_bracket(kind: TokenKind) -> bool
    ensures { result ≡ is_bracket_kind kind }
{
    match kind {
        TokenKind::Opens(_) | TokenKind::Closes(_) => true,
        _ => false,
    }
}

/// How many of the first bytes are the byte.
fn leading(bytes: &[u8], byte: u8) -> usize
    ensures fits { result ≤ length bytes.now }
    ensures same { take result bytes.now ≡ replicate result byte }
{
    let mut count = 0;
    while count < bytes.len() && bytes[count] == byte {
        count += 1;
    }
    count
}

/// Behind an opening bracket alone.
#[inline(always)]
fn opened<T: Drop>(
    body: &mut Body<T>,
    alloc: Global,
    bracket: Bracket,
    at: u32,
) -> Result<Read, Memory>
    requires { at ≤ 2 ^ 28 }
    ensures read { IfOk result (λ r. r ≡ record { to = at + 1; halt = None }) }
    ensures body { IfOk result (λ r. shown body.new
        ≡ show_as (shown body.old).outer (opened_as bracket at ∷ (shown body.old).levels)) }
{
    body.open(alloc, bracket, at)?;
    Ok(Read {
        to: at + 1,
        halt: None,
    })
}

/// Reads the bytes from a bracket on. From an opening one: the value that it opens, or in an array several items, where
/// the algebra reads them at once. From a closing one: those of its kind one right behind another, where no level is
/// open. Else the bracket alone.
#[inline(always)]
pub fn read_bracket<A: Algebra>(
    body: &mut Body<A::Atom>,
    ahead: &JsonSource<'_, A>,
    tries: &mut Tries,
    token: Token,
) -> Result<Read, Memory>
    requires bracket { is_bracket_kind token.kind ≡ true }
    requires token { (v after : List ℕ) × (ahead.now.bytes.now ≡ v ++ after) × IsLexed token.from v after token }
    requires fits { token.from + length ahead.now.bytes.now ≤ 2 ^ 28 }
    requires held { IsOfItems (IsAtomOf A.Algebra ahead.now.algebra.now) (shown body.old) }
    ensures { IfOk result (λ r. ReadsAhead (IsAtomOf A.Algebra ahead.now.algebra.now)
        (shown body.old) (shown body.new) r.halt token.from ahead.now.bytes.now r.to) }
{
    let at = token.from;
    let bytes = ahead.bytes;
    match token.kind {
        TokenKind::Opens(bracket) => {
            let seen = tries.window(at, bytes.len(), bracket);
            if seen == 0 {
                return opened(body, ahead.alloc, bracket, at);
            }
            if body.wants_items() {
                let attempt = ahead.algebra.items(ahead.alloc, &bytes[..seen], at)?;
                tries.note(&attempt, seen);
                let Attempt::Whole { len, atom } = attempt else {
                    return opened(body, ahead.alloc, bracket, at);
                };
                let halt = put_items(body, ahead.alloc, ahead.algebra, at, atom)?;
                return Ok(Read { to: at + len, halt });
            }
            let attempt = ahead.algebra.value(ahead.alloc, &bytes[..seen], at)?;
            tries.note(&attempt, seen);
            let Attempt::Whole { len, atom } = attempt else {
                return opened(body, ahead.alloc, bracket, at);
            };
            let halt = read_value(body, ahead.alloc, ahead.algebra, at, atom)?;
            Ok(Read { to: at + len, halt })
        }
        TokenKind::Closes(bracket) => {
            if body.is_outside() {
                let last = at + leading(&bytes[1..], bytes[0]) as u32;
                let halt = keep_closers(body, ahead.algebra, Closers::of_kind(bracket, at, last))?;
                return Ok(Read { to: last + 1, halt });
            }
            let halt = close(body, ahead.alloc, ahead.algebra, bracket, at)?;
            Ok(Read { to: at + 1, halt })
        }
        _ => unreachable!(),
    }
}
