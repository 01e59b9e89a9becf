//! The test for queries that nest too deep.

ghost use Rattle.std.specs.Prelude.{◌≡◌, ◌↔◌, IsTrue};
ghost use Rattle.pk_query.specs.Depth.{IsTooDeep, nests_too_deep, has_long_nots};
ghost use Rattle.pk_query.specs.Tokens.{tokens};

use crate::lexer::{Lexer, Placed, Token};
use crate::limits::MAX_DEPTH;

/// Whether the brackets nest too deep, or too many `NOT` stand in a row.
pub(crate) fn is_too_deep(text: &str) -> bool
    ensures { IsTrue result ↔ IsTooDeep text.now }
{
    has_deep_brackets(text) || has_long_nots(text)
}

/// Whether up to some token the `(` exceed the `)` by more than the limit.
fn has_deep_brackets(text: &str) -> bool
    ensures { result ≡ nests_too_deep 0 0 (tokens text.now) }
{
    let mut opens = 0usize;
    let mut closes = 0usize;
    'tokens: for Placed { token, .. } in Lexer::of(text) {
        if opens > closes + MAX_DEPTH {
            return true;
        }
        match token {
            Token::Open => opens += 1,
            Token::Close => closes += 1,
            _ => {}
        }
    }
    opens > closes + MAX_DEPTH
}

/// Whether more `NOT` than the limit stand in a row.
fn has_long_nots(text: &str) -> bool
    ensures { result ≡ has_long_nots 0 (tokens text.now) }
{
    let mut nots = 0usize;
    'tokens: for Placed { token, .. } in Lexer::of(text) {
        if nots > MAX_DEPTH {
            return true;
        }
        match token {
            Token::Not => nots += 1,
            _ => nots = 0,
        }
    }
    nots > MAX_DEPTH
}
