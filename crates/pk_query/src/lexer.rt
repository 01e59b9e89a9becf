//! The tokens of a query text, one after the other.

ghost use Rattle.std.specs.Prelude.{
  ◌≡◌,
  ◌+◌,
  ◌<◌,
  ◌≤◌,
  ◌^◌,
  ◌∷◌,
  List,
  length,
  take,
  drop,
  slice_index,
  false,
};
ghost use Rattle.std.specs.Iterator.{YieldsFirstBy, item_count};
ghost use Rattle.std.specs.Str.{IsCharBoundary};
ghost use Rattle.pk_query.specs.LexerView.{placed_view, token_view};
ghost use Rattle.pk_query.specs.Tokens as spec;
ghost use Rattle.pk_query.specs.Tokens.{
  is_delimiter,
  lexemes,
  placed_from,
  placed_tokens,
  plain_token,
  token_of,
};

use std::marker::Model;

/// A token. A chunk is a part of the text, and so is what stands between the quotation marks of a
/// phrase.
#[derive(Clone, Copy)]
pub(crate) enum Token<'a> {
    Open,
    Close,
    And,
    Or,
    Not,
    Chunk(&'a str),
    Phrase(&'a str),
    /// A quotation mark that no later one closes: it is the last token.
    OpenQuote,
}

/// A token and the place of its first byte.
#[derive(Clone, Copy)]
pub(crate) struct Placed<'a> {
    pub(crate) place: usize,
    pub(crate) token: Token<'a>,
}

/// The tokens of a text that are still to come, each with its place.
#[derive(Drop)]
pub(crate) struct Lexer<'a> {
    /// The place of the first byte of `rest`.
    at: usize,
    /// The text that is still to be read.
    rest: &'a str,
}

impl<'a> Model for Lexer<'a> {
    ghost Value = { List spec.Placed };

    ghost view = { λ l. placed_from l.at (lexemes l.rest.now) };

    ghost invariant = { λ l. l.at + length l.rest.now < 2 ^ 64 };
}

impl<'a> Lexer<'a> {
    /// The tokens of a text, of which there are at most as many as bytes.
    pub(crate) fn of(text: &'a str) -> Self
        ensures tokens { result ≡ placed_tokens text.now }
        ensures few { length result ≤ length text.now }
    {
        Lexer { at: 0, rest: text }
    }
}

impl<'a> Iterator for Lexer<'a> {
    type Item = Placed<'a>;

    ghost next_gives = { YieldsFirstBy placed_view (λ l. l) };

    ghost remaining = { item_count (λ l. l) };

    fn next(&mut self) -> Option<Placed<'a>> {
        'lexemes: while !self.rest.is_empty() {
            let place = self.at;
            let len = lexeme_len(self.rest);
            let lexeme = &self.rest[..len];
            self.rest = &self.rest[len..];
            self.at += len;
            if lexeme != " " {
                return Some(Placed {
                    place,
                    token: token_of(lexeme),
                });
            }
        }
        None
    }
}

/// Whether the byte ends a chunk: a space, `(`, `)` or a quotation mark.
fn is_delimiter(b: u8) -> bool
    ensures { result ≡ is_delimiter b }
{
    b == b' ' || b == b'(' || b == b')' || b == b'"'
}

/// The length of the first lexeme: of a phrase, of another delimiter, or of a longest run without
/// one.
fn lexeme_len(text: &str) -> usize
    requires { 0 < length text.now }
    ensures some { 0 < result }
    ensures within { result ≤ length text.now }
    ensures boundary { IsCharBoundary text.now result }
    ensures cut { lexemes text.now ≡ take result text.now ∷ lexemes (drop result text.now) }
{
    let first = text.as_bytes()[0];
    if first == b'"' {
        return phrase_len(text);
    }
    if is_delimiter(first) {
        return 1;
    }
    run_len(text)
}

/// The length of the phrase with which the text begins: up to the next quotation mark, or to the
/// text's end.
fn phrase_len(text: &str) -> usize
    requires some { 0 < length text.now }
    requires quote { slice_index text.now 0 ≡ 34 }
    ensures some { 0 < result }
    ensures within { result ≤ length text.now }
    ensures boundary { IsCharBoundary text.now result }
    ensures cut { lexemes text.now ≡ take result text.now ∷ lexemes (drop result text.now) }
{
    let bytes = text.as_bytes();
    let mut end = 1;
    'phrase: while end < bytes.len() {
        if bytes[end] == b'"' {
            return end + 1;
        }
        end += 1;
    }
    end
}

/// The length of the longest run without a delimiter with which the text begins.
fn run_len(text: &str) -> usize
    requires some { 0 < length text.now }
    requires plain { is_delimiter (slice_index text.now 0) ≡ false }
    ensures some { 0 < result }
    ensures within { result ≤ length text.now }
    ensures boundary { IsCharBoundary text.now result }
    ensures cut { lexemes text.now ≡ take result text.now ∷ lexemes (drop result text.now) }
{
    let bytes = text.as_bytes();
    let mut end = 1;
    'run: while end < bytes.len() && !is_delimiter(bytes[end]) {
        end += 1;
    }
    end
}

/// What a lexeme stands for, a space apart.
fn token_of(lexeme: &str) -> Token<'_>
    ensures { token_view result ≡ token_of lexeme.now }
{
    let Some(rest) = lexeme.strip_prefix('"') else {
        return plain_token(lexeme);
    };
    match rest.strip_suffix('"') {
        Some(inside) => Token::Phrase(inside),
        None => Token::OpenQuote,
    }
}

/// What a lexeme stands for that begins with no quotation mark, a space apart.
fn plain_token(lexeme: &str) -> Token<'_>
    ensures { token_view result ≡ plain_token lexeme.now }
{
    match lexeme {
        "(" => Token::Open,
        ")" => Token::Close,
        "AND" => Token::And,
        "OR" => Token::Or,
        "NOT" => Token::Not,
        _ => Token::Chunk(lexeme),
    }
}
