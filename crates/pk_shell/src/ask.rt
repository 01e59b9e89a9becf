//! What a line asks.

ghost use Rattle.std.specs.Prelude.{◌≡◌};
ghost use Rattle.std.specs.Option.{option_map};
ghost use Rattle.std.specs.Str.{all_ascii_digits};
ghost use Rattle.pk_shell.specs.Asked.{
  asked_alone,
  asked_with,
  asked_text,
  is_short_numeral,
  number_of,
};
ghost use Rattle.pk_shell.specs.AskView.{line_asks};

use pk_model::DocNo;

/// What a line asks that is text, and not too long.
#[derive(Clone, Copy)]
pub enum Ask<'a> {
    Add(&'a str),
    Delete(DocNo),
    Find(&'a str),
    Show(DocNo),
    Commit,
    Merge,
    Tidy,
    Count,
    Quit,
    Unknown,
}

/// Whether each byte is a decimal digit.
fn has_only_digits(bytes: &[u8]) -> bool
    ensures { result ≡ all_ascii_digits bytes.now }
{
    for byte in bytes {
        if !byte.is_ascii_digit() {
            return false;
        }
    }
    true
}

/// Whether the text has at most ten bytes, each of them a decimal digit.
fn is_short_numeral(text: &str) -> bool
    ensures { result ≡ is_short_numeral text.now }
{
    text.len() <= 10 && has_only_digits(text.as_bytes())
}

/// The number that one to ten decimal digits write, if it is below 2^32.
fn number_of(text: &str) -> Option<DocNo>
    ensures { option_map (λ n. n.0) result ≡ number_of text.now }
{
    if !is_short_numeral(text) {
        return None;
    }
    match text.parse::<u32>() {
        Ok(number) => Some(DocNo(number)),
        Err(_) => None,
    }
}

/// A line without a space.
fn ask_alone<'a>(word: &str) -> Ask<'a>
    ensures { line_asks result ≡ asked_alone word.now }
{
    if word == "commit" {
        Ask::Commit
    } else if word == "merge" {
        Ask::Merge
    } else if word == "tidy" {
        Ask::Tidy
    } else if word == "count" {
        Ask::Count
    } else if word == "quit" {
        Ask::Quit
    } else {
        Ask::Unknown
    }
}

/// A command word and what follows the first space.
fn ask_with<'a>(word: &str, rest: &'a str) -> Ask<'a>
    ensures { line_asks result ≡ asked_with word.now rest.now }
{
    if word == "add" {
        return Ask::Add(rest);
    }
    if word == "find" {
        return Ask::Find(rest);
    }
    if word == "delete" {
        return match number_of(rest) {
            Some(number) => Ask::Delete(number),
            None => Ask::Unknown,
        };
    }
    if word == "show" {
        return match number_of(rest) {
            Some(number) => Ask::Show(number),
            None => Ask::Unknown,
        };
    }
    Ask::Unknown
}

/// What the line asks.
pub fn ask_of(line: &str) -> Ask<'_>
    ensures { line_asks result ≡ asked_text line.now }
{
    match line.split_once(' ') {
        None => ask_alone(line),
        Some((word, rest)) => ask_with(word, rest),
    }
}
