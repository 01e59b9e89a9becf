//! How far the words of an ASCII text are others than one that is sought.

ghost use Rattle.std.specs.Prelude.{◌≡◌, ◌<◌, ◌≤◌, IsAscii, length, true};
ghost use Rattle.pk_pieces.specs.Scan.{
  HasWords,
  IsApart,
  PassesOthers,
  PassesWithout,
  StandsNowhere,
};

use crate::cutting::{is_joined, next_word};
use crate::scan::next_candidate;

/// A place from which on the text is searched for the word as well as from `from` on: the words
/// between are others. It is where the word may stand and begins a piece, or the end of the text.
#[inline(always)]
pub fn past_others(bytes: &[u8], from: usize, word: &[u8]) -> usize
    requires ascii { IsAscii bytes.now }
    requires within { from ≤ length bytes.now }
    ensures low { from ≤ result }
    ensures high { result ≤ length bytes.now }
    ensures passed { PassesOthers bytes.now word.now from result }
{
    next_start(bytes, from, word)
}

/// A place from which on the text is searched as well as from `from` on for words that this one
/// follows so many words ahead: none of the words between is such a one. The second place is the
/// first where this word may stand: up to there a further search passes nothing more. The first is
/// `from`, where too few words lie before the second.
#[inline]
pub fn past_without(bytes: &[u8], from: usize, word: &[u8], ahead: usize) -> (usize, usize)
    requires ascii { IsAscii bytes.now }
    requires within { from ≤ length bytes.now }
    ensures low { from ≤ result.0 }
    ensures high { result.0 ≤ length bytes.now }
    ensures passed { PassesWithout bytes.now word.now ahead from result.0 }
    ensures next { PassesOthers bytes.now word.now from result.1 }
{
    let to = next_start(bytes, from, word);
    let back = behind_spaces(bytes, from, to, ahead);
    if from < back && back < to && !is_joined(bytes, back) && has_words(bytes, back, to, ahead) {
        return (back, to);
    }
    (from, to)
}

/// The first place from `from` on where the word may stand and a piece begins, or the end of the
/// text.
#[inline(always)]
fn next_start(bytes: &[u8], from: usize, word: &[u8]) -> usize
    requires ascii { IsAscii bytes.now }
    requires within { from ≤ length bytes.now }
    ensures low { from ≤ result }
    ensures high { result ≤ length bytes.now }
    ensures apart { from < result → IsApart bytes.now result }
    ensures none { StandsNowhere bytes.now word.now from result }
{
    let mut at = next_candidate(bytes, from, word);
    'joined: while from < at && at < bytes.len() && is_joined(bytes, at) {
        at = next_candidate(bytes, at + 1, word);
    }
    at
}

/// A place behind a space, with so many words and one more before `to` where a space parts any two
/// of them; `from`, where there are fewer.
fn behind_spaces(bytes: &[u8], from: usize, to: usize, words: usize) -> usize
    requires within { from ≤ to }
    requires inside { to ≤ length bytes.now }
    ensures low { from ≤ result }
    ensures high { result ≤ to }
{
    let mut left = words.saturating_add(1);
    let mut at = to;
    'bytes: while from < at {
        if bytes[at - 1] == b' ' {
            if left == 0 {
                return at;
            }
            left -= 1;
        }
        at -= 1;
    }
    from
}

/// Whether so many words lie between the two places.
fn has_words(bytes: &[u8], from: usize, to: usize, count: usize) -> bool
    requires ascii { IsAscii bytes.now }
    requires within { from ≤ to }
    requires inside { to ≤ length bytes.now }
    ensures { result ≡ true → HasWords bytes.now count from to }
{
    let mut at = from;
    for _word in 0..count {
        let Some((_start, end)) = next_word(bytes, at) else {
            return false;
        };
        if end > to {
            return false;
        }
        at = end;
    }
    true
}
