//! Where the words of an ASCII text begin and end.

ghost use Rattle.std.specs.Prelude.{
  ◌≡◌,
  ◌+◌,
  ◌<◌,
  ◌≤◌,
  ◌∷◌,
  ◌||◌,
  ◌&&◌,
  [],
  length,
  slice_index,
  slice_range,
  IsAscii,
  MatchOption,
  IfSome,
};
ghost use Rattle.ucd_breaks.specs.WordBreak.{word_break};
ghost use Rattle.unicode_segmentation.specs.Segments.{has_alphanumeric};
ghost use Rattle.unicode_segmentation.specs.Steps.{IsFirstEnd};
ghost use Rattle.unicode_segmentation.proofs.SegmentsLemmas.{IsWalk};
ghost use Rattle.unicode_segmentation.specs.Word.{
  is_mid_letter,
  is_mid_num,
  is_numeric,
  is_word_break,
};
ghost use Rattle.pk_pieces.specs.Pieces.{
  is_letter,
  is_word_value,
  is_middle,
  far_left,
  joins_across,
  joins_ascii,
  joins_at,
  joins_white,
  words_from,
};

use crate::runs::run_end;
use crate::values::value_of;
use ucd_breaks::WordBreak;
use ucd_breaks::WordBreak::*;

/// The first word from the boundary on, by where it begins and ends.
#[inline(always)]
pub fn next_word(bytes: &[u8], from: usize) -> Option<(usize, usize)>
    requires ascii { IsAscii bytes.now }
    requires within { from ≤ length bytes.now }
    ensures words { MatchOption result
        (words_from bytes.now from ≡ [])
        (λ r. words_from bytes.now from
        ≡ slice_range bytes.now r.0 r.1 ∷ words_from bytes.now r.1) }
    ensures places { IfSome result
        (λ r. (from ≤ r.0) × (r.0 < r.1) × (r.1 ≤ length bytes.now)) }
{
    let mut start = from;
    'pieces: while start < bytes.len() {
        let end = piece_end(bytes, start);
        if has_alphanumeric(&bytes[start..end]) {
            return Some((start, end));
        }
        start = end;
    }
    None
}

/// Whether a letter or a digit is among the bytes.
#[inline(always)]
fn has_alphanumeric(piece: &[u8]) -> bool
    requires { IsAscii piece.now }
    ensures { result ≡ has_alphanumeric piece.now }
{
    'bytes: for byte in piece {
        if byte.is_ascii_alphanumeric() {
            return true;
        }
    }
    false
}

/// Where the piece that begins at `start` ends.
#[inline(always)]
fn piece_end(bytes: &[u8], start: usize) -> usize
    requires ascii { IsAscii bytes.now }
    requires within { start < length bytes.now }
    ensures { IsFirstEnd is_word_break bytes.now start (length bytes.now) result }
{
    let mut at = past_run(bytes, start);
    'bytes: while at < bytes.len() {
        if !is_joined(bytes, at) {
            return at;
        }
        at += 1;
    }
    at
}

/// How far the piece that begins at `start` goes at least: over all letters, digits and low lines.
#[inline(always)]
fn past_run(bytes: &[u8], start: usize) -> usize
    requires ascii { IsAscii bytes.now }
    requires within { start < length bytes.now }
    ensures { IsWalk is_word_break bytes.now start (length bytes.now) result }
{
    if is_word_value(value_of(bytes[start])) {
        return run_end(bytes, start + 1);
    }
    start + 1
}

/// Whether no boundary lies between the byte before the place and the one at it. Most places lie
/// beside a letter and a space: they are told by the two values alone.
#[inline(always)]
pub fn is_joined(bytes: &[u8], at: usize) -> bool
    requires ascii { IsAscii bytes.now }
    requires some { 0 < at }
    requires within { at < length bytes.now }
    ensures { result ≡ joins_at bytes.now at }
{
    let left = value_of(bytes[at - 1]);
    let right = value_of(bytes[at]);
    if is_word_value(left) && is_word_value(right) {
        return true;
    }
    if is_middle(left) || is_middle(right) {
        return joins_rarely(bytes, at, left, right);
    }
    joins_white(left, right)
}

/// Whether a rule joins the two values, which stand on both sides of the place. Few places need
/// the bytes further away, so this is kept out of the loop.
#[inline(never)]
fn joins_rarely(bytes: &[u8], at: usize, left: WordBreak, right: WordBreak) -> bool
    requires ascii { IsAscii bytes.now }
    requires within { at < length bytes.now }
    ensures { result
        ≡ joins_ascii (far_left bytes.now at) left right
        (word_break (slice_index bytes.now (at + 1))) }
{
    (is_word_value(left) && is_word_value(right))
        || joins_white(left, right)
        || joins_across(left, right, far_right(bytes, at))
        || joins_across(right, left, far_left(bytes, at))
}

/// Whether the middle one stands between two letters, or between two digits, as a full stop may.
fn joins_across(side: WordBreak, middle: WordBreak, other_side: WordBreak) -> bool
    ensures { result ≡ joins_across side middle other_side }
{
    joins_letters(side, middle, other_side) || joins_digits(side, middle, other_side)
}

fn joins_letters(side: WordBreak, middle: WordBreak, other_side: WordBreak) -> bool
    ensures { result ≡ (is_letter side && is_mid_letter middle && is_letter other_side) }
{
    is_letter(side) && is_mid_letter(middle) && is_letter(other_side)
}

fn joins_digits(side: WordBreak, middle: WordBreak, other_side: WordBreak) -> bool
    ensures { result ≡ (is_numeric side && is_mid_num middle && is_numeric other_side) }
{
    is_numeric(side) && is_mid_num(middle) && is_numeric(other_side)
}

/// The value of the byte before the one before the place.
#[inline]
fn far_left(bytes: &[u8], at: usize) -> WordBreak
    requires ascii { IsAscii bytes.now }
    requires within { at < length bytes.now }
    ensures { result ≡ far_left bytes.now at }
{
    if at < 2 {
        Other
    } else {
        value_of(bytes[at - 2])
    }
}

/// The value of the byte behind the one at the place.
#[inline]
fn far_right(bytes: &[u8], at: usize) -> WordBreak
    requires ascii { IsAscii bytes.now }
    requires within { at < length bytes.now }
    ensures { result ≡ word_break (slice_index bytes.now (at + 1)) }
{
    if at + 1 < bytes.len() {
        value_of(bytes[at + 1])
    } else {
        Other
    }
}

/// Whether it is the value of a letter, a digit or the low line, any two of which are joined.
#[inline(always)]
fn is_word_value(value: WordBreak) -> bool
    ensures { result ≡ is_word_value value }
{
    matches!(value, ALetter | Numeric | ExtendNumLet)
}

/// Whether a rule may join it to a letter or a digit on each side of it.
#[inline(always)]
fn is_middle(value: WordBreak) -> bool
    ensures { result ≡ is_middle value }
{
    matches!(value, MidLetter | MidNumLet | SingleQuote | MidNum)
}

/// Whether they are one end of a line, or white space.
#[inline(always)]
fn joins_white(left: WordBreak, right: WordBreak) -> bool
    ensures { result ≡ joins_white left right }
{
    match left {
        Cr => matches!(right, Lf),
        WSegSpace => matches!(right, WSegSpace),
        _ => false,
    }
}

#[inline(always)]
fn is_letter(value: WordBreak) -> bool
    ensures { result ≡ is_letter value }
{
    matches!(value, ALetter)
}

#[inline(always)]
fn is_numeric(value: WordBreak) -> bool
    ensures { result ≡ is_numeric value }
{
    matches!(value, Numeric)
}

fn is_mid_letter(value: WordBreak) -> bool
    ensures { result ≡ is_mid_letter value }
{
    matches!(value, MidLetter | MidNumLet | SingleQuote)
}

fn is_mid_num(value: WordBreak) -> bool
    ensures { result ≡ is_mid_num value }
{
    matches!(value, MidNum | MidNumLet | SingleQuote)
}
