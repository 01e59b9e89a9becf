//! Where a word's bytes may stand in a text, sixteen places at a time.

ghost use Rattle.std.specs.Prelude.{
  ◌≡◌,
  ◌+◌,
  ◌<◌,
  ◌≤◌,
  ◌&&◌,
  ℕ,
  false,
  length,
  IsAscii,
};
ghost use Rattle.std.specs.Simd.Lanes.{mask_l, zip2};
ghost use Rattle.pk_pieces.specs.Scan.{StandsApart, case_bit, shows, shows_pair};

use crate::single::next_single;
use std::simd::prelude::*;

/// A place from `from` on where the word may stand apart, its letters of ASCII in either case: it
/// stands apart at none of the places before. A place is told by the word's first and last byte; of
/// a word of one letter or digit, by that and by the byte behind it, which is no letter.
#[inline(always)]
pub fn next_candidate(bytes: &[u8], from: usize, word: &[u8]) -> usize
    requires ascii { IsAscii bytes.now }
    requires within { from ≤ length bytes.now }
    ensures low { from ≤ result }
    ensures high { result ≤ length bytes.now }
    ensures none { (k : ℕ) → from ≤ k → k < result → StandsApart bytes.now word.now k → ⊥ }
{
    if word.is_empty() {
        return from;
    }
    if word.len() == 1 && word[0].is_ascii_alphanumeric() {
        return next_single(bytes, from, word[0]);
    }
    let gap = word.len() - 1;
    next_pair(bytes, from, gap, word[0], word[gap])
}

/// The first place from `from` on that shows both bytes, or the end of the text.
#[inline(always)]
fn next_pair(bytes: &[u8], from: usize, gap: usize, first: u8, last: u8) -> usize
    requires { from ≤ length bytes.now }
    ensures low { from ≤ result }
    ensures high { result ≤ length bytes.now }
    ensures none { (k : ℕ) → from ≤ k → k < result → k + gap < length bytes.now
        → shows_pair bytes.now gap first last k ≡ false }
{
    let mut at = from;
    'vectors: while bytes.len() - at >= 16 && bytes.len() - at - 16 >= gap {
        let found = pairs(
            u8x16::from_slice(&bytes[at..]),
            u8x16::from_slice(&bytes[at + gap..]),
            first,
            last,
        );
        if found != 0 {
            return at + found.trailing_zeros() as usize;
        }
        at += 16;
    }
    next_pair_by_bytes(bytes, at, gap, first, last)
}

/// A bit for each lane that shows the one byte in the one vector and the other in the other.
#[inline(always)]
fn pairs(v: u8x16, w: u8x16, first: u8, last: u8) -> u64
    ensures { result ≡ mask_l (zip2 (λ a b. shows first a && shows last b) v w) }
{
    let firsts = (v | u8x16::splat(case_bit(first))).simd_eq(u8x16::splat(first));
    let lasts = (w | u8x16::splat(case_bit(last))).simd_eq(u8x16::splat(last));
    (firsts & lasts).to_bitmask()
}

/// The same, a byte at a time.
#[inline(always)]
fn next_pair_by_bytes(bytes: &[u8], from: usize, gap: usize, first: u8, last: u8) -> usize
    requires { from ≤ length bytes.now }
    ensures low { from ≤ result }
    ensures high { result ≤ length bytes.now }
    ensures none { (k : ℕ) → from ≤ k → k < result → k + gap < length bytes.now
        → shows_pair bytes.now gap first last k ≡ false }
{
    let mut at = from;
    'bytes: while bytes.len() - at > gap {
        if shows(first, bytes[at]) && shows(last, bytes[at + gap]) {
            return at;
        }
        at += 1;
    }
    bytes.len()
}

/// Whether the byte is the one sought, or a large letter of ASCII for a small one.
#[inline(always)]
pub fn shows(sought: u8, byte: u8) -> bool
    ensures { result ≡ shows sought byte }
{
    byte | case_bit(sought) == sought
}

/// The bit in which a large letter differs from the byte, if that is a small letter of ASCII.
#[inline(always)]
pub fn case_bit(byte: u8) -> u8
    ensures { result ≡ case_bit byte }
{
    if byte.is_ascii_lowercase() { 0x20 } else { 0 }
}
