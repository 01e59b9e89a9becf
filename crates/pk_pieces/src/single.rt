//! Where a letter or digit may stand as a word, sixteen places at a time.

ghost use Rattle.std.specs.Prelude.{
  ◌≡◌,
  ◌+◌,
  ◌<◌,
  ◌≤◌,
  ◌&&◌,
  ℕ,
  false,
  length,
  slice_index,
};
ghost use Rattle.std.specs.Simd.Lanes.{mask_l, zip2};
ghost use Rattle.pk_pieces.specs.Scan.{is_no_letter, shows, shows_single};

use crate::scan::{case_bit, shows};
use std::simd::prelude::*;

/// The first place from `from` on that shows the byte, with no letter behind it, or the end of the
/// text.
#[inline(always)]
pub fn next_single(bytes: &[u8], from: usize, sought: u8) -> usize
    requires { from ≤ length bytes.now }
    ensures low { from ≤ result }
    ensures high { result ≤ length bytes.now }
    ensures none { (k : ℕ) → from ≤ k → k < result → shows_single bytes.now sought k ≡ false }
{
    let mut at = from;
    'vectors: while bytes.len() - at >= 17 {
        let found = singles(
            u8x16::from_slice(&bytes[at..]),
            u8x16::from_slice(&bytes[at + 1..]),
            sought,
        );
        if found != 0 {
            return at + found.trailing_zeros() as usize;
        }
        at += 16;
    }
    next_single_by_bytes(bytes, at, sought)
}

/// A bit for each lane that shows the byte in the one vector and no letter in the other.
#[inline(always)]
fn singles(v: u8x16, w: u8x16, sought: u8) -> u64
    ensures { result ≡ mask_l (zip2 (λ a b. shows sought a && is_no_letter b) v w) }
{
    let letters = (v | u8x16::splat(case_bit(sought))).simd_eq(u8x16::splat(sought));
    let apart = ((w | u8x16::splat(0x20)) - u8x16::splat(b'a')).simd_ge(u8x16::splat(26));
    (letters & apart).to_bitmask()
}

/// The same, a byte at a time.
#[inline(always)]
fn next_single_by_bytes(bytes: &[u8], from: usize, sought: u8) -> usize
    requires { from ≤ length bytes.now }
    ensures low { from ≤ result }
    ensures high { result ≤ length bytes.now }
    ensures none { (k : ℕ) → from ≤ k → k < result → shows_single bytes.now sought k ≡ false }
{
    let mut at = from;
    'bytes: while at < bytes.len() {
        if shows(sought, bytes[at]) && has_no_letter_at(bytes, at + 1) {
            return at;
        }
        at += 1;
    }
    at
}

/// Whether no letter stands at the place.
#[inline(always)]
fn has_no_letter_at(bytes: &[u8], at: usize) -> bool
    ensures { result ≡ is_no_letter (slice_index bytes.now at) }
{
    at >= bytes.len() || !bytes[at].is_ascii_alphabetic()
}
