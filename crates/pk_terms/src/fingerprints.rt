//! The fingerprint of a word, and its hash.

ghost use Rattle.std.specs.Prelude.{◌≡◌, ◌+◌, ◌≤◌, ◌<◌, ◌^◌, ℕ, length, slice_index};
ghost use Rattle.pk_terms.specs.Fingerprints.{fingerprint_of, four_at, hash_of, short_of};

use std::hash::{FoldHasher, Hasher};

/// A word of at most so many bytes is known by its length and its fingerprint.
pub const SHORT_BYTES: usize = 8;

/// The golden ratio, of 2^64.
const MULTIPLIER: u64 = 0x9e37_79b9_7f4a_7c15;

/// Of a word of at most eight bytes these, as one number; of a longer one std's fast hash.
#[inline(always)]
pub fn fingerprint(word: &str) -> u64
    ensures value { result ≡ fingerprint_of word.now }
    ensures bytes { (k : ℕ) → slice_index word.now k < 256 }
{
    let bytes = word.as_bytes();
    if bytes.len() <= SHORT_BYTES {
        return short(bytes);
    }
    let mut hasher = FoldHasher::default();
    hasher.write(bytes);
    hasher.finish()
}

/// Up to eight bytes as one number, by reads that may overlap.
#[inline(always)]
fn short(bytes: &[u8]) -> u64
    ensures { result ≡ short_of bytes.now }
{
    let len = bytes.len();
    if len >= 4 {
        return four(bytes, 0) + four(bytes, len - 4) * 0x1_0000_0000;
    }
    if len > 0 {
        let middle = bytes[len / 2] as u64 * 0x100;
        return bytes[0] as u64 + middle + bytes[len - 1] as u64 * 0x1_0000;
    }
    0
}

/// The four bytes from the place on as a number, the first of them the lowest.
#[inline(always)]
fn four(bytes: &[u8], at: usize) -> u64
    requires { at + 4 ≤ length bytes.now }
    ensures value { result ≡ four_at bytes.now at }
    ensures bound { result < 2 ^ 32 }
{
    u32::from_le_bytes([bytes[at], bytes[at + 1], bytes[at + 2], bytes[at + 3]]) as u64
}

/// The hash of a fingerprint.
#[inline(always)]
pub fn hash_of(fingerprint: u64) -> u32
    ensures { result ≡ hash_of fingerprint }
{
    let product = fingerprint as u128 * MULTIPLIER as u128;
    (product & 0xFFFF_FFFF) as u32 ^ ((product >> 64) & 0xFFFF_FFFF) as u32
}
