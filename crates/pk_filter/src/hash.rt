//! The hash of a word, and what it picks of a filter.

ghost use Rattle.std.specs.Prelude.{◌≡◌, ◌<◌};

use std::hash::{FoldHasher, Hasher};

// The odd numbers by which a hash picks a bit of each lane: those of Apache Parquet.
const SALTS: [u32; 8] = [
    0x47b6_137b,
    0x4497_4d91,
    0x8824_ad5b,
    0xa2b7_289d,
    0x7054_95c7,
    0x2df1_424b,
    0x9efc_4947,
    0x5c6b_fb31,
];

// One more than the low half of a hash may be.
const LOW: u64 = 1 << 32;

/// The hash of a word, by which filters are asked.
#[derive(Clone, Copy, Default)]
pub struct WordHash(u64);

impl WordHash {
    ghost use Rattle.pk_filter.specs.Hashed.{block_of, hashed, mask_of};

    /// That of a word: std's fast hash.
    pub fn of(word: &[u8]) -> WordHash
        ensures { result ≡ hashed word.now }
    {
        let mut hasher = FoldHasher::default();
        hasher.write(word);
        WordHash(hasher.finish())
    }

    // The block that it picks among so many.
    #[inline(always)]
    pub(crate) fn block(self, count: u32) -> u32
        requires { 0 < count }
        ensures value { result ≡ block_of count self }
        ensures within { result < count }
    {
        ((self.0 >> 32) * u64::from(count) >> 32) as u32
    }

    // The number with the bit alone that it picks in a lane.
    #[inline(always)]
    pub(crate) fn mask(self, lane: usize) -> u32
        requires { lane < 8 }
        ensures { result ≡ mask_of self lane }
    {
        let low = (self.0 % LOW) as u32;
        1 << (low.wrapping_mul(SALTS[lane]) >> 27)
    }
}
