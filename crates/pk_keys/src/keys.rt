//! The key of a word.

ghost use Rattle.std.specs.Prelude.{◌≡◌, ◌<◌, ℕ, slice_index};
ghost use Rattle.pk_keys.specs.Keys.{key_of};

use byteorder::{BigEndian, ByteOrder};

// How many bytes of a word its key has.
const KEY_BYTES: usize = 8;

/// The first eight bytes of a word as a number, the first of them the highest, with zeros behind a
/// shorter word.
pub fn key(word: &[u8]) -> u64
    ensures value { result ≡ key_of word.now }
    ensures bytes { (k : ℕ) → slice_index word.now k < 256 }
{
    if word.len() >= KEY_BYTES {
        return BigEndian::read_u64(word);
    }
    let mut bytes = [0u8; KEY_BYTES];
    bytes[..word.len()].copy_from_slice(word);
    BigEndian::read_u64(&bytes)
}
