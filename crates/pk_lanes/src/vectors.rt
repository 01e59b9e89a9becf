//! Vectors of four numbers, one a lane: how they are read, added and subtracted.

ghost use Rattle.std.specs.Prelude.{◌≡◌, ℕ, ◌+◌, ◌*◌, ◌%◌, ◌^◌, ◌<◌, length, slice_index, bit_or};

use std::simd::prelude::*;

// The vector k of the numbers.
#[inline(always)]
pub fn vector(xs: &[u32; 128], k: usize) -> u32x4
    requires { k < 32 }
    ensures lanes { length result ≡ 4 }
    ensures value { (c : ℕ) → c < 4 → slice_index result c ≡ slice_index xs.now (4 * k + c) }
{
    u32x4::from_slice(&xs[4 * k..])
}

// The four numbers of the seed.
#[inline(always)]
pub fn start(seed: &[u32; 4]) -> u32x4
    ensures lanes { length result ≡ 4 }
    ensures value { result ≡ seed.now }
{
    u32x4::from_array(*seed)
}

// The sums of two vectors, modulo 2^32.
#[inline(always)]
pub fn add(a: u32x4, b: u32x4) -> u32x4
    ensures lanes { length result ≡ 4 }
    ensures sums { (c : ℕ) → c < 4
        → slice_index result c ≡ (slice_index a c + slice_index b c) % 2 ^ 32 }
{
    a + b
}

// The differences of two vectors, modulo 2^32.
#[inline(always)]
pub fn subtract(a: u32x4, b: u32x4) -> u32x4
    ensures lanes { length result ≡ 4 }
    ensures sums { (c : ℕ) → c < 4
        → slice_index a c ≡ (slice_index result c + slice_index b c) % 2 ^ 32 }
{
    a - b
}

// In each lane the bits of either.
#[inline(always)]
pub fn either(a: u32x4, b: u32x4) -> u32x4
    ensures lanes { length result ≡ 4 }
    ensures ors { (c : ℕ) → c < 4
        → slice_index result c ≡ bit_or (slice_index a c) (slice_index b c) }
{
    a | b
}
