//! Unpacking: straight-line code, one vector of four numbers after another.

ghost use Rattle.std.specs.Prelude.{◌≡◌, ℕ, ◌+◌, ◌-◌, ◌*◌, ◌/◌, ◌%◌, ◌^◌, ◌<◌, ◌≤◌};
ghost use Rattle.std.specs.Prelude.{length, slice_index};
ghost use Rattle.pk_lanes.specs.Packed.{Packed, lane_bit, bit};
ghost use Rattle.pk_lanes.specs.Progress.{Unpacked};

use crate::dispatch::at_width;
use std::simd::prelude::*;

// Word w of each of the four lanes.
#[inline(always)]
fn words(bytes: &[u8], w: usize) -> u32x4
    requires { 16 * w + 16 ≤ length bytes.now }
    ensures { (c j : ℕ) → c < 4 → j < 32
        → bit (slice_index result c) j ≡ lane_bit bytes.now c (32 * w + j) }
{
    u32x4::from_le_bytes(u8x16::from_slice(&bytes[16 * w..]))
}

// In each lane the b bits from bit s on.
#[inline(always)]
fn cut(low: u32x4, s: u32, b: u32) -> u32x4
    requires some { 0 < b }
    requires room { s + b ≤ 32 }
    ensures below { (c : ℕ) → c < 4 → slice_index result c < 2 ^ b }
    ensures bits { (c j : ℕ) → c < 4 → j < b
        → bit (slice_index result c) j ≡ bit (slice_index low c) (s + j) }
{
    (low >> u32x4::splat(s)) & u32x4::splat(u32::MAX >> (32 - b))
}

// In each lane the bits of `low` from bit s on, and then bits of `high`, b in all.
#[inline(always)]
fn join(low: u32x4, high: u32x4, s: u32, b: u32) -> u32x4
    requires start { s < 32 }
    requires most { b ≤ 32 }
    requires over { 32 < s + b }
    ensures below { (c : ℕ) → c < 4 → slice_index result c < 2 ^ b }
    ensures lows { (c j : ℕ) → c < 4 → s + j < 32
        → bit (slice_index result c) j ≡ bit (slice_index low c) (s + j) }
    ensures highs { (c j : ℕ) → c < 4 → j < b → 32 ≤ s + j
        → bit (slice_index result c) j ≡ bit (slice_index high c) (s + j - 32) }
{
    ((low >> u32x4::splat(s)) | (high << u32x4::splat(32 - s))) & u32x4::splat(u32::MAX >> (32 - b))
}

// The vector k of the numbers that are packed at width b. With b and k constant, which they are
// once all is inlined, no branch is left.
#[inline(always)]
pub fn numbers(bytes: &[u8], b: usize, k: usize) -> u32x4
    requires low { 0 < b }
    requires high { b ≤ 32 }
    requires index { k < 32 }
    requires room { length bytes.now ≡ 16 * b }
    ensures lanes { length result ≡ 4 }
    ensures below { (c : ℕ) → c < 4 → slice_index result c < 2 ^ b }
    ensures bits { (c j : ℕ) → c < 4 → j < b
        → bit (slice_index result c) j ≡ lane_bit bytes.now c (k * b + j) }
{
    let at = k * b;
    let w = at / 32;
    let s = (at % 32) as u32;
    let low = words(bytes, w);
    if s + b as u32 <= 32 {
        return cut(low, s, b as u32);
    }
    join(low, words(bytes, w + 1), s, b as u32)
}

// One vector more.
#[inline(always)]
fn put(bytes: &[u8], b: usize, k: usize, xs: &mut [u32; 128])
    requires low { 0 < b }
    requires high { b ≤ 32 }
    requires index { k < 32 }
    requires room { length bytes.now ≡ 16 * b }
    requires front { Unpacked bytes.now b k xs.old }
    ensures { Unpacked bytes.now b (k + 1) xs.new }
{
    numbers(bytes, b, k).copy_to_slice(&mut xs[4 * k..]);
}

// Eight vectors more.
#[inline(always)]
fn put_eight(bytes: &[u8], b: usize, k: usize, xs: &mut [u32; 128])
    requires low { 0 < b }
    requires high { b ≤ 32 }
    requires index { k + 8 ≤ 32 }
    requires room { length bytes.now ≡ 16 * b }
    requires front { Unpacked bytes.now b k xs.old }
    ensures { Unpacked bytes.now b (k + 8) xs.new }
{
    put(bytes, b, k, xs);
    put(bytes, b, k + 1, xs);
    put(bytes, b, k + 2, xs);
    put(bytes, b, k + 3, xs);
    put(bytes, b, k + 4, xs);
    put(bytes, b, k + 5, xs);
    put(bytes, b, k + 6, xs);
    put(bytes, b, k + 7, xs);
}

// The whole block, at a width that the compiler knows.
#[inline(always)]
fn unpack_at<const B: usize>(bytes: &[u8], xs: &mut [u32; 128])
    requires low { 0 < B }
    requires high { B ≤ 32 }
    requires room { length bytes.now ≡ 16 * B }
    ensures { Packed bytes.now B xs.new }
{
    put_eight(bytes, B, 0, xs);
    put_eight(bytes, B, 8, xs);
    put_eight(bytes, B, 16, xs);
    put_eight(bytes, B, 24, xs);
}

// The block of width 0: no byte, and each number 0.
fn zeros(bytes: &[u8], xs: &mut [u32; 128])
    requires { length bytes.now ≡ 0 }
    ensures { Packed bytes.now 0 xs.new }
{
    *xs = [0; 128];
}

/// Writes into `xs` the 128 numbers that are packed in `bytes` at `width` bits.
///
/// The width is at most 32 and there are 16·`width` bytes: then there is always such a list, and
/// just one.
pub fn unpack(bytes: &[u8], width: u32, xs: &mut [u32; 128])
    requires narrow { width ≤ 32 }
    requires room { length bytes.now ≡ 16 * width }
    ensures { Packed bytes.now width xs.new }
{
    at_width!(width, unpack_at(bytes, xs), zeros(bytes, xs))
}
