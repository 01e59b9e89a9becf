//! Packing: straight-line code, one vector of four numbers after another.

ghost use Rattle.std.specs.Prelude.{◌≡◌, ℕ, ◌+◌, ◌-◌, ◌*◌, ◌%◌, ◌<◌, ◌≤◌, length, slice_index};
ghost use Rattle.pk_lanes.specs.Packed.{Packed, FitIn, lane_bit, bit};
ghost use Rattle.pk_lanes.specs.Progress.{Filling};

use crate::dispatch::at_width;
use crate::vectors::vector;
use std::simd::prelude::*;

// In each lane the bits of `word` below bit s, and from there on those of `x`.
#[inline(always)]
fn with_shifted(word: u32x4, x: u32x4, s: u32) -> u32x4
    requires { s < 32 }
    ensures lows { (c q : ℕ) → c < 4 → q < s
        → bit (slice_index result c) q ≡ bit (slice_index word c) q }
    ensures highs { (c q : ℕ) → c < 4 → s ≤ q → q < 32 → bit (slice_index word c) q ≡ 0
        → bit (slice_index result c) q ≡ bit (slice_index x c) (q - s) }
{
    word | (x << u32x4::splat(s))
}

// In each lane the bits of `x` that no longer fit a word from bit s on. A shift by 32 is none, so
// s = 0 stands apart.
#[inline(always)]
fn rest_of(x: u32x4, s: u32) -> u32x4
    requires { s < 32 }
    ensures { (c q : ℕ) → c < 4
        → bit (slice_index result c) q ≡ bit (slice_index x c) (32 - s + q) }
{
    if s == 0 {
        return u32x4::splat(0);
    }
    x >> u32x4::splat(32 - s)
}

// Makes these word w of each of the four lanes.
#[inline(always)]
fn store(words: u32x4, w: usize, out: &mut [u8])
    requires { 16 * w + 16 ≤ length out.old }
    ensures here { (c j : ℕ) → c < 4 → j < 32
        → lane_bit out.new c (32 * w + j) ≡ bit (slice_index words c) j }
    ensures before { (c q : ℕ) → c < 4 → q < 32 * w → lane_bit out.new c q ≡ lane_bit out.old c q }
{
    words.to_le_bytes().copy_to_slice(&mut out[16 * w..]);
}

// One vector more: its bits go onto `word`, which is stored once it is full. The result is the word
// that is begun.
#[inline(always)]
fn take(xs: &[u32; 128], b: usize, k: usize, word: u32x4, out: &mut [u8]) -> u32x4
    requires low { 0 < b }
    requires high { b ≤ 32 }
    requires index { k < 32 }
    requires room { length out.old ≡ 16 * b }
    requires small { FitIn xs.now b }
    requires front { Filling xs.now b k out.old word }
    ensures { Filling xs.now b (k + 1) out.new result }
{
    let at = k * b;
    let s = (at % 32) as u32;
    let x = vector(xs, k);
    let full = with_shifted(word, x, s);
    if s + (b as u32) < 32 {
        return full;
    }
    store(full, at / 32, out);
    rest_of(x, s)
}

// Eight vectors more.
#[inline(always)]
fn take_eight(xs: &[u32; 128], b: usize, k: usize, word: u32x4, out: &mut [u8]) -> u32x4
    requires low { 0 < b }
    requires high { b ≤ 32 }
    requires index { k + 8 ≤ 32 }
    requires room { length out.old ≡ 16 * b }
    requires small { FitIn xs.now b }
    requires front { Filling xs.now b k out.old word }
    ensures { Filling xs.now b (k + 8) out.new result }
{
    let word = take(xs, b, k, word, out);
    let word = take(xs, b, k + 1, word, out);
    let word = take(xs, b, k + 2, word, out);
    let word = take(xs, b, k + 3, word, out);
    let word = take(xs, b, k + 4, word, out);
    let word = take(xs, b, k + 5, word, out);
    let word = take(xs, b, k + 6, word, out);
    take(xs, b, k + 7, word, out)
}

// The whole block, at a width that the compiler knows.
#[inline(always)]
fn pack_at<const B: usize>(xs: &[u32; 128], out: &mut [u8])
    requires low { 0 < B }
    requires high { B ≤ 32 }
    requires room { length out.old ≡ 16 * B }
    requires small { FitIn xs.now B }
    ensures { Packed out.new B xs.now }
{
    let word = take_eight(xs, B, 0, u32x4::splat(0), out);
    let word = take_eight(xs, B, 8, word, out);
    let word = take_eight(xs, B, 16, word, out);
    let _begun = take_eight(xs, B, 24, word, out);
}

/// Packs the numbers `xs` at `width` bits into `out`.
///
/// The width is at most 32, no number has more bits, and `out` has 16·`width` bytes, all of which
/// are written.
pub fn pack(xs: &[u32; 128], width: u32, out: &mut [u8])
    requires narrow { width ≤ 32 }
    requires small { FitIn xs.now width }
    requires room { length out.old ≡ 16 * width }
    ensures { Packed out.new width xs.now }
{
    at_width!(width, pack_at(xs, out), ())
}
