//! Unpacking and restoring in one pass, which a decoder does for each block of a list.

ghost use Rattle.std.specs.Prelude.{◌≡◌, ℕ, List, ◌+◌, ◌*◌, ◌<◌, ◌≤◌, length};
ghost use Rattle.pk_lanes.specs.Packed.{Packed};
ghost use Rattle.pk_lanes.specs.Differences.{Restores};
ghost use Rattle.pk_lanes.specs.Progress.{Summed};

use crate::differences::restore;
use crate::dispatch::at_width;
use crate::unpacking::numbers;
use crate::vectors::{add, start};
use std::simd::prelude::*;

// One vector more: four differences, added to the vector before.
#[inline(always)]
fn put_sums(bytes: &[u8], b: usize, k: usize, last: u32x4, xs: &mut [u32; 128]) -> u32x4
    requires low { 0 < b }
    requires high { b ≤ 32 }
    requires index { k < 32 }
    requires room { length bytes.now ≡ 16 * b }
    ensures { (seed : List ℕ) → length seed ≡ 4 → Summed bytes.now b k seed xs.old last
        → Summed bytes.now b (k + 1) seed xs.new result }
{
    let sums = add(numbers(bytes, b, k), last);
    sums.copy_to_slice(&mut xs[4 * k..]);
    sums
}

// Eight vectors more.
#[inline(always)]
fn put_eight_sums(bytes: &[u8], b: usize, k: usize, last: u32x4, xs: &mut [u32; 128]) -> u32x4
    requires low { 0 < b }
    requires high { b ≤ 32 }
    requires index { k + 8 ≤ 32 }
    requires room { length bytes.now ≡ 16 * b }
    ensures { (seed : List ℕ) → length seed ≡ 4 → Summed bytes.now b k seed xs.old last
        → Summed bytes.now b (k + 8) seed xs.new result }
{
    let last = put_sums(bytes, b, k, last, xs);
    let last = put_sums(bytes, b, k + 1, last, xs);
    let last = put_sums(bytes, b, k + 2, last, xs);
    let last = put_sums(bytes, b, k + 3, last, xs);
    let last = put_sums(bytes, b, k + 4, last, xs);
    let last = put_sums(bytes, b, k + 5, last, xs);
    let last = put_sums(bytes, b, k + 6, last, xs);
    put_sums(bytes, b, k + 7, last, xs)
}

// The whole block, at a width that the compiler knows.
#[inline(always)]
fn sums_at<const B: usize>(bytes: &[u8], seed: &[u32; 4], xs: &mut [u32; 128])
    requires low { 0 < B }
    requires high { B ≤ 32 }
    requires room { length bytes.now ≡ 16 * B }
    ensures { (ds : List ℕ) × Packed bytes.now B ds × Restores seed.now ds xs.new }
{
    let last = put_eight_sums(bytes, B, 0, start(seed), xs);
    let last = put_eight_sums(bytes, B, 8, last, xs);
    let last = put_eight_sums(bytes, B, 16, last, xs);
    let _last = put_eight_sums(bytes, B, 24, last, xs);
}

// The block of width 0: no byte, and each difference 0.
fn unchanged(bytes: &[u8], seed: &[u32; 4], xs: &mut [u32; 128])
    requires { length bytes.now ≡ 0 }
    ensures { (ds : List ℕ) × Packed bytes.now 0 ds × Restores seed.now ds xs.new }
{
    restore(seed, &[0; 128], xs);
}

/// Writes into `xs` the numbers whose differences are packed in `bytes` at `width` bits, after the
/// four numbers of the seed: what `unpack` and then `restore` give, in one pass.
pub fn unpack_sums(bytes: &[u8], width: u32, seed: &[u32; 4], xs: &mut [u32; 128])
    requires narrow { width ≤ 32 }
    requires room { length bytes.now ≡ 16 * width }
    ensures { (ds : List ℕ) × Packed bytes.now width ds × Restores seed.now ds xs.new }
{
    at_width!(width, sums_at(bytes, seed, xs), unchanged(bytes, seed, xs))
}
