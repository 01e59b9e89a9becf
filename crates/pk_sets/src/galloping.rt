//! The intersection by a gallop through the longer list.

ghost use Rattle.std.specs.Prelude.{◌≡◌, ◌+◌, ◌-◌, ◌*◌, ◌<◌, ◌≤◌, length, slice_index};
ghost use Rattle.std.specs.Prelude.{take, min};
ghost use Rattle.std.specs.Simd.Lanes.{chunk};
ghost use Rattle.std.specs.List.Sorted.{IsStrictlyIncreasing};
ghost use Rattle.pk_sets.specs.Sets.{intersection, has};

use crate::merging::merge_rest;
use std::simd::prelude::*;

// Whether x is among the 32 numbers from `at` on.
#[inline(always)]
fn among(b: &[u32], at: usize, x: u32) -> bool
    requires { at + 32 ≤ length b.now }
    ensures { result ≡ has (chunk at 32 b.now) x }
{
    u32x32::splat(x)
        .simd_eq(u32x32::from_slice(&b[at..]))
        .to_bitmask()
        != 0
}

// The first stretch of 32, from stretch `from` on, that does not end below x, or the number of
// stretches. It is found by steps that double and then halve.
#[inline(always)]
fn stretch(b: &[u32], from: usize, count: usize, x: u32) -> usize
    requires stretches { 32 * count ≤ length b.now }
    requires start { from ≤ count }
    ensures lower { from ≤ result }
    ensures upper { result ≤ count }
    ensures before { from < result → slice_index b.now (32 * result - 1) < x }
    ensures here { result < count → x ≤ slice_index b.now (32 * result + 31) }
{
    let mut low = from;
    let mut step = 1;
    'steps: while step <= count - low && b[32 * (low + step) - 1] < x {
        low += step;
        step *= 2;
    }
    let mut high = if step <= count - low {
        low + step - 1
    } else {
        count
    };
    'halves: while low < high {
        let mid = low + (high - low) / 2;
        if b[32 * mid + 31] < x {
            low = mid + 1;
        } else {
            high = mid;
        }
    }
    low
}

/// Writes into `out` the numbers that are both in `a` and in `b`, by a gallop through `b` for each
/// number of `a`: the way to take where `b` is much longer.
///
/// Both lists rise strictly, and `out` has room for the shorter one. Answers how many numbers there
/// are; what stands in `out` past them is open.
pub fn both_gallop(a: &[u32], b: &[u32], out: &mut [u32]) -> usize
    requires rising_a { IsStrictlyIncreasing a.now }
    requires rising_b { IsStrictlyIncreasing b.now }
    requires room { min (length a.now) (length b.now) ≤ length out.old }
    ensures within { result ≤ length out.new }
    ensures found { take result out.new ≡ intersection a.now b.now }
{
    let count = b.len() / 32;
    let mut at = 0;
    let mut n = 0;
    'numbers: for i in 0..a.len() {
        let x = a[i];
        at = stretch(b, at, count, x);
        if at == count {
            return merge_rest(a, b, i, 32 * count, n, out);
        }
        if among(b, 32 * at, x) {
            out[n] = x;
            n += 1;
        }
    }
    n
}
