//! How a result is written, and how far each side goes on.

ghost use Rattle.std.specs.Prelude.{◌≡◌, ◌+◌, ◌-◌, ◌<◌, ◌≤◌, length, slice_index};
ghost use Rattle.std.specs.Prelude.{take, drop, ◌++◌, [], ◌∷◌};
ghost use Rattle.std.specs.Simd.Lanes.{chunk};
ghost use Rattle.std.specs.List.Sorted.{IsStrictlyIncreasing};

use crate::finding::count_below;
use std::simd::prelude::*;

// Writes x at index n, and counts it where the bit is 1: a branch would often be foreseen wrongly.
#[inline(always)]
pub fn keep(x: u32, bit: u64, n: usize, out: &mut [u32]) -> usize
    requires room { n < length out.old }
    requires is_bit { bit < 2 }
    ensures count { result ≡ n + bit }
    ensures found { take result out.new ≡ take n out.old ++ take bit (x ∷ []) }
{
    out[n] = x;
    n + bit as usize
}

// One where x is at most y, else 0.
#[inline(always)]
pub fn one_up_to(x: u32, y: u32) -> usize
    ensures one { x ≤ y → result ≡ 1 }
    ensures none { y < x → result ≡ 0 }
    ensures most { result ≤ 1 }
{
    if x <= y { 1 } else { 0 }
}

// Writes at index n the four numbers from `from` on.
#[inline(always)]
pub fn put_four(xs: &[u32], from: usize, n: usize, out: &mut [u32])
    requires left { from + 4 ≤ length xs.now }
    requires room { n + 4 ≤ length out.old }
    ensures { take (n + 4) out.new ≡ take n out.old ++ chunk from 4 xs.now }
{
    u32x4::from_slice(&xs[from..]).copy_to_slice(&mut out[n..]);
}

// Writes at index n the eight numbers from `from` on.
#[inline(always)]
pub fn put_eight(xs: &[u32], from: usize, n: usize, out: &mut [u32])
    requires left { from + 8 ≤ length xs.now }
    requires room { n + 8 ≤ length out.old }
    ensures { take (n + 8) out.new ≡ take n out.old ++ chunk from 8 xs.now }
{
    u32x8::from_slice(&xs[from..]).copy_to_slice(&mut out[n..]);
}

// Writes at index n the numbers from `from` on that are below x, four at once as far as that goes,
// and gives the index of the first that is not.
#[inline(always)]
pub fn put_below(xs: &[u32], from: usize, x: u32, n: usize, out: &mut [u32]) -> usize
    requires rising { IsStrictlyIncreasing xs.now }
    requires left { from ≤ length xs.now }
    requires room { n + (length xs.now - from) ≤ length out.old }
    ensures lower { from ≤ result }
    ensures upper { result ≤ length xs.now }
    ensures before { from < result → slice_index xs.now (result - 1) < x }
    ensures found { take (n + (result - from)) out.new
        ≡ take n out.old ++ chunk from (result - from) xs.now }
{
    let mut at = from;
    let mut to = n;
    'fours: while 4 <= xs.len() - at && xs[at + 3] < x {
        put_four(xs, at, to, out);
        at += 4;
        to += 4;
    }
    if 4 <= xs.len() - at {
        // Not all four count, and what stands past those that do is open.
        put_four(xs, at, to, out);
        return at + count_below(xs, at, x);
    }
    'ones: while at < xs.len() && xs[at] < x {
        out[to] = xs[at];
        at += 1;
        to += 1;
    }
    at
}

// Writes at index n what is left of the numbers from `from` on.
#[inline(always)]
pub fn put_rest(xs: &[u32], from: usize, n: usize, out: &mut [u32]) -> usize
    requires left { from ≤ length xs.now }
    requires room { n + (length xs.now - from) ≤ length out.old }
    ensures count { result ≡ n + (length xs.now - from) }
    ensures found { take result out.new ≡ take n out.old ++ drop from xs.now }
{
    let end = n + (xs.len() - from);
    out[n..end].copy_from_slice(&xs[from..]);
    end
}
