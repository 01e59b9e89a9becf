//! The intersection by a merge of four numbers against four.

ghost use Rattle.std.specs.Prelude.{◌≡◌, ℕ, ◌+◌, ◌/◌, ◌%◌, ◌^◌, ◌<◌, ◌≤◌, length, slice_index};
ghost use Rattle.std.specs.Prelude.{take, drop, ◌++◌, min, cond};
ghost use Rattle.std.specs.Simd.Lanes.{chunk};
ghost use Rattle.std.specs.List.Sorted.{IsStrictlyIncreasing};
ghost use Rattle.pk_sets.specs.Sets.{intersection, has};

use crate::writing::keep;
use std::simd::prelude::*;

// Which of the four of `va` are among the four of `vb`, a bit each.
#[inline(always)]
pub fn shared(va: u32x4, vb: u32x4) -> u64
    ensures { (t : ℕ) → t < 4 → result / 2 ^ t % 2 ≡ cond (has vb (slice_index va t)) 1 0 }
{
    (va.simd_eq(vb)
        | va.simd_eq(vb.rotate_elements_left::<1>())
        | va.simd_eq(vb.rotate_elements_left::<2>())
        | va.simd_eq(vb.rotate_elements_left::<3>())).to_bitmask()
}

// Writes the numbers that are both among four of `a` and among four of `b`.
#[inline(always)]
fn meet(a: &[u32], b: &[u32], i: usize, j: usize, n: usize, out: &mut [u32]) -> usize
    requires left { i + 4 ≤ length a.now }
    requires right { j + 4 ≤ length b.now }
    requires room { n + 4 ≤ length out.old }
    ensures within { result ≤ length out.new }
    ensures found { take result out.new
        ≡ take n out.old ++ intersection (chunk i 4 a.now) (chunk j 4 b.now) }
{
    let hits = shared(u32x4::from_slice(&a[i..]), u32x4::from_slice(&b[j..]));
    let n = keep(a[i], hits & 1, n, out);
    let n = keep(a[i + 1], hits >> 1 & 1, n, out);
    let n = keep(a[i + 2], hits >> 2 & 1, n, out);
    keep(a[i + 3], hits >> 3 & 1, n, out)
}

// What is left from the indices `from` and `start` on, one number after another.
pub fn merge_rest(
    a: &[u32],
    b: &[u32],
    from: usize,
    start: usize,
    place: usize,
    out: &mut [u32],
) -> usize
    requires rising_a { IsStrictlyIncreasing a.now }
    requires rising_b { IsStrictlyIncreasing b.now }
    requires left { from ≤ length a.now }
    requires right { start ≤ length b.now }
    requires room { place
        + length (intersection (drop from a.now) (drop start b.now)) ≤ length out.old }
    ensures within { result ≤ length out.new }
    ensures found { take result out.new
        ≡ take place out.old ++ intersection (drop from a.now) (drop start b.now) }
{
    let mut i = from;
    let mut j = start;
    let mut n = place;
    'ends: while i < a.len() && j < b.len() {
        let x = a[i];
        let y = b[j];
        if x < y {
            i += 1;
        } else if y < x {
            j += 1;
        } else {
            out[n] = x;
            n += 1;
            i += 1;
            j += 1;
        }
    }
    n
}

/// Writes into `out` the numbers that are both in `a` and in `b`, by a merge of four against four.
///
/// Both lists rise strictly, and `out` has room for the shorter one. Answers how many numbers there
/// are; what stands in `out` past them is open.
pub fn both_merge(a: &[u32], b: &[u32], out: &mut [u32]) -> usize
    requires rising_a { IsStrictlyIncreasing a.now }
    requires rising_b { IsStrictlyIncreasing b.now }
    requires room { min (length a.now) (length b.now) ≤ length out.old }
    ensures within { result ≤ length out.new }
    ensures found { take result out.new ≡ intersection a.now b.now }
{
    let mut i = 0;
    let mut j = 0;
    let mut n = 0;
    'fours: while i < a.len()
        && 4 <= a.len() - i
        && j < b.len()
        && 4 <= b.len() - j
        && n < out.len()
        && 4 <= out.len() - n
    {
        n = meet(a, b, i, j, n, out);
        let x = a[i + 3];
        let y = b[j + 3];
        i += if x <= y { 4 } else { 0 };
        j += if y <= x { 4 } else { 0 };
    }
    merge_rest(a, b, i, j, n, out)
}
