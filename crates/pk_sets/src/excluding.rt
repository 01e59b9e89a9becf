//! The difference by a merge of four numbers against four, or by the runs of the longer list.

ghost use Rattle.std.specs.Prelude.{◌≡◌, ℕ, List, ◌+◌, ◌-◌, ◌/◌, ◌%◌, ◌^◌, ◌<◌, ◌≤◌, ◌++◌};
ghost use Rattle.std.specs.Prelude.{length, slice_index, take, drop, cond};
ghost use Rattle.std.specs.Simd.Lanes.{chunk};
ghost use Rattle.std.specs.List.Sorted.{IsStrictlyIncreasing};
ghost use Rattle.pk_sets.specs.Cursors.{Reaches};
ghost use Rattle.pk_sets.specs.Sets.{difference, has};

use crate::cursor::{Cursor, START};
use crate::finding::{is_long, next_from};
use crate::gapless::{exclude_gapless, is_gapless};
use crate::merging::shared;
use crate::writing::{keep, one_up_to, put_below, put_four, put_rest};
use std::hint::select_unpredictable;
use std::simd::prelude::*;

// Writes the head of `a` where it is below that of `b`.
#[inline(always)]
fn exclude_one(a: &[u32], b: &[u32], at: Cursor, out: &mut [u32]) -> Cursor
    requires rising_a { IsStrictlyIncreasing a.now }
    requires rising_b { IsStrictlyIncreasing b.now }
    requires left { at.a < length a.now }
    requires right { at.b < length b.now }
    requires room { at.written < length out.old }
    ensures in_a { result.a ≤ at.a + 1 }
    ensures in_b { result.b ≤ at.b + 1 }
    ensures goes_on { at.a + at.b < result.a + result.b }
    ensures written { result.written + at.a ≤ at.written + result.a }
    ensures reaches { Reaches difference a.now b.now at out.old result out.new }
{
    let x = a[at.a];
    let y = b[at.b];
    let past = one_up_to(y, x);
    Cursor {
        a: at.a + one_up_to(x, y),
        b: at.b + past,
        written: keep(x, 1 - past as u64, at.written, out),
    }
}

// What is left of `a`, one number after another.
pub fn exclude_rest(a: &[u32], b: &[u32], from: Cursor, out: &mut [u32]) -> usize
    requires rising_a { IsStrictlyIncreasing a.now }
    requires rising_b { IsStrictlyIncreasing b.now }
    requires left { from.a ≤ length a.now }
    requires right { from.b ≤ length b.now }
    requires written { from.written ≤ from.a }
    requires room { length a.now ≤ length out.old }
    ensures within { result ≤ length out.new }
    ensures found { take result out.new
        ≡ take from.written out.old ++ difference (drop from.a a.now) (drop from.b b.now) }
{
    let mut at = from;
    'heads: while at.a < a.len() && at.b < b.len() {
        at = exclude_one(a, b, at, out);
    }
    put_rest(a, at.a, at.written, out)
}

// Four single steps.
#[inline(always)]
fn exclude_four(a: &[u32], b: &[u32], at: Cursor, out: &mut [u32]) -> Cursor
    requires rising_a { IsStrictlyIncreasing a.now }
    requires rising_b { IsStrictlyIncreasing b.now }
    requires left { at.a + 4 ≤ length a.now }
    requires right { at.b + 4 ≤ length b.now }
    requires written { at.written ≤ at.a }
    requires room { length a.now ≤ length out.old }
    ensures goes_on { at.a + at.b < result.a + result.b }
    ensures written { result.written ≤ result.a }
    ensures reaches { Reaches difference a.now b.now at out.old result out.new }
{
    let one = exclude_one(a, b, at, out);
    let two = exclude_one(a, b, one, out);
    let three = exclude_one(a, b, two, out);
    exclude_one(a, b, three, out)
}

// What is left of `a`, four numbers at once where they stand below the other list.
fn exclude_fours(a: &[u32], b: &[u32], from: Cursor, out: &mut [u32]) -> usize
    requires rising_a { IsStrictlyIncreasing a.now }
    requires rising_b { IsStrictlyIncreasing b.now }
    requires left { from.a ≤ length a.now }
    requires right { from.b ≤ length b.now }
    requires written { from.written ≤ from.a }
    requires room { length a.now ≤ length out.old }
    ensures within { result ≤ length out.new }
    ensures found { take result out.new
        ≡ take from.written out.old ++ difference (drop from.a a.now) (drop from.b b.now) }
{
    let mut at = from;
    'fours: while 4 <= a.len() - at.a && 4 <= b.len() - at.b {
        if b[at.b + 3] < a[at.a] {
            at.b += 4;
        } else if a[at.a + 3] < b[at.b] {
            put_four(a, at.a, at.written, out);
            at.a += 4;
            at.written += 4;
        } else {
            at = exclude_four(a, b, at, out);
        }
    }
    exclude_rest(a, b, at, out)
}

// Writes those of four numbers of `a` whose bit is 0.
#[inline(always)]
fn exclude_hits(a: &[u32], i: usize, hits: u64, n: usize, out: &mut [u32]) -> usize
    requires left { i + 4 ≤ length a.now }
    requires room { n + 4 ≤ length out.old }
    ensures at_least { n ≤ result }
    ensures at_most { result ≤ n + 4 }
    ensures found { (ys : List ℕ)
        → ((t : ℕ) → t < 4 → hits / 2 ^ t % 2 ≡ cond (has ys (slice_index a.now (i + t))) 1 0)
        → take result out.new ≡ take n out.old ++ difference (chunk i 4 a.now) ys }
{
    let n = keep(a[i], 1 - (hits & 1), n, out);
    let n = keep(a[i + 1], 1 - (hits >> 1 & 1), n, out);
    let n = keep(a[i + 2], 1 - (hits >> 2 & 1), n, out);
    keep(a[i + 3], 1 - (hits >> 3 & 1), n, out)
}

// The difference by a merge of four against four, with no branch on which side goes on.
fn exclude_even(a: &[u32], b: &[u32], out: &mut [u32]) -> usize
    requires rising_a { IsStrictlyIncreasing a.now }
    requires rising_b { IsStrictlyIncreasing b.now }
    requires room { length a.now ≤ length out.old }
    ensures within { result ≤ length out.new }
    ensures found { take result out.new ≡ difference a.now b.now }
{
    let mut i = 0;
    let mut j = 0;
    let mut n = 0;
    // Which of the four at i are among the numbers of b before j, and an index with none before it.
    let mut seen = 0;
    let mut start = 0;
    'fours: while 4 <= a.len() - i && 4 <= b.len() - j {
        let hits = seen | shared(u32x4::from_slice(&a[i..]), u32x4::from_slice(&b[j..]));
        let kept = exclude_hits(a, i, hits, n, out);
        let x = a[i + 3];
        let y = b[j + 3];
        let done = x <= y;
        n = select_unpredictable(done, kept, n);
        seen = select_unpredictable(done, 0, hits);
        start = select_unpredictable(done, j, start);
        i += select_unpredictable(done, 4, 0);
        j += select_unpredictable(y <= x, 4, 0);
    }
    let from = Cursor {
        a: i,
        b: start,
        written: n,
    };
    exclude_fours(a, b, from, out)
}

// The difference by a merge of four against four that branches on which side goes on: the way to
// take where `b` is longer, since then most branches go one way.
fn exclude_foreseen(a: &[u32], b: &[u32], out: &mut [u32]) -> usize
    requires rising_a { IsStrictlyIncreasing a.now }
    requires rising_b { IsStrictlyIncreasing b.now }
    requires room { length a.now ≤ length out.old }
    ensures within { result ≤ length out.new }
    ensures found { take result out.new ≡ difference a.now b.now }
{
    let mut i = 0;
    let mut j = 0;
    let mut n = 0;
    // Which of the four at i are among the numbers of b before j, and an index with none before it.
    let mut seen = 0;
    let mut start = 0;
    'fours: while 4 <= a.len() - i && 4 <= b.len() - j {
        let hits = seen | shared(u32x4::from_slice(&a[i..]), u32x4::from_slice(&b[j..]));
        if b[j + 3] < a[i] {
            j += 4;
            seen = 0;
            start = j;
        } else if a[i + 3] <= b[j + 3] {
            n = exclude_hits(a, i, hits, n, out);
            i += 4;
            seen = 0;
            start = j;
        } else {
            j += 4;
            seen = hits;
        }
    }
    let from = Cursor {
        a: i,
        b: start,
        written: n,
    };
    exclude_fours(a, b, from, out)
}

// Writes the run of `a` below the head of `b`.
#[inline(always)]
fn keep_run(a: &[u32], b: &[u32], at: Cursor, out: &mut [u32]) -> Cursor
    requires rising_a { IsStrictlyIncreasing a.now }
    requires rising_b { IsStrictlyIncreasing b.now }
    requires left { at.a ≤ length a.now }
    requires right { at.b < length b.now }
    requires room { at.written + (length a.now - at.a) ≤ length out.old }
    ensures lower { at.a ≤ result.a }
    ensures in_b { result.b ≡ at.b }
    ensures written { result.written + at.a ≡ at.written + result.a }
    ensures reaches { Reaches difference a.now b.now at out.old result out.new }
{
    let end = put_below(a, at.a, b[at.b], at.written, out);
    Cursor {
        a: end,
        b: at.b,
        written: at.written + (end - at.a),
    }
}

// The difference by the runs of `a` between the numbers of `b`: the way to take where `a` is much
// longer.
fn exclude_runs(a: &[u32], b: &[u32], out: &mut [u32]) -> usize
    requires rising_a { IsStrictlyIncreasing a.now }
    requires rising_b { IsStrictlyIncreasing b.now }
    requires room { length a.now ≤ length out.old }
    ensures within { result ≤ length out.new }
    ensures found { take result out.new ≡ difference a.now b.now }
{
    let mut at = START;
    'runs: while at.a < a.len() && at.b < b.len() {
        at = keep_run(a, b, at, out);
        if at.a < a.len() {
            at = exclude_one(a, b, at, out);
        }
    }
    exclude_rest(a, b, at, out)
}

// Passes the run of `b` below the head of `a`.
#[inline(always)]
fn pass_run(a: &[u32], b: &[u32], at: Cursor) -> Cursor
    requires rising_a { IsStrictlyIncreasing a.now }
    requires rising_b { IsStrictlyIncreasing b.now }
    requires left { at.a < length a.now }
    requires right { at.b ≤ length b.now }
    ensures in_a { result.a ≡ at.a }
    ensures lower { at.b ≤ result.b }
    ensures written { result.written ≡ at.written }
    ensures reaches { (out : List ℕ) → Reaches difference a.now b.now at out result out }
{
    Cursor {
        a: at.a,
        b: next_from(b, at.b, a[at.a]),
        written: at.written,
    }
}

// The difference that passes the runs of `b` between the numbers of `a`: the way to take where `b`
// is much longer.
fn exclude_passing(a: &[u32], b: &[u32], out: &mut [u32]) -> usize
    requires rising_a { IsStrictlyIncreasing a.now }
    requires rising_b { IsStrictlyIncreasing b.now }
    requires room { length a.now ≤ length out.old }
    ensures within { result ≤ length out.new }
    ensures found { take result out.new ≡ difference a.now b.now }
{
    let mut at = START;
    'runs: while at.a < a.len() && at.b < b.len() {
        at = pass_run(a, b, at);
        if at.b < b.len() {
            at = exclude_one(a, b, at, out);
        }
    }
    exclude_rest(a, b, at, out)
}

/// Writes into `out` the numbers of `a` that are not in `b`.
///
/// Both lists rise strictly, and `out` has room for `a`. Answers how many numbers there are; what
/// stands in `out` past them is open.
pub fn without(a: &[u32], b: &[u32], out: &mut [u32]) -> usize
    requires rising_a { IsStrictlyIncreasing a.now }
    requires rising_b { IsStrictlyIncreasing b.now }
    requires room { length a.now ≤ length out.old }
    ensures within { result ≤ length out.new }
    ensures found { take result out.new ≡ difference a.now b.now }
{
    if is_long(a.len(), b.len()) {
        return exclude_runs(a, b, out);
    }
    if is_long(b.len() / 4, a.len()) {
        return exclude_passing(a, b, out);
    }
    if is_gapless(a) {
        return exclude_gapless(a, b, out);
    }
    if is_long(b.len(), a.len()) {
        return exclude_foreseen(a, b, out);
    }
    exclude_even(a, b, out)
}
