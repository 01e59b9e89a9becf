//! The union by a merge of both halves side by side, or by the runs of the longer list.

ghost use Rattle.std.specs.Prelude.{◌≡◌, ◌+◌, ◌-◌, ◌<◌, ◌≤◌, length, take, drop, ◌++◌};
ghost use Rattle.std.specs.List.Sorted.{IsStrictlyIncreasing};
ghost use Rattle.pk_sets.specs.Cursors.{Reaches};
ghost use Rattle.pk_sets.specs.Sets.{union};

use crate::cursor::{Cursor, START};
use crate::finding::{first_from, is_long};
use crate::writing::{one_up_to, put_below, put_rest};

// Writes the lower of two heads, or one of equal ones.
#[inline(always)]
fn unite_one(a: &[u32], b: &[u32], at: Cursor, out: &mut [u32]) -> Cursor
    requires rising_a { IsStrictlyIncreasing a.now }
    requires rising_b { IsStrictlyIncreasing b.now }
    requires left { at.a < length a.now }
    requires right { at.b < length b.now }
    requires room { at.written < length out.old }
    ensures in_a { result.a ≤ at.a + 1 }
    ensures in_b { result.b ≤ at.b + 1 }
    ensures goes_on { at.a + at.b < result.a + result.b }
    ensures written { result.written ≡ at.written + 1 }
    ensures reaches { Reaches union a.now b.now at out.old result out.new }
{
    let x = a[at.a];
    let y = b[at.b];
    out[at.written] = x.min(y);
    Cursor {
        a: at.a + one_up_to(x, y),
        b: at.b + one_up_to(y, x),
        written: at.written + 1,
    }
}

// What is left of both lists, one number after another.
fn unite_rest(a: &[u32], b: &[u32], from: Cursor, out: &mut [u32]) -> usize
    requires rising_a { IsStrictlyIncreasing a.now }
    requires rising_b { IsStrictlyIncreasing b.now }
    requires left { from.a ≤ length a.now }
    requires right { from.b ≤ length b.now }
    requires written { from.written ≤ from.a + from.b }
    requires room { length a.now + length b.now ≤ length out.old }
    ensures within { result ≤ length out.new }
    ensures found { take result out.new
        ≡ take from.written out.old ++ union (drop from.a a.now) (drop from.b b.now) }
{
    let mut at = from;
    'heads: while at.a < a.len() && at.b < b.len() {
        at = unite_one(a, b, at, out);
    }
    let n = put_rest(a, at.a, at.written, out);
    put_rest(b, at.b, n, out)
}

// Four numbers of the union of what is left of both lists.
#[inline(always)]
fn unite_four(a: &[u32], b: &[u32], at: Cursor, out: &mut [u32]) -> Cursor
    requires rising_a { IsStrictlyIncreasing a.now }
    requires rising_b { IsStrictlyIncreasing b.now }
    requires left { at.a + 4 ≤ length a.now }
    requires right { at.b + 4 ≤ length b.now }
    requires room { at.written + 4 ≤ length out.old }
    ensures goes_on { at.a + at.b + 4 ≤ result.a + result.b }
    ensures written { result.written ≡ at.written + 4 }
    ensures reaches { Reaches union a.now b.now at out.old result out.new }
{
    let one = unite_one(a, b, at, out);
    let two = unite_one(a, b, one, out);
    let three = unite_one(a, b, two, out);
    unite_one(a, b, three, out)
}

// Two unions side by side, four numbers of each in turn. A step waits for the cursor that the step
// before gave, and not for that of the other union.
fn unite_two(
    low_a: &[u32],
    low_b: &[u32],
    high_a: &[u32],
    high_b: &[u32],
    low: &mut [u32],
    high: &mut [u32],
) -> (usize, usize)
    requires rising_low_a { IsStrictlyIncreasing low_a.now }
    requires rising_low_b { IsStrictlyIncreasing low_b.now }
    requires rising_high_a { IsStrictlyIncreasing high_a.now }
    requires rising_high_b { IsStrictlyIncreasing high_b.now }
    requires room_low { length low_a.now + length low_b.now ≤ length low.old }
    requires room_high { length high_a.now + length high_b.now ≤ length high.old }
    ensures within_low { result.0 ≤ length low.new }
    ensures within_high { result.1 ≤ length high.new }
    ensures found_low { take result.0 low.new ≡ union low_a.now low_b.now }
    ensures found_high { take result.1 high.new ≡ union high_a.now high_b.now }
{
    let mut in_low = START;
    let mut in_high = START;
    'fours: while 4 <= low_a.len() - in_low.a
        && 4 <= low_b.len() - in_low.b
        && 4 <= high_a.len() - in_high.a
        && 4 <= high_b.len() - in_high.b
    {
        in_low = unite_four(low_a, low_b, in_low, low);
        in_high = unite_four(high_a, high_b, in_high, high);
    }
    let low_count = unite_rest(low_a, low_b, in_low, low);
    let high_count = unite_rest(high_a, high_b, in_high, high);
    (low_count, high_count)
}

// The union of the numbers below the middle one of `a` beside that of the others.
fn unite_halves(a: &[u32], b: &[u32], out: &mut [u32]) -> usize
    requires rising_a { IsStrictlyIncreasing a.now }
    requires rising_b { IsStrictlyIncreasing b.now }
    requires some { 0 < length a.now }
    requires room { length a.now + length b.now ≤ length out.old }
    ensures within { result ≤ length out.new }
    ensures found { take result out.new ≡ union a.now b.now }
{
    let half = a.len() / 2;
    let half_b = first_from(b, a[half]);
    let (low_a, high_a) = a.split_at(half);
    let (low_b, high_b) = b.split_at(half_b);
    let (low, high) = out.split_at_mut(half + half_b);
    let (low_count, high_count) = unite_two(low_a, low_b, high_a, high_b, low, high);
    let start = half + half_b;
    out.copy_within(start..start + high_count, low_count);
    low_count + high_count
}

// Writes the run of `b` below the head of `a`.
#[inline(always)]
fn copy_run(a: &[u32], b: &[u32], at: Cursor, out: &mut [u32]) -> Cursor
    requires rising_a { IsStrictlyIncreasing a.now }
    requires rising_b { IsStrictlyIncreasing b.now }
    requires left { at.a < length a.now }
    requires right { at.b ≤ length b.now }
    requires room { at.written + (length b.now - at.b) ≤ length out.old }
    ensures in_a { result.a ≡ at.a }
    ensures lower { at.b ≤ result.b }
    ensures written { result.written + at.b ≡ at.written + result.b }
    ensures reaches { Reaches union a.now b.now at out.old result out.new }
{
    let end = put_below(b, at.b, a[at.a], at.written, out);
    Cursor {
        a: at.a,
        b: end,
        written: at.written + (end - at.b),
    }
}

// The union by the runs of `b` between the numbers of `a`: the way to take where `b` is much
// longer.
fn unite_runs(a: &[u32], b: &[u32], out: &mut [u32]) -> usize
    requires rising_a { IsStrictlyIncreasing a.now }
    requires rising_b { IsStrictlyIncreasing b.now }
    requires room { length a.now + length b.now ≤ length out.old }
    ensures within { result ≤ length out.new }
    ensures found { take result out.new ≡ union a.now b.now }
{
    let mut at = START;
    'runs: while at.a < a.len() && at.b < b.len() {
        at = copy_run(a, b, at, out);
        if at.b < b.len() {
            at = unite_one(a, b, at, out);
        }
    }
    unite_rest(a, b, at, out)
}

/// Writes into `out` the numbers that are in `a` or in `b`, each once.
///
/// Both lists rise strictly, and `out` has room for the sum of their lengths. Answers how many
/// numbers there are; what stands in `out` past them is open.
pub fn either(a: &[u32], b: &[u32], out: &mut [u32]) -> usize
    requires rising_a { IsStrictlyIncreasing a.now }
    requires rising_b { IsStrictlyIncreasing b.now }
    requires room { length a.now + length b.now ≤ length out.old }
    ensures within { result ≤ length out.new }
    ensures found { take result out.new ≡ union a.now b.now }
{
    if is_long(b.len(), a.len()) {
        return unite_runs(a, b, out);
    }
    if is_long(a.len(), b.len()) {
        return unite_runs(b, a, out);
    }
    // In few numbers, the search for the halves costs more than they save.
    if a.len() < 32 {
        return unite_rest(a, b, START, out);
    }
    unite_halves(a, b, out)
}
