//! The difference where no number of the longer list is missing: each tells where it stands.

ghost use Rattle.std.specs.Prelude.{◌≡◌, ◌+◌, ◌<◌, ◌≤◌, ◌↔◌, IsTrue, length, take};
ghost use Rattle.std.specs.List.Sorted.{IsStrictlyIncreasing};
ghost use Rattle.pk_sets.specs.Cursors.{Reaches};
ghost use Rattle.pk_sets.specs.Gapless.{IsGapless};
ghost use Rattle.pk_sets.specs.Sets.{difference};

use crate::cursor::{Cursor, START};
use crate::excluding::exclude_rest;
use crate::writing::put_eight;

// Whether no number between the first and the last is missing.
pub fn is_gapless(xs: &[u32]) -> bool
    requires { IsStrictlyIncreasing xs.now }
    ensures { IsTrue result ↔ IsGapless xs.now }
{
    if xs.len() < 2 {
        return true;
    }
    let last = xs.len() - 1;
    (xs[last] - xs[0]) as usize == last
}

// Writes the next eight numbers of `a`, of which those below the head of `b` count. The head is
// passed where it is among the eight, or before them. Where the next step begins does not wait for
// this one: it follows from the head alone.
#[inline(always)]
fn exclude_eight(a: &[u32], b: &[u32], at: Cursor, out: &mut [u32]) -> Cursor
    requires rising_a { IsStrictlyIncreasing a.now }
    requires rising_b { IsStrictlyIncreasing b.now }
    requires gapless { IsGapless a.now }
    requires left { at.a + 8 ≤ length a.now }
    requires right { at.b < length b.now }
    requires room { at.written + 8 ≤ length out.old }
    ensures goes_on { at.a + at.b < result.a + result.b }
    ensures written { result.written + at.a ≤ at.written + result.a }
    ensures reaches { Reaches difference a.now b.now at out.old result out.new }
{
    put_eight(a, at.a, at.written, out);
    let head = b[at.b] as usize;
    let first = a[0] as usize;
    if head < first + at.a {
        return Cursor { b: at.b + 1, ..at };
    }
    let place = head - first;
    if at.a + 8 <= place {
        return Cursor {
            a: at.a + 8,
            b: at.b,
            written: at.written + 8,
        };
    }
    Cursor {
        a: place + 1,
        b: at.b + 1,
        written: at.written + (place - at.a),
    }
}

/// The difference by where in `a` each number of `b` stands.
pub fn exclude_gapless(a: &[u32], b: &[u32], out: &mut [u32]) -> usize
    requires rising_a { IsStrictlyIncreasing a.now }
    requires rising_b { IsStrictlyIncreasing b.now }
    requires gapless { IsGapless a.now }
    requires room { length a.now ≤ length out.old }
    ensures within { result ≤ length out.new }
    ensures found { take result out.new ≡ difference a.now b.now }
{
    let mut at = START;
    'eights: while 8 <= a.len() - at.a && at.b < b.len() {
        at = exclude_eight(a, b, at, out);
    }
    exclude_rest(a, b, at, out)
}
