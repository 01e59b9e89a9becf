//! The intersection, by the way that the lengths ask for.

ghost use Rattle.std.specs.Prelude.{◌≡◌, ◌*◌, ◌<◌, ◌≤◌, ◌↔◌, IsTrue, length, take, min};
ghost use Rattle.std.specs.List.Sorted.{IsStrictlyIncreasing};
ghost use Rattle.pk_sets.specs.Sets.{intersection};

use crate::galloping::both_gallop;
use crate::merging::both_merge;

// Whether the longer is more than 50 times the shorter. The product could pass what a usize holds.
fn is_far(shorter: usize, longer: usize) -> bool
    ensures { IsTrue result ↔ (50 * shorter < longer) }
{
    shorter < longer / 50 || (shorter == longer / 50 && longer % 50 > 0)
}

/// Writes into `out` the numbers that are both in `a` and in `b`: by a gallop where one list is
/// more than 50 times as long as the other, else by a merge.
///
/// Both lists rise strictly, and `out` has room for the shorter one. Answers how many numbers there
/// are; what stands in `out` past them is open.
pub fn both(a: &[u32], b: &[u32], out: &mut [u32]) -> usize
    requires rising_a { IsStrictlyIncreasing a.now }
    requires rising_b { IsStrictlyIncreasing b.now }
    requires room { min (length a.now) (length b.now) ≤ length out.old }
    ensures within { result ≤ length out.new }
    ensures found { take result out.new ≡ intersection a.now b.now }
{
    if is_far(a.len(), b.len()) {
        return both_gallop(a, b, out);
    }
    if is_far(b.len(), a.len()) {
        return both_gallop(b, a, out);
    }
    both_merge(a, b, out)
}
