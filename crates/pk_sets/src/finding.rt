//! Where the numbers of a rising list are no longer below a number.

ghost use Rattle.std.specs.Prelude.{◌+◌, ◌-◌, ◌*◌, ◌<◌, ◌≤◌, ◌↔◌, IsTrue, length, slice_index};
ghost use Rattle.std.specs.List.Sorted.{IsStrictlyIncreasing};

// The index of the first number that is not below x, by halving.
pub fn first_from(xs: &[u32], x: u32) -> usize
    requires rising { IsStrictlyIncreasing xs.now }
    ensures upper { result ≤ length xs.now }
    ensures before { 0 < result → slice_index xs.now (result - 1) < x }
    ensures here { result < length xs.now → x ≤ slice_index xs.now result }
{
    let mut low = 0;
    let mut high = xs.len();
    'halves: while low < high {
        let mid = low + (high - low) / 2;
        if xs[mid] < x {
            low = mid + 1;
        } else {
            high = mid;
        }
    }
    low
}

// How many of the three numbers from `from` on are below x, without a branch.
#[inline(always)]
pub fn count_below(xs: &[u32], from: usize, x: u32) -> usize
    requires rising { IsStrictlyIncreasing xs.now }
    requires left { from + 4 ≤ length xs.now }
    ensures at_most { result ≤ 3 }
    ensures before { 0 < result → slice_index xs.now (from + result - 1) < x }
{
    (xs[from] < x) as usize + (xs[from + 1] < x) as usize + (xs[from + 2] < x) as usize
}

// The index of the first number from `from` on that is not below x, four at once as far as that
// goes.
#[inline(always)]
pub fn next_from(xs: &[u32], from: usize, x: u32) -> usize
    requires rising { IsStrictlyIncreasing xs.now }
    requires left { from ≤ length xs.now }
    ensures lower { from ≤ result }
    ensures upper { result ≤ length xs.now }
    ensures before { from < result → slice_index xs.now (result - 1) < x }
{
    let mut at = from;
    'fours: while 4 <= xs.len() - at && xs[at + 3] < x {
        at += 4;
    }
    if 4 <= xs.len() - at {
        return at + count_below(xs, at, x);
    }
    'ones: while at < xs.len() && xs[at] < x {
        at += 1;
    }
    at
}

// Whether a list is so much longer than the other that its numbers come in long runs: whether it
// has 8 numbers for each of the other, and 8 more.
pub fn is_long(longer: usize, shorter: usize) -> bool
    ensures { IsTrue result ↔ (8 * (shorter + 1) ≤ longer) }
{
    shorter < longer / 8
}
