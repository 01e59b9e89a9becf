//! Differences of each number to the fourth before it, and the numbers again from them.

ghost use Rattle.pk_lanes.specs.Differences.{Restores};

use crate::vectors::{add, start, subtract, vector};

/// Writes into `ds` the difference of each number of `xs` to the fourth number before it.
///
/// The seed is the four numbers before the first. A difference is taken modulo 2^32, so `restore`
/// undoes it for any numbers.
pub fn differ(seed: &[u32; 4], xs: &[u32; 128], ds: &mut [u32; 128])
    ensures { Restores seed.now ds.new xs.now }
{
    let mut before = start(seed);
    'vectors: for k in 0..32 {
        let here = vector(xs, k);
        subtract(here, before).copy_to_slice(&mut ds[4 * k..]);
        before = here;
    }
}

/// Writes into `xs` the numbers whose differences are `ds`, after the four numbers of the seed.
///
/// The sums are taken modulo 2^32: whether the numbers then rise, `ascending` says.
pub fn restore(seed: &[u32; 4], ds: &[u32; 128], xs: &mut [u32; 128])
    ensures { Restores seed.now ds.now xs.new }
{
    let mut last = start(seed);
    'vectors: for k in 0..32 {
        last = add(vector(ds, k), last);
        last.copy_to_slice(&mut xs[4 * k..]);
    }
}
