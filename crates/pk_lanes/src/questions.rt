//! Questions about a block: how wide its numbers are, and whether they rise.

ghost use Rattle.std.specs.Prelude.{◌≡◌, ℕ, ◌+◌, ◌*◌, ◌^◌, ◌<◌, ◌≤◌, ◌++◌, ◌↔◌};
ghost use Rattle.std.specs.Prelude.{slice_index, IsTrue};
ghost use Rattle.pk_lanes.specs.Packed.{FitIn};
ghost use Rattle.pk_lanes.specs.Differences.{IsAscending};

use crate::vectors::{either, vector};
use std::simd::prelude::*;

// The bit length of the greatest of four.
#[inline(always)]
fn greatest(all: u32x4) -> u32
    ensures fits { (c : ℕ) → c < 4 → slice_index all c < 2 ^ result }
    ensures least { (b : ℕ) → ((c : ℕ) → c < 4 → slice_index all c < 2 ^ b) → result ≤ b }
    ensures most { result ≤ 32 }
{
    32 - all.reduce_or().leading_zeros()
}

/// The bit length of the greatest number, 0 where all are 0: the least width that fits the block.
pub fn width(xs: &[u32; 128]) -> u32
    ensures fits { FitIn xs.now result }
    ensures least { (b : ℕ) → FitIn xs.now b → result ≤ b }
    ensures most { result ≤ 32 }
{
    let mut all = u32x4::splat(0);
    'vectors: for k in 0..32 {
        all = either(all, vector(xs, k));
    }
    greatest(all)
}

// Whether each lane of `here` is above that of `before`.
#[inline(always)]
fn rises(before: u32x4, here: u32x4) -> bool
    ensures { IsTrue result ↔ ((c : ℕ) → c < 4 → slice_index before c < slice_index here c) }
{
    before.simd_lt(here).all()
}

// The four numbers that stand one index before those of vector k.
#[inline(always)]
fn before(seed: &[u32; 4], xs: &[u32; 128], k: usize) -> u32x4
    requires { k < 32 }
    ensures { (c : ℕ) → c < 4
        → slice_index result c ≡ slice_index (seed.now ++ xs.now) (3 + (4 * k + c)) }
{
    if k == 0 {
        return u32x4::from_array([seed[3], xs[0], xs[1], xs[2]]);
    }
    u32x4::from_slice(&xs[4 * k - 1..])
}

/// Whether the seed's last number and then the 128 numbers rise strictly.
pub fn ascending(seed: &[u32; 4], xs: &[u32; 128]) -> bool
    ensures { IsTrue result ↔ IsAscending seed.now xs.now }
{
    let mut fine = true;
    'vectors: for k in 0..32 {
        let here = rises(before(seed, xs, k), vector(xs, k));
        fine = fine & here;
    }
    fine
}
