//! The bits of a hash in the lanes of a block.

ghost use Rattle.std.specs.Prelude.{◌≤◌, ◌+◌, ◌↔◌, IsTrue, length};
ghost use Rattle.pk_filter.specs.Bits.{Grows, HasBits};

use crate::hash::WordHash;

/// Whether the bits of a hash are set in the block that begins there. All lanes are looked at, so
/// that nothing branches on what they have.
#[inline(always)]
pub(crate) fn has_bits(lanes: &[u32], start: usize, hash: WordHash) -> bool
    requires { start + 8 ≤ length lanes.now }
    ensures { IsTrue result ↔ HasBits lanes.now start hash }
{
    let mut all = true;
    'asked: for lane in 0..8 {
        let mask = hash.mask(lane);
        let here = lanes[start + lane] & mask == mask;
        all = all & here;
    }
    all
}

/// Sets them.
pub(crate) fn set_bits(lanes: &mut [u32], start: usize, hash: WordHash)
    requires { start + 8 ≤ length lanes.old }
    ensures has { HasBits lanes.new start hash }
    ensures grows { Grows lanes.old lanes.new }
{
    'set: for lane in 0..8 {
        lanes[start + lane] |= hash.mask(lane);
    }
}
