//! The packed bytes of a block of a list that lies in a source.

ghost use Rattle.std.specs.Prelude.{◌≡◌, ◌+◌, ◌*◌, ◌-◌, ◌%◌, ◌<◌, ◌≤◌};
ghost use Rattle.std.specs.Prelude.{ℕ, List, length, IfOk, IfErr, OnOk, MatchResult};
ghost use Rattle.pk_posting.specs.Reading.{IsRestored};
ghost use Rattle.pk_posting.specs.Parts.{Fits, HasShape, IsPackedAt, IsWithin, LiesIn, bytes_at};
ghost use Rattle.pk_posting.specs.Frames.{IsRead};

use crate::fields::{ListPlace, Shape};
use crate::lent::words_in;
use crate::source::{ByteSource, SourceFault};
use pk_lanes::unpack_sums;

// Where a block's packed bytes lie.
#[derive(Clone, Copy)]
pub(crate) struct PackedPlace {
    // The four numbers before the block.
    pub(crate) seed: [u32; 4],
    // Counted from the list's start.
    pub(crate) at: u32,
    pub(crate) width: u32,
}

// Where block k lies. One stretch of entries tells it: the numbers before the block end the entry
// k - 1, and the block goes from its own offset to that of the block after it, or to the tail.
pub(crate) fn packed_in<S: ByteSource>(
    source: &mut S,
    place: ListPlace,
    shape: Shape,
    k: u32,
) -> Result<PackedPlace, SourceFault>
    requires lies { LiesIn place (length (S.content source.old)) }
    requires fits { Fits shape place }
    requires one { k < shape.blocks }
    ensures spelled { S.honest → (ys : List ℕ)
        → HasShape (bytes_at (S.content source.old) place) shape ys
        → MatchResult result
        (IsPackedAt (bytes_at (S.content source.old) place) shape.blocks k ys)
        (λ e. e ≡ SourceFault.Disk) }
    ensures inside { IfOk result (IsWithin place.bytes) }
    ensures left { IsRead S.ByteSource 1 result source.old source.new }
{
    let from = 4u32.saturating_sub(4 * k);
    let to = last_word(k, shape.blocks);
    let words = words_in(source, place, k, from, to)?;
    let base = 4 + 20 * shape.blocks;
    let room = shape.tail - base;
    let start = words[4];
    let end = end_of(room, k, shape.blocks, words[9]);
    if end < start || room < end || end - start > 512 {
        return Err(SourceFault::Damaged);
    }
    Ok(PackedPlace {
        seed: [words[0], words[1], words[2], words[3]],
        at: base + start,
        width: (end - start) / 16,
    })
}

// The words that are read: up to the offset of the block, or that of the block after it.
fn last_word(k: u32, blocks: u32) -> u32
    requires { k < blocks }
    ensures last { k + 1 ≡ blocks → result ≡ 5 }
    ensures other { k + 1 < blocks → result ≡ 10 }
    ensures order { (5 ≤ result) × (result ≤ 10) }
{
    if k + 1 == blocks {
        return 5;
    }
    10
}

// Where block k ends, counted from the start of the first metablock: where the tail begins, or
// where the next block does, less the sixteen widths before that if it begins a metablock.
fn end_of(tail: u32, k: u32, blocks: u32, next: u32) -> u32
    requires { k < blocks }
    ensures last { k + 1 ≡ blocks → result ≡ tail }
    ensures row { k + 1 < blocks → (k + 1) % 16 ≡ 0 → result ≡ next - 16 }
    ensures other { k + 1 < blocks → 0 < (k + 1) % 16 → result ≡ next }
{
    if k + 1 == blocks {
        return tail;
    }
    if (k + 1) % 16 == 0 {
        return next.saturating_sub(16);
    }
    next
}

// The numbers that a block's packed bytes restore.
pub(crate) fn unpack_in<S: ByteSource>(
    source: &mut S,
    place: ListPlace,
    packed: PackedPlace,
    xs: &mut [u32; 128],
) -> Result<(), SourceFault>
    requires lies { LiesIn place (length (S.content source.old)) }
    requires inside { IsWithin place.bytes packed }
    ensures value { S.honest → OnOk result (IsRestored (bytes_at (S.content source.old) place)
        packed.at packed.width packed.seed xs.new) }
    ensures fault { IfErr result (λ e. e ≡ SourceFault.Disk) }
    ensures left { IsRead S.ByteSource 1 result source.old source.new }
{
    let stretch = source.bytes(place.at + packed.at, 16 * packed.width)?;
    unpack_sums(stretch, packed.width, &packed.seed, xs);
    Ok(())
}
