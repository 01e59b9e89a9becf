//! One posting list, taken out block by block: through the cache of decoded blocks, or past it.
ghost use Rattle.std.specs.Prelude.{◌≡◌, ◌*◌, ◌++◌, ℕ, List, IsOk, OnOk, length, drop, take};
ghost use Rattle.pk_cache.specs.Keys.{Rises};
ghost use Rattle.pk_posting.specs.Parts.{Fits, HasShape, LiesIn, bytes_at};
ghost use Rattle.pk_posting.specs.Frames.{ReadsSource};
ghost use Rattle.pk_lookup.specs.Blocks.{AreBlocks, RisesInBlocks};
ghost use Rattle.pk_lookup.specs.Cached.{AddsOnlyOf, KeepsBlocksOf};
ghost use Rattle.pk_lookup.specs.Lies.{IsOpened};
ghost use Rattle.pk_lookup.specs.Matching.{ListLies};
ghost use Rattle.pk_segment.specs.Puts.{PutsAs};
ghost use Rattle.pk_segment.specs.Reading.{CountsReads};

use pk_cache::{BlockCache, BlockKey};
use pk_posting::{ByteSource, ListPlace, Shape, block_in, tail_in};
use pk_segment::ReadFault;
use std::alloc::AllocError;

// Which list: the id of its segment, and where it lies there.
#[derive(Clone, Copy)]
pub(crate) struct ListKey {
    pub(crate) segment: u64,
    pub(crate) place: ListPlace,
}

// Puts a block behind whole blocks.
fn put_block(numbers: &[u32; 128], out: &mut Vec<u32>) -> Result<(), AllocError>
    requires rises { Rises numbers.now }
    requires whole { AreBlocks out.old.items }
    ensures items { OnOk result (out.new.items ≡ out.old.items ++ numbers.now) }
    ensures whole { OnOk result (AreBlocks out.new.items) }
{
    out.extend_from_slice(numbers)?;
    Ok(())
}

// Puts the numbers of the whole blocks of a list behind those that are there: what is kept of them,
// else what the source gives.
fn put_blocks<S: ByteSource>(
    source: &mut S,
    cache: &mut BlockCache,
    list: ListKey,
    shape: Shape,
    out: &mut Vec<u32>,
) -> Result<(), ReadFault>
    requires lies { LiesIn list.place (length (S.content source.old)) }
    requires fits { Fits shape list.place }
    requires whole { AreBlocks out.old.items }
    ensures numbers { S.honest → (xs : List ℕ)
        → HasShape (bytes_at (S.content source.old) list.place) shape xs
        → KeepsBlocksOf list.segment (S.content source.old) (Some cache.old)
        → PutsAs (out.old.items ++ take (128 * shape.blocks) xs) out.new.items result }
    ensures cached { S.honest → (xs : List ℕ)
        → HasShape (bytes_at (S.content source.old) list.place) shape xs
        → KeepsBlocksOf list.segment (S.content source.old) (Some cache.old)
        → KeepsBlocksOf list.segment (S.content source.old) (Some cache.new) }
    ensures adds { AddsOnlyOf list.segment (Some cache.old) (Some cache.new) }
    ensures whole { OnOk result (AreBlocks out.new.items) }
    ensures left { ReadsSource S.ByteSource CountsReads result source.old source.new }
{
    for block in 0..shape.blocks {
        let key = BlockKey {
            segment: list.segment,
            at: list.place.at,
            block,
        };
        let numbers = cache.block(key, list.place, shape, source)?;
        put_block(&numbers, out)?;
    }
    Ok(())
}

// Puts the numbers of the whole blocks of a list behind those that are there, as the source gives
// them.
fn put_decoded<S: ByteSource>(
    source: &mut S,
    place: ListPlace,
    shape: Shape,
    out: &mut Vec<u32>,
) -> Result<(), ReadFault>
    requires lies { LiesIn place (length (S.content source.old)) }
    requires fits { Fits shape place }
    requires whole { AreBlocks out.old.items }
    ensures numbers { S.honest → (xs : List ℕ)
        → HasShape (bytes_at (S.content source.old) place) shape xs
        → PutsAs (out.old.items ++ take (128 * shape.blocks) xs) out.new.items result }
    ensures whole { OnOk result (AreBlocks out.new.items) }
    ensures left { ReadsSource S.ByteSource CountsReads result source.old source.new }
{
    let mut numbers = [0; 128];
    for block in 0..shape.blocks {
        block_in(source, place, shape, block, &mut numbers)?;
        put_block(&numbers, out)?;
    }
    Ok(())
}

// Puts the numbers after the whole blocks of a list behind those that are there.
fn put_tail<S: ByteSource>(
    source: &mut S,
    place: ListPlace,
    shape: Shape,
    out: &mut Vec<u32>,
) -> Result<(), ReadFault>
    requires lies { LiesIn place (length (S.content source.old)) }
    requires fits { Fits shape place }
    requires whole { AreBlocks out.old.items }
    ensures numbers { S.honest → (xs : List ℕ)
        → HasShape (bytes_at (S.content source.old) place) shape xs
        → PutsAs (out.old.items ++ drop (128 * shape.blocks) xs) out.new.items result }
    ensures rises { OnOk result (RisesInBlocks out.new.items) }
    ensures left { ReadsSource S.ByteSource CountsReads result source.old source.new }
{
    let mut numbers = [0; 128];
    let count = tail_in(source, place, shape, &mut numbers)?;
    out.extend_from_slice(&numbers[..count])?;
    Ok(())
}

/// Puts a list into `out`, its whole blocks through the cache.
pub(crate) fn copy_kept<S: ByteSource>(
    source: &mut S,
    cache: &mut BlockCache,
    list: ListKey,
    out: &mut Vec<u32>,
) -> Result<(), ReadFault>
    ensures numbers { S.honest → (xs : List ℕ) → ListLies (S.content source.old) list.place xs
        → KeepsBlocksOf list.segment (S.content source.old) (Some cache.old)
        → PutsAs xs out.new.items result }
    ensures cached { S.honest → (xs : List ℕ) → ListLies (S.content source.old) list.place xs
        → KeepsBlocksOf list.segment (S.content source.old) (Some cache.old)
        → KeepsBlocksOf list.segment (S.content source.old) (Some cache.new) }
    ensures adds { AddsOnlyOf list.segment (Some cache.old) (Some cache.new) }
    ensures rises { OnOk result (RisesInBlocks out.new.items) }
    ensures left { ReadsSource S.ByteSource CountsReads result source.old source.new }
{
    out.clear();
    let shape = Shape::read(source, list.place)?;
    out.reserve(shape.count as usize)?;
    put_blocks(source, cache, list, shape, out)?;
    put_tail(source, list.place, shape, out)
}

/// Puts a list of so many numbers into `out`, past the cache. `Damaged` where it has another number
/// of them. The block that is decoded is no part of the frames of a recursion.
#[inline(never)]
pub(crate) fn copy_out<S: ByteSource>(
    source: &mut S,
    place: ListPlace,
    count: u32,
    out: &mut Vec<u32>,
) -> Result<(), ReadFault>
    ensures numbers { S.honest → (xs : List ℕ) → ListLies (S.content source.old) place xs
        → count ≡ length xs → PutsAs xs out.new.items result }
    ensures rises { OnOk result (RisesInBlocks out.new.items) }
    ensures opened { IsOk result → IsOpened place (length (S.content source.old)) }
    ensures left { ReadsSource S.ByteSource CountsReads result source.old source.new }
{
    out.clear();
    let shape = Shape::read(source, place)?;
    if shape.count != count {
        return Err(ReadFault::Damaged);
    }
    out.reserve(count as usize)?;
    put_decoded(source, place, shape, out)?;
    put_tail(source, place, shape, out)
}
