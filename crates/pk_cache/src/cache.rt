//! The cache.

ghost use Rattle.std.specs.Prelude.{◌≡◌, ◌≤◌, ◌<◌, ℕ, List, [], length};
ghost use Rattle.std.specs.Prelude.{IfNone, IfOk, IfSome, OnErr, MatchResult};
ghost use Rattle.std.specs.Prelude.{None, Ok, Err, Some, false};
ghost use Rattle.pk_cache.specs.Keys.{IsSound, Rises};
ghost use Rattle.pk_cache.specs.Limits.{most_blocks};
ghost use Rattle.pk_posting.specs.Posting.{block};
ghost use Rattle.pk_posting.specs.Parts.{Fits, HasShape, LiesIn, bytes_at};
ghost use Rattle.pk_posting.specs.Frames.{IsRead};

use crate::key::BlockKey;
use lru::LruCache;
use pk_posting::{ByteSource, ListPlace, Shape, SourceFault, block_in};
use std::alloc::{AllocError, Global};
use std::num::NonZeroUsize;

/// The most blocks that a cache may keep.
pub const MOST_BLOCKS: u32 = 65_536;

/// Blocks that were decoded, by their keys: as many as its capacity says, those used last.
#[derive(Drop)]
pub struct BlockCache {
    kept: LruCache<BlockKey, [u32; 128]>,
    // Whether the last block that was answered found no memory to be kept. Contracts alone read it:
    // only then does that block not stand first.
    unkept: bool,
    pub ghost sound: { IsSound kept },
}

impl BlockCache {
    ghost use Rattle.pk_cache.specs.Kept.{Agrees, Blocks, IsBlockAt, Keeps, entries_after, kept_at};

    /// A cache of at most so many blocks, which keeps none. The memory of a block is taken as so
    /// many are first kept; all else now.
    pub fn new(alloc: Global, capacity: usize) -> Result<BlockCache, AllocError>
        requires some { 1 ≤ capacity }
        requires most { capacity ≤ most_blocks }
        ensures empty { IfOk result (λ cache. cache.kept.entries ≡ []) }
        ensures capacity { IfOk result (λ cache. cache.kept.cap ≡ capacity) }
    {
        let Some(cap) = NonZeroUsize::new(capacity) else {
            unreachable!();
        };
        let kept = LruCache::new(alloc, cap)?;
        Ok(BlockCache {
            kept,
            unkept: false,
        })
    }

    /// How many blocks it keeps at the most.
    pub fn capacity(&self) -> usize
        ensures { result ≡ self.now.kept.cap }
    {
        self.kept.cap().get()
    }

    /// The numbers of a block of the list that lies at a place of the source and has this shape:
    /// what is kept for the key, and else what the source gives, which then is kept.
    ///
    /// The shape is the caller's to read, once for all blocks of a list: the key has no more of the
    /// list than its place, from which each call would have to read the shape again.
    ///
    /// `Damaged` where no block is kept for the key and the list has none of that number, or what
    /// is read shows that no list is spelled. `Disk` where the source failed. A refusal changes
    /// nothing that is kept.
    pub fn block<S: ByteSource>(
        &mut self,
        key: BlockKey,
        place: ListPlace,
        shape: Shape,
        source: &mut S,
    ) -> Result<[u32; 128], SourceFault>
        requires at { place.at ≡ key.at }
        requires lies { LiesIn place (length (S.content source.old)) }
        requires fits { Fits shape place }

        // A block that is kept.
        ensures hit { (xs : List ℕ) → Keeps self.old key xs
            → (result ≡ Ok xs) × (source.new ≡ source.old) × (self.new.unkept ≡ false) }

        // One that is not, or is kept as a list at the key's place has it.
        ensures spelled { S.honest → (ys : List ℕ)
            → HasShape (bytes_at (S.content source.old) place) shape ys
            → key.block < shape.blocks
            → IfSome (kept_at self.old key) (IsBlockAt (S.content source.old) key)
            → MatchResult result (λ xs. xs ≡ block key.block ys) (λ e. e ≡ SourceFault.Disk) }
        ensures past { kept_at self.old key ≡ None → shape.blocks ≤ key.block
            → (result ≡ Err SourceFault.Damaged) × (source.new ≡ source.old) }
        ensures rises { IfOk result Rises }

        // What is kept afterwards.
        ensures order { IfOk result (λ xs. self.new.kept.entries
            ≡ entries_after self.new.unkept self.old key xs) }
        ensures refused { OnErr result (self.new.kept ≡ self.old.kept) }
        ensures capacity { self.new.kept.cap ≡ self.old.kept.cap }

        // Any map that has what is kept, and at the key the block of the list.
        ensures agrees { S.honest → (blocks : Blocks) (ys : List ℕ)
            → HasShape (bytes_at (S.content source.old) place) shape ys
            → key.block < shape.blocks
            → blocks key ≡ Some (block key.block ys)
            → Agrees blocks self.old
            → MatchResult result (λ xs. blocks key ≡ Some xs) (λ e. e ≡ SourceFault.Disk)
            × Agrees blocks self.new }

        ensures left { IsRead S.ByteSource 2 result source.old source.new }
    {
        if let Some(numbers) = self.kept_block(key) {
            return Ok(numbers);
        }
        if key.block >= shape.blocks {
            return Err(SourceFault::Damaged);
        }
        let mut numbers = [0; 128];
        block_in(source, place, shape, key.block, &mut numbers)?;
        self.keep(key, numbers);
        Ok(numbers)
    }

    // The block that is kept for a key, which then stands first.
    fn kept_block(&mut self, key: BlockKey) -> Option<[u32; 128]>
        ensures value { result ≡ kept_at self.old key }
        ensures order { IfSome result (λ xs. self.new.kept.entries
            ≡ entries_after false self.old key xs) }
        ensures unkept { IfSome result (λ _. self.new.unkept ≡ false) }
        ensures none { IfNone result (self.new.kept ≡ self.old.kept) }
        ensures capacity { self.new.kept.cap ≡ self.old.kept.cap }
    {
        let numbers = self.kept.get(&key).copied()?;
        self.unkept = false;
        Some(numbers)
    }

    // Keeps a block for a key, first, where there is memory for it.
    fn keep(&mut self, key: BlockKey, numbers: [u32; 128])
        requires none { kept_at self.old key ≡ None }
        requires rises { Rises numbers }
        ensures order { self.new.kept.entries ≡ entries_after self.new.unkept self.old key numbers }
        ensures capacity { self.new.kept.cap ≡ self.old.kept.cap }
    {
        self.unkept = self.kept.put(key, numbers).is_err();
    }
}
