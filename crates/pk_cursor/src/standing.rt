//! What a cursor holds, without its source, and how it goes on.

ghost use Rattle.std.specs.Prelude.{◌≡◌, ◌+◌, ◌*◌, ◌-◌, ◌<◌, ◌≤◌};
ghost use Rattle.std.specs.Prelude.{ℕ, List, length, min, slice_index};
ghost use Rattle.std.specs.Prelude.{IfOk, IfErr, IfSome, IsOk, Some, None, Err};
ghost use Rattle.std.specs.Prelude.{MatchResult, MatchOption};
ghost use Rattle.std.proofs.Props.{props};
ghost use Rattle.pk_posting.specs.Posting.{Spells};
ghost use Rattle.pk_posting.specs.Parts.{Fits, HasShape, LiesIn, bytes_at};
ghost use Rattle.pk_posting.specs.Frames.{IsRead};
ghost use Rattle.pk_posting.specs.Source.{full_count};

use pk_posting::{ByteSource, ListPlace, Shape, SourceFault, block_in, tail_in};

// Where a cursor stands in its list: a block, or the tail, and an index in it.
#[derive(Drop)]
pub(crate) struct Standing {
    pub(crate) place: ListPlace,
    pub(crate) shape: Shape,
    // The block that is held. The tail counts as the block after the last.
    pub(crate) block: u32,
    pub(crate) numbers: [u32; 128],
    // How many of the numbers count: none after a fault.
    pub(crate) held: usize,
    // The index among the numbers that are held. At the end it is their count.
    pub(crate) at: usize,
    pub(crate) decoded: u64,
    // What `next` and `seek` answer from now on.
    pub(crate) fault: Option<SourceFault>,
    ghost fits: { fault ≡ None → Fits shape place },
    ghost order: { (block ≤ shape.blocks) × (held ≤ 128) × (at ≤ held) },
    // `current` need not look for a fault.
    ghost none: { IfSome fault (λ _. held ≡ 0) } by { Prim.hlevel props },
}

impl Standing {
    ghost use Rattle.pk_cursor.specs.Standing.{CountsDecoded, IsMoved, StandsAt, count_in};

    // At the start of a list.
    pub(crate) fn open<S: ByteSource>(
        source: &mut S,
        place: ListPlace,
    ) -> Result<Standing, SourceFault>
        ensures at { S.honest → (xs : List ℕ)
            → place.at + place.bytes ≤ length (S.content source.old)
            → Spells (bytes_at (S.content source.old) place) xs
            → MatchResult result
            (λ standing. StandsAt (bytes_at (S.content source.old) place) standing xs 0)
            (λ e. e ≡ SourceFault.Disk) }
        ensures place { IfOk result (λ standing. standing.place ≡ place) }
        ensures sound { IfOk result (λ standing. standing.fault ≡ None) }
        ensures none { IfOk result
            (λ standing. standing.shape.blocks ≡ 0 → standing.decoded ≡ 0) }
        ensures first { IfOk result
            (λ standing. 0 < standing.shape.blocks → standing.decoded ≡ 1) }
        ensures lies { IsOk result → LiesIn place (length (S.content source.old)) }
        ensures left { IsRead S.ByteSource 6 result source.old source.new }
    {
        let shape = Shape::read(source, place)?;
        let mut standing = Standing {
            place,
            shape,
            block: 0,
            numbers: [0; 128],
            held: 0,
            at: 0,
            decoded: 0,
            fault: None,
        };
        standing.load(source, 0)?;
        Ok(standing)
    }

    // Nowhere, since a fault was met.
    pub(crate) fn lost(place: ListPlace, fault: SourceFault) -> Standing
        ensures fault { result.fault ≡ Some fault }
        ensures place { result.place ≡ place }
        ensures decoded { result.decoded ≡ 0 }
    {
        Standing {
            place,
            shape: Shape {
                count: 0,
                blocks: 0,
                tail: 0,
            },
            block: 0,
            numbers: [0; 128],
            held: 0,
            at: 0,
            decoded: 0,
            fault: Some(fault),
        }
    }

    // Holds a block, or the tail, at its first number. After a refusal nothing is held.
    fn load<S: ByteSource>(&mut self, source: &mut S, block: u32) -> Result<(), SourceFault>
        requires lies { LiesIn self.old.place (length (S.content source.old)) }
        requires block { block ≤ self.old.shape.blocks }
        requires sound { self.old.fault ≡ None }
        ensures at { S.honest → (xs : List ℕ)
            → HasShape (bytes_at (S.content source.old) self.old.place) self.old.shape xs
            → MatchResult result
            (λ _. StandsAt (bytes_at (S.content source.old) self.old.place) self.new xs
            (128 * block))
            (λ e. e ≡ SourceFault.Disk) }
        ensures block { self.new.block ≡ block }
        ensures place { self.new.place ≡ self.old.place }
        ensures shape { self.new.shape ≡ self.old.shape }
        ensures fault { self.new.fault ≡ self.old.fault }
        ensures nothing { IfErr result (λ _. self.new.held ≡ 0) }
        // Of any bytes.
        ensures whole { IsOk result → self.new.held ≡ count_in self.old.shape block }
        ensures most { self.new.decoded ≤ self.old.decoded + 1 }
        ensures counted { IsOk result → block < self.old.shape.blocks
            → self.new.decoded ≡ min (self.old.decoded + 1) full_count }
        ensures tail { block ≡ self.old.shape.blocks → self.new.decoded ≡ self.old.decoded }
        ensures left { IsRead S.ByteSource 2 result source.old source.new }
    {
        self.at = 0;
        self.held = 0;
        self.block = block;
        if block < self.shape.blocks {
            block_in(source, self.place, self.shape, block, &mut self.numbers)?;
            self.decoded = self.decoded.saturating_add(1);
            self.held = 128;
            return Ok(());
        }
        let count = tail_in(source, self.place, self.shape, &mut self.numbers)?;
        self.held = count;
        Ok(())
    }

    // Holds a block after this one, or the tail. A fault is kept.
    pub(crate) fn enter<S: ByteSource>(
        &mut self,
        source: &mut S,
        block: u32,
    ) -> Result<(), SourceFault>
        requires lies { LiesIn self.old.place (length (S.content source.old)) }
        requires block { block ≤ self.old.shape.blocks }
        requires later { self.old.block < block }
        requires sound { self.old.fault ≡ None }
        ensures at { S.honest → (xs : List ℕ)
            → HasShape (bytes_at (S.content source.old) self.old.place) self.old.shape xs
            → MatchResult result
            (λ _. StandsAt (bytes_at (S.content source.old) self.old.place) self.new xs
            (128 * block))
            (λ e. e ≡ SourceFault.Disk) }
        ensures block { self.new.block ≡ block }
        ensures place { self.new.place ≡ self.old.place }
        ensures shape { self.new.shape ≡ self.old.shape }
        // Of any bytes.
        ensures whole { IsOk result → self.new.held ≡ count_in self.old.shape block }
        ensures decoded { CountsDecoded result self.old self.new }
        ensures faults { IfErr result (λ e. self.new.fault ≡ Some e) }
        ensures sound { IsOk result → self.new.fault ≡ None }
        ensures left { IsRead S.ByteSource 2 result source.old source.new }
    {
        match self.load(source, block) {
            Ok(()) => Ok(()),
            Err(fault) => {
                self.fault = Some(fault);
                Err(fault)
            }
        }
    }

    // The number at the index.
    #[inline(always)]
    pub(crate) fn current(&self) -> Option<u32>
        ensures at { (bytes xs : List ℕ) (n : ℕ) → StandsAt bytes self.now xs n
            → MatchOption result (n ≡ length xs)
            (λ v. (n < length xs) × (v ≡ slice_index xs n)) }
        ensures fault { IfSome self.now.fault (λ _. result ≡ None) }
    {
        if self.at < self.held {
            return Some(self.numbers[self.at]);
        }
        None
    }

    // The numbers that are held, from the index on.
    #[inline(always)]
    pub(crate) fn rest(&self) -> &[u32]
        ensures long { length result.now ≡ self.now.held - self.now.at }
        ensures at { (bytes xs : List ℕ) (n : ℕ) → StandsAt bytes self.now xs n
            → (i : ℕ) → i < length result.now
            → slice_index result.now i ≡ slice_index xs (n + i) }
        ensures end { (bytes xs : List ℕ) (n : ℕ) → StandsAt bytes self.now xs n
            → length result.now ≡ 0 → n ≡ length xs }
        ensures fault { IfSome self.now.fault (λ _. length result.now ≡ 0) }
    {
        &self.numbers[self.at..self.held]
    }

    // Past the numbers that are held, to the next block.
    pub(crate) fn pass<S: ByteSource>(&mut self, source: &mut S) -> Result<(), SourceFault>
        requires lies { self.old.fault ≡ None
            → LiesIn self.old.place (length (S.content source.old)) }
        ensures at { S.honest → (xs : List ℕ) (n : ℕ)
            → StandsAt (bytes_at (S.content source.old) self.old.place) self.old xs n
            → MatchResult result
            (λ _. StandsAt (bytes_at (S.content source.old) self.old.place) self.new xs
            (n + (self.old.held - self.old.at)))
            (λ e. e ≡ SourceFault.Disk) }
        ensures moved { IsMoved S.ByteSource 2 result self.old self.new source.old source.new }
    {
        if let Some(fault) = self.fault {
            return Err(fault);
        }
        if self.block == self.shape.blocks {
            self.at = self.held;
            return Ok(());
        }
        self.enter(source, self.block + 1)
    }

    // One index on, to the end at most.
    #[inline(always)]
    pub(crate) fn step<S: ByteSource>(&mut self, source: &mut S) -> Result<(), SourceFault>
        requires lies { self.old.fault ≡ None
            → LiesIn self.old.place (length (S.content source.old)) }
        ensures at { S.honest → (xs : List ℕ) (n : ℕ)
            → StandsAt (bytes_at (S.content source.old) self.old.place) self.old xs n
            → MatchResult result
            (λ _. StandsAt (bytes_at (S.content source.old) self.old.place) self.new xs
            (min (n + 1) (length xs)))
            (λ e. e ≡ SourceFault.Disk) }
        ensures moved { IsMoved S.ByteSource 2 result self.old self.new source.old source.new }
    {
        if self.held - self.at > 1 {
            self.at += 1;
            return Ok(());
        }
        self.pass(source)
    }
}
