//! A cursor in a list, and the source that the list lies in.

ghost use Rattle.std.specs.Prelude.{◌≡◌, ◌+◌, ◌*◌, ◌-◌, ◌<◌, ◌≤◌, ◌^◌};
ghost use Rattle.std.specs.Prelude.{ℕ, List, length, min, slice_index};
ghost use Rattle.std.specs.Prelude.{IfSome, OnOk, None, Err};
ghost use Rattle.std.specs.Prelude.{MatchResult, MatchOption};
ghost use Rattle.pk_posting.specs.Posting.{Spells};
ghost use Rattle.pk_posting.specs.Parts.{LiesIn, bytes_at};
ghost use Rattle.pk_posting.specs.Frames.{IsRead};
ghost use Rattle.pk_cursor.specs.Standing.{IsMoved, IsSought, StandsAt, outcome};

use crate::standing::Standing;
use pk_posting::{ByteSource, ListPlace, SourceFault};

/// An index in a list that lies in a source, which it has for itself as long as it is there.
#[derive(Drop)]
pub struct Cursor<'a, S: ByteSource> {
    source: &'a mut S,
    standing: Standing,
    ghost lies: { standing.fault ≡ None
        → LiesIn standing.place (length (S.content source.now)) },
}

impl<'a, S: ByteSource> Cursor<'a, S> {
    /// A cursor at the first number of the list that lies at a place of the source, or at the end
    /// if it has none. A fault is kept: `fault` tells it.
    pub fn open(source: &'a mut S, place: ListPlace) -> Cursor<'a, S>
        ensures at { S.honest → (xs : List ℕ)
            → place.at + place.bytes ≤ length (S.content source.old)
            → Spells (bytes_at (S.content source.old) place) xs
            → MatchOption result.standing.fault
            (StandsAt (bytes_at (S.content result.source.now) place) result.standing xs 0)
            (λ e. e ≡ SourceFault.Disk) }
        ensures place { result.standing.place ≡ place }
        ensures none { result.standing.shape.blocks ≡ 0 → result.standing.decoded ≡ 0 }
        ensures first { result.standing.fault ≡ None → 0 < result.standing.shape.blocks
            → result.standing.decoded ≡ 1 }
        ensures decoded { result.standing.decoded ≤ 1 }
        ensures left { IsRead S.ByteSource 6 (outcome result.standing.fault)
            source.old result.source.now }
        ensures same_reference { result.source.ghost_name ≡ source.entry.ghost_name }
    {
        match Standing::open(source, place) {
            Ok(standing) => Cursor { source, standing },
            Err(fault) => Cursor {
                source,
                standing: Standing::lost(place, fault),
            },
        }
    }

    /// The fault that was met, from which on the cursor stands nowhere.
    pub fn fault(&self) -> Option<SourceFault>
        ensures { result ≡ self.now.standing.fault }
    {
        self.standing.fault
    }

    /// The number at the index. None at the end, and after a fault.
    #[inline(always)]
    pub fn current(&self) -> Option<u32>
        ensures at { (bytes xs : List ℕ) (n : ℕ) → StandsAt bytes self.now.standing xs n
            → MatchOption result (n ≡ length xs)
            (λ v. (n < length xs) × (v ≡ slice_index xs n)) }
        ensures fault { IfSome self.now.standing.fault (λ _. result ≡ None) }
    {
        self.standing.current()
    }

    /// The numbers that are held, from the index on. None at the end, and after a fault.
    #[inline(always)]
    pub fn rest(&self) -> &[u32]
        ensures long { length result.now ≡ self.now.standing.held - self.now.standing.at }
        ensures at { (bytes xs : List ℕ) (n : ℕ) → StandsAt bytes self.now.standing xs n
            → (i : ℕ) → i < length result.now
            → slice_index result.now i ≡ slice_index xs (n + i) }
        ensures end { (bytes xs : List ℕ) (n : ℕ) → StandsAt bytes self.now.standing xs n
            → length result.now ≡ 0 → n ≡ length xs }
        ensures fault { IfSome self.now.standing.fault (λ _. length result.now ≡ 0) }
    {
        self.standing.rest()
    }

    /// How many blocks were decoded since the opening, the first one too. At 2^64 - 1 it stays.
    pub fn decoded(&self) -> u64
        ensures { result ≡ self.now.standing.decoded }
    {
        self.standing.decoded
    }

    /// One index on, to the end at most. After a fault it answers that fault.
    #[inline(always)]
    pub fn next(&mut self) -> Result<(), SourceFault>
        ensures at { S.honest → (xs : List ℕ) (n : ℕ)
            → StandsAt (bytes_at (S.content self.old.source.now) self.old.standing.place)
            self.old.standing xs n
            → MatchResult result
            (λ _. StandsAt (bytes_at (S.content self.new.source.now) self.new.standing.place)
            self.new.standing xs (min (n + 1) (length xs)))
            (λ e. e ≡ SourceFault.Disk) }
        ensures moved { IsMoved S.ByteSource 2 result self.old.standing self.new.standing
            self.old.source.now self.new.source.now }
        ensures same_reference { self.new.source.ghost_name ≡ self.old.source.ghost_name }
    {
        self.standing.step(self.source)
    }

    /// Past the numbers that are held, to the start of the next block, or of the tail, or to the
    /// end. After a fault it answers that fault.
    pub fn pass(&mut self) -> Result<(), SourceFault>
        ensures at { S.honest → (xs : List ℕ) (n : ℕ)
            → StandsAt (bytes_at (S.content self.old.source.now) self.old.standing.place)
            self.old.standing xs n
            → MatchResult result
            (λ _. StandsAt (bytes_at (S.content self.new.source.now) self.new.standing.place)
            self.new.standing xs (n + (self.old.standing.held - self.old.standing.at)))
            (λ e. e ≡ SourceFault.Disk) }
        ensures moved { IsMoved S.ByteSource 2 result self.old.standing self.new.standing
            self.old.source.now self.new.source.now }
        ensures same_reference { self.new.source.ghost_name ≡ self.old.source.ghost_name }
    {
        self.standing.pass(self.source)
    }

    /// To the first number from here on that is at least the target, or to the end. After a fault
    /// it answers that fault.
    pub fn seek(&mut self, target: u32) -> Result<(), SourceFault>
        ensures at { S.honest → (xs : List ℕ) (n : ℕ)
            → StandsAt (bytes_at (S.content self.old.source.now) self.old.standing.place)
            self.old.standing xs n
            → MatchResult result
            (λ _. IsSought (bytes_at (S.content self.new.source.now) self.new.standing.place)
            self.new.standing xs n target)
            (λ e. e ≡ SourceFault.Disk) }
        ensures moved { IsMoved S.ByteSource 44 result self.old.standing self.new.standing
            self.old.source.now self.new.source.now }
        ensures asks { OnOk result
            ((k : ℕ) → self.new.standing.block - self.old.standing.block < 2 ^ k
            → S.asked self.new.source.now ≤ S.asked self.old.source.now + 2 * k + 2) }
        ensures same_reference { self.new.source.ghost_name ≡ self.old.source.ghost_name }
    {
        self.standing.seek(self.source, target)
    }
}
