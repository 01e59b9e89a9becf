//! How a cursor goes to the first number that reaches a target.

ghost use Rattle.std.specs.Prelude.{◌≡◌, ◌+◌, ◌*◌, ◌-◌, ◌<◌, ◌≤◌, ◌^◌};
ghost use Rattle.std.specs.Prelude.{ℕ, List, length, slice_index};
ghost use Rattle.std.specs.Prelude.{IfErr, IsOk, OnOk, Some, None, Err, MatchResult};
ghost use Rattle.pk_posting.specs.Parts.{LiesIn, bytes_at};
ghost use Rattle.pk_posting.specs.Frames.{IsRead};

use crate::skips::find_block;
use crate::standing::Standing;
use pk_posting::{ByteSource, SourceFault};

impl Standing {
    ghost use Rattle.pk_cursor.specs.Standing.{CountsDecoded, IsLeapt, IsMoved, IsSought, StandsAt};

    // To the first number from here on that is at least the target, or the end.
    pub(crate) fn seek<S: ByteSource>(
        &mut self,
        source: &mut S,
        target: u32,
    ) -> Result<(), SourceFault>
        requires lies { self.old.fault ≡ None
            → LiesIn self.old.place (length (S.content source.old)) }
        ensures at { S.honest → (xs : List ℕ) (n : ℕ)
            → StandsAt (bytes_at (S.content source.old) self.old.place) self.old xs n
            → MatchResult result
            (λ _. IsSought (bytes_at (S.content source.old) self.old.place) self.new xs n target)
            (λ e. e ≡ SourceFault.Disk) }
        ensures moved { IsMoved S.ByteSource 44 result self.old self.new source.old source.new }
        ensures asks { OnOk result ((k : ℕ) → self.new.block - self.old.block < 2 ^ k
            → S.asked source.new ≤ S.asked source.old + 2 * k + 2) }
    {
        if let Some(fault) = self.fault {
            return Err(fault);
        }
        if self.block == self.shape.blocks {
            self.advance(target);
            return Ok(());
        }
        if target <= self.numbers[127] {
            self.advance(target);
            return Ok(());
        }
        self.leap(source, target)?;
        self.advance(target);
        Ok(())
    }

    // To the start of the first block after this one that doesn't end below the target.
    fn leap<S: ByteSource>(&mut self, source: &mut S, target: u32) -> Result<(), SourceFault>
        requires lies { LiesIn self.old.place (length (S.content source.old)) }
        requires block { self.old.block < self.old.shape.blocks }
        requires sound { self.old.fault ≡ None }
        ensures at { S.honest → (xs : List ℕ) (n : ℕ)
            → StandsAt (bytes_at (S.content source.old) self.old.place) self.old xs n
            → slice_index self.old.numbers 127 < target
            → MatchResult result
            (λ _. IsLeapt (bytes_at (S.content source.old) self.old.place) self.new xs target)
            (λ e. e ≡ SourceFault.Disk) }
        ensures place { self.new.place ≡ self.old.place }
        ensures shape { self.new.shape ≡ self.old.shape }
        ensures on { OnOk result (self.old.block < self.new.block) }
        ensures decoded { CountsDecoded result self.old self.new }
        ensures faults { IfErr result (λ e. self.new.fault ≡ Some e) }
        ensures after { IsOk result → self.new.fault ≡ None }
        ensures asks { OnOk result ((k : ℕ) → self.new.block - self.old.block < 2 ^ k
            → S.asked source.new ≤ S.asked source.old + 2 * k + 2) }
        ensures left { IsRead S.ByteSource 44 result source.old source.new }
    {
        match find_block(source, self.place, self.shape, self.block, target) {
            Ok(block) => self.enter(source, block),
            Err(fault) => {
                self.at = 0;
                self.held = 0;
                self.fault = Some(fault);
                Err(fault)
            }
        }
    }

    // To the first number that is held from here on and is at least the target.
    fn advance(&mut self, target: u32)
        ensures at { (bytes xs : List ℕ) (n : ℕ) → StandsAt bytes self.old xs n
            → (self.old.block < self.old.shape.blocks
            → target ≤ slice_index self.old.numbers 127)
            → IsSought bytes self.new xs n target }
        ensures place { self.new.place ≡ self.old.place }
        ensures shape { self.new.shape ≡ self.old.shape }
        ensures block { self.new.block ≡ self.old.block }
        ensures decoded { self.new.decoded ≡ self.old.decoded }
        ensures fault { self.new.fault ≡ self.old.fault }
    {
        self.at = first_from(&self.numbers, self.at, self.held, target);
    }
}

// The first index from one on whose number is at least the target, or the count.
fn first_from(numbers: &[u32; 128], at: usize, held: usize, target: u32) -> usize
    requires order { (at ≤ held) × (held ≤ 128) }
    ensures range { (at ≤ result) × (result ≤ held) }
    ensures below { (i : ℕ) → at ≤ i → i < result → slice_index numbers.now i < target }
    ensures reaches { result < held → target ≤ slice_index numbers.now result }
{
    for i in at..held {
        if target <= numbers[i] {
            return i;
        }
    }
    held
}
