//! The entries of the words that begin with a prefix, one by one.

ghost use Rattle.std.specs.Prelude.{◌≡◌, ◌≤◌, ◌<◌, ◌+◌, ◌*◌, ◌^◌, ℕ, List, length, nat_eq};
ghost use Rattle.std.specs.Prelude.{None, Some, Ok, Err, true, false};
ghost use Rattle.std.specs.Prelude.{IfErr, IfOk, IfSome, IsOk, IsTrue, MatchResult, OnOk};
ghost use Rattle.std.specs.List.{AllByRecursion, starts_with};
ghost use Rattle.pk_dict.specs.Dictionary.{DictSpells, Item, group_count, items_with_prefix};
ghost use Rattle.pk_posting.specs.ReadFaults.{CountsReads};
ghost use Rattle.pk_dict.specs.Place.{LiesIn, bytes_at};
ghost use Rattle.pk_posting.specs.Limits.{asks_for, most_lent};
ghost use Rattle.pk_posting.specs.Frames.{ReadsSource};

use crate::cursor::TermCursor;
use crate::entry::{DictPlace, Entry};
use pk_posting::{ByteSource, ReadFault};
use std::alloc::Global;

/// The entries of the words of a dictionary that begin with a prefix, one by one: none is kept.
#[derive(Drop)]
pub struct PrefixCursor<'a> {
    pub(crate) cursor: TermCursor,
    pub(crate) prefix: &'a [u8],
    // Whether it went to the first word,
    pub(crate) begun: bool,
    // and past the last.
    pub(crate) ended: bool,
}

impl<'a> PrefixCursor<'a> {
    ghost use Rattle.pk_dict.specs.Cursor.{HoldsOf, ReadsAhead};
    ghost use Rattle.pk_dict.specs.Prefix.{GivesNext, HasGone, HasLeft, words_to_come};
    ghost use Rattle.pk_dict.specs.Seeking.{GivesAfter, HasMoved};

    /// Before the first word that begins with the prefix. Nothing is read yet.
    pub fn open(alloc: Global, place: DictPlace, ahead: u32, prefix: &'a [u8]) -> PrefixCursor<'a>
        requires { ahead ≤ most_lent }
        ensures place { result.cursor.place ≡ place }
        ensures prefix { result.prefix.now ≡ prefix.now }
        ensures ahead { ReadsAhead ahead result.cursor }
        ensures sound { result.cursor.fault ≡ None }
        ensures holds { (bytes : List ℕ) → HoldsOf bytes result.cursor }
        ensures new { (result.begun ≡ false) × (result.ended ≡ false) }
        ensures left { (bytes : List ℕ) (es : List Item) → DictSpells bytes es
            → length es ≡ place.terms
            → HasLeft bytes result es (items_with_prefix prefix.now es) }
    {
        PrefixCursor {
            cursor: TermCursor::open(alloc, place, ahead),
            prefix,
            begun: false,
            ended: false,
        }
    }

    /// The word that was given last.
    pub fn word(&self) -> &[u8]
        ensures { result.now ≡ self.now.cursor.word.items }
    {
        self.cursor.word()
    }

    /// The entry of the next word that begins with the prefix; None where there is none. After a
    /// fault it answers that fault. It seeks the first word by `pivots`, as `TermCursor::seek` says.
    pub fn next<S: ByteSource>(
        &mut self,
        source: &mut S,
        pivots: &mut [u64],
    ) -> Result<Option<Entry>, ReadFault>
        requires lies { LiesIn self.old.cursor.place (length (S.content source.old)) }
        ensures gives { S.honest → (es rest : List Item)
            → HasLeft (bytes_at (S.content source.old) self.old.cursor.place) self.old es rest
            → MatchResult result
            (GivesNext (bytes_at (S.content source.old) self.old.cursor.place) self.new es rest)
            (λ e. e ≡ ReadFault.Damaged → ⊥) }

        // Of any bytes.
        ensures begins { IfOk result (λ given. IfSome given (λ entry.
            (starts_with nat_eq self.new.cursor.word.items self.new.prefix.now ≡ true)
            × (entry ≡ self.new.cursor.entry))) }
        ensures holds { S.honest
            → HoldsOf (bytes_at (S.content source.old) self.old.cursor.place) self.old.cursor
            → OnOk result
            (HoldsOf (bytes_at (S.content source.old) self.old.cursor.place) self.new.cursor) }
        ensures said { S.honest
            → HoldsOf (bytes_at (S.content source.old) self.old.cursor.place) self.old.cursor
            → self.old.ended ≡ false → IfOk result (GivesAfter self.old.begun
            (bytes_at (S.content source.old) self.old.cursor.place) self.old.prefix.now
            self.old.cursor self.new.cursor) }
        ensures goes { IfOk result (λ given. IfSome given (λ _.
            (self.new.begun ≡ true) × (self.new.ended ≡ false))) }

        ensures prefix { self.new.prefix ≡ self.old.prefix }
        ensures fewer { IfOk result (λ given. IfSome given (λ _.
            words_to_come self.new < words_to_come self.old)) }
        ensures place { self.new.cursor.place ≡ self.old.cursor.place }
        ensures ahead { ReadsAhead self.old.cursor.held.most self.new.cursor }
        ensures faults { IfErr result (λ e. self.new.cursor.fault ≡ Some e) }
        ensures sound { self.old.cursor.fault ≡ None → IsOk result
            → self.new.cursor.fault ≡ None }
        ensures size { length (S.content source.new) ≡ length (S.content source.old) }
        ensures repeats { self.old.ended ≡ false → IfSome self.old.cursor.fault
            (λ e. (result ≡ Err e) × (source.new ≡ source.old)) }
        ensures ended { self.old.ended ≡ true → (result ≡ Ok None) × (source.new ≡ source.old) }
        ensures left { self.old.cursor.fault ≡ None
            → ReadsSource S.ByteSource CountsReads result source.old source.new }
        ensures asks { S.honest → self.old.begun ≡ true → OnOk result (S.asked source.new
            ≤ S.asked source.old + 6 + asks_for (length self.new.cursor.word.items)) }
        ensures first { S.honest → (es rest : List Item)
            → HasLeft (bytes_at (S.content source.old) self.old.cursor.place) self.old es rest
            → self.old.ended ≡ false → self.old.begun ≡ false → OnOk result ((k m : ℕ)
            → group_count self.old.cursor.place.terms ≤ 2 ^ k
            → AllByRecursion (λ (e : Item). asks_for (length e.term) ≤ m) es
            → S.asked source.new ≤ S.asked source.old
            + (k + 3) * (6 + asks_for (length self.old.prefix.now)) + 1 + 17 * (6 + m)) }
    {
        if self.ended {
            return Ok(None);
        }
        let more = self.go(source, pivots)?;
        if more && self.word().starts_with(self.prefix) {
            return Ok(Some(self.cursor.entry()));
        }
        self.ended = true;
        Ok(None)
    }

    // Goes to the next word that may begin with the prefix.
    fn go<S: ByteSource>(&mut self, source: &mut S, pivots: &mut [u64]) -> Result<bool, ReadFault>
        requires lies { LiesIn self.old.cursor.place (length (S.content source.old)) }
        requires on { self.old.ended ≡ false }
        ensures at { S.honest → (es rest : List Item)
            → HasLeft (bytes_at (S.content source.old) self.old.cursor.place) self.old es rest
            → MatchResult result
            (HasGone (bytes_at (S.content source.old) self.old.cursor.place) self.new es rest)
            (λ e. e ≡ ReadFault.Damaged → ⊥) }
        ensures holds { S.honest
            → HoldsOf (bytes_at (S.content source.old) self.old.cursor.place) self.old.cursor
            → OnOk result
            (HoldsOf (bytes_at (S.content source.old) self.old.cursor.place) self.new.cursor) }
        ensures said { S.honest
            → HoldsOf (bytes_at (S.content source.old) self.old.cursor.place) self.old.cursor
            → IfOk result (HasMoved self.old.begun
            (bytes_at (S.content source.old) self.old.cursor.place) self.old.prefix.now
            self.old.cursor self.new.cursor) }
        ensures begun { self.new.begun ≡ true }
        ensures ended { self.new.ended ≡ false }
        ensures prefix { self.new.prefix ≡ self.old.prefix }
        ensures fewer { IfOk result (λ more. IsTrue more
            → words_to_come self.new < words_to_come self.old) }
        ensures place { self.new.cursor.place ≡ self.old.cursor.place }
        ensures ahead { ReadsAhead self.old.cursor.held.most self.new.cursor }
        ensures faults { IfErr result (λ e. self.new.cursor.fault ≡ Some e) }
        ensures sound { self.old.cursor.fault ≡ None → IsOk result
            → self.new.cursor.fault ≡ None }
        ensures size { length (S.content source.new) ≡ length (S.content source.old) }
        ensures repeats { IfSome self.old.cursor.fault
            (λ e. (result ≡ Err e) × (source.new ≡ source.old)) }
        ensures left { self.old.cursor.fault ≡ None
            → ReadsSource S.ByteSource CountsReads result source.old source.new }
        ensures asks { S.honest → self.old.begun ≡ true → OnOk result (S.asked source.new
            ≤ S.asked source.old + 6 + asks_for (length self.new.cursor.word.items)) }
        ensures first { S.honest → (es rest : List Item)
            → HasLeft (bytes_at (S.content source.old) self.old.cursor.place) self.old es rest
            → self.old.begun ≡ false → OnOk result ((k m : ℕ)
            → group_count self.old.cursor.place.terms ≤ 2 ^ k
            → AllByRecursion (λ (e : Item). asks_for (length e.term) ≤ m) es
            → S.asked source.new ≤ S.asked source.old
            + (k + 3) * (6 + asks_for (length self.old.prefix.now)) + 1 + 17 * (6 + m)) }
    {
        if self.begun {
            return self.cursor.next(source);
        }
        self.begun = true;
        self.cursor.seek(source, pivots, self.prefix)
    }
}
