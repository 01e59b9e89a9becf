//! A cursor over a dictionary: its words one by one, each with its entry.

ghost use Rattle.std.specs.Prelude.{◌≡◌, ◌≤◌, ◌<◌, ◌+◌, ◌*◌, ◌^◌, ◌↔◌, ℕ, List, length};
ghost use Rattle.std.specs.Prelude.{[], None, Some, Ok, Err, true, false};
ghost use Rattle.std.specs.Prelude.{IfErr, IfOk, IfSome, IsErrOf, IsOk, IsTrue, MatchResult, OnOk};
ghost use Rattle.std.specs.Prelude.{vec_capacity};
ghost use Rattle.std.specs.List.{AllByRecursion};
ghost use Rattle.pk_dict.specs.Dictionary.{DictSpells, Item, group_count};
ghost use Rattle.pk_posting.specs.ReadFaults.{CountsReads};
ghost use Rattle.pk_dict.specs.Order.{less};
ghost use Rattle.pk_dict.specs.Place.{LiesIn, bytes_at};
ghost use Rattle.pk_posting.specs.Limits.{asks_for, most_lent};
ghost use Rattle.pk_posting.specs.Frames.{ReadsSource};

use crate::ahead::{Held, Spot, next_word};
use crate::compare::is_less;
use crate::entry::{DictPlace, Entry};
use crate::head::GroupStart;
use crate::look_up::groups_of;
use crate::seeking::first_start;
use pk_posting::{ByteSource, ListPlace, ReadFault};
use std::alloc::{AllocError, Global};
use std::vec::Vec;

// What is said of no word.
const NO_ENTRY: Entry = Entry {
    frequency: 0,
    place: ListPlace { at: 0, bytes: 0 },
};

/// A place among the words of a dictionary that lies in a source. It owns nothing of the source,
/// which is handed to each call that reads: so one source serves any number of cursors. It holds
/// one word, and what was read ahead.
#[derive(Drop)]
pub struct TermCursor {
    // Where the dictionary lies.
    pub(crate) place: DictPlace,
    // How many words were passed, and where the next one stands.
    pub(crate) read: u32,
    pub(crate) at: u32,
    // The word that was passed last, and its entry.
    pub(crate) word: Vec<u8>,
    pub(crate) entry: Entry,
    pub(crate) held: Held,
    // What is answered from now on.
    pub(crate) fault: Option<ReadFault>,
    ghost order: { read ≤ place.terms },
}

impl TermCursor {
    ghost use Rattle.pk_dict.specs.Cursor.{BeginsAt, Comes, HasRead, HoldsOf, IsBroken, IsNext};
    ghost use Rattle.pk_dict.specs.Cursor.{IsSought, ReadsAhead, StandsAt, words_left};
    ghost use Rattle.pk_dict.specs.Cursor.{word_after};
    ghost use Rattle.pk_dict.specs.Memory.{HasRoom};
    ghost use Rattle.pk_dict.specs.Said.{GoesOn, IsFirst};
    ghost use Rattle.pk_dict.specs.Seeking.{HasSought};

    /// A cursor before the first word of a dictionary, which reads so many bytes ahead at once. It
    /// reads nothing and takes no memory yet.
    pub fn open(alloc: Global, place: DictPlace, ahead: u32) -> TermCursor
        requires { ahead ≤ most_lent }
        ensures place { result.place ≡ place }
        ensures at { (bytes : List ℕ) (es : List Item) → DictSpells bytes es
            → length es ≡ place.terms → StandsAt bytes result es 0 }
        ensures holds { (bytes : List ℕ) → HoldsOf bytes result }
        ensures ahead { ReadsAhead ahead result }
        ensures sound { result.fault ≡ None }
        ensures first { IsFirst result }
    {
        TermCursor {
            place,
            read: 0,
            at: 4 * groups_of(place.terms),
            word: Vec::new(alloc),
            entry: NO_ENTRY,
            held: Held::new(alloc, ahead),
            fault: None,
        }
    }

    /// Goes back before the first word. What was read ahead and a fault are forgotten, and the
    /// memory for both is kept.
    pub fn rewind(&mut self)
        ensures first { IsFirst self.new }
        ensures place { self.new.place ≡ self.old.place }
        ensures ahead { ReadsAhead self.old.held.most self.new }
        ensures same { vec_capacity self.new.word ≡ vec_capacity self.old.word }
    {
        self.read = 0;
        self.at = 4 * groups_of(self.place.terms);
        self.word.clear();
        self.entry = NO_ENTRY;
        self.held.clear();
        self.fault = None;
    }

    /// Goes back before the first word, and takes room for what it reads ahead, and for a word as
    /// long as one for which there is room: so it takes no memory for the words that it passed, when
    /// it passes them again.
    pub fn rewind_with_room(&mut self) -> Result<(), AllocError>
        ensures first { IsFirst self.new }
        ensures place { self.new.place ≡ self.old.place }
        ensures ahead { ReadsAhead self.old.held.most self.new }
        ensures room { OnOk result (HasRoom (vec_capacity self.old.word) self.new) }
    {
        self.rewind();
        self.held.reserve(self.word.capacity())
    }

    /// The word that was passed last; no bytes before the first.
    pub fn word(&self) -> &[u8]
        ensures { result.now ≡ self.now.word.items }
    {
        self.word.as_slice()
    }

    /// The entry of that word.
    pub fn entry(&self) -> Entry
        ensures { result ≡ self.now.entry }
    {
        self.entry
    }

    /// Passes the next word, and says whether there was one. After a fault it answers that fault.
    pub fn next<S: ByteSource>(&mut self, source: &mut S) -> Result<bool, ReadFault>
        requires lies { LiesIn self.old.place (length (S.content source.old)) }
        ensures at { S.honest → (es : List Item) (n : ℕ)
            → StandsAt (bytes_at (S.content source.old) self.old.place) self.old es n
            → MatchResult result
            (IsNext (bytes_at (S.content source.old) self.old.place) self.new es n)
            (λ e. e ≡ ReadFault.Damaged → ⊥) }

        // Of any bytes.
        ensures holds { S.honest
            → HoldsOf (bytes_at (S.content source.old) self.old.place) self.old
            → OnOk result (HoldsOf (bytes_at (S.content source.old) self.old.place) self.new) }
        ensures rises { S.honest
            → HoldsOf (bytes_at (S.content source.old) self.old.place) self.old
            → result ≡ Ok true → 0 < self.old.read
            → less self.old.word.items self.new.word.items ≡ true }

        ensures said { S.honest
            → HoldsOf (bytes_at (S.content source.old) self.old.place) self.old
            → result ≡ Ok true
            → HasRead (bytes_at (S.content source.old) self.old.place) self.old self.new }
        ensures damaged { S.honest
            → HoldsOf (bytes_at (S.content source.old) self.old.place) self.old
            → self.old.fault ≡ None → IsErrOf result ReadFault.Damaged
            → IsBroken (bytes_at (S.content source.old) self.old.place) self.old }
        ensures end { IfOk result (λ more. IsTrue more ↔ (0 < words_left self.old)) }
        ensures goes { IfOk result (GoesOn self.old self.new) }
        ensures some { self.old.fault ≡ None → IfErr result (λ _. 0 < words_left self.old) }
        // Memory is refused only where there is no room for the word.
        ensures full { S.honest
            → HoldsOf (bytes_at (S.content source.old) self.old.place) self.old
            → self.old.fault ≡ None → IsErrOf result ReadFault.Memory → (n : ℕ)
            → HasRoom n self.old → length self.old.word.items ≤ n → (t : List ℕ × Entry × ℕ)
            → word_after (bytes_at (S.content source.old) self.old.place) self.old ≡ Ok t
            → n < length t.0 }
        ensures room { vec_capacity self.old.word ≤ vec_capacity self.new.word }
        ensures rooms { (n : ℕ) → HasRoom n self.old → HasRoom n self.new }

        ensures fewer { IfOk result (λ more. IsTrue more
            → words_left self.new < words_left self.old) }
        ensures place { self.new.place ≡ self.old.place }
        ensures ahead { ReadsAhead self.old.held.most self.new }
        ensures faults { IfErr result (λ e. self.new.fault ≡ Some e) }
        ensures sound { IsOk result → self.new.fault ≡ None }
        ensures size { length (S.content source.new) ≡ length (S.content source.old) }
        ensures repeats { IfSome self.old.fault
            (λ e. (result ≡ Err e) × (source.new ≡ source.old)) }
        ensures left { self.old.fault ≡ None
            → ReadsSource S.ByteSource CountsReads result source.old source.new }
        ensures asks { S.honest → OnOk result (S.asked source.new
            ≤ S.asked source.old + 6 + asks_for (length self.new.word.items)) }
    {
        if let Some(fault) = self.fault {
            return Err(fault);
        }
        if self.read == self.place.terms {
            return Ok(false);
        }
        match self.advance(source) {
            Ok(()) => Ok(true),
            Err(fault) => {
                self.fault = Some(fault);
                Err(fault)
            }
        }
    }

    /// Goes to the first word that is not less than another, forward or back, and says whether
    /// there is one; if not, all words are passed. After a fault it answers that fault.
    ///
    /// Bytes that are no dictionary may be refused as Damaged, or not; but no word of them is passed
    /// over unread, from the group on where first terms of groups say that the search begins.
    ///
    /// `pivots` is a table for this dictionary as `look_up_near` takes it, or empty: no number in it
    /// is believed.
    pub fn seek<S: ByteSource>(
        &mut self,
        source: &mut S,
        pivots: &mut [u64],
        word: &[u8],
    ) -> Result<bool, ReadFault>
        requires lies { LiesIn self.old.place (length (S.content source.old)) }
        ensures at { S.honest → (es : List Item) (n : ℕ)
            → StandsAt (bytes_at (S.content source.old) self.old.place) self.old es n
            → MatchResult result
            (IsSought (bytes_at (S.content source.old) self.old.place) self.new es word.now)
            (λ e. e ≡ ReadFault.Damaged → ⊥) }

        // Of any bytes.
        ensures holds { S.honest
            → HoldsOf (bytes_at (S.content source.old) self.old.place) self.old
            → OnOk result (HoldsOf (bytes_at (S.content source.old) self.old.place) self.new) }
        ensures said { S.honest
            → HoldsOf (bytes_at (S.content source.old) self.old.place) self.old
            → IfOk result
            (HasSought (bytes_at (S.content source.old) self.old.place) self.new word.now) }
        ensures end { result ≡ Ok false → words_left self.new ≡ 0 }

        ensures place { self.new.place ≡ self.old.place }
        ensures ahead { ReadsAhead self.old.held.most self.new }
        ensures faults { IfErr result (λ e. self.new.fault ≡ Some e) }
        ensures sound { IsOk result → self.new.fault ≡ None }
        ensures size { length (S.content source.new) ≡ length (S.content source.old) }
        ensures repeats { IfSome self.old.fault
            (λ e. (result ≡ Err e) × (source.new ≡ source.old)) }
        ensures left { self.old.fault ≡ None
            → ReadsSource S.ByteSource CountsReads result source.old source.new }
        ensures asks { S.honest → (es : List Item) (n : ℕ)
            → StandsAt (bytes_at (S.content source.old) self.old.place) self.old es n
            → OnOk result ((k m : ℕ) → group_count self.old.place.terms ≤ 2 ^ k
            → AllByRecursion (λ (e : Item). asks_for (length e.term) ≤ m) es
            → S.asked source.new ≤ S.asked source.old
            + (k + 3) * (6 + asks_for (length word.now)) + 1 + 17 * (6 + m)) }
    {
        if let Some(fault) = self.fault {
            return Err(fault);
        }
        match self.find(source, pivots, word) {
            Ok(more) => Ok(more),
            Err(fault) => {
                self.fault = Some(fault);
                Err(fault)
            }
        }
    }

    // Goes to the first word that is not less than another.
    fn find<S: ByteSource>(
        &mut self,
        source: &mut S,
        pivots: &mut [u64],
        word: &[u8],
    ) -> Result<bool, ReadFault>
        requires lies { LiesIn self.old.place (length (S.content source.old)) }
        ensures at { S.honest → (es : List Item) (n : ℕ)
            → Comes (bytes_at (S.content source.old) self.old.place) self.old es n
            → MatchResult result
            (IsSought (bytes_at (S.content source.old) self.old.place) self.new es word.now)
            (λ e. e ≡ ReadFault.Damaged → ⊥) }
        ensures holds { S.honest
            → HoldsOf (bytes_at (S.content source.old) self.old.place) self.old
            → OnOk result (HoldsOf (bytes_at (S.content source.old) self.old.place) self.new) }
        ensures said { S.honest
            → HoldsOf (bytes_at (S.content source.old) self.old.place) self.old
            → IfOk result
            (HasSought (bytes_at (S.content source.old) self.old.place) self.new word.now) }
        ensures end { result ≡ Ok false → words_left self.new ≡ 0 }
        ensures place { self.new.place ≡ self.old.place }
        ensures ahead { ReadsAhead self.old.held.most self.new }
        ensures fault { self.new.fault ≡ self.old.fault }
        ensures left { ReadsSource S.ByteSource CountsReads result source.old source.new }
        ensures asks { S.honest → (es : List Item) (n : ℕ)
            → Comes (bytes_at (S.content source.old) self.old.place) self.old es n
            → OnOk result ((k m : ℕ) → group_count self.old.place.terms ≤ 2 ^ k
            → AllByRecursion (λ (e : Item). asks_for (length e.term) ≤ m) es
            → S.asked source.new ≤ S.asked source.old
            + (k + 3) * (6 + asks_for (length word.now)) + 1 + 17 * (6 + m)) }
    {
        if self.place.terms == 0 {
            return Ok(false);
        }
        let start = first_start(source, self.place, pivots, word)?;
        self.begin(start);
        while self.read < self.place.terms {
            self.advance(source)?;
            if !is_less(&self.word, word) {
                return Ok(true);
            }
        }
        Ok(false)
    }

    // Goes before the first word of a group.
    fn begin(&mut self, start: GroupStart)
        requires some { 16 * start.group < self.old.place.terms }
        ensures at { (bytes word : List ℕ) (es : List Item) (n : ℕ) → Comes bytes self.old es n
            → BeginsAt bytes es word start.group start.at
            → Comes bytes self.new es (16 * start.group) }
        ensures held { self.new.held ≡ self.old.held }
        ensures place { self.new.place ≡ self.old.place }
        ensures ahead { ReadsAhead self.old.held.most self.new }
        ensures fault { self.new.fault ≡ self.old.fault }
        ensures read { self.new.read ≡ 16 * start.group }
        ensures from { self.new.at ≡ start.at }
        ensures none { self.new.word.items ≡ [] }
    {
        self.read = 16 * start.group;
        self.at = start.at;
        self.word.clear();
    }

    // Passes the next word, which there is.
    fn advance<S: ByteSource>(&mut self, source: &mut S) -> Result<(), ReadFault>
        requires lies { LiesIn self.old.place (length (S.content source.old)) }
        requires some { self.old.read < self.old.place.terms }
        ensures at { S.honest → (es : List Item) (n : ℕ)
            → Comes (bytes_at (S.content source.old) self.old.place) self.old es n
            → MatchResult result
            (λ _. StandsAt (bytes_at (S.content source.old) self.old.place) self.new es (n + 1))
            (λ e. e ≡ ReadFault.Damaged → ⊥) }
        ensures holds { S.honest
            → HoldsOf (bytes_at (S.content source.old) self.old.place) self.old
            → OnOk result (HoldsOf (bytes_at (S.content source.old) self.old.place) self.new) }
        ensures said { S.honest
            → HoldsOf (bytes_at (S.content source.old) self.old.place) self.old
            → OnOk result
            (HasRead (bytes_at (S.content source.old) self.old.place) self.old self.new) }
        ensures damaged { S.honest
            → HoldsOf (bytes_at (S.content source.old) self.old.place) self.old
            → IsErrOf result ReadFault.Damaged
            → IsBroken (bytes_at (S.content source.old) self.old.place) self.old }
        ensures full { S.honest
            → HoldsOf (bytes_at (S.content source.old) self.old.place) self.old
            → IsErrOf result ReadFault.Memory → (n : ℕ)
            → HasRoom n self.old → length self.old.word.items ≤ n → (t : List ℕ × Entry × ℕ)
            → word_after (bytes_at (S.content source.old) self.old.place) self.old ≡ Ok t
            → n < length t.0 }
        ensures room { vec_capacity self.old.word ≤ vec_capacity self.new.word }
        ensures rooms { (n : ℕ) → HasRoom n self.old → HasRoom n self.new }
        ensures place { self.new.place ≡ self.old.place }
        ensures ahead { ReadsAhead self.old.held.most self.new }
        ensures fault { self.new.fault ≡ self.old.fault }
        ensures read { OnOk result (self.new.read ≡ self.old.read + 1) }
        ensures left { ReadsSource S.ByteSource CountsReads result source.old source.new }
        ensures asks { S.honest → OnOk result (S.asked source.new
            ≤ S.asked source.old + 6 + asks_for (length self.new.word.items)) }
    {
        let spot = Spot {
            index: self.read,
            at: self.at,
        };
        let (entry, next) = next_word(source, self.place, spot, &mut self.held, &mut self.word)?;
        self.entry = entry;
        self.at = next;
        self.read += 1;
        Ok(())
    }
}
