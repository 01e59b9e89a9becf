//! An input of a walk: a segment's words with their lists, and how far the walk has come in them.

ghost use Rattle.std.specs.Prelude.{◌≡◌, ◌≤◌, ◌<◌, ◌+◌, ◌++◌, ℕ, List, Some, length, true, false};
ghost use Rattle.std.specs.Prelude.{IfErr, IfOk, MatchResult, OnOk};
ghost use Rattle.std.specs.Option.{option_map};
ghost use Rattle.pk_disk.specs.Units.{extent_bytes, start_of};
ghost use Rattle.pk_join.specs.Ahead.{bytes_ahead};
ghost use Rattle.pk_join.specs.Counted.{AreCounted};
ghost use Rattle.pk_join.specs.Joining.{MayJoin, joined_in};
ghost use Rattle.pk_join.specs.Keys.{HasKey};
ghost use Rattle.pk_join.specs.Listed.{
  AreFresh,
  AreListsOf,
  LieIn,
  head_of,
  is_sound,
  read_of,
  room_for,
  source_of,
  total_of,
};
ghost use Rattle.pk_posting.specs.Source.{CountsFaults};
ghost use Rattle.pk_segment.specs.Ahead.{HoldsNone, HoldsOf, ahead_room};
ghost use Rattle.pk_segment.specs.Indexed.{list_with};
ghost use Rattle.pk_segment.specs.OnlyRead.{ReadsDisk};
ghost use Rattle.pk_segment.specs.Reading.{CountsReads, IsNoDamage};
ghost use Rattle.pk_segment.specs.Spelling.{SegmentSpells};
ghost use Rattle.pk_state.specs.Committed.{Stored, live_of};

use crate::joined::WordList;
use crate::lists::{InputLists, StoredList, join_indexed, join_stored};
use pk_disk::{Disk, Extent};
use pk_keys::key;
use pk_posting::SourceFault;
use pk_segment::{Ahead, ReadFault};
use std::alloc::{AllocError, Global};

/// How many bytes of an input are read at once; where there are many, fewer.
pub const READ_AHEAD: usize = 32_768;

// How many bytes of all inputs are read ahead at most: where they are more than 32, of each fewer
// than of one alone.
const ALL_AHEAD: usize = 1_048_576;

/// The key of an input whose next word is to be read.
pub(crate) const UNREAD: u64 = 0;

/// An input of a walk: where it lies, its words with their lists, and how far the walk has come.
#[derive(Drop)]
pub struct Input {
    // Where it lies.
    pub(crate) extent: Extent,
    // Its words, with their lists.
    pub(crate) lists: InputLists,
    // Whether it stands at a word: it has come to one, and the walk has not passed that.
    pub(crate) stands: bool,
    // The key of that word. Where it stands at none, `UNREAD`, or the greatest number where all
    // were passed.
    pub(crate) key: u64,
    // What was read ahead of its lists.
    pub(crate) ahead: Ahead,
    ghost has: { HasKey key (head_of stands lists) },
    ghost counted: { AreCounted stands key (read_of lists) (total_of (source_of lists)) },
    ghost lies: { LieIn extent.bytes (source_of lists) },
    ghost sound: { is_sound lists ≡ true },
}

impl Input {
    ghost use Rattle.pk_join.specs.Rooms.{HasEnded, IsNoRefusal, IsRoomy};
    ghost use Rattle.pk_join.specs.WalkInput.{Holds, IsRead, StandsAs, passed_in, word_in};
    ghost use Rattle.pk_join.specs.Whole.{HeadIsWhole};

    /// One of so many inputs, before its first word. Nothing is read of it yet, and where its lists
    /// are on the disk there is memory to read ahead 32,768 bytes, or its share of 1,048,576.
    pub fn new(
        alloc: Global,
        extent: Extent,
        lists: InputLists,
        inputs: usize,
    ) -> Result<Input, AllocError>
        requires lies { LieIn extent.bytes (source_of lists) }
        requires fresh { AreFresh lists }
        ensures extent { IfOk result (λ i. i.extent ≡ extent) }
        ensures lists { IfOk result (λ i. i.lists ≡ lists) }
        ensures start { IfOk result (λ i. i.stands ≡ false) }
        ensures none { IfOk result (λ i. HoldsNone i.ahead) }
        ensures room { IfOk result (λ i. ahead_room i.ahead ≡ bytes_ahead inputs lists) }
    {
        let ahead = Ahead::new(alloc, bytes_of(inputs, &lists))?;
        Ok(Input {
            extent,
            lists,
            stands: false,
            key: UNREAD,
            ahead,
        })
    }

    /// Goes back before its first word, and forgets what was read of it. It takes room for the
    /// longest of the words that it came to.
    pub(crate) fn restart(&mut self) -> Result<(), AllocError>
        ensures extent { self.new.extent ≡ self.old.extent }
        ensures source { source_of self.new.lists ≡ source_of self.old.lists }
        ensures start { self.new.stands ≡ false }
        ensures fresh { AreFresh self.new.lists }
        ensures none { HoldsNone self.new.ahead }
        ensures roomy { (bytes : List ℕ) → Holds bytes self.old → HasEnded self.old
            → OnOk result (IsRoomy bytes self.new) }
    {
        self.stands = false;
        self.key = UNREAD;
        self.ahead.clear();
        self.lists.rewind()
    }

    /// The word at its head; none where it stands at none.
    pub(crate) fn head(&self) -> Option<&[u8]>
        ensures { option_map (λ w. w.now) result ≡ head_of self.now.stands self.now.lists }
    {
        if self.stands {
            Some(self.lists.word())
        } else {
            None
        }
    }

    /// The word that it came to last; no bytes before the first.
    pub(crate) fn word(&self) -> &[u8]
        ensures { result.now ≡ word_in (Some self.now) }
    {
        self.lists.word()
    }

    /// Passes the word at its head. The next one is not read yet.
    pub(crate) fn pass(&mut self)
        requires { self.old.stands ≡ true }
        ensures extent { self.new.extent ≡ self.old.extent }
        ensures lists { self.new.lists ≡ self.old.lists }
        ensures passed { passed_in self.new ≡ passed_in self.old + 1 }
        ensures ahead { self.new.ahead ≡ self.old.ahead }
    {
        self.key = UNREAD;
        self.stands = false;
    }

    /// Goes to its next word, where it stands at none; behind the last one it stays.
    pub(crate) fn read<D: Disk>(&mut self, disk: &mut D) -> Result<(), ReadFault>
        requires inside { start_of self.old.extent + self.old.extent.bytes
            ≤ length (D.content disk.old) }
        ensures extent { self.new.extent ≡ self.old.extent }
        ensures source { source_of self.new.lists ≡ source_of self.old.lists }
        ensures read { OnOk result (IsRead self.new) }
        ensures passed { OnOk result (passed_in self.new ≡ passed_in self.old) }
        ensures holds { D.honest → Holds (D.content disk.old) self.old
            → OnOk result (Holds (D.content disk.old) self.new) }
        ensures undamaged { D.honest → (s : Stored) (kind : ℕ)
            → SegmentSpells (extent_bytes (D.content disk.old) self.old.extent) s.documents kind
            → AreListsOf (source_of self.old.lists) kind s.documents s.dead
            → Holds (D.content disk.old) self.old → IfErr result IsNoDamage }
        ensures roomy { D.honest → Holds (D.content disk.old) self.old
            → IsRoomy (D.content disk.old) self.old → IfErr result IsNoRefusal }
        ensures rooms { (bytes : List ℕ) → IsRoomy bytes self.old
            → OnOk result (IsRoomy bytes self.new) }
        ensures left { ReadsDisk D.Disk CountsReads result disk.old disk.new }
    {
        if self.stands {
            return Ok(());
        }
        self.key = UNREAD;
        if self.lists.next(disk, self.extent)? {
            self.key = key(self.lists.word());
            self.stands = true;
        } else {
            self.key = u64::MAX;
        }
        Ok(())
    }

    /// Puts what it leaves of the list of the word at its head behind what is joined. It takes no
    /// memory.
    pub(crate) fn join<D: Disk>(
        &mut self,
        disk: &mut D,
        list: &mut WordList,
    ) -> Result<(), SourceFault>
        requires inside { start_of self.old.extent + self.old.extent.bytes
            ≤ length (D.content disk.old) }
        requires word { self.old.stands ≡ true }
        requires room { room_for (source_of self.old.lists) ≤ length list.old.made.items }
        ensures joined { D.honest → (s : Stored) (kind : ℕ) (w : List ℕ)
            → Holds (D.content disk.old) self.old
            → SegmentSpells (extent_bytes (D.content disk.old) self.old.extent) s.documents kind
            → AreListsOf (source_of self.old.lists) kind s.documents s.dead
            → head_of self.old.stands self.old.lists ≡ Some w
            → MayJoin list.old.joined (list_with w (live_of s)) → MatchResult result
            (λ _. joined_in list.new.joined
            ≡ joined_in list.old.joined ++ list_with w (live_of s)) (λ e. e ≡ SourceFault.Disk) }
        // Whatever the bytes are, a list that is none, or that goes past the extent, is not joined.
        ensures whole { OnOk result (HeadIsWhole D.honest (D.content disk.old) self.old) }
        ensures holds { D.honest
            → HoldsOf (extent_bytes (D.content disk.old) self.old.extent) self.old.ahead
            → HoldsOf (extent_bytes (D.content disk.new) self.new.extent) self.new.ahead }
        ensures stands { StandsAs self.old self.new }
        ensures room { list.new.joined.room ≡ list.old.joined.room }
        ensures made { length list.new.made.items ≡ length list.old.made.items }
        ensures left { ReadsDisk D.Disk CountsFaults result disk.old disk.new }
    {
        match &self.lists {
            InputLists::Stored {
                words,
                postings,
                marks,
            } => {
                let stored = StoredList {
                    place: words.entry().place,
                    postings: *postings,
                    dead: marks,
                };
                join_stored(disk, self.extent, stored, &mut self.ahead, &mut list.joined)
            }
            InputLists::Indexed { words, marks } => join_indexed(
                &words.texts,
                marks,
                words.read - 1,
                &mut list.made,
                &mut list.joined,
            ),
        }
    }
}

// How many bytes of one of so many inputs are read ahead: none where its lists are in memory.
fn bytes_of(inputs: usize, lists: &InputLists) -> usize
    ensures { result ≡ bytes_ahead inputs lists.now }
{
    match lists {
        InputLists::Stored { .. } => READ_AHEAD.min(ALL_AHEAD / inputs.max(1)),
        InputLists::Indexed { .. } => 0,
    }
}
