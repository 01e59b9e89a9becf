//! The words of several segments, gone through side by side, and the list of each, joined of those
//! of the segments that have it, without the deleted numbers.
//!
//! The words of a segment come in order, and so do the numbers of each posting list. Several
//! segments are then merged without a sort: the least word at their heads comes next, and the lists
//! of those that have it there are put one behind another, since the numbers rise from segment to
//! segment (Manning, Raghavan, Schütze, Introduction to Information Retrieval, 2008, section 4.2).
//! Words are compared by their keys first, the first eight bytes of each as a number. The keys of
//! the words at the heads lie side by side, and the least of each 64 is kept, so that a scan of them
//! is short, and passes over most where inputs are many. Deleted numbers are marked, a byte for each
//! number from the first to the last of a deletion list, so that each number of a list takes one
//! look; a list whose numbers lie far apart is halved.
//!
//! | item | what it is |
//! |---|---|
//! | `MergeInput` | a segment on the disk: its extent, its kind, and its deletion list |
//! | `InputLists` | a cursor over the words of an input, with their lists |
//! | `read_lists` | those of a segment of either kind |
//! | `Input` | an input of a walk: its words with their lists, and how far the walk has come |
//! | `Walk` | goes through the words that the inputs leave, each with its numbers |
//!
//! Of an input of kind 2 a cursor goes through the dictionary: one word of it is in memory, and a
//! sixteenth of it that was read at once, from 256 to 4,096 bytes. So the memory of a walk goes by
//! its inputs, not by their words. A word's place stays where it was passed, and the next one is read
//! when the walk goes on: so the word where it has gone is still there. A list is read when its word
//! comes, and with it what stands behind: a `Walk` holds 32,768 bytes of each input of kind 2, past
//! 32 of them its share of 1 MiB, and lends lists of them as long as they last, since they lie in the
//! order of their words. A longer list is read beside, block by block. Of an input of kind 1 there is an index of the texts, in memory. Of the lists
//! that are joined one word's is in memory at a time. After `read_lists`, `Input::new` and
//! `Walk::new` a step takes memory only for a word that is longer than those before it; and a walk
//! that has passed all and begins anew takes room for the longest of each input, so then none.
//!
//! # What is refused
//!
//! `Damaged` is a segment that is none, or numbers that don't rise, or are more than there is room
//! for; `Disk` is answered exactly where a read failed, and then nothing of that input's lists is
//! held; and `Memory` where memory was refused. The disk is only read, and after a refusal a walk is
//! of no more use. Whatever the bytes are, the words of an input of kind 2 are all that its
//! dictionary says, and no word is passed whose list is none, or goes past the segment.
//!
//! Where the words are: `specs/Ahead` says how much is read ahead, `specs/Inputs` has what inputs
//! spell, `specs/Listed` what the words and lists of an input are, `specs/Reading` what was read of
//! them, `specs/Rooms` that there is room for each, `specs/Counted` how many were passed,
//! `specs/Said` where any bytes say they lie, `specs/Marks` what the marks of deleted numbers say,
//! `specs/Joining` what is joined, `specs/Keys` the keys of words, `specs/HeadKeys` the groups of
//! keys, `specs/Noted` which inputs have the least of the words at their heads, `specs/Walking` the
//! words side by side, `specs/WalkInput` the inputs of a walk, `specs/Walk` where it has come,
//! `specs/Whole` that it passes whole lists, and `specs/WholeLists` that all of a segment are.
//! Lemma pages: `TermWalkLemmas` on the walk, whose words are the terms of the documents that are
//! left; `ShowLemmas` on what cursors show of them; `RoomLemmas` on their memory; `JoinLemmas` on
//! one word's list.
#![tactic(auto)]

mod head_keys;
mod input;
mod joined;
mod joining;
mod keys;
mod lent;
mod lists;
mod marks;
mod reading;
mod rooms;
mod terms;
mod text_cursor;
mod text_lists;
mod walk;
mod walk_input;
mod walking;

pub use input::MergeInput;
pub use lists::InputLists;
pub use reading::read_lists;
pub use walk::Walk;
pub use walk_input::{Input, READ_AHEAD};
