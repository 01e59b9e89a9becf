//! Merging: one segment of the documents that several segments with deletion lists leave.
//!
//! Documents are deleted by listing their numbers beside their segment, and each commit makes a
//! segment of its own. A merge is what takes both away again: it reads the segments one after the
//! other and builds a single one of the documents that are in no list (Manning, Raghavan, Schütze,
//! Introduction to Information Retrieval, 2008, section 4.5).
//!
//! | item | what it is |
//! |---|---|
//! | `MergeInput` | a segment on the disk: its extent, its kind, and its deletion list |
//! | `merged` | the bytes of the one segment, in memory; none where no document is left |
//! | `choose` | which eight neighbours to merge where not all are: those with the least bytes |
//! | `prepare` | a merge to a segment of kind 2: its exact length, and all that it needs |
//! | `Prepared::merge_into` | the segment that is prepared, written to the disk as it is read |
//! | `MergeWriter` | the same, for a body that is put in force with it (`WritesExtent`) |
//!
//! For `merged` the directory of each input is read once, in large stretches, and the text of each
//! document that is left, once. The documents are then in memory, all of them, until the segment is
//! built.
//!
//! # A merge that is written as it is read
//!
//! `prepare` reads the directories (of inputs of kind 1 the texts), and goes through the words of
//! all inputs side by side (pk_join), by a cursor over each dictionary: the least at their heads is
//! next.
//! Its list is joined from those of the inputs without the dead numbers, and packed. So the exact
//! length is known, and all memory taken, before the first write.
//!
//! The packed lists are kept as long as all of them have at most 67,108,864 bytes: then one walk is
//! enough, and it is let go before anything is written. Once they have more, or
//! where memory for them is refused, they are let go, and only their lengths are kept.
//!
//! `merge_into` then writes header and directory, the texts, the posting lists and the dictionary:
//! in writes of 65,536 bytes, the last one perhaps shorter. Where the lists were let go it goes
//! through the words a second time, and joins each list again. It takes no memory. It writes no
//! position outside the segment's place, whatever it reads and answers, and its bytes are those of
//! `merged`.
//!
//! Texts are read in spans: the next ones at once, as many as stand within 65,536 bytes from the
//! first one's place on, with what was deleted between them. So some hundred short texts are one
//! read, which is too long for a page cache to keep. A text that is a span alone is copied.
//!
//! What is prepared takes memory for:
//!
//! | what | how much |
//! |---|---|
//! | each document left | 16 bytes for its place, 12 in the directory, 4 in the list of one word |
//! | an input of kind 1 | the index of its texts, and its words |
//! | an input of kind 2 | its longest word, twice; of its dictionary at most 4,096 bytes |
//! | of its lists | 32,768 bytes to read ahead, past 32 inputs its share of 1 MiB |
//! | each deleted number | 4 bytes, and one for each number up to the next one, at most 64 |
//! | the dictionary | its bytes |
//! | the posting lists, up to 67,108,864 bytes of them | their bytes, and up to as many to grow |
//! | where they have more, the longest of them | its bytes |
//! | the texts that are read at once | 65,536 bytes |
//! | what is to be written | 65,536 bytes |
//!
//! It keeps no texts (of an input of kind 1 one at a time), and of inputs of kind 2 no lists but
//! the one that is joined. What it takes for inputs and deleted numbers it lets go where the
//! new lists are kept.
//!
//! # What is refused
//!
//! The answer is `TooLarge` exactly where the segment would pass 1,073,741,824 bytes. It comes at
//! the first document with which header, directory and texts pass them, so no more than that many
//! bytes of texts are ever kept; else when the segment is built. `Damaged` are inputs that are no
//! segments, and numbers that are 0 or don't rise from document to document and from input to
//! input, also where a list has them. `Disk` is answered exactly where a read failed, and `Memory`
//! where memory was refused. The disk was only read, whatever is answered, and the call may be made
//! again. Whatever was read, what `merged` answers is the bytes of a segment; and where `prepare`
//! leaves a document, each dictionary is one, and so is each list that it names, in its extent.
//!
//! `merge_into` answers `Damaged` where what it reads isn't what was prepared, `Disk` exactly where
//! a read failed and `NotWritten` exactly where a write did: then a part of the segment may stand
//! in its place. After the first two the merge may be prepared again.
//!
//! Where the words are: `specs/Merging` has what a merge answers (what inputs spell is in pk_join's
//! `specs/Inputs`), `specs/Gathering` what stands in memory on the way, `specs/Choosing` what is
//! chosen, `specs/Prepared` what is prepared, `specs/Lists` its posting lists, `specs/Counting` how
//! many documents are left at the least, whatever the bytes are, `specs/Said` what these say of
//! words, `specs/Keeping` where the texts stand that are kept, `specs/Spans` which of them are read
//! at once, `specs/Output` what was given to be written, `specs/Apart` what lies apart from it,
//! `specs/Streaming` what `MergeWriter` promises. Lemma pages: `FaultLemmas` on faults that are
//! passed on, `RiseLemmas` on the order of the numbers, `CountLemmas` on their count,
//! `GatherLemmas` on what was gathered, `InputLemmas` on the inputs, each with what it spells,
//! `LiveLemmas` on the documents that are left, `SpanLemmas` on texts that are read at once,
//! `GivenLemmas` and `StreamLemmas` on what is given part after part, `WholeLemmas` on lists that
//! are whole; pk_join's `TermWalkLemmas` on the walk through the words.
#![tactic(auto)]

mod choosing;
mod fault;
mod front;
mod gathered;
mod kept;
mod left;
mod lists;
mod merge_writer;
mod merging;
mod output;
mod planning;
mod prepared;
mod preparing;
mod reading;
mod streaming;
mod texts;
mod writing;

pub use choosing::choose;
pub use fault::MergeFault;
pub use merge_writer::MergeWriter;
pub use merging::merged;
pub use pk_join::MergeInput;
pub use prepared::Prepared;
pub use preparing::prepare;
