//! Segments: documents in the bytes of an extent.
//!
//! A segment is made once, of documents whose numbers rise, and never changed. A caller sees it as
//! the list of its documents: what is built spells them, and whoever opens bytes that spell them
//! reads just them again (`laws::a_segment_is_of_one_list`).
//!
//! # The bytes of a segment
//!
//! | offset | field |
//! |---|---|
//! | 0 | the kind, 1 or 2 (`PLAIN`, `INDEXED`) |
//! | 4 | document count c, at least 1 |
//! | 8 | bytes of all texts T |
//! | 12 | bytes of postings P, 0 in kind 1 |
//! | 16 | bytes of the dictionary G, 0 in kind 1 |
//! | 20 | number of terms, 0 in kind 1 |
//! | 24 | c directory entries of 12 bytes: number, offset of the text among the texts, its length |
//! | 24 + 12c | the texts in order, without gaps, in UTF-8 |
//! | + T | in kind 2 the posting list of each term, in the terms' order, without gaps |
//! | + P | in kind 2 the dictionary of the terms |
//!
//! All fields are of 32 bits, lowest byte first. Numbers are at least 1 and rise strictly. The
//! length is 24 + 12c + T + P + G, at most 1,073,741,824.
//!
//! The terms are the words that occur in the documents, folded, rising by their bytes. The list of
//! a term has the numbers of the documents that hold it (pk_posting), and the dictionary says how
//! many these are and where the list lies (pk_dict): an inverted index (Manning, Raghavan, Schütze,
//! Introduction to Information Retrieval, 2008, chapter 1).
//!
//! # What is read
//!
//! `Segment::open` reads the header and the first and last entry, and takes no memory. `contains`
//! halves the directory; `text_of` does so too, and then reads the one text, at most 4,096 bytes at
//! once. Whoever wants many documents reads the `directory` into memory, in stretches as long, and
//! then with `document_in` each text once. Of kind 2, `list_of` looks a word up in the dictionary,
//! whose entry leads to its list, `dictionary_place` says where that lies, as opening read it, and
//! `terms` gives all words. Each call that reads is handed the source; `ExtentSource` is an extent
//! of a disk as one, and can be turned to another; `AheadSource` is one that reads ahead, into the
//! buffer of an `Ahead`, as much as this has room for. Both read by `read_front`.
//!
//! # What is refused
//!
//! `build` and `size_of` answer `TooLarge` exactly where the length passes the limit, else at most
//! `Memory`. On bytes that spell documents a reader answers by them, or `Disk` or `Memory`; on any
//! others it returns, and `terms`, `entries_of`, `dictionary`, `text_of` and `document_at` tell what
//! these say. `open`, `contains`, `directory` and `numbers` go by the header and the directory
//! alone, whatever else the bytes are (`DirectorySpells`); `list_of` and `terms` by these and the
//! index, whatever bytes the texts are (`IndexSpells`). `Disk` is answered exactly where a read
//! failed. A refused call changed nothing but the counts, and may be made again. That the source was
//! only read, and the disk below, each reader's clause `left` tells.
//!
//! # What is written
//!
//! `build` cuts texts into words only where no index of them is at hand; `build_indexed` takes one
//! (pk_index), and answers the segment open too, by its header. The lengths of all lists are known
//! before the segment's memory is taken, once.
//!
//! `IndexWriter` makes the index word by word, and then the header; `put_header` and `put_entry`
//! write the bytes before the texts. A merge, which has no documents in memory, writes by them what
//! `build` would.
//!
//! Where the words are: `specs/Spelling` has the spelling, `specs/Indexed` the index behind the
//! texts, `specs/Listing` what is answered of words, `specs/Planning` what is known before writing,
//! `specs/Opened` and `specs/Reading` what the readers answer, `specs/Said` what any bytes say of
//! words, `specs/Texts` and `specs/Documents` of texts and documents, `specs/OnlyRead` what readers
//! leave of a disk, `specs/Ahead` what is held of an extent that is read ahead, `specs/Directory`
//! what a directory in memory says. Lemma pages:
//! `SegmentLemmas` reads a spelling again, field by field, `DirectoryLemmas` a directory,
//! `IndexLemmas` and `ListingLemmas` the index, `PlanLemmas` serves its writing, `ReadLemmas` and
//! `OpeningLemmas` the readers, `OnlyReadLemmas` calls one after the other.
#![tactic(auto)]

mod ahead;
mod ahead_source;
mod building;
mod directory;
mod extent;
mod front;
mod header;
mod index_writer;
mod indexing;
mod kind;
pub mod laws;
mod listing;
mod segment;
mod stretch;

pub use ahead::Ahead;
pub use ahead_source::AheadSource;
pub use building::{BuildFault, Built, build, build_indexed, size_of};
pub use directory::{Directory, ENTRY_BYTES, Entry};
pub use extent::{ExtentSource, read_front};
pub use front::{put_entry, put_header};
pub use header::{HEADER_BYTES, Header};
pub use index_writer::IndexWriter;
pub use kind::{INDEXED, PLAIN};
pub use pk_posting::ReadFault;
pub use segment::Segment;
