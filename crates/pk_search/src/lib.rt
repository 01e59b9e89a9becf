//! Search over stored segments: the numbers that a query finds.
//!
//! A caller hands the disk and the open segments (pk_open). What their entries stand for is said by
//! pk_state: by `SpellsEntries`, and for a find without a phrase by `IndexesEntries`, in which the
//! texts of kind 2 may be any bytes (`AnswersEntries`). The clauses hold for whatever is `present`
//! of it. `find_stored` answers the numbers of the live documents that satisfy a query. It reads
//! posting lists, texts for phrases, and of kind 1 each document.
//!
//! The words are looked up first in all segments of kind 2 (pk_lookup). The sums of their frequencies
//! go into the plan of the query (pk_plan), which is carried out in each of these segments (pk_match,
//! over the lists of `stored`): of an intersection the rarest word's list is taken out whole; a later
//! word is sought number by number where its list is more than 50 times as long as what is left, else
//! taken out too and joined. Where nothing is left, nothing more is read. For the beginning of a
//! word the lists of all words that begin so are united. For what only rules out, all documents are taken:
//! without a read where none of their numbers is missing. Words in a row are looked for in the texts
//! of what is left at the end (pk_phrase). A segment of kind 1 has no lists: its documents are read,
//! and the plan carried out over an index of the words of each (pk_live, by `hits`). The plan is
//! answered, so that other documents are found by it too.
//!
//! Damage that a dictionary, a list, a directory or a text answers is noted where it is met (`Damage`
//! of pk_lookup): so the clauses say that a find answers it too, whatever the bytes are.
//!
//! The answer is exact whatever the frequencies are: they choose the way alone. The cache of blocks
//! and the tables of words are kept from find to find as pk_lookup says.
//!
//! A search is refused as damaged where a segment is none, as disk where a read failed, or as
//! memory. It writes nothing.
#![tactic(auto)]

mod finding;
mod hits;
mod planned;
mod stored;
mod tables;

pub use finding::find_stored;
pub use tables::FindTables;
