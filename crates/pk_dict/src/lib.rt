//! A term dictionary: for each term how many documents it stands in, and where its posting list
//! lies.
//!
//! Terms rise by their bytes and stand in groups of sixteen, the last group perhaps shorter.
//! First comes one offset a group, then the groups, so a look-up halves over the groups by their
//! offsets and then goes through one group. A term in a group says how much of the term before it
//! keeps (front coding: Manning, Raghavan, Schütze, Introduction to Information Retrieval, 2008,
//! section 5.2.2).
//!
//! | part | bytes |
//! |---|---|
//! | offsets | for each group a u32, lowest byte first: where it starts, counted from the first group |
//! | groups | for each group its terms, one after the other |
//! | first term of a group | all of it as the rest, then its numbers |
//! | any other term | how many bytes it shares with the one before (all it can), its rest, its numbers |
//! | the rest of a term | its length, its bytes |
//! | numbers of a term | frequency, place of its list, bytes of its list |
//!
//! All numbers but the offsets are variable bytes (`pk_vbyte`). Without terms a dictionary has no
//! byte. Nothing in the bytes says how many terms there are: whoever reads them hands that in.
//!
//! A caller sees a dictionary as a list of items, each a term and its [`Entry`]: `DictSpells
//! bytes es` says that the bytes are the dictionary of the items `es`. Bytes of so many terms are
//! a dictionary of one list at most, and a list has one spelling ([`laws`]).
//!
//! - [`DictWriter`] takes the terms one by one and gives the bytes.
//! - [`look_up_near`] looks a term up in one that lies in a source, by short stretches, from the
//!   range on that a table of pivots tells. [`look_up_in`] does so without a table, [`entries_in`]
//!   gives the terms that begin with a prefix, and [`Dict`] asks both of bytes in memory, by the same
//!   steps: a slice is a source that lends itself. Crates above call none of these three but in tests.
//! - [`TermCursor`] goes through the words of one that lies in a source, each with its entry, and
//!   [`PrefixCursor`] through those that begin with a prefix. Each holds one word and as many bytes
//!   as its caller lets it read ahead, is handed the source at each call, and seeks by a table of
//!   pivots of pk_keys, as [`look_up_near`] looks a term up.
//! - [`Windows`] are a source over a source with two buffers, one for the offsets and one for the
//!   groups. They read 128 bytes at once, so few of the stretches of a look-up reach what lies
//!   below.
//!
//! Bytes that are no dictionary of that many terms are refused as Damaged wherever a reader sees
//! it: a number that ends too early or is too large, a part past the end, a term that keeps more
//! than the one before has, or that shares less than the order allows. Not each such byte is
//! seen, since a look-up reads only what it needs; every call returns. What is answered is a
//! function of the bytes, whatever they are (`look_up_at`, `entries_at`, `word_at`): Ok exactly
//! where it says so, Damaged exactly where it meets damage. A refusal leaves nothing changed, and
//! any call may follow; but a cursor answers the fault that it met from then on.
//!
//! The words of the contracts are in `specs`: `Dictionary` has the format, `Writer` what was
//! added, `LookUp`, `Entries` and `Words` what any bytes say of a term, of a prefix and of the word
//! that comes next, `Dict` the same of a slice, `Cursor` and `Prefix` where cursors stand and what
//! they have left, `Seeking` what a search passed over, as any bytes say it, `Windows` what windows
//! hold, `Place` and `Source` what a source has to do with it, `Reading`, `Scan` and `Search` what
//! each private step finds.
#![tactic(auto)]

mod ahead;
mod compare;
mod cursor;
mod dict;
mod entries;
mod entry;
mod fields;
mod head;
mod laws;
mod look_up;
mod near;
mod prefix;
mod seeking;
mod steps;
mod windows;
mod writer;

pub use cursor::TermCursor;
pub use dict::Dict;
pub use entries::entries_in;
pub use entry::{DictFault, DictPlace, Entry};
pub use look_up::{look_up_in, look_up_near};
pub use prefix::PrefixCursor;
pub use windows::Windows;
pub use writer::DictWriter;
