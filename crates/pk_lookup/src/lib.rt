//! Look-ups: what the dictionaries and posting lists of stored segments say of the words of a query.
//!
//! `look_up_all` looks each word up once in the dictionary of each segment of kind 2, however often
//! it comes (`repeats`), and gives a row of entries for each. Where the dictionary lies the open
//! segment has (pk_open), so no header is read. What the dictionaries say is kept by the word's place
//! (`listed`); `frequencies_of` sums it up for the plan, and `finds_nothing` tells the plans that
//! find nothing by it. `put_word` takes a word's list out whole by a cursor, block by block;
//! `cut_word` seeks number by number in it, for what is far longer than the numbers (`is_far`).
//! The words that begin alike are gone through by a cursor of the dictionary, and the list of each is
//! united with the others as it comes (`put_with_prefix`).
//!
//! Where the caller hands a cache of decoded blocks (pk_cache), a list that is taken out whole goes
//! through it, by the segment's id (`kept`): its whole blocks come from the cache or are put there,
//! its tail is read. A caller who never gives an id twice, and changes no extent that the entries
//! name, can keep it from find to find: where it agrees with the open segments (`CacheAgrees` in
//! specs/), it does so afterwards, and a new one always does.
//!
//! The caller also keeps `WordTables`. Those of the pivots of the dictionaries (`pivots`), by which a
//! look-up spares its first reads, are not believed, and no contract speaks of them. Filters of the
//! words of segments (`filters`, pk_filter) are: a word that one rules out is not looked up, and
//! where one rules out all of them nothing is read. They are kept by the segment's id, and agree with
//! the open segments as the cache does (`FiltersAgree`).
//!
//! Whatever the bytes are, what is told of a word in a segment without a filter is what its
//! dictionary says (`AreSaid`), and a list that is sought in lies in the segment (`IsOpened`). Of the
//! words that begin with a prefix none is left out (`HasUnited`), nor the list of one, which has as
//! many numbers as its entry says (`IsUnited`).
//!
//! Damage is noted where a dictionary or a list answers it (`Damage`): so the clauses say that
//! whoever looks a word up or takes its list out answers it too (`NotesDamage`).
//!
//! Answers `Damaged` where a dictionary or a list is none, `Disk` where a read failed, or `Memory`.
//! What was to be filled is open then; filters and cache agree as before.
#![tactic(auto)]

mod damage;
mod filters;
mod kept;
mod listed;
mod lists;
mod looking;
mod nothing;
mod pivots;
mod prefix;
mod repeats;
mod rising;
mod rows;
mod tables;

pub use damage::Damage;
pub use listed::{PlannedSegment, frequencies_of, frequency_at, rarest_of};
pub use lists::{cut_word, is_far, put_word};
pub use looking::look_up_all;
pub use nothing::finds_nothing;
pub use pivots::PivotTables;
pub use prefix::put_with_prefix;
pub use rows::EntryTable;
pub use tables::WordTables;
