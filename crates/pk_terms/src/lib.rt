//! A table of words, each once, found by its hash.
//!
//! A caller sees a [`Terms`] as the list of its words, in the order in which they were put in. A word
//! is known by its place in that list, so what belongs to it can lie in a list beside the table.
//!
//! | field | what it holds |
//! |---|---|
//! | `text` | the words' bytes, end to end; others may lie between them |
//! | `entries` | of each word its fingerprint, and where it begins and ends |
//! | `slots` | one more than the places of words, by their hashes; 0 where a slot is free |
//!
//! The fingerprint of a word of at most eight bytes is made of these: with the length it tells the
//! word, so that the text isn't read. Of a longer word it is a hash. A word is looked for from the
//! slot of its hash on, until a slot is free (open addressing with linear probing: Knuth, The Art of
//! Computer Programming, volume 3, section 6.4, algorithm L). At most half the slots are taken; then
//! there are twice as many. So a word takes no string of its own, and a table that is cleared is
//! filled again without asking for memory.
//!
//! Only want of memory is refused, as is a word beyond 4,294,967,295 of them or of their bytes, and
//! the table has the words that it had. A search and a clear take no memory.
#![tactic(auto)]

mod fingerprints;
mod slots;
mod terms;

pub use terms::Terms;
