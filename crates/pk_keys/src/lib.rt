//! Keys of words: their first eight bytes as one number, by which most words are told apart without
//! a look at the words.
//!
//! [`key`] gives the key of a word. Of two words that differ in their keys, the one with the lesser
//! key is the lesser word (`proofs/KeyOrder.antt`); of words with the same key nothing is known.
//!
//! A table of *pivots* spares a halving its first steps. It has the key of the word that stands in
//! the middle of a range, for each range that a halving of so many words comes to, as a heap lays
//! out a tree: that of the whole range at 1, of the two parts of the range at `node` at `2 * node`
//! (below its middle) and `2 * node + 1` (above), and 0 where none is known. [`around`] goes down
//! the tree as far as the keys decide, [`keep`] puts a key in. A table of 4,096 keys has the first
//! twelve steps, whatever the words are.
//!
//! No table is believed: `around` answers a range for any numbers, and whoever halves looks at the
//! words at both ends of it first.
//!
//! The words of the contracts are in `specs/Keys.antt`.
#![tactic(auto)]

pub mod keys;
pub mod pivots;

pub use keys::key;
pub use pivots::{Bounds, around, keep};
