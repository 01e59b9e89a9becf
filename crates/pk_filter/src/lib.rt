//! A filter of the words of a dictionary: it tells most words that are not among them in one look.
//!
//! The form is that of Apache Parquet: split blocks (Putze, Sanders, Singler, Cache-, Hash- and
//! Space-Efficient Bloom Filters, 2007). A block has eight lanes of 32 bits. The hash of a word
//! picks one block, and in each of its lanes one bit: its high half the block, its low half times
//! an odd number of the lane the bit. A word passes where all eight bits are set, and each word of
//! the dictionary sets its own. So where a word does not pass, it is none of them; of the others,
//! one in a thousand or so passes by chance, with 16 words a block.
//!
//! [`WordFilter::of_dictionary`] makes one of a dictionary (pk_dict) that lies in a source, which it
//! reads once, and is refused as that is: as damaged, as disk or as memory.
//! [`WordFilter::may_have`] asks it by a [`WordHash`], so that the word is hashed once for any
//! number of filters.
//!
//! The words of the contracts are in `specs`: `Hashed` has what a hash picks, `Bits` when its bits
//! are set, `Filter` which words pass, `Words` that all do which any bytes say, as a dictionary.
//! What that says of a dictionary's entries is a law ([`laws`]).
#![tactic(auto)]

mod bits;
mod filter;
mod hash;
pub mod laws;

pub use filter::WordFilter;
pub use hash::WordHash;
