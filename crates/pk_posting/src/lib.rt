//! Posting lists: rising numbers as packed bytes, and the sources that such bytes come from.
//!
//! A list has up to 134,217,728 numbers, each at least 1 and above the one before. The bytes of n
//! numbers, of which B = n div 128 blocks are whole:
//!
//! | part | bytes | what |
//! |---|---|---|
//! | count | 4 | n |
//! | skip entry, B times | 4 | the offset of the block's packed bytes |
//! | | 16 | the block's last four numbers |
//! | metablock, (B + 15) div 16 times | 16 | the widths of sixteen blocks |
//! | | 16 * width a block | up to sixteen packed blocks |
//! | tail | 1 to 5 a number | the n mod 128 numbers left |
//!
//! A number of four bytes has its lowest byte first. An offset counts from the start of the first
//! metablock. A block packs the differences of its 128 numbers to the fourth number before it, at
//! one width: the bit length of the greatest difference. Four zeros stand before the first number,
//! and the chain runs on from block to block. A width byte is 00 where there is no block. The tail
//! has the variable bytes of the differences to the number just before, 0 before the first. Nothing
//! follows it.
//!
//! So a list has one spelling, and a spelling is of one list: these laws are in `laws`. `encode`
//! gives the spelling. `decode` gives the list exactly where the bytes spell one, in just the
//! memory that its numbers need; it refuses other bytes as Damaged, and takes no memory for more
//! numbers than the bytes could spell. `Shape::of` and `skip_of` read fields alone, and take no
//! memory.
//!
//! A `ByteSource` lends stretches of some bytes: of a slice, or of a part of a disk. What its calls
//! leave is in `specs/Source.antt`; what reads it into memory answers a `ReadFault`. A list that
//! lies in a source is read in parts, without memory:
//!
//! | call | what it takes out | calls of the source, at most |
//! |---|---|---|
//! | `Shape::read` | the count, the number of blocks, the place of the tail | 4 |
//! | `block_in` | the numbers of a block | 2 |
//! | `tail_in` | the numbers of the tail | 2 |
//! | `last_in` | the last number of a block | 1 |
//!
//! Where the bytes spell a list these give its parts, and are not Damaged. Over other bytes each
//! returns, and may be Damaged or not: whether a width is the least, whether the widths past the
//! last block are 00, and whether each entry's numbers are those of its block, they don't tell.
//!
//! A `ListDecoder` takes a list out whole, as strictly as `decode`, without memory: `open`, by a
//! call of the source at most, `next_block` for each block in turn, by three, and `tail`, by one.
//! What was given is what the bytes spell so far (`HasGiven` in `specs/Decoder.antt`).
//!
//! In contracts, `longest_list` (`specs/Limits.antt`) is how many numbers a list has at most, and
//! `asks_for` how often a source is asked for so many bytes. `Spells` (`specs/Posting.antt`) says
//! field by field that bytes spell a list, `spelling` (`specs/Spelling.antt`) is those bytes as a
//! function of the list, and `HasShape` (`specs/Parts.antt`) says that they spell it, with these
//! parts. The blocks are those of Lemire, Boytsov, Kurz, SIMD compression and the intersection of
//! sorted integers (2016).
#![tactic(auto)]

mod decoder;
mod decoding;
mod encoding;
mod fault;
mod fields;
pub mod laws;
mod lent;
mod packed;
mod parts;
pub mod source;

pub use decoder::ListDecoder;
pub use decoding::{DecodeFault, decode};
pub use encoding::{encode, encode_into, length_of};
pub use fault::ReadFault;
pub use fields::{LONGEST_LIST, ListPlace, Shape, Skip, skip_of};
pub use parts::{block_in, last_in, tail_in};
pub use source::{ByteSource, MOST_LENT, SliceSource, SourceFault};
