//! Blocks of posting lists that were decoded, kept by their last use.
//!
//! A caller sees a cache as a map from keys to blocks, in the order of their last use. A key names
//! a block of a list of a segment: by the segment's number, the place of the list in its source,
//! and the number of the block in the list. A cache never has more blocks than its capacity.
//!
//! `block` answers the numbers of a block. Where they are kept, the source is not called; else the
//! block is decoded by `block_in` of pk_posting, and kept:
//!
//! | the block | answer | calls of the source | kept afterwards |
//! |---|---|---|---|
//! | is kept | its numbers | none | it first |
//! | is read | its numbers | at most 2 | it first; of a full cache the last goes |
//! | is read, without memory to keep it | its numbers | at most 2 | what was |
//! | is not in the list | Damaged | none | what was |
//! | is not read | Damaged or Disk | at most 2 | what was |
//!
//! Want of memory costs a second decode and nothing else, so no call is refused for it.
//!
//! A cache keeps what it decoded, whatever becomes of the bytes. So a caller who never uses the
//! number of a segment twice, and never changes the bytes of one, can keep a cache as its segments
//! come and go. Such a caller holds a fact of each key and the block that is kept for it: that the
//! block is the one of the key's list, if its segment is there. An answer has that fact too, and so
//! has all that is kept afterwards.
//!
//! In contracts, `Keeps` (`specs/Kept.antt`) says what a cache keeps, `entries_after` what it keeps
//! after an answer, `Agrees` that a map has all that is kept, and `IsBlockAt` that numbers are the
//! block at a key, of whatever list stands at its place. `proofs/CallerLemmas.antt` says of any
//! fact what `agrees` says of a map.
#![tactic(auto)]

mod cache;
mod key;

pub use cache::{BlockCache, MOST_BLOCKS};
pub use key::BlockKey;
