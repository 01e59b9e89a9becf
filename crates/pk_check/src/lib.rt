//! Whether what is committed on a disk is what its bytes say, byte for byte.
//!
//! The bytes are not believed. `check_segment` takes the documents out of a segment, one after
//! another: the number and the length of each text from the directory, the text from its place. Of
//! these documents it makes the segment again, part by part, and compares each part with the bytes:
//! the directory, the posting list of each word, the dictionary, and last the header. So it accepts
//! just the bytes that `build` of pk_segment gives for some documents, and has no rule of its own.
//!
//! | function | checks |
//! |---|---|
//! | `check_segment` | the bytes of one segment |
//! | `check_entries` | each segment of a body, the order of their numbers, and each deletion list |
//! | `check_body` | the body in force: what its entries stand for is what the disk holds |
//!
//! They only read. Of a segment they keep an index of the texts (pk_index), the directory, the
//! dictionary that is made again, one text and one posting list at a time: never all texts.
//!
//! A deletion list has to be spelled right, and each of its numbers has to be one of its segment.
//! Numbers rise from segment to segment, and stay below the next number.
//!
//! Refused as `Damaged` exactly where the bytes are those of no documents, as `Disk` exactly where
//! a read failed, and as `Memory`. Not damaged are bytes that another text with the same words
//! would have given: there are no checksums.
//!
//! The words of the contracts stand in `specs/`: `Checking` has those for a segment, `Deleted` for
//! a deletion list, `Entries` for entries, `Holding` for a body, and the others those of the steps.
#![tactic(auto)]

mod body;
mod comparing;
mod deleted;
mod entries;
mod index;
mod listing;
mod segment;
mod taken;
mod taking;

pub use body::{Checked, check_body};
pub use entries::check_entries;
pub use segment::check_segment;
