//! Deletion lists: the numbers of a segment's documents that are deleted.
//!
//! A segment is not written again when one of its documents is deleted: the document's number goes
//! into a list that stands beside the segment, and whoever reads the segment passes the documents
//! that the list names. This is the invalidation bit vector of Manning, Raghavan, Schütze,
//! Introduction to Information Retrieval (2008), section 4.5, kept as a list.
//!
//! A caller sees a `Dead` as the list of its numbers. It is a posting list: its numbers rise, each
//! is at least 1 and below 2^32, and there are 134,217,728 at most. So its bytes on a disk are
//! those of a posting list, and `spell` asks for nothing.
//!
//! | call | what it gives |
//! |---|---|
//! | `new` | a list without a number, without memory |
//! | `contains` | whether a number is in the list, by halving |
//! | `add` | the list with one number more, or as it was where memory ends or the number is there |
//! | `numbers` | the numbers as a slice, for the calls that take rising lists |
//! | `spell` | the bytes |
//! | `read` | the list that bytes spell; other bytes are refused as Damaged |
//! | `copy` | the same list, in memory of its own |
//!
//! A call that takes memory answers an error where there is none, and leaves the list as it was.
//! How many bytes a list takes is what `pk_posting::length_of` says of its numbers. `specs/` has
//! `with_number`, a rising list with a number put in, and `laws` what follows from it: the order,
//! the members and the length of the longer list.
#![tactic(auto)]

mod deletion;
pub mod laws;

pub use deletion::Dead;
