//! The first bytes of a disk, as a disk: the store in a file that is longer than its store.
//!
//! # What a caller sees
//!
//! A `Shortened` is a disk of a length that is chosen once, over one that has as many bytes or
//! more. A read, a write and a sync go below as they are, and nothing is kept.
//!
//! | of the disk above | is |
//! |---|---|
//! | its bytes | the first `len` of those below |
//! | its open positions, its moments, its counts of failures | those below |
//! | its images since a moment | the first `len` bytes of each image below |
//! | honest | where the disk below is |
//!
//! No write reaches the bytes behind the first `len`, since none of its positions lies there.
#![tactic(auto)]

mod shortened;

pub use shortened::Shortened;
