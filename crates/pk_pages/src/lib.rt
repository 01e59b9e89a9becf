//! A disk over another, which keeps pages of it in memory.
//!
//! # What a caller sees
//!
//! A `PageCache` is a disk: its bytes, open positions, moments, images and counts of failures are
//! those of the disk below, and it is honest where that one is. A read of pages that are kept is a
//! look-up and a copy, and makes no call below (`read`'s clause `hit`).
//!
//! A page is kept at its second miss, since most are missed once alone. At the first the bytes that
//! are asked for are read, nothing is kept (`once`), and the page is noted (`noted`). A read of
//! noted pages leaves them kept, as far as there is memory for them (`again`). So a third read of
//! the same bytes makes no call below, but where they lie in two pages and there is one slot
//! (`laws`).
//!
//! | what | how |
//! |---|---|
//! | a page | 4,096 bytes from a multiple of 4,096 on; the last of a disk may be shorter |
//! | a slot | a place for one page: page `p` can be in slot `p` modulo the number of slots alone |
//! | a read of 1 to 4,096 bytes | from its one or two pages; one that is not kept is missed |
//! | a miss | the bytes alone are read, or all of a page that is noted; it is noted from then on |
//! | a note | a page's number, in place of the last: page `p` has place `p` modulo 4,096 alone |
//! | a longer read, an empty one | goes below as it is; pages and notes stay (`long`) |
//! | a write | forgets the pages that it touches alone (`others`), then goes below |
//! | a sync | goes below; pages and notes stay |
//! | whether it is the latest | is asked below, of a disk that can tell; pages and notes stay |
//!
//! The slots are a direct-mapped cache (Hennessy and Patterson, Computer Architecture, appendix B:
//! "Where can a block be placed in a cache?"), written through, without allocation at a write.
//!
//! # Failures
//!
//! A fault is told where a call below failed, and the page that was to be read is not kept. After
//! a read that failed, and at first, no kept page answers until a read below has succeeded: a disk
//! whose count of failed reads is full answers a fault to every read, and only a read that
//! succeeded shows that it is not.
//!
//! # Memory
//!
//! `new` takes 40 bytes a slot and 32,768 for notes, and a slot takes 4,096 bytes as it first keeps
//! a page. Where there is no memory for the slots or for a page, reads go below, and where there is
//! none for notes each page counts as noted: that is no fault. With too few slots reads become
//! slower than without, since what is noted is read by whole pages.
#![tactic(auto)]

mod cache;
pub mod laws;
mod misses;
mod slots;

pub use cache::PageCache;
