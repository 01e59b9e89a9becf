//! Rising lists of numbers put together: two in place, and the union of many.
//!
//! `keep_both`, `keep_without` and `put_either` put a list to numbers that are there, by the merges
//! of pk_sets, in buffers that change places.
//!
//! `UnionBuilder` unites lists of which there may be very many, as for a prefix. The first are merged
//! on a stack, on which each is more than twice as long as the one above it. Once they have enough
//! numbers, these are marked, so a number is not merged again and again. A caller sees it as the
//! numbers that were put, a rising list.
//!
//! Only want of memory is refused. What the lists hold then is open, and what the builder does.
#![tactic(auto)]

mod joining;
mod union;
mod uniting;

pub use joining::{keep_both, keep_without, put_either};
pub use union::UnionBuilder;
