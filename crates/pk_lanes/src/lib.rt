//! Blocks of 128 numbers, packed in four lanes.
//!
//! The vertical layout of Lemire, Boytsov and Kurz (2016), "SIMD compression and the intersection
//! of sorted integers". A block is 128 numbers of 32 bits, seen as 32 vectors of four, one number a
//! lane. At a width of b bits, from 0 to 32, it takes 16·b bytes: b vectors of four words.
//!
//! | what | where |
//! |---|---|
//! | lane of number i | i mod 4 |
//! | word w of lane c | the four bytes at 16·w + 4·c, the lowest first |
//! | number i | the bits (i div 4)·b to (i div 4)·b + b − 1 of its lane's words, the lowest first |
//!
//! So one shift moves the bits of four numbers, and none crosses from lane to lane. The bytes are
//! those of a packed block if and only if there are 16·b of them: every bit belongs to a number.
//! Numbers have one packed form at a width, and a packed form is of one list of numbers (`laws`).
//!
//! The numbers of a rising list are packed as the differences of each number to the fourth before
//! it, which a vector subtracts and adds in one step; a seed gives the four numbers before the
//! first. Both are taken modulo 2^32, so a caller that reads foreign bytes asks `ascending` for the
//! order.
//!
//! Contracts see a block, a seed and the bytes as lists. Nothing is refused: each call takes what
//! its conditions allow and always succeeds, and none takes memory. The words of the contracts are
//! in `specs/Packed.antt` and `specs/Differences.antt`.
#![tactic(auto)]

mod differences;
mod dispatch;
pub mod laws;
mod packing;
mod questions;
mod sums;
mod unpacking;
mod vectors;

pub use differences::{differ, restore};
pub use packing::pack;
pub use questions::{ascending, width};
pub use sums::unpack_sums;
pub use unpacking::unpack;
