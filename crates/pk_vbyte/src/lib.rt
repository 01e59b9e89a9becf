//! Variable bytes: a number below 2^32 in one to five bytes, by groups of seven bits.
//!
//! | bytes | value | what |
//! |---|---|---|
//! | all but the last | `00` to `7F` | the higher groups, the highest first |
//! | the last | `80` to `FF` | the lowest group, and 128 |
//!
//! The first byte is not `00`. So 824 is `06 B8`, 5 is `85` and 0 is `80`. A number has one
//! spelling, and no number's bytes begin those of another: a caller may put numbers side by side
//! and take them one by one.
//!
//! Refused are, in this order, a first byte `00`, bytes that end before a number does, and a number
//! that is too large. Nothing takes memory.
//!
//! The method is that of Manning, Raghavan, Schütze, Introduction to Information Retrieval (2008),
//! section 5.3.1. The words of the contracts are in `specs/VariableByte.antt`.
#![tactic(auto)]

pub mod laws;
pub mod variable;

pub use variable::{VFault, put, take};
