//! Operations on sets of numbers, as strictly rising lists.
//!
//! A set is a slice of `u32` whose numbers rise strictly; the empty one is a set. Each call writes
//! its result into the front of a slice that the caller gives, and answers how many numbers there
//! are. What stands in the slice past them is open.
//!
//! | call | result | room |
//! |---|---|---|
//! | `both` | the numbers in both lists | the shorter length |
//! | `either` | the numbers in at least one | the sum of the lengths |
//! | `without` | the numbers of the first that are not in the second | the first length |
//!
//! `both` is one of two: `both_merge` for lists of like length, `both_gallop` where one is more
//! than 50 times as long as the other. The merge compares four numbers against four. The gallop
//! steps through the long list in stretches of 32, doubling its step until it has passed a number,
//! then halves the way back, and compares the stretch it ends at in lanes. Both are after Lemire,
//! Boytsov and Kurz (2016), "SIMD compression and the intersection of sorted integers".
//!
//! `either` goes by single numbers, without a branch on which is lower, through the lower and the
//! higher halves of both lists side by side: each step waits for the one before, and two rows of
//! steps wait at the same time. `without` compares four against four, and keeps a number once
//! nothing that is left of the second list can meet it; of a list that misses no number between its
//! first and its last, as that of all documents mostly is, each number of the second tells where in it
//! it stands. Where one list is some 8 times as long as the other or longer, both copy or pass its
//! numbers in runs, four at once, up to the next number of the other. The ends are done plainly.
//!
//! Contracts see a set as its list. `specs/Sets.antt` has the operations by membership, and `laws`
//! what follows from them: the results rise, the order of the two lists does not matter, and the
//! sizes. `is_rising` tells whether numbers are a set at all. Nothing is refused, and no call takes
//! memory.
#![tactic(auto)]

mod cursor;
mod excluding;
mod finding;
mod galloping;
mod gapless;
mod intersecting;
pub mod laws;
mod merging;
mod rising;
mod uniting;
mod writing;

pub use excluding::without;
pub use galloping::both_gallop;
pub use intersecting::both;
pub use merging::both_merge;
pub use rising::is_rising;
pub use uniting::either;
