//! Numbers in decimal, written in place, each behind a space.
//!
//! Numbers that rise in small steps mostly have the same digits, but for the last four.
//! [`LeadingDigits`] keeps the text of the others, so that a number is written as that text, eight
//! bytes at once, and four digits out of a table ([`FourDigits`]). A text is made anew where the
//! digits before the last four are others: every 10,000 numbers at the most where they rise.
//!
//! | number | written |
//! |---|---|
//! | below 10,000 | a space, and one to four digits |
//! | from 10,000 on | a space and the digits before the last four, as they are kept, and four digits |
//!
//! Only the table takes memory, and nothing else is refused. The bytes are those of `decimal` behind
//! a space: a number has no leading zero, and 0 is `0`.
#![tactic(auto)]

mod digits;
mod fours;
mod leading;

pub use fours::FourDigits;
pub use leading::{LeadingDigits, SPACED_BYTES};
