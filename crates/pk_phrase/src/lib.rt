//! Phrases: words that stand in a row in the texts of a stored segment's documents.
//!
//! `keep_in_row` keeps of rising numbers those of documents in whose texts the words of a row stand
//! one behind the other. It looks for one of the words, best for the one that the fewest documents of
//! the segment hold, and compares those beside it where it stands; what is found does not depend on
//! which it is.
//!
//! A text of 4,096 bytes or less is read where the source lends it, and a longer one by itself. Where
//! two or more lie in as many bytes on average and little lies between them, those behind a text are
//! lent with it (`span`). Where one document of 64 or more is asked for, the directory is read whole,
//! and gone through from each number to the next; else a number is found in it by halving.
//!
//! Answers `Damaged` where a number has no text, a text is not UTF-8 or what is kept doesn't rise,
//! `Disk` where a read failed, or `Memory`; which numbers are left then is open. On any bytes no number is passed over: of each that was
//! asked for a text was read as an entry of the directory says (the clause `read`).
#![tactic(auto)]

mod in_row;
mod span;

pub use in_row::{AskedRow, keep_in_row};
