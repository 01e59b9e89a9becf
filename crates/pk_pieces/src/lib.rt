//! The pieces of a text that are its words: where they begin and end, and how one is folded.
//!
//! What a word is stands in pk_model: pieces between boundaries, by the rules of the crate
//! unicode_segmentation, folded by the crate caseless. This crate finds the same ones faster where
//! characters are ASCII, and is proved equal to what those crates state. One who takes a text's
//! words goes by
//!
//! | call | of | what it does |
//! |---|---|---|
//! | [`next_word`] | ASCII | the place of the next word, by a table of 128 values |
//! | [`past_others`] | ASCII | a place before which one word does not stand, sixteen bytes at a time |
//! | [`past_without`] | ASCII | a place before which no word has one word so many words behind it |
//! | [`lower_into`] | any text | the text with its letters of ASCII lowered; of ASCII a folded word is a slice |
//! | [`part_end`] | any text | where a part ends whose words are found by themselves |
//! | [`ascii_part_end`] | any text | the same of a part in ASCII, or of a word that is not |
//! | [`fold_into`] | any piece | the piece, folded |
//!
//! A place is a boundary by the four characters around it, where all characters are ASCII
//! (`joins_ascii` in `specs/Pieces.antt` has the rules that are left): none of them is one that the
//! rules pass over, and none is half a flag. A run of letters, digits and low lines is passed
//! sixteen bytes at a time.
//!
//! Where a word may stand is told by its first and its last byte, each in either case, or by its one
//! byte and the one behind it: no letter, since a letter would be joined to it. What is passed so is
//! cut into no words. The low line and digits have no case, so they are compared as they are.
//!
//! Nothing is cut backward. A place that leaves so many words before another one is guessed by the
//! spaces before that, and is taken only where a boundary lies there and so many words follow.
//!
//! A text parts before a space that follows no white space ([`a_space_parts_words`]). So of a text
//! with other characters only those parts go to the two crates that hold one.
//!
//! Cutting refuses nothing and takes no memory. Folding is refused for want of memory alone, and
//! what the string holds is open then.
#![tactic(auto)]

mod cutting;
mod folding;
mod laws;
mod parts;
mod passing;
mod runs;
mod scan;
mod single;
mod values;

pub use cutting::next_word;
pub use folding::{fold_into, lower_into};
pub use laws::a_space_parts_words;
pub use parts::{ascii_part_end, part_end};
pub use passing::{past_others, past_without};
