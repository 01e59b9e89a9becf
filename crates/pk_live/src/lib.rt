//! What an index in memory (pk_index) answers, of documents that are at hand.
//!
//! [`find`] carries a plan of its query out over the lists of the index (pk_match, over those of
//! `live`), and [`find_planned`] one that is there: a buffer's documents are asked so by the plan
//! that the stored segments gave, a segment without lists document by document. Both are asked with
//! the live numbers, which are those of all documents, and only these are answered, rising: other
//! numbers may stand in a list. The beginning of a word is looked for by one walk over the table of
//! words; words in a row by the texts of the documents that hold them all, which the caller hands
//! in.
//!
//! What is answered is pk_model's `answer` over any documents of which `Keeps` (pk_index,
//! `specs/Index.antt`) says that the index is of them; of a plan it is `means` of pk_plan.
//!
//! Only want of memory is refused, and nothing is changed. A find of one word that no live document
//! holds takes no memory.
#![tactic(auto)]

mod finding;
mod in_row;
mod live;
mod prefix;

pub use finding::{find, find_planned};
