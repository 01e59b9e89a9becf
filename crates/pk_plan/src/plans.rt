//! Plans as trees of set operations.

use smallvec::SmallVec;

/// How a set of documents is found by operations on sets. A word stands there by its place among
/// the words of the query, and so does what a word is to begin with.
#[derive(Debug, PartialEq, Eq, Drop)]
pub enum Plan {
    /// The documents that hold the word at this place.
    Term(usize),
    /// The documents that hold a word that begins with what stands at this place.
    Prefix(usize),
    /// All documents.
    All,
    /// The documents that hold each of the words and are in each of the parts. Without both it is
    /// all documents.
    Intersect(SmallVec<usize, 4>, Vec<Plan>),
    /// The documents that are in at least one of the parts.
    Unite(Vec<Plan>),
    /// The documents of the first part that are not in the second.
    Exclude(Box<Plan>, Box<Plan>),
    /// The documents of the part in which words stand in a row: from the place on, so many. Only
    /// for this are texts read.
    Phrase(Box<Plan>, usize, usize),
}

/// The plan of a query, with the words that its places mean.
#[derive(Drop)]
pub struct Planned<'a> {
    /// The words of the query, as [`words_of`](crate::words_of) has them.
    pub words: SmallVec<&'a str, 4>,
    /// The plan over their places.
    pub plan: Plan,
}
