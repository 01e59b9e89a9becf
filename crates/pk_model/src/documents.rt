//! Documents and their numbers.

/// The number of a document: from 1 to 4,294,967,294, rising by one with each document added, and
/// never given twice.
#[derive(Clone, Copy, Debug, PartialEq, Eq, PartialOrd, Ord)]
pub struct DocNo(pub u32);

/// A document: its number and its text, which is kept as it was given.
#[derive(Debug, Drop)]
pub struct Document {
    /// The number that the collection gave it.
    pub number: DocNo,
    /// The text, at most 1,048,576 bytes in a store.
    pub text: String,
}
