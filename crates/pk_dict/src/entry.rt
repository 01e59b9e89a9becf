//! What a dictionary says of a term, where a dictionary lies, and why one can't be read.

use pk_posting::ListPlace;

/// What a dictionary says of a term.
#[derive(Clone, Copy, Debug, PartialEq, Eq)]
pub struct Entry {
    /// In how many documents the term stands.
    pub frequency: u32,
    /// Where the term's posting list lies.
    pub place: ListPlace,
}

/// Where a dictionary lies in a source, and how many terms it has.
#[derive(Clone, Copy)]
pub struct DictPlace {
    /// The place of its first byte.
    pub at: u32,
    /// How many bytes it has.
    pub bytes: u32,
    /// How many terms it has.
    pub terms: u32,
}

/// Why a dictionary in memory gives no answer. It may be asked again.
#[derive(Clone, Copy, Debug, PartialEq, Eq, Drop)]
pub enum DictFault {
    /// The bytes are no dictionary of that many terms.
    Damaged,
    /// There was no memory for the answer.
    Memory,
}
