//! Boolean queries.

/// A Boolean query over the words of a document, in the document's order (Manning, Raghavan,
/// Schütze 2008, chapters 1 and 2).
#[derive(Debug, Drop)]
pub enum Query {
    /// The documents that hold this folded word.
    Term(String),
    /// The documents that hold these folded words in a row. Without a word it is all of them.
    Phrase(Vec<String>),
    /// The documents that hold a word that begins with these bytes, folded.
    Prefix(String),
    /// The documents that satisfy both.
    And(Box<Query>, Box<Query>),
    /// The documents that satisfy at least one.
    Or(Box<Query>, Box<Query>),
    /// The live documents that do not satisfy it.
    Not(Box<Query>),
}
