//! The meaning of the engine: the types of documents, queries, commands and replies, and beside
//! them, in specs/, the definitions that every contract of the engine cites.
//!
//! A caller sees a `Document` as a number and the bytes of its text, a `Query` as a tree of words,
//! a `Command` as a request and a `Reply` as an answer or a refusal: no capacity and no place in
//! memory reaches a contract.
//!
//! | specs/ | what it defines |
//! |---|---|
//! | `Words` | the folded words of a text, in its order |
//! | `Tree` | queries as trees, and which words satisfy them |
//! | `Collection` | the collection, and what a query answers |
//! | `Terms` | the words that documents have, in order |
//! | `Steps` | what each command does to the collection, and its reply |
//! | `Limits` | the limits that a store keeps, as numbers |
//! | `Views` | from the types of the code to these definitions |
//!
//! The module `laws` has the laws that make the definitions believable.
#![tactic(auto)]

mod commands;
mod documents;
pub mod laws;
pub mod limits;
mod queries;

pub use commands::{Command, Counts, Refusal, Reply};
pub use documents::{DocNo, Document};
pub use queries::Query;
