//! What a store means: the states that a disk and a buffer stand for, which steps between them are
//! legal, and what a disk holds and keeps of them.
//!
//! There is no code but the laws: each is a function with nothing to do, whose contract is the law.
//! The crates of the engine cite the definitions.
//!
//! | specs/ | what it defines |
//! |---|---|
//! | `Committed` | a body with what its entries stand for, and the collection that this is |
//! | `Runs` | which run of eight neighbours a tidy takes |
//! | `Writing` | what a commit, a merge and a tidy write, and what is committed after them |
//! | `Legal` | the state, the refusals in their order, the legal step |
//! | `Merged` | when a merge has nothing to do, in plain words |
//! | `Follows` | what follows a commit, a merge and a tidy, in plain words |
//! | `States` | what is true of a state between commands |
//! | `Session` | start, log and mark, and what they say of a state |
//! | `Holds` | when the bytes of a disk hold a collection, and which bytes count |
//! | `Kept` | what a disk keeps of a body, so that each image has it |
//!
//! Where extents lie is said by pk_space, what a body and a segment are by pk_manifest and
//! pk_segment, and what is held while a body is replaced by pk_replace.
#![tactic(auto)]

pub mod laws;
