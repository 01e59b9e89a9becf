//! A file in memory, for tests of what stands on files.
//!
//! A caller sees a `RawFile` of pk_filedisk that is honest, which is proved here: so what a file has
//! to promise can be met, by calls that are short, interrupted and refused at any time. A script has
//! a step for each call but `len`, in the order of the calls; at its end all is done that is asked.
//!
//! | step | a read or a write | any other call |
//! |---|---|---|
//! | `most` | moves as many bytes at most, and none past the end | nothing |
//! | `Told` | tells how many it moved | is done |
//! | `Interrupted`, `Failed` | is answered so, though the bytes were moved | is answered so, and does nothing but to unsettle the length in `set_len` |
//!
//! Its images follow from a record of the calls that changed its bytes or its length (specs/
//! `Record`). A call whose record finds no memory answers `Failed`, and changes nothing. Refusals are
//! counted; past 2^64 - 1 of them a call is interrupted in place of being refused. So are interrupted
//! transfers, up to 2^64 - 1.
#![tactic(auto)]

pub mod laws;
mod memory;
mod record;

pub use memory::{Ending, MemoryFile, Step};
