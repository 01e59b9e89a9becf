//! Shared files in memory that change, for tests of what stands on shared files.
//!
//! A caller sees a `SharedFile` of pk_snapshot, whose bytes change in the course of a call.
//!
//! | type | its bytes | honest |
//! |---|---|---|
//! | `ChangingFile` | change once, in a way that a shared file may | proved: so what is asked of a file that another program writes can be met |
//! | `RecordedFile` | go through contents that were recorded, in one leap or one at a call | no clause says so: it is up to who recorded |
#![tactic(auto)]

mod changing;
pub mod laws;
mod recorded;

pub use changing::ChangingFile;
pub use recorded::{Course, RecordedFile};
