//! A store in a file that is only read, while another program may write the file: no lock is taken,
//! and nobody waits.
//!
//! # What a caller sees
//!
//! A `Reader` answers `find`, `show` and `count`, each for a body that was in force behind an open
//! gate, and that is no older than what was in force when it was asked (`IsReadFrom`). So each commit
//! that was acknowledged before is seen. What changes the store is refused as read only, and changes
//! nothing.
//!
//! | it is asked | it does |
//! |---|---|
//! | a question | looks whether what it shows is the latest, opens anew if not, and asks its store |
//! | a question, and what it reads is outdated meanwhile | opens anew, and begins again |
//! | the same for the eighth time | begins again up to a hundred times, 10 ms after one another: with writers kept away, where there are none, and else beside them; then it answers `Refusal::Disk` |
//!
//! A reader that has to begin again doesn't wait, and takes no lock. One that would starve beside a
//! writer that commits faster than it reads has the file to itself for one question, once that writer
//! ends. A session that begins to write meanwhile is told that another has the file.
//!
//! # What is refused
//!
//! | refusal | when |
//! |---|---|
//! | `NoSuchDocument` | no live document of that body has the number |
//! | `Memory` | a growth of memory was refused |
//! | `Damaged` | no sound body stands behind the gate, it opens as no store, or its bytes hold no collection |
//! | `Disk` | a call of the file failed, the file is too small for a store, or each of 108 tries was outdated |
//!
//! After `Disk`, and where there was no store to ask, the next question opens anew. One try tells `Disk`
//! for a call that failed, or for a file that is too small, alone (`HasCause`). A try is outdated where
//! both gates were seen shut, or a body was chosen or shown and then another was seen in its place, or
//! its gate as shut (`IsOutdated`); only where all 108 were, one after the other, a question is told
//! `Disk` for that (`HasReason`). While writers are kept away a reader has a linear value, and owes it to
//! the call that lets them come (`HeldFile`).
//!
//! # The file
//!
//! `OpensShared` opens a file at a path to be read alone. The system's own promises nothing.
//!
//! # Layers
//!
//! The store is that of pk_store, over a `PageCache` of a `SnapshotDisk` of the file. `Shown` is a
//! store that is only read, on any disk: each collection that the disk holds is what it means.
#![tactic(auto)]

mod asking;
mod holding;
pub mod laws;
mod opening;
mod question;
mod reader;
mod shown;
mod system;
mod turning;
mod view;
mod waiting;

pub use opening::{Caches, Open};
pub use reader::Reader;
pub use system::{OpensShared, SharedFault};
pub use view::View;
pub use waiting::{Sleeper, Waits};
