//! A disk that shows the store in a file as it was, while another program may write the file. No
//! lock is taken, and nobody waits.
//!
//! # What a caller sees
//!
//! A `SnapshotDisk` is a `Disk` that is only read. Over an honest file it is honest
//! (`laws::a_snapshot_of_an_honest_file_is_honest`): so what stands on disks means the same on it.
//! Its bytes stay those of one moment, that of the opening:
//!
//! | positions | what is read there |
//! |---|---|
//! | the gate and the body that are shown, and the extents that this names | what stood there |
//! | all others, also the other gate | zeros |
//!
//! So the body that is shown is in force by itself. The disk has as many units as that body says, and
//! the file may be longer: a store may grow meanwhile. A write fails, and so does each sync behind it;
//! one before it succeeds and asks nothing.
//!
//! The extents are sorted by their places at the opening. No two of a sound body overlap, so those
//! that a range meets lie side by side, and a read finds both ends of their row by halving.
//!
//! # The rule of who writes
//!
//! The file evolves as `Evolves` of pk_manifest says, at any time and also during a call: the
//! generation in force never falls, a gate that was shut opens again behind a greater one alone, and
//! the file gets no shorter. `replace_with` of pk_replace keeps that rule. So a gate that is open behind
//! the generation that it had was open all the time, and what its half claims is as it was.
//!
//! # A look
//!
//! A look reads the gate, and then the generation behind it. In the other order it would be wrong:
//! the gate may open over a greater generation between the two. All reads of bytes may be torn in
//! any way; at one moment are read the byte of a gate and the eight bytes of a generation.
//!
//! | call | what the file is asked |
//! |---|---|
//! | `open` | its length; a look at A and one at B; a second at the greater of the two; its length again; its body and its table; a third look |
//! | `read` | each extent where the range meets it; a look |
//! | `is_latest` | the generation of the other half, then its own; where the other is greater, the other gate, and where that is shut, a look |
//!
//! A look after the bytes that names the generation of the snapshot tells that they are as they were.
//! One that names another sets `is_outdated`; from then on each read fails, and the file is to be
//! opened anew. A body stays readable beside one replacement, whose gate is the other one, and is
//! outdated by the second. So one that isn't the latest may be read on; who wants the latest asks
//! `is_latest` of pk_watch, which reads nothing of what is shown. No gate is wanted for that, while
//! neither body says a greater generation: one that was in force is never written again, so what a
//! body says that is no greater, it said before. A greater one may stand behind a shut gate while a
//! replacement goes on.
//!
//! This is the optimistic reading of Kung and Robinson (1981), "On optimistic methods for concurrency
//! control": read, then validate, and begin again where that fails. The generation is the version of
//! a sequence lock (Boehm 2012, "Can seqlocks get along with programming language memory models?").
//! That readers see one of two roots which take turns is as in LMDB (Chu 2011, "MDB: a memory-mapped
//! database and backend for OpenLDAP"), whose readers hold back the reuse of pages by a table that
//! they write. Here they write nothing, so an old snapshot ends, as an old read version does in
//! FoundationDB (Zhou et al. 2021).
//!
//! # What a file promises
//!
//! `SharedFile` is an open file that is only read, with what its calls keep if it is *honest*.
//! `std::fs::File` is the system's file, and promises nothing: what it does, no clause says. Each of
//! its calls is one of the system. `mark` does nothing: it names a moment, of which clauses speak.
//! `HeldFile` is one whose writers can be kept away: the system's by a shared lock, which a writer's
//! lock for itself alone does not go with. Who keeps them away has a `Hold`, a linear value that only
//! the call takes which lets them come.
//!
//! # What is refused
//!
//! `open` hands the file back with a `SnapshotFault`. A call of the file that a signal interrupts is
//! made again, and a read that came short is gone on with. So over an honest file `open` tells `Disk`,
//! and a read of what isn't outdated fails, only where a call failed, or 2^63 were interrupted
//! (`FailsByCalls`, `laws::a_snapshot_fails_by_its_file`). What `open` shows may be a body whose commit isn't
//! acknowledged yet, and which a loss of power may still take away: a reader syncs nothing.
#![tactic(auto)]

mod disk;
mod fault;
mod filling;
mod held;
mod host;
pub mod laws;
mod looking;
mod reading;
mod shared;
mod shown;

pub use disk::SnapshotDisk;
pub use fault::{Refused, SnapshotFault};
pub use held::HeldFile;
pub use shared::SharedFile;
