//! Two bodies and their gates: which body is in force, and how the other takes its place.
//!
//! # The rule
//!
//! The body in force is that of the open gate; with both gates open, that of the greater
//! generation, at equal ones A. The other half is the spare. A new body is written behind a closed
//! gate and synced before its gate is opened, so each image has the old body in force or the new
//! one. A closed gate isn't written: a crash in that write could open it over an old body.
//!
//! # What a caller sees
//!
//! A `Manifest` is the record of its version, its numbers, the place of its table and the list of
//! its entries (`view` in specs/); its 8,192 bytes (`spelling`) and those of its table (`table_of`)
//! are functions of that, and a sound one has one spelling with one table (`laws::one_body`).
//!
//! Both versions are read; `install` writes version 2. In version 1 the entries stand in the body,
//! at most 64; in version 2 they stand in a table, an extent of its own, at most 4,096.
//!
//! # Layout
//!
//! All numbers are little-endian. A gate is open exactly where its byte is `A7`.
//!
//! | place on the disk | what |
//! |---|---|
//! | byte 0, the first of unit 0 | gate A |
//! | byte 512, the first of unit 1 | gate B |
//! | units 2 to 17 | body A |
//! | units 18 to 33 | body B |
//! | from unit 34 on | extents |
//!
//! | place in a body | field |
//! |---|---|
//! | 0 | `PKSRCH01`, in version 2 `PKSRCH02` |
//! | 8 | generation, u64 |
//! | 16 | units of the store, u32 |
//! | 20 | next document number, u32 |
//! | 24 | next segment id, u64 |
//! | 32 | number of entries, u32, at most 64, in version 2 at most 4,096 |
//! | 36 | entries of 40 bytes, then zeros to the end; in version 2 see below |
//!
//! | place in a body of version 2 | field |
//! |---|---|
//! | 36 | the table's first unit, units and bytes, each u32; zeros without entries |
//! | 48 | zeros to the end |
//!
//! The table is the entries in a row, 40 bytes each.
//!
//! | place in an entry | field |
//! |---|---|
//! | 0 | segment id, u64 |
//! | 8 | the segment's first unit, units and bytes, each u32 |
//! | 20 | kind, u32, 1 or 2 |
//! | 24 | the deletion list's first unit, units and bytes, each u32; zeros without one |
//! | 36 | zero, u32 |
//!
//! # What is refused
//!
//! A body is sound if and only if its 8,192 bytes and its table are the spelling of a version, 1 or
//! 2, of numbers and of entries with: a generation, a next document number and a next segment id of
//! at least 1; the disk's units; ids distinct, at least 1 and below the next id; kinds of 1 or 2;
//! lengths of 1 to 1,073,741,824 bytes (a deletion list's from 5); units that follow from the
//! length; extents within the units from 34 to the disk's last; no two extents sharing a unit, the
//! table's included.
//!
//! A disk may have more units than its store. `said_units` answers those that the body in force says,
//! sound or not, and `store_units` those of the store on a disk of so many; `read_of` goes by a number
//! of units that is given in place of the disk's.
//!
//! `read_current` answers the sound body in force, `NotAStore` exactly where both gates are closed,
//! and `Damaged` where a half is in force whose bytes, with those of its table, are no sound body's.
//! A refused `install` that met no failed write leaves the disk as it was; after a failed write each
//! image still has the old body or the new one with its table in force.
//!
//! # Readers beside the writer
//!
//! `Evolves` in specs/ says how the bytes may change while others read them; laws say that moves as
//! small as a reader sees them keep it (`laws::moves_let_the_bytes_evolve`), and so does a file that is
//! made longer (`laws::a_file_may_be_made_longer`). The steps say which bytes they write, whatever they
//! answer: `only` (a gate alone, a body alone) and `shuts` (a gate isn't opened), and of `finish`
//! `bytes` and, after a fault, `part`. `IsFound` is a sound body behind an open gate, in force or
//! not.
//!
//! # For the crates above
//!
//! `IsFirm` says what has to stand fast while the spare half is written. `Firm` is the lemma page
//! of the steps, `Far` that of writes at or past unit 34, which keep all of it.
#![tactic(auto)]

mod checking;
mod creating;
mod decoding;
mod fault;
mod gates;
mod half;
pub mod laws;
mod manifest;
mod reading;
mod spelling;
mod steps;

pub use creating::establish;
pub use decoding::{decode, table_place, u32_at, u64_at};
pub use fault::ManifestFault;
pub use gates::{CLOSED, OPEN, close_spare, gate_open, open_spare, write_body};
pub use half::{BODY_SIZE, Half};
pub use manifest::{ENTRY_BYTES, Manifest, NO_TABLE, Part};
pub use reading::{read_current, read_of, said_units, store_units};
pub use steps::{finish, install, shut_spare};
