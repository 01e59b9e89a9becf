//! A disk of fixed size: what its calls do, and what a crash may leave.
//!
//! # The rule
//!
//! A write opens the positions of its range from its start, and puts its bytes there. A sync that
//! succeeds closes all positions; one that fails closes none. A write that fails leaves any bytes
//! in its range, of which a part alone may stay open. A crash, also in the middle of a call,
//! leaves any bytes at the open positions and what stood there at all others. A disk whose calls
//! keep this is *honest*.
//!
//! # What a caller sees
//!
//! | part | meaning |
//! |---|---|
//! | `content` | the bytes as read; their number never changes |
//! | `is_open` | the open positions |
//! | `moment` | a number that never falls |
//! | `images_since` | the images at every moment from that one on, also inside a call |
//! | `failed_reads` | how often a read failed |
//! | `failed_writes` | how often a write or a sync failed |
//! | `honest` | that the clauses on bytes, positions and images hold, a fact of the type |
//!
//! An *image* is what a crash may leave: as long as the bytes, and the same at each position that
//! isn't open. Clauses on sizes and counts stand for every disk, those on bytes, positions and
//! images under `honest`. A call answers `DiskFault` exactly where it raises its own count, and
//! never raises the other. A count that stands at 2^64 − 1 stays there, and its calls then fail.
//!
//! # Units and extents
//!
//! | what | where |
//! |---|---|
//! | units of a disk | its bytes divided by 512, rounded down, at most 2^31 |
//! | unit `u` | the bytes from 512 · `u` on |
//! | an extent of `bytes` bytes | `units` = `bytes` / 512, rounded up, from unit `first` on |
//!
//! # The disks
//!
//! - `MemoryDisk` is honest, and keeps a record of its calls, from which its images follow.
//!   `crash` leaves an image, and every image is left by some picks (`laws::each_image_is_left`).
//! - `FaultDisk` passes its calls on, and fails those that its plan names. Over an honest disk it
//!   is honest.
//! - `LossyDisk` is not honest, and meets the trait. What stands on disks is to return on it too.
//!
//! # For the crates above
//!
//! Lemma pages: `Moments` composes "each image since" over calls, `Images` says what a write's
//! images are and what a synced write leaves, `Ranges` has positions in and out of a range,
//! `Changes` composes changes over any set of positions, `Reading` that reads write nothing.
#![tactic(auto)]

mod disk;
mod fault;
pub mod laws;
mod lossy;
mod memory;
mod plan;
mod record;
mod units;

pub use disk::{Disk, DiskFault};
pub use fault::FaultDisk;
pub use lossy::LossyDisk;
pub use memory::MemoryDisk;
pub use units::{Extent, FIRST_UNIT, LEAST_UNITS, MAX_UNITS, UNIT, units_in};
