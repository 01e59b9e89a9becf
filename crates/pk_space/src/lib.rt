//! The free units of a disk, from which extents are placed.
//!
//! # The rule
//!
//! A unit is free if it lies behind the bodies, from unit 34 on, within the disk, and in no extent
//! that was named, nor in one taken before. An extent takes the first run of enough free units.
//!
//! # What a caller sees
//!
//! A `Space` is a set of units (`is_free` in specs/). `take` answers the first unit of the first
//! run that fits, and these units are free no more; or `Full`, exactly where no run fits, with the
//! longest run, and nothing changed. Inside, the set is a list of runs that rise, with a gap
//! between each two: `take` shortens one of them, so it takes no memory.
//!
//! Several lengths lie one after the other, each beside those before it (`PlacedAs`), or the first
//! that finds no room gives what it needs and the longest run (`FullAs`). One of the two holds for
//! each list of lengths, never both, and each in one way only: laws, as functions with nothing to
//! do.
#![tactic(auto)]

mod laws;
mod runs;
mod space;

pub use laws::{a_run_fits_or_none, lengths_are_placed_or_full, places_are_determined};
pub use runs::Full;
pub use space::Space;
