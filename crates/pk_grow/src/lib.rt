//! A store that grows: a body of more units put in force, on a disk that is longer than its store.
//!
//! # What it is
//!
//! The units of a store are what its body in force says, and a disk may be longer. Such a disk holds
//! in its first units (`store_bytes`) what a disk of just these would. `store_on` shows them as a
//! disk, on which the store is opened.
//!
//! A growth puts the body of the next generation in force, which says more units and has the same
//! entries and the same table. So it is a replacement (pk_replace) whose writer writes nothing: no
//! document and no list is written again, however much the store has.
//!
//! `grow_file` makes a file longer first that has fewer units, and shuts the spare gate where it is
//! open, both under one sync. So the replacement finds it shut, and syncs twice.
//!
//! # What stops it, and what stays
//!
//! | fault | when | what stays |
//! |---|---|---|
//! | `Shorter` | the store has more units than were asked for | the disk, as it was |
//! | `NotAStore`, `Damaged` | there is no store, or its body is not sound | the same |
//! | `UsedUp`, `Memory` | no generation is left, or no memory | the same |
//! | `Disk` | a call of the disk failed | in each image the store with the old units or with the new |
#![tactic(auto)]

mod fault;
mod file;
mod growing;
mod opening;
mod reading;
mod store;

pub use fault::{GrowFault, Growth};
pub use file::grow_file;
pub use growing::grow_body;
pub use opening::{session_units, store_on};
pub use reading::read_store;
pub use store::grow;
