//! The command line: what its words ask of the program. [`asked_by_words`] reads them by `clap`.
//!
//! | words behind the program's name | answered |
//! |---|---|
//! | `create PATH --units N` | `Asked::Create`: a file of N units of 512 bytes, an empty store |
//! | `grow PATH --units N` | `Asked::Grow`: N units for the store in a file |
//! | `run PATH` | `Asked::Run`: a session with the store in a file |
//! | `read PATH` | `Asked::Read`: a session that only reads it |
//! | `check PATH` | `Asked::Check`: a check of it |
//! | `help`, `--help`, `--version` and the like | `Unasked::Help`, with the text |
//! | others, and none | `Unasked::Refused`, with why, and how the program is to be used |
//!
//! N is a number of units that a store may have, 64 to 2,147,483,648. A path is any text: nothing
//! is looked up here. Where a growth of memory is refused the answer is `Unasked::Memory`. Nothing
//! else is touched.
//!
//! In specs/, `CommandLine` has what words ask, `Unasked` why they ask for no command.
#![tactic(auto)]

mod asked;
mod command_line;
mod unasked;

pub use asked::{Asked, asked_by_words};
pub use unasked::Unasked;
