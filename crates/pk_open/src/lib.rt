//! Open segments: the segments that a body names, with what is deleted of each, and their documents
//! by number.
//!
//! An `OpenSegment` is what a session keeps of a segment: its entry, what opening read of it, the
//! numbers of its deletion list, and all that are deleted: those, and the pending ones, whose
//! deletion no commit has taken.
//!
//! A caller hands the disk and the open segments. What their entries (`entries_of`) stand for is
//! said by pk_state (`SpellsEntries`). What is left of it once each deletion counts is `present`;
//! the clauses hold for whatever that is.
//!
//! | call | answers | reads |
//! |---|---|---|
//! | `open_segments` | the segments of a body | first bytes, ends of directories, deletion lists |
//! | `text_stored` | the text of the live document of a number, or none | one text, by halving |
//! | `place_stored` | the place of the segment that has it, or none | one directory, by halving |
//! | `count_stored` | how many documents there are | nothing |
//! | `copy_of`, `put_copies` | copies of open segments | nothing |
//!
//! A call is refused as damaged where a segment is none, as disk where a read failed, or as memory.
//! None of them writes. An opening reads 4,097 bytes of a segment at once, or all of a shorter one,
//! into a buffer that is taken once: of the longer ones a page cache below keeps no page.
//!
//! In specs/: `Opened` says of what a segment is the open one, and what is present, `Opening` what
//! the entries of a body open as, `Showing` what a look-up answers.
#![tactic(auto)]

mod copying;
mod opened;
mod opening;
mod showing;

pub use copying::{copy_of, put_copies};
pub use opened::OpenSegment;
pub use opening::open_segments;
pub use showing::{count_stored, place_stored, text_stored};
