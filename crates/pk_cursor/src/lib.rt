//! A cursor: a place in a posting list, which is read from a source a block at a time.
//!
//! A caller sees a cursor as an index in the list, from 0 up to the list's length, which is the
//! end. `current` is the number there, and None at the end. `next` goes one on, `pass` past all
//! numbers that are held, and `seek` to the first number from here on that is at least a target.
//! None goes back. `rest` lends the numbers that are held from the index on, so that a whole list
//! is taken out by `rest` and `pass`, a block each.
//!
//! A cursor holds one block of the list or its tail, the up to 127 numbers after the last whole
//! block, and takes no memory. It counts the blocks that it decoded:
//!
//! | call | blocks decoded | calls of the source |
//! |---|---|---|
//! | `open` | at most the first | at most 6 |
//! | `next`, `pass` | at most one | at most 2 |
//! | `seek` that passes p blocks | at most one | at most 2 k + 2, for p below 2^k |
//! | `seek` that fails | at most one | at most 44 |
//!
//! The tail is no block, but counts as the block after the last where a seek passes it. A seek
//! reads the last numbers of blocks in the skip entries: it doubles its step until a block reaches
//! the target, and halves what it stepped over last (Bentley, Yao, An almost optimal algorithm for
//! unbounded searching, 1976). Then it decodes the block that it found. The blocks on its way are
//! not read.
//!
//! Where the source is damaged or fails, the cursor keeps the fault and stands nowhere: `current`
//! is None, `rest` has no number, and `next`, `pass` and `seek` answer that fault from then on
//! without asking the source. `fault` tells it, also where opening met it. Over a source that
//! spells a list no fault is Damaged.
//!
//! In contracts, `StandsAt` (`specs/Standing.antt`) says at which index of which list a cursor
//! stands, and `IsFirst` (`specs/Seeking.antt`) where a seek goes.
#![tactic(auto)]

mod cursor;
mod seeking;
mod skips;
mod standing;

pub use cursor::Cursor;
