//! Commands, replies and refusals.

use crate::documents::DocNo;
use crate::queries::Query;
use std::alloc::AllocError;

/// What a store is asked to do.
#[derive(Debug, Drop)]
pub enum Command {
    /// Adds a document with this text.
    Add(String),
    /// Deletes the live document of this number.
    Delete(DocNo),
    /// Asks for the numbers of the live documents that satisfy the query.
    Find(Query),
    /// Asks for the text of the live document of this number.
    Show(DocNo),
    /// Writes what is uncommitted to the disk, so that it outlives a crash.
    Commit,
    /// Makes one segment of all, without what is deleted in them.
    Merge,
    /// Makes one segment of eight neighbouring ones, without what is deleted in them.
    Tidy,
    /// Asks how many documents live, and for the next number.
    Count,
}

/// How many documents live, and the number that the next one gets.
#[derive(Clone, Copy, Debug, PartialEq, Eq)]
pub struct Counts {
    /// The number of live documents.
    pub documents: u64,
    /// The number that the next document added gets.
    pub next: u32,
}

/// Why a command was refused. A refusal leaves the collection as it was.
#[derive(Clone, Copy, Debug, PartialEq, Eq)]
pub enum Refusal {
    /// A write or a sync failed in an earlier call: the store is to be opened again.
    Reopen,
    /// The text is longer than 1,048,576 bytes.
    TextTooLong,
    /// The uncommitted documents would pass 4,096, or their texts 67,108,864 bytes.
    BufferFull,
    /// The next number is 4,294,967,295, or a generation or segment id has reached its end.
    NumbersUsedUp,
    /// No live document has the number.
    NoSuchDocument,
    /// The body in force names as many segments as it can, and a document is new.
    TooManySegments,
    /// The segment to be written would pass 1,073,741,824 bytes.
    SegmentTooLarge,
    /// A growth of memory was refused.
    Memory,
    /// No run of free units is long enough: so many units are needed, and the longest run has
    /// `largest`.
    Full {
        /// The units that are needed.
        need: u32,
        /// The units of the longest free run.
        largest: u32,
    },
    /// Bytes of the disk are no spelling of what should stand there.
    Damaged,
    /// The device failed in this call.
    Disk,
}

impl From<AllocError> for Refusal {
    ghost use Rattle.std.specs.Prelude.{◌≡◌};
    ghost use Rattle.pk_model.specs.declared.commands.Refusal.TheVariants.{Memory};

    ghost from_gives = { λ _ why. why ≡ Memory };

    fn from(_: AllocError) -> Refusal {
        Refusal::Memory
    }
}

/// What a command is answered with.
#[derive(Debug, Drop)]
pub enum Reply {
    /// The document was added and got this number.
    Added(DocNo),
    /// The document of this number is deleted.
    Deleted(DocNo),
    /// The numbers of the documents that satisfy the query, rising.
    Found(Vec<DocNo>),
    /// The text of the document.
    Text(String),
    /// What was uncommitted is written.
    Committed,
    /// All segments are one.
    Merged,
    /// Eight neighbouring segments are one, or there are fewer than eight.
    Tidied,
    /// The counts of the collection.
    Counted(Counts),
    /// The command was refused.
    Refused(Refusal),
}
