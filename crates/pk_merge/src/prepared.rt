//! A merge that is prepared: all that it needs to be written, and its memory.

ghost use Rattle.std.specs.Prelude.{◌≤◌, ◌<◌, ◌^◌, length, All};
ghost use Rattle.pk_model.specs.Limits.{max_segment_bytes};
ghost use Rattle.pk_merge.specs.Keeping.{EndBy};
ghost use Rattle.pk_merge.specs.declared.texts.TheConstants.{SPAN_BYTES};

use crate::kept::Kept;
use crate::lists::Lists;
use pk_posting::SliceSource;
use pk_segment::Segment;

/// A merge that is prepared: how long its segment is, and all that is written but the texts, and
/// but the posting lists where they are many bytes.
#[derive(Drop)]
pub struct Prepared {
    // The documents that are left.
    pub(crate) documents: Vec<Kept>,
    // How many bytes the disk has.
    pub(crate) disk_bytes: u64,
    // The posting lists.
    pub(crate) lists: Lists,
    // Where the texts that are read at once stand.
    pub(crate) room: Vec<u8>,
    // Where bytes are held until they are written.
    pub(crate) buffer: Vec<u8>,
    // The header and the directory.
    pub(crate) front: Vec<u8>,
    // The dictionary.
    pub(crate) dictionary: Vec<u8>,
    // How many bytes the segment has.
    pub(crate) size: u32,
    ghost some: { 0 < length buffer.items },
    ghost room_for_texts: { SPAN_BYTES ≤ length room.items },
    ghost inside: { All (EndBy disk_bytes) documents.items },
    ghost short: { length front.items < 2 ^ 32 },
    ghost least: { 1 ≤ size },
    ghost most: { size ≤ max_segment_bytes },
}

impl Prepared {
    ghost use Rattle.std.specs.Prelude.{◌≡◌, ℕ, List};
    ghost use Rattle.pk_join.specs.declared.input.MergeInput.{MergeInput};
    ghost use Rattle.pk_merge.specs.Prepared.{IsPrepared, OpensAsMerged};
    ghost use Rattle.pk_segment.specs.Spelling.{segment_length};
    ghost use Rattle.pk_state.specs.Committed.{Stored, live_in};

    /// How many bytes the segment of kind 2 of the documents that are left has.
    pub fn size(&self) -> u32
        ensures value { result ≡ self.now.size }
        ensures sized { (1 ≤ result) × (result ≤ max_segment_bytes) }
        ensures long { (bytes : List ℕ) (inputs : List MergeInput) (stored : List Stored)
            → IsPrepared bytes inputs stored self.now
            → result ≡ segment_length (live_in stored) 2 }
    {
        self.size
    }

    /// The open segment of what is going to be written: header and directory say all of it. None
    /// where they open as no segment, which is of no merge of segments.
    pub fn segment(&self) -> Option<Segment>
        ensures { (bytes : List ℕ) (inputs : List MergeInput) (stored : List Stored)
            → IsPrepared bytes inputs stored self.now → OpensAsMerged (live_in stored) result }
    {
        let mut source = SliceSource::new(&self.front);
        let Ok(segment) = Segment::open(&mut source, self.size, 2) else {
            return None;
        };
        Some(segment)
    }
}
