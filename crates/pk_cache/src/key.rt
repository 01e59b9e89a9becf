//! Keys of blocks.

/// A block of a list of a segment.
#[derive(Clone, Copy, Debug, PartialEq, Eq, Hash)]
pub struct BlockKey {
    /// The number of the segment that the list is in.
    pub segment: u64,
    /// The place of the list's first byte, in the source that the segment is read from.
    pub at: u32,
    /// The number of the block in the list, from 0.
    pub block: u32,
}
