//! A document that a merge keeps.

/// A document that is left: its number, and where its text stands on the disk. It takes 16 bytes.
#[derive(Clone, Copy, Debug)]
pub(crate) struct Kept {
    /// The position of its text on the disk.
    pub(crate) at: u64,
    /// How many bytes its text has.
    pub(crate) len: u32,
    /// Its number.
    pub(crate) number: u32,
}
