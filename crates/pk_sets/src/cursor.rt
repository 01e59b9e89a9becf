//! An index in two lists and in the result that is written of them: where each loop stands.

/// How far two lists are gone through, and how much of the result is written.
#[derive(Clone, Copy)]
pub struct Cursor {
    /// The index of the next number of the first list.
    pub a: usize,
    /// The index of the next number of the second list.
    pub b: usize,
    /// How many numbers of the result are written.
    pub written: usize,
}

/// Before the first number of each list, with nothing written.
pub const START: Cursor = Cursor {
    a: 0,
    b: 0,
    written: 0,
};
