//! What is read of one term, and what the term is to the wanted one.

use crate::entry::Entry;

/// Where the parts of a term lie.
#[derive(Drop)]
pub(crate) struct Head {
    /// Where the rest of the term lies, after the bytes that it keeps of the term before.
    pub(crate) rest: u32,
    /// How many bytes the rest has.
    pub(crate) size: u32,
    /// What is said of the term.
    pub(crate) entry: Entry,
    /// Where the next term begins.
    pub(crate) next: u32,
}

/// The term that comes next, before it is read.
#[derive(Clone, Copy)]
pub(crate) struct Coming {
    /// How many bytes it keeps of the term before, which is less than the wanted one.
    pub(crate) kept: usize,
    /// How many bytes the term before shares with the wanted one.
    pub(crate) matched: usize,
    /// Where the size of its rest stands.
    pub(crate) at: u32,
}

/// What a term is to the wanted one.
#[derive(Drop)]
pub(crate) enum Step {
    /// It is less: how many bytes both share, and the place after it.
    Less(usize, u32),
    /// It is the wanted one.
    Found(Entry),
    /// It is greater.
    Past,
}

/// The terms of a group that a scan has not come to.
#[derive(Clone, Copy)]
pub(crate) struct TermsLeft {
    /// How many they are.
    pub(crate) count: u32,
    /// How many bytes the term before them, which is less, shares with the wanted one.
    pub(crate) matched: usize,
    /// Where the first of them stands.
    pub(crate) at: u32,
}

/// How far a scan of a group's terms came.
#[derive(Drop)]
pub(crate) enum Scan {
    /// These are left.
    Open(TermsLeft),
    /// It is at its end: the entry of the wanted term, if that is among the terms.
    Done(Option<Entry>),
}

/// Where a group begins.
#[derive(Clone, Copy)]
pub(crate) struct GroupStart {
    /// Which group it is.
    pub(crate) group: u32,
    /// Where its first term stands.
    pub(crate) at: u32,
}

/// Where a term stands among the first terms of the groups.
#[derive(Drop)]
pub(crate) enum Standing {
    /// It is the first term of this group.
    First(u32, Entry),
    /// So many groups begin with a lesser term: how many bytes the last of these first terms shares
    /// with it, and the place after that term.
    After(u32, usize, u32),
}

/// What is known of the groups while a term is sought among their first terms.
#[derive(Drop)]
pub(crate) struct Between {
    /// So many groups begin with a lesser term.
    pub(crate) low: u32,
    /// The groups from here on begin with a greater term.
    pub(crate) high: u32,
    /// How many bytes the term shares with the first term of the last group that begins with a
    /// lesser one.
    pub(crate) matched: usize,
    /// The place after that first term.
    pub(crate) next: u32,
    /// The place in a table of pivots from which on keys are kept; 0 where none are.
    pub(crate) node: usize,
}

/// A search among the groups.
#[derive(Drop)]
pub(crate) enum Search {
    /// It goes on between these.
    Open(Between),
    /// It is at its end.
    Done(Standing),
}
