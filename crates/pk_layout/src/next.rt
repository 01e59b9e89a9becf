//! What comes next: a run of segments gives way to a new one, or to none, and others get new
//! deletion lists.

use crate::change::Run;
use crate::merging::NewSegment;
use crate::planning::Plan;
use pk_dead::Dead;
use pk_disk::Extent;
use pk_replace::Piece;

/// A segment that comes next.
#[derive(Drop)]
pub(crate) struct NextSegment {
    /// How long it is, and it open.
    pub(crate) new: NewSegment,
    /// The numbers that are deleted of it: all of them are pending.
    pub(crate) deleted: Dead,
}

/// What comes next.
#[derive(Drop)]
pub(crate) struct Next {
    /// The run that gives way; there may be none in it.
    pub(crate) run: Run,
    /// What comes in its place, if anything does.
    pub(crate) segment: Option<NextSegment>,
    /// The bytes of the new lists of the segments with a pending deletion, in their order; there are
    /// none where what is pending stays so.
    pub(crate) lists: Vec<Vec<u8>>,
    /// The number that the next document gets.
    pub(crate) next_number: u32,
}

/// The plan of what comes next.
#[derive(Drop)]
pub(crate) struct NextPlan {
    /// The plan.
    pub(crate) plan: Plan,
    /// The place of the segment, if there is one.
    pub(crate) place: Option<Extent>,
    /// What is written behind the segment: the lists, and the table unless no entry is left.
    pub(crate) pieces: Vec<Piece>,
}
