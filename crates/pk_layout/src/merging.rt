//! What a merge writes: one segment of the documents that the deletion lists leave, in the place of
//! a run of segments, or none; and the table of the next body's entries.
//!
//! What is uncommitted stays so: deletions that no commit has taken are pending ones of the new
//! segment.
ghost use Rattle.std.specs.Prelude.{◌≡◌, ◌≤◌, ◌<◌, ◌+◌, length};
ghost use Rattle.pk_layout.specs.Merging.{IsSized, PlansMerged, PutsPending, TakesPending};
ghost use Rattle.pk_layout.specs.Next.{MovesPending};
ghost use Rattle.pk_manifest.specs.Sound.{IsBody};
ghost use Rattle.pk_manifest.specs.Spelling.{view};
ghost use Rattle.pk_model.specs.Limits.{end_of_ids};
ghost use Rattle.pk_open.specs.Opened.{entries_of};

use crate::change::Run;
use crate::fault::LayoutFault;
use crate::next::{Next, NextPlan, NextSegment};
use crate::planning::{Plan, plan_next};
use pk_dead::Dead;
use pk_disk::Extent;
use pk_manifest::Manifest;
use pk_open::OpenSegment;
use pk_posting::LONGEST_LIST;
use pk_replace::Piece;
use pk_segment::Segment;
use std::alloc::Global;

/// The segment that a merge is going to write.
#[derive(Clone, Copy, Debug)]
pub struct NewSegment {
    /// How many bytes it has.
    pub bytes: u32,
    /// It, open.
    pub segment: Segment,
}

/// The plan of a merge, and where its segment is going to stand, if there is one.
#[derive(Drop)]
pub struct MergePlan {
    /// The plan.
    pub plan: Plan,
    /// The place of the segment.
    pub place: Option<Extent>,
    /// What is written behind the segment: the table, unless no entry is left.
    pub pieces: Vec<Piece>,
}

/// The most numbers of a deletion list: `most_deleted` of `specs/Deletions`.
pub const MAX_DELETED: u32 = LONGEST_LIST;

// Puts the numbers whose deletion in the segment is not committed among the others.
fn put_pending(segment: &OpenSegment, pending: &mut Dead) -> Result<(), LayoutFault>
    ensures { PutsPending segment.now pending.old result pending.new }
{
    for number in segment.deleted.numbers() {
        if !segment.dead.contains(*number) {
            if pending.numbers().len() >= MAX_DELETED as usize {
                return Err(LayoutFault::Damaged);
            }
            pending.add(*number)?;
        }
    }
    Ok(())
}

// The numbers whose deletion no commit has taken, of all segments.
fn pending_of(alloc: Global, opened: &[OpenSegment]) -> Result<Dead, LayoutFault>
    ensures { TakesPending opened.now result }
{
    let mut pending = Dead::new(alloc);
    for segment in opened {
        put_pending(segment, &mut pending)?;
    }
    Ok(pending)
}

// The segment that comes next in the place of these: what is pending in them is in it too.
fn next_segment(
    alloc: Global,
    opened: &[OpenSegment],
    new: Option<NewSegment>,
) -> Result<Option<NextSegment>, LayoutFault>
    ensures { MovesPending opened.now new result }
{
    let Some(new) = new else {
        return Ok(None);
    };
    let deleted = pending_of(alloc, opened)?;
    Ok(Some(NextSegment { new, deleted }))
}

/// The plan of a merge of a run into this segment, or into none.
///
/// Its faults are `Full`, `Memory`, and `Damaged` where more deletions are pending in the run than a
/// list may have.
pub fn plan_merged(
    alloc: Global,
    manifest: &Manifest,
    opened: &[OpenSegment],
    run: Run,
    new: Option<NewSegment>,
) -> Result<MergePlan, LayoutFault>
    requires sound { IsBody manifest.now.units (view manifest.now) }
    requires generation { manifest.now.generation < end_of_ids }
    requires id { manifest.now.next_segment < end_of_ids }
    requires same { entries_of opened.now ≡ manifest.now.entries.items }
    requires some { 1 ≤ run.count }
    requires within { run.from + run.count ≤ length opened.now }
    requires sized { IsSized new }
    ensures { PlansMerged (view manifest.now) opened.now run.from run.count new result }
{
    let merged = &opened[run.from..run.from + run.count];
    let next = Next {
        run,
        segment: next_segment(alloc, merged, new)?,
        lists: Vec::new(alloc),
        next_number: manifest.next_number,
    };
    let NextPlan {
        plan,
        place,
        pieces,
    } = plan_next(alloc, manifest, opened, next)?;
    Ok(MergePlan {
        plan,
        place,
        pieces,
    })
}
