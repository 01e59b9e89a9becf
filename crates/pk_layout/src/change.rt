//! What becomes of the open segments once a plan's body is in force: those with a new deletion list
//! get it, and a run of them gives way to one segment, or to none. They are changed in place, and
//! all others stay where they are.
ghost use Rattle.std.specs.Prelude.{◌≡◌, ◌≤◌, ◌<◌, ◌+◌, All, IfOk, OnOk};
ghost use Rattle.std.specs.Prelude.{length, vec_capacity};
ghost use Rattle.pk_layout.specs.Change.{Fits, changed, new_lists_in, opened_in, with_lists};
ghost use Rattle.pk_layout.specs.Next.{run_behind};
ghost use Rattle.pk_layout.specs.Plan.{settled_in};
ghost use Rattle.pk_open.specs.Opened.{entries_of};
ghost use Rattle.pk_state.specs.Writing.{replaced};

use pk_dead::Dead;
use pk_disk::Extent;
use pk_manifest::Part;
use pk_open::OpenSegment;
use std::alloc::{AllocError, Global};

/// A run of neighbouring segments.
#[derive(Clone, Copy, Debug)]
pub struct Run {
    /// The place of the first.
    pub from: usize,
    /// How many there are.
    pub count: usize,
}

impl Run {
    /// The empty run behind all segments.
    pub(crate) fn behind(opened: &[OpenSegment]) -> Run
        ensures { result ≡ run_behind opened.now }
    {
        Run {
            from: opened.len(),
            count: 0,
        }
    }
}

/// A deletion list that a segment gets.
#[derive(Drop)]
pub(crate) struct NewList {
    /// The place of the segment.
    pub(crate) place: usize,
    /// Where the list is written.
    pub(crate) extent: Extent,
    /// The numbers of the list: all that are deleted of the segment.
    pub(crate) numbers: Dead,
}

/// What becomes of the open segments.
#[derive(Drop)]
pub struct Change {
    /// The new lists.
    pub(crate) lists: Vec<NewList>,
    /// The run that gives way; there may be none in it.
    pub(crate) run: Run,
    /// What comes in its place.
    pub(crate) segment: Option<OpenSegment>,
}

/// The new lists of the segments with a pending deletion, in these extents, one after the other. The
/// entries of those segments get them.
pub(crate) fn new_lists_in(
    alloc: Global,
    opened: &[OpenSegment],
    extents: &[Extent],
    entries: &mut Vec<Part>,
) -> Result<Vec<NewList>, AllocError>
    requires { entries_of opened.now ≡ entries.old.items }
    ensures lists { IfOk result (λ v. v.items ≡ new_lists_in 0 opened.now extents.now) }
    ensures places { IfOk result (λ v. All (λ l. l.place < length opened.now) v.items) }
    ensures entries { OnOk result
        (entries.new.items ≡ entries_of (settled_in opened.now extents.now)) }
{
    let mut lists = Vec::with_capacity(alloc, extents.len())?;
    for place in 0..opened.len() {
        let segment = &opened[place];
        if segment.is_pending() && lists.len() < extents.len() {
            let extent = extents[lists.len()];
            let numbers = segment.deleted.copy(alloc)?;
            let entry = &mut entries[place];
            entry.dead = Some(extent);
            lists.push(NewList {
                place,
                extent,
                numbers,
            })?;
        }
    }
    Ok(lists)
}

// Each of these lists takes the place of the one that its segment had.
fn put_lists(lists: Vec<NewList>, opened: &mut Vec<OpenSegment>)
    requires { All (λ l. l.place < length opened.old.items) lists.items }
    ensures items { opened.new.items ≡ with_lists opened.old.items lists.items }
    ensures room { vec_capacity opened.new ≡ vec_capacity opened.old }
{
    for list in lists {
        let segment = &mut opened[list.place];
        segment.entry.dead = Some(list.extent);
        segment.dead = list.numbers;
    }
}

// The segment, if there is one, takes the place of the run.
fn put_over(run: Run, segment: Option<OpenSegment>, opened: &mut Vec<OpenSegment>)
    requires within { run.from + run.count ≤ length opened.old.items }
    requires room { length (replaced run.from run.count (opened_in segment) opened.old.items)
        ≤ vec_capacity opened.old }
    ensures items { opened.new.items
        ≡ replaced run.from run.count (opened_in segment) opened.old.items }
    ensures room { vec_capacity opened.old ≤ vec_capacity opened.new }
{
    let _ = opened.drain(run.from..run.from + run.count);
    if let Some(segment) = segment {
        let Ok(()) = opened.insert(run.from, segment) else {
            unreachable!()
        };
    }
}

impl Change {
    /// Makes of the open segments those of the next body. It takes no memory: there is room for as
    /// many as there are then.
    pub fn apply(self, opened: &mut Vec<OpenSegment>)
        requires fits { Fits self (length opened.old.items) }
        requires room { length (changed self opened.old.items) ≤ vec_capacity opened.old }
        ensures opened { opened.new.items ≡ changed self opened.old.items }
        ensures room { vec_capacity opened.old ≤ vec_capacity opened.new }
    {
        let Change {
            lists,
            run,
            segment,
        } = self;
        put_lists(lists, opened);
        put_over(run, segment, opened);
    }
}
