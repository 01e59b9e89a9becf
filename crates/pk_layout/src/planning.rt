//! The plan: the body that is going to be in force, and what changes once it is. All its memory is
//! taken, and nothing of the disk was touched.
ghost use Rattle.std.specs.Prelude.{◌≡◌, ◌≤◌, ◌<◌, IfOk, length};
ghost use Rattle.pk_layout.specs.Next.{CanFollow, PlansNext};
ghost use Rattle.pk_layout.specs.Plan.{PutsInForce};
ghost use Rattle.pk_manifest.specs.Sound.{IsBody, entry_limit};
ghost use Rattle.pk_manifest.specs.Spelling.{view};
ghost use Rattle.pk_model.specs.Limits.{end_of_ids};
ghost use Rattle.pk_open.specs.Opened.{entries_of};

use crate::change::{Change, new_lists_in};
use crate::fault::LayoutFault;
use crate::following::{entries_over, next_manifest, opened_new, place_in};
use crate::next::{Next, NextPlan};
use crate::pieces::pieces_with;
use crate::placing::{count_in, place_next};
use pk_manifest::Manifest;
use pk_open::OpenSegment;
use std::alloc::{AllocError, Global};

/// What is going to be in force, and what changes then in the open segments.
#[derive(Drop)]
pub struct Plan {
    /// The bytes of the next body.
    pub body: Vec<u8>,
    /// What that body says.
    pub manifest: Manifest,
    /// What becomes of the open segments: those of its entries, in their order.
    pub change: Change,
}

// The plan that puts this body in force, with this change of the open segments.
fn plan_for(alloc: Global, manifest: Manifest, change: Change) -> Result<Plan, AllocError>
    requires version { manifest.version ≡ 2 }
    requires few { length manifest.entries.items ≤ entry_limit 2 }
    ensures { IfOk result (PutsInForce (view manifest) change) }
{
    let body = manifest.spell(alloc)?;
    Ok(Plan {
        body,
        manifest,
        change,
    })
}

/// The plan of what comes next, over a body and its open segments.
///
/// Its faults are `Full` and `Memory`.
pub(crate) fn plan_next(
    alloc: Global,
    manifest: &Manifest,
    opened: &[OpenSegment],
    next: Next,
) -> Result<NextPlan, LayoutFault>
    requires sound { IsBody manifest.now.units (view manifest.now) }
    requires generation { manifest.now.generation < end_of_ids }
    requires id { manifest.now.next_segment < end_of_ids }
    requires same { entries_of opened.now ≡ manifest.now.entries.items }
    requires follows { CanFollow (view manifest.now) next }
    ensures { PlansNext (view manifest.now) opened.now next result }
{
    let extents = place_next(alloc, manifest, &next)?;
    let Next {
        run,
        segment,
        lists,
        next_number,
    } = next;
    let (first, behind) = extents.split_at(count_in(&segment));
    let place = place_in(first);
    let (placed, table) = behind.split_at(lists.len());
    let mut listed = Vec::with_capacity(alloc, manifest.entries.len() + 1)?;
    listed.extend_from_slice(&manifest.entries)?;
    let new_lists = new_lists_in(alloc, opened, placed, &mut listed)?;
    let entries = entries_over(manifest, listed, run, place)?;
    let following = next_manifest(manifest, next_number, place, entries, table);
    let pieces = pieces_with(alloc, lists, &following, behind)?;
    let segment = opened_new(alloc, manifest, segment, place);
    let change = Change {
        lists: new_lists,
        run,
        segment,
    };
    let plan = plan_for(alloc, following, change)?;
    Ok(NextPlan {
        plan,
        place,
        pieces,
    })
}
