//! The body that follows, and the segment that is new in it. Nothing here asks for the bytes of what
//! is written: the extents and the open segments do.
ghost use Rattle.std.specs.Prelude.{◌≡◌, ◌≤◌, ◌<◌, ◌+◌, IfOk, length};
ghost use Rattle.pk_layout.specs.Change.{opened_in};
ghost use Rattle.pk_layout.specs.Merging.{extents_in};
ghost use Rattle.pk_layout.specs.Next.{opened_new};
ghost use Rattle.pk_layout.specs.Plan.{entry_in, ids_in, table_at, tabled};
ghost use Rattle.pk_manifest.specs.Spelling.{no_extent, view};
ghost use Rattle.pk_model.specs.Limits.{end_of_ids};
ghost use Rattle.pk_segment.specs.Spelling.{IsKind};
ghost use Rattle.pk_state.specs.Writing.{new_entry, next_body, replaced, written_kind};

use crate::change::Run;
use crate::next::NextSegment;
use pk_dead::Dead;
use pk_disk::Extent;
use pk_manifest::{Manifest, NO_TABLE, Part};
use pk_open::OpenSegment;
use std::alloc::{AllocError, Global};

/// The kind of the segments that are written.
#[tactic(auto, unfolding(pk_state::specs::Writing::written_kind))]
pub fn written_kind() -> u32
    ensures is { result ≡ written_kind }
    ensures kind { IsKind result }
{
    2
}

// The entry of a new segment in this extent.
fn new_entry(manifest: &Manifest, extent: Extent) -> Part
    ensures { result ≡ new_entry (view manifest.now) extent }
{
    Part {
        segment: manifest.next_segment,
        extent,
        kind: written_kind(),
        dead: None,
    }
}

/// The one extent that there may be.
pub(crate) fn place_in(extents: &[Extent]) -> Option<Extent>
    requires { length extents.now ≤ 1 }
    ensures { extents_in result ≡ extents.now }
{
    match extents.split_first() {
        Some((place, _)) => Some(*place),
        None => None,
    }
}

// Where the table lies: in the first of these, if there is one.
fn table_in(extents: &[Extent]) -> Extent
    ensures { result ≡ table_at extents.now no_extent }
{
    match extents.split_first() {
        Some((table, _)) => *table,
        None => NO_TABLE,
    }
}

/// The new segment open, with its entry in this extent; none where there is none.
pub(crate) fn opened_new(
    alloc: Global,
    manifest: &Manifest,
    segment: Option<NextSegment>,
    place: Option<Extent>,
) -> Option<OpenSegment>
    ensures { opened_in result ≡ opened_new (view manifest.now) segment place }
{
    let Some(segment) = segment else {
        return None;
    };
    let Some(extent) = place else {
        return None;
    };
    Some(OpenSegment {
        entry: new_entry(manifest, extent),
        segment: segment.new.segment,
        dead: Dead::new(alloc),
        deleted: segment.deleted,
    })
}

/// These entries, with that of the new segment in this extent, if there is one, in the place of a
/// run.
pub(crate) fn entries_over(
    manifest: &Manifest,
    entries: Vec<Part>,
    run: Run,
    place: Option<Extent>,
) -> Result<Vec<Part>, AllocError>
    requires { run.from + run.count ≤ length entries.items }
    ensures { IfOk result (λ v. v.items ≡ replaced run.from run.count
        (entry_in (view manifest.now) place) entries.items) }
{
    let mut next = entries;
    let _ = next.drain(run.from..run.from + run.count);
    if let Some(extent) = place {
        next.insert(run.from, new_entry(manifest, extent))?;
    }
    Ok(next)
}

// How many ids a new segment in this extent takes.
fn ids_in(place: &Option<Extent>) -> u64
    ensures { result ≡ ids_in place.now }
{
    match place {
        Some(_) => 1,
        None => 0,
    }
}

/// The body that follows, of these entries, with a new segment in this extent, if there is one; its
/// table in the first of these extents, if there is one.
pub(crate) fn next_manifest(
    manifest: &Manifest,
    next_number: u32,
    place: Option<Extent>,
    entries: Vec<Part>,
    table: &[Extent],
) -> Manifest
    requires generation { manifest.now.generation < end_of_ids }
    requires id { manifest.now.next_segment < end_of_ids }
    ensures { view result ≡ tabled table.now
        (next_body (view manifest.now) next_number (ids_in place) entries.items) }
{
    Manifest {
        version: 2,
        table: table_in(table),
        generation: manifest.generation + 1,
        units: manifest.units,
        next_number,
        next_segment: manifest.next_segment + ids_in(&place),
        entries,
    }
}
