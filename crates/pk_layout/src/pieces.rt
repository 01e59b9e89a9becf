//! What is written for a plan: bytes, each at its place.
ghost use Rattle.std.specs.Prelude.{◌≡◌, ◌+◌, ◌++◌, length, map, All};
ghost use Rattle.std.specs.Prelude.{IfOk, OnOk};
ghost use Rattle.pk_layout.specs.Plan.{CanBeWritten, IsGrown, laid_in, new_lists, table_bytes};
ghost use Rattle.pk_replace.specs.Claims.{claim_of};

use pk_disk::Extent;
use pk_manifest::Manifest;
use pk_open::OpenSegment;
use pk_replace::Piece;
use std::alloc::{AllocError, Global};

/// The bytes of the new lists of the segments with a pending deletion.
pub(crate) fn list_bytes(alloc: Global, opened: &[OpenSegment]) -> Result<Vec<Vec<u8>>, AllocError>
    requires grown { All IsGrown opened.now }
    ensures lists { IfOk result (λ v. map (λ w. w.items) v.items ≡ new_lists opened.now) }
    ensures sizes { OnOk result (CanBeWritten (new_lists opened.now)) }
{
    let mut lists = Vec::new(alloc);
    for segment in opened {
        if segment.is_pending() {
            let bytes = segment.deleted.spell(alloc)?;
            lists.push(bytes)?;
        }
    }
    Ok(lists)
}

// These bytes, each at the start of the extent at its place.
fn pieces_for(
    alloc: Global,
    writes: Vec<Vec<u8>>,
    extents: &[Extent],
) -> Result<Vec<Piece>, AllocError>
    requires { length writes.items ≡ length extents.now }
    ensures { IfOk result (λ v. map claim_of v.items
        ≡ laid_in extents.now (map (λ w. w.items) writes.items)) }
{
    let mut pieces = Vec::with_capacity(alloc, extents.len())?;
    for bytes in writes {
        let at = extents[pieces.len()].start();
        pieces.push(Piece { at, bytes })?;
    }
    Ok(pieces)
}

// Puts the table of a body behind what is to be written, unless it has no entry.
fn put_table_bytes(
    alloc: Global,
    writes: &mut Vec<Vec<u8>>,
    manifest: &Manifest,
) -> Result<(), AllocError>
    ensures { OnOk result (map (λ w. w.items) writes.new.items
        ≡ map (λ w. w.items) writes.old.items ++ table_bytes manifest.now.entries.items) }
{
    if manifest.entries.is_empty() {
        return Ok(());
    }
    let bytes = manifest.spell_table(alloc)?;
    writes.push(bytes)?;
    Ok(())
}

/// These bytes and the table of the body, each at the start of the extent at its place.
pub(crate) fn pieces_with(
    alloc: Global,
    mut writes: Vec<Vec<u8>>,
    manifest: &Manifest,
    extents: &[Extent],
) -> Result<Vec<Piece>, AllocError>
    requires { length writes.items + length (table_bytes manifest.now.entries.items)
        ≡ length extents.now }
    ensures { IfOk result (λ v. map claim_of v.items ≡ laid_in extents.now
        (map (λ w. w.items) writes.items ++ table_bytes manifest.now.entries.items)) }
{
    put_table_bytes(alloc, &mut writes, manifest)?;
    pieces_for(alloc, writes, extents)
}
