//! A merge prepared: everything is known and all memory is taken before the first write.

ghost use Rattle.std.specs.Prelude.{◌≡◌, ◌⊎◌, ◌<◌, ℕ, List, length, All, IfErr, IfOk, OnOk};
ghost use Rattle.std.specs.List.Sorted.{IsStrictlyIncreasing};
ghost use Rattle.pk_join.specs.Inputs.{HasKind, LiesInside, SpellsInputs};
ghost use Rattle.pk_join.specs.Walk.{words_to_come};
ghost use Rattle.pk_join.specs.WalkInput.{HaveExtentsOf, IsBefore, IsWithin, lists_of};
ghost use Rattle.pk_join.specs.Walking.{AreListed};
ghost use Rattle.pk_join.specs.Whole.{AllAreWhole};
ghost use Rattle.pk_merge.specs.Counting.{LeavesEnough};
ghost use Rattle.pk_merge.specs.Keeping.{AreKept};
ghost use Rattle.pk_merge.specs.Left.{kept_in};
ghost use Rattle.pk_merge.specs.Lists.{AreOfInputs, HasGone};
ghost use Rattle.pk_merge.specs.Merging.{CountsMerge};
ghost use Rattle.pk_merge.specs.Prepared.{IsReady, PreparesAs, PreparesOneAs};
ghost use Rattle.pk_merge.specs.Said.{NameWhole};
ghost use Rattle.pk_model.specs.Collection.{numbers_of};
ghost use Rattle.pk_model.specs.Terms.{terms_of};
ghost use Rattle.pk_segment.specs.OnlyRead.{ReadsDisk};
ghost use Rattle.pk_segment.specs.Planning.{HasEntries, HasWords};
ghost use Rattle.pk_segment.specs.Spelling.{AreDocuments};
ghost use Rattle.pk_state.specs.Committed.{Stored, all_in, live_in};

use crate::fault::MergeFault;
use crate::front::front_of;
use crate::left::Left;
use crate::lists::{MOST_KEPT_LISTS, lists_for};
use crate::output::WRITE;
use crate::planning::plan_words;
use crate::prepared::Prepared;
use crate::reading::read_all;
use crate::texts::SPAN_BYTES;
use pk_disk::Disk;
use pk_join::{Input, MergeInput, Walk};
use pk_segment::IndexWriter;
use std::alloc::Global;

// The merge of documents that are left, whose index is planned: its length, and its memory.
fn prepare_of(
    alloc: Global,
    left: Left,
    walk: Walk,
    mut index: IndexWriter,
) -> Result<Prepared, MergeFault>
    requires entries { HasEntries index }
    requires most_kept { index.most_kept ≡ MOST_KEPT_LISTS }
    requires ended { words_to_come walk ≡ 0 }
    ensures prepared { (bytes : List ℕ) (inputs : List MergeInput) (stored : List Stored)
        → HasGone bytes inputs stored walk
        → AreKept bytes (kept_in left) (live_in stored)
        → HasWords index (terms_of (live_in stored)) (live_in stored)
        → PreparesOneAs bytes inputs stored result }
    ensures documents { IfOk result (λ p. p.documents.items ≡ kept_in left) }
    ensures disk_bytes { IfOk result (λ p. p.disk_bytes ≡ left.disk_bytes) }
    ensures inputs { (inputs : List MergeInput) → HaveExtentsOf inputs walk.inputs.items
        → IfOk result (λ p. AreOfInputs inputs p.lists) }
    ensures cause { IfErr result (λ f. (f ≡ MergeFault.TooLarge) ⊎ (f ≡ MergeFault.Memory)) }
{
    let header = index.header(left.documents.len() as u32, left.bytes())?;
    let front = front_of(alloc, header, &left.documents)?;
    let lists = lists_for(alloc, walk, &mut index)?;
    let room = vec![in alloc; 0u8; SPAN_BYTES]?;
    let buffer = vec![in alloc; 0u8; WRITE]?;
    let dictionary = index.finish(alloc)?;
    Ok(Prepared {
        documents: left.documents,
        disk_bytes: left.disk_bytes,
        lists,
        room,
        buffer,
        front,
        dictionary,
        size: header.size(),
    })
}

// The merge of the documents that some inputs leave, which stand before their first words.
fn prepare_left<D: Disk>(
    alloc: Global,
    disk: &mut D,
    read: Vec<Input>,
    left: Left,
) -> Result<Prepared, MergeFault>
    requires some { 0 < length (kept_in left) }
    requires before { All IsBefore read.items }
    requires within { All (IsWithin (length (D.content disk.old))) read.items }
    ensures prepared { D.honest → (inputs : List MergeInput) (stored : List Stored)
        → SpellsInputs (D.content disk.old) inputs stored → HaveExtentsOf inputs read.items
        → AreListed inputs (lists_of read.items) stored
        → AreKept (D.content disk.old) (kept_in left) (live_in stored)
        → AreDocuments (live_in stored)
        → PreparesOneAs (D.content disk.old) inputs stored result }
    ensures documents { IfOk result (λ p. p.documents.items ≡ kept_in left) }
    ensures disk_bytes { IfOk result (λ p. p.disk_bytes ≡ left.disk_bytes) }
    ensures inputs { (inputs : List MergeInput) → HaveExtentsOf inputs read.items
        → IfOk result (λ p. AreOfInputs inputs p.lists) }
    // Whatever the bytes are, each list that an input names is one, and lies within its segment.
    ensures whole { OnOk result (All (AllAreWhole D.honest (D.content disk.old)) read.items) }
    ensures left { ReadsDisk D.Disk CountsMerge result disk.old disk.new }
{
    let mut walk = Walk::new(alloc, read, left.documents.len())?;
    let index = plan_words(alloc, disk, &mut walk)?;
    let prepared = prepare_of(alloc, left, walk, index)?;
    Ok(prepared)
}

/// Prepares a merge of the inputs to a segment of kind 2: it finds the exact length, and takes all
/// memory. None where no document is left. It writes nothing.
///
/// Answers `TooLarge` exactly where the segment would be too long, `Damaged` where an input is no
/// segment or the numbers don't rise, `Disk` where a read failed, or `Memory`. Whatever the bytes
/// are, of the documents that their headers say no more are left out than the lists have numbers,
/// and where any are left, the posting list of each word that a dictionary says is one, and lies in
/// its extent.
pub fn prepare<D: Disk>(
    alloc: Global,
    disk: &mut D,
    inputs: &[MergeInput],
) -> Result<Option<Prepared>, MergeFault>
    requires kinds { All HasKind inputs.now }
    requires inside { All (LiesInside (length (D.content disk.old))) inputs.now }
    ensures prepared { D.honest → (stored : List Stored)
        → SpellsInputs (D.content disk.old) inputs.now stored
        → IsStrictlyIncreasing (numbers_of (all_in stored))
        → PreparesAs (D.content disk.old) inputs.now stored result }
    ensures ready { IsReady (length (D.content disk.old)) inputs.now result }
    ensures enough { D.honest → LeavesEnough (D.content disk.old) inputs.now result }
    ensures whole { D.honest → NameWhole (D.content disk.old) inputs.now result }
    ensures left { ReadsDisk D.Disk CountsMerge result disk.old disk.new }
{
    let (read, left) = read_all(alloc, disk, inputs)?;
    if left.documents.is_empty() {
        return Ok(None);
    }
    let prepared = prepare_left(alloc, disk, read, left)?;
    Ok(Some(prepared))
}
