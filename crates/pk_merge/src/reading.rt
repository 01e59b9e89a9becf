//! What a merge reads of an input before it writes: the documents that are left, and the words.

ghost use Rattle.std.specs.Prelude.{
  ◌≡◌,
  ◌≤◌,
  ◌+◌,
  ◌++◌,
  ℕ,
  List,
  length,
  take,
  drop,
  All,
  IfOk,
  OnOk,
};
ghost use Rattle.std.specs.List.Sorted.{IsStrictlyIncreasing};
ghost use Rattle.pk_disk.specs.Units.{extent_bytes, start_of};
ghost use Rattle.pk_join.specs.Inputs.{HasKind, LiesInside, SpellsInputs};
ghost use Rattle.pk_join.specs.Listed.{AreFresh, LieIn, source_of};
ghost use Rattle.pk_join.specs.Said.{AreSaidIn};
ghost use Rattle.pk_join.specs.WalkInput.{HaveExtentsOf, IsBefore, lists_of};
ghost use Rattle.pk_merge.specs.Counting.{count_said, counts_said, numbers_listed};
ghost use Rattle.pk_merge.specs.Gathering.{RiseFrom};
ghost use Rattle.pk_merge.specs.Inputs.{ReadsAs};
ghost use Rattle.pk_merge.specs.Keeping.{AreKept, KeepsBetween, StayApart};
ghost use Rattle.pk_merge.specs.Left.{kept_in};
ghost use Rattle.pk_merge.specs.Merging.{CountsMerge};
ghost use Rattle.pk_merge.specs.ReadAll.{ReadsAllAs};
ghost use Rattle.pk_merge.specs.Said.{AreAllSaid};
ghost use Rattle.pk_model.specs.Collection.{Doc, numbers_of};
ghost use Rattle.pk_posting.specs.Frames.{ReadsSource};
ghost use Rattle.pk_segment.specs.OnlyRead.{ReadsDisk};
ghost use Rattle.pk_segment.specs.Spelling.{SegmentSpells};
ghost use Rattle.pk_state.specs.Committed.{Stored, all_in};

use crate::fault::MergeFault;
use crate::left::{InputDocuments, Left};
use pk_disk::{Disk, UNIT};
use pk_join::{Input, InputLists, MergeInput, READ_AHEAD, read_lists};
use pk_posting::ByteSource;
use pk_segment::{Ahead, AheadSource, ENTRY_BYTES, HEADER_BYTES, Segment};
use std::alloc::Global;

// The words of an input whose segment is all of a source, and whose bytes begin at a position of
// the disk; and the documents that it leaves.
fn read_from<S: ByteSource>(
    alloc: Global,
    source: &mut S,
    input: &MergeInput,
    start: u64,
    left: &mut Left,
) -> Result<InputLists, MergeFault>
    requires kind { HasKind input.now }
    requires inside { start + length (S.content source.old) ≤ left.old.disk_bytes }
    ensures read { S.honest → (bytes : List ℕ) (so_far docs more : List Doc)
        → S.content source.old ≡ take (length (S.content source.old)) (drop start bytes)
        → SegmentSpells (S.content source.old) docs input.now.kind
        → RiseFrom left.old.last (docs ++ more)
        → AreKept bytes (kept_in left.old) so_far
        → ReadsAs input.now.kind bytes so_far docs input.now.dead.now more left.new result }
    ensures between { OnOk result (KeepsBetween start (start + length (S.content source.old))
        (kept_in left.old) (kept_in left.new)) }
    ensures enough { S.honest → OnOk result
        (count_said (S.content source.old) + length (kept_in left.old)
        ≤ length (kept_in left.new) + length input.now.dead.now) }
    ensures said { S.honest → IfOk result
        (λ lists. AreSaidIn (S.content source.old) input.now.kind (source_of lists)) }
    ensures lies { IfOk result (λ lists. LieIn (length (S.content source.old)) (source_of lists)) }
    ensures fresh { IfOk result AreFresh }
    ensures disk_bytes { left.new.disk_bytes ≡ left.old.disk_bytes }
    ensures left { ReadsSource S.ByteSource CountsMerge result source.old source.new }
{
    let bytes = source.len();
    let segment = Segment::open(source, bytes, input.kind)?;
    let directory = segment.directory(alloc, source)?;
    let front = HEADER_BYTES as u64 + ENTRY_BYTES as u64 * u64::from(segment.count());
    let texts = start.saturating_add(front);
    let end = start + u64::from(bytes);
    let documents = InputDocuments {
        directory: &directory,
        dead: input.dead,
    };
    left.take_all(&documents, texts, end)?;
    let lists = read_lists(alloc, source, input, &segment, &directory)?;
    Ok(lists)
}

/// The words of an input, with their lists, and the documents that it leaves. It reads 32,768 bytes
/// at once.
///
/// Answers `TooLarge` where even a segment without an index would be too long, `Damaged` where the
/// input is no segment or the numbers don't rise, `Disk` where a read failed, or `Memory`.
pub(crate) fn read_input<D: Disk>(
    alloc: Global,
    disk: &mut D,
    input: &MergeInput,
    left: &mut Left,
) -> Result<InputLists, MergeFault>
    requires kind { HasKind input.now }
    requires inside { LiesInside (length (D.content disk.old)) input.now }
    requires disk_bytes { left.old.disk_bytes ≡ length (D.content disk.old) }
    ensures read { D.honest → (so_far docs more : List Doc)
        → SegmentSpells (extent_bytes (D.content disk.old) input.now.extent) docs input.now.kind
        → RiseFrom left.old.last (docs ++ more)
        → AreKept (D.content disk.old) (kept_in left.old) so_far
        → ReadsAs input.now.kind (D.content disk.old) so_far docs input.now.dead.now more left.new
        result }
    ensures between { OnOk result (KeepsBetween (start_of input.now.extent)
        (start_of input.now.extent + input.now.extent.bytes)
        (kept_in left.old) (kept_in left.new)) }
    ensures enough { D.honest → OnOk result
        (count_said (extent_bytes (D.content disk.old) input.now.extent)
        + length (kept_in left.old) ≤ length (kept_in left.new) + length input.now.dead.now) }
    ensures said { D.honest → IfOk result (λ lists. AreSaidIn
        (extent_bytes (D.content disk.old) input.now.extent) input.now.kind (source_of lists)) }
    ensures lies { IfOk result (λ lists. LieIn input.now.extent.bytes (source_of lists)) }
    ensures fresh { IfOk result AreFresh }
    ensures disk_bytes { left.new.disk_bytes ≡ left.old.disk_bytes }
    ensures left { ReadsDisk D.Disk CountsMerge result disk.old disk.new }
{
    let start = UNIT * u64::from(input.extent.first);
    let mut ahead = Ahead::new(alloc, READ_AHEAD)?;
    let mut source = AheadSource::on(disk, input.extent, &mut ahead);
    read_from(alloc, &mut source, input, start, left)
}

/// All inputs, each before its first word, and the documents that they leave.
pub(crate) fn read_all<D: Disk>(
    alloc: Global,
    disk: &mut D,
    inputs: &[MergeInput],
) -> Result<(Vec<Input>, Left), MergeFault>
    requires kinds { All HasKind inputs.now }
    requires inside { All (LiesInside (length (D.content disk.old))) inputs.now }
    ensures read { D.honest → (stored : List Stored)
        → SpellsInputs (D.content disk.old) inputs.now stored
        → IsStrictlyIncreasing (numbers_of (all_in stored))
        → ReadsAllAs (D.content disk.old) inputs.now stored result }
    ensures apart { IfOk result (λ r. StayApart inputs.now (kept_in r.1)) }
    ensures enough { D.honest → IfOk result (λ r. counts_said (D.content disk.old) inputs.now
        ≤ length (kept_in r.1) + numbers_listed inputs.now) }
    ensures said { D.honest → IfOk result
        (λ r. AreAllSaid (D.content disk.old) inputs.now (lists_of r.0.items)) }
    ensures extents { IfOk result (λ r. HaveExtentsOf inputs.now r.0.items) }
    ensures before { IfOk result (λ r. All IsBefore r.0.items) }
    ensures disk_bytes { IfOk result (λ r. r.1.disk_bytes ≡ length (D.content disk.old)) }
    ensures left { ReadsDisk D.Disk CountsMerge result disk.old disk.new }
{
    let mut left = Left::new(alloc, disk.len());
    let mut read = Vec::with_capacity(alloc, inputs.len())?;
    for input in inputs {
        let lists = read_input(alloc, disk, input, &mut left)?;
        let before = Input::new(alloc, input.extent, lists, inputs.len())?;
        let Ok(()) = read.push(before) else {
            return Err(MergeFault::Memory);
        };
    }
    Ok((read, left))
}
