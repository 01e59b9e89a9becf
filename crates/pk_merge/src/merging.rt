//! One segment of the documents that several leave, in memory: the plain form that tests hold
//! `merge_into` against. The engine writes a merge as it is read.

ghost use Rattle.std.specs.Prelude.{
  ◌<◌,
  ◌+◌,
  ◌++◌,
  ◌∷◌,
  [],
  ℕ,
  List,
  length,
  drop,
  All,
  IfOk,
};
ghost use Rattle.std.specs.List.Sorted.{IsStrictlyIncreasing};
ghost use Rattle.pk_disk.specs.Units.{extent_bytes};
ghost use Rattle.pk_join.specs.Inputs.{HasKind, LiesInside, SpellsInputs};
ghost use Rattle.pk_merge.specs.Gathering.{GathersAs, RiseFrom, left_by};
ghost use Rattle.pk_merge.specs.Merging.{CountsMerge, IsSomeMerged, MergedAs};
ghost use Rattle.pk_model.specs.Collection.{Doc, numbers_of};
ghost use Rattle.pk_posting.specs.Frames.{ReadsSource};
ghost use Rattle.pk_segment.specs.Directory.{IsDirectoryOf, doc_in, entries_in};
ghost use Rattle.pk_segment.specs.OnlyRead.{ReadsDisk};
ghost use Rattle.pk_segment.specs.Opened.{IsSegmentOf};
ghost use Rattle.pk_segment.specs.Spelling.{IsKind, SegmentSpells};
ghost use Rattle.pk_state.specs.Committed.{Stored, all_in, live_in};

use crate::fault::MergeFault;
use crate::gathered::Gathered;
use pk_dead::Dead;
use pk_disk::Disk;
use pk_join::MergeInput;
use pk_posting::ByteSource;
use pk_segment::{Directory, ExtentSource, Segment};
use std::alloc::Global;

/// The segment of that kind of the documents that the inputs leave, in the inputs' order; none
/// where none is left.
///
/// Answers `TooLarge` exactly where the segment would be too long, `Damaged` where an input is no
/// segment or the numbers don't rise, `Disk` where a read failed, or `Memory`.
pub fn merged<D: Disk>(
    alloc: Global,
    disk: &mut D,
    inputs: &[MergeInput],
    kind: u32,
) -> Result<Option<Vec<u8>>, MergeFault>
    requires kind { IsKind kind }
    requires kinds { All HasKind inputs.now }
    requires inside { All (LiesInside (length (D.content disk.old))) inputs.now }
    ensures merged { D.honest → (stored : List Stored)
        → SpellsInputs (D.content disk.old) inputs.now stored
        → IsStrictlyIncreasing (numbers_of (all_in stored))
        → MergedAs (live_in stored) kind result }
    ensures segment { IfOk result (IsSomeMerged kind) }
    ensures left { ReadsDisk D.Disk CountsMerge result disk.old disk.new }
{
    let mut gathered = Gathered::new(alloc);
    gather_all(alloc, disk, inputs, &mut gathered)?;
    gathered.build(alloc, kind)
}

// Gathers what the inputs leave, one after the other.
fn gather_all<D: Disk>(
    alloc: Global,
    disk: &mut D,
    inputs: &[MergeInput],
    gathered: &mut Gathered,
) -> Result<(), MergeFault>
    requires kinds { All HasKind inputs.now }
    requires inside { All (LiesInside (length (D.content disk.old))) inputs.now }
    ensures gathered { D.honest → (stored : List Stored)
        → SpellsInputs (D.content disk.old) inputs.now stored
        → RiseFrom gathered.old.last (all_in stored)
        → GathersAs (live_in stored) [] gathered.old gathered.new result }
    ensures left { ReadsDisk D.Disk CountsMerge result disk.old disk.new }
{
    for input in inputs {
        gather_in(alloc, disk, input, gathered)?;
    }
    Ok(())
}

// Gathers what an input on the disk leaves.
fn gather_in<D: Disk>(
    alloc: Global,
    disk: &mut D,
    input: &MergeInput,
    gathered: &mut Gathered,
) -> Result<(), MergeFault>
    requires kind { HasKind input.now }
    requires inside { LiesInside (length (D.content disk.old)) input.now }
    ensures gathered { D.honest → (docs more : List Doc)
        → SegmentSpells (extent_bytes (D.content disk.old) input.now.extent) docs input.now.kind
        → RiseFrom gathered.old.last (docs ++ more)
        → GathersAs (left_by input.now.dead.now docs) more gathered.old gathered.new result }
    ensures left { ReadsDisk D.Disk CountsMerge result disk.old disk.new }
{
    let mut source = ExtentSource::on(disk, input.extent);
    gather_from(alloc, &mut source, input.kind, input.dead, gathered)
}

// Gathers what a segment and its deletion list leave: the segment is all of the source.
fn gather_from<S: ByteSource>(
    alloc: Global,
    source: &mut S,
    kind: u32,
    dead: &Dead,
    gathered: &mut Gathered,
) -> Result<(), MergeFault>
    requires { IsKind kind }
    ensures gathered { S.honest → (docs more : List Doc)
        → SegmentSpells (S.content source.old) docs kind
        → RiseFrom gathered.old.last (docs ++ more)
        → GathersAs (left_by dead.now docs) more gathered.old gathered.new result }
    ensures left { ReadsSource S.ByteSource CountsMerge result source.old source.new }
{
    let bytes = source.len();
    let segment = Segment::open(source, bytes, kind)?;
    let directory = segment.directory(alloc, source)?;
    let opened = Opened {
        segment: &segment,
        directory: &directory,
        dead,
    };
    for i in 0..directory.len() {
        gather_one(alloc, source, &opened, i, gathered)?;
    }
    Ok(())
}

// A segment that is open, with its directory and its deletion list.
#[derive(Clone, Copy)]
struct Opened<'a> {
    segment: &'a Segment,
    directory: &'a Directory,
    dead: &'a Dead,
}

// Passes the ith document where the deletion list has it, else keeps it.
fn gather_one<S: ByteSource>(
    alloc: Global,
    source: &mut S,
    opened: &Opened,
    i: u32,
    gathered: &mut Gathered,
) -> Result<(), MergeFault>
    requires { i < entries_in opened.now.directory.now }
    ensures gathered { S.honest → (docs more : List Doc) (kind : ℕ)
        → SegmentSpells (S.content source.old) docs kind → IsSegmentOf opened.now.segment.now docs
        → IsDirectoryOf opened.now.directory.now docs kind
        → RiseFrom gathered.old.last (drop i docs ++ more)
        → GathersAs (left_by opened.now.dead.now (doc_in docs i ∷ [])) (drop (i + 1) docs ++ more)
        gathered.old gathered.new result }
    ensures left { ReadsSource S.ByteSource CountsMerge result source.old source.new }
{
    let number = opened.directory.number(i);
    if number <= gathered.last() {
        return Err(MergeFault::Damaged);
    }
    if opened.dead.contains(number) {
        gathered.pass(number);
        return Ok(());
    }
    let document = opened
        .segment
        .document_in(alloc, source, opened.directory, i)?;
    gathered.keep(document)
}
