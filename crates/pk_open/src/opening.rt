//! The segments of a body, opened.
//!
//! Of each the first 4,097 bytes are read at once, or all of a shorter one, the last entry of a
//! directory that goes on behind these by another read, and its deletion list as a whole. A
//! deletion list has to spell a list, one no longer than the segment has documents; whether its
//! numbers are numbers of these is not asked.

ghost use Rattle.std.specs.Prelude.{◌≡◌, ◌≤◌, ℕ, List, length, All, IfOk, IsErrOf};
ghost use Rattle.pk_manifest.specs.Spelling.{view};
ghost use Rattle.pk_open.specs.Opened.{entries_of};
ghost use Rattle.pk_open.specs.Opening.{
  ExtentOpensAs,
  IsGrown,
  OpensAsList,
  OpensAsSegment,
  OpensNext,
  ReadsOne,
  SegmentsAs,
  SpellsFew,
};
ghost use Rattle.pk_posting.specs.Limits.{most_lent};
ghost use Rattle.pk_segment.specs.Ahead.{ahead_room};
ghost use Rattle.pk_segment.specs.OnlyRead.{ReadsDisk};
ghost use Rattle.pk_segment.specs.Reading.{CountsReads};
ghost use Rattle.pk_segment.specs.Spelling.{IsKind};
ghost use Rattle.pk_state.specs.Kept.{EndsInside, HaveKinds, LieInside, ListEndsInside};

use crate::opened::OpenSegment;
use pk_dead::Dead;
use pk_disk::{Disk, Extent};
use pk_manifest::{Manifest, Part};
use pk_posting::{DecodeFault, SourceFault};
use pk_segment::{Ahead, AheadSource, ReadFault, Segment};
use std::alloc::Global;

// How many bytes of a segment are read at once: one more than a page, so that a page cache
// (pk_pages) keeps none of them.
const READ_AHEAD: usize = 4_097;

// No list has more bytes than these, for its count,
const LIST_COUNT_BYTES: u64 = 4;

// and these for each of its numbers.
const LIST_NUMBER_BYTES: u64 = 5;

// The segment of an entry.
fn open_segment<D: Disk>(disk: &mut D, ahead: &mut Ahead, entry: Part) -> Result<Segment, ReadFault>
    requires kind { IsKind entry.kind }
    requires inside { EndsInside (length (D.content disk.old)) entry.extent }
    requires room { most_lent ≤ ahead_room ahead.old }
    ensures opened { D.honest → ReadsOne (ExtentOpensAs (D.content disk.old) entry) result }
    ensures room { most_lent ≤ ahead_room ahead.new }
    ensures left { ReadsDisk D.Disk CountsReads result disk.old disk.new }
{
    let mut source = AheadSource::on(disk, entry.extent, ahead);
    match Segment::open(&mut source, entry.extent.bytes, entry.kind) {
        Ok(segment) => Ok(segment),
        Err(SourceFault::Damaged) => Err(ReadFault::Damaged),
        Err(SourceFault::Disk) => Err(ReadFault::Disk),
    }
}

// The list that the bytes spell, if it has no more numbers than so many.
fn list_of(alloc: Global, bytes: &[u8], count: u32) -> Result<Dead, DecodeFault>
    ensures list { IfOk result (SpellsFew bytes.now count) }
    ensures damaged { IsErrOf result DecodeFault.Damaged
        → (dead : List ℕ) → SpellsFew bytes.now count dead → ⊥ }
{
    let dead = Dead::read(alloc, bytes)?;
    if dead.len() > count as usize {
        return Err(DecodeFault::Damaged);
    }
    Ok(dead)
}

// The numbers of a deletion list, of a segment with so many documents. A list that is too long for
// these takes no memory.
fn read_list<D: Disk>(
    alloc: Global,
    disk: &mut D,
    list: Option<Extent>,
    count: u32,
) -> Result<Dead, ReadFault>
    requires { ListEndsInside (length (D.content disk.old)) list }
    ensures list { D.honest → ReadsOne (OpensAsList (D.content disk.old) list count) result }
    ensures left { ReadsDisk D.Disk CountsReads result disk.old disk.new }
{
    let Some(extent) = list else {
        return Ok(Dead::new(alloc));
    };
    if u64::from(extent.bytes) > LIST_COUNT_BYTES + LIST_NUMBER_BYTES * u64::from(count) {
        return Err(ReadFault::Damaged);
    }
    let Ok(mut bytes) = vec![in alloc; 0u8; extent.bytes as usize] else {
        return Err(ReadFault::Memory);
    };
    let Ok(()) = disk.read(extent.start(), &mut bytes) else {
        return Err(ReadFault::Disk);
    };
    match list_of(alloc, &bytes, count) {
        Ok(dead) => Ok(dead),
        Err(DecodeFault::Damaged) => Err(ReadFault::Damaged),
        Err(DecodeFault::Memory) => Err(ReadFault::Memory),
    }
}

// The segment of an entry with the numbers of its deletion list, and no others deleted.
fn open_entry<D: Disk>(
    alloc: Global,
    disk: &mut D,
    ahead: &mut Ahead,
    entry: Part,
) -> Result<OpenSegment, ReadFault>
    requires kind { IsKind entry.kind }
    requires segment { EndsInside (length (D.content disk.old)) entry.extent }
    requires list { ListEndsInside (length (D.content disk.old)) entry.dead }
    requires room { most_lent ≤ ahead_room ahead.old }
    ensures opened { D.honest → ReadsOne (OpensAsSegment (D.content disk.old) entry) result }
    ensures entry { IfOk result (λ o. o.entry ≡ entry) }
    ensures grown { IfOk result IsGrown }
    ensures room { most_lent ≤ ahead_room ahead.new }
    ensures left { ReadsDisk D.Disk CountsReads result disk.old disk.new }
{
    let segment = open_segment(disk, ahead, entry)?;
    let dead = read_list(alloc, disk, entry.dead, segment.count())?;
    let Ok(deleted) = dead.copy(alloc) else {
        return Err(ReadFault::Memory);
    };
    Ok(OpenSegment {
        entry,
        segment,
        dead,
        deleted,
    })
}

// What the numbers of a segment are to be above and below.
#[derive(Clone, Copy)]
struct Bounds {
    low: u32,
    next: u32,
}

// The segment of an entry, if its numbers are within the bounds.
fn open_next<D: Disk>(
    alloc: Global,
    disk: &mut D,
    ahead: &mut Ahead,
    entry: Part,
    bounds: Bounds,
) -> Result<OpenSegment, ReadFault>
    requires kind { IsKind entry.kind }
    requires segment { EndsInside (length (D.content disk.old)) entry.extent }
    requires list { ListEndsInside (length (D.content disk.old)) entry.dead }
    requires room { most_lent ≤ ahead_room ahead.old }
    ensures opened { D.honest
        → ReadsOne (OpensNext (D.content disk.old) bounds.low bounds.next entry) result }
    ensures entry { IfOk result (λ o. o.entry ≡ entry) }
    ensures grown { IfOk result IsGrown }
    ensures room { most_lent ≤ ahead_room ahead.new }
    ensures left { ReadsDisk D.Disk CountsReads result disk.old disk.new }
{
    let opened = open_entry(alloc, disk, ahead, entry)?;
    if opened.segment.first() <= bounds.low || opened.segment.last() >= bounds.next {
        return Err(ReadFault::Damaged);
    }
    Ok(opened)
}

/// The segments of the entries of a body, with what is deleted of each. Their numbers rise from
/// segment to segment, below the next number. The disk is only read.
///
/// Answers `Damaged` where one of them is no such segment or its list is none, `Disk` where a read
/// failed, or `Memory`.
pub fn open_segments<D: Disk>(
    alloc: Global,
    disk: &mut D,
    manifest: &Manifest,
) -> Result<Vec<OpenSegment>, ReadFault>
    requires kinds { HaveKinds manifest.now.entries.items }
    requires inside { LieInside (length (D.content disk.old)) manifest.now.entries.items }
    ensures opened { D.honest → SegmentsAs (D.content disk.old) (view manifest.now) result }
    ensures entries { IfOk result (λ v. entries_of v.items ≡ manifest.now.entries.items) }
    ensures grown { IfOk result (λ v. All IsGrown v.items) }
    ensures left { ReadsDisk D.Disk CountsReads result disk.old disk.new }
{
    let mut ahead = Ahead::new(alloc, READ_AHEAD)?;
    let mut segments = Vec::new(alloc);
    let mut low = 0;
    for entry in &manifest.entries {
        let next = manifest.next_number;
        let opened = open_next(alloc, disk, &mut ahead, *entry, Bounds { low, next })?;
        low = opened.segment.last();
        let Ok(()) = segments.push(opened) else {
            return Err(ReadFault::Memory);
        };
    }
    Ok(segments)
}
