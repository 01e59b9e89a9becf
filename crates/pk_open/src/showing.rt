//! A document looked up in stored segments, and how many there are.
ghost use Rattle.std.specs.Prelude.{◌≡◌, ◌≤◌, ◌<◌, ◌+◌, ◌^◌, ℕ, List, length};
ghost use Rattle.std.specs.Prelude.{IfOk, IfSome, IsErrOf, MatchOption, None, Ok, OnOk};
ghost use Rattle.std.specs.Prelude.{slice_index_or};
ghost use Rattle.pk_disk.specs.Units.{extent_bytes};
ghost use Rattle.pk_model.specs.Collection.{Doc, IsCollection};
ghost use Rattle.pk_model.specs.Limits.{max_segments};
ghost use Rattle.pk_open.specs.Seeking.{IsUnreached, IsWhole, SeeksPlace, SeeksText};
ghost use Rattle.pk_open.specs.Showing.{LivesAt, LooksUpAs, Spans};
ghost use Rattle.pk_open.specs.Opened.{AreOpenOf, entries_of, present};
ghost use Rattle.pk_segment.specs.Opened.{IsSegmentOf};
ghost use Rattle.pk_segment.specs.Spelling.{SegmentSpells};
ghost use Rattle.pk_segment.specs.OnlyRead.{ReadsDisk};
ghost use Rattle.pk_segment.specs.Reading.{ContainsAs, CountsReads, TextAs};
ghost use Rattle.pk_posting.specs.Source.{CountsFaults};
ghost use Rattle.pk_state.specs.Committed.{Committed, live_in, whole_of};
ghost use Rattle.pk_state.specs.Holds.{SpellsEntries};
ghost use Rattle.pk_state.specs.Kept.{EndsInside, LieInside};

use crate::opened::OpenSegment;
use pk_disk::Disk;
use pk_model::DocNo;
use pk_posting::SourceFault;
use pk_segment::{ExtentSource, ReadFault};
use std::alloc::Global;

// The place of the segment whose span the number lies in.
fn place_of(opened: &[OpenSegment], number: DocNo) -> Option<usize>
    ensures { MatchOption result
        (IsUnreached opened.now number.0)
        (λ place. (place < length opened.now)
        × ((d : OpenSegment) → Spans (slice_index_or opened.now place d) number.0)) }
{
    opened.iter().position(|o| o.segment.first() <= number.0 && number.0 <= o.segment.last())
}

// The text of the segment's document of this number, if it has one. A segment that goes past its
// extent is damaged.
fn text_in<D: Disk>(
    alloc: Global,
    disk: &mut D,
    opened: &OpenSegment,
    number: DocNo,
) -> Result<Option<String>, ReadFault>
    requires { EndsInside (length (D.content disk.old)) opened.now.entry.extent }
    ensures text { D.honest → (docs : List Doc) (kind : ℕ)
        → SegmentSpells (extent_bytes (D.content disk.old) opened.now.entry.extent) docs kind
        → IsSegmentOf opened.now.segment docs → TextAs docs number.0 result }
    ensures whole { OnOk result (IsWhole opened.now) }
    ensures left { ReadsDisk D.Disk CountsReads result disk.old disk.new }
{
    if opened.entry.extent.bytes < opened.segment.postings() {
        return Err(ReadFault::Damaged);
    }
    let mut source = ExtentSource::on(disk, opened.entry.extent);
    opened.segment.text_of(alloc, &mut source, number.0)
}

// Whether the segment has a document of this number. One that goes past its extent is damaged.
fn has_in<D: Disk>(disk: &mut D, opened: &OpenSegment, number: DocNo) -> Result<bool, SourceFault>
    requires { EndsInside (length (D.content disk.old)) opened.now.entry.extent }
    ensures has { D.honest → (docs : List Doc) (kind : ℕ)
        → SegmentSpells (extent_bytes (D.content disk.old) opened.now.entry.extent) docs kind
        → IsSegmentOf opened.now.segment docs → ContainsAs docs number.0 result }
    ensures whole { OnOk result (IsWhole opened.now) }
    ensures cut { IsErrOf result SourceFault.Damaged → IsWhole opened.now → ⊥ }
    ensures left { ReadsDisk D.Disk CountsFaults result disk.old disk.new }
{
    if opened.entry.extent.bytes < opened.segment.postings() {
        return Err(SourceFault::Damaged);
    }
    let mut source = ExtentSource::on(disk, opened.entry.extent);
    opened.segment.contains(&mut source, number.0)
}

/// The text of the live document of this number, if one of the segments has it. Of the one whose
/// numbers reach over this one the directory is read by halving, and the text.
///
/// Answers `Damaged` where that segment is none, `Disk` where a read failed, or `Memory`.
pub fn text_stored<D: Disk>(
    alloc: Global,
    disk: &mut D,
    opened: &[OpenSegment],
    number: DocNo,
) -> Result<Option<String>, ReadFault>
    requires { LieInside (length (D.content disk.old)) (entries_of opened.now) }
    ensures text { D.honest → (c : Committed)
        → SpellsEntries (D.content disk.old) (entries_of opened.now) c.stored
        → AreOpenOf opened.now c.stored → IsCollection (whole_of c)
        → LooksUpAs (live_in (present opened.now c.stored)) number.0 result }
    ensures sought { SeeksText opened.now number.0 result }
    ensures unreached { IsUnreached opened.now number.0
        → (result ≡ Ok None) × (disk.new ≡ disk.old) }
    ensures left { ReadsDisk D.Disk CountsReads result disk.old disk.new }
{
    let Some(place) = place_of(opened, number) else {
        return Ok(None);
    };
    let here = &opened[place];
    if here.deleted.contains(number.0) {
        return Ok(None);
    }
    text_in(alloc, disk, here, number)
}

/// The place of the open segment that has the live document of this number, if one of them does. Of
/// the one whose numbers reach over this one the directory is read by halving. It takes no memory.
///
/// Answers `Damaged` where that segment is none, or `Disk` where a read failed.
pub fn place_stored<D: Disk>(
    disk: &mut D,
    opened: &[OpenSegment],
    number: DocNo,
) -> Result<Option<usize>, SourceFault>
    requires { LieInside (length (D.content disk.old)) (entries_of opened.now) }
    ensures place { D.honest → (c : Committed)
        → SpellsEntries (D.content disk.old) (entries_of opened.now) c.stored
        → AreOpenOf opened.now c.stored → IsCollection (whole_of c)
        → LivesAt opened.now c.stored number.0 result }
    ensures sought { SeeksPlace opened.now number.0 result }
    ensures unreached { IsUnreached opened.now number.0
        → (result ≡ Ok None) × (disk.new ≡ disk.old) }
    ensures within { IfOk result (λ place. IfSome place (λ i. (1 ≤ number.0)
        × (i < length opened.now))) }
    ensures left { ReadsDisk D.Disk CountsFaults result disk.old disk.new }
{
    if number.0 == 0 {
        return Ok(None);
    }
    let Some(place) = place_of(opened, number) else {
        return Ok(None);
    };
    let here = &opened[place];
    if here.deleted.contains(number.0) {
        return Ok(None);
    }
    let has = has_in(disk, here, number)?;
    Ok(has.then_some(place))
}

/// How many live documents there are.
pub fn count_stored(opened: &[OpenSegment]) -> u64
    requires { length opened.now ≤ max_segments }
    ensures is { (c : Committed) → AreOpenOf opened.now c.stored → IsCollection (whole_of c)
        → result ≡ length (live_in (present opened.now c.stored)) }
    ensures few { result < 2 ^ 44 }
{
    let mut documents = 0;
    for segment in opened {
        documents += segment.left();
    }
    documents
}
