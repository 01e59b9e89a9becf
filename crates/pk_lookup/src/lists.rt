//! One posting list: taken out, or asked by a cursor's seeks.
ghost use Rattle.std.specs.Prelude.{◌≡◌, ◌≤◌, ◌<◌, ◌*◌, ◌^◌, ◌↔◌, ℕ, List, length};
ghost use Rattle.std.specs.Prelude.{None, Option};
ghost use Rattle.std.specs.Prelude.{IfErr, IfOk, IfSome, IsOk, IsTrue, MatchResult, OnOk, get_or};
ghost use Rattle.std.specs.List.Sorted.{IsStrictlyIncreasing};
ghost use Rattle.pk_cache.specs.declared.cache.BlockCache.{BlockCache};
ghost use Rattle.pk_cursor.specs.Standing.{StandsAt};
ghost use Rattle.pk_model.specs.Collection.{Doc};
ghost use Rattle.pk_plan.specs.Plans.{found, word_at};
ghost use Rattle.pk_posting.specs.Frames.{ReadsSource};
ghost use Rattle.pk_posting.specs.Parts.{bytes_at};
ghost use Rattle.pk_lookup.specs.Cached.{AddsOnlyOf, AreServed, KeepsBlocksOf, Serves};
ghost use Rattle.pk_lookup.specs.Damages.{NotesDamage};
ghost use Rattle.pk_lookup.specs.Frequencies.{frequency_in};
ghost use Rattle.pk_lookup.specs.Lies.{IsOpened, place_by};
ghost use Rattle.pk_lookup.specs.Matching.{ListLies};
ghost use Rattle.pk_segment.specs.Puts.{PutsAs};
ghost use Rattle.pk_segment.specs.Indexed.{list_with};
ghost use Rattle.pk_segment.specs.Listing.{LeadsTo};
ghost use Rattle.pk_segment.specs.Opened.{IsSegmentOf};
ghost use Rattle.pk_segment.specs.Reading.{CountsReads, IsNoDamage};
ghost use Rattle.pk_segment.specs.Spelling.{IndexSpells};
ghost use Rattle.pk_sets.specs.Sets.{intersection};

use crate::damage::Damage;
use crate::kept::{ListKey, copy_kept, copy_out};
use crate::listed::{PlannedSegment, entry_at};
use crate::rising::is_list_of;
use pk_cache::BlockCache;
use pk_cursor::Cursor;
use pk_dict::Entry;
use pk_posting::{ByteSource, ListPlace};
use pk_segment::{ReadFault, Segment};
use pk_sets::is_rising;

// Where the posting list that an entry leads to lies in the segment. `Damaged` where that is past
// 2^32 - 1.
pub(crate) fn place_of(segment: &Segment, entry: Entry) -> Result<ListPlace, ReadFault>
    ensures at { IfOk result (λ place. place ≡ place_by segment.now entry) }
    ensures damaged { IfErr result (λ e. (e ≡ ReadFault.Damaged)
        × (2 ^ 32 ≤ (place_by segment.now entry).at)) }
    ensures place { (bytes word : List ℕ) (docs : List Doc) → IndexSpells bytes docs
        → IsSegmentOf segment.now docs → LeadsTo docs word entry
        → MatchResult result (λ place. ListLies bytes place (list_with word docs)) IsNoDamage }
    ensures faults { CountsReads 0 0 result }
{
    let Some(at) = segment.postings().checked_add(entry.place.at) else {
        return Err(ReadFault::Damaged);
    };
    Ok(ListPlace {
        at,
        bytes: entry.place.bytes,
    })
}

// Puts a list of so many numbers into `out`: through the cache, where there is one that has room
// for its whole blocks. `Damaged` where there are more or fewer, or they don't rise.
fn take_out<S: ByteSource>(
    source: &mut S,
    cache: &mut Option<BlockCache>,
    list: ListKey,
    count: u32,
    out: &mut Vec<u32>,
) -> Result<(), ReadFault>
    ensures numbers { S.honest → (xs : List ℕ) → ListLies (S.content source.old) list.place xs
        → count ≡ length xs → KeepsBlocksOf list.segment (S.content source.old) cache.old
        → PutsAs xs out.new.items result }
    ensures cached { S.honest → (xs : List ℕ) → ListLies (S.content source.old) list.place xs
        → KeepsBlocksOf list.segment (S.content source.old) cache.old
        → KeepsBlocksOf list.segment (S.content source.old) cache.new }
    ensures adds { AddsOnlyOf list.segment cache.old cache.new }
    ensures rising { OnOk result (IsStrictlyIncreasing out.new.items) }
    // Also where the bytes spell no list.
    ensures count { OnOk result (length out.new.items ≡ count) }
    ensures left { ReadsSource S.ByteSource CountsReads result source.old source.new }
{
    match cache {
        Some(cache) if (count / 128) as usize <= cache.capacity() => {
            copy_kept(source, cache, list, out)?;
        }
        _ => copy_out(source, list.place, count, out)?,
    }
    if !is_list_of(out, count) {
        return Err(ReadFault::Damaged);
    }
    Ok(())
}

/// Puts the list of so many numbers that lies at a place into `out`, past the cache. `Damaged` where
/// there are more or fewer, or they don't rise.
pub(crate) fn copy_rising<S: ByteSource>(
    source: &mut S,
    place: ListPlace,
    count: u32,
    out: &mut Vec<u32>,
) -> Result<(), ReadFault>
    ensures numbers { S.honest → (xs : List ℕ) → ListLies (S.content source.old) place xs
        → count ≡ length xs → PutsAs xs out.new.items result }
    ensures rising { OnOk result (IsStrictlyIncreasing out.new.items) }
    ensures count { OnOk result (length out.new.items ≡ count) }
    ensures opened { IsOk result → IsOpened place (length (S.content source.old)) }
    ensures left { ReadsSource S.ByteSource CountsReads result source.old source.new }
{
    copy_out(source, place, count, out)?;
    if !is_list_of(out, count) {
        return Err(ReadFault::Damaged);
    }
    Ok(())
}

// Keeps of the numbers those that a cursor at the start of a list finds. A fault that a seek meets
// is answered, and damage is noted.
fn keep_met<S: ByteSource>(
    cursor: &mut Cursor<S>,
    numbers: &mut Vec<u32>,
    damage: &mut Damage,
) -> Result<(), ReadFault>
    requires rising { IsStrictlyIncreasing numbers.old.items }
    requires sound { cursor.old.standing.fault ≡ None }
    // Of any bytes: no seek met a fault, and damage that is met is answered.
    ensures sound { IsOk result → cursor.new.standing.fault ≡ None }
    ensures damage { NotesDamage damage.old damage.new result }

    ensures numbers { S.honest → (xs : List ℕ)
        → StandsAt (bytes_at (S.content cursor.old.source.now) cursor.old.standing.place)
        cursor.old.standing xs 0
        → PutsAs (intersection numbers.old.items xs) numbers.new.items result }
    ensures same_reference { cursor.new.source.ghost_name ≡ cursor.old.source.ghost_name }
    ensures left { ReadsSource S.ByteSource CountsReads result cursor.old.source.now
        cursor.new.source.now }
{
    let mut kept = 0;
    for i in 0..numbers.len() {
        let number = numbers[i];
        if let Err(fault) = cursor.seek(number) {
            let answer = Err(fault.into());
            damage.note(&answer);
            return answer;
        }
        if cursor.current() == Some(number) {
            numbers[kept] = number;
            kept += 1;
        }
    }
    numbers.truncate(kept);
    Ok(())
}

// Keeps of the numbers those that a seek finds in the list at a place. Damage is noted.
#[inline(never)]
fn seek_each<S: ByteSource>(
    source: &mut S,
    place: ListPlace,
    numbers: &mut Vec<u32>,
    damage: &mut Damage,
) -> Result<(), ReadFault>
    requires { IsStrictlyIncreasing numbers.old.items }
    ensures numbers { S.honest → (xs : List ℕ) → ListLies (S.content source.old) place xs
        → PutsAs (intersection numbers.old.items xs) numbers.new.items result }

    // Of any bytes: the list lies in the source, and damage that is met is answered.
    ensures opened { IsOk result → IsOpened place (length (S.content source.old)) }
    ensures damage { NotesDamage damage.old damage.new result }

    ensures left { ReadsSource S.ByteSource CountsReads result source.old source.new }
{
    let mut cursor = Cursor::open(source, place);
    if let Some(fault) = cursor.fault() {
        let answer = Err(fault.into());
        damage.note(&answer);
        return answer;
    }
    keep_met(&mut cursor, numbers, damage)
}

// The same. `Damaged` where what is kept doesn't rise.
fn cut_in<S: ByteSource>(
    source: &mut S,
    place: ListPlace,
    numbers: &mut Vec<u32>,
    damage: &mut Damage,
) -> Result<(), ReadFault>
    requires { IsStrictlyIncreasing numbers.old.items }
    ensures numbers { S.honest → (xs : List ℕ) → ListLies (S.content source.old) place xs
        → PutsAs (intersection numbers.old.items xs) numbers.new.items result }
    ensures rising { OnOk result (IsStrictlyIncreasing numbers.new.items) }
    ensures opened { IsOk result → IsOpened place (length (S.content source.old)) }
    ensures damage { NotesDamage damage.old damage.new result }
    ensures left { ReadsSource S.ByteSource CountsReads result source.old source.new }
{
    seek_each(source, place, numbers, damage)?;
    if !is_rising(numbers) {
        let answer = Err(ReadFault::Damaged);
        damage.note(&answer);
        return answer;
    }
    Ok(())
}

/// Keeps of the numbers those of the segment's documents that have the word at a place: by a seek
/// for each. Damage is noted.
pub fn cut_word<S: ByteSource>(
    source: &mut S,
    at: &PlannedSegment,
    place: usize,
    numbers: &mut Vec<u32>,
    damage: &mut Damage,
) -> Result<(), ReadFault>
    requires { IsStrictlyIncreasing numbers.old.items }
    ensures numbers { S.honest → (words : List (List ℕ)) (docs : List Doc)
        (cache : Option BlockCache) → AreServed (S.content source.old) at.now words docs cache
        → PutsAs (intersection numbers.old.items (found (word_at words place) docs))
        numbers.new.items result }
    ensures rising { OnOk result (IsStrictlyIncreasing numbers.new.items) }

    // Of any bytes: the word's list lies in the source, and damage that is met is answered.
    ensures opened { IsOk result → IfSome (get_or at.now.entries.now place None) (λ entry.
        IsOpened (place_by at.now.opened.now.segment entry) (length (S.content source.old))) }
    ensures damage { NotesDamage damage.old damage.new result }

    ensures left { ReadsSource S.ByteSource CountsReads result source.old source.new }
{
    let Some(entry) = entry_at(at.entries, place) else {
        numbers.clear();
        return Ok(());
    };
    let sought = place_of(&at.opened.segment, entry);
    damage.note(&sought);
    let lies = sought?;
    cut_in(source, lies, numbers, damage)
}

/// Puts the numbers of the segment's documents that have the word at a place into `out`. Damage is
/// noted.
pub fn put_word<S: ByteSource>(
    source: &mut S,
    cache: &mut Option<BlockCache>,
    at: &PlannedSegment,
    place: usize,
    out: &mut Vec<u32>,
    damage: &mut Damage,
) -> Result<(), ReadFault>
    ensures numbers { S.honest → (words : List (List ℕ)) (docs : List Doc)
        → AreServed (S.content source.old) at.now words docs cache.old
        → PutsAs (found (word_at words place) docs) out.new.items result }
    ensures rising { OnOk result (IsStrictlyIncreasing out.new.items) }

    // Of any bytes: no number is left out, and damage that is met is answered.
    ensures count { OnOk result
        (length out.new.items ≡ frequency_in place at.now.entries.now) }
    ensures damage { NotesDamage damage.old damage.new result }

    ensures served { Serves S.honest at.now (S.content source.old) cache.old
        (S.content source.new) cache.new }
    ensures left { ReadsSource S.ByteSource CountsReads result source.old source.new }
{
    let Some(entry) = entry_at(at.entries, place) else {
        out.clear();
        return Ok(());
    };
    let told = place_of(&at.opened.segment, entry);
    damage.note(&told);
    let lies = told?;
    let key = ListKey {
        segment: at.opened.entry.segment,
        place: lies,
    };
    let answer = take_out(source, cache, key, entry.frequency, out);
    damage.note(&answer);
    answer
}

/// Whether a list is more than 50 times as long as the numbers that are sought in it.
pub fn is_far(numbers: usize, frequency: u32) -> bool
    ensures { IsTrue result ↔ (numbers * 50 < frequency) }
{
    numbers.saturating_mul(50) < frequency as usize
}
