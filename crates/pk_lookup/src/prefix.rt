//! The posting lists of all words of a segment that begin alike, united.
ghost use Rattle.std.specs.Prelude.{◌≡◌, ◌<◌, ℕ, List, length, nat_eq, None, true, false};
ghost use Rattle.std.specs.Prelude.{IfErr, IfOk, IfSome, IsOk, MatchResult, OnOk};
ghost use Rattle.std.specs.List.{starts_with};
ghost use Rattle.std.specs.List.Sorted.{IsStrictlyIncreasing};
ghost use Rattle.pk_dict.specs.Cursor.{HoldsOf};
ghost use Rattle.pk_dict.specs.Dictionary.{Item, items_with_prefix};
ghost use Rattle.pk_dict.specs.Place.{LiesIn, bytes_at};
ghost use Rattle.pk_dict.specs.Prefix.{GivesNext, HasLeft, words_to_come};
ghost use Rattle.pk_dict.specs.Seeking.{GivesAfter};
ghost use Rattle.pk_lookup.specs.Begun.{HasUnited};
ghost use Rattle.pk_lookup.specs.Damages.{NotesDamage};
ghost use Rattle.pk_model.specs.Collection.{Doc, answer};
ghost use Rattle.pk_model.specs.Tree.{Prefix};
ghost use Rattle.pk_posting.specs.Frames.{ReadsSource};
ghost use Rattle.pk_lookup.specs.Lies.{IsOpened, IsUnited, place_by};
ghost use Rattle.pk_segment.specs.Puts.{PutsAs};
ghost use Rattle.pk_segment.specs.Indexed.{items_of, list_with};
ghost use Rattle.pk_segment.specs.Listing.{LeadsTo};
ghost use Rattle.pk_segment.specs.Opened.{IsSegmentOf};
ghost use Rattle.pk_segment.specs.Placed.{IsIndexedOf, dictionary_of};
ghost use Rattle.pk_segment.specs.Reading.{CountsReads, IsNoDamage};
ghost use Rattle.pk_segment.specs.Spelling.{IndexSpells};
ghost use Rattle.pk_sets.specs.Sets.{union};

use crate::damage::Damage;
use crate::listed::PlannedSegment;
use crate::lists::{copy_rising, place_of};
use crate::pivots::PivotTables;
use pk_dict::{Entry, PrefixCursor, Windows};
use pk_posting::{ByteSource, MOST_LENT};
use pk_segment::{ReadFault, Segment};
use pk_union::UnionBuilder;
use std::alloc::Global;

// How many bytes of a dictionary are read ahead at once: a few groups of it.
const AHEAD: u32 = 512;

/// Puts the numbers of the segment's documents that have a word that begins so into `out`. The
/// lists go past the cache of blocks: there may be so many that nothing else would be kept there.
///
/// The first word that begins so is sought by the table of the dictionary's pivots, if it has one;
/// whatever this has, the answer is the same.
///
/// `Damaged` where the dictionary or a list is none, which is noted, `Disk` where a read failed, or
/// `Memory`.
pub fn put_with_prefix<S: ByteSource>(
    source: &mut S,
    tables: &mut PivotTables,
    at: &PlannedSegment,
    prefix: &str,
    out: &mut Vec<u32>,
    damage: &mut Damage,
) -> Result<(), ReadFault>
    ensures numbers { S.honest → (docs : List Doc) → IndexSpells (S.content source.old) docs
        → IsIndexedOf at.now.opened.now.segment docs
        → PutsAs (answer (Prefix prefix.now) docs) out.new.items result }

    // Of any bytes: no word that begins so is left out, and no list of one. Damage that is met is
    // answered.
    ensures read { S.honest → OnOk result (HasUnited (S.content source.old)
        at.now.opened.now.segment prefix.now out.new.items) }
    ensures damage { NotesDamage damage.old damage.new result }

    ensures rising { OnOk result (IsStrictlyIncreasing out.new.items) }
    ensures left { ReadsSource S.ByteSource CountsReads result source.old source.new }
{
    let alloc = *out.allocator();
    let (pivots, long) = tables.table_of(alloc, at.place, &at.opened.entry)?;
    let answer = unite_lists(source, pivots, long, &at.opened.segment, prefix, out);
    damage.note(&answer);
    answer
}

// The same by the tables of the segment's dictionary.
fn unite_lists<S: ByteSource>(
    source: &mut S,
    pivots: &mut [u64],
    long: &mut [u8; MOST_LENT],
    segment: &Segment,
    prefix: &str,
    out: &mut Vec<u32>,
) -> Result<(), ReadFault>
    ensures numbers { S.honest → (docs : List Doc) → IndexSpells (S.content source.old) docs
        → IsIndexedOf segment.now docs
        → PutsAs (answer (Prefix prefix.now) docs) out.new.items result }
    ensures read { S.honest → OnOk result
        (HasUnited (S.content source.old) segment.now prefix.now out.new.items) }
    ensures rising { OnOk result (IsStrictlyIncreasing out.new.items) }
    ensures left { ReadsSource S.ByteSource CountsReads result source.old source.new }
{
    let alloc = *out.allocator();
    let mut words = words_with_prefix(alloc, source, segment, prefix.as_bytes())?;
    let mut united = UnionBuilder::new(alloc, segment.first(), segment.last());
    let mut list = Vec::new(alloc);
    'entries: while let Some(entry) = next_entry(source, segment, &mut words, pivots, long)? {
        unite_list(source, segment, entry, &mut list, &mut united)?;
    }
    united.finish(out)?;
    Ok(())
}

// A cursor before the first word of the segment that begins so.
fn words_with_prefix<'a, S: ByteSource>(
    alloc: Global,
    source: &S,
    segment: &Segment,
    prefix: &'a [u8],
) -> Result<PrefixCursor<'a>, ReadFault>
    ensures all { S.honest → (docs : List Doc) → IndexSpells (S.content source.now) docs
        → IsIndexedOf segment.now docs → MatchResult result (λ words.
        HasLeft (bytes_at (S.content source.now) words.cursor.place) words (items_of docs)
        (items_with_prefix prefix.now (items_of docs))) IsNoDamage }
    ensures new { IfOk result (λ words. (words.begun ≡ false) × (words.ended ≡ false)) }
    ensures holds { IfOk result (λ words. (bytes : List ℕ) → HoldsOf bytes words.cursor) }
    ensures prefix { IfOk result (λ words. words.prefix.now ≡ prefix.now) }
    ensures place { IfOk result (λ words. words.cursor.place ≡ dictionary_of segment.now) }
    ensures lies { IfOk result (λ words. LiesIn words.cursor.place (length (S.content source.now))) }
    ensures sound { IfOk result (λ words. words.cursor.fault ≡ None) }
    ensures fault { IfErr result (λ e. e ≡ ReadFault.Damaged) }
{
    let place = segment.dictionary_place();
    if u64::from(source.len()) < u64::from(place.at) + u64::from(place.bytes) {
        return Err(ReadFault::Damaged);
    }
    Ok(PrefixCursor::open(alloc, place, AHEAD, prefix))
}

// The entry of the next word that begins so. The search for the first goes by windows, since the
// stretches that it reads lie close together.
fn next_entry<S: ByteSource>(
    source: &mut S,
    segment: &Segment,
    words: &mut PrefixCursor,
    pivots: &mut [u64],
    long: &mut [u8; MOST_LENT],
) -> Result<Option<Entry>, ReadFault>
    requires lies { LiesIn words.old.cursor.place (length (S.content source.old)) }
    requires sound { words.old.cursor.fault ≡ None }
    ensures gives { S.honest → (es rest : List Item)
        → HasLeft (bytes_at (S.content source.old) words.old.cursor.place) words.old es rest
        → MatchResult result
        (GivesNext (bytes_at (S.content source.old) words.old.cursor.place) words.new es rest)
        IsNoDamage }

    // Of any bytes.
    ensures holds { S.honest
        → HoldsOf (bytes_at (S.content source.old) words.old.cursor.place) words.old.cursor
        → OnOk result
        (HoldsOf (bytes_at (S.content source.old) words.old.cursor.place) words.new.cursor) }
    ensures said { S.honest
        → HoldsOf (bytes_at (S.content source.old) words.old.cursor.place) words.old.cursor
        → words.old.ended ≡ false → IfOk result (GivesAfter words.old.begun
        (bytes_at (S.content source.old) words.old.cursor.place) words.old.prefix.now
        words.old.cursor words.new.cursor) }
    ensures begins { IfOk result (λ given. IfSome given (λ entry.
        (starts_with nat_eq words.new.cursor.word.items words.new.prefix.now ≡ true)
        × (entry ≡ words.new.cursor.entry))) }
    ensures goes { IfOk result (λ given. IfSome given (λ _.
        (words.new.begun ≡ true) × (words.new.ended ≡ false))) }
    ensures prefix { words.new.prefix ≡ words.old.prefix }

    ensures fewer { IfOk result (λ given. IfSome given (λ _.
        words_to_come words.new < words_to_come words.old)) }
    ensures place { words.new.cursor.place ≡ words.old.cursor.place }
    ensures sound { IsOk result → words.new.cursor.fault ≡ None }
    ensures left { ReadsSource S.ByteSource CountsReads result source.old source.new }
{
    if !words.word().is_empty() {
        let next = words.next(source, pivots)?;
        return Ok(next);
    }
    let mut windows = Windows::on(source, segment.dictionary_place(), long);
    let entry = words.next(&mut windows, pivots)?;
    Ok(entry)
}

// Puts the list that an entry leads to to the others. In `list` its numbers stand meanwhile.
fn unite_list<S: ByteSource>(
    source: &mut S,
    segment: &Segment,
    entry: Entry,
    list: &mut Vec<u32>,
    united: &mut UnionBuilder,
) -> Result<(), ReadFault>
    ensures numbers { S.honest → (docs : List Doc) → IndexSpells (S.content source.old) docs
        → IsSegmentOf segment.now docs → (word : List ℕ) → LeadsTo docs word entry
        → MatchResult result (λ _. united.new ≡ union united.old (list_with word docs))
        IsNoDamage }

    // Of any bytes.
    ensures read { OnOk result (IsUnited segment.now entry (length (S.content source.old))
        united.old united.new) }

    ensures left { ReadsSource S.ByteSource CountsReads result source.old source.new }
{
    put_list(source, segment, entry, list)?;
    united.put(list)?;
    Ok(())
}

// Puts the list that an entry leads to into `out`.
fn put_list<S: ByteSource>(
    source: &mut S,
    segment: &Segment,
    entry: Entry,
    out: &mut Vec<u32>,
) -> Result<(), ReadFault>
    ensures numbers { S.honest → (docs : List Doc) → IndexSpells (S.content source.old) docs
        → IsSegmentOf segment.now docs → (word : List ℕ) → LeadsTo docs word entry
        → PutsAs (list_with word docs) out.new.items result }
    ensures rising { OnOk result (IsStrictlyIncreasing out.new.items) }
    ensures count { OnOk result (length out.new.items ≡ entry.frequency) }
    ensures opened { IsOk result
        → IsOpened (place_by segment.now entry) (length (S.content source.old)) }
    ensures left { ReadsSource S.ByteSource CountsReads result source.old source.new }
{
    let lies = place_of(segment, entry)?;
    copy_rising(source, lies, entry.frequency, out)
}
