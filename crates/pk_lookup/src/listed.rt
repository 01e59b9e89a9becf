//! What the dictionaries of the segments say of the words of a query.
ghost use Rattle.std.specs.Prelude.{◌≡◌, ◌<◌, ◌≤◌, [], ℕ, List, None, false, true};
ghost use Rattle.std.specs.Prelude.{All, IfOk, IfSome, OnOk, get_or, length, take};
ghost use Rattle.pk_dict.specs.Dictionary.{Item, entry_of};
ghost use Rattle.pk_filter.specs.Filter.{HasAll};
ghost use Rattle.pk_filter.specs.Hashed.{hashed};
ghost use Rattle.pk_model.specs.Collection.{Doc};
ghost use Rattle.pk_plan.specs.Plans.{word_at};
ghost use Rattle.pk_plan.specs.Words.{texts};
ghost use Rattle.pk_posting.specs.Frames.{ReadsSource};
ghost use Rattle.pk_lookup.specs.Counted.{AreCounted};
ghost use Rattle.pk_lookup.specs.Damages.{NotesDamage};
ghost use Rattle.pk_lookup.specs.Dropped.{DropsOnlyOf};
ghost use Rattle.pk_lookup.specs.FilterBytes.{KeepsLimit};
ghost use Rattle.pk_lookup.specs.Filtered.{AddsFilterOf, IsFilterFor, filters_of};
ghost use Rattle.pk_lookup.specs.Matching.{AreEntriesOf, LeadsAs, PutsEntries};
ghost use Rattle.pk_lookup.specs.Frequencies.{frequency_in, sum_of};
ghost use Rattle.pk_lookup.specs.Said.{KeepsNone, SaysOf, SaysOfEach};
ghost use Rattle.pk_segment.specs.Indexed.{items_of};
ghost use Rattle.pk_segment.specs.Listing.{ListedAs, dictionary_place};
ghost use Rattle.pk_segment.specs.Placed.{IsIndexedOf, dictionary_of};
ghost use Rattle.pk_segment.specs.Reading.{CountsReads};
ghost use Rattle.pk_segment.specs.Spelling.{IndexSpells};

use crate::damage::Damage;
use crate::repeats::QueryWords;
use crate::rows::EntryTable;
use crate::tables::WordTables;
use pk_dict::{DictPlace, Entry, Windows, look_up_near};
use pk_filter::{WordFilter, WordHash};
use pk_open::OpenSegment;
use pk_plan::Planned;
use pk_posting::ByteSource;
use pk_segment::ReadFault;
use smallvec::SmallVec;
use std::alloc::{AllocError, Global};

/// An open segment of a find, the plan, and of kind 2 the entry of each of the plan's words in its
/// dictionary, in the words' order: none where the segment does not have the word.
#[derive(Clone, Copy)]
pub struct PlannedSegment<'a> {
    /// The place of the segment.
    pub place: usize,
    pub opened: &'a OpenSegment,
    pub planned: &'a Planned<'a>,
    pub entries: &'a [Option<Entry>],
}

/// Where the dictionary of a segment lies, and the filter of its words, if there is one.
#[derive(Clone, Copy)]
pub(crate) struct FilteredDict<'a> {
    pub(crate) lies: DictPlace,
    pub(crate) filter: Option<&'a WordFilter>,
}

impl<'a> FilteredDict<'a> {
    // Whether the filter says that no word of that hash is there.
    #[inline(always)]
    fn rules_out(&self, hash: WordHash) -> bool
        ensures lacks { (es : List Item) (word : List ℕ)
            → IfSome self.now.filter (λ filter. HasAll es filter.now) → hash ≡ hashed word
            → result ≡ true → entry_of es word ≡ None }
        ensures none { self.now.filter ≡ None → result ≡ false }
    {
        match self.filter {
            Some(filter) => !filter.may_have(hash),
            None => false,
        }
    }

    // Whether the filter says so of each of these hashes: then nothing of the dictionary is read.
    fn rules_out_all(&self, hashes: &[WordHash]) -> bool {
        for hash in hashes {
            if !self.rules_out(*hash) {
                return false;
            }
        }
        true
    }
}

// What the dictionary that lies there says of a word. Damage is noted.
fn look_up_word<S: ByteSource>(
    source: &mut S,
    lies: DictPlace,
    pivots: &mut [u64],
    word: &[u8],
    damage: &mut Damage,
) -> Result<Option<Entry>, ReadFault>
    ensures entry { S.honest → (docs : List Doc) → IndexSpells (S.content source.old) docs
        → lies ≡ dictionary_place docs → ListedAs docs word.now result }

    // Of any bytes: they say so, and damage that is met is answered.
    ensures said { S.honest → IfOk result (SaysOf (S.content source.old) lies word.now) }
    ensures damage { NotesDamage damage.old damage.new result }

    ensures left { ReadsSource S.ByteSource CountsReads result source.old source.new }
{
    match look_up_near(source, lies, pivots, word) {
        Ok(entry) => Ok(entry),
        Err(fault) => {
            let answer = Err(fault.into());
            damage.note(&answer);
            answer
        }
    }
}

// The entry of the next word, by the dictionary that lies there, where those of all words before it
// are known: the same word's, if it is among them, and none where the filter rules the word out.
fn entry_of_word<S: ByteSource>(
    source: &mut S,
    dict: &FilteredDict,
    pivots: &mut [u64],
    asked: &QueryWords,
    known: &[Option<Entry>],
    damage: &mut Damage,
) -> Result<Option<Entry>, ReadFault>
    requires word { length known.now < length asked.now.words.now }
    ensures entry { S.honest → (docs : List Doc) → IndexSpells (S.content source.old) docs
        → dict.now.lies ≡ dictionary_place docs
        → IfSome dict.now.filter (λ filter. HasAll (items_of docs) filter.now)
        → AreEntriesOf known.now (take (length known.now) (texts asked.now.words.now)) docs
        → ListedAs docs (get_or (texts asked.now.words.now) (length known.now) []) result }

    // Of any bytes, where there is no filter.
    ensures said { S.honest → dict.now.filter ≡ None
        → SaysOfEach (S.content source.old) dict.now.lies (texts asked.now.words.now) known.now
        → IfOk result (SaysOf (S.content source.old) dict.now.lies
        (get_or (texts asked.now.words.now) (length known.now) [])) }

    // Of any bytes: damage that is met is answered.
    ensures damage { NotesDamage damage.old damage.new result }
    ensures left { ReadsSource S.ByteSource CountsReads result source.old source.new }
{
    let place = known.len();
    let first = asked.firsts[place];
    if first < place {
        return Ok(known[first]);
    }
    if dict.rules_out(asked.hashes[place]) {
        return Ok(None);
    }
    let word = asked.words[place];
    look_up_word(source, dict.lies, pivots, word.as_bytes(), damage)
}

// Puts the entry of each word, by the dictionary that lies there, into the place of what was known.
fn put_entries<S: ByteSource>(
    source: &mut S,
    dict: &FilteredDict,
    pivots: &mut [u64],
    asked: &QueryWords,
    known: &mut Vec<Option<Entry>>,
    damage: &mut Damage,
) -> Result<(), ReadFault>
    ensures entries { S.honest → (docs : List Doc) → IndexSpells (S.content source.old) docs
        → dict.now.lies ≡ dictionary_place docs
        → IfSome dict.now.filter (λ filter. HasAll (items_of docs) filter.now)
        → PutsEntries (texts asked.now.words.now) docs known.new.items result }

    // Of any bytes, where there is no filter.
    ensures said { S.honest → dict.now.filter ≡ None → OnOk result (SaysOfEach
        (S.content source.old) dict.now.lies (texts asked.now.words.now) known.new.items) }

    // Of any bytes: damage that is met is answered.
    ensures damage { NotesDamage damage.old damage.new result }
    ensures long { OnOk result (length known.new.items ≡ length asked.now.words.now) }
    ensures left { ReadsSource S.ByteSource CountsReads result source.old source.new }
{
    known.clear();
    for _place in 0..asked.words.len() {
        let entry = entry_of_word(source, dict, pivots, asked, known, damage)?;
        let Ok(()) = known.push(entry) else {
            return Err(ReadFault::Memory);
        };
    }
    Ok(())
}

/// The words of a query, and the open segment in whose dictionary they are looked up, with its
/// place.
#[derive(Clone, Copy)]
pub(crate) struct LookUp<'a, 'b> {
    pub(crate) words: QueryWords<'a>,
    pub(crate) place: usize,
    pub(crate) opened: &'b OpenSegment,
}

/// Puts the entry of each word in the dictionary of a segment of kind 2, in the words' order, into
/// the place of what was known: by its filter and the table of its pivots, if it has them. A word
/// that comes again is not looked up again, and where the filter rules out all, no table is asked.
pub(crate) fn look_up<S: ByteSource>(
    alloc: Global,
    source: &mut S,
    tables: &mut WordTables,
    sought: &LookUp,
    known: &mut Vec<Option<Entry>>,
    damage: &mut Damage,
) -> Result<(), ReadFault>
    ensures entries { S.honest → (docs : List Doc) → IndexSpells (S.content source.old) docs
        → IsIndexedOf sought.now.opened.now.segment docs
        → All (IsFilterFor (S.content source.old) sought.now.opened.now) (filters_of tables.old)
        → PutsEntries (texts sought.now.words.words.now) docs known.new.items result }

    // Of any bytes, where no filter is kept of the segment.
    ensures said { S.honest
        → KeepsNone (filters_of tables.new) sought.now.opened.now.entry.segment
        → OnOk result (SaysOfEach (S.content source.old)
        (dictionary_of sought.now.opened.now.segment) (texts sought.now.words.words.now)
        known.new.items) }

    // Of any bytes: damage that is met is answered.
    ensures damage { NotesDamage damage.old damage.new result }
    ensures long { OnOk result (length known.new.items ≡ length sought.now.words.words.now) }
    ensures adds { AddsFilterOf S.honest (S.content source.old) sought.now.opened.now
        (filters_of tables.old) (filters_of tables.new) }
    ensures drops { DropsOnlyOf sought.now.opened.now.entry.segment (filters_of tables.old)
        (filters_of tables.new) }
    ensures limit { KeepsLimit tables.old.filters → KeepsLimit tables.new.filters }
    ensures counted { AreCounted tables.old.filters → AreCounted tables.new.filters }
    ensures left { ReadsSource S.ByteSource CountsReads result source.old source.new }
{
    let opened = sought.opened;
    tables.filters.note(alloc, source, sought.place, opened)?;
    let dict = FilteredDict {
        lies: opened.segment.dictionary_place(),
        filter: tables.filters.filter_at(sought.place, opened.entry.segment),
    };
    if dict.rules_out_all(sought.words.hashes) {
        return put_entries(source, &dict, &mut [], &sought.words, known, damage);
    }
    let (pivots, long) = tables.pivots.table_of(alloc, sought.place, &opened.entry)?;
    let mut windows = Windows::on(source, dict.lies, long);
    put_entries(&mut windows, &dict, pivots, &sought.words, known, damage)
}

// The entry at a place; none past the last word.
pub(crate) fn entry_at(entries: &[Option<Entry>], place: usize) -> Option<Entry>
    ensures value { result ≡ get_or entries.now place None }
    ensures leads { (words : List (List ℕ)) (docs : List Doc) → AreEntriesOf entries.now words docs
        → LeadsAs docs (word_at words place) result }
{
    if place >= entries.len() {
        return None;
    }
    entries[place]
}

/// How many documents of a segment hold the word at a place.
pub fn frequency_at(entries: &[Option<Entry>], place: usize) -> u32
    ensures { result ≡ frequency_in place entries.now }
{
    if place >= entries.len() {
        return 0;
    }
    match entries[place] {
        Some(entry) => entry.frequency,
        None => 0,
    }
}

/// The place in a row of so many words of the one that the fewest documents of the segment hold. The
/// first is taken where none is held by less than three quarters of its documents: it is cheapest
/// to look for, since no word before it is wanted.
pub fn rarest_of(entries: &[Option<Entry>], first: usize, count: usize) -> usize
    ensures { result ≤ count }
{
    let mut rarest = 0;
    let mut fewest = frequency_at(entries, first) / 4 * 3;
    for place in 0..count {
        let frequency = frequency_at(entries, first.saturating_add(place));
        if frequency < fewest {
            rarest = place;
            fewest = frequency;
        }
    }
    rarest
}

// How many documents of all segments hold the word at a place; at 2^32 - 1 it stays.
fn sum_at(table: &EntryTable, place: usize) -> u32
    ensures { result ≡ sum_of table.now.words table.now.segments table.now.entries.now place }
{
    let mut sum: u32 = 0;
    for i in 0..table.segments {
        sum = sum.saturating_add(frequency_at(table.row(i), place));
    }
    sum
}

/// For each word of a table the sum of its frequencies over the segments.
pub fn frequencies_of(alloc: Global, table: &EntryTable) -> Result<SmallVec<u32, 4>, AllocError>
    ensures { IfOk result (λ sums. (place : ℕ) → place < table.now.words
        → get_or sums.items place 0
        ≡ sum_of table.now.words table.now.segments table.now.entries.now place) }
{
    let mut sums = SmallVec::new(alloc);
    for place in 0..table.words {
        sums.push(sum_at(table, place))?;
    }
    Ok(sums)
}
