//! Words looked up in the dictionaries of open segments.
ghost use Rattle.std.specs.Prelude.{◌≡◌, ◌<◌, ◌*◌, ℕ, List, length};
ghost use Rattle.std.specs.Prelude.{All, IfErr, IfOk, OnOk, true};
ghost use Rattle.pk_disk.specs.Units.{apart, extent_bytes};
ghost use Rattle.pk_lookup.specs.Counted.{AreCounted};
ghost use Rattle.pk_lookup.specs.Damages.{NotesDamage};
ghost use Rattle.pk_lookup.specs.Dropped.{DropsOnlyOf};
ghost use Rattle.pk_lookup.specs.FilterBytes.{KeepsLimit};
ghost use Rattle.pk_lookup.specs.Filtered.{AddsFilterOf, FiltersAgree, FiltersAgreeAt};
ghost use Rattle.pk_lookup.specs.Filtered.{FiltersBelow, filters_of};
ghost use Rattle.pk_lookup.specs.Matching.{AreKept, PutsEntries};
ghost use Rattle.pk_lookup.specs.Said.{KeepsNone, SaysOfEach};
ghost use Rattle.pk_lookup.specs.SaidRows.{AreSaid};
ghost use Rattle.pk_manifest.specs.Sound.{same_segment};
ghost use Rattle.pk_model.specs.Collection.{Doc};
ghost use Rattle.pk_open.specs.Opened.{AreOpenOf, IsOpenOf, entries_of};
ghost use Rattle.pk_plan.specs.Words.{texts};
ghost use Rattle.pk_segment.specs.OnlyRead.{ReadsDisk};
ghost use Rattle.pk_segment.specs.Placed.{IsIndexedOf, dictionary_of};
ghost use Rattle.pk_segment.specs.Reading.{CountsReads, IsNoDamage};
ghost use Rattle.pk_segment.specs.Spelling.{IndexSpells};
ghost use Rattle.pk_state.specs.Committed.{Stored};
ghost use Rattle.pk_state.specs.Holds.{IndexesEntries, IndexesEntry};
ghost use Rattle.pk_state.specs.Kept.{EndsInside, LieInside};

use crate::damage::Damage;
use crate::listed::{LookUp, look_up};
use crate::repeats::{QueryWords, first_places, hashes_of};
use crate::tables::WordTables;
use pk_dict::Entry;
use pk_disk::Disk;
use pk_open::OpenSegment;
use pk_posting::ByteSource;
use pk_segment::{ExtentSource, INDEXED, ReadFault};
use std::alloc::Global;

// Puts what the dictionary of a segment says of each word into the place of what was known; of kind 1
// that is nothing of each.
fn look_up_in<D: Disk>(
    alloc: Global,
    source: &mut ExtentSource<D>,
    tables: &mut WordTables,
    sought: &LookUp,
    known: &mut Vec<Option<Entry>>,
    damage: &mut Damage,
) -> Result<(), ReadFault>
    requires { EndsInside (length (D.content source.old.disk.now))
        sought.now.opened.now.entry.extent }
    ensures entries { D.honest → sought.now.opened.now.entry.kind ≡ 2 → (docs : List Doc)
        → IndexSpells
        (extent_bytes (D.content source.old.disk.now) sought.now.opened.now.entry.extent) docs
        → IsIndexedOf sought.now.opened.now.segment docs
        → FiltersAgreeAt (D.content source.old.disk.now) (filters_of tables.old)
        sought.now.opened.now
        → PutsEntries (texts sought.now.words.words.now) docs known.new.items result }

    // Of any bytes, where no filter is kept of the segment.
    ensures said { D.honest → sought.now.opened.now.entry.kind ≡ 2
        → KeepsNone (filters_of tables.new) sought.now.opened.now.entry.segment
        → OnOk result (SaysOfEach
        (extent_bytes (D.content source.old.disk.now) sought.now.opened.now.entry.extent)
        (dictionary_of sought.now.opened.now.segment) (texts sought.now.words.words.now)
        known.new.items) }

    // Of any bytes: damage that is met is answered.
    ensures damage { NotesDamage damage.old damage.new result }
    ensures fault { D.honest → (s : Stored)
        → IndexesEntry (D.content source.old.disk.now) sought.now.opened.now.entry s
        → IsOpenOf sought.now.opened.now s
        → FiltersAgreeAt (D.content source.old.disk.now) (filters_of tables.old)
        sought.now.opened.now → IfErr result IsNoDamage }
    ensures long { OnOk result (length known.new.items ≡ length sought.now.words.words.now) }
    ensures adds { AddsFilterOf D.honest
        (extent_bytes (D.content source.old.disk.now) sought.now.opened.now.entry.extent)
        sought.now.opened.now (filters_of tables.old) (filters_of tables.new) }
    ensures drops { DropsOnlyOf sought.now.opened.now.entry.segment (filters_of tables.old)
        (filters_of tables.new) }
    ensures limit { KeepsLimit tables.old.filters → KeepsLimit tables.new.filters }
    ensures counted { AreCounted tables.old.filters → AreCounted tables.new.filters }
    ensures same_reference { source.new.disk.ghost_name ≡ source.old.disk.ghost_name }
    ensures left { ReadsDisk D.Disk CountsReads result source.old.disk.now source.new.disk.now }
{
    if sought.opened.entry.kind != INDEXED {
        known.clear();
        known.resize(sought.words.words.len(), None)?;
        return Ok(());
    }
    source.turn_to(sought.opened.entry.extent);
    look_up(alloc, source, tables, sought, known, damage)
}

/// What the dictionaries of all open segments of kind 2 say of each word, a row for each segment, in
/// which each word has its entry, if it is there: of kind 1 none has. Each dictionary is asked once
/// for a word that comes more than once. The memory of the rows is taken at once.
///
/// Let the filters agree with the open segments, then they do so afterwards.
///
/// `Damaged` where a dictionary is none, which is noted, `Disk` where a read failed, or `Memory`.
pub fn look_up_all<D: Disk>(
    alloc: Global,
    source: &mut ExtentSource<D>,
    tables: &mut WordTables,
    opened: &[OpenSegment],
    words: &[&str],
    damage: &mut Damage,
) -> Result<Vec<Option<Entry>>, ReadFault>
    requires inside { LieInside (length (D.content source.old.disk.now)) (entries_of opened.now) }
    requires ids { apart same_segment (entries_of opened.now) ≡ true }
    ensures kept { D.honest
        → FiltersAgree (D.content source.old.disk.now) (filters_of tables.old) opened.now
        → IfOk result (λ table. AreKept (D.content source.old.disk.now)
        (texts words.now) opened.now table.items) }

    // Of any bytes, where no filter is kept of the segment.
    ensures said { D.honest → IfOk result (λ table. AreSaid (D.content source.old.disk.now)
        (texts words.now) opened.now (filters_of tables.new) table.items) }

    // Of any bytes: damage that is met is answered.
    ensures damage { NotesDamage damage.old damage.new result }
    ensures fault { D.honest → (stored : List Stored)
        → IndexesEntries (D.content source.old.disk.now) (entries_of opened.now) stored
        → AreOpenOf opened.now stored
        → FiltersAgree (D.content source.old.disk.now) (filters_of tables.old) opened.now
        → IfErr result IsNoDamage }
    ensures full { IfOk result (λ table. length table.items ≡ length opened.now * length words.now) }
    ensures filters { D.honest
        → FiltersAgree (D.content source.old.disk.now) (filters_of tables.old) opened.now
        → FiltersAgree (D.content source.old.disk.now) (filters_of tables.new) opened.now }
    ensures filters_below { (next : ℕ)
        → All (λ (o : OpenSegment). o.entry.segment < next) opened.now
        → FiltersBelow next (filters_of tables.old) → FiltersBelow next (filters_of tables.new) }
    ensures limit { KeepsLimit tables.old.filters → KeepsLimit tables.new.filters }
    ensures counted { AreCounted tables.old.filters → AreCounted tables.new.filters }
    ensures same_reference { source.new.disk.ghost_name ≡ source.old.disk.ghost_name }
    ensures left { ReadsDisk D.Disk CountsReads result source.old.disk.now source.new.disk.now }
{
    let firsts = first_places(alloc, words)?;
    let hashes = hashes_of(alloc, words)?;
    let asked = QueryWords {
        words,
        firsts: firsts.as_slice(),
        hashes: hashes.as_slice(),
    };
    let Some(size) = opened.len().checked_mul(words.len()) else {
        return Err(ReadFault::Memory);
    };
    let mut table = Vec::with_capacity(alloc, size)?;
    let mut known = Vec::new(alloc);
    tables.filters.settle(opened);
    for i in 0..opened.len() {
        let sought = LookUp {
            words: asked,
            place: i,
            opened: &opened[i],
        };
        look_up_in(alloc, source, tables, &sought, &mut known, damage)?;
        table.extend_from_slice(&known)?;
    }
    Ok(table)
}
