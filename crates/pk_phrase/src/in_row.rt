//! Words that stand in the texts of a segment's documents in a row.
ghost use Rattle.std.specs.Prelude.{
  ◌≡◌,
  ◌≤◌,
  ◌<◌,
  ◌+◌,
  ◌*◌,
  ℕ,
  List,
  length,
  All,
  IfOk,
  IfSome,
  IsErrOf,
  IsUtf8,
  MatchResult,
  OnOk,
  Some,
  string_bytes,
  true,
};
ghost use Rattle.std.specs.List.Sorted.{IsStrictlyIncreasing};
ghost use Rattle.pk_model.specs.Collection.{Doc, answer, numbers_of};
ghost use Rattle.pk_model.specs.Tree.{Phrase};
ghost use Rattle.pk_plan.specs.Plans.{Both, InRow, Operation, found};
ghost use Rattle.pk_posting.specs.Limits.{most_lent};
ghost use Rattle.pk_posting.specs.Frames.{ReadsSource};
ghost use Rattle.pk_phrase.specs.Hits.{IsNext, IsSearchIn, IsTextFor, KeepsHits};
ghost use Rattle.pk_phrase.specs.Lent.{LiesAs};
ghost use Rattle.pk_segment.specs.Puts.{PutsAs};
ghost use Rattle.pk_phrase.specs.Said.{DirectoryRead, HasText, HaveTexts, LiesSaid, SearchRead};
ghost use Rattle.pk_phrase.specs.Spans.{IsSpanOf};
ghost use Rattle.pk_segment.specs.Directory.{IsDirectoryOf};
ghost use Rattle.pk_segment.specs.Opened.{IsSegmentOf, count_of};
ghost use Rattle.pk_segment.specs.Reading.{CountsReads, IsNoDamage, TextAs, text_of};
ghost use Rattle.pk_segment.specs.Texts.{TextSaid};
ghost use Rattle.pk_segment.specs.Spelling.{SegmentSpells};
ghost use Rattle.pk_sets.specs.Sets.{has, intersection};
ghost use Rattle.pk_words.specs.Rows.{texts};

use crate::span::Span;
use pk_model::Document;
use pk_posting::{ByteSource, MOST_LENT};
use pk_segment::{Directory, ReadFault, Segment};
use pk_sets::is_rising;
use pk_words::{SoughtRow, has_row_by, row_table};
use std::alloc::{AllocError, Global};

/// For so many documents of a segment one number at least is to be looked up, for its directory to
/// be read whole: a look-up by halving costs more than reading so many entries.
const ENTRIES_PER_NUMBER: usize = 64;

/// How many bytes may be copied in vain for each text that is read without a call of its own: less
/// than are copied in the time of a call.
const COPIED_PER_CALL: u64 = 128;

/// Words that are asked for in a row, and the place of the one that is looked for in a text: best
/// the rarest. What is found does not depend on it.
#[derive(Clone, Copy)]
pub struct AskedRow<'a> {
    pub words: &'a [&'a str],
    pub rarest: usize,
}

// A row that is sought in the texts of some documents of a segment, which their numbers name, with
// the directory, if that is in memory.
#[derive(Clone, Copy)]
struct RowSearch<'a> {
    segment: &'a Segment,
    directory: &'a Option<Directory>,
    row: &'a SoughtRow<'a>,
    numbers: &'a [u32],
    // Whether their texts stand so near each other that those behind one are read with it.
    near: bool,
}

// A document's number, and the place of the directory where it may stand: nothing is believed of
// that.
#[derive(Clone, Copy)]
struct Candidate {
    number: u32,
    at: u32,
}

// How far a search is: the numbers before the next one are gone through.
#[derive(Drop)]
struct RowHits {
    // Those of them in whose documents' texts the words stand.
    kept: Vec<u32>,
    next: usize,
    // The place of the directory from which the next number is looked for.
    at: u32,
    // Room for a word of a text.
    piece: String,
}

/// Keeps of the numbers those of documents in whose texts the words stand in a row. Texts that stand
/// near each other are read at once. `Damaged` where what is kept doesn't rise.
pub fn keep_in_row<S: ByteSource>(
    alloc: Global,
    source: &mut S,
    segment: &Segment,
    row: &AskedRow,
    numbers: &mut Vec<u32>,
) -> Result<(), ReadFault>
    ensures numbers { S.honest → (docs : List Doc) → SegmentSpells (S.content source.old) docs 2
        → IsSegmentOf segment.now docs → (o : Operation) → numbers.old.items ≡ found o docs
        → PutsAs (found (Both o (InRow (texts row.now.words.now))) docs) numbers.new.items result }
    ensures rising { OnOk result (IsStrictlyIncreasing numbers.new.items) }

    // Of any bytes: no number is passed over.
    ensures read { S.honest → OnOk result (HaveTexts (S.content source.old) segment.now
        numbers.old.items 0 (length numbers.old.items)) }

    ensures left { ReadsSource S.ByteSource CountsReads result source.old source.new }
{
    let kept = those_in_row(alloc, source, segment, row, numbers)?;
    if !is_rising(&kept) {
        return Err(ReadFault::Damaged);
    }
    *numbers = kept;
    Ok(())
}

// Those of the numbers in whose documents' texts the words stand in a row.
#[inline(never)]
fn those_in_row<S: ByteSource>(
    alloc: Global,
    source: &mut S,
    segment: &Segment,
    row: &AskedRow,
    numbers: &[u32],
) -> Result<Vec<u32>, ReadFault>
    ensures kept { S.honest → (docs : List Doc) → SegmentSpells (S.content source.old) docs 2
        → IsSegmentOf segment.now docs → All (λ n. has (numbers_of docs) n ≡ true) numbers.now
        → MatchResult result (λ kept. kept.items
        ≡ intersection numbers.now (answer (Phrase (texts row.now.words.now)) docs)) IsNoDamage }
    ensures read { S.honest → OnOk result (HaveTexts (S.content source.old) segment.now
        numbers.now 0 (length numbers.now)) }
    ensures left { ReadsSource S.ByteSource CountsReads result source.old source.new }
{
    let table = row_table(alloc, row.words)?;
    let directory = directory_for(alloc, source, segment, numbers.len())?;
    let row = SoughtRow {
        words: row.words,
        table: &table,
        rarest: row.rarest,
    };
    let search = RowSearch {
        segment,
        directory: &directory,
        row: &row,
        numbers,
        near: stand_near(segment, numbers.len()),
    };
    found_in_row(alloc, source, &search)
}

// Whether so many texts of a segment are read with those behind them: on average two or more lie in
// what is lent at once, and those between them that are not sought are copied in less time than a
// call takes.
fn stand_near(segment: &Segment, count: usize) -> bool {
    let bytes = u64::from(segment.postings()).saturating_sub(text_start(segment, 0));
    let count = count as u64;
    let documents = u64::from(segment.count()).max(1);
    let between = (bytes / documents).saturating_mul(documents.saturating_sub(count));
    bytes / (MOST_LENT as u64 / 2) <= count && between / COPIED_PER_CALL <= count
}

// The same, by what is sought and where.
fn found_in_row<S: ByteSource>(
    alloc: Global,
    source: &mut S,
    search: &RowSearch,
) -> Result<Vec<u32>, ReadFault>
    ensures kept { S.honest → (docs : List Doc)
        → IsSearchIn (S.content source.old) docs search.now
        → MatchResult result (λ kept. kept.items ≡ intersection search.now.numbers.now
        (answer (Phrase (texts search.now.row.now.words.now)) docs)) IsNoDamage }
    ensures read { S.honest → SearchRead (S.content source.old) search.now
        → OnOk result (HaveTexts (S.content source.old) search.now.segment.now
        search.now.numbers.now 0 (length search.now.numbers.now)) }
    ensures left { ReadsSource S.ByteSource CountsReads result source.old source.new }
{
    let mut hits = RowHits {
        kept: Vec::new(alloc),
        next: 0,
        at: 0,
        piece: String::new(alloc),
    };
    'numbers: while hits.next < search.numbers.len() {
        note_next(alloc, source, search, &mut hits)?;
    }
    Ok(hits.kept)
}

// The directory of the segment, if so many numbers are worth that it is read whole.
fn directory_for<S: ByteSource>(
    alloc: Global,
    source: &mut S,
    segment: &Segment,
    numbers: usize,
) -> Result<Option<Directory>, ReadFault>
    ensures is { S.honest → (docs : List Doc) → SegmentSpells (S.content source.old) docs 2
        → IsSegmentOf segment.now docs
        → MatchResult result (λ directory. IfSome directory (λ d. IsDirectoryOf d docs 2))
        IsNoDamage }
    ensures read { S.honest → IfOk result (DirectoryRead (S.content source.old) segment.now) }
    ensures left { ReadsSource S.ByteSource CountsReads result source.old source.new }
{
    if numbers < segment.count() as usize / ENTRIES_PER_NUMBER {
        return Ok(None);
    }
    let directory = segment.directory(alloc, source)?;
    Ok(Some(directory))
}

// The place from another on where the number may stand in the directory: entries are leapt over,
// twice as many each time, and then the last leap is halved (Bentley, Yao 1976).
fn place_from(directory: &Option<Directory>, from: u32, number: u32) -> u32 {
    let Some(directory) = directory else {
        return from;
    };
    let len = directory.len();
    let mut low = from.min(len);
    let mut step: u32 = 1;
    'leaps: while low < len && step < len - low && directory.number(low + step) < number {
        low += step;
        step = step.saturating_mul(2);
    }
    let mut high = if step < len - low { low + step } else { len };
    'halves: while low < high {
        let middle = low + (high - low) / 2;
        if directory.number(middle) < number {
            low = middle + 1;
        } else {
            high = middle;
        }
    }
    low
}

// The text of the candidate's document, if there is one: by the entry at its place of the directory,
// if that has the number, or else by halving.
fn text_at<S: ByteSource>(
    alloc: Global,
    source: &mut S,
    search: &RowSearch,
    candidate: Candidate,
) -> Result<Option<String>, ReadFault>
    ensures is { S.honest → (docs : List Doc) → SegmentSpells (S.content source.old) docs 2
        → IsSegmentOf search.now.segment.now docs
        → IfSome search.now.directory.now (λ d. IsDirectoryOf d docs 2)
        → TextAs docs candidate.number result }
    ensures said { S.honest → SearchRead (S.content source.old) search.now
        → IfOk result (λ found. IfSome found (λ text. TextSaid (S.content source.old)
        search.now.segment.now candidate.number (string_bytes text))) }
    ensures left { ReadsSource S.ByteSource CountsReads result source.old source.new }
{
    let Candidate { number, at } = candidate;
    if let Some(directory) = search.directory {
        if at < directory.len() && directory.number(at) == number {
            let Document { text, .. } = search.segment.document_in(alloc, source, directory, at)?;
            return Ok(Some(text));
        }
    }
    search.segment.text_of(alloc, source, number)
}

// Where a text of a segment begins, by its offset among the texts.
fn text_start(segment: &Segment, offset: u32) -> u64
    ensures { result ≡ 24 + 12 * count_of segment.now + offset }
{
    24 + 12 * u64::from(segment.count()) + u64::from(offset)
}

// Where the text of the candidate's document lies in the segment, and how long it is, if the entry
// at its place of the directory has the number and the text is lent at once.
fn lent_place(search: &RowSearch, candidate: Candidate) -> Option<(u32, u32)>
    ensures short { IfSome result (λ place. place.1 ≤ most_lent) }
    ensures lies { (bytes : List ℕ) (docs : List Doc) → SegmentSpells bytes docs 2
        → IsSegmentOf search.now.segment.now docs
        → IfSome search.now.directory.now (λ d. IsDirectoryOf d docs 2)
        → IfSome result (LiesAs bytes docs candidate.number) }
    ensures said { (bytes : List ℕ) → SearchRead bytes search.now
        → IfSome result (LiesSaid bytes search.now.segment.now candidate.number) }
{
    let Candidate { number, at } = candidate;
    let Some(directory) = search.directory else {
        return None;
    };
    if at >= directory.len() || directory.number(at) != number {
        return None;
    }
    let (offset, len) = directory.text_place(at);
    let start = text_start(search.segment, offset);
    if len > MOST_LENT as u32 || start > u64::from(u32::MAX) {
        return None;
    }
    Some((start as u32, len))
}

// The next number, and where the directory may have it.
fn next_candidate(search: &RowSearch, hits: &RowHits) -> Candidate
    requires { hits.now.next < length search.now.numbers.now }
    ensures { IsNext search.now hits.now result }
{
    let number = search.numbers[hits.next];
    let at = place_from(search.directory, hits.at, number);
    Candidate { number, at }
}

// Goes past the next number, the candidate's, and keeps it where the words stand in its text in a
// row.
fn note_text(
    search: &RowSearch,
    hits: &mut RowHits,
    candidate: Candidate,
    text: &str,
) -> Result<(), AllocError>
    requires { IsNext search.now hits.old candidate }
    ensures kept { (bytes : List ℕ) (docs : List Doc) → IsSearchIn bytes docs search.now
        → text_of docs candidate.number ≡ Some text.now → KeepsHits docs search.now hits.old
        → OnOk result (KeepsHits docs search.now hits.new) }
    ensures next { OnOk result (hits.new.next ≡ hits.old.next + 1) }
{
    let is = has_row_by(search.row, &mut hits.piece, text)?;
    if is {
        hits.kept.extend_from_slice(&[candidate.number])?;
    }
    hits.next += 1;
    hits.at = candidate.at;
    Ok(())
}

// The same by the bytes of the text. `Damaged` where they are no text.
fn note_bytes(
    search: &RowSearch,
    hits: &mut RowHits,
    candidate: Candidate,
    bytes: &[u8],
) -> Result<(), ReadFault>
    requires { IsNext search.now hits.old candidate }
    ensures kept { (all : List ℕ) (docs : List Doc) → IsSearchIn all docs search.now
        → IsTextFor docs candidate.number bytes.now → KeepsHits docs search.now hits.old
        → MatchResult result (λ _. KeepsHits docs search.now hits.new) IsNoDamage }
    ensures read { OnOk result (IsUtf8 bytes.now) }
    ensures next { OnOk result (hits.new.next ≡ hits.old.next + 1) }
    ensures no_disk { IsErrOf result ReadFault.Disk → ⊥ }
{
    let Ok(text) = str::from_utf8(bytes) else {
        return Err(ReadFault::Damaged);
    };
    note_text(search, hits, candidate, text)?;
    Ok(())
}

// The same by a text that is read by itself. `Damaged` where the segment has no such document.
fn note_alone<S: ByteSource>(
    alloc: Global,
    source: &mut S,
    search: &RowSearch,
    hits: &mut RowHits,
    candidate: Candidate,
) -> Result<(), ReadFault>
    requires { IsNext search.now hits.old candidate }
    ensures kept { S.honest → (docs : List Doc)
        → IsSearchIn (S.content source.old) docs search.now → KeepsHits docs search.now hits.old
        → MatchResult result (λ _. KeepsHits docs search.now hits.new) IsNoDamage }
    ensures read { S.honest → SearchRead (S.content source.old) search.now
        → OnOk result (HasText (S.content source.old) search.now.segment.now candidate.number) }
    ensures next { OnOk result (hits.new.next ≡ hits.old.next + 1) }
    ensures left { ReadsSource S.ByteSource CountsReads result source.old source.new }
{
    let found = text_at(alloc, source, search, candidate)?;
    let Some(text) = found else {
        return Err(ReadFault::Damaged);
    };
    note_text(search, hits, candidate, text.as_str())?;
    Ok(())
}

// The text of the candidate's document, where it lies in the span.
fn text_within<'a>(search: &RowSearch, span: &'a Span, candidate: Candidate) -> Option<&'a [u8]>
    ensures text { (bytes : List ℕ) (docs : List Doc) → IsSearchIn bytes docs search.now
        → IsSpanOf bytes span.now
        → IfSome result (λ text. IsTextFor docs candidate.number text.now) }
    ensures said { (bytes : List ℕ) → SearchRead bytes search.now → IsSpanOf bytes span.now
        → IfSome result (λ text. IsUtf8 text.now
        → TextSaid bytes search.now.segment.now candidate.number text.now) }
{
    let Some((start, len)) = lent_place(search, candidate) else {
        return None;
    };
    span.part(start, len)
}

// Goes past the next numbers, as far as the texts of their documents lie in the span.
fn note_within(search: &RowSearch, hits: &mut RowHits, span: &Span) -> Result<(), ReadFault>
    ensures kept { (bytes : List ℕ) (docs : List Doc) → IsSearchIn bytes docs search.now
        → IsSpanOf bytes span.now → KeepsHits docs search.now hits.old
        → MatchResult result (λ _. KeepsHits docs search.now hits.new) IsNoDamage }
    ensures read { (bytes : List ℕ) → SearchRead bytes search.now → IsSpanOf bytes span.now
        → OnOk result (HaveTexts bytes search.now.segment.now search.now.numbers.now
        hits.old.next hits.new.next) }
    ensures next { OnOk result (hits.old.next ≤ hits.new.next) }
    ensures no_disk { IsErrOf result ReadFault.Disk → ⊥ }
{
    'texts: while hits.next < search.numbers.len() {
        let candidate = next_candidate(search, hits);
        let Some(text) = text_within(search, span, candidate) else {
            return Ok(());
        };
        note_bytes(search, hits, candidate, text)?;
    }
    Ok(())
}

// How many bytes are read for a text at a place of a source of so many bytes: those of the texts
// behind it too, where they stand near each other.
fn span_len(search: &RowSearch, size: u32, place: (u32, u32)) -> u32
    requires { place.1 ≤ most_lent }
    ensures lent { result ≤ most_lent }
    ensures text { place.1 ≤ result }
    ensures inside { place.0 + place.1 ≤ size → place.0 + result ≤ size }
{
    let (start, len) = place;
    if !search.near {
        return len;
    }
    let end = size.min(search.segment.postings());
    end.saturating_sub(start).min(MOST_LENT as u32).max(len)
}

// Goes past the next number, the candidate's, whose text lies at a place, and past those whose texts
// were read with it: nothing is copied.
fn note_near<S: ByteSource>(
    source: &mut S,
    search: &RowSearch,
    hits: &mut RowHits,
    candidate: Candidate,
    place: (u32, u32),
) -> Result<(), ReadFault>
    requires next { IsNext search.now hits.old candidate }
    requires short { place.1 ≤ most_lent }
    ensures kept { S.honest → (docs : List Doc)
        → IsSearchIn (S.content source.old) docs search.now
        → LiesAs (S.content source.old) docs candidate.number place
        → KeepsHits docs search.now hits.old
        → MatchResult result (λ _. KeepsHits docs search.now hits.new) IsNoDamage }
    ensures read { S.honest → SearchRead (S.content source.old) search.now
        → LiesSaid (S.content source.old) search.now.segment.now candidate.number place
        → OnOk result (HaveTexts (S.content source.old) search.now.segment.now
        search.now.numbers.now hits.old.next hits.new.next) }
    ensures next { OnOk result (hits.old.next < hits.new.next) }
    ensures left { ReadsSource S.ByteSource CountsReads result source.old source.new }
{
    let start = place.0;
    let len = span_len(search, source.len(), place);
    let bytes = source.bytes(start, len)?;
    note_bytes(search, hits, candidate, &bytes[..place.1 as usize])?;
    note_within(search, hits, &Span { start, bytes })
}

// Goes past the next number, and past those whose texts were read with that of its document.
fn note_next<S: ByteSource>(
    alloc: Global,
    source: &mut S,
    search: &RowSearch,
    hits: &mut RowHits,
) -> Result<(), ReadFault>
    requires { hits.old.next < length search.now.numbers.now }
    ensures kept { S.honest → (docs : List Doc)
        → IsSearchIn (S.content source.old) docs search.now → KeepsHits docs search.now hits.old
        → MatchResult result (λ _. KeepsHits docs search.now hits.new) IsNoDamage }
    ensures read { S.honest → SearchRead (S.content source.old) search.now
        → OnOk result (HaveTexts (S.content source.old) search.now.segment.now
        search.now.numbers.now hits.old.next hits.new.next) }
    ensures next { OnOk result (hits.old.next < hits.new.next) }
    ensures left { ReadsSource S.ByteSource CountsReads result source.old source.new }
{
    let candidate = next_candidate(search, hits);
    if let Some(place) = lent_place(search, candidate) {
        return note_near(source, search, hits, candidate, place);
    }
    note_alone(alloc, source, search, hits, candidate)
}
