//! Segments on a disk: what is built, and what each reader answers.

ghost use Rattle.std.specs.Prelude.{◌≡◌, ◌≤◌, ◌<◌, length, All, IfOk};
ghost use Rattle.std.specs.List.Sorted.{IsStrictlyIncreasing};
ghost use Rattle.pk_model.specs.Collection.{numbers_of};
ghost use Rattle.pk_segment.specs.Spelling.{docs_of};

use crate::told::{Fault, MEMORY, Told};
use crate::tried::Tried;
use crate::words::{Words, bytes_of, halves, number};
use pk_disk::{Disk, Extent};
use pk_model::{DocNo, Document};
use pk_posting::ByteSource;
use pk_segment::{ExtentSource, Segment, build, size_of};
use std::alloc::Global;
use std::str;

/// What may not be built or read as a segment.
const NO_SEGMENT: Fault = Fault("no segment");

/// A document: its number and its text.
fn document(alloc: Global, number: u32, words: &mut Words<'_>) -> Result<Document, Fault>
    ensures { IfOk result (λ d. d.number.0 ≡ number) }
{
    let bytes = words.bytes()?;
    let Ok(text) = str::from_utf8(&bytes) else {
        return Err(NO_SEGMENT);
    };
    Ok(Document {
        number: DocNo(number),
        text: String::from_str(alloc, text)?,
    })
}

/// Two documents.
fn documents(alloc: Global, words: &mut Words<'_>) -> Result<Vec<Document>, Fault>
    ensures some { IfOk result (λ v. 0 < length v.items) }
    ensures rising { IfOk result (λ v. IsStrictlyIncreasing (numbers_of (docs_of v.items))) }
    ensures least { IfOk result (λ v. All (λ d. 1 ≤ d.number.0) v.items) }
{
    let (first, second) = (words.number(), words.number());
    if first == 0 || second <= first {
        return Err(NO_SEGMENT);
    }
    let mut docs = Vec::new(alloc);
    docs.push(document(alloc, first, words)?)?;
    docs.push(document(alloc, second, words)?)?;
    Ok(docs)
}

/// The length and the bytes of the segment of two documents.
pub(crate) fn tell_built(
    alloc: Global,
    words: &mut Words<'_>,
    told: &mut Told,
) -> Result<(), Fault> {
    let kind = words.number();
    if kind != 1 && kind != 2 {
        return Err(NO_SEGMENT);
    }
    let docs = documents(alloc, words)?;
    told.number(u64::from(size_of(alloc, &docs, kind)?));
    told.bytes(&build(alloc, &docs, kind)?);
    Ok(())
}

/// A document.
fn tell_document(document: &Document, told: &mut Told) {
    told.number(u64::from(document.number.0));
    told.bytes(document.text.as_bytes());
}

/// The document at a place among the segment's; nothing behind the last.
fn tell_document_at<S: ByteSource>(
    alloc: Global,
    segment: &Segment,
    source: &mut S,
    place: u32,
    told: &mut Told,
) -> Result<(), Fault> {
    if place >= segment.count() {
        told.word("-");
        return Ok(());
    }
    tell_document(&segment.document_at(alloc, source, place)?, told);
    Ok(())
}

/// How often the source is asked for the directory; and of each document its number and the place of
/// its text, and then the document.
fn tell_directory<S: ByteSource>(
    alloc: Global,
    segment: &Segment,
    source: &mut S,
    told: &mut Told,
) -> Result<(), Fault> {
    let before = source.asked();
    let directory = segment.directory(alloc, source)?;
    told.number(source.asked().saturating_sub(before));
    for i in 0..directory.len() {
        told.number(u64::from(directory.number(i)));
        let (at, long) = directory.text_place(i);
        told.number(u64::from(at));
        told.number(u64::from(long));
        tell_document(&segment.document_in(alloc, source, &directory, i)?, told);
    }
    Ok(())
}

/// The number of documents, the first and the last number.
fn tell_ends(segment: &Segment, told: &mut Told) {
    for n in [segment.count(), segment.first(), segment.last()] {
        told.number(u64::from(n));
    }
}

/// The bytes that the source lends from a place on.
fn tell_lent<S: ByteSource>(source: &mut S, stretch: &str, told: &mut Told) -> Result<(), Fault> {
    let (at, n) = halves(stretch);
    told.bytes(source.bytes(number(at), number(n).min(4096))?);
    Ok(())
}

/// All numbers.
fn tell_numbers<S: ByteSource>(
    alloc: Global,
    segment: &Segment,
    source: &mut S,
    told: &mut Told,
) -> Result<(), Fault> {
    told.numbers(&segment.numbers(alloc, source)?);
    Ok(())
}

/// The text of a number.
fn tell_text<S: ByteSource>(
    alloc: Global,
    segment: &Segment,
    source: &mut S,
    number: u32,
    told: &mut Told,
) -> Result<(), Fault> {
    match segment.text_of(alloc, source, number)? {
        Some(text) => told.bytes(text.as_bytes()),
        None => told.word("none"),
    }
    Ok(())
}

/// Where the dictionary lies.
fn tell_place<S: ByteSource>(
    segment: &Segment,
    source: &mut S,
    told: &mut Told,
) -> Result<(), Fault> {
    let place = segment.dictionary(source)?;
    for n in [place.at, place.bytes, place.terms] {
        told.number(u64::from(n));
    }
    Ok(())
}

/// The entry of a word.
fn tell_list<S: ByteSource>(
    alloc: Global,
    segment: &Segment,
    source: &mut S,
    word: &str,
    told: &mut Told,
) -> Result<(), Fault> {
    let word = bytes_of(alloc, word)?;
    told.entry(segment.list_of(alloc, source, &word)?);
    Ok(())
}

/// All words with their entries.
fn tell_terms<S: ByteSource>(
    alloc: Global,
    segment: &Segment,
    source: &mut S,
    told: &mut Told,
) -> Result<(), Fault> {
    told.entries(&segment.terms(alloc, source)?);
    Ok(())
}

/// Those that begin so.
fn tell_prefix<S: ByteSource>(
    alloc: Global,
    segment: &Segment,
    source: &mut S,
    prefix: &str,
    told: &mut Told,
) -> Result<(), Fault> {
    let prefix = bytes_of(alloc, prefix)?;
    told.entries(&segment.entries_of(alloc, source, &prefix)?);
    Ok(())
}

/// What a reader of a segment's documents answers, where it is asked.
fn tell_of_documents<S: ByteSource>(
    alloc: Global,
    segment: &Segment,
    source: &mut S,
    step: &str,
    told: &mut Told,
) -> Result<bool, Fault> {
    let (name, rest) = halves(step);
    match name {
        "ends" => tell_ends(segment, told),
        "numbers" => tell_numbers(alloc, segment, source, told)?,
        "has" => told.truth(segment.contains(source, number(rest))?),
        "text" => tell_text(alloc, segment, source, number(rest), told)?,
        "document" => tell_document_at(alloc, segment, source, number(rest), told)?,
        "directory" => tell_directory(alloc, segment, source, told)?,
        _ => return Ok(false),
    }
    Ok(true)
}

/// What a reader of its words answers, where it is asked.
fn tell_of_words<S: ByteSource>(
    alloc: Global,
    segment: &Segment,
    source: &mut S,
    step: &str,
    told: &mut Told,
) -> Result<bool, Fault> {
    let (name, rest) = halves(step);
    match name {
        "postings" => told.number(u64::from(segment.postings())),
        "dictionary" => tell_place(segment, source, told)?,
        "list" => tell_list(alloc, segment, source, rest, told)?,
        "terms" => tell_terms(alloc, segment, source, told)?,
        "prefix" => tell_prefix(alloc, segment, source, rest, told)?,
        _ => return Ok(false),
    }
    Ok(true)
}

/// What a reader of a segment answers, or its source.
fn tell_reader<S: ByteSource>(
    alloc: Global,
    segment: &Segment,
    source: &mut S,
    step: &str,
    told: &mut Told,
) -> Result<(), Fault> {
    if tell_of_documents(alloc, segment, source, step, told)?
        || tell_of_words(alloc, segment, source, step, told)?
    {
        return Ok(());
    }
    match halves(step) {
        ("asked", _) => told.number(source.asked()),
        ("lend", stretch) => return tell_lent(source, stretch, told),
        _ => told.word("-"),
    }
    Ok(())
}

/// The same behind a bar; what is damaged, and a read that fails, stops no other reader.
fn tell_tried<S: ByteSource>(
    alloc: Global,
    segment: &Segment,
    source: &mut S,
    step: &str,
    told: &mut Told,
) -> Result<(), Fault> {
    told.word("|");
    match tell_reader(alloc, segment, source, step, told) {
        Err(fault) if fault != MEMORY => {
            told.fault(fault);
            Ok(())
        }
        other => other,
    }
}

/// What readers of a segment answer.
fn tell_readers<S: ByteSource>(
    alloc: Global,
    segment: &Segment,
    source: &mut S,
    words: Words<'_>,
    told: &mut Told,
) -> Result<(), Fault> {
    for step in words.each() {
        tell_tried(alloc, segment, source, step, told)?;
    }
    Ok(())
}

/// Opens a segment of a kind and a length in an extent, and tells what its readers answer.
pub(crate) fn tell_segment(
    alloc: Global,
    disk: &mut Tried,
    words: &mut Words<'_>,
    told: &mut Told,
) -> Result<(), Fault> {
    let place = Extent::of_bytes(words.number(), words.number());
    let (size, kind) = (words.number(), words.number());
    if place.start() + u64::from(place.bytes) > disk.len() || (kind != 1 && kind != 2) {
        return Err(NO_SEGMENT);
    }
    let mut source = ExtentSource::on(disk, place);
    let segment = Segment::open(&mut source, size, kind)?;
    told.word("open");
    tell_readers(alloc, &segment, &mut source, *words, told)
}
