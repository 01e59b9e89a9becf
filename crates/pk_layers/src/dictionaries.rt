//! Dictionaries of terms, by every way of reading.

use crate::failing::Failing;
use crate::told::{Fault, Told};
use crate::words::{Words, bytes_of, halves, number};
use pk_dict::{
    Dict, DictPlace, DictWriter, Entry, PrefixCursor, Windows, entries_in, look_up_in, look_up_near,
};
use pk_posting::{ByteSource, ListPlace, MOST_LENT, ReadFault, SourceFault};
use std::alloc::{AllocError, Global};

/// A term with what it is added with.
fn item(alloc: Global, word: &str) -> Result<(Vec<u8>, Entry), AllocError> {
    let (term, rest) = halves(word);
    let (frequency, rest) = halves(rest);
    let (at, bytes) = halves(rest);
    let entry = Entry {
        frequency: number(frequency),
        place: ListPlace {
            at: number(at),
            bytes: number(bytes),
        },
    };
    Ok((bytes_of(alloc, term)?, entry))
}

/// A dictionary's length, as its writer tells it, and its bytes; or the first term that may not be
/// added.
pub(crate) fn tell_written(
    alloc: Global,
    words: &mut Words<'_>,
    told: &mut Told,
) -> Result<(), Fault> {
    let mut writer = DictWriter::new(alloc);
    for word in words.each() {
        let (bytes, entry) = item(alloc, word)?;
        let term = bytes.as_slice();
        if !writer.may_add(term, entry.frequency, entry.place) {
            told.word("not");
            told.bytes(term);
            return Ok(());
        }
        writer.add(term, entry.frequency, entry.place)?;
    }
    told.number(writer.size() as u64);
    told.bytes(&writer.finish(alloc)?);
    Ok(())
}

/// Entries of a dictionary in memory.
pub(crate) fn tell_looked_up(
    alloc: Global,
    bytes: &[u8],
    words: &mut Words<'_>,
    told: &mut Told,
) -> Result<(), Fault> {
    let dict = Dict::open(bytes, words.number());
    for word in words.each() {
        match dict.look_up(&bytes_of(alloc, word)?) {
            Ok(entry) => told.entry(entry),
            Err(fault) => told.fault(Fault::from(fault)),
        }
    }
    Ok(())
}

/// The entries of a prefix there.
pub(crate) fn tell_prefix(
    alloc: Global,
    bytes: &[u8],
    words: &mut Words<'_>,
    told: &mut Told,
) -> Result<(), Fault> {
    let dict = Dict::open(bytes, words.number());
    told.entries(&dict.entries_with_prefix(alloc, &words.bytes()?)?);
    Ok(())
}

/// Where a dictionary lies in a source, and how many terms it has.
fn dict_place(words: &mut Words<'_>) -> DictPlace {
    DictPlace {
        at: words.number(),
        bytes: words.number(),
        terms: words.number(),
    }
}

/// Tells what a look-up gives.
fn tell_found(found: Result<Option<Entry>, SourceFault>, told: &mut Told) {
    match found {
        Ok(entry) => told.entry(entry),
        Err(fault) => told.fault(Fault::from(fault)),
    }
}

/// Looks terms up in a source.
fn tell_each<S: ByteSource>(
    source: &mut S,
    place: DictPlace,
    words: Words<'_>,
    told: &mut Told,
) -> Result<(), AllocError> {
    for word in words.each() {
        tell_found(look_up_in(source, place, &words.bytes_of(word)?), told);
    }
    Ok(())
}

/// The same by a table of pivots, which is filled.
fn tell_each_near<S: ByteSource>(
    source: &mut S,
    place: DictPlace,
    pivots: &mut [u64],
    words: Words<'_>,
    told: &mut Told,
) -> Result<(), AllocError> {
    for word in words.each() {
        let found = look_up_near(source, place, pivots, &words.bytes_of(word)?);
        tell_found(found, told);
    }
    Ok(())
}

/// The entries of a prefix in a source.
fn tell_prefix_in<S: ByteSource>(
    source: &mut S,
    place: DictPlace,
    words: &mut Words<'_>,
    told: &mut Told,
) -> Result<(), AllocError> {
    match entries_in(words.alloc(), source, place, &words.bytes()?) {
        Ok(entries) => told.entries(&entries),
        Err(ReadFault::Memory) => return Err(AllocError),
        Err(fault) => told.fault(Fault::from(fault)),
    }
    Ok(())
}

/// The entries of a prefix in a source, one by one by a cursor that reads so many bytes ahead and
/// seeks by a table of pivots, which is filled.
fn passed<S: ByteSource>(
    source: &mut S,
    place: DictPlace,
    pivots: &mut [u64],
    words: &mut Words<'_>,
) -> Result<Vec<(Vec<u8>, Entry)>, ReadFault> {
    if u64::from(source.len()) < u64::from(place.at) + u64::from(place.bytes) {
        return Err(ReadFault::Damaged);
    }
    let ahead = words.number().min(MOST_LENT as u32);
    let prefix = words.bytes()?;
    let mut cursor = PrefixCursor::open(words.alloc(), place, ahead, &prefix);
    let mut found = Vec::new(words.alloc());
    'entries: while let Some(entry) = cursor.next(source, pivots)? {
        let word = Vec::from_slice(words.alloc(), cursor.word())?;
        let Ok(()) = found.push((word, entry)) else {
            return Err(ReadFault::Memory);
        };
    }
    Ok(found)
}

/// Tells these entries.
fn tell_passed<S: ByteSource>(
    source: &mut S,
    place: DictPlace,
    pivots: &mut [u64],
    words: &mut Words<'_>,
    told: &mut Told,
) -> Result<(), AllocError> {
    match passed(source, place, pivots, words) {
        Ok(entries) => told.entries(&entries),
        Err(ReadFault::Memory) => return Err(AllocError),
        Err(fault) => told.fault(Fault::from(fault)),
    }
    Ok(())
}

/// What a dictionary in a source is asked by a name.
pub(crate) fn tell_in(
    name: &str,
    source: &[u8],
    pivots: &mut [u64],
    words: &mut Words<'_>,
    told: &mut Told,
) -> Result<(), Fault> {
    let mut source = Failing::after(source, words.long());
    let place = dict_place(words);
    match name {
        "look-in" => tell_each(&mut source, place, *words, told)?,
        "near-in" => tell_each_near(&mut source, place, pivots, *words, told)?,
        "passed-in" => tell_passed(&mut source, place, pivots, words, told)?,
        "prefix-in" => tell_prefix_in(&mut source, place, words, told)?,
        _ => tell_by_windows(name, &mut source, place, pivots, words, told)?,
    }
    source.tell(told);
    Ok(())
}

/// The same by windows over the source, with how often these were asked.
fn tell_by_windows<S: ByteSource>(
    name: &str,
    source: &mut S,
    place: DictPlace,
    pivots: &mut [u64],
    words: &mut Words<'_>,
    told: &mut Told,
) -> Result<(), AllocError> {
    let mut long = [0; MOST_LENT];
    let mut windows = Windows::on(source, place, &mut long);
    match name {
        "look-windows" => tell_each(&mut windows, place, *words, told)?,
        "near-windows" => tell_each_near(&mut windows, place, pivots, *words, told)?,
        _ => tell_prefix_in(&mut windows, place, words, told)?,
    }
    told.number(windows.asked());
    Ok(())
}

/// What windows lend of some stretches, and how often the source was asked behind each.
pub(crate) fn tell_windows(
    source: &[u8],
    words: &mut Words<'_>,
    told: &mut Told,
) -> Result<(), Fault> {
    let mut source = Failing::after(source, u64::MAX);
    let place = dict_place(words);
    let mut long = [0; MOST_LENT];
    let mut windows = Windows::on(&mut source, place, &mut long);
    told.number(u64::from(windows.len()));
    for stretch in words.each() {
        let (at, n) = halves(stretch);
        match windows.lend(number(at), number(n).min(4096)) {
            Ok(lent) => told.bytes(lent),
            Err(fault) => told.fault(Fault::from(fault)),
        }
    }
    source.tell(told);
    Ok(())
}
