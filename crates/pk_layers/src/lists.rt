//! Posting lists, deletion lists, cursors over lists, and blocks that are kept.

ghost use Rattle.std.specs.Prelude.{IsTrue};
ghost use Rattle.pk_posting.specs.Posting.{IsPosting};

use crate::failing::{Failing, MOST_BYTES};
use crate::told::{Fault, MEMORY, Told};
use crate::words::{Words, halves, number};
use pk_cache::{BlockCache, BlockKey};
use pk_cursor::Cursor;
use pk_dead::Dead;
use pk_posting::{
    ByteSource, DecodeFault, ListPlace, Shape, SliceSource, SourceFault, decode, encode,
    encode_into, length_of, skip_of,
};
use std::alloc::Global;

/// What may not be spelled as a list.
const NO_LIST: Fault = Fault("no list");

/// Whether a list rises from 1 on and is short enough.
fn is_posting(xs: &[u32]) -> bool
    ensures { IsTrue result → IsPosting xs.now }
{
    let mut before = 0;
    for x in xs {
        if *x <= before {
            return false;
        }
        before = *x;
    }
    xs.len() <= 134_217_728
}

/// A list's bytes.
pub(crate) fn tell_encoded(
    alloc: Global,
    words: &mut Words<'_>,
    told: &mut Told,
) -> Result<(), Fault> {
    let xs = words.numbers()?;
    if !is_posting(&xs) {
        return Err(NO_LIST);
    }
    told.bytes(&encode(alloc, &xs)?);
    Ok(())
}

/// The same, put into a room of its length.
pub(crate) fn tell_put_into(
    alloc: Global,
    words: &mut Words<'_>,
    told: &mut Told,
) -> Result<(), Fault> {
    let xs = words.numbers()?;
    if !is_posting(&xs) {
        return Err(NO_LIST);
    }
    let mut room = vec![in alloc; 0xEEu8; length_of(&xs) as usize]?;
    encode_into(&xs, &mut room);
    told.bytes(&room);
    Ok(())
}

/// The numbers that bytes spell.
pub(crate) fn tell_decoded(
    alloc: Global,
    words: &mut Words<'_>,
    told: &mut Told,
) -> Result<(), Fault> {
    told.numbers(&decode(alloc, &words.bytes()?)?);
    Ok(())
}

/// The shape that bytes begin with.
pub(crate) fn tell_shape(words: &mut Words<'_>, told: &mut Told) -> Result<(), Fault> {
    let Some(shape) = Shape::of(&words.bytes()?) else {
        return Err(Fault("no shape"));
    };
    for n in [shape.count, shape.blocks, shape.tail] {
        told.number(u64::from(n));
    }
    Ok(())
}

/// An entry of the skips.
pub(crate) fn tell_skip(words: &mut Words<'_>, told: &mut Told) -> Result<(), Fault> {
    let bytes = words.bytes()?;
    if bytes.len() != 20 {
        return Err(Fault("no skip"));
    }
    let skip = skip_of(&bytes);
    told.number(u64::from(skip.offset));
    told.numbers(&skip.last);
    Ok(())
}

/// What a slice lends of some stretches, and how often it was asked.
pub(crate) fn tell_lent(words: &mut Words<'_>, told: &mut Told) -> Result<(), Fault> {
    let bytes = words.bytes()?;
    if bytes.len() > MOST_BYTES {
        return Err(Fault("no source"));
    }
    let mut source = SliceSource::new(&bytes);
    told.number(u64::from(source.len()));
    for stretch in words.each() {
        let (at, n) = halves(stretch);
        match source.bytes(number(at), number(n).min(4096)) {
            Ok(lent) => told.bytes(lent),
            Err(fault) => told.fault(Fault::from(fault)),
        }
    }
    told.number(source.asked());
    Ok(())
}

/// The deletion list to which numbers are added one after the other.
pub(crate) fn added(alloc: Global, numbers: &[u32]) -> Result<Dead, Fault> {
    let mut dead = Dead::new(alloc);
    for n in numbers {
        if *n == 0 || dead.len() >= 134_217_728 {
            return Err(NO_LIST);
        }
        dead.add(*n)?;
    }
    Ok(dead)
}

/// The bytes of a deletion list to which numbers are added.
pub(crate) fn tell_dead(
    alloc: Global,
    words: &mut Words<'_>,
    told: &mut Told,
) -> Result<(), Fault> {
    let dead = added(alloc, &words.numbers()?)?;
    told.bytes(&dead.spell(alloc)?);
    told.number(dead.len() as u64);
    told.truth(dead.is_empty());
    Ok(())
}

/// The numbers that bytes spell, in a copy of the list, and which of some others it has.
pub(crate) fn tell_read(
    alloc: Global,
    words: &mut Words<'_>,
    told: &mut Told,
) -> Result<(), Fault> {
    let read = Dead::read(alloc, &words.bytes()?)?;
    told.numbers(read.copy(alloc)?.numbers());
    for word in words.each() {
        told.truth(read.contains(number(word)));
    }
    Ok(())
}

/// Where a list lies in a source.
fn list_place(words: &mut Words<'_>) -> ListPlace {
    ListPlace {
        at: words.number(),
        bytes: words.number(),
    }
}

/// Where a cursor stands behind a step: its number, or its fault, where it keeps that and shows no
/// number.
fn tell_step<S: ByteSource>(cursor: &mut Cursor<'_, S>, step: &str, told: &mut Told) {
    let (name, target) = halves(step);
    let gone = match name {
        "next" => cursor.next(),
        "pass" => cursor.pass(),
        "seek" => cursor.seek(number(target)),
        _ => {
            told.numbers(cursor.rest());
            return;
        }
    };
    tell_standing(cursor, gone.err(), told);
}

/// The number on which a cursor stands that met this fault, if any.
fn tell_standing<S: ByteSource>(
    cursor: &Cursor<'_, S>,
    fault: Option<SourceFault>,
    told: &mut Told,
) {
    match (fault, cursor.current()) {
        (None, Some(number)) => told.number(u64::from(number)),
        (None, None) => told.word("-"),
        (Some(fault), None) if cursor.fault() == Some(fault) && cursor.rest().is_empty() => {
            told.fault(Fault::from(fault));
        }
        (Some(_), _) => told.word("otherwise"),
    }
}

/// Takes the steps, and tells where each comes to, and how many blocks were decoded.
fn tell_steps<S: ByteSource>(source: &mut S, place: ListPlace, words: Words<'_>, told: &mut Told) {
    let mut cursor = Cursor::open(source, place);
    tell_standing(&cursor, cursor.fault(), told);
    for step in words.each() {
        tell_step(&mut cursor, step, told);
    }
    told.number(cursor.decoded());
}

/// A walk through a list in a source.
pub(crate) fn tell_walk(
    source: &[u8],
    words: &mut Words<'_>,
    told: &mut Told,
) -> Result<(), Fault> {
    let mut source = Failing::after(source, words.long());
    let place = list_place(words);
    tell_steps(&mut source, place, *words, told);
    source.tell(told);
    Ok(())
}

/// Tells a block of a list that is all of a source, and whether the source was asked for it.
fn tell_block_in<S: ByteSource>(
    cache: &mut BlockCache,
    source: &mut S,
    segment: u32,
    block: u32,
    told: &mut Told,
) -> Result<(), Fault> {
    let place = ListPlace {
        at: 0,
        bytes: source.len(),
    };
    let shape = Shape::read(source, place)?;
    let before = source.asked();
    let key = BlockKey {
        segment: u64::from(segment),
        at: 0,
        block,
    };
    let numbers = cache.block(key, place, shape, source)?;
    let is_asked = source.asked() != before;
    told.word(if is_asked { "asked" } else { "kept" });
    told.numbers(&numbers);
    Ok(())
}

/// Tells a block that is asked for by its segment, its number and the calls of the source that
/// pass; or why there is none.
fn tell_block(
    cache: &mut BlockCache,
    bytes: &[u8],
    step: &str,
    told: &mut Told,
) -> Result<(), Fault> {
    let (segment, rest) = halves(step);
    let (block, passes) = halves(rest);
    let mut source = Failing::after(bytes, passes.parse::<u64>().unwrap_or(u64::MAX));
    match tell_block_in(cache, &mut source, number(segment), number(block), told) {
        Err(fault) if fault != MEMORY => told.fault(fault),
        other => other?,
    }
    Ok(())
}

/// Blocks by way of a cache of some room.
pub(crate) fn tell_blocks(
    alloc: Global,
    first: &[u8],
    second: &[u8],
    words: &mut Words<'_>,
    told: &mut Told,
) -> Result<(), Fault> {
    let room = words.number() as usize;
    if room == 0 || room > 65_536 {
        return Err(Fault("no cache"));
    }
    let mut cache = BlockCache::new(alloc, room)?;
    for step in words.each() {
        let bytes = if step.starts_with("1:") {
            first
        } else {
            second
        };
        tell_block(&mut cache, bytes, step, told)?;
    }
    Ok(())
}
