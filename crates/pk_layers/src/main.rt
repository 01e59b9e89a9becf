//! Answers lines that ask a lower layer one thing each: a list's bytes, what bytes spell, where a
//! cursor comes to, what a disk holds, what a text reads as.
//!
//!     pk_layers < LINES
//!
//! A line is a name and words behind it; the answer is a line too. Each word is a number, the
//! name of something, bytes as pairs of hexadecimal digits, numbers with commas between, or
//! parts of these with colons between; `-` stands for no bytes and no numbers. What is refused is
//! answered by the word for its fault, as `damaged`, `disk` or `memory`; what may not be asked,
//! by `no ..`. A line that is refused memory is asked once more, and answered a second time.
//! `tests/layers` plays such lines.
//!
//! - `put N`: the five bytes of a buffer of `EE` into which a number is put
//! - `take BYTES`: a number by its variable bytes, and how many these are
//! - `digits XS`: the bytes of each number in decimal, behind a space, written one after the other
//! - `key BYTES`: a word's key
//! - `around KEYS WORDS KEY`: what a table of pivots decides: the range, and its place
//! - `keep KEYS NODE KEY`: the table with that key put in
//! - `width XS`, `pack XS`: of 128 numbers
//! - `unpack BITS BYTES`, `sums BITS SEED BYTES`: 128 numbers
//! - `differ SEED XS`, `restore SEED XS`, `ascending SEED XS`: of 128 numbers
//! - `rising XS`: whether a set rises
//! - `sets SPARE XS YS`: what both have, in each of three ways, what either has, and the one
//!   without the other, by way of rooms with so many places to spare
//! - `encode XS`, `into XS`, `decode BYTES`: a posting list's bytes, also by way of a room of its
//!   length, and its numbers
//! - `shape BYTES`, `skip BYTES`: a list's shape, and an entry of its skips
//! - `lend BYTES AT:N ..`: bytes that a slice lends, and how often it was asked
//! - `dead XS`, `alive BYTES N ..`: a deletion list's bytes, and of each number whether a list has
//!   it
//! - `source BYTES`, `other BYTES`: the bytes that the lines below are about
//! - `walk PASSES AT BYTES STEP ..`: where a cursor stands behind each of `next`, `pass`, `seek:N`,
//!   or `rest`, what it holds
//! - `blocks ROOM SEGMENT:BLOCK:PASSES ..`: blocks by way of a cache, and whether the source was
//!   asked
//! - `dict TERM:FREQUENCY:AT:BYTES ..`: a dictionary's length and bytes
//! - `look TERMS TERM ..`, `prefix TERMS PREFIX`: entries of a dictionary in memory
//! - `look-in PASSES AT BYTES TERMS TERM ..`, also `near-in`: entries of one in a source, also by
//!   pivots
//! - `prefix-in PASSES AT BYTES TERMS PREFIX`: those of a prefix
//! - `passed-in PASSES AT BYTES TERMS AHEAD PREFIX`: the same by a cursor that reads so many bytes
//!   ahead, and seeks by pivots
//! - `look-windows ..`, `near-windows ..`, `prefix-windows ..`: the same by windows, and how often
//!   these were asked
//! - `pivots KEYS`: the table that searches by pivots go by and fill
//! - `window AT:N ..`: how often the source was asked behind each stretch that windows lend, and
//!   its bytes
//! - `build KIND N M TEXT TEXT`: the length and the bytes of a segment of two documents
//! - `choose SIZES`: where the least run of eight begins
//! - `disk N BYTES`: a new disk of so many bytes: those, and zeros
//! - `set AT BYTES`, `bytes AT N`: puts bytes on the disk; shows some
//! - `crash BYTES N`: a crash that leaves the bytes at open positions, `N` times one after the
//!   other
//! - `fail K`, `stop K`: of the calls of the next line about the disk the `K`th fails; all from it
//!   on
//! - `reads`: how many bytes the line before read from the disk
//! - `calls STEP ..`, `pages N STEP ..`: calls of the disk, `read:AT:N`, `write:AT:BYTES` and
//!   `sync`, also by way of some pages that are kept, and how many bytes were read below
//! - `extent FIRST BYTES UNITS FIRST BYTES`: how many units an extent has, where it begins and
//!   ends, whether it lies within some units, and whether it overlaps another
//! - `units N`: how many units a disk of so many bytes has
//! - `manifest VERSION GENERATION UNITS NUMBER ID FIRST:BYTES PART ..`: the bytes of a body, which
//!   is kept, and of its table, at an extent; a part is `ID:FIRST:BYTES:KIND`, and `:FIRST:BYTES`
//!   of its deletion list
//! - `next`: the generation behind that of the kept body
//! - `current`: which half is in force, what it says, and where its extents begin
//! - `gate HALF`: whether a gate is open
//! - `install HALF`, `establish`: puts the kept body in force, by a half, or as the first
//! - `replace HALF AGAIN AT BYTES AT BYTES`: the same with two pieces; begun again where a read
//!   fails, if `AGAIN` is 1
//! - `copy HALF AGAIN FROM TO N`, `follow HALF AGAIN FROM TO N AT BYTES`: with a copy, and a piece
//!   behind it
//! - `segment FIRST BYTES SIZE KIND READER ..`: what readers of the segment in an extent answer,
//!   each behind a bar: `ends`, `postings`, `asked`, `numbers`, `has:N`, `text:N`, `document:I`,
//!   `directory`, `dictionary`, `list:WORD`, `terms`, `prefix:PREFIX`, and bytes that the source
//!   lends, `lend:AT:N`
//! - `merge KIND XS YS`: what deletion lists leave of the segments in units 1 and 2, of 52 and 37
//!   bytes, on a disk of 2,048
//! - `merge-nothing`: whether anything is left of no input
//! - `prepare XS YS`, `merge-into XS YS`: how long that is in kind 2; also written into unit 3
//! - `words TEXT WORD ..`: the words of a text in its order, a bar, the same as a set, which may be
//!   `empty`, a bar, and of each word whether the set has it
//! - `in-row TEXT PHRASE`: whether the words of the phrase stand in the text in a row
//! - `word-from TEXT AT`: the place of the first word of ASCII from a boundary on
//! - `part TEXT`: where its first part ends
//! - `lower TEXT ..`, `fold TEXT ..`: texts in small letters, or folded, each put in place of the
//!   one before
//! - `read TEXT`: what is wrong with a query, and where; then the query, with a bracket around each
//!   operator and what it is applied to, and how many terms it has, or what is wrong with it
//! - `plan TEXT XS`: the words of a query, and behind a bar its plan, where these words have those
//!   frequencies: an intersection in brackets, a union in braces, a difference in round brackets,
//!   all as `*`, and a phrase behind what is asked for it and a colon
//! - `index STEP ..`: the numbers that a new index has by `list:WORD`, and the words by `terms`;
//!   where a document comes by `add:N:TEXT`, and is live until `remove:N`, or comes by
//!   `lose:N:TEXT`, and is not; and all leave by `clear`
//!
//! A text, a word, a phrase and a query are written as their bytes, and told so; where bytes are no
//! UTF-8, the answer is `no text`.
//!
//! A source whose call behind `PASSES` others is made fails then, once. Below the answers of such
//! a line stands how often it was asked, and how often it failed.
#![tactic(auto)]

mod bodies;
mod dictionaries;
mod disks;
mod failing;
mod index;
mod layers;
mod lists;
mod merges;
mod numbers;
mod queries;
mod segments;
mod texts;
mod told;
mod tried;
mod words;

use layers::Layers;
use std::io;
use std::io::{BufRead, BufReader, Write};
use std::process::ExitCode;
use told::MEMORY;

/// The lines could not be read, or there was no memory for them.
const STOPPED: u8 = 2;

fn main(rt: HostRuntime) -> ExitCode {
    match answer_all(&rt) {
        Ok(()) => ExitCode::SUCCESS,
        Err(_) => ExitCode::from(STOPPED),
    }
}

/// Answers a line, a second time where it was refused memory.
fn answer_line<W: Write>(layers: &mut Layers, line: &str, output: &mut W) -> io::Result<()> {
    let told = layers.answer(line)?;
    writeln!(output, "{told}")?;
    if told.as_str() == MEMORY.0 {
        let again = layers.answer(line)?;
        writeln!(output, "{again}")?;
    }
    Ok(())
}

/// Answers what standard input has.
fn answer_all(rt: &HostRuntime) -> io::Result<()> {
    let mut layers = Layers::new(rt.alloc());
    let mut output = rt.stdout();
    for line in BufReader::new(rt.alloc(), rt.reader())?.lines(rt.alloc()) {
        answer_line(&mut layers, line?.as_str(), &mut output)?;
    }
    Ok(())
}
