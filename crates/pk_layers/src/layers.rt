//! What is asked of the layers, line by line.

use crate::dictionaries::{tell_in, tell_looked_up, tell_prefix, tell_windows, tell_written};
use crate::disks::Disks;
use crate::index::tell_index;
use crate::lists::{
    tell_blocks, tell_dead, tell_decoded, tell_encoded, tell_lent, tell_put_into, tell_read,
    tell_shape, tell_skip, tell_walk,
};
use crate::merges::tell_chosen;
use crate::numbers::{
    tell_around, tell_ascending, tell_differences, tell_digits, tell_kept, tell_key, tell_packed,
    tell_put, tell_restored, tell_rising, tell_sets, tell_sums, tell_taken, tell_unpacked,
    tell_width,
};
use crate::queries::{tell_parsed, tell_plan};
use crate::segments::tell_built;
use crate::texts::{tell_folded, tell_in_row, tell_part, tell_place, tell_words};
use crate::told::{Fault, Told};
use crate::words::Words;
use std::alloc::{AllocError, Global};

/// The bytes that lines are about, the pivots of searches, and a disk.
#[derive(Drop)]
pub struct Layers {
    alloc: Global,
    source: Vec<u8>,
    other: Vec<u8>,
    pivots: Vec<u64>,
    disks: Disks,
}

impl Layers {
    /// One without bytes.
    pub(crate) fn new(alloc: Global) -> Layers {
        Layers {
            alloc,
            source: Vec::new(alloc),
            other: Vec::new(alloc),
            pivots: Vec::new(alloc),
            disks: Disks::new(alloc),
        }
    }

    /// What a line is answered.
    pub(crate) fn answer(&mut self, line: &str) -> Result<String, AllocError> {
        let mut words = Words::of(self.alloc, line);
        let mut told = Told::new(self.alloc);
        let name = words.next();
        let told = match self.tell(name, &mut words, &mut told) {
            Ok(()) => told.into_text(),
            Err(fault) => Err(fault),
        };
        match told {
            Ok(text) => Ok(text),
            Err(Fault(word)) => String::from_str(self.alloc, word),
        }
    }

    /// Tells what is asked by a name.
    fn tell(&mut self, name: &str, words: &mut Words<'_>, told: &mut Told) -> Result<(), Fault> {
        let is_told = self.take(name, words)?
            || self.read(name, words, told)?
            || tell_list(self.alloc, name, words, told)?
            || tell_number(name, words, told)?
            || tell_text(name, words, told)?;
        if !is_told {
            self.disks.tell(name, words, told)?;
        }
        Ok(())
    }

    /// Takes what later lines are about, where that is asked.
    fn take(&mut self, name: &str, words: &mut Words<'_>) -> Result<bool, Fault> {
        match name {
            "source" => self.source = words.bytes()?,
            "other" => self.other = words.bytes()?,
            "pivots" => self.pivots = words.longs()?,
            _ => return Ok(false),
        }
        Ok(true)
    }

    /// Reads what was taken, where that is asked.
    fn read(&mut self, name: &str, words: &mut Words<'_>, told: &mut Told) -> Result<bool, Fault> {
        let source = &self.source;
        let answer = match name {
            "walk" => tell_walk(source, words, told),
            "blocks" => tell_blocks(self.alloc, source, &self.other, words, told),
            "look" => tell_looked_up(self.alloc, source, words, told),
            "prefix" => tell_prefix(self.alloc, source, words, told),
            "window" => tell_windows(source, words, told),
            "look-in"
            | "near-in"
            | "prefix-in"
            | "passed-in"
            | "look-windows"
            | "near-windows"
            | "prefix-windows" => tell_in(name, source, &mut self.pivots, words, told),
            _ => return Ok(false),
        };
        answer?;
        Ok(true)
    }
}

/// Tells what is asked of lists, sets, a dictionary or a segment that is built, if the name is of
/// one of these.
fn tell_list(
    alloc: Global,
    name: &str,
    words: &mut Words<'_>,
    told: &mut Told,
) -> Result<bool, Fault> {
    let answer = match name {
        "encode" => tell_encoded(alloc, words, told),
        "into" => tell_put_into(alloc, words, told),
        "decode" => tell_decoded(alloc, words, told),
        "shape" => tell_shape(words, told),
        "skip" => tell_skip(words, told),
        "lend" => tell_lent(words, told),
        "dead" => tell_dead(alloc, words, told),
        "alive" => tell_read(alloc, words, told),
        "sets" => tell_sets(alloc, words, told),
        "build" => tell_built(alloc, words, told),
        "choose" => tell_chosen(words, told),
        "dict" => tell_written(alloc, words, told),
        _ => return Ok(false),
    };
    answer?;
    Ok(true)
}

/// The same of a number, a key or a block.
fn tell_number(name: &str, words: &mut Words<'_>, told: &mut Told) -> Result<bool, Fault> {
    let answer = match name {
        "put" => tell_put(words, told),
        "take" => tell_taken(words, told),
        "digits" => tell_digits(words, told),
        "key" => tell_key(words, told),
        "around" => tell_around(words, told),
        "keep" => tell_kept(words, told),
        "width" => tell_width(words, told),
        "pack" => tell_packed(words, told),
        "unpack" => tell_unpacked(words, told),
        "sums" => tell_sums(words, told),
        "differ" => tell_differences(words, told),
        "restore" => tell_restored(words, told),
        "ascending" => tell_ascending(words, told),
        "rising" => tell_rising(words, told),
        _ => return Ok(false),
    };
    answer?;
    Ok(true)
}

/// The same of texts, queries and an index.
fn tell_text(name: &str, words: &mut Words<'_>, told: &mut Told) -> Result<bool, Fault> {
    let answer = match name {
        "words" => tell_words(words, told),
        "in-row" => tell_in_row(words, told),
        "word-from" => tell_place(words, told),
        "part" => tell_part(words, told),
        "lower" | "fold" => tell_folded(name, words, told),
        "read" => tell_parsed(words, told),
        "plan" => tell_plan(words, told),
        "index" => tell_index(*words, told),
        _ => return Ok(false),
    };
    answer?;
    Ok(true)
}
