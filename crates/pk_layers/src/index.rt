//! An index of words, which is asked with the live numbers.

use crate::told::{Fault, Told};
use crate::words::{Words, bytes_of, halves, number, text_of};
use pk_index::{Index, both_into};
use pk_sets::is_rising;
use std::alloc::{AllocError, Global};

/// What is asked with numbers that do not rise.
const NO_INDEX: Fault = Fault("no index");

/// An index, with the live numbers.
#[derive(Drop)]
struct Kept {
    alloc: Global,
    index: Index,
    live: Vec<u32>,
}

/// The live numbers of a list.
fn live_of(alloc: Global, live: &[u32], list: &[u32]) -> Result<Vec<u32>, AllocError> {
    let mut numbers = vec![in alloc; 0u32; live.len()]?;
    if is_rising(live) && is_rising(list) {
        let count = both_into(live, list, &mut numbers);
        numbers.truncate(count);
    }
    Ok(numbers)
}

impl Kept {
    /// One without a document.
    fn new(alloc: Global) -> Kept {
        Kept {
            alloc,
            index: Index::new(alloc),
            live: Vec::new(alloc),
        }
    }

    /// A document comes into the index.
    fn add(&mut self, number: u32, text: &str) -> Result<(), Fault> {
        let text = text_of(self.alloc, text)?;
        self.index.add(self.alloc, number, &text)?;
        Ok(())
    }

    /// A document comes, and is live.
    fn add_live(&mut self, number: u32, text: &str) -> Result<(), Fault> {
        self.add(number, text)?;
        self.live.push(number)?;
        Ok(())
    }

    /// All documents leave.
    fn clear(&mut self) {
        self.index.clear();
        self.live.clear();
    }

    /// Tells the words of the live documents.
    fn tell_terms(&self, told: &mut Told) -> Result<(), Fault> {
        if !is_rising(&self.live) {
            return Err(NO_INDEX);
        }
        for row in self.index.rows(self.alloc, &self.live)? {
            told.bytes(row.word.as_bytes());
        }
        Ok(())
    }

    /// Tells the live numbers of a word.
    fn tell_list(&self, word: &str, told: &mut Told) -> Result<(), Fault> {
        let word = bytes_of(self.alloc, word)?;
        let mut numbers = Vec::new(self.alloc);
        if !is_rising(&self.live) {
            return Err(NO_INDEX);
        }
        for row in self.index.rows(self.alloc, &self.live)? {
            if row.word.as_bytes() == word.as_slice() {
                numbers = live_of(self.alloc, &self.live, row.list)?;
            }
        }
        told.numbers(&numbers);
        Ok(())
    }

    /// Takes a step, and tells what it asks.
    fn take(&mut self, step: &str, told: &mut Told) -> Result<(), Fault> {
        let (name, rest) = halves(step);
        let (n, text) = halves(rest);
        match name {
            "add" => return self.add_live(number(n), text),
            "lose" => return self.add(number(n), text),
            "list" => return self.tell_list(rest, told),
            "terms" => return self.tell_terms(told),
            "remove" => self.live.retain(|live| *live != number(n)),
            _ => self.clear(),
        }
        Ok(())
    }
}

/// What steps ask of an index that begins without a document.
pub(crate) fn tell_index(words: Words<'_>, told: &mut Told) -> Result<(), Fault> {
    let mut kept = Kept::new(words.alloc());
    for step in words.each() {
        kept.take(step, told)?;
    }
    Ok(())
}
