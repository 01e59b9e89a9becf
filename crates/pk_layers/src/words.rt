//! The words of a line, and what they write.

use crate::told::Fault;
use std::alloc::{AllocError, Global};

/// The words of a line that are left.
#[derive(Clone, Copy)]
pub struct Words<'a> {
    alloc: Global,
    rest: &'a str,
}

/// A number, or 0 where none is written.
pub(crate) fn number(word: &str) -> u32 {
    word.parse::<u32>().unwrap_or(0)
}

/// What stands before and behind the first colon.
pub(crate) fn halves(word: &str) -> (&str, &str) {
    word.split_once(":").unwrap_or((word, ""))
}

/// The value of a hexadecimal digit.
fn digit(byte: u8) -> u8 {
    match byte {
        b'0'..=b'9' => byte - b'0',
        b'A'..=b'F' => byte - b'A' + 10,
        _ => 0,
    }
}

/// Bytes by pairs of hexadecimal digits.
pub(crate) fn bytes_of(alloc: Global, word: &str) -> Result<Vec<u8>, AllocError> {
    let mut bytes = Vec::with_capacity(alloc, word.len() / 2)?;
    let mut high = None;
    for byte in word.bytes() {
        match high {
            None => high = Some(digit(byte)),
            Some(value) => {
                bytes.push(value.wrapping_mul(16).wrapping_add(digit(byte)))?;
                high = None;
            }
        }
    }
    Ok(bytes)
}

/// The text whose bytes are written so.
pub(crate) fn text_of(alloc: Global, word: &str) -> Result<String, Fault> {
    match String::from_utf8(bytes_of(alloc, word)?) {
        Ok(text) => Ok(text),
        Err(_) => Err(Fault("no text")),
    }
}

impl<'a> Words<'a> {
    /// Those of a line.
    pub(crate) fn of(alloc: Global, line: &'a str) -> Words<'a> {
        Words { alloc, rest: line }
    }

    /// The next one; an empty one behind the last.
    pub(crate) fn next(&mut self) -> &'a str {
        let (word, rest) = self.rest.split_once(" ").unwrap_or((self.rest, ""));
        self.rest = rest;
        word
    }

    /// What a line takes memory from.
    pub(crate) fn alloc(&self) -> Global {
        self.alloc
    }

    /// The bytes that one of them writes.
    pub(crate) fn bytes_of(&self, word: &str) -> Result<Vec<u8>, AllocError> {
        bytes_of(self.alloc, word)
    }

    /// The number that the next one writes.
    pub(crate) fn number(&mut self) -> u32 {
        number(self.next())
    }

    /// The same of one that may be longer.
    pub(crate) fn long(&mut self) -> u64 {
        self.next().parse::<u64>().unwrap_or(0)
    }

    /// The bytes that it writes.
    pub(crate) fn bytes(&mut self) -> Result<Vec<u8>, AllocError> {
        bytes_of(self.alloc, self.next())
    }

    /// The text whose bytes it writes.
    pub(crate) fn text(&mut self) -> Result<String, Fault> {
        text_of(self.alloc, self.next())
    }

    /// The numbers that it writes.
    pub(crate) fn numbers(&mut self) -> Result<Vec<u32>, AllocError> {
        let mut numbers = Vec::new(self.alloc);
        for word in self.next().split(',') {
            if let Ok(number) = word.parse::<u32>() {
                numbers.push(number)?;
            }
        }
        Ok(numbers)
    }

    /// The same of numbers that may be longer.
    pub(crate) fn longs(&mut self) -> Result<Vec<u64>, AllocError> {
        let mut numbers = Vec::new(self.alloc);
        for word in self.next().split(',') {
            if let Ok(number) = word.parse::<u64>() {
                numbers.push(number)?;
            }
        }
        Ok(numbers)
    }

    /// All that are left.
    pub(crate) fn each(self) -> std::str::SplitWhitespace<'a> {
        self.rest.split_whitespace()
    }
}
