//! Words and parts of texts, and pieces in small letters.

use crate::told::{Fault, Told};
use crate::words::{Words, text_of};
use pk_pieces::{fold_into, lower_into, next_word, part_end};
use pk_words::{WordSet, has_row, row_table, word_list};
use std::alloc::{AllocError, Global};

/// The words of a text in its order.
fn tell_list(alloc: Global, text: &str, told: &mut Told) -> Result<(), AllocError> {
    for word in word_list(alloc, text)? {
        told.bytes(word.as_bytes());
    }
    Ok(())
}

/// The words of a set in its order, or that it is empty.
fn tell_set(set: &WordSet, told: &mut Told) {
    if set.is_empty() {
        told.word("empty");
    }
    for place in 0..set.len() {
        told.bytes(set.get(place).as_bytes());
    }
}

/// Whether a set has each of some words.
fn tell_had(set: &WordSet, words: Words<'_>, told: &mut Told) -> Result<(), Fault> {
    for word in words.each() {
        told.truth(set.contains(text_of(words.alloc(), word)?.as_str()));
    }
    Ok(())
}

/// The words of a text in its order and as a set, and whether the set has each of some.
pub(crate) fn tell_words(words: &mut Words<'_>, told: &mut Told) -> Result<(), Fault> {
    let text = words.text()?;
    tell_list(words.alloc(), &text, told)?;
    told.word("|");
    let set = pk_words::words(words.alloc(), &text)?;
    tell_set(&set, told);
    told.word("|");
    tell_had(&set, *words, told)
}

/// The words of a list as a row.
fn row_of(alloc: Global, words: &[String]) -> Result<Vec<&str>, AllocError> {
    let mut row = Vec::new(alloc);
    for word in words {
        row.push(word.as_str())?;
    }
    Ok(row)
}

/// Whether a text has the row.
fn is_in(alloc: Global, text: &str, row: &[&str]) -> Result<bool, AllocError> {
    let table = row_table(alloc, row)?;
    has_row(row, &table, &mut String::new(alloc), text)
}

/// Whether the words of a phrase stand in a text in a row.
fn stands(alloc: Global, text: &str, phrase: &str) -> Result<bool, AllocError> {
    let words = word_list(alloc, phrase)?;
    is_in(alloc, text, &row_of(alloc, &words)?)
}

/// The same of a text and a phrase that are written.
pub(crate) fn tell_in_row(words: &mut Words<'_>, told: &mut Told) -> Result<(), Fault> {
    let text = words.text()?;
    let phrase = words.text()?;
    told.truth(stands(words.alloc(), &text, &phrase)?);
    Ok(())
}

/// The place of the first word of a text of ASCII from a boundary on.
pub(crate) fn tell_place(words: &mut Words<'_>, told: &mut Told) -> Result<(), Fault> {
    let text = words.text()?;
    let from = words.number() as usize;
    if !text.is_ascii() || from > text.len() {
        return Err(Fault("no place"));
    }
    let Some((start, end)) = next_word(text.as_bytes(), from) else {
        told.word("-");
        return Ok(());
    };
    told.number(start as u64);
    told.number(end as u64);
    Ok(())
}

/// Where the first part of a text ends; nowhere in one without bytes.
fn first_end(text: &str) -> Option<usize> {
    if text.is_empty() {
        return None;
    }
    Some(part_end(text, 0))
}

/// The same of a text that is written.
pub(crate) fn tell_part(words: &mut Words<'_>, told: &mut Told) -> Result<(), Fault> {
    match first_end(words.text()?.as_str()) {
        Some(end) => told.number(end as u64),
        None => told.word("-"),
    }
    Ok(())
}

/// Puts a text in small letters, or folded, in place of another.
fn put_folded(string: &mut String, name: &str, text: &str) -> Result<(), AllocError> {
    match name {
        "lower" => lower_into(string, text),
        _ => fold_into(string, text),
    }
}

/// Texts in small letters, or folded, each put in place of the one before.
pub(crate) fn tell_folded(name: &str, words: &mut Words<'_>, told: &mut Told) -> Result<(), Fault> {
    let mut string = String::from_str(words.alloc(), "before")?;
    for word in words.each() {
        put_folded(&mut string, name, text_of(words.alloc(), word)?.as_str())?;
        told.bytes(string.as_bytes());
    }
    Ok(())
}
