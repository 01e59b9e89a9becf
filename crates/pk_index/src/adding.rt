//! The words of a text, each put into the table.

ghost use Rattle.std.specs.Prelude.{IsAscii, OnOk, OnErr};
ghost use Rattle.pk_index.specs.Lists.{Adds, AddsSome, IsBelow, Notes, NotesSome};
ghost use Rattle.pk_model.specs.Words.{words_of};

use crate::lists::Lists;
use pk_pieces::{fold_into, lower_into, next_word, part_end};
use std::alloc::{AllocError, Global};
use unicode_segmentation::UnicodeSegmentation;

/// Puts a number, which is above all others, behind the list of each word of a text. Where memory
/// is refused, some words have it and some have not.
pub fn add_words(
    alloc: Global,
    lists: &mut Lists,
    piece: &mut String,
    text: &str,
    number: u32,
) -> Result<(), AllocError>
    requires { IsBelow number lists.old }
    ensures ok { OnOk result (Adds (words_of text.now) number lists.old lists.new) }
    ensures err { OnErr result (AddsSome number lists.old lists.new) }
{
    if text.is_ascii() {
        return note_ascii(alloc, lists, piece, text, number);
    }
    note_parts(alloc, lists, piece, text, number)
}

/// Puts a number behind the list of each word of a text, part by part: only parts with other
/// characters than those of ASCII are cut by the rules for all.
fn note_parts(
    alloc: Global,
    lists: &mut Lists,
    piece: &mut String,
    text: &str,
    number: u32,
) -> Result<(), AllocError>
    ensures ok { OnOk result (Notes (words_of text.now) number lists.old lists.new) }
    ensures err { OnErr result (NotesSome number lists.old lists.new) }
{
    let mut at = 0;
    'parts: while at < text.len() {
        let end = part_end(text, at);
        note_part(alloc, lists, piece, &text[at..end], number)?;
        at = end;
    }
    Ok(())
}

/// Puts a number behind the list of each word of a part.
fn note_part(
    alloc: Global,
    lists: &mut Lists,
    piece: &mut String,
    part: &str,
    number: u32,
) -> Result<(), AllocError>
    ensures ok { OnOk result (Notes (words_of part.now) number lists.old lists.new) }
    ensures err { OnErr result (NotesSome number lists.old lists.new) }
{
    if part.is_ascii() {
        return note_ascii(alloc, lists, piece, part, number);
    }
    note_others(alloc, lists, piece, part, number)
}

/// Puts a number behind the list of each word of ASCII. The text is folded at once, and each word,
/// folded, is a slice of that.
fn note_ascii(
    alloc: Global,
    lists: &mut Lists,
    piece: &mut String,
    text: &str,
    number: u32,
) -> Result<(), AllocError>
    requires { IsAscii text.now }
    ensures ok { OnOk result (Notes (words_of text.now) number lists.old lists.new) }
    ensures err { OnErr result (NotesSome number lists.old lists.new) }
{
    lower_into(piece, text)?;
    let folded = piece.as_str();
    let bytes = text.as_bytes();
    let mut at = 0;
    'words: while let Some((start, end)) = next_word(bytes, at) {
        lists.note(alloc, &folded[start..end], number)?;
        at = end;
    }
    Ok(())
}

/// Puts a number behind the list of each word of any text.
fn note_others(
    alloc: Global,
    lists: &mut Lists,
    piece: &mut String,
    text: &str,
    number: u32,
) -> Result<(), AllocError>
    ensures ok { OnOk result (Notes (words_of text.now) number lists.old lists.new) }
    ensures err { OnErr result (NotesSome number lists.old lists.new) }
{
    'words: for word in text.unicode_words() {
        fold_into(piece, word)?;
        lists.note(alloc, piece.as_str(), number)?;
    }
    Ok(())
}
