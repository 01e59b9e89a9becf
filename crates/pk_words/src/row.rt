//! Whether words stand in a text in a row, by a table of the row (Knuth, Morris, Pratt 1977).

ghost use Rattle.std.specs.Prelude.{◌≡◌, ◌+◌, ◌<◌, ◌≤◌, ◌∷◌, [], length, IfOk, IsAscii};
ghost use Rattle.pk_model.specs.Tree.{stand_in};
ghost use Rattle.pk_model.specs.Words.{words_of};
ghost use Rattle.pk_words.specs.Rows.{
  AreShorter,
  Continues,
  IsShorter,
  IsTable,
  texts,
};

use crate::sought::{SoughtRow, skip};
use pk_pieces::{ascii_part_end, fold_into, lower_into, next_word};
use std::alloc::{AllocError, Global};
use unicode_segmentation::UnicodeSegmentation;

/// The table of a row of words: for each place how many words of the row are begun by those before
/// it, without the first of them. Where the word at the place is not the next one of a text, so
/// many are begun still. It is all the memory that a search takes, but for a part of the text.
pub fn row_table(alloc: Global, row: &[&str]) -> Result<Vec<usize>, AllocError>
    ensures { IfOk result (λ table. IsTable (texts row.now) table.items) }
{
    let mut table = Vec::with_capacity(alloc, row.len())?;
    let mut begun = 0;
    'places: for place in 0..row.len() {
        table.push(begun)?;
        begun = next_shorter(row, &table, place, begun);
    }
    Ok(table)
}

/// What the table has for the place behind this one, by what it has up to this one.
fn next_shorter(row: &[&str], table: &[usize], place: usize, begun: usize) -> usize
    requires within { place < length row.now }
    requires len { length table.now ≡ place + 1 }
    requires shorter { IsShorter (texts row.now) place begun }
    requires table { AreShorter (texts row.now) table.now }
    ensures { IsShorter (texts row.now) (place + 1) result }
{
    if place == 0 {
        return 0;
    }
    after(row, table, begun, row[place])
}

/// How many words of the row are begun after one more word. Each turn gives up words that are
/// begun, and each word begins one at most: so all words of a text together take at most as many
/// turns as they are.
fn after(row: &[&str], table: &[usize], begun: usize, word: &str) -> usize
    requires within { begun < length row.now }
    requires some { begun < length table.now }
    requires table { AreShorter (texts row.now) table.now }
    ensures more { result ≤ begun + 1 }
    ensures continues { Continues (texts row.now) begun (word.now ∷ []) result }
{
    let mut left = begun;
    'shorter: while row[left] != word {
        if left == 0 {
            return 0;
        }
        left = table[left];
    }
    left + 1
}

/// Whether the words stand in the text's folded words in a row; where there is no word, they do. No
/// text is cut further than through the part in which the row ends. The table is that of
/// [`row_table`]; `piece` is overwritten, and holds a word of the text at most.
pub fn has_row(
    row: &[&str],
    table: &[usize],
    piece: &mut String,
    text: &str,
) -> Result<bool, AllocError>
    requires { IsTable (texts row.now) table.now }
    ensures { IfOk result (λ found. found ≡ stand_in (texts row.now) (words_of text.now)) }
{
    let sought = SoughtRow {
        words: row,
        table,
        rarest: 0,
    };
    has_row_by(&sought, piece, text)
}

/// The same, by the rarest of the words: of a text in which it is rare, little is cut.
pub fn has_row_by(sought: &SoughtRow, piece: &mut String, text: &str) -> Result<bool, AllocError>
    ensures { IfOk result (λ found. found
        ≡ stand_in (texts sought.now.words.now) (words_of text.now)) }
{
    if sought.words.is_empty() {
        return Ok(true);
    }
    let mut begun = 0;
    let mut at = 0;
    'parts: while at < text.len() {
        let end = ascii_part_end(text, at);
        begun = after_part(sought, piece, begun, &text[at..end])?;
        if begun == sought.words.len() {
            return Ok(true);
        }
        at = end;
    }
    Ok(false)
}

/// How many words of the row are begun after a part of a text: all, where it ends there. If it is not
/// in ASCII, word follows word.
fn after_part(
    sought: &SoughtRow,
    piece: &mut String,
    begun: usize,
    part: &str,
) -> Result<usize, AllocError>
    requires { begun < length sought.now.words.now }
    ensures within { IfOk result (λ left. left ≤ length sought.now.words.now) }
    ensures continues { IfOk result (λ left.
        Continues (texts sought.now.words.now) begun (words_of part.now) left) }
{
    if part.is_ascii() {
        return after_ascii(sought, piece, begun, part);
    }
    let mut left = begun;
    'words: for word in part.unicode_words() {
        fold_into(piece, word)?;
        left = after(sought.words, sought.table, left, piece.as_str());
        if left == sought.words.len() {
            return Ok(left);
        }
    }
    Ok(left)
}

/// The same of a part in ASCII. Where no word of the row is begun, only those are looked at that
/// may be its first.
fn after_ascii(
    sought: &SoughtRow,
    piece: &mut String,
    begun: usize,
    part: &str,
) -> Result<usize, AllocError>
    requires ascii { IsAscii part.now }
    requires within { begun < length sought.now.words.now }
    ensures within { IfOk result (λ left. left ≤ length sought.now.words.now) }
    ensures continues { IfOk result (λ left.
        Continues (texts sought.now.words.now) begun (words_of part.now) left) }
{
    let bytes = part.as_bytes();
    let mut left = begun;
    let (mut at, mut next) = skip(sought, bytes, begun, 0, 0);
    'words: while let Some((start, end)) = next_word(bytes, at) {
        lower_into(piece, &part[start..end])?;
        left = after(sought.words, sought.table, left, piece.as_str());
        if left == sought.words.len() {
            return Ok(left);
        }
        (at, next) = skip(sought, bytes, left, end, next);
    }
    Ok(left)
}
