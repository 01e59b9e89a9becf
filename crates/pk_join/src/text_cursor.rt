//! A cursor over the words of texts: its words one by one, each with its list.

ghost use Rattle.std.specs.Prelude.{◌≡◌, ◌≤◌, ◌+◌, length, true, false};

use crate::text_lists::TextLists;

/// A place among the words of texts.
#[derive(Drop)]
pub struct TextCursor {
    // The words, with their lists.
    pub(crate) texts: TextLists,
    // How many of them it has come to.
    pub(crate) read: usize,
    ghost order: { read ≤ length texts.words.items },
}

impl TextCursor {
    ghost use Rattle.pk_join.specs.Counted.{ComesOn};
    ghost use Rattle.pk_join.specs.Listed.{text_at, text_words};

    /// A cursor before the first word.
    pub(crate) fn open(texts: TextLists) -> TextCursor
        ensures texts { result.texts ≡ texts }
        ensures first { result.read ≡ 0 }
    {
        TextCursor { texts, read: 0 }
    }

    /// Goes back before the first word.
    pub(crate) fn rewind(&mut self)
        ensures texts { self.new.texts ≡ self.old.texts }
        ensures first { self.new.read ≡ 0 }
    {
        self.read = 0;
    }

    /// The word that it came to last; no bytes before the first.
    pub(crate) fn word(&self) -> &[u8]
        ensures { result.now ≡ text_at self.now }
    {
        if self.read == 0 {
            return &[];
        }
        self.texts.words[self.read - 1].as_bytes()
    }

    /// Goes to the next word, and says whether there was one.
    pub(crate) fn next(&mut self) -> bool
        ensures texts { self.new.texts ≡ self.old.texts }
        ensures goes { ComesOn self.old.read self.new.read (length (text_words self.old.texts)) result }
    {
        if self.read == self.texts.words.len() {
            return false;
        }
        self.read += 1;
        true
    }
}
