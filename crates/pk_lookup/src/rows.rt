//! The entries of a query's words in the dictionaries of all segments, in one table.
ghost use Rattle.std.specs.Prelude.{◌≡◌, ◌<◌, ◌*◌, length};
ghost use Rattle.pk_lookup.specs.Rows.{row_of};

use pk_dict::Entry;

/// For each segment a row: the entry of each of so many words in its dictionary, none where it does
/// not have the word, or is of kind 1.
#[derive(Clone, Copy)]
pub struct EntryTable<'a> {
    pub entries: &'a [Option<Entry>],
    pub words: usize,
    pub segments: usize,
    ghost full: { length entries.now ≡ segments * words },
}

impl<'a> EntryTable<'a> {
    /// The row of the `i`th segment, the first being 0.
    pub fn row(&self, i: usize) -> &'a [Option<Entry>]
        requires { i < self.now.segments }
        ensures { result.now ≡ row_of self.now.words i self.now.entries.now }
    {
        let from = i * self.words;
        &self.entries[from..from + self.words]
    }
}
