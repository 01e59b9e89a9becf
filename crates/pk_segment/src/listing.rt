//! What a segment of kind 2 says of its words: the dictionary, and where the posting lists are.

ghost use Rattle.std.specs.Prelude.{◌≡◌, ◌≤◌, ◌+◌, ◌*◌, [], List, length, Ok, IfOk};
ghost use Rattle.pk_dict.specs.Entries.{items_from};
ghost use Rattle.pk_model.specs.Collection.{Doc};
ghost use Rattle.pk_posting.specs.Frames.{IsRead, ReadsSource};
ghost use Rattle.pk_posting.specs.Limits.{asks_for};
ghost use Rattle.pk_segment.specs.Listing.{HasPrefixAs, ListedAs, PlacedAs, TermsAs};
ghost use Rattle.pk_segment.specs.Opened.{IsSegmentOf};
ghost use Rattle.pk_segment.specs.Reading.{CountsReads};
ghost use Rattle.pk_segment.specs.Said.{dictionary_said, entries_said, lists_from};
ghost use Rattle.pk_segment.specs.Spelling.{IndexSpells};

use crate::header::header_of;
use crate::segment::Segment;
use pk_dict::{DictPlace, Entry, Windows, entries_in, look_up_near};
use pk_posting::{ByteSource, MOST_LENT, ReadFault, SourceFault};
use std::alloc::Global;

impl Segment {
    /// Where the dictionary of a segment of kind 2 lies, by the header.
    pub fn dictionary<S: ByteSource>(&self, source: &mut S) -> Result<DictPlace, SourceFault>
        ensures place { S.honest → (docs : List Doc) → IndexSpells (S.content source.old) docs
            → IsSegmentOf self.now docs → PlacedAs docs result }
        ensures said { S.honest → IfOk result
            (λ place. place ≡ dictionary_said (lists_from self.now) (S.content source.old)) }
        ensures left { IsRead S.ByteSource 1 result source.old source.new }
    {
        let header = header_of(source)?;
        let Some(at) = self.postings().checked_add(header.postings) else {
            return Err(SourceFault::Damaged);
        };
        Ok(DictPlace {
            at,
            bytes: header.dictionary,
            terms: header.terms,
        })
    }

    /// The entry of a word in the dictionary of a segment of kind 2: in how many of its documents
    /// the word is, and where its posting list lies, counted from `postings`. `None` where none of
    /// them has the word. It reads short stretches of the header and the dictionary, whatever the
    /// texts are, and takes no memory.
    pub fn list_of<S: ByteSource>(
        &self,
        _alloc: Global,
        source: &mut S,
        word: &[u8],
    ) -> Result<Option<Entry>, ReadFault>
        ensures listed { S.honest → (docs : List Doc) → IndexSpells (S.content source.old) docs
            → IsSegmentOf self.now docs → ListedAs docs word.now result }
        ensures left { ReadsSource S.ByteSource CountsReads result source.old source.new }
        ensures asked { S.asked source.new
            ≤ S.asked source.old + 1 + 44 * (6 + asks_for (length word.now)) }
    {
        let place = self.dictionary(source)?;
        let mut long = [0; MOST_LENT];
        let mut windows = Windows::on(source, place, &mut long);
        let entry = look_up_near(&mut windows, place, &mut [], word)?;
        Ok(entry)
    }

    /// All words of a segment of kind 2, rising by their bytes, each with its entry. It reads the
    /// header and the dictionary, whatever the texts are. What it answers is all that their bytes
    /// say, also where they are those of no segment.
    pub fn terms<S: ByteSource>(
        &self,
        alloc: Global,
        source: &mut S,
    ) -> Result<Vec<(Vec<u8>, Entry)>, ReadFault>
        ensures terms { S.honest → (docs : List Doc) → IndexSpells (S.content source.old) docs
            → IsSegmentOf self.now docs → TermsAs docs result }
        ensures said { S.honest → IfOk result (λ terms. entries_said (lists_from self.now)
            (S.content source.old) [] ≡ Ok (items_from terms.items)) }
        ensures left { ReadsSource S.ByteSource CountsReads result source.old source.new }
    {
        self.entries_of(alloc, source, &[])
    }

    /// The words of a segment of kind 2 that begin with a prefix, rising by their bytes, each with
    /// its entry. It reads the header, and of the dictionary where these words stand, whatever the
    /// texts are.
    pub fn entries_of<S: ByteSource>(
        &self,
        alloc: Global,
        source: &mut S,
        prefix: &[u8],
    ) -> Result<Vec<(Vec<u8>, Entry)>, ReadFault>
        ensures entries { S.honest → (docs : List Doc) → IndexSpells (S.content source.old) docs
            → IsSegmentOf self.now docs → HasPrefixAs docs prefix.now result }
        ensures said { S.honest → IfOk result (λ entries. entries_said (lists_from self.now)
            (S.content source.old) prefix.now ≡ Ok (items_from entries.items)) }
        ensures left { ReadsSource S.ByteSource CountsReads result source.old source.new }
    {
        let place = self.dictionary(source)?;
        let mut long = [0; MOST_LENT];
        let mut windows = Windows::on(source, place, &mut long);
        let entries = entries_in(alloc, &mut windows, place, prefix)?;
        Ok(entries)
    }
}
