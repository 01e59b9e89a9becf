//! The index of a segment of kind 2, made word by word.

ghost use Rattle.std.specs.Prelude.{
  ◌≡◌,
  ◌≤◌,
  ◌+◌,
  ◌*◌,
  ◌++◌,
  ◌∷◌,
  [],
  ℕ,
  List,
  length,
  IfErr,
  IfOk,
  OnOk,
};
ghost use Rattle.std.specs.Option.{ForSome};
ghost use Rattle.pk_model.specs.Limits.{max_segment_bytes};
ghost use Rattle.pk_dict.specs.Writer.{HasAdded};
ghost use Rattle.pk_model.specs.Collection.{Doc};
ghost use Rattle.pk_model.specs.Terms.{terms_of};
ghost use Rattle.pk_posting.specs.Posting.{IsPosting};
ghost use Rattle.pk_posting.specs.Spelling.{spelling as list_spelling};
ghost use Rattle.pk_segment.specs.Indexed.{dictionary, items_of, list_with};
ghost use Rattle.pk_segment.specs.Spelling.{segment_length};

use crate::building::BuildFault;
use crate::directory::ENTRY_BYTES;
use crate::header::{HEADER_BYTES, Header};
use crate::kind::INDEXED;
use pk_dict::DictWriter;
use pk_model::limits::MAX_SEGMENT_BYTES;
use pk_posting::{ListPlace, encode_into, length_of};
use std::alloc::{AllocError, Global};

/// The index of a segment of kind 2, made word by word: the dictionary, how many bytes the posting
/// lists have, and the lists themselves as long as all of them have at most so many. Once they have
/// more, or where memory for them is refused, they are let go, and only their lengths count on.
#[derive(Drop)]
pub struct IndexWriter {
    dictionary: DictWriter,
    // The posting lists, end to end, unless they were let go.
    lists: Option<Vec<u8>>,
    // The most bytes that are kept of them.
    most_kept: u32,
    // How many bytes all of them have,
    postings: u32,
    // and how many the longest.
    longest_list: u32,
    // How many words there are.
    terms: u32,
    ghost short: { postings ≤ max_segment_bytes },
    ghost few: { ForSome lists (λ v. length v.items ≤ most_kept) },
}

// Puts a posting list of so many bytes behind others. None where all together have more than the
// most, or where memory was refused.
fn with_list(lists: Option<Vec<u8>>, list: &[u32], bytes: u32, most: u32) -> Option<Vec<u8>>
    requires posting { IsPosting list.now }
    requires bytes { bytes ≡ length (list_spelling list.now) }
    ensures lists { (before : List ℕ) → ForSome lists (λ v. v.items ≡ before)
        → ForSome result (λ v. v.items ≡ before ++ list_spelling list.now) }
    ensures few { ForSome result (λ v. length v.items ≤ most) }
{
    let Some(mut lists) = lists else {
        return None;
    };
    let at = lists.len();
    let end = at + bytes as usize;
    if end > most as usize {
        return None;
    }
    let Ok(()) = lists.resize(end, 0) else {
        return None;
    };
    encode_into(list, &mut lists[at..]);
    Some(lists)
}

impl IndexWriter {
    ghost use Rattle.pk_segment.specs.Planning.{AddsAs, HasEntries, HasWords, HeadedAs, size_in};

    /// An index without a word, whose lists are kept as long as they have at most so many bytes. It
    /// takes no memory.
    pub fn new(alloc: Global, most_kept: u32) -> IndexWriter
        ensures words { (docs : List Doc) → HasWords result [] docs }
        ensures entries { HasEntries result }
        ensures most_kept { result.most_kept ≡ most_kept }
    {
        IndexWriter {
            dictionary: DictWriter::new(alloc),
            lists: Some(Vec::new(alloc)),
            most_kept,
            postings: 0,
            longest_list: 0,
            terms: 0,
        }
    }

    /// Adds a word, which is greater than those before, with its list.
    ///
    /// Answers `TooLarge` where the segment would be too long, or `Memory`.
    pub fn add(&mut self, word: &[u8], list: &[u32]) -> Result<(), BuildFault>
        requires posting { IsPosting list.now }
        requires entries { HasEntries self.old }
        ensures words { (docs : List Doc) (before after : List (List ℕ))
            → terms_of docs ≡ before ++ (word.now ∷ after)
            → list.now ≡ list_with word.now docs → HasWords self.old before docs
            → AddsAs docs (before ++ word.now ∷ []) self.new result }
        ensures entries { OnOk result (HasEntries self.new) }
        ensures most_kept { self.new.most_kept ≡ self.old.most_kept }
    {
        let bytes = length_of(list);
        if bytes > MAX_SEGMENT_BYTES - self.postings {
            return Err(BuildFault::TooLarge);
        }
        let place = ListPlace {
            at: self.postings,
            bytes,
        };
        let count = list.len() as u32;
        if !self.dictionary.may_add(word, count, place) {
            return Err(BuildFault::TooLarge);
        }
        self.dictionary.add(word, count, place)?;
        self.lists = with_list(self.lists.take(), list, bytes, self.most_kept);
        self.postings += bytes;
        self.longest_list = self.longest_list.max(bytes);
        self.terms = self.terms.saturating_add(1);
        Ok(())
    }

    /// The header of the segment of so many documents, whose header, directory and texts have so
    /// many bytes.
    ///
    /// Answers `TooLarge` where the segment would be too long.
    pub fn header(&self, count: u32, front: u32) -> Result<Header, BuildFault>
        requires front { 24 + 12 * count ≤ front }
        requires entries { HasEntries self.now }
        ensures header { (docs : List Doc) → HasWords self.now (terms_of docs) docs
            → count ≡ length docs → front ≡ segment_length docs 1 → HeadedAs docs result }
        ensures sized { IfOk result (λ h. (front ≤ size_in h) × (size_in h ≤ max_segment_bytes)) }
        ensures cause { IfErr result (λ f. f ≡ BuildFault.TooLarge) }
    {
        let words = self.dictionary.size();
        let size = u64::from(front) + u64::from(self.postings) + words as u64;
        if size > u64::from(MAX_SEGMENT_BYTES) {
            return Err(BuildFault::TooLarge);
        }
        Ok(Header {
            kind: INDEXED,
            count,
            texts: front - HEADER_BYTES - ENTRY_BYTES * count,
            postings: self.postings,
            dictionary: words as u32,
            terms: self.terms,
        })
    }

    /// How many bytes the longest list has.
    pub fn longest_list(&self) -> u32
        ensures { result ≡ self.now.longest_list }
    {
        self.longest_list
    }

    /// Takes the lists out, end to end; none where they were let go.
    pub fn take_lists(&mut self) -> Option<Vec<u8>>
        ensures lists { result ≡ self.old.lists }
        ensures dictionary { self.new.dictionary ≡ self.old.dictionary }
    {
        self.lists.take()
    }

    /// The dictionary of all that was added.
    pub fn finish(self, alloc: Global) -> Result<Vec<u8>, AllocError>
        ensures { (docs : List Doc) → HasAdded self.dictionary (items_of docs)
            → IfOk result (λ v. v.items ≡ dictionary docs) }
    {
        self.dictionary.finish(alloc)
    }
}
