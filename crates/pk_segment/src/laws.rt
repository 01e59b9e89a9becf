//! What holds of the bytes of any segment.

ghost use Rattle.std.specs.Prelude.{◌≡◌, ◌≤◌, ◌+◌, ℕ, List, length, take, drop};
ghost use Rattle.pk_dict.specs.declared.entry.Entry.{Entry};
ghost use Rattle.pk_dict.specs.Dictionary.{entry_of};
ghost use Rattle.pk_model.specs.Collection.{Doc};
ghost use Rattle.pk_posting.specs.Spelling.{spelling as list_spelling};
ghost use Rattle.pk_segment.specs.Indexed.{items_of, list_with};
ghost use Rattle.pk_segment.specs.Listing.{IsEntryFor, LeadsTo, postings_at};
ghost use Rattle.pk_segment.specs.Spelling.{
  DirectorySpells,
  IndexSpells,
  SegmentSpells,
  segment_length,
  segment_spelling,
};

/// Bytes are the segment of one list of documents.
pub fn a_segment_is_of_one_list()
    ensures { (bytes : List ℕ) (a b : List Doc) (j k : ℕ) → SegmentSpells bytes a j
        → SegmentSpells bytes b k → a ≡ b }
{}

/// Documents have one segment of a kind.
pub fn a_list_has_one_segment()
    ensures { (a b : List ℕ) (docs : List Doc) (kind : ℕ) → SegmentSpells a docs kind
        → SegmentSpells b docs kind → a ≡ b }
{}

/// A segment has its own directory.
pub fn a_segment_has_its_directory()
    ensures { (bytes : List ℕ) (docs : List Doc) (kind : ℕ) → SegmentSpells bytes docs kind
        → DirectorySpells bytes docs kind }
{}

/// How long a segment is.
pub fn a_segment_has_its_length()
    ensures { (docs : List Doc) (kind : ℕ)
        → length (segment_spelling docs kind) ≡ segment_length docs kind }
{}

/// A segment of kind 2 has its own index.
pub fn a_segment_has_its_index()
    ensures { (bytes : List ℕ) (docs : List Doc) → SegmentSpells bytes docs 2
        → IndexSpells bytes docs }
{}

/// What the dictionary says of a word leads to the list of the documents that have it.
pub fn an_entry_leads_to_its_list()
    ensures entry { (docs : List Doc) (word : List ℕ)
        → IsEntryFor docs word (entry_of (items_of docs) word) }
    ensures list { (bytes : List ℕ) (docs : List Doc) (word : List ℕ) (e : Entry)
        → IndexSpells bytes docs → LeadsTo docs word e
        → (postings_at docs + e.place.at + e.place.bytes ≤ length bytes)
        × (take e.place.bytes (drop (postings_at docs + e.place.at) bytes)
        ≡ list_spelling (list_with word docs)) }
{}
