//! The segment of kind 2: the documents with their index.

ghost use Rattle.std.specs.Prelude.{◌≡◌, ◌≤◌, ◌<◌, ◌^◌, List, All, length, IfOk, IsOk};
ghost use Rattle.std.specs.List.Sorted.{IsStrictlyIncreasing};
ghost use Rattle.pk_model.specs.Limits.{max_segment_bytes};
ghost use Rattle.pk_index.specs.Index.{Keeps};
ghost use Rattle.pk_index.specs.Terms.{AreRows};
ghost use Rattle.pk_model.specs.Collection.{Doc, numbers_of};
ghost use Rattle.pk_segment.specs.Placed.{IsIndexedOf};
ghost use Rattle.pk_segment.specs.Planning.{IndexesAs, IsIndexPlan, PlansIndexAs, size_in};
ghost use Rattle.pk_segment.specs.Spelling.{AreDocuments, SegmentSpells, docs_of, segment_length};

use crate::building::{BuildFault, number_of, plain_size, put_front};
use crate::header::Header;
use crate::index_writer::IndexWriter;
use crate::segment::Segment;
use pk_index::{Index, Row, both_into};
use pk_model::Document;
use pk_model::limits::MAX_SEGMENT_BYTES;
use std::alloc::{AllocError, Global};

/// The index of documents.
pub(crate) fn index_of(alloc: Global, documents: &[Document]) -> Result<Index, AllocError>
    requires { IsStrictlyIncreasing (numbers_of (docs_of documents.now)) }
    ensures { IfOk result (λ index. Keeps index (docs_of documents.now)) }
{
    let mut index = Index::new(alloc);
    for document in documents {
        index.add(alloc, document.number.0, document.text.as_str())?;
    }
    Ok(index)
}

// The numbers of documents; they have 32 bits.
fn numbers_in(alloc: Global, documents: &[Document]) -> Result<Vec<u32>, AllocError>
    ensures numbers { IfOk result (λ v. v.items ≡ numbers_of (docs_of documents.now)) }
    ensures small { IsOk result → All (λ d. d.number.0 < 2 ^ 32) documents.now }
{
    let mut numbers = Vec::with_capacity(alloc, documents.len())?;
    for document in documents {
        numbers.push(number_of(document))?;
    }
    Ok(numbers)
}

/// What a segment of kind 2 is going to have, before it is put together.
#[derive(Drop)]
pub(crate) struct IndexPlan {
    // Its header,
    header: Header,
    // and its index.
    index: IndexWriter,
}

// The index of documents, by the rows of the words that they have, with room for one list.
fn index_rows(
    alloc: Global,
    documents: &[Document],
    live: &[u32],
    rows: &[Row],
    list: &mut [u32],
) -> Result<IndexWriter, BuildFault>
    requires are { AreDocuments (docs_of documents.now) }
    requires fits { segment_length (docs_of documents.now) 1 ≤ max_segment_bytes }
    requires live { live.now ≡ numbers_of (docs_of documents.now) }
    requires rows { AreRows rows.now (docs_of documents.now) }
    requires room { length live.now ≤ length list.old }
    ensures index { IndexesAs (docs_of documents.now) result }
    ensures most_kept { IfOk result (λ w. w.most_kept ≡ max_segment_bytes) }
{
    let mut writer = IndexWriter::new(alloc, MAX_SEGMENT_BYTES);
    for row in rows {
        let count = both_into(live, row.list, list);
        writer.add(row.word.as_bytes(), &list[..count])?;
    }
    Ok(writer)
}

impl IndexPlan {
    /// The plan for documents, of their index.
    pub(crate) fn of(
        alloc: Global,
        documents: &[Document],
        index: &Index,
    ) -> Result<IndexPlan, BuildFault>
        requires some { 0 < length documents.now }
        requires rising { IsStrictlyIncreasing (numbers_of (docs_of documents.now)) }
        requires least { All (λ d. 1 ≤ d.number.0) documents.now }
        requires index { Keeps index.now (docs_of documents.now) }
        ensures { PlansIndexAs (docs_of documents.now) result }
    {
        let front = plain_size(documents)?;
        let live = numbers_in(alloc, documents)?;
        let rows = index.rows(alloc, &live)?;
        let mut list = vec![in alloc; 0u32; live.len()]?;
        let index = index_rows(alloc, documents, &live, &rows, &mut list)?;
        let header = index.header(documents.len() as u32, front)?;
        Ok(IndexPlan { header, index })
    }

    /// How many bytes the segment has.
    pub(crate) fn size(&self) -> u32
        requires { size_in self.now.header ≤ max_segment_bytes }
        ensures { (docs : List Doc) → IsIndexPlan docs self.now
            → (result ≡ segment_length docs 2) × (segment_length docs 2 ≤ max_segment_bytes) }
    {
        self.header.size()
    }

    /// The segment, open.
    pub(crate) fn segment(&self, documents: &[Document]) -> Segment
        requires { IsIndexPlan (docs_of documents.now) self.now }
        ensures { IsIndexedOf result (docs_of documents.now) }
    {
        let first = number_of(&documents[0]);
        let last = number_of(&documents[documents.len() - 1]);
        Segment::of_header(self.header, first, last)
    }

    /// The bytes of the segment, in memory that is taken once.
    pub(crate) fn spell(self, alloc: Global, documents: &[Document]) -> Result<Vec<u8>, AllocError>
        requires plan { IsIndexPlan (docs_of documents.now) self }
        ensures { IfOk result (λ v. SegmentSpells v.items (docs_of documents.now) 2) }
    {
        let IndexPlan { header, mut index } = self;
        let Some(lists) = index.take_lists() else {
            return Err(AllocError);
        };
        let mut out = Vec::with_capacity(alloc, header.size() as usize)?;
        put_front(&mut out, header, documents)?;
        out.extend_from_slice(&lists)?;
        let dictionary = index.finish(alloc)?;
        out.extend_from_slice(&dictionary)?;
        Ok(out)
    }
}
