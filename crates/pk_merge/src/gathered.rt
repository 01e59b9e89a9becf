//! The documents that a merge leaves, as far as it has come.

ghost use Rattle.std.specs.Prelude.{◌≡◌, ◌≤◌, ◌<◌, [], All};
ghost use Rattle.std.specs.List.Sorted.{IsStrictlyIncreasing};
ghost use Rattle.pk_model.specs.Collection.{numbers_of};
ghost use Rattle.pk_model.specs.Views.{doc_of};
ghost use Rattle.pk_model.specs.Limits.{max_segment_bytes};
ghost use Rattle.pk_segment.specs.Spelling.{IsKind, docs_of, segment_length};

use crate::fault::MergeFault;
use pk_model::Document;
use pk_model::limits::MAX_SEGMENT_BYTES;
use pk_segment::{ENTRY_BYTES, HEADER_BYTES, build};
use std::alloc::Global;

/// The documents that are left so far: such as one segment may hold.
#[derive(Drop)]
pub(crate) struct Gathered {
    // The documents that are in no deletion list.
    documents: Vec<Document>,
    // The last number that was looked at, of a listed document too; 0 before the first.
    last: u32,
    // How long header, directory and texts of their segment are: a segment of kind 1 has no more.
    bytes: u64,
    ghost rising: { IsStrictlyIncreasing (numbers_of (docs_of documents.items)) },
    ghost each: { All (λ d. (1 ≤ d.number.0) × (d.number.0 ≤ last)) documents.items },
    ghost size: { bytes ≡ segment_length (docs_of documents.items) 1 },
    ghost fits: { bytes ≤ max_segment_bytes },
}

impl Gathered {
    ghost use Rattle.pk_merge.specs.Gathering.{BuildsAs, KeepsAs};

    /// No document yet. It takes no memory.
    pub(crate) fn new(alloc: Global) -> Gathered
        ensures documents { result.documents.items ≡ [] }
        ensures last { result.last ≡ 0 }
    {
        Gathered {
            documents: Vec::new(alloc),
            last: 0,
            bytes: HEADER_BYTES as u64,
        }
    }

    /// The last number that was looked at.
    pub(crate) fn last(&self) -> u32
        ensures { result ≡ self.now.last }
    {
        self.last
    }

    /// Passes a document that a deletion list has.
    pub(crate) fn pass(&mut self, number: u32)
        requires { self.old.last < number }
        ensures documents { self.new.documents ≡ self.old.documents }
        ensures last { self.new.last ≡ number }
    {
        self.last = number;
    }

    /// Keeps a document that is left.
    pub(crate) fn keep(&mut self, document: Document) -> Result<(), MergeFault>
        requires { self.old.last < document.number.0 }
        ensures { KeepsAs self.old (doc_of document) self.new result }
    {
        let bytes = self.bytes + ENTRY_BYTES as u64 + document.text.len() as u64;
        if bytes > u64::from(MAX_SEGMENT_BYTES) {
            return Err(MergeFault::TooLarge);
        }
        let number = document.number.0;
        let Ok(()) = self.documents.push(document) else {
            return Err(MergeFault::Memory);
        };
        self.last = number;
        self.bytes = bytes;
        Ok(())
    }

    /// The segment of that kind of the documents; none where there is none.
    pub(crate) fn build(&self, alloc: Global, kind: u32) -> Result<Option<Vec<u8>>, MergeFault>
        requires { IsKind kind }
        ensures { BuildsAs (docs_of self.now.documents.items) kind result }
    {
        if self.documents.is_empty() {
            return Ok(None);
        }
        let bytes = build(alloc, &self.documents, kind)?;
        Ok(Some(bytes))
    }
}
