//! A segment made of its documents.

ghost use Rattle.std.specs.Prelude.{◌≡◌, ◌≤◌, ◌<◌, ◌+◌, ◌*◌, ◌^◌, ◌++◌, length, All, IsErrOf, OnOk};
ghost use Rattle.std.specs.List.Sorted.{IsStrictlyIncreasing};
ghost use Rattle.pk_model.specs.Collection.{numbers_of};
ghost use Rattle.pk_model.specs.Views.{doc_of};
ghost use Rattle.pk_index.specs.Index.{Keeps};
ghost use Rattle.pk_segment.specs.Building.{BuiltAs, SizedAs};
ghost use Rattle.pk_segment.specs.Built.{BuiltOpenAs};
ghost use Rattle.pk_segment.specs.Spelling.{
  IsKind,
  directory,
  directory_entry,
  docs_of,
  header,
  segment_spelling,
  texts,
};

use crate::directory::{ENTRY_BYTES, Entry};
use crate::front::{put_entry, put_header};
use crate::header::{HEADER_BYTES, Header};
use crate::indexing::{IndexPlan, index_of};
use crate::kind::PLAIN;
use crate::segment::Segment;
use pk_index::Index;
use pk_model::Document;
use pk_model::limits::MAX_SEGMENT_BYTES;
use std::alloc::{AllocError, Global};
use thiserror::Error;

/// Why no segment was built.
#[derive(Clone, Copy, Debug, PartialEq, Eq, Drop, Error)]
pub enum BuildFault {
    /// The segment would pass 1,073,741,824 bytes.
    #[error("segment too large")]
    TooLarge,
    /// Memory was refused.
    #[error("memory")]
    Memory,
}

/// A segment that is built.
#[derive(Drop)]
pub struct Built {
    /// Its bytes.
    pub bytes: Vec<u8>,
    /// It, open.
    pub segment: Segment,
}

impl From<AllocError> for BuildFault {
    ghost use Rattle.std.specs.Prelude.{◌≡◌};
    ghost use Rattle.pk_segment.specs.declared.building.BuildFault.TheVariants.{Memory};

    ghost from_gives = { λ _ fault. fault ≡ Memory };

    fn from(_error: AllocError) -> BuildFault {
        BuildFault::Memory
    }
}

/// The length in bytes of the segment of that kind of the documents. In kind 1 it takes no memory.
pub fn size_of(alloc: Global, documents: &[Document], kind: u32) -> Result<u32, BuildFault>
    requires kind { IsKind kind }
    requires some { 0 < length documents.now }
    requires rising { IsStrictlyIncreasing (numbers_of (docs_of documents.now)) }
    requires least { All (λ d. 1 ≤ d.number.0) documents.now }
    ensures { SizedAs (docs_of documents.now) kind result }
{
    if kind == PLAIN {
        return plain_size(documents);
    }
    let index = index_of(alloc, documents)?;
    let plan = IndexPlan::of(alloc, documents, &index)?;
    Ok(plan.size())
}

/// The bytes of the segment of that kind of the documents. Its memory is taken once. For kind 2 the
/// texts are cut into words first, and the index and its parts stand beside it.
pub fn build(alloc: Global, documents: &[Document], kind: u32) -> Result<Vec<u8>, BuildFault>
    requires kind { IsKind kind }
    requires some { 0 < length documents.now }
    requires rising { IsStrictlyIncreasing (numbers_of (docs_of documents.now)) }
    requires least { All (λ d. 1 ≤ d.number.0) documents.now }
    ensures { BuiltAs (docs_of documents.now) kind result }
{
    if kind == PLAIN {
        return build_plain(alloc, documents);
    }
    let index = index_of(alloc, documents)?;
    let built = build_indexed(alloc, documents, &index)?;
    Ok(built.bytes)
}

/// The segment of kind 2 of the documents, whose index is at hand, and it open. Its memory is taken
/// once; beside it stand the posting lists and the dictionary, until they are put into it.
pub fn build_indexed(
    alloc: Global,
    documents: &[Document],
    index: &Index,
) -> Result<Built, BuildFault>
    requires some { 0 < length documents.now }
    requires rising { IsStrictlyIncreasing (numbers_of (docs_of documents.now)) }
    requires least { All (λ d. 1 ≤ d.number.0) documents.now }
    requires index { Keeps index.now (docs_of documents.now) }
    ensures { BuiltOpenAs (docs_of documents.now) result }
{
    let plan = IndexPlan::of(alloc, documents, index)?;
    let segment = plan.segment(documents);
    let bytes = plan.spell(alloc, documents)?;
    Ok(Built { bytes, segment })
}

// The bytes of the segment of kind 1.
fn build_plain(alloc: Global, documents: &[Document]) -> Result<Vec<u8>, BuildFault>
    requires some { 0 < length documents.now }
    requires rising { IsStrictlyIncreasing (numbers_of (docs_of documents.now)) }
    requires least { All (λ d. 1 ≤ d.number.0) documents.now }
    ensures { BuiltAs (docs_of documents.now) 1 result }
{
    let size = plain_size(documents)?;
    let mut out = Vec::with_capacity(alloc, size as usize)?;
    let text_bytes = size - HEADER_BYTES - ENTRY_BYTES * documents.len() as u32;
    put_plain(&mut out, documents, text_bytes)?;
    Ok(out)
}

// The length of the segment of kind 1.
pub(crate) fn plain_size(documents: &[Document]) -> Result<u32, BuildFault>
    ensures size { SizedAs (docs_of documents.now) 1 result }
    ensures memory { IsErrOf result BuildFault.Memory → ⊥ }
{
    if documents.len() > 89_478_485 {
        return Err(BuildFault::TooLarge);
    }
    let mut total = HEADER_BYTES as u64 + ENTRY_BYTES as u64 * documents.len() as u64;
    for d in documents {
        total += d.text.len() as u64;
        if total > u64::from(MAX_SEGMENT_BYTES) {
            return Err(BuildFault::TooLarge);
        }
    }
    if total > u64::from(MAX_SEGMENT_BYTES) {
        return Err(BuildFault::TooLarge);
    }
    Ok(total as u32)
}

// The segment of kind 1, whose texts have so many bytes.
#[tactic(auto, unfolding(crate::specs::Spelling::segment_spelling))]
fn put_plain(out: &mut Vec<u8>, documents: &[Document], text_bytes: u32) -> Result<(), AllocError>
    requires text_bytes { text_bytes ≡ length (texts (docs_of documents.now)) }
    requires count { length documents.now < 2 ^ 32 }
    ensures spelled { OnOk result (out.new.items
        ≡ out.old.items ++ segment_spelling (docs_of documents.now) 1) }
    ensures numbers { OnOk result (All (λ d. d.number.0 < 2 ^ 32) documents.now) }
{
    let header = Header {
        kind: PLAIN,
        count: documents.len() as u32,
        texts: text_bytes,
        postings: 0,
        dictionary: 0,
        terms: 0,
    };
    put_front(out, header, documents)
}

// A header, and the directory and the texts of documents.
pub(crate) fn put_front(
    out: &mut Vec<u8>,
    h: Header,
    documents: &[Document],
) -> Result<(), AllocError>
    requires { length (texts (docs_of documents.now)) < 2 ^ 32 }
    ensures spelled { OnOk result (out.new.items ≡ out.old.items
        ++ (header h.kind h.count h.texts h.postings h.dictionary h.terms
        ++ (directory 0 (docs_of documents.now) ++ texts (docs_of documents.now)))) }
    ensures numbers { OnOk result (All (λ d. d.number.0 < 2 ^ 32) documents.now) }
{
    put_header(out, h)?;
    put_directory(out, documents)?;
    put_texts(out, documents)
}

// The directory; its numbers are those of the documents, which have 32 bits.
fn put_directory(out: &mut Vec<u8>, documents: &[Document]) -> Result<(), AllocError>
    requires { length (texts (docs_of documents.now)) < 2 ^ 32 }
    ensures spelled { OnOk result (out.new.items
        ≡ out.old.items ++ directory 0 (docs_of documents.now)) }
    ensures numbers { OnOk result (All (λ d. d.number.0 < 2 ^ 32) documents.now) }
{
    let mut at = 0;
    for d in documents {
        put_document(out, d, at)?;
        at += d.text.len() as u32;
    }
    Ok(())
}

// The number of a document; it has 32 bits.
pub(crate) fn number_of(document: &Document) -> u32
    ensures value { result ≡ document.now.number.0 }
    ensures small { document.now.number.0 < 2 ^ 32 }
{
    document.number.0
}

// The entry of a document whose text begins at an offset.
#[tactic(auto, unfolding(crate::specs::Spelling::directory_entry))]
fn put_document(out: &mut Vec<u8>, d: &Document, at: u32) -> Result<(), AllocError>
    requires { length (doc_of d.now).text < 2 ^ 32 }
    ensures spelled { OnOk result (out.new.items
        ≡ out.old.items ++ directory_entry at (doc_of d.now)) }
    ensures number { d.now.number.0 < 2 ^ 32 }
{
    let number = number_of(d);
    let len = d.text.len() as u32;
    put_entry(out, Entry { number, at, len })
}

fn put_texts(out: &mut Vec<u8>, documents: &[Document]) -> Result<(), AllocError>
    ensures { OnOk result (out.new.items ≡ out.old.items ++ texts (docs_of documents.now)) }
{
    for d in documents {
        out.extend_from_slice(d.text.as_bytes())?;
    }
    Ok(())
}
