//! The documents that were taken so far.

ghost use Rattle.std.specs.Prelude.{◌≡◌, ◌⊎◌, ◌≤◌, ◌<◌, ◌^◌, ◌++◌, ◌∷◌, []};
ghost use Rattle.std.specs.Prelude.{List, length, All, IfErr, OnOk};
ghost use Rattle.std.specs.List.Sorted.{IsStrictlyIncreasing};
ghost use Rattle.pk_model.specs.Collection.{Doc};
ghost use Rattle.pk_model.specs.Views.{doc_of};
ghost use Rattle.pk_model.specs.Limits.{max_segment_bytes};
ghost use Rattle.pk_segment.specs.Reading.{IsNoDamage};
ghost use Rattle.pk_segment.specs.Spelling.{texts};

use pk_index::Index;
use pk_model::Document;
use pk_model::limits::MAX_SEGMENT_BYTES;
use pk_segment::ReadFault;
use std::alloc::Global;

/// The documents that were taken, without their texts.
#[derive(Drop)]
pub(crate) struct Taken {
    /// The index of their texts.
    pub(crate) index: Index,
    /// Their numbers.
    pub(crate) numbers: Vec<u32>,
    /// How many bytes their texts have.
    pub(crate) bytes: u64,
    // Above all numbers, and at least 1.
    top: u64,
    ghost rising: { IsStrictlyIncreasing numbers.items },
    ghost below: { All (λ n. n < top) numbers.items },
    ghost least: { 1 ≤ top },
    ghost fits: { bytes ≤ max_segment_bytes },
}

// The number of a document; it has 32 bits.
fn number_of(document: &Document) -> u32
    ensures value { result ≡ document.now.number.0 }
    ensures small { document.now.number.0 < 2 ^ 32 }
{
    document.number.0
}

impl Taken {
    ghost use Rattle.pk_check.specs.Taking.{IsTaken};

    /// No document.
    pub(crate) fn new(alloc: Global) -> Taken
        ensures { IsTaken result [] }
    {
        Taken {
            index: Index::new(alloc),
            numbers: Vec::new(alloc),
            bytes: 0,
            top: 1,
        }
    }

    /// Takes a document, whose number is at least 1 and above all others, else it is `Damaged`; so
    /// it is where the texts would be too long for a segment.
    pub(crate) fn add(&mut self, alloc: Global, document: &Document) -> Result<(), ReadFault>
        ensures taken { (docs : List Doc) → IsTaken self.old docs
            → OnOk result (IsTaken self.new (docs ++ doc_of document.now ∷ [])) }
        ensures cause { (docs : List Doc) → IsTaken self.old docs
            → All (λ d. d.number < (doc_of document.now).number) docs
            → 1 ≤ (doc_of document.now).number
            → length (texts (docs ++ doc_of document.now ∷ [])) ≤ max_segment_bytes
            → IfErr result IsNoDamage }
        ensures no_disk { IfErr result
            (λ f. (f ≡ ReadFault.Damaged) ⊎ (f ≡ ReadFault.Memory)) }
    {
        let number = number_of(document);
        let bytes = self.bytes + document.text.len() as u64;
        if u64::from(number) < self.top || bytes > u64::from(MAX_SEGMENT_BYTES) {
            return Err(ReadFault::Damaged);
        }
        self.index.add(alloc, number, document.text.as_str())?;
        let Ok(()) = self.numbers.push(number) else {
            return Err(ReadFault::Memory);
        };
        self.bytes = bytes;
        self.top = u64::from(number) + 1;
        Ok(())
    }
}
