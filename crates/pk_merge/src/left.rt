//! The documents that the inputs leave, without their texts.

ghost use Rattle.std.specs.Prelude.{
  ◌≡◌,
  ◌≤◌,
  ◌<◌,
  ◌+◌,
  ◌*◌,
  ◌++◌,
  ◌∷◌,
  [],
  ℕ,
  List,
  length,
  drop,
  All,
  IfErr,
  IsErrOf,
  OnOk,
};
ghost use Rattle.pk_model.specs.Limits.{max_segment_bytes};
ghost use Rattle.pk_merge.specs.Keeping.{EndBy, kept_bytes};
ghost use Rattle.pk_model.specs.Collection.{Doc};

use crate::fault::MergeFault;
use crate::kept::Kept;
use pk_dead::Dead;
use pk_model::limits::MAX_SEGMENT_BYTES;
use pk_segment::{Directory, ENTRY_BYTES, HEADER_BYTES};
use std::alloc::Global;

/// The documents of an input.
#[derive(Clone, Copy)]
pub(crate) struct InputDocuments<'a> {
    /// Its directory.
    pub(crate) directory: &'a Directory,
    /// Its deletion list.
    pub(crate) dead: &'a Dead,
}

/// The documents that are left so far: such as one segment may hold.
#[derive(Drop)]
pub(crate) struct Left {
    /// The documents that are in no deletion list.
    pub(crate) documents: Vec<Kept>,
    /// How many bytes the disk has.
    pub(crate) disk_bytes: u64,
    // The last number that was looked at, of a listed document too; 0 before the first.
    last: u32,
    // How long header, directory and texts of their segment are.
    bytes: u64,
    ghost size: { bytes ≡ 24 + 12 * length documents.items + kept_bytes documents.items },
    ghost fits: { bytes ≤ max_segment_bytes },
    ghost inside: { All (EndBy disk_bytes) documents.items },
}

impl Left {
    ghost use Rattle.pk_merge.specs.Counting.{count_to};
    ghost use Rattle.pk_merge.specs.Gathering.{RiseFrom, left_by};
    ghost use Rattle.pk_merge.specs.Keeping.{AreKept, KeepsBetween, TextsStand};
    ghost use Rattle.pk_merge.specs.Left.{IsNoDisk, KeepsOneAs, TakesAs, kept_in};
    ghost use Rattle.pk_segment.specs.Directory.{IsDirectoryOf, doc_in, entries_in};

    /// No document yet, of a disk of so many bytes. It takes no memory.
    pub(crate) fn new(alloc: Global, disk_bytes: u64) -> Left
        ensures documents { kept_in result ≡ [] }
        ensures last { result.last ≡ 0 }
        ensures disk_bytes { result.disk_bytes ≡ disk_bytes }
    {
        Left {
            documents: Vec::new(alloc),
            disk_bytes,
            last: 0,
            bytes: HEADER_BYTES as u64,
        }
    }

    /// How long header, directory and texts of their segment are.
    pub(crate) fn bytes(&self) -> u32
        ensures value { result
            ≡ 24 + 12 * length (kept_in self.now) + kept_bytes (kept_in self.now) }
        ensures fits { result ≤ max_segment_bytes }
    {
        self.bytes as u32
    }

    // Keeps a document.
    fn keep(&mut self, kept: Kept) -> Result<(), MergeFault>
        requires { kept.at + kept.len ≤ self.old.disk_bytes }
        ensures kept { KeepsOneAs (kept_in self.old) self.old.bytes kept self.new result }
        ensures memory { IsErrOf result MergeFault.Memory
            → self.old.bytes + 12 + kept.len ≤ max_segment_bytes }
        ensures last { self.new.last ≡ self.old.last }
        ensures disk_bytes { self.new.disk_bytes ≡ self.old.disk_bytes }
    {
        let bytes = self.bytes + ENTRY_BYTES as u64 + u64::from(kept.len);
        if bytes > u64::from(MAX_SEGMENT_BYTES) {
            return Err(MergeFault::TooLarge);
        }
        let Ok(()) = self.documents.push(kept) else {
            return Err(MergeFault::Memory);
        };
        self.bytes = bytes;
        Ok(())
    }

    // Passes the ith document of an input where the deletion list has it, else keeps it. The texts
    // begin at a position of the disk, and end at another one at the latest.
    fn take(
        &mut self,
        input: &InputDocuments,
        i: u32,
        texts: u64,
        end: u64,
    ) -> Result<(), MergeFault>
        requires one { i < entries_in input.now.directory.now }
        requires inside { end ≤ self.old.disk_bytes }
        ensures taken { (bytes : List ℕ) (so_far docs more : List Doc) (kind : ℕ)
            → IsDirectoryOf input.now.directory.now docs kind
            → TextsStand bytes texts end docs
            → RiseFrom self.old.last (drop i docs ++ more) → AreKept bytes (kept_in self.old) so_far
            → TakesAs bytes so_far (left_by input.now.dead.now (doc_in docs i ∷ []))
            (drop (i + 1) docs ++ more) self.new result }
        ensures between { OnOk result
            (KeepsBetween texts end (kept_in self.old) (kept_in self.new)) }
        ensures one_more { OnOk result
            (length (kept_in self.old) + count_to self.old.last input.now.dead.now + 1
            ≤ length (kept_in self.new) + count_to self.new.last input.now.dead.now) }
        ensures cause { IfErr result IsNoDisk }
        ensures disk_bytes { self.new.disk_bytes ≡ self.old.disk_bytes }
    {
        let number = input.directory.number(i);
        if number <= self.last {
            return Err(MergeFault::Damaged);
        }
        if input.dead.contains(number) {
            self.last = number;
            return Ok(());
        }
        let (offset, len) = input.directory.text_place(i);
        let at = texts.saturating_add(u64::from(offset));
        if at > end || u64::from(len) > end - at {
            return Err(MergeFault::Damaged);
        }
        self.last = number;
        self.keep(Kept { number, at, len })
    }

    /// Keeps the documents of an input that its deletion list leaves.
    ///
    /// Answers `TooLarge`, `Damaged` where numbers don't rise or a text ends too late, or `Memory`.
    pub(crate) fn take_all(
        &mut self,
        input: &InputDocuments,
        texts: u64,
        end: u64,
    ) -> Result<(), MergeFault>
        requires inside { end ≤ self.old.disk_bytes }
        ensures taken { (bytes : List ℕ) (so_far docs more : List Doc) (kind : ℕ)
            → IsDirectoryOf input.now.directory.now docs kind
            → TextsStand bytes texts end docs
            → RiseFrom self.old.last (docs ++ more) → AreKept bytes (kept_in self.old) so_far
            → TakesAs bytes so_far (left_by input.now.dead.now docs) more self.new result }
        ensures between { OnOk result
            (KeepsBetween texts end (kept_in self.old) (kept_in self.new)) }
        ensures enough { OnOk result
            (entries_in input.now.directory.now + length (kept_in self.old)
            ≤ length (kept_in self.new) + length input.now.dead.now) }
        ensures cause { IfErr result IsNoDisk }
        ensures disk_bytes { self.new.disk_bytes ≡ self.old.disk_bytes }
    {
        for i in 0..input.directory.len() {
            self.take(input, i, texts, end)?;
        }
        Ok(())
    }
}
