//! A merge that is prepared, written as it is read.

ghost use Rattle.std.specs.Prelude.{
  ◌≡◌,
  ◌⊎◌,
  ◌≤◌,
  ◌+◌,
  ◌*◌,
  ◌++◌,
  List,
  length,
  take,
  drop,
  All,
  IfErr,
  OnOk,
};
ghost use Rattle.pk_disk.specs.Disk.{in_range};
ghost use Rattle.pk_join.specs.Inputs.{SpellsInputs};
ghost use Rattle.pk_join.specs.declared.input.MergeInput.{MergeInput};
ghost use Rattle.pk_merge.specs.Keeping.{AreKept, EndBy, KeptApart};
ghost use Rattle.pk_merge.specs.Lists.{AreOfInputs, AreWithin, GiveLists};
ghost use Rattle.pk_merge.specs.Endings.{EndsWith};
ghost use Rattle.pk_merge.specs.Output.{AreGiven, IsGiven, LiesApart, given};
ghost use Rattle.pk_merge.specs.Prepared.{CanWrite};
ghost use Rattle.pk_model.specs.Collection.{Doc};
ghost use Rattle.pk_replace.specs.Cause.{IsCause, IsUndamaged};
ghost use Rattle.pk_replace.specs.Writing.{WritesOnly};
ghost use Rattle.pk_segment.specs.Indexed.{postings};
ghost use Rattle.pk_segment.specs.Spelling.{segment_spelling, texts};
ghost use Rattle.pk_state.specs.Committed.{Stored, live_in};

use crate::fault::MergeFault;
use crate::kept::Kept;
use crate::lists::Lists;
use crate::output::Output;
use crate::prepared::Prepared;
use crate::texts::{SPAN_BYTES, write_texts};
use pk_disk::{Disk, UNIT};
use pk_replace::StreamFault;

// Gives header, directory and texts.
fn write_front<D: Disk>(
    disk: &mut D,
    front: &[u8],
    documents: &[Kept],
    room: &mut [u8],
    output: &mut Output,
) -> Result<(), StreamFault>
    requires inside { All (EndBy (length (D.content disk.old))) documents.now }
    requires room { SPAN_BYTES ≤ length room.old }
    requires stretch { output.old.end ≤ length (D.content disk.old) }
    requires apart { All (KeptApart output.old.start output.old.end) documents.now }
    ensures given { IsGiven D.Disk disk.old disk.new output.old output.new result }
    ensures bytes { D.honest → (docs : List Doc) → AreKept (D.content disk.old) documents.now docs
        → output.old.at + output.old.filled + length (front.now ++ texts docs) ≤ output.old.end
        → AreGiven D.Disk disk.old disk.new output.old output.new (front.now ++ texts docs)
        result }
{
    output.offer(disk, front)?;
    write_texts(disk, documents, room, output)
}

// Gives posting lists and dictionary.
fn write_index<D: Disk>(
    disk: &mut D,
    lists: Lists,
    dictionary: &[u8],
    output: &mut Output,
) -> Result<(), StreamFault>
    requires within { AreWithin (length (D.content disk.old)) lists }
    requires stretch { output.old.end ≤ length (D.content disk.old) }
    ensures given { IsGiven D.Disk disk.old disk.new output.old output.new result }
    ensures bytes { D.honest → (inputs : List MergeInput) (stored : List Stored)
        → GiveLists inputs stored lists → AreOfInputs inputs lists
        → SpellsInputs (D.content disk.old) inputs stored
        → All (LiesApart output.old.start output.old.end) inputs
        → output.old.at + output.old.filled
        + length (postings (live_in stored) ++ dictionary.now) ≤ output.old.end
        → AreGiven D.Disk disk.old disk.new output.old output.new
        (postings (live_in stored) ++ dictionary.now) result }
    // Whatever the bytes are, the dictionary was given last.
    ensures last { D.honest
        → OnOk result (EndsWith dictionary.now (given (D.content disk.new) output.new)) }
{
    lists.write(disk, output)?;
    output.offer(disk, dictionary)
}

impl Prepared {
    ghost use Rattle.pk_merge.specs.Streaming.{IsMergeCause, OfInputs};

    /// Writes the segment from unit `first` on, as it is read. It takes no memory. The inputs of
    /// which the clauses speak are what it was prepared from.
    pub(crate) fn write_segment<D: Disk>(self, disk: &mut D, first: u32) -> Result<(), StreamFault>
        requires { CanWrite (length (D.content disk.old)) first self }
        ensures writes { WritesOnly D.Disk (in_range (512 * first) self.size) disk.old disk.new }
        ensures there { D.honest → OfInputs (D.content disk.old) first self (λ stored. OnOk result
            (take self.size (drop (512 * first) (D.content disk.new))
            ≡ segment_spelling (live_in stored) 2)) }
        ensures undamaged { D.honest
            → OfInputs (D.content disk.old) first self (λ _. IsUndamaged result) }
        ensures cause { IsCause D.Disk disk.old disk.new result }
        // Whatever was read, after Ok all of the segment was written: it ends with the dictionary.
        ensures whole { D.honest → OnOk result (EndsWith self.dictionary.items
            (take self.size (drop (512 * first) (D.content disk.new)))) }
    {
        let start = UNIT * u64::from(first);
        let mut output = Output::over(self.buffer, start, start + u64::from(self.size));
        let mut room = self.room;
        write_front(disk, &self.front, &self.documents, &mut room, &mut output)?;
        write_index(disk, self.lists, &self.dictionary, &mut output)?;
        output.finish(disk)
    }

    /// Writes the segment that is prepared from unit `first` on, as it is read: in writes of 65,536
    /// bytes, the last one perhaps shorter, and in the memory that `prepare` took. None of the
    /// inputs that it was prepared from has a position of the segment's place. No other position is
    /// written, whatever is answered.
    ///
    /// Answers `Damaged` where what is read isn't what was prepared, `Disk` where a read failed, or
    /// `NotWritten` where a write failed.
    pub fn merge_into<D: Disk>(self, disk: &mut D, first: u32) -> Result<(), MergeFault>
        requires { CanWrite (length (D.content disk.old)) first self }
        ensures writes { WritesOnly D.Disk (in_range (512 * first) self.size) disk.old disk.new }
        ensures there { D.honest → OfInputs (D.content disk.old) first self (λ stored. OnOk result
            (take self.size (drop (512 * first) (D.content disk.new))
            ≡ segment_spelling (live_in stored) 2)) }
        ensures undamaged { D.honest → OfInputs (D.content disk.old) first self
            (λ _. IfErr result (λ f. (f ≡ MergeFault.Disk) ⊎ (f ≡ MergeFault.NotWritten))) }
        // Whatever was read, after Ok all of the segment was written: it ends with the dictionary.
        ensures whole { D.honest → OnOk result (EndsWith self.dictionary.items
            (take self.size (drop (512 * first) (D.content disk.new)))) }
        ensures cause { IsMergeCause D.Disk disk.old disk.new result }
    {
        self.write_segment(disk, first)?;
        Ok(())
    }
}
