//! The posting lists of a merge that is prepared.

ghost use Rattle.std.specs.Prelude.{◌≡◌, ◌≤◌, ◌+◌, ℕ, List, length, All, IfOk};
ghost use Rattle.pk_join.specs.Inputs.{SpellsInputs};
ghost use Rattle.pk_join.specs.Walk.{words_to_come};
ghost use Rattle.pk_join.specs.WalkInput.{HaveExtentsOf};
ghost use Rattle.pk_join.specs.declared.input.MergeInput.{MergeInput};
ghost use Rattle.pk_merge.specs.Lists.{AreOfInputs, AreWithin, GiveLists, HasGone};
ghost use Rattle.pk_merge.specs.Output.{AreGiven, IsGiven, LiesApart};
ghost use Rattle.pk_model.specs.Terms.{terms_of};
ghost use Rattle.pk_segment.specs.Indexed.{postings};
ghost use Rattle.pk_segment.specs.Planning.{HasWords};
ghost use Rattle.pk_state.specs.Committed.{Stored, live_in};

use crate::output::Output;
use crate::writing::write_lists;
use pk_disk::Disk;
use pk_join::Walk;
use pk_replace::StreamFault;
use pk_segment::IndexWriter;
use std::alloc::{AllocError, Global};

/// The most bytes of posting lists that are kept in memory: 64 MiB. Where a merge has more, they
/// are joined a second time as they are written.
pub(crate) const MOST_KEPT_LISTS: u32 = 67_108_864;

/// The posting lists of a merge, of all words in their order.
#[derive(Drop)]
pub(crate) enum Lists {
    /// Their bytes, end to end.
    Packed(Vec<u8>),
    /// A walk that joins them again, before its first word, and room for the bytes of the longest.
    Walked { walk: Walk, encoded: Vec<u8> },
}

/// The lists that an index kept; else those that its walk joins again, with the memory that it
/// takes. A walk that is not needed any more is let go.
pub(crate) fn lists_for(
    alloc: Global,
    mut walk: Walk,
    index: &mut IndexWriter,
) -> Result<Lists, AllocError>
    requires most_kept { index.old.most_kept ≡ MOST_KEPT_LISTS }
    requires ended { words_to_come walk ≡ 0 }
    ensures lists { (bytes : List ℕ) (inputs : List MergeInput) (stored : List Stored)
        → HasGone bytes inputs stored walk
        → HasWords index.old (terms_of (live_in stored)) (live_in stored)
        → IfOk result (GiveLists inputs stored) }
    ensures inputs { (inputs : List MergeInput) → HaveExtentsOf inputs walk.inputs.items
        → IfOk result (AreOfInputs inputs) }
    ensures dictionary { index.new.dictionary ≡ index.old.dictionary }
{
    let longest = index.longest_list();
    if let Some(bytes) = index.take_lists() {
        return Ok(Lists::Packed(bytes));
    }
    walk.restart()?;
    let encoded = vec![in alloc; 0u8; longest as usize]?;
    Ok(Lists::Walked { walk, encoded })
}

impl Lists {
    /// Gives the lists. It takes no memory.
    pub(crate) fn write<D: Disk>(self, disk: &mut D, output: &mut Output) -> Result<(), StreamFault>
        requires within { AreWithin (length (D.content disk.old)) self }
        requires stretch { output.old.end ≤ length (D.content disk.old) }
        ensures given { IsGiven D.Disk disk.old disk.new output.old output.new result }
        ensures bytes { D.honest → (inputs : List MergeInput) (stored : List Stored)
            → GiveLists inputs stored self → AreOfInputs inputs self
            → SpellsInputs (D.content disk.old) inputs stored
            → All (LiesApart output.old.start output.old.end) inputs
            → output.old.at + output.old.filled + length (postings (live_in stored))
            ≤ output.old.end
            → AreGiven D.Disk disk.old disk.new output.old output.new (postings (live_in stored))
            result }
    {
        match self {
            Lists::Packed(bytes) => output.offer(disk, &bytes),
            Lists::Walked {
                mut walk,
                mut encoded,
            } => write_lists(disk, &mut walk, &mut encoded, output),
        }
    }
}
