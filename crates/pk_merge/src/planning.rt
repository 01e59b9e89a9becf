//! The index of a merge, planned by going through the words of all inputs.

ghost use Rattle.std.specs.Prelude.{◌≡◌, [], List, length, IfOk, OnOk};
ghost use Rattle.pk_join.specs.Walk.{HasCome, IsSameWalk, WalksWithin, words_to_come};
ghost use Rattle.pk_join.specs.Whole.{WalksWhole};
ghost use Rattle.pk_join.specs.declared.input.MergeInput.{MergeInput};
ghost use Rattle.pk_merge.specs.Merging.{CountsMerge};
ghost use Rattle.pk_merge.specs.Planned.{PlansWordsAs};
ghost use Rattle.pk_model.specs.Terms.{terms_of};
ghost use Rattle.pk_segment.specs.OnlyRead.{ReadsDisk};
ghost use Rattle.pk_segment.specs.Planning.{HasEntries};
ghost use Rattle.pk_state.specs.Committed.{Stored, live_in};

use crate::fault::MergeFault;
use crate::lists::MOST_KEPT_LISTS;
use pk_disk::Disk;
use pk_join::Walk;
use pk_segment::IndexWriter;
use std::alloc::Global;

/// The index of the documents that the inputs leave. It reads the posting lists once, and packs
/// them anew, as long as they are few bytes.
pub(crate) fn plan_words<D: Disk>(
    alloc: Global,
    disk: &mut D,
    walk: &mut Walk,
) -> Result<IndexWriter, MergeFault>
    requires { WalksWithin (length (D.content disk.old)) walk.old }
    ensures planned { D.honest → (inputs : List MergeInput) (stored : List Stored)
        → HasCome (D.content disk.old) inputs stored walk.old [] (terms_of (live_in stored))
        → PlansWordsAs (live_in stored) result }
    ensures entries { IfOk result HasEntries }
    ensures most_kept { IfOk result (λ index. index.most_kept ≡ MOST_KEPT_LISTS) }
    ensures same { IsSameWalk walk.old walk.new }
    // Whatever the bytes are, each word of each input was passed.
    ensures ended { OnOk result (words_to_come walk.new ≡ 0) }
    // And no list that is none, or that goes past its segment.
    ensures whole { OnOk result (WalksWhole D.honest (D.content disk.old) walk.old walk.new) }
    ensures left { ReadsDisk D.Disk CountsMerge result disk.old disk.new }
{
    let mut index = IndexWriter::new(alloc, MOST_KEPT_LISTS);
    'words: while walk.next(disk)? {
        index.add(walk.word(), walk.numbers())?;
    }
    Ok(index)
}
