//! The posting lists of a merge, joined again and written as they come.

ghost use Rattle.std.specs.Prelude.{
  ◌≡◌,
  ◌≤◌,
  ◌<◌,
  ◌+◌,
  [],
  ℕ,
  List,
  length,
  All,
  IfOk,
  IsTrue,
  MatchResult,
  OnOk,
  false,
};
ghost use Rattle.pk_disk.specs.Frames.{KeepsDisk};
ghost use Rattle.pk_join.specs.Inputs.{SpellsInputs};
ghost use Rattle.pk_join.specs.Rooms.{WalkIsRoomy};
ghost use Rattle.pk_join.specs.Walk.{GoesAs, HasCome, IsSameWalk, WalksWithin, words_to_come};
ghost use Rattle.pk_join.specs.Whole.{WalksWhole};
ghost use Rattle.pk_join.specs.declared.input.MergeInput.{MergeInput};
ghost use Rattle.pk_merge.specs.Apart.{WalksApart};
ghost use Rattle.pk_merge.specs.Output.{AreGiven, IsGiven, LiesApart};
ghost use Rattle.pk_posting.specs.Posting.{IsPosting};
ghost use Rattle.pk_posting.specs.Spelling.{spelling as list_spelling};
ghost use Rattle.pk_replace.specs.Cause.{IsCause};
ghost use Rattle.pk_model.specs.Terms.{terms_of};
ghost use Rattle.pk_segment.specs.Indexed.{list_with, postings};
ghost use Rattle.pk_state.specs.Committed.{Stored, live_in};

use crate::output::Output;
use pk_disk::Disk;
use pk_join::Walk;
use pk_posting::{encode_into, length_of};
use pk_replace::StreamFault;
use pk_segment::ReadFault;

// Goes on to the next word; whether there was one.
fn go_on<D: Disk>(disk: &mut D, walk: &mut Walk) -> Result<bool, StreamFault>
    requires { WalksWithin (length (D.content disk.old)) walk.old }
    ensures goes { D.honest → (inputs : List MergeInput) (stored : List Stored)
        (xs ys : List (List ℕ)) → HasCome (D.content disk.old) inputs stored walk.old xs ys
        → WalkIsRoomy (D.content disk.old) walk.old
        → MatchResult result (GoesAs (D.content disk.new) inputs stored walk.new xs ys)
        (λ e. e ≡ StreamFault.Read) }
    ensures fewer { IfOk result (λ more. IsTrue more
        → words_to_come walk.new < words_to_come walk.old) }
    ensures ended { IfOk result (λ more. more ≡ false → words_to_come walk.new ≡ 0) }
    ensures whole { OnOk result (WalksWhole D.honest (D.content disk.old) walk.old walk.new) }
    ensures rooms { (bytes : List ℕ) → WalkIsRoomy bytes walk.old
        → OnOk result (WalkIsRoomy bytes walk.new) }
    ensures same { IsSameWalk walk.old walk.new }
    ensures keeps { KeepsDisk D.Disk disk.old disk.new }
    ensures cause { IsCause D.Disk disk.old disk.new result }
{
    match walk.next(disk) {
        Ok(more) => Ok(more),
        Err(ReadFault::Disk) => Err(StreamFault::Read),
        // There is room for each word that the walk before passed.
        Err(ReadFault::Damaged | ReadFault::Memory) => Err(StreamFault::Damaged),
    }
}

// Gives the posting list of numbers, which is made in some room.
fn write_list<D: Disk>(
    disk: &mut D,
    list: &[u32],
    encoded: &mut [u8],
    output: &mut Output,
) -> Result<(), StreamFault>
    requires posting { IsPosting list.now }
    requires stretch { output.old.end ≤ length (D.content disk.old) }
    ensures given { IsGiven D.Disk disk.old disk.new output.old output.new result }
    ensures bytes { D.honest → length (list_spelling list.now) ≤ length encoded.old
        → output.old.at + output.old.filled + length (list_spelling list.now) ≤ output.old.end
        → AreGiven D.Disk disk.old disk.new output.old output.new (list_spelling list.now) result }
    // Whatever the bytes are, the whole list was given.
    ensures count { OnOk result (output.new.at + output.new.filled
        ≡ output.old.at + output.old.filled + length (list_spelling list.now)) }
{
    let bytes = length_of(list);
    if bytes as usize > encoded.len() || u64::from(bytes) > output.room() {
        return Err(StreamFault::Damaged);
    }
    encode_into(list, &mut encoded[..bytes as usize]);
    output.put(disk, &encoded[..bytes as usize])
}

/// Gives the posting lists of all words, in their order. It takes no memory.
pub(crate) fn write_lists<D: Disk>(
    disk: &mut D,
    walk: &mut Walk,
    encoded: &mut [u8],
    output: &mut Output,
) -> Result<(), StreamFault>
    requires walk { WalksWithin (length (D.content disk.old)) walk.old }
    requires stretch { output.old.end ≤ length (D.content disk.old) }
    ensures given { IsGiven D.Disk disk.old disk.new output.old output.new result }
    // Whatever the bytes are, each word of each input was passed.
    ensures ended { OnOk result (words_to_come walk.new ≡ 0) }
    // And no list that is none, where the inputs lie apart from it, or that goes past its segment.
    ensures whole { OnOk result
        (WalksWhole (D.honest × WalksApart output.old.start output.old.end walk.old)
        (D.content disk.old) walk.old walk.new) }
    ensures bytes { D.honest → (inputs : List MergeInput) (stored : List Stored)
        → HasCome (D.content disk.old) inputs stored walk.old [] (terms_of (live_in stored))
        → ((b : List ℕ) → SpellsInputs b inputs stored → WalkIsRoomy b walk.old)
        → All (LiesApart output.old.start output.old.end) inputs
        → All (λ w. length (list_spelling (list_with w (live_in stored))) ≤ length encoded.old)
        (terms_of (live_in stored))
        → output.old.at + output.old.filled + length (postings (live_in stored)) ≤ output.old.end
        → AreGiven D.Disk disk.old disk.new output.old output.new (postings (live_in stored))
        result }
{
    'words: while go_on(disk, walk)? {
        write_list(disk, walk.numbers(), encoded, output)?;
    }
    Ok(())
}
