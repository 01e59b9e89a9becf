//! The words of a dictionary in an extent of a disk, one by one.

ghost use Rattle.std.specs.Prelude.{◌≡◌, ◌≤◌, ◌+◌, ℕ, List, None, length, IfErr, IfOk, OnOk};
ghost use Rattle.pk_dict.specs.Dictionary.{DictSpells, Item};
ghost use Rattle.pk_dict.specs.Place.{bytes_at};
ghost use Rattle.pk_dict.specs.Said.{GoesOn, IsSaid};
ghost use Rattle.pk_join.specs.Rooms.{HasRoomFor, IsNoRefusal};
ghost use Rattle.pk_disk.specs.Units.{extent_bytes, start_of};
ghost use Rattle.pk_segment.specs.OnlyRead.{ReadsDisk};
ghost use Rattle.pk_segment.specs.Reading.{CountsReads, IsNoDamage};

use pk_dict::TermCursor;
use pk_disk::{Disk, Extent};
use pk_segment::{ExtentSource, ReadFault};

/// Passes the next word of a dictionary in an extent, and says whether there was one.
///
/// Answers `Damaged` where the bytes are no dictionary, `Disk` where a read failed, or `Memory`
/// where the word is longer than those before it. After a fault the cursor stands before the first
/// word: it keeps none, so that the next call tells no failed read again.
pub(crate) fn next_term<D: Disk>(
    disk: &mut D,
    extent: Extent,
    words: &mut TermCursor,
) -> Result<bool, ReadFault>
    requires inside { start_of extent + extent.bytes ≤ length (D.content disk.old) }
    requires lies { words.old.place.at + words.old.place.bytes ≤ extent.bytes }
    requires sound { words.old.fault ≡ None }
    // Whatever the bytes are, what was read is what they say.
    ensures said { D.honest
        → IsSaid (bytes_at (extent_bytes (D.content disk.old) extent) words.old.place) words.old
        → OnOk result
        (IsSaid (bytes_at (extent_bytes (D.content disk.old) extent) words.old.place) words.new) }
    ensures undamaged { D.honest → (es : List Item)
        → DictSpells (bytes_at (extent_bytes (D.content disk.old) extent) words.old.place) es
        → length es ≡ words.old.place.terms
        → IsSaid (bytes_at (extent_bytes (D.content disk.old) extent) words.old.place) words.old
        → IfErr result IsNoDamage }
    // Memory is refused to no cursor that has room for all words.
    ensures roomy { D.honest
        → IsSaid (bytes_at (extent_bytes (D.content disk.old) extent) words.old.place) words.old
        → HasRoomFor (bytes_at (extent_bytes (D.content disk.old) extent) words.old.place) words.old
        → IfErr result IsNoRefusal }
    ensures rooms { (bytes : List ℕ) → HasRoomFor bytes words.old
        → OnOk result (HasRoomFor bytes words.new) }
    ensures goes { IfOk result (GoesOn words.old words.new) }
    ensures place { words.new.place ≡ words.old.place }
    ensures sound { words.new.fault ≡ None }
    ensures left { ReadsDisk D.Disk CountsReads result disk.old disk.new }
{
    let mut source = ExtentSource::on(disk, extent);
    match words.next(&mut source) {
        Ok(more) => Ok(more),
        Err(fault) => {
            words.rewind();
            Err(fault)
        }
    }
}
