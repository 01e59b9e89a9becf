//! A prepared merge as a writer, for a body that is put in force with it.

use crate::prepared::Prepared;
use pk_disk::Disk;
use pk_join::MergeInput;
use pk_replace::{StreamFault, WritesExtent};

/// The writer of a prepared merge: it writes the segment behind the bodies, as it reads the inputs.
#[derive(Drop)]
pub struct MergeWriter<'a> {
    /// What is prepared.
    pub prepared: Prepared,
    /// Its inputs.
    pub inputs: &'a [MergeInput<'a>],
    /// The unit that the segment begins at.
    pub first: u32,
}

impl<'a> WritesExtent for MergeWriter<'a> {
    ghost use Rattle.std.specs.Prelude.{◌≡◌, ◌*◌, OnOk, drop, length, take};
    ghost use Rattle.pk_disk.specs.Disk.{in_range};
    ghost use Rattle.pk_merge.specs.Endings.{EndsWith};
    ghost use Rattle.pk_replace.specs.Cause.{IsCause, IsUndamaged, StopsAtWrites};
    ghost use Rattle.pk_replace.specs.Claims.{Claim, IsThere};
    ghost use Rattle.pk_replace.specs.Writing.{WritesOnly};
    ghost use Rattle.pk_merge.specs.Streaming.{
      CanStream,
      IsSoundMerge,
      PromisesMerge,
      far_merge,
      promise_still,
      sound_still,
    };

    ghost can_write = { λ w size. CanStream size w.first w.inputs.now w.prepared };

    ghost touches = { λ w. in_range (512 * w.first) w.prepared.size };

    ghost promises = { λ w. PromisesMerge w.first w.inputs.now w.prepared };

    ghost is_sound = { λ w. IsSoundMerge w.inputs.now w.prepared };

    ghost reads_nothing = { λ w. ⊥ };

    fn write_into<D: Disk>(self, disk: &mut D) -> Result<(), StreamFault>
        requires { CanStream (length (D.content disk.old)) self.first self.inputs.now
            self.prepared }
        ensures writes { WritesOnly D.Disk (in_range (512 * self.entry.first) self.entry.prepared.size)
            disk.old disk.new }
        ensures there { D.honest → OnOk result ((c : Claim)
            → PromisesMerge self.entry.first self.entry.inputs.now self.entry.prepared (D.content disk.old) c
            → IsThere (D.content disk.new) c) }
        ensures undamaged { D.honest
            → IsSoundMerge self.entry.inputs.now self.entry.prepared (D.content disk.old)
            → IsUndamaged result }
        ensures unread { ⊥ → StopsAtWrites result }
        ensures size { length (D.content disk.new) ≡ length (D.content disk.old) }
        ensures cause { IsCause D.Disk disk.old disk.new result }
        // Whatever was read, after Ok all of the segment was written: it ends with the dictionary.
        ensures whole { D.honest → OnOk result (EndsWith self.entry.prepared.dictionary.items
            (take self.entry.prepared.size (drop (512 * self.entry.first) (D.content disk.new)))) }
    {
        self.prepared.write_segment(disk, self.first)
    }

    ghost is_far = { λ w size can. far_merge size w.first w.inputs.now w.prepared can };

    ghost promises_stay = { λ w bytes bytes' c agree is.
        promise_still w.first w.inputs.now w.prepared bytes bytes' c agree is };

    ghost sound_stays = { λ w bytes bytes' agree is.
        sound_still w.inputs.now w.prepared bytes bytes' agree is };
}
