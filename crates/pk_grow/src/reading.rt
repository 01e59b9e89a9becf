//! The body in force of the store in a disk that may be longer.

ghost use Rattle.std.specs.Prelude.{◌≡◌, ◌≤◌, length, IfErr, IfOk};
ghost use Rattle.pk_disk.specs.Since.{IsOnlyRead};
ghost use Rattle.pk_disk.specs.Sizes.{least_units};
ghost use Rattle.pk_grow.specs.Growth.{HoldsStore, IsSoundFault, session_units};
ghost use Rattle.pk_manifest.specs.Current.{AnswersOf, ReadCause, units_of_disk};
ghost use Rattle.pk_manifest.specs.Sound.{IsBody};
ghost use Rattle.pk_manifest.specs.Spelling.{view};
ghost use Rattle.pk_model.specs.Collection.{Collection};

use crate::opening::session_units;
use pk_disk::Disk;
use pk_manifest::{Half, Manifest, ManifestFault, read_of};
use std::alloc::Global;

/// The body in force of the store in a disk, and the half that it stands in.
///
/// `NotAStore`, `Damaged`, `Disk` and `Memory` as `read_of` with the units of that store.
#[tactic(auto, using(crate::proofs::StoreLemmas::units_of_sound, crate::proofs::StoreLemmas::room_of))]
pub fn read_store<D: Disk>(alloc: Global, disk: &mut D) -> Result<(Manifest, Half), ManifestFault>
    requires { least_units ≤ units_of_disk (D.content disk.old) }
    ensures answer { D.honest
        → AnswersOf (session_units (D.content disk.old)) (D.content disk.old) result }

    // What is answered is sound on every disk, and of no more units than that.
    ensures sound { IfOk result (λ found. IsBody found.0.units (view found.0)) }
    ensures least { IfOk result (λ found. least_units ≤ found.0.units) }
    ensures most { IfOk result (λ found. found.0.units ≤ units_of_disk (D.content disk.old)) }

    // A store that holds a collection is read, but for the device and memory.
    ensures fault { D.honest → (c : Collection) → HoldsStore (D.content disk.old) c
        → IfErr result IsSoundFault }
    ensures read { D.honest
        → IsOnlyRead D.content D.is_open D.moment D.images_since disk.old disk.new }

    // Sizes and counts, on every disk.
    ensures size { length (D.content disk.new) ≡ length (D.content disk.old) }
    ensures cause { ReadCause result (D.failed_reads disk.old) (D.failed_reads disk.new) }
    ensures writes { D.failed_writes disk.new ≡ D.failed_writes disk.old }
{
    let Ok(units) = session_units(disk) else {
        return Err(ManifestFault::Disk);
    };
    read_of(alloc, disk, units)
}
