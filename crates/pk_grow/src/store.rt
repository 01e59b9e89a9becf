//! The store in a disk, grown.

ghost use Rattle.std.specs.Prelude.{◌≡◌, ◌≤◌, ◌<◌, ℕ, List, length, IfErr, IfOk, IfSome, OnOk};
ghost use Rattle.pk_disk.specs.Disk.{IsImage, nowhere};
ghost use Rattle.pk_disk.specs.Since.{IsOnlyRead, OnlyNew};
ghost use Rattle.pk_disk.specs.Sizes.{least_units};
ghost use Rattle.pk_grow.specs.Growth.{GrowCause, GrowsAs, HoldsStore, IsDue, IsSoundGrowFault};
ghost use Rattle.pk_grow.specs.Growth.{WritesNothing, store_bytes};
ghost use Rattle.pk_manifest.specs.Current.{units_of_disk};
ghost use Rattle.pk_manifest.specs.Sound.{IsBody};
ghost use Rattle.pk_manifest.specs.Spelling.{view};
ghost use Rattle.pk_model.specs.Collection.{Collection};
ghost use Rattle.pk_state.specs.Holds.{Holds};

use crate::fault::{GrowFault, Growth};
use crate::growing::grow_body;
use crate::reading::read_store;
use pk_disk::Disk;
use pk_manifest::{Half, Manifest};
use std::alloc::Global;

/// The body that is to grow to so many units, and its half; None where it has as many.
pub(crate) fn body_due<D: Disk>(
    alloc: Global,
    disk: &mut D,
    units: u32,
) -> Result<Option<(Manifest, Half)>, GrowFault>
    requires { least_units ≤ units_of_disk (D.content disk.old) }
    ensures answer { D.honest → IsDue units (D.content disk.old) result }
    ensures sound { IfOk result (λ due. IfSome due
        (λ found. IsBody found.0.units (view found.0))) }
    ensures least { IfOk result (λ due. IfSome due (λ found. least_units ≤ found.0.units)) }
    ensures fewer { IfOk result (λ due. IfSome due (λ found. found.0.units < units)) }
    ensures fault { D.honest → (c : Collection) → HoldsStore (D.content disk.old) c
        → IfErr result IsSoundGrowFault }
    ensures read { D.honest
        → IsOnlyRead D.content D.is_open D.moment D.images_since disk.old disk.new }
    ensures size { length (D.content disk.new) ≡ length (D.content disk.old) }
    ensures cause { GrowCause D.Disk disk.old disk.new result }
{
    let found = read_store(alloc, disk)?;
    if units < found.0.units {
        return Err(GrowFault::Shorter);
    }
    if units == found.0.units {
        return Ok(None);
    }
    Ok(Some(found))
}

/// Grows the store in a disk to so many units, which the disk has, with nothing open at the start.
///
/// `Shorter` where it has more. `NotAStore`, `Damaged`, `Disk` and `Memory` as `read_store`;
/// `UsedUp`, `Memory` and `Disk` as `grow_body`.
pub fn grow<D: Disk>(alloc: Global, disk: &mut D, units: u32) -> Result<Growth, GrowFault>
    requires least { least_units ≤ units_of_disk (D.content disk.old) }
    requires room { units ≤ units_of_disk (D.content disk.old) }
    requires closed { D.honest → D.is_open disk.old ≡ nowhere }

    // At any moment, whatever is answered, the store in the disk holds what it held.
    ensures any_moment { D.honest → (c : Collection) → HoldsStore (D.content disk.old) c
        → OnlyNew D.moment D.images_since disk.old disk.new (λ image. HoldsStore image c) }

    // So does each image that a crash may leave then.
    ensures kept { D.honest → (c : Collection) → HoldsStore (D.content disk.old) c
        → (image : List ℕ) → IsImage (D.content disk.new) (D.is_open disk.new) image
        → HoldsStore image c }

    // After Ok it has these units and holds what it held, and nothing is open.
    ensures done { D.honest → (c : Collection) → HoldsStore (D.content disk.old) c
        → OnOk result (Holds (store_bytes units (D.content disk.new)) c) }
    ensures closed { D.honest → OnOk result (D.is_open disk.new ≡ nowhere) }

    // Which answer comes when. A store that holds a collection is neither none nor damaged.
    ensures answer { D.honest → GrowsAs units (D.content disk.old) result }
    ensures fault { D.honest → (c : Collection) → HoldsStore (D.content disk.old) c
        → IfErr result IsSoundGrowFault }
    ensures unwritten { D.honest → WritesNothing D.Disk disk.old disk.new result }

    // Sizes and counts, on every disk.
    ensures size { length (D.content disk.new) ≡ length (D.content disk.old) }
    ensures cause { GrowCause D.Disk disk.old disk.new result }
{
    let Some(found) = body_due(alloc, disk, units)? else {
        return Ok(Growth::AsItWas);
    };
    let (manifest, half) = found;
    grow_body(alloc, disk, manifest, half.other(), units)?;
    Ok(Growth::Grown)
}
