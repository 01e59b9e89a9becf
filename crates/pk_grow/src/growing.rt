//! The body of a growth, put in force.

ghost use Rattle.std.specs.Prelude.{◌≡◌, ◌≤◌, ◌*◌, ◌⊎◌, ◌↔◌, ◌+◌, ◌-◌, ◌^◌, ◌<◌, length, IfErr, IfOk, OnOk};
ghost use Rattle.pk_disk.specs.Disk.{nowhere};
ghost use Rattle.pk_disk.specs.Since.{OnlyNew};
ghost use Rattle.pk_grow.specs.Growth.{BodyCause, HoldsEither, IsSoundFault, KeepsUnlessDisk};
ghost use Rattle.pk_grow.specs.Growth.{grown, store_bytes};
ghost use Rattle.pk_manifest.specs.Bodies.{bodies_end, body_size, other};
ghost use Rattle.pk_manifest.specs.Current.{HasBody, units_of_disk};
ghost use Rattle.pk_manifest.specs.Sound.{IsBody};
ghost use Rattle.pk_manifest.specs.Spelling.{spelling, view};
ghost use Rattle.pk_model.specs.Collection.{Collection};
ghost use Rattle.pk_state.specs.Holds.{Holds};

use pk_disk::Disk;
use pk_manifest::{Half, Manifest, ManifestFault};
use pk_replace::{Pieces, replace_with};
use std::alloc::Global;

// The bytes of the body of a growth to so many units.
fn grown_body(alloc: Global, manifest: Manifest, units: u32) -> Result<Vec<u8>, ManifestFault>
    requires { IsBody manifest.units (view manifest) }
    ensures spelled { IfOk result (λ body. body.items ≡ spelling (grown units (view manifest))) }
    ensures size { IfOk result (λ body. length body.items ≡ body_size) }
    ensures next { OnOk result (manifest.generation + 1 < 2 ^ 64) }
    ensures used_up { (result ≡ Err ManifestFault.UsedUp) ↔ (manifest.generation ≡ 2 ^ 64 - 1) }
    ensures fault { IfErr result
        (λ fault. (fault ≡ ManifestFault.UsedUp) ⊎ (fault ≡ ManifestFault.Memory)) }
{
    let generation = manifest.next_generation()?;
    let mut next = manifest;
    next.generation = generation;
    next.units = units;
    Ok(next.spell(alloc)?)
}

/// Puts the body of the next generation and of so many units in force, in place of a body of fewer
/// or of as many. The entries and the table stay where they are, and so does the version.
///
/// `UsedUp` where there is no next generation, and `Memory`: nothing changed. `Disk`: where a read
/// failed nothing changed, else each image has the old body or the new one.
pub fn grow_body<D: Disk>(
    alloc: Global,
    disk: &mut D,
    manifest: Manifest,
    spare: Half,
    units: u32,
) -> Result<(), ManifestFault>
    requires least { bodies_end ≤ 512 * manifest.units }
    requires longer { manifest.units ≤ units }
    requires room { units ≤ units_of_disk (D.content disk.old) }
    requires sound { IsBody manifest.units (view manifest) }
    requires current { D.honest → HasBody (store_bytes manifest.units (D.content disk.old))
        (other spare) (view manifest) }
    requires closed { D.honest → D.is_open disk.old ≡ nowhere }

    // Each image since the start holds the collection: in the units that the store had, or in these.
    ensures any_moment { D.honest → (c : Collection)
        → Holds (store_bytes manifest.units (D.content disk.old)) c
        → OnlyNew D.moment D.images_since disk.old disk.new
        (λ image. (length image ≡ length (D.content disk.old))
        × HoldsEither manifest.units units c image) }

    // After Ok the store has these units and holds the collection, and nothing is open.
    ensures done { D.honest → (c : Collection)
        → Holds (store_bytes manifest.units (D.content disk.old)) c
        → OnOk result (Holds (store_bytes units (D.content disk.new)) c) }
    ensures body { D.honest → (c : Collection)
        → Holds (store_bytes manifest.units (D.content disk.old)) c
        → OnOk result (HasBody (store_bytes units (D.content disk.new)) spare
        (grown units (view manifest))) }
    ensures closed { D.honest → OnOk result (D.is_open disk.new ≡ nowhere) }

    // Sizes and counts, on every disk.
    ensures size { length (D.content disk.new) ≡ length (D.content disk.old) }
    ensures cause { BodyCause D.Disk disk.old disk.new result }
    ensures fault { IfErr result IsSoundFault }
    ensures used_up { (result ≡ Err ManifestFault.UsedUp) ↔ (manifest.generation ≡ 2 ^ 64 - 1) }
    ensures unwritten { KeepsUnlessDisk result disk.old disk.new }
{
    let body = grown_body(alloc, manifest, units)?;
    let Ok(()) = replace_with(disk, spare, Pieces(&[]), &body) else {
        return Err(ManifestFault::Disk);
    };
    Ok(())
}
