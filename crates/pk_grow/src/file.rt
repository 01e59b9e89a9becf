//! The store in a file, grown: the file is made longer, and then the store.

ghost use Rattle.std.specs.Prelude.{◌≡◌, ◌≤◌, ◌<◌, ◌*◌, length, IfErr, IfOk};
ghost use Rattle.pk_disk.specs.Disk.{nowhere};
ghost use Rattle.pk_disk.specs.Sizes.{least_units, most_units};
ghost use Rattle.pk_grow.specs.GrownFile.{GrowsFile, greater};
ghost use Rattle.pk_grow.specs.Shutting.{GetsLonger, shutting};
ghost use Rattle.pk_manifest.specs.Bodies.{bodies_end};
ghost use Rattle.pk_manifest.specs.Current.{units_of_disk};

use crate::fault::{GrowFault, Growth};
use crate::growing::grow_body;
use crate::store::body_due;
use pk_disk::{Disk, UNIT};
use pk_filedisk::{FileDisk, RawFile};
use pk_manifest::{CLOSED, Half, ManifestFault, gate_open};
use std::alloc::Global;

// What is to be written over a gate to shut it: nothing where it is shut.
fn shutting(is_open: bool) -> &'static [u8]
    ensures { result.now ≡ shutting is_open }
{
    if is_open { &[CLOSED] } else { &[] }
}

// A disk in a file, made longer, and one sync for that and for the gate that is to be written to next,
// which is shut; or the file, where the system refused it.
fn shut_and_lengthened<F: RawFile + Drop>(
    disk: FileDisk<F>,
    len: u64,
    spare: Half,
) -> Result<FileDisk<F>, F>
    requires size { bodies_end ≤ length (⟦<FileDisk<F> as Disk>⟧.content disk) }
    requires longer { length (⟦<FileDisk<F> as Disk>⟧.content disk) < len }
    requires closed { F.honest → ⟦<FileDisk<F> as Disk>⟧.is_open disk ≡ nowhere }
    ensures size { IfOk result (λ d. length (⟦<FileDisk<F> as Disk>⟧.content d) ≡ len) }
    ensures closed { F.honest → IfOk result (λ d. ⟦<FileDisk<F> as Disk>⟧.is_open d ≡ nowhere) }
    ensures longer { F.honest → IfOk result (λ d. GetsLonger F.RawFile
        (⟦<FileDisk<F> as Disk>⟧.content disk) spare disk.file d.file
        (⟦<FileDisk<F> as Disk>⟧.content d)) }
    ensures left { F.honest → IfErr result (λ f. GetsLonger F.RawFile
        (⟦<FileDisk<F> as Disk>⟧.content disk) spare disk.file f (F.content f)) }
{
    let mut disk = disk;
    let Ok(is_open) = gate_open(&mut disk, spare) else {
        return Err(disk.into_file());
    };
    disk.lengthen(len, spare.gate(), shutting(is_open))
}

// A disk in a file, made longer where it has fewer units than that, with the spare gate shut; or the
// file, where the system refused it.
fn longer<F: RawFile + Drop>(disk: FileDisk<F>, units: u32, spare: Half) -> Result<FileDisk<F>, F>
    requires least { least_units ≤ units_of_disk (⟦<FileDisk<F> as Disk>⟧.content disk) }
    requires most { units ≤ most_units }
    requires closed { F.honest → ⟦<FileDisk<F> as Disk>⟧.is_open disk ≡ nowhere }
    ensures room { IfOk result
        (λ d. units ≤ units_of_disk (⟦<FileDisk<F> as Disk>⟧.content d)) }
    ensures size { IfOk result (λ d. length (⟦<FileDisk<F> as Disk>⟧.content d)
        ≡ greater (length (⟦<FileDisk<F> as Disk>⟧.content disk)) (512 * units)) }
    ensures closed { F.honest → IfOk result (λ d. ⟦<FileDisk<F> as Disk>⟧.is_open d ≡ nowhere) }
    ensures longer { F.honest → IfOk result (λ d. GetsLonger F.RawFile
        (⟦<FileDisk<F> as Disk>⟧.content disk) spare disk.file d.file
        (⟦<FileDisk<F> as Disk>⟧.content d)) }
    ensures left { F.honest → IfErr result (λ f. GetsLonger F.RawFile
        (⟦<FileDisk<F> as Disk>⟧.content disk) spare disk.file f (F.content f)) }
{
    let len = u64::from(units) * UNIT;
    if len <= disk.len() {
        return Ok(disk);
    }
    shut_and_lengthened(disk, len, spare)
}

/// Grows the store in the disk of a file to so many units, and makes the file longer before, where
/// it has fewer. With nothing open at the start. The file is handed back beside the answer.
///
/// The answers are those of `grow`; `Disk` also where the file was not made longer. A file is not
/// made longer unless its store is to grow. At `UsedUp` and `Memory` it may be longer by then, with
/// the gate of the spare half shut.
pub fn grow_file<F: RawFile + Drop>(
    alloc: Global,
    disk: FileDisk<F>,
    units: u32,
) -> (Result<Growth, GrowFault>, F)
    requires least { least_units ≤ units_of_disk (⟦<FileDisk<F> as Disk>⟧.content disk) }
    requires most { units ≤ most_units }
    requires closed { F.honest → ⟦<FileDisk<F> as Disk>⟧.is_open disk ≡ nowhere }
    ensures { F.honest → GrowsFile F.RawFile (⟦<FileDisk<F> as Disk>⟧.content disk) disk.file result.1
        units result.0 }
{
    let mut disk = disk;
    let (manifest, half) = match body_due(alloc, &mut disk, units) {
        Ok(Some(found)) => found,
        Ok(None) => return (Ok(Growth::AsItWas), disk.into_file()),
        Err(fault) => return (Err(fault), disk.into_file()),
    };
    let spare = half.other();
    let mut disk = match longer(disk, units, spare) {
        Ok(disk) => disk,
        Err(file) => return (Err(GrowFault::Store(ManifestFault::Disk)), file),
    };
    match grow_body(alloc, &mut disk, manifest, spare, units) {
        Ok(()) => (Ok(Growth::Grown), disk.into_file()),
        Err(fault) => (Err(GrowFault::Store(fault)), disk.into_file()),
    }
}
