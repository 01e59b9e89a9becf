//! A store that grows.

ghost use Rattle.std.specs.Prelude.{◌≡◌, ◌≤◌, ◌+◌};
ghost use Rattle.pk_arguments.specs.Sizes.{IsOfSize};
ghost use Rattle.pk_command.specs.Endings.{FileGrowthOutcome, GrowthOutcome};
ghost use Rattle.pk_command.specs.Left.{files_in_hand};
ghost use Rattle.pk_disk.specs.Disk.{nowhere};
ghost use Rattle.pk_disk.specs.Sizes.{least_units};
ghost use Rattle.pk_manifest.specs.Current.{units_of_disk};

use crate::left::{Left, left_of};
use crate::reporting::{DONE, OUTPUT, fail, file_reason, growing_reason};
use crate::telling::tell_growth;
use pk_disk::Disk;
use pk_filedisk::{FileDisk, OpensFiles, RawFile};
use pk_grow::grow_file;
use std::alloc::Global;
use std::io::Write;

/// Grows the store in the disk of a file to so many units, tells what came of it, and answers the
/// status, with the file as the growth left it.
fn grow_on<F: RawFile + Drop, W: Write, E: Write>(
    alloc: Global,
    disk: FileDisk<F>,
    units: u64,
    output: &mut W,
    faults: &mut E,
) -> (u8, F)
    requires size { IsOfSize units }
    requires least { least_units ≤ units_of_disk (⟦<FileDisk<F> as Disk>⟧.content disk) }
    requires closed { F.honest → ⟦<FileDisk<F> as Disk>⟧.is_open disk ≡ nowhere }
    ensures { GrowthOutcome F.RawFile (⟦<FileDisk<F> as Disk>⟧.content disk) disk.file result.1 units
        (W.contents output.old) (W.contents output.new)
        (E.contents faults.old) (E.contents faults.new) result.0 }
{
    let (answer, file) = grow_file(alloc, disk, units as u32);
    let growth = match answer {
        Ok(growth) => growth,
        Err(fault) => return (fail(faults, growing_reason(fault)), file),
    };
    match tell_growth(output, growth, units) {
        Ok(()) => (DONE, file),
        Err(_) => (fail(faults, OUTPUT), file),
    }
}

/// Gives the store in a file so many units, tells that, and answers the status: 0, or 1 where it has
/// not these units or it could not be told. It hands back the file.
pub fn grow<F: RawFile + Drop, S: OpensFiles<File = F>, W: Write, E: Write>(
    rt: &mut S,
    alloc: Global,
    path: &str,
    units: u64,
    output: &mut W,
    faults: &mut E,
) -> (u8, Left<F, FileDisk<F>>)
    requires { IsOfSize units }
    ensures ended { FileGrowthOutcome ⟦<FileDisk<F> as Disk>⟧ F.RawFile
        (λ d. d.file) (S.may_hold rt.old path.now) path.now units
        (W.contents output.old) (W.contents output.new)
        (E.contents faults.old) (E.contents faults.new) result.0 result.1 }
    ensures opened { F.honest → S.opened rt.new ≡ S.opened rt.old + files_in_hand result.1 }
{
    match FileDisk::on(rt, path) {
        Ok(disk) => {
            let (status, file) = grow_on(alloc, disk, units, output, faults);
            (status, Left::File(file))
        }
        Err(none) => (fail(faults, file_reason(none.why)), left_of(none.file)),
    }
}
