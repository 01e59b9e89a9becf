//! A new store.

ghost use Rattle.std.specs.Prelude.{◌≡◌, ◌+◌};
ghost use Rattle.pk_arguments.specs.Sizes.{IsOfSize};
ghost use Rattle.pk_command.specs.Endings.{CreationOutcome, FileCreationOutcome};
ghost use Rattle.pk_command.specs.Left.{files_in_hand};

use crate::left::{Left, left_of};
use crate::reporting::{DONE, OUTPUT, creating_reason, fail, file_reason};
use crate::telling::tell_made;
use pk_disk::Disk;
use pk_filedisk::{FileDisk, FileSystem, RawFile};
use pk_store::Store;
use std::alloc::Global;
use std::io::Write;

/// Makes an empty store on a disk of so many units, tells that, and answers the status, with the
/// disk as the making left it.
fn create_on<D: Disk, W: Write, E: Write>(
    alloc: Global,
    disk: D,
    units: u64,
    output: &mut W,
    faults: &mut E,
) -> (u8, D)
    ensures { CreationOutcome D.Disk disk result.1 units
        (W.contents output.old) (W.contents output.new)
        (E.contents faults.old) (E.contents faults.new) result.0 }
{
    let disk = match Store::create(alloc, disk, 0) {
        Ok(store) => store.close(),
        Err(refused) => return (fail(faults, creating_reason(refused.why)), refused.disk),
    };
    match tell_made(output, units) {
        Ok(()) => (DONE, disk),
        Err(_) => (fail(faults, OUTPUT), disk),
    }
}

/// Makes a file of so many units with an empty store, tells that, and answers the status: 0, or 1
/// where there is none or it could not be told. It hands back the disk in the file, or the file where
/// it was made and is no disk.
pub fn create<F: RawFile + Drop, S: FileSystem<File = F>, W: Write, E: Write>(
    rt: &mut S,
    alloc: Global,
    path: &str,
    units: u64,
    output: &mut W,
    faults: &mut E,
) -> (u8, Left<F, FileDisk<F>>)
    requires { IsOfSize units }
    ensures ended { FileCreationOutcome ⟦<FileDisk<F> as Disk>⟧ F.RawFile
        (λ d. d.file) path.now units
        (W.contents output.old) (W.contents output.new)
        (E.contents faults.old) (E.contents faults.new) result.0 result.1 }
    ensures opened { F.honest → S.opened rt.new ≡ S.opened rt.old + files_in_hand result.1 }
{
    match FileDisk::make(rt, path, units) {
        Ok(disk) => {
            let (status, disk) = create_on(alloc, disk, units, output, faults);
            (status, Left::Disk(disk))
        }
        Err(none) => (fail(faults, file_reason(none.why)), left_of(none.file)),
    }
}
