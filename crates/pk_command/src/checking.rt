//! A store, checked.

ghost use Rattle.std.specs.Prelude.{◌≡◌, ◌+◌};
ghost use Rattle.pk_command.specs.Endings.{CheckOutcome, FileCheckOutcome};
ghost use Rattle.pk_command.specs.Left.{files_in_hand};

use crate::left::Left;
use crate::opening::store_at;
use crate::reporting::{DONE, FAILED, OUTPUT, checking_reason, fail, opening_reason};
use crate::telling::tell_checked;
use pk_disk::Disk;
use pk_filedisk::{FileDisk, OpensFiles, RawFile};
use pk_store::Store;
use pk_within::Shortened;
use std::alloc::Global;
use std::io::Write;

/// Opens the store on a disk, reads all that is committed, tells what there is, and answers the
/// status, with the disk as the check left it.
fn check_on<D: Disk + Drop, W: Write, E: Write>(
    alloc: Global,
    disk: D,
    output: &mut W,
    faults: &mut E,
) -> (u8, D)
    ensures { CheckOutcome D.Disk disk result.1 (W.contents output.old) (W.contents output.new)
        (E.contents faults.old) (E.contents faults.new) result.0 }
{
    let mut store = match Store::open_on(alloc, disk, 0) {
        Ok(store) => store,
        Err(refused) => return (fail(faults, opening_reason(refused.why)), refused.disk),
    };
    let answered = store.check(alloc);
    let disk = store.close();
    let checked = match answered {
        Ok(checked) => checked,
        Err(why) => return (fail(faults, checking_reason(why)), disk),
    };
    match tell_checked(output, checked) {
        Ok(()) => (DONE, disk),
        Err(_) => (fail(faults, OUTPUT), disk),
    }
}

/// Checks the store in a file, tells what there is, and answers the status: 0, or 1 where the store
/// is none, is damaged, or could not be read or told. Each byte is read once, so that no page of the
/// file is kept. It hands back the disk in the file, or the file where it is no disk.
pub fn check<F: RawFile + Drop, S: OpensFiles<File = F>, W: Write, E: Write>(
    rt: &mut S,
    alloc: Global,
    path: &str,
    output: &mut W,
    faults: &mut E,
) -> (u8, Left<F, FileDisk<F>>)
    ensures ended { FileCheckOutcome ⟦<FileDisk<F> as Disk>⟧
        ⟦<Shortened<FileDisk<F>> as Disk>⟧ F.RawFile (λ s. s.disk) (λ d. d.file) (S.may_hold rt.old path.now) path.now
        (W.contents output.old) (W.contents output.new)
        (E.contents faults.old) (E.contents faults.new) result.0 result.1 }
    ensures opened { F.honest → S.opened rt.new ≡ S.opened rt.old + files_in_hand result.1 }
{
    let store = match store_at(rt, path, faults) {
        Ok(store) => store,
        Err(left) => return (FAILED, left),
    };
    let (status, disk) = check_on(alloc, store, output, faults);
    (status, Left::Disk(disk.into_inner()))
}
