//! The store in a file, shown as a disk.

ghost use Rattle.std.specs.Prelude.{◌≡◌, ◌+◌, IfErr, IfOk};
ghost use Rattle.pk_command.specs.Endings.{IsStoreAt, NoStoreAt};
ghost use Rattle.pk_command.specs.Left.{files_in_hand};

use crate::left::{Left, left_of};
use crate::reporting::{DISK, FAILED, fail, file_reason};
use pk_disk::Disk;
use pk_filedisk::{FileDisk, OpensFiles, RawFile};
use pk_grow::store_on;
use pk_within::Shortened;
use std::io::Write;

/// The store in the file at a path, as a disk of its units. Where there is none to be opened it
/// tells why, and hands back what it has of the file.
pub fn store_at<F: RawFile + Drop, S: OpensFiles<File = F>, E: Write>(
    rt: &mut S,
    path: &str,
    faults: &mut E,
) -> Result<Shortened<FileDisk<F>>, Left<F, FileDisk<F>>>
    ensures at { IfOk result (λ s. IsStoreAt ⟦<FileDisk<F> as Disk>⟧
        ⟦<Shortened<FileDisk<F>> as Disk>⟧ F.RawFile (λ s. s.disk) (λ d. d.file)
        (S.may_hold rt.old path.now) path.now s) }
    ensures told { IfOk result (λ s. E.contents faults.new ≡ E.contents faults.old) }
    ensures none { IfErr result (λ left. NoStoreAt ⟦<FileDisk<F> as Disk>⟧ F.RawFile (λ d. d.file)
        (S.may_hold rt.old path.now) path.now
        (E.contents faults.old) (E.contents faults.new) FAILED left) }

    // No file is opened but the one in hand.
    ensures opened { F.honest → IfOk result (λ s. S.opened rt.new ≡ S.opened rt.old + 1) }
    ensures held { F.honest → IfErr result
        (λ left. S.opened rt.new ≡ S.opened rt.old + files_in_hand left) }
{
    let file = match FileDisk::on(rt, path) {
        Ok(file) => file,
        Err(none) => {
            fail(faults, file_reason(none.why));
            return Err(left_of(none.file));
        }
    };
    match store_on(file) {
        Ok(store) => Ok(store),
        Err(file) => {
            fail(faults, DISK);
            Err(Left::Disk(file))
        }
    }
}
