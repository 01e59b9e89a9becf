//! The store in a disk that may be longer.

ghost use Rattle.std.specs.Prelude.{◌≡◌, ◌≤◌, ◌*◌, ℕ, length, IfErr, IfOk};
ghost use Rattle.pk_disk.specs.Disk.{IsCounted, Rose, nowhere};
ghost use Rattle.pk_disk.specs.Frames.{KeepsDisk};
ghost use Rattle.pk_disk.specs.Sizes.{least_units, most_units};
ghost use Rattle.pk_filedisk.specs.File.{IsDiskLength};
ghost use Rattle.pk_grow.specs.Growth.{session_units, store_bytes};
ghost use Rattle.pk_manifest.specs.Current.{units_of_disk};
ghost use Rattle.pk_model.specs.Collection.{Collection};
ghost use Rattle.pk_state.specs.Holds.{Holds};

use pk_disk::{Disk, DiskFault, UNIT, units_in};
use pk_manifest::{said_units, store_units};
use pk_within::Shortened;

/// The units of the store in a disk: as many as the body in force says, where the disk has them and
/// a store may, else all of the disk.
#[tactic(auto, using(crate::proofs::StoreLemmas::fits_disk, crate::proofs::StoreLemmas::least_store, crate::proofs::StoreLemmas::room_of))]
pub fn session_units<D: Disk>(disk: &mut D) -> Result<u32, DiskFault>
    requires { least_units ≤ units_of_disk (D.content disk.old) }
    ensures units { D.honest → IfOk result (λ units. units ≡ session_units (D.content disk.old)) }
    ensures least { IfOk result (λ units. least_units ≤ units) }
    ensures most { IfOk result (λ units. units ≤ units_of_disk (D.content disk.old)) }
    ensures keeps { KeepsDisk D.Disk disk.old disk.new }
    ensures reads { IsCounted (D.failed_reads disk.old) (D.failed_reads disk.new) result }
{
    let all = units_in(disk.len());
    let said = said_units(disk)?;
    Ok(store_units(all, said))
}

// The first units of a disk, as many as the store in it has.
fn cut<D: Disk + Drop>(mut disk: D) -> Result<Shortened<D>, D>
    requires { least_units ≤ units_of_disk (D.content disk) }
    ensures content { D.honest → IfOk result (λ s. ⟦<Shortened<D> as Disk>⟧.content s
        ≡ store_bytes (session_units (D.content disk)) (D.content disk)) }
    ensures closed { D.honest → D.is_open disk ≡ nowhere
        → IfOk result (λ s. ⟦<Shortened<D> as Disk>⟧.is_open s ≡ nowhere) }
    ensures size { IfOk result (λ s. IsDiskLength (length (⟦<Shortened<D> as Disk>⟧.content s))) }
    ensures below { IfOk result (λ s. KeepsDisk D.Disk disk s.disk) }
    ensures reads { IfOk result (λ s. ⟦<Shortened<D> as Disk>⟧.failed_reads s
        ≡ D.failed_reads disk) }
    ensures left { IfErr result (λ left. KeepsDisk D.Disk disk left) }
    ensures failed { IfErr result (λ left. Rose (D.failed_reads disk) (D.failed_reads left)) }
{
    let Ok(units) = session_units(&mut disk) else {
        return Err(disk);
    };
    Ok(Shortened::new(disk, u64::from(units) * UNIT))
}

/// The store in a disk that may be longer: as many units as the body in force says, where the disk
/// has them and a store may, else all whole units of the disk. Where a read failed, the disk is
/// handed back.
#[tactic(auto, using(crate::proofs::StoreLemmas::opened_by))]
pub fn store_on<D: Disk + Drop>(disk: D) -> Result<Shortened<D>, D>
    requires { least_units ≤ units_of_disk (D.content disk) }
    ensures content { D.honest → IfOk result (λ s. ⟦<Shortened<D> as Disk>⟧.content s
        ≡ store_bytes (session_units (D.content disk)) (D.content disk)) }
    ensures closed { D.honest → D.is_open disk ≡ nowhere
        → IfOk result (λ s. ⟦<Shortened<D> as Disk>⟧.is_open s ≡ nowhere) }

    // Where first units of the disk hold a collection, the store that is opened holds it.
    ensures holds { D.honest → IfOk result (λ s. (units : ℕ) (c : Collection)
        → least_units ≤ units → units ≤ most_units → 512 * units ≤ length (D.content disk)
        → Holds (store_bytes units (D.content disk)) c
        → Holds (⟦<Shortened<D> as Disk>⟧.content s) c) }

    // The disk below is only read, on every disk.
    ensures size { IfOk result (λ s. IsDiskLength (length (⟦<Shortened<D> as Disk>⟧.content s))) }
    ensures below { IfOk result (λ s. KeepsDisk D.Disk disk s.disk) }
    ensures reads { IfOk result (λ s. ⟦<Shortened<D> as Disk>⟧.failed_reads s
        ≡ D.failed_reads disk) }
    ensures left { IfErr result (λ left. KeepsDisk D.Disk disk left) }
    ensures failed { IfErr result (λ left. Rose (D.failed_reads disk) (D.failed_reads left)) }
{
    cut(disk)
}
