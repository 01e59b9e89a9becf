//! Laws of snapshots, each the contract of a function with nothing to do.

ghost use Rattle.std.specs.Prelude.{◌≡◌, ◌≤◌, ◌+◌, true, false};
ghost use Rattle.pk_snapshot.specs.Shared.{SawOther};

use crate::disk::SnapshotDisk;
use crate::shared::SharedFile;
use pk_disk::Disk;

/// A snapshot of an honest file is an honest disk.
pub fn a_snapshot_of_an_honest_file_is_honest<F: SharedFile>()
    ensures { F.honest → ⟦<SnapshotDisk<F> as Disk>⟧.honest }
{}

/// While a snapshot of an honest file is not outdated, no more reads of it failed than calls of the
/// file failed or were interrupted.
pub fn a_snapshot_fails_by_its_file<F: SharedFile>(disk: &SnapshotDisk<F>)
    ensures { F.honest → disk.now.outdated ≡ false
        → ⟦<SnapshotDisk<F> as Disk>⟧.failed_reads disk.now
        ≤ F.failed disk.now.file + F.interrupted disk.now.file }
{}

/// A snapshot of an honest file is outdated only where another body was seen than the one that is
/// shown, or its gate as shut, since the bytes were marked.
pub fn a_snapshot_is_outdated_by_another_body<F: SharedFile>(disk: &SnapshotDisk<F>)
    ensures { F.honest → disk.now.outdated ≡ true → ∥ SawOther
        (F.marked disk.now.file) (F.content disk.now.file) disk.now.half disk.now.generation ∥₁ }
{}
