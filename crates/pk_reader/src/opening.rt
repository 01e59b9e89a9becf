//! One opening of a file.

ghost use Rattle.std.specs.Prelude.{◌≡◌, ◌≤◌, ◌+◌, IfErr, IfOk, cond};
ghost use Rattle.pk_manifest.specs.Evolves.{in_force};
ghost use Rattle.pk_reader.specs.Causes.{IsCausedBy};
ghost use Rattle.pk_reader.specs.Faults.{showing_fault};
ghost use Rattle.pk_reader.specs.Refused.{RefusedOpening};

use crate::shown::Shown;
use pk_disk::Disk;
use pk_pages::PageCache;
use pk_snapshot::{Refused, SharedFile, SnapshotDisk, SnapshotFault};
use pk_store::OpenFault;
use std::alloc::Global;

/// A store over what is shown of a file.
pub type Open<F> = Shown<PageCache<SnapshotDisk<F>>>;

/// How much of the file is kept in memory.
#[derive(Clone, Copy, Debug, PartialEq, Eq, Drop)]
pub struct Caches {
    /// The most pages, of 4,096 bytes each.
    pub pages: usize,
    /// The most decoded blocks of posting lists.
    pub blocks: u32,
}

// Why no store was opened, as of a snapshot.
fn fault_of(why: OpenFault) -> SnapshotFault
    ensures { result ≡ showing_fault why }
{
    match why {
        OpenFault::TooSmall => SnapshotFault::TooSmall,
        OpenFault::NotAStore => SnapshotFault::NotAStore,
        OpenFault::Damaged => SnapshotFault::Damaged,
        OpenFault::Disk => SnapshotFault::Disk,
        OpenFault::Memory => SnapshotFault::Memory,
    }
}

// The file below, and why there is no store over it. Where what was shown is outdated, that is why.
fn hand_back<F: SharedFile>(disk: PageCache<SnapshotDisk<F>>, why: SnapshotFault) -> Refused<F>
    ensures file { result.file ≡ disk.disk.file }
    ensures why { result.why ≡ cond disk.disk.outdated SnapshotFault.Changed why }
{
    let disk = disk.into_inner();
    let why = if disk.is_outdated() {
        SnapshotFault::Changed
    } else {
        why
    };
    Refused {
        file: disk.into_file(),
        why,
    }
}

/// Opens what is in force on a file. The file is handed back with a refusal.
pub fn open_file<F: SharedFile + Drop>(
    alloc: Global,
    caches: Caches,
    file: F,
) -> Result<Open<F>, Refused<F>>
    ensures fresh { F.honest → IfOk result (λ s. in_force (F.content file)
        ≤ in_force (⟦<PageCache<SnapshotDisk<F>> as Disk>⟧.content s.store.volume.disk)) }
    ensures later { F.honest → IfErr result
        (λ r. in_force (F.content file) ≤ in_force (F.content r.file)) }
    ensures refused { F.honest → IfErr result (λ r. RefusedOpening (F.content file)
        (F.content r.file) (F.marked r.file) r.why) }
    ensures cause { F.honest → IfErr result (λ r. IsCausedBy (F.content file)
        (F.failed r.file + F.interrupted r.file) r.why) }
{
    let disk = match SnapshotDisk::open(alloc, file) {
        Ok(disk) => disk,
        Err(refused) => return Err(refused),
    };
    let disk = PageCache::new(alloc, disk, caches.pages);
    match Shown::open(alloc, disk, caches.blocks) {
        Ok(view) => Ok(view),
        Err(refused) => Err(hand_back(refused.disk, fault_of(refused.why))),
    }
}

/// The file of a store, and why it isn't asked any more.
pub fn close<F: SharedFile>(view: Open<F>, why: SnapshotFault) -> Refused<F>
    ensures file { result.file ≡ view.store.volume.disk.disk.file }
    ensures why { result.why
        ≡ cond view.store.volume.disk.disk.outdated SnapshotFault.Changed why }
{
    hand_back(view.close(), why)
}
