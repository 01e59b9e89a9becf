//! The disk in a file.

ghost use Rattle.std.specs.Prelude.{◌≡◌, ◌≤◌, ◌<◌, ◌+◌, ◌*◌, length, replicate};
ghost use Rattle.std.specs.Prelude.{IfErr, IfOk, IfSome, IsSome, IsTrue, false};
ghost use Rattle.pk_disk.specs.Disk.{in_range, nowhere, opened, written};
ghost use Rattle.pk_disk.specs.Sizes.{least_units, most_units};
ghost use Rattle.pk_disk.specs.Since.{OnlyNew};
ghost use Rattle.pk_filedisk.specs.File.{IsDiskLength, IsOfLock, IsOfMake, IsOfOpening};
ghost use Rattle.pk_filedisk.specs.Found.{IsFound, IsLeftByMaking, IsLeftByOpening, IsNewAt};
ghost use Rattle.pk_filedisk.specs.Found.{files_left};
ghost use Rattle.pk_filedisk.specs.Locking.{refused_by};
ghost use Rattle.pk_filedisk.specs.Raw.{IsExtended, IsSameFile};
ghost use Rattle.pk_filedisk.specs.Resized.{resized};

use crate::fault::{FileFault, NotADisk};
use crate::raw::{LockFault, RawFile};
use crate::system::{FileSystem, OpensFiles};
use crate::whole::{read_whole, write_whole};
use pk_disk::{Disk, DiskFault, LEAST_UNITS, MAX_UNITS, UNIT};

/// A file as a disk. Over an honest file it is honest. Its length is read once, as it is made or
/// opened, and need not be a whole number of units. The file is locked until the disk is dropped.
/// After a sync that failed each later one does, and the file is not asked.
#[derive(Drop)]
pub struct FileDisk<F: RawFile> {
    file: F,
    len: u64,
    failed_reads: u64,
    failed_writes: u64,
    // A sync failed, so what the file answered to another one would say nothing.
    unsure: bool,
    ghost locked: { IsTrue (F.is_locked file) },
    ghost settled: { IsTrue (F.is_settled file) },
    ghost sure: { unsure ≡ false → IsTrue (F.is_sure file) },
    ghost fits: { F.honest → length (F.content file) ≡ len },
}

impl<F: RawFile + Drop> FileDisk<F> {
    /// Makes a file of `units` units of zero bytes, locks it, and syncs its length and its folder's
    /// entry.
    ///
    /// `Exists` where there is something at the path, and then it makes no file; `InUse` where another
    /// opening of the file was quicker to lock it; or `Disk`, with the file where it was made.
    #[tactic(auto, using(crate::proofs::ResizedLemmas::length_resized, crate::proofs::ResizedLemmas::resized_zeros, crate::proofs::LockLemmas::fault_of_creation, crate::proofs::LockLemmas::nothing_made, crate::proofs::LockLemmas::fault_of_making, crate::proofs::LockLemmas::left_by_making))]
    pub fn make<S: FileSystem<File = F>>(
        system: &mut S,
        path: &str,
        units: u64,
    ) -> Result<FileDisk<F>, NotADisk<F>>
        requires least { least_units ≤ units }
        requires most { units ≤ most_units }
        ensures size { IfOk result
            (λ d. length (⟦<FileDisk<F> as Disk>⟧.content d) ≡ units * 512) }
        ensures zeros { F.honest → IfOk result
            (λ d. ⟦<FileDisk<F> as Disk>⟧.content d ≡ replicate (units * 512) 0) }
        ensures closed { F.honest → IfOk result
            (λ d. ⟦<FileDisk<F> as Disk>⟧.is_open d ≡ nowhere) }
        ensures new { F.honest → IfOk result (λ d. IsNewAt F.is_new F.path path.now d.file) }
        ensures named { IfOk result (λ d. IsTrue (F.is_named d.file)) }
        ensures reads { IfOk result (λ d. ⟦<FileDisk<F> as Disk>⟧.failed_reads d ≡ 0) }
        ensures writes { IfOk result (λ d. ⟦<FileDisk<F> as Disk>⟧.failed_writes d ≡ 0) }

        // What it leaves where it makes no disk, and how many files it was given.
        ensures fault { IfErr result (λ none. IsOfMake none.why) }
        ensures left { F.honest → IfErr result (λ none. IsLeftByMaking
            (IsNewAt F.is_new F.path path.now) none.why none.file) }
        ensures opened { F.honest → S.opened system.new ≡ S.opened system.old + files_left result }
    {
        let made = match system.create(path) {
            Ok(file) => file,
            Err(why) => return Err(NotADisk::without_file(why)),
        };
        let mut file = locked(made)?;
        let len = units * UNIT;
        if file.set_len(len).is_err()
            || file.sync_all().is_err()
            || system.sync_folder(path, &mut file).is_err()
        {
            return Err(NotADisk::refused(file));
        }
        Ok(FileDisk::of_file(file, len))
    }

    /// Opens a file, locks it and syncs its length.
    ///
    /// `Missing` where there is nothing at the path, `BadLength` where the file has less than 64
    /// whole units or more than 2^31, `InUse` where another opening of the file holds its lock, or
    /// `Disk`. A file that was opened is handed back, with the bytes that it had.
    #[tactic(auto, using(crate::proofs::ResizedLemmas::length_resized, crate::specs::Resized::resized_same, crate::proofs::LockLemmas::fault_of_opening, crate::proofs::LockLemmas::left_by_opening))]
    pub fn on<S: OpensFiles<File = F>>(
        system: &mut S,
        path: &str,
    ) -> Result<FileDisk<F>, NotADisk<F>>
        ensures size { IfOk result
            (λ d. IsDiskLength (length (⟦<FileDisk<F> as Disk>⟧.content d))) }
        ensures holds { F.honest → IfOk result
            (λ d. S.may_hold system.old path.now (⟦<FileDisk<F> as Disk>⟧.content d)) }
        ensures path { F.honest → IfOk result (λ d. F.path d.file ≡ path.now) }
        ensures closed { F.honest → IfOk result
            (λ d. ⟦<FileDisk<F> as Disk>⟧.is_open d ≡ nowhere) }
        ensures reads { IfOk result (λ d. ⟦<FileDisk<F> as Disk>⟧.failed_reads d ≡ 0) }
        ensures writes { IfOk result (λ d. ⟦<FileDisk<F> as Disk>⟧.failed_writes d ≡ 0) }

        // What it leaves where it opens no disk, and how many files it was given.
        ensures fault { IfErr result (λ none. IsOfOpening none.why) }
        ensures left { F.honest → IfErr result (λ none. IsLeftByOpening F.content
            (IsFound F.content F.path (S.may_hold system.old path.now) path.now)
            none.why none.file) }
        ensures opened { F.honest → S.opened system.new ≡ S.opened system.old + files_left result }
    {
        let found = match system.open(path) {
            Ok(file) => file,
            Err(why) => return Err(NotADisk::without_file(why)),
        };
        let mut file = locked(found)?;
        let Ok(()) = file.sync_all() else {
            return Err(NotADisk::refused(file));
        };
        let Ok(len) = file.len() else {
            return Err(NotADisk::refused(file));
        };
        if len / UNIT < u64::from(LEAST_UNITS) || len / UNIT > MAX_UNITS {
            return Err(NotADisk {
                why: FileFault::BadLength,
                file: Some(file),
            });
        }
        Ok(FileDisk::of_file(file, len))
    }

    /// The same file made longer, by zeros, with these bytes put in the part that it had, and both
    /// synced at once. No write of the disk counts as failed so far.
    ///
    /// `Err` hands the file back, where the system refused that, or where a sync failed before: as
    /// long as it was it has the bytes of the disk; and longer, it begins with them, but for those that
    /// were to be put. So does what a crash leaves of it.
    #[tactic(auto, using(crate::proofs::ResizedLemmas::length_resized, crate::specs::Resized::resized_same, crate::proofs::ResizedLemmas::start_same, crate::proofs::ResizedLemmas::start_self))]
    pub fn lengthen(self, len: u64, at: u64, bytes: &[u8]) -> Result<FileDisk<F>, F>
        requires longer { length (⟦<FileDisk<F> as Disk>⟧.content self) < len }
        requires inside { at + length bytes.now ≤ length (⟦<FileDisk<F> as Disk>⟧.content self) }
        ensures size { IfOk result
            (λ d. length (⟦<FileDisk<F> as Disk>⟧.content d) ≡ len) }
        ensures content { F.honest → IfOk result (λ d. ⟦<FileDisk<F> as Disk>⟧.content d
            ≡ resized len (written (⟦<FileDisk<F> as Disk>⟧.content self) at bytes.now)) }
        ensures closed { F.honest → IfOk result
            (λ d. ⟦<FileDisk<F> as Disk>⟧.is_open d ≡ nowhere) }
        ensures images { F.honest → IfOk result
            (λ d. OnlyNew F.moment F.images_since self.file d.file
            (IsExtended (⟦<FileDisk<F> as Disk>⟧.content self)
            (opened (⟦<FileDisk<F> as Disk>⟧.is_open self) at (length bytes.now)))) }
        ensures same { IfOk result (λ d. IsSameFile F.is_new F.path self.file d.file) }
        ensures reads { IfOk result (λ d. ⟦<FileDisk<F> as Disk>⟧.failed_reads d ≡ 0) }
        ensures writes { IfOk result (λ d. ⟦<FileDisk<F> as Disk>⟧.failed_writes d ≡ 0) }

        // What it leaves of the file where it is refused: nothing was written, unless it is longer.
        ensures unchanged { F.honest → IfErr result
            (λ f. length (F.content f) ≡ length (⟦<FileDisk<F> as Disk>⟧.content self)
            → F.content f ≡ ⟦<FileDisk<F> as Disk>⟧.content self) }
        ensures start { F.honest → IfErr result
            (λ f. IsExtended (⟦<FileDisk<F> as Disk>⟧.content self)
            (in_range at (length bytes.now)) (F.content f)) }
        ensures images_left { F.honest → IfErr result
            (λ f. OnlyNew F.moment F.images_since self.file f
            (IsExtended (⟦<FileDisk<F> as Disk>⟧.content self)
            (opened (⟦<FileDisk<F> as Disk>⟧.is_open self) at (length bytes.now)))) }
        ensures same_left { IfErr result (λ f. IsSameFile F.is_new F.path self.file f) }
    {
        let FileDisk {
            mut file,
            unsure,
            ..
        } = self;
        if unsure || file.set_len(len).is_err() {
            return Err(file);
        }
        let Ok(()) = write_whole(&mut file, at, bytes) else {
            return Err(file);
        };
        if file.sync_all().is_err() {
            return Err(file);
        }
        Ok(FileDisk::of_file(file, len))
    }

    /// The file, still locked.
    pub fn into_file(self) -> F
        ensures { result ≡ self.file }
    {
        let FileDisk { file, .. } = self;
        file
    }

    // The disk in a file of that length, with nothing failed so far.
    fn of_file(file: F, len: u64) -> FileDisk<F>
        requires locked { IsTrue (F.is_locked file) }
        requires settled { IsTrue (F.is_settled file) }
        requires sure { IsTrue (F.is_sure file) }
        requires fits { F.honest → length (F.content file) ≡ len }
        ensures file { result.file ≡ file }
        ensures len { result.len ≡ len }
        ensures reads { result.failed_reads ≡ 0 }
        ensures writes { result.failed_writes ≡ 0 }
    {
        FileDisk {
            file,
            len,
            failed_reads: 0,
            failed_writes: 0,
            unsure: false,
        }
    }
}

// The file, once it is locked.
fn locked<F: RawFile + Drop>(mut file: F) -> Result<F, NotADisk<F>>
    ensures locked { IfOk result (λ f. IsTrue (F.is_locked f)) }
    ensures bytes { F.honest → IfOk result (λ f. F.content f ≡ F.content file) }
    ensures same { IfOk result (λ f. IsSameFile F.is_new F.path file f) }
    ensures sure { IfOk result (λ f. F.is_sure f ≡ F.is_sure file) }
    ensures fault { IfErr result (λ none. IsOfLock none.why) }
    ensures left { F.honest → IfErr result
        (λ none. IfSome none.file (λ f. F.content f ≡ F.content file)) }
    ensures same_left { IfErr result (λ none. IfSome none.file (IsSameFile F.is_new F.path file)) }
    ensures handed { IfErr result (λ none. IsSome none.file) }

    // In use is told where another opening holds the lock, not where the system refused the call.
    ensures counted { F.honest → IfErr result (λ none. IfSome none.file
        (λ f. F.refused f ≡ F.refused file + refused_by none.why)) }
{
    match file.try_lock() {
        Ok(()) => Ok(file),
        Err(LockFault::Held) => Err(NotADisk::in_use(file)),
        Err(LockFault::Failed) => Err(NotADisk::refused(file)),
    }
}

#[tactic(auto, using(crate::proofs::ResizedLemmas::length_resized, crate::specs::Resized::resized_same))]
impl<F: RawFile> Disk for FileDisk<F> {
    ghost use Rattle.pk_filedisk.specs.Resized.{resized, image_of_resized, image_resized};

    ghost content = { λ d. resized d.len (F.content d.file) };

    ghost is_open = { λ d. F.is_open d.file };

    ghost moment = { λ d. F.moment d.file };

    ghost images_since = { λ d. F.images_since d.file };

    ghost failed_reads = { λ d. d.failed_reads };

    ghost failed_writes = { λ d. d.failed_writes };

    ghost honest = { F.honest };

    fn len(&self) -> u64 {
        self.len
    }

    fn read(&mut self, at: u64, out: &mut [u8]) -> Result<(), DiskFault> {
        if self.failed_reads == u64::MAX {
            return Err(DiskFault);
        }
        let Ok(()) = read_whole(&mut self.file, at, out) else {
            self.failed_reads += 1;
            return Err(DiskFault);
        };
        Ok(())
    }

    fn write(&mut self, at: u64, bytes: &[u8]) -> Result<(), DiskFault> {
        if self.failed_writes == u64::MAX {
            return Err(DiskFault);
        }
        let Ok(()) = write_whole(&mut self.file, at, bytes) else {
            self.failed_writes += 1;
            return Err(DiskFault);
        };
        Ok(())
    }

    fn sync(&mut self) -> Result<(), DiskFault> {
        if self.failed_writes == u64::MAX {
            return Err(DiskFault);
        }
        if self.unsure {
            self.failed_writes += 1;
            return Err(DiskFault);
        }
        let Ok(()) = self.file.sync_data() else {
            self.unsure = true;
            self.failed_writes += 1;
            return Err(DiskFault);
        };
        Ok(())
    }

    ghost counts_now = { λ disk t image honest le now.
        F.counts_now disk.file t image honest disk.settled le
        (image_of_resized disk.len (F.content disk.file) (F.is_open disk.file) image
        (disk.fits honest) now) };

    ghost only_now = { λ disk image honest since.
        image_resized disk.len (F.content disk.file) (F.is_open disk.file) image
        (disk.fits honest) (F.only_now disk.file image honest disk.settled since) };
}
