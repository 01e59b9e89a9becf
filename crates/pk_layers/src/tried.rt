//! A disk whose calls fail as planned.

use pk_disk::{Disk, DiskFault, FaultDisk, MemoryDisk};

/// A disk in memory below a `FaultDisk`. It promises nothing of its bytes in contracts: whoever is
/// asked about keeps its own on every disk.
#[derive(Drop)]
pub struct Tried {
    disk: FaultDisk<MemoryDisk>,
    failed_reads: u64,
    failed_writes: u64,
}

impl Tried {
    /// The disk.
    pub(crate) fn on(disk: FaultDisk<MemoryDisk>) -> Tried {
        Tried {
            disk,
            failed_reads: 0,
            failed_writes: 0,
        }
    }

    /// The disk below.
    pub(crate) fn into_inner(self) -> FaultDisk<MemoryDisk> {
        let Tried { disk, .. } = self;
        disk
    }
}

impl Disk for Tried {
    ghost content = { λ d. ⟦<FaultDisk<MemoryDisk> as Disk>⟧.content d.disk };

    ghost is_open = { λ d. ⟦<FaultDisk<MemoryDisk> as Disk>⟧.is_open d.disk };

    ghost moment = { λ d. 0 };

    ghost images_since = { λ d t image. ⊥ };

    ghost failed_reads = { λ d. d.failed_reads };

    ghost failed_writes = { λ d. d.failed_writes };

    ghost honest = { ⊥ };

    ghost counts_now = { λ d t image no le now. absurd no };

    ghost only_now = { λ d image no since. absurd no };

    fn len(&self) -> u64 {
        self.disk.len()
    }

    fn read(&mut self, at: u64, out: &mut [u8]) -> Result<(), DiskFault> {
        if self.disk.read(at, out).is_err() || self.failed_reads == u64::MAX {
            self.failed_reads = self.failed_reads.saturating_add(1);
            return Err(DiskFault);
        }
        Ok(())
    }

    fn write(&mut self, at: u64, bytes: &[u8]) -> Result<(), DiskFault> {
        if self.disk.write(at, bytes).is_err() || self.failed_writes == u64::MAX {
            self.failed_writes = self.failed_writes.saturating_add(1);
            return Err(DiskFault);
        }
        Ok(())
    }

    fn sync(&mut self) -> Result<(), DiskFault> {
        if self.disk.sync().is_err() || self.failed_writes == u64::MAX {
            self.failed_writes = self.failed_writes.saturating_add(1);
            return Err(DiskFault);
        }
        Ok(())
    }
}
