//! A disk in memory.
ghost use Rattle.std.specs.Prelude.{◌≡◌, ◌≤◌, ◌+◌, ◌-◌, length, reverse, OnOk};
ghost use Rattle.std.specs.Prelude.{OnErr};
ghost use Rattle.pk_disk.specs.Disk.{IsImage, IsCounted, IsPartWritten, nowhere, opened, written};
ghost use Rattle.pk_disk.specs.Since.{OnlyNew, StayKnown};
ghost use Rattle.pk_disk.specs.Crash.{crashed};
ghost use Rattle.pk_disk.specs.Memory.{open_after, ImageBack, image_now, only_image_now};

use crate::record::{Call, with_picks};
use crate::{Disk, DiskFault};
use std::alloc::Global;

/// A disk in memory, with a record of its writes and syncs.
///
/// Its reads never fail. A write or a sync fails only where its record finds no memory, and then
/// changes no byte and opens and closes no position.
#[derive(Drop)]
pub struct MemoryDisk {
    alloc: Global,
    bytes: Vec<u8>,
    // The oldest first.
    calls: Vec<Call>,
    failed_writes: u64,
}

impl MemoryDisk {
    /// A disk of these bytes, with nothing open and no failure counted.
    pub fn of_bytes(alloc: Global, bytes: Vec<u8>) -> Self
        ensures bytes { ⟦<MemoryDisk as Disk>⟧.content result ≡ bytes.items }
        ensures is_open { ⟦<MemoryDisk as Disk>⟧.is_open result ≡ nowhere }
        ensures reads { ⟦<MemoryDisk as Disk>⟧.failed_reads result ≡ 0 }
        ensures writes { ⟦<MemoryDisk as Disk>⟧.failed_writes result ≡ 0 }
    {
        MemoryDisk {
            alloc,
            bytes,
            calls: Vec::new(alloc),
            failed_writes: 0,
        }
    }

    /// The bytes as read.
    pub fn into_bytes(self) -> Vec<u8>
        ensures { result.items ≡ ⟦<MemoryDisk as Disk>⟧.content self }
    {
        let MemoryDisk { bytes, .. } = self;
        bytes
    }

    /// What a crash leaves: the picks at the open positions, in ascending order. Open positions
    /// past the picks keep their bytes. Nothing is open afterwards.
    pub fn crash(self, picks: &[u8]) -> Self
        ensures bytes { ⟦<MemoryDisk as Disk>⟧.content result
            ≡ crashed (⟦<MemoryDisk as Disk>⟧.is_open self) 0
            (⟦<MemoryDisk as Disk>⟧.content self) picks.now }
        ensures image { IsImage (⟦<MemoryDisk as Disk>⟧.content self)
            (⟦<MemoryDisk as Disk>⟧.is_open self) (⟦<MemoryDisk as Disk>⟧.content result) }
        ensures is_open { ⟦<MemoryDisk as Disk>⟧.is_open result ≡ nowhere }
    {
        let bytes = with_picks(self.bytes, &self.calls, picks);
        MemoryDisk {
            alloc: self.alloc,
            bytes,
            calls: Vec::new(self.alloc),
            failed_writes: self.failed_writes,
        }
    }
}

// Puts new bytes over those from at on.
fn put(bytes: &mut Vec<u8>, at: usize, new: &[u8])
    requires { at + length new.now ≤ length bytes.old.items }
    ensures { bytes.new.items ≡ written bytes.old.items at new.now }
{
    bytes[at..at + new.len()].copy_from_slice(new);
}

impl Disk for MemoryDisk {
    ghost content = { λ m. m.bytes.items };

    ghost is_open = { λ m. open_after (reverse m.calls.items) };

    ghost moment = { λ m. length m.calls.items };

    ghost images_since = { λ m t image.
        ImageBack (length m.calls.items - t) (reverse m.calls.items) m.bytes.items image };

    ghost failed_reads = { λ m. 0 };

    ghost failed_writes = { λ m. m.failed_writes };

    ghost honest = { Unit {0} };

    ghost counts_now = { λ m t image yes le now. image_now _ _ _ _ now };

    ghost only_now = { λ m image yes since. only_image_now _ _ _ _ since };

    fn len(&self) -> u64 {
        self.bytes.len() as u64
    }

    fn read(&mut self, at: u64, out: &mut [u8]) -> Result<(), DiskFault> {
        let start = at as usize;
        out.copy_from_slice(&self.bytes[start..start + out.len()]);
        Ok(())
    }

    /// Fails where its record finds no memory, and then changes nothing but its count.
    fn write(&mut self, at: u64, bytes: &[u8]) -> Result<(), DiskFault>
        requires { at + length bytes.now ≤ length (⟦<MemoryDisk as Disk>⟧.content self.old) }
        ensures unchanged { OnErr result
            ((⟦<MemoryDisk as Disk>⟧.content self.new ≡ ⟦<MemoryDisk as Disk>⟧.content self.old)
            × (⟦<MemoryDisk as Disk>⟧.is_open self.new ≡ ⟦<MemoryDisk as Disk>⟧.is_open self.old)) }

        // The clauses of the trait.
        ensures bytes { OnOk result (⟦<MemoryDisk as Disk>⟧.content self.new
            ≡ written (⟦<MemoryDisk as Disk>⟧.content self.old) at bytes.now) }
        ensures is_open { OnOk result (⟦<MemoryDisk as Disk>⟧.is_open self.new
            ≡ opened (⟦<MemoryDisk as Disk>⟧.is_open self.old) at (length bytes.now)) }
        ensures part { OnErr result
            (IsPartWritten (⟦<MemoryDisk as Disk>⟧.content self.old)
            (⟦<MemoryDisk as Disk>⟧.is_open self.old) at (length bytes.now)
            (⟦<MemoryDisk as Disk>⟧.content self.new)
            (⟦<MemoryDisk as Disk>⟧.is_open self.new)) }
        ensures images { OnlyNew ⟦<MemoryDisk as Disk>⟧.moment ⟦<MemoryDisk as Disk>⟧.images_since
            self.old self.new
            (IsImage (⟦<MemoryDisk as Disk>⟧.content self.old)
            (opened (⟦<MemoryDisk as Disk>⟧.is_open self.old) at (length bytes.now))) }
        ensures known { StayKnown ⟦<MemoryDisk as Disk>⟧.moment ⟦<MemoryDisk as Disk>⟧.images_since
            self.old self.new }
        ensures size { length (⟦<MemoryDisk as Disk>⟧.content self.new)
            ≡ length (⟦<MemoryDisk as Disk>⟧.content self.old) }
        ensures writes { IsCounted (⟦<MemoryDisk as Disk>⟧.failed_writes self.old)
            (⟦<MemoryDisk as Disk>⟧.failed_writes self.new) result }
        ensures reads { ⟦<MemoryDisk as Disk>⟧.failed_reads self.new
            ≡ ⟦<MemoryDisk as Disk>⟧.failed_reads self.old }
    {
        if self.failed_writes == u64::MAX {
            return Err(DiskFault);
        }
        let start = at as usize;
        let Ok(before) = self.bytes[start..start + bytes.len()].to_vec(self.alloc) else {
            self.failed_writes += 1;
            return Err(DiskFault);
        };
        let Ok(()) = self.calls.push(Call::Write(at, before)) else {
            self.failed_writes += 1;
            return Err(DiskFault);
        };
        put(&mut self.bytes, start, bytes);
        Ok(())
    }

    fn sync(&mut self) -> Result<(), DiskFault> {
        if self.failed_writes == u64::MAX {
            return Err(DiskFault);
        }
        let Ok(()) = self.calls.push(Call::Sync) else {
            self.failed_writes += 1;
            return Err(DiskFault);
        };
        Ok(())
    }
}
