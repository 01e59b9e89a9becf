//! A disk that keeps no promise but its size and its counts.
ghost use Rattle.std.specs.Prelude.{◌≡◌, ◌+◌, ◌<◌, true};

use crate::{Disk, DiskFault};

/// A disk that is not honest: it changes a byte in each read, drops every other write, and closes
/// nothing at a sync. No call of it fails. What reads a disk is to return on this one too.
#[derive(Drop)]
pub struct LossyDisk {
    bytes: Vec<u8>,
    // A linear congruential generator.
    state: u64,
}

impl LossyDisk {
    /// A disk that begins with these bytes. Which of them a read changes follows from `seed`.
    pub fn of_bytes(bytes: Vec<u8>, seed: u64) -> Self
        ensures bytes { ⟦<LossyDisk as Disk>⟧.content result ≡ bytes.items }
        ensures seed { result.state ≡ seed }
    {
        LossyDisk { bytes, state: seed }
    }

    // The next number of the generator.
    fn step(&mut self) -> u64
        ensures { self.new.bytes ≡ self.old.bytes }
    {
        self.state = self
            .state
            .wrapping_mul(6_364_136_223_846_793_005)
            .wrapping_add(1_442_695_040_888_963_407);
        self.state >> 33
    }
}

impl Disk for LossyDisk {
    ghost content = { λ d. d.bytes.items };

    ghost is_open = { λ d p. true };

    ghost moment = { λ d. 0 };

    ghost images_since = { λ d t image. ⊥ };

    ghost failed_reads = { λ d. 0 };

    ghost failed_writes = { λ d. 0 };

    ghost honest = { ⊥ };

    ghost counts_now = { λ d t image no le now. absurd no };

    ghost only_now = { λ d image no since. absurd no };

    fn len(&self) -> u64 {
        self.bytes.len() as u64
    }

    fn read(&mut self, at: u64, out: &mut [u8]) -> Result<(), DiskFault> {
        let start = at as usize;
        out.copy_from_slice(&self.bytes[start..start + out.len()]);
        let pick = self.step() as usize;
        if !out.is_empty() {
            let place = pick % out.len();
            out[place] ^= 0x5A;
        }
        Ok(())
    }

    fn write(&mut self, at: u64, bytes: &[u8]) -> Result<(), DiskFault> {
        if self.step() % 2 == 0 {
            return Ok(());
        }
        let start = at as usize;
        self.bytes[start..start + bytes.len()].copy_from_slice(bytes);
        Ok(())
    }

    fn sync(&mut self) -> Result<(), DiskFault> {
        Ok(())
    }
}
