//! A disk in memory that keeps each content that a reader beside its writer may meet.
ghost use Rattle.std.specs.Prelude.{◌≡◌, ◌≤◌, ◌+◌, length, true};

use pk_disk::{Disk, DiskFault};
use std::alloc::{AllocError, Global};

/// Where a write of many bytes is seen in parts: after its first 16, which have the generation of a
/// body, and after its first half.
const HEAD: usize = 16;

/// A disk in memory, and the contents that it went through: one for each part of a write.
#[derive(Drop)]
pub struct Recorder {
    alloc: Global,
    bytes: Vec<u8>,
    pub contents: Vec<Vec<u8>>,
    /// The places of the contents that were there when a session ended.
    pub ends: Vec<usize>,
}

impl Recorder {
    /// A disk of so many zeros.
    pub fn new(alloc: Global, bytes: usize) -> Result<Recorder, AllocError> {
        Ok(Recorder {
            alloc,
            bytes: vec![in alloc; 0u8; bytes]?,
            contents: Vec::new(alloc),
            ends: Vec::new(alloc),
        })
    }

    /// A session ended: all that it wrote is recorded.
    pub fn end(mut self) -> Result<Recorder, AllocError> {
        self.ends.push(self.contents.len().saturating_sub(1))?;
        Ok(self)
    }

    // Writes a part and keeps the content.
    fn put(&mut self, at: usize, part: &[u8]) -> Result<(), AllocError>
        requires { at + length part.now ≤ length self.old.bytes.items }
        ensures { length self.new.bytes.items ≡ length self.old.bytes.items }
    {
        self.bytes[at..at + part.len()].copy_from_slice(part);
        self.contents.push(self.bytes.to_vec(self.alloc)?)?;
        Ok(())
    }

    // Writes in parts, each of them kept.
    fn put_parts(&mut self, at: usize, bytes: &[u8]) -> Result<(), AllocError>
        requires { at + length bytes.now ≤ length self.old.bytes.items }
        ensures { length self.new.bytes.items ≡ length self.old.bytes.items }
    {
        if bytes.len() <= HEAD {
            return self.put(at, bytes);
        }
        let half = HEAD + (bytes.len() - HEAD) / 2;
        self.put(at, &bytes[..HEAD])?;
        self.put(at + HEAD, &bytes[HEAD..half])?;
        self.put(at + half, &bytes[half..])
    }
}

impl Disk for Recorder {
    ghost content = { λ d. d.bytes.items };

    ghost is_open = { λ d p. true };

    ghost moment = { λ d. 0 };

    ghost images_since = { λ d t image. ⊥ };

    ghost failed_reads = { λ d. 0 };

    ghost failed_writes = { λ d. 0 };

    ghost honest = { ⊥ };

    ghost counts_now = { λ d t image no le now. absurd no };

    ghost only_now = { λ d image no since. absurd no };

    fn len(&self) -> u64 {
        self.bytes.len() as u64
    }

    fn read(&mut self, at: u64, out: &mut [u8]) -> Result<(), DiskFault> {
        let start = at as usize;
        out.copy_from_slice(&self.bytes[start..start + out.len()]);
        Ok(())
    }

    fn write(&mut self, at: u64, bytes: &[u8]) -> Result<(), DiskFault> {
        let _ = self.put_parts(at as usize, bytes);
        Ok(())
    }

    fn sync(&mut self) -> Result<(), DiskFault> {
        Ok(())
    }
}
