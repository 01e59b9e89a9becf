//! Bytes in memory, with a record of the calls that changed them.

ghost use Rattle.std.specs.Prelude.{◌≡◌, ◌≤◌, ◌+◌, [], length, IfOk, OnErr, OnOk};
ghost use Rattle.pk_disk.specs.Disk.{IsImage, nowhere, opened, written};
ghost use Rattle.pk_disk.specs.Since.{NoneNew, OnlyNew, StayKnown};
ghost use Rattle.pk_filedisk.specs.Raw.{IsExtended};
ghost use Rattle.pk_filedisk.specs.Resized.{resized};
ghost use Rattle.pk_memoryfile.specs.Record.{ImageSince, moment_of, open_in};

use std::alloc::{AllocError, Global};

// A call of the past. It keeps the bytes that it replaced, so that those of an earlier moment follow
// from those of now.
#[derive(Drop)]
pub enum Call {
    Write(u64, Vec<u8>),
    Sync,
    SetLen(Vec<u8>),
}

// The bytes of a file, with the calls so far, the oldest first. A call fails where its record finds
// no memory, and then changes nothing.
#[derive(Drop)]
pub struct Recorded {
    pub alloc: Global,
    pub bytes: Vec<u8>,
    pub calls: Vec<Call>,
}

impl Recorded {
    pub fn of_bytes(alloc: Global, bytes: Vec<u8>) -> Recorded
        ensures bytes { result.bytes.items ≡ bytes.items }
        ensures calls { result.calls.items ≡ [] }
    {
        Recorded {
            alloc,
            bytes,
            calls: Vec::new(alloc),
        }
    }

    // Opens the positions of its range from its start, and puts the bytes there.
    pub fn write(&mut self, at: u64, new: &[u8]) -> Result<(), AllocError>
        requires { at + length new.now ≤ length self.old.bytes.items }
        ensures bytes { OnOk result
            (self.new.bytes.items ≡ written self.old.bytes.items at new.now) }
        ensures is_open { OnOk result
            (open_in self.new ≡ opened (open_in self.old) at (length new.now)) }
        ensures images { OnOk result (OnlyNew moment_of ImageSince self.old self.new
            (IsImage self.old.bytes.items (opened (open_in self.old) at (length new.now)))) }
        ensures known { OnOk result (StayKnown moment_of ImageSince self.old self.new) }
        ensures unchanged { OnErr result ((self.new.bytes.items ≡ self.old.bytes.items)
            × (self.new.calls.items ≡ self.old.calls.items)) }
    {
        let start = at as usize;
        let before = self.bytes[start..start + new.len()].to_vec(self.alloc)?;
        self.calls.push(Call::Write(at, before))?;
        put(&mut self.bytes, start, new);
        Ok(())
    }

    // Closes all positions.
    pub fn sync(&mut self) -> Result<(), AllocError>
        ensures closed { OnOk result (open_in self.new ≡ nowhere) }
        ensures bytes { self.new.bytes.items ≡ self.old.bytes.items }
        ensures images { NoneNew moment_of ImageSince self.old self.new }
        ensures known { StayKnown moment_of ImageSince self.old self.new }
        ensures unchanged { OnErr result ((self.new.bytes.items ≡ self.old.bytes.items)
            × (self.new.calls.items ≡ self.old.calls.items)) }
    {
        self.calls.push(Call::Sync)?;
        Ok(())
    }

    // Cuts the bytes, or fills them up by zeros.
    pub fn set_len(&mut self, len: usize) -> Result<(), AllocError>
        ensures bytes { OnOk result (self.new.bytes.items ≡ resized len self.old.bytes.items) }
        ensures images { length self.old.bytes.items ≤ len
            → OnOk result (OnlyNew moment_of ImageSince self.old self.new
            (IsExtended self.old.bytes.items (open_in self.old))) }
        ensures unchanged { OnErr result ((self.new.bytes.items ≡ self.old.bytes.items)
            × (self.new.calls.items ≡ self.old.calls.items)) }
    {
        let before = self.bytes.as_slice().to_vec(self.alloc)?;
        let now = with_len(self.bytes.as_slice().to_vec(self.alloc)?, len)?;
        self.calls.push(Call::SetLen(before))?;
        self.bytes = now;
        Ok(())
    }
}

// Puts new bytes over those from a position on.
fn put(bytes: &mut Vec<u8>, at: usize, new: &[u8])
    requires { at + length new.now ≤ length bytes.old.items }
    ensures { bytes.new.items ≡ written bytes.old.items at new.now }
{
    bytes[at..at + new.len()].copy_from_slice(new);
}

// The first `len` bytes, and zeros where there are fewer.
#[tactic(auto, using(pk_filedisk::proofs::ResizedLemmas::resized_parts))]
fn with_len(mut bytes: Vec<u8>, len: usize) -> Result<Vec<u8>, AllocError>
    ensures { IfOk result (λ v. v.items ≡ resized len bytes.items) }
{
    bytes.resize(len, 0)?;
    Ok(bytes)
}
