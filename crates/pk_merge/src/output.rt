//! Bytes written one after another, in large writes.

ghost use Rattle.std.specs.Prelude.{
  ◌≡◌,
  ◌⊎◌,
  ◌≤◌,
  ◌<◌,
  ◌+◌,
  ◌^◌,
  ◌++◌,
  [],
  length,
  take,
  drop,
  IfOk,
  OnOk,
};
ghost use Rattle.pk_replace.specs.Cause.{IsCause, IsUndamaged};
ghost use Rattle.pk_replace.specs.Writing.{WritesOnly};

use pk_disk::Disk;
use pk_replace::StreamFault;

/// The most bytes that are written at once, and the fewest but for the last write.
pub(crate) const WRITE: usize = 65_536;

/// The bytes of a stretch of a disk, which are given in order and written in writes of 65,536
/// bytes, the last one perhaps shorter. It holds those that are not written yet.
#[derive(Drop)]
pub(crate) struct Output {
    // Where the stretch begins,
    start: u64,
    // and where it ends.
    end: u64,
    // Where the next write goes.
    at: u64,
    // How many bytes of the buffer are given and not written.
    filled: usize,
    buffer: Vec<u8>,
    ghost order: { start ≤ at },
    ghost room: { at + filled ≤ end },
    ghost within: { filled ≤ length buffer.items },
    ghost some: { 0 < length buffer.items },
}

impl Output {
    ghost use Rattle.pk_merge.specs.Output.{
      AreGiven,
      IsFresh,
      IsGiven,
      IsSameStretch,
      IsWritten,
      count_given,
      given,
      places_of,
    };

    /// An output to the stretch from `start` to `end`, in memory that was taken.
    pub(crate) fn over(buffer: Vec<u8>, start: u64, end: u64) -> Output
        requires some { 0 < length buffer.items }
        requires order { start ≤ end }
        ensures { IsFresh start end result }
    {
        Output {
            start,
            end,
            at: start,
            filled: 0,
            buffer,
        }
    }

    /// Writes what is held.
    pub(crate) fn flush<D: Disk>(&mut self, disk: &mut D) -> Result<(), StreamFault>
        requires { self.old.end ≤ length (D.content disk.old) }
        ensures writes { WritesOnly D.Disk (places_of self.old) disk.old disk.new }
        ensures given { D.honest → OnOk result
            (given (D.content disk.new) self.new ≡ given (D.content disk.old) self.old) }
        ensures empty { OnOk result (self.new.filled ≡ 0) }
        ensures buffer { length self.new.buffer.items ≡ length self.old.buffer.items }
        ensures count { OnOk result (count_given self.new ≡ count_given self.old) }
        ensures stretch { IsSameStretch self.old self.new }
        ensures undamaged { IsUndamaged result }
        ensures cause { IsCause D.Disk disk.old disk.new result }
    {
        let Ok(()) = disk.write(self.at, &self.buffer[..self.filled]) else {
            return Err(StreamFault::Write);
        };
        self.at += self.filled as u64;
        self.filled = 0;
        Ok(())
    }

    /// Writes what is held, where all of the stretch was given; else it is `Damaged`.
    pub(crate) fn finish<D: Disk>(&mut self, disk: &mut D) -> Result<(), StreamFault>
        requires { self.old.end ≤ length (D.content disk.old) }
        ensures writes { WritesOnly D.Disk (places_of self.old) disk.old disk.new }
        ensures given { D.honest → OnOk result
            (given (D.content disk.new) self.new ≡ given (D.content disk.old) self.old) }
        ensures empty { OnOk result (self.new.filled ≡ 0) }
        ensures count { OnOk result (count_given self.new ≡ count_given self.old) }
        ensures stretch { IsSameStretch self.old self.new }
        ensures whole { OnOk result (self.old.at + self.old.filled ≡ self.old.end) }
        ensures undamaged { self.old.at + self.old.filled ≡ self.old.end → IsUndamaged result }
        ensures cause { IsCause D.Disk disk.old disk.new result }
    {
        if self.room() > 0 {
            return Err(StreamFault::Damaged);
        }
        self.flush(disk)
    }

    // Holds as many of the bytes as there is room for, and answers how many.
    fn hold(&mut self, bytes: &[u8]) -> usize
        requires { self.old.at + self.old.filled + length bytes.now ≤ self.old.end }
        ensures most { result ≤ length bytes.now }
        ensures some { 0 < length bytes.now → self.old.filled < length self.old.buffer.items
            → 0 < result }
        ensures held { take self.new.filled self.new.buffer.items
            ≡ take self.old.filled self.old.buffer.items ++ take result bytes.now }
        ensures filled { self.new.filled ≡ self.old.filled + result }
        ensures at { self.new.at ≡ self.old.at }
        ensures buffer { length self.new.buffer.items ≡ length self.old.buffer.items }
        ensures stretch { IsSameStretch self.old self.new }
    {
        let n = bytes.len().min(self.buffer.len() - self.filled);
        let filled = self.filled + n;
        self.buffer[self.filled..filled].copy_from_slice(&bytes[..n]);
        self.filled = filled;
        n
    }

    /// How many bytes may still be given.
    pub(crate) fn room(&self) -> u64
        ensures { result + (self.now.at + self.now.filled) ≡ self.now.end }
    {
        self.end - (self.at + self.filled as u64)
    }

    // Writes what is held where there is no room for more.
    fn make_room<D: Disk>(&mut self, disk: &mut D) -> Result<(), StreamFault>
        requires { self.old.end ≤ length (D.content disk.old) }
        ensures written { IsWritten D.Disk disk.old disk.new self.old self.new [] result }
        ensures room { OnOk result (self.new.filled < length self.new.buffer.items) }
    {
        if self.filled == self.buffer.len() {
            return self.flush(disk);
        }
        Ok(())
    }

    /// Gives bytes.
    pub(crate) fn put<D: Disk>(&mut self, disk: &mut D, bytes: &[u8]) -> Result<(), StreamFault>
        requires stretch { self.old.end ≤ length (D.content disk.old) }
        requires room { self.old.at + self.old.filled + length bytes.now ≤ self.old.end }
        ensures { IsWritten D.Disk disk.old disk.new self.old self.new bytes.now result }
    {
        let mut done = 0;
        while done < bytes.len() {
            self.make_room(disk)?;
            done += self.hold(&bytes[done..]);
        }
        Ok(())
    }

    /// Gives bytes where there is room for them, else it is `Damaged`.
    pub(crate) fn offer<D: Disk>(&mut self, disk: &mut D, bytes: &[u8]) -> Result<(), StreamFault>
        requires { self.old.end ≤ length (D.content disk.old) }
        ensures given { IsGiven D.Disk disk.old disk.new self.old self.new result }
        ensures count { OnOk result
            (self.new.at + self.new.filled ≡ self.old.at + self.old.filled + length bytes.now) }
        ensures there { D.honest → OnOk result (given (D.content disk.new) self.new
            ≡ given (D.content disk.old) self.old ++ bytes.now) }
        ensures bytes { D.honest
            → self.old.at + self.old.filled + length bytes.now ≤ self.old.end
            → AreGiven D.Disk disk.old disk.new self.old self.new bytes.now result }
    {
        if bytes.len() as u64 > self.room() {
            return Err(StreamFault::Damaged);
        }
        self.put(disk, bytes)
    }

    // Holds as many of some bytes of the disk as there is room for, and answers how many.
    fn hold_from<D: Disk>(
        &mut self,
        disk: &mut D,
        from: u64,
        len: u64,
    ) -> Result<usize, StreamFault>
        requires room { self.old.at + self.old.filled + len ≤ self.old.end }
        requires source { from + len ≤ length (D.content disk.old) }
        ensures most { IfOk result (λ n. n ≤ len) }
        ensures some { 0 < len → self.old.filled < length self.old.buffer.items
            → IfOk result (λ n. 0 < n) }
        ensures held { D.honest → IfOk result (λ n. take self.new.filled self.new.buffer.items
            ≡ take self.old.filled self.old.buffer.items
            ++ take n (drop from (D.content disk.old))) }
        ensures filled { IfOk result (λ n. self.new.filled ≡ self.old.filled + n) }
        ensures at { self.new.at ≡ self.old.at }
        ensures buffer { length self.new.buffer.items ≡ length self.old.buffer.items }
        ensures stretch { IsSameStretch self.old self.new }
        ensures writes { WritesOnly D.Disk (places_of self.old) disk.old disk.new }
        ensures same { D.honest → D.content disk.new ≡ D.content disk.old }
        ensures undamaged { IsUndamaged result }
        ensures cause { IsCause D.Disk disk.old disk.new result }
    {
        let free = self.buffer.len() - self.filled;
        let n = len.min(free as u64) as usize;
        let filled = self.filled + n;
        let Ok(()) = disk.read(from, &mut self.buffer[self.filled..filled]) else {
            return Err(StreamFault::Read);
        };
        self.filled = filled;
        Ok(n)
    }

    /// Gives bytes that stand elsewhere on the disk.
    pub(crate) fn copy<D: Disk>(
        &mut self,
        disk: &mut D,
        from: u64,
        len: u64,
    ) -> Result<(), StreamFault>
        requires stretch { self.old.end ≤ length (D.content disk.old) }
        requires room { self.old.at + self.old.filled + len ≤ self.old.end }
        requires source { from + len ≤ length (D.content disk.old) }
        requires low { from + len < 2 ^ 64 }
        requires apart { (from + len ≤ self.old.start) ⊎ (self.old.end ≤ from) }
        ensures { IsWritten D.Disk disk.old disk.new self.old self.new
            (take len (drop from (D.content disk.old))) result }
    {
        let mut done = 0;
        while done < len {
            self.make_room(disk)?;
            done += self.hold_from(disk, from + done, len - done)? as u64;
        }
        Ok(())
    }

    /// Gives bytes that stand elsewhere on the disk where there is room for them, else they are
    /// `Damaged`.
    pub(crate) fn offer_from<D: Disk>(
        &mut self,
        disk: &mut D,
        from: u64,
        len: u64,
    ) -> Result<(), StreamFault>
        requires stretch { self.old.end ≤ length (D.content disk.old) }
        requires source { from + len ≤ length (D.content disk.old) }
        requires low { from + len < 2 ^ 64 }
        requires apart { (from + len ≤ self.old.start) ⊎ (self.old.end ≤ from) }
        ensures given { IsGiven D.Disk disk.old disk.new self.old self.new result }
        ensures count { OnOk result
            (self.new.at + self.new.filled ≡ self.old.at + self.old.filled + len) }
        ensures bytes { D.honest → self.old.at + self.old.filled + len ≤ self.old.end
            → AreGiven D.Disk disk.old disk.new self.old self.new
            (take len (drop from (D.content disk.old))) result }
    {
        if len > self.room() {
            return Err(StreamFault::Damaged);
        }
        self.copy(disk, from, len)
    }
}
