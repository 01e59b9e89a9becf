//! An extent of a disk, as bytes that are lent.

ghost use Rattle.std.proofs.Common.{◌∙◌, refl};
ghost use Rattle.std.specs.Prelude.{
  ◌≡◌,
  ◌≤◌,
  ◌<◌,
  ◌+◌,
  ◌-◌,
  length,
  take,
  drop,
  IfErr,
  OnOk,
};
ghost use Rattle.pk_disk.proofs.FrameLemmas.{keeps_disk_none, keeps_disk_then};
ghost use Rattle.pk_disk.specs.Frames.{KeepsDisk};
ghost use Rattle.pk_disk.specs.Units.{extent_bytes, start_of};
ghost use Rattle.pk_posting.specs.Frames.{AsksOnce};
ghost use Rattle.pk_posting.specs.Limits.{most_lent};
ghost use Rattle.pk_posting.specs.Source.{AnswersWithin, CountsFaults, full_count};
ghost use Rattle.pk_segment.specs.OnlyRead.{ReadsDisk};

use pk_disk::{Disk, DiskFault, Extent, UNIT};
use pk_posting::{ByteSource, MOST_LENT, SourceFault};

/// An extent of a disk as a source. It holds the bytes that it lends.
///
/// Its bytes are the first `bytes` bytes of the extent. A call of `bytes` reads just the bytes
/// asked for, in one read of the disk, and writes nothing.
#[derive(Drop)]
pub struct ExtentSource<'a, D: Disk> {
    disk: &'a mut D,
    extent: Extent,
    asked: u64,
    buffer: [u8; MOST_LENT],
    ghost inside: { start_of extent + extent.bytes ≤ length (D.content disk.now) },
}

impl<'a, D: Disk> ExtentSource<'a, D> {
    /// The extent as a source that was not asked yet.
    pub fn on(disk: &'a mut D, extent: Extent) -> ExtentSource<'a, D>
        requires { start_of extent + extent.bytes ≤ length (D.content disk.old) }
        ensures disk { result.disk.now ≡ disk.old }
        ensures same_reference { result.disk.ghost_name ≡ disk.entry.ghost_name }
        ensures extent { result.extent ≡ extent }
        ensures asked { result.asked ≡ 0 }
    {
        ExtentSource {
            disk,
            extent,
            asked: 0,
            buffer: [0; MOST_LENT],
        }
    }

    /// Turns it to another extent of its disk, whose bytes are its own from now on. Nothing is
    /// read.
    pub fn turn_to(&mut self, extent: Extent)
        requires { start_of extent + extent.bytes ≤ length (D.content self.old.disk.now) }
        ensures disk { self.new.disk.now ≡ self.old.disk.now }
        ensures same_reference { self.new.disk.ghost_name ≡ self.old.disk.ghost_name }
        ensures extent { self.new.extent ≡ extent }
        ensures asked { self.new.asked ≡ self.old.asked }
    {
        self.extent = extent;
    }

    // Reads the n bytes from an offset on into the front of the buffer.
    #[tactic(auto, using(crate::proofs::Window::window))]
    fn fill(&mut self, at: u32, n: u32) -> Result<(), SourceFault>
        requires { n ≤ most_lent }
        ensures left { AsksOnce ⟦<ExtentSource<'a, D> as ByteSource>⟧ result self.old self.new }
        ensures extent { self.new.extent ≡ self.old.extent }
        ensures within { AnswersWithin at n self.old.extent.bytes result }
        ensures value { D.honest → OnOk result (take n self.new.buffer
            ≡ take n (drop at (extent_bytes (D.content self.old.disk.now) self.old.extent))) }
    {
        self.asked = self.asked.saturating_add(1);
        if u64::from(at) + u64::from(n) > u64::from(self.extent.bytes) {
            return Err(SourceFault::Damaged);
        }
        let start = UNIT * u64::from(self.extent.first) + u64::from(at);
        read_front(self.disk, start, &mut self.buffer, n as usize)
    }
}

impl<'a, D: Disk> ByteSource for ExtentSource<'a, D> {
    ghost content = { λ s. extent_bytes (D.content s.disk.now) s.extent };

    ghost honest = { D.honest };

    ghost failures = { λ s. D.failed_reads s.disk.now };

    ghost asked = { λ s. s.asked };

    ghost keeps = { λ a b. (b.disk.ghost_name ≡ a.disk.ghost_name)
        × KeepsDisk D.Disk a.disk.now b.disk.now };

    ghost keeps_self = { λ a. (refl, keeps_disk_none _ _) };

    ghost keeps_then = { λ a b c first second.
        (second.0 ∙ first.0, keeps_disk_then _ _ _ _ first.1 second.1) };

    fn len(&self) -> u32 {
        self.extent.bytes
    }

    fn bytes(&mut self, at: u32, n: u32) -> Result<&[u8], SourceFault> {
        self.fill(at, n)?;
        Ok(&self.buffer[..n as usize])
    }

    fn asked(&self) -> u64 {
        self.asked
    }
}

/// Reads the `n` bytes from a place of a disk on into the front of a buffer, in one read. What
/// stands behind them in the buffer stays as it is. Answers `Disk` exactly where the read failed.
pub fn read_front<D: Disk>(
    disk: &mut D,
    at: u64,
    buffer: &mut [u8],
    n: usize,
) -> Result<(), SourceFault>
    requires room { n ≤ length buffer.old }
    requires inside { at + n ≤ length (D.content disk.old) }
    ensures left { ReadsDisk D.Disk CountsFaults result disk.old disk.new }
    ensures not_full { OnOk result (D.failed_reads disk.new < full_count) }
    ensures cause { IfErr result (λ e. e ≡ SourceFault.Disk) }
    ensures value { D.honest → OnOk result
        (take n buffer.new ≡ take n (drop at (D.content disk.old))) }
    ensures rest { drop n buffer.new ≡ drop n buffer.old }
{
    match disk.read(at, &mut buffer[..n]) {
        Ok(()) => Ok(()),
        Err(DiskFault) => Err(SourceFault::Disk),
    }
}
