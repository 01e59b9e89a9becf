//! What a disk promises.
ghost use Rattle.std.specs.Prelude.{◌≡◌, ◌≤◌, ◌+◌, Bool, List, ℕ, length, slice_range, OnOk, OnErr};
ghost use Rattle.pk_disk.specs.Disk.{IsImage, IsCounted, IsPartWritten, opened, nowhere, written};
ghost use Rattle.pk_disk.specs.Since.{OnlyNew, NoneNew, StayKnown};

/// The device failed.
///
/// What a failed read filled in is open. A failed write left any bytes in its range; a failed
/// sync closed no position.
#[derive(Clone, Copy, Debug, PartialEq, Eq)]
pub struct DiskFault;

/// A disk of fixed size, read and written at positions.
///
/// A range that is read or written lies within the disk.
pub trait Disk {
    /// The bytes as read. Their number never changes.
    ghost content: { Self → List ℕ };

    /// The open positions: a crash may leave any bytes there.
    ghost is_open: { Self → ℕ → Bool };

    /// The moment, as a number that never falls.
    ghost moment: { Self → ℕ };

    /// The images at every moment from that one on, during a call or between two.
    ghost images_since: { Self → ℕ → List ℕ → Type 0 };

    /// How often a read failed.
    ghost failed_reads: { Self → ℕ };

    /// How often a write or a sync failed.
    ghost failed_writes: { Self → ℕ };

    /// That the calls keep what is said of bytes, positions and images.
    ghost honest: { Type 0 };

    /// The number of its bytes.
    fn len(&self) -> u64
        ensures { result ≡ length (content self.now) };

    /// Fills `out` with the bytes from position `at` on.
    fn read(&mut self, at: u64, out: &mut [u8]) -> Result<(), DiskFault>
        requires { at + length out.old ≤ length (content self.old) }
        ensures given { honest → OnOk result
            (out.new ≡ slice_range (content self.old) at (at + length out.old)) }

        // A read leaves everything as it was.
        ensures bytes { honest → content self.new ≡ content self.old }
        ensures is_open { honest → is_open self.new ≡ is_open self.old }
        ensures images { honest → NoneNew moment images_since self.old self.new }
        ensures known { honest → StayKnown moment images_since self.old self.new }

        // Sizes and counts, on every disk.
        ensures size { length (content self.new) ≡ length (content self.old) }
        ensures reads { IsCounted (failed_reads self.old) (failed_reads self.new) result }
        ensures writes { failed_writes self.new ≡ failed_writes self.old };

    /// Opens the positions of its range from its start, and puts `bytes` there.
    fn write(&mut self, at: u64, bytes: &[u8]) -> Result<(), DiskFault>
        requires { at + length bytes.now ≤ length (content self.old) }
        ensures bytes { honest → OnOk result
            (content self.new ≡ written (content self.old) at bytes.now) }
        ensures is_open { honest → OnOk result
            (is_open self.new ≡ opened (is_open self.old) at (length bytes.now)) }
        ensures part { honest → OnErr result
            (IsPartWritten (content self.old) (is_open self.old) at (length bytes.now)
            (content self.new) (is_open self.new)) }

        // In its course the whole range is open, whatever is answered.
        ensures images { honest → OnlyNew moment images_since self.old self.new
            (IsImage (content self.old) (opened (is_open self.old) at (length bytes.now))) }
        ensures known { honest → StayKnown moment images_since self.old self.new }

        // Sizes and counts, on every disk.
        ensures size { length (content self.new) ≡ length (content self.old) }
        ensures writes { IsCounted (failed_writes self.old) (failed_writes self.new) result }
        ensures reads { failed_reads self.new ≡ failed_reads self.old };

    /// Closes all positions, or none where it fails.
    fn sync(&mut self) -> Result<(), DiskFault>
        ensures closed { honest → OnOk result (is_open self.new ≡ nowhere) }
        ensures is_open { honest → OnErr result (is_open self.new ≡ is_open self.old) }
        ensures bytes { honest → content self.new ≡ content self.old }
        ensures images { honest → NoneNew moment images_since self.old self.new }
        ensures known { honest → StayKnown moment images_since self.old self.new }

        // Sizes and counts, on every disk.
        ensures size { length (content self.new) ≡ length (content self.old) }
        ensures writes { IsCounted (failed_writes self.old) (failed_writes self.new) result }
        ensures reads { failed_reads self.new ≡ failed_reads self.old };

    /// What a crash may leave now counts since each moment up to now.
    ghost counts_now: { (disk : Self) (t : ℕ) (image : List ℕ) → honest → t ≤ moment disk
        → IsImage (content disk) (is_open disk) image → images_since disk t image };

    /// Since now there is nothing else.
    ghost only_now: { (disk : Self) (image : List ℕ) → honest
        → images_since disk (moment disk) image
        → IsImage (content disk) (is_open disk) image };
}
