//! Disks that show one moment of something that goes on, and can be asked whether that is still the
//! latest.
//!
//! A disk that is stacked on another, as a page cache, passes the question on; so does a store on
//! such a disk, which stays what it is: a look reads nothing of the bytes that are shown.
#![tactic(auto)]

ghost use Rattle.std.specs.Prelude.{◌≡◌, IfOk, IsTrue};
ghost use Rattle.pk_disk.specs.Frames.{KeepsDisk};

use pk_disk::{Disk, DiskFault};

/// A disk whose bytes are those of one moment of something that goes on.
pub trait Watched: Disk {
    /// Nothing newer is there than what is shown.
    ghost shows_latest: { Self → Type 0 };

    /// What it is taken from goes on from the one to the other.
    ghost goes_on: { Self → Self → Type 0 };

    /// Whether what is shown is the latest. What the disk holds stays as it is, and a look that fails
    /// is no failed read.
    fn is_latest(&mut self) -> Result<bool, DiskFault>
        ensures latest { IfOk result (λ is. IsTrue is → shows_latest self.old) }
        ensures goes_on { goes_on self.old self.new }
        ensures keeps { KeepsDisk Self.Disk self.old self.new }
        ensures reads { Self.failed_reads self.new ≡ Self.failed_reads self.old };
}
