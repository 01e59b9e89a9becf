//! Laws of disks and their images, each the contract of a function with nothing to do.
ghost use Rattle.std.specs.Prelude.{◌≡◌, ◌≤◌, ◌+◌, Bool, ℕ, List, length};
ghost use Rattle.pk_disk.specs.Disk.{IsImage, IsImageBut, IsPartWritten, nowhere, opened};
ghost use Rattle.pk_disk.specs.Crash.{crashed};

use crate::{Disk, MemoryDisk};

/// A disk in memory is honest.
pub fn memory_disk_is_honest()
    ensures { ⟦<MemoryDisk as Disk>⟧.honest }
{}

/// Each image is what some crash leaves.
pub fn each_image_is_left()
    ensures { (is_open : ℕ → Bool) (bytes image : List ℕ) → IsImage bytes is_open image
        → (picks : List ℕ) × (crashed is_open 0 bytes picks ≡ image) }
{}

/// The frame of a write, also of one that fails: each image in its course agrees outside its
/// range with an image at its start.
pub fn a_write_has_a_frame()
    ensures { (bytes : List ℕ) (is_open : ℕ → Bool) (at n : ℕ) (image : List ℕ)
        → at + n ≤ length bytes → IsImage bytes (opened is_open at n) image
        → IsImageBut bytes is_open at n image }
{}

/// What a failed write leaves has only images of its course.
pub fn a_failed_write_leaves_images_of_its_course()
    ensures { (bytes : List ℕ) (is_open : ℕ → Bool) (at n : ℕ)
        (bytes' : List ℕ) (is_open' : ℕ → Bool) (image : List ℕ)
        → IsPartWritten bytes is_open at n bytes' is_open' → IsImage bytes' is_open' image
        → IsImage bytes (opened is_open at n) image }
{}

/// With nothing open the bytes are the only image.
pub fn a_synced_disk_has_one_image()
    ensures { (bytes image : List ℕ) → IsImage bytes nowhere image → image ≡ bytes }
{}
