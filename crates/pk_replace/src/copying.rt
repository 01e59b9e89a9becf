//! The plainest stream: bytes of a disk, copied to another place of it through a buffer. Tests put
//! bodies in force with it; what the engine writes is a merge's.
ghost use Rattle.std.specs.Prelude.{◌≡◌, ◌<◌, ◌≤◌, ◌+◌, length, IfOk, OnOk};
ghost use Rattle.pk_disk.specs.Disk.{in_range};
ghost use Rattle.pk_replace.specs.Cause.{IsCause, IsUndamaged};
ghost use Rattle.pk_replace.specs.Copying.{CanCopy, IsCopied, PromisesCopy};
ghost use Rattle.pk_replace.specs.Laws.{copy_stays, far_copy};
ghost use Rattle.pk_replace.specs.Writing.{WritesOnly};

use crate::stream::{StreamFault, WritesExtent};
use pk_disk::Disk;
use std::alloc::{AllocError, Global};

// The bytes that are read and written at a time.
const PART: usize = 4_096;

// Copies as many bytes as the buffer has: one read and one write.
fn copy_part<D: Disk>(
    disk: &mut D,
    from: u64,
    to: u64,
    buffer: &mut [u8],
) -> Result<(), StreamFault>
    requires source { from + length buffer.old ≤ length (D.content disk.old) }
    requires target { to + length buffer.old ≤ length (D.content disk.old) }
    ensures writes { WritesOnly D.Disk (in_range to (length buffer.old)) disk.old disk.new }
    ensures copied { D.honest → OnOk result
        (IsCopied (D.content disk.old) (D.content disk.new) from to (length buffer.old)) }
    ensures undamaged { IsUndamaged result }
    ensures size { length (D.content disk.new) ≡ length (D.content disk.old) }
    ensures cause { IsCause D.Disk disk.old disk.new result }
{
    let Ok(()) = disk.read(from, buffer) else {
        return Err(StreamFault::Read);
    };
    let Ok(()) = disk.write(to, buffer) else {
        return Err(StreamFault::Write);
    };
    Ok(())
}

// Copies the bytes in parts of the buffer's length, reading and writing in turns.
fn copy_all<D: Disk>(
    disk: &mut D,
    from: u64,
    to: u64,
    bytes: u64,
    buffer: &mut [u8],
) -> Result<(), StreamFault>
    requires some { 0 < length buffer.old }
    requires can { CanCopy from to bytes (length (D.content disk.old)) }
    ensures writes { WritesOnly D.Disk (in_range to bytes) disk.old disk.new }
    ensures copied { D.honest → OnOk result
        (IsCopied (D.content disk.old) (D.content disk.new) from to bytes) }
    ensures undamaged { IsUndamaged result }
    ensures size { length (D.content disk.new) ≡ length (D.content disk.old) }
    ensures cause { IsCause D.Disk disk.old disk.new result }
{
    let part = buffer.len();
    let mut done = 0u64;
    'parts: while done < bytes {
        let n = (bytes - done).min(part as u64) as usize;
        copy_part(disk, from + done, to + done, &mut buffer[..n])?;
        done += n as u64;
    }
    Ok(())
}

/// The plainest stream: bytes of a disk that belong at another place of it, too. They are read and
/// written in turns, through a buffer of 4,096 bytes.
#[derive(Drop)]
pub struct CopyExtent {
    /// Where they stand.
    pub from: u64,
    /// Where they belong.
    pub to: u64,
    /// How many there are.
    pub bytes: u64,
    buffer: Vec<u8>,
    ghost some: { 0 < length buffer.items },
}

impl CopyExtent {
    /// A copy of so many bytes. It takes all its memory here, and answers `AllocError` where there
    /// is none.
    pub fn new(alloc: Global, from: u64, to: u64, bytes: u64) -> Result<CopyExtent, AllocError>
        ensures from { IfOk result (λ w. w.from ≡ from) }
        ensures to { IfOk result (λ w. w.to ≡ to) }
        ensures bytes { IfOk result (λ w. w.bytes ≡ bytes) }
    {
        Ok(CopyExtent {
            from,
            to,
            bytes,
            buffer: vec![in alloc; 0u8; PART]?,
        })
    }
}

impl WritesExtent for CopyExtent {
    ghost can_write = { λ w size. CanCopy w.from w.to w.bytes size };

    ghost touches = { λ w. in_range w.to w.bytes };

    ghost promises = { λ w. PromisesCopy w.from w.to w.bytes };

    ghost is_sound = { λ w bytes. Unit {0} };

    ghost reads_nothing = { λ w. ⊥ };

    fn write_into<D: Disk>(self, disk: &mut D) -> Result<(), StreamFault> {
        let mut buffer = self.buffer;
        copy_all(disk, self.from, self.to, self.bytes, &mut buffer)
    }

    ghost is_far = { λ w size can. far_copy w.from w.to w.bytes size can };

    ghost promises_stay = { λ w bytes bytes' c agree is.
        copy_stays w.from w.to w.bytes bytes bytes' c agree is };

    ghost sound_stays = { λ w bytes bytes' agree is. tt };
}
