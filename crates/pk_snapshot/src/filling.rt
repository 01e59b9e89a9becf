//! Bytes of a file where it is looked at, and zeros beside.

ghost use Rattle.std.specs.Prelude.{◌≡◌, ◌<◌, ◌+◌, ◌^◌, length, OnOk, is_err};
ghost use Rattle.pk_manifest.specs.Evolves.{Evolves};
ghost use Rattle.pk_snapshot.specs.Counted.{FailsByCalls};
ghost use Rattle.pk_snapshot.specs.Order.{stop_of};
ghost use Rattle.pk_snapshot.specs.Shared.{IsFilled, IsPartFilled};

use crate::reading::read_whole;
use crate::shared::SharedFile;
use pk_disk::{DiskFault, Extent};

// The position behind the last byte of an extent.
pub fn stop_of(extent: Extent) -> u64
    ensures { result ≡ stop_of extent }
{
    extent.start() + u64::from(extent.bytes)
}

// Puts the bytes of an extent where it meets the range from a position on.
fn fill_part<F: SharedFile>(
    file: &mut F,
    extent: Extent,
    at: u64,
    out: &mut [u8],
) -> Result<(), DiskFault>
    requires { at + length out.old < 2 ^ 64 }
    ensures given { F.honest → OnOk result (IsPartFilled (F.content file.old)
        (F.content file.new) extent at out.old out.new) }
    ensures evolves { F.honest → Evolves (F.content file.old) (F.content file.new) }
    ensures marked { F.honest → F.marked file.new ≡ F.marked file.old }
    ensures fails { F.honest
        → FailsByCalls F.failed F.interrupted (length out.old) (is_err result) file.old file.new }
{
    let from = extent.start().max(at);
    let to = stop_of(extent).min(at + out.len() as u64);
    if to <= from {
        return Ok(());
    }
    read_whole(
        file,
        from,
        &mut out[(from - at) as usize..(to - at) as usize],
    )
}

// Fills `out` with the bytes from a position on: those of the extents, and zeros beside them.
pub fn fill<F: SharedFile>(
    file: &mut F,
    shown: &[Extent],
    at: u64,
    out: &mut [u8],
) -> Result<(), DiskFault>
    requires { at + length out.old < 2 ^ 64 }
    ensures given { F.honest → OnOk result (IsFilled (F.content file.old) (F.content file.new)
        shown.now at out.new) }
    ensures evolves { F.honest → Evolves (F.content file.old) (F.content file.new) }
    ensures marked { F.honest → F.marked file.new ≡ F.marked file.old }
    ensures fails { F.honest
        → FailsByCalls F.failed F.interrupted (length out.old) (is_err result) file.old file.new }
{
    out.fill(0);
    for extent in shown {
        fill_part(file, *extent, at, out)?;
    }
    Ok(())
}
