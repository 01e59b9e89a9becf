//! Reads of a file that changes meanwhile: whole ranges, and a gate with the generation behind it.

ghost use Rattle.std.specs.Prelude.{◌≡◌, ◌<◌, ◌≤◌, ◌+◌, ◌%◌, ◌^◌, false, length, IfNone, IfOk, IfSome, IsTrue, OnOk, is_err};
ghost use Rattle.pk_manifest.specs.Evolves.{Evolves};
ghost use Rattle.pk_snapshot.specs.Counted.{FailsByCalls};
ghost use Rattle.pk_snapshot.specs.Seen.{SawStamp};
ghost use Rattle.pk_snapshot.specs.Shared.{AreSeen, Confirms, SawOther, SawShut, SeenAtOnce};

use crate::shared::SharedFile;
use pk_disk::DiskFault;
use pk_filedisk::CallFault;
use pk_manifest::{Half, OPEN, u64_at};

// How often a call is made again before it counts as failed.
const TRIES: u64 = u64::MAX;

// The number of bytes of a file.
pub fn length_of<F: SharedFile>(file: &mut F) -> Result<u64, DiskFault>
    ensures given { F.honest → IfOk result (λ n. n ≡ length (F.content file.new)) }
    ensures bytes { F.honest → F.content file.new ≡ F.content file.old }
    ensures marked { F.honest → F.marked file.new ≡ F.marked file.old }
    ensures fails { F.honest
        → FailsByCalls F.failed F.interrupted 0 (is_err result) file.old file.new }
{
    'tries: for _ in 0..TRIES {
        match file.len() {
            Ok(len) => return Ok(len),
            Err(CallFault::Interrupted) => {}
            Err(CallFault::Failed) => return Err(DiskFault),
        }
    }
    Err(DiskFault)
}

// Fills `out` with the bytes from a position on.
pub fn read_whole<F: SharedFile>(file: &mut F, at: u64, out: &mut [u8]) -> Result<(), DiskFault>
    requires { at + length out.old < 2 ^ 64 }
    ensures given { F.honest → OnOk result
        (AreSeen (F.content file.old) (F.content file.new) at (length out.old) out.new) }
    ensures evolves { F.honest → Evolves (F.content file.old) (F.content file.new) }
    ensures marked { F.honest → F.marked file.new ≡ F.marked file.old }
    ensures fails { F.honest
        → FailsByCalls F.failed F.interrupted (length out.old) (is_err result) file.old file.new }
{
    let mut done = 0;
    'parts: for _ in 0..TRIES {
        if done == out.len() {
            return Ok(());
        }
        match file.read_at(at + done as u64, &mut out[done..]) {
            Ok(0) => return Err(DiskFault),
            Ok(got) => done += got,
            Err(CallFault::Interrupted) => {}
            Err(CallFault::Failed) => return Err(DiskFault),
        }
    }
    Err(DiskFault)
}

// Fills `out` with bytes that stood there at one moment.
fn read_once<F: SharedFile>(file: &mut F, at: u64, out: &mut [u8]) -> Result<(), DiskFault>
    requires { at % 8 + length out.old ≤ 8 }
    ensures given { F.honest → OnOk result
        (SeenAtOnce (F.content file.old) (F.content file.new) at out.new) }
    ensures evolves { F.honest → Evolves (F.content file.old) (F.content file.new) }
    ensures marked { F.honest → F.marked file.new ≡ F.marked file.old }
    ensures fails { F.honest
        → FailsByCalls F.failed F.interrupted 0 (is_err result) file.old file.new }
{
    'tries: for _ in 0..TRIES {
        match file.read_at_once(at, out) {
            Ok(got) if got == out.len() => return Ok(()),
            Ok(_) => return Err(DiskFault),
            Err(CallFault::Interrupted) => {}
            Err(CallFault::Failed) => return Err(DiskFault),
        }
    }
    Err(DiskFault)
}

// The generation that the body of a half says, whatever its gate is.
pub fn stamp_of<F: SharedFile>(file: &mut F, half: Half) -> Result<u64, DiskFault>
    ensures given { F.honest → IfOk result
        (SawStamp (F.content file.old) (F.content file.new) half) }
    ensures evolves { F.honest → Evolves (F.content file.old) (F.content file.new) }
    ensures marked { F.honest → F.marked file.new ≡ F.marked file.old }
    ensures fails { F.honest
        → FailsByCalls F.failed F.interrupted 0 (is_err result) file.old file.new }
{
    let mut field = [0u8; 8];
    read_once(file, half.body() + 8, &mut field)?;
    Ok(u64_at(&field, 0))
}

// The generation behind a gate that is open: the gate is read first, and the generation after it.
pub fn stamp_behind<F: SharedFile>(file: &mut F, half: Half) -> Result<Option<u64>, DiskFault>
    ensures given { F.honest → IfOk result (λ found. IfSome found
        (Confirms (F.content file.old) (F.content file.new) half)) }
    ensures shut { F.honest → IfOk result (λ found. IfNone found
        (SawShut (F.content file.old) (F.content file.new) half)) }
    ensures evolves { F.honest → Evolves (F.content file.old) (F.content file.new) }
    ensures marked { F.honest → F.marked file.new ≡ F.marked file.old }
    ensures fails { F.honest
        → FailsByCalls F.failed F.interrupted 0 (is_err result) file.old file.new }
{
    let mut gate = [0u8];
    read_once(file, half.gate(), &mut gate)?;
    if gate[0] != OPEN {
        return Ok(None);
    }
    let stamp = stamp_of(file, half)?;
    Ok(Some(stamp))
}

// Whether a gate is still open behind this generation.
pub fn is_still<F: SharedFile>(file: &mut F, half: Half, generation: u64) -> Result<bool, DiskFault>
    ensures given { F.honest → IfOk result (λ is. IsTrue is
        → Confirms (F.content file.old) (F.content file.new) half generation) }
    ensures other { F.honest → IfOk result (λ is. is ≡ false
        → SawOther (F.content file.old) (F.content file.new) half generation) }
    ensures evolves { F.honest → Evolves (F.content file.old) (F.content file.new) }
    ensures marked { F.honest → F.marked file.new ≡ F.marked file.old }
    ensures fails { F.honest
        → FailsByCalls F.failed F.interrupted 0 (is_err result) file.old file.new }
{
    match stamp_behind(file, half)? {
        Some(stamp) => Ok(stamp == generation),
        None => Ok(false),
    }
}
