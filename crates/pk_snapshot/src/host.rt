//! The files of the system that are only read. What they do, no clause says.

ghost use Rattle.std.specs.Prelude.{◌≡◌, [], false};
ghost use Rattle.std.specs.IoError.{error_kind};

use crate::held::HeldFile;
use crate::shared::SharedFile;
use pk_filedisk::CallFault;
use std::fs::File;
use std::io::{self, ErrorKind};
use std::os::unix::fs::FileExt;

// Why a call did not do what was asked: interrupted by a signal where the error says so.
fn fault_of(error: &io::Error) -> CallFault
    ensures interrupted { error_kind error.now ≡ ErrorKind.Interrupted
        → result ≡ CallFault.Interrupted }
    ensures failed { (error_kind error.now ≡ ErrorKind.Interrupted → ⊥)
        → result ≡ CallFault.Failed }
{
    match error.kind() {
        ErrorKind::Interrupted => CallFault::Interrupted,
        _ => CallFault::Failed,
    }
}

/// Promises nothing: it is not honest by contract.
impl SharedFile for File {
    ghost content = { λ _. [] };

    ghost marked = { λ _. [] };

    ghost failed = { λ _. 0 };

    ghost interrupted = { λ _. 0 };

    ghost honest = { ⊥ };

    fn mark(&mut self) {}

    fn len(&mut self) -> Result<u64, CallFault> {
        match File::metadata(self) {
            Ok(metadata) => Ok(metadata.len()),
            Err(error) => Err(fault_of(&error)),
        }
    }

    fn read_at(&mut self, at: u64, out: &mut [u8]) -> Result<usize, CallFault> {
        match FileExt::read_at(self, out, at) {
            Ok(n) => Ok(n),
            Err(error) => Err(fault_of(&error)),
        }
    }

    fn read_at_once(&mut self, at: u64, out: &mut [u8]) -> Result<usize, CallFault> {
        SharedFile::read_at(self, at, out)
    }

    ghost marked_before = { λ file honest. absurd honest };
}

/// A shared lock of a whole file.
pub struct SharedLock;

/// By a shared lock of the whole file.
impl HeldFile for File {
    type Hold = SharedLock;

    ghost is_held = { λ _. false };

    ghost asked_at = { λ _. Unit {0} };

    fn hold(&mut self) -> Option<SharedLock> {
        match self.try_lock_shared() {
            Ok(()) => Some(SharedLock),
            Err(_) => None,
        }
    }

    // A lock that can't be given back goes with the file.
    fn release(&mut self, hold: SharedLock) {
        let SharedLock = hold;
        let _ = self.unlock();
    }
}
