//! Files that are only read, and where they are opened.

ghost use Rattle.std.specs.Prelude.{List, ℕ, IfOk};

use pk_snapshot::HeldFile;
use std::fs::{self, File, OpenFile};
use std::io;
use std::rt::Files;

/// Why a file was not opened.
#[derive(Clone, Copy, Debug, PartialEq, Eq, Drop)]
pub enum SharedFault {
    /// There is nothing at the path.
    Missing,
    /// Anything else that the system refused.
    Disk,
}

// Why a file was not opened.
fn fault_of(error: &io::Error) -> SharedFault {
    match error.kind() {
        io::ErrorKind::NotFound => SharedFault::Missing,
        _ => SharedFault::Disk,
    }
}

/// A system whose files are opened to be read, while others may write them.
pub trait OpensShared {
    type Shared: HeldFile + Drop;

    /// The bytes that a file may have which is opened at a path.
    ghost may_share: { Self → List ℕ → List ℕ → Type 0 };

    /// Opens a file to be read alone, and takes no lock. `Missing` where there is nothing at the path.
    fn open_shared(&self, path: &str) -> Result<Self::Shared, SharedFault>
        ensures { Self.Shared.SharedFile.honest → IfOk result
            (λ f. may_share self.now path.now (Self.Shared.SharedFile.content f)) };
}

/// The files of the system. What they hold, no clause says.
impl<R: Files<File = File>> OpensShared for R {
    type Shared = File;

    ghost may_share = { λ _ _ _. Unit {0} };

    // What is no file is not opened: to open a pipe waits for who writes it.
    fn open_shared(&self, path: &str) -> Result<File, SharedFault> {
        match fs::metadata(self, path) {
            Ok(metadata) if metadata.is_file() => {}
            Ok(_) => return Err(SharedFault::Disk),
            Err(error) => return Err(fault_of(&error)),
        }
        match File::options().read(true).open(self, path) {
            Ok(file) => Ok(file),
            Err(error) => Err(fault_of(&error)),
        }
    }
}
