//! How `serve` ends.

use crate::sending::Unwritten;
use std::alloc::AllocError;

/// The ends of a session that was served.
#[derive(Clone, Copy, Debug, PartialEq, Eq)]
pub enum Ended {
    /// A `quit` was answered.
    Quit,
    /// The input ended, and its last line was answered.
    InputEnd,
}

/// Why a session was broken off. The store has taken the lines that were executed, the one whose
/// reply failed included.
#[derive(Clone, Copy, Debug, PartialEq, Eq)]
pub enum ShellFault {
    /// A read failed. All whole lines that were read are answered.
    Input,
    /// A write failed or took no byte. The last reply is cut short.
    Output,
    /// There were 2^40 reads, each of a byte at least. All whole lines that were read are answered.
    TooManyReads,
    /// There was no memory for the buffers. Nothing was read or written.
    Memory,
}

impl From<AllocError> for ShellFault {
    ghost use Rattle.std.specs.Prelude.{◌≡◌};
    ghost use Rattle.pk_shell.specs.declared.ending.ShellFault.TheVariants.{Memory};

    ghost from_gives = { λ _ fault. fault ≡ Memory };

    fn from(_error: AllocError) -> ShellFault {
        ShellFault::Memory
    }
}

impl From<Unwritten> for ShellFault {
    ghost use Rattle.std.specs.Prelude.{◌≡◌};
    ghost use Rattle.pk_shell.specs.declared.ending.ShellFault.TheVariants.{Output};

    ghost from_gives = { λ _ fault. fault ≡ Output };

    fn from(_error: Unwritten) -> ShellFault {
        ShellFault::Output
    }
}
