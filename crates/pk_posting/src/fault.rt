//! Why what lies in a source was not read into memory.

use crate::source::SourceFault;
use std::alloc::AllocError;

/// Why a call that reads a source into memory has no answer. It changed nothing but the source's
/// counts, and may be made again.
#[derive(Clone, Copy, Debug, PartialEq, Eq, Drop)]
pub enum ReadFault {
    /// The bytes are not what is read there, or end before it does.
    Damaged,
    /// What lies below the source failed, and the source's count of failures rose.
    Disk,
    /// Memory was refused.
    Memory,
}

impl From<SourceFault> for ReadFault {
    ghost use Rattle.std.specs.Prelude.{◌≡◌};
    ghost use Rattle.pk_posting.specs.ReadFaults.{read_of};

    ghost from_gives = { λ fault read. read ≡ read_of fault };

    fn from(fault: SourceFault) -> ReadFault {
        match fault {
            SourceFault::Damaged => ReadFault::Damaged,
            SourceFault::Disk => ReadFault::Disk,
        }
    }
}

impl From<AllocError> for ReadFault {
    ghost use Rattle.std.specs.Prelude.{◌≡◌};
    ghost use Rattle.pk_posting.specs.declared.fault.ReadFault.TheVariants.{Memory};

    ghost from_gives = { λ _ read. read ≡ Memory };

    fn from(_error: AllocError) -> ReadFault {
        ReadFault::Memory
    }
}
