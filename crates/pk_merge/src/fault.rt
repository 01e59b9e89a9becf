//! Why segments were not merged.

use pk_posting::SourceFault;
use pk_replace::StreamFault;
use pk_segment::{BuildFault, ReadFault};
use std::alloc::AllocError;
use thiserror::Error;

/// Why segments were not merged. Where it is not `NotWritten`, the call may be made again.
#[derive(Clone, Copy, Debug, PartialEq, Eq, Drop, Error)]
pub enum MergeFault {
    /// The segment would pass 1,073,741,824 bytes.
    #[error("segment too large")]
    TooLarge,
    /// An input is no segment, or the numbers don't rise.
    #[error("damaged")]
    Damaged,
    /// The device failed.
    #[error("disk")]
    Disk,
    /// Memory was refused.
    #[error("memory")]
    Memory,
    /// A write failed.
    #[error("not written")]
    NotWritten,
}

impl From<SourceFault> for MergeFault {
    ghost use Rattle.std.specs.Prelude.{◌≡◌};
    ghost use Rattle.pk_merge.specs.Merging.{merge_of};
    ghost use Rattle.pk_segment.specs.Reading.{read_of};

    ghost from_gives = { λ fault merge. merge ≡ merge_of (read_of fault) };

    fn from(fault: SourceFault) -> MergeFault {
        MergeFault::from(ReadFault::from(fault))
    }
}

impl From<StreamFault> for MergeFault {
    ghost use Rattle.std.specs.Prelude.{◌≡◌};
    ghost use Rattle.pk_merge.specs.Merging.{streamed_of};

    ghost from_gives = { λ fault merge. merge ≡ streamed_of fault };

    fn from(fault: StreamFault) -> MergeFault {
        match fault {
            StreamFault::Read => MergeFault::Disk,
            StreamFault::Write => MergeFault::NotWritten,
            StreamFault::Damaged => MergeFault::Damaged,
        }
    }
}

impl From<ReadFault> for MergeFault {
    ghost use Rattle.std.specs.Prelude.{◌≡◌};
    ghost use Rattle.pk_merge.specs.Merging.{merge_of};

    ghost from_gives = { λ fault merge. merge ≡ merge_of fault };

    fn from(fault: ReadFault) -> MergeFault {
        match fault {
            ReadFault::Damaged => MergeFault::Damaged,
            ReadFault::Disk => MergeFault::Disk,
            ReadFault::Memory => MergeFault::Memory,
        }
    }
}

impl From<AllocError> for MergeFault {
    ghost use Rattle.std.specs.Prelude.{◌≡◌};
    ghost use Rattle.pk_merge.specs.declared.fault.MergeFault.TheVariants.{Memory};

    ghost from_gives = { λ _ merge. merge ≡ Memory };

    fn from(_error: AllocError) -> MergeFault {
        MergeFault::Memory
    }
}

impl From<BuildFault> for MergeFault {
    ghost use Rattle.std.specs.Prelude.{◌≡◌};
    ghost use Rattle.pk_merge.specs.Merging.{built_of};

    ghost from_gives = { λ fault merge. merge ≡ built_of fault };

    fn from(fault: BuildFault) -> MergeFault {
        match fault {
            BuildFault::TooLarge => MergeFault::TooLarge,
            BuildFault::Memory => MergeFault::Memory,
        }
    }
}
