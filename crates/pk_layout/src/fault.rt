//! Why nothing was planned.

use pk_model::Refusal;
use pk_segment::BuildFault;
use pk_space::Full;
use std::alloc::AllocError;

/// Why a commit or a merge was not planned. Nothing was changed, and the call may be made again.
#[derive(Clone, Copy, Debug, PartialEq, Eq)]
pub enum LayoutFault {
    /// The segment of a commit would pass 1,073,741,824 bytes.
    TooLarge,
    /// No run of free units is long enough: so many units are needed, and the longest run has
    /// `largest`.
    Full {
        /// The units that are needed.
        need: u32,
        /// The units of the longest free run.
        largest: u32,
    },
    /// More deletions are pending in the segments of a merge than a list may have.
    Damaged,
    /// Memory was refused.
    Memory,
}

impl From<AllocError> for LayoutFault {
    ghost use Rattle.std.specs.Prelude.{◌≡◌};
    ghost use Rattle.pk_layout.specs.declared.fault.LayoutFault.TheVariants.{Memory};

    ghost from_gives = { λ _ fault. fault ≡ Memory };

    fn from(_error: AllocError) -> LayoutFault {
        LayoutFault::Memory
    }
}

impl From<BuildFault> for LayoutFault {
    ghost use Rattle.std.specs.Prelude.{◌≡◌};
    ghost use Rattle.pk_layout.specs.Faults.{built_fault};

    ghost from_gives = { λ why fault. fault ≡ built_fault why };

    fn from(fault: BuildFault) -> LayoutFault {
        match fault {
            BuildFault::TooLarge => LayoutFault::TooLarge,
            BuildFault::Memory => LayoutFault::Memory,
        }
    }
}

impl From<Full> for LayoutFault {
    ghost use Rattle.std.specs.Prelude.{◌≡◌};
    ghost use Rattle.pk_layout.specs.Faults.{full_fault};

    ghost from_gives = { λ full fault. fault ≡ full_fault full };

    fn from(full: Full) -> LayoutFault {
        LayoutFault::Full {
            need: full.need,
            largest: full.largest,
        }
    }
}

impl From<LayoutFault> for Refusal {
    ghost use Rattle.std.specs.Prelude.{◌≡◌};
    ghost use Rattle.pk_layout.specs.Faults.{layout_refusal};

    ghost from_gives = { λ fault why. why ≡ layout_refusal fault };

    fn from(fault: LayoutFault) -> Refusal {
        match fault {
            LayoutFault::TooLarge => Refusal::SegmentTooLarge,
            LayoutFault::Full { need, largest } => Refusal::Full { need, largest },
            LayoutFault::Damaged => Refusal::Damaged,
            LayoutFault::Memory => Refusal::Memory,
        }
    }
}
