//! What a merge is prepared as: the segment that a plan is made for; and the refusal where it is not.
ghost use Rattle.std.specs.Prelude.{◌≡◌};
ghost use Rattle.pk_store.specs.Prepared.{OpensRun};
ghost use Rattle.pk_store.specs.Refusing.{merge_refusal};

use pk_layout::NewSegment;
use pk_merge::{MergeFault, Prepared};
use pk_model::Refusal;

/// What is prepared opens as no segment: it is that of no merge.
#[derive(Clone, Copy, Debug, PartialEq, Eq)]
pub(crate) struct NoSegment;

impl From<NoSegment> for Refusal {
    ghost use Rattle.std.specs.Prelude.{◌≡◌};
    ghost use Rattle.pk_model.specs.declared.commands.Refusal.TheVariants.{Damaged};

    ghost from_gives = { λ _ why. why ≡ Damaged };

    fn from(_fault: NoSegment) -> Refusal {
        Refusal::Damaged
    }
}

/// The segment of what is prepared: what a merge is going to write, if that is anything.
pub(crate) fn new_segment(prepared: &Option<Prepared>) -> Result<Option<NewSegment>, NoSegment>
    ensures { OpensRun prepared.now result }
{
    let Some(prepared) = prepared else {
        return Ok(None);
    };
    let Some(segment) = prepared.segment() else {
        return Err(NoSegment);
    };
    Ok(Some(NewSegment {
        bytes: prepared.size(),
        segment,
    }))
}

/// What a fault of a merge refuses a command as.
pub(crate) fn merge_refusal(fault: MergeFault) -> Refusal
    ensures { result ≡ merge_refusal fault }
{
    match fault {
        MergeFault::TooLarge => Refusal::SegmentTooLarge,
        MergeFault::Damaged => Refusal::Damaged,
        MergeFault::Disk | MergeFault::NotWritten => Refusal::Disk,
        MergeFault::Memory => Refusal::Memory,
    }
}
