//! What the body in force is out of.
use pk_model::Refusal;

/// Why no body can follow the one in force.
#[derive(Clone, Copy, Debug, PartialEq, Eq)]
pub(crate) enum DueFault {
    /// No generation or no segment id is left.
    NumbersUsedUp,
    /// No entry is left for the segment of new documents.
    TooManySegments,
}

impl From<DueFault> for Refusal {
    ghost use Rattle.std.specs.Prelude.{◌≡◌};
    ghost use Rattle.pk_store.specs.Due.{due_refusal};

    ghost from_gives = { λ fault why. why ≡ due_refusal fault };

    fn from(fault: DueFault) -> Refusal {
        match fault {
            DueFault::NumbersUsedUp => Refusal::NumbersUsedUp,
            DueFault::TooManySegments => Refusal::TooManySegments,
        }
    }
}
