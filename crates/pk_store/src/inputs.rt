//! What a merge of a run of segments reads.
ghost use Rattle.std.specs.Prelude.{List, ℕ, All, IfOk};
ghost use Rattle.pk_join.specs.Inputs.{HasKind, LiesInside, SpellsInputs};
ghost use Rattle.pk_manifest.specs.Bodies.{bodies_end};
ghost use Rattle.pk_merge.specs.Output.{LiesApart};
ghost use Rattle.pk_merge.specs.Streaming.{LiesBehind};
ghost use Rattle.pk_open.specs.Opened.{AreOpenOf, entries_of};
ghost use Rattle.pk_state.specs.Committed.{Stored};
ghost use Rattle.pk_state.specs.Holds.{SpellsEntries};
ghost use Rattle.pk_state.specs.Kept.{HaveKinds, LieInside};
ghost use Rattle.pk_store.specs.Inputs.{AreOf, BeginsFrom, EntryApart};

use pk_merge::MergeInput;
use pk_open::OpenSegment;
use std::alloc::{AllocError, Global};

/// The segments as inputs of a merge, with the deletions that are committed.
pub(crate) fn inputs_of<'a>(
    alloc: Global,
    opened: &'a [OpenSegment],
) -> Result<Vec<MergeInput<'a>>, AllocError>
    ensures spelled { IfOk result (λ v. (bytes : List ℕ) (stored : List Stored)
        → SpellsEntries bytes (entries_of opened.now) stored → AreOpenOf opened.now stored
        → SpellsInputs bytes v.items stored) }
    ensures inside { IfOk result (λ v. (size : ℕ) → LieInside size (entries_of opened.now)
        → All (LiesInside size) v.items) }
    ensures kinds { IfOk result (λ v. HaveKinds (entries_of opened.now)
        → All HasKind v.items) }
    ensures apart { IfOk result (λ v. (start end : ℕ)
        → All (EntryApart start end) (entries_of opened.now)
        → All (LiesApart start end) v.items) }
    ensures behind { IfOk result (λ v. All (BeginsFrom bodies_end) (entries_of opened.now)
        → All LiesBehind v.items) }
    ensures each { IfOk result (λ v. AreOf v.items (entries_of opened.now)) }
{
    let mut inputs = Vec::with_capacity(alloc, opened.len())?;
    for segment in opened {
        inputs.push(MergeInput {
            extent: segment.entry.extent,
            kind: segment.entry.kind,
            dead: &segment.dead,
        })?;
    }
    Ok(inputs)
}
