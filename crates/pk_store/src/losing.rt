//! How many documents open segments have that no commit has deleted.
ghost use Rattle.std.specs.Prelude.{◌≡◌};
ghost use Rattle.std.specs.List.{sum_by};
ghost use Rattle.pk_store.specs.Losing.{committed_left, merged_left};

use pk_layout::NewSegment;
use pk_open::OpenSegment;

/// How many documents the deletion lists leave, by the counts that were read as the segments were
/// opened.
pub(crate) fn documents_left(opened: &[OpenSegment]) -> u128
    ensures { result ≡ sum_by committed_left opened.now }
{
    let mut documents = 0;
    for segment in opened {
        documents += u128::from(left_of(segment));
    }
    documents
}

/// And the segment of a merge, if there is one: none of its documents is deleted.
pub(crate) fn documents_in(new: &Option<NewSegment>) -> u128
    ensures { result ≡ merged_left new.now }
{
    match new {
        Some(new) => u128::from(new.segment.count()),
        None => 0,
    }
}

// Those of one segment.
fn left_of(segment: &OpenSegment) -> u64
    ensures { result ≡ committed_left segment.now }
{
    u64::from(segment.segment.count()).saturating_sub(segment.dead.len() as u64)
}
