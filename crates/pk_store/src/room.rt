//! The memory for the open segments of a session, all of which is taken as it begins: a commit needs
//! none to put one more behind the others.
ghost use Rattle.std.specs.Prelude.{◌≡◌, IfOk};
ghost use Rattle.pk_store.specs.Room.{HasRoom};

use pk_model::limits::MAX_SEGMENTS;
use pk_open::OpenSegment;
use std::alloc::AllocError;

/// The open segments, with room for as many as a body may name.
pub(crate) fn with_room(mut opened: Vec<OpenSegment>) -> Result<Vec<OpenSegment>, AllocError>
    ensures same { IfOk result (λ v. v.items ≡ opened.items) }
    ensures room { IfOk result HasRoom }
{
    let more = MAX_SEGMENTS.saturating_sub(opened.len());
    opened.reserve_exact(more)?;
    Ok(opened)
}
