//! Copies of open segments.
ghost use Rattle.std.specs.Prelude.{◌≡◌, ◌++◌, IfOk, OnOk};

use crate::opened::OpenSegment;
use std::alloc::{AllocError, Global};

/// Puts the open segments behind the others, as they are.
pub fn put_copies(
    alloc: Global,
    out: &mut Vec<OpenSegment>,
    opened: &[OpenSegment],
) -> Result<(), AllocError>
    ensures { OnOk result (out.new.items ≡ out.old.items ++ opened.now) }
{
    for segment in opened {
        out.push(OpenSegment {
            entry: segment.entry,
            segment: segment.segment,
            dead: segment.dead.copy(alloc)?,
            deleted: segment.deleted.copy(alloc)?,
        })?;
    }
    Ok(())
}

/// Copies of the open segments.
pub fn copy_of(alloc: Global, opened: &[OpenSegment]) -> Result<Vec<OpenSegment>, AllocError>
    ensures { IfOk result (λ v. v.items ≡ opened.now) }
{
    let mut copies = Vec::with_capacity(alloc, opened.len())?;
    put_copies(alloc, &mut copies, opened)?;
    Ok(copies)
}
