//! A stretch of a source, asked for part by part.

ghost use Rattle.std.specs.Prelude.{
  ◌≡◌,
  ◌≤◌,
  ◌<◌,
  ◌+◌,
  ◌^◌,
  length,
  take,
  drop,
  IfOk,
  IsErrOf,
};
ghost use Rattle.pk_posting.specs.Limits.{asks_for};
ghost use Rattle.pk_posting.specs.Frames.{ReadsSource};
ghost use Rattle.pk_segment.specs.Reading.{CountsReads};

use pk_posting::{ByteSource, MOST_LENT, ReadFault};
use std::alloc::Global;

// The `len` bytes from an offset on, in memory that is taken once.
pub fn stretch<S: ByteSource>(
    alloc: Global,
    source: &mut S,
    at: u32,
    len: u32,
) -> Result<Vec<u8>, ReadFault>
    requires { at + len < 2 ^ 32 }
    ensures value { S.honest → IfOk result
        (λ out. out.items ≡ take len (drop at (S.content source.old))) }
    ensures len { IfOk result (λ out. length out.items ≡ len) }
    ensures damaged { IsErrOf result ReadFault.Damaged
        → length (S.content source.old) < at + len }
    ensures left { ReadsSource S.ByteSource CountsReads result source.old source.new }
    ensures asked { S.asked source.new ≤ S.asked source.old + asks_for len }
{
    let mut out = Vec::with_capacity(alloc, len as usize)?;
    let mut done = 0;
    while done < len {
        let n = (len - done).min(MOST_LENT as u32);
        let part = source.bytes(at + done, n)?;
        out.extend_from_slice(part)?;
        done += n;
    }
    Ok(out)
}
