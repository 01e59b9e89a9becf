//! Bytes that are at hand, compared with those of a source.

ghost use Rattle.std.specs.Prelude.{◌≡◌, ◌≤◌, ◌<◌, ◌+◌, ◌^◌, ◌↔◌};
ghost use Rattle.std.specs.Prelude.{length, take, drop, IfErr, IfOk, IsTrue};
ghost use Rattle.pk_posting.specs.Posting.{IsPosting};
ghost use Rattle.pk_posting.specs.Frames.{ReadsSource};
ghost use Rattle.pk_posting.specs.Source.{CountsFaults};
ghost use Rattle.pk_posting.specs.Spelling.{spelling};
ghost use Rattle.pk_segment.specs.Reading.{CountsReads, IsNoDamage};

use pk_posting::{ByteSource, MOST_LENT, SourceFault, encode_into, length_of};
use pk_segment::ReadFault;

// Whether the bytes are the same.
fn is_same(a: &[u8], b: &[u8]) -> bool
    ensures { IsTrue result ↔ (a.now ≡ b.now) }
{
    a == b
}

/// Whether the source has these bytes from a place on. It takes no memory.
pub(crate) fn is_there<S: ByteSource>(
    source: &mut S,
    at: u32,
    bytes: &[u8],
) -> Result<bool, SourceFault>
    requires inside { at + length bytes.now ≤ length (S.content source.old) }
    requires short { at + length bytes.now < 2 ^ 32 }
    ensures there { S.honest → IfOk result (λ yes. IsTrue yes
        ↔ (take (length bytes.now) (drop at (S.content source.old)) ≡ bytes.now)) }
    ensures cause { IfErr result (λ e. e ≡ SourceFault.Disk) }
    ensures left { ReadsSource S.ByteSource CountsFaults result source.old source.new }
{
    let mut done = 0;
    while done < bytes.len() {
        let n = (bytes.len() - done).min(MOST_LENT);
        let part = source.bytes(at + done as u32, n as u32)?;
        if !is_same(part, &bytes[done..done + n]) {
            return Ok(false);
        }
        done += n;
    }
    Ok(true)
}

/// Whether the source has the posting list of these numbers from a place on. It is spelled in some
/// room.
pub(crate) fn is_list_there<S: ByteSource>(
    source: &mut S,
    at: u32,
    list: &[u32],
    room: &mut Vec<u8>,
) -> Result<bool, ReadFault>
    requires posting { IsPosting list.now }
    requires inside { at + length (spelling list.now) ≤ length (S.content source.old) }
    requires short { at + length (spelling list.now) < 2 ^ 32 }
    ensures there { S.honest → IfOk result (λ yes. IsTrue yes
        ↔ (take (length (spelling list.now)) (drop at (S.content source.old))
        ≡ spelling list.now)) }
    ensures undamaged { IfErr result IsNoDamage }
    ensures left { ReadsSource S.ByteSource CountsReads result source.old source.new }
{
    let bytes = length_of(list);
    room.resize(bytes as usize, 0)?;
    encode_into(list, room);
    let there = is_there(source, at, room)?;
    Ok(there)
}
