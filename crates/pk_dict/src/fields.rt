//! The numbers and bytes of a dictionary, one at a time.

ghost use Rattle.std.specs.Prelude.{◌≤◌, ◌<◌, ◌+◌, length, take, IfOk};
ghost use Rattle.pk_dict.specs.Place.{LiesIn, bytes_at};
ghost use Rattle.pk_dict.specs.Reading.{Gives, byte_at, entry_at, number_at, offset_at};
ghost use Rattle.pk_posting.specs.Frames.{IsRead};

use crate::entry::{DictPlace, Entry};
use pk_posting::{ByteSource, ListPlace, SourceFault};
use pk_vbyte::take;

// The number at a place, and the place after it.
#[tactic(auto, unfolding(crate::specs::Reading::number_at))]
pub(crate) fn number<S: ByteSource>(
    source: &mut S,
    place: DictPlace,
    at: u32,
) -> Result<(u32, u32), SourceFault>
    requires { LiesIn place (length (S.content source.old)) }
    ensures value { S.honest → Gives result (number_at (bytes_at (S.content source.old) place) at) }
    ensures inside { IfOk result (λ r. (at ≤ place.bytes) × (r.1 ≤ place.bytes)) }
    ensures left { IsRead S.ByteSource 1 result source.old source.new }
{
    if place.bytes < at {
        return Err(SourceFault::Damaged);
    }
    let piece = source.bytes(place.at + at, (place.bytes - at).min(5))?;
    match take(piece) {
        Ok((n, taken)) => Ok((n, at + taken as u32)),
        Err(_) => Err(SourceFault::Damaged),
    }
}

// The numbers after a term, and the place after them.
#[tactic(auto, unfolding(crate::specs::Reading::entry_at))]
pub(crate) fn entry<S: ByteSource>(
    source: &mut S,
    place: DictPlace,
    at: u32,
) -> Result<(Entry, u32), SourceFault>
    requires { LiesIn place (length (S.content source.old)) }
    ensures value { S.honest → Gives result (entry_at (bytes_at (S.content source.old) place) at) }
    ensures inside { IfOk result (λ r. (at ≤ place.bytes) × (r.1 ≤ place.bytes)) }
    ensures left { IsRead S.ByteSource 3 result source.old source.new }
{
    let (frequency, at) = number(source, place, at)?;
    let (list, at) = number(source, place, at)?;
    let (bytes, at) = number(source, place, at)?;
    let place = ListPlace { at: list, bytes };
    Ok((Entry { frequency, place }, at))
}

// The byte at a place.
#[tactic(auto, unfolding(crate::specs::Reading::byte_at))]
pub(crate) fn byte<S: ByteSource>(
    source: &mut S,
    place: DictPlace,
    at: u32,
) -> Result<u8, SourceFault>
    requires { LiesIn place (length (S.content source.old)) }
    ensures value { S.honest → Gives result (byte_at (bytes_at (S.content source.old) place) at) }
    ensures left { IsRead S.ByteSource 1 result source.old source.new }
{
    if place.bytes <= at {
        return Err(SourceFault::Damaged);
    }
    let piece = source.bytes(place.at + at, 1)?;
    Ok(piece[0])
}

// The u32 at a place.
#[tactic(auto, unfolding(crate::specs::Reading::offset_at))]
pub(crate) fn offset<S: ByteSource>(
    source: &mut S,
    place: DictPlace,
    at: u32,
) -> Result<u32, SourceFault>
    requires { LiesIn place (length (S.content source.old)) }
    ensures value { S.honest → Gives result (offset_at (bytes_at (S.content source.old) place) at) }
    ensures left { IsRead S.ByteSource 1 result source.old source.new }
{
    if place.bytes < 4 || place.bytes - 4 < at {
        return Err(SourceFault::Damaged);
    }
    let field = source.bytes(place.at + at, 4)?;
    Ok(u32::from_le_bytes([field[0], field[1], field[2], field[3]]))
}
