//! How much of a term a dictionary's bytes share with the wanted one.

ghost use Rattle.std.specs.Prelude.{◌≡◌, ◌≤◌, ◌<◌, ◌+◌, length, take, drop, IfOk, IfErr};
ghost use Rattle.pk_dict.specs.Dictionary.{shared};
ghost use Rattle.pk_dict.specs.Order.{less};
ghost use Rattle.pk_dict.specs.Place.{LiesIn, bytes_at};
ghost use Rattle.pk_dict.specs.Reading.{Gives, shared_at};
ghost use Rattle.pk_posting.specs.Limits.{asks_for, most_lent};
ghost use Rattle.pk_posting.specs.Frames.{IsRead};

use crate::entry::DictPlace;
use pk_posting::{ByteSource, MOST_LENT, SourceFault};

// How many bytes two slices share at their fronts.
pub(crate) fn shared_front(a: &[u8], b: &[u8]) -> usize
    ensures value { result ≡ shared a.now b.now }
    ensures most { (result ≤ length a.now) × (result ≤ length b.now) }
{
    let mut n = 0;
    while n < a.len() && n < b.len() && a[n] == b[n] {
        n += 1;
    }
    n
}

// Whether a term is less than another, by their bytes.
pub(crate) fn is_less(a: &[u8], b: &[u8]) -> bool
    ensures { result ≡ less a.now b.now }
{
    let n = shared_front(a, b);
    n < b.len() && (n == a.len() || a[n] < b[n])
}

// How many bytes a stretch at a place shares with a term.
pub(crate) fn shared_stretch<S: ByteSource>(
    source: &mut S,
    place: DictPlace,
    at: u32,
    size: u32,
    term: &[u8],
) -> Result<usize, SourceFault>
    requires lies { LiesIn place (length (S.content source.old)) }
    requires few { size ≤ most_lent }
    requires inside { at + size ≤ place.bytes }
    ensures value { S.honest → IfOk result (λ c.
        c ≡ shared (take size (drop at (bytes_at (S.content source.old) place))) term.now) }
    ensures most { IfOk result (λ c. (c ≤ size) × (c ≤ length term.now)) }
    ensures fault { IfErr result (λ e. e ≡ SourceFault.Disk) }
    ensures left { IsRead S.ByteSource 1 result source.old source.new }
{
    let piece = source.bytes(place.at + at, size)?;
    Ok(shared_front(piece, term))
}

// How many of the n bytes at a place are those of a term, from its front on.
pub(crate) fn shared_with<S: ByteSource>(
    source: &mut S,
    place: DictPlace,
    at: u32,
    n: u32,
    term: &[u8],
) -> Result<usize, SourceFault>
    requires { LiesIn place (length (S.content source.old)) }
    ensures value { S.honest → Gives result
        (shared_at (bytes_at (S.content source.old) place) at n term.now) }
    ensures most { IfOk result (λ c. (c ≤ n) × (c ≤ length term.now)) }
    ensures inside { IfOk result (λ _. at + n ≤ place.bytes) }
    ensures left { IsRead S.ByteSource (asks_for (length term.now)) result source.old source.new }
{
    if u64::from(place.bytes) < u64::from(at) + u64::from(n) {
        return Err(SourceFault::Damaged);
    }
    let most = (n as usize).min(term.len());
    let mut done: usize = 0;
    while done < most {
        let size = (most - done).min(MOST_LENT);
        let more = shared_stretch(source, place, at + done as u32, size as u32, &term[done..])?;
        done += more;
        if more < size {
            return Ok(done);
        }
    }
    Ok(done)
}
