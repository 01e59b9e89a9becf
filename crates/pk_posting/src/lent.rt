//! Fields of a list that lies in a source.

ghost use Rattle.std.specs.Prelude.{◌/◌, ◌≡◌, ◌+◌, ◌*◌, ◌-◌, ◌<◌, ◌≤◌};
ghost use Rattle.std.specs.Prelude.{ℕ, length, slice_index, IfOk, IfErr, IsOk};
ghost use Rattle.pk_posting.specs.Posting.{word};
ghost use Rattle.pk_posting.specs.Parts.{EntryWords, LiesIn, bytes_at};
ghost use Rattle.pk_posting.specs.Frames.{IsRead};
ghost use Rattle.pk_posting.specs.Limits.{longest_list};

use crate::fields::{ListPlace, word_at};
use crate::source::{ByteSource, SourceFault};

// Four bytes of the list as a number.
pub(crate) fn word_in<S: ByteSource>(
    source: &mut S,
    place: ListPlace,
    at: u32,
) -> Result<u32, SourceFault>
    requires { LiesIn place (length (S.content source.old)) }
    ensures value { S.honest → IfOk result
        (λ n. n ≡ word (bytes_at (S.content source.old) place) at) }
    ensures fault { at + 4 ≤ place.bytes → IfErr result (λ e. e ≡ SourceFault.Disk) }
    ensures inside { IsOk result → at + 4 ≤ place.bytes }
    ensures left { IsRead S.ByteSource 1 result source.old source.new }
{
    if u64::from(place.bytes) < u64::from(at) + 4 {
        return Err(SourceFault::Damaged);
    }
    let stretch = source.bytes(place.at + at, 4)?;
    Ok(word_at(stretch, 0))
}

// A byte of the list.
pub(crate) fn byte_in<S: ByteSource>(
    source: &mut S,
    place: ListPlace,
    at: u32,
) -> Result<u8, SourceFault>
    requires lies { LiesIn place (length (S.content source.old)) }
    requires inside { at < place.bytes }
    ensures value { S.honest → IfOk result
        (λ n. n ≡ slice_index (bytes_at (S.content source.old) place) at) }
    ensures fault { IfErr result (λ e. e ≡ SourceFault.Disk) }
    ensures left { IsRead S.ByteSource 1 result source.old source.new }
{
    let stretch = source.bytes(place.at + at, 1)?;
    Ok(stretch[0])
}

// The words of the entries around block k, from the one numbered `from` up to `to`, and 0 for the
// others.
pub(crate) fn words_in<S: ByteSource>(
    source: &mut S,
    place: ListPlace,
    k: u32,
    from: u32,
    to: u32,
) -> Result<[u32; 10], SourceFault>
    requires lies { LiesIn place (length (S.content source.old)) }
    requires order { (from < to) × (to ≤ 10) × (12 ≤ 20 * k + 4 * from) }
    requires few { k ≤ longest_list / 128 }
    requires inside { 20 * k + 4 * to ≤ place.bytes + 12 }
    ensures value { S.honest → IfOk result
        (EntryWords (bytes_at (S.content source.old) place) k from to) }
    ensures fault { IfErr result (λ e. e ≡ SourceFault.Disk) }
    ensures left { IsRead S.ByteSource 1 result source.old source.new }
{
    let at = 20 * k + 4 * from - 12;
    let stretch = source.bytes(place.at + at, 4 * (to - from))?;
    Ok(words_of(stretch, from as usize, to as usize))
}

// The words of some bytes, put from one index on.
fn words_of(bytes: &[u8], from: usize, to: usize) -> [u32; 10]
    requires order { (from < to) × (to ≤ 10) }
    requires size { length bytes.now ≡ 4 * (to - from) }
    ensures zero { (i : ℕ) → i < from → slice_index result i ≡ 0 }
    ensures value { (i : ℕ) → from ≤ i → i < to
        → slice_index result i ≡ word bytes.now (4 * (i - from)) }
{
    let mut words = [0u32; 10];
    for i in from..to {
        words[i] = word_at(bytes, 4 * (i - from));
    }
    words
}
