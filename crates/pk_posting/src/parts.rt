//! The parts of a list that lies in a source, each taken out by a few stretches.

ghost use Rattle.std.specs.Prelude.{◌≡◌, ◌+◌, ◌*◌, ◌/◌, ◌%◌, ◌<◌, ◌≤◌, ◌∷◌};
ghost use Rattle.std.specs.Prelude.{ℕ, List, length, take, drop, slice_index};
ghost use Rattle.std.specs.Prelude.{IfOk, IfErr, IsOk, IsTrue, MatchResult, OnOk, true};
ghost use Rattle.pk_posting.specs.Posting.{Spells, base, block, tail_place, word};
ghost use Rattle.pk_posting.specs.Tails.{Climbs, IsTail};
ghost use Rattle.pk_posting.specs.Parts.{Fits, HasShape, LiesIn, bytes_at};
ghost use Rattle.pk_posting.specs.Frames.{IsRead};
ghost use Rattle.pk_posting.specs.Limits.{longest_list};

use crate::fields::{LONGEST_LIST, ListPlace, Shape};
use crate::lent::{byte_in, word_in};
use crate::packed::{packed_in, unpack_in};
use crate::source::{ByteSource, SourceFault};
use pk_lanes::ascending;
use pk_vbyte::take;

/// How many bytes a tail has at most: 127 numbers of five bytes each.
const LONGEST_TAIL: u32 = 635;

impl Shape {
    /// The parts of the list that lies at a place of a source, by four stretches at most. It is
    /// Damaged where the place goes past the source's end, or the bytes that are read show that no
    /// list is spelled. Where another byte is wrong, the parts lie within the list's bytes.
    pub fn read<S: ByteSource>(source: &mut S, place: ListPlace) -> Result<Shape, SourceFault>
        ensures spelled { S.honest → (xs : List ℕ)
            → place.at + place.bytes ≤ length (S.content source.old)
            → Spells (bytes_at (S.content source.old) place) xs
            → MatchResult result
            (λ shape. HasShape (bytes_at (S.content source.old) place) shape xs)
            (λ e. e ≡ SourceFault.Disk) }
        ensures fits { IfOk result (λ shape. Fits shape place) }
        ensures lies { IsOk result → LiesIn place (length (S.content source.old)) }
        ensures left { IsRead S.ByteSource 4 result source.old source.new }
    {
        if u64::from(source.len()) < u64::from(place.at) + u64::from(place.bytes) {
            return Err(SourceFault::Damaged);
        }
        let count = word_in(source, place, 0)?;
        if count > LONGEST_LIST {
            return Err(SourceFault::Damaged);
        }
        let blocks = count / 128;
        let tail = tail_place_in(source, place, blocks)?;
        Ok(Shape {
            count,
            blocks,
            tail,
        })
    }
}

/// Puts the numbers of block k of a list into `xs`, by two stretches at most. It is Damaged where
/// the list has no such block, or what is read shows that no list is spelled: the numbers that it
/// gives rise. After a refusal nothing is known of `xs`.
pub fn block_in<S: ByteSource>(
    source: &mut S,
    place: ListPlace,
    shape: Shape,
    k: u32,
    xs: &mut [u32; 128],
) -> Result<(), SourceFault>
    requires lies { LiesIn place (length (S.content source.old)) }
    requires fits { Fits shape place }
    ensures spelled { S.honest → (ys : List ℕ)
        → HasShape (bytes_at (S.content source.old) place) shape ys → k < shape.blocks
        → MatchResult result (λ _. xs.new ≡ block k ys) (λ e. e ≡ SourceFault.Disk) }
    ensures rises { IsOk result → (i : ℕ) → i < 127
        → slice_index xs.new i < slice_index xs.new (i + 1) }
    ensures there { IsOk result → k < shape.blocks }
    ensures left { IsRead S.ByteSource 2 result source.old source.new }
{
    if k >= shape.blocks {
        return Err(SourceFault::Damaged);
    }
    let packed = packed_in(source, place, shape, k)?;
    unpack_in(source, place, packed, xs)?;
    if !ascending(&packed.seed, xs) {
        return Err(SourceFault::Damaged);
    }
    Ok(())
}

/// Puts the numbers after the whole blocks into the front of `xs`, by two stretches at most, and
/// says how many they are: fewer than 128. It is Damaged where what is read shows that no list is
/// spelled: the numbers that it gives rise, from 1 on. After a refusal nothing is known of `xs`.
pub fn tail_in<S: ByteSource>(
    source: &mut S,
    place: ListPlace,
    shape: Shape,
    xs: &mut [u32; 128],
) -> Result<usize, SourceFault>
    requires lies { LiesIn place (length (S.content source.old)) }
    requires fits { Fits shape place }
    ensures spelled { S.honest → (ys : List ℕ)
        → HasShape (bytes_at (S.content source.old) place) shape ys
        → MatchResult result (λ n. take n xs.new ≡ drop (128 * shape.blocks) ys)
        (λ e. e ≡ SourceFault.Disk) }
    ensures count { IfOk result (λ n. n ≡ shape.count % 128) }
    ensures rises { IfOk result (λ n. (i : ℕ) → i < n
        → slice_index (0 ∷ xs.new) i < slice_index xs.new i) }
    ensures left { IsRead S.ByteSource 2 result source.old source.new }
{
    let count = (shape.count % 128) as usize;
    if count == 0 {
        return Ok(0);
    }
    let before = number_before(source, place, shape.blocks)?;
    read_tail_in(source, place, shape.tail, before, count, xs)?;
    Ok(count)
}

/// The last number of block k of a list, from its skip entry: one stretch at most, and no block is
/// decoded. It is never Damaged.
pub fn last_in<S: ByteSource>(
    source: &mut S,
    place: ListPlace,
    shape: Shape,
    k: u32,
) -> Result<u32, SourceFault>
    requires lies { LiesIn place (length (S.content source.old)) }
    requires fits { Fits shape place }
    requires one { k < shape.blocks }
    ensures spelled { S.honest → (ys : List ℕ)
        → HasShape (bytes_at (S.content source.old) place) shape ys
        → MatchResult result (λ n. n ≡ slice_index ys (128 * k + 127))
        (λ e. e ≡ SourceFault.Disk) }
    ensures fault { IfErr result (λ e. e ≡ SourceFault.Disk) }
    ensures left { IsRead S.ByteSource 1 result source.old source.new }
{
    let last = word_in(source, place, 20 * k + 20)?;
    Ok(last)
}

// Where the packed blocks end: after the last of them.
fn tail_place_in<S: ByteSource>(
    source: &mut S,
    place: ListPlace,
    blocks: u32,
) -> Result<u32, SourceFault>
    requires lies { LiesIn place (length (S.content source.old)) }
    requires most { blocks ≤ longest_list / 128 }
    ensures spelled { S.honest → (xs : List ℕ)
        → Spells (bytes_at (S.content source.old) place) xs → length xs / 128 ≡ blocks
        → MatchResult result
        (λ tail. tail ≡ tail_place (bytes_at (S.content source.old) place) blocks)
        (λ e. e ≡ SourceFault.Disk) }
    ensures inside { IfOk result (λ tail. (base blocks ≤ tail) × (tail ≤ place.bytes)) }
    ensures left { IsRead S.ByteSource 3 result source.old source.new }
{
    let base = 4 + 20 * blocks;
    if place.bytes < base {
        return Err(SourceFault::Damaged);
    }
    if blocks == 0 {
        return Ok(4);
    }
    let last = blocks - 1;
    let row = word_in(source, place, 4 + 20 * (16 * (last / 16)))?;
    let offset = word_in(source, place, 4 + 20 * last)?;
    let width_at = u64::from(base) + u64::from(row) + u64::from(last % 16);
    if row < 16 {
        return Err(SourceFault::Damaged);
    }
    if width_at - 16 >= u64::from(place.bytes) {
        return Err(SourceFault::Damaged);
    }
    let width = byte_in(source, place, (width_at - 16) as u32)?;
    let tail = u64::from(base) + u64::from(offset) + 16 * u64::from(width);
    if tail > u64::from(place.bytes) {
        return Err(SourceFault::Damaged);
    }
    Ok(tail as u32)
}

// The last number of the whole blocks, 0 where there is none.
fn number_before<S: ByteSource>(
    source: &mut S,
    place: ListPlace,
    blocks: u32,
) -> Result<u32, SourceFault>
    requires lies { LiesIn place (length (S.content source.old)) }
    requires few { blocks ≤ longest_list / 128 }
    requires inside { base blocks ≤ place.bytes }
    ensures none { blocks ≡ 0 → IfOk result (λ n. n ≡ 0) }
    ensures some { S.honest → 0 < blocks
        → IfOk result (λ n. n ≡ word (bytes_at (S.content source.old) place) (20 * blocks)) }
    ensures fault { IfErr result (λ e. e ≡ SourceFault.Disk) }
    ensures left { IsRead S.ByteSource 1 result source.old source.new }
{
    if blocks == 0 {
        return Ok(0);
    }
    word_in(source, place, 20 * blocks)
}

// The numbers of the tail, which rise from the number before them, and end where the list does.
pub(crate) fn read_tail_in<S: ByteSource>(
    source: &mut S,
    place: ListPlace,
    tail: u32,
    before: u32,
    count: usize,
    xs: &mut [u32; 128],
) -> Result<(), SourceFault>
    requires lies { LiesIn place (length (S.content source.old)) }
    requires inside { tail ≤ place.bytes }
    requires few { count < 128 }
    ensures value { S.honest → OnOk result
        (IsTail (bytes_at (S.content source.old) place) tail before count (take count xs.new)) }
    ensures spelled { S.honest → (ys : List ℕ)
        → IsTail (bytes_at (S.content source.old) place) tail before count ys
        → MatchResult result (λ _. take count xs.new ≡ ys) (λ e. e ≡ SourceFault.Disk) }
    ensures climbs { IsOk result → Climbs before (take count xs.new) }
    ensures left { IsRead S.ByteSource 1 result source.old source.new }
{
    if place.bytes - tail > LONGEST_TAIL {
        return Err(SourceFault::Damaged);
    }
    let stretch = source.bytes(place.at + tail, place.bytes - tail)?;
    if !take_tail(stretch, before, count, xs) {
        return Err(SourceFault::Damaged);
    }
    Ok(())
}

// Whether the bytes are so many numbers that rise; then they are the front of `xs`.
fn take_tail(bytes: &[u8], before: u32, count: usize, xs: &mut [u32; 128]) -> bool
    requires { count < 128 }
    ensures is { IsTrue result → IsTail bytes.now 0 before count (take count xs.new) }
    ensures only { (ys : List ℕ) → IsTail bytes.now 0 before count ys
        → (result ≡ true) × (take count xs.new ≡ ys) }
{
    let mut at = 0;
    let mut here = before;
    for i in 0..count {
        let Ok((gap, used)) = take(&bytes[at..]) else {
            return false;
        };
        if gap == 0 || gap > u32::MAX - here {
            return false;
        }
        here += gap;
        xs[i] = here;
        at += used;
    }
    at == bytes.len()
}
