//! A list taken out of its bytes.

ghost use Rattle.std.specs.Prelude.{◌≡◌, ◌+◌, ◌*◌, ◌/◌, ◌%◌, ◌<◌, ◌≤◌, ◌++◌, ◌↔◌};
ghost use Rattle.std.specs.Prelude.{ℕ, List, [], length, IfOk, IfErr, OnOk, IsTrue, MatchResult};
ghost use Rattle.std.specs.Prelude.{true, slice_index, IsErrOf, MatchOption, vec_capacity, vec_len};
ghost use Rattle.pk_posting.specs.Posting.{word, differences, IsRightBlock, NeedsBits, Spells};
ghost use Rattle.pk_posting.specs.Posting.{base};
ghost use Rattle.pk_posting.specs.Reading.{Begun, Breaks, Gives, HaveRoom, IsRestored, IsTaken};
ghost use Rattle.pk_posting.specs.Reading.{NotSpelled, ReadTo};
ghost use Rattle.pk_posting.specs.Tails.{TailRead, NoTail, NoList};
ghost use Rattle.pk_posting.specs.declared.decoding.DecodeFault.TheVariants.{Memory};
ghost use Rattle.pk_posting.specs.Limits.{longest_list};

use crate::fields::{LONGEST_LIST, last_number, word_at};
use pk_lanes::{ascending, unpack_sums};
use pk_vbyte::take;
use std::alloc::{AllocError, AllocFailed, Global};

/// Why no list was decoded.
#[derive(Clone, Copy, Debug, PartialEq, Eq)]
pub enum DecodeFault {
    /// The bytes spell no list.
    Damaged,
    /// No memory was found for the list.
    Memory,
}

impl From<AllocError> for DecodeFault {
    ghost from_gives = { λ _ e. e ≡ Memory };

    fn from(_e: AllocError) -> DecodeFault {
        DecodeFault::Memory
    }
}

impl<T: Drop> From<AllocFailed<T>> for DecodeFault {
    ghost from_gives = { λ _ e. e ≡ Memory };

    fn from(_e: AllocFailed<T>) -> DecodeFault {
        DecodeFault::Memory
    }
}

/// The list that the bytes spell. Its memory is taken once, before the first block is read, and is
/// just what its numbers need.
pub fn decode(alloc: Global, bytes: &[u8]) -> Result<Vec<u32>, DecodeFault>
    ensures list { IfOk result (λ v. Spells bytes.now v.items) }
    ensures memory { IfOk result (λ v. vec_capacity v ≡ length v.items) }
    ensures damaged { IfErr result (NoList bytes.now) }

    // No memory is asked for where the bytes have no room for as many numbers as they count.
    ensures asks { IsErrOf result DecodeFault.Memory → HaveRoom bytes.now }

    ensures spelled { (xs : List ℕ) → Spells bytes.now xs
        → MatchResult result (λ v. v.items ≡ xs) (λ fault. fault ≡ Memory) }
{
    if bytes.len() < 4 {
        return Err(DecodeFault::Damaged);
    }
    let count = word_at(bytes, 0) as usize;
    if count > LONGEST_LIST as usize {
        return Err(DecodeFault::Damaged);
    }
    let blocks = count / 128;
    if bytes.len() < least_length(blocks, count % 128) {
        return Err(DecodeFault::Damaged);
    }
    let mut out = Vec::with_capacity(alloc, count)?;
    let start = read_blocks(bytes, blocks, &mut out)?;
    let before = last_number(&out);
    read_tail(bytes, start, before, count % 128, &mut out)?;
    Ok(out)
}

// How many bytes a list of so many blocks, and so many numbers in its tail, takes at least. A width
// is at least 3, since numbers that rise differ by at least 4 over four numbers.
pub(crate) fn least_length(blocks: usize, left: usize) -> usize
    requires blocks { blocks ≤ longest_list / 128 }
    requires left { left < 128 }
    ensures { result ≡ 4 + 68 * blocks + 16 * ((blocks + 15) / 16) + left }
{
    4 + 68 * blocks + 16 * ((blocks + 15) / 16) + left
}

// Puts the numbers of the whole blocks into `out`, and answers where the tail begins.
fn read_blocks(bytes: &[u8], blocks: usize, out: &mut Vec<u32>) -> Result<usize, DecodeFault>
    requires most { blocks ≤ longest_list / 128 }
    requires head { base blocks ≤ length bytes.now }
    requires none { out.old.items ≡ [] }
    requires memory { 128 * blocks ≤ vec_capacity out.old }
    ensures memory { vec_capacity out.new ≡ vec_capacity out.old }
    ensures read { IfOk result (λ at. (before : List ℕ) × (widths : ℕ)
        × ReadTo bytes.now blocks blocks out.new.items before at widths) }
    ensures damaged { IfErr result (NotSpelled bytes.now blocks) }
{
    let mut at = 4 + 20 * blocks;
    let mut widths = at;
    let mut seed = [0u32; 4];
    let mut xs = [0u32; 128];
    for k in 0..blocks {
        let Some((begin_at, begin_widths)) = begin(bytes, blocks, k, at, widths) else {
            return Err(DecodeFault::Damaged);
        };
        if !block_of(bytes, blocks, k, begin_at, begin_widths, &seed, &mut xs) {
            return Err(DecodeFault::Damaged);
        }
        put_numbers(&xs, out);
        if !is_right(bytes, blocks, k, begin_at, begin_widths, &seed, &xs) {
            return Err(DecodeFault::Damaged);
        }
        seed = [xs[124], xs[125], xs[126], xs[127]];
        widths = begin_widths;
        at = begin_at + 16 * bytes[widths + k % 16] as usize;
    }
    Ok(at)
}

// Puts the numbers of a block after those in `out`, within the memory that it has.
#[inline(always)]
fn put_numbers(xs: &[u32; 128], out: &mut Vec<u32>)
    requires memory { vec_len out.old + 128 ≤ vec_capacity out.old }
    ensures numbers { out.new.items ≡ out.old.items ++ xs.now }
    ensures memory { vec_capacity out.new ≡ vec_capacity out.old }
{
    for x in xs {
        out.push_reserved(*x);
    }
}

// Whether the numbers that a block's packed bytes restore make it right: they rise, and no fewer
// bits hold its differences.
pub(crate) fn is_right_block(
    bytes: &[u8],
    at: usize,
    b: usize,
    seed: &[u32; 4],
    xs: &[u32; 128],
) -> bool
    requires small { b ≤ 32 }
    requires room { at + 16 * b ≤ length bytes.now }
    requires restored { IsRestored bytes.now at b seed.now xs.now }
    requires order { (i : ℕ) → i < 3 → slice_index seed.now i ≤ slice_index seed.now (i + 1) }
    ensures good { IsTrue result → IsRightBlock bytes.now at b seed.now xs.now }
    ensures only { (ys : List ℕ) → IsRightBlock bytes.now at b seed.now ys
        → (result ≡ true) × (xs.now ≡ ys) }
{
    if !ascending(seed, xs) {
        return false;
    }
    needs_bits(seed, xs, b as u32)
}

// Whether no fewer bits hold each difference: one of them is half of 2^width at least. It is mostly
// found after a few numbers.
fn needs_bits(seed: &[u32; 4], xs: &[u32; 128], width: u32) -> bool
    requires { width ≤ 32 }
    ensures { IsTrue result ↔ NeedsBits width (differences seed.now xs.now) }
{
    if width == 0 {
        return true;
    }
    let half = 1u32 << (width - 1);
    for i in 0..128 {
        if xs[i].saturating_sub(before(seed, xs, i)) >= half {
            return true;
        }
    }
    false
}

// The fourth number before, in the seed for the first four.
#[inline(always)]
fn before(seed: &[u32; 4], xs: &[u32; 128], i: usize) -> u32
    requires { i < 128 }
    ensures { result ≡ slice_index (seed.now ++ xs.now) i }
{
    if i < 4 {
        return seed[i];
    }
    xs[i - 4]
}

// Where the block k begins and where the widths of its metablock are.
fn begin(bytes: &[u8], blocks: usize, k: usize, at: usize, widths: usize) -> Option<(usize, usize)>
    requires one { k < blocks }
    requires most { blocks ≤ longest_list / 128 }
    requires offset { at ≤ length bytes.now }
    requires room { 0 < k % 16 → widths + 16 ≤ length bytes.now }
    ensures { MatchOption result (Breaks bytes.now blocks k at)
        (λ r. Begun bytes.now blocks k at widths r.0 r.1) }
{
    if k % 16 != 0 {
        return Some((at, widths));
    }
    if bytes.len() - at < 16 {
        return None;
    }
    let row = &bytes[at..at + 16];
    if !is_padded(row, k, blocks) {
        return None;
    }
    Some((at + 16, at))
}

// Whether the widths of the metablock that begins with block k are 0 past the last block.
pub(crate) fn is_padded(widths: &[u8], k: usize, blocks: usize) -> bool
    requires one { k < blocks }
    requires most { blocks ≤ longest_list / 128 }
    requires all { length widths.now ≡ 16 }
    ensures { IsTrue result ↔ ((j : ℕ) → j < 16 → blocks ≤ k + j
        → slice_index widths.now j ≡ 0) }
{
    for j in 0..16 {
        if k + j >= blocks && widths[j] != 0 {
            return false;
        }
    }
    true
}

// Whether four numbers stand at one place that end a block.
pub(crate) fn ends_with(bytes: &[u8], at: usize, xs: &[u32; 128]) -> bool
    requires { at + 16 ≤ length bytes.now }
    ensures { IsTrue result ↔ ((c : ℕ) → c < 4
        → word bytes.now (at + 4 * c) ≡ slice_index xs.now (124 + c)) }
{
    for c in 0..4 {
        if word_at(bytes, at + 4 * c) != xs[124 + c] {
            return false;
        }
    }
    true
}

// Takes the numbers of the block k out of its packed bytes, if its offset and its width are right.
fn block_of(
    bytes: &[u8],
    blocks: usize,
    k: usize,
    at: usize,
    widths: usize,
    seed: &[u32; 4],
    xs: &mut [u32; 128],
) -> bool
    requires one { k < blocks }
    requires most { blocks ≤ longest_list / 128 }
    requires head { base blocks ≤ length bytes.now }
    requires offset { at ≤ length bytes.now }
    requires room { widths + 16 ≤ length bytes.now }
    ensures taken { IsTrue result → IsTaken bytes.now blocks k at widths seed.now xs.new }
    ensures only { (ys : List ℕ) → Gives bytes.now blocks k at widths seed.now ys → result ≡ true }
{
    if word_at(bytes, 4 + 20 * k) as usize + (4 + 20 * blocks) != at {
        return false;
    }
    let b = bytes[widths + k % 16] as usize;
    if b > 32 || bytes.len() - at < 16 * b {
        return false;
    }
    unpack_sums(&bytes[at..at + 16 * b], b as u32, seed, xs);
    true
}

// Whether the numbers taken out of the block k are right, and end as its entry says.
fn is_right(
    bytes: &[u8],
    blocks: usize,
    k: usize,
    at: usize,
    widths: usize,
    seed: &[u32; 4],
    xs: &[u32; 128],
) -> bool
    requires one { k < blocks }
    requires most { blocks ≤ longest_list / 128 }
    requires head { base blocks ≤ length bytes.now }
    requires room { widths + 16 ≤ length bytes.now }
    requires taken { IsTaken bytes.now blocks k at widths seed.now xs.now }
    requires order { (i : ℕ) → i < 3 → slice_index seed.now i ≤ slice_index seed.now (i + 1) }
    ensures gives { IsTrue result → Gives bytes.now blocks k at widths seed.now xs.now }
    ensures only { (ys : List ℕ) → Gives bytes.now blocks k at widths seed.now ys
        → (result ≡ true) × (xs.now ≡ ys) }
{
    if !is_right_block(bytes, at, bytes[widths + k % 16] as usize, seed, xs) {
        return false;
    }
    ends_with(bytes, 4 + 20 * k + 4, xs)
}

// Puts the numbers of the tail into `out`, `count` numbers that rise from `before`.
fn read_tail(
    bytes: &[u8],
    start: usize,
    before: u32,
    count: usize,
    out: &mut Vec<u32>,
) -> Result<(), DecodeFault>
    requires offset { start ≤ length bytes.now }
    requires memory { length out.old.items + count ≤ vec_capacity out.old }
    ensures memory { vec_capacity out.new ≡ vec_capacity out.old }
    ensures read { OnOk result (TailRead bytes.now start before count out.old.items out.new.items) }
    ensures damaged { IfErr result (NoTail bytes.now start before count) }
{
    let mut at = start;
    let mut here = before;
    for i in 0..count {
        let Ok((gap, used)) = take(&bytes[at..]) else {
            return Err(DecodeFault::Damaged);
        };
        if gap == 0 || gap > u32::MAX - here {
            return Err(DecodeFault::Damaged);
        }
        here += gap;
        out.push_reserved(here);
        at += used;
    }
    if at != bytes.len() {
        return Err(DecodeFault::Damaged);
    }
    Ok(())
}
