//! A list put into its bytes.

ghost use Rattle.std.specs.Prelude.{◌≡◌, ◌+◌, ◌*◌, ◌/◌, ◌%◌, ◌<◌, ◌≤◌, ◌++◌, ◌∷◌, if◌then◌else◌};
ghost use Rattle.std.specs.Prelude.{[], length, take, drop, slice_index, IfOk, nat_eq};
ghost use Rattle.std.specs.Int.{w32, to_le_bytes};
ghost use Rattle.pk_lanes.specs.Packed.{FitIn};
ghost use Rattle.pk_posting.specs.Posting.{IsPosting, Spells, tail_bytes, seed, block};
ghost use Rattle.pk_posting.specs.Spelling.{spelling, widths_of, width_at, differences_of};
ghost use Rattle.pk_posting.specs.Spelling.{offset_of, packed_bytes, entry, width_byte, width_row};
ghost use Rattle.pk_posting.specs.Spelling.{joined, body_of};
ghost use Rattle.pk_posting.specs.Tails.{Climbs};
ghost use Rattle.pk_posting.specs.Limits.{longest_list};

use crate::fields::last_number;
use pk_lanes::{differ, pack, width};
use pk_vbyte::put;
use std::alloc::{AllocError, Global};

/// The bytes that spell a list.
///
/// The list rises strictly from at least 1 on and has at most 134,217,728 numbers; it may be empty.
pub fn encode(alloc: Global, xs: &[u32]) -> Result<Vec<u8>, AllocError>
    requires { IsPosting xs.now }
    ensures bytes { IfOk result (λ v. v.items ≡ spelling xs.now) }
    ensures spelled { IfOk result (λ v. Spells v.items xs.now) }
{
    let mut out = vec![in alloc; 0u8; length_of(xs) as usize]?;
    encode_into(xs, &mut out);
    Ok(out)
}

/// How many bytes spell a list, worked out without writing them.
pub fn length_of(xs: &[u32]) -> u32
    requires { IsPosting xs.now }
    ensures { result ≡ length (spelling xs.now) }
{
    let blocks = xs.len() / 128;
    let rows = (blocks + 15) / 16;
    let (tail, before) = tail_at(xs);
    4 + 20 * blocks as u32 + 16 * rows as u32 + 16 * total_width(xs) + tail_length(tail, before)
}

/// Writes the bytes that spell a list into room for just these.
pub fn encode_into(xs: &[u32], out: &mut [u8])
    requires posting { IsPosting xs.now }
    requires room { length out.old ≡ length (spelling xs.now) }
    ensures bytes { out.new ≡ spelling xs.now }
    ensures spelled { Spells out.new xs.now }
{
    let (head, body) = out.split_at_mut(4 + 20 * (xs.len() / 128));
    put_word(xs.len() as u32, 0, head);
    let at = put_blocks(xs, head, body);
    let (tail, before) = tail_at(xs);
    put_tail(tail, before, at, body);
}

// The numbers after the whole blocks, and the number before them, 0 where there is none.
fn tail_at(xs: &[u32]) -> (&[u32], u32)
    requires { IsPosting xs.now }
    ensures tail { result.0.now ≡ drop (128 * (length xs.now / 128)) xs.now }
    ensures before { result.1 ≡ slice_index (0 ∷ xs.now) (128 * (length xs.now / 128)) }
    ensures climbs { Climbs result.1 result.0.now }
{
    let (front, tail) = xs.split_at(128 * (xs.len() / 128));
    (tail, last_number(front))
}

// The sum of the widths of all blocks.
fn total_width(xs: &[u32]) -> u32
    requires { IsPosting xs.now }
    ensures sum { result ≡ widths_of (length xs.now / 128) xs.now }
    ensures most { result ≤ 32 * (longest_list / 128) }
{
    let mut total = 0;
    let mut differences = [0u32; 128];
    for k in 0..xs.len() / 128 {
        total += differences_at(xs, k, &mut differences);
    }
    total
}

// Block k of the list.
fn block_at(xs: &[u32], k: usize) -> [u32; 128]
    requires { 128 * k + 128 ≤ length xs.now }
    ensures { result ≡ block k xs.now }
{
    let mut numbers = [0u32; 128];
    numbers.copy_from_slice(&xs[128 * k..128 * k + 128]);
    numbers
}

// The four numbers before block k, 0 where there are none.
fn seed_at(xs: &[u32], k: usize) -> [u32; 4]
    requires { 128 * k + 128 ≤ length xs.now }
    ensures { result ≡ seed k xs.now }
{
    if k == 0 {
        return [0; 4];
    }
    let at = 128 * k - 4;
    [xs[at], xs[at + 1], xs[at + 2], xs[at + 3]]
}

// The differences that block k packs, and their width.
fn differences_at(xs: &[u32], k: usize, differences: &mut [u32; 128]) -> u32
    requires posting { IsPosting xs.now }
    requires inside { 128 * k + 128 ≤ length xs.now }
    ensures differences { differences.new ≡ differences_of k xs.now }
    ensures width { result ≡ width_at k xs.now }
    ensures fits { FitIn differences.new result }
    ensures most { result ≤ 32 }
{
    differ(&seed_at(xs, k), &block_at(xs, k), differences);
    width(differences)
}

// Writes a number at one place: four bytes, the lowest first.
fn put_word(n: u32, at: usize, out: &mut [u8])
    requires { at + 4 ≤ length out.old }
    ensures { take (at + 4) out.new ≡ take at out.old ++ to_le_bytes w32 n }
{
    out[at..at + 4].copy_from_slice(&n.to_le_bytes());
}

// Writes the skip entry of block k after those before it.
fn put_entry(xs: &[u32], k: usize, offset: u32, head: &mut [u8])
    requires inside { 128 * k + 128 ≤ length xs.now }
    requires offset { offset ≡ offset_of k xs.now }
    requires room { 24 + 20 * k ≤ length head.old }
    ensures { take (24 + 20 * k) head.new ≡ take (4 + 20 * k) head.old ++ entry xs.now k }
{
    let at = 4 + 20 * k;
    let last = 128 * k + 124;
    put_word(offset, at, head);
    put_word(xs[last], at + 4, head);
    put_word(xs[last + 1], at + 8, head);
    put_word(xs[last + 2], at + 12, head);
    put_word(xs[last + 3], at + 16, head);
}

// Packs the differences of a block from one place on.
fn put_packed(differences: &[u32; 128], width: u32, at: usize, out: &mut [u8])
    requires narrow { width ≤ 32 }
    requires small { FitIn differences.now width }
    requires room { at + 16 * width ≤ length out.old }
    ensures { take (at + 16 * width) out.new
        ≡ take at out.old ++ packed_bytes width differences.now }
{
    pack(differences, width, &mut out[at..at + 16 * width as usize]);
}

// Writes the widths of the metablock that begins with block k, if one does, and answers where the
// packed blocks go on.
fn put_widths(xs: &[u32], k: usize, at: usize, out: &mut [u8]) -> usize
    requires posting { IsPosting xs.now }
    requires index { k < length xs.now / 128 }
    requires room { at + (if nat_eq (k % 16) 0 then 16 else 0) ≤ length out.old }
    ensures end { result ≡ at + (if nat_eq (k % 16) 0 then 16 else 0) }
    ensures written { take result out.new
        ≡ take at out.old ++ (if nat_eq (k % 16) 0 then width_row xs.now k else []) }
{
    if k % 16 != 0 {
        return at;
    }
    out[at..at + 16].copy_from_slice(&widths_from(xs, k));
    at + 16
}

// The width bytes of sixteen blocks, 00 where there is no block.
fn widths_from(xs: &[u32], k: usize) -> [u8; 16]
    requires posting { IsPosting xs.now }
    requires index { k < length xs.now / 128 }
    ensures { result ≡ width_row xs.now k }
{
    let mut widths = [0u8; 16];
    let mut differences = [0u32; 128];
    for j in 0..16 {
        widths[j] = width_byte_at(xs, k + j, &mut differences);
    }
    widths
}

// The width byte of block k, 00 where there is no block. The room is for its differences.
fn width_byte_at(xs: &[u32], k: usize, room: &mut [u32; 128]) -> u8
    requires posting { IsPosting xs.now }
    ensures { result ≡ width_byte xs.now k }
{
    if k >= xs.len() / 128 {
        return 0;
    }
    differences_at(xs, k, room) as u8
}

// Writes the skip entries into `head` and the metablocks into `body`, and answers where these end.
fn put_blocks(xs: &[u32], head: &mut [u8], body: &mut [u8]) -> usize
    requires posting { IsPosting xs.now }
    requires entries { length head.old ≡ 4 + 20 * (length xs.now / 128) }
    requires room { length (body_of xs.now) ≤ length body.old }
    ensures head { head.new ≡ take 4 head.old ++ joined (entry xs.now) (length xs.now / 128) }
    ensures end { result ≡ length (body_of xs.now) }
    ensures body { take result body.new ≡ body_of xs.now }
{
    let mut at = 0;
    let mut differences = [0u32; 128];
    for k in 0..xs.len() / 128 {
        at = put_widths(xs, k, at, body);
        put_entry(xs, k, at as u32, head);
        let width = differences_at(xs, k, &mut differences);
        put_packed(&differences, width, at, body);
        at += 16 * width as usize;
    }
    at
}

// Writes the numbers of the tail from one place on.
fn put_tail(xs: &[u32], before: u32, start: usize, out: &mut [u8])
    requires climbs { Climbs before xs.now }
    requires room { start + length (tail_bytes before xs.now) ≤ length out.old }
    ensures { take (start + length (tail_bytes before xs.now)) out.new
        ≡ take start out.old ++ tail_bytes before xs.now }
{
    let mut at = start;
    let mut here = before;
    for x in xs {
        let mut group = [0u8; 5];
        let used = put(*x - here, &mut group);
        out[at..at + used].copy_from_slice(&group[..used]);
        at += used;
        here = *x;
    }
}

// How many bytes the numbers of the tail take.
fn tail_length(xs: &[u32], before: u32) -> u32
    requires climbs { Climbs before xs.now }
    requires few { length xs.now < 128 }
    ensures length { result ≡ length (tail_bytes before xs.now) }
    ensures most { result ≤ 635 }
{
    let mut count = 0;
    let mut here = before;
    for x in xs {
        count += put(*x - here, &mut [0; 5]) as u32;
        here = *x;
    }
    count
}
