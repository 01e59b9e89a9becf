//! Variable bytes, digits, keys, packed blocks and sets.

ghost use Rattle.std.specs.Prelude.{◌≤◌, IfOk, length};
ghost use Rattle.std.specs.List.Sorted.{IsStrictlyIncreasing};

use crate::told::{Fault, Told};
use crate::words::Words;
use pk_digits::{FourDigits, LeadingDigits, SPACED_BYTES};
use pk_keys::{around, keep, key};
use pk_lanes::{ascending, differ, pack, restore, unpack, unpack_sums, width};
use pk_sets::{both, both_gallop, both_merge, either, is_rising, without};
use pk_vbyte::{put, take};
use std::alloc::{AllocError, Global};

/// What fills a room before something is put there.
const FILLING: u8 = 0xEE;

/// Puts a number's variable bytes to the front of five others.
pub(crate) fn tell_put(words: &mut Words<'_>, told: &mut Told) -> Result<(), Fault> {
    let mut out = [FILLING; 5];
    let used = put(words.number(), &mut out);
    told.number(used as u64);
    told.bytes(&out);
    Ok(())
}

/// The number that bytes begin with.
pub(crate) fn tell_taken(words: &mut Words<'_>, told: &mut Told) -> Result<(), Fault> {
    let (number, used) = take(&words.bytes()?)?;
    told.number(u64::from(number));
    told.number(used as u64);
    Ok(())
}

/// Numbers in decimal, each behind a space, as they are written one after the other.
pub(crate) fn tell_digits(words: &mut Words<'_>, told: &mut Told) -> Result<(), Fault> {
    let fours = FourDigits::new(words.alloc())?;
    let mut leading = LeadingDigits::new();
    for number in &words.numbers()? {
        let mut out = [FILLING; SPACED_BYTES];
        let end = leading.write_spaced(&fours, *number, &mut out);
        told.bytes(&out[..end]);
    }
    Ok(())
}

/// A word's key.
pub(crate) fn tell_key(words: &mut Words<'_>, told: &mut Told) -> Result<(), Fault> {
    told.number(key(&words.bytes()?));
    Ok(())
}

/// What a table of pivots decides.
pub(crate) fn tell_around(words: &mut Words<'_>, told: &mut Told) -> Result<(), Fault> {
    let pivots = words.longs()?;
    let bounds = around(&pivots, words.number(), words.long());
    told.number(u64::from(bounds.low));
    told.number(u64::from(bounds.high));
    told.number(bounds.node as u64);
    Ok(())
}

/// A table of pivots into which a key is put.
pub(crate) fn tell_kept(words: &mut Words<'_>, told: &mut Told) -> Result<(), Fault> {
    let mut pivots = words.longs()?;
    keep(&mut pivots, words.number() as usize, words.long());
    for pivot in &pivots {
        told.number(*pivot);
    }
    Ok(())
}

/// 128 numbers: those that are written, and zeros behind them.
fn block(words: &mut Words<'_>) -> Result<[u32; 128], AllocError> {
    let mut xs = [0; 128];
    for (x, number) in xs.iter_mut().zip(words.numbers()?.iter()) {
        *x = *number;
    }
    Ok(xs)
}

/// The four numbers before a block.
fn seed(words: &mut Words<'_>) -> Result<[u32; 4], AllocError> {
    let mut xs = [0; 4];
    for (x, number) in xs.iter_mut().zip(words.numbers()?.iter()) {
        *x = *number;
    }
    Ok(xs)
}

/// The width of a block.
pub(crate) fn tell_width(words: &mut Words<'_>, told: &mut Told) -> Result<(), Fault> {
    told.number(u64::from(width(&block(words)?)));
    Ok(())
}

/// A block at its width.
pub(crate) fn tell_packed(words: &mut Words<'_>, told: &mut Told) -> Result<(), Fault> {
    let xs = block(words)?;
    let bits = width(&xs);
    let mut room = [FILLING; 512];
    let bytes = &mut room[..16 * bits as usize];
    pack(&xs, bits, bytes);
    told.bytes(bytes);
    Ok(())
}

/// What a packed block has, over other numbers.
pub(crate) fn tell_unpacked(words: &mut Words<'_>, told: &mut Told) -> Result<(), Fault> {
    let bits = words.number();
    let bytes = words.bytes()?;
    if bits > 32 || bytes.len() != 16 * bits as usize {
        return Err(Fault("no block"));
    }
    let mut xs = [7; 128];
    unpack(&bytes, bits, &mut xs);
    told.numbers(&xs);
    Ok(())
}

/// Its sums, over other numbers.
pub(crate) fn tell_sums(words: &mut Words<'_>, told: &mut Told) -> Result<(), Fault> {
    let bits = words.number();
    let seed = seed(words)?;
    let bytes = words.bytes()?;
    if bits > 32 || bytes.len() != 16 * bits as usize {
        return Err(Fault("no block"));
    }
    let mut xs = [9; 128];
    unpack_sums(&bytes, bits, &seed, &mut xs);
    told.numbers(&xs);
    Ok(())
}

/// The differences of a block.
pub(crate) fn tell_differences(words: &mut Words<'_>, told: &mut Told) -> Result<(), Fault> {
    let mut differences = [7; 128];
    differ(&seed(words)?, &block(words)?, &mut differences);
    told.numbers(&differences);
    Ok(())
}

/// The block of differences.
pub(crate) fn tell_restored(words: &mut Words<'_>, told: &mut Told) -> Result<(), Fault> {
    let mut xs = [7; 128];
    restore(&seed(words)?, &block(words)?, &mut xs);
    told.numbers(&xs);
    Ok(())
}

/// Whether a block ascends.
pub(crate) fn tell_ascending(words: &mut Words<'_>, told: &mut Told) -> Result<(), Fault> {
    told.truth(ascending(&seed(words)?, &block(words)?));
    Ok(())
}

/// Whether a set rises.
pub(crate) fn tell_rising(words: &mut Words<'_>, told: &mut Told) -> Result<(), Fault> {
    told.truth(is_rising(&words.numbers()?));
    Ok(())
}

/// A room of so many numbers, and some to spare.
fn room(alloc: Global, long: usize, spare: u32) -> Result<Vec<u32>, AllocError>
    ensures { IfOk result (λ v. long ≤ length v.items) }
{
    vec![in alloc; 7u32; long.saturating_add(spare as usize)]
}

/// What two sets have in common, by each way, in the room that it asks for and some places to spare.
fn tell_both(
    alloc: Global,
    spare: u32,
    a: &[u32],
    b: &[u32],
    told: &mut Told,
) -> Result<(), AllocError>
    requires rising_a { IsStrictlyIncreasing a.now }
    requires rising_b { IsStrictlyIncreasing b.now }
{
    let mut shared = room(alloc, a.len().min(b.len()), spare)?;
    let n = both(a, b, &mut shared);
    told.numbers(&shared[..n]);
    let n = both_merge(a, b, &mut shared);
    told.numbers(&shared[..n]);
    let n = both_gallop(a, b, &mut shared);
    told.numbers(&shared[..n]);
    Ok(())
}

/// What either has, and what the first has alone.
fn tell_others(
    alloc: Global,
    spare: u32,
    a: &[u32],
    b: &[u32],
    told: &mut Told,
) -> Result<(), AllocError>
    requires rising_a { IsStrictlyIncreasing a.now }
    requires rising_b { IsStrictlyIncreasing b.now }
{
    let mut all = room(alloc, a.len().saturating_add(b.len()), spare)?;
    let n = either(a, b, &mut all);
    told.numbers(&all[..n]);
    let mut rest = room(alloc, a.len(), spare)?;
    let n = without(a, b, &mut rest);
    told.numbers(&rest[..n]);
    Ok(())
}

/// What each operation gives of two sets.
pub(crate) fn tell_sets(
    alloc: Global,
    words: &mut Words<'_>,
    told: &mut Told,
) -> Result<(), Fault> {
    let spare = words.number();
    let a = words.numbers()?;
    let b = words.numbers()?;
    if !is_rising(&a) || !is_rising(&b) {
        return Err(Fault("no set"));
    }
    tell_both(alloc, spare, &a, &b, told)?;
    tell_others(alloc, spare, &a, &b, told)?;
    Ok(())
}
