//! The lists of all words that begin alike, united.

ghost use Rattle.std.specs.Prelude.{◌≡◌, ◌-◌, ◌<◌, List, OnOk, length, slice_index};
ghost use Rattle.std.specs.List.Sorted.{IsStrictlyIncreasing};
ghost use Rattle.pk_index.specs.Index.{Keeps};
ghost use Rattle.pk_model.specs.Collection.{Doc, answer, numbers_of};
ghost use Rattle.pk_model.specs.Tree.{Prefix};
ghost use Rattle.pk_sets.specs.Sets.{intersection, union};

use crate::live::put_live;
use pk_index::Index;
use pk_union::UnionBuilder;
use std::alloc::{AllocError, Global};

/// Puts the live numbers of the lists of all words that begin so into `out`, by one walk over the
/// words of the table. It takes memory for these numbers alone.
pub(crate) fn put_with_prefix(
    alloc: Global,
    index: &Index,
    live: &[u32],
    prefix: &str,
    out: &mut Vec<u32>,
) -> Result<(), AllocError>
    requires live { IsStrictlyIncreasing live.now }
    ensures numbers { (docs : List Doc) → Keeps index.now docs → live.now ≡ numbers_of docs
        → OnOk result (out.new.items ≡ answer (Prefix prefix.now) docs) }
    ensures rising { OnOk result (IsStrictlyIncreasing out.new.items) }
{
    let (first, last) = ends_of(live);
    let mut united = UnionBuilder::new(alloc, first, last);
    let mut numbers = Vec::new(alloc);
    for place in 0..index.len() {
        let word = index.word(place).as_bytes();
        if word.starts_with(prefix.as_bytes()) {
            unite_live(live, index.row(place).list, &mut united, &mut numbers)?;
        }
    }
    united.finish(out)?;
    Ok(())
}

// The first number and the last; 0 where there is none.
fn ends_of(numbers: &[u32]) -> (u32, u32)
    ensures first { 0 < length numbers.now → result.0 ≡ slice_index numbers.now 0 }
    ensures last { 0 < length numbers.now
        → result.1 ≡ slice_index numbers.now (length numbers.now - 1) }
{
    if numbers.is_empty() {
        return (0, 0);
    }
    (numbers[0], numbers[numbers.len() - 1])
}

// Puts the live numbers of a list to those that are there, by a buffer.
fn unite_live(
    live: &[u32],
    list: &[u32],
    united: &mut UnionBuilder,
    numbers: &mut Vec<u32>,
) -> Result<(), AllocError>
    requires live { IsStrictlyIncreasing live.now }
    requires list { IsStrictlyIncreasing list.now }
    ensures { OnOk result (united.new ≡ union united.old (intersection live.now list.now)) }
{
    put_live(live, list, numbers)?;
    united.put(numbers)
}
