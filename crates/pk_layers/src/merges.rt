//! Merges of two segments on a disk.

ghost use Rattle.std.specs.Prelude.{◌≡◌, ℕ, length, All};
ghost use Rattle.pk_join.specs.Inputs.{HasKind, LiesInside};
ghost use Rattle.pk_merge.specs.Output.{LiesApart};

use crate::lists::added;
use crate::told::{Fault, Told};
use crate::tried::Tried;
use crate::words::Words;
use pk_dead::Dead;
use pk_disk::{Disk, Extent};
use pk_merge::{MergeFault, MergeInput, choose, merged, prepare};
use std::alloc::Global;

/// The bytes of a disk with the two inputs of a merge, and room for a unit behind them.
const MERGING: u64 = 2048;

/// What may not be merged.
const NO_MERGE: Fault = Fault("no merge");

/// The segments in units 1 and 2, of 52 and 37 bytes, as inputs.
fn inputs<'a>(first: &'a Dead, second: &'a Dead) -> [MergeInput<'a>; 2]
    ensures kinds { All HasKind result }
    ensures inside { All (LiesInside 2048) result }
    ensures apart { (end : ℕ) → All (LiesApart 1536 end) result }
{
    [
        MergeInput {
            extent: Extent::of_bytes(1, 52),
            kind: 1,
            dead: first,
        },
        MergeInput {
            extent: Extent::of_bytes(2, 37),
            kind: 1,
            dead: second,
        },
    ]
}

/// What is left of both segments in a kind, or that nothing is.
fn tell_merged(
    alloc: Global,
    disk: &mut Tried,
    words: &mut Words<'_>,
    told: &mut Told,
) -> Result<(), Fault>
    requires { length (⟦<Tried as Disk>⟧.content disk.old) ≡ 2048 }
{
    let kind = words.number();
    if kind != 1 && kind != 2 {
        return Err(NO_MERGE);
    }
    let first = added(alloc, &words.numbers()?)?;
    let second = added(alloc, &words.numbers()?)?;
    match merged(alloc, disk, &inputs(&first, &second), kind)? {
        Some(bytes) => told.bytes(&bytes),
        None => told.word("none"),
    }
    Ok(())
}

/// How long the segment of kind 2 is that is prepared of what is left.
fn prepared_size<D: Disk>(
    alloc: Global,
    disk: &mut D,
    first: &Dead,
    second: &Dead,
) -> Result<Option<u32>, MergeFault>
    requires { length (D.content disk.old) ≡ 2048 }
{
    match prepare(alloc, disk, &inputs(first, second))? {
        Some(prepared) => Ok(Some(prepared.size())),
        None => Ok(None),
    }
}

/// Writes that segment into unit 3, and answers how long it is.
fn merge_into<D: Disk>(
    alloc: Global,
    disk: &mut D,
    first: &Dead,
    second: &Dead,
) -> Result<Option<u32>, MergeFault>
    requires { length (D.content disk.old) ≡ 2048 }
{
    let inputs = inputs(first, second);
    let Some(prepared) = prepare(alloc, disk, &inputs)? else {
        return Ok(None);
    };
    let size = prepared.size();
    if size > 512 {
        return Ok(None);
    }
    prepared.merge_into(disk, 3)?;
    Ok(Some(size))
}

/// How long the segment of what is left is, which is written where that is asked for.
fn tell_prepared(
    alloc: Global,
    disk: &mut Tried,
    is_written: bool,
    words: &mut Words<'_>,
    told: &mut Told,
) -> Result<(), Fault>
    requires { length (⟦<Tried as Disk>⟧.content disk.old) ≡ 2048 }
{
    let first = added(alloc, &words.numbers()?)?;
    let second = added(alloc, &words.numbers()?)?;
    let size = if is_written {
        merge_into(alloc, disk, &first, &second)?
    } else {
        prepared_size(alloc, disk, &first, &second)?
    };
    match size {
        Some(size) => told.number(u64::from(size)),
        None => told.word("none"),
    }
    Ok(())
}

/// Where the least run of eight sizes begins.
pub(crate) fn tell_chosen(words: &mut Words<'_>, told: &mut Told) -> Result<(), Fault> {
    match choose(&words.numbers()?) {
        Some(place) => told.number(place as u64),
        None => told.word("none"),
    }
    Ok(())
}

/// Tells what is asked of merges on a disk.
pub(crate) fn tell_merging(
    alloc: Global,
    disk: &mut Tried,
    name: &str,
    words: &mut Words<'_>,
    told: &mut Told,
) -> Result<(), Fault> {
    if disk.len() != MERGING {
        return Err(NO_MERGE);
    }
    match name {
        "merge" => tell_merged(alloc, disk, words, told),
        "merge-nothing" => {
            told.truth(merged(alloc, disk, &[], 2)?.is_some());
            Ok(())
        }
        _ => tell_prepared(alloc, disk, name == "merge-into", words, told),
    }
}
