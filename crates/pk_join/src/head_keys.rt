//! The keys of the words at the heads of inputs, in groups.

ghost use Rattle.std.specs.Prelude.{
  ◌≡◌,
  ◌≤◌,
  ◌<◌,
  ◌+◌,
  ◌*◌,
  ◌/◌,
  ℕ,
  List,
  length,
  set,
  slice_index,
  IfOk,
};
ghost use Rattle.pk_join.specs.HeadKeys.{AreFloors};

use std::alloc::{AllocError, Global};
use std::marker::Model;

// How many keys a group has: 4,096 inputs, as many as a store has segments, make as many groups.
const GROUP: usize = 64;

// The floor of a group of which a key was set.
const UNKNOWN: u64 = 0;

/// The keys of the words at the heads of inputs, side by side, in groups of 64. Each group has a
/// floor, and none of its keys is below that: so a scan passes over groups whose keys are all
/// greater than one.
#[derive(Drop)]
pub(crate) struct HeadKeys {
    keys: Vec<u64>,
    // The least key of each group, `UNKNOWN` since one was set.
    floors: Vec<u64>,
}

impl Model for HeadKeys {
    ghost Value = { List ℕ };

    ghost view = { λ k. k.keys.items };

    ghost invariant = { λ k. AreFloors k.keys.items k.floors.items };
}

impl HeadKeys {
    /// These keys.
    pub(crate) fn new(alloc: Global, keys: Vec<u64>) -> Result<HeadKeys, AllocError>
        ensures { IfOk result (λ k. k ≡ keys.items) }
    {
        let floors = vec![in alloc; UNKNOWN; keys.len() / GROUP + 1]?;
        Ok(HeadKeys { keys, floors })
    }

    /// The key of the input at the place.
    pub(crate) fn at(&self, place: usize) -> u64
        requires { place < length self.now }
        ensures { result ≡ slice_index self.now place }
    {
        self.keys[place]
    }

    /// Sets the key of the input at the place.
    pub(crate) fn set(&mut self, place: usize, key: u64)
        requires { place < length self.old }
        ensures { self.new ≡ set self.old place key }
    {
        self.keys[place] = key;
        self.floors[place / GROUP] = UNKNOWN;
    }

    /// Looks for the least key of each group of which one was set. All keys stay.
    pub(crate) fn raise_floors(&mut self)
        ensures { self.new ≡ self.old }
    {
        raise_all(&self.keys, &mut self.floors);
    }

    /// The first place from one on whose key is at most this, or the end.
    pub(crate) fn next_within(&self, from: usize, most: u64) -> usize
        requires { from ≤ length self.now }
        ensures within { (from ≤ result) × (result ≤ length self.now) }
        ensures here { result < length self.now → slice_index self.now result ≤ most }
        ensures passed { (k : ℕ) → from ≤ k → k < result → most < slice_index self.now k }
    {
        next_in(&self.keys, &self.floors, from, most)
    }
}

// The least key of each group whose floor is not known.
fn raise_all(keys: &[u64], floors: &mut [u64])
    requires { AreFloors keys.now floors.old }
    ensures len { length floors.new ≡ length floors.old }
    ensures floors { AreFloors keys.now floors.new }
{
    'groups: for group in 0..floors.len() {
        if floors[group] == UNKNOWN {
            floors[group] = least_of(keys, group);
        }
    }
}

// The least key of a group; the greatest number where it has none.
fn least_of(keys: &[u64], group: usize) -> u64
    requires { 64 * group ≤ length keys.now }
    ensures { (k : ℕ) → k / 64 ≡ group → k < length keys.now → result ≤ slice_index keys.now k }
{
    let end = (GROUP * group + GROUP).min(keys.len());
    let mut least = u64::MAX;
    'keys: for at in GROUP * group..end {
        least = least.min(keys[at]);
    }
    least
}

// The first place from one on whose key is at most this, or the end: group by group, but for those
// whose floors are greater.
fn next_in(keys: &[u64], floors: &[u64], from: usize, most: u64) -> usize
    requires floors { AreFloors keys.now floors.now }
    requires from { from ≤ length keys.now }
    ensures within { (from ≤ result) × (result ≤ length keys.now) }
    ensures here { result < length keys.now → slice_index keys.now result ≤ most }
    ensures passed { (k : ℕ) → from ≤ k → k < result → most < slice_index keys.now k }
{
    let mut at = from;
    'groups: while at < keys.len() {
        let group = first_within(floors, at / GROUP, most);
        let start = at.max(GROUP * group).min(keys.len());
        let end = (GROUP * group + GROUP).min(keys.len());
        let next = first_within(&keys[..end], start, most);
        if next < end {
            return next;
        }
        at = end;
    }
    keys.len()
}

// The first place from one on whose number is at most this, or the end.
fn first_within(numbers: &[u64], from: usize, most: u64) -> usize
    requires { from ≤ length numbers.now }
    ensures within { (from ≤ result) × (result ≤ length numbers.now) }
    ensures here { result < length numbers.now → slice_index numbers.now result ≤ most }
    ensures passed { (k : ℕ) → from ≤ k → k < result → most < slice_index numbers.now k }
{
    for at in from..numbers.len() {
        if numbers[at] <= most {
            return at;
        }
    }
    numbers.len()
}
