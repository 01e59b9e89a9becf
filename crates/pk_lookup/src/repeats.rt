//! The words of a query, which of them come more than once, and their hashes.
ghost use Rattle.std.specs.Prelude.{◌<◌, ◌+◌, length, IfOk, OnOk};
ghost use Rattle.pk_plan.specs.Words.{texts};
ghost use Rattle.pk_lookup.specs.Hashes.{AreHashes};
ghost use Rattle.pk_lookup.specs.Repeats.{AreFirsts, IsFirst, IsKnown};

use pk_filter::WordHash;
use smallvec::SmallVec;
use std::alloc::{AllocError, Global};
use std::collections::HashMap;

// How many words are few: each is compared with those before it, which is quicker than a table.
const FEW: usize = 8;

/// For each place of a word the first place of the same word: of few words without an allocation.
pub(crate) type Firsts = SmallVec<usize, FEW>;

/// The words of a query, for each place of a word the first place of the same word, and the hash of
/// each.
#[derive(Clone, Copy)]
pub(crate) struct QueryWords<'a> {
    pub(crate) words: &'a [&'a str],
    pub(crate) firsts: &'a [usize],
    pub(crate) hashes: &'a [WordHash],
    ghost are_firsts: { AreFirsts (texts words.now) firsts.now },
    ghost are_hashes: { AreHashes (texts words.now) hashes.now },
}

/// The hashes of words, of few without an allocation.
pub(crate) type Hashes = SmallVec<WordHash, FEW>;

/// The hash of each word.
pub(crate) fn hashes_of(alloc: Global, words: &[&str]) -> Result<Hashes, AllocError>
    ensures { IfOk result (λ hashes. AreHashes (texts words.now) hashes.items) }
{
    let mut hashes = SmallVec::new(alloc);
    for place in 0..words.len() {
        hashes.push(WordHash::of(words[place].as_bytes()))?;
    }
    Ok(hashes)
}

/// For each place of a word the first place of the same word, so that it is looked up there alone.
pub(crate) fn first_places(alloc: Global, words: &[&str]) -> Result<Firsts, AllocError>
    ensures { IfOk result (λ firsts. AreFirsts (texts words.now) firsts.items) }
{
    if words.len() <= FEW {
        return few_places(alloc, words);
    }
    many_places(alloc, words)
}

// The same of few words, without a table.
fn few_places(alloc: Global, words: &[&str]) -> Result<Firsts, AllocError>
    ensures { IfOk result (λ firsts. AreFirsts (texts words.now) firsts.items) }
{
    let mut firsts = SmallVec::new(alloc);
    for place in 0..words.len() {
        firsts.push(place_before(words, place))?;
    }
    Ok(firsts)
}

// The first place of the word at a place: of a word before it, or its own.
fn place_before(words: &[&str], place: usize) -> usize
    requires { place < length words.now }
    ensures { IsFirst (texts words.now) place result }
{
    for first in 0..place {
        if words[first] == words[place] {
            return first;
        }
    }
    place
}

// The same of any words, by a table.
fn many_places(alloc: Global, words: &[&str]) -> Result<Firsts, AllocError>
    ensures { IfOk result (λ firsts. AreFirsts (texts words.now) firsts.items) }
{
    let mut known = HashMap::new(alloc);
    let mut firsts = SmallVec::new(alloc);
    for place in 0..words.len() {
        let first = first_place(&mut known, words, place)?;
        firsts.push(first)?;
    }
    Ok(firsts)
}

// The first place of the word at a place, where that of each word before it is known; then its own
// is known too.
fn first_place<'a>(
    known: &mut HashMap<&'a str, usize>,
    words: &[&'a str],
    place: usize,
) -> Result<usize, AllocError>
    requires word { place < length words.now }
    requires known { IsKnown (texts words.now) place known.old }
    ensures first { IfOk result (IsFirst (texts words.now) place) }
    ensures known { OnOk result (IsKnown (texts words.now) (place + 1) known.new) }
{
    let word = words[place];
    if let Some(first) = known.get(word) {
        return Ok(*first);
    }
    known.insert(word, place)?;
    Ok(place)
}
