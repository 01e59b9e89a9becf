//! The table.

ghost use Rattle.std.specs.Prelude.{
  ◌≡◌,
  ◌⊎◌,
  ◌<◌,
  ◌^◌,
  ◌+◌,
  ◌++◌,
  ◌∷◌,
  [],
  ℕ,
  List,
  All,
  IsTrue,
  ◌↔◌,
  Contains,
  length,
  slice_get,
  slice_index,
  replicate,
  MatchOption,
  OnErr,
  OnOk,
  Some,
  string_bytes,
};
ghost use Rattle.pk_terms.specs.Fingerprints.{fingerprint_of};
ghost use Rattle.pk_terms.specs.Slots.{HaveSlots, size_above};
ghost use Rattle.pk_terms.specs.Table.{AreApart, IsPart, IsTable, hashes_of, words_in};

use crate::fingerprints::{SHORT_BYTES, fingerprint, hash_of};
use crate::slots::{fill_slot, free_all, slot_of};
use std::alloc::{AllocError, Global};
use std::marker::Model;

/// How many slots a table has at least, and so the least memory that it takes: a power of two.
const FEWEST_SLOTS: usize = 2048;

/// How many words a table has at most, and how many bytes these have.
const MOST: usize = u32::MAX as usize;

/// A word's fingerprint, and where it lies.
#[derive(Clone, Copy)]
pub struct Entry {
    fingerprint: u64,
    start: u32,
    end: u32,
}

/// Words, each once.
#[derive(Drop)]
pub struct Terms {
    /// The words' bytes. Those of a word that was refused stay, and belong to none.
    text: String,
    /// The words in their order.
    entries: Vec<Entry>,
    /// By the words' hashes one more than their places; 0 in a free slot.
    slots: Vec<u32>,
}

impl Model for Terms {
    ghost Value = { List (List ℕ) };

    ghost view = { λ t. words_in t.entries.items (string_bytes t.text) };

    ghost invariant = { λ t. IsTable t.entries.items (string_bytes t.text) t.slots.items };
}

impl Terms {
    /// A table without a word.
    pub fn new(alloc: Global) -> Self
        ensures { result ≡ [] }
    {
        Terms {
            text: String::new(alloc),
            entries: Vec::new(alloc),
            slots: Vec::new(alloc),
        }
    }

    /// How many words there are.
    pub fn len(&self) -> usize
        ensures len { result ≡ length self.now }
        ensures apart { AreApart self.now }
    {
        self.entries.len()
    }

    /// The word at the place.
    pub fn word(&self, place: usize) -> &str
        requires { place < length self.now }
        ensures { slice_get self.now place ≡ Some result.now }
    {
        word_of(&self.entries, self.text.as_str(), place)
    }

    /// The place of the word, if it is there.
    pub fn find(&self, word: &str) -> Option<usize>
        ensures { MatchOption result
            (Contains self.now word.now → ⊥)
            (λ place. slice_get self.now place ≡ Some word.now) }
    {
        if self.slots.is_empty() {
            return None;
        }
        find_in(&self.entries, self.text.as_str(), &self.slots, word)
    }

    /// Puts a word behind the others.
    pub fn put(&mut self, alloc: Global, word: &str) -> Result<(), AllocError>
        requires { Contains self.old word.now → ⊥ }
        ensures ok { OnOk result (self.new ≡ self.old ++ word.now ∷ []) }
        ensures err { OnErr result (self.new ≡ self.old) }
    {
        let place = self.entries.len();
        let start = self.text.len();
        let end = start.saturating_add(word.len());
        if place >= MOST || end > MOST {
            return Err(AllocError);
        }
        make_room(alloc, &self.entries, &mut self.slots)?;
        self.entries.reserve(1)?;
        self.text.push_str(word)?;
        let fingerprint = fingerprint(word);
        fill_slot(&mut self.slots, hash_of(fingerprint), place)?;
        self.entries.push_reserved(Entry {
            fingerprint,
            start: start as u32,
            end: end as u32,
        });
        Ok(())
    }

    /// Takes all words out, and keeps the memory.
    pub fn clear(&mut self)
        ensures { self.new ≡ [] }
    {
        forget_all(&mut self.text, &mut self.entries, &mut self.slots);
    }
}

/// Takes out the bytes of all words, also of those that were refused, and what is known of them.
fn forget_all(text: &mut String, entries: &mut Vec<Entry>, slots: &mut [u32])
    ensures text { string_bytes text.new ≡ [] }
    ensures entries { entries.new.items ≡ [] }
    ensures free { HaveSlots [] slots.new }
{
    text.clear();
    entries.clear();
    free_all(slots);
}

/// The place of the word, if it is there.
#[inline(always)]
fn find_in(entries: &[Entry], text: &str, slots: &[u32], word: &str) -> Option<usize>
    requires table { IsTable entries.now text.now slots.now }
    requires some { 0 < length slots.now }
    ensures { MatchOption result
        (Contains (words_in entries.now text.now) word.now → ⊥)
        (λ place. slice_get (words_in entries.now text.now) place ≡ Some word.now) }
{
    let fingerprint = fingerprint(word);
    let mut at = slot_of(slots.len(), hash_of(fingerprint) as usize);
    'slots: for _step in 0..slots.len() {
        let next = slots[at] as usize;
        if next == 0 {
            return None;
        }
        if is_at(entries, text, next - 1, fingerprint, word) {
            return Some(next - 1);
        }
        at = slot_of(slots.len(), at + 1);
    }
    None
}

/// Whether it is the word at the place. A short word is known by its fingerprint and its length.
#[inline(always)]
fn is_at(entries: &[Entry], text: &str, place: usize, fingerprint: u64, word: &str) -> bool
    requires parts { All (IsPart text.now) entries.now }
    requires within { place < length entries.now }
    requires fingerprint { fingerprint ≡ fingerprint_of word.now }
    requires bytes { (k : ℕ) → slice_index word.now k < 256 }
    ensures { IsTrue result ↔ (slice_get (words_in entries.now text.now) place ≡ Some word.now) }
{
    let entry = entries[place];
    if entry.fingerprint != fingerprint {
        return false;
    }
    if (entry.end - entry.start) as usize != word.len() {
        return false;
    }
    if word.len() <= SHORT_BYTES {
        return true;
    }
    word_of(entries, text, place) == word
}

/// The word of the entry at the place.
#[inline(always)]
fn word_of<'a>(entries: &[Entry], text: &'a str, place: usize) -> &'a str
    requires parts { All (IsPart text.now) entries.now }
    requires within { place < length entries.now }
    ensures { slice_get (words_in entries.now text.now) place ≡ Some result.now }
{
    let entry = entries[place];
    &text[entry.start as usize..entry.end as usize]
}

/// How many slots there are next: twice as many, so always a power of two.
fn size_above(count: usize) -> usize
    requires { count < 2 ^ 63 }
    ensures { result ≡ size_above count }
{
    (2 * count).max(FEWEST_SLOTS)
}

/// Makes room for one more entry, where half the slots are taken, by twice as many slots.
fn make_room(alloc: Global, entries: &[Entry], slots: &mut Vec<u32>) -> Result<(), AllocError>
    requires few { length entries.now < 2 ^ 32 }
    requires slots { HaveSlots (hashes_of entries.now) slots.old.items }
    ensures slots { HaveSlots (hashes_of entries.now) slots.new.items }
    ensures some { OnOk result (0 < length slots.new.items) }
    ensures size { length slots.new.items ≡ length slots.old.items
        ⊎ (length slots.new.items ≡ size_above (length slots.old.items)) }
{
    if entries.len() < slots.len() / 2 {
        return Ok(());
    }
    let mut new_slots = vec![in alloc; 0u32; size_above(slots.len())]?;
    fill_all(entries, &mut new_slots)?;
    *slots = new_slots;
    Ok(())
}

/// Puts the places of all entries into free slots.
fn fill_all(entries: &[Entry], slots: &mut [u32]) -> Result<(), AllocError>
    requires some { 0 < length slots.old }
    requires few { length entries.now < 2 ^ 32 }
    requires free { slots.old ≡ replicate (length slots.old) 0 }
    ensures len { length slots.new ≡ length slots.old }
    ensures ok { OnOk result (HaveSlots (hashes_of entries.now) slots.new) }
{
    'places: for place in 0..entries.len() {
        fill_slot(slots, hash_of(entries[place].fingerprint), place)?;
    }
    Ok(())
}
