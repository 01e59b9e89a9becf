//! A dictionary written term by term.

ghost use Rattle.std.specs.Prelude.{
  ◌≡◌,
  ◌≤◌,
  ◌<◌,
  ◌+◌,
  ◌^◌,
  ◌↔◌,
  ◌++◌,
  ◌∷◌,
  [],
  ℕ,
  List,
  length,
  take,
  OnErr,
  OnOk,
  IfOk,
  IsTrue,
};
ghost use Rattle.pk_dict.specs.Dictionary.{DictSpells, Item, item_of, numbers};
ghost use Rattle.pk_dict.specs.Dictionary.{rest_of, shared, spelling};
ghost use Rattle.pk_dict.specs.Writer.{HasAdded, MayAdd, MayFollow};
ghost use Rattle.pk_vbyte.specs.VariableByte.{vbyte};

use crate::compare::{is_less, shared_front};
use crate::entry::Entry;
use pk_posting::ListPlace;
use pk_vbyte::put;
use std::alloc::{AllocError, Global};
use std::vec::Vec;

/// How many terms a group has.
const GROUP: u32 = 16;

/// How many bytes a group's offset has.
const OFFSET: usize = 4;

/// So many bytes are too many for a dictionary.
const TOO_LARGE: usize = 1 << 32;

/// Writes a dictionary, term by term.
#[derive(Drop)]
pub struct DictWriter {
    alloc: Global,
    // Where each group starts, counted from the first.
    starts: Vec<u32>,
    // The groups.
    body: Vec<u8>,
    // The last term: the next one says how much it shares with it.
    last: Vec<u8>,
    // How many terms the last group has, 0 where the next one begins a group.
    in_group: u32,
}

impl DictWriter {
    /// A writer to which nothing was added. It takes no memory.
    pub fn new(alloc: Global) -> DictWriter
        ensures { HasAdded result [] }
    {
        DictWriter {
            alloc,
            starts: Vec::new(alloc),
            body: Vec::new(alloc),
            last: Vec::new(alloc),
            in_group: 0,
        }
    }

    /// Adds a term, which is greater than those before, with its frequency and the place of its
    /// list.
    /// The bytes of `finish` stay below 2^32. An `Err` changes nothing.
    pub fn add(&mut self, term: &[u8], frequency: u32, place: ListPlace) -> Result<(), AllocError>
        requires { MayAdd self.old (item_of term.now frequency place) }
        ensures ok { (es : List Item) → HasAdded self.old es
            → OnOk result (HasAdded self.new (es ++ item_of term.now frequency place ∷ [])) }
        ensures err { (es : List Item) → HasAdded self.old es
            → OnErr result (HasAdded self.new es) }
    {
        let entry = Entry { frequency, place };
        self.last.reserve(term.len())?;
        if self.in_group == 0 {
            let start = self.body.len() as u32;
            put_first(&mut self.body, term, entry)?;
            match self.starts.push(start) {
                Ok(()) => {}
                Err(_) => {
                    self.body.truncate(start as usize);
                    return Err(AllocError);
                }
            }
        } else {
            put_other(&mut self.body, &self.last, term, entry)?;
        }
        self.last.clear();
        self.last.extend_from_slice(term)?;
        self.in_group = (self.in_group + 1) % GROUP;
        Ok(())
    }

    /// How many bytes `finish` would give now.
    pub fn size(&self) -> usize
        ensures { (es : List Item) → HasAdded self.now es → result ≡ length (spelling es) }
    {
        self.starts
            .len()
            .saturating_mul(4)
            .saturating_add(self.body.len())
    }

    /// Whether a term may be added with this frequency and place: it is greater than those before,
    /// and the bytes of `finish` stay below 2^32.
    pub fn may_add(&self, term: &[u8], frequency: u32, place: ListPlace) -> bool
        ensures exactly { (es : List Item) → HasAdded self.now es
            → IsTrue result ↔ MayFollow es (item_of term.now frequency place) }
        ensures may { IsTrue result → (es : List Item) → HasAdded self.now es
            → MayAdd self.now (item_of term.now frequency place) }
    {
        if !self.starts.is_empty() && !is_less(&self.last, term) {
            return false;
        }
        if term.len() > u32::MAX as usize {
            return false;
        }
        let more = self.growth(term, Entry { frequency, place });
        self.size().saturating_add(more) < TOO_LARGE
    }

    // How many bytes a term adds to those of `finish`.
    fn growth(&self, term: &[u8], entry: Entry) -> usize
        requires { length term.now < 2 ^ 32 }
        ensures { (es : List Item) → HasAdded self.now es
            → length (spelling (es ++ record { term = term.now; entry = entry } ∷ []))
            ≡ length (spelling es) + result }
    {
        if self.in_group == 0 {
            return OFFSET + rest_size(term.len() as u32, entry);
        }
        let kept = shared_front(&self.last, term);
        number_size(kept as u32) + rest_size((term.len() - kept) as u32, entry)
    }

    /// The dictionary of all that was added.
    pub fn finish(self, alloc: Global) -> Result<Vec<u8>, AllocError>
        ensures { (es : List Item) → HasAdded self es → IfOk result (λ b. DictSpells b.items es) }
    {
        let mut out = Vec::new(alloc);
        for start in self.starts.as_slice() {
            out.extend_from_slice(&start.to_le_bytes())?;
        }
        out.extend_from_slice(self.body.as_slice())?;
        Ok(out)
    }
}

// Puts a number at the end.
fn put_number(out: &mut Vec<u8>, n: u32) -> Result<(), AllocError>
    ensures items { OnOk result (out.new.items ≡ out.old.items ++ vbyte n) }
    ensures err { OnErr result (out.new.items ≡ out.old.items) }
    ensures front { take (length out.old.items) out.new.items ≡ out.old.items }
{
    let mut field = [0u8; 5];
    let size = put(n, &mut field);
    out.extend_from_slice(&field[..size])
}

// Puts the numbers after a term.
#[tactic(auto, unfolding(crate::specs::Dictionary::numbers))]
fn put_entry(out: &mut Vec<u8>, entry: Entry) -> Result<(), AllocError>
    ensures items { OnOk result (out.new.items ≡ out.old.items ++ numbers entry) }
    ensures fits { OnOk result ((entry.place.at < 2 ^ 32) × (entry.place.bytes < 2 ^ 32)) }
    ensures front { take (length out.old.items) out.new.items ≡ out.old.items }
{
    put_number(out, entry.frequency)?;
    put_number(out, entry.place.at)?;
    put_number(out, entry.place.bytes)
}

// Puts the rest of a term, of which so many bytes were told.
#[tactic(auto, unfolding(crate::specs::Dictionary::rest_of))]
fn put_parts(out: &mut Vec<u8>, kept: usize, term: &[u8], entry: Entry) -> Result<(), AllocError>
    requires long { length term.now < 2 ^ 32 }
    requires kept { kept ≤ length term.now }
    ensures items { (before : List ℕ) → kept ≡ shared before term.now → OnOk result (out.new.items
        ≡ out.old.items ++ rest_of before (record { term = term.now; entry = entry })) }
    ensures fits { OnOk result ((entry.place.at < 2 ^ 32) × (entry.place.bytes < 2 ^ 32)) }
    ensures front { take (length out.old.items) out.new.items ≡ out.old.items }
{
    put_number(out, (term.len() - kept) as u32)?;
    out.extend_from_slice(&term[kept..])?;
    put_entry(out, entry)
}

// The same; where memory is refused, what stands from a place on is taken away.
fn put_rest(
    out: &mut Vec<u8>,
    start: usize,
    kept: usize,
    term: &[u8],
    entry: Entry,
) -> Result<(), AllocError>
    requires start { start ≤ length out.old.items }
    requires long { length term.now < 2 ^ 32 }
    requires kept { kept ≤ length term.now }
    ensures items { (before : List ℕ) → kept ≡ shared before term.now → OnOk result (out.new.items
        ≡ out.old.items ++ rest_of before (record { term = term.now; entry = entry })) }
    ensures fits { OnOk result ((entry.place.at < 2 ^ 32) × (entry.place.bytes < 2 ^ 32)) }
    ensures err { OnErr result (out.new.items ≡ take start out.old.items) }
{
    match put_parts(out, kept, term, entry) {
        Ok(()) => Ok(()),
        Err(error) => {
            out.truncate(start);
            Err(error)
        }
    }
}

// Puts a term that begins a group, or nothing.
fn put_first(out: &mut Vec<u8>, term: &[u8], entry: Entry) -> Result<(), AllocError>
    requires { length term.now < 2 ^ 32 }
    ensures items { OnOk result (out.new.items
        ≡ out.old.items ++ rest_of [] (record { term = term.now; entry = entry })) }
    ensures fits { OnOk result ((entry.place.at < 2 ^ 32) × (entry.place.bytes < 2 ^ 32)) }
    ensures err { OnErr result (out.new.items ≡ out.old.items) }
{
    let start = out.len();
    put_rest(out, start, 0, term, entry)
}

// Puts a term behind how much it shares with the one before, or nothing.
fn put_other(out: &mut Vec<u8>, before: &[u8], term: &[u8], entry: Entry) -> Result<(), AllocError>
    requires { length term.now < 2 ^ 32 }
    ensures items { OnOk result (out.new.items ≡ out.old.items
        ++ (vbyte (shared before.now term.now)
        ++ rest_of before.now (record { term = term.now; entry = entry }))) }
    ensures fits { OnOk result ((entry.place.at < 2 ^ 32) × (entry.place.bytes < 2 ^ 32)) }
    ensures err { OnErr result (out.new.items ≡ out.old.items) }
{
    let start = out.len();
    let kept = shared_front(before, term);
    put_number(out, kept as u32)?;
    put_rest(out, start, kept, term, entry)
}

// How many bytes a number takes.
fn number_size(n: u32) -> usize
    ensures value { result ≡ length (vbyte n) }
    ensures most { result ≤ 5 }
{
    put(n, &mut [0u8; 5])
}

// How many bytes the rest of a term takes with its length before it and its numbers after it.
#[tactic(auto, unfolding(crate::specs::Dictionary::numbers))]
fn rest_size(rest: u32, entry: Entry) -> usize
    ensures value { result ≡ length (vbyte rest) + rest + length (numbers entry) }
    ensures most { result ≤ rest + 20 }
{
    let numbers = number_size(entry.frequency)
        + number_size(entry.place.at)
        + number_size(entry.place.bytes);
    number_size(rest) + rest as usize + numbers
}
