//! Words made of what was read ahead of a dictionary, or where that is too short of the source.

ghost use Rattle.std.specs.Prelude.{◌≡◌, ◌≤◌, ◌<◌, ◌+◌, ◌^◌, ℕ, List, length, Ok, None};
ghost use Rattle.std.specs.Prelude.{IfOk, IfErr, IfSome, IsErrOf, OnOk, vec_capacity};
ghost use Rattle.pk_posting.specs.ReadFaults.{CountsReads};
ghost use Rattle.pk_dict.specs.Entries.{TermGives};
ghost use Rattle.pk_dict.specs.Place.{LiesIn, bytes_at};
ghost use Rattle.pk_dict.specs.Reading.{IsPieceAt};
ghost use Rattle.pk_dict.specs.Words.{word_at};
ghost use Rattle.pk_posting.specs.Limits.{asks_for, most_lent};
ghost use Rattle.pk_posting.specs.Frames.{ReadsSource};

use crate::compare::is_less;
use crate::entries::next_term;
use crate::entry::{DictPlace, Entry};
use crate::near::{head_in, number_in};
use pk_posting::{ByteSource, ReadFault};
use std::alloc::{AllocError, Global};
use std::vec::Vec;

/// Where a word stands.
#[derive(Clone, Copy)]
pub(crate) struct Spot {
    /// How many words stand before it.
    pub(crate) index: u32,
    /// The place in the dictionary of its first byte.
    pub(crate) at: u32,
}

/// What was read last of a dictionary.
#[derive(Drop)]
pub(crate) struct Held {
    // The bytes, and the place in the dictionary of the first of them.
    pub(crate) bytes: Vec<u8>,
    pub(crate) from: u32,
    // How many are read at once, at most.
    pub(crate) most: u32,
    // Where the word before is kept while one is read that they have not all of.
    pub(crate) before: Vec<u8>,
    ghost short: { from + length bytes.items < 2 ^ 32 },
    ghost few: { length bytes.items ≤ most },
    ghost lent: { most ≤ most_lent },
}

impl Held {
    // Nothing yet.
    pub(crate) fn new(alloc: Global, most: u32) -> Held
        requires { most ≤ most_lent }
        ensures bytes { length result.bytes.items ≡ 0 }
        ensures from { result.from ≡ 0 }
        ensures most { result.most ≡ most }
    {
        Held {
            bytes: Vec::new(alloc),
            from: 0,
            most,
            before: Vec::new(alloc),
        }
    }

    // Nothing again.
    pub(crate) fn clear(&mut self)
        ensures bytes { length self.new.bytes.items ≡ 0 }
        ensures from { self.new.from ≡ 0 }
        ensures most { self.new.most ≡ self.old.most }
        ensures same { vec_capacity self.new.bytes ≡ vec_capacity self.old.bytes }
        ensures before { self.new.before ≡ self.old.before }
    {
        self.bytes.clear();
        self.from = 0;
    }

    // Takes room for what is read at once, and to keep a word of so many bytes. It holds nothing
    // then.
    pub(crate) fn reserve(&mut self, word: usize) -> Result<(), AllocError>
        ensures bytes { length self.new.bytes.items ≡ 0 }
        ensures from { self.new.from ≡ 0 }
        ensures most { self.new.most ≡ self.old.most }
        ensures ahead { OnOk result (self.new.most ≤ vec_capacity self.new.bytes) }
        ensures before { OnOk result (word ≤ vec_capacity self.new.before) }
    {
        self.clear();
        self.before.clear();
        self.bytes.reserve(self.most as usize)?;
        self.before.reserve(word)
    }

    // Reads from a place on, up to the end of the dictionary at most.
    fn read<S: ByteSource>(
        &mut self,
        source: &mut S,
        place: DictPlace,
        at: u32,
    ) -> Result<(), ReadFault>
        requires lies { LiesIn place (length (S.content source.old)) }
        requires inside { at ≤ place.bytes }
        ensures value { S.honest → OnOk result
            (IsPieceAt (bytes_at (S.content source.old) place) self.new.from self.new.bytes.items) }
        ensures most { self.new.most ≡ self.old.most }
        // Memory is refused only where there is no room for what is read at once.
        ensures full { IsErrOf result ReadFault.Memory → vec_capacity self.old.bytes < self.old.most }
        ensures room { vec_capacity self.old.bytes ≤ vec_capacity self.new.bytes }
        ensures before { self.new.before ≡ self.old.before }
        ensures fault { IfErr result (λ e. e ≡ ReadFault.Damaged → ⊥) }
        ensures left { ReadsSource S.ByteSource CountsReads result source.old source.new }
        ensures asks { S.asked source.new ≤ S.asked source.old + 1 }
    {
        self.bytes.clear();
        self.from = at;
        let piece = source.bytes(place.at + at, (place.bytes - at).min(self.most))?;
        self.bytes.extend_from_slice(piece)?;
        Ok(())
    }

    // The word that stands there, made of the one before: what is said of it, and the place after
    // it. None where what is held has not all of it, or damage; then the word before stays.
    #[tactic(auto, unfolding(crate::specs::Words::word_at, crate::specs::Entries::term_at))]
    fn word(&self, spot: Spot, word: &mut Vec<u8>) -> Result<Option<(Entry, u32)>, AllocError>
        ensures value { (bytes : List ℕ) → IsPieceAt bytes self.now.from self.now.bytes.items
            → IfOk result (λ found. IfSome found (λ r. word_at bytes spot.index word.old.items spot.at
            ≡ Ok (word.new.items, r.0, r.1))) }
        ensures none { result ≡ Ok None → word.new ≡ word.old }
        // Memory is refused only where there is no room for the word.
        ensures full { (bytes : List ℕ) → IsPieceAt bytes self.now.from self.now.bytes.items
            → IfErr result (λ _. (t : List ℕ × Entry × ℕ)
            → word_at bytes spot.index word.old.items spot.at ≡ Ok t
            → vec_capacity word.old < length t.0) }
        ensures room { vec_capacity word.old ≤ vec_capacity word.new }
    {
        let Spot { index, at } = spot;
        let piece = self.bytes.as_slice();
        let start = self.from;
        if at < start {
            return Ok(None);
        }
        let (kept, after) = if index % 16 == 0 {
            (0, at)
        } else {
            match number_in(piece, start, at) {
                Some(number) => number,
                None => return Ok(None),
            }
        };
        let Some(head) = head_in(piece, start, after) else {
            return Ok(None);
        };
        let kept = kept as usize;
        if word.len() < kept {
            return Ok(None);
        }
        let from = (head.rest - start) as usize;
        let rest = &piece[from..from + head.size as usize];
        if index > 0 && !is_less(&word[kept..], rest) {
            return Ok(None);
        }
        word.truncate(kept);
        word.extend_from_slice(rest)?;
        Ok(Some((head.entry, head.next)))
    }
}

// The same, read from the source part by part.
#[tactic(auto, unfolding(crate::specs::Words::word_at))]
fn far_word<S: ByteSource>(
    source: &mut S,
    place: DictPlace,
    spot: Spot,
    before: &mut Vec<u8>,
    word: &mut Vec<u8>,
) -> Result<(Entry, u32), ReadFault>
    requires { LiesIn place (length (S.content source.old)) }
    ensures value { S.honest → TermGives result word.new.items
        (word_at (bytes_at (S.content source.old) place) spot.index word.old.items spot.at) }
    // Memory is refused only where there is no room for the word, or for the one before.
    ensures full { S.honest → IsErrOf result ReadFault.Memory → (t : List ℕ × Entry × ℕ)
        → word_at (bytes_at (S.content source.old) place) spot.index word.old.items spot.at ≡ Ok t
        → length word.old.items ≤ vec_capacity before.old → vec_capacity word.old < length t.0 }
    ensures room { vec_capacity word.old ≤ vec_capacity word.new }
    ensures before { vec_capacity before.old ≤ vec_capacity before.new }
    ensures left { ReadsSource S.ByteSource CountsReads result source.old source.new }
    ensures asks { S.honest → OnOk result (S.asked source.new
        ≤ S.asked source.old + 5 + asks_for (length word.new.items)) }
{
    let Spot { index, at } = spot;
    before.clear();
    before.extend_from_slice(word)?;
    let (entry, next) = next_term(source, place, index % 16 == 0, at, word)?;
    if index > 0 && !is_less(before, word) {
        return Err(ReadFault::Damaged);
    }
    Ok((entry, next))
}

/// The word that stands there, made of the one before: what is said of it, and the place after it.
pub(crate) fn next_word<S: ByteSource>(
    source: &mut S,
    place: DictPlace,
    spot: Spot,
    held: &mut Held,
    word: &mut Vec<u8>,
) -> Result<(Entry, u32), ReadFault>
    requires lies { LiesIn place (length (S.content source.old)) }
    ensures value { S.honest
        → IsPieceAt (bytes_at (S.content source.old) place) held.old.from held.old.bytes.items
        → TermGives result word.new.items
        (word_at (bytes_at (S.content source.old) place) spot.index word.old.items spot.at) }
    ensures held { S.honest
        → IsPieceAt (bytes_at (S.content source.old) place) held.old.from held.old.bytes.items
        → OnOk result
        (IsPieceAt (bytes_at (S.content source.old) place) held.new.from held.new.bytes.items) }
    ensures most { held.new.most ≡ held.old.most }
    // Memory is refused only where there is no room for the word, for the one before, or for what is
    // read at once.
    ensures full { S.honest
        → IsPieceAt (bytes_at (S.content source.old) place) held.old.from held.old.bytes.items
        → IsErrOf result ReadFault.Memory → (t : List ℕ × Entry × ℕ)
        → word_at (bytes_at (S.content source.old) place) spot.index word.old.items spot.at ≡ Ok t
        → held.old.most ≤ vec_capacity held.old.bytes
        → length word.old.items ≤ vec_capacity held.old.before → vec_capacity word.old < length t.0 }
    ensures room { vec_capacity word.old ≤ vec_capacity word.new }
    ensures rooms { (vec_capacity held.old.bytes ≤ vec_capacity held.new.bytes)
        × (vec_capacity held.old.before ≤ vec_capacity held.new.before) }
    ensures left { ReadsSource S.ByteSource CountsReads result source.old source.new }
    ensures asks { S.honest → OnOk result (S.asked source.new
        ≤ S.asked source.old + 6 + asks_for (length word.new.items)) }
{
    if let Some(found) = held.word(spot, word)? {
        return Ok(found);
    }
    if spot.at <= place.bytes {
        held.read(source, place, spot.at)?;
        if let Some(found) = held.word(spot, word)? {
            return Ok(found);
        }
    }
    far_word(source, place, spot, &mut held.before, word)
}
