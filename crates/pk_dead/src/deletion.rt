//! The list of the deleted numbers of a segment.

ghost use Rattle.std.specs.Prelude.{◌≡◌, ◌↔◌, ◌==◌, ◌+◌, ◌<◌, ◌≤◌, ℕ, List, [], length};
ghost use Rattle.std.specs.Prelude.{slice_index};
ghost use Rattle.std.specs.Prelude.{IsOk, IsTrue, IfOk, IfErr, OnOk, OnErr, MatchResult};
ghost use Rattle.std.specs.List.{list_any};
ghost use Rattle.pk_posting.specs.Limits.{longest_list};
ghost use Rattle.pk_posting.specs.Posting.{IsPosting, Spells};
ghost use Rattle.pk_posting.specs.Spelling.{spelling};
ghost use Rattle.pk_posting.specs.Tails.{NoList};
ghost use Rattle.pk_posting.specs.declared.decoding.DecodeFault.TheVariants.{Memory};
ghost use Rattle.pk_dead.specs.Searching.{IsSearched};
ghost use Rattle.pk_dead.specs.Sets.{with_number};

use pk_posting::{DecodeFault, decode, encode};
use std::alloc::{AllocError, Global};
use std::marker::Model;

/// The deleted numbers of a segment, as a rising list.
#[derive(Debug, Drop)]
pub struct Dead {
    numbers: Vec<u32>,
}

impl Model for Dead {
    ghost Value = { List ℕ };

    ghost view = { λ d. d.numbers.items };

    ghost invariant = { λ d. IsPosting d.numbers.items };
}

// Where the number is, by halving, or where it is to be put in.
#[tactic(auto, using(crate::proofs::SearchLemmas::is_searched))]
fn place_of(numbers: &[u32], n: u32) -> Result<usize, usize>
    requires { IsPosting numbers.now }
    ensures { IsSearched numbers.now n result }
{
    numbers.binary_search(&n)
}

// How far a search goes on from a place where m stands so far ahead: as far where m is not above
// n, else not at all. It is computed, since a branch on m is foreseen wrongly every other time.
#[inline(always)]
fn step_to(m: u32, n: u32, ahead: usize) -> usize
    ensures reached { m ≤ n → result ≡ ahead }
    ensures above { n < m → result ≡ 0 }
{
    let reached = (n as u64 + 4_294_967_296 - m as u64) >> 32;
    reached as usize * ahead
}

// The index of the last number that is not above n; 0 where all are.
#[inline(always)]
fn last_upto(numbers: &[u32], n: u32) -> usize
    requires posting { IsPosting numbers.now }
    requires some { 0 < length numbers.now }
    ensures within { result < length numbers.now }
    ensures upto { 0 < result → slice_index numbers.now result ≤ n }
    ensures above { result + 1 < length numbers.now → n < slice_index numbers.now (result + 1) }
{
    let mut at = 0;
    let mut size = numbers.len();
    'halves: while 1 < size {
        let half = size / 2;
        at += step_to(numbers[at + half], n, half);
        size -= half;
    }
    at
}

impl Dead {
    /// A list without a number. It takes no memory; its later calls take theirs from `alloc`.
    pub fn new(alloc: Global) -> Self
        ensures { result ≡ [] }
    {
        Dead {
            numbers: Vec::new(alloc),
        }
    }

    /// The list that the bytes spell. Other bytes are `Damaged`.
    pub fn read(alloc: Global, bytes: &[u8]) -> Result<Self, DecodeFault>
        ensures list { IfOk result (λ dead. Spells bytes.now dead) }
        ensures damaged { IfErr result (NoList bytes.now) }
        ensures spelled { (xs : List ℕ) → Spells bytes.now xs
            → MatchResult result (λ dead. dead ≡ xs) (λ fault. fault ≡ Memory) }
    {
        let numbers = decode(alloc, bytes)?;
        Ok(Dead { numbers })
    }

    /// Whether the number is in the list, by halving.
    #[tactic(auto, using(crate::proofs::SearchLemmas::only_there))]
    pub fn contains(&self, n: u32) -> bool
        ensures { result ≡ list_any (λ m. m == n) self.now }
    {
        if self.numbers.is_empty() {
            return false;
        }
        self.numbers[last_upto(&self.numbers, n)] == n
    }

    /// How many numbers there are.
    pub fn len(&self) -> usize
        ensures { result ≡ length self.now }
    {
        self.numbers.len()
    }

    /// Whether there is no number.
    pub fn is_empty(&self) -> bool
        ensures { IsTrue result ↔ (length self.now ≡ 0) }
    {
        self.numbers.is_empty()
    }

    /// The numbers, rising.
    pub fn numbers(&self) -> &[u32]
        ensures numbers { result.now ≡ self.now }
        ensures posting { IsPosting self.now }
    {
        &self.numbers
    }

    /// Puts a number at its place. It takes memory for one number at most, and none where the
    /// number is there already; where there is none, the list stays as it was.
    #[tactic(auto, using(crate::proofs::SearchLemmas::posting_put))]
    pub fn add(&mut self, n: u32) -> Result<(), AllocError>
        requires at_least_one { 1 ≤ n }
        requires room { length self.old < longest_list }
        ensures ok { OnOk result (self.new ≡ with_number n self.old) }
        ensures err { OnErr result (self.new ≡ self.old) }
        ensures there { IsTrue (list_any (λ m. m == n) self.old) → IsOk result }
    {
        if let Err(place) = place_of(&self.numbers, n) {
            self.numbers.insert(place, n)?;
        }
        Ok(())
    }

    /// The bytes that spell the list.
    pub fn spell(&self, alloc: Global) -> Result<Vec<u8>, AllocError>
        ensures bytes { IfOk result (λ v. v.items ≡ spelling self.now) }
        ensures spelled { IfOk result (λ v. Spells v.items self.now) }
    {
        encode(alloc, &self.numbers)
    }

    /// The same list once more, in memory of its own.
    pub fn copy(&self, alloc: Global) -> Result<Self, AllocError>
        ensures { IfOk result (λ dead. dead ≡ self.now) }
    {
        let numbers = Vec::from_slice(alloc, &self.numbers)?;
        Ok(Dead { numbers })
    }
}
