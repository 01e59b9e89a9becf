//! Slots of places, by the hashes of what stands there.

ghost use Rattle.std.specs.Prelude.{
  ◌≡◌,
  ◌+◌,
  ◌^◌,
  ◌<◌,
  ◌++◌,
  ◌∷◌,
  [],
  ℕ,
  List,
  MatchOption,
  OnErr,
  OnOk,
  length,
};
ghost use Rattle.pk_terms.specs.Slots.{AreTaken, HaveSlots, IsFree, slot_of};

use std::alloc::AllocError;

/// The slot of a number among so many.
#[inline(always)]
pub fn slot_of(count: usize, number: usize) -> usize
    requires { 0 < count }
    ensures value { result ≡ slot_of count number }
    ensures within { result < count }
{
    number & (count - 1)
}

/// The first free slot from the first one of the hash on; none where all that are looked through are
/// taken, as many as there are.
fn free_slot(slots: &[u32], hash: u32) -> Option<usize>
    requires { 0 < length slots.now }
    ensures { MatchOption result
        (AreTaken (length slots.now) slots.now hash (length slots.now))
        (λ at. IsFree (length slots.now) slots.now hash at) }
{
    let mut at = slot_of(slots.len(), hash as usize);
    'slots: for _step in 0..slots.len() {
        if slots[at] == 0 {
            return Some(at);
        }
        at = slot_of(slots.len(), at + 1);
    }
    None
}

/// Puts the next place into the first free slot of its hash. It is refused where no slot is free.
pub fn fill_slot(slots: &mut [u32], hash: u32, place: usize) -> Result<(), AllocError>
    requires some { 0 < length slots.old }
    requires fits { place + 1 < 2 ^ 32 }
    ensures len { length slots.new ≡ length slots.old }
    ensures ok { OnOk result ((hashes : List ℕ) → length hashes ≡ place
        → HaveSlots hashes slots.old → HaveSlots (hashes ++ hash ∷ []) slots.new) }
    ensures err { OnErr result (slots.new ≡ slots.old) }
    ensures full { OnErr result
        (AreTaken (length slots.old) slots.old hash (length slots.old)) }
{
    match free_slot(slots, hash) {
        Some(at) => {
            slots[at] = place as u32 + 1;
            Ok(())
        }
        None => Err(AllocError),
    }
}

/// Frees all slots.
pub fn free_all(slots: &mut [u32])
    ensures len { length slots.new ≡ length slots.old }
    ensures free { HaveSlots [] slots.new }
{
    'slots: for k in 0..slots.len() {
        slots[k] = 0;
    }
}
