//! Slots: the places where pages are kept, each found by its page's number.

ghost use Rattle.std.specs.Prelude.{
  ◌≡◌,
  ◌≤◌,
  ◌<◌,
  ◌-◌,
  ◌*◌,
  ◌%◌,
  ℕ,
  List,
  Ok,
  None,
  Some,
  length,
  max,
  min,
  vec_capacity,
  IfNone,
  IfSome,
  IsSomeAnd,
  OnErr,
  OnOk,
};
ghost use Rattle.pk_disk.specs.Disk.{IsCounted};
ghost use Rattle.pk_disk.specs.Frames.{KeepsDisk};
ghost use Rattle.pk_pages.specs.Pages.{ArePagesOf, IsGone, IsIn, IsKept, page_bytes, page_of};

use pk_disk::{Disk, DiskFault};
use std::alloc::{AllocError, Global};

/// How many bytes a page has, at most.
pub const PAGE: u64 = 4096;

/// A place for a page: the number of the one that it keeps, if any, and its memory.
#[derive(Drop)]
pub struct Slot {
    pub number: Option<u64>,
    pub bytes: Vec<u8>,
}

/// So many slots that keep nothing, or as many as there is memory for.
pub fn empty_slots(alloc: Global, pages: usize) -> Vec<Slot>
    ensures most { length result.items ≤ pages }
    ensures empty { (p : ℕ) → IsGone result.items p }
{
    let mut slots = Vec::new(alloc);
    for _ in 0..pages {
        let slot = Slot {
            number: None,
            bytes: Vec::new(alloc),
        };
        if slots.push(slot).is_err() {
            break;
        }
    }
    slots
}

// The slot where a page may be, of so many. A file mostly has fewer pages than there are slots,
// and then nothing is divided: that takes longer than all else of a hit.
fn place_of(slots: usize, number: u64) -> usize
    requires { 0 < slots }
    ensures { result ≡ number % slots }
{
    let slots = slots as u64;
    if number < slots {
        return number as usize;
    }
    (number % slots) as usize
}

/// The bytes of a page, where it is kept.
pub fn kept(slots: &[Slot], number: u64) -> Option<&[u8]>
    ensures page { (bytes : List ℕ) → ArePagesOf bytes slots.now
        → IfSome result (λ page. page.now ≡ page_of bytes number) }
    ensures found { (n : ℕ) → IsKept slots.now number n
        → IsSomeAnd result (λ page. n ≤ length page.now) }
    ensures kept { IfSome result (λ page. IsKept slots.now number (length page.now)) }
{
    if slots.is_empty() {
        return None;
    }
    let slot = &slots[place_of(slots.len(), number)];
    match slot.number {
        Some(n) if n == number => Some(slot.bytes.as_slice()),
        _ => None,
    }
}

/// Keeps a page no longer.
pub fn forget(slots: &mut [Slot], number: u64)
    ensures gone { IsGone slots.new number }
    ensures stay_gone { (p : ℕ) → IsGone slots.old p → IsGone slots.new p }
    ensures others { (p n : ℕ) → (p ≡ number → ⊥) → IsKept slots.old p n → IsKept slots.new p n }
    ensures kept { (bytes : List ℕ) → ArePagesOf bytes slots.old → ArePagesOf bytes slots.new }
{
    if slots.is_empty() {
        return;
    }
    let slot = &mut slots[(number % slots.len() as u64) as usize];
    if slot.number == Some(number) {
        slot.number = None;
    }
}

/// Reads a page into a slot, in place of the one that it keeps. None where there is no memory for
/// it: then nothing is asked below. Only a read that succeeds is kept.
#[tactic(auto, using(crate::proofs::PageLemmas::page_read))]
pub fn fill<D: Disk>(disk: &mut D, slot: &mut Slot, number: u64) -> Option<Result<(), DiskFault>>
    requires { page_bytes * number < length (D.content disk.old) }
    ensures keeps { KeepsDisk D.Disk disk.old disk.new }
    ensures reads { IfSome result
        (λ read. IsCounted (D.failed_reads disk.old) (D.failed_reads disk.new) read) }
    ensures idle { IfNone result (disk.new ≡ disk.old) }
    ensures memory { IfNone result (vec_capacity slot.new.bytes < page_bytes) }
    ensures number { (p : ℕ) → IsIn slot.new p → p ≡ number }
    ensures filled { IfSome result (λ read. OnOk read (IsIn slot.new number)) }
    ensures size { IfSome result (λ read. length slot.new.bytes.items
        ≡ min page_bytes (length (D.content disk.old) - page_bytes * number)) }
    ensures bytes { D.honest → (p : ℕ) → IsIn slot.new p
        → slot.new.bytes.items ≡ page_of (D.content disk.old) number }
{
    let end = disk.len();
    let start = PAGE * number;
    let size = (end - start).min(PAGE) as usize;
    if make_room(slot, size).is_err() {
        return None;
    }
    let Ok(()) = disk.read(start, slot.bytes.as_mut_slice()) else {
        return Some(Err(DiskFault));
    };
    slot.number = Some(number);
    Some(Ok(()))
}

// Empties a slot, and gives it so many bytes in memory for a page.
fn make_room(slot: &mut Slot, size: usize) -> Result<(), AllocError>
    requires { size ≤ page_bytes }
    ensures empty { slot.new.number ≡ None }
    ensures size { OnOk result (length slot.new.bytes.items ≡ size) }
    ensures memory { OnErr result (vec_capacity slot.new.bytes < page_bytes) }
{
    slot.number = None;
    reserve_page(&mut slot.bytes)?;
    slot.bytes.resize(size, 0)
}

// Takes memory for a page, where there is less, and no more than that.
fn reserve_page(bytes: &mut Vec<u8>) -> Result<(), AllocError>
    ensures items { bytes.new.items ≡ bytes.old.items }
    ensures room { OnOk result (page_bytes ≤ vec_capacity bytes.new) }
    ensures most { vec_capacity bytes.new ≤ max (vec_capacity bytes.old) page_bytes }
    ensures memory { OnErr result (vec_capacity bytes.new < page_bytes) }
{
    let more = (PAGE as usize).saturating_sub(bytes.len());
    bytes.reserve_exact(more)
}
