//! Misses: the pages that were asked for last and not kept, each noted by its number.

ghost use Rattle.std.specs.Prelude.{
  ◌≡◌,
  ◌<◌,
  ◌↔◌,
  ℕ,
  length,
  IsTrue,
};
ghost use Rattle.pk_pages.specs.Missed.{IsNoted, KeepsNotes, most_noted};

use std::alloc::Global;

/// How many pages are noted, at most.
const MOST_NOTED: usize = 4096;

/// The number of no page.
const NO_PAGE: u64 = u64::MAX;

/// Places where no page is noted; none where there is no memory for them.
pub fn no_misses(alloc: Global) -> Vec<u64>
    ensures places { 0 < length result.items → length result.items ≡ most_noted }
    ensures none { (p : ℕ) → p < u64.MAX → 0 < length result.items → IsNoted result.items p → ⊥ }
{
    match vec![in alloc; NO_PAGE; MOST_NOTED] {
        Ok(missed) => missed,
        Err(_) => Vec::new(alloc),
    }
}

/// Notes a page, in place of the one that is noted there. Whether it was noted before.
pub fn note(missed: &mut [u64], number: u64) -> bool
    ensures found { IsTrue result ↔ IsNoted missed.old number }
    ensures noted { IsNoted missed.new number }
    ensures others { KeepsNotes missed.old missed.new number }
{
    if missed.is_empty() {
        return true;
    }
    let place = (number % missed.len() as u64) as usize;
    if missed[place] == number {
        return true;
    }
    missed[place] = number;
    false
}
