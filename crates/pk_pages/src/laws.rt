//! A law of kept pages, the contract of a function with nothing to do.

ghost use Rattle.std.specs.Prelude.{◌≡◌, ◌≤◌, ◌+◌, ◌%◌, ℕ, List, length};
ghost use Rattle.pk_pages.specs.declared.slots.Slot.{Slot};
ghost use Rattle.pk_pages.specs.Missed.{AreKeptOrNoted, AreToBeKept};
ghost use Rattle.pk_pages.specs.Pages.{page_bytes};

/// What a read leaves kept or noted is to be kept by the same read again, but in two pages with one
/// slot alone.
pub fn a_read_again_keeps_its_pages()
    ensures { (slots : List Slot) (missed : List ℕ) (at n : ℕ)
        → (length slots ≡ 1 → at % page_bytes + n ≤ page_bytes)
        → AreKeptOrNoted slots missed at n → AreToBeKept slots missed at n }
{}
