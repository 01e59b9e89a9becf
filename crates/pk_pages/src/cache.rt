//! A disk over another, whose pages it keeps.

ghost use Rattle.std.specs.Prelude.{
  ◌≡◌,
  ◌⊎◌,
  ◌≤◌,
  ◌<◌,
  ◌+◌,
  ◌-◌,
  ◌*◌,
  ◌/◌,
  ◌%◌,
  ◌↔◌,
  length,
  min,
  slice_range,
  ℕ,
  List,
  IfNone,
  IfOk,
  IfSome,
  IsOk,
  IsTrue,
  OnErr,
  OnOk,
};
ghost use Rattle.pk_disk.specs.Disk.{IsCounted, IsImage, IsPartWritten, full_count};
ghost use Rattle.pk_disk.specs.Disk.{nowhere, opened, written};
ghost use Rattle.pk_disk.specs.Frames.{KeepsDisk};
ghost use Rattle.pk_disk.specs.Since.{NoneNew, OnlyNew, StayKnown};
ghost use Rattle.pk_pages.specs.Beside.{KeepsBeside};
ghost use Rattle.pk_pages.specs.Missed.{AreKeptOrNoted, AreToBeKept, AreUnnoted};
ghost use Rattle.pk_pages.specs.Missed.{IsKeptOrNoted, IsNoted, KeepsNotes, most_noted};
ghost use Rattle.pk_pages.specs.Pages.{AreClear, ArePagesOf, HasNoRoom, IsGone, IsHit};
ghost use Rattle.pk_pages.specs.Pages.{IsKept, IsReadAgain, KeepsOthers, page_bytes, page_of};

use crate::misses::{no_misses, note};
use crate::slots::{PAGE, Slot, empty_slots, fill, forget, kept};
use pk_disk::{Disk, DiskFault};
use pk_watch::Watched;
use std::alloc::Global;

/// A disk over another, which keeps pages of it in memory. Over an honest disk it is honest.
#[derive(Drop)]
pub struct PageCache<D: Disk> {
    disk: D,
    slots: Vec<Slot>,
    // The numbers of pages that were missed, each at its place.
    missed: Vec<u64>,
    // Whether the last read below succeeded. Only then does a kept page answer: the count of
    // failed reads is not full then.
    last_succeeded: bool,
    ghost kept: { D.honest → ArePagesOf (D.content disk) slots.items },
    ghost not_full: { IsTrue last_succeeded → D.failed_reads disk < full_count },
    ghost places: { 0 < length missed.items → length missed.items ≡ most_noted },
}

impl<D: Disk> PageCache<D> {
    /// A disk over that one, which keeps at most `pages` pages. So far none is kept, none noted.
    /// Where there is no memory for so many slots, it has fewer; where there is none for notes,
    /// each page counts as noted.
    pub fn new(alloc: Global, disk: D, pages: usize) -> PageCache<D>
        ensures disk { result.disk ≡ disk }
        ensures pages { length result.slots.items ≤ pages }
        ensures empty { (p : ℕ) → IsGone result.slots.items p }
        ensures unnoted { (p : ℕ) → p < u64.MAX → 0 < length result.missed.items
            → IsNoted result.missed.items p → ⊥ }
    {
        PageCache {
            disk,
            slots: empty_slots(alloc, pages),
            missed: no_misses(alloc),
            last_succeeded: false,
        }
    }

    /// The disk below.
    pub fn into_inner(self) -> D
        ensures { result ≡ self.disk }
    {
        let PageCache { disk, .. } = self;
        disk
    }

    // Asks the disk below.
    fn read_below(&mut self, at: u64, out: &mut [u8]) -> Result<(), DiskFault>
        requires { at + length out.old ≤ length (D.content self.old.disk) }
        ensures given { D.honest → OnOk result
            (out.new ≡ slice_range (D.content self.old.disk) at (at + length out.old)) }
        ensures keeps { KeepsDisk D.Disk self.old.disk self.new.disk }
        ensures reads { IsCounted (D.failed_reads self.old.disk) (D.failed_reads self.new.disk)
            result }
        ensures slots { self.new.slots ≡ self.old.slots }
        ensures missed { self.new.missed ≡ self.old.missed }
        ensures succeeded { OnOk result (IsTrue self.new.last_succeeded) }
    {
        let read = self.disk.read(at, out);
        self.last_succeeded = read.is_ok();
        read
    }

    // Reads within one page. Where it was missed before, it is read whole and kept, if there is
    // memory for it.
    #[tactic(auto, using(crate::proofs::PageLemmas::part_of_page))]
    fn read_within(&mut self, at: u64, out: &mut [u8]) -> Result<(), DiskFault>
        requires some { 0 < length out.old }
        requires inside { at + length out.old ≤ length (D.content self.old.disk) }
        requires within { at % page_bytes + length out.old ≤ page_bytes }
        ensures hit { IsTrue self.old.last_succeeded
            → IsKept self.old.slots.items (at / page_bytes) (at % page_bytes + length out.old)
            → (IsOk result) × (self.new ≡ self.old) }
        ensures given { D.honest → OnOk result
            (out.new ≡ slice_range (D.content self.old.disk) at (at + length out.old)) }
        ensures keeps { KeepsDisk D.Disk self.old.disk self.new.disk }
        ensures reads { IsCounted (D.failed_reads self.old.disk) (D.failed_reads self.new.disk)
            result }
        ensures again { IsKeptOrNoted self.old.slots.items self.old.missed.items
            (at / page_bytes) (at % page_bytes + length out.old) → OnOk result
            (IsReadAgain self.new.last_succeeded self.new.slots.items at (length out.old)) }
        ensures noted { IsKeptOrNoted self.new.slots.items self.new.missed.items
            (at / page_bytes) (at % page_bytes + length out.old) }
        ensures once { (IsNoted self.old.missed.items (at / page_bytes) → ⊥)
            → self.new.slots ≡ self.old.slots }
        ensures notes { KeepsNotes self.old.missed.items self.new.missed.items
            (at / page_bytes) }
        ensures others { KeepsOthers self.old.slots.items self.new.slots.items (at / page_bytes) }
    {
        let number = at / PAGE;
        let from = (at % PAGE) as usize;
        if self.last_succeeded && copy_kept(&self.slots, number, from, out) {
            return Ok(());
        }
        if !self.note_miss(number) {
            return self.read_below(at, out);
        }
        let Some(loaded) = self.load(number) else {
            return self.read_below(at, out);
        };
        loaded?;
        let copied = copy_kept(&self.slots, number, from, out);
        prove!(copied);
        Ok(())
    }

    // Notes a page that is not kept. Whether it was noted before.
    fn note_miss(&mut self, number: u64) -> bool
        ensures disk { self.new.disk ≡ self.old.disk }
        ensures slots { self.new.slots ≡ self.old.slots }
        ensures succeeded { self.new.last_succeeded ≡ self.old.last_succeeded }
        ensures found { IsTrue result ↔ IsNoted self.old.missed.items number }
        ensures noted { IsNoted self.new.missed.items number }
        ensures notes { KeepsNotes self.old.missed.items self.new.missed.items number }
    {
        note(&mut self.missed, number)
    }

    // Reads a page, and keeps it. None where there is no memory for it: then nothing is asked.
    #[tactic(auto, using(crate::proofs::PageLemmas::set_keeps))]
    fn load(&mut self, number: u64) -> Option<Result<(), DiskFault>>
        requires { page_bytes * number < length (D.content self.old.disk) }
        ensures keeps { KeepsDisk D.Disk self.old.disk self.new.disk }
        ensures reads { IfSome result (λ read. IsCounted (D.failed_reads self.old.disk)
            (D.failed_reads self.new.disk) read) }
        ensures idle { IfNone result (self.new.disk ≡ self.old.disk) }
        ensures kept { IfSome result (λ read. OnOk read (IsKept self.new.slots.items number
            (min page_bytes (length (D.content self.old.disk) - page_bytes * number)))) }
        ensures succeeded { IfSome result (λ read. OnOk read (IsTrue self.new.last_succeeded)) }
        ensures memory { IfNone result (HasNoRoom self.new.slots.items number) }
        ensures missed { self.new.missed ≡ self.old.missed }
        ensures others { KeepsOthers self.old.slots.items self.new.slots.items number }
    {
        if self.slots.is_empty() {
            return None;
        }
        let place = (number % self.slots.len() as u64) as usize;
        let Some(loaded) = fill(&mut self.disk, &mut self.slots[place], number) else {
            return None;
        };
        self.last_succeeded = loaded.is_ok();
        Some(loaded)
    }

    // Keeps no page longer that has one of the n positions from a place on.
    fn forget_range(&mut self, at: u64, n: u64)
        requires { at + n ≤ length (D.content self.old.disk) }
        ensures disk { self.new.disk ≡ self.old.disk }
        ensures missed { self.new.missed ≡ self.old.missed }
        ensures succeeded { self.new.last_succeeded ≡ self.old.last_succeeded }
        ensures clear { AreClear self.new.slots.items at n }
        ensures others { KeepsBeside self.old.slots.items self.new.slots.items at n }
    {
        let size = self.disk.len();
        prove!(at <= size && n <= size - at);
        for number in at / PAGE..(at + n).div_ceil(PAGE) {
            forget(&mut self.slots, number);
        }
    }
}

// Fills `out` from a page that is kept; false where it is not.
fn copy_kept(slots: &[Slot], number: u64, from: usize, out: &mut [u8]) -> bool
    requires { from + length out.old ≤ page_bytes }
    ensures given { (bytes : List ℕ) → ArePagesOf bytes slots.now → IsTrue result
        → out.new ≡ slice_range (page_of bytes number) from (from + length out.old) }
    ensures hit { IsKept slots.now number (from + length out.old) → IsTrue result }
    ensures kept { IsTrue result → IsKept slots.now number (from + length out.old) }
{
    let Some(page) = kept(slots, number) else {
        return false;
    };
    let end = from + out.len();
    if page.len() < end {
        return false;
    }
    out.copy_from_slice(&page[from..end]);
    true
}

impl<D: Disk> Disk for PageCache<D> {
    ghost content = { λ c. D.content c.disk };

    ghost is_open = { λ c. D.is_open c.disk };

    ghost moment = { λ c. D.moment c.disk };

    ghost images_since = { λ c. D.images_since c.disk };

    ghost failed_reads = { λ c. D.failed_reads c.disk };

    ghost failed_writes = { λ c. D.failed_writes c.disk };

    ghost honest = { D.honest };

    ghost counts_now = { λ c. D.counts_now c.disk };

    ghost only_now = { λ c. D.only_now c.disk };

    fn len(&self) -> u64 {
        self.disk.len()
    }

    #[tactic(auto, using(crate::proofs::ReadLemmas::two_parts))]
    fn read(&mut self, at: u64, out: &mut [u8]) -> Result<(), DiskFault>
        requires { at + length out.old ≤ length (D.content self.old.disk) }
        ensures hit { IsHit self.old.last_succeeded self.old.slots.items at (length out.old)
            → (IsOk result) × (self.new ≡ self.old) }
        ensures again { 0 < length out.old → length out.old ≤ page_bytes
            → AreToBeKept self.old.slots.items self.old.missed.items at (length out.old)
            → OnOk result
            (IsReadAgain self.new.last_succeeded self.new.slots.items at (length out.old)) }
        ensures noted { 0 < length out.old → length out.old ≤ page_bytes → OnOk result
            (AreKeptOrNoted self.new.slots.items self.new.missed.items at (length out.old)) }
        ensures once { AreUnnoted self.old.missed.items at (length out.old)
            → self.new.slots ≡ self.old.slots }
        ensures long { (length out.old ≡ 0) ⊎ (page_bytes < length out.old)
            → (self.new.slots ≡ self.old.slots) × (self.new.missed ≡ self.old.missed) }

        // The clauses of the trait.
        ensures given { D.honest → OnOk result
            (out.new ≡ slice_range (D.content self.old.disk) at (at + length out.old)) }
        ensures bytes { D.honest → D.content self.new.disk ≡ D.content self.old.disk }
        ensures is_open { D.honest → D.is_open self.new.disk ≡ D.is_open self.old.disk }
        ensures images { D.honest → NoneNew ⟦<PageCache<D> as Disk>⟧.moment
            ⟦<PageCache<D> as Disk>⟧.images_since self.old self.new }
        ensures known { D.honest → StayKnown ⟦<PageCache<D> as Disk>⟧.moment
            ⟦<PageCache<D> as Disk>⟧.images_since self.old self.new }
        ensures size { length (D.content self.new.disk) ≡ length (D.content self.old.disk) }
        ensures reads { IsCounted (D.failed_reads self.old.disk) (D.failed_reads self.new.disk)
            result }
        ensures writes { D.failed_writes self.new.disk ≡ D.failed_writes self.old.disk }
    {
        if out.is_empty() || out.len() as u64 > PAGE {
            return self.read_below(at, out);
        }
        let here = (PAGE - at % PAGE) as usize;
        if out.len() <= here {
            return self.read_within(at, out);
        }
        let size = self.disk.len();
        prove!(at <= size && here as u64 <= size - at);
        let (front, back) = out.split_at_mut(here);
        self.read_within(at, front)?;
        self.read_within(at + here as u64, back)
    }

    #[tactic(auto, using(crate::proofs::PageLemmas::after_write))]
    fn write(&mut self, at: u64, bytes: &[u8]) -> Result<(), DiskFault>
        requires { at + length bytes.now ≤ length (D.content self.old.disk) }
        ensures others { KeepsBeside self.old.slots.items self.new.slots.items at
            (length bytes.now) }
        ensures missed { self.new.missed ≡ self.old.missed }
        ensures succeeded { self.new.last_succeeded ≡ self.old.last_succeeded }

        // The clauses of the trait.
        ensures bytes { D.honest → OnOk result
            (D.content self.new.disk ≡ written (D.content self.old.disk) at bytes.now) }
        ensures is_open { D.honest → OnOk result (D.is_open self.new.disk
            ≡ opened (D.is_open self.old.disk) at (length bytes.now)) }
        ensures part { D.honest → OnErr result
            (IsPartWritten (D.content self.old.disk) (D.is_open self.old.disk) at
            (length bytes.now) (D.content self.new.disk) (D.is_open self.new.disk)) }
        ensures images { D.honest → OnlyNew ⟦<PageCache<D> as Disk>⟧.moment
            ⟦<PageCache<D> as Disk>⟧.images_since self.old self.new
            (IsImage (D.content self.old.disk)
            (opened (D.is_open self.old.disk) at (length bytes.now))) }
        ensures known { D.honest → StayKnown ⟦<PageCache<D> as Disk>⟧.moment
            ⟦<PageCache<D> as Disk>⟧.images_since self.old self.new }
        ensures size { length (D.content self.new.disk) ≡ length (D.content self.old.disk) }
        ensures writes { IsCounted (D.failed_writes self.old.disk)
            (D.failed_writes self.new.disk) result }
        ensures reads { D.failed_reads self.new.disk ≡ D.failed_reads self.old.disk }
    {
        self.forget_range(at, bytes.len() as u64);
        self.disk.write(at, bytes)
    }

    fn sync(&mut self) -> Result<(), DiskFault>
        ensures slots { self.new.slots ≡ self.old.slots }
        ensures missed { self.new.missed ≡ self.old.missed }
        ensures succeeded { self.new.last_succeeded ≡ self.old.last_succeeded }

        // The clauses of the trait.
        ensures closed { D.honest → OnOk result (D.is_open self.new.disk ≡ nowhere) }
        ensures is_open { D.honest → OnErr result
            (D.is_open self.new.disk ≡ D.is_open self.old.disk) }
        ensures bytes { D.honest → D.content self.new.disk ≡ D.content self.old.disk }
        ensures images { D.honest → NoneNew ⟦<PageCache<D> as Disk>⟧.moment
            ⟦<PageCache<D> as Disk>⟧.images_since self.old self.new }
        ensures known { D.honest → StayKnown ⟦<PageCache<D> as Disk>⟧.moment
            ⟦<PageCache<D> as Disk>⟧.images_since self.old self.new }
        ensures size { length (D.content self.new.disk) ≡ length (D.content self.old.disk) }
        ensures writes { IsCounted (D.failed_writes self.old.disk)
            (D.failed_writes self.new.disk) result }
        ensures reads { D.failed_reads self.new.disk ≡ D.failed_reads self.old.disk }
    {
        self.disk.sync()
    }
}

impl<D: Watched> Watched for PageCache<D> {
    ghost shows_latest = { λ c. D.shows_latest c.disk };

    ghost goes_on = { λ old new. D.goes_on old.disk new.disk };

    // No page that is kept is asked.
    fn is_latest(&mut self) -> Result<bool, DiskFault>
        ensures slots { self.new.slots ≡ self.old.slots }
        ensures missed { self.new.missed ≡ self.old.missed }
        ensures succeeded { self.new.last_succeeded ≡ self.old.last_succeeded }

        // The clauses of the trait.
        ensures latest { IfOk result (λ is. IsTrue is → D.shows_latest self.old.disk) }
        ensures goes_on { D.goes_on self.old.disk self.new.disk }
        ensures keeps { KeepsDisk ⟦<PageCache<D> as Disk>⟧ self.old self.new }
        ensures reads { D.failed_reads self.new.disk ≡ D.failed_reads self.old.disk }
    {
        self.disk.is_latest()
    }
}
