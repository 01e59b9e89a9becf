//! A source over the source of a dictionary, with two buffers: stretches that lie close together
//! ask below once.

ghost use Rattle.std.specs.Prelude.{
  ◌≡◌,
  ◌≤◌,
  ◌<◌,
  ◌+◌,
  ◌-◌,
  ◌*◌,
  ◌^◌,
  length,
  take,
  drop,
  min,
  IfOk,
  IfErr,
  OnOk,
};
ghost use Rattle.std.proofs.Common.{◌∙◌, refl};
ghost use Rattle.pk_posting.specs.Limits.{most_lent};
ghost use Rattle.pk_posting.specs.Frames.{AsksOnce, ReadsSource};
ghost use Rattle.pk_posting.specs.Source.{AnswersWithin, CountsFaults, full_count};
ghost use Rattle.pk_dict.specs.Dictionary.{group_count};
ghost use Rattle.pk_dict.specs.Windows.{
  AsksNoMore,
  IsAskedBelow,
  IsHeld,
  IsPartOf,
  IsPassed,
  asks_none,
  asks_then,
  window_bytes,
};

use crate::entry::DictPlace;
use crate::look_up::groups_of;
use pk_posting::{ByteSource, MOST_LENT, SourceFault};

/// How many bytes a window reads at once.
pub(crate) const WINDOW: usize = 128;

// What was read last of a part of a source.
#[derive(Drop)]
struct Window {
    // The bytes, at the front.
    buffer: [u8; WINDOW],
    // The place of the first of them, and how many there are: 0 where nothing is held.
    at: u32,
    held: u32,
}

// A window that holds nothing.
const EMPTY: Window = Window {
    buffer: [0; WINDOW],
    at: 0,
    held: 0,
};

/// A source over the source of a dictionary. It has the same bytes, reads 128 of them at once, and
/// lends stretches of what it read last: one window is for the offsets of the dictionary and what
/// lies before them, one for its groups and what follows. So neither drops the other's bytes, and
/// stretches that lie close together ask the source below once.
#[derive(Drop)]
pub struct Windows<'a, S: ByteSource> {
    source: &'a mut S,
    // Where the groups begin.
    split: u32,
    offsets: Window,
    groups: Window,
    // Where a stretch that is longer than a window stands while it is lent.
    long: &'a mut [u8; MOST_LENT],
    // How often the windows were asked.
    asked: u64,
    ghost offsets_are: { IsPartOf S.honest (S.content source.now) offsets },
    ghost groups_are: { IsPartOf S.honest (S.content source.now) groups },
    ghost not_full: { 0 < offsets.held + groups.held → S.failures source.now < full_count },
}

impl<'a, S: ByteSource> Windows<'a, S> {
    ghost use Rattle.std.specs.Prelude.{[]};
    ghost use mir.Syntax.{named};
    ghost use Rattle.std.specs.Borrow.{sem};
    ghost use Rattle.std.specs.Io.BufRead.{Rests};
    ghost use Rattle.pk_dict.specs.contracts.windows.Windows.{the_row};

    /// Windows over the source in which a dictionary lies. They hold nothing yet, and were not
    /// asked yet. Stretches that are longer than a window go through `long`, whatever it holds: one
    /// array does for all the dictionaries of a find, and is not cleared for each.
    #[tactic(auto, using(crate::proofs::Holding::empty_part))]
    pub fn on(source: &'a mut S, place: DictPlace, long: &'a mut [u8; MOST_LENT]) -> Windows<'a, S>
        ensures source { result.source.now ≡ source.old }
        ensures same_reference { result.source.ghost_name ≡ source.entry.ghost_name }
        ensures split { result.split ≡ min (place.at + 4 * group_count place.terms) (2 ^ 32 - 1) }
        ensures asked { result.asked ≡ 0 }
    {
        Windows {
            source,
            split: place.at.saturating_add(4 * groups_of(place.terms)),
            offsets: EMPTY,
            groups: EMPTY,
            long,
            asked: 0,
        }
    }

    /// Lends the `n` bytes from the place `at` on, as `bytes` does. What a window holds it lends
    /// without asking below, and keeps. For anything else it asks below once, and from then on
    /// holds the 128 bytes that it read, or all up to the end. A stretch that is longer than that
    /// is read beside the windows, and both keep what they hold. After a failure below they hold
    /// nothing.
    pub fn lend(&mut self, at: u32, n: u32) -> Result<&[u8], SourceFault>
        requires { n ≤ most_lent }
        ensures value { S.honest → IfOk result (λ s.
            s.now ≡ take n (drop at (S.content self.old.source.now))) }
        ensures lent { IfOk result (λ s. length s.now ≡ n) }
        ensures within { AnswersWithin at n (length (S.content self.old.source.now)) result }
        ensures* after { sem 𝓛 (Rests
            (the_row (record { mir = named 1; lft = [] }) S.row S.ByteSource) self.entry (λ new.
            AsksOnce ⟦<Windows<'a, S> as ByteSource>⟧ result self.old new
            × IsAskedBelow at n (length (S.content self.old.source.now)) self.old.split
            (S.asked self.old.source.now) self.old.offsets self.old.groups result
            new.offsets new.groups (S.asked new.source.now))) }
    {
        if n as usize > WINDOW {
            self.read_long(at, n)?;
            let windows = &*self;
            return Ok(&windows.long[..n as usize]);
        }
        let start = self.hold(at, n)?;
        let windows = &*self;
        if at < windows.split {
            return Ok(&windows.offsets.buffer[start..start + n as usize]);
        }
        Ok(&windows.groups.buffer[start..start + n as usize])
    }

    // Makes the window of a place hold n bytes from there on, and says where they stand in it.
    #[tactic(auto, using(crate::proofs::Holding::still_part))]
    fn hold(&mut self, at: u32, n: u32) -> Result<usize, SourceFault>
        requires { n ≤ window_bytes }
        ensures split { self.new.split ≡ self.old.split }
        ensures left { AsksOnce ⟦<Windows<'a, S> as ByteSource>⟧ result self.old self.new }

        ensures below { IsAskedBelow at n (length (S.content self.old.source.now)) self.old.split
            (S.asked self.old.source.now) self.old.offsets self.old.groups result
            self.new.offsets self.new.groups (S.asked self.new.source.now) }

        ensures room { IfOk result (λ start. start + n ≤ window_bytes) }
        ensures offset { S.honest → at < self.old.split → IfOk result (λ start.
            take n (drop start self.new.offsets.buffer)
            ≡ take n (drop at (S.content self.old.source.now))) }
        ensures group { S.honest → self.old.split ≤ at → IfOk result (λ start.
            take n (drop start self.new.groups.buffer)
            ≡ take n (drop at (S.content self.old.source.now))) }
        ensures within { AnswersWithin at n (length (S.content self.old.source.now)) result }
    {
        self.asked = self.asked.saturating_add(1);
        if at < self.split {
            let start = hold_in(&mut self.offsets, self.source, at, n);
            if let Err(SourceFault::Disk) = start {
                self.groups.held = 0;
            }
            return start;
        }
        let start = hold_in(&mut self.groups, self.source, at, n);
        if let Err(SourceFault::Disk) = start {
            self.offsets.held = 0;
        }
        start
    }

    // Reads a stretch that is longer than a window.
    #[cold]
    #[tactic(auto, using(crate::proofs::Holding::still_part))]
    fn read_long(&mut self, at: u32, n: u32) -> Result<(), SourceFault>
        requires { n ≤ most_lent }
        ensures left { AsksOnce ⟦<Windows<'a, S> as ByteSource>⟧ result self.old self.new }

        ensures below { IsPassed at n (length (S.content self.old.source.now))
            (S.asked self.old.source.now) self.old.offsets self.old.groups result
            self.new.offsets self.new.groups (S.asked self.new.source.now) }

        ensures value { S.honest → OnOk result
            (take n self.new.long.now ≡ take n (drop at (S.content self.old.source.now))) }
        ensures within { AnswersWithin at n (length (S.content self.old.source.now)) result }
    {
        self.asked = self.asked.saturating_add(1);
        if u64::from(self.source.len()) < u64::from(at) + u64::from(n) {
            return Err(SourceFault::Damaged);
        }
        let long = &mut *self.long;
        if let Err(fault) = read_front(self.source, at, n, long) {
            self.offsets.held = 0;
            self.groups.held = 0;
            return Err(fault);
        }
        Ok(())
    }
}

impl<'a, S: ByteSource> ByteSource for Windows<'a, S> {
    ghost content = { λ w. S.content w.source.now };

    ghost honest = { S.honest };

    ghost failures = { λ w. S.failures w.source.now };

    ghost asked = { λ w. w.asked };

    ghost keeps = { λ a b. (b.source.ghost_name ≡ a.source.ghost_name)
        × S.keeps a.source.now b.source.now
        × AsksNoMore a.asked b.asked (S.asked a.source.now) (S.asked b.source.now) };

    ghost keeps_self = { λ a. (refl, S.keeps_self a.source.now, asks_none _ _) };

    ghost keeps_then = { λ a b c first second. (
      second.0 ∙ first.0,
      S.keeps_then a.source.now b.source.now c.source.now first.1 second.1,
      asks_then _ _ _ _ _ _ first.2 second.2,
    ) };

    fn len(&self) -> u32 {
        self.source.len()
    }

    fn bytes(&mut self, at: u32, n: u32) -> Result<&[u8], SourceFault> {
        self.lend(at, n)
    }

    fn asked(&self) -> u64 {
        self.asked
    }
}

// Makes a window hold n bytes from a place on, and says where they stand in it.
#[tactic(auto, using(crate::proofs::Holding::held_part))]
fn hold_in<S: ByteSource>(
    window: &mut Window,
    source: &mut S,
    at: u32,
    n: u32,
) -> Result<usize, SourceFault>
    requires few { n ≤ window_bytes }
    requires part { IsPartOf S.honest (S.content source.old) window.old }
    requires not_full { 0 < window.old.held → S.failures source.old < full_count }
    ensures part { IsPartOf S.honest (S.content source.new) window.new }
    ensures left { ReadsSource S.ByteSource CountsFaults result source.old source.new }
    ensures not_full { OnOk result (S.failures source.new < full_count) }
    ensures stay_not_full { 0 < window.new.held → S.failures source.new < full_count }
    ensures below { IsHeld at n (length (S.content source.old)) (S.asked source.old) window.old
        result window.new (S.asked source.new) }
    ensures room { IfOk result (λ start. start + n ≤ window_bytes) }
    ensures value { S.honest → IfOk result (λ start. take n (drop start window.new.buffer)
        ≡ take n (drop at (S.content source.old))) }
    ensures within { AnswersWithin at n (length (S.content source.old)) result }
{
    let end = u64::from(at) + u64::from(n);
    if window.held > 0 && window.at <= at && end <= u64::from(window.at) + u64::from(window.held) {
        return Ok((at - window.at) as usize);
    }
    if u64::from(source.len()) < end {
        return Err(SourceFault::Damaged);
    }
    refill(window, source, at)?;
    Ok(0)
}

// Makes a window hold what stands from a place on.
#[inline(never)]
fn refill<S: ByteSource>(window: &mut Window, source: &mut S, at: u32) -> Result<(), SourceFault>
    requires inside { at ≤ length (S.content source.old) }
    ensures part { IsPartOf S.honest (S.content source.new) window.new }
    ensures left { AsksOnce S.ByteSource result source.old source.new }
    ensures held { OnOk result ((window.new.at ≡ at)
        × (window.new.held ≡ min (length (S.content source.old) - at) window_bytes)) }
    ensures none { IfErr result (λ e. (e ≡ SourceFault.Disk) × (window.new.held ≡ 0)) }
{
    let held = (source.len() - at).min(WINDOW as u32);
    window.at = at;
    window.held = 0;
    read_front(source, at, held, &mut window.buffer)?;
    window.held = held;
    Ok(())
}

// Reads bytes into the buffer's front.
fn read_front<S: ByteSource>(
    source: &mut S,
    at: u32,
    n: u32,
    buffer: &mut [u8],
) -> Result<(), SourceFault>
    requires few { n ≤ most_lent }
    requires room { n ≤ length buffer.old }
    requires inside { at + n ≤ length (S.content source.old) }
    ensures value { S.honest → OnOk result
        (take n buffer.new ≡ take n (drop at (S.content source.old))) }
    ensures left { AsksOnce S.ByteSource result source.old source.new }
    ensures fault { IfErr result (λ e. e ≡ SourceFault.Disk) }
{
    let piece = source.bytes(at, n)?;
    buffer[..n as usize].copy_from_slice(piece);
    Ok(())
}
