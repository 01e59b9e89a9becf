//! One term against the wanted one, and the terms of a group.

ghost use Rattle.std.specs.Prelude.{◌≡◌, ◌≤◌, ◌<◌, ◌+◌, ◌*◌, ◌^◌};
ghost use Rattle.std.specs.Prelude.{ℕ, List, length, IfOk, MatchResult, Ok};
ghost use Rattle.pk_posting.specs.Limits.{asks_for};
ghost use Rattle.pk_dict.specs.Dictionary.{group_count};
ghost use Rattle.pk_dict.specs.Place.{LiesIn, bytes_at};
ghost use Rattle.pk_dict.specs.Reading.{
  Fails,
  Gives,
  IsWithin,
  apart_at,
  compared_at,
  going_on,
  group_at,
  head_at,
  next_at,
  number_at,
  scan_at,
  step_at,
};
ghost use Rattle.pk_dict.specs.Scan.{IsFewer, Leaves, scan_left};
ghost use Rattle.pk_posting.specs.Frames.{IsRead};

use crate::compare::shared_with;
use crate::entry::{DictPlace, Entry};
use crate::fields::{byte, entry, number, offset};
use crate::head::{Coming, Head, Scan, Step, TermsLeft};
use crate::look_up::groups_of;
use crate::near::{key_in, scan_in, step_in};
use crate::windows::WINDOW;
use pk_posting::{ByteSource, SourceFault};
use pk_vbyte::take;

// How many bytes are asked for at a term: most terms and what is said of them have fewer.
const NEAR: u32 = 32;

// How many bytes a scan asks for at once: a window that was read at the first term of a group has
// so many behind that term, where the term has no more than NEAR.
const PIECE: u32 = WINDOW as u32 - NEAR;

// Where the rest of a term lies, what is said of the term, and where the next one begins.
#[tactic(auto, unfolding(crate::specs::Reading::head_at))]
pub(crate) fn head<S: ByteSource>(
    source: &mut S,
    place: DictPlace,
    at: u32,
) -> Result<Head, SourceFault>
    requires { LiesIn place (length (S.content source.old)) }
    ensures value { S.honest → Gives result (head_at (bytes_at (S.content source.old) place) at) }
    ensures inside { IfOk result (λ h. (h.rest + h.size ≤ place.bytes) × (h.next ≤ place.bytes)) }
    ensures left { IsRead S.ByteSource 4 result source.old source.new }
{
    let (size, rest) = number(source, place, at)?;
    head_after(source, place, size, rest)
}

// The same, where the size of the rest and its place were read at any place.
#[tactic(auto, unfolding(crate::specs::Reading::head_at))]
fn head_after<S: ByteSource>(
    source: &mut S,
    place: DictPlace,
    size: u32,
    rest: u32,
) -> Result<Head, SourceFault>
    requires { LiesIn place (length (S.content source.old)) }
    ensures value { S.honest → (at : ℕ)
        → number_at (bytes_at (S.content source.old) place) at ≡ Ok (size, rest)
        → Gives result (head_at (bytes_at (S.content source.old) place) at) }
    ensures inside { IfOk result (λ h. (h.rest + h.size ≤ place.bytes) × (h.next ≤ place.bytes)) }
    ensures left { IsRead S.ByteSource 3 result source.old source.new }
{
    let end = match rest.checked_add(size) {
        Some(end) => end,
        None => return Err(SourceFault::Damaged),
    };
    let (entry, next) = entry(source, place, end)?;
    Ok(Head {
        rest,
        size,
        entry,
        next,
    })
}

// What a term's rest says, where it and the wanted term share the first bytes.
#[tactic(auto, unfolding(crate::specs::Reading::compared_at))]
fn compared<S: ByteSource>(
    source: &mut S,
    place: DictPlace,
    head: Head,
    term: &[u8],
    matched: usize,
) -> Result<Step, SourceFault>
    requires lies { LiesIn place (length (S.content source.old)) }
    requires within { matched ≤ length term.now }
    ensures value { S.honest → Gives result
        (compared_at (bytes_at (S.content source.old) place) head term.now matched) }
    ensures matched { IfOk result (IsWithin (length term.now)) }
    ensures left { IsRead S.ByteSource (1 + asks_for (length term.now)) result
        source.old source.new }
{
    let more = shared_with(source, place, head.rest, head.size, &term[matched..])?;
    let matched = matched + more;
    if more == head.size as usize {
        if matched == term.len() {
            return Ok(Step::Found(head.entry));
        }
        return Ok(Step::Less(matched, head.next));
    }
    if matched == term.len() {
        return Ok(Step::Past);
    }
    let found = byte(source, place, head.rest + more as u32)?;
    if term[matched] < found {
        return Ok(Step::Past);
    }
    Ok(Step::Less(matched, head.next))
}

// A term that shares less with the one before than the wanted term does.
#[tactic(auto, unfolding(crate::specs::Reading::apart_at))]
fn apart<S: ByteSource>(
    source: &mut S,
    place: DictPlace,
    at: u32,
    kept: usize,
    term: &[u8],
) -> Result<Step, SourceFault>
    requires lies { LiesIn place (length (S.content source.old)) }
    requires within { kept < length term.now }
    ensures value { S.honest → Gives result
        (apart_at (bytes_at (S.content source.old) place) at kept term.now) }
    ensures matched { IfOk result (IsWithin (length term.now)) }
    ensures left { IsRead S.ByteSource 1 result source.old source.new }
{
    let found = byte(source, place, at)?;
    if term[kept] < found {
        return Ok(Step::Past);
    }
    Err(SourceFault::Damaged)
}

// What a term is to the wanted one, read part by part.
#[tactic(auto, unfolding(crate::specs::Reading::step_at))]
fn far_step<S: ByteSource>(
    source: &mut S,
    place: DictPlace,
    term: &[u8],
    coming: Coming,
) -> Result<Step, SourceFault>
    requires lies { LiesIn place (length (S.content source.old)) }
    requires within { coming.matched ≤ length term.now }
    ensures value { S.honest → Gives result (step_at (bytes_at (S.content source.old) place)
        term.now coming.kept coming.matched coming.at) }
    ensures matched { IfOk result (IsWithin (length term.now)) }
    ensures left { IsRead S.ByteSource (5 + asks_for (length term.now)) result
        source.old source.new }
{
    let head = head(source, place, coming.at)?;
    if coming.matched < coming.kept {
        return Ok(Step::Less(coming.matched, head.next));
    }
    if coming.kept < coming.matched {
        return apart(source, place, head.rest, coming.kept, term);
    }
    compared(source, place, head, term, coming.matched)
}

// What the first term of a group is to the wanted one, where the size of its rest and the place of
// that were read at any place.
#[tactic(auto, unfolding(crate::specs::Reading::step_at))]
fn far_first<S: ByteSource>(
    source: &mut S,
    place: DictPlace,
    term: &[u8],
    size: u32,
    rest: u32,
) -> Result<Step, SourceFault>
    requires { LiesIn place (length (S.content source.old)) }
    ensures value { S.honest → (at : ℕ)
        → number_at (bytes_at (S.content source.old) place) at ≡ Ok (size, rest)
        → Gives result (step_at (bytes_at (S.content source.old) place) term.now 0 0 at) }
    ensures matched { IfOk result (IsWithin (length term.now)) }
    ensures left { IsRead S.ByteSource (4 + asks_for (length term.now)) result
        source.old source.new }
{
    let head = head_after(source, place, size, rest)?;
    compared(source, place, head, term, 0)
}

// What the first term of the group at a place is to the wanted one.
//
// A short piece mostly has all of the term; only where it has not, more is asked for. The key of
// what the piece has of the term goes to `seen`.
#[tactic(auto, unfolding(crate::specs::Reading::step_at))]
fn first_step<S: ByteSource>(
    source: &mut S,
    place: DictPlace,
    term: &[u8],
    at: u32,
    seen: &mut u64,
) -> Result<Step, SourceFault>
    requires { LiesIn place (length (S.content source.old)) }
    ensures value { S.honest → Gives result
        (step_at (bytes_at (S.content source.old) place) term.now 0 0 at) }
    ensures matched { IfOk result (IsWithin (length term.now)) }
    ensures left { IsRead S.ByteSource (5 + asks_for (length term.now)) result
        source.old source.new }
{
    if place.bytes < at {
        return Err(SourceFault::Damaged);
    }
    let piece = source.bytes(place.at + at, (place.bytes - at).min(NEAR))?;
    *seen = key_in(piece);
    let first = Coming {
        kept: 0,
        matched: 0,
        at,
    };
    if let Some(step) = step_in(piece, at, term, first) {
        return Ok(step);
    }
    let Ok((size, taken)) = take(piece) else {
        return Err(SourceFault::Damaged);
    };
    far_first(source, place, term, size, at + taken as u32)
}

// How a scan goes on after a term, where so many are left.
fn went(step: Step, left: u32) -> Scan
    ensures value { (bytes term : List ℕ)
        → Leaves bytes term (going_on (scan_at left bytes term) step) result }
    ensures fewer { (count n : ℕ) → left < count → IsWithin n step → IsFewer count n result }
{
    match step {
        Step::Less(matched, next) => Scan::Open(TermsLeft {
            count: left,
            matched,
            at: next,
        }),
        Step::Found(entry) => Scan::Done(Some(entry)),
        Step::Past => Scan::Done(None),
    }
}

// How far the scan of the next terms of a group comes by one piece. Where that has not all of the
// first of them, more is asked for, and the scan comes by this one alone: so each term costs no
// more asks than if it were read by itself.
#[tactic(auto, unfolding(crate::specs::Reading::next_at))]
fn scan_on<S: ByteSource>(
    source: &mut S,
    place: DictPlace,
    term: &[u8],
    left: TermsLeft,
) -> Result<Scan, SourceFault>
    requires lies { LiesIn place (length (S.content source.old)) }
    requires some { 0 < left.count }
    requires within { left.matched ≤ length term.now }
    ensures value { S.honest → MatchResult result
        (Leaves (bytes_at (S.content source.old) place) term.now
        (scan_left (bytes_at (S.content source.old) place) term.now left))
        (λ e. Fails e (scan_left (bytes_at (S.content source.old) place) term.now left)) }
    ensures fewer { IfOk result (IsFewer left.count (length term.now)) }
    ensures left { IsRead S.ByteSource (6 + asks_for (length term.now)) result
        source.old source.new }
{
    let at = left.at;
    if place.bytes < at {
        return Err(SourceFault::Damaged);
    }
    let piece = source.bytes(place.at + at, (place.bytes - at).min(PIECE))?;
    if let Some(scan) = scan_in(piece, term, left) {
        return Ok(scan);
    }
    let Ok((kept, taken)) = take(piece) else {
        return Err(SourceFault::Damaged);
    };
    let coming = Coming {
        kept: kept as usize,
        matched: left.matched,
        at: at + taken as u32,
    };
    let step = far_step(source, place, term, coming)?;
    Ok(went(step, left.count - 1))
}

// The wanted term among the next terms of a group, piece by piece.
#[tactic(auto, unfolding(crate::specs::Reading::scan_at))]
pub(crate) fn scan<S: ByteSource>(
    source: &mut S,
    place: DictPlace,
    term: &[u8],
    left: TermsLeft,
) -> Result<Option<Entry>, SourceFault>
    requires lies { LiesIn place (length (S.content source.old)) }
    requires within { left.matched ≤ length term.now }
    ensures value { S.honest → Gives result
        (scan_left (bytes_at (S.content source.old) place) term.now left) }
    ensures left { IsRead S.ByteSource (left.count * (6 + asks_for (length term.now))) result
        source.old source.new }
{
    let mut left = left;
    while left.count > 0 {
        match scan_on(source, place, term, left)? {
            Scan::Open(now) => left = now,
            Scan::Done(entry) => return Ok(entry),
        }
    }
    Ok(None)
}

// What the first term of a group is to the wanted one. The key of the first term goes to `seen`,
// as `first_step` says.
#[tactic(auto, unfolding(crate::specs::Reading::group_at))]
pub(crate) fn group_step<S: ByteSource>(
    source: &mut S,
    place: DictPlace,
    group: u32,
    term: &[u8],
    seen: &mut u64,
) -> Result<Step, SourceFault>
    requires lies { LiesIn place (length (S.content source.old)) }
    requires few { group < 2 ^ 28 }
    ensures value { S.honest → Gives result (group_at (bytes_at (S.content source.old) place)
        (4 * group_count place.terms) group term.now) }
    ensures matched { IfOk result (IsWithin (length term.now)) }
    ensures left { IsRead S.ByteSource (6 + asks_for (length term.now)) result
        source.old source.new }
{
    let base = 4 * groups_of(place.terms);
    let offset = offset(source, place, 4 * group)?;
    match base.checked_add(offset) {
        Some(start) => first_step(source, place, term, start, seen),
        None => Err(SourceFault::Damaged),
    }
}
