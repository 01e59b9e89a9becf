//! The words of all inputs, one after the other, each with the inputs that have it.

ghost use Rattle.std.specs.Prelude.{
  ◌≡◌,
  ◌≤◌,
  ◌<◌,
  ◌+◌,
  ℕ,
  List,
  Some,
  length,
  take,
  All,
  IfErr,
  IfNone,
  IfOk,
  IfSome,
  MatchOption,
  MatchResult,
  OnOk,
  slice_index,
};
ghost use Rattle.std.specs.Option.{option_map};
ghost use Rattle.pk_join.specs.Inputs.{SpellsInputs};
ghost use Rattle.pk_join.specs.Joining.{joined_in, room_in};
ghost use Rattle.pk_join.specs.Listed.{head_of};
ghost use Rattle.pk_join.specs.Noted.{
  AreNoted,
  IsPassed,
  NotesAs,
  least_of,
  lesser_of,
  next_noted,
  order_of,
};
ghost use Rattle.pk_join.specs.WalkInput.{
  GoNowhere,
  HasRoom,
  HaveExtentsOf,
  Holds,
  IsBefore,
  IsRead,
  IsWithin,
  StandAs,
  extents_of,
  heads_of,
  keys_of,
  lists_of,
  passed_of,
  words_of,
};
ghost use Rattle.pk_join.specs.Walking.{
  AreListed,
  CanHold,
  IsAtHeads,
  PassedAs,
  Walks,
  to_come,
};
ghost use Rattle.pk_join.specs.Rooms.{HasEnded, IsNoRefusal, IsRoomy};
ghost use Rattle.pk_join.specs.Whole.{NotedAreWhole, PassWhole};
ghost use Rattle.pk_join.specs.declared.input.MergeInput.{MergeInput};
ghost use Rattle.pk_posting.specs.Source.{CountsFaults};
ghost use Rattle.pk_segment.specs.Indexed.{list_with};
ghost use Rattle.pk_segment.specs.OnlyRead.{ReadsDisk};
ghost use Rattle.pk_segment.specs.Reading.{CountsReads, IsNoDamage};
ghost use Rattle.pk_state.specs.Committed.{Stored, live_in};

use crate::head_keys::HeadKeys;
use crate::joined::WordList;
use crate::keys::Sought;
use crate::walk_input::{Input, UNREAD};
use pk_disk::Disk;
use pk_posting::SourceFault;
use pk_segment::ReadFault;
use std::alloc::AllocError;
use std::cmp::Ordering;

// What a scan of the heads has noted: the least word, and how many inputs have it.
#[derive(Clone, Copy)]
struct Noted<'a> {
    least: Option<Sought<'a>>,
    count: usize,
}

// How the word at the head of an input, which has this key, stands to another; where it stands at
// none, that is behind each. Where the key is greater, the input is not looked at.
fn order(input: &Input, key: u64, sought: Sought) -> Ordering
    requires { key ≡ input.now.key }
    ensures { result ≡ order_of sought.entry.word.now (head_of input.now.stands input.now.lists) }
{
    if sought.key < key {
        return Ordering::Greater;
    }
    let Some(word) = input.head() else {
        return Ordering::Greater;
    };
    if key < sought.key {
        return Ordering::Less;
    }
    word.cmp(sought.word)
}

// Notes the ith input, whose head has this key, where none that was seen has a lesser word there.
fn note<'a>(
    noted: Noted<'a>,
    input: &'a Input,
    key: u64,
    i: usize,
    found: &mut [usize],
) -> Noted<'a>
    requires key { key ≡ input.now.key }
    requires count { noted.count ≤ i }
    requires within { i < length found.old }
    ensures least { option_map (λ s. s.word.now) result.least
        ≡ lesser_of (option_map (λ s. s.word.now) noted.entry.least)
        (head_of input.now.stands input.now.lists) }
    ensures noted { take result.count found.new
        ≡ next_noted (option_map (λ s. s.word.now) noted.entry.least)
        (head_of input.now.stands input.now.lists)
        (take noted.entry.count found.old) i }
    ensures count { result.count ≤ i + 1 }
{
    let order = match noted.least {
        Some(sought) => order(input, key, sought),
        None => Ordering::Less,
    };
    match order {
        Ordering::Greater => noted,
        Ordering::Equal => {
            found[noted.count] = i;
            Noted {
                least: noted.least,
                count: noted.count + 1,
            }
        }
        Ordering::Less => {
            let Some(word) = input.head() else {
                return noted;
            };
            found[0] = i;
            Noted {
                least: Some(Sought { word, key }),
                count: 1,
            }
        }
    }
}

// The first place from one on whose key is not greater than that of the least word so far, or the
// end: what is passed has greater words. Without a least word it is that one.
fn next_near(keys: &HeadKeys, from: usize, least: Option<Sought>) -> usize
    requires { from ≤ length keys.now }
    ensures within { (from ≤ result) × (result ≤ length keys.now) }
    ensures passed { MatchOption least.entry (result ≡ from) (λ s. (k : ℕ) → from ≤ k → k < result
        → s.key < slice_index keys.now k) }
{
    match least {
        Some(sought) => keys.next_within(from, sought.key),
        None => from,
    }
}

/// Notes the places of the inputs that have the least word at their heads, in one scan of their
/// keys, and answers how many they are; none where no input stands at a word.
fn note_heads(inputs: &[Input], keys: &HeadKeys, found: &mut [usize]) -> Option<usize>
    requires keys { keys.now ≡ keys_of inputs.now }
    requires found { length inputs.now ≤ length found.old }
    ensures { NotesAs (heads_of inputs.now) found.new result }
{
    let mut noted = Noted {
        least: None,
        count: 0,
    };
    let mut i = 0;
    while i < inputs.len() {
        noted = note(noted, &inputs[i], keys.at(i), i, found);
        i = next_near(keys, i + 1, noted.least);
    }
    match noted.least {
        Some(_) => Some(noted.count),
        None => None,
    }
}

/// Passes a word: each input that has it at its head. Their next ones are not read yet.
fn pass_noted(inputs: &mut [Input], keys: &mut HeadKeys, found: &[usize])
    requires noted { AreNoted (heads_of inputs.old) found.now }
    requires keys { keys.old ≡ keys_of inputs.old }
    ensures passed { (w : List ℕ)
        → least_of (heads_of inputs.old) (length (heads_of inputs.old)) ≡ Some w
        → IsPassed (heads_of inputs.old) w (passed_of inputs.old) (passed_of inputs.new) }
    ensures lists { lists_of inputs.new ≡ lists_of inputs.old }
    ensures words { words_of inputs.new ≡ words_of inputs.old }
    ensures extents { extents_of inputs.new ≡ extents_of inputs.old }
    ensures hold { (bytes : List ℕ) → All (Holds bytes) inputs.old → All (Holds bytes) inputs.new }
    ensures rooms { (bytes : List ℕ) → All (IsRoomy bytes) inputs.old
        → All (IsRoomy bytes) inputs.new }
    ensures keys { keys.new ≡ keys_of inputs.new }
{
    for k in 0..found.len() {
        let i = found[k];
        let within = i < inputs.len();
        prove!(within);
        let input = &mut inputs[i];
        input.pass();
        keys.set(i, input.key);
    }
}

/// Reads the next word of each input whose last one was passed, so that each stands at a word, or
/// behind its last one.
fn read_heads<D: Disk>(
    disk: &mut D,
    inputs: &mut [Input],
    keys: &mut HeadKeys,
) -> Result<(), ReadFault>
    requires within { All (IsWithin (length (D.content disk.old))) inputs.old }
    requires keys { keys.old ≡ keys_of inputs.old }
    ensures read { OnOk result (All IsRead inputs.new) }
    ensures still { OnOk result (GoNowhere inputs.old inputs.new) }
    ensures hold { D.honest → All (Holds (D.content disk.old)) inputs.old
        → OnOk result (All (Holds (D.content disk.new)) inputs.new) }
    ensures undamaged { D.honest → (given : List MergeInput) (stored : List Stored)
        → HaveExtentsOf given inputs.old → All (Holds (D.content disk.old)) inputs.old
        → SpellsInputs (D.content disk.old) given stored
        → AreListed given (lists_of inputs.old) stored → IfErr result IsNoDamage }
    ensures roomy { D.honest → All (Holds (D.content disk.old)) inputs.old
        → All (IsRoomy (D.content disk.old)) inputs.old → IfErr result IsNoRefusal }
    ensures rooms { (bytes : List ℕ) → All (IsRoomy bytes) inputs.old
        → OnOk result (All (IsRoomy bytes) inputs.new) }
    ensures extents { extents_of inputs.new ≡ extents_of inputs.old }
    ensures lists { lists_of inputs.new ≡ lists_of inputs.old }
    ensures keys { keys.new ≡ keys_of inputs.new }
    ensures left { ReadsDisk D.Disk CountsReads result disk.old disk.new }
{
    let mut i = keys.next_within(0, UNREAD);
    while i < inputs.len() {
        let input = &mut inputs[i];
        let read = input.read(disk);
        keys.set(i, input.key);
        read?;
        i = keys.next_within(i + 1, UNREAD);
    }
    keys.raise_floors();
    Ok(())
}

/// Joins what the inputs that are noted leave of the list of the word at their heads. It takes no
/// memory.
fn join_noted<D: Disk>(
    disk: &mut D,
    inputs: &mut [Input],
    found: &[usize],
    list: &mut WordList,
) -> Result<(), SourceFault>
    requires noted { AreNoted (heads_of inputs.old) found.now }
    requires within { All (IsWithin (length (D.content disk.old))) inputs.old }
    requires room { All (HasRoom (length list.old.made.items)) inputs.old }
    ensures joined { D.honest → (given : List MergeInput) (stored : List Stored) (w : List ℕ)
        → HaveExtentsOf given inputs.old
        → All (Holds (D.content disk.old)) inputs.old
        → SpellsInputs (D.content disk.old) given stored
        → AreListed given (lists_of inputs.old) stored → CanHold stored (room_in list.old.joined)
        → least_of (heads_of inputs.old) (length (heads_of inputs.old)) ≡ Some w
        → IsAtHeads (heads_of inputs.old) w stored → MatchResult result
        (λ _. joined_in list.new.joined ≡ list_with w (live_in stored))
        (λ e. e ≡ SourceFault.Disk) }
    // Whatever the bytes are, no list that is none, or that goes past its extent, is joined.
    ensures whole { OnOk result
        (NotedAreWhole D.honest (D.content disk.old) inputs.old found.now) }
    ensures hold { D.honest → All (Holds (D.content disk.old)) inputs.old
        → OnOk result (All (Holds (D.content disk.new)) inputs.new) }
    ensures rooms { (bytes : List ℕ) → All (IsRoomy bytes) inputs.old
        → OnOk result (All (IsRoomy bytes) inputs.new) }
    ensures stand { StandAs inputs.old inputs.new }
    ensures room { room_in list.new.joined ≡ room_in list.old.joined }
    ensures made { length list.new.made.items ≡ length list.old.made.items }
    ensures left { ReadsDisk D.Disk CountsFaults result disk.old disk.new }
{
    list.joined.clear();
    for k in 0..found.len() {
        let i = found[k];
        let within = i < inputs.len();
        prove!(within);
        let input = &mut inputs[i];
        input.join(disk, list)?;
    }
    Ok(())
}

/// Reads the words at the heads of the inputs, and notes at the front the places of those that have
/// the least; none where all words were passed.
fn next_heads<D: Disk>(
    disk: &mut D,
    inputs: &mut [Input],
    keys: &mut HeadKeys,
    found: &mut [usize],
) -> Result<Option<usize>, ReadFault>
    requires within { All (IsWithin (length (D.content disk.old))) inputs.old }
    requires keys { keys.old ≡ keys_of inputs.old }
    requires found { length inputs.old ≤ length found.old }
    ensures noted { IfOk result (NotesAs (heads_of inputs.new) found.new) }
    ensures read { OnOk result (All IsRead inputs.new) }
    ensures still { OnOk result (GoNowhere inputs.old inputs.new) }
    ensures hold { D.honest → All (Holds (D.content disk.old)) inputs.old
        → OnOk result (All (Holds (D.content disk.new)) inputs.new) }
    ensures undamaged { D.honest → (given : List MergeInput) (stored : List Stored)
        → HaveExtentsOf given inputs.old → All (Holds (D.content disk.old)) inputs.old
        → SpellsInputs (D.content disk.old) given stored
        → AreListed given (lists_of inputs.old) stored → IfErr result IsNoDamage }
    ensures roomy { D.honest → All (Holds (D.content disk.old)) inputs.old
        → All (IsRoomy (D.content disk.old)) inputs.old → IfErr result IsNoRefusal }
    ensures rooms { (bytes : List ℕ) → All (IsRoomy bytes) inputs.old
        → OnOk result (All (IsRoomy bytes) inputs.new) }
    ensures extents { extents_of inputs.new ≡ extents_of inputs.old }
    ensures lists { lists_of inputs.new ≡ lists_of inputs.old }
    ensures keys { keys.new ≡ keys_of inputs.new }
    ensures left { ReadsDisk D.Disk CountsReads result disk.old disk.new }
{
    read_heads(disk, inputs, keys)?;
    Ok(note_heads(inputs, keys, found))
}

/// Passes words until the inputs leave numbers of one, whose numbers are then joined: the place of
/// an input that has it. It takes memory only for a word that is longer than those before it.
pub(crate) fn next_word<D: Disk>(
    disk: &mut D,
    inputs: &mut [Input],
    keys: &mut HeadKeys,
    found: &mut [usize],
    list: &mut WordList,
) -> Result<Option<usize>, ReadFault>
    requires keys { keys.old ≡ keys_of inputs.old }
    requires found { length inputs.old ≤ length found.old }
    requires within { All (IsWithin (length (D.content disk.old))) inputs.old }
    requires room { All (HasRoom (length list.old.made.items)) inputs.old }
    ensures passed { D.honest → (given : List MergeInput) (stored : List Stored)
        (xs ys : List (List ℕ)) → HaveExtentsOf given inputs.old
        → All (Holds (D.content disk.old)) inputs.old
        → SpellsInputs (D.content disk.old) given stored
        → AreListed given (lists_of inputs.old) stored → CanHold stored (room_in list.old.joined)
        → Walks (passed_of inputs.old) stored xs ys
        → MatchResult result (PassedAs (words_of inputs.new) (passed_of inputs.new) stored xs ys
        (joined_in list.new.joined)) IsNoDamage }
    // Whatever the bytes are, no word is passed whose list is none, or goes past its extent.
    ensures whole { OnOk result
        (PassWhole D.honest (D.content disk.old) inputs.old inputs.new) }
    // Nor is memory refused where there is room for each word.
    ensures roomy { D.honest → All (Holds (D.content disk.old)) inputs.old
        → All (IsRoomy (D.content disk.old)) inputs.old → IfErr result IsNoRefusal }
    ensures rooms { (bytes : List ℕ) → All (IsRoomy bytes) inputs.old
        → OnOk result (All (IsRoomy bytes) inputs.new) }
    ensures lists { lists_of inputs.new ≡ lists_of inputs.old }
    ensures extents { extents_of inputs.new ≡ extents_of inputs.old }
    ensures keys { keys.new ≡ keys_of inputs.new }
    ensures fewer { IfOk result (λ o. IfSome o (λ _.
        to_come (lists_of inputs.old) (passed_of inputs.new) (length (lists_of inputs.old))
        < to_come (lists_of inputs.old) (passed_of inputs.old) (length (lists_of inputs.old)))) }
    // None is answered where all words were passed, whatever the bytes are.
    ensures ended { IfOk result (λ o. IfNone o
        (to_come (lists_of inputs.new) (passed_of inputs.new) (length (lists_of inputs.new)) ≡ 0)) }
    ensures room { room_in list.new.joined ≡ room_in list.old.joined }
    ensures made { length list.new.made.items ≡ length list.old.made.items }
    ensures left { ReadsDisk D.Disk CountsReads result disk.old disk.new }
{
    'words: while let Some(count) = next_heads(disk, inputs, keys, found)? {
        let noted = &found[..count];
        join_noted(disk, inputs, noted, list)?;
        pass_noted(inputs, keys, noted);
        if !list.joined.numbers().is_empty() {
            return Ok(Some(noted[0]));
        }
    }
    Ok(None)
}

/// Goes back before the first word of each input, and takes room for the longest word of each that
/// was passed.
pub(crate) fn restart_all(inputs: &mut [Input], keys: &mut HeadKeys) -> Result<(), AllocError>
    requires { keys.old ≡ keys_of inputs.old }
    ensures before { OnOk result (All IsBefore inputs.new) }
    ensures roomy { (bytes : List ℕ) → All (Holds bytes) inputs.old → All HasEnded inputs.old
        → OnOk result (All (IsRoomy bytes) inputs.new) }
    ensures lists { lists_of inputs.new ≡ lists_of inputs.old }
    ensures extents { extents_of inputs.new ≡ extents_of inputs.old }
    ensures keys { keys.new ≡ keys_of inputs.new }
{
    for i in 0..inputs.len() {
        let input = &mut inputs[i];
        let room = input.restart();
        keys.set(i, input.key);
        room?;
    }
    Ok(())
}
