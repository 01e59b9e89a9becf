//! The operands of a chain of `AND`, and the plans of operands.

ghost use Rattle.std.specs.Prelude.{◌≡◌, ◌&&◌, ◌+◌, ◌<◌, ◌≤◌, ℕ, List, length, map, not, slice_index, string_bytes};
ghost use Rattle.std.specs.Prelude.{◌||◌, ◌^◌, IfOk, OnOk, false, true};
ghost use Rattle.std.specs.List.{list_any};
ghost use Rattle.std.specs.Simd.Lanes.{Each1};
ghost use Rattle.pk_plan.specs.Operands.{
  IsInOrder,
  all_take,
  any_takes,
  operands_read,
  operands_take,
  phrases_take,
};
ghost use Rattle.pk_plan.specs.Order.{all_ordered, all_parts, frequency_of, in_order, is_ordered, standing};
ghost use Rattle.pk_plan.specs.Rows.{
  AllRest,
  HasEach,
  IsNarrowed,
  IsPutOnce,
  OperandsRest,
  RestsOnWords,
  StandAt,
  has_each,
  row_of,
};
ghost use Rattle.pk_plan.specs.Texts.{reads_texts};
ghost use Rattle.pk_plan.specs.Plans.{Without, operation_of, row_at, takes, word_at};

use crate::plans::Plan;
use smallvec::SmallVec;
use std::alloc::{AllocError, Global};

// Where the words of a phrase stand: from a place on, so many.
#[derive(Clone, Copy)]
pub(crate) struct PhrasePlaces {
    pub(crate) first: usize,
    pub(crate) count: usize,
}

// What a chain of `AND` asks: the places of the words that a document holds, by rising frequency,
// those of phrases among them; the other parts that have it, which are unions; the parts that do
// not; and the phrases.
#[derive(Drop)]
pub(crate) struct Operands {
    pub(crate) places: SmallVec<usize, 4>,
    pub(crate) parts: Vec<Plan>,
    pub(crate) excluded: Vec<Plan>,
    pub(crate) phrases: Vec<PhrasePlaces>,
}

impl Operands {
    pub(crate) fn new(alloc: Global) -> Operands
        ensures all { (asked words : List (List ℕ)) → operands_take asked words result ≡ true }
        ensures order { (table : _) (from : ℕ) → IsInOrder table from result }
        ensures texts { operands_read result ≡ false }
        ensures rows { (asked : List (List ℕ)) → OperandsRest asked result }
    {
        Operands {
            places: SmallVec::new(alloc),
            parts: Vec::new(alloc),
            excluded: Vec::new(alloc),
            phrases: Vec::new(alloc),
        }
    }

    // One word more, by its place, which is before those of all others, so it goes before those
    // that are no rarer.
    pub(crate) fn put_term(&mut self, table: &[u32], place: usize) -> Result<(), AllocError>
        requires order { IsInOrder table.now (place + 1) self.old }
        ensures same { OnOk result ((asked words : List (List ℕ))
            → operands_take asked words self.new
            ≡ (takes (word_at asked place) words && operands_take asked words self.old)) }
        ensures order { OnOk result (IsInOrder table.now place self.new) }
        ensures texts { OnOk result (operands_read self.new ≡ operands_read self.old) }
        ensures narrowed { OnOk result (IsNarrowed self.old self.new) }
        ensures held { OnOk result ((asked words : List (List ℕ))
            → all_take asked words self.new.places.items self.new.parts.items ≡ true
            → takes (word_at asked place) words ≡ true) }
    {
        let before = rank_of(table, self.places.as_slice(), frequency_at(table, place));
        self.places.insert(before, place)?;
        Ok(())
    }

    // One phrase more, whose words stand from the place on, before all others. Each word is put
    // among the words once, however often the phrase has it.
    pub(crate) fn put_phrase(
        &mut self,
        table: &[u32],
        first: usize,
        row: &[String],
    ) -> Result<(), AllocError>
        requires order { IsInOrder table.now (first + length row.now) self.old }
        requires room { first + length row.now < 2 ^ 64 }
        ensures same { OnOk result ((asked words : List (List ℕ))
            → operands_take asked words self.new
            ≡ (takes (row_at asked first (length row.now)) words
            && operands_take asked words self.old)) }
        ensures order { OnOk result (IsInOrder table.now first self.new) }
        ensures rows { OnOk result ((asked : List (List ℕ))
            → StandAt asked first (map string_bytes row.now) → OperandsRest asked self.old
            → OperandsRest asked self.new) }
    {
        self.put_words(table, first, row)?;
        self.phrases.push(PhrasePlaces {
            first,
            count: row.len(),
        })?;
        Ok(())
    }

    // The words of a phrase, from its last one on, so that each goes before those of its frequency.
    // They change nothing where the phrase stands.
    fn put_words(&mut self, table: &[u32], first: usize, row: &[String]) -> Result<(), AllocError>
        requires order { IsInOrder table.now (first + length row.now) self.old }
        requires room { first + length row.now < 2 ^ 64 }
        ensures same { OnOk result ((asked words : List (List ℕ))
            → takes (row_at asked first (length row.now)) words ≡ true
            → operands_take asked words self.new ≡ operands_take asked words self.old) }
        ensures order { OnOk result (IsInOrder table.now first self.new) }
        ensures narrowed { OnOk result (IsNarrowed self.old self.new) }
        ensures held { OnOk result ((asked : List (List ℕ))
            → StandAt asked first (map string_bytes row.now)
            → HasEach asked self.new (map string_bytes row.now)) }
    {
        let mut left = row.len();
        'words: while left > 0 {
            left -= 1;
            self.put_once(table, first, row, left)?;
        }
        Ok(())
    }

    // One word of a phrase, if the phrase has not had it before.
    fn put_once(
        &mut self,
        table: &[u32],
        first: usize,
        row: &[String],
        i: usize,
    ) -> Result<(), AllocError>
        requires within { i < length row.now }
        requires order { IsInOrder table.now (first + i + 1) self.old }
        requires room { first + length row.now < 2 ^ 64 }
        ensures same { OnOk result ((asked words : List (List ℕ))
            → takes (row_at asked first (length row.now)) words ≡ true
            → operands_take asked words self.new ≡ operands_take asked words self.old) }
        ensures order { OnOk result (IsInOrder table.now (first + i) self.new) }
        ensures narrowed { OnOk result (IsNarrowed self.old self.new) }
        ensures held { OnOk result ((asked : List (List ℕ))
            → StandAt asked first (map string_bytes row.now)
            → IsPutOnce asked self.new (map string_bytes row.now) i) }
    {
        if row[..i].contains(&row[i]) {
            return Ok(());
        }
        self.put_term(table, first + i)?;
        Ok(())
    }

    // One part more, which is a union, before the others.
    pub(crate) fn put_part(&mut self, part: Plan) -> Result<(), AllocError>
        ensures same { OnOk result ((asked words : List (List ℕ))
            → operands_take asked words self.new
            ≡ (takes (operation_of asked part) words && operands_take asked words self.old)) }
        ensures order { OnOk result ((table : _) (from : ℕ) → is_ordered table part ≡ true
            → (standing table part).union ≡ true → IsInOrder table from self.old
            → IsInOrder table from self.new) }
        ensures texts { OnOk result (reads_texts part ≡ false → operands_read self.old ≡ false
            → operands_read self.new ≡ false) }
        ensures rows { OnOk result ((asked : List (List ℕ))
            → RestsOnWords (operation_of asked part) → OperandsRest asked self.old
            → OperandsRest asked self.new) }
    {
        self.parts.insert(0, part)?;
        Ok(())
    }

    // One part more that is ruled out, before the others.
    pub(crate) fn rule_out(&mut self, part: Plan) -> Result<(), AllocError>
        ensures same { OnOk result ((asked words : List (List ℕ))
            → operands_take asked words self.new
            ≡ (not (takes (operation_of asked part) words) && operands_take asked words self.old)) }
        ensures order { OnOk result ((table : _) (from : ℕ) → is_ordered table part ≡ true
            → IsInOrder table from self.old → IsInOrder table from self.new) }
        ensures texts { OnOk result (reads_texts part ≡ false → operands_read self.old ≡ false
            → operands_read self.new ≡ false) }
        ensures rows { OnOk result ((asked : List (List ℕ))
            → RestsOnWords (operation_of asked part) → OperandsRest asked self.old
            → OperandsRest asked self.new) }
    {
        self.excluded.insert(0, part)?;
        Ok(())
    }

    // The plan that takes what all operands take. Texts are read last, so phrases stand around.
    pub(crate) fn plan(self, alloc: Global) -> Result<Plan, AllocError>
        ensures same { IfOk result (λ plan. (asked words : List (List ℕ))
            → takes (operation_of asked plan) words ≡ operands_take asked words self) }
        ensures order { IfOk result (λ plan. (table : _) (from : ℕ) → IsInOrder table from self
            → is_ordered table plan ≡ true) }
        ensures texts { IfOk result (λ plan. operands_read self ≡ false
            → reads_texts plan ≡ false) }
        ensures rows { IfOk result (λ plan. (asked : List (List ℕ)) → OperandsRest asked self
            → RestsOnWords (operation_of asked plan)) }
    {
        let Operands {
            places,
            parts,
            excluded,
            phrases,
        } = self;
        let all = intersected(places, parts);
        let left = remaining(alloc, all, excluded)?;
        let plan = with_phrases(alloc, left, phrases.as_slice())?;
        Ok(plan)
    }
}

// The plan that takes what all places and parts take.
fn intersected(mut places: SmallVec<usize, 4>, mut parts: Vec<Plan>) -> Plan
    ensures same { (asked words : List (List ℕ))
        → takes (operation_of asked result) words ≡ all_take asked words places.items parts.items }
    ensures order { (table : _) → in_order table places.items ≡ true
        → all_parts table parts.items ≡ true → is_ordered table result ≡ true }
    ensures texts { list_any reads_texts parts.items ≡ false → reads_texts result ≡ false }
    ensures rows { (asked : List (List ℕ)) → AllRest asked parts.items
        → RestsOnWords (operation_of asked result) }
{
    if parts.is_empty() && places.len() < 2 {
        return match places.pop() {
            Some(place) => Plan::Term(place),
            None => Plan::All,
        };
    }
    if places.is_empty() && parts.len() < 2 {
        return match parts.pop() {
            Some(part) => part,
            None => Plan::All,
        };
    }
    Plan::Intersect(places, parts)
}

// The plan that takes what one of the plans takes.
pub(crate) fn united(mut plans: Vec<Plan>) -> Plan
    ensures same { (asked words : List (List ℕ))
        → takes (operation_of asked result) words ≡ any_takes asked words plans.items }
    ensures order { (table : _) → all_ordered table plans.items ≡ true
        → is_ordered table result ≡ true }
    ensures union { (table : _) → 1 < length plans.items → (standing table result).union ≡ true }
    ensures texts { list_any reads_texts plans.items ≡ false → reads_texts result ≡ false }
    ensures rows { (asked : List (List ℕ)) → AllRest asked plans.items
        → RestsOnWords (operation_of asked result) }
{
    if plans.len() == 1 {
        return match plans.pop() {
            Some(plan) => plan,
            None => Plan::All,
        };
    }
    Plan::Unite(plans)
}

// The plan that takes what the first takes and none of the others does.
fn remaining(alloc: Global, all: Plan, excluded: Vec<Plan>) -> Result<Plan, AllocError>
    ensures same { IfOk result (λ plan. (asked words : List (List ℕ))
        → takes (operation_of asked plan) words ≡ (takes (operation_of asked all) words
        && not (any_takes asked words excluded.items))) }
    ensures order { IfOk result (λ plan. (table : _) → is_ordered table all ≡ true
        → all_ordered table excluded.items ≡ true → is_ordered table plan ≡ true) }
    ensures texts { IfOk result (λ plan. reads_texts all ≡ false
        → list_any reads_texts excluded.items ≡ false → reads_texts plan ≡ false) }
    ensures rows { IfOk result (λ plan. (asked : List (List ℕ))
        → RestsOnWords (operation_of asked all) → AllRest asked excluded.items
        → RestsOnWords (operation_of asked plan)) }
{
    if excluded.is_empty() {
        return Ok(all);
    }
    let plan = excluding(alloc, all, united(excluded))?;
    Ok(plan)
}

// The plan that takes what the plan and all phrases take.
fn with_phrases(alloc: Global, all: Plan, phrases: &[PhrasePlaces]) -> Result<Plan, AllocError>
    ensures same { IfOk result (λ plan. (asked words : List (List ℕ))
        → takes (operation_of asked plan) words ≡ (takes (operation_of asked all) words
        && phrases_take asked words phrases.now)) }
    ensures order { IfOk result (λ plan. (table : _) → is_ordered table plan
        ≡ is_ordered table all) }
    ensures texts { IfOk result (λ plan. length phrases.now ≡ 0
        → reads_texts plan ≡ reads_texts all) }
    ensures rows { IfOk result (λ plan. (asked : List (List ℕ))
        → RestsOnWords (operation_of asked all)
        → Each1 (λ p. (words : List (List ℕ)) → takes (operation_of asked all) words ≡ true
        → has_each (row_of asked p) words ≡ true) phrases.now
        → RestsOnWords (operation_of asked plan)) }
{
    let mut plan = all;
    'phrases: for i in 0..phrases.len() {
        let PhrasePlaces { first, count } = phrases[i];
        plan = Plan::Phrase(Box::new(alloc, plan)?, first, count);
    }
    Ok(plan)
}

// The plan that takes what the first takes and the second does not.
fn excluding(alloc: Global, all: Plan, less: Plan) -> Result<Plan, AllocError>
    ensures same { IfOk result (λ plan. (asked : List (List ℕ))
        → operation_of asked plan ≡ Without (operation_of asked all) (operation_of asked less)) }
    ensures order { IfOk result (λ plan. (table : _) → is_ordered table plan
        ≡ (is_ordered table all && is_ordered table less)) }
    ensures texts { IfOk result (λ plan. reads_texts plan
        ≡ (reads_texts all || reads_texts less)) }
{
    let all = Box::new(alloc, all)?;
    let less = Box::new(alloc, less)?;
    Ok(Plan::Exclude(all, less))
}

// The frequency of the word at a place, 0 where the table ends before it.
fn frequency_at(table: &[u32], place: usize) -> u32
    ensures { result ≡ frequency_of table.now place }
{
    if place >= table.len() {
        return 0;
    }
    table[place]
}

// How many places stand before the first whose frequency is no lower.
fn rank_of(table: &[u32], places: &[usize], frequency: u32) -> usize
    ensures within { result ≤ length places.now }
    ensures below { (i : ℕ) → i < result
        → frequency_of table.now (slice_index places.now i) < frequency }
    ensures reaches { result < length places.now
        → frequency ≤ frequency_of table.now (slice_index places.now result) }
{
    for i in 0..places.len() {
        if frequency <= frequency_at(table, places[i]) {
            return i;
        }
    }
    places.len()
}
