//! Plans that find nothing in a segment, as the entries of their words tell alone.
ghost use Rattle.std.specs.Prelude.{◌≡◌, ◌++◌, [], ℕ, List, map, true};
ghost use Rattle.pk_model.specs.Collection.{Doc};
ghost use Rattle.pk_plan.specs.Plans.{Operation, both_all, either_all, found, operation_of, word_at};
ghost use Rattle.pk_lookup.specs.Matching.{AreEntriesOf};

use crate::listed::entry_at;
use pk_dict::Entry;
use pk_plan::Plan;

/// Whether a plan finds nothing where its words have these entries, as far as it can be told at
/// once: a word that it wants has none, or in a union each part wants such a word. Then nothing of
/// the segment is to be read.
pub fn finds_nothing(plan: &Plan, entries: &[Option<Entry>]) -> bool
    ensures { (words : List (List ℕ)) (docs : List Doc) → AreEntriesOf entries.now words docs
        → result ≡ true → found (operation_of words plan.now) docs ≡ [] }
{
    match plan {
        Plan::Unite(parts) => all_miss(parts, entries),
        Plan::Exclude(all, _) => misses(all, entries),
        Plan::Phrase(all, _, _) => misses(all, entries),
        _ => misses(plan, entries),
    }
}

// Whether a word that the plan wants has no entry.
fn misses(plan: &Plan, entries: &[Option<Entry>]) -> bool
    ensures { (words : List (List ℕ)) (docs : List Doc) → AreEntriesOf entries.now words docs
        → result ≡ true → found (operation_of words plan.now) docs ≡ [] }
{
    match plan {
        Plan::Term(place) => entry_at(entries, *place).is_none(),
        Plan::Intersect(places, _) => one_misses(places.as_slice(), entries),
        _ => false,
    }
}

// Whether one of the words at the places has no entry.
fn one_misses(places: &[usize], entries: &[Option<Entry>]) -> bool
    ensures { (words : List (List ℕ)) (docs : List Doc) → AreEntriesOf entries.now words docs
        → result ≡ true → (os : List Operation)
        → found (both_all (map (word_at words) places.now ++ os)) docs ≡ [] }
{
    for i in 0..places.len() {
        if entry_at(entries, places[i]).is_none() {
            return true;
        }
    }
    false
}

// Whether each of the plans misses a word.
fn all_miss(parts: &Vec<Plan>, entries: &[Option<Entry>]) -> bool
    ensures { (words : List (List ℕ)) (docs : List Doc) → AreEntriesOf entries.now words docs
        → result ≡ true
        → found (either_all (map (operation_of words) parts.now.items)) docs ≡ [] }
{
    for i in 0..parts.len() {
        if !misses(&parts[i], entries) {
            return false;
        }
    }
    true
}
