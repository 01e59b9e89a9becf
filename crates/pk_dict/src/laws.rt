//! Laws of dictionaries, as functions without a body whose contract is the law.

ghost use Rattle.std.specs.Prelude.{◌≡◌, ◌≤◌, ◌+◌, ◌++◌, ℕ, List, length, Ok};
ghost use Rattle.std.specs.List.{AllByRecursion};
ghost use Rattle.pk_dict.specs.Dictionary.{DictSpells, Item, entry_of, items_with_prefix, spelling};
ghost use Rattle.pk_dict.specs.Entries.{entries_at};
ghost use Rattle.pk_dict.specs.LookUp.{look_up_at};
ghost use Rattle.pk_dict.specs.Place.{bytes_at};
ghost use Rattle.pk_dict.specs.Said.{words_of};
ghost use Rattle.pk_dict.specs.declared.entry.DictPlace.{DictPlace};

/// A dictionary's bytes have one list of entries: bytes of so many terms are a dictionary of one
/// list.
#[tactic(auto, using(crate::proofs::Same::same_items))]
pub fn bytes_have_one_list()
    ensures { (b : List ℕ) (es fs : List Item) → DictSpells b es → DictSpells b fs
        → length es ≡ length fs → es ≡ fs }
{}

/// A list of entries has one spelling.
#[tactic(auto, using(crate::proofs::Same::same_spelling))]
pub fn a_list_has_one_spelling()
    ensures { (b c : List ℕ) (es : List Item) → DictSpells b es → DictSpells c es → b ≡ c }
{}

/// What a look-up answers for any bytes is, where they are a dictionary, the term's entry.
#[tactic(auto, using(crate::proofs::LookUpLaw::look_up_law))]
pub fn a_dictionary_says_its_entries()
    ensures { (b : List ℕ) (es : List Item) (terms : ℕ) (term : List ℕ) → DictSpells b es
        → length es ≡ terms → look_up_at b terms term ≡ Ok (entry_of es term) }
{}

/// What a prefix search answers for any bytes is, where they are a dictionary, its items that begin
/// with the prefix.
#[tactic(auto, using(crate::proofs::EntriesLaw::entries_law))]
pub fn a_dictionary_says_its_items()
    ensures { (b : List ℕ) (es : List Item) (terms : ℕ) (prefix : List ℕ) → DictSpells b es
        → length es ≡ terms → entries_at b terms prefix ≡ Ok (items_with_prefix prefix es) }
{}

/// The words that any bytes say are, where they are a dictionary, those of its items.
#[tactic(auto, using(crate::proofs::SaidLaw::words_said))]
pub fn a_dictionary_says_its_words()
    ensures { (content : List ℕ) (place : DictPlace) (es : List Item)
        → place.at + place.bytes ≤ length content → DictSpells (bytes_at content place) es
        → length es ≡ place.terms → words_of content place ≡ Ok es }
{}

/// A dictionary has a byte for each of its terms, no fewer bytes than any of them, and no fewer
/// than with fewer terms.
pub fn a_dictionary_is_this_long()
    ensures terms { (es : List Item) → length es ≤ length (spelling es) }
    ensures each { (es : List Item)
        → AllByRecursion (λ (e : Item). length e.term ≤ length (spelling es)) es }
    ensures more { (es fs : List Item) → length (spelling es) ≤ length (spelling (es ++ fs)) }
{}
