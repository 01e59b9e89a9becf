//! The law of filters, as a function without a body whose contract is the law.

ghost use Rattle.std.specs.Prelude.{◌≡◌, ℕ, List, None};
ghost use Rattle.pk_dict.specs.Dictionary.{Item, entry_of};
ghost use Rattle.pk_filter.specs.Filter.{HasAll, Passes};
ghost use Rattle.pk_filter.specs.Hashed.{hashed};
ghost use Rattle.pk_filter.specs.declared.filter.WordFilter.{WordFilter};

/// A word that does not pass a filter of all words of a dictionary has no entry there.
pub fn what_does_not_pass_has_no_entry()
    ensures { (es : List Item) (filter : WordFilter) (word : List ℕ) → HasAll es filter
        → (Passes filter (hashed word) → ⊥) → entry_of es word ≡ None }
{}
