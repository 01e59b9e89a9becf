//! Laws of posting lists, as functions without a body whose contract is the law.

ghost use Rattle.std.specs.Prelude.{◌≡◌, ℕ, List, length};
ghost use Rattle.pk_posting.specs.Posting.{IsPosting, Spells};
ghost use Rattle.pk_posting.specs.Spelling.{AreBytes, spelled_length, spelling};

/// Bytes spell at most one list.
#[tactic(auto, using(crate::proofs::OneListLemmas::one_list))]
pub fn a_spelling_is_of_one_list()
    ensures { (bytes xs ys : List ℕ) → Spells bytes xs → Spells bytes ys → xs ≡ ys }
{}

/// A list has at most one spelling.
#[tactic(auto, using(crate::proofs::ByteLemmas::one_spelling_of))]
pub fn a_list_has_one_spelling()
    ensures { (a b xs : List ℕ) → AreBytes a → AreBytes b → Spells a xs → Spells b xs → a ≡ b }
{}

/// A list has a spelling.
#[tactic(auto, using(crate::proofs::SpellingLemmas::spelling_spells))]
pub fn a_list_has_a_spelling()
    ensures { (xs : List ℕ) → IsPosting xs → Spells (spelling xs) xs }
{}

/// A spelling is made of bytes.
#[tactic(auto, using(crate::proofs::ByteLemmas::bytes_spelling))]
pub fn a_spelling_is_made_of_bytes()
    ensures { (xs : List ℕ) → IsPosting xs → AreBytes (spelling xs) }
{}

/// Bytes that spell a list are its spelling.
#[tactic(auto, using(crate::proofs::ByteLemmas::spelling_is))]
pub fn what_spells_a_list_is_its_spelling()
    ensures { (bytes xs : List ℕ) → AreBytes bytes → Spells bytes xs → bytes ≡ spelling xs }
{}

/// What spells a list is as long as its numbers say.
#[tactic(auto, using(crate::proofs::WritingLemmas::spelling_long))]
pub fn a_spelling_is_this_long()
    ensures { (bytes xs : List ℕ) → Spells bytes xs → length bytes ≡ spelled_length xs }
{}
