//! Laws of rising lists and of a number put in. Each is a function without a body: its contract is
//! the law.

ghost use Rattle.std.specs.Prelude.{◌≡◌, ◌==◌, ◌||◌, ◌+◌, ◌<◌, ◌≤◌, ◌^◌, ℕ, List, length};
ghost use Rattle.std.specs.Prelude.{true, false};
ghost use Rattle.std.specs.List.{list_any};
ghost use Rattle.std.specs.List.Sorted.{IsStrictlyIncreasing};
ghost use Rattle.pk_posting.specs.Limits.{longest_list};
ghost use Rattle.pk_posting.specs.Posting.{IsPosting};
ghost use Rattle.pk_dead.specs.Sets.{with_number};

/// A rising list rises with a number put in.
#[tactic(auto, using(crate::proofs::SetLemmas::with_rises))]
pub fn a_list_with_a_number_rises()
    ensures { (n : ℕ) (ns : List ℕ)
        → IsStrictlyIncreasing ns → IsStrictlyIncreasing (with_number n ns) }
{}

/// A posting list stays one.
#[tactic(auto, using(crate::proofs::PostingLemmas::posting_with))]
pub fn a_posting_list_with_a_number_is_one()
    ensures { (n : ℕ) (ns : List ℕ) → IsPosting ns → 1 ≤ n → n < 2 ^ 32 → length ns < longest_list
        → IsPosting (with_number n ns) }
{}

/// The number is in the list then, and besides it just what was there.
#[tactic(auto, using(crate::proofs::SetLemmas::with_members))]
pub fn members_of_a_list_with_a_number()
    ensures { (n k : ℕ) (ns : List ℕ)
        → list_any (λ m. m == k) (with_number n ns) ≡ (k == n || list_any (λ m. m == k) ns) }
{}

/// A number that was there changes nothing; another one makes the list longer by one.
#[tactic(auto, using(crate::proofs::SetLemmas::with_there, crate::proofs::SetLemmas::with_longer))]
pub fn length_of_a_list_with_a_number()
    ensures there { (n : ℕ) (ns : List ℕ) → IsStrictlyIncreasing ns
        → list_any (λ m. m == n) ns ≡ true → with_number n ns ≡ ns }
    ensures longer { (n : ℕ) (ns : List ℕ)
        → list_any (λ m. m == n) ns ≡ false → length (with_number n ns) ≡ length ns + 1 }
{}

/// A rising list whose numbers are all in another is no longer than that one.
#[tactic(auto, using(crate::proofs::SetLemmas::no_longer))]
pub fn a_part_is_no_longer()
    ensures { (xs ys : List ℕ) → IsStrictlyIncreasing xs → IsStrictlyIncreasing ys
        → ((k : ℕ) → list_any (λ m. m == k) xs ≡ true → list_any (λ m. m == k) ys ≡ true)
        → length xs ≤ length ys }
{}

/// A set of numbers has one rising list.
#[tactic(auto, using(crate::proofs::SetLemmas::same_members))]
pub fn a_set_has_one_rising_list()
    ensures { (xs ys : List ℕ) → IsStrictlyIncreasing xs → IsStrictlyIncreasing ys
        → ((k : ℕ) → list_any (λ m. m == k) xs ≡ list_any (λ m. m == k) ys) → xs ≡ ys }
{}
