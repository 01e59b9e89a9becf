//! Laws of the operations. Each is a function without a body: its contract is the law.

ghost use Rattle.std.specs.Prelude.{◌≡◌, ℕ, List, ◌+◌, ◌≤◌, ◌&&◌, ◌||◌, not, length, min};
ghost use Rattle.std.specs.List.Sorted.{IsStrictlyIncreasing};
ghost use Rattle.pk_sets.specs.Sets.{intersection, union, difference, has};

/// What is in a result, by what is in the lists.
pub fn members_of_results()
    ensures intersection { (xs ys : List ℕ) (n : ℕ)
        → has (intersection xs ys) n ≡ (has xs n && has ys n) }
    ensures union { (xs ys : List ℕ) (n : ℕ)
        → has (union xs ys) n ≡ (has xs n || has ys n) }
    ensures difference { (xs ys : List ℕ) (n : ℕ)
        → has (difference xs ys) n ≡ (has xs n && not (has ys n)) }
{}

/// A result rises strictly, as its lists do.
pub fn results_rise()
    ensures intersection { (xs ys : List ℕ)
        → IsStrictlyIncreasing xs → IsStrictlyIncreasing (intersection xs ys) }
    ensures union { (xs ys : List ℕ)
        → IsStrictlyIncreasing ys → IsStrictlyIncreasing (union xs ys) }
    ensures difference { (xs ys : List ℕ)
        → IsStrictlyIncreasing xs → IsStrictlyIncreasing (difference xs ys) }
{}

/// A set has one rising list.
pub fn a_set_has_one_rising_list()
    ensures { (xs ys : List ℕ) → IsStrictlyIncreasing xs → IsStrictlyIncreasing ys
        → ((n : ℕ) → has xs n ≡ has ys n) → xs ≡ ys }
{}

/// It does not matter which list is the first.
pub fn either_list_may_be_first()
    ensures intersection { (xs ys : List ℕ) → IsStrictlyIncreasing xs → IsStrictlyIncreasing ys
        → intersection xs ys ≡ intersection ys xs }
    ensures union { (xs ys : List ℕ) → IsStrictlyIncreasing xs → IsStrictlyIncreasing ys
        → union xs ys ≡ union ys xs }
{}

/// How many numbers the results have.
pub fn sizes_of_results()
    ensures intersection { (xs ys : List ℕ) → IsStrictlyIncreasing xs → IsStrictlyIncreasing ys
        → length (intersection xs ys) ≤ min (length xs) (length ys) }
    ensures union { (xs ys : List ℕ) → IsStrictlyIncreasing xs → IsStrictlyIncreasing ys
        → length (union xs ys) + length (intersection xs ys) ≡ length xs + length ys }
    ensures at_most { (xs ys : List ℕ) → length (union xs ys) ≤ length xs + length ys }
    ensures difference { (xs ys : List ℕ)
        → length (difference xs ys) + length (intersection xs ys) ≡ length xs }
{}
