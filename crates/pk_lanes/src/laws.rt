//! Laws of packed blocks. Each is a function without a body: its contract is the law.

ghost use Rattle.std.specs.Prelude.{◌≡◌, ℕ, List, ◌<◌, All};
ghost use Rattle.pk_lanes.specs.Packed.{Packed};

/// Numbers have one packed form at a width.
pub fn numbers_have_one_packed_form()
    ensures { (p q : List ℕ) (b : ℕ) (xs : List ℕ)
        → All (λ byte. byte < 256) p → All (λ byte. byte < 256) q
        → Packed p b xs → Packed q b xs → p ≡ q }
{}

/// A packed block is of one list of numbers.
pub fn a_packed_block_is_of_one_list()
    ensures { (p : List ℕ) (b : ℕ) (xs ys : List ℕ) → Packed p b xs → Packed p b ys → xs ≡ ys }
{}
