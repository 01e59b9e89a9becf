//! Laws of variable bytes, as functions without a body whose contract is the law.

ghost use Rattle.std.specs.Prelude.{◌≡◌, ℕ, ◌<◌, ◌^◌, ◌++◌, List, length, take, Ok};
ghost use Rattle.pk_vbyte.specs.VariableByte.{vbyte, taken};

/// No number's bytes begin those of another: what bytes begin with is one number, and one rest.
#[tactic(auto, using(crate::proofs::Prefix::same_first))]
pub fn no_number_begins_another()
    ensures { (v w : ℕ) (r s : List ℕ) → vbyte v ++ r ≡ vbyte w ++ s → (v ≡ w) × (r ≡ s) }
{}

/// A number that is spelled is taken, whatever follows it.
#[tactic(auto, using(crate::proofs::CallerLemmas::taken_vbyte))]
pub fn a_spelled_number_is_taken()
    ensures { (v : ℕ) (rest : List ℕ) → v < 2 ^ 32
        → taken (vbyte v ++ rest) ≡ Ok (v, length (vbyte v)) }
{}

/// Five bytes decide: what follows them changes no answer.
#[tactic(auto, using(crate::proofs::CallerLemmas::taken_five))]
pub fn five_bytes_decide()
    ensures { (bytes : List ℕ) → taken (take 5 bytes) ≡ taken bytes }
{}
